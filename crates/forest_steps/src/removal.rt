//! The removal of all that is lost or ends with a node.
ghost use Rattle.std.specs.Prelude.{◌≡◌, ◌≤◌, List, Some, IsSome, vec_capacity};
ghost use Rattle.std.specs.List.{All};
ghost use Rattle.sm_names.specs.declared.keys.NodeKey.{NodeKey as Key};
ghost use Rattle.node_table.specs.Table.{row_at, table_len};
ghost use Rattle.forest_steps.specs.Removal.{IsGoneSo, head_over};
ghost use Rattle.forest_store.specs.CollectionRows.{CollectionRow};
ghost use Rattle.forest_steps.specs.MidEvent.{MayGo};
ghost use Rattle.forest_store.specs.Stores.{AreNamed, nodes_in};
ghost use Rattle.forest_steps.specs.StoreSteps.{AfterRemovalIn, MidEventIn};

use failure_domains::fall_into;
use forest_store::entry::Entry;
use forest_store::loss_marks::RemovalKind;
use forest_store::node::Node;
use forest_store::removed_nodes::remove_all;
use forest_store::reserved::without;
use forest_store::store::NodeStore;
use forest_store::unkept::note_gone;
use node_table::NodeTable;
use sm_names::{Fault, NodeKey};

/// The head of the unit that the parent of the first of these is in, if it has a parent. They are all there.
fn head_over(table: &NodeTable<Node>, keys: &[NodeKey]) -> Option<NodeKey>
    requires { All (λ (k : Key). IsSome (row_at table.now k)) keys.now }
    ensures { result ≡ head_over table.now keys.now }
{
    let Some((key, _)) = keys.split_first() else {
        return None;
    };
    let parent = table.kept_parent(*key)?;
    Some(table.kept(parent).head)
}

/// Removes each node that a failure of this node takes, and subtracts it from the counts of its unit and
/// its collection; a node that may be forgotten then is noted. Answers the head of the unit right above
/// the removed nodes, if there is one.
///
/// Costs O(1) for each node that the failure climbs over, and for each that is removed. Takes no
/// memory.
fn remove_taken(
    nodes: &mut NodeStore,
    entry: &mut Entry,
    origin: NodeKey,
    going: &RemovalKind,
    keys: &mut Vec<NodeKey>,
) -> Option<NodeKey>
    requires room { table_len nodes.old.table ≤ vec_capacity keys.old }
    requires named { AreNamed nodes.old.table }
    requires there { IsSome (row_at nodes.old.table origin) }
    ensures gone { IsGoneSo nodes.old.table nodes.new.table nodes.old.units.items
        nodes.new.units.items entry.old entry.new going.now origin keys.new.items }
    ensures above { result ≡ head_over nodes.old.table keys.new.items }
    ensures room { vec_capacity keys.old ≤ vec_capacity keys.new }
{
    fall_into(&nodes.table, origin, keys).unwrap();
    let above = head_over(&nodes.table, keys);
    let removed = remove_all(&mut nodes.table, &mut nodes.units, keys, going);
    entry.strong = entry.strong.saturating_sub(removed.strong);
    entry.reserved = without(entry.reserved, removed.reserved);
    note_gone(&nodes.table, entry, keys, removed.over);
    above
}

/// Removes each node that a failure of this node takes, by the fault, or, where there is none, each node
/// at and below it. It subtracts them from the counts of their units and of their collection, and notes
/// those that may be forgotten then. Answers the head of the unit right above the removed nodes, if there
/// is one: perhaps nothing holds that unit then.
///
/// Costs O(1) for each node that the failure climbs over, and for each node at and below the highest,
/// also one that was gone before. Takes no memory.
pub(crate) fn remove_subtree(
    nodes: &mut NodeStore,
    entry: &mut Entry,
    origin: NodeKey,
    fault: Option<Fault>,
    keys: &mut Vec<NodeKey>,
) -> Option<NodeKey>
    requires room { table_len nodes.old.table ≤ vec_capacity keys.old }
    requires named { AreNamed nodes.old.table }
    requires there { IsSome (row_at nodes.old.table origin) }
    ensures went { (ss : List CollectionRow) (unheld pending : List Key) →
        MidEventIn nodes.old ss entry.old unheld pending →
        MayGo (nodes_in nodes.old entry.old) origin fault →
        AfterRemovalIn nodes.old nodes.new ss entry.old entry.new origin fault result unheld
        pending }
    ensures named { AreNamed nodes.new.table }
    ensures there { (key : Key) → IsSome (row_at nodes.old.table key) →
        IsSome (row_at nodes.new.table key) }
    ensures len { table_len nodes.new.table ≡ table_len nodes.old.table }
    ensures room { vec_capacity keys.old ≤ vec_capacity keys.new }
{
    match fault {
        Some(fault) => remove_taken(nodes, entry, origin, &RemovalKind::Fails(fault), keys),
        None => remove_taken(nodes, entry, origin, &RemovalKind::Leaves, keys),
    }
}
