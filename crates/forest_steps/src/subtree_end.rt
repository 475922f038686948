//! The end of units that nothing holds, also after a fault took what held them.
ghost use Rattle.std.specs.Prelude.{◌≡◌, ◌≤◌, ◌∷◌, [], List, Some, true, IfSome, IsSome, vec_capacity};
ghost use Rattle.sm_names.specs.declared.keys.NodeKey.{NodeKey as Key};
ghost use Rattle.node_table.specs.Table.{row_at, table_len};
ghost use Rattle.forest_steps.specs.Climbing.{climbed, unit_over};
ghost use Rattle.forest_store.specs.Decisions.{is_left_of};
ghost use Rattle.forest_store.specs.CollectionRows.{CollectionRow};
ghost use Rattle.forest_store.specs.Settling.{Handles};
ghost use Rattle.forest_steps.specs.MidEvent.{AreOrEnd, is_head_left};
ghost use Rattle.forest_store.specs.Stores.{AreNamed, nodes_in};
ghost use Rattle.forest_steps.specs.StoreSteps.{AfterLossIn, AfterStepsIn, KeepsRows, MidEventIn};

use crate::removal::remove_subtree;
use forest_store::entry::Entry;
use forest_store::node::Node;
use forest_store::store::NodeStore;
use forest_store::unit_counts::{Unit, is_held_by, unit_in};
use node_table::NodeTable;
use sm_names::{Fault, NodeKey};

/// The head of the unit right above the one with this head, if the counts tell that nothing holds it
/// but one unit right below.
fn unit_over(table: &NodeTable<Node>, units: &[Unit], head: NodeKey) -> Option<NodeKey>
    ensures over { result ≡ unit_over table.now units.now head }
    ensures there { IfSome result (λ over. IsSome (row_at table.now over)) }
{
    let above = table.kept(table.parent(head)?);
    let _ = table.get(above.head)?;
    let unit = unit_in(units, above.head.slot as usize);
    if unit.live == 0 && unit.below == 1 {
        Some(above.head)
    } else {
        None
    }
}

/// The highest of the units above one another that nothing holds but the one below, from this one
/// on, by the counts. Costs their number.
fn highest(table: &NodeTable<Node>, units: &[Unit], head: NodeKey) -> NodeKey
    requires { IsSome (row_at table.now head) }
    ensures climbed { result ≡ climbed (table_len table.now) table.now units.now head }
    ensures there { IsSome (row_at table.now result) }
{
    let mut top = head;
    'up: for _ in 0..table.len() {
        match unit_over(table, units, top) {
            Some(over) => top = over,
            None => return top,
        }
    }
    top
}

/// Where nothing holds the unit with this head, the highest of the units above one another from it on
/// that nothing holds but the one below ends, and all below it. Costs O(1) for each of those units and
/// for each node that ends. Takes no memory.
#[inline(always)]
pub(crate) fn end_above(
    nodes: &mut NodeStore,
    entry: &mut Entry,
    head: NodeKey,
    keys: &mut Vec<NodeKey>,
)
    requires room { table_len nodes.old.table ≤ vec_capacity keys.old }
    requires named { AreNamed nodes.old.table }
    ensures led { (handles : Handles) (ss : List CollectionRow) (pending : List Key) →
        MidEventIn nodes.old ss entry.old (head ∷ []) pending →
        is_head_left (nodes_in nodes.old entry.old) head ≡ true →
        AfterStepsIn handles nodes.old nodes.new ss entry.old entry.new [] pending }
    ensures ended { (ss : List CollectionRow) (pending : List Key) →
        MidEventIn nodes.old ss entry.old (head ∷ []) pending →
        is_head_left (nodes_in nodes.old entry.old) head ≡ true →
        AreOrEnd (nodes_in nodes.old entry.old) (nodes_in nodes.new entry.old) }
    ensures there { (key : Key) → IsSome (row_at nodes.old.table key) →
        IsSome (row_at nodes.new.table key) }
    ensures kept { KeepsRows nodes.old nodes.new }
    ensures room { vec_capacity keys.old ≤ vec_capacity keys.new }
{
    if is_held_by(&unit_in(&nodes.units, head.slot as usize)) {
        return;
    }
    // The head of a unit that is not gone is there.
    if nodes.table.get(head).is_none() {
        return;
    }
    let top = highest(&nodes.table, &nodes.units, head);
    remove_subtree(nodes, entry, top, None, keys);
}

/// Removes each node that the fault takes; where nothing holds the unit above them then, that unit ends,
/// or the highest above it that nothing holds. Costs O(1) for each node that the failure climbs over,
/// and for each that is removed. Takes no memory.
#[inline(always)]
pub(crate) fn fall_by(
    nodes: &mut NodeStore,
    entry: &mut Entry,
    fault: Fault,
    keys: &mut Vec<NodeKey>,
)
    requires named { AreNamed nodes.old.table }
    requires room { table_len nodes.old.table ≤ vec_capacity keys.old }
    requires there { IsSome (row_at nodes.old.table fault.origin) }
    ensures after_fall { (handles : Handles) (ss : List CollectionRow) (pending : List Key) →
        MidEventIn nodes.old ss entry.old [] pending →
        is_left_of (nodes_in nodes.old entry.old) fault.origin ≡ true →
        AfterLossIn handles nodes.old nodes.new ss entry.old entry.new fault pending }
    ensures named { AreNamed nodes.new.table }
    ensures len { table_len nodes.new.table ≡ table_len nodes.old.table }
    ensures room { vec_capacity keys.old ≤ vec_capacity keys.new }
{
    if let Some(above) = remove_subtree(nodes, entry, fault.origin, Some(fault), keys) {
        end_above(nodes, entry, above, keys);
    }
}
