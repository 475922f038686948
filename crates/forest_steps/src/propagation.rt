//! Losses and effects, each with all the steps that it forces but the first allocation.
ghost use Rattle.std.specs.Prelude.{◌≡◌, ◌≤◌, [], ◌∷◌, List, Some, true, false, IsSome, vec_capacity};
ghost use Rattle.std.specs.List.{list_any};
ghost use Rattle.buffer_holds.specs.Counts.{total};
ghost use Rattle.node_table.specs.Table.{node_at, row_at, table_len};
ghost use Rattle.forest_store.specs.declared.node.Node.{Node as NodeValue};
ghost use Rattle.forest_store.specs.Decisions.{is_left_of};
ghost use Rattle.forest_store.specs.CollectionRows.{CollectionRow};
ghost use Rattle.forest_store.specs.Nodes.{after_effect, after_loss, is_of};
ghost use Rattle.forest_store.specs.Scenes.{given_few};
ghost use Rattle.forest_steps.specs.MidEvent.{waits_among};
ghost use Rattle.forest_steps.specs.NodeEffects.{MayMake};
ghost use Rattle.forest_store.specs.Stores.{AreNamed, nodes_in};
ghost use Rattle.forest_steps.specs.StoreSteps.{AfterPropagationIn, HasRoom, IsRootAsleep, MidEventIn, PropagatedIn};

use crate::logical_allocation::is_next;
use crate::node_effect::{NodeEffect, make_effect};
use crate::pending_units::{allocate_all_pending, list_pending};
use crate::scratch::Scratch;
use crate::subtree_end::{end_above, fall_by};
use buffer_holds::Holds;
use forest_store::entry::Entry;
use forest_store::store::NodeStore;
use sm_names::{Buffers, Fault, NodeKey};

/// Makes a loss, and ends the units above that nothing holds after it. Takes no memory. Costs O(1) for
/// each node that the failure climbs over, and for each that is removed.
pub fn apply_loss(
    nodes: &mut NodeStore,
    entry: &mut Entry,
    holds: &Holds,
    fault: Fault,
    room: &mut Scratch,
)
    requires named { AreNamed nodes.old.table }
    requires room { table_len nodes.old.table ≤ vec_capacity room.old.removed }
    requires there { IsSome (row_at nodes.old.table fault.origin) }
    ensures out { (ss : List CollectionRow) → MidEventIn nodes.old ss entry.old [] [] →
        is_left_of (nodes_in nodes.old entry.old) fault.origin ≡ true →
        PropagatedIn (total holds.now) (after_loss fault (nodes_in nodes.old entry.old))
        nodes.old nodes.new ss entry.old entry.new }
    ensures named { AreNamed nodes.new.table }
    ensures room { vec_capacity room.old.removed ≤ vec_capacity room.new.removed }
    ensures len { table_len nodes.new.table ≡ table_len nodes.old.table }
{
    fall_by(nodes, entry, fault, &mut room.removed);
}

/// Allocates or refuses the unit with this head, if it is next, then those that follow, until the buffers
/// are abandoned. Takes no memory. Costs what `allocate_all_pending` costs.
fn allocate_ready(
    nodes: &mut NodeStore,
    entry: &mut Entry,
    holds: &Holds,
    buffers: Buffers,
    head: NodeKey,
    room: &mut Scratch,
)
    requires few { given_few (Some buffers) ≡ true }
    requires named { AreNamed nodes.old.table }
    requires room { HasRoom nodes.old room.old }
    ensures out { (ss : List CollectionRow) → MidEventIn nodes.old ss entry.old [] (head ∷ []) →
        list_any (is_of head) (nodes_in nodes.old entry.old) ≡ true →
        waits_among [] (nodes_in nodes.old entry.old) ≡ true → entry.old.buffers ≡ Some buffers →
        AfterPropagationIn (total holds.now) nodes.old nodes.new ss entry.old entry.new }
    ensures named { AreNamed nodes.new.table }
    ensures room { vec_capacity room.old.removed ≤ vec_capacity room.new.removed }
    ensures len { table_len nodes.new.table ≡ table_len nodes.old.table }
{
    if is_next(&nodes.table, &nodes.units, head) {
        list_pending(
            &nodes.table,
            &nodes.units,
            entry,
            head,
            &mut room.removed,
            &mut room.pending,
        );
        allocate_all_pending(
            nodes,
            entry,
            holds,
            buffers,
            &room.pending,
            &mut room.removed,
        );
    }
}

/// Makes an effect, and what it forces: the end of the unit of its node and of those above it, where
/// nothing holds them then, and the logical allocation of that unit and of those that follow, where it is
/// ready and attached. The unit of the root must not wait for its first buffers then. Takes no memory.
/// Costs O(1), and O(1) for each node that ends, or what `allocate_all_pending` costs.
pub fn apply_effect(
    nodes: &mut NodeStore,
    entry: &mut Entry,
    holds: &Holds,
    made: &NodeEffect,
    room: &mut Scratch,
)
    requires few { given_few entry.old.buffers ≡ true }
    requires named { AreNamed nodes.old.table }
    requires may { MayMake nodes.old entry.old made.now }
    requires room { HasRoom nodes.old room.old }
    ensures out { (ss : List CollectionRow) (n : NodeValue) →
        node_at nodes.old.table made.now.key ≡ Some n →
        n.gone ≡ false → n.collection ≡ entry.old.id →
        MidEventIn nodes.old ss entry.old [] [] →
        IsRootAsleep nodes.old entry.old made.now.key made.now.effect →
        PropagatedIn (total holds.now)
        (after_effect made.now.key made.now.effect (nodes_in nodes.old entry.old))
        nodes.old nodes.new ss entry.old entry.new }
    ensures named { AreNamed nodes.new.table }
    ensures room { vec_capacity room.old.removed ≤ vec_capacity room.new.removed }
    ensures len { table_len nodes.new.table ≡ table_len nodes.old.table }
{
    let given = entry.buffers;
    make_effect(nodes, entry, made);
    let Some(counts) = &made.counts else {
        return;
    };
    end_above(nodes, entry, counts.head, &mut room.removed);
    if let Some(buffers) = given {
        allocate_ready(nodes, entry, holds, buffers, counts.head, room);
    }
}
