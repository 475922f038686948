//! Pending attached units, one after another by birth: each is allocated or refused.
ghost use Rattle.std.specs.List.{list_any};
ghost use Rattle.std.specs.Prelude.{◌≡◌, ◌<◌, ◌≤◌, ◌+◌, ◌++◌, ◌∷◌, [], List, ℕ, Some, true, IsSome, filter, length, vec_capacity};
ghost use Rattle.sm_names.specs.declared.keys.NodeKey.{NodeKey as Key};
ghost use Rattle.sm_names.specs.Sameness.{same_key};
ghost use Rattle.buffer_holds.specs.Counts.{total};
ghost use Rattle.node_table.specs.Table.{row_at, table_len};
ghost use Rattle.forest_steps.specs.declared.pending_units.PendingUnit.{PendingUnit as PendingValue};
ghost use Rattle.forest_store.specs.Unkept.{IsPlace};
ghost use Rattle.forest_store.specs.CollectionRows.{CollectionRow, nodes_with};
ghost use Rattle.forest_store.specs.Scenes.{given_few};
ghost use Rattle.forest_store.specs.UnitAllocation.{is_head_at};
ghost use Rattle.forest_steps.specs.MidEvent.{ArePlacedIfThere, AreTurns, MidEvent, is_abandoned_in, is_head_left, turn_heads, waits_among};
ghost use Rattle.forest_store.specs.Stores.{AreNamed, nodes_in};
ghost use Rattle.forest_steps.specs.StoreSteps.{AfterPropagationIn, MidEventIn};

use crate::dropped::{has_given_root, is_strong_open};
use crate::logical_allocation::allocate_pending;
use crate::ready_units::{find_ready_below, is_head_at};
use buffer_holds::Holds;
use forest_store::entry::Entry;
use forest_store::node::Node;
use forest_store::store::NodeStore;
use forest_store::unit_counts::Unit;
use forest_store::unkept::place_near;
use node_table::NodeTable;
use sm_names::{Buffers, NodeKey};

/// A pending unit: it may be allocated next.
#[derive(Clone, Copy)]
pub struct PendingUnit {
    /// Where its head stands among the keys of its collection.
    pub place: usize,
    /// Its head.
    pub head: NodeKey,
}

/// Where the key stands among these, if it does. A pass over the keys.
fn place_by_pass(keys: &[NodeKey], key: NodeKey) -> usize
    ensures { list_any (same_key key) keys.now ≡ true → IsPlace keys.now key result }
{
    for at in 0..keys.len() {
        if keys[at] == key {
            return at;
        }
    }
    0
}

/// The pending unit with this head, which is one of the keys. Its place is searched beside `near` first,
/// then by birth, and at last in a pass over the keys.
fn pending_of(table: &NodeTable<Node>, keys: &[NodeKey], near: usize, head: NodeKey) -> PendingUnit
    ensures head { result.head ≡ head }
    ensures placed { list_any (same_key head) keys.now ≡ true → IsPlace keys.now head result.place }
{
    let place = match place_near(table, keys, near, head) {
        Some(place) => place,
        None => place_by_pass(keys, head),
    };
    PendingUnit { place, head }
}

/// Lists the unit with this key, if it is this head, or that of an attached unit of the collection that
/// is ready and has no buffers.
fn list_head(
    table: &NodeTable<Node>,
    units: &[Unit],
    entry: &Entry,
    head: NodeKey,
    key: NodeKey,
    turns: &mut Vec<PendingUnit>,
)
    requires room { length turns.old.items < vec_capacity turns.old }
    ensures heads { turn_heads turns.new.items
        ≡ turn_heads turns.old.items ++ filter (is_head_at table.now units.now entry.now.id head)
        (key ∷ []) }
    ensures placed { ArePlacedIfThere entry.now.keys.items turns.old.items →
        ArePlacedIfThere entry.now.keys.items turns.new.items }
    ensures few { length turns.new.items ≤ length turns.old.items + 1 }
    ensures room { vec_capacity turns.new ≡ vec_capacity turns.old }
{
    if is_head_at(table, units, entry.id, head, key) {
        // Where nodes were born one after another, the head stands beside the last one.
        let near = match turns.last() {
            Some(last) => last.place,
            None => 0,
        };
        let turn = pending_of(table, entry.keys.as_slice(), near, key);
        turns.push_reserved(turn);
    }
}

/// Lists the unit with this head and those with the walked keys that are such. There is room for as
/// many.
fn list_heads(
    table: &NodeTable<Node>,
    units: &[Unit],
    entry: &Entry,
    head: NodeKey,
    walked: &[NodeKey],
    turns: &mut Vec<PendingUnit>,
)
    requires room { length walked.now ≤ vec_capacity turns.old }
    ensures heads { turn_heads turns.new.items
        ≡ filter (is_head_at table.now units.now entry.now.id head) walked.now }
    ensures placed { ArePlacedIfThere entry.now.keys.items turns.new.items }
{
    turns.clear();
    for key in walked {
        list_head(table, units, entry, head, *key, turns);
    }
}

/// Lists the unit with this head, and behind it by birth each attached unit that its allocation may make
/// next: it is ready, without buffers, and hangs right below another of them. Costs the
/// nodes of these units and the heads right below them, and for each of these units a logarithm of the
/// collection's nodes; where nodes were not born in the order of their events, a pass over the keys for
/// each. Takes no memory: the lists have room for as many as there are nodes.
pub(crate) fn list_pending(
    table: &NodeTable<Node>,
    units: &[Unit],
    entry: &Entry,
    head: NodeKey,
    walked: &mut Vec<NodeKey>,
    turns: &mut Vec<PendingUnit>,
)
    requires there { IsSome (row_at table.now head) }
    requires walked { table_len table.now ≤ vec_capacity walked.old }
    requires turns { table_len table.now ≤ vec_capacity turns.old }
    ensures listed { (ss : List CollectionRow) (unheld pending : List Key) →
        MidEvent table.now units.now ss entry.now unheld pending →
        is_head_left (nodes_with table.now entry.now.keys.items) head ≡ true →
        AreTurns table.now entry.now.keys.items turns.new.items
        × ((place : ℕ) × (rest : List PendingValue)
        × (turns.new.items ≡ record { place = place; head = head } ∷ rest)) }
    ensures walked { vec_capacity walked.old ≤ vec_capacity walked.new }
{
    find_ready_below(table, units, entry.id, head, walked);
    list_heads(table, units, entry, head, walked, turns);
    turns.sort_unstable_by_key(|turn| turn.place);
}

/// Whether the buffers are abandoned: no strong node of the collection, which has these buffers, is
/// live, its root has its own, and no strong handle is open on one of them. Costs a look at the
/// handles of each buffer where no strong node is live.
fn are_abandoned(table: &NodeTable<Node>, entry: &Entry, buffers: Buffers, holds: &Holds) -> bool
    requires { given_few (Some buffers) ≡ true }
    ensures { entry.now.buffers ≡ Some buffers →
        result ≡ is_abandoned_in (total holds.now) table.now entry.now }
{
    entry.strong == 0
        && has_given_root(table, entry.keys.as_slice())
        && !is_strong_open(entry.id, Some(buffers), holds)
}

/// Allocates or refuses each of these units that is next, in their order, until the buffers are
/// abandoned. Takes no memory. Costs what each `allocate_pending` costs, and for each, where no strong
/// node is live, a look at the handles of each buffer.
pub(crate) fn allocate_all_pending(
    nodes: &mut NodeStore,
    entry: &mut Entry,
    holds: &Holds,
    buffers: Buffers,
    turns: &[PendingUnit],
    keys: &mut Vec<NodeKey>,
)
    requires few { given_few (Some buffers) ≡ true }
    requires named { AreNamed nodes.old.table }
    requires room { table_len nodes.old.table ≤ vec_capacity keys.old }
    ensures out { (ss : List CollectionRow) → MidEventIn nodes.old ss entry.old [] (turn_heads turns.now) →
        AreTurns nodes.old.table entry.old.keys.items turns.now →
        waits_among [] (nodes_in nodes.old entry.old) ≡ true → entry.old.buffers ≡ Some buffers →
        AfterPropagationIn (total holds.now) nodes.old nodes.new ss entry.old entry.new }
    ensures named { AreNamed nodes.new.table }
    ensures len { table_len nodes.new.table ≡ table_len nodes.old.table }
    ensures room { vec_capacity keys.old ≤ vec_capacity keys.new }
{
    for turn in turns {
        if are_abandoned(&nodes.table, entry, buffers, holds) {
            return;
        }
        allocate_pending(nodes, entry, buffers, turn.head, keys);
    }
}
