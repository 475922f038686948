//! The first allocation of a collection, which succeeds or fails.
ghost use Rattle.std.specs.List.{sum_by};
ghost use Rattle.std.specs.Prelude.{◌≡◌, ◌≤◌, ◌+◌, ◌==◌, nat_lt, List, [], ◌∷◌, Ok, None, Some, true, false, IfOk, IfSome, IsSome, OnErr, if◌then◌else◌, vec_capacity};
ghost use Rattle.sm_names.specs.Demands.{Demand};
ghost use Rattle.sm_names.specs.Members.{greatest};
ghost use Rattle.sm_names.specs.declared.keys.NodeKey.{NodeKey as Key};
ghost use Rattle.buffer_holds.specs.Counts.{total};
ghost use Rattle.node_table.specs.Table.{node_at, row_at, table_len};
ghost use Rattle.forest_store.specs.declared.change.Change.{Change as Changed};
ghost use Rattle.forest_store.specs.declared.node.Node.{Node as NodeValue};
ghost use Rattle.forest_steps.specs.declared.initial_allocation.AllocationOutcome.{AllocationOutcome as Outcome};
ghost use Rattle.forest_steps.specs.First.{wanted_of};
ghost use Rattle.forest_store.specs.Forest.{IsPoolOf};
ghost use Rattle.forest_store.specs.CollectionRows.{CollectionRow};
ghost use Rattle.forest_store.specs.Nodes.{after_allocation};
ghost use Rattle.forest_store.specs.Outcomes.{was_made};
ghost use Rattle.forest_store.specs.Reserved.{reserved_count};
ghost use Rattle.forest_steps.specs.LogicalAllocation.{IsUnitListed};
ghost use Rattle.forest_steps.specs.NodeEffects.{AreCountsThen, IsWorkedOutAt};
ghost use Rattle.forest_steps.specs.InitialAllocation.{AreSome, IsComing, IsPlanned, IsReservedThen, IsAllocationOutcome, comes_first, gives_few, is_bare_root, is_held_ready, has_buffers_then, allocated_at, allocated_with, wants_of};
ghost use Rattle.forest_store.specs.Scenes.{given_few, has_tracker_room};
ghost use Rattle.forest_store.specs.UnitAllocation.{asked_with};
ghost use Rattle.forest_store.specs.Settling.{Handles};
ghost use Rattle.forest_store.specs.Stores.{AreNamed, forest_in, nodes_in};
ghost use Rattle.forest_steps.specs.StoreSteps.{HasRoom, IsRootedIn, KeepsRoom, KeepsRows, MidEventIn, OutcomeAt, ReadyAt, WaitsNot};

use crate::demand::TotalDemand;
use crate::event_end::finish_event;
use crate::logical_allocation::list_unit;
use crate::node_effect::{EffectCounts, NodeEffect, make_effect};
use crate::pending_units::{allocate_all_pending, list_pending};
use crate::placement::{assert_disjoint, place_buffers};
use crate::removal::remove_subtree;
use crate::scratch::Scratch;
use crate::unit_allocation::{asked_at, mark_allocated};
use buffer_holds::Holds;
use buffer_pool::Pool;
use forest_store::effects::affect_one;
use forest_store::entry::Entry;
use forest_store::node::Node;
use forest_store::store::{NodeStore, Store};
use forest_store::unit_counts::{Unit, is_held_by};
use node_table::NodeTable;
use sm_names::{
    Buffers, Cause, CollectionId, Constraints, Failure, Fault, HeldBuffer, MAX_BUFFERS, MAX_SIZE,
    NoMemory, NodeKey,
};

/// The root's unit, which an effect makes ready for its allocation.
#[derive(Drop)]
struct Plan {
    /// Its head.
    head: NodeKey,
    /// What it wants, or why it can't be given any buffers, whatever pages are held.
    wants: Result<Buffers, Failure>,
    /// How many buffers are reserved once it is allocated.
    reserved: u128,
}

/// The outcome of the allocation.
#[derive(Drop)]
enum AllocationOutcome {
    /// The root fails by this.
    Fails(Failure),
    /// The unit is given these buffers, which lie so, with others of the collection behind them.
    Given(Buffers, Vec<HeldBuffer>),
}

/// Whether something holds the unit with these counts, and it waits for no node.
fn is_held_ready(unit: &Unit) -> bool
    ensures { result ≡ is_held_ready unit.now }
{
    unit.unready == 0 && is_held_by(unit)
}

/// Whether the node with this key is a root that is not gone, and its unit has no buffers.
fn is_bare_root(table: &NodeTable<Node>, key: NodeKey) -> bool
    ensures { result ≡ is_bare_root table.now key }
{
    match table.get(key) {
        Some(node) => node.parent.is_none() && !node.gone && !node.allocated,
        None => false,
    }
}

/// What the nodes with these keys ask for that are of the unit with this head, where this node is in the
/// place of the one with its key.
fn root_total(table: &NodeTable<Node>, keys: &[NodeKey], head: NodeKey, after: &Node) -> TotalDemand
    ensures camping { result.camping
        ≡ sum_by (λ (d : Demand). d.camping) (asked_with table.now keys.now (head ∷ []) after.now) }
    ensures at_least { result.at_least
        ≡ greatest (λ d. d.at_least) (asked_with table.now keys.now (head ∷ []) after.now) }
    ensures size { result.size
        ≡ greatest (λ d. d.size) (asked_with table.now keys.now (head ∷ []) after.now) }
    ensures in_range { result.size ≤ MAX_SIZE }

    // A node that asks for no size asks for no buffer.
    ensures some { result.size ≡ 0 → result.camping + result.at_least ≡ 0 }
{
    let those = [head];
    let mut asks = TotalDemand {
        camping: 0,
        at_least: 0,
        size: 0,
    };
    for key in keys {
        if let Some(demand) = asked_at(table, &those, after, *key) {
            asks.camping += demand.camping() as u128;
            asks.at_least = asks.at_least.max(demand.at_least());
            asks.size = asks.size.max(demand.size());
        }
    }
    asks
}

/// What the node asks for, if it is in an allocated unit once the one with this head is, and not gone.
fn allocated_demand(node: &Node, head: NodeKey) -> Option<Constraints>
    ensures { result ≡ (if has_buffers_then head node.now then node.now.constraints else None) }
{
    if !node.gone && (head == node.head || node.allocated) {
        node.constraints
    } else {
        None
    }
}

/// What the node with this key asks for, if it has buffers once this head's unit is allocated. The node
/// `after` replaces the one with its key.
fn allocated_at(
    table: &NodeTable<Node>,
    head: NodeKey,
    after: &Node,
    key: NodeKey,
) -> Option<Constraints>
    ensures { result ≡ allocated_at table.now head after.now key }
{
    let node = table.get(key)?;
    if after.key == node.key {
        allocated_demand(after, head)
    } else {
        allocated_demand(node, head)
    }
}

/// How many buffers are reserved once the unit with this head is allocated, and this node is in the
/// place of the one with its key.
fn reserved_then(table: &NodeTable<Node>, keys: &[NodeKey], head: NodeKey, after: &Node) -> u128
    ensures { result ≡ sum_by (λ (d : Demand).
        d.camping) (allocated_with table.now keys.now head after.now) }
{
    let mut camping = 0;
    for key in keys {
        if let Some(demand) = allocated_at(table, head, after, *key) {
            camping += demand.camping() as u128;
        }
    }
    camping
}

/// What the unit is to be given that asks for this, where this many strong nodes are live, or why it
/// can't be given any buffers. The pool is not asked.
fn wanted(asks: &TotalDemand, strong: usize) -> Result<Buffers, Failure>
    requires in_range { asks.now.size ≤ MAX_SIZE }
    requires some { asks.now.size ≡ 0 → asks.now.camping + asks.now.at_least ≡ 0 }
    ensures value { (ds : List Demand) → asks.now.camping ≡ sum_by (λ (d : Demand). d.camping) ds →
        asks.now.at_least ≡ greatest (λ d. d.at_least) ds →
        asks.now.size ≡ greatest (λ d. d.size) ds →
        result ≡ wants_of (nat_lt 0 strong) (wanted_of ds) }
    ensures some { IfOk result AreSome }
{
    if strong == 0 {
        return Err(Failure::NoStrong);
    }
    let count = asks.camping.max(asks.at_least as u128);
    if count == 0 {
        return Err(Failure::NoBuffers);
    }
    if count > MAX_BUFFERS as u128 {
        return Err(Failure::TooManyBuffers);
    }
    Ok(Buffers {
        count: count as u32,
        size: asks.size,
    })
}

/// How many buffers are reserved once the unit with this head is allocated, which camps on this many, and
/// this node is in the place of the one with its key. Before the first allocation none are; where some
/// were, all are counted.
fn reserved_with(
    table: &NodeTable<Node>,
    entry: &Entry,
    head: NodeKey,
    after: &Node,
    camping: u128,
) -> u128
    ensures { IsReservedThen table.now entry.now head after.now camping result }
{
    if entry.reserved == 0 {
        camping
    } else {
        reserved_then(table, entry.keys.as_slice(), head, after)
    }
}

/// The plan of the initial allocation, before the pool is asked, if the effect, with these counts, makes
/// the root's unit ready while it has no buffers, and something holds it then. The keys of the unit, and
/// of the attached nodes right below it, are listed for it. Takes no memory.
fn planned(
    nodes: &NodeStore,
    entry: &Entry,
    made: &NodeEffect,
    counts: &EffectCounts,
    keys: &mut Vec<NodeKey>,
) -> Option<Plan>
    requires tracked { (at : Key) (n : NodeValue) → node_at nodes.now.table at ≡ Some n →
        has_tracker_room made.now.key made.now.effect n ≡ true }
    requires worked { AreCountsThen nodes.now.table nodes.now.units.items entry.now made.now.key
        made.now.effect (Some counts.now) }
    requires room { table_len nodes.now.table ≤ vec_capacity keys.old }
    ensures some { IfSome result (IsPlanned nodes.now.table nodes.now.units.items entry.now
        made.now.key made.now.effect) }
    ensures comes { IfSome result (λ plan. comes_first nodes.now.table nodes.now.units.items
        made.now.key made.now.effect ≡ true) }
    ensures listed { IfSome result (λ plan. IsUnitListed nodes.now.table plan.head keys.new.items) }
    ensures none { result ≡ None → comes_first nodes.now.table nodes.now.units.items
        made.now.key made.now.effect ≡ false }
    ensures room { vec_capacity keys.old ≤ vec_capacity keys.new }
{
    let Some(node) = nodes.table.get(made.key).copied() else {
        return None;
    };
    if !is_bare_root(&nodes.table, node.head) || !is_held_ready(&counts.unit) {
        return None;
    }
    let mut after = node;
    affect_one(&mut after, made.key, &made.effect);
    list_unit(&nodes.table, node.head, keys);
    let asks = root_total(&nodes.table, keys, node.head, &after);
    Some(Plan {
        head: node.head,
        wants: wanted(&asks, counts.strong),
        reserved: reserved_with(&nodes.table, entry, node.head, &after, asks.camping),
    })
}

/// Places the buffers in the pool, if some are wanted. `NoMemory` leaves the pool as it was.
fn place_wanted(
    pool: &mut Pool,
    id: CollectionId,
    wants: Result<Buffers, Failure>,
    others: &Vec<HeldBuffer>,
) -> Result<AllocationOutcome, NoMemory>
    requires { IfOk wants AreSome }
    ensures err { OnErr result (pool.new ≡ pool.old) }
    ensures verdict { IfOk result
        (IsAllocationOutcome pool.old pool.new id others.now.items wants) }
    ensures few { IfOk result (λ verdict. gives_few verdict ≡ true) }
    ensures size { pool.new.size ≡ pool.old.size }
{
    let wants = match wants {
        Ok(wants) => wants,
        Err(why) => return Ok(AllocationOutcome::Fails(why)),
    };
    match place_buffers(pool, id, wants, others)? {
        Some(held) => Ok(AllocationOutcome::Given(wants, held)),
        None => Ok(AllocationOutcome::Fails(Failure::PoolFull)),
    }
}

/// The root of the collection, with this key, is lost by this failure, and all of the collection with it.
fn lose_first(
    nodes: &mut NodeStore,
    entry: &mut Entry,
    head: NodeKey,
    why: Failure,
    keys: &mut Vec<NodeKey>,
)
    requires room { table_len nodes.old.table ≤ vec_capacity keys.old }
    requires named { AreNamed nodes.old.table }
    requires there { IsSome (row_at nodes.old.table head) }
    ensures rooted { (handles : Handles) (ss : List CollectionRow) →
        MidEventIn nodes.old ss entry.old [] (head ∷ []) →
        IsComing (nodes_in nodes.old entry.old) head →
        IsRootedIn handles nodes.old nodes.new ss entry.old entry.new head (Outcome.Fails why) }
    ensures named { AreNamed nodes.new.table }
    ensures len { table_len nodes.new.table ≡ table_len nodes.old.table }
    ensures room { vec_capacity keys.old ≤ vec_capacity keys.new }
{
    let cause = Cause::Failed(why);
    let fault = Fault {
        cause,
        origin: head,
    };
    remove_subtree(nodes, entry, head, Some(fault), keys);
}

/// Allocates the unit of the root, with this head, whose keys are listed, with these buffers, and then
/// allocates or refuses the attached units that are ready below it.
fn allocate_root_unit(
    nodes: &mut NodeStore,
    entry: &mut Entry,
    holds: &Holds,
    plan: &Plan,
    buffers: Buffers,
    held: Vec<HeldBuffer>,
    room: &mut Scratch,
)
    requires few { given_few (Some buffers) ≡ true }
    requires room { HasRoom nodes.old room.old }
    requires listed { IsUnitListed nodes.old.table plan.now.head room.old.unit.items }
    requires named { AreNamed nodes.old.table }
    requires there { IsSome (row_at nodes.old.table plan.now.head) }
    ensures rooted { (ss : List CollectionRow) → MidEventIn nodes.old ss entry.old [] (plan.now.head ∷ []) →
        IsComing (nodes_in nodes.old entry.old) plan.now.head →
        plan.now.reserved ≡ reserved_count (after_allocation plan.now.head
        (nodes_in nodes.old entry.old)) →
        IsRootedIn (total holds.now) nodes.old nodes.new ss entry.old entry.new plan.now.head
        (Outcome.Given buffers held) }
    ensures kept { KeepsRows nodes.old nodes.new }
    ensures room { vec_capacity room.old.removed ≤ vec_capacity room.new.removed }
{
    let head = plan.head;
    list_pending(
        &nodes.table,
        &nodes.units,
        entry,
        head,
        &mut room.removed,
        &mut room.pending,
    );
    let one = [head];
    mark_allocated(&mut nodes.table, &room.unit, &one);
    entry.reserved = plan.reserved;
    entry.buffers = Some(buffers);
    entry.held = held;
    let Some((_, rest)) = room.pending.split_first() else {
        return;
    };
    allocate_all_pending(nodes, entry, holds, buffers, rest, &mut room.removed);
}

/// The root's unit, with this head, is allocated or lost, and what follows in its collection is made, until
/// nothing is left but that the buffers are abandoned.
fn settle_first(
    nodes: &mut NodeStore,
    entry: &mut Entry,
    holds: &Holds,
    plan: &Plan,
    verdict: AllocationOutcome,
    room: &mut Scratch,
)
    requires few { gives_few verdict ≡ true }
    requires room { HasRoom nodes.old room.old }
    requires listed { IsUnitListed nodes.old.table plan.now.head room.old.unit.items }
    requires named { AreNamed nodes.old.table }
    requires there { IsSome (row_at nodes.old.table plan.now.head) }
    ensures rooted { (ss : List CollectionRow) → MidEventIn nodes.old ss entry.old [] (plan.now.head ∷ []) →
        IsComing (nodes_in nodes.old entry.old) plan.now.head →
        plan.now.reserved ≡ reserved_count (after_allocation plan.now.head
        (nodes_in nodes.old entry.old)) →
        IsRootedIn (total holds.now) nodes.old nodes.new ss entry.old entry.new plan.now.head
        verdict }
    ensures kept { KeepsRows nodes.old nodes.new }
    ensures room { vec_capacity room.old.removed ≤ vec_capacity room.new.removed }
{
    match verdict {
        AllocationOutcome::Fails(why) => {
            lose_first(nodes, entry, plan.head, why, &mut room.removed);
        }
        AllocationOutcome::Given(buffers, held) => {
            allocate_root_unit(nodes, entry, holds, plan, buffers, held, room);
        }
    }
}

/// Makes an effect by which the root's unit becomes ready, while something holds it and it has no
/// buffers, with all that is forced: the unit is allocated, and the attached units below that are ready
/// are allocated or refused, by birth; or the root is lost, where
/// no strong node is live then, no buffers are wanted or too many, or the pool is full. Answers whether
/// it did; if not, the root's unit does not wait for its buffers after the effect, or nothing holds it
/// then, and nothing changed.
///
/// Costs O(1). Where the unit is ready, costs besides a few reads of each node of the unit and of each
/// attached node right below it, a write of each node of the unit, what the places of the buffers cost, and
/// what `allocate_all_pending` costs, or, where the root is lost, O(1) for each node of the collection; and
/// at last what `finish_event` costs. `NoMemory` where the room for the held buffers
/// is refused, or the pool's: then nothing changed.
pub fn allocate_root(
    store: &mut Store,
    at: usize,
    pool: &mut Pool,
    holds: &Holds,
    made: &NodeEffect,
    room: &mut Scratch,
) -> Result<bool, NoMemory>
    requires ready { ReadyAt store.old at (Changed.Effect made.now.key made.now.effect) }
    requires worked { IsWorkedOutAt store.old at made.now }
    requires pool { IsPoolOf pool.old (forest_in store.old) }
    requires room { HasRoom store.old.nodes room.old }
    requires unit { table_len store.old.nodes.table ≤ vec_capacity room.old.unit }
    ensures outcome { OutcomeAt (was_made result) (total holds.now) pool.old pool.new store.old
        store.new at (Changed.Effect made.now.key made.now.effect) }
    ensures same { result ≡ Ok false →
        (store.new ≡ store.old) × (pool.new ≡ pool.old) × KeepsRoom room.old room.new }
    ensures waits { result ≡ Ok false → WaitsNot store.old at made.now.key made.now.effect }
{
    let Some(counts) = &made.counts else {
        return Ok(false);
    };
    let entry = store.entries[at].get();
    let Some(plan) = planned(&store.nodes, entry, made, counts, &mut room.unit) else {
        return Ok(false);
    };
    assert_disjoint(pool);
    let verdict = place_wanted(pool, entry.id, plan.wants, &entry.held)?;
    assert_disjoint(pool);
    let entry = store.entries[at].get_mut();
    make_effect(&mut store.nodes, entry, made);
    settle_first(&mut store.nodes, entry, holds, &plan, verdict, room);
    finish_event(store, at, pool, holds, &mut room.removed);
    Ok(true)
}
