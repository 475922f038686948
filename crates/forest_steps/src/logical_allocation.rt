//! The logical allocation of a pending attached unit: it is allocated, or it is refused and fails.
ghost use Rattle.std.specs.List.{filter_map, sum_by};
ghost use Rattle.std.specs.Prelude.{◌≡◌, ◌≤◌, ◌∷◌, [], List, ℕ, Some, true, false, IsSome, vec_capacity};
ghost use Rattle.sm_names.specs.Demands.{Demand};
ghost use Rattle.sm_names.specs.Members.{greatest};
ghost use Rattle.node_table.specs.Table.{row_at, table_len};
ghost use Rattle.forest_steps.specs.declared.pending_units.PendingUnit.{PendingUnit as PendingValue};
ghost use Rattle.forest_store.specs.CollectionRows.{CollectionRow};
ghost use Rattle.forest_store.specs.Settling.{Handles};
ghost use Rattle.forest_steps.specs.LogicalAllocation.{IsUnitListed, asked_there, is_next_there};
ghost use Rattle.forest_steps.specs.MidEvent.{AreTurns, is_abandoned_in, turn_heads, waits_among};
ghost use Rattle.forest_store.specs.Stores.{AreNamed, nodes_in};
ghost use Rattle.forest_steps.specs.StoreSteps.{AfterStepsIn, MidEventIn};

use crate::demand::{TotalDemand, refusal, unit_demand};
use crate::subtree_end::fall_by;
use crate::unit_allocation::{has_turn, mark_allocated};
use failure_domains::{WalkBound, walk_within};
use forest_store::entry::Entry;
use forest_store::node::Node;
use forest_store::store::NodeStore;
use forest_store::unit_counts::{Unit, unit_in};
use node_table::NodeTable;
use sm_names::{Buffers, Cause, Constraints, Fault, NodeKey};

/// One unit: a walk down from its head takes the heads right below it, and nothing below those.
#[derive(Drop)]
struct OneUnit;

impl WalkBound<Node> for OneUnit {
    ghost stops = { λ _ n. n.attached };

    fn stops(&self, node: &Node) -> bool {
        node.attached
    }
}

/// Lists the keys of the unit with this head: of its nodes, and of the attached nodes right below
/// them. Takes no memory. Costs O(k) for these k keys.
pub(crate) fn list_unit(table: &NodeTable<Node>, head: NodeKey, keys: &mut Vec<NodeKey>)
    requires there { IsSome (row_at table.now head) }
    requires room { table_len table.now ≤ vec_capacity keys.old }
    ensures listed { IsUnitListed table.now head keys.new.items }
    ensures room { vec_capacity keys.old ≤ vec_capacity keys.new }
{
    walk_within(table, head, keys, &OneUnit).unwrap();
}

/// What the node with this key asks for, if it is of the unit with this head and not gone.
fn demand_there(table: &NodeTable<Node>, at: NodeKey, head: NodeKey) -> Option<Constraints>
    ensures { result ≡ asked_there table.now head at }
{
    let node = table.get(at)?;
    unit_demand(node, head)
}

/// What the nodes with these keys ask for together that are of the unit with this head and not gone.
fn unit_total(table: &NodeTable<Node>, keys: &[NodeKey], head: NodeKey) -> TotalDemand
    ensures camping { result.camping
        ≡ sum_by (λ (d : Demand). d.camping) (filter_map (asked_there table.now head) keys.now) }
    ensures at_least { result.at_least
        ≡ greatest (λ (d : Demand). d.at_least) (filter_map (asked_there table.now head) keys.now) }
    ensures size { result.size
        ≡ greatest (λ (d : Demand). d.size) (filter_map (asked_there table.now head) keys.now) }
{
    let mut asks = TotalDemand {
        camping: 0,
        at_least: 0,
        size: 0,
    };
    for at in keys {
        if let Some(demand) = demand_there(table, *at, head) {
            asks.camping += demand.camping() as u128;
            asks.at_least = asks.at_least.max(demand.at_least());
            asks.size = asks.size.max(demand.size());
        }
    }
    asks
}

/// Whether the unit with this head is attached, waits for no node by the counts, and has no buffers,
/// while the one above it has them.
pub(crate) fn is_next(table: &NodeTable<Node>, units: &[Unit], head: NodeKey) -> bool
    ensures { result ≡ is_next_there table.now units.now head }
{
    has_turn(table, head) && unit_in(units, head.slot as usize).unready == 0
}

/// Allocates or refuses the unit with this head, if it is next: it is refused, and fails, where the
/// buffers are not enough for it; where nothing holds the unit above it then, that ends, or the highest
/// above it that nothing holds. Takes no memory. Costs O(1) for each node of the unit, for each head right
/// below it, and for each node that is removed.
pub(crate) fn allocate_pending(
    nodes: &mut NodeStore,
    entry: &mut Entry,
    buffers: Buffers,
    head: NodeKey,
    keys: &mut Vec<NodeKey>,
)
    requires named { AreNamed nodes.old.table }
    requires room { table_len nodes.old.table ≤ vec_capacity keys.old }
    ensures taken { (handles : Handles) (ss : List CollectionRow) (place : ℕ) (ws : List PendingValue) →
        MidEventIn nodes.old ss entry.old [] (head ∷ turn_heads ws) →
        AreTurns nodes.old.table entry.old.keys.items (record { place = place; head = head } ∷ ws) →
        waits_among [] (nodes_in nodes.old entry.old) ≡ true →
        entry.old.buffers ≡ Some buffers →
        is_abandoned_in handles nodes.old.table entry.old ≡ false →
        AfterStepsIn handles nodes.old nodes.new ss entry.old entry.new [] (turn_heads ws)
        × (AreTurns nodes.new.table entry.old.keys.items ws
        × (waits_among [] (nodes_in nodes.new entry.old) ≡ true)) }
    ensures named { AreNamed nodes.new.table }
    ensures len { table_len nodes.new.table ≡ table_len nodes.old.table }
    ensures room { vec_capacity keys.old ≤ vec_capacity keys.new }
{
    if !is_next(&nodes.table, &nodes.units, head) {
        return;
    }
    list_unit(&nodes.table, head, keys);
    let asks = unit_total(&nodes.table, keys, head);
    match refusal(buffers, entry.reserved, &asks) {
        None => {
            mark_allocated(&mut nodes.table, keys, &[head]);
            entry.reserved += asks.camping;
        }
        Some(why) => {
            let fault = Fault {
                cause: Cause::Failed(why),
                origin: head,
            };
            fall_by(nodes, entry, fault, keys);
        }
    }
}
