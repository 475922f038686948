//! The allocation of units: whether one is next, what its nodes ask for, and how their nodes are
//! marked as allocated.
ghost use Rattle.std.specs.List.Sorted.{IsSorted};
ghost use Rattle.std.specs.Prelude.{◌≡◌, if◌then◌else◌, ◌∷◌, [], None, Some, true, false};
ghost use Rattle.node_table.specs.Changes.{Writes};
ghost use Rattle.node_table.specs.Lending.{table_with_node};
ghost use Rattle.node_table.specs.Table.{node_at};
ghost use Rattle.forest_store.specs.declared.node.Node.{Node as NodeValue};
ghost use Rattle.forest_store.specs.LossMarks.{key_order};
ghost use Rattle.forest_store.specs.UnitAllocation.{IsGivenAt, asked_at, has_turn_at, is_in_some, has_buffers_there};
ghost use Rattle.forest_store.specs.Stores.{AreNamed};

use crate::ready_units::{is_one_of, is_waiting_head};
use forest_store::node::Node;
use node_table::NodeTable;
use sm_names::{Constraints, NodeKey};

/// Whether there is a node with this key that is not gone, and its unit has its buffers.
pub(crate) fn has_buffers_there(table: &NodeTable<Node>, key: NodeKey) -> bool
    ensures { result ≡ has_buffers_there table.now key }
{
    match table.get(key) {
        Some(node) => !node.gone && node.allocated,
        None => false,
    }
}

/// Whether the unit with this head is attached and has no buffers, and the one above it has them.
pub(crate) fn has_turn(table: &NodeTable<Node>, head: NodeKey) -> bool
    ensures { result ≡ has_turn_at table.now head }
{
    let Some(node) = table.get(head) else {
        return false;
    };
    if !is_waiting_head(node) {
        return false;
    }
    match table.kept_parent(head) {
        Some(above) => has_buffers_there(table, above),
        None => false,
    }
}

/// What the node asks for, if it is of one of the units with these heads, which stand in order, and
/// not gone.
fn unit_demand(node: &Node, heads: &[NodeKey]) -> Option<Constraints>
    requires { IsSorted key_order heads.now }
    ensures { result ≡ (if is_in_some heads.now node.now then node.now.constraints else None) }
{
    if !node.gone && is_one_of(heads, node.head) {
        node.constraints
    } else {
        None
    }
}

/// What the node with this key asks for, if it is of one of these units and not gone, where this
/// node is in the place of the one with its key.
#[inline(always)]
pub(crate) fn asked_at(
    table: &NodeTable<Node>,
    heads: &[NodeKey],
    after: &Node,
    key: NodeKey,
) -> Option<Constraints>
    requires { IsSorted key_order heads.now }
    ensures { result ≡ asked_at table.now heads.now after.now key }
{
    let node = table.get(key)?;
    if after.key == node.key {
        unit_demand(after, heads)
    } else {
        unit_demand(node, heads)
    }
}

/// The nodes with these keys that are of the units with these heads, which stand in order, have
/// their buffers then.
pub(crate) fn mark_allocated(table: &mut NodeTable<Node>, keys: &[NodeKey], heads: &[NodeKey])
    requires sorted { IsSorted key_order heads.now }
    requires named { AreNamed table.old }
    ensures { IsGivenAt table.old table.new heads.now keys.now }
{
    for key in keys {
        mark_allocated_at(table, *key, heads);
    }
}

/// The node with this key has its unit's buffers then.
fn write_allocated(table: &mut NodeTable<Node>, key: NodeKey)
    ensures becomes { (n : NodeValue) → node_at table.old key ≡ Some n →
        table.new ≡ table_with_node table.old key (record n { allocated = true }) }
    ensures writes { (n : NodeValue) → node_at table.old key ≡ Some n →
        Writes table.old table.new key (record n { allocated = true }) }
{
    if let Some(node) = table.get_mut(key) {
        node.allocated = true;
    }
}

/// The node with this key has its unit's buffers then, if it is of one of these units.
fn mark_allocated_at(table: &mut NodeTable<Node>, key: NodeKey, heads: &[NodeKey])
    requires sorted { IsSorted key_order heads.now }
    requires named { AreNamed table.old }
    ensures { IsGivenAt table.old table.new heads.now (key ∷ []) }
{
    let Some(node) = table.get(key) else {
        return;
    };
    if is_one_of(heads, node.head) {
        write_allocated(table, key);
    }
}
