//! Removal of nodes: what their counts lose, and how each is marked gone in the table.
ghost use Rattle.std.specs.Prelude.{◌≡◌, ◌≢◌, ◌≤◌, ◌∷◌, [], Some, IsSome, map, false};
ghost use Rattle.std.specs.List.{All, AllPairs, list_any};
ghost use Rattle.std.specs.Option.{option_map_or};
ghost use Rattle.sm_names.specs.declared.keys.NodeKey.{NodeKey as Key};
ghost use Rattle.node_table.specs.Changes.{Writes};
ghost use Rattle.node_table.specs.Lending.{table_with_node};
ghost use Rattle.node_table.specs.Table.{node_at, row_at};
ghost use Rattle.forest_store.specs.declared.node.Node.{Node as NodeValue};
ghost use Rattle.forest_store.specs.Calm.{strong_count};
ghost use Rattle.forest_store.specs.LossMarks.{gone_by, uncounted_both};
ghost use Rattle.forest_store.specs.CollectionRows.{Stores, nodes_with};
ghost use Rattle.forest_store.specs.Nodes.{is_unkept};
ghost use Rattle.forest_store.specs.Reserved.{reserved_count};
ghost use Rattle.forest_store.specs.Stores.{AreNamed};

use crate::lookup::{is_strong, is_unkept};
use crate::loss_marks::{RemovalKind, remove_node, uncount, uncount_below};
use crate::node::Node;
use crate::reserved::camped;
use crate::unit_counts::{Unit, head_above};
use node_table::NodeTable;
use sm_names::NodeKey;

/// What the counts of a collection lose with some nodes.
#[derive(Clone, Copy)]
pub struct Recounted {
    /// How many of them are strong and live.
    pub strong: usize,
    /// How many reserved buffers they camp on.
    pub reserved: u128,
}

/// What the counts lose with the nodes with these keys. Takes O(n).
pub fn recount(table: &NodeTable<Node>, keys: &[NodeKey]) -> Recounted
    ensures strong { result.strong ≡ strong_count (nodes_with table.now keys.now) }
    ensures reserved { result.reserved ≡ reserved_count (nodes_with table.now keys.now) }
{
    let mut found = Recounted {
        strong: 0,
        reserved: 0,
    };
    for key in keys {
        if let Some(node) = table.get(*key) {
            found.strong += is_strong(node) as usize;
            found.reserved += camped(node, node.constraints) as u128;
        }
    }
    found
}

/// What the removal of nodes takes.
#[derive(Clone, Copy)]
pub struct Removed {
    /// How many of them were strong and live.
    pub strong: usize,
    /// How many reserved buffers they camped on.
    pub reserved: u128,
    /// One of them is unkept now.
    pub over: bool,
}

/// Subtracts the node from the counts of its unit, if it is not gone, and, if it heads the unit, from
/// those of the unit right above.
#[inline(always)]
fn decrement(table: &NodeTable<Node>, units: &mut Vec<Unit>, node: &Node)
    ensures { units.new.items ≡ uncounted_both table.now (node.now ∷ []) units.old.items }
{
    if !node.gone {
        uncount(units, node);
    }
    uncount_below(units, head_above(table, node));
}

/// Marks the node with this key gone. Answers whether it is unkept then.
#[inline(always)]
fn mark_gone(table: &mut NodeTable<Node>, key: NodeKey, going: &RemovalKind) -> bool
    requires { IsSome (row_at table.old key) }
    ensures becomes { (n : NodeValue) → node_at table.old key ≡ Some n →
        table.new ≡ table_with_node table.old key (gone_by going.now n) }
    ensures writes { (n : NodeValue) → node_at table.old key ≡ Some n →
        Writes table.old table.new key (gone_by going.now n) }
    ensures over { (n : NodeValue) → node_at table.old key ≡ Some n →
        result ≡ is_unkept (gone_by going.now n) }
{
    let node = table.kept_mut(key);
    remove_node(node, going);
    is_unkept(node)
}

/// Subtracts the node with this key from the counts of units, and marks it gone. Answers what the counts
/// of its collection lose.
#[inline(always)]
fn remove(
    table: &mut NodeTable<Node>,
    units: &mut Vec<Unit>,
    key: NodeKey,
    going: &RemovalKind,
) -> Removed
    requires { IsSome (row_at table.old key) }
    ensures strong { result.strong ≡ strong_count (nodes_with table.old (key ∷ [])) }
    ensures one { result.strong ≤ 1 }
    ensures reserved { result.reserved ≡ reserved_count (nodes_with table.old (key ∷ [])) }
    ensures few { result.reserved ≤ 255 }
    ensures units { units.new.items
        ≡ uncounted_both table.old (nodes_with table.old (key ∷ [])) units.old.items }
    ensures becomes { (n : NodeValue) → node_at table.old key ≡ Some n →
        table.new ≡ table_with_node table.old key (gone_by going.now n) }
    ensures writes { (n : NodeValue) → node_at table.old key ≡ Some n →
        Writes table.old table.new key (gone_by going.now n) }
    ensures over { result.over
        ≡ option_map_or (λ n. is_unkept (gone_by going.now n)) (node_at table.old key) false }
{
    let node = table.kept(key);
    let strong = is_strong(node) as usize;
    let reserved = camped(node, node.constraints) as u128;
    decrement(table, units, node);
    let over = mark_gone(table, key, going);
    Removed {
        strong,
        reserved,
        over,
    }
}

/// Removes the nodes with these keys, which are all there: subtracts each from the counts of its unit,
/// and, if it heads the unit, from those of the unit right above, and marks it gone. Reads each node
/// once. Answers what the counts of the collection lose with them, and whether one of them is unkept then.
/// Takes O(n).
pub fn remove_all(
    table: &mut NodeTable<Node>,
    units: &mut Vec<Unit>,
    keys: &[NodeKey],
    going: &RemovalKind,
) -> Removed
    requires named { AreNamed table.old }
    requires once { AllPairs (λ (a b : Key). a ≢ b) keys.now }
    requires there { All (λ (k : Key). IsSome (row_at table.old k)) keys.now }
    ensures strong { result.strong ≡ strong_count (nodes_with table.old keys.now) }
    ensures reserved { result.reserved ≡ reserved_count (nodes_with table.old keys.now) }
    ensures units { units.new.items
        ≡ uncounted_both table.old (nodes_with table.old keys.now) units.old.items }
    ensures stores { Stores table.old table.new (map (gone_by going.now)
        (nodes_with table.old keys.now)) }
    ensures over { result.over
        ≡ list_any is_unkept (map (gone_by going.now) (nodes_with table.old keys.now)) }
{
    let mut strong = 0;
    let mut reserved = 0;
    let mut over = false;
    for key in keys {
        let one = remove(table, units, *key, going);
        strong += one.strong;
        reserved += one.reserved;
        over = over || one.over;
    }
    Removed {
        strong,
        reserved,
        over,
    }
}
