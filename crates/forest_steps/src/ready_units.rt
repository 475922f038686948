//! Which attached units may be next once the one above them is allocated, since they are ready.
ghost use Rattle.std.specs.List.{list_any};
ghost use Rattle.std.specs.List.Sorted.{IsSorted};
ghost use Rattle.std.specs.Prelude.{◌≡◌, ◌≤◌, ◌++◌, ◌∷◌, [], true, length, vec_capacity, IsSome};
ghost use Rattle.sm_names.specs.Sameness.{same_key};
ghost use Rattle.node_table.specs.Table.{row_at, table_len};
ghost use Rattle.forest_store.specs.LossMarks.{key_order};
ghost use Rattle.forest_store.specs.UnitAllocation.{IsWalked, is_head_at, is_outside, is_ready_head, is_waiting_head};

use failure_domains::{WalkBound, walk_within};
use forest_store::node::Node;
use forest_store::unit_counts::{Unit, unit_in};
use node_table::NodeTable;
use sm_names::{CollectionId, NodeKey};

/// Whether the key is one of these, which stand in order. A look where there is one, and else a
/// binary search.
pub(crate) fn is_one_of(heads: &[NodeKey], key: NodeKey) -> bool
    requires { IsSorted key_order heads.now }
    ensures { result ≡ list_any (same_key key) heads.now }
{
    match heads {
        [head] => key == *head,
        _ => is_among(heads, key),
    }
}

/// Whether the node is attached, not gone, and its unit has no buffers.
pub(crate) fn is_waiting_head(node: &Node) -> bool
    ensures { result ≡ is_waiting_head node.now }
{
    node.attached && !node.gone && !node.allocated
}

/// Whether the node heads a unit of this collection that is attached, has no buffers, and waits for
/// no node, by the counts.
fn is_ready_head(units: &[Unit], id: CollectionId, node: &Node) -> bool
    ensures { result ≡ is_ready_head units.now id node.now }
{
    node.collection == id
        && (node.key.slot as usize) < units.len()
        && is_waiting_head(node)
        && unit_in(units, node.key.slot as usize).unready == 0
}

/// Whether the node with this key is this head, or does.
pub(crate) fn is_head_at(
    table: &NodeTable<Node>,
    units: &[Unit],
    id: CollectionId,
    head: NodeKey,
    key: NodeKey,
) -> bool
    ensures { result ≡ is_head_at table.now units.now id head key }
{
    if key == head {
        return true;
    }
    match table.get(key) {
        Some(node) => is_ready_head(units, id, node),
        None => false,
    }
}

/// The units that may be next together, by the counts of their collection: a walk down from
/// one of them takes the attached nodes right below them, and nothing below those that head none of
/// them.
#[derive(Drop)]
struct Together<'a> {
    units: &'a [Unit],
    id: CollectionId,
}

impl<'a> WalkBound<Node> for Together<'a> {
    ghost stops = { λ together n. is_outside together.units.now together.id n };

    fn stops(&self, node: &Node) -> bool {
        node.attached && !is_ready_head(self.units, self.id, node)
    }
}

/// Lists the keys of the nodes of the unit with this head, and of each attached unit that is ready and
/// hangs right below another of them, and of the heads right below all these. Costs their number. Takes
/// no memory: the list has room for as many keys as there are nodes.
pub(crate) fn find_ready_below(
    table: &NodeTable<Node>,
    units: &[Unit],
    id: CollectionId,
    head: NodeKey,
    keys: &mut Vec<NodeKey>,
)
    requires there { IsSome (row_at table.now head) }
    requires room { table_len table.now ≤ vec_capacity keys.old }
    ensures walked { IsWalked table.now units.now id head keys.new.items }
    ensures few { length keys.new.items ≤ table_len table.now }
    ensures room { vec_capacity keys.old ≤ vec_capacity keys.new }
{
    walk_within(table, head, keys, &Together { units, id }).unwrap();
}

/// Whether the key is one of these, which stand in order. A binary search.
pub(crate) fn is_among(keys: &[NodeKey], key: NodeKey) -> bool
    requires { IsSorted key_order keys.now }
    ensures { result ≡ list_any (same_key key) keys.now }
{
    keys.binary_search(&key).is_ok()
}
