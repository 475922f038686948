//! A collection or an attached subtree that ends, since no node of it is live.
ghost use Rattle.std.specs.Prelude.{◌≡◌, true, map, IfOk, OnErr, OnOk};
ghost use Rattle.std.specs.List.{find};
ghost use Rattle.std.specs.Option.{option_map};
ghost use Rattle.forest_store.specs.Nodes.{after_end};
ghost use Rattle.forest_store.specs.Questions.{is_deserted_node};
ghost use Rattle.forest_store.specs.Scenes.{are_distinct};
ghost use Rattle.forced_marks.specs.KeySets.{has, is_deserted_by, left_by};

use crate::key_sets::KeySet;
use crate::node_sets::{busy_nodes, nodes_under};
use forest_store::Node;
use sm_names::NodeKey;
use std::alloc::{AllocError, Global};

/// Of the roots and attached nodes that are not gone, with no live node at or below them, the one
/// that was born first. It ends.
///
/// `AllocError` where memory is refused. Costs O(n log n) for n nodes.
pub fn deserted_head(alloc: Global, nodes: &[Node]) -> Result<Option<NodeKey>, AllocError>
    requires { are_distinct nodes.now ≡ true }
    ensures { IfOk result (λ head.
        head ≡ option_map (λ n. n.key) (find (is_deserted_node nodes.now) nodes.now)) }
{
    let busy = busy_nodes(alloc, nodes)?;
    Ok(first_deserted(nodes, &busy))
}

/// Of the roots and attached nodes that are not gone, and not among the busy ones, the one that was born
/// first.
fn first_deserted(nodes: &[Node], busy: &KeySet) -> Option<NodeKey>
    ensures { result ≡ option_map (λ n. n.key) (find (is_deserted_by (has busy.now)) nodes.now) }
{
    for node in nodes {
        if is_deserted(busy, node) {
            return Some(node.key);
        }
    }
    None
}

/// Whether the node is a root or attached, not gone, and not among the busy ones.
fn is_deserted(busy: &KeySet, node: &Node) -> bool
    ensures { result ≡ is_deserted_by (has busy.now) node.now }
{
    (node.parent.is_none() || node.attached) && !node.gone && !busy.has(node.key)
}

/// The top node leaves without a fault, and all below it.
///
/// `AllocError` where memory is refused: then nothing is changed. Costs O(n log n) for n nodes.
pub fn end_subtree(alloc: Global, nodes: &mut [Node], top: NodeKey) -> Result<(), AllocError>
    ensures made { OnOk result (nodes.new ≡ after_end top nodes.old) }
    ensures stays { OnErr result (nodes.new ≡ nodes.old) }
{
    let under = nodes_under(alloc, nodes, top)?;
    end_all(nodes, &under);
    Ok(())
}

/// These nodes leave without a fault.
fn end_all(nodes: &mut [Node], taken: &KeySet)
    ensures { nodes.new ≡ map (left_by (has taken.now)) nodes.old }
{
    for node in nodes.iter_mut() {
        mark_ended(node, taken);
    }
}

/// The node leaves, if it is taken.
fn mark_ended(node: &mut Node, taken: &KeySet)
    ensures { node.new ≡ left_by (has taken.now) node.old }
{
    node.gone = taken.has(node.key) || node.gone;
}
