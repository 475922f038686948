//! The allocation of an attached unit, out of the buffers that there are.
ghost use Rattle.std.specs.Prelude.{◌≡◌, IfOk};
ghost use Rattle.std.specs.List.{find};
ghost use Rattle.std.specs.Option.{option_map};
ghost use Rattle.forest_store.specs.Decisions.{late_failure};
ghost use Rattle.forest_store.specs.Questions.{is_next_node};
ghost use Rattle.forced_marks.specs.KeySets.{has, is_next_by};

use crate::demand::{reserved, total_demand};
use crate::key_sets::KeySet;
use crate::node_sets::{allocated_nodes, waiting_heads};
use forest_steps::demand::refusal;
use forest_store::Node;
use sm_names::{Buffers, Failure, NodeKey};
use std::alloc::{AllocError, Global};

/// The head of the unit that is to be allocated next: of the attached units that are ready and not
/// allocated, below an allocated unit, the one whose head was born first.
///
/// `AllocError` where memory is refused. Costs O(n log n) for n nodes.
pub fn next_head(alloc: Global, nodes: &[Node]) -> Result<Option<NodeKey>, AllocError>
    ensures { IfOk result (λ head.
        head ≡ option_map (λ n. n.key) (find (is_next_node nodes.now) nodes.now)) }
{
    let allocated = allocated_nodes(alloc, nodes)?;
    let waiting = waiting_heads(alloc, nodes)?;
    Ok(first_next(nodes, &allocated, &waiting))
}

/// Of the attached nodes that wait for buffers, below these that have them, and that head none of those
/// units, the one that was born first.
fn first_next(nodes: &[Node], allocated: &KeySet, waiting: &KeySet) -> Option<NodeKey>
    ensures { result ≡ option_map (λ n. n.key)
        (find (is_next_by (has allocated.now) (has waiting.now)) nodes.now) }
{
    for node in nodes {
        if is_next(allocated, waiting, node) {
            return Some(node.key);
        }
    }
    None
}

/// Whether the node is such a one.
fn is_next(allocated: &KeySet, waiting: &KeySet, node: &Node) -> bool
    ensures { result ≡ is_next_by (has allocated.now) (has waiting.now) node.now }
{
    let Some(parent) = node.parent else {
        return false;
    };
    node.attached
        && !node.gone
        && !node.allocated
        && allocated.has(parent)
        && !waiting.has(node.key)
}

/// Why the unit with this head can't be allocated.
pub fn failure(nodes: &[Node], head: NodeKey, buffers: Buffers) -> Option<Failure>
    ensures { result ≡ late_failure head nodes.now buffers }
{
    let asks = total_demand(nodes, head);
    refusal(buffers, reserved(nodes), &asks)
}
