//! The way of a failure up, and where it stops.
ghost use Rattle.std.specs.Prelude.{◌≡◌, ◌++◌, ◌∷◌, [], IfOk, reverse};
ghost use Rattle.std.specs.List.{list_any};
ghost use Rattle.forest_store.specs.Nodes.{above_among, node_of};
ghost use Rattle.forest_store.specs.Questions.{blocks_here};
ghost use Rattle.forced_marks.specs.Explanations.{climb};
ghost use Rattle.forced_marks.specs.KeySets.{has};
ghost use Rattle.event_facts.specs.Facts.{stop_of};

use forced_marks::key_sets::KeySet;
use forced_marks::node_sets::blocking_nodes;
use forest_store::Node;
use sm_names::NodeKey;
use std::alloc::AllocError;

/// Why a failure climbs no further than a node.
#[derive(Clone, Copy, PartialEq, Eq)]
pub enum Stop {
    /// The node is a root.
    AtRoot,
    /// It is attached to this parent.
    AtAttached(NodeKey),
    /// It is dispensable, and in an allocated unit; this is its parent.
    AtDispensable(NodeKey),
}

/// The nodes from this one up to the highest that its failure reaches: each but the last has a link to
/// its parent that is not blocked. Costs O(n log n) for n nodes.
pub fn way_up(nodes: &Vec<Node>, origin: NodeKey) -> Result<Vec<NodeKey>, AllocError>
    ensures { IfOk result (λ way. way.items ≡ climb (λ k. list_any (blocks_here k) nodes.now.items)
        origin (above_among (reverse nodes.now.items) origin)) }
{
    let blocking = blocking_nodes(*nodes.allocator(), nodes)?;
    let way = way_past(nodes, &blocking, origin)?;
    Ok(way)
}

// The nodes from this one up to the first of those whose failure does not go to their parent.
fn way_past(
    nodes: &Vec<Node>,
    blocking: &KeySet,
    origin: NodeKey,
) -> Result<Vec<NodeKey>, AllocError>
    ensures { IfOk result (λ way. way.items ≡ climb (has blocking.now)
        origin (above_among (reverse nodes.now.items) origin)) }
{
    let mut way = Vec::new(*nodes.allocator());
    let mut at = origin;
    let mut rest = nodes.as_slice();
    'up: while let Some((node, older)) = rest.split_last() {
        if node.key == at {
            let Some(parent) = node.parent else {
                return with_last(way, at);
            };
            if blocking.has(at) {
                return with_last(way, at);
            }
            way.push(at)?;
            at = parent;
        }
        rest = older;
    }
    with_last(way, at)
}

// The way, and this node behind it.
fn with_last(way: Vec<NodeKey>, last: NodeKey) -> Result<Vec<NodeKey>, AllocError>
    ensures { IfOk result (λ whole. whole.items ≡ way.items ++ (last ∷ [])) }
{
    let mut whole = way;
    whole.push(last)?;
    Ok(whole)
}

/// Why a failure climbs no further than the node with this key. Costs O(n) for n nodes.
pub fn stop_at(nodes: &[Node], top: NodeKey) -> Stop
    ensures { result ≡ stop_of nodes.now top }
{
    let Some(node) = find(nodes, top) else {
        return Stop::AtRoot;
    };
    let Some(parent) = node.parent else {
        return Stop::AtRoot;
    };
    if node.attached {
        Stop::AtAttached(parent)
    } else {
        Stop::AtDispensable(parent)
    }
}

/// The node with this key. Costs O(n) for n nodes.
pub fn find(nodes: &[Node], key: NodeKey) -> Option<Node>
    ensures { result ≡ node_of nodes.now key }
{
    nodes.iter().find(|node| node.key == key).copied()
}
