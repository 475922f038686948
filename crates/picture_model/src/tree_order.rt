//! The nodes of a tree by their keys: themselves, those below each, and those that have some below.
ghost use Rattle.std.specs.Prelude.{IfOk};
ghost use Rattle.picture_model.specs.Kin.{AreParents, FindsChildren, FindsNodes};

use event_facts::{KeyMap, KeyRows};
use forced_marks::key_sets::KeySet;
use forest_store::Node;
use std::alloc::AllocError;

/// The nodes by their keys.
///
/// `AllocError` where memory is refused. Costs O(n log n) for n nodes.
pub fn nodes_by_key(nodes: &Vec<Node>) -> Result<KeyMap<Node>, AllocError>
    ensures { IfOk result (λ map. FindsNodes map nodes.now.items) }
{
    let mut map = KeyMap::new(*nodes.allocator());
    for node in nodes {
        map.add(node.key, *node)?;
    }
    Ok(map)
}

/// The children of each node, by birth.
///
/// `AllocError` where memory is refused. Costs O(n log n) for n nodes.
pub fn children_by_key(nodes: &Vec<Node>) -> Result<KeyRows<Node>, AllocError>
    ensures { IfOk result (λ rows. FindsChildren rows nodes.now.items) }
{
    let alloc = *nodes.allocator();
    let mut rows = KeyRows::new(alloc);
    for node in nodes {
        if let Some(parent) = node.parent {
            rows.add(alloc, parent, *node)?;
        }
    }
    Ok(rows)
}

/// The keys of the nodes that have children.
///
/// `AllocError` where memory is refused. Costs O(n log n) for n nodes.
pub fn parents_among(nodes: &Vec<Node>) -> Result<KeySet, AllocError>
    ensures { IfOk result (λ set. AreParents set nodes.now.items) }
{
    let mut set = KeySet::new(*nodes.allocator());
    for node in nodes {
        if let Some(parent) = node.parent {
            set.add_if(parent, true)?;
        }
    }
    Ok(set)
}
