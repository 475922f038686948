//! The nodes that a failure or an end takes, and the children to which each node hands it on.
ghost use Rattle.std.specs.Prelude.{◌≡◌, ◌++◌, ◌∷◌, [], if◌then◌else◌, IfOk, OnOk, map};
ghost use Rattle.std.specs.List.{filter};
ghost use Rattle.sm_names.specs.declared.keys.NodeKey.{NodeKey as Key};
ghost use Rattle.forest_store.specs.declared.node.Node.{Node as NodeValue};
ghost use Rattle.forced_marks.specs.KeySets.{has};
ghost use Rattle.event_facts.specs.Facts.{is_handed, is_handed_past, is_lost_with, is_taken_of};
ghost use Rattle.event_facts.specs.KeyMaps.{values_at};

use crate::key_maps::{KeyRows, keys_of};
use forced_marks::key_sets::KeySet;
use forced_marks::node_sets::nodes_under;
use forest_store::Node;
use sm_names::NodeKey;
use std::alloc::{AllocError, Global};

/// The nodes at or below `top` that are not gone, in order of birth. Costs O(n log n) for n nodes.
pub fn taken_under(nodes: &Vec<Node>, top: NodeKey) -> Result<Vec<Node>, AllocError>
    ensures { IfOk result (λ taken. taken.items
        ≡ filter (is_lost_with nodes.now.items top) nodes.now.items) }
{
    let under = nodes_under(*nodes.allocator(), nodes, top)?;
    let taken = taken_among(nodes, &under)?;
    Ok(taken)
}

// The nodes that are not gone, and among these, by birth.
fn taken_among(nodes: &Vec<Node>, under: &KeySet) -> Result<Vec<Node>, AllocError>
    ensures { IfOk result (λ taken. taken.items
        ≡ filter (is_taken_of (has under.now)) nodes.now.items) }
{
    let mut taken = Vec::new(*nodes.allocator());
    for node in nodes {
        if takes(under, node) {
            taken.push(*node)?;
        }
    }
    Ok(taken)
}

// Whether the node is not gone, and among these.
fn takes(under: &KeySet, node: &Node) -> bool
    ensures { result ≡ is_taken_of (has under.now) node.now }
{
    !node.gone && under.has(node.key)
}

/// To which nodes each node hands on what takes it: its children among those that are taken, by birth, but
/// for those on the way up.
///
/// `AllocError` where memory is refused. Costs O(n log n) for n nodes, those on the way among them.
pub fn handed_on(taken: &Vec<Node>, way: &[NodeKey]) -> Result<KeyRows<NodeKey>, AllocError>
    ensures { IfOk result (λ rows. (above : Key) → values_at rows above
        ≡ map (λ (n : NodeValue). n.key) (filter (is_handed way.now above) taken.now.items)) }
{
    let passed = keys_of(*taken.allocator(), way)?;
    let rows = handed_past(taken, &passed)?;
    Ok(rows)
}

// The same, where a failure came up by these.
fn handed_past(taken: &Vec<Node>, passed: &KeySet) -> Result<KeyRows<NodeKey>, AllocError>
    ensures { IfOk result (λ rows. (above : Key) → values_at rows above
        ≡ map (λ (n : NodeValue). n.key) (filter (is_handed_past (has passed.now) above) taken.now.items)) }
{
    let alloc = *taken.allocator();
    let mut rows = KeyRows::new(alloc);
    for node in taken {
        hand_on(&mut rows, alloc, passed, node)?;
    }
    Ok(rows)
}

// Puts the node behind the others that its parent hands on to, unless a failure came up by it.
fn hand_on(
    rows: &mut KeyRows<NodeKey>,
    alloc: Global,
    passed: &KeySet,
    node: &Node,
) -> Result<(), AllocError>
    ensures { OnOk result ((above : Key) → values_at rows.new above ≡ values_at rows.old above
        ++ (if is_handed_past (has passed.now) above node.now then node.now.key ∷ [] else [])) }
{
    match node.parent {
        Some(parent) => {
            if passed.has(node.key) {
                return Ok(());
            }
            rows.add(alloc, parent, node.key)
        }
        None => Ok(()),
    }
}
