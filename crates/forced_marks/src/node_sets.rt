//! The nodes of which something holds, as sets of keys, each found in one walk over the nodes. The
//! sets are ordered (`BTreeSet`): a look-up costs O(log n) whatever the keys are, and takes no
//! seed.
ghost use Rattle.std.specs.Prelude.{◌≡◌, not, true, false, IfOk, OnOk, reverse};
ghost use Rattle.std.specs.List.{list_all, list_any};
ghost use Rattle.sm_names.specs.declared.keys.NodeKey.{NodeKey as Key};
ghost use Rattle.forest_store.specs.Questions.{blocks_here, is_allocated_node, is_below, is_ready_node, lives_below};
ghost use Rattle.forest_store.specs.Scenes.{are_distinct};
ghost use Rattle.forced_marks.specs.KeySets.{climbed_past, climbs_into, has, joins as joins_them};

use crate::key_sets::KeySet;
use crate::questions::is_live;
use forest_store::Node;
use sm_names::NodeKey;
use std::alloc::{AllocError, Global};

/// The top node and those below it.
///
/// `AllocError` where memory is refused. Costs O(n log n) for n nodes.
pub fn nodes_under(alloc: Global, nodes: &[Node], top: NodeKey) -> Result<KeySet, AllocError>
    ensures { IfOk result (λ under. (key : Key) → has under key ≡ is_below nodes.now top key) }
{
    let mut under = KeySet::new(alloc);
    under.add_if(top, true)?;
    for node in nodes {
        let taken = joins(&under, top, node);
        under.put(node.key, taken)?;
    }
    Ok(under)
}

// Whether the node is the top one, or its parent is one of these.
fn joins(under: &KeySet, top: NodeKey, node: &Node) -> bool
    ensures { result ≡ joins_them (has under.now) top node.now }
{
    if top == node.key {
        return true;
    }
    match node.parent {
        Some(parent) => under.has(parent),
        None => false,
    }
}

/// The nodes at or below which a node is live.
///
/// `AllocError` where memory is refused. Costs O(n log n) for n nodes.
pub fn busy_nodes(alloc: Global, nodes: &[Node]) -> Result<KeySet, AllocError>
    requires { are_distinct nodes.now ≡ true }
    ensures { IfOk result (λ busy. (key : Key) →
        has busy key ≡ list_any (lives_below nodes.now key) nodes.now) }
{
    let mut busy = KeySet::new(alloc);
    climb_all(&mut busy, nodes)?;
    Ok(busy)
}

// Climbs from each live node up to the oldest, the newest first.
fn climb_all(busy: &mut KeySet, nodes: &[Node]) -> Result<(), AllocError>
    ensures { OnOk result ((key : Key) →
        has busy.new key ≡ climbs_into (reverse nodes.now) (has busy.old) key) }
{
    let mut rest = nodes;
    'climbs: while let Some((node, older)) = rest.split_last() {
        climb(busy, node)?;
        rest = older;
    }
    Ok(())
}

// Goes on from the node to its parent, if the node is live or a climb came to it.
fn climb(busy: &mut KeySet, node: &Node) -> Result<(), AllocError>
    ensures { OnOk result ((key : Key) →
        has busy.new key ≡ climbed_past node.now (has busy.old) key) }
{
    if !is_live(node) && !busy.has(node.key) {
        return Ok(());
    }
    if let Some(parent) = node.parent {
        busy.add_if(parent, true)?;
    }
    busy.add_if(node.key, true)
}

/// The nodes that are not gone, and whose unit has its buffers.
///
/// `AllocError` where memory is refused. Costs O(n log n) for n nodes.
pub fn allocated_nodes(alloc: Global, nodes: &[Node]) -> Result<KeySet, AllocError>
    ensures { IfOk result (λ keys. (key : Key) →
        has keys key ≡ list_any (is_allocated_node key) nodes.now) }
{
    let mut keys = KeySet::new(alloc);
    for node in nodes {
        keys.add_if(node.key, !node.gone && node.allocated)?;
    }
    Ok(keys)
}

/// The heads of the units that wait for constraints or a release.
///
/// `AllocError` where memory is refused. Costs O(n log n) for n nodes.
pub fn waiting_heads(alloc: Global, nodes: &[Node]) -> Result<KeySet, AllocError>
    ensures { IfOk result (λ keys. (key : Key) →
        has keys key ≡ not (list_all (is_ready_node key) nodes.now)) }
{
    let mut keys = KeySet::new(alloc);
    for node in nodes {
        keys.add_if(node.head, is_live(node) && node.constraints.is_none())?;
    }
    Ok(keys)
}

/// The nodes whose failure does not go to their parent.
///
/// `AllocError` where memory is refused. Costs O(n log n) for n nodes.
pub fn blocking_nodes(alloc: Global, nodes: &[Node]) -> Result<KeySet, AllocError>
    ensures { IfOk result (λ keys. (key : Key) →
        has keys key ≡ list_any (blocks_here key) nodes.now) }
{
    let mut keys = KeySet::new(alloc);
    for node in nodes {
        let blocks = !node.gone && (node.attached || node.dispensable && node.allocated);
        keys.add_if(node.key, blocks)?;
    }
    Ok(keys)
}
