//! What a failure takes.
ghost use Rattle.std.specs.Prelude.{◌≡◌, OnErr, OnOk, map, reverse};
ghost use Rattle.sm_names.specs.Losses.{top as topmost};
ghost use Rattle.forest_store.specs.Nodes.{above_among, after_loss, lost};
ghost use Rattle.forced_marks.specs.KeySets.{has};

use crate::key_sets::KeySet;
use crate::node_sets::{blocking_nodes, nodes_under};
use crate::questions::has_node;
use forest_store::Node;
use sm_names::{Fault, NodeKey};
use std::alloc::{AllocError, Global};

/// The node where the fault began fails, and with it the highest node that its failure climbs to
/// and all below that one. Nodes that are gone keep their faults.
///
/// `AllocError` where memory is refused: then nothing is changed. Costs O(n log n) for n nodes.
pub fn lose(alloc: Global, nodes: &mut [Node], fault: Fault) -> Result<(), AllocError>
    ensures made { OnOk result (nodes.new ≡ after_loss fault nodes.old) }
    ensures stays { OnErr result (nodes.new ≡ nodes.old) }
{
    if !has_node(nodes, fault.origin) {
        return Ok(());
    }
    let blocking = blocking_nodes(alloc, nodes)?;
    let top = highest(nodes, &blocking, fault.origin);
    let under = nodes_under(alloc, nodes, top)?;
    fail_all(nodes, &under, fault);
    Ok(())
}

/// The highest node that a failure of the node with this key climbs to, where it does not climb from
/// these. Costs O(n log n) for n nodes.
fn highest(nodes: &[Node], blocking: &KeySet, key: NodeKey) -> NodeKey
    ensures { result ≡ topmost (has blocking.now) key (above_among (reverse nodes.now) key) }
{
    let mut at = key;
    let mut rest = nodes;
    'up: while let Some((node, older)) = rest.split_last() {
        if node.key == at {
            let Some(parent) = node.parent else {
                return at;
            };
            if blocking.has(at) {
                return at;
            }
            at = parent;
        }
        rest = older;
    }
    at
}

/// These nodes fail.
fn fail_all(nodes: &mut [Node], taken: &KeySet, fault: Fault)
    ensures { nodes.new ≡ map (lost (λ n. has taken.now n.key) fault) nodes.old }
{
    for node in nodes.iter_mut() {
        fail(node, taken, fault);
    }
}

/// The node fails, if it is taken and is not gone yet.
fn fail(node: &mut Node, taken: &KeySet, fault: Fault)
    ensures { node.new ≡ lost (λ n. has taken.now n.key) fault node.old }
{
    if taken.has(node.key) && !node.gone {
        node.gone = true;
        node.fault = Some(fault);
    }
}
