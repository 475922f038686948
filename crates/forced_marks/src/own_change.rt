//! What a call itself does to the collection that it changes.
ghost use Rattle.std.specs.Prelude.{◌≡◌, true, IfOk};
ghost use Rattle.std.specs.List.{list_all};
ghost use Rattle.forest_store.specs.Nodes.{after_effect, node_of as node_with};
ghost use Rattle.forest_store.specs.Settling.{changed, with_birth};
ghost use Rattle.forest_store.specs.Snapshots.{collection_of};
ghost use Rattle.core_state.specs.Steps.{leaves_tracker_room};
ghost use Rattle.forest_store.specs.Scenes.{has_tracker_room};
ghost use Rattle.forced_marks.specs.Marks.{forces_nothing};

use crate::losses::lose;
use forest_steps::node_effect::keeps_counts;
use forest_store::births::{new_child, new_root};
use forest_store::effects::affect_one;
use forest_store::{Change, Effect, Node, Snapshot};
use sm_names::{ClientId, Fault, NodeKey};
use std::alloc::AllocError;

/// Whether the change forces nothing, whatever stands in its collection: it makes a node, or writes of one what
/// no step reads. Costs O(1).
pub fn forces_nothing(change: &Change) -> bool
    ensures { result ≡ forces_nothing change.now }
{
    match change {
        Change::Birth { .. } => true,
        Change::Effect(_, effect) => keeps_counts(effect),
        Change::Loss(_, _) | Change::Nothing => false,
    }
}

/// Makes the change to the collection; a new node gets this key. What it forces is not made.
///
/// `AllocError` where memory is refused: then nothing is changed. Costs O(n log n) for n nodes.
pub fn apply(scene: &mut Snapshot, change: &Change, key: NodeKey) -> Result<(), AllocError>
    requires { leaves_tracker_room change.now scene.old.nodes.items ≡ true }
    ensures { IfOk result (λ done.
        collection_of scene.new ≡ changed change.now key (collection_of scene.old)) }
{
    match *change {
        Change::Birth {
            parent,
            attached,
            client,
            event,
        } => add_node(scene, parent, attached, client, event, key),
        Change::Effect(on, effect) => {
            apply_effect(&mut scene.nodes, on, &effect);
            Ok(())
        }
        Change::Loss(origin, cause) => {
            let alloc = *scene.nodes.allocator();
            lose(alloc, &mut scene.nodes, Fault { cause, origin })?;
            Ok(())
        }
        Change::Nothing => Ok(()),
    }
}

/// The node with this key.
fn node_of(nodes: &[Node], key: NodeKey) -> Option<Node>
    ensures { result ≡ node_with nodes.now key }
{
    nodes.iter().find(|node| node.key == key).copied()
}

/// One more node: a root, or a child of the node with this key, if it is there.
fn add_node(
    scene: &mut Snapshot,
    parent: Option<NodeKey>,
    attached: bool,
    client: ClientId,
    event: u64,
    key: NodeKey,
) -> Result<(), AllocError>
    ensures { IfOk result (λ done. collection_of scene.new
        ≡ with_birth parent attached client event key (collection_of scene.old)) }
{
    let node = match parent {
        None => new_root(key, scene.id, event, client),
        Some(above) => match node_of(&scene.nodes, above) {
            Some(above) => new_child(attached, key, event, client, &above),
            None => return Ok(()),
        },
    };
    scene.nodes.push(node)?;
    Ok(())
}

/// Makes the effect. A walk over the nodes.
pub fn apply_effect(nodes: &mut [Node], key: NodeKey, effect: &Effect)
    requires { list_all (has_tracker_room key effect.now) nodes.old ≡ true }
    ensures { nodes.new ≡ after_effect key effect.now nodes.old }
{
    for at in 0..nodes.len() {
        affect_one(&mut nodes[at], key, effect);
    }
}
