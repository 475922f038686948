//! Nodes that are born.
ghost use Rattle.std.specs.Prelude.{◌≡◌};
ghost use Rattle.forest_store.specs.Nodes.{new_root as born_root, new_child as born_child};

use crate::node::{End, Node};
use sm_names::{ClientId, CollectionId, NodeKey};

/// A root that is new, whose end the client holds.
pub fn new_root(key: NodeKey, collection: CollectionId, event: u64, client: ClientId) -> Node
    ensures { result ≡ born_root key collection event client }
{
    Node {
        key,
        parent: None,
        attached: false,
        collection,
        event,
        head: key,
        allocated: false,
        gone: false,
        fault: None,
        released: false,
        dispensable: false,
        weak: false,
        weak_ok: false,
        covers: false,
        constraints: None,
        took: false,
        trackers: 0,
        bound: false,
        end: End::Held(client),
    }
}

/// A child of the node that is new, whose end the client holds. Unless it is attached it is of its
/// parent's unit.
pub fn new_child(attached: bool, key: NodeKey, event: u64, client: ClientId, above: &Node) -> Node
    ensures { result ≡ born_child attached key event client above.now }
{
    Node {
        key,
        parent: Some(above.key),
        attached,
        collection: above.collection,
        event,
        head: if attached { key } else { above.head },
        allocated: !attached && above.allocated,
        gone: false,
        fault: None,
        released: false,
        dispensable: false,
        weak: above.weak,
        weak_ok: above.covers,
        covers: above.covers,
        constraints: None,
        took: false,
        trackers: 0,
        bound: false,
        end: End::Held(client),
    }
}
