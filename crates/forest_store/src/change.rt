//! What one event changes of a collection, before what that forces.
use sm_names::{Cause, ClientId, Constraints, NodeKey};

/// One change to a collection.
#[derive(Clone, Copy)]
pub enum Change {
    /// A node is born: a root, which makes the collection, or a child of a node of it.
    Birth {
        parent: Option<NodeKey>,
        attached: bool,
        /// Who holds the new end.
        client: ClientId,
        /// The number of the event.
        event: u64,
    },
    /// A call took effect on the node, and on no other.
    Effect(NodeKey, Effect),
    /// The node fails by this cause.
    Loss(NodeKey, Cause),
    /// Nothing of the nodes: a handle may have been opened or dropped.
    Nothing,
}

/// What a call makes of the node that it names, if it makes and loses none.
#[derive(Clone, Copy)]
pub enum Effect {
    /// It was a token, and is a collection. FIDL: `Allocator.BindSharedCollection`.
    Bound,
    /// Once its unit is allocated, its failure does not propagate to its parent.
    /// FIDL: `BufferCollectionToken.SetDispensable`.
    Dispensable,
    /// It keeps no buffer alive, nor do children made from now on. FIDL: `Node.SetWeak`.
    Weak,
    /// It knows how to treat weak handles; with `true` also children made from now on.
    /// FIDL: `Node.SetWeakOk`.
    WeakOk(bool),
    /// It asks this of the buffers. FIDL: `BufferCollection.SetConstraints`.
    Constrained(Constraints),
    /// It took its handles. FIDL: `BufferCollection.WaitForAllBuffersAllocated`.
    Taken,
    /// It is released. FIDL: `Node.Release`.
    Released,
    /// One more tracker was made on it. FIDL: `Node.AttachNodeTracking`.
    Tracked,
}
