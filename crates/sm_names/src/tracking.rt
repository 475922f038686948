//! What a tracker waits for, and how it fires.
use crate::keys::{BufferName, CollectionId, NodeKey, TrackerId};

/// What a tracker waits for. The definition `holds` says when the condition holds.
#[derive(Clone, Copy, PartialEq, Eq)]
pub enum Condition {
    /// The node is gone (`fuchsia.sysmem2.Node.AttachNodeTracking`).
    Node(NodeKey),
    /// The node's unit was allocated and at most this many buffers of its collection are not home,
    /// or the node is gone and its unit was never allocated
    /// (`fuchsia.sysmem2.BufferCollection.AttachLifetimeTracking`).
    Lifetime(NodeKey, CollectionId, u32),
    /// The buffer is doomed (the field `close_weak_asap` of `fuchsia.sysmem2.VmoBuffer`).
    Weak(BufferName),
}

/// A tracker that fired, and the number of the event at which it did.
#[derive(Clone, Copy, PartialEq, Eq)]
pub struct Fired {
    pub tracker: TrackerId,
    pub event: u64,
}
