//! What clients ask, what they are answered, and what they give to each other.
use crate::demands::Constraints;
use crate::keys::{BufferName, ClientId, CollectionId, Kind, NodeKey, Strength, TrackerId};
use crate::outcomes::{Cause, Misuse, Refusal};

/// What a client asks.
#[derive(Clone, Copy, PartialEq, Eq)]
pub enum Call {
    /// Makes a client. It is made as client 0.
    Join,
    /// Shuts the caller: nobody can give it anything more, and it can make no more nodes and trackers.
    Shut,
    /// Makes a collection and its root token
    /// (`fuchsia.sysmem2.Allocator.AllocateSharedCollection`).
    OpenRoot,
    /// Makes a child token of a token (`fuchsia.sysmem2.BufferCollectionToken.Duplicate`).
    Duplicate(NodeKey),
    /// Makes an attached child token of a collection
    /// (`fuchsia.sysmem2.BufferCollection.AttachToken`).
    AttachToken(NodeKey),
    /// Asks only whether the node is gone (`fuchsia.sysmem2.Node.Sync`).
    Sync(NodeKey),
    /// Puts the end into a parcel for a client.
    Give(NodeKey, ClientId),
    /// Takes the first parcel that waits for the caller.
    Collect,
    /// Turns a token into a collection (`fuchsia.sysmem2.Allocator.BindSharedCollection`).
    Bind(NodeKey),
    /// Once the node's unit is allocated, the node's failure does not propagate to its parent
    /// (`fuchsia.sysmem2.BufferCollectionToken.SetDispensable`).
    SetDispensable(NodeKey),
    /// Makes the node weak, and each child that it gets from now on: they keep no buffer alive
    /// (`fuchsia.sysmem2.Node.SetWeak`).
    SetWeak(NodeKey),
    /// Lets the node take weak handles; with `true` also each child that it gets from now on, and all
    /// nodes below these children (`fuchsia.sysmem2.Node.SetWeakOk`).
    SetWeakOk(NodeKey, bool),
    /// Says what the node asks of the buffers (`fuchsia.sysmem2.BufferCollection.SetConstraints`).
    SetConstraints(NodeKey, Constraints),
    /// Asks whether the node's unit is allocated
    /// (`fuchsia.sysmem2.BufferCollection.CheckAllBuffersAllocated`).
    Check(NodeKey),
    /// Opens a handle on each buffer that is not doomed
    /// (`fuchsia.sysmem2.BufferCollection.WaitForAllBuffersAllocated`, without the wait).
    Take(NodeKey),
    /// Releases the node, which does not fail, and spends the end (`fuchsia.sysmem2.Node.Release`).
    Release(NodeKey),
    /// Spends the end: a node that is not gone fails.
    Close(NodeKey),
    /// Opens one more handle like one that the caller has.
    DupHandle(BufferName, Strength),
    /// Drops a handle.
    DropHandle(BufferName, Strength),
    /// Puts a handle into a parcel for a client.
    GiveHandle(BufferName, Strength, ClientId),
    /// Makes a tracker that fires once the node is gone
    /// (`fuchsia.sysmem2.Node.AttachNodeTracking`).
    TrackNode(NodeKey),
    /// Makes a tracker that fires once the node's unit is allocated and at most this many buffers of
    /// its collection are not home, or once the node is gone and its unit was never allocated
    /// (`fuchsia.sysmem2.BufferCollection.AttachLifetimeTracking`).
    TrackLifetime(NodeKey, u32),
    /// Makes a tracker that fires once the buffer is doomed (the field `close_weak_asap` of
    /// `fuchsia.sysmem2.VmoBuffer`).
    TrackWeak(BufferName),
}

/// What a call is answered.
#[derive(Clone, Copy, PartialEq, Eq)]
pub enum Reply {
    /// The call took effect.
    Done,
    /// The new client.
    Joined(ClientId),
    /// The client is shut, and this many parcels wait for it.
    Shut(u64),
    /// A new token.
    Token {
        key: NodeKey,
        collection: CollectionId,
    },
    /// An end came out of a parcel.
    Collected {
        key: NodeKey,
        kind: Kind,
        collection: CollectionId,
    },
    /// A handle came out of a parcel.
    CollectedHandle {
        buffer: BufferName,
        strength: Strength,
    },
    /// No parcel waits.
    Empty,
    /// The node's unit is not allocated yet.
    Pending,
    /// The collection has this many buffers of this many bytes each.
    Allocated {
        count: u32,
        size: u32,
    },
    /// One handle on each buffer of the set, in which bit i stands for buffer i.
    Taken {
        collection: CollectionId,
        strength: Strength,
        set: u64,
    },
    /// A new tracker.
    Tracker(TrackerId),
    /// The call was refused.
    Refused(Refusal),
    /// The call was a misuse, and failed its node.
    Misused(Misuse),
    /// The node has failed: why, and the origin, the node whose loss reached it.
    PeerClosed {
        cause: Cause,
        origin: NodeKey,
    },
}

/// A parcel: an end or a handle, which a client gave to a client.
#[derive(Clone, Copy, PartialEq, Eq)]
pub enum Parcel {
    End(NodeKey),
    Handle(BufferName, Strength),
}
