//! What is kept of a node and of its end.
ghost use Rattle.forest_store.specs.Ties.{is_blocking};

use failure_domains::Link;
use sm_names::{ClientId, CollectionId, Constraints, Fault, NodeKey};

/// Where the end of a node is.
#[derive(Clone, Copy, PartialEq, Eq)]
pub enum End {
    /// This client holds it.
    Held(ClientId),
    /// It lies in a parcel, and this client held it last.
    InTransit(ClientId),
    /// It was spent.
    Spent,
}

/// A node, and its end.
#[derive(Clone, Copy, PartialEq, Eq)]
pub struct Node {
    /// Its key.
    pub key: NodeKey,
    /// The node under which it was born, unless it is a root. It may be forgotten by now, but not
    /// while this node is not gone.
    pub parent: Option<NodeKey>,
    /// It heads a unit of its own, below another one.
    pub attached: bool,
    /// The collection to which it belongs.
    pub collection: CollectionId,
    /// The number of the event of its birth.
    pub event: u64,
    /// The head of its unit: itself if it is a root or attached, else its parent's head.
    pub head: NodeKey,
    /// Its unit has its buffers.
    pub allocated: bool,
    /// It failed, or a subtree that contains it ended.
    pub gone: bool,
    /// What failed it, if it failed.
    pub fault: Option<Fault>,
    /// It was released.
    pub released: bool,
    /// Once its unit is allocated, its failure does not propagate to its parent.
    pub dispensable: bool,
    /// It keeps no buffer alive.
    pub weak: bool,
    /// It may take weak handles.
    pub weak_ok: bool,
    /// The children that are born under it now may take weak handles, and so may all below them.
    pub covers: bool,
    /// What it asks of the buffers, once it has said so.
    pub constraints: Option<Constraints>,
    /// A Take on it was answered Taken.
    pub took: bool,
    /// How many trackers of the node were made.
    pub trackers: u32,
    /// Its token was bound.
    pub bound: bool,
    /// Where its end is.
    pub end: End,
}

impl Link for Node {
    ghost blocks = { is_blocking };

    /// Whether the node is attached, or dispensable in a unit that has its buffers.
    fn blocks(&self) -> bool {
        self.attached || self.dispensable && self.allocated
    }
}
