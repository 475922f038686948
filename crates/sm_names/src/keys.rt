//! What clients, collections, trackers, nodes and buffers are called.

/// The number of the event that made the client. Client 0 is nobody.
pub type ClientId = u64;

/// The number of the event that made the collection.
pub type CollectionId = u64;

/// The number of the event that made the tracker.
pub type TrackerId = u64;

/// A node of a collection's tree. A key is given to one node only, ever: a slot that is used
/// again has another generation.
#[derive(Clone, Copy, PartialEq, Eq, PartialOrd, Ord, Hash)]
pub struct NodeKey {
    pub slot: u32,
    pub generation: u32,
}

/// A buffer: its collection, and its index in it, from 0 to 63.
#[derive(Clone, Copy, PartialEq, Eq, Hash)]
pub struct BufferName {
    pub collection: CollectionId,
    pub index: u8,
}

/// Whether a node or a handle keeps buffers alive (`fuchsia.sysmem2.Node.SetWeak`).
#[derive(Clone, Copy, PartialEq, Eq, Hash)]
pub enum Strength {
    Strong,
    Weak,
}

/// What an end is: a token until it is bound, then a collection.
#[derive(Clone, Copy, PartialEq, Eq)]
pub enum Kind {
    Token,
    Collection,
}

/// This many pages of the pool, of 4,096 bytes each, from page `start` on.
#[derive(Clone, Copy, PartialEq, Eq)]
pub struct Interval {
    pub start: u32,
    pub pages: u32,
}

/// A buffer, and the pages of the pool that it was given.
#[derive(Clone, Copy, PartialEq, Eq)]
pub struct HeldBuffer {
    pub buffer: BufferName,
    pub pages: Interval,
}
