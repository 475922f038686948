//! The numbers of the rules. Code, specifications and proofs cite them, and write none of them out.

/// The greatest number of events that `Limits::new` allows.
pub const MAX_EVENTS: u32 = u32::MAX;

/// How many events lasting limits allow: 2^53 - 1, which at a million events a second is 285 years.
pub const LASTING_EVENTS: u64 = (1 << 53) - 1;

/// The greatest number of nodes that limits may allow: ends of
/// `fuchsia.sysmem2.BufferCollectionToken` and `fuchsia.sysmem2.BufferCollection` that a service
/// keeps at a time.
pub const MAX_NODES: u32 = 1024;

/// The greatest number of collections that limits may allow: trees that
/// `fuchsia.sysmem2.Allocator.AllocateSharedCollection` began and that a service keeps at a time.
pub const MAX_COLLECTIONS: u32 = 256;

/// The greatest number of trackers that limits may allow to wait at a time.
pub const MAX_TRACKERS: u32 = 4096;

/// The greatest number of open handles of one buffer and strength that limits may allow.
pub const MAX_HANDLES: u32 = u32::MAX;

/// How many buffers a collection has at most (`fuchsia.sysmem2.BufferCollectionInfo.buffers`). An
/// initial allocation that wants more fails.
pub const MAX_BUFFERS: u32 = 64;

/// How many buffers a participant camps on at most
/// (`fuchsia.sysmem2.BufferCollectionConstraints.min_buffer_count_for_camping`).
pub const MAX_CAMPING: u8 = 64;

/// How many buffers in all a participant asks for at most
/// (`fuchsia.sysmem2.BufferCollectionConstraints.min_buffer_count`).
pub const MAX_AT_LEAST: u8 = 64;

/// How many bytes a participant asks for at most in each buffer
/// (`fuchsia.sysmem2.BufferMemoryConstraints.min_size_bytes`).
pub const MAX_SIZE: u32 = 1 << 30;

/// How many bytes a page has. A buffer takes whole pages.
pub const PAGE_SIZE: u32 = 4096;

/// How many pages a pool has at most.
pub const MAX_PAGES: u32 = 1 << 20;

/// How many node trackers a node has at most. One more `fuchsia.sysmem2.Node.AttachNodeTracking`
/// fails the node.
pub const MAX_NODE_TRACKERS: u32 = 64;
