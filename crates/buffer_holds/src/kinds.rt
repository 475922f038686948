//! What counts are of.

use sm_names::{BufferName, ClientId, Strength};

/// What a handle is on, and how strong it is.
#[derive(Clone, Copy, PartialEq, Eq, Hash)]
pub struct HandleKind {
    pub buffer: BufferName,
    pub strength: Strength,
}

/// A client's handles of one kind.
#[derive(Clone, Copy, PartialEq, Eq, Hash)]
pub struct Hold {
    pub client: ClientId,
    pub kind: HandleKind,
}
