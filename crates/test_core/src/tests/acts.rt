//! Calls and replies as rows of plain data.
//!
//! Calls are numbered from 1, as the events are that they make. So a client, a collection and a
//! tracker have the number of the call that made them, and here a node is named by that number too.
use sm_names::{
    BufferName, Call, Cause, ClientId, CollectionId, Constraints, Kind, NodeKey, Reply, Strength,
};

/// What is asked of a node's end.
#[derive(Clone, Copy)]
pub enum Deed {
    Duplicate,
    Attach,
    Sync,
    Give(ClientId),
    Bind,
    Dispensable,
    Weak,
    WeakOk(bool),
    // How many buffers it camps on, how many there are to be, and the bytes of each.
    Constrain(u8, u8, u32),
    Check,
    Take,
    Release,
    Close,
    TrackNode,
    TrackLifetime(u32),
}

/// A call. A buffer is named by its collection and its index.
#[derive(Clone, Copy)]
pub enum Act {
    Join,
    Shut,
    Open,
    Collect,
    On(u64, Deed),
    DupHandle(CollectionId, u8, Strength),
    DropHandle(CollectionId, u8, Strength),
    GiveHandle(CollectionId, u8, Strength, ClientId),
    TrackWeak(CollectionId, u8),
}

/// A reply: one that names no node, a new token of a collection, an end out of a parcel, or why and
/// where the node failed.
#[derive(Clone, Copy)]
pub enum Said {
    Just(Reply),
    Token(CollectionId),
    End(u64, Kind, CollectionId),
    Closed(Cause, u64),
}

/// Who calls, what, and what is answered.
pub type Row = (ClientId, Act, Said);

/// The call by which this is asked of the node.
pub fn call_on(deed: Deed, key: NodeKey) -> Option<Call> {
    let call = match deed {
        Deed::Duplicate => Call::Duplicate(key),
        Deed::Attach => Call::AttachToken(key),
        Deed::Sync => Call::Sync(key),
        Deed::Give(to) => Call::Give(key, to),
        Deed::Bind => Call::Bind(key),
        Deed::Dispensable => Call::SetDispensable(key),
        Deed::Weak => Call::SetWeak(key),
        Deed::WeakOk(children) => Call::SetWeakOk(key, children),
        Deed::Constrain(camping, at_least, size) => {
            let wanted = Constraints::new(camping, at_least, size)?;
            Call::SetConstraints(key, wanted)
        }
        Deed::Check => Call::Check(key),
        Deed::Take => Call::Take(key),
        Deed::Release => Call::Release(key),
        Deed::Close => Call::Close(key),
        Deed::TrackNode => Call::TrackNode(key),
        Deed::TrackLifetime(left) => Call::TrackLifetime(key, left),
    };
    Some(call)
}

impl Act {
    /// The call, where the node that it names has this key.
    pub fn call(self, key: NodeKey) -> Option<Call> {
        let call = match self {
            Act::Join => Call::Join,
            Act::Shut => Call::Shut,
            Act::Open => Call::OpenRoot,
            Act::Collect => Call::Collect,
            Act::On(_, deed) => return call_on(deed, key),
            Act::DupHandle(collection, index, strength) => {
                Call::DupHandle(BufferName { collection, index }, strength)
            }
            Act::DropHandle(collection, index, strength) => {
                Call::DropHandle(BufferName { collection, index }, strength)
            }
            Act::GiveHandle(collection, index, strength, to) => {
                Call::GiveHandle(BufferName { collection, index }, strength, to)
            }
            Act::TrackWeak(collection, index) => Call::TrackWeak(BufferName { collection, index }),
        };
        Some(call)
    }

    /// The number of the node that the call names, or 0.
    pub fn node(self) -> u64 {
        match self {
            Act::On(number, _) => number,
            _ => 0,
        }
    }
}
