//! What an actor holds, and what its steps ask for.
use sm_names::{BufferName, Call, CollectionId, NodeKey, Strength};

/// One object that an actor holds.
#[derive(Clone, Copy, PartialEq, Eq)]
pub enum ActorObject {
    /// A token: the node that it is the end of, and the collection that the node is in.
    Token {
        key: NodeKey,
        collection: CollectionId,
    },
    /// A collection: the node that it is the end of, and the collection that the node is in.
    Collection {
        key: NodeKey,
        collection: CollectionId,
    },
    /// An open handle on a buffer.
    Handle {
        buffer: BufferName,
        strength: Strength,
    },
}

/// The call that a step makes, and what it is made on.
#[derive(Clone, Copy)]
pub struct StepCall {
    /// The call, with the key or the buffer of what it is made on.
    pub call: Call,
    /// The slot of that object, from 0 in the order in which objects came: none for Shut, OpenRoot and Collect.
    pub slot: Option<usize>,
}
