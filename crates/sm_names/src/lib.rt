//! The names, numbers, calls and replies of the service, as plain data that takes no memory, and
//! in `specs/` the definitions of the abstract machine that the service is.
#![tactic(auto)]

pub mod bounds;
pub mod call_parts;
pub mod call_rows;
pub mod demands;
pub mod keys;
pub mod laws;
pub mod messages;
pub mod outcomes;
pub mod rules;
pub mod sets;
pub mod tracking;

pub use bounds::Limits;
pub use call_parts::{
    Answer, Argument, ArgumentForm, CallParts, CallRow, Object, Product, Spends, Target,
};
pub use call_rows::{
    CallKind, KINDS, call_of, kind_at, kind_named, object_buffer, object_key, parts_of, row_of,
    word_of,
};
pub use demands::Constraints;
pub use keys::{
    BufferName, ClientId, CollectionId, HeldBuffer, Interval, Kind, NodeKey, Strength, TrackerId,
};
pub use messages::{Call, Parcel, Reply};
pub use outcomes::{Buffers, Cause, Failure, Fault, Misuse, NoMemory, Refusal, StepFault};
pub use rules::{
    LASTING_EVENTS, MAX_AT_LEAST, MAX_BUFFERS, MAX_CAMPING, MAX_COLLECTIONS, MAX_EVENTS,
    MAX_HANDLES, MAX_NODE_TRACKERS, MAX_NODES, MAX_PAGES, MAX_SIZE, MAX_TRACKERS, PAGE_SIZE,
};
pub use sets::has_buffer;
pub use tracking::{Condition, Fired};
