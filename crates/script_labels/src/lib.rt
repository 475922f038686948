//! What the labels of a script stand for, what its lines ask for by them, the texts of replies, and the record of a
//! service as a transcript.
#![tactic(auto)]

mod act;
mod record_calls;
mod record_labels;
mod recorder;
mod stop;
mod tables;
mod texts;

pub use act::{Act, Binds};
pub use recorder::push_record;
pub use stop::LineStop;
pub use tables::Tables;
pub use texts::{
    push_buffer, push_cause, push_firing, push_held, push_node, push_poll, push_reply,
};
