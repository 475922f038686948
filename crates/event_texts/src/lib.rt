//! A session that also writes the facts of each event, in lines of text.
#![tactic(auto)]

mod allocations;
mod deeds;
mod event_writer;
mod keepers;
mod labels;
pub mod laws;
mod losses;
mod outcomes;
mod summary;
pub mod words;

pub use event_writer::EventWriter;
pub use keepers::push_keepers;
pub use labels::Labels;
