//! Scripts of actors, explored: from first byte to report.
#![tactic(auto)]

mod explore;
mod job;
pub mod laws;
mod program;
mod telling;

pub use explore::explore_script;
pub use job::{DoubtLine, Ending, SearchHost, SearchJob};
pub use program::explore_to_exit;
