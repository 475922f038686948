//! Scripts of actors, run in threads.
#![tactic(auto)]

mod actor_parts;
mod company;
mod fault;
mod job;
pub mod laws;
mod program;
mod report;
mod report_text;
mod run;

pub use fault::ThreadsFault;
pub use job::{Job, MOST_REPEATS, Output, RunHost};
pub use program::run_threads_to_exit;
pub use report_text::push_report;
pub use run::run_threads;
