//! The abstract machine as a core for one thread: every call of every client on one state.
#![tactic(auto)]

mod by_kind;
mod event;
pub mod machine;
mod opening;
mod refusals;
mod replies;
mod sweeping;
mod task;
mod tracker_world;

pub use core_state::laws;
pub use machine::Core;
