//! The facts of an event, on nodes, buffers and handles: its marks, the way of a failure, the children that fail
//! with each node, who keeps which pages, which pages were given back, and which trackers fired. None
//! of them is text.
#![tactic(auto)]

mod before;
mod event;
pub mod failure_path;
pub mod keepers;
mod key_maps;
mod marked_steps;
pub mod pages;
pub mod takings;
pub mod waits;

pub use before::Before;
pub use event::{Event, fired_since, placed_by, take_event};
pub use key_maps::{KeyMap, KeyRows, keys_of};
pub use marked_steps::{Told, step_with_marks};
