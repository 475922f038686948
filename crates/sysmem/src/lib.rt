//! The core for programs in C, C++ and Rust. `include/sysmem.h` declares these functions, and has the
//! rules for their callers.
//!
//! No function has a `requires`: any number may stand in a call, and a handle may be open or not. A
//! function that returns another code than `DONE` has written nothing. `sysmem_vanish` is the exception:
//! it then still writes how many events it made.
#![tactic(auto)]

mod arrays;
mod codes;
mod encode;
mod handle;
mod holders;
mod names;
mod nodes;
mod opening;
mod place;
mod raw;
mod stepping;
mod vanishing;
mod views;
mod words;

pub use handle::CoreHandle;
pub use holders::{HolderWords, sysmem_holders};
pub use names::{sysmem_name, sysmem_version};
pub use nodes::{
    NodeWords, sysmem_given, sysmem_handles_in_parcels, sysmem_held_of, sysmem_node_of,
    sysmem_nodes, sysmem_open_handles,
};
pub use opening::{sysmem_close, sysmem_open, sysmem_open_lasting, sysmem_open_seeded};
pub use stepping::sysmem_step;
pub use vanishing::sysmem_vanish;
pub use views::{
    FiredWords, HeldWords, KeyWords, sysmem_cause, sysmem_events, sysmem_fired, sysmem_fired_from,
    sysmem_forget_fired, sysmem_free_pages, sysmem_held, sysmem_is_live, sysmem_live,
    sysmem_remaining,
};
pub use words::{CallWords, ReplyWords};
