//! Whether a core is another one under other names. The names are swaps one after another, so that no two names become
//! one whatever the swaps are. What no view of a core tells is read from the entries of its history.
#![tactic(auto)]

mod clients;
mod collections;
mod cores;
mod handles;
pub mod laws;
mod matching;
mod names;
mod nodes;
mod readings;
mod sameness;
mod tracking;

pub use cores::cores_are_alike;
pub use names::Names;
pub use sameness::{is_new_failure, is_new_fault, is_new_key, is_strength};
