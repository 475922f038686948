//! What one event does to handles, parcels, ends, clients and trackers: laws of the definitions of
//! sm_names, for a program that keeps counts, queues and waiting trackers instead of a history.
#![tactic(auto)]

pub mod amounts;
pub mod ends;
pub mod handles;
mod laws;
mod line;
mod own;
mod parts;
pub mod trackers;

pub use laws::{all_clients_have_lines, lines_tell_open_handles};
pub use line::ClientLine;
pub use own::Own;
pub use parts::Parts;
