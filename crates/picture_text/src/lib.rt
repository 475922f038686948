//! Pictures of a script's trees as lines of UTF-8 text.
#![tactic(auto)]

mod outline;
mod picture;
mod rows;

pub use picture::push_text;
