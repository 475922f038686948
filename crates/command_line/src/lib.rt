//! The command line of the program `sysmem`: its commands with their options and help, and what its
//! words ask for.
#![tactic(auto)]

mod commands;
mod help;
mod request;
mod task;

pub use commands::command;
pub use request::{CommandLine, request_of};
pub use task::{ScriptTask, Search, task_of};
