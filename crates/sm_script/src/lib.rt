//! Scripts: for each line with a call, a poll or a view, one line is answered.
#![tactic(auto)]

mod fault;
mod player;
mod program;
mod run;
mod session;
mod views;

pub use fault::ScriptFault;
pub use program::run_to_exit;
pub use run::{report_run, run_script};
pub use script_lines::MOST_BYTES;
pub use session::Session;
