//! Each line of a script with its reply and the facts of its event, and transcripts of that compared.
#![tactic(auto)]

mod check;
mod explain;
pub mod laws;
mod program;
mod seen;
mod summary;

pub use check::{CheckResult, check_script};
pub use explain::{ExplainJob, Scope, explain_script};
pub use program::{check_to_exit, explain_to_exit};
pub use report_io::ReportFault;
