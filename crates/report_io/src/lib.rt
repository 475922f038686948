//! The faults of reports on scripts, how a script is read, and how a report is written.
#![tactic(auto)]

mod actor_reasons;
mod ending;
mod fault;
mod indents;
pub mod laws;
mod reading;
mod reasons;
mod taking;
mod view;
mod wanted;
mod words;
mod writing;

pub use actor_reasons::bad_actor_line;
pub use ending::{end_report, end_with};
pub use fault::{ReportFault, Sought, bad_line, fault_of, unended};
pub use indents::{behind_indent, is_indented, push_indented};
pub use reading::{behind, read_script};
pub use taking::{Intake, TakesLines, Told, take_lines, take_script};
pub use view::{Format, Until, View};
pub use writing::{flush, put_out};
