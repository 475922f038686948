//! The trees of a script behind a line or an event, drawn: as text, in the language of Graphviz, or as a vector
//! graphic.
#![tactic(auto)]

mod draw;
mod program;

pub use draw::{DrawJob, draw_script};
pub use program::draw_to_exit;
pub use report_io::{Format, ReportFault, Until, View};
