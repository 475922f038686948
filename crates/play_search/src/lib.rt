//! The search through all plays of a script of actors: every outcome that it meets, each with a play.
#![tactic(auto)]

mod births;
mod changes;
mod closing;
mod core_value;
mod effort;
mod endings;
mod ends;
mod exploring;
mod falls;
mod fault;
mod graph;
mod idle;
mod likeness;
mod next;
mod numbers;
mod order;
mod outcome;
mod progress;
mod replay;
mod shares;
mod turns;
mod unmade;
mod value;
mod vanishing;
mod witness;

pub use effort::Effort;
pub use exploring::explore;
pub use fault::ExploreFault;
pub use progress::{PROGRESS_STEP, Progress, Silent};
pub use replay::{Setting, plans_of};
