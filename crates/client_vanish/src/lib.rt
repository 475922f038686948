//! How clients vanish with all that they hold, and how all clients are compared at the end with the
//! record under the lock.
#![tactic(auto)]

mod fault;
mod gathering;
mod stack;
mod vanishing;
mod wreck;

pub use event_laws::ClientLine;
pub use fault::GatherFault;
pub use gathering::{Holding, Report, compare, end_service, gather};
pub use vanishing::vanish;
pub use wreck::Wreck;
