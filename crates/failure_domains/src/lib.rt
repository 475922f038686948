//! What a failure takes: a climb over the links that do not block, and then all that lies below.
//! And the nodes below a node, up to a bound.
#![tactic(auto)]

mod found;
mod link;
mod walks;

pub use found::Fall;
pub use link::{Link, WalkBound};
pub use walks::{fall, fall_into, walk_within};
