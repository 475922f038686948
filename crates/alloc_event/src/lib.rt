//! One change to a collection, and all that it forces: the nodes with their ends, the collections
//! with what they were given, and the forced steps, one after another, until none applies.
#![tactic(auto)]

mod forced_steps;
pub mod forest;
pub mod laws;
mod settle;

pub use forest::Forest;
pub use forest_steps::demand;
pub use forest_store::{
    Change, Effect, End, Node, Snapshot, Summary, births, change, effects, node, snapshot, summary,
};
