//! The store of a forest: the nodes with their ends, the collections with what they were given, the counts
//! of units, and the small changes of these that every forced step is made of.
#![tactic(auto)]

pub mod births;
pub mod boxed_entry;
pub mod change;
pub mod effects;
pub mod entry;
pub mod insertion;
pub mod key_list;
pub mod lookup;
pub mod loss_marks;
pub mod node;
pub mod removed_nodes;
pub mod reserved;
pub mod snapshot;
pub mod store;
pub mod summary;
pub mod unit_counts;
pub mod unkept;

pub use change::{Change, Effect};
pub use node::{End, Node};
pub use snapshot::Snapshot;
pub use summary::Summary;
