//! How many handles on each buffer each client has open, how many lie in parcels, and what that
//! keeps alive.
#![tactic(auto)]

mod fault;
mod hashing;
mod holds;
mod kinds;
mod last;
mod names;
mod page;
mod places;
mod rows;
mod sets;
mod spares;
mod sums;

pub use fault::HoldFault;
pub use hashing::CountHash;
pub use holds::Holds;
pub use kinds::{HandleKind, Hold};
pub use names::{Owner, Part};
