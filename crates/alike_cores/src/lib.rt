//! Names and numbers make no difference: two cores that are alike but for names answer alike, and stay alike.
//!
//! A new key is any key that is not used, and a collection, client or tracker has the number of its event. So two orders of the
//! same calls give other keys to the same nodes and other numbers to the same collections and trackers, and may open collections
//! and attach trackers in another order.
#![tactic(auto)]

pub mod laws;
pub mod names;
