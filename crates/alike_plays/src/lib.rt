//! Actors that are alike but for names: they know the same nodes, trackers and objects under other
//! names.
#![tactic(auto)]

pub mod laws;
