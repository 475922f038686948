//! What is proved of the nodes' fates in plays.
#![tactic(auto)]

pub mod laws;
