//! How a client vanishes whose caller keeps no list: the events that give up all that it has, made on a
//! core, and what they bring about.
#![tactic(auto)]

pub mod laws;
mod vanishing;

pub use vanishing::{VanishFault, Vanished, vanish};
