//! The forced steps on the store of a forest, one file for each, and what decides that one is forced.
#![tactic(auto)]

mod at_rest;
pub mod demand;
pub mod dropped;
pub mod event_end;
mod home_buffers;
pub mod initial_allocation;
mod logical_allocation;
pub mod node_effect;
mod page_ranges;
pub mod pending_units;
pub mod placement;
pub mod propagation;
mod ready_units;
mod removal;
pub mod returns;
pub mod scratch;
mod subtree_end;
pub mod unforced;
mod unit_allocation;
