//! What the contracts leave open: that scripts of actors run, and what is told of those that don't.
mod crowds;
mod cuts;
mod exits;
mod faults;
pub mod fixture;
mod memory;
mod reports;
