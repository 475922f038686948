//! Worked runs: short histories, each proved to be legal by computing every reply, with what is
//! seen after them, and with wrong replies that are proved not to be legal. The functions do
//! nothing: their contracts are the facts. The histories stand in `specs/`.
#![tactic(auto)]

pub mod allocation;
pub mod answers;
pub mod attached;
pub mod failures;
pub mod parcels;
pub mod releases;
pub mod tracking;
pub mod weak;
