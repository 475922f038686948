//! What the definitions of sm_names imply: laws of whole histories. The functions do nothing, their
//! contracts are laws. A proof above may cite the lemmas in `proofs/`.
#![tactic(auto)]

pub mod collections;
pub mod forced;
pub mod handles;
pub mod histories;
pub mod lives;
pub mod marks;
pub mod pages;
