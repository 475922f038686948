//! Tests of sm_names, of the crates that alloc_event and lifetime_core stand on, and of actor_scripts and event_laws,
//! all by their public calls: see docs/TESTING.md. A crate of their own, so that each of those is proved once. Other tests of
//! the same crates are text, which `test_part_rows` plays.
#![tactic(auto)]

#[cfg(test)]
mod tests;
