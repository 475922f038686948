//! Tests of lifetime_core and core_vanish, all by their public calls: see docs/TESTING.md. A crate of
//! their own, so that the core is proved once.
#![tactic(auto)]

#[cfg(test)]
mod tests;
