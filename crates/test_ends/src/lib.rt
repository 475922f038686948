//! Tests of service_lock, client_ends, client_vanish and client_actors, all by their public calls: see docs/TESTING.md. A
//! crate of their own, so that each of those is proved once.
#![tactic(auto)]

#[cfg(test)]
mod tests;
