//! The pool and the limits of a service, as members of a type.
ghost use Rattle.std.specs.Prelude.{ℕ};
ghost use Rattle.sm_names.specs.Bounds.{Bound};

use std::marker::Brand;
use std::sync::ledger::Ledger;

/// The ledger of a service's events, with the pool and the limits that the service was asked for. The
/// types of its state, guards and clients carry this ledger, so that their contracts can name both.
pub trait Setup: Ledger {
    /// How many pages the pool has.
    ghost pages: { ℕ };

    /// The limits.
    ghost limits: { Bound };
}

impl Setup for Brand {
    ghost pages = { 1 };

    ghost limits = { record {
      events = 1;
      nodes = 1;
      collections = 1;
      trackers = 1;
      handles = 1;
    } };
}
