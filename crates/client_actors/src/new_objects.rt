//! What a call brought.
use client_ends::{Handle, ParcelContent};
use service_lock::Setup;
use std::sync::ledger::Ledger;
use trackers::Tracker;

/// What a call brought its caller. It must be spent.
pub(crate) enum NewObjects<E: Setup, S: Ledger, W: Ledger> {
    Nothing,
    One(ParcelContent<E, S, W>),
    Handles(Vec<Handle<E, S, W>>),
    Tracker(Tracker),
}
