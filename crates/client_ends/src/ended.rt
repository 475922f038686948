//! The end of the service.
use service_lock::{Service, Setup};
use std::marker::PhantomData;
use std::sync::ledger::Ledger;

/// A value that exists only after the end of a service. With it the values of the service's clients can be
/// spent without events.
#[derive(Drop)]
pub struct EndedService<E: Setup, S: Ledger, W: Ledger> {
    ledgers: PhantomData<(E, S, W)>,
}

/// Ends the service, and drops its record and its core. Takes no lock and no memory.
pub fn end<E: Setup, S: Ledger, W: Ledger>(service: Service<E, S, W>) -> EndedService<E, S, W> {
    service.end();
    EndedService {
        ledgers: PhantomData,
    }
}
