//! A record that is full.
use super::asking::Silent;
use super::together::scripts;
use client_actors::run_actors;
use client_vanish::{Holding, end_service};
use service_lock::{Service, Setup};
use sm_names::StepFault;
use std::alloc::Global;
use std::process::Abort;
use std::sync::Wait;
use std::sync::ledger::Ledger;
use std::thread::Threads;
use std::time::Clock;

// Whether the first client is there, and no other.
fn is_first_alone<E: Setup, S: Ledger, W: Ledger>(parts: &[Holding<E, S, W>]) -> bool {
    match parts {
        [Holding::Present(client, _)] => client.id() == 1,
        _ => false,
    }
}

/// Where one event may be made one client joins, and comes back with nothing.
pub fn one_event<
    E: Setup + Send + Sync,
    S: Ledger + Send + Sync,
    W: Ledger + Send + Sync,
    R: Threads + Wait + Clock + Abort + Sync,
>(rt: &R, alloc: Global, service: Service<E, S, W>) {
    let scripts = scripts(rt, alloc);
    match run_actors(rt, alloc, &service, &Silent, &scripts, 0) {
        Err((back, StepFault::HistoryFull)) => {
            assert!(rt; is_first_alone(back.as_slice()));
            end_service(service, back);
        }
        _ => panic!(rt; "one client more"),
    }
}
