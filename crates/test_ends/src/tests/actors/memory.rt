//! Actors where memory is refused.
use super::asking::Silent;
use super::together::scripts;
use crate::tests::asking::put;
use crate::tests::vanishing::gather_again;
use actor_scripts::ActorScript;
use client_actors::{ActorEnd, run_actors};
use client_ends::Held;
use client_vanish::{Holding, end_service};
use service_lock::{Service, Setup};
use sm_names::StepFault;
use std::alloc::Global;
use std::process::Abort;
use std::sync::Wait;
use std::sync::ledger::Ledger;
use std::thread::Threads;
use std::time::Clock;

// What is left of an actor, which played, or was refused memory or a thread.
fn part_of<E: Setup, S: Ledger, W: Ledger, R: Abort>(
    rt: &R,
    alloc: Global,
    end: ActorEnd<E, S, W>,
) -> Holding<E, S, W> {
    match end {
        ActorEnd::Wrecked(wreck) => Holding::Wrecked(wreck),
        ActorEnd::Stopped(client, held, StepFault::NoMemory) => Holding::Present(client, held),
        ActorEnd::NotStarted(client) => Holding::Present(client, Held::new(alloc)),
        _ => panic!(rt; "another fault"),
    }
}

// What is left of all who joined.
fn left<
    E: Setup + Send + Sync,
    S: Ledger + Send + Sync,
    W: Ledger + Send + Sync,
    R: Threads + Wait + Clock + Abort + Sync,
>(
    rt: &R,
    alloc: Global,
    service: &Service<E, S, W>,
    scripts: &[ActorScript],
) -> Vec<Holding<E, S, W>> {
    match run_actors(rt, alloc, service, &Silent, scripts, 0) {
        Ok(mut ends) => {
            let mut parts = Vec::new(alloc);
            while let Some(end) = ends.pop() {
                put(rt, &mut parts, part_of(rt, alloc, end));
            }
            ends.destroy_empty();
            parts
        }
        Err((parts, StepFault::NoMemory)) => parts,
        Err(_) => panic!(rt; "another fault"),
    }
}

/// Whoever is refused memory, all that is open is with those who come back.
pub fn memory<
    E: Setup + Send + Sync,
    S: Ledger + Send + Sync,
    W: Ledger + Send + Sync,
    R: Threads + Wait + Clock + Abort + Sync,
>(rt: &R, alloc: Global, service: Service<E, S, W>) {
    let scripts = scripts(rt, alloc);
    let parts = left(rt, alloc, &service, &scripts);
    let (parts, _) = gather_again(rt, alloc, &service, parts);
    end_service(service, parts);
}
