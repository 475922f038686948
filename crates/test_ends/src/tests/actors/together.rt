//! Two actors side by side.
use super::asking::{ask, open};
use crate::tests::asking::{made, put};
use actor_scripts::ActorScript;
use client_actors::{ActorEnd, Gate, run_actors};
use client_vanish::{Holding, Report, end_service, gather};
use service_lock::{Service, Setup};
use sm_names::{Argument, CallKind, Constraints};
use std::alloc::Global;
use std::process::Abort;
use std::sync::Wait;
use std::sync::ledger::Ledger;
use std::thread::Threads;
use std::time::Clock;

// One buffer of a collection of its own.
fn script<R: Abort>(rt: &R, alloc: Global, label: u32) -> ActorScript {
    let Some(constraints) = Constraints::new(1, 0, 4096) else {
        panic!(rt; "constraints");
    };
    let mut steps = Vec::new(alloc);
    put(rt, &mut steps, open(label));
    put(
        rt,
        &mut steps,
        ask(CallKind::Bind, Argument::Nothing, label),
    );
    put(
        rt,
        &mut steps,
        ask(
            CallKind::SetConstraints,
            Argument::Constraints(constraints),
            label,
        ),
    );
    put(
        rt,
        &mut steps,
        ask(CallKind::Take, Argument::Nothing, label),
    );
    ActorScript { steps }
}

/// The scripts of two actors, each of which takes a buffer of its own.
pub fn scripts<R: Abort>(rt: &R, alloc: Global) -> [ActorScript; 2] {
    [script(rt, alloc, 1), script(rt, alloc, 2)]
}

/// Runs them: what is left of both.
pub fn two<
    E: Setup + Send + Sync,
    S: Ledger + Send + Sync,
    W: Ledger + Send + Sync,
    G: Gate + Sync,
    R: Threads + Wait + Clock + Abort + Sync,
>(rt: &R, alloc: Global, service: &Service<E, S, W>, gate: &G) -> Vec<Holding<E, S, W>> {
    let scripts = scripts(rt, alloc);
    let mut ends = made(rt, run_actors(rt, alloc, service, gate, &scripts, 0));
    let mut parts = Vec::new(alloc);
    while let Some(end) = ends.pop() {
        match end {
            ActorEnd::Wrecked(wreck) => put(rt, &mut parts, Holding::Wrecked(wreck)),
            _ => panic!(rt; "not played"),
        }
    }
    ends.destroy_empty();
    parts
}

// Each client made 7 events after its Join, and no handle is open.
fn is_all(report: &Report) -> bool {
    match report.lines.as_slice() {
        [a, b] => {
            (report.events, report.strong, report.weak) == (16, 0, 0)
                && (a.client, a.events, b.client, b.events) == (1, 7, 2, 7)
        }
        _ => false,
    }
}

/// All is gathered, and the service ends.
pub fn gather_and_end<E: Setup, S: Ledger, W: Ledger, R: Wait + Abort>(
    rt: &R,
    alloc: Global,
    service: Service<E, S, W>,
    parts: Vec<Holding<E, S, W>>,
) {
    let (parts, answer) = gather(rt, alloc, &service, parts);
    assert!(rt; is_all(&made(rt, answer)));
    end_service(service, parts);
}
