//! A record that is full.
use super::asking::{ask, empty, stands};
use service_lock::{Service, Setup, State, Units, apply, is_full};
use sm_names::{Call, Reply, StepFault};
use std::process::Abort;
use std::sync::Wait;
use std::sync::ledger::Ledger;

// As many clients join as there may be events.
fn fill<E: Setup, S: Ledger, W: Ledger, R: Abort>(
    rt: &R,
    state: &mut State<E, S, W>,
    units: &mut Units<E, S, W>,
) {
    for made in 1..3u64 {
        assert!(rt; !is_full(state));
        assert!(rt; ask(rt, state, units, 0, Call::Join) == Reply::Joined(made));
    }
}

// Whether one event more is none, as the record is full.
fn stops<E: Setup, S: Ledger, W: Ledger>(
    state: &mut State<E, S, W>,
    units: &mut Units<E, S, W>,
) -> bool {
    is_full(state)
        && matches!(
            apply(state, units, 0, Call::Join),
            Err(StepFault::HistoryFull)
        )
}

/// After as many events as may be there is none more, and all stays as it was.
pub fn last_event<E: Setup, S: Ledger, W: Ledger, R: Wait + Abort>(
    rt: &R,
    service: &Service<E, S, W>,
) {
    let mut guard = service.lock(rt);
    let state = guard.state_mut();
    let mut units = empty(rt, state);
    fill(rt, state, &mut units);
    assert!(rt; stops(state, &mut units));
    assert!(rt; stands(state, 2, 0, 0));
}
