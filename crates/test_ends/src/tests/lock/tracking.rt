//! A tracker that outlives the guard.
use super::asking::{ask, ask_done, empty, token};
use service_lock::{Service, Setup, State, Units, take_tracker};
use sm_names::{Call, Fired, NodeKey, Reply};
use std::process::Abort;
use std::sync::Wait;
use std::sync::ledger::Ledger;
use trackers::Tracker;

// A root of a first client, and a tracker of it: three events.
fn track<E: Setup, S: Ledger, W: Ledger, R: Abort>(
    rt: &R,
    state: &mut State<E, S, W>,
    units: &mut Units<E, S, W>,
) -> (NodeKey, Tracker) {
    assert!(rt; ask(rt, state, units, 0, Call::Join) == Reply::Joined(1));
    let root = token(rt, state, units, 1, Call::OpenRoot);
    assert!(rt; ask(rt, state, units, 1, Call::TrackNode(root)) == Reply::Tracker(3));
    assert!(rt; take_tracker(state, 2).is_none());
    match take_tracker(state, 3) {
        Some(tracker) => (root, tracker),
        None => panic!(rt; "no tracker"),
    }
}

// Its node is closed, once the reader was taken: an event.
fn close<E: Setup, S: Ledger, W: Ledger, R: Abort>(
    rt: &R,
    state: &mut State<E, S, W>,
    units: &mut Units<E, S, W>,
    root: NodeKey,
) {
    assert!(rt; take_tracker(state, 3).is_none());
    ask_done(rt, state, units, 1, Call::Close(root));
}

const FIRED: Fired = Fired {
    tracker: 3,
    event: 4,
};

/// A tracker is there once, quiet before its node is gone, and fired after.
pub fn tracker<E: Setup, S: Ledger, W: Ledger, R: Wait + Abort>(
    rt: &R,
    service: &Service<E, S, W>,
) {
    let mut units = empty(rt, service.lock(rt).state_mut());
    let (root, mut tracker) = track(rt, service.lock(rt).state_mut(), &mut units);
    assert!(rt; tracker.poll().is_none());
    close(rt, service.lock(rt).state_mut(), &mut units, root);
    assert!(rt; tracker.poll() == Some(FIRED));
}
