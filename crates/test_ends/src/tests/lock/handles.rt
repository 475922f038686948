//! Handles that are taken, doubled, passed, given, collected and dropped.
ghost use Rattle.service_lock.specs.Units.{HasOne};

use super::asking::{ask, ask_done, empty, stands, token};
use service_lock::{Service, Setup, State, Units, entries, pass};
use sm_names::{BufferName, Call, Constraints, NodeKey, Refusal, Reply, Strength};
use std::process::Abort;
use std::sync::Wait;
use std::sync::ledger::Ledger;

const FIRST: BufferName = BufferName {
    collection: 2,
    index: 0,
};

// The node asks for one buffer of a page.
fn ask_for_page<E: Setup, S: Ledger, W: Ledger, R: Abort>(
    rt: &R,
    state: &mut State<E, S, W>,
    units: &mut Units<E, S, W>,
    node: NodeKey,
) {
    match Constraints::new(1, 1, 4096) {
        Some(constraints) => ask_done(rt, state, units, 1, Call::SetConstraints(node, constraints)),
        None => panic!(rt; "constraints"),
    }
}

// A client with a bound root and a bound weak child: 7 events.
fn nodes<E: Setup, S: Ledger, W: Ledger, R: Abort>(
    rt: &R,
    state: &mut State<E, S, W>,
    units: &mut Units<E, S, W>,
) -> (NodeKey, NodeKey) {
    assert!(rt; ask(rt, state, units, 0, Call::Join) == Reply::Joined(1));
    let root = token(rt, state, units, 1, Call::OpenRoot);
    ask_done(rt, state, units, 1, Call::SetWeakOk(root, true));
    let child = token(rt, state, units, 1, Call::Duplicate(root));
    ask_done(rt, state, units, 1, Call::SetWeak(child));
    ask_done(rt, state, units, 1, Call::Bind(root));
    ask_done(rt, state, units, 1, Call::Bind(child));
    (root, child)
}

// The node takes two handles of this strength.
fn take<E: Setup, S: Ledger, W: Ledger, R: Abort>(
    rt: &R,
    state: &mut State<E, S, W>,
    units: &mut Units<E, S, W>,
    node: NodeKey,
    strength: Strength,
) {
    let taken = Reply::Taken {
        collection: 2,
        strength,
        set: 3,
    };
    assert!(rt; ask(rt, state, units, 1, Call::Take(node)) == taken);
}

// A client with a strong and a weak handle of each of two buffers, after 11 events.
fn open<E: Setup, S: Ledger, W: Ledger, R: Abort>(
    rt: &R,
    state: &mut State<E, S, W>,
    units: &mut Units<E, S, W>,
) {
    let (root, child) = nodes(rt, state, units);
    ask_for_page(rt, state, units, root);
    ask_for_page(rt, state, units, child);
    take(rt, state, units, root, Strength::Strong);
    take(rt, state, units, child, Strength::Weak);
}

// The handle of this strength, whose unit these have, goes over to other units, which drop it.
fn drop_elsewhere<E: Setup, S: Ledger, W: Ledger, R: Abort>(
    rt: &R,
    state: &mut State<E, S, W>,
    units: &mut Units<E, S, W>,
    strength: Strength,
)
    requires { HasOne strength units.old }
{
    let mut others = empty(rt, state);
    match strength {
        Strength::Strong => {
            pass(state, units, &mut others, Strength::Strong);
            ask_done(
                rt,
                state,
                &mut others,
                1,
                Call::DropHandle(FIRST, Strength::Strong),
            );
        }
        Strength::Weak => {
            pass(state, units, &mut others, Strength::Weak);
            ask_done(
                rt,
                state,
                &mut others,
                1,
                Call::DropHandle(FIRST, Strength::Weak),
            );
        }
    }
}

// One more handle, which goes into a parcel: two events.
fn send<E: Setup, S: Ledger, W: Ledger, R: Abort>(
    rt: &R,
    state: &mut State<E, S, W>,
    units: &mut Units<E, S, W>,
    strength: Strength,
) {
    ask_done(rt, state, units, 1, Call::DupHandle(FIRST, strength));
    ask_done(rt, state, units, 1, Call::GiveHandle(FIRST, strength, 1));
}

// It comes out of the parcel, and is dropped by others: two events.
fn fetch<E: Setup, S: Ledger, W: Ledger, R: Abort>(
    rt: &R,
    state: &mut State<E, S, W>,
    units: &mut Units<E, S, W>,
) {
    match ask(rt, state, units, 1, Call::Collect) {
        Reply::CollectedHandle {
            buffer: _,
            strength: Strength::Strong,
        } => drop_elsewhere(rt, state, units, Strength::Strong),
        Reply::CollectedHandle {
            buffer: _,
            strength: Strength::Weak,
        } => drop_elsewhere(rt, state, units, Strength::Weak),
        _ => panic!(rt; "not collected"),
    }
}

// How many events the record has, and how many handles of each strength the books have.
#[derive(Clone, Copy)]
struct Counts {
    events: u64,
    strong: u64,
    weak: u64,
}

// One more handle goes into a parcel, comes out of it and is dropped: 4 events. Whether the record and the books
// had so many events and handles while it was in the parcel.
fn moved<E: Setup, S: Ledger, W: Ledger, R: Abort>(
    rt: &R,
    state: &mut State<E, S, W>,
    units: &mut Units<E, S, W>,
    strength: Strength,
    counts: Counts,
) -> bool {
    send(rt, state, units, strength);
    let stood = stands(state, counts.events, counts.strong, counts.weak);
    fetch(rt, state, units);
    stood
}

const STRANGER: Reply = Reply::Refused(Refusal::NoSuchClient);

// Whether the call of a stranger is refused, and is the last entry.
fn refuses<E: Setup, S: Ledger, W: Ledger, R: Abort>(
    rt: &R,
    state: &mut State<E, S, W>,
    units: &mut Units<E, S, W>,
) -> bool {
    ask(rt, state, units, 7, Call::OpenRoot) == STRANGER
        && entries(state).last() == Some(&(7, Call::OpenRoot, STRANGER))
}

/// The record and the books while handles move, and after a call that is refused.
pub fn handles<E: Setup, S: Ledger, W: Ledger, R: Wait + Abort>(
    rt: &R,
    service: &Service<E, S, W>,
) {
    let mut guard = service.lock(rt);
    let state = guard.state_mut();
    assert!(rt; stands(state, 0, 0, 0));
    let mut units = empty(rt, state);
    open(rt, state, &mut units);
    assert!(rt; stands(state, 11, 2, 2));
    let counts = Counts {
        events: 13,
        strong: 3,
        weak: 2,
    };
    assert!(rt; moved(rt, state, &mut units, Strength::Strong, counts));
    assert!(rt; stands(state, 15, 2, 2));
    let counts = Counts {
        events: 17,
        strong: 2,
        weak: 3,
    };
    assert!(rt; moved(rt, state, &mut units, Strength::Weak, counts));
    assert!(rt; stands(state, 19, 2, 2));
    assert!(rt; refuses(rt, state, &mut units));
    assert!(rt; stands(state, 20, 2, 2));
}
