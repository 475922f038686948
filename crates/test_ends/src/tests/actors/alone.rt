//! One client that runs a script.
use super::asking::{ask, collect, open};
use crate::tests::asking::{made, put};
use actor_scripts::ActorScript;
use client_actors::{ActorEnd, Gate, Playing, run_actor};
use client_ends::join;
use client_vanish::{Holding, Wreck, end_service};
use service_lock::{Service, Setup};
use sm_names::{Argument, Call, CallKind, ClientId, Reply};
use std::alloc::Global;
use std::process::Abort;
use std::sync::Wait;
use std::sync::atomic::{AtomicU64, Ordering};
use std::sync::ledger::Ledger;
use std::time::Clock;

// A gate that notes what it hears, as digits: before a step its number, and after it the number and whether it
// made a call.
struct Heard {
    digits: AtomicU64,
}

impl Heard {
    fn note(&self, digit: u64) {
        let before = self.digits.load(Ordering::SeqCst);
        let now = before.wrapping_mul(10).wrapping_add(digit);
        self.digits.store(now, Ordering::SeqCst);
    }
}

impl Gate for Heard {
    fn before(&self, _client: ClientId, step: u64) {
        self.note(step);
    }

    fn after(&self, _client: ClientId, step: u64, reply: &Option<Reply>) {
        self.note(step);
        self.note(u64::from(reply.is_some()));
    }
}

// It is told of the steps that are left out too.
const ALL_HEARD: u64 = 110_221_330_441_550;

// A token that is bound, between steps that are left out.
fn script<R: Abort>(rt: &R, alloc: Global) -> ActorScript {
    let mut steps = Vec::new(alloc);
    put(rt, &mut steps, ask(CallKind::Sync, Argument::Nothing, 1));
    put(rt, &mut steps, open(1));
    put(rt, &mut steps, open(1));
    for _ in 0..2 {
        put(rt, &mut steps, ask(CallKind::Bind, Argument::Nothing, 1));
    }
    ActorScript { steps }
}

// Whether the client opened a root, bound its token, and gave up the collection.
fn is_played<E: Setup, S: Ledger, W: Ledger>(wreck: &Wreck<E, S, W>) -> bool {
    match wreck.own() {
        [open, bind, shut, close] => {
            matches!(open.call, Call::OpenRoot)
                && matches!(bind.call, Call::Bind(_))
                && matches!(shut.call, Call::Shut)
                && matches!(close.call, Call::Close(_))
        }
        _ => false,
    }
}

/// Plays the script, and ends the service.
pub fn alone<E: Setup, S: Ledger, W: Ledger, R: Wait + Clock + Abort>(
    rt: &R,
    alloc: Global,
    service: Service<E, S, W>,
) {
    let client = made(rt, join(rt, alloc, &service));
    let ids = [client.id()];
    let script = script(rt, alloc);
    let gate = Heard {
        digits: AtomicU64::new(0),
    };
    let playing = Playing {
        alloc,
        service: &service,
        gate: &gate,
        clients: &ids,
        most: 0,
    };
    let wreck = match run_actor(rt, &playing, client, &script) {
        ActorEnd::Wrecked(wreck) => wreck,
        _ => panic!(rt; "not played"),
    };
    let Heard { digits } = gate;
    assert!(rt; is_played(&wreck) && digits.load(Ordering::SeqCst) == ALL_HEARD);
    let mut parts = Vec::new(alloc);
    put(rt, &mut parts, Holding::Wrecked(wreck));
    end_service(service, parts);
}

// How many times more a patient actor makes a step here.
const REPEATS: u64 = 2;

// It is told of each try of the one step.
const TRIES_HEARD: u64 = 111_111_111;

// Whether the client asked three times for a parcel, and vanished.
fn is_tried<E: Setup, S: Ledger, W: Ledger>(wreck: &Wreck<E, S, W>) -> bool {
    match wreck.own() {
        [first, second, third, shut] => {
            matches!(first.reply, Reply::Empty)
                && matches!(second.reply, Reply::Empty)
                && matches!(third.reply, Reply::Empty)
                && matches!(shut.call, Call::Shut)
        }
        _ => false,
    }
}

/// A patient actor waits for a parcel that never comes. Ends the service.
pub fn patient<E: Setup, S: Ledger, W: Ledger, R: Wait + Clock + Abort>(
    rt: &R,
    alloc: Global,
    service: Service<E, S, W>,
) {
    let client = made(rt, join(rt, alloc, &service));
    let ids = [client.id()];
    let mut steps = Vec::new(alloc);
    put(rt, &mut steps, collect(1));
    let script = ActorScript { steps };
    let gate = Heard {
        digits: AtomicU64::new(0),
    };
    let playing = Playing {
        alloc,
        service: &service,
        gate: &gate,
        clients: &ids,
        most: REPEATS,
    };
    let ended = run_actor(rt, &playing, client, &script);
    let wreck = match ended {
        ActorEnd::Wrecked(wreck) => wreck,
        _ => panic!(rt; "not played"),
    };
    let Heard { digits } = gate;
    assert!(rt; is_tried(&wreck) && digits.load(Ordering::SeqCst) == TRIES_HEARD);
    let mut parts = Vec::new(alloc);
    put(rt, &mut parts, Holding::Wrecked(wreck));
    end_service(service, parts);
}
