//! Steps that are tried again while nothing is there for them.
ghost use Rattle.std.specs.Prelude.{◌≡◌, false};
ghost use Rattle.std.specs.Option.{option_map_or};
ghost use Rattle.client_actors.specs.PatientRuns.{finds_nothing};

use actor_scripts::{ActorState, Step};
use service_lock::{Service, Setup, core};
use sm_names::{Fired, Reply, TrackerId};
use std::sync::Wait;
use std::sync::ledger::Ledger;
use std::thread;
use std::time::{Clock, Duration};

// How many tries have no pause behind them.
const HASTY_TRIES: u64 = 100;

// How many milliseconds a pause takes.
const PAUSE: u64 = 1;

// Whether a step with this reply found nothing: no parcel waited, or the allocation was not decided.
pub(crate) fn is_nothing(reply: &Option<Reply>) -> bool
    ensures { result ≡ option_map_or finds_nothing reply.now false }
{
    match reply {
        Some(Reply::Empty) | Some(Reply::Pending) => true,
        _ => false,
    }
}

// Waits a little after this many tries, but not after the first ones.
pub(crate) fn pause<R: Clock>(rt: &R, tries: u64) {
    if tries >= HASTY_TRIES {
        thread::sleep(rt, Duration::from_millis(PAUSE));
    }
}

// Looks at the tracker that the step names, if it names one, until it has fired, at most so many times more.
pub(crate) fn await_firing<E: Setup, S: Ledger, W: Ledger, R: Wait + Clock>(
    rt: &R,
    service: &Service<E, S, W>,
    state: &ActorState,
    step: Step,
    most: u64,
) {
    if let Step::Poll { tracker: label } = step {
        if let Some(tracker) = state.tracker(label) {
            watch(rt, service, tracker, most);
        }
    }
}

// Looks at the tracker until it has fired, at most so often.
fn watch<E: Setup, S: Ledger, W: Ledger, R: Wait + Clock>(
    rt: &R,
    service: &Service<E, S, W>,
    tracker: TrackerId,
    most: u64,
) {
    for tries in 0..most {
        if has_fired(rt, service, tracker) {
            return;
        }
        pause(rt, tries);
    }
}

// Whether the tracker has fired.
fn has_fired<E: Setup, S: Ledger, W: Ledger, R: Wait>(
    rt: &R,
    service: &Service<E, S, W>,
    tracker: TrackerId,
) -> bool {
    let guard = service.lock(rt);
    is_among(core(guard.state()).fired(), tracker)
}

// Whether a firing of the tracker is one of these.
fn is_among(fired: &[Fired], tracker: TrackerId) -> bool {
    fired.iter().any(|one| one.tracker == tracker)
}
