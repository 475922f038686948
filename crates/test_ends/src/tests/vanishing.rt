//! How clients vanish, and how their parts are gathered.
ghost use Rattle.std.specs.Prelude.{◌≡◌};

use super::asking::{made, none_left, put};
use client_ends::{Client, Held};
use client_vanish::{GatherFault, Holding, Report, Wreck, compare, gather, vanish};
use service_lock::{Service, Setup};
use sm_names::{Call, Reply};
use std::alloc::Global;
use std::process::Abort;
use std::sync::Wait;
use std::sync::ledger::Ledger;

pub mod handed;
pub mod memory;
pub mod missing;
pub mod vanished;

/// The client that is the last part, and holds nothing.
pub fn last_client<E: Setup, S: Ledger, W: Ledger, R: Abort>(
    rt: &R,
    parts: &mut Vec<Holding<E, S, W>>,
) -> Client<E, S, W> {
    match parts.pop() {
        Some(Holding::Present(client, held)) => {
            let Held {
                tokens,
                collections,
                handles,
            } = held;
            none_left(rt, tokens);
            none_left(rt, collections);
            none_left(rt, handles);
            client
        }
        _ => panic!(rt; "no client"),
    }
}

/// A client that holds nothing is gone.
pub fn gone<E: Setup, S: Ledger, W: Ledger, R: Wait + Abort>(
    rt: &R,
    alloc: Global,
    service: &Service<E, S, W>,
    client: Client<E, S, W>,
) -> Wreck<E, S, W> {
    made(rt, vanish(rt, alloc, service, client, Held::new(alloc)))
}

/// Its client made three events: a Shut that counted one parcel, a Collect, and this call, answered
/// Done.
pub fn parted_by<E: Setup, S: Ledger, W: Ledger>(wreck: &Wreck<E, S, W>, call: Call) -> bool {
    match wreck.own() {
        [shut, collect, last] => {
            wreck.events() == 3
                && (shut.call, shut.reply) == (Call::Shut, Reply::Shut(1))
                && collect.call == Call::Collect
                && (last.call, last.reply) == (call, Reply::Done)
        }
        _ => false,
    }
}

/// These two parts.
pub fn both<E: Setup, S: Ledger, W: Ledger, R: Abort>(
    rt: &R,
    alloc: Global,
    first: Holding<E, S, W>,
    second: Holding<E, S, W>,
) -> Vec<Holding<E, S, W>> {
    let mut parts = Vec::new(alloc);
    put(rt, &mut parts, first);
    put(rt, &mut parts, second);
    parts
}

/// Whether this was answered.
pub fn is_missed(answer: &Result<Report, GatherFault>, fault: GatherFault) -> bool {
    match answer {
        Ok(_) => false,
        Err(told) => *told == fault,
    }
}

// Whether both answers are one.
fn same(one: &Result<Report, GatherFault>, other: &Result<Report, GatherFault>) -> bool {
    match (one, other) {
        (Ok(one), Ok(other)) => {
            (one.events, one.strong, one.weak) == (other.events, other.strong, other.weak)
                && one.lines.as_slice() == other.lines.as_slice()
        }
        (Err(one), Err(other)) => *one == *other,
        _ => false,
    }
}

/// What `gather` answers, which is what `compare` answers of the same record under the lock.
pub fn gathered<E: Setup, S: Ledger, W: Ledger, R: Wait + Abort>(
    rt: &R,
    alloc: Global,
    service: &Service<E, S, W>,
    parts: Vec<Holding<E, S, W>>,
) -> (Vec<Holding<E, S, W>>, Result<Report, GatherFault>)
    ensures { result.0 ≡ parts }
{
    let guard = service.lock(rt);
    let compared = compare(alloc, guard.state(), parts.as_slice());
    drop(guard);
    let (parts, answer) = gather(rt, alloc, service, parts);
    assert!(rt; same(&compared, &answer));
    (parts, answer)
}

/// All is gathered. Where memory is refused, all parts come back, and all is gathered from them.
pub fn gather_again<E: Setup, S: Ledger, W: Ledger, R: Wait + Abort>(
    rt: &R,
    alloc: Global,
    service: &Service<E, S, W>,
    parts: Vec<Holding<E, S, W>>,
) -> (Vec<Holding<E, S, W>>, Report) {
    let all = parts.len();
    let (parts, answer) = match gather(rt, alloc, service, parts) {
        (parts, Err(GatherFault::NoMemory)) => gather(rt, alloc, service, parts),
        (parts, answer) => (parts, answer),
    };
    assert!(rt; parts.len() == all);
    (parts, made(rt, answer))
}
