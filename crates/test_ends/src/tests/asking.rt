//! Calls that must be made, and values that must be there.
ghost use Rattle.std.specs.Prelude.{◌≡◌, ◌++◌, ◌∷◌, [], Ok};

use super::lock::stands as state_stands;
use client_ends::Client;
use service_lock::{Service, Setup};
use sm_names::Constraints;
use std::process::Abort;
use std::sync::Wait;
use std::sync::ledger::Ledger;

/// What the call made.
pub fn made<V, F, R: Abort>(rt: &R, asked: Result<V, F>) -> V
    ensures { asked ≡ Ok result }
{
    match asked {
        Ok(value) => value,
        Err(_) => panic!(rt; "not made"),
    }
}

/// A value more, asked for once more where memory is refused.
pub fn put<V, R: Abort>(rt: &R, values: &mut Vec<V>, value: V)
    ensures { values.new.items ≡ values.old.items ++ value ∷ [] }
{
    match values.push(value) {
        Ok(()) => {}
        Err(refused) => match values.push(refused.value) {
            Ok(()) => {}
            Err(_) => panic!(rt; "no room"),
        },
    }
}

/// The last of these values.
pub fn last_of<V, R: Abort>(rt: &R, values: &mut Vec<V>) -> V {
    match values.pop() {
        Some(value) => value,
        None => panic!(rt; "nothing is left"),
    }
}

/// All of these values were taken out.
pub fn none_left<V, R: Abort>(rt: &R, values: Vec<V>) {
    assert!(rt; values.is_empty());
    values.destroy_empty();
}

/// The only one of these values.
pub fn only<V, R: Abort>(rt: &R, values: Vec<V>) -> V {
    let mut values = values;
    let value = last_of(rt, &mut values);
    none_left(rt, values);
    value
}

/// What a node asks of the buffers.
pub fn constraints<R: Abort>(rt: &R, camping: u8, at_least: u8, size: u32) -> Constraints {
    match Constraints::new(camping, at_least, size) {
        Some(constraints) => constraints,
        None => panic!(rt; "constraints"),
    }
}

/// The record, the books and the client's own list have this many events, and the books this many open
/// handles.
pub fn stands<E: Setup, S: Ledger, W: Ledger, R: Wait>(
    rt: &R,
    service: &Service<E, S, W>,
    client: &Client<E, S, W>,
    events: u64,
    strong: u64,
    weak: u64,
) -> bool {
    let own = client.own();
    let newest = match own.last() {
        Some(own) => own.event,
        None => 1,
    };
    own.len() as u64 + 1 == events
        && newest == events
        && state_stands(service.lock(rt).state(), events, strong, weak)
}
