//! Calls that must be taken.
ghost use Rattle.sm_names.specs.declared.messages.Reply.{Reply as Told};
ghost use Rattle.service_lock.specs.Units.{CountsEvent, HasUnitFor};

use crate::tests::asking::made;
use service_lock::{Setup, State, Units, apply, books, core, entries, units};
use sm_names::{Call, ClientId, NodeKey, Reply};
use std::process::Abort;
use std::sync::ledger::Ledger;

/// Makes one event.
pub fn ask<E: Setup, S: Ledger, W: Ledger, R: Abort>(
    rt: &R,
    state: &mut State<E, S, W>,
    units: &mut Units<E, S, W>,
    client: ClientId,
    call: Call,
) -> Reply
    requires { HasUnitFor call units.old }
    ensures { CountsEvent units.old units.new call result }
{
    made(rt, apply(state, units, client, call))
}

/// Makes one event that is answered Done.
pub fn ask_done<E: Setup, S: Ledger, W: Ledger, R: Abort>(
    rt: &R,
    state: &mut State<E, S, W>,
    units: &mut Units<E, S, W>,
    client: ClientId,
    call: Call,
)
    requires { HasUnitFor call units.old }
    ensures { CountsEvent units.old units.new call Told.Done }
{
    match ask(rt, state, units, client, call) {
        Reply::Done => {}
        _ => panic!(rt; "not done"),
    }
}

/// Empty units.
pub fn empty<E: Setup, S: Ledger, W: Ledger, R: Abort>(
    rt: &R,
    state: &mut State<E, S, W>,
) -> Units<E, S, W> {
    made(rt, units(state))
}

/// The token that the call makes.
pub fn token<E: Setup, S: Ledger, W: Ledger, R: Abort>(
    rt: &R,
    state: &mut State<E, S, W>,
    units: &mut Units<E, S, W>,
    client: ClientId,
    call: Call,
) -> NodeKey
    requires { HasUnitFor call units.old }
{
    match ask(rt, state, units, client, call) {
        Reply::Token { key, .. } => key,
        _ => panic!(rt; "no token"),
    }
}

/// The record and the books have so much, and the core this many events.
pub fn stands<E: Setup, S: Ledger, W: Ledger>(
    state: &State<E, S, W>,
    events: u64,
    strong: u64,
    weak: u64,
) -> bool {
    let books = books(state);
    entries(state).len() as u64 == events
        && core(state).events() == events
        && (books.events, books.strong, books.weak) == (events, strong, weak)
}
