//! A client that vanishes, and what is gathered, if memory is refused.
ghost use Rattle.std.specs.Prelude.{◌≡◌};
ghost use Rattle.client_vanish.specs.Vanishings.{AllHeldBy, held_in};

use super::{both, gather_again};
use crate::tests::asking::{last_of, made, put};
use crate::tests::retrying::{filled_again, give_again, join_again, open_again, send_again};
use client_ends::{Client, Handle, Held, Own, TokenEnd};
use client_vanish::{Holding, Report, Wreck, end_service, vanish};
use service_lock::{Service, Setup};
use sm_names::{Call, ClientId, StepFault};
use std::alloc::Global;
use std::process::Abort;
use std::sync::Wait;
use std::sync::ledger::Ledger;

// The client gives a collection and one of its two handles to the other, and keeps these handles.
fn share<E: Setup, S: Ledger, W: Ledger, R: Wait + Abort>(
    rt: &R,
    alloc: Global,
    service: &Service<E, S, W>,
    client: &mut Client<E, S, W>,
    to: ClientId,
) -> Vec<Handle<E, S, W>> {
    let (root, mut handles) = filled_again(rt, alloc, service, client, 2);
    give_again(rt, service, client, root, to);
    send_again(rt, service, client, last_of(rt, &mut handles), to);
    handles
}

// This token alone.
fn token_alone<E: Setup, S: Ledger, W: Ledger, R: Abort>(
    rt: &R,
    alloc: Global,
    token: TokenEnd<E>,
) -> Held<E, S, W>
    ensures { AllHeldBy token.client (held_in result) }
{
    let mut held = Held::new(alloc);
    put(rt, &mut held.tokens, token);
    held
}

// Whether the call gives up a value.
fn parts_with_one(call: &Call) -> bool {
    matches!(call, Call::Close(_) | Call::DropHandle(_, _))
}

// How many parcels were collected by these calls, and how many values were given up.
fn collected_and_parted(own: &[Own]) -> (usize, usize) {
    let collected = own
        .iter()
        .filter(|o| matches!(o.call, Call::Collect))
        .count();
    let parted = own.iter().filter(|o| parts_with_one(&o.call)).count();
    (collected, parted)
}

// What came back is a token and what was collected, less what was given up.
fn is_back<E: Setup, S: Ledger, W: Ledger>(client: &Client<E, S, W>, held: &Held<E, S, W>) -> bool {
    let (collected, parted) = collected_and_parted(client.own());
    let ends = held.tokens.len() as u128 + held.collections.len() as u128;
    ends + held.handles.len() as u128 + parted as u128 == 1 + collected as u128
}

// Whether the call at this place is a Shut.
fn is_shut_at(own: &[Own], place: usize) -> bool {
    match own.get(place) {
        Some(own) => matches!(own.call, Call::Shut),
        None => false,
    }
}

// The client vanishes. If memory is refused, it comes back with what it still has, and vanishes at the second try,
// which begins with a Shut.
fn gone_again<E: Setup, S: Ledger, W: Ledger, R: Wait + Abort>(
    rt: &R,
    alloc: Global,
    service: &Service<E, S, W>,
    client: Client<E, S, W>,
    held: Held<E, S, W>,
) -> Wreck<E, S, W>
    requires { AllHeldBy client.id (held_in held) }
{
    match vanish(rt, alloc, service, client, held) {
        Ok(wreck) => wreck,
        Err((client, held, StepFault::NoMemory)) => {
            assert!(rt; is_back(&client, &held));
            let before = client.own().len();
            let wreck = made(rt, vanish(rt, alloc, service, client, held));
            assert!(rt; is_shut_at(wreck.own(), before));
            wreck
        }
        Err(_) => panic!(rt; "a full record"),
    }
}

// Both clients are there, and the one handle that is open.
fn is_all(report: &Report) -> bool {
    (report.strong, report.weak) == (1, 0) && report.lines.len() == 2
}

/// A client that vanishes with a token, while a collection and a handle wait for it, and all that is
/// gathered then.
pub fn two_again<E: Setup, S: Ledger, W: Ledger, R: Wait + Abort>(
    rt: &R,
    alloc: Global,
    service: Service<E, S, W>,
) {
    let mut first = join_again(rt, alloc, &service);
    let mut second = join_again(rt, alloc, &service);
    let handles = share(rt, alloc, &service, &mut first, second.id());
    let held = Held {
        tokens: Vec::new(alloc),
        collections: Vec::new(alloc),
        handles,
    };
    let token = open_again(rt, &service, &mut second);
    let wreck = gone_again(rt, alloc, &service, second, token_alone(rt, alloc, token));
    assert!(rt; collected_and_parted(wreck.own()) == (2, 3));
    let parts = both(
        rt,
        alloc,
        Holding::Present(first, held),
        Holding::Wrecked(wreck),
    );
    let (parts, report) = gather_again(rt, alloc, &service, parts);
    assert!(rt; is_all(&report));
    end_service(service, parts);
}
