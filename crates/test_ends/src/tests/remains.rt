//! What is left when the service ends.
ghost use Rattle.std.specs.Prelude.{◌≡◌};

use super::asking::{made, stands};
use super::retrying::fill_again;
use client_ends::{Client, CollectionEnd, Kept, Why, end, join};
use service_lock::{Service, Setup};
use sm_names::{Refusal, Reply};
use std::alloc::Global;
use std::process::Abort;
use std::sync::Wait;
use std::sync::ledger::Ledger;

// The collection can't be given to a client who never joined, and comes back: an event.
fn kept<E: Setup, S: Ledger, W: Ledger, R: Wait + Abort>(
    rt: &R,
    service: &Service<E, S, W>,
    client: &mut Client<E, S, W>,
    root: CollectionEnd<E>,
) -> CollectionEnd<E>
    requires { root.client ≡ client.old.id }
    ensures id { client.new.id ≡ client.old.id }
    ensures root { result.client ≡ client.new.id }
{
    match root.give(rt, service, client, 99) {
        Err(
            Kept {
                value,
                why: Why::Reply(Reply::Refused(Refusal::NoSuchClient)),
            },
        ) => value,
        _ => panic!(rt; "given"),
    }
}

/// A client who keeps its collection and two handles to the end.
pub fn remains<E: Setup, S: Ledger, W: Ledger, R: Wait + Abort>(
    rt: &R,
    alloc: Global,
    service: Service<E, S, W>,
) {
    let mut client = made(rt, join(rt, alloc, &service));
    let root = made(rt, client.open_root(rt, &service));
    let root = made(rt, root.bind(rt, &service, &mut client));
    let root = kept(rt, &service, &mut client, root);
    let mut handles = fill_again(rt, alloc, &service, &mut client, &root, 2);
    assert!(rt; stands(rt, &service, &client, 6, 2, 0));
    let ended = end(service);
    while let Some(handle) = handles.pop() {
        handle.spend(&ended);
    }
    handles.destroy_empty();
    root.spend(&ended);
    client.spend(&ended);
}
