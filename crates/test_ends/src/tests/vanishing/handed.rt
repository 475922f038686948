//! A handle that is given to a client that vanishes.
use super::{both, gathered, gone, is_missed, last_client, parted_by};
use crate::tests::asking::{made, only, put};
use crate::tests::retrying::{filled_again, send_again};
use client_ends::{Client, CollectionEnd, Held, join};
use client_vanish::{GatherFault, Holding, end_service};
use service_lock::{Service, Setup};
use sm_names::{BufferName, Call, ClientId, Strength};
use std::alloc::Global;
use std::process::Abort;
use std::sync::Wait;
use std::sync::ledger::Ledger;

// The client gives its only handle of a new collection to another: 5 events. It was a handle on this
// buffer.
fn hand_over<E: Setup, S: Ledger, W: Ledger, R: Wait + Abort>(
    rt: &R,
    alloc: Global,
    service: &Service<E, S, W>,
    client: &mut Client<E, S, W>,
    to: ClientId,
) -> (CollectionEnd<E>, BufferName) {
    let (root, handles) = filled_again(rt, alloc, service, client, 1);
    let handle = only(rt, handles);
    let buffer = handle.buffer();
    send_again(rt, service, client, handle, to);
    (root, buffer)
}

// The last part is a client that holds nothing: it vanishes, and has dropped the handle on the buffer.
fn last_gone<E: Setup, S: Ledger, W: Ledger, R: Wait + Abort>(
    rt: &R,
    alloc: Global,
    service: &Service<E, S, W>,
    parts: &mut Vec<Holding<E, S, W>>,
    buffer: BufferName,
) {
    let wreck = gone(rt, alloc, service, last_client(rt, parts));
    assert!(rt; parted_by(&wreck, Call::DropHandle(buffer, Strength::Strong)));
    put(rt, parts, Holding::Wrecked(wreck));
}

/// The handle is open until its receiver has vanished.
pub fn handed<E: Setup, S: Ledger, W: Ledger, R: Wait + Abort>(
    rt: &R,
    alloc: Global,
    service: Service<E, S, W>,
) {
    let mut first = made(rt, join(rt, alloc, &service));
    let second = made(rt, join(rt, alloc, &service));
    let (root, buffer) = hand_over(rt, alloc, &service, &mut first, second.id());
    let mut held = Held::new(alloc);
    put(rt, &mut held.collections, root);
    let second = Holding::Present(second, Held::new(alloc));
    let parts = both(rt, alloc, Holding::Present(first, held), second);
    let (mut parts, missed) = gathered(rt, alloc, &service, parts);
    assert!(rt; is_missed(&missed, GatherFault::OpenValues { strong: 1, weak: 0 }));
    last_gone(rt, alloc, &service, &mut parts, buffer);
    let (parts, answer) = gathered(rt, alloc, &service, parts);
    let report = made(rt, answer);
    assert!(rt; (report.events, report.strong, report.weak) == (10, 0, 0));
    end_service(service, parts);
}
