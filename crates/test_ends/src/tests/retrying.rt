//! Calls that are made once more where memory was refused.
ghost use Rattle.std.specs.Prelude.{◌≡◌};

use super::asking::{constraints, made};
use client_ends::{Client, CollectionEnd, EndOf, Handle, Kept, ParcelContent, TokenEnd, Why, join};
use service_lock::{Service, Setup};
use sm_names::{ClientId, Constraints, Reply, StepFault};
use std::alloc::Global;
use std::process::Abort;
use std::sync::Wait;
use std::sync::ledger::Ledger;

/// A client more.
pub fn join_again<E: Setup, S: Ledger, W: Ledger, R: Wait + Abort>(
    rt: &R,
    alloc: Global,
    service: &Service<E, S, W>,
) -> Client<E, S, W> {
    match join(rt, alloc, service) {
        Ok(client) => client,
        Err(StepFault::NoMemory) => made(rt, join(rt, alloc, service)),
        Err(_) => panic!(rt; "not joined"),
    }
}

/// A root.
pub fn open_again<E: Setup, S: Ledger, W: Ledger, R: Wait + Abort>(
    rt: &R,
    service: &Service<E, S, W>,
    client: &mut Client<E, S, W>,
) -> TokenEnd<E>
    ensures id { client.new.id ≡ client.old.id }
    ensures token { result.client ≡ client.new.id }
{
    match client.open_root(rt, service) {
        Ok(root) => root,
        Err(Why::Fault(StepFault::NoMemory)) => made(rt, client.open_root(rt, service)),
        Err(_) => panic!(rt; "no root"),
    }
}

/// A child.
pub fn duplicate_again<E: Setup, S: Ledger, W: Ledger, R: Wait + Abort>(
    rt: &R,
    service: &Service<E, S, W>,
    client: &mut Client<E, S, W>,
    token: &TokenEnd<E>,
) -> TokenEnd<E>
    requires { token.now.client ≡ client.old.id }
    ensures id { client.new.id ≡ client.old.id }
    ensures token { result.client ≡ client.new.id }
{
    match token.duplicate(rt, service, client) {
        Ok(child) => child,
        Err(Why::Fault(StepFault::NoMemory)) => made(rt, token.duplicate(rt, service, client)),
        Err(_) => panic!(rt; "no child"),
    }
}

/// The token is bound.
pub fn bind_again<E: Setup, S: Ledger, W: Ledger, R: Wait + Abort>(
    rt: &R,
    service: &Service<E, S, W>,
    client: &mut Client<E, S, W>,
    token: TokenEnd<E>,
) -> CollectionEnd<E>
    requires { token.client ≡ client.old.id }
    ensures id { client.new.id ≡ client.old.id }
    ensures collection { result.client ≡ client.new.id }
{
    match token.bind(rt, service, client) {
        Ok(collection) => collection,
        Err(
            Kept {
                value,
                why: Why::Fault(StepFault::NoMemory),
            },
        ) => made(rt, value.bind(rt, service, client)),
        Err(_) => panic!(rt; "not bound"),
    }
}

/// The end goes into a parcel for this client.
pub fn give_again<K, E: Setup, S: Ledger, W: Ledger, R: Wait + Abort>(
    rt: &R,
    service: &Service<E, S, W>,
    client: &mut Client<E, S, W>,
    end: EndOf<K, E>,
    to: ClientId,
)
    requires { end.client ≡ client.old.id }
    ensures { client.new.id ≡ client.old.id }
{
    match end.give(rt, service, client, to) {
        Ok(()) => {}
        Err(
            Kept {
                value,
                why: Why::Fault(StepFault::NoMemory),
            },
        ) => made(rt, value.give(rt, service, client, to)),
        Err(_) => panic!(rt; "not given"),
    }
}

/// The end is released.
pub fn release_again<K, E: Setup, S: Ledger, W: Ledger, R: Wait + Abort>(
    rt: &R,
    service: &Service<E, S, W>,
    client: &mut Client<E, S, W>,
    end: EndOf<K, E>,
)
    requires { end.client ≡ client.old.id }
    ensures { client.new.id ≡ client.old.id }
{
    let reply = match end.release(rt, service, client) {
        Ok(reply) => reply,
        Err(
            Kept {
                value,
                why: Why::Fault(StepFault::NoMemory),
            },
        ) => made(rt, value.release(rt, service, client)),
        Err(_) => panic!(rt; "not released"),
    };
    assert!(rt; reply == Reply::Done);
}

/// The end is closed.
pub fn close_again<K, E: Setup, S: Ledger, W: Ledger, R: Wait + Abort>(
    rt: &R,
    service: &Service<E, S, W>,
    client: &mut Client<E, S, W>,
    end: EndOf<K, E>,
)
    requires { end.client ≡ client.old.id }
    ensures { client.new.id ≡ client.old.id }
{
    match end.close(rt, service, client) {
        Ok(()) => {}
        Err(
            Kept {
                value,
                why: Why::Fault(StepFault::NoMemory),
            },
        ) => made(rt, value.close(rt, service, client)),
        Err(_) => panic!(rt; "not closed"),
    }
}

/// What was in the first parcel.
pub fn collect_again<E: Setup, S: Ledger, W: Ledger, R: Wait + Abort>(
    rt: &R,
    service: &Service<E, S, W>,
    client: &mut Client<E, S, W>,
) -> ParcelContent<E, S, W>
    ensures { client.new.id ≡ client.old.id }
{
    let found = match client.collect(rt, service) {
        Ok(found) => found,
        Err(Why::Fault(StepFault::NoMemory)) => made(rt, client.collect(rt, service)),
        Err(_) => panic!(rt; "not collected"),
    };
    match found {
        Some(end) => end,
        None => panic!(rt; "nothing waits"),
    }
}

/// The node says what it needs.
pub fn constrain_again<E: Setup, S: Ledger, W: Ledger, R: Wait + Abort>(
    rt: &R,
    service: &Service<E, S, W>,
    client: &mut Client<E, S, W>,
    collection: &CollectionEnd<E>,
    asked: Constraints,
)
    requires { collection.now.client ≡ client.old.id }
    ensures { client.new.id ≡ client.old.id }
{
    let reply = match collection.set_constraints(rt, service, client, asked) {
        Ok(reply) => reply,
        Err(StepFault::NoMemory) => {
            made(rt, collection.set_constraints(rt, service, client, asked))
        }
        Err(_) => panic!(rt; "not asked"),
    };
    assert!(rt; reply == Reply::Done);
}

/// The handles that a collection gives.
pub fn take_again<E: Setup, S: Ledger, W: Ledger, R: Wait + Abort>(
    rt: &R,
    alloc: Global,
    service: &Service<E, S, W>,
    client: &mut Client<E, S, W>,
    collection: &CollectionEnd<E>,
) -> Vec<Handle<E, S, W>>
    requires { collection.now.client ≡ client.old.id }
    ensures { client.new.id ≡ client.old.id }
{
    match collection.take(rt, alloc, service, client) {
        Ok(handles) => handles,
        Err(Why::Fault(StepFault::NoMemory)) => {
            made(rt, collection.take(rt, alloc, service, client))
        }
        Err(_) => panic!(rt; "not taken"),
    }
}

/// It asks for this many buffers, and takes a handle on each: 2 events.
pub fn fill_again<E: Setup, S: Ledger, W: Ledger, R: Wait + Abort>(
    rt: &R,
    alloc: Global,
    service: &Service<E, S, W>,
    client: &mut Client<E, S, W>,
    collection: &CollectionEnd<E>,
    buffers: u8,
) -> Vec<Handle<E, S, W>>
    requires { collection.now.client ≡ client.old.id }
    ensures { client.new.id ≡ client.old.id }
{
    let asked = constraints(rt, buffers, 0, 4096);
    constrain_again(rt, service, client, collection, asked);
    take_again(rt, alloc, service, client, collection)
}

/// A new collection of this many buffers, and a handle on each: 4 events.
pub fn filled_again<E: Setup, S: Ledger, W: Ledger, R: Wait + Abort>(
    rt: &R,
    alloc: Global,
    service: &Service<E, S, W>,
    client: &mut Client<E, S, W>,
    buffers: u8,
) -> (CollectionEnd<E>, Vec<Handle<E, S, W>>)
    ensures id { client.new.id ≡ client.old.id }
    ensures collection { result.0.client ≡ client.new.id }
{
    let root = open_again(rt, service, client);
    let root = bind_again(rt, service, client, root);
    let handles = fill_again(rt, alloc, service, client, &root, buffers);
    (root, handles)
}

/// One handle more.
pub fn double_again<E: Setup, S: Ledger, W: Ledger, R: Wait + Abort>(
    rt: &R,
    service: &Service<E, S, W>,
    client: &mut Client<E, S, W>,
    handle: &Handle<E, S, W>,
) -> Handle<E, S, W>
    requires { handle.now.client ≡ client.old.id }
    ensures id { client.new.id ≡ client.old.id }
    ensures handle { result.client ≡ client.new.id }
{
    match handle.duplicate(rt, service, client) {
        Ok(twin) => twin,
        Err(Why::Fault(StepFault::NoMemory)) => made(rt, handle.duplicate(rt, service, client)),
        Err(_) => panic!(rt; "not doubled"),
    }
}

/// The handle is dropped.
pub fn drop_again<E: Setup, S: Ledger, W: Ledger, R: Wait + Abort>(
    rt: &R,
    service: &Service<E, S, W>,
    client: &mut Client<E, S, W>,
    handle: Handle<E, S, W>,
)
    requires { handle.client ≡ client.old.id }
    ensures { client.new.id ≡ client.old.id }
{
    match handle.drop_handle(rt, service, client) {
        Ok(()) => {}
        Err(
            Kept {
                value,
                why: Why::Fault(StepFault::NoMemory),
            },
        ) => made(rt, value.drop_handle(rt, service, client)),
        Err(_) => panic!(rt; "not dropped"),
    }
}

/// The handle goes into a parcel for this client.
pub fn send_again<E: Setup, S: Ledger, W: Ledger, R: Wait + Abort>(
    rt: &R,
    service: &Service<E, S, W>,
    client: &mut Client<E, S, W>,
    handle: Handle<E, S, W>,
    to: ClientId,
)
    ensures { client.new.id ≡ client.old.id }
{
    assert!(rt; handle.client() == client.id());
    match handle.give(rt, service, client, to) {
        Ok(()) => {}
        Err(
            Kept {
                value,
                why: Why::Fault(StepFault::NoMemory),
            },
        ) => made(rt, value.give(rt, service, client, to)),
        Err(_) => panic!(rt; "not sent"),
    }
}
