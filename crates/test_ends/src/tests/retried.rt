//! More calls that are made once more where memory was refused.
ghost use Rattle.std.specs.Prelude.{◌≡◌};

use super::asking::made;
use client_ends::{Client, CollectionEnd, Handle, TokenEnd, Why};
use service_lock::{Service, Setup};
use sm_names::{Reply, StepFault};
use std::process::Abort;
use std::sync::Wait;
use std::sync::ledger::Ledger;
use trackers::Tracker;

/// A call that changes a token's node, or nothing.
#[derive(Clone, Copy)]
pub enum Flag {
    WeakOkForChildren,
    Dispensable,
    Weak,
    Nothing,
}

// Makes that call.
fn set_flag<E: Setup, S: Ledger, W: Ledger, R: Wait + Abort>(
    rt: &R,
    service: &Service<E, S, W>,
    client: &mut Client<E, S, W>,
    token: &TokenEnd<E>,
    flag: Flag,
) -> Result<Reply, StepFault>
    requires { token.now.client ≡ client.old.id }
    ensures { client.new.id ≡ client.old.id }
{
    match flag {
        Flag::WeakOkForChildren => token.set_weak_ok(rt, service, client, true),
        Flag::Dispensable => token.set_dispensable(rt, service, client),
        Flag::Weak => token.set_weak(rt, service, client),
        Flag::Nothing => token.sync(rt, service, client),
    }
}

/// The node is changed so.
pub fn flag_again<E: Setup, S: Ledger, W: Ledger, R: Wait + Abort>(
    rt: &R,
    service: &Service<E, S, W>,
    client: &mut Client<E, S, W>,
    token: &TokenEnd<E>,
    flag: Flag,
)
    requires { token.now.client ≡ client.old.id }
    ensures { client.new.id ≡ client.old.id }
{
    let reply = match set_flag(rt, service, client, token, flag) {
        Ok(reply) => reply,
        Err(StepFault::NoMemory) => made(rt, set_flag(rt, service, client, token, flag)),
        Err(_) => panic!(rt; "not changed"),
    };
    assert!(rt; reply == Reply::Done);
}

/// A tracker of the node.
pub fn track_node_again<E: Setup, S: Ledger, W: Ledger, R: Wait + Abort>(
    rt: &R,
    service: &Service<E, S, W>,
    client: &mut Client<E, S, W>,
    token: &TokenEnd<E>,
) -> Tracker
    requires { token.now.client ≡ client.old.id }
    ensures { client.new.id ≡ client.old.id }
{
    match token.track_node(rt, service, client) {
        Ok(tracker) => tracker,
        Err(Why::Fault(StepFault::NoMemory)) => made(rt, token.track_node(rt, service, client)),
        Err(_) => panic!(rt; "not tracked"),
    }
}

/// A tracker of the buffers' life, down to none.
pub fn track_lifetime_again<E: Setup, S: Ledger, W: Ledger, R: Wait + Abort>(
    rt: &R,
    service: &Service<E, S, W>,
    client: &mut Client<E, S, W>,
    collection: &CollectionEnd<E>,
) -> Tracker
    requires { collection.now.client ≡ client.old.id }
    ensures { client.new.id ≡ client.old.id }
{
    match collection.track_lifetime(rt, service, client, 0) {
        Ok(tracker) => tracker,
        Err(Why::Fault(StepFault::NoMemory)) => {
            made(rt, collection.track_lifetime(rt, service, client, 0))
        }
        Err(_) => panic!(rt; "not tracked"),
    }
}

/// A tracker of the weak handle's buffer.
pub fn track_weak_again<E: Setup, S: Ledger, W: Ledger, R: Wait + Abort>(
    rt: &R,
    service: &Service<E, S, W>,
    client: &mut Client<E, S, W>,
    handle: &Handle<E, S, W>,
) -> Tracker
    requires { handle.now.client ≡ client.old.id }
    ensures { client.new.id ≡ client.old.id }
{
    match handle.track_weak(rt, service, client) {
        Ok(tracker) => tracker,
        Err(Why::Fault(StepFault::NoMemory)) => made(rt, handle.track_weak(rt, service, client)),
        Err(_) => panic!(rt; "not tracked"),
    }
}

/// An attached child.
pub fn attach_again<E: Setup, S: Ledger, W: Ledger, R: Wait + Abort>(
    rt: &R,
    service: &Service<E, S, W>,
    client: &mut Client<E, S, W>,
    collection: &CollectionEnd<E>,
) -> TokenEnd<E>
    requires { collection.now.client ≡ client.old.id }
    ensures id { client.new.id ≡ client.old.id }
    ensures token { result.client ≡ client.new.id }
{
    match collection.attach_token(rt, service, client) {
        Ok(token) => token,
        Err(Why::Fault(StepFault::NoMemory)) => {
            made(rt, collection.attach_token(rt, service, client))
        }
        Err(_) => panic!(rt; "not attached"),
    }
}

/// What the collection has.
pub fn check_again<E: Setup, S: Ledger, W: Ledger, R: Wait + Abort>(
    rt: &R,
    service: &Service<E, S, W>,
    client: &mut Client<E, S, W>,
    collection: &CollectionEnd<E>,
) -> Reply
    requires { collection.now.client ≡ client.old.id }
    ensures { client.new.id ≡ client.old.id }
{
    match collection.check(rt, service, client) {
        Ok(reply) => reply,
        Err(StepFault::NoMemory) => made(rt, collection.check(rt, service, client)),
        Err(_) => panic!(rt; "not checked"),
    }
}

/// The client is shut.
pub fn shut_again<E: Setup, S: Ledger, W: Ledger, R: Wait + Abort>(
    rt: &R,
    service: &Service<E, S, W>,
    client: &mut Client<E, S, W>,
) -> Reply
    ensures { client.new.id ≡ client.old.id }
{
    match client.shut(rt, service) {
        Ok(reply) => reply,
        Err(StepFault::NoMemory) => made(rt, client.shut(rt, service)),
        Err(_) => panic!(rt; "not shut"),
    }
}
