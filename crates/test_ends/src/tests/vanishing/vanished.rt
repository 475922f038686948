//! A client that vanishes with an end in a parcel.
ghost use Rattle.std.specs.Prelude.{◌≡◌};

use super::{both, gone, parted_by};
use crate::tests::asking::{made, put};
use client_ends::{Client, Held, TokenEnd, join};
use client_vanish::{Holding, end_service};
use service_lock::{Service, Setup};
use sm_names::{Call, Cause, ClientId, NodeKey, Reply};
use std::alloc::Global;
use std::process::Abort;
use std::sync::Wait;
use std::sync::ledger::Ledger;

// The key of the token that the reply tells of.
fn told_key<R: Abort>(rt: &R, reply: Option<Reply>) -> NodeKey {
    match reply {
        Some(Reply::Token { key, .. }) => key,
        _ => panic!(rt; "no token"),
    }
}

// The client gives a child of a new root to another: 3 events. This is the root, and the child's key.
fn give_child<E: Setup, S: Ledger, W: Ledger, R: Wait + Abort>(
    rt: &R,
    service: &Service<E, S, W>,
    client: &mut Client<E, S, W>,
    to: ClientId,
) -> (TokenEnd<E>, NodeKey)
    ensures { result.0.client ≡ client.new.id }
{
    let root = made(rt, client.open_root(rt, service));
    let child = made(rt, root.duplicate(rt, service, client));
    let key = told_key(rt, client.last());
    made(rt, child.give(rt, service, client, to));
    (root, key)
}

/// A child is given to a client that vanishes: its tree fails.
pub fn vanished<E: Setup, S: Ledger, W: Ledger, R: Wait + Abort>(
    rt: &R,
    alloc: Global,
    service: Service<E, S, W>,
) {
    let mut first = made(rt, join(rt, alloc, &service));
    let second = made(rt, join(rt, alloc, &service));
    let (root, key) = give_child(rt, &service, &mut first, second.id());
    let wreck = gone(rt, alloc, &service, second);
    assert!(rt; parted_by(&wreck, Call::Close(key)));
    let lost = Reply::PeerClosed {
        cause: Cause::Lost,
        origin: key,
    };
    assert!(rt; made(rt, root.sync(rt, &service, &mut first)) == lost);
    let mut held = Held::new(alloc);
    put(rt, &mut held.tokens, root);
    let parts = both(
        rt,
        alloc,
        Holding::Present(first, held),
        Holding::Wrecked(wreck),
    );
    end_service(service, parts);
}
