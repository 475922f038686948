//! Calls that are drafted.
ghost use Rattle.std.specs.Prelude.{◌≡◌};

use super::asking::{last_of, made, none_left, stands};
use client_ends::{Client, CollectionEnd, Synced, TokenEnd, Why, join};
use service_lock::{Service, Setup};
use sm_names::{Misuse, Reply};
use std::alloc::Global;
use std::process::Abort;
use std::sync::Wait;
use std::sync::ledger::Ledger;

// Whether these are the replies of a Duplicate, a SetWeak, a Duplicate and a Sync.
fn are_twins(replies: &[Reply]) -> bool {
    matches!(
        replies,
        [
            Reply::Token { .. },
            Reply::Done,
            Reply::Token { .. },
            Reply::Done,
        ]
    )
}

// A draft of a Duplicate, a SetWeak and a Duplicate more, which is made: 4 events.
fn twins<E: Setup, S: Ledger, W: Ledger, R: Wait + Abort>(
    rt: &R,
    alloc: Global,
    service: &Service<E, S, W>,
    client: &mut Client<E, S, W>,
    root: TokenEnd<E>,
) -> Synced<E>
    requires { root.client ≡ client.old.id }
    ensures token { result.token.client ≡ client.new.id }
    ensures id { client.new.id ≡ client.old.id }
{
    let mut draft = root.draft(alloc);
    assert!(rt; draft.client() == client.id());
    made(rt, draft.duplicate());
    made(rt, draft.set_weak());
    made(rt, draft.duplicate());
    assert!(rt; stands(rt, service, client, 2, 0, 0));
    let synced = made(rt, draft.sync(rt, alloc, service, client));
    assert!(rt; are_twins(synced.replies.as_slice()));
    assert!(rt; stands(rt, service, client, 6, 0, 0));
    synced
}

// Whether these are the replies of three calls that were answered Done.
fn all_done(replies: &[Reply]) -> bool {
    matches!(replies, [Reply::Done, Reply::Done, Reply::Done])
}

// A draft that is abandoned, and one of a SetDispensable and a SetWeakOk, which is made: 3 events.
fn known<E: Setup, S: Ledger, W: Ledger, R: Wait + Abort>(
    rt: &R,
    alloc: Global,
    service: &Service<E, S, W>,
    client: &mut Client<E, S, W>,
    root: TokenEnd<E>,
) -> TokenEnd<E>
    requires { root.client ≡ client.old.id }
    ensures token { result.client ≡ client.new.id }
    ensures id { client.new.id ≡ client.old.id }
{
    let mut draft = root.draft(alloc);
    made(rt, draft.duplicate());
    let root = draft.abandon();
    assert!(rt; stands(rt, service, client, 6, 0, 0));
    let mut draft = root.draft(alloc);
    made(rt, draft.set_dispensable());
    made(rt, draft.set_weak_ok(true));
    let Synced {
        token,
        made: children,
        replies,
    } = made(rt, draft.sync(rt, alloc, service, client));
    assert!(rt; all_done(replies.as_slice()));
    none_left(rt, children);
    assert!(rt; stands(rt, service, client, 9, 0, 0));
    token
}

// The token is bound and asked for buffers: 2 events. This is what the Take was answered.
fn ask_twin<E: Setup, S: Ledger, W: Ledger, R: Wait + Abort>(
    rt: &R,
    alloc: Global,
    service: &Service<E, S, W>,
    client: &mut Client<E, S, W>,
    token: TokenEnd<E>,
) -> (CollectionEnd<E>, Reply)
    ensures collection { result.0.client ≡ client.new.id }
    ensures id { client.new.id ≡ client.old.id }
{
    assert!(rt; token.client() == client.id());
    let collection = made(rt, token.bind(rt, service, client));
    match collection.take(rt, alloc, service, client) {
        Err(Why::Reply(reply)) => (collection, reply),
        _ => panic!(rt; "taken"),
    }
}

/// Drafts that are made or abandoned, and what comes of the children.
pub fn drafts<E: Setup, S: Ledger, W: Ledger, R: Wait + Abort>(
    rt: &R,
    alloc: Global,
    service: &Service<E, S, W>,
) -> Client<E, S, W> {
    let mut client = made(rt, join(rt, alloc, service));
    let root = made(rt, client.open_root(rt, service));
    let synced = twins(rt, alloc, service, &mut client, root);
    let Synced {
        token: root,
        made: mut twins,
        replies: _,
    } = synced;
    let root = known(rt, alloc, service, &mut client, root);
    let second = last_of(rt, &mut twins);
    let first = last_of(rt, &mut twins);
    none_left(rt, twins);
    let (first, pending) = ask_twin(rt, alloc, service, &mut client, first);
    assert!(rt; pending == Reply::Pending);
    let (second, misused) = ask_twin(rt, alloc, service, &mut client, second);
    assert!(rt; misused == Reply::Misused(Misuse::WeakNotOk));
    made(rt, first.close(rt, service, &mut client));
    made(rt, second.close(rt, service, &mut client));
    made(rt, root.close(rt, service, &mut client));
    client
}
