//! One client whose calls are made once more where memory is refused: 21 events.
ghost use Rattle.std.specs.Prelude.{◌≡◌};

use super::asking::{last_of, made, none_left, only, stands};
use super::retrying::{
    bind_again, close_again, collect_again, double_again, drop_again, duplicate_again, fill_again,
    give_again, join_again, open_again, release_again, send_again,
};
use client_ends::{Client, CollectionEnd, Draft, DraftPart, ParcelContent, Synced, TokenEnd};
use service_lock::{Service, Setup};
use sm_names::StepFault;
use std::alloc::Global;
use std::process::Abort;
use std::sync::Wait;
use std::sync::ledger::Ledger;

// The draft of one Duplicate is made, if need be in two parts: its token, and the child.
fn sync_again<E: Setup, S: Ledger, W: Ledger, R: Wait + Abort>(
    rt: &R,
    alloc: Global,
    service: &Service<E, S, W>,
    client: &mut Client<E, S, W>,
    draft: Draft<E>,
) -> (TokenEnd<E>, TokenEnd<E>)
    requires { draft.token.client ≡ client.old.id }
    ensures id { client.new.id ≡ client.old.id }
{
    let (synced, first) = match draft.sync(rt, alloc, service, client) {
        Ok(synced) => (synced, Vec::new(alloc)),
        Err((rest, part, StepFault::NoMemory)) => {
            let DraftPart {
                made: first,
                replies,
            } = part;
            let synced = made(rt, rest.sync(rt, alloc, service, client));
            assert!(rt; replies.len() + synced.replies.len() == 2);
            (synced, first)
        }
        Err(_) => panic!(rt; "not synced"),
    };
    let Synced {
        token,
        made: second,
        replies: _,
    } = synced;
    (token, only_one(rt, first, second))
}

// The one token of both lists.
fn only_one<E, R: Abort>(rt: &R, first: Vec<TokenEnd<E>>, second: Vec<TokenEnd<E>>) -> TokenEnd<E> {
    if first.is_empty() {
        first.destroy_empty();
        only(rt, second)
    } else {
        none_left(rt, second);
        only(rt, first)
    }
}

// A token is given, collected and drafted on, and its child goes before it: 7 events.
fn tokens<E: Setup, S: Ledger, W: Ledger, R: Wait + Abort>(
    rt: &R,
    alloc: Global,
    service: &Service<E, S, W>,
    client: &mut Client<E, S, W>,
    root: &TokenEnd<E>,
)
    requires { root.now.client ≡ client.old.id }
    ensures { client.new.id ≡ client.old.id }
{
    let token = duplicate_again(rt, service, client, root);
    let own = client.id();
    give_again(rt, service, client, token, own);
    let token = match collect_again(rt, service, client) {
        ParcelContent::Token(token) => token,
        _ => panic!(rt; "no token"),
    };
    assert!(rt; token.client() == client.id());
    let mut draft = token.draft(alloc);
    if draft.duplicate().is_err() {
        made(rt, draft.duplicate());
    }
    let (token, child) = sync_again(rt, alloc, service, client, draft);
    assert!(rt; child.client() == client.id());
    release_again(rt, service, client, child);
    assert!(rt; token.client() == client.id());
    release_again(rt, service, client, token);
}

// Handles are asked for, taken, given, collected, doubled and dropped: 8 events.
fn handles<E: Setup, S: Ledger, W: Ledger, R: Wait + Abort>(
    rt: &R,
    alloc: Global,
    service: &Service<E, S, W>,
    client: &mut Client<E, S, W>,
    collection: &CollectionEnd<E>,
)
    requires { collection.now.client ≡ client.old.id }
    ensures { client.new.id ≡ client.old.id }
{
    let mut taken = fill_again(rt, alloc, service, client, collection, 2);
    let second = last_of(rt, &mut taken);
    let first = last_of(rt, &mut taken);
    none_left(rt, taken);
    assert!(rt; first.client() == client.id() && second.client() == client.id());
    let own = client.id();
    send_again(rt, service, client, first, own);
    let first = match collect_again(rt, service, client) {
        ParcelContent::Handle(handle) => handle,
        _ => panic!(rt; "no handle"),
    };
    assert!(rt; first.client() == client.id());
    let third = double_again(rt, service, client, &second);
    drop_again(rt, service, client, first);
    drop_again(rt, service, client, second);
    drop_again(rt, service, client, third);
}

/// A client who makes its calls again.
pub fn again<E: Setup, S: Ledger, W: Ledger, R: Wait + Abort>(
    rt: &R,
    alloc: Global,
    service: &Service<E, S, W>,
) -> Client<E, S, W> {
    let mut client = join_again(rt, alloc, service);
    let root = open_again(rt, service, &mut client);
    tokens(rt, alloc, service, &mut client, &root);
    let other = duplicate_again(rt, service, &mut client, &root);
    release_again(rt, service, &mut client, other);
    let root = bind_again(rt, service, &mut client, root);
    handles(rt, alloc, service, &mut client, &root);
    close_again(rt, service, &mut client, root);
    assert!(rt; stands(rt, service, &client, 21, 0, 0));
    client
}
