//! One client who makes every call but those on drafts and gifts of handles, once more where memory is
//! refused: 28 events.
ghost use Rattle.std.specs.Prelude.{◌≡◌};

use super::asking::{constraints, only, stands};
use super::retried::{
    Flag, attach_again, check_again, flag_again, shut_again, track_lifetime_again,
    track_node_again, track_weak_again,
};
use super::retrying::{
    bind_again, close_again, collect_again, constrain_again, double_again, drop_again,
    duplicate_again, give_again, join_again, open_again, release_again, take_again,
};
use client_ends::{Client, CollectionEnd, Handle, ParcelContent, TokenEnd};
use service_lock::{Service, Setup};
use sm_names::{Fired, Reply, Strength};
use std::alloc::Global;
use std::process::Abort;
use std::sync::Wait;
use std::sync::ledger::Ledger;
use trackers::Tracker;

// A root, and a weak child, which knows how to treat weak handles: 7 events.
fn open<E: Setup, S: Ledger, W: Ledger, R: Wait + Abort>(
    rt: &R,
    service: &Service<E, S, W>,
    client: &mut Client<E, S, W>,
) -> (TokenEnd<E>, TokenEnd<E>, Tracker)
    ensures id { client.new.id ≡ client.old.id }
    ensures root { result.0.client ≡ client.new.id }
    ensures child { result.1.client ≡ client.new.id }
{
    let root = open_again(rt, service, client);
    let mut tracker = track_node_again(rt, service, client, &root);
    assert!(rt; tracker.poll().is_none());
    flag_again(rt, service, client, &root, Flag::WeakOkForChildren);
    let child = duplicate_again(rt, service, client, &root);
    flag_again(rt, service, client, &child, Flag::Dispensable);
    flag_again(rt, service, client, &child, Flag::Weak);
    flag_again(rt, service, client, &child, Flag::Nothing);
    (root, child, tracker)
}

// Both ask for what they need, and the root is allocated: 5 events.
fn allocate<E: Setup, S: Ledger, W: Ledger, R: Wait + Abort>(
    rt: &R,
    service: &Service<E, S, W>,
    client: &mut Client<E, S, W>,
    root: &CollectionEnd<E>,
    child: &CollectionEnd<E>,
) -> (TokenEnd<E>, Tracker)
    requires root { root.now.client ≡ client.old.id }
    requires child { child.now.client ≡ client.old.id }
    ensures id { client.new.id ≡ client.old.id }
    ensures token { result.0.client ≡ client.new.id }
{
    let one = constraints(rt, 1, 1, 4096);
    constrain_again(rt, service, client, root, one);
    let none = constraints(rt, 0, 0, 1);
    constrain_again(rt, service, client, child, none);
    let token = attach_again(rt, service, client, root);
    let mut tracker = track_lifetime_again(rt, service, client, root);
    assert!(rt; tracker.poll().is_none());
    let allocated = Reply::Allocated {
        count: 1,
        size: 4096,
    };
    assert!(rt; check_again(rt, service, client, root) == allocated);
    (token, tracker)
}

// The one handle that the collection gives: an event.
fn take_handle<E: Setup, S: Ledger, W: Ledger, R: Wait + Abort>(
    rt: &R,
    alloc: Global,
    service: &Service<E, S, W>,
    client: &mut Client<E, S, W>,
    collection: &CollectionEnd<E>,
    strength: Strength,
) -> Handle<E, S, W>
    requires { collection.now.client ≡ client.old.id }
    ensures id { client.new.id ≡ client.old.id }
    ensures handle { result.client ≡ client.new.id }
{
    let handle = only(rt, take_again(rt, alloc, service, client, collection));
    assert!(rt; handle.client() == client.id());
    assert!(rt; handle.strength() == strength);
    assert!(rt; handle.buffer().index == 0);
    handle
}

// Handles of both strengths, which are taken, doubled, tracked and dropped: 7 events.
fn handles<E: Setup, S: Ledger, W: Ledger, R: Wait + Abort>(
    rt: &R,
    alloc: Global,
    service: &Service<E, S, W>,
    client: &mut Client<E, S, W>,
    root: &CollectionEnd<E>,
    child: &CollectionEnd<E>,
) -> Tracker
    requires root { root.now.client ≡ client.old.id }
    requires child { child.now.client ≡ client.old.id }
    ensures id { client.new.id ≡ client.old.id }
{
    let strong = take_handle(rt, alloc, service, client, root, Strength::Strong);
    let weak = take_handle(rt, alloc, service, client, child, Strength::Weak);
    let twin = double_again(rt, service, client, &strong);
    let mut tracker = track_weak_again(rt, service, client, &weak);
    assert!(rt; tracker.poll().is_none());
    assert!(rt; stands(rt, service, client, 19, 2, 1));
    drop_again(rt, service, client, strong);
    drop_again(rt, service, client, twin);
    drop_again(rt, service, client, weak);
    tracker
}

// The client gives the root to itself and collects it, and is shut: 3 events.
fn round<E: Setup, S: Ledger, W: Ledger, R: Wait + Abort>(
    rt: &R,
    service: &Service<E, S, W>,
    client: &mut Client<E, S, W>,
    root: CollectionEnd<E>,
) -> CollectionEnd<E>
    requires { root.client ≡ client.old.id }
    ensures id { client.new.id ≡ client.old.id }
    ensures root { result.client ≡ client.new.id }
{
    let own = client.id();
    give_again(rt, service, client, root, own);
    let root = match collect_again(rt, service, client) {
        ParcelContent::Collection(root) => root,
        _ => panic!(rt; "not collected"),
    };
    assert!(rt; root.client() == client.id());
    assert!(rt; shut_again(rt, service, client) == Reply::Shut(0));
    root
}

// The tracker fires at the last event.
fn fires<R: Abort>(rt: &R, tracker: &mut Tracker) {
    match tracker.poll() {
        Some(fired) => assert_eq!(rt; fired.event, 28),
        None => panic!(rt; "quiet"),
    }
}

// The two collections, a token attached to the first one, and the trackers of its node and of its
// buffers: 14 events.
fn build<E: Setup, S: Ledger, W: Ledger, R: Wait + Abort>(
    rt: &R,
    service: &Service<E, S, W>,
    client: &mut Client<E, S, W>,
) -> (
    CollectionEnd<E>,
    CollectionEnd<E>,
    TokenEnd<E>,
    (Tracker, Tracker),
)
    ensures id { client.new.id ≡ client.old.id }
    ensures root { result.0.client ≡ client.new.id }
    ensures child { result.1.client ≡ client.new.id }
    ensures token { result.2.client ≡ client.new.id }
{
    let (root, child, gone) = open(rt, service, client);
    let root = bind_again(rt, service, client, root);
    let child = bind_again(rt, service, client, child);
    let (token, left) = allocate(rt, service, client, &root, &child);
    (root, child, token, (gone, left))
}

// The child is released, the attached token is closed, and the root is given and collected: 5 events.
fn leave_root<E: Setup, S: Ledger, W: Ledger, R: Wait + Abort>(
    rt: &R,
    service: &Service<E, S, W>,
    client: &mut Client<E, S, W>,
    root: CollectionEnd<E>,
    child: CollectionEnd<E>,
    token: TokenEnd<E>,
) -> CollectionEnd<E>
    requires root { root.client ≡ client.old.id }
    requires child { child.client ≡ client.old.id }
    requires token { token.client ≡ client.old.id }
    ensures id { client.new.id ≡ client.old.id }
    ensures root { result.client ≡ client.new.id }
{
    release_again(rt, service, client, child);
    close_again(rt, service, client, token);
    round(rt, service, client, root)
}

/// Such a client.
pub fn typed<E: Setup, S: Ledger, W: Ledger, R: Wait + Abort>(
    rt: &R,
    alloc: Global,
    service: &Service<E, S, W>,
) -> Client<E, S, W> {
    let mut client = join_again(rt, alloc, service);
    assert!(rt; client.last().is_none());
    let (root, child, token, (mut gone, mut left)) = build(rt, service, &mut client);
    let mut doomed = handles(rt, alloc, service, &mut client, &root, &child);
    let root = leave_root(rt, service, &mut client, root, child, token);
    assert!(rt; gone.poll().is_none() && left.poll().is_none() && doomed.poll().is_none());
    release_again(rt, service, &mut client, root);
    fires(rt, &mut gone);
    fires(rt, &mut left);
    fires(rt, &mut doomed);
    assert!(rt; client.last() == Some(Reply::Done));
    assert!(rt; stands(rt, service, &client, 28, 0, 0));
    client
}
