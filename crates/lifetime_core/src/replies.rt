//! The answer table: the replies to calls that take effect.
ghost use Rattle.std.specs.Prelude.{◌≡◌, IfSome, false, option_copied};
ghost use Rattle.std.specs.Option.{option_map};
ghost use Rattle.sm_names.specs.Answers.{answer as answer_of, effect as effect_of, of_end};
ghost use Rattle.sm_names.specs.Answers.{collected, end_named};
ghost use Rattle.forest_store.specs.Nodes.{is_spent};
ghost use Rattle.core_state.specs.Reads.{end_in, open_end_of, readings_of};
ghost use Rattle.core_state.specs.Traits.{Describes};

use crate::machine::Core;
use crate::opening::{set_to_open, strength_of};
use crate::refusals::first_answer;
use alloc_event::Node;
use core_state::end_answers::kind_of;
use core_state::traits::Traits;
use sm_names::{Call, ClientId, NodeKey, Parcel, Refusal, Reply};

// The new token below a node, if its end is there.
#[inline(always)]
fn token_below(core: &Core, key: NodeKey, node: Option<&Node>, new: NodeKey) -> Reply
    requires { end_in core.now key ≡ option_map (open_end_of core.now) (option_copied node) }
    ensures { result ≡ of_end (readings_of core.now) key (λ e. Reply.Token new e.collection) }
{
    match node {
        Some(node) => Reply::Token {
            key: new,
            collection: node.collection,
        },
        None => Reply::Refused(Refusal::NoSuchEnd),
    }
}

// The reply to a Check: Pending until the node's unit is allocated.
#[inline(always)]
fn check(core: &Core, client: ClientId, key: NodeKey, node: Option<&Node>, new: NodeKey) -> Reply
    requires { end_in core.now key ≡ option_map (open_end_of core.now) (option_copied node) }
    ensures { result ≡ effect_of (readings_of core.now) client new (Call.Check key) }
{
    let Some(node) = node else {
        return Reply::Refused(Refusal::NoSuchEnd);
    };
    if !node.allocated {
        return Reply::Pending;
    }
    match core.buffers_of(node.collection) {
        Some(buffers) => Reply::Allocated {
            count: buffers.count,
            size: buffers.size,
        },
        None => Reply::Pending,
    }
}

// The reply to a Take: Pending until the node's unit is allocated.
#[inline(always)]
fn take(core: &Core, client: ClientId, key: NodeKey, node: Option<&Node>, new: NodeKey) -> Reply
    requires { end_in core.now key ≡ option_map (open_end_of core.now) (option_copied node) }
    ensures { result ≡ effect_of (readings_of core.now) client new (Call.Take key) }
{
    let Some(node) = node else {
        return Reply::Refused(Refusal::NoSuchEnd);
    };
    if !node.allocated || core.buffers_of(node.collection).is_none() {
        return Reply::Pending;
    }
    Reply::Taken {
        collection: node.collection,
        strength: strength_of(node.weak),
        set: set_to_open(core, node.collection),
    }
}

// The first parcel that waits for the client, if one does.
#[inline(always)]
fn collect(core: &Core, client: ClientId) -> Reply
    ensures { result ≡ collected (readings_of core.now) ((readings_of core.now).waiting client) }
{
    match core.first_waiting(client) {
        Some(Parcel::End(key)) => match core.node_with_end(key) {
            Some(node) => Reply::Collected {
                key,
                kind: kind_of(node),
                collection: node.collection,
            },
            None => Reply::Empty,
        },
        Some(Parcel::Handle(buffer, strength)) => Reply::CollectedHandle { buffer, strength },
        None => Reply::Empty,
    }
}

/// The answer of a call that takes effect; a new node gets this key.
#[inline(always)]
pub(crate) fn effect(
    core: &Core,
    client: ClientId,
    new: NodeKey,
    call: &Call,
    node: Option<&Node>,
) -> Reply
    requires { end_named (readings_of core.now) call.now
        ≡ option_map (open_end_of core.now) (option_copied node) }
    ensures { result ≡ effect_of (readings_of core.now) client new call.now }
{
    match *call {
        Call::Join => Reply::Joined(core.next_event()),
        Call::Shut => Reply::Shut(core.count_waiting(client) as u64),
        Call::OpenRoot => Reply::Token {
            key: new,
            collection: core.next_event(),
        },
        Call::Duplicate(key) | Call::AttachToken(key) => token_below(core, key, node, new),
        Call::Collect => collect(core, client),
        Call::Check(key) => check(core, client, key, node, new),
        Call::Take(key) => take(core, client, key, node, new),
        Call::TrackNode(_) | Call::TrackLifetime(_, _) | Call::TrackWeak(_) => {
            Reply::Tracker(core.next_event())
        }
        _ => Reply::Done,
    }
}

/// The answer to a call with these traits, which names this node's end, if a new node gets this key.
#[inline(always)]
pub(crate) fn answer(
    core: &Core,
    client: ClientId,
    new: NodeKey,
    call: &Call,
    traits: &Traits,
    node: Option<&Node>,
) -> Reply
    requires law { Describes call.now traits.now }
    requires end { end_named (readings_of core.now) call.now
        ≡ option_map (open_end_of core.now) (option_copied node) }
    requires unspent { IfSome node (λ n. is_spent n.now.end ≡ false) }
    ensures { result
        ≡ answer_of core.now.limits (readings_of core.now) client new call.now }
{
    match first_answer(core, client, call, traits, node) {
        Some(reply) => reply,
        None => effect(core, client, new, call, node),
    }
}
