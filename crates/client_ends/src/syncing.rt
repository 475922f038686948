//! The calls of a draft, made one after another.
ghost use Rattle.std.specs.Prelude.{◌≡◌, ◌+◌, ◌<◌, ◌≤◌, ◌↔◌, [], ◌∷◌, ◌++◌, IfErr, OnErr, OnOk, length, true, vec_capacity, vec_len};
ghost use Rattle.std.specs.VecDeque.{deque_len};
ghost use Rattle.sm_names.specs.declared.messages.Call.{Call as Asked};
ghost use Rattle.sm_names.specs.declared.outcomes.StepFault.{StepFault as Fault};
ghost use Rattle.client_ends.specs.Clients.{moves_no_handle};
ghost use Rattle.client_ends.specs.Drafts.{DraftSynced, DraftSyncedPart, DraftSyncedFirst};
ghost use Rattle.client_ends.specs.Drafts.{DraftSyncedNext, drafted_call, drafted_calls, token_told};

use crate::client::Client;
use crate::draft::{DraftPart, Drafted};
use crate::ends::TokenEnd;
use service_lock::{Setup, State};
use sm_names::{Call, ClientId, NodeKey, Reply, StepFault};
use std::alloc::AllocError;
use std::collections::VecDeque;
use std::sync::ledger::Ledger;

/// Makes room for the ends and replies of this many events.
pub(crate) fn make_room<E>(part: &mut DraftPart<E>, events: usize) -> Result<(), AllocError>
    ensures replies { part.new.replies.items ≡ part.old.replies.items }
    ensures made { part.new.made.items ≡ part.old.made.items }
    ensures replies_room { OnOk result (vec_len part.new.replies + events
        ≤ vec_capacity part.new.replies) }
    ensures made_room { OnOk result (vec_len part.new.made + events
        ≤ vec_capacity part.new.made) }
{
    part.replies.reserve(events)?;
    part.made.reserve(events)?;
    Ok(())
}

// The drafted call, on the draft's node.
fn call_of(key: NodeKey, drafted: Drafted) -> Call
    ensures call { result ≡ drafted_call key drafted }
    ensures plain { moves_no_handle result ≡ true }
{
    match drafted {
        Drafted::Duplicate => Call::Duplicate(key),
        Drafted::SetDispensable => Call::SetDispensable(key),
        Drafted::SetWeak => Call::SetWeak(key),
        Drafted::SetWeakOk(children) => Call::SetWeakOk(key, children),
    }
}

// Keeps the reply, and the new end in it.
fn keep<E: Setup>(client: ClientId, reply: &Reply, part: &mut DraftPart<E>)
    requires replies_room { vec_len part.old.replies < vec_capacity part.old.replies }
    requires made_room { vec_len part.old.made < vec_capacity part.old.made }
    ensures replies { part.new.replies.items ≡ part.old.replies.items ++ reply.now ∷ [] }
    ensures tokens { part.new.made.items ≡ part.old.made.items ++ token_told client reply.now }
    ensures one_reply { vec_len part.new.replies ≡ vec_len part.old.replies + 1 }
    ensures one_token { vec_len part.new.made ≤ vec_len part.old.made + 1 }
    ensures same_replies { vec_capacity part.new.replies ≡ vec_capacity part.old.replies }
    ensures same_made { vec_capacity part.new.made ≡ vec_capacity part.old.made }
{
    if let Reply::Token { key, collection } = *reply {
        part.made
            .push_reserved(TokenEnd::new(client, key, collection));
    }
    part.replies.push_reserved(*reply);
}

// Makes one call.
fn make_next<E: Setup, S: Ledger, W: Ledger>(
    state: &mut State<E, S, W>,
    client: &mut Client<E, S, W>,
    call: Call,
    part: &mut DraftPart<E>,
) -> Result<(), StepFault>
    requires plain { moves_no_handle call ≡ true }
    requires replies_room { vec_len part.old.replies < vec_capacity part.old.replies }
    requires made_room { vec_len part.old.made < vec_capacity part.old.made }
    ensures synced { OnOk result (DraftSyncedNext client.old client.new call
        part.old.replies.items part.new.replies.items part.old.made.items part.new.made.items) }
    ensures kept { OnErr result ((client.new ≡ client.old) × (part.new ≡ part.old)) }
    ensures full { IfErr result (λ f. (f ≡ Fault.HistoryFull)
        ↔ (state.new.limits.events ≤ length state.new.history)) }
    ensures one_reply { vec_len part.new.replies ≤ vec_len part.old.replies + 1 }
    ensures one_token { vec_len part.new.made ≤ vec_len part.old.made + 1 }
    ensures same_replies { vec_capacity part.new.replies ≡ vec_capacity part.old.replies }
    ensures same_made { vec_capacity part.new.made ≡ vec_capacity part.old.made }
{
    let reply = client.event_in(state, call)?;
    keep(client.id(), &reply, part);
    Ok(())
}

// Makes the first of the calls, and removes it from them.
fn make_first<E: Setup, S: Ledger, W: Ledger>(
    state: &mut State<E, S, W>,
    client: &mut Client<E, S, W>,
    key: NodeKey,
    calls: &mut VecDeque<Drafted>,
    part: &mut DraftPart<E>,
) -> Result<(), StepFault>
    requires some { 0 < deque_len calls.old }
    requires replies_room { vec_len part.old.replies + deque_len calls.old
        < vec_capacity part.old.replies }
    requires made_room { vec_len part.old.made + deque_len calls.old < vec_capacity part.old.made }
    ensures synced { OnOk result (DraftSyncedFirst client.old client.new key calls.old.items calls.new.items
        part.old.replies.items part.new.replies.items part.old.made.items part.new.made.items) }
    ensures fewer { OnOk result (deque_len calls.new + 1 ≡ deque_len calls.old) }
    ensures kept { OnErr result ((client.new ≡ client.old) × (calls.new.items ≡ calls.old.items)
        × (part.new.replies.items ≡ part.old.replies.items)
        × (part.new.made.items ≡ part.old.made.items)) }
    ensures full { IfErr result (λ f. (f ≡ Fault.HistoryFull)
        ↔ (state.new.limits.events ≤ length state.new.history)) }
    ensures replies_room { vec_len part.new.replies + deque_len calls.new
        < vec_capacity part.new.replies }
    ensures made_room { vec_len part.new.made + deque_len calls.new < vec_capacity part.new.made }
{
    let drafted = calls[0];
    make_next(state, client, call_of(key, drafted), part)?;
    calls.pop_front();
    Ok(())
}

// Makes the calls in order, until a fault. Those that were not made remain.
fn make_drafted<E: Setup, S: Ledger, W: Ledger>(
    state: &mut State<E, S, W>,
    client: &mut Client<E, S, W>,
    key: NodeKey,
    calls: &mut VecDeque<Drafted>,
    part: &mut DraftPart<E>,
) -> Result<(), StepFault>
    requires none { (part.old.replies.items ≡ []) × (part.old.made.items ≡ []) }
    requires replies_room { vec_len part.old.replies + deque_len calls.old
        < vec_capacity part.old.replies }
    requires made_room { vec_len part.old.made + deque_len calls.old < vec_capacity part.old.made }
    ensures far { DraftSyncedPart client.old client.new (drafted_calls key calls.old.items)
        (drafted_calls key calls.new.items) part.new.replies.items part.new.made.items }
    ensures none { OnOk result (calls.new.items ≡ []) }
    ensures full { IfErr result (λ f. (f ≡ Fault.HistoryFull)
        ↔ (state.new.limits.events ≤ length state.new.history)) }
    ensures replies_room { vec_len part.new.replies < vec_capacity part.new.replies }
    ensures made_room { vec_len part.new.made < vec_capacity part.new.made }
{
    'making: while !calls.is_empty() {
        make_first(state, client, key, calls, part)?;
    }
    Ok(())
}

/// Makes the calls in order, and then a Sync, until a fault. Those that were not made remain.
#[tactic(auto, using(crate::proofs::DraftLaws::went_all))]
pub(crate) fn make_all<E: Setup, S: Ledger, W: Ledger>(
    state: &mut State<E, S, W>,
    client: &mut Client<E, S, W>,
    key: NodeKey,
    calls: &mut VecDeque<Drafted>,
    part: &mut DraftPart<E>,
) -> Result<(), StepFault>
    requires none { (part.old.replies.items ≡ []) × (part.old.made.items ≡ []) }
    requires replies_room { vec_len part.old.replies + deque_len calls.old
        < vec_capacity part.old.replies }
    requires made_room { vec_len part.old.made + deque_len calls.old < vec_capacity part.old.made }
    ensures all { OnOk result (DraftSynced client.old client.new
        (drafted_calls key calls.old.items ++ Asked.Sync key ∷ [])
        part.new.replies.items part.new.made.items) }
    ensures far { OnErr result (DraftSyncedPart client.old client.new (drafted_calls key calls.old.items)
        (drafted_calls key calls.new.items) part.new.replies.items part.new.made.items) }
    ensures full { IfErr result (λ f. (f ≡ Fault.HistoryFull)
        ↔ (state.new.limits.events ≤ length state.new.history)) }
{
    make_drafted(state, client, key, calls, part)?;
    make_next(state, client, Call::Sync(key), part)
}
