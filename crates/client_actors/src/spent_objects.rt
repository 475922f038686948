//! The calls that may spend what they are made on.
ghost use Rattle.std.specs.Prelude.{◌≡◌, Some, true, MatchResult};
ghost use Rattle.actor_scripts.specs.ActorStates.{FitsEnd, FitsHandle, FitsObject, FitsToken, spends_object};
ghost use Rattle.client_ends.specs.Clients.{MadeOr};
ghost use Rattle.client_ends.specs.Collecting.{end_client};
ghost use Rattle.client_actors.specs.ObjectCalls.{Spends, Spent, may_spend, object_seen, token_seen};

use crate::new_objects::NewObjects;
use client_ends::{Client, EndOf, Handle, Kept, ParcelContent, TokenEnd, Why};
use service_lock::{Service, Setup};
use sm_names::{Call, StepFault};
use std::sync::Wait;
use std::sync::ledger::Ledger;

// A call that spends an end of either kind, which comes back where it is not spent.
fn spend_end<K, E: Setup, S: Ledger, W: Ledger, R: Wait>(
    rt: &R,
    service: &Service<E, S, W>,
    client: &mut Client<E, S, W>,
    end: EndOf<K, E>,
    call: Call,
) -> Result<(), Kept<EndOf<K, E>>>
    requires holder { end.client ≡ client.old.id }
    requires fits { FitsEnd end.key call }
    requires spends { may_spend call ≡ true }
    ensures { MatchResult result
        (λ _. Spends client.old client.new call)
        (λ k. (k.value ≡ end) × MadeOr (spends_object call) client.old client.new call k.why) }
{
    match call {
        Call::Give(_, to) => end.give(rt, service, client, to),
        Call::Close(_) => end.close(rt, service, client),
        Call::Release(_) => match end.release(rt, service, client) {
            Ok(_) => Ok(()),
            Err(kept) => Err(kept),
        },
        _ => unreachable!(),
    }
}

// A call that spends a handle.
fn spend_handle<E: Setup, S: Ledger, W: Ledger, R: Wait>(
    rt: &R,
    service: &Service<E, S, W>,
    client: &mut Client<E, S, W>,
    handle: Handle<E, S, W>,
    call: Call,
) -> Result<(), Kept<Handle<E, S, W>>>
    requires holder { handle.client ≡ client.old.id }
    requires fits { FitsHandle handle.buffer handle.strength call }
    requires spends { may_spend call ≡ true }
    ensures { MatchResult result
        (λ _. Spends client.old client.new call)
        (λ k. (k.value ≡ handle) × MadeOr (spends_object call) client.old client.new call k.why) }
{
    match call {
        Call::DropHandle(_, _) => handle.drop_handle(rt, service, client),
        Call::GiveHandle(_, _, to) => handle.give(rt, service, client, to),
        _ => unreachable!(),
    }
}

// A call that spends a token: a Bind brings the collection.
fn spend_token<E: Setup, S: Ledger, W: Ledger, R: Wait>(
    rt: &R,
    service: &Service<E, S, W>,
    client: &mut Client<E, S, W>,
    token: TokenEnd<E>,
    call: Call,
) -> Result<NewObjects<E, S, W>, Kept<TokenEnd<E>>>
    requires holder { token.client ≡ client.old.id }
    requires fits { FitsToken token.key call }
    requires spends { may_spend call ≡ true }
    ensures { MatchResult result
        (λ b. Spent client.old client.new call (Some (token_seen token)) b)
        (λ k. (k.value ≡ token) × MadeOr (spends_object call) client.old client.new call k.why) }
{
    let asked = call;
    match call {
        Call::Bind(_) => match token.bind(rt, service, client) {
            Ok(collection) => Ok(NewObjects::One(ParcelContent::Collection(collection))),
            Err(kept) => Err(kept),
        },
        _ => match spend_end(rt, service, client, token, asked) {
            Ok(()) => Ok(NewObjects::Nothing),
            Err(kept) => Err(kept),
        },
    }
}

// A call that spends an object, which comes back with the reason where it is not spent.
pub(crate) fn spend<E: Setup, S: Ledger, W: Ledger, R: Wait>(
    rt: &R,
    service: &Service<E, S, W>,
    client: &mut Client<E, S, W>,
    end: ParcelContent<E, S, W>,
    call: Call,
) -> Result<NewObjects<E, S, W>, Kept<ParcelContent<E, S, W>>>
    requires holder { end_client end ≡ client.old.id }
    requires fits { FitsObject (object_seen end) call }
    requires spends { may_spend call ≡ true }
    ensures { MatchResult result
        (λ b. Spent client.old client.new call (Some (object_seen end)) b)
        (λ k. (k.value ≡ end) × MadeOr (spends_object call) client.old client.new call k.why) }
{
    match end {
        ParcelContent::Token(token) => match spend_token(rt, service, client, token, call) {
            Ok(brought) => Ok(brought),
            Err(Kept { value, why }) => Err(Kept {
                value: ParcelContent::Token(value),
                why,
            }),
        },
        ParcelContent::Collection(collection) => match spend_end(
            rt, service, client, collection, call,
        ) {
            Ok(()) => Ok(NewObjects::Nothing),
            Err(Kept { value, why }) => Err(Kept {
                value: ParcelContent::Collection(value),
                why,
            }),
        },
        ParcelContent::Handle(handle) => match spend_handle(rt, service, client, handle, call) {
            Ok(()) => Ok(NewObjects::Nothing),
            Err(Kept { value, why }) => Err(Kept {
                value: ParcelContent::Handle(value),
                why,
            }),
        },
    }
}
