//! The calls that leave with the actor what they are made on.
ghost use Rattle.std.specs.Prelude.{◌≡◌, false, MatchResult};
ghost use Rattle.actor_scripts.specs.ActorStates.{FitsCollection, FitsEnd, FitsHandle, FitsNone, FitsToken};
ghost use Rattle.client_actors.specs.ObjectCalls.{Lent, may_spend};

use crate::new_objects::NewObjects;
use client_ends::{Client, CollectionEnd, EndOf, Handle, ParcelContent, TokenEnd, Why};
use service_lock::{Service, Setup};
use sm_names::{Call, StepFault};
use std::alloc::Global;
use std::sync::Wait;
use std::sync::ledger::Ledger;

// Calls on nothing.
pub(crate) fn on_none<E: Setup, S: Ledger, W: Ledger, R: Wait>(
    rt: &R,
    service: &Service<E, S, W>,
    client: &mut Client<E, S, W>,
    call: Call,
) -> Result<NewObjects<E, S, W>, StepFault>
    requires fits { FitsNone call }
    ensures { MatchResult result
        (λ b. Lent client.old client.new call b) (λ _. client.new ≡ client.old) }
{
    match call {
        Call::Shut => {
            client.shut(rt, service)?;
            Ok(NewObjects::Nothing)
        }
        Call::OpenRoot => match client.open_root(rt, service) {
            Ok(token) => Ok(NewObjects::One(ParcelContent::Token(token))),
            Err(Why::Reply(_)) => Ok(NewObjects::Nothing),
            Err(Why::Fault(fault)) => Err(fault),
        },
        Call::Collect => match client.collect(rt, service) {
            Ok(Some(end)) => Ok(NewObjects::One(end)),
            Ok(None) => Ok(NewObjects::Nothing),
            Err(Why::Reply(_)) => Ok(NewObjects::Nothing),
            Err(Why::Fault(fault)) => Err(fault),
        },
        _ => unreachable!(),
    }
}

// Calls on an end of either kind.
fn on_end<K, E: Setup, S: Ledger, W: Ledger, R: Wait>(
    rt: &R,
    service: &Service<E, S, W>,
    client: &mut Client<E, S, W>,
    end: &EndOf<K, E>,
    call: Call,
) -> Result<NewObjects<E, S, W>, StepFault>
    requires holder { end.now.client ≡ client.old.id }
    requires fits { FitsEnd end.now.key call }
    requires lends { may_spend call ≡ false }
    ensures { MatchResult result
        (λ b. Lent client.old client.new call b) (λ _. client.new ≡ client.old) }
{
    match call {
        Call::Sync(_) => {
            end.sync(rt, service, client)?;
            Ok(NewObjects::Nothing)
        }
        Call::SetWeak(_) => {
            end.set_weak(rt, service, client)?;
            Ok(NewObjects::Nothing)
        }
        Call::SetWeakOk(_, children) => {
            end.set_weak_ok(rt, service, client, children)?;
            Ok(NewObjects::Nothing)
        }
        Call::TrackNode(_) => match end.track_node(rt, service, client) {
            Ok(tracker) => Ok(NewObjects::Tracker(tracker)),
            Err(Why::Reply(_)) => Ok(NewObjects::Nothing),
            Err(Why::Fault(fault)) => Err(fault),
        },
        _ => unreachable!(),
    }
}

// Calls on a token.
pub(crate) fn on_token<E: Setup, S: Ledger, W: Ledger, R: Wait>(
    rt: &R,
    service: &Service<E, S, W>,
    client: &mut Client<E, S, W>,
    token: &TokenEnd<E>,
    call: Call,
) -> Result<NewObjects<E, S, W>, StepFault>
    requires holder { token.now.client ≡ client.old.id }
    requires fits { FitsToken token.now.key call }
    requires lends { may_spend call ≡ false }
    ensures { MatchResult result
        (λ b. Lent client.old client.new call b) (λ _. client.new ≡ client.old) }
{
    let asked = call;
    match call {
        Call::SetDispensable(_) => {
            token.set_dispensable(rt, service, client)?;
            Ok(NewObjects::Nothing)
        }
        Call::Duplicate(_) => match token.duplicate(rt, service, client) {
            Ok(child) => Ok(NewObjects::One(ParcelContent::Token(child))),
            Err(Why::Reply(_)) => Ok(NewObjects::Nothing),
            Err(Why::Fault(fault)) => Err(fault),
        },
        _ => on_end(rt, service, client, token, asked),
    }
}

// Calls on a collection.
pub(crate) fn on_collection<E: Setup, S: Ledger, W: Ledger, R: Wait>(
    rt: &R,
    alloc: Global,
    service: &Service<E, S, W>,
    client: &mut Client<E, S, W>,
    collection: &CollectionEnd<E>,
    call: Call,
) -> Result<NewObjects<E, S, W>, StepFault>
    requires holder { collection.now.client ≡ client.old.id }
    requires fits { FitsCollection collection.now.key call }
    requires lends { may_spend call ≡ false }
    ensures { MatchResult result
        (λ b. Lent client.old client.new call b) (λ _. client.new ≡ client.old) }
{
    let asked = call;
    match call {
        Call::AttachToken(_) => match collection.attach_token(rt, service, client) {
            Ok(child) => Ok(NewObjects::One(ParcelContent::Token(child))),
            Err(Why::Reply(_)) => Ok(NewObjects::Nothing),
            Err(Why::Fault(fault)) => Err(fault),
        },
        Call::SetConstraints(_, constraints) => {
            collection.set_constraints(rt, service, client, constraints)?;
            Ok(NewObjects::Nothing)
        }
        Call::Check(_) => {
            collection.check(rt, service, client)?;
            Ok(NewObjects::Nothing)
        }
        Call::Take(_) => match collection.take(rt, alloc, service, client) {
            Ok(handles) => Ok(NewObjects::Handles(handles)),
            Err(Why::Reply(_)) => Ok(NewObjects::Nothing),
            Err(Why::Fault(fault)) => Err(fault),
        },
        Call::TrackLifetime(_, most) => {
            match collection.track_lifetime(rt, service, client, most) {
                Ok(tracker) => Ok(NewObjects::Tracker(tracker)),
                Err(Why::Reply(_)) => Ok(NewObjects::Nothing),
                Err(Why::Fault(fault)) => Err(fault),
            }
        }
        _ => on_end(rt, service, client, collection, asked),
    }
}

// Calls on a handle.
pub(crate) fn on_handle<E: Setup, S: Ledger, W: Ledger, R: Wait>(
    rt: &R,
    service: &Service<E, S, W>,
    client: &mut Client<E, S, W>,
    handle: &Handle<E, S, W>,
    call: Call,
) -> Result<NewObjects<E, S, W>, StepFault>
    requires holder { handle.now.client ≡ client.old.id }
    requires fits { FitsHandle handle.now.buffer handle.now.strength call }
    requires lends { may_spend call ≡ false }
    ensures { MatchResult result
        (λ b. Lent client.old client.new call b) (λ _. client.new ≡ client.old) }
{
    match call {
        Call::DupHandle(_, _) => match handle.duplicate(rt, service, client) {
            Ok(double) => Ok(NewObjects::One(ParcelContent::Handle(double))),
            Err(Why::Reply(_)) => Ok(NewObjects::Nothing),
            Err(Why::Fault(fault)) => Err(fault),
        },
        Call::TrackWeak(_) => match handle.track_weak(rt, service, client) {
            Ok(tracker) => Ok(NewObjects::Tracker(tracker)),
            Err(Why::Reply(_)) => Ok(NewObjects::Nothing),
            Err(Why::Fault(fault)) => Err(fault),
        },
        _ => unreachable!(),
    }
}
