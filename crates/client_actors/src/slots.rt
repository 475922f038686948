//! The slots in which an actor's objects lie.
ghost use Rattle.std.specs.Prelude.{◌≡◌, ◌+◌, ◌≤◌, ◌++◌, Some, None, false, true, map, MatchResult, vec_len, vec_capacity};
ghost use Rattle.actor_scripts.specs.ActorStates.{FitsThere, FitsObject};
ghost use Rattle.client_ends.specs.Collecting.{end_client};
ghost use Rattle.client_actors.specs.ObjectCalls.{Did, SlotHeldBy, Lent, filled_by, may_spend, spends_ever as ever_spends, there, object_seen};

use crate::lent_objects::{on_collection, on_handle, on_token};
use crate::new_objects::NewObjects;
use crate::spent_objects::spend;
use client_ends::{Client, Handle, Kept, ParcelContent, Why};
use service_lock::{Service, Setup};
use sm_names::{Call, Spends, StepFault, parts_of, row_of};
use std::alloc::Global;
use std::mem;
use std::sync::Wait;
use std::sync::ledger::Ledger;

// Whether a call that spends so may spend what it is made on.
fn spends_ever(spends: Spends) -> bool
    ensures { result ≡ ever_spends spends }
{
    match spends {
        Spends::Never => false,
        Spends::IfDone | Spends::IfMet => true,
    }
}

// Whether the call may spend what it is made on, as the table of calls says.
fn is_spending(call: &Call) -> bool
    ensures { result ≡ may_spend call.now }
{
    spends_ever(row_of(parts_of(*call).kind).spends)
}

// A call that leaves the object.
fn lend<E: Setup, S: Ledger, W: Ledger, R: Wait>(
    rt: &R,
    alloc: Global,
    service: &Service<E, S, W>,
    client: &mut Client<E, S, W>,
    end: &ParcelContent<E, S, W>,
    call: Call,
) -> Result<NewObjects<E, S, W>, StepFault>
    requires holder { end_client end.now ≡ client.old.id }
    requires fits { FitsObject (object_seen end.now) call }
    requires lends { may_spend call ≡ false }
    ensures { MatchResult result
        (λ b. Lent client.old client.new call b) (λ _. client.new ≡ client.old) }
{
    match end {
        ParcelContent::Token(token) => on_token(rt, service, client, token, call),
        ParcelContent::Collection(collection) => {
            on_collection(rt, alloc, service, client, collection, call)
        }
        ParcelContent::Handle(handle) => on_handle(rt, service, client, handle, call),
    }
}

// Puts an object into a slot that is empty.
fn put_back<E: Setup, S: Ledger, W: Ledger>(
    on: &mut Option<ParcelContent<E, S, W>>,
    end: ParcelContent<E, S, W>,
)
    requires { on.old ≡ None }
    ensures { on.new ≡ Some end }
{
    match mem::replace(on, Some(end)) {
        None => {}
        Some(_) => unreachable!(),
    }
}

// A call that leaves what lies in the slot.
fn lend_there<E: Setup, S: Ledger, W: Ledger, R: Wait>(
    rt: &R,
    alloc: Global,
    service: &Service<E, S, W>,
    client: &mut Client<E, S, W>,
    on: &Option<ParcelContent<E, S, W>>,
    call: Call,
) -> Result<NewObjects<E, S, W>, StepFault>
    requires owned { SlotHeldBy client.old.id on.now }
    requires fits { FitsThere (there on.now) call }
    requires lends { may_spend call ≡ false }
    ensures { MatchResult result
        (λ b. Did client.old client.new call (there on.now) (there on.now) b)
        (λ _. client.new ≡ client.old) }
{
    match on {
        Some(end) => lend(rt, alloc, service, client, end, call),
        None => unreachable!(),
    }
}

// A call that may spend it.
fn spend_there<E: Setup, S: Ledger, W: Ledger, R: Wait>(
    rt: &R,
    service: &Service<E, S, W>,
    client: &mut Client<E, S, W>,
    on: &mut Option<ParcelContent<E, S, W>>,
    call: Call,
) -> Result<NewObjects<E, S, W>, StepFault>
    requires owned { SlotHeldBy client.old.id on.old }
    requires fits { FitsThere (there on.old) call }
    requires spends { may_spend call ≡ true }
    ensures did { MatchResult result
        (λ b. Did client.old client.new call (there on.old) (there on.new) b)
        (λ _. (client.new ≡ client.old) × (on.new ≡ on.old)) }
    ensures owned { SlotHeldBy client.old.id on.new }
{
    match mem::replace(on, None) {
        Some(end) => match spend(rt, service, client, end, call) {
            Ok(brought) => Ok(brought),
            Err(Kept { value, why }) => {
                put_back(on, value);
                match why {
                    Why::Reply(_) => Ok(NewObjects::Nothing),
                    Why::Fault(fault) => Err(fault),
                }
            }
        },
        None => unreachable!(),
    }
}

// A call on what lies in the slot.
pub(crate) fn ask_there<E: Setup, S: Ledger, W: Ledger, R: Wait>(
    rt: &R,
    alloc: Global,
    service: &Service<E, S, W>,
    client: &mut Client<E, S, W>,
    on: &mut Option<ParcelContent<E, S, W>>,
    call: Call,
) -> Result<NewObjects<E, S, W>, StepFault>
    requires owned { SlotHeldBy client.old.id on.old }
    requires fits { FitsThere (there on.old) call }
    ensures did { MatchResult result
        (λ b. Did client.old client.new call (there on.old) (there on.new) b)
        (λ _. (client.new ≡ client.old) × (on.new ≡ on.old)) }
    ensures owned { SlotHeldBy client.old.id on.new }
{
    let asked = call;
    if is_spending(&call) {
        spend_there(rt, service, client, on, asked)
    } else {
        lend_there(rt, alloc, service, client, on, asked)
    }
}

// Puts handles into the next slots, in order.
pub(crate) fn store_handles<E: Setup, S: Ledger, W: Ledger>(
    slots: &mut Vec<Option<ParcelContent<E, S, W>>>,
    handles: Vec<Handle<E, S, W>>,
)
    requires { vec_len slots.old + vec_len handles ≤ vec_capacity slots.old }
    ensures objects { slots.new.items ≡ slots.old.items ++ map filled_by handles.items }
    ensures room { vec_capacity slots.new ≡ vec_capacity slots.old }
    ensures len { vec_len slots.new ≡ vec_len slots.old + vec_len handles }
{
    let mut handles = handles;
    'storing: while !handles.is_empty() {
        let handle = handles.remove(0);
        slots.push_reserved(Some(ParcelContent::Handle(handle)));
    }
    handles.destroy_empty();
}
