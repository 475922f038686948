//! The handles that a Take brings.
ghost use Rattle.std.specs.Prelude.{◌≡◌, ◌+◌, ◌≤◌, ◌<◌, ◌↔◌, [], true, length, Err, IfOk, IfErr, OnErr, OnOk, vec_len, vec_capacity};
ghost use Rattle.sm_names.specs.declared.messages.Call.{Call as Asked};
ghost use Rattle.sm_names.specs.declared.outcomes.StepFault.{StepFault as Fault};
ghost use Rattle.core_state.specs.Kinds.{fits_call};
ghost use Rattle.event_laws.specs.HandleSums.{indices_in};
ghost use Rattle.service_lock.specs.States.{with_parts};
ghost use Rattle.service_lock.specs.Units.{HasOne, with_one};
ghost use Rattle.service_lock.specs.Accounts.{AppendsOwn, SameHandles, no_amounts};
ghost use Rattle.service_lock.specs.Takes.{handful, told_taken, units_by};
ghost use Rattle.client_ends.specs.Taking.{grip_at, grips_at, grips_by};

use crate::handle::Handle;
use service_lock::{Account, Setup, State, TakenHandles, empty, memory_fault, parts, taken_by};
use sm_names::{BufferName, ClientId, MAX_BUFFERS, NodeKey, Reply, StepFault, has_buffer};
use std::alloc::Global;
use std::sync::ledger::Ledger;

// How many bits the set of a Take has, one for each buffer.
pub(crate) const SET_BITS: u8 = 64;

/// A list with room for the handles that a Take may open, at most `MAX_BUFFERS`, if as many `Units` can be
/// handed out.
pub(crate) fn make_room<E: Setup, S: Ledger, W: Ledger>(
    alloc: Global,
    state: &State<E, S, W>,
) -> Result<Vec<Handle<E, S, W>>, StepFault>
    ensures none { IfOk result (λ handles. handles.items ≡ []) }
    ensures room { IfOk result (λ handles. MAX_BUFFERS ≤ vec_capacity handles) }
    ensures parts { OnOk result (MAX_BUFFERS ≤ state.now.parts) }
    ensures full { IfErr result (λ f. (f ≡ Fault.HistoryFull)
        ↔ (state.now.limits.events ≤ length state.now.history)) }
{
    if parts(state) < MAX_BUFFERS as u64 {
        return Err(memory_fault(state));
    }
    match Vec::with_capacity(alloc, MAX_BUFFERS as usize) {
        Ok(handles) => Ok(handles),
        Err(_) => Err(memory_fault(state)),
    }
}

// One handle, with its share, which the account gives up.
fn hand_one<E: Setup, S: Ledger, W: Ledger>(
    account: &mut Account<E, S, W>,
    state: &mut State<E, S, W>,
    client: ClientId,
    taken: &TakenHandles,
    index: u8,
) -> Handle<E, S, W>
    requires unit { HasOne taken.now.strength account.old.units }
    requires part { 0 < state.old.parts }
    ensures handle { result ≡ grip_at client taken.now index }
    ensures units { account.old.units ≡ with_one taken.now.strength account.new.units }
    ensures own { account.new.own ≡ account.old.own }
    ensures part { state.old ≡ with_parts 1 state.new }
{
    match empty(state) {
        Ok(mut unit) => {
            account.pass_out(state, &mut unit, taken.strength);
            let buffer = BufferName {
                collection: taken.collection,
                index,
            };
            Handle::new(client, buffer, taken.strength, unit)
        }
        Err(_) => unreachable!(),
    }
}

// Makes the handles that were taken, by index, each with its share.
fn hand_out<E: Setup, S: Ledger, W: Ledger>(
    account: &mut Account<E, S, W>,
    state: &mut State<E, S, W>,
    handles: &mut Vec<Handle<E, S, W>>,
    client: ClientId,
    taken: &TakenHandles,
)
    requires units { SameHandles account.old.units
        (handful taken.now.strength (length (indices_in taken.now.set))) }
    requires none { handles.old.items ≡ [] }
    requires room { MAX_BUFFERS ≤ vec_capacity handles.old }
    requires parts { MAX_BUFFERS ≤ state.old.parts }
    ensures units { SameHandles account.new.units no_amounts }
    ensures events { account.new.units.events ≡ account.old.units.events }
    ensures own { account.new.own ≡ account.old.own }
    ensures handles { handles.new.items ≡ grips_at client taken.now (indices_in taken.now.set) }
    ensures parts { state.new.parts + vec_len handles.new ≡ state.old.parts }
{
    'handing: for index in 0..SET_BITS {
        if has_buffer(taken.set, index) {
            let handle = hand_one(account, state, client, taken, index);
            handles.push_reserved(handle);
        }
    }
}

// The same, if handles were taken.
fn hand_out_if<E: Setup, S: Ledger, W: Ledger>(
    account: &mut Account<E, S, W>,
    state: &mut State<E, S, W>,
    handles: &mut Vec<Handle<E, S, W>>,
    client: ClientId,
    taken: Option<TakenHandles>,
)
    requires units { SameHandles account.old.units (units_by taken) }
    requires none { handles.old.items ≡ [] }
    requires room { MAX_BUFFERS ≤ vec_capacity handles.old }
    requires parts { MAX_BUFFERS ≤ state.old.parts }
    ensures units { SameHandles account.new.units no_amounts }
    ensures events { account.new.units.events ≡ account.old.units.events }
    ensures own { account.new.own ≡ account.old.own }
    ensures handles { handles.new.items ≡ grips_by client taken }
    ensures parts { state.new.parts + vec_len handles.new ≡ state.old.parts }
{
    match taken {
        Some(taken) => hand_out(account, state, handles, client, &taken),
        None => {}
    }
}

/// Makes a Take, and puts its handles into the list that has room for them.
pub(crate) fn make_taking<E: Setup, S: Ledger, W: Ledger>(
    account: &mut Account<E, S, W>,
    state: &mut State<E, S, W>,
    client: ClientId,
    key: NodeKey,
    handles: &mut Vec<Handle<E, S, W>>,
) -> Result<Reply, StepFault>
    requires none { SameHandles account.old.units no_amounts }
    requires empty { handles.old.items ≡ [] }
    requires room { MAX_BUFFERS ≤ vec_capacity handles.old }
    requires parts { MAX_BUFFERS ≤ state.old.parts }
    ensures none { SameHandles account.new.units no_amounts }
    ensures share { IfOk result (λ r.
        account.new.units.events ≡ account.old.units.events + 1) }
    ensures told { IfOk result (λ r.
        AppendsOwn account.old.own account.new.own (Asked.Take key) r) }
    ensures kind { IfOk result (λ r. fits_call (Asked.Take key) r ≡ true) }
    ensures handles { IfOk result (λ r.
        handles.new.items ≡ grips_by client (told_taken r)) }
    ensures parts { OnOk result
        (state.new.parts + vec_len handles.new ≡ state.old.parts) }
    ensures fault { OnErr result ((account.new ≡ account.old) × (state.new ≡ state.old)
        × (handles.new.items ≡ [])) }
    ensures full { (result ≡ Err Fault.HistoryFull)
        ↔ (state.old.limits.events ≤ length state.old.history) }
{
    let reply = account.make_take(state, client, key)?;
    hand_out_if(account, state, handles, client, taken_by(&reply));
    Ok(reply)
}
