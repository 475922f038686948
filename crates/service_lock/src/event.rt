//! One event.
ghost use Rattle.std.specs.Prelude.{◌≡◌, ◌+◌, ◌≤◌, ◌↔◌, true, length, IfOk, OnErr, Err};
ghost use Rattle.sm_names.specs.declared.messages.Call.{Call as Asked};
ghost use Rattle.sm_names.specs.declared.messages.Reply.{Reply as Told};
ghost use Rattle.sm_names.specs.declared.outcomes.StepFault.{StepFault as Fault};
ghost use Rattle.sm_names.specs.Legality.{IsLegal};
ghost use Rattle.core_state.specs.Kinds.{fits_call};
ghost use Rattle.service_lock.specs.States.{view_after};
ghost use Rattle.service_lock.specs.Units.{CountsEvent, HasUnitFor};

use crate::moves::{HandleMoves, moves_of};
use crate::setup::Setup;
use crate::shares::Units;
use crate::state::State;
use sm_names::{Call, ClientId, Reply, StepFault, Strength};
use std::sync::ledger::Ledger;

// What each event does to the book of events.
const ONE_EVENT: HandleMoves = HandleMoves {
    opened: 1,
    dropped: 0,
    sent: 0,
    got: 0,
};

/// Makes one event of the client: the core makes the call, the record gets one entry, and the books and
/// `units` count the event. For a call that drops or gives a handle, `units` has a count of 1 for this
/// handle, and keeps it unless the answer is Done.
///
/// A fault is no event, and changes neither the state nor `units`: `HistoryFull` exactly if the record
/// is full, also if memory would be refused; otherwise `NoMemory` if memory is refused.
///
/// Costs the core's step and a place at the end of the record, which grows by doubling. A Take that is
/// answered Taken also costs a look at each of 64 bits.
#[tactic(auto, using(crate::proofs::MoveLaws::opened_le, crate::proofs::MoveLaws::lost_le_needed))]
pub fn apply<E: Setup, S: Ledger, W: Ledger>(
    state: &mut State<E, S, W>,
    units: &mut Units<E, S, W>,
    client: ClientId,
    call: Call,
) -> Result<Reply, StepFault>
    requires { HasUnitFor call units.old }
    ensures made { IfOk result (λ reply. state.new ≡ view_after state.old client call reply) }
    ensures counts { IfOk result (λ reply. CountsEvent units.old units.new call reply) }
    ensures kind { IfOk result (λ reply. fits_call call reply ≡ true) }
    ensures joins { IfOk result (λ reply. client ≡ 0 → call ≡ Asked.Join →
        reply ≡ Told.Joined (length state.old.history + 1)) }
    ensures legal { IsLegal state.new.pool state.new.limits state.new.history }
    ensures fault { OnErr result ((state.new ≡ state.old) × (units.new ≡ units.old)) }
    ensures full { (result ≡ Err Fault.HistoryFull)
        ↔ (state.old.limits.events ≤ length state.old.history) }
{
    if state.core.events() >= state.limits.events() {
        return Err(StepFault::HistoryFull);
    }
    if state.log.reserve(1).is_err() {
        return Err(StepFault::NoMemory);
    }
    let mut reply = Reply::Done;
    state.core.step_into(client, &call, &mut reply)?;
    state.log.push_reserved((client, call, reply));
    state.events.write(&mut units.events, ONE_EVENT);
    state.strong.write(&mut units.strong, moves_of(Strength::Strong, &call, &reply));
    state
        .weak
        .write(&mut units.weak, moves_of(Strength::Weak, &call, &reply));
    Ok(reply)
}
