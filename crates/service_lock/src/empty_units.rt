//! Empty units, taken before an event that may need them.
ghost use Rattle.std.specs.Prelude.{◌≡◌, ◌<◌, ◌≤◌, ◌↔◌, ◌^◌, length, IfOk, IfErr, OnOk, OnErr};
ghost use Rattle.sm_names.specs.declared.outcomes.StepFault.{StepFault as Fault};
ghost use Rattle.service_lock.specs.States.{with_parts};
ghost use Rattle.service_lock.specs.Accounts.{no_amounts};

use crate::setup::Setup;
use crate::shares::Units;
use crate::state::{State, is_full, units};
use sm_names::StepFault;
use std::sync::ledger::Ledger;

/// The fault where memory was refused: a full record comes first. Costs O(1).
pub fn memory_fault<E: Setup, S: Ledger, W: Ledger>(state: &State<E, S, W>) -> StepFault
    ensures { (result ≡ Fault.HistoryFull)
        ↔ (state.now.limits.events ≤ length state.now.history) }
{
    if is_full(state) {
        StepFault::HistoryFull
    } else {
        StepFault::NoMemory
    }
}

/// Empty units, which take one part of each book. The fault where no part is left is that of refused
/// memory, and leaves the state as it was. Costs O(1).
pub fn empty<E: Setup, S: Ledger, W: Ledger>(
    state: &mut State<E, S, W>,
) -> Result<Units<E, S, W>, StepFault>
    ensures empty { IfOk result (λ u. u ≡ no_amounts) }
    ensures part { OnOk result (state.old ≡ with_parts 1 state.new) }
    ensures same { OnErr result (state.new ≡ state.old) }
    ensures none { OnErr result (state.old.parts ≡ 0) }
    ensures few { state.old.parts < 2 ^ 40 }
    ensures full { IfErr result (λ f. (f ≡ Fault.HistoryFull)
        ↔ (state.old.limits.events ≤ length state.old.history)) }
{
    match units(state) {
        Ok(units) => Ok(units),
        Err(_) => Err(memory_fault(state)),
    }
}
