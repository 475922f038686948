//! One call.
ghost use Rattle.std.specs.Prelude.{◌≡◌, ◌↔◌, ◌≢◌, ◌≤◌, None, IsSomeAnd, is_some, true};
ghost use Rattle.sysmem.specs.Codes.{is_among, step_codes};
ghost use Rattle.sysmem.specs.Stepping.{IsCoreUnchanged, IsCoreCall, StaysAs};
ghost use Rattle.sysmem.specs.Words.{said};

use crate::codes::{BAD_CALL, DONE, HISTORY_FULL, NO_MEMORY, NOT_OPEN};
use crate::handle::{CoreHandle, put, take};
use crate::words::{CallWords, ReplyWords, call_of, tell};
use lifetime_core::Core;
use sm_names::{ClientId, Reply, StepFault};
use std::alloc::Global;

// Makes the call that the words encode.
fn step_by_words(core: &mut Core, client: ClientId, asked: &CallWords, told: &mut ReplyWords) -> u32
    ensures done { result ≡ 0 → IsCoreCall core.old core.new client asked.now told.new }
    ensures failed { result ≢ 0 → StaysAs core.old core.new }
    ensures untold { result ≢ 0 → told.new ≡ told.old }
    ensures bad { (result ≡ 4) ↔ (said asked.now ≡ None) }
    ensures bad_same { result ≡ 4 → core.new ≡ core.old }
    ensures full { (result ≡ 5) ↔ ((is_some (said asked.now) ≡ true)
        × (core.old.limits.events ≤ core.old.events)) }
    ensures open { result ≢ 1 }
    ensures codes { is_among step_codes result ≡ true }
{
    let Some(call) = call_of(asked) else {
        return BAD_CALL;
    };
    let mut reply = Reply::Done;
    match core.step_into(client, &call, &mut reply) {
        Ok(()) => {
            tell(told, &reply);
            DONE
        }
        Err(StepFault::HistoryFull) => HISTORY_FULL,
        Err(StepFault::NoMemory) => NO_MEMORY,
    }
}

/// Makes one call of this client, and writes its reply. This is one event, also if the call is refused.
///
/// `NOT_OPEN` exactly if the handle has no core; `BAD_CALL` exactly if the numbers encode no call;
/// `HISTORY_FULL` exactly if they do and the limit allows no further event; `NO_MEMORY` if memory is
/// refused. There is no other code but `DONE`. Each of these leaves the core and `told` as they were.
/// Costs what `Core::step` costs.
#[unsafe(no_mangle)]
pub extern "C" fn sysmem_step(
    alloc: Global,
    handle: &mut CoreHandle,
    client: ClientId,
    asked: &CallWords,
    told: &mut ReplyWords,
) -> u32
    ensures done { result ≡ 0 → IsSomeAnd handle.old.place.core
        (λ old. IsSomeAnd handle.new.place.core
        (λ new. IsCoreCall old new client asked.now told.new)) }
    ensures failed { result ≢ 0 → IsCoreUnchanged handle.old.place.core handle.new.place.core }
    ensures untold { result ≢ 0 → told.new ≡ told.old }
    ensures not_open { (result ≡ 1) ↔ (handle.old.place.core ≡ None) }
    ensures bad { result ≡ 4 → said asked.now ≡ None }
    ensures unsaid { is_some handle.old.place.core ≡ true → said asked.now ≡ None →
        result ≡ 4 }
    ensures bad_same { result ≡ 4 → handle.new.place.core ≡ handle.old.place.core }
    ensures full { (result ≡ 5) ↔ IsSomeAnd handle.old.place.core
        (λ core. (is_some (said asked.now) ≡ true) × (core.limits.events ≤ core.events)) }
    ensures codes { is_among step_codes result ≡ true }
{
    let Some(mut core) = take(alloc, handle) else {
        return NOT_OPEN;
    };
    let code = step_by_words(&mut core, client, asked, told);
    put(handle, core);
    code
}
