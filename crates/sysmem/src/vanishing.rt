//! The vanishing of a client.
ghost use Rattle.std.specs.Prelude.{◌≡◌, ◌↔◌, ◌≢◌, ◌≤◌, None, IsSomeAnd, true};
ghost use Rattle.core_vanish.specs.Vanishing.{Vanishes};
ghost use Rattle.sysmem.specs.Codes.{is_among, vanish_codes};
ghost use Rattle.sysmem.specs.Vanishes.{IsVanishStopped, StoppedBy, fault_code};

use crate::codes::{DONE, HISTORY_FULL, NO_CLIENT, NO_MEMORY, NOT_OPEN};
use crate::handle::{CoreHandle, put, take};
use core_vanish::{VanishFault, vanish};
use lifetime_core::Core;
use sm_names::ClientId;
use std::alloc::Global;

// The code of a fault.
fn fault_code(fault: VanishFault) -> u32
    ensures value { result ≡ fault_code fault }
    ensures failed { result ≢ 0 }
    ensures open { result ≢ 1 }
    ensures codes { is_among vanish_codes result ≡ true }
{
    match fault {
        VanishFault::NoSuchClient => NO_CLIENT,
        VanishFault::HistoryFull => HISTORY_FULL,
        VanishFault::NoMemory => NO_MEMORY,
    }
}

// Makes the client's vanishing.
fn part(core: &mut Core, client: ClientId, events: &mut u64) -> u32
    ensures done { result ≡ 0 → Vanishes core.old core.new client events.new }
    ensures stopped { result ≢ 0 → StoppedBy core.old core.new client events.new result }
    ensures open { result ≢ 1 }
    ensures full { result ≡ 5 → core.new.limits.events ≤ core.new.events }
    ensures codes { is_among vanish_codes result ≡ true }
{
    match vanish(core, client) {
        Ok(parted) => {
            *events = parted.events;
            DONE
        }
        Err((parted, fault)) => {
            *events = parted.events;
            fault_code(fault)
        }
    }
}

/// Gives up all that a client has, as if it had crashed: the client is shut, collects each parcel that
/// waits for it, closes each end that it holds and drops each handle that it has open. Writes the number
/// of these events, also if it stops early.
///
/// `NOT_OPEN` if the handle has no core: nothing is written then. `NO_CLIENT` if no such client joined:
/// its Shut was refused, which is one event. `HISTORY_FULL` if the limit allows no further event,
/// `NO_MEMORY` if memory is refused: the earlier events stand, and another call makes the rest. Costs what
/// `core_vanish::vanish` costs.
#[unsafe(no_mangle)]
pub extern "C" fn sysmem_vanish(
    alloc: Global,
    handle: &mut CoreHandle,
    client: ClientId,
    events: &mut u64,
) -> u32
    ensures done { result ≡ 0 → IsSomeAnd handle.old.place.core
        (λ old. IsSomeAnd handle.new.place.core
        (λ new. Vanishes old new client events.new)) }
    ensures stopped { result ≢ 0 →
        IsVanishStopped handle.old.place.core handle.new.place.core client events.new result }
    ensures not_open { (result ≡ 1) ↔ (handle.old.place.core ≡ None) }
    ensures untold { result ≡ 1 → events.new ≡ events.old }
    ensures full { result ≡ 5 → IsSomeAnd handle.new.place.core
        (λ core. core.limits.events ≤ core.events) }
    ensures codes { is_among vanish_codes result ≡ true }
{
    let Some(mut core) = take(alloc, handle) else {
        return NOT_OPEN;
    };
    let code = part(&mut core, client, events);
    put(handle, core);
    code
}
