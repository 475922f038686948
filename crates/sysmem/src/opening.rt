//! Opening and closing.
ghost use Rattle.std.specs.Prelude.{◌≡◌, ◌↔◌, ◌≢◌, ◌≤◌, None, true, is_some, IsSomeAnd};
ghost use Rattle.sysmem.specs.Codes.{is_among, open_codes};
ghost use Rattle.sysmem.specs.Opening.{IsInRange, IsNew};

use crate::codes::{ALREADY_OPEN, BAD_LIMITS, DONE, NO_MEMORY, NOT_OPEN};
use crate::handle::{CoreHandle, is_open, put, take};
use lifetime_core::Core;
use sm_names::{LASTING_EVENTS, Limits, MAX_PAGES};
use std::alloc::Global;

/// Opens a core without an event, with these limits and a pool of `pages` pages of 4,096 bytes, on a handle
/// of zeros or one that was closed. The seed of its hash table of handles is zeros.
///
/// `ALREADY_OPEN` if the handle has a core, `BAD_LIMITS` if a number is out of its range, `NO_MEMORY` if
/// memory is refused: the handle is then as it was. Costs O(1).
#[unsafe(no_mangle)]
pub extern "C" fn sysmem_open(
    alloc: Global,
    handle: &mut CoreHandle,
    pages: u32,
    events: u32,
    nodes: u32,
    collections: u32,
    trackers: u32,
    handles: u32,
) -> u32
    ensures done { result ≡ 0 → IsSomeAnd handle.new.place.core
        (IsNew pages events nodes collections trackers handles) }
    ensures already { (result ≡ 2) ↔ (is_some handle.old.place.core ≡ true) }
    ensures refused { result ≡ 3 →
        ¬ IsInRange pages events nodes collections trackers handles }
    ensures outside { handle.old.place.core ≡ None →
        ¬ IsInRange pages events nodes collections trackers handles → result ≡ 3 }
    ensures failed { result ≢ 0 → handle.new.place.core ≡ handle.old.place.core }
    ensures codes { is_among open_codes result ≡ true }
{
    let seed = [0; 16];
    sysmem_open_seeded(
        alloc,
        handle,
        pages,
        events,
        nodes,
        collections,
        trackers,
        handles,
        &seed,
    )
}

/// Does what `sysmem_open` does, with this seed for the hash table of handles, as in `Core::with_seed`.
#[unsafe(no_mangle)]
pub extern "C" fn sysmem_open_seeded(
    alloc: Global,
    handle: &mut CoreHandle,
    pages: u32,
    events: u32,
    nodes: u32,
    collections: u32,
    trackers: u32,
    handles: u32,
    seed: &[u8; 16],
) -> u32
    ensures done { result ≡ 0 → IsSomeAnd handle.new.place.core
        (IsNew pages events nodes collections trackers handles) }
    ensures already { (result ≡ 2) ↔ (is_some handle.old.place.core ≡ true) }
    ensures refused { result ≡ 3 →
        ¬ IsInRange pages events nodes collections trackers handles }
    ensures outside { handle.old.place.core ≡ None →
        ¬ IsInRange pages events nodes collections trackers handles → result ≡ 3 }
    ensures failed { result ≢ 0 → handle.new.place.core ≡ handle.old.place.core }
    ensures codes { is_among open_codes result ≡ true }
{
    let limits = Limits::new(events, nodes, collections, trackers, handles);
    open_with(alloc, handle, pages, limits, seed)
}

/// Does what `sysmem_open_seeded` does, for a core that is to run for years: its history has room for
/// 9,007,199,254,740,991 events.
#[unsafe(no_mangle)]
pub extern "C" fn sysmem_open_lasting(
    alloc: Global,
    handle: &mut CoreHandle,
    pages: u32,
    nodes: u32,
    collections: u32,
    trackers: u32,
    handles: u32,
    seed: &[u8; 16],
) -> u32
    ensures done { result ≡ 0 → IsSomeAnd handle.new.place.core
        (IsNew pages LASTING_EVENTS nodes collections trackers handles) }
    ensures already { (result ≡ 2) ↔ (is_some handle.old.place.core ≡ true) }
    ensures refused { result ≡ 3 →
        ¬ IsInRange pages LASTING_EVENTS nodes collections trackers handles }
    ensures outside { handle.old.place.core ≡ None →
        ¬ IsInRange pages LASTING_EVENTS nodes collections trackers handles → result ≡ 3 }
    ensures failed { result ≢ 0 → handle.new.place.core ≡ handle.old.place.core }
    ensures codes { is_among open_codes result ≡ true }
{
    let limits = match Limits::new(1, nodes, collections, trackers, handles) {
        Some(limits) => Some(limits.lasting()),
        None => None,
    };
    open_with(alloc, handle, pages, limits, seed)
}

// Opens a core with these limits, if there are any.
fn open_with(
    alloc: Global,
    handle: &mut CoreHandle,
    pages: u32,
    limits: Option<Limits>,
    seed: &[u8; 16],
) -> u32
    ensures done { result ≡ 0 → IsSomeAnd limits (λ l. IsSomeAnd handle.new.place.core
        (λ core. IsNew pages l.events l.nodes l.collections l.trackers l.handles core)) }
    ensures already { (result ≡ 2) ↔ (is_some handle.old.place.core ≡ true) }
    ensures refused { (result ≡ 3) ↔ ((handle.old.place.core ≡ None)
        × (¬ ((is_some limits ≡ true) × ((1 ≤ pages) × (pages ≤ MAX_PAGES))))) }
    ensures failed { result ≢ 0 → handle.new.place.core ≡ handle.old.place.core }
    ensures codes { is_among open_codes result ≡ true }
{
    if is_open(handle) {
        return ALREADY_OPEN;
    }
    if pages < 1 || pages > MAX_PAGES {
        return BAD_LIMITS;
    }
    let Some(limits) = limits else {
        return BAD_LIMITS;
    };
    let Ok(core) = Core::with_seed(alloc, pages, limits, *seed) else {
        return NO_MEMORY;
    };
    match Box::new(alloc, core) {
        Ok(core) => {
            put(handle, core);
            DONE
        }
        Err(_) => NO_MEMORY,
    }
}

/// Closes the core, and frees its memory. `NOT_OPEN` if the handle has no core. Costs a walk over all that
/// the core has.
#[unsafe(no_mangle)]
pub extern "C" fn sysmem_close(alloc: Global, handle: &mut CoreHandle) -> u32
    ensures closed { handle.new.place.core ≡ None }
    ensures done { (result ≡ 0) ↔ (is_some handle.old.place.core ≡ true) }
    ensures not_open { (result ≡ 1) ↔ (handle.old.place.core ≡ None) }
{
    match take(alloc, handle) {
        Some(_) => DONE,
        None => NOT_OPEN,
    }
}
