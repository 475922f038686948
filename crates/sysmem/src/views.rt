//! Views of a core.
ghost use Rattle.std.specs.Prelude.{◌≡◌, ◌≢◌, ◌↔◌, ◌+◌, None, IsSomeAnd, drop, length, map};
ghost use Rattle.std.specs.Prelude.{if◌then◌else◌, ◌⊎◌, option_map};
ghost use Rattle.core_state.specs.Shown.{forgetting};
ghost use Rattle.core_state.specs.Reads.{views_of, is_live_in, fault_in};
ghost use Rattle.sysmem.specs.Arrays.{written_over};
ghost use Rattle.sysmem.specs.Encodings.{fired_words, held_words, key_from_words, key_words};
ghost use Rattle.sysmem.specs.Words.{cause_number};

use crate::arrays::write_array;
use crate::codes::{DONE, NO_MEMORY, NOT_FAILED, NOT_OPEN};
use crate::encode::Encode;
use crate::handle::{CoreHandle, put, take};
use crate::words::cause_word;
use lifetime_core::Core;
use sm_names::{Fired, HeldBuffer, NodeKey};
use std::alloc::Global;

/// A node.
#[repr(C)]
#[derive(Clone, Copy)]
pub struct KeyWords {
    pub slot: u32,
    pub generation: u32,
}

/// A buffer and its pages.
#[repr(C)]
#[derive(Clone, Copy)]
pub struct HeldWords {
    pub collection: u64,
    pub index: u32,
    pub start: u32,
    pub pages: u32,
}

/// A tracker that fired, and the event at which it did.
#[repr(C)]
#[derive(Clone, Copy)]
pub struct FiredWords {
    pub tracker: u64,
    pub event: u64,
}

impl Encode<NodeKey> for KeyWords {
    ghost encoded = { key_words };

    fn encode(key: NodeKey) -> KeyWords {
        KeyWords {
            slot: key.slot,
            generation: key.generation,
        }
    }
}

impl Encode<HeldBuffer> for HeldWords {
    ghost encoded = { held_words };

    fn encode(held: HeldBuffer) -> HeldWords {
        HeldWords {
            collection: held.buffer.collection,
            index: u32::from(held.buffer.index),
            start: held.pages.start,
            pages: held.pages.pages,
        }
    }
}

impl Encode<Fired> for FiredWords {
    ghost encoded = { fired_words };

    fn encode(fired: Fired) -> FiredWords {
        FiredWords {
            tracker: fired.tracker,
            event: fired.event,
        }
    }
}

fn put_live(core: &Core, out: &mut [KeyWords], count: &mut u64) -> u32
    ensures codes { (result ≡ 0) ⊎ (result ≡ 6) }
    ensures done { result ≡ 0 →
        out.new ≡ written_over (map key_words (views_of core.now).live) out.old }
    ensures count { result ≡ 0 → count.new ≡ length (views_of core.now).live }
    ensures failed { result ≢ 0 → (out.new ≡ out.old) × (count.new ≡ count.old) }
{
    let Ok(keys) = core.live() else {
        return NO_MEMORY;
    };
    *count = keys.len() as u64;
    write_array(out, &keys);
    DONE
}

fn put_held(core: &Core, out: &mut [HeldWords], count: &mut u64) -> u32
    ensures codes { (result ≡ 0) ⊎ (result ≡ 6) }
    ensures done { result ≡ 0 →
        out.new ≡ written_over (map held_words (views_of core.now).held) out.old }
    ensures count { result ≡ 0 → count.new ≡ length (views_of core.now).held }
    ensures failed { result ≢ 0 → (out.new ≡ out.old) × (count.new ≡ count.old) }
{
    let Ok(held) = core.held() else {
        return NO_MEMORY;
    };
    *count = held.len() as u64;
    write_array(out, &held);
    DONE
}

/// Writes the live nodes, by birth, as many as `out` has room for, and the number of all.
///
/// `NOT_OPEN` if the handle has no core, `NO_MEMORY` if memory is refused: nothing is written then. Costs
/// O(n + l log l) for n kept nodes, of which l are live.
#[unsafe(no_mangle)]
pub extern "C" fn sysmem_live(
    alloc: Global,
    handle: &mut CoreHandle,
    out: &mut [KeyWords],
    count: &mut u64,
) -> u32
    ensures same { handle.new.place.core ≡ handle.old.place.core }
    ensures codes { (result ≡ 0) ⊎ ((result ≡ 1) ⊎ (result ≡ 6)) }
    ensures not_open { (result ≡ 1) ↔ (handle.old.place.core ≡ None) }
    ensures done { result ≡ 0 → IsSomeAnd handle.old.place.core
        (λ core. (out.new ≡ written_over (map key_words (views_of core).live) out.old)
        × (count.new ≡ length (views_of core).live)) }
    ensures failed { result ≢ 0 → (out.new ≡ out.old) × (count.new ≡ count.old) }
{
    let Some(core) = take(alloc, handle) else {
        return NOT_OPEN;
    };
    let code = put_live(&core, out, count);
    put(handle, core);
    code
}

/// Writes the buffers that hold pages, by page, as many as `out` has room for, and the number of all.
///
/// `NOT_OPEN` if the handle has no core, `NO_MEMORY` if memory is refused: nothing is written then. Costs
/// a sort of these buffers.
#[unsafe(no_mangle)]
pub extern "C" fn sysmem_held(
    alloc: Global,
    handle: &mut CoreHandle,
    out: &mut [HeldWords],
    count: &mut u64,
) -> u32
    ensures same { handle.new.place.core ≡ handle.old.place.core }
    ensures codes { (result ≡ 0) ⊎ ((result ≡ 1) ⊎ (result ≡ 6)) }
    ensures not_open { (result ≡ 1) ↔ (handle.old.place.core ≡ None) }
    ensures done { result ≡ 0 → IsSomeAnd handle.old.place.core (λ core.
        (out.new ≡ written_over (map held_words (views_of core).held) out.old)
        × (count.new ≡ length (views_of core).held)) }
    ensures failed { result ≢ 0 → (out.new ≡ out.old) × (count.new ≡ count.old) }
{
    let Some(core) = take(alloc, handle) else {
        return NOT_OPEN;
    };
    let code = put_held(&core, out, count);
    put(handle, core);
    code
}

/// Writes the trackers that fired, by event, and by rising id within an event, as many as `out` has room
/// for, and the number of all.
///
/// `NOT_OPEN` if the handle has no core: nothing is written then. Takes no memory. Costs what it
/// writes.
#[unsafe(no_mangle)]
pub extern "C" fn sysmem_fired(
    alloc: Global,
    handle: &mut CoreHandle,
    out: &mut [FiredWords],
    count: &mut u64,
) -> u32
    ensures same { handle.new.place.core ≡ handle.old.place.core }
    ensures codes { (result ≡ 0) ⊎ (result ≡ 1) }
    ensures not_open { (result ≡ 1) ↔ (handle.old.place.core ≡ None) }
    ensures done { result ≡ 0 → IsSomeAnd handle.old.place.core
        (λ core. (out.new ≡ written_over (map fired_words (views_of core).fired) out.old)
        × (count.new ≡ length (views_of core).fired)) }
    ensures failed { result ≢ 0 → (out.new ≡ out.old) × (count.new ≡ count.old) }
{
    sysmem_fired_from(alloc, handle, 0, out, count)
}

/// Writes the trackers that fired, without the first `from`, as `sysmem_fired` does. The count is that of
/// all.
///
/// `NOT_OPEN` if the handle has no core: nothing is written then. Takes no memory. Costs what it
/// writes.
#[unsafe(no_mangle)]
pub extern "C" fn sysmem_fired_from(
    alloc: Global,
    handle: &mut CoreHandle,
    from: u64,
    out: &mut [FiredWords],
    count: &mut u64,
) -> u32
    ensures same { handle.new.place.core ≡ handle.old.place.core }
    ensures codes { (result ≡ 0) ⊎ (result ≡ 1) }
    ensures not_open { (result ≡ 1) ↔ (handle.old.place.core ≡ None) }
    ensures done { result ≡ 0 → IsSomeAnd handle.old.place.core
        (λ core. (out.new
        ≡ written_over (map fired_words (drop from (views_of core).fired)) out.old)
        × (count.new ≡ length (views_of core).fired)) }
    ensures failed { result ≢ 0 → (out.new ≡ out.old) × (count.new ≡ count.old) }
{
    let Some(core) = take(alloc, handle) else {
        return NOT_OPEN;
    };
    let fired = core.fired();
    *count = fired.len() as u64;
    write_array(out, after(fired, from));
    put(handle, core);
    DONE
}

/// Forgets the trackers that fired: `sysmem_fired` then writes later ones alone, and counts those alone.
/// This is no event, and changes no reply.
///
/// `NOT_OPEN` if the handle has no core: nothing changed then. No memory is taken. Costs what
/// `Core::forget_fired` costs.
#[unsafe(no_mangle)]
pub extern "C" fn sysmem_forget_fired(alloc: Global, handle: &mut CoreHandle) -> u32
    ensures codes { (result ≡ 0) ⊎ ((result ≡ 1) ⊎ (result ≡ 6)) }
    ensures not_open { (result ≡ 1) ↔ (handle.old.place.core ≡ None) }
    ensures done { result ≡ 0 → handle.new.place.core
        ≡ option_map forgetting handle.old.place.core }
    ensures failed { result ≢ 0 → handle.new.place.core ≡ handle.old.place.core }
{
    let Some(mut core) = take(alloc, handle) else {
        return NOT_OPEN;
    };
    let code = match core.forget_fired() {
        Ok(()) => DONE,
        Err(_) => NO_MEMORY,
    };
    put(handle, core);
    code
}

// The items after the first `from`.
fn after(items: &[Fired], from: u64) -> &[Fired]
    ensures { result.now ≡ drop from items.now }
{
    if from < items.len() as u64 {
        &items[from as usize..]
    } else {
        &[]
    }
}

/// Writes 1 if the node is live, 0 if not. `NOT_OPEN` if the handle has no core. Costs one look-up.
#[unsafe(no_mangle)]
pub extern "C" fn sysmem_is_live(
    alloc: Global,
    handle: &mut CoreHandle,
    key: &KeyWords,
    live: &mut u32,
) -> u32
    ensures same { handle.new.place.core ≡ handle.old.place.core }
    ensures codes { (result ≡ 0) ⊎ (result ≡ 1) }
    ensures not_open { (result ≡ 1) ↔ (handle.old.place.core ≡ None) }
    ensures done { result ≡ 0 → IsSomeAnd handle.old.place.core
        (λ core. live.new ≡ (if is_live_in core (key_from_words key.now) then 1 else 0)) }
    ensures failed { result ≢ 0 → live.new ≡ live.old }
{
    let Some(core) = take(alloc, handle) else {
        return NOT_OPEN;
    };
    *live = u32::from(core.is_live(node_key(key)));
    put(handle, core);
    DONE
}

/// Writes why the node failed, and the origin: the node whose loss reached it.
///
/// `NOT_OPEN` if the handle has no core, `NOT_FAILED` if the node has not failed, or was forgotten:
/// nothing is written then. Costs one look-up.
#[unsafe(no_mangle)]
pub extern "C" fn sysmem_cause(
    alloc: Global,
    handle: &mut CoreHandle,
    key: &KeyWords,
    cause: &mut u32,
    origin: &mut KeyWords,
) -> u32
    ensures same { handle.new.place.core ≡ handle.old.place.core }
    ensures codes { (result ≡ 0) ⊎ ((result ≡ 1) ⊎ (result ≡ 7)) }
    ensures not_open { (result ≡ 1) ↔ (handle.old.place.core ≡ None) }
    ensures done { result ≡ 0 → IsSomeAnd handle.old.place.core
        (λ core. IsSomeAnd (fault_in core (key_from_words key.now))
        (λ fault. (cause.new ≡ cause_number fault.cause)
        × (origin.new ≡ key_words fault.origin))) }
    ensures not_failed { result ≡ 7 → IsSomeAnd handle.old.place.core
        (λ core. fault_in core (key_from_words key.now) ≡ None) }
    ensures failed { result ≢ 0 → (cause.new ≡ cause.old) × (origin.new ≡ origin.old) }
{
    let Some(core) = take(alloc, handle) else {
        return NOT_OPEN;
    };
    let found = core.cause(node_key(key));
    put(handle, core);
    match found {
        Some((why, node)) => {
            *cause = cause_word(why);
            *origin = KeyWords::encode(node);
            DONE
        }
        None => NOT_FAILED,
    }
}

/// Writes the number of pages that no buffer holds. `NOT_OPEN` if the handle has no core. Costs O(1).
#[unsafe(no_mangle)]
pub extern "C" fn sysmem_free_pages(alloc: Global, handle: &mut CoreHandle, pages: &mut u32) -> u32
    ensures same { handle.new.place.core ≡ handle.old.place.core }
    ensures codes { (result ≡ 0) ⊎ (result ≡ 1) }
    ensures not_open { (result ≡ 1) ↔ (handle.old.place.core ≡ None) }
    ensures done { result ≡ 0 → IsSomeAnd handle.old.place.core
        (λ core. pages.new ≡ (views_of core).free) }
    ensures failed { result ≢ 0 → pages.new ≡ pages.old }
{
    let Some(core) = take(alloc, handle) else {
        return NOT_OPEN;
    };
    *pages = core.free_pages();
    put(handle, core);
    DONE
}

/// Writes the number of events. `NOT_OPEN` if the handle has no core. Costs O(1).
#[unsafe(no_mangle)]
pub extern "C" fn sysmem_events(alloc: Global, handle: &mut CoreHandle, events: &mut u64) -> u32
    ensures same { handle.new.place.core ≡ handle.old.place.core }
    ensures codes { (result ≡ 0) ⊎ (result ≡ 1) }
    ensures not_open { (result ≡ 1) ↔ (handle.old.place.core ≡ None) }
    ensures done { result ≡ 0 → IsSomeAnd handle.old.place.core
        (λ core. events.new ≡ core.events) }
    ensures failed { result ≢ 0 → events.new ≡ events.old }
{
    let Some(core) = take(alloc, handle) else {
        return NOT_OPEN;
    };
    *events = core.events();
    put(handle, core);
    DONE
}

/// Writes how many more events the core takes: its limit, less those that were made. `NOT_OPEN` if the
/// handle has no core. Costs O(1).
#[unsafe(no_mangle)]
pub extern "C" fn sysmem_remaining(alloc: Global, handle: &mut CoreHandle, events: &mut u64) -> u32
    ensures same { handle.new.place.core ≡ handle.old.place.core }
    ensures codes { (result ≡ 0) ⊎ (result ≡ 1) }
    ensures not_open { (result ≡ 1) ↔ (handle.old.place.core ≡ None) }
    ensures done { result ≡ 0 → IsSomeAnd handle.old.place.core
        (λ core. events.new + core.events ≡ core.limits.events) }
    ensures failed { result ≢ 0 → events.new ≡ events.old }
{
    let Some(core) = take(alloc, handle) else {
        return NOT_OPEN;
    };
    *events = core.remaining();
    put(handle, core);
    DONE
}

// The key that the words encode.
pub(crate) fn node_key(words: &KeyWords) -> NodeKey
    ensures { result ≡ key_from_words words.now }
{
    NodeKey {
        slot: words.slot,
        generation: words.generation,
    }
}
