//! Whether the newest object of each node and the handles on each buffer lie in the same slots.
ghost use Rattle.std.specs.Prelude.{◌≡◌, true, Ok};
ghost use Rattle.sm_names.specs.Elements.{In};
ghost use Rattle.sm_names.specs.declared.keys.BufferName.{BufferName as Buffer};
ghost use Rattle.sm_names.specs.declared.keys.NodeKey.{NodeKey as Key};
ghost use Rattle.actor_scripts.specs.Tables.{known};
ghost use Rattle.alike_cores.specs.Renamed.{buffer_renamed};
ghost use Rattle.core_likeness.specs.Naming.{new_id, new_key};

use crate::objects::is_new_buffer;
use actor_scripts::ActorState;
use core_likeness::{Names, is_new_key};
use sm_names::{BufferName, NodeKey, Strength};
use std::alloc::{AllocError, Global};

// Whether the slots are one, or neither is there.
fn is_slot(one: Option<usize>, other: Option<usize>) -> bool
    ensures { result ≡ true → other ≡ one }
{
    match one {
        Some(slot) => match other {
            Some(new) => slot == new,
            None => false,
        },
        None => other.is_none(),
    }
}

// Whether each of these nodes has its newest object in the same slot.
fn have_spots(one: &ActorState, other: &ActorState, names: &Names, keys: &[NodeKey]) -> bool
    ensures { result ≡ true → (key : Key) → In key keys.now →
        (known other.now).spots (new_key names.now key) ≡ (known one.now).spots key }
{
    for key in keys {
        if !is_slot(one.spot(*key), other.spot(names.key(*key))) {
            return false;
        }
    }
    true
}

// Whether this is the new name of one of these nodes.
fn has_name(names: &Names, keys: &[NodeKey], new: NodeKey) -> bool
    ensures { result ≡ true → (key : Key) × In key keys.now × (new_key names.now key ≡ new) }
{
    for key in keys {
        if is_new_key(*key, new, names) {
            return true;
        }
    }
    false
}

// Whether each of these is the new name of one of the nodes.
fn are_named(names: &Names, keys: &[NodeKey], others: &[NodeKey]) -> bool
    ensures { result ≡ true → (new : Key) → In new others.now →
        (key : Key) × In key keys.now × (new_key names.now key ≡ new) }
{
    for other in others {
        if !has_name(names, keys, *other) {
            return false;
        }
    }
    true
}

// Whether each node has its newest object in the same slot.
pub(crate) fn spots_alike(
    alloc: Global,
    one: &ActorState,
    other: &ActorState,
    names: &Names,
) -> Result<bool, AllocError>
    ensures { result ≡ Ok true → (key : Key) →
        (known other.now).spots (new_key names.now key) ≡ (known one.now).spots key }
{
    let keys = one.spot_keys(alloc)?;
    let others = other.spot_keys(alloc)?;
    if !are_named(names, &keys, &others) {
        return Ok(false);
    }
    let are_same = have_spots(one, other, names, &keys);
    Ok(are_same)
}

// Whether the slots are the same, in their order.
fn are_same(one: &[usize], other: &[usize]) -> bool
    ensures { result ≡ true → other.now ≡ one.now }
{
    if one.len() != other.len() {
        return false;
    }
    for at in 0..one.len() {
        if one[at] != other[at] {
            return false;
        }
    }
    true
}

// Whether the handles on each of these buffers lie in the same slots.
fn have_queues(
    alloc: Global,
    one: &ActorState,
    other: &ActorState,
    names: &Names,
    strength: Strength,
    buffers: &[BufferName],
) -> Result<bool, AllocError>
    ensures { result ≡ Ok true → (b : Buffer) → In b buffers.now →
        (known other.now).handles strength (buffer_renamed (new_id names.now) b)
        ≡ (known one.now).handles strength b }
{
    for buffer in buffers {
        let slots = one.queue(alloc, strength, *buffer)?;
        let others = other.queue(alloc, strength, names.buffer(*buffer))?;
        if !are_same(&slots, &others) {
            return Ok(false);
        }
    }
    Ok(true)
}

// Whether this is the new name of one of these buffers.
fn has_buffer_name(names: &Names, buffers: &[BufferName], new: BufferName) -> bool
    ensures { result ≡ true → (b : Buffer) × In b buffers.now
        × (buffer_renamed (new_id names.now) b ≡ new) }
{
    for buffer in buffers {
        if is_new_buffer(*buffer, new, names) {
            return true;
        }
    }
    false
}

// Whether each of these is the new name of one of the buffers.
fn are_buffers_named(names: &Names, buffers: &[BufferName], others: &[BufferName]) -> bool
    ensures { result ≡ true → (new : Buffer) → In new others.now →
        (b : Buffer) × In b buffers.now × (buffer_renamed (new_id names.now) b ≡ new) }
{
    for other in others {
        if !has_buffer_name(names, buffers, *other) {
            return false;
        }
    }
    true
}

// Whether the handles of this strength on each buffer lie in the same slots.
pub(crate) fn handles_alike(
    alloc: Global,
    one: &ActorState,
    other: &ActorState,
    names: &Names,
    strength: Strength,
) -> Result<bool, AllocError>
    ensures { result ≡ Ok true → (b : Buffer) →
        (known other.now).handles strength (buffer_renamed (new_id names.now) b)
        ≡ (known one.now).handles strength b }
{
    let buffers = one.handle_buffers(alloc, strength)?;
    let others = other.handle_buffers(alloc, strength)?;
    if !are_buffers_named(names, &buffers, &others) {
        return Ok(false);
    }
    let are_same = have_queues(alloc, one, other, names, strength, &buffers)?;
    Ok(are_same)
}
