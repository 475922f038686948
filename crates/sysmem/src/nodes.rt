//! Views of a core's nodes, of the buffers of a collection, and of open handles.
ghost use Rattle.std.specs.Prelude.{◌≡◌, ◌≢◌, ◌≤◌, ◌↔◌, ◌⊎◌, [], None, IsSomeAnd, is_some, length, map, option_map, if◌then◌else◌};
ghost use Rattle.std.specs.Option.{option_map_or};
ghost use Rattle.sm_names.specs.declared.outcomes.Buffers.{Buffers};
ghost use Rattle.buffer_holds.specs.Counts.{moving_count, of};
ghost use Rattle.forest_store.specs.Forest.{all_nodes, node_at};
ghost use Rattle.core_state.specs.Reads.{buffers_in};
ghost use Rattle.sysmem.specs.Arrays.{written_over};
ghost use Rattle.sysmem.specs.Encodings.{held_words, key_from_words};
ghost use Rattle.sysmem.specs.Nodes.{buffer_at, flags_of, held_in, holder_number, node_words};
ghost use Rattle.sysmem.specs.Words.{said_strength};

use crate::arrays::write_array;
use crate::codes::{BAD_CALL, DONE, NO_MEMORY, NOT_OPEN};
use crate::encode::Encode;
use crate::handle::{CoreHandle, put, take};
use crate::views::{HeldWords, KeyWords, node_key};
use crate::words::{cause_word, strength_of};
use alloc_event::{End, Node};
use lifetime_core::Core;
use sm_names::BufferName;
use std::alloc::Global;

/// A node. A field is 0 if its flag is not set.
#[repr(C)]
#[derive(Clone, Copy)]
pub struct NodeWords {
    pub key: KeyWords,
    pub parent: KeyWords,
    pub head: KeyWords,
    pub collection: u64,
    pub event: u64,
    pub holder: u64,
    pub flags: u32,
    pub cause: u32,
    pub origin: KeyWords,
    pub camping: u8,
    pub at_least: u8,
    pub size: u32,
}

// The words of no key.
const NO_KEY: KeyWords = KeyWords {
    slot: 0,
    generation: 0,
};

// The weight, if the flag is set.
fn flag(set: bool, weight: u32) -> u32
    ensures value { result ≡ (if set then weight else 0) }
    ensures few { result ≤ weight }
{
    if set { weight } else { 0 }
}

// The flags of the node, a bit each.
fn flags_word(node: &Node) -> u32
    ensures { result ≡ flags_of node.now }
{
    let low = flag(node.attached, 1)
        + flag(node.allocated, 2)
        + flag(node.gone, 4)
        + flag(node.fault.is_some(), 8)
        + flag(node.released, 16)
        + flag(node.dispensable, 32);
    let high = flag(node.weak, 64)
        + flag(node.weak_ok, 128)
        + flag(node.constraints.is_some(), 256)
        + flag(node.bound, 512)
        + flag(matches!(node.end, End::InTransit(_)), 1024)
        + flag(matches!(node.end, End::Spent), 2048);
    low + high
}

// The client that holds the node's end, or that gave it away; 0 if the end is spent.
fn holder_word(end: End) -> u64
    ensures { result ≡ holder_number end }
{
    match end {
        End::Held(client) | End::InTransit(client) => client,
        End::Spent => 0,
    }
}

impl Encode<Node> for NodeWords {
    ghost encoded = { node_words };

    fn encode(node: Node) -> NodeWords {
        let (cause, origin) = match node.fault {
            Some(fault) => (cause_word(fault.cause), KeyWords::encode(fault.origin)),
            None => (0, NO_KEY),
        };
        let (camping, at_least, size) = match node.constraints {
            Some(demand) => (demand.camping(), demand.at_least(), demand.size()),
            None => (0, 0, 0),
        };
        NodeWords {
            key: KeyWords::encode(node.key),
            parent: KeyWords::encode(node.parent.unwrap_or(node.key)),
            head: KeyWords::encode(node.head),
            collection: node.collection,
            event: node.event,
            holder: holder_word(node.end),
            flags: flags_word(&node),
            cause,
            origin,
            camping,
            at_least,
            size,
        }
    }
}

fn put_nodes(core: &Core, out: &mut [NodeWords], count: &mut u64) -> u32
    ensures codes { (result ≡ 0) ⊎ (result ≡ 6) }
    ensures done { result ≡ 0 →
        out.new ≡ written_over (map node_words (all_nodes core.now.forest)) out.old }
    ensures count { result ≡ 0 → count.new ≡ length (all_nodes core.now.forest) }
    ensures failed { result ≢ 0 → (out.new ≡ out.old) × (count.new ≡ count.old) }
{
    let Ok(nodes) = core.nodes() else {
        return NO_MEMORY;
    };
    *count = nodes.len() as u64;
    write_array(out, &nodes);
    DONE
}

/// Writes the kept nodes, as many as `out` has room for, and the number of all: collection by collection,
/// the earliest first, and by birth within each. A node is kept while it is not gone or its end is not
/// spent.
///
/// `NOT_OPEN` if the handle has no core, `NO_MEMORY` if memory is refused: nothing is written then. Costs
/// a copy of the kept nodes.
#[unsafe(no_mangle)]
pub extern "C" fn sysmem_nodes(
    alloc: Global,
    handle: &mut CoreHandle,
    out: &mut [NodeWords],
    count: &mut u64,
) -> u32
    ensures same { handle.new.place.core ≡ handle.old.place.core }
    ensures codes { (result ≡ 0) ⊎ ((result ≡ 1) ⊎ (result ≡ 6)) }
    ensures not_open { (result ≡ 1) ↔ (handle.old.place.core ≡ None) }
    ensures done { result ≡ 0 → IsSomeAnd handle.old.place.core
        (λ core. (out.new ≡ written_over (map node_words (all_nodes core.forest)) out.old)
        × (count.new ≡ length (all_nodes core.forest))) }
    ensures failed { result ≢ 0 → (out.new ≡ out.old) × (count.new ≡ count.old) }
{
    let Some(core) = take(alloc, handle) else {
        return NOT_OPEN;
    };
    let code = put_nodes(&core, out, count);
    put(handle, core);
    code
}

/// Writes the node with this key, and 1, if it is kept; 0 and no node if it is not.
///
/// `NOT_OPEN` if the handle has no core: nothing is written then. Takes no memory. Costs one look-up.
#[unsafe(no_mangle)]
pub extern "C" fn sysmem_node_of(
    alloc: Global,
    handle: &mut CoreHandle,
    key: &KeyWords,
    kept: &mut u32,
    out: &mut NodeWords,
) -> u32
    ensures same { handle.new.place.core ≡ handle.old.place.core }
    ensures codes { (result ≡ 0) ⊎ (result ≡ 1) }
    ensures not_open { (result ≡ 1) ↔ (handle.old.place.core ≡ None) }
    ensures done { result ≡ 0 → IsSomeAnd handle.old.place.core (λ core.
        let found = node_at core.forest (key_from_words key.now) in
        (kept.new ≡ (if is_some found then 1 else 0))
        × (out.new ≡ option_map_or node_words found out.old)) }
    ensures failed { result ≢ 0 → (kept.new ≡ kept.old) × (out.new ≡ out.old) }
{
    let Some(core) = take(alloc, handle) else {
        return NOT_OPEN;
    };
    let found = core.node(node_key(key));
    put(handle, core);
    match found {
        Some(node) => {
            *out = NodeWords::encode(node);
            *kept = 1;
        }
        None => *kept = 0,
    }
    DONE
}

/// Writes the buffers of the collection that hold pages, by index, as many as `out` has room for, and the
/// number of all, at most 64: none if the collection is not allocated, or not kept.
///
/// `NOT_OPEN` if the handle has no core: nothing is written then. Takes no memory. Costs
/// O(log collections), and what it writes.
#[unsafe(no_mangle)]
pub extern "C" fn sysmem_held_of(
    alloc: Global,
    handle: &mut CoreHandle,
    collection: u64,
    out: &mut [HeldWords],
    count: &mut u64,
) -> u32
    ensures same { handle.new.place.core ≡ handle.old.place.core }
    ensures codes { (result ≡ 0) ⊎ (result ≡ 1) }
    ensures not_open { (result ≡ 1) ↔ (handle.old.place.core ≡ None) }
    ensures done { result ≡ 0 → IsSomeAnd handle.old.place.core (λ core.
        (out.new ≡ written_over (map held_words (held_in core collection)) out.old)
        × (count.new ≡ length (held_in core collection))) }
    ensures failed { result ≢ 0 → (out.new ≡ out.old) × (count.new ≡ count.old) }
{
    let Some(core) = take(alloc, handle) else {
        return NOT_OPEN;
    };
    let held = core.held_of(collection);
    *count = held.len() as u64;
    write_array(out, held);
    put(handle, core);
    DONE
}

/// Writes how many buffers the collection has, and how many bytes each has: 0 and 0 if the collection is
/// not allocated, or not kept.
///
/// `NOT_OPEN` if the handle has no core: nothing is written then. Costs O(log collections).
#[unsafe(no_mangle)]
pub extern "C" fn sysmem_given(
    alloc: Global,
    handle: &mut CoreHandle,
    collection: u64,
    count: &mut u32,
    size: &mut u32,
) -> u32
    ensures same { handle.new.place.core ≡ handle.old.place.core }
    ensures codes { (result ≡ 0) ⊎ (result ≡ 1) }
    ensures not_open { (result ≡ 1) ↔ (handle.old.place.core ≡ None) }
    ensures done { result ≡ 0 → IsSomeAnd handle.old.place.core (λ core.
        (count.new ≡ option_map_or (λ (b : Buffers). b.count) (buffers_in core collection) 0)
        × (size.new ≡ option_map_or (λ (b : Buffers). b.size) (buffers_in core collection) 0)) }
    ensures failed { result ≢ 0 → (count.new ≡ count.old) × (size.new ≡ size.old) }
{
    let Some(core) = take(alloc, handle) else {
        return NOT_OPEN;
    };
    let given = core.given(collection);
    put(handle, core);
    match given {
        Some(buffers) => {
            *count = buffers.count;
            *size = buffers.size;
        }
        None => {
            *count = 0;
            *size = 0;
        }
    }
    DONE
}

/// Writes how many handles of this buffer and strength the client has open. Handles in parcels belong to
/// nobody.
///
/// `NOT_OPEN` if the handle has no core, `BAD_CALL` if the number is no strength: nothing is written then.
/// Costs one look-up.
#[unsafe(no_mangle)]
pub extern "C" fn sysmem_open_handles(
    alloc: Global,
    handle: &mut CoreHandle,
    client: u64,
    collection: u64,
    index: u8,
    strength: u32,
    count: &mut u32,
) -> u32
    ensures same { handle.new.place.core ≡ handle.old.place.core }
    ensures codes { (result ≡ 0) ⊎ ((result ≡ 1) ⊎ (result ≡ 4)) }
    ensures not_open { (result ≡ 1) ↔ (handle.old.place.core ≡ None) }
    ensures done { result ≡ 0 → IsSomeAnd handle.old.place.core (λ core.
        IsSomeAnd (said_strength strength)
        (λ s. count.new ≡ of core.holds client (buffer_at collection index) s)) }
    ensures bad { result ≡ 4 → said_strength strength ≡ None }
    ensures failed { result ≢ 0 → count.new ≡ count.old }
{
    let Some(core) = take(alloc, handle) else {
        return NOT_OPEN;
    };
    let found = open_handles(&core, client, BufferName { collection, index }, strength);
    put(handle, core);
    write_count(found, count)
}

// How many of these handles the client has open, if the number is a strength.
fn open_handles(core: &Core, client: u64, buffer: BufferName, strength: u32) -> Option<u32>
    ensures { result ≡ option_map (of core.now.holds client buffer) (said_strength strength) }
{
    Some(core.open_handles(client, buffer, strength_of(strength)?))
}

// Writes the count, if there is one.
fn write_count(found: Option<u32>, count: &mut u32) -> u32
    ensures done { result ≡ 0 → IsSomeAnd found (λ n. count.new ≡ n) }
    ensures bad { result ≡ 4 → found ≡ None }
    ensures codes { (result ≡ 0) ⊎ (result ≡ 4) }
    ensures failed { result ≢ 0 → count.new ≡ count.old }
{
    match found {
        Some(number) => {
            *count = number;
            DONE
        }
        None => BAD_CALL,
    }
}

/// Writes how many handles of this buffer and strength are in parcels.
///
/// `NOT_OPEN` if the handle has no core, `BAD_CALL` if the number is no strength: nothing is written then.
/// Costs one look-up.
#[unsafe(no_mangle)]
pub extern "C" fn sysmem_handles_in_parcels(
    alloc: Global,
    handle: &mut CoreHandle,
    collection: u64,
    index: u8,
    strength: u32,
    count: &mut u32,
) -> u32
    ensures same { handle.new.place.core ≡ handle.old.place.core }
    ensures codes { (result ≡ 0) ⊎ ((result ≡ 1) ⊎ (result ≡ 4)) }
    ensures not_open { (result ≡ 1) ↔ (handle.old.place.core ≡ None) }
    ensures done { result ≡ 0 → IsSomeAnd handle.old.place.core (λ core.
        IsSomeAnd (said_strength strength)
        (λ s. count.new ≡ moving_count core.holds (buffer_at collection index) s)) }
    ensures bad { result ≡ 4 → said_strength strength ≡ None }
    ensures failed { result ≢ 0 → count.new ≡ count.old }
{
    let Some(core) = take(alloc, handle) else {
        return NOT_OPEN;
    };
    let found = handles_in_parcels(&core, BufferName { collection, index }, strength);
    put(handle, core);
    write_count(found, count)
}

// How many of these handles are in parcels, if the number is a strength.
fn handles_in_parcels(core: &Core, buffer: BufferName, strength: u32) -> Option<u32>
    ensures { result ≡ option_map (moving_count core.now.holds buffer) (said_strength strength) }
{
    Some(core.handles_in_parcels(buffer, strength_of(strength)?))
}
