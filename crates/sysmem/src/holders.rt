//! A view of who has handles on a buffer.
ghost use Rattle.std.specs.Prelude.{[], ◌≡◌, ◌≢◌, ◌↔◌, ◌⊎◌, ◌∷◌, ◌++◌, None, IfOk, IsSomeAnd, OnOk, length, map};
ghost use Rattle.std.specs.List.{filter};
ghost use Rattle.sysmem.specs.Arrays.{written_over};
ghost use Rattle.sysmem.specs.Holders.{has_handles, holders_in, moving_words, open_words};
ghost use Rattle.sysmem.specs.Nodes.{buffer_at};

use crate::arrays::write_array;
use crate::codes::{DONE, NO_MEMORY, NOT_OPEN};
use crate::encode::Encode;
use crate::handle::{CoreHandle, put, take};
use lifetime_core::Core;
use sm_names::{BufferName, ClientId, Strength};
use std::alloc::{AllocError, Global};

/// How many handles on a buffer a client has open, or how many are in parcels, as those of client 0.
#[repr(C)]
#[derive(Clone, Copy)]
pub struct HolderWords {
    pub client: u64,
    pub strong: u32,
    pub weak: u32,
}

impl Encode<HolderWords> for HolderWords {
    ghost encoded = { λ words. words };

    fn encode(words: HolderWords) -> HolderWords {
        words
    }
}

// How many handles on the buffer are in parcels, as those of client 0, which never joins.
fn moving(core: &Core, buffer: BufferName) -> HolderWords
    ensures { result ≡ moving_words core.now.holds buffer }
{
    HolderWords {
        client: 0,
        strong: core.handles_in_parcels(buffer, Strength::Strong),
        weak: core.handles_in_parcels(buffer, Strength::Weak),
    }
}

// How many handles on the buffer the client has open.
fn open(core: &Core, buffer: BufferName, client: ClientId) -> HolderWords
    ensures { result ≡ open_words core.now.holds buffer client }
{
    HolderWords {
        client,
        strong: core.open_handles(client, buffer, Strength::Strong),
        weak: core.open_handles(client, buffer, Strength::Weak),
    }
}

// The holder goes behind the others, if it has handles.
fn add(holders: &mut Vec<HolderWords>, holder: HolderWords) -> Result<(), AllocError>
    ensures { OnOk result (holders.new.items
        ≡ holders.old.items ++ filter has_handles (holder ∷ [])) }
{
    if holder.strong > 0 || holder.weak > 0 {
        holders.push(holder)?;
    }
    Ok(())
}

// The handles in parcels and those of these clients, in their order, where there are some.
fn holders_of(
    core: &Core,
    clients: &Vec<ClientId>,
    buffer: BufferName,
) -> Result<Vec<HolderWords>, AllocError>
    ensures { IfOk result (λ holders. holders.items
        ≡ filter has_handles (moving_words core.now.holds buffer
        ∷ map (open_words core.now.holds buffer) clients.now.items)) }
{
    let mut holders = Vec::new(*clients.allocator());
    add(&mut holders, moving(core, buffer))?;
    for client in clients {
        add(&mut holders, open(core, buffer, *client))?;
    }
    Ok(holders)
}

fn put_holders(core: &Core, buffer: BufferName, out: &mut [HolderWords], count: &mut u64) -> u32
    ensures codes { (result ≡ 0) ⊎ (result ≡ 6) }
    ensures done { result ≡ 0 → out.new ≡ written_over (holders_in core.now buffer) out.old }
    ensures count { result ≡ 0 → count.new ≡ length (holders_in core.now buffer) }
    ensures failed { result ≢ 0 → (out.new ≡ out.old) × (count.new ≡ count.old) }
{
    let Ok(clients) = core.clients() else {
        return NO_MEMORY;
    };
    let Ok(holders) = holders_of(core, &clients, buffer) else {
        return NO_MEMORY;
    };
    *count = holders.len() as u64;
    write_array(out, &holders);
    DONE
}

/// Writes who has handles on the buffer, as many as `out` has room for, and the number of all: the
/// parcels, as client 0, and then the clients that have some open, by their numbers. Who has none is left
/// out.
///
/// `NOT_OPEN` if the handle has no core, `NO_MEMORY` if memory is refused: nothing is written then. Costs
/// two look-ups for each client that joined.
#[unsafe(no_mangle)]
pub extern "C" fn sysmem_holders(
    alloc: Global,
    handle: &mut CoreHandle,
    collection: u64,
    index: u8,
    out: &mut [HolderWords],
    count: &mut u64,
) -> u32
    ensures same { handle.new.place.core ≡ handle.old.place.core }
    ensures codes { (result ≡ 0) ⊎ ((result ≡ 1) ⊎ (result ≡ 6)) }
    ensures not_open { (result ≡ 1) ↔ (handle.old.place.core ≡ None) }
    ensures done { result ≡ 0 → IsSomeAnd handle.old.place.core (λ core.
        let holders = holders_in core (buffer_at collection index) in
        (out.new ≡ written_over holders out.old) × (count.new ≡ length holders)) }
    ensures failed { result ≢ 0 → (out.new ≡ out.old) × (count.new ≡ count.old) }
{
    let Some(core) = take(alloc, handle) else {
        return NOT_OPEN;
    };
    let code = put_holders(&core, BufferName { collection, index }, out, count);
    put(handle, core);
    code
}
