//! Whether clients have the same parcels under new names.
ghost use Rattle.std.specs.Prelude.{◌≡◌, ℕ, true, map, IfOk, Ok};
ghost use Rattle.sm_names.specs.Ends.{parcels};
ghost use Rattle.sm_names.specs.Timelines.{timeline};
ghost use Rattle.core_state.specs.Shown.{Shows, client_after};
ghost use Rattle.alike_cores.specs.Alike.{client_renamed, parcel_renamed};
ghost use Rattle.core_likeness.specs.Naming.{new_id, new_key};

use crate::names::Names;
use crate::readings::clients::{waiting_for, was_shut};
use crate::sameness::{is_new_key, is_strength};
use lifetime_core::Core;
use sm_names::{BufferName, Call, ClientId, NoMemory, Parcel, Reply, Strength};
use std::alloc::Global;

// Whether the other handle is the one on the buffer of the collection under its new number.
fn is_new_handle(one: (BufferName, Strength), other: (BufferName, Strength), names: &Names) -> bool
    ensures { result ≡ true → Parcel.Handle other.0 other.1
        ≡ parcel_renamed (new_key names.now) (new_id names.now) (Parcel.Handle one.0 one.1) }
{
    names.id(one.0.collection) == other.0.collection
        && one.0.index == other.0.index
        && is_strength(one.1, other.1)
}

// Whether the other parcel is the one under new names.
fn is_new_parcel(one: Parcel, other: Parcel, names: &Names) -> bool
    ensures { result ≡ true → other ≡ parcel_renamed (new_key names.now) (new_id names.now) one }
{
    match one {
        Parcel::End(key) => match other {
            Parcel::End(new) => is_new_key(key, new, names),
            Parcel::Handle(..) => false,
        },
        Parcel::Handle(buffer, strength) => match other {
            Parcel::Handle(new, held) => is_new_handle((buffer, strength), (new, held), names),
            Parcel::End(_) => false,
        },
    }
}

// Whether the other parcels are the ones, in their order.
fn are_new_parcels(one: &[Parcel], other: &[Parcel], names: &Names) -> bool
    ensures { result ≡ true →
        other.now ≡ map (parcel_renamed (new_key names.now) (new_id names.now)) one.now }
{
    if one.len() != other.len() {
        return false;
    }
    for at in 0..one.len() {
        if !is_new_parcel(one[at], other[at], names) {
            return false;
        }
    }
    true
}

// The parcels that wait for the client.
fn waiting(
    alloc: Global,
    entries: &[(ClientId, Call, Reply)],
    client: ClientId,
) -> Result<Vec<Parcel>, NoMemory>
    ensures { IfOk result (λ waiting. (pool : ℕ) →
        waiting.items ≡ parcels (timeline pool entries.now) client) }
{
    match waiting_for(alloc, entries, client) {
        Ok(waiting) => Ok(waiting),
        Err(_) => Err(NoMemory),
    }
}

// Whether the client stands behind the second entries as behind the first, under new names.
fn is_new_client(
    alloc: Global,
    first: &[(ClientId, Call, Reply)],
    second: &[(ClientId, Call, Reply)],
    names: &Names,
    client: ClientId,
) -> Result<bool, NoMemory>
    ensures { result ≡ Ok true → (pool size : ℕ) → client_after (timeline size second.now) client
        ≡ client_renamed (new_key names.now) (new_id names.now)
        (client_after (timeline pool first.now) client) }
{
    let shut = was_shut(first, client);
    let closed = was_shut(second, client);
    if shut != closed {
        return Ok(false);
    }
    let one = waiting(alloc, first, client)?;
    let other = waiting(alloc, second, client)?;
    let is_new = are_new_parcels(&one, &other, names);
    Ok(is_new)
}

// Whether each of these clients does.
fn are_new_clients(
    alloc: Global,
    first: &[(ClientId, Call, Reply)],
    second: &[(ClientId, Call, Reply)],
    names: &Names,
    clients: &[ClientId],
) -> Result<bool, NoMemory>
    ensures { result ≡ Ok true → (pool size : ℕ) →
        map (client_after (timeline size second.now)) clients.now
        ≡ map (λ client. client_renamed (new_key names.now) (new_id names.now)
        (client_after (timeline pool first.now) client)) clients.now }
{
    for client in clients {
        if !is_new_client(alloc, first, second, names, *client)? {
            return Ok(false);
        }
    }
    Ok(true)
}

// Whether the numbers are the same, in their order.
fn are_same(one: &[ClientId], other: &[ClientId]) -> bool
    ensures { result ≡ true → other.now ≡ one.now }
{
    if one.len() != other.len() {
        return false;
    }
    for at in 0..one.len() {
        if one[at] != other[at] {
            return false;
        }
    }
    true
}

// Whether the clients of the other core are those of the one.
pub(crate) fn clients_are_alike(
    alloc: Global,
    one: &Core,
    first: &[(ClientId, Call, Reply)],
    other: &Core,
    second: &[(ClientId, Call, Reply)],
    names: &Names,
) -> Result<bool, NoMemory>
    requires one { Shows one.now first.now }
    requires other { Shows other.now second.now }
    ensures { result ≡ Ok true → other.now.clients
        ≡ map (client_renamed (new_key names.now) (new_id names.now)) one.now.clients }
{
    let clients = one.clients()?;
    let others = other.clients()?;
    if !are_same(&clients, &others) {
        return Ok(false);
    }
    let are_new = are_new_clients(alloc, first, second, names, &clients)?;
    Ok(are_new)
}
