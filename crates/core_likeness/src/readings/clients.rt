//! What the entries tell of a client.
ghost use Rattle.std.specs.Prelude.{◌≡◌, ◌==◌, ℕ, IfOk, Some, None, drop, if◌then◌else◌};
ghost use Rattle.std.specs.List.{filter_map, list_any};
ghost use Rattle.sm_names.specs.Ends.{collects, given_at, is_shut, parcels, shuts};
ghost use Rattle.sm_names.specs.Marks.{Entry};
ghost use Rattle.sm_names.specs.Timelines.{timeline};
ghost use Rattle.sm_names.specs.Words.{times};
ghost use Rattle.event_laws.specs.ByEvent.{entry_mark};

use sm_names::{Call, ClientId, Parcel, Reply};
use std::alloc::{AllocError, Global};

// Whether the entry shuts the client.
fn is_shut_by(client: ClientId, entry: (ClientId, Call, Reply)) -> bool
    ensures { result ≡ shuts client (entry_mark entry) }
{
    let (caller, call, reply) = entry;
    match call {
        Call::Shut => match reply {
            Reply::Shut(_) => caller == client,
            _ => false,
        },
        _ => false,
    }
}

/// Whether the client was shut. Costs O(n) for n entries.
pub fn was_shut(entries: &[(ClientId, Call, Reply)], client: ClientId) -> bool
    ensures { (pool : ℕ) → result ≡ is_shut (timeline pool entries.now) client }
{
    let shut = is_any_shut(entries, client);
    shut
}

// Whether an entry shuts the client.
fn is_any_shut(entries: &[(ClientId, Call, Reply)], client: ClientId) -> bool
    ensures { result ≡ list_any (λ (e : Entry). shuts client (entry_mark e)) entries.now }
{
    entries.iter().any(|entry| is_shut_by(client, *entry))
}

// The parcel that the entry gives to the client.
fn given_by(client: ClientId, entry: (ClientId, Call, Reply)) -> Option<Parcel>
    ensures { result ≡ given_at client (entry_mark entry) }
{
    let (_, call, reply) = entry;
    match reply {
        Reply::Done => match call {
            Call::Give(key, to) => parcel_for(client, to, Parcel::End(key)),
            Call::GiveHandle(buffer, strength, to) => {
                parcel_for(client, to, Parcel::Handle(buffer, strength))
            }
            _ => None,
        },
        _ => None,
    }
}

// The parcel, if it is for the client.
fn parcel_for(client: ClientId, to: ClientId, parcel: Parcel) -> Option<Parcel>
    ensures { result ≡ (if to == client then Some parcel else None) }
{
    if to == client { Some(parcel) } else { None }
}

// Whether the client collected a parcel by the entry.
fn is_collected_by(client: ClientId, entry: (ClientId, Call, Reply)) -> bool
    ensures { result ≡ collects client (entry_mark entry) }
{
    let (caller, call, reply) = entry;
    match call {
        Call::Collect => match reply {
            Reply::Collected { .. } | Reply::CollectedHandle { .. } => caller == client,
            _ => false,
        },
        _ => false,
    }
}

// The parcels that were given to the client, in order.
fn given_to(
    alloc: Global,
    entries: &[(ClientId, Call, Reply)],
    client: ClientId,
) -> Result<Vec<Parcel>, AllocError>
    ensures { IfOk result (λ given. given.items
        ≡ filter_map (λ (e : Entry). given_at client (entry_mark e)) entries.now) }
{
    let mut given = Vec::new(alloc);
    for entry in entries {
        if let Some(parcel) = given_by(client, *entry) {
            given.push(parcel)?;
        }
    }
    Ok(given)
}

// How many parcels the client collected.
fn count_collected(entries: &[(ClientId, Call, Reply)], client: ClientId) -> usize
    ensures { result ≡ times (λ (e : Entry). collects client (entry_mark e)) entries.now }
{
    let mut count = 0;
    for entry in entries {
        if is_collected_by(client, *entry) {
            count += 1;
        }
    }
    count
}

// The parcels but for the first ones.
fn rest_of(parcels: &[Parcel], count: usize) -> &[Parcel]
    ensures { result.now ≡ drop count parcels.now }
{
    if count <= parcels.len() {
        &parcels[count..]
    } else {
        &[]
    }
}

/// The parcels that wait for the client, in order. Costs O(n) for n entries.
///
/// `AllocError` if the list is refused.
pub fn waiting_for(
    alloc: Global,
    entries: &[(ClientId, Call, Reply)],
    client: ClientId,
) -> Result<Vec<Parcel>, AllocError>
    ensures { IfOk result (λ waiting. (pool : ℕ) →
        waiting.items ≡ parcels (timeline pool entries.now) client) }
{
    let waiting = left_for(alloc, entries, client)?;
    Ok(waiting)
}

// Of the parcels that were given to the client those that it did not collect.
fn left_for(
    alloc: Global,
    entries: &[(ClientId, Call, Reply)],
    client: ClientId,
) -> Result<Vec<Parcel>, AllocError>
    ensures { IfOk result (λ waiting. waiting.items
        ≡ drop (times (λ (e : Entry). collects client (entry_mark e)) entries.now)
        (filter_map (λ (e : Entry). given_at client (entry_mark e)) entries.now)) }
{
    let given = given_to(alloc, entries, client)?;
    let count = count_collected(entries, client);
    Vec::from_slice(alloc, rest_of(&given, count))
}
