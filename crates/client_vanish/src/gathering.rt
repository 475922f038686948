//! What all clients have at the end, compared with the record under the lock.
ghost use Rattle.std.specs.Prelude.{◌≡◌, ◌+◌, ◌<◌, IfOk, IfErr, MatchOption};
ghost use Rattle.std.specs.List.{All, count_by};
ghost use Rattle.service_lock.specs.States.{IsSetUpWith, View};
ghost use Rattle.sm_names.specs.Sameness.{same_strength};
ghost use Rattle.client_vanish.specs.Gatherings.{IsFirstMismatch, IsFound, IsGatherReport, IsSo, Matches, all_present_handles, present_handles, id_of, ids_of, own_of};

use crate::fault::GatherFault;
use crate::wreck::Wreck;
use client_ends::{Client, EndOf, EndedService, Handle, Held, Own, end};
use event_laws::{ClientLine, Parts};
use service_lock::{Service, Setup, State, books, entries};
use sm_names::{ClientId, NoMemory, Strength};
use std::alloc::Global;
use std::sync::Wait;
use std::sync::ledger::Ledger;

/// A part of the service at its end: a client with what it holds, or the wreck of a client that vanished.
pub enum Holding<E: Setup, S: Ledger, W: Ledger> {
    Present(Client<E, S, W>, Held<E, S, W>),
    Wrecked(Wreck<E, S, W>),
}

/// The report of a gathering: the number of events of the record, a line for each client that joined, in
/// order, and the number of open handles of each strength.
#[derive(Drop)]
pub struct Report {
    pub events: u64,
    pub lines: Vec<ClientLine>,
    pub strong: u64,
    pub weak: u64,
}

// Whether the handle is of this strength.
fn is_of<E: Setup, S: Ledger, W: Ledger>(handle: &Handle<E, S, W>, strength: Strength) -> bool
    ensures { result ≡ same_strength strength handle.now.strength }
{
    match (strength, handle.strength()) {
        (Strength::Strong, Strength::Strong) => true,
        (Strength::Weak, Strength::Weak) => true,
        _ => false,
    }
}

// How many handles of this strength there are.
fn count<E: Setup, S: Ledger, W: Ledger>(held: &Held<E, S, W>, strength: Strength) -> u64
    ensures { result
        ≡ count_by (λ h. same_strength strength h.strength) held.now.handles.items }
{
    let handles = held.handles.as_slice();
    handles.iter().filter(|h| is_of(*h, strength)).count() as u64
}

impl<E: Setup, S: Ledger, W: Ledger> Holding<E, S, W> {
    /// The client's id. Costs O(1).
    pub fn id(&self) -> ClientId
        ensures { result ≡ id_of self.now }
    {
        match self {
            Holding::Present(client, _) => client.id(),
            Holding::Wrecked(wreck) => wreck.id(),
        }
    }

    // The client's own list.
    fn own(&self) -> &[Own]
        ensures { result.now ≡ own_of self.now }
    {
        match self {
            Holding::Present(client, _) => client.own(),
            Holding::Wrecked(wreck) => wreck.own(),
        }
    }

    // How many handles of this strength the client has.
    fn handles(&self, strength: Strength) -> u64
        ensures { result ≡ present_handles strength self.now }
    {
        match self {
            Holding::Present(_, held) => count(held, strength),
            Holding::Wrecked(wreck) => count(wreck.refused(), strength),
        }
    }
}

// The ids of all clients.
fn ids<E: Setup, S: Ledger, W: Ledger>(
    alloc: Global,
    parts: &[Holding<E, S, W>],
) -> Result<Vec<ClientId>, NoMemory>
    ensures { IfOk result (λ ids. ids.items ≡ ids_of parts.now) }
{
    let mut ids = Vec::new(alloc);
    let mut rest = parts;
    while let Some((part, others)) = rest.split_first() {
        if ids.push(part.id()).is_err() {
            return Err(NoMemory);
        }
        rest = others;
    }
    Ok(ids)
}

// The total less the handles that the parts have, if these are not more.
fn left_of<E: Setup, S: Ledger, W: Ledger>(
    total: u64,
    parts: &[Holding<E, S, W>],
    strength: Strength,
) -> Option<u64>
    ensures { MatchOption result (total < all_present_handles strength parts.now)
        (λ left. left + all_present_handles strength parts.now ≡ total) }
{
    let mut rest = parts;
    let mut left = total;
    while let Some((part, others)) = rest.split_first() {
        left = left.checked_sub(part.handles(strength))?;
        rest = others;
    }
    Some(left)
}

// The pair found before, or this pair, if its client is the lesser one.
fn earlier(found: Option<(ClientId, u64)>, client: ClientId, event: u64) -> (ClientId, u64)
    ensures { IsFound found client event result }
{
    match found {
        Some((least, at)) if least <= client => (least, at),
        _ => (client, event),
    }
}

// The first event where the own list of the least client whose list is not its part differs from it.
fn first_mismatch<E: Setup, S: Ledger, W: Ledger>(
    view: &Parts<'_>,
    parts: &[Holding<E, S, W>],
) -> Option<u64>
    ensures { MatchOption result (All (Matches view.now) parts.now)
        (λ event. IsFirstMismatch view.now parts.now event) }
{
    let mut rest = parts;
    let mut found: Option<(ClientId, u64)> = None;
    while let Some((part, others)) = rest.split_first() {
        if let Some(event) = view.differ(part.id(), part.own()) {
            found = Some(earlier(found, part.id(), event));
        }
        rest = others;
    }
    match found {
        Some((_, event)) => Some(event),
        None => None,
    }
}

/// Compares the parts with the record under the lock, client by client. Makes no event, merges no shares
/// and changes nothing.
///
/// At Ok the record is a legal history of this many events, `parts` has each client that joined and all open
/// handles, and each own list is that client's part of the record. Otherwise the first of these faults:
/// - `NoMemory`: memory was refused.
/// - `MissingClient`: this client, the first of such, joined and is not in `parts`.
/// - `OpenValues`: of a strength more or fewer handles are open than `parts` has; with the number that
///   `parts` lacks, 0 if it lacks none.
/// - `RecordMismatch`: the own list of some client, of which this is the least, is not its part of the
///   record; with the event of that part at the first place where they differ, or the event of the list,
///   if the part ends there.
///
/// Costs three passes over the record, one over each own list, and one over all handles; memory for two
/// numbers and a bit for each event, a number for each part, and a line for each client.
pub fn compare<E: Setup, S: Ledger, W: Ledger>(
    alloc: Global,
    state: &State<E, S, W>,
    parts: &[Holding<E, S, W>],
) -> Result<Report, GatherFault>
    ensures asked { IsSetUpWith E.pages E.limits state.now.pool state.now.limits }
    ensures gathered { IfOk result (λ r. IsGatherReport state.now parts.now r) }
    ensures so { IfErr result (λ f. IsSo state.now parts.now f) }
{
    let Ok(view) = Parts::new(alloc, entries(state)) else {
        return Err(GatherFault::NoMemory);
    };
    let Ok(ids) = ids(alloc, parts) else {
        return Err(GatherFault::NoMemory);
    };
    let Ok(absent) = view.first_absent(alloc, ids.as_slice()) else {
        return Err(GatherFault::NoMemory);
    };
    let Ok(lines) = view.lines(alloc) else {
        return Err(GatherFault::NoMemory);
    };
    if let Some(client) = absent {
        return Err(GatherFault::MissingClient(client));
    }
    let sums = books(state);
    let strong = left_of(sums.strong, parts, Strength::Strong);
    let weak = left_of(sums.weak, parts, Strength::Weak);
    if strong != Some(0) || weak != Some(0) {
        return Err(GatherFault::OpenValues {
            strong: strong.unwrap_or(0),
            weak: weak.unwrap_or(0),
        });
    }
    match first_mismatch(&view, parts) {
        Some(event) => Err(GatherFault::RecordMismatch(event)),
        None => Ok(Report {
            events: sums.events,
            lines,
            strong: sums.strong,
            weak: sums.weak,
        }),
    }
}

/// Takes the lock, and answers as `compare` does. Returns all parts, whatever the answer. Makes no event.
/// Costs the lock and what `compare` costs.
pub fn gather<E: Setup, S: Ledger, W: Ledger, R: Wait>(
    rt: &R,
    alloc: Global,
    service: &Service<E, S, W>,
    parts: Vec<Holding<E, S, W>>,
) -> (Vec<Holding<E, S, W>>, Result<Report, GatherFault>)
    ensures parts { result.0 ≡ parts }
    ensures gathered { IfOk result.1 (λ r. (s : View) × IsSetUpWith E.pages E.limits s.pool s.limits
        × IsGatherReport s parts.items r) }
    ensures so { IfErr result.1 (λ f. (s : View) × IsSetUpWith E.pages E.limits s.pool s.limits
        × IsSo s parts.items f) }
{
    let guard = service.lock(rt);
    let answer = compare(alloc, guard.state(), parts.as_slice());
    (parts, answer)
}

// Spends ends.
fn spend_ends<K, E: Setup, S: Ledger, W: Ledger>(
    ended: &EndedService<E, S, W>,
    ends: Vec<EndOf<K, E>>,
) {
    let mut ends = ends;
    while let Some(end) = ends.pop() {
        end.spend(ended);
    }
    ends.destroy_empty();
}

// Spends a client and all that it holds.
fn spend<E: Setup, S: Ledger, W: Ledger>(
    ended: &EndedService<E, S, W>,
    client: Client<E, S, W>,
    held: Held<E, S, W>,
) {
    let Held {
        tokens,
        collections,
        handles,
    } = held;
    let mut handles = handles;
    while let Some(handle) = handles.pop() {
        handle.spend(ended);
    }
    handles.destroy_empty();
    spend_ends(ended, tokens);
    spend_ends(ended, collections);
    client.spend(ended);
}

/// Ends the service, and spends all parts without events. Takes no lock and no memory. Costs O(values).
pub fn end_service<E: Setup, S: Ledger, W: Ledger>(
    service: Service<E, S, W>,
    parts: Vec<Holding<E, S, W>>,
) {
    let ended = end(service);
    let mut parts = parts;
    while let Some(part) = parts.pop() {
        match part {
            Holding::Present(client, held) => spend(&ended, client, held),
            Holding::Wrecked(wreck) => {
                let (client, refused) = wreck.into_parts();
                spend(&ended, client, refused);
            }
        }
    }
    parts.destroy_empty();
}
