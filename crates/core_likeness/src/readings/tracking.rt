//! The trackers that the entries attached.
ghost use Rattle.std.specs.Prelude.{◌≡◌, ◌==◌, ℕ, IfOk, None, Some, map, not, option_map, reverse, if◌then◌else◌};
ghost use Rattle.std.specs.List.{filter, list_any};
ghost use Rattle.sm_names.specs.declared.tracking.Fired.{Fired as Firing};
ghost use Rattle.sm_names.specs.Bounds.{Bound};
ghost use Rattle.sm_names.specs.Legality.{IsLegal};
ghost use Rattle.sm_names.specs.Timelines.{timeline};
ghost use Rattle.sm_names.specs.Trackers.{Tracked, collection_of_node, fired as fired_after, tracked, tracked_at};
ghost use Rattle.event_laws.specs.ByEvent.{entry_mark};
ghost use Rattle.event_laws.specs.Waiting.{unfired_trackers};
ghost use Rattle.core_likeness.specs.Told.{born_by, tracked_of};

use sm_names::{Call, ClientId, CollectionId, Condition, Fired, NodeKey, Reply, TrackerId};
use std::alloc::{AllocError, Global};

/// A tracker that was attached, and what it waits for.
#[derive(Clone, Copy)]
pub struct Attached {
    pub id: TrackerId,
    pub condition: Condition,
}

// The collection of the node, if the entry made that.
fn born_in(key: NodeKey, entry: (ClientId, Call, Reply)) -> Option<CollectionId>
    ensures { result ≡ born_by key entry.1 entry.2 }
{
    let (_, call, reply) = entry;
    match reply {
        Reply::Token {
            key: made,
            collection,
        } => match call {
            Call::OpenRoot | Call::Duplicate(_) | Call::AttachToken(_) => {
                if made == key { Some(collection) } else { None }
            }
            _ => None,
        },
        _ => None,
    }
}

// The collection of the node.
fn collection_of(entries: &[(ClientId, Call, Reply)], key: NodeKey) -> CollectionId
    ensures { (pool : ℕ) → result ≡ collection_of_node (timeline pool entries.now) key }
{
    let mut found = 0;
    for entry in entries {
        found = born_in(key, *entry).unwrap_or(found);
    }
    found
}

// The tracker that the entry, behind these, attached.
fn attached_by(
    before: &[(ClientId, Call, Reply)],
    entry: (ClientId, Call, Reply),
) -> Option<Attached>
    ensures { (pool : ℕ) → option_map tracked_of result
        ≡ tracked_at (timeline pool before.now) (entry_mark entry) }
{
    let (_, call, reply) = entry;
    match reply {
        Reply::Tracker(id) => match call {
            Call::TrackNode(key) => Some(Attached {
                id,
                condition: Condition::Node(key),
            }),
            Call::TrackLifetime(key, most) => Some(Attached {
                id,
                condition: Condition::Lifetime(key, collection_of(before, key), most),
            }),
            Call::TrackWeak(buffer) => Some(Attached {
                id,
                condition: Condition::Weak(buffer),
            }),
            _ => None,
        },
        _ => None,
    }
}

// All trackers, in the order in which they were attached.
fn attached_in(
    alloc: Global,
    entries: &[(ClientId, Call, Reply)],
) -> Result<Vec<Attached>, AllocError>
    ensures { IfOk result (λ all. (pool : ℕ) →
        map tracked_of all.items ≡ reverse (tracked (timeline pool entries.now))) }
{
    let mut all = Vec::new(alloc);
    for at in 0..entries.len() {
        if let Some(tracker) = attached_by(&entries[..at], entries[at]) {
            all.push(tracker)?;
        }
    }
    Ok(all)
}

// Whether the tracker is among those that fired.
fn has_fired(fired: &[Fired], tracker: TrackerId) -> bool
    ensures { result ≡ list_any (λ (f : Firing). f.tracker == tracker) fired.now }
{
    fired.iter().any(|one| one.tracker == tracker)
}

// Those of the trackers that are not among those that fired.
fn unfired_of(all: &Vec<Attached>, fired: &[Fired]) -> Result<Vec<Attached>, AllocError>
    ensures { IfOk result (λ waiting. map tracked_of waiting.items
        ≡ filter (λ (t : Tracked). not (list_any (λ (f : Firing). f.tracker == t.id) fired.now))
        (map tracked_of all.now.items)) }
{
    let mut waiting = Vec::new(*all.allocator());
    for tracker in all {
        if !has_fired(fired, tracker.id) {
            waiting.push(*tracker)?;
        }
    }
    Ok(waiting)
}

/// The trackers that wait, the earliest first, where these fired. Costs O(n (n + f)) for n entries and f
/// firings.
///
/// `AllocError` if the list is refused.
pub fn waiting_in(
    alloc: Global,
    entries: &[(ClientId, Call, Reply)],
    fired: &[Fired],
) -> Result<Vec<Attached>, AllocError>
    ensures { IfOk result (λ waiting. (pool : ℕ) (limits : Bound) →
        IsLegal pool limits entries.now → fired.now ≡ fired_after (timeline pool entries.now) →
        map tracked_of waiting.items ≡ unfired_trackers (timeline pool entries.now)) }
{
    let all = attached_in(alloc, entries)?;
    let waiting = unfired_of(&all, fired)?;
    Ok(waiting)
}
