//! Trackers: those that an event attaches, and those that it fires.
ghost use Rattle.std.specs.Prelude.{◌≡◌, ◌<◌, OnOk, OnErr, IfSome, Some, false, true, is_some, length, option_copied};
ghost use Rattle.std.specs.List.{All};
ghost use Rattle.trackers.specs.declared.waiting.Waiting.{Waiting};
ghost use Rattle.trackers.specs.Table.{Cell, TrackerTable, is_due};
ghost use Rattle.core_state.specs.Reads.{node_named, world_in};
ghost use Rattle.core_state.specs.Steps.{GainsTracker, swept, tracker_by};
ghost use Rattle.core_state.specs.Tasks.{looked_in};
ghost use Rattle.buffer_holds.specs.Counts.{total};

use crate::machine::Core;
use crate::tracker_world::TrackerWorld;
use alloc_event::{Forest, Node};
use buffer_holds::Holds;
use sm_names::{Call, CollectionId, Condition, NoMemory, Reply};
use trackers::{Trackers, Waiting, holds_in};

/// The tracker that a call with this reply attaches, if it attaches one. `node` is the node that the
/// call names.
#[inline(always)]
pub(crate) fn tracking_of(
    core: &Core,
    call: &Call,
    reply: &Reply,
    node: Option<&Node>,
) -> Option<Waiting>
    requires { option_copied node ≡ node_named core.now call.now }
    ensures { result ≡ tracker_by core.now.forest call.now reply.now }
{
    let Reply::Tracker(id) = *reply else {
        return None;
    };
    let (collection, condition) = match *call {
        Call::TrackNode(key) => (node?.collection, Condition::Node(key)),
        Call::TrackLifetime(key, most) => {
            let collection = node?.collection;
            (collection, Condition::Lifetime(key, collection, most))
        }
        Call::TrackWeak(buffer) => (buffer.collection, Condition::Weak(buffer)),
        _ => {
            return None;
        }
    };
    Some(Waiting {
        id,
        collection,
        condition,
    })
}

/// Attaches the tracker, if there is one. The limit allows it.
///
/// `NoMemory` if memory is refused; then the trackers are as they were.
#[inline(always)]
pub(crate) fn attach(trackers: &mut Trackers, tracking: Option<Waiting>) -> Result<(), NoMemory>
    requires rising { IfSome tracking (λ t. All (λ (c : Cell). c.id < t.id) trackers.old.cells) }
    requires room { IfSome tracking (λ t. length trackers.old.unfired < trackers.old.limit) }
    ensures ok { OnOk result (GainsTracker trackers.old tracking trackers.new) }
    ensures err { OnErr result (trackers.new ≡ trackers.old) }
    ensures why { OnErr result (is_some tracking ≡ true) }
{
    let Some(tracker) = tracking else {
        return Ok(());
    };
    match trackers.attach(tracker) {
        Ok(()) => Ok(()),
        Err(_) => Err(NoMemory),
    }
}

/// Undoes the attachment of this tracker, if there is one. Takes no memory.
#[inline(always)]
pub(crate) fn detach(trackers: &mut Trackers, tracking: &Option<Waiting>)
    requires { (before : TrackerTable) × GainsTracker before tracking.now trackers.old }
    ensures { (before : TrackerTable) →
        GainsTracker before tracking.now trackers.old → trackers.new ≡ before }
{
    if let Some(tracker) = tracking {
        trackers.detach(tracker.collection);
    }
}

/// The collection in which trackers may be due: the changed one; if none was changed, that of the new
/// tracker, if the tracker is due at once. Costs at most one test.
#[inline(always)]
pub(crate) fn place_to_sweep(
    changed: Option<CollectionId>,
    tracking: Option<Waiting>,
    forest: &Forest,
    holds: &Holds,
) -> Option<CollectionId>
    ensures { result
        ≡ looked_in (world_in forest.now (total holds.now)) changed tracking }
{
    if changed.is_some() {
        return changed;
    }
    let tracker = tracking?;
    if holds_in(tracker.condition, &TrackerWorld { forest, holds }) {
        Some(tracker.collection)
    } else {
        None
    }
}

/// Fires the trackers that are due at this event. All of them concern this collection; if there is no
/// collection, no tracker is due. Takes no memory. Costs what `Trackers::sweep` costs for one collection,
/// and O(1) if no tracker waits at all.
#[inline(always)]
pub(crate) fn sweep(
    trackers: &mut Trackers,
    event: u64,
    collection: Option<CollectionId>,
    forest: &Forest,
    holds: &Holds,
)
    requires elsewhere { All (λ (t : Waiting). (collection ≡ Some t.collection → ⊥) →
        is_due (world_in forest.now (total holds.now)) t ≡ false) trackers.old.unfired }
    ensures { trackers.new
        ≡ swept (world_in forest.now (total holds.now)) event trackers.old }
{
    if trackers.waiting() == 0 {
        return;
    }
    if let Some(id) = collection {
        trackers.sweep(event, id, &TrackerWorld { forest, holds });
    }
}
