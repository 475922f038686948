//! Whether labels stand for the same under new names.
ghost use Rattle.std.specs.Prelude.{◌≡◌, ℕ, true, option_map, Ok};
ghost use Rattle.sm_names.specs.Elements.{In};
ghost use Rattle.actor_scripts.specs.Tables.{known};
ghost use Rattle.alike_plays.specs.Actors.{place_renamed};
ghost use Rattle.core_likeness.specs.Naming.{new_id, new_key, new_number};

use actor_scripts::ActorState;
use core_likeness::{Names, is_new_key};
use sm_names::{CollectionId, NodeKey, TrackerId};
use std::alloc::{AllocError, Global};

// Whether the other node is the one under its new name, or there is neither.
fn is_new_place(
    one: Option<(NodeKey, CollectionId)>,
    other: Option<(NodeKey, CollectionId)>,
    names: &Names,
) -> bool
    ensures { result ≡ true →
        other ≡ option_map (place_renamed (new_key names.now) (new_id names.now)) one }
{
    match one {
        Some((key, collection)) => match other {
            Some((new, id)) => is_new_key(key, new, names) && names.id(collection) == id,
            None => false,
        },
        None => other.is_none(),
    }
}

// Whether each of these labels stands for the same node.
fn are_new_places(one: &ActorState, other: &ActorState, names: &Names, labels: &[u32]) -> bool
    ensures { result ≡ true → (label : ℕ) → In label labels.now →
        (known other.now).nodes label
        ≡ option_map (place_renamed (new_key names.now) (new_id names.now))
        ((known one.now).nodes label) }
{
    for label in labels {
        if !is_new_place(one.node(*label), other.node(*label), names) {
            return false;
        }
    }
    true
}

// Whether each label of a node stands for the same.
pub(crate) fn nodes_alike(
    alloc: Global,
    one: &ActorState,
    other: &ActorState,
    names: &Names,
) -> Result<bool, AllocError>
    ensures { result ≡ Ok true → (label : ℕ) → (known other.now).nodes label
        ≡ option_map (place_renamed (new_key names.now) (new_id names.now))
        ((known one.now).nodes label) }
{
    let labels = one.node_labels(alloc)?;
    if !are_new_places(one, other, names, &labels) {
        return Ok(false);
    }
    let others = other.node_labels(alloc)?;
    let are_new = are_new_places(one, other, names, &others);
    Ok(are_new)
}

// Whether the other tracker is the one under its new number, or there is neither.
fn is_new_tracker(one: Option<TrackerId>, other: Option<TrackerId>, names: &Names) -> bool
    ensures { result ≡ true → other ≡ option_map (new_number names.now) one }
{
    match one {
        Some(number) => match other {
            Some(new) => names.number(number) == new,
            None => false,
        },
        None => other.is_none(),
    }
}

// Whether each of these labels stands for the same tracker.
fn are_new_trackers(one: &ActorState, other: &ActorState, names: &Names, labels: &[u32]) -> bool
    ensures { result ≡ true → (label : ℕ) → In label labels.now →
        (known other.now).trackers label
        ≡ option_map (new_number names.now) ((known one.now).trackers label) }
{
    for label in labels {
        if !is_new_tracker(one.tracker(*label), other.tracker(*label), names) {
            return false;
        }
    }
    true
}

// Whether each label of a tracker stands for the same.
pub(crate) fn trackers_alike(
    alloc: Global,
    one: &ActorState,
    other: &ActorState,
    names: &Names,
) -> Result<bool, AllocError>
    ensures { result ≡ Ok true → (label : ℕ) → (known other.now).trackers label
        ≡ option_map (new_number names.now) ((known one.now).trackers label) }
{
    let labels = one.tracker_labels(alloc)?;
    if !are_new_trackers(one, other, names, &labels) {
        return Ok(false);
    }
    let others = other.tracker_labels(alloc)?;
    let are_new = are_new_trackers(one, other, names, &others);
    Ok(are_new)
}
