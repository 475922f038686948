//! Whether trackers wait for the same under new names, and whether the same ones fired.
ghost use Rattle.std.specs.Prelude.{◌≡◌, ◌<◌, true, length, map, slice_index_or, IfOk, IfSome, Ok};
ghost use Rattle.sm_names.specs.declared.tracking.Fired.{Fired as Firing};
ghost use Rattle.trackers.specs.declared.waiting.Waiting.{Waiting};
ghost use Rattle.core_state.specs.Shown.{Shows, tracked_as};
ghost use Rattle.core_likeness.specs.Told.{tracked_of};
ghost use Rattle.core_likeness.specs.declared.readings.tracking.Attached.{Attached as Tracker};
ghost use Rattle.alike_cores.specs.Cores.{condition_renamed, tracker_renamed};
ghost use Rattle.alike_cores.specs.Mixed.{Mixed};
ghost use Rattle.core_likeness.specs.Naming.{new_id, new_key, new_number};

use crate::matching::are_mixed;
use crate::names::Names;
use crate::readings::tracking::{Attached, waiting_in};
use crate::sameness::is_new_key;
use lifetime_core::Core;
use sm_names::{Call, ClientId, Condition, Fired, NoMemory, Reply, TrackerId};
use std::alloc::Global;

// Whether the other condition is the one under new names.
fn is_new_condition(one: Condition, other: Condition, names: &Names) -> bool
    ensures { result ≡ true → other ≡ condition_renamed (new_key names.now) (new_id names.now) one }
{
    match one {
        Condition::Node(key) => match other {
            Condition::Node(new) => is_new_key(key, new, names),
            _ => false,
        },
        Condition::Lifetime(key, collection, most) => match other {
            Condition::Lifetime(new, id, few) => {
                is_new_key(key, new, names) && names.id(collection) == id && most == few
            }
            _ => false,
        },
        Condition::Weak(buffer) => match other {
            Condition::Weak(new) => {
                names.id(buffer.collection) == new.collection && buffer.index == new.index
            }
            _ => false,
        },
    }
}

// Whether the other tracker is the one under its new number, and waits for the same.
fn is_new_tracker(one: Attached, other: Attached, names: &Names) -> bool
    ensures { result ≡ true → tracked_of other ≡ tracker_renamed (new_key names.now)
        (new_id names.now) (new_number names.now) (tracked_of one) }
{
    names.number(one.id) == other.id && is_new_condition(one.condition, other.condition, names)
}

// The place of the tracker under its new number.
fn place_of(trackers: &[Attached], one: Attached, names: &Names) -> Option<usize>
    ensures { IfSome result (λ at. (at < length trackers.now) × ((d : Tracker) →
        tracked_of (slice_index_or trackers.now at d) ≡ tracker_renamed (new_key names.now)
        (new_id names.now) (new_number names.now) (tracked_of one))) }
{
    for at in 0..trackers.len() {
        if is_new_tracker(one, trackers[at], names) {
            return Some(at);
        }
    }
    None
}

// Whether the others are the ones under new names, in whatever order.
fn are_new_trackers(one: &[Attached], mut other: Vec<Attached>, names: &Names) -> bool
    ensures { result ≡ true → Mixed (map (λ a. tracker_renamed (new_key names.now)
        (new_id names.now) (new_number names.now) (tracked_of a)) one.now)
        (map tracked_of other.items) }
{
    for tracker in one {
        match place_of(&other, *tracker, names) {
            Some(at) => {
                other.remove(at);
            }
            None => return false,
        }
    }
    other.is_empty()
}

// The trackers of the core that wait.
fn waiting(
    alloc: Global,
    core: &Core,
    entries: &[(ClientId, Call, Reply)],
) -> Result<Vec<Attached>, NoMemory>
    requires { Shows core.now entries.now }
    ensures { IfOk result (λ waiting.
        map tracked_of waiting.items ≡ map tracked_as core.now.trackers.unfired) }
{
    match waiting_in(alloc, entries, core.fired()) {
        Ok(waiting) => Ok(waiting),
        Err(_) => Err(NoMemory),
    }
}

// Whether the trackers of the other core that wait are those of the one.
pub(crate) fn unfired_are_alike(
    alloc: Global,
    one: &Core,
    first: &[(ClientId, Call, Reply)],
    other: &Core,
    second: &[(ClientId, Call, Reply)],
    names: &Names,
) -> Result<bool, NoMemory>
    requires one { Shows one.now first.now }
    requires other { Shows other.now second.now }
    ensures { result ≡ Ok true → Mixed (map (λ (w : Waiting). tracker_renamed (new_key names.now)
        (new_id names.now) (new_number names.now) (tracked_as w)) one.now.trackers.unfired)
        (map tracked_as other.now.trackers.unfired) }
{
    let trackers = waiting(alloc, one, first)?;
    let others = waiting(alloc, other, second)?;
    let are_new = are_new_trackers(&trackers, others, names);
    Ok(are_new)
}

// The new numbers of the trackers that fired.
fn new_numbers(alloc: Global, names: &Names, fired: &[Fired]) -> Result<Vec<TrackerId>, NoMemory>
    ensures { IfOk result (λ numbers. numbers.items
        ≡ map (λ (f : Firing). new_number names.now f.tracker) fired.now) }
{
    let mut numbers = Vec::new(alloc);
    for one in fired {
        match numbers.push(names.number(one.tracker)) {
            Ok(()) => {}
            Err(_) => return Err(NoMemory),
        }
    }
    Ok(numbers)
}

// The numbers of the trackers that fired.
fn old_numbers(alloc: Global, fired: &[Fired]) -> Result<Vec<TrackerId>, NoMemory>
    ensures { IfOk result (λ numbers. numbers.items
        ≡ map (λ (f : Firing). f.tracker) fired.now) }
{
    let mut numbers = Vec::new(alloc);
    for one in fired {
        match numbers.push(one.tracker) {
            Ok(()) => {}
            Err(_) => return Err(NoMemory),
        }
    }
    Ok(numbers)
}

// Whether the trackers of the other core that fired are those of the one.
pub(crate) fn fired_are_alike(
    alloc: Global,
    one: &Core,
    other: &Core,
    names: &Names,
) -> Result<bool, NoMemory>
    ensures { result ≡ Ok true →
        Mixed (map (λ (f : Firing). new_number names.now f.tracker) one.now.trackers.fired)
        (map (λ (f : Firing). f.tracker) other.now.trackers.fired) }
{
    let numbers = new_numbers(alloc, names, one.fired())?;
    let others = old_numbers(alloc, other.fired())?;
    let are_same = are_mixed(&numbers, others);
    Ok(are_same)
}
