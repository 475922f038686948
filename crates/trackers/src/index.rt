//! The trackers that wait, by collection. They stand by rising id, so that what is due is found in its
//! order, and the last that was attached is the last of its collection.
ghost use Rattle.std.specs.Prelude.{◌≡◌, ℕ, ◌+◌, ◌-◌, ◌<◌, ◌≤◌, ◌==◌, [], ◌∷◌, ◌++◌, true, not, length, take, vec_len, vec_capacity, if◌then◌else◌, OnOk, OnErr};
ghost use Rattle.std.specs.List.{filter};
ghost use Rattle.trackers.specs.WaitIndex.{is_waiter_due, waiters_of};

use crate::waiting::Waiting;
use crate::world::{World, holds_in};
use sm_names::CollectionId;
use std::alloc::{AllocError, Global};
use std::collections::HashMap;

/// A tracker that waits.
#[derive(Clone, Copy)]
pub(crate) struct Waiter {
    pub(crate) tracker: Waiting,
    /// Where it stood among all when it was attached: a search for it begins there.
    pub(crate) hint: u32,
}

/// Under each collection those of its trackers that wait.
pub(crate) type WaitIndex = HashMap<CollectionId, Vec<Waiter>>;

/// Puts the tracker behind those that wait under its collection.
#[inline(always)]
pub(crate) fn insert(index: &mut WaitIndex, alloc: Global, waiter: Waiter) -> Result<(), AllocError>
    ensures ok { OnOk result ((c : ℕ) → waiters_of index.new c
        ≡ (if c == waiter.tracker.collection then waiters_of index.old c ++ waiter ∷ []
        else waiters_of index.old c)) }
    ensures err { OnErr result ((c : ℕ) → waiters_of index.new c ≡ waiters_of index.old c) }
{
    if let Some(list) = index.get_mut(&waiter.tracker.collection) {
        list.push(waiter)?;
        return Ok(());
    }
    let mut list = Vec::new(alloc);
    list.push(waiter)?;
    index.insert(waiter.tracker.collection, list)?;
    Ok(())
}

/// Puts the tracker behind those that are due, if it is.
#[inline(always)]
fn push_due<W: World>(due: &mut Vec<Waiter>, waiter: Waiter, world: &W)
    requires { is_waiter_due (W.seen world.now) waiter ≡ true
        → vec_len due.old < vec_capacity due.old }
    ensures items { due.new.items ≡ due.old.items
        ++ (if is_waiter_due (W.seen world.now) waiter then waiter ∷ [] else []) }
    ensures capacity { vec_capacity due.new ≡ vec_capacity due.old }
{
    if holds_in(waiter.tracker.condition, world) {
        due.push_reserved(waiter);
    }
}

/// Lists those that are due: one test for each.
fn list_due<W: World>(list: &[Waiter], due: &mut Vec<Waiter>, world: &W)
    requires { vec_len due.old + length (filter (is_waiter_due (W.seen world.now)) list.now)
        ≤ vec_capacity due.old }
    ensures due { due.new.items ≡ due.old.items
        ++ filter (is_waiter_due (W.seen world.now)) list.now }
    ensures capacity { vec_capacity due.new ≡ vec_capacity due.old }
{
    for waiter in list {
        push_due(due, *waiter, world);
    }
}

/// Takes those that are due out of the list.
fn drop_due<W: World>(list: &mut Vec<Waiter>, world: &W)
    ensures { list.new.items
        ≡ filter (λ waiter. not (is_waiter_due (W.seen world.now) waiter)) list.old.items }
{
    list.retain(|waiter| !holds_in(waiter.tracker.condition, world));
}

/// Takes those that are due out of the list, into `due`, which is empty and has room.
fn take_due<W: World>(list: &mut Vec<Waiter>, due: &mut Vec<Waiter>, world: &W)
    requires empty { due.old.items ≡ [] }
    requires room { length (filter (is_waiter_due (W.seen world.now)) list.old.items)
        ≤ vec_capacity due.old }
    ensures due { due.new.items ≡ filter (is_waiter_due (W.seen world.now)) list.old.items }
    ensures kept { list.new.items
        ≡ filter (λ waiter. not (is_waiter_due (W.seen world.now) waiter)) list.old.items }
    ensures capacity { vec_capacity due.new ≡ vec_capacity due.old }
{
    list_due(list, due, world);
    if !due.is_empty() {
        drop_due(list, world);
    }
}

/// Takes those that are due out of what waits under the collection, into `due`, which is empty and has
/// room, and the collection where none is left.
pub(crate) fn take_due_of<W: World>(
    index: &mut WaitIndex,
    collection: CollectionId,
    due: &mut Vec<Waiter>,
    world: &W,
)
    requires empty { due.old.items ≡ [] }
    requires room { length (filter (is_waiter_due (W.seen world.now))
        (waiters_of index.old collection)) ≤ vec_capacity due.old }
    ensures due { due.new.items
        ≡ filter (is_waiter_due (W.seen world.now)) (waiters_of index.old collection) }
    ensures kept { (c : ℕ) → waiters_of index.new c ≡ (if c == collection
        then filter (λ waiter. not (is_waiter_due (W.seen world.now) waiter))
        (waiters_of index.old c)
        else waiters_of index.old c) }
    ensures capacity { vec_capacity due.new ≡ vec_capacity due.old }
{
    if let Some(list) = index.get_mut(&collection) {
        take_due(list, due, world);
        if list.is_empty() {
            index.remove(&collection);
        }
    }
}

/// Takes the last out that waits under the collection.
pub(crate) fn remove_last(index: &mut WaitIndex, collection: CollectionId)
    ensures { (c : ℕ) → waiters_of index.new c ≡ (if c == collection
        then take (length (waiters_of index.old c) - 1) (waiters_of index.old c)
        else waiters_of index.old c) }
{
    if let Some(list) = index.get_mut(&collection) {
        let _last = list.pop();
        if list.is_empty() {
            index.remove(&collection);
        }
    }
}
