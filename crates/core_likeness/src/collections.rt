//! Whether collections are others under new names.
ghost use Rattle.std.specs.Prelude.{◌≡◌, ℕ, true, map, option_map, IfOk, Ok};
ghost use Rattle.sm_names.specs.Timelines.{timeline};
ghost use Rattle.core_likeness.specs.Told.{roots};
ghost use Rattle.forest_store.specs.Forest.{collection_at};
ghost use Rattle.forest_store.specs.Snapshots.{collection_of};
ghost use Rattle.core_state.specs.Shown.{Shows};
ghost use Rattle.alike_cores.specs.Renamed.{collection_renamed, held_renamed};
ghost use Rattle.alike_cores.specs.Cores.{undated};
ghost use Rattle.alike_cores.specs.Mixed.{Mixed};
ghost use Rattle.core_likeness.specs.Naming.{new_id, new_key};

use crate::matching::are_mixed;
use crate::names::Names;
use crate::nodes::are_new_nodes;
use crate::readings::roots::roots_in;
use crate::sameness::is_given;
use forest_store::Snapshot;
use lifetime_core::Core;
use sm_names::{Call, ClientId, CollectionId, HeldBuffer, NoMemory, Reply};
use std::alloc::Global;

// Whether the other buffer is the one of the collection under its new number, on the same pages.
fn is_new_held(one: &HeldBuffer, other: &HeldBuffer, names: &Names) -> bool
    ensures { result ≡ true → other.now ≡ held_renamed (new_id names.now) one.now }
{
    names.id(one.buffer.collection) == other.buffer.collection
        && one.buffer.index == other.buffer.index
        && one.pages.start == other.pages.start
        && one.pages.pages == other.pages.pages
}

// Whether the other buffers are the ones, in their order.
fn are_new_held(one: &[HeldBuffer], other: &[HeldBuffer], names: &Names) -> bool
    ensures { result ≡ true → other.now ≡ map (held_renamed (new_id names.now)) one.now }
{
    if one.len() != other.len() {
        return false;
    }
    for at in 0..one.len() {
        if !is_new_held(&one[at], &other[at], names) {
            return false;
        }
    }
    true
}

// Whether the other copy is the one under new names.
fn is_new_copy(one: &Snapshot, other: &Snapshot, names: &Names) -> bool
    ensures { result ≡ true → undated (collection_of other.now)
        ≡ collection_renamed (new_key names.now) (new_id names.now) (collection_of one.now) }
{
    if names.id(one.id) != other.id {
        return false;
    }
    if !is_given(one.buffers, other.buffers) {
        return false;
    }
    if !are_new_nodes(&one.nodes, &other.nodes, names) {
        return false;
    }
    are_new_held(&one.held, &other.held, names)
}

// Whether the other copy is the one under new names, or there is neither.
fn is_new_option(one: &Option<Snapshot>, other: &Option<Snapshot>, names: &Names) -> bool
    ensures { result ≡ true → option_map undated (option_map collection_of other.now)
        ≡ option_map (collection_renamed (new_key names.now) (new_id names.now))
        (option_map collection_of one.now) }
{
    match one {
        Some(copy) => match other {
            Some(new) => is_new_copy(copy, new, names),
            None => false,
        },
        None => other.is_none(),
    }
}

// Whether the other core has under the new number of the collection what the one has under the old.
fn has_new_collection(
    one: &Core,
    other: &Core,
    names: &Names,
    id: CollectionId,
) -> Result<bool, NoMemory>
    ensures { result ≡ Ok true →
        option_map undated (collection_at other.now.forest (new_id names.now id))
        ≡ option_map (collection_renamed (new_key names.now) (new_id names.now))
        (collection_at one.now.forest id) }
{
    let copy = one.collection(id)?;
    let new = other.collection(names.id(id))?;
    let is_new = is_new_option(&copy, &new, names);
    Ok(is_new)
}

// The same of each of these.
fn have_new_collections(
    one: &Core,
    other: &Core,
    names: &Names,
    ids: &[CollectionId],
) -> Result<bool, NoMemory>
    ensures { result ≡ Ok true →
        map (λ id. option_map undated (collection_at other.now.forest (new_id names.now id))) ids.now
        ≡ map (λ id. option_map (collection_renamed (new_key names.now) (new_id names.now))
        (collection_at one.now.forest id)) ids.now }
{
    for id in ids {
        if !has_new_collection(one, other, names, *id)? {
            return Ok(false);
        }
    }
    Ok(true)
}

// The new numbers of the collections.
fn new_ids(
    alloc: Global,
    names: &Names,
    ids: &[CollectionId],
) -> Result<Vec<CollectionId>, NoMemory>
    ensures { IfOk result (λ new. new.items ≡ map (new_id names.now) ids.now) }
{
    let mut new = Vec::new(alloc);
    for id in ids {
        match new.push(names.id(*id)) {
            Ok(()) => {}
            Err(_) => return Err(NoMemory),
        }
    }
    Ok(new)
}

// The collections that were opened.
fn opened(alloc: Global, entries: &[(ClientId, Call, Reply)]) -> Result<Vec<CollectionId>, NoMemory>
    ensures { IfOk result (λ ids. (pool : ℕ) → ids.items ≡ roots (timeline pool entries.now)) }
{
    match roots_in(alloc, entries) {
        Ok(ids) => Ok(ids),
        Err(_) => Err(NoMemory),
    }
}

// Whether the collections of the other core are those of the one.
pub(crate) fn collections_are_alike(
    alloc: Global,
    one: &Core,
    first: &[(ClientId, Call, Reply)],
    other: &Core,
    second: &[(ClientId, Call, Reply)],
    names: &Names,
) -> Result<bool, NoMemory>
    requires one { Shows one.now first.now }
    requires other { Shows other.now second.now }
    ensures { result ≡ Ok true →
        Mixed (map (collection_renamed (new_key names.now) (new_id names.now)) one.now.forest.collections)
        (map undated other.now.forest.collections) }
{
    let ids = opened(alloc, first)?;
    let new = new_ids(alloc, names, &ids)?;
    let others = opened(alloc, second)?;
    if !are_mixed(&new, others) {
        return Ok(false);
    }
    let are_new = have_new_collections(one, other, names, &ids)?;
    Ok(are_new)
}
