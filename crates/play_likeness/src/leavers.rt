//! Whether actors that leave have the same to do under new names.
ghost use Rattle.std.specs.Prelude.{◌≡◌, ◌==◌, [], false, true, drop, map, IfOk, Ok};
ghost use Rattle.actor_plays.specs.Leaves.{all_objects};
ghost use Rattle.alike_plays.specs.Actors.{object_renamed};
ghost use Rattle.core_likeness.specs.Naming.{new_id, new_key};

use crate::objects::are_new_objects;
use actor_plays::VanishProgress;
use actor_scripts::ActorObject;
use core_likeness::Names;
use std::alloc::{AllocError, Global};

// The objects behind the first so many.
fn rest(objects: &[ActorObject], first: usize) -> &[ActorObject]
    ensures { result.now ≡ drop first objects.now }
{
    if first <= objects.len() {
        &objects[first..]
    } else {
        &[]
    }
}

// Whether the other has still to part with the same as the one. Each has these slots.
fn parts_alike(
    alloc: Global,
    one: &VanishProgress,
    slots: &[Option<ActorObject>],
    other: &VanishProgress,
    others: &[Option<ActorObject>],
    names: &Names,
) -> Result<bool, AllocError>
    ensures { result ≡ Ok true →
        drop other.now.parted (all_objects other.now.collected.items others.now)
        ≡ map (object_renamed (new_key names.now) (new_id names.now))
        (drop one.now.parted (all_objects one.now.collected.items slots.now)) }
{
    let all = one.objects(alloc, slots)?;
    let new = other.objects(alloc, others)?;
    let are_new = are_new_objects(rest(&all, one.parted), rest(&new, other.parted), names);
    Ok(are_new)
}

// Whether the other collected the same as the one, each sort in its order.
fn collected_alike(
    alloc: Global,
    one: &VanishProgress,
    other: &VanishProgress,
    names: &Names,
) -> Result<bool, AllocError>
    ensures { result ≡ Ok true → all_objects other.now.collected.items []
        ≡ map (object_renamed (new_key names.now) (new_id names.now))
        (all_objects one.now.collected.items []) }
{
    let all = one.objects(alloc, &[])?;
    let new = other.objects(alloc, &[])?;
    let are_new = are_new_objects(&all, &new, names);
    Ok(are_new)
}

// What lies in these slots: the tokens, the collections, the handles.
fn sorted(alloc: Global, slots: &[Option<ActorObject>]) -> Result<Vec<ActorObject>, AllocError>
    ensures { IfOk result (λ all. all.items ≡ all_objects [] slots.now) }
{
    let none = VanishProgress {
        waiting: 0,
        collected: Vec::new(alloc),
        parted: 0,
    };
    none.objects(alloc, slots)
}

// Whether in the others lies the same as in these slots, each sort in its order.
fn slots_alike(
    alloc: Global,
    slots: &[Option<ActorObject>],
    others: &[Option<ActorObject>],
    names: &Names,
) -> Result<bool, AllocError>
    ensures { result ≡ Ok true → all_objects [] others.now
        ≡ map (object_renamed (new_key names.now) (new_id names.now)) (all_objects [] slots.now) }
{
    let all = sorted(alloc, slots)?;
    let new = sorted(alloc, others)?;
    let are_new = are_new_objects(&all, &new, names);
    Ok(are_new)
}

// Whether the other has the same to do as the one. Each has these slots.
pub(crate) fn goes_alike(
    alloc: Global,
    one: &VanishProgress,
    slots: &[Option<ActorObject>],
    other: &VanishProgress,
    others: &[Option<ActorObject>],
    names: &Names,
) -> Result<bool, AllocError>
    ensures waiting { result ≡ Ok true → other.now.waiting ≡ one.now.waiting }
    ensures rest { result ≡ Ok true → (one.now.waiting == 0) ≡ true →
        drop other.now.parted (all_objects other.now.collected.items others.now)
        ≡ map (object_renamed (new_key names.now) (new_id names.now))
        (drop one.now.parted (all_objects one.now.collected.items slots.now)) }
    ensures parted { result ≡ Ok true → (one.now.waiting == 0) ≡ false →
        other.now.parted ≡ one.now.parted }
    ensures collected { result ≡ Ok true → (one.now.waiting == 0) ≡ false →
        all_objects other.now.collected.items []
        ≡ map (object_renamed (new_key names.now) (new_id names.now))
        (all_objects one.now.collected.items []) }
    ensures slots { result ≡ Ok true → (one.now.waiting == 0) ≡ false →
        all_objects [] others.now
        ≡ map (object_renamed (new_key names.now) (new_id names.now)) (all_objects [] slots.now) }
{
    if one.waiting != other.waiting {
        return Ok(false);
    }
    if one.waiting == 0 {
        return parts_alike(alloc, one, slots, other, others, names);
    }
    if one.parted != other.parted || !collected_alike(alloc, one, other, names)? {
        return Ok(false);
    }
    slots_alike(alloc, slots, others, names)
}
