//! Whether actors are where others are, under new names.
ghost use Rattle.std.specs.Prelude.{◌≡◌, true, None, Ok};
ghost use Rattle.sm_names.specs.declared.keys.BufferName.{BufferName as Buffer};
ghost use Rattle.sm_names.specs.declared.keys.Strength.{Strength as Hold};
ghost use Rattle.actor_scripts.specs.Tables.{known};
ghost use Rattle.actor_plays.specs.Plays.{stage_of};
ghost use Rattle.alike_cores.specs.Renamed.{buffer_renamed};
ghost use Rattle.alike_plays.specs.Actors.{AreAlikeKnown, AreAlikeStages};
ghost use Rattle.core_likeness.specs.Naming.{new_id, new_key, new_number};

use crate::labels::{nodes_alike, trackers_alike};
use crate::made::made_alike;
use crate::objects::are_new_slots;
use crate::slots::{handles_alike, spots_alike};
use actor_plays::Actor;
use actor_scripts::ActorState;
use core_likeness::Names;
use sm_names::Strength;
use std::alloc::{AllocError, Global};

// Whether the handles of both strengths lie in the same slots.
fn both_alike(
    alloc: Global,
    one: &ActorState,
    other: &ActorState,
    names: &Names,
) -> Result<bool, AllocError>
    ensures { result ≡ Ok true → (strength : Hold) (b : Buffer) →
        (known other.now).handles strength (buffer_renamed (new_id names.now) b)
        ≡ (known one.now).handles strength b }
{
    if !handles_alike(alloc, one, other, names, Strength::Strong)? {
        return Ok(false);
    }
    handles_alike(alloc, one, other, names, Strength::Weak)
}

// Whether the other actor knows what the one does.
fn known_alike(
    alloc: Global,
    one: &ActorState,
    other: &ActorState,
    names: &Names,
) -> Result<bool, AllocError>
    ensures { result ≡ Ok true → AreAlikeKnown (new_key names.now) (new_id names.now)
        (new_number names.now) (known one.now) (known other.now) }
{
    if !are_new_slots(one.objects(), other.objects(), names) {
        return Ok(false);
    }
    if !nodes_alike(alloc, one, other, names)? {
        return Ok(false);
    }
    if !trackers_alike(alloc, one, other, names)? {
        return Ok(false);
    }
    if !spots_alike(alloc, one, other, names)? {
        return Ok(false);
    }
    both_alike(alloc, one, other, names)
}

// Whether neither leaves.
fn neither_leaves(one: &Actor, other: &Actor) -> bool
    ensures one { result ≡ true → one.now.vanish ≡ None }
    ensures other { result ≡ true → other.now.vanish ≡ None }
{
    one.vanish.is_none() && other.vanish.is_none()
}

// Whether the other actor is where the one is, and neither leaves.
pub(crate) fn stays_alike(
    alloc: Global,
    one: &Actor,
    other: &Actor,
    names: &Names,
) -> Result<bool, AllocError>
    ensures { result ≡ Ok true → AreAlikeStages (new_key names.now) (new_id names.now)
        (new_number names.now) (stage_of one.now) (stage_of other.now) }
{
    if !neither_leaves(one, other) {
        return Ok(false);
    }
    if one.at != other.at {
        return Ok(false);
    }
    if !known_alike(alloc, &one.state, &other.state, names)? {
        return Ok(false);
    }
    made_alike(alloc, &one.made, &other.made, names)
}
