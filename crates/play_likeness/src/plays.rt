//! Whether a play is another one under new names, but for what lies behind actors that leave.
ghost use Rattle.std.specs.Prelude.{◌≡◌, true, map, Ok, Some};
ghost use Rattle.core_state.specs.Shown.{Shows};
ghost use Rattle.actor_plays.specs.Moves.{position_of};
ghost use Rattle.actor_plays.specs.Plays.{stage_of};
ghost use Rattle.alike_plays.specs.Actors.{AreAlikeStages};
ghost use Rattle.alike_plays.specs.Ahead.{ahead, ahead_of};
ghost use Rattle.alike_plays.specs.AlikePlays.{AreAlikeAll, AreAlikePlays};
ghost use Rattle.core_likeness.specs.Naming.{new_id, new_key, new_number};

use crate::falls::falls_alike;
use crate::leavers::goes_alike;
use crate::made::made_alike;
use crate::pairs::names_of;
use crate::stages::stays_alike;
use actor_plays::{Actor, Play, VanishProgress};
use core_likeness::{Names, cores_are_alike};
use std::alloc::{AllocError, Global};

// Whether the other, which leaves, has the same ahead as the one, which leaves.
fn leavers_are_alike(
    alloc: Global,
    one: &Actor,
    vanish: &VanishProgress,
    other: &Actor,
    going: &VanishProgress,
    names: &Names,
) -> Result<bool, AllocError>
    ensures { result ≡ Ok true → one.now.vanish ≡ Some vanish.now →
        other.now.vanish ≡ Some going.now → AreAlikeStages (new_key names.now) (new_id names.now)
        (new_number names.now) (ahead_of (stage_of one.now)) (ahead_of (stage_of other.now)) }
{
    if !made_alike(alloc, &one.made, &other.made, names)? {
        return Ok(false);
    }
    goes_alike(
        alloc,
        vanish,
        one.state.objects(),
        going,
        other.state.objects(),
        names,
    )
}

// Whether the other actor has the same ahead as the one.
fn is_alike_ahead(
    alloc: Global,
    one: &Actor,
    other: &Actor,
    names: &Names,
) -> Result<bool, AllocError>
    ensures { result ≡ Ok true → AreAlikeStages (new_key names.now) (new_id names.now)
        (new_number names.now) (ahead_of (stage_of one.now)) (ahead_of (stage_of other.now)) }
{
    match &one.vanish {
        Some(vanish) => match &other.vanish {
            Some(going) => leavers_are_alike(alloc, one, vanish, other, going, names),
            None => Ok(false),
        },
        None => stays_alike(alloc, one, other, names),
    }
}

// Whether each of the other actors has the same ahead as the one of its place.
fn are_alike_ahead(
    alloc: Global,
    one: &[Actor],
    other: &[Actor],
    names: &Names,
) -> Result<bool, AllocError>
    ensures { result ≡ Ok true → AreAlikeAll (new_key names.now) (new_id names.now)
        (new_number names.now) (map ahead_of (map stage_of one.now))
        (map ahead_of (map stage_of other.now)) }
{
    if one.len() != other.len() {
        return Ok(false);
    }
    for at in 0..one.len() {
        if !is_alike_ahead(alloc, &one[at], &other[at], names)? {
            return Ok(false);
        }
    }
    Ok(true)
}

/// Whether the other play is the one under other names, but for what lies behind actors that leave: what such an actor
/// knew, where it was, and with what it parted. The names are those that the replies to the same steps tell. The nodes
/// that the plays noted as fallen are compared too. If the play is not the one, the answer is `false`; it may be `false`
/// too where only other names fit.
///
/// `AllocError` if a list is refused. Costs O(n² k) for n entries and k names that changed.
pub fn plays_are_alike(alloc: Global, one: &Play, other: &Play) -> Result<bool, AllocError>
    requires limits { other.now.core.limits ≡ one.now.core.limits }
    requires one { Shows one.now.core one.now.entries.items }
    requires other { Shows other.now.core other.now.entries.items }
    ensures { result ≡ Ok true → AreAlikePlays (ahead (position_of one.now)) (ahead (position_of other.now)) }
{
    let names = names_of(alloc, one.actors(), other.actors())?;
    if !are_alike_ahead(alloc, one.actors(), other.actors(), &names)? {
        return Ok(false);
    }
    if !falls_alike(&names, one.falls(), other.falls()) {
        return Ok(false);
    }
    match cores_are_alike(
        alloc,
        one.core(),
        one.entries(),
        other.core(),
        other.entries(),
        &names,
    ) {
        Ok(are_alike) => Ok(are_alike),
        Err(_) => Err(AllocError),
    }
}
