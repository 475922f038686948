//! Whether two plays may stand for one another.
ghost use Rattle.std.specs.Prelude.{◌≡◌, ℕ, map, slice_get, true, IfOk};
ghost use Rattle.std.specs.Option.{option_map};
ghost use Rattle.actor_plays.specs.Moves.{position_of};
ghost use Rattle.actor_plays.specs.Plays.{IsPlay, Stage, stage_of};
ghost use Rattle.actor_plays.specs.Positions.{left_at};
ghost use Rattle.alike_plays.specs.Ahead.{early_in};
ghost use Rattle.play_search.specs.Closing.{AlikeIn};
ghost use Rattle.play_search.specs.Vanishings.{began_early, began_in};

use crate::fault::ExploreFault;
use crate::replay::Ground;
use crate::vanishing::is_done;
use actor_plays::{Actor, Play};
use play_likeness::plays_are_alike;

// Whether the actor of this place began early to leave, if it leaves.
fn began(ground: &Ground<'_>, place: usize, actor: &Actor) -> Option<bool>
    ensures { result ≡ option_map (began_early ground.now.vanishing.at_end ground.now.plans.now place)
        (left_at (stage_of actor.now)) }
{
    match &actor.vanish {
        Some(_) => Some(!(ground.vanishing.at_end && is_done(ground.plans, place, actor.at))),
        None => None,
    }
}

// The same of the actor of a place among these.
fn began_at(ground: &Ground<'_>, actors: &[Actor], place: usize) -> Option<Option<bool>>
    ensures { result ≡ began_in ground.now.vanishing.at_end ground.now.plans.now
        (map stage_of actors.now) place }
{
    match actors.get(place) {
        Some(actor) => Some(began(ground, place, actor)),
        None => None,
    }
}

// Whether both are the same.
fn is_same(one: Option<Option<bool>>, other: Option<Option<bool>>) -> bool
    ensures { result ≡ true → other ≡ one }
{
    match one {
        Some(Some(early)) => match other {
            Some(Some(again)) => early == again,
            _ => false,
        },
        Some(None) => matches!(other, Some(None)),
        None => other.is_none(),
    }
}

// Whether the same actors leave in both plays, and the same ones of them began early.
fn began_alike(ground: &Ground<'_>, one: &[Actor], other: &[Actor]) -> bool
    ensures { result ≡ true → (place : ℕ) →
        early_in (began_early ground.now.vanishing.at_end ground.now.plans.now)
        (map left_at (map stage_of other.now)) place
        ≡ early_in (began_early ground.now.vanishing.at_end ground.now.plans.now)
        (map left_at (map stage_of one.now)) place }
{
    if one.len() != other.len() {
        return false;
    }
    'places: for place in 0..one.len() {
        let before = began_at(ground, one, place);
        let after = began_at(ground, other, place);
        if !is_same(before, after) {
            return false;
        }
    }
    true
}

// Whether the first play may stand for the second.
pub(crate) fn are_alike(ground: &Ground<'_>, one: &Play, other: &Play) -> Result<bool, ExploreFault>
    requires one { IsPlay ground.now.plans.now one.now }
    requires other { IsPlay ground.now.plans.now other.now }
    requires limits { other.now.core.limits ≡ one.now.core.limits }
    ensures { IfOk result (λ yes. yes ≡ true → AlikeIn ground.now.plans.now ground.now.vanishing
        (position_of one.now) (position_of other.now)) }
{
    if !began_alike(ground, one.actors(), other.actors()) {
        return Ok(false);
    }
    let alike = plays_are_alike(ground.alloc, one, other)?;
    Ok(alike)
}
