//! The values to which turns lead.
ghost use Rattle.std.specs.Prelude.{◌≡◌, true, IfOk, IfSome};
ghost use Rattle.actor_plays.specs.Plays.{IsPlay, stages_of};
ghost use Rattle.play_search.specs.Ends.{HasToLeave};

use crate::births::Births;
use crate::falls::{NamedFall, falls_of};
use crate::fault::ExploreFault;
use crate::idle::is_idle;
use crate::replay::Ground;
use crate::value::{ending_of, level_of, value_of};
use crate::vanishing::{may_leave, must_leave, vanished_of};
use actor_plays::{Actor, Play, Turned};
use explore_model::Turn;
use sm_names::StepFault;
use std::alloc::AllocError;

// A value, with the nodes that fell, and how far it is: each turn leads further.
#[derive(Drop)]
pub(crate) struct Met {
    pub(crate) value: Vec<u8>,
    pub(crate) falls: Vec<NamedFall>,
    pub(crate) level: u64,
}

// How many vanished, and who: of as many the first ones have the least number.
pub(crate) type Group = (usize, u64);

// What a play ends in, and who vanished in it.
#[derive(Drop)]
pub(crate) struct Ended {
    pub(crate) text: Vec<u8>,
    pub(crate) group: Group,
}

// The value of the play, before whose last turn these nodes fell.
pub(crate) fn met_in(
    ground: &Ground<'_>,
    before: &[NamedFall],
    play: &Play,
) -> Result<Met, AllocError> {
    let births = Births::of(ground, play)?;
    met_by(ground, before, &births, play)
}

// The same with what was born in it.
fn met_by(
    ground: &Ground<'_>,
    before: &[NamedFall],
    births: &Births,
    play: &Play,
) -> Result<Met, AllocError> {
    let level = level_of(ground.alloc, play.actors())?;
    let falls = falls_of(ground.alloc, before, births, play)?;
    let value = value_of(ground, births, &falls, play)?;
    Ok(Met {
        value,
        falls,
        level,
    })
}

// Whether the turn is made, which is told.
fn makes_turn(play: &mut Play, ground: &Ground<'_>, turn: Turn) -> Result<bool, StepFault>
    requires { IsPlay ground.now.plans.now play.old }
    ensures { IfOk result (λ yes. yes ≡ true → IsPlay ground.now.plans.now play.new) }
{
    match turn {
        Turn::Step(actor) => Ok(matches!(
            play.take_turn(ground.alloc, ground.plans, actor, true)?,
            Turned::Made
        )),
        Turn::Leave(actor) => play.take_leave(ground.alloc, ground.plans, actor, true),
    }
}

// The value to which the turn leads from the play, in which these nodes fell. `None` if it is not made: then the play is of no
// more use.
pub(crate) fn next_in(
    play: &mut Play,
    ground: &Ground<'_>,
    before: &[NamedFall],
    turn: Turn,
) -> Result<Option<Met>, ExploreFault>
    requires { IsPlay ground.now.plans.now play.old }
    ensures { IfOk result (λ met. IfSome met (λ found. IsPlay ground.now.plans.now play.new)) }
{
    if !makes_turn(play, ground, turn)? {
        return Ok(None);
    }
    play.pass_all(ground.plans);
    Ok(Some(met_in(ground, before, play)?))
}

// Whether the actor of this place has a call to make, unless it is one that has to wait.
fn makes_step(ground: &Ground<'_>, play: &Play, place: usize, actor: &Actor) -> bool {
    match play.next_call(ground.plans, place) {
        Some((call, waits)) => !(waits && is_idle(play.core(), actor.client, &call)),
        None => false,
    }
}

// Adds the turns that the actor may make from the play, in which these vanished.
fn push_nexts(
    nexts: &mut Vec<Turn>,
    ground: &Ground<'_>,
    play: &Play,
    actor: usize,
    vanished: &[usize],
) -> Result<(), AllocError> {
    let Some(one) = play.actor(actor) else {
        return Ok(());
    };
    if makes_step(ground, play, actor, one) {
        nexts.push(Turn::Step(actor))?;
    }
    let vanishing = ground.vanishing;
    if may_leave(ground.alloc, vanishing, ground.plans, actor, one, vanished)? {
        nexts.push(Turn::Leave(actor))?;
    }
    Ok(())
}

// The turns that may be made from the play: of each actor first the call of its next step, which may have to wait, then the
// one by which it leaves.
pub(crate) fn nexts_of(ground: &Ground<'_>, play: &Play) -> Result<Vec<Turn>, AllocError> {
    let at_end = ground.vanishing.at_end;
    let vanished = vanished_of(ground.alloc, at_end, ground.plans, play.actors())?;
    let mut nexts = Vec::new(ground.alloc);
    for actor in 0..ground.plans.len() {
        push_nexts(&mut nexts, ground, play, actor, &vanished)?;
    }
    Ok(nexts)
}

// Whether an actor has to leave, or to go on to.
pub(crate) fn is_left_open(ground: &Ground<'_>, play: &Play) -> Result<bool, AllocError>
    ensures { IfOk result (λ yes. yes ≡ true →
        HasToLeave ground.now.vanishing.at_end ground.now.plans.now (stages_of play.now)) }
{
    let actors = play.actors();
    for actor in 0..actors.len() {
        if must_leave(
            ground.alloc,
            ground.vanishing.at_end,
            ground.plans,
            actor,
            &actors[actor],
        )? {
            return Ok(true);
        }
    }
    Ok(false)
}

// The bit of a place: of the first the highest.
fn bit_of(place: usize) -> u64 {
    if place < 64 {
        0x8000_0000_0000_0000u64 >> place
    } else {
        0
    }
}

// These of so many, as a number.
fn group_of(places: &[usize]) -> Group {
    let mut rest = u64::MAX;
    for place in places {
        rest = rest.wrapping_sub(bit_of(*place));
    }
    (places.len(), rest)
}

// What the play ends in, where these nodes fell in it and no actor has a step to make. `None` if an actor has to leave, or
// to go on to.
pub(crate) fn ended_in(
    ground: &Ground<'_>,
    falls: &[NamedFall],
    play: &Play,
) -> Result<Option<Ended>, AllocError> {
    if is_left_open(ground, play)? {
        return Ok(None);
    }
    let at_end = ground.vanishing.at_end;
    let vanished = vanished_of(ground.alloc, at_end, ground.plans, play.actors())?;
    Ok(Some(Ended {
        text: ending_of(ground, falls, play)?,
        group: group_of(&vanished),
    }))
}
