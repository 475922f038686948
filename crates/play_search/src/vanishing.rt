//! Which actors may leave, and when.
ghost use Rattle.std.specs.Prelude.{◌≡◌, ◌++◌, false, length, map, slice_get, IfOk, OnOk};
ghost use Rattle.std.specs.List.{list_all};
ghost use Rattle.std.specs.Option.{option_map_or};
ghost use Rattle.actor_plays.specs.Plays.{stage_of, stages_of};
ghost use Rattle.play_search.specs.Vanishings.{early_at, early_place, is_allowed, is_done as done_told, is_early as early_told};
ghost use Rattle.play_search.specs.Vanishings.{may_begin as begin_told, may_go as go_told, may_vanish as may_told, must_leave as must_told, vanished as vanished_told};

use actor_plays::{Actor, Play};
use explore_model::{Plan, Vanishing};
use std::alloc::{AllocError, Global};

// Whether so many steps are all of the plan of this place.
pub(crate) fn is_done(plans: &[Plan], place: usize, at: usize) -> bool
    ensures { result ≡ done_told plans.now place at }
{
    match plans.get(place) {
        Some(plan) => plan.steps.len() <= at,
        None => true,
    }
}

// Whether the actor of this place leaves, and began to before its end.
pub(crate) fn is_early(at_end: bool, plans: &[Plan], place: usize, actor: &Actor) -> bool
    ensures { result ≡ early_told at_end plans.now place (stage_of actor.now) }
{
    actor.vanish.is_some() && !(at_end && is_done(plans, place, actor.at))
}

// The same of the actor of a place among these.
fn is_early_at(at_end: bool, plans: &[Plan], actors: &[Actor], place: usize) -> bool
    ensures { result ≡ early_at at_end plans.now (map stage_of actors.now) place }
{
    match actors.get(place) {
        Some(actor) => is_early(at_end, plans, place, actor),
        None => false,
    }
}

// Whether the actor of this place may leave before its end.
pub(crate) fn may_vanish(who: &[bool], place: usize) -> bool
    ensures { result ≡ may_told who.now place }
{
    match who.get(place) {
        Some(may) => *may,
        None => false,
    }
}

// Adds the place, if it is that of an actor among these that leaves and began to before its end.
fn push_early(
    places: &mut Vec<usize>,
    at_end: bool,
    plans: &[Plan],
    actors: &[Actor],
    place: usize,
) -> Result<(), AllocError>
    ensures { OnOk result (places.new.items ≡ places.old.items
        ++ early_place at_end plans.now (map stage_of actors.now) place) }
{
    if is_early_at(at_end, plans, actors, place) {
        places.push(place)?;
    }
    Ok(())
}

// The places of the actors that leave and began to before their end.
pub(crate) fn vanished_of(
    alloc: Global,
    at_end: bool,
    plans: &[Plan],
    actors: &[Actor],
) -> Result<Vec<usize>, AllocError>
    ensures { IfOk result (λ places. places.items
        ≡ vanished_told at_end plans.now (map stage_of actors.now)) }
{
    let mut places = Vec::new(alloc);
    'actors: for place in 0..actors.len() {
        push_early(&mut places, at_end, plans, actors, place)?;
    }
    Ok(places)
}

// Whether those of these places may all leave before their end.
fn all_may(who: &[bool], places: &[usize]) -> bool
    ensures { result ≡ list_all (may_told who.now) places.now }
{
    places.iter().all(|place| may_vanish(who, *place))
}

// Whether those of these places may all leave before their end, and are not too many.
pub(crate) fn are_allowed(vanishing: Vanishing<'_>, places: &[usize]) -> bool
    ensures { result ≡ is_allowed vanishing.entry places.now }
{
    places.len() <= vanishing.most && all_may(vanishing.who, places)
}

// Whether the actor has a call still to make by which it goes on to leave, or must leave since it is at its end.
pub(crate) fn must_leave(
    alloc: Global,
    at_end: bool,
    plans: &[Plan],
    place: usize,
    actor: &Actor,
) -> Result<bool, AllocError>
    ensures { IfOk result (λ must. must ≡ must_told at_end plans.now place (stage_of actor.now)) }
{
    if actor.vanish.is_some() {
        return Ok(actor.leave_call(alloc)?.is_some());
    }
    Ok(at_end && is_done(plans, place, actor.at))
}

// Whether the actor of this place, which has not begun to leave, may begin where these have left before their end.
fn may_begin(
    vanishing: Vanishing<'_>,
    plans: &[Plan],
    place: usize,
    at: usize,
    vanished: &[usize],
) -> bool
    ensures { result ≡ begin_told vanishing.entry plans.now (length vanished.now) place at }
{
    vanishing.at_end && is_done(plans, place, at)
        || may_vanish(vanishing.who, place) && vanished.len() < vanishing.most
}

// Whether the actor of this place of the play may leave, or go on to.
pub(crate) fn may_go(
    alloc: Global,
    vanishing: Vanishing<'_>,
    plans: &[Plan],
    play: &Play,
    actor: usize,
) -> Result<bool, AllocError>
    ensures { IfOk result (λ may. may
        ≡ option_map_or (go_told vanishing.entry plans.now (stages_of play.now) actor)
        (slice_get (stages_of play.now) actor) false) }
{
    let Some(one) = play.actor(actor) else {
        return Ok(false);
    };
    if one.vanish.is_some() {
        return Ok(true);
    }
    let vanished = vanished_of(alloc, vanishing.at_end, plans, play.actors())?;
    Ok(may_begin(vanishing, plans, actor, one.at, &vanished))
}

// Whether the actor of this place may leave, or go on to, where these have left before their end.
pub(crate) fn may_leave(
    alloc: Global,
    vanishing: Vanishing<'_>,
    plans: &[Plan],
    place: usize,
    actor: &Actor,
    vanished: &[usize],
) -> Result<bool, AllocError> {
    if actor.vanish.is_some() {
        return Ok(actor.leave_call(alloc)?.is_some());
    }
    Ok(may_begin(vanishing, plans, place, actor.at, vanished))
}
