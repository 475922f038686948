//! Plays that are made again from their turns.
ghost use Rattle.std.specs.Prelude.{◌≡◌, ◌++◌, ◌∷◌, [], map, length, true, IfOk, OnOk};
ghost use Rattle.actor_scripts.specs.declared.step.ActorScript.{ActorScript as Script};
ghost use Rattle.explore_model.specs.declared.found.Turn.{Turn as Made};
ghost use Rattle.explore_model.specs.Plans.{planned, steps_of};
ghost use Rattle.actor_plays.specs.Plays.{AreJoining, IsPlay};
ghost use Rattle.play_search.specs.Searches.{HasNoTurn, HaveNoTurn, IsOnWay, IsPool, IsReplay, IsTold, MayStay, is_made as is_made_turn};

use crate::fault::ExploreFault;
use crate::vanishing::{may_go, must_leave};
use actor_plays::{Play, Turned};
use actor_scripts::ActorScript;
use explore_model::{Plan, Turn, Vanishing, Waiting, plan_of};
use sm_names::Limits;
use std::alloc::{AllocError, Global};

/// On what core plays are made: the pages of its pool, its limits, and the seed of its tables, which changes
/// no reply.
#[derive(Clone, Copy)]
pub struct Setting {
    pub pages: u32,
    pub limits: Limits,
    pub seed: [u8; 16],
}

// What a search works with.
#[derive(Clone, Copy)]
pub(crate) struct Ground<'a> {
    pub(crate) alloc: Global,
    pub(crate) setting: Setting,
    pub(crate) plans: &'a [Plan],
    pub(crate) vanishing: Vanishing<'a>,
    // The number of each plan's first step, where the steps of all plans are numbered one after another.
    pub(crate) bases: &'a [u32],
}

/// The plans of these scripts, as `plan_of` makes each.
///
/// `AllocError` where memory is refused. Costs O(n) for n steps.
pub fn plans_of(
    alloc: Global,
    scripts: &[ActorScript],
    waiting: Waiting,
) -> Result<Vec<Plan>, AllocError>
    ensures { IfOk result (λ plans. map steps_of plans.items
        ≡ map (λ (script : Script). planned waiting script.steps.items) scripts.now) }
{
    let mut plans = Vec::new(alloc);
    for script in scripts {
        plans.push(plan_of(alloc, &script.steps, waiting)?)?;
    }
    Ok(plans)
}

// So many clients join.
fn join_all(play: &mut Play, alloc: Global, count: usize) -> Result<(), ExploreFault>
    requires { AreJoining play.old }
    ensures joining { OnOk result (AreJoining play.new) }
    ensures pages { OnOk result (play.new.core.pool ≡ play.old.core.pool) }
    ensures limits { OnOk result (play.new.core.limits ≡ play.old.core.limits) }
{
    'joining: for _ in 0..count {
        play.join(alloc)?;
    }
    Ok(())
}

// A play in which no client has joined.
fn new_play(alloc: Global, setting: Setting) -> Result<Box<Play>, ExploreFault>
    requires { IsPool setting.pages }
    ensures joining { IfOk result (λ play. AreJoining play.value) }
    ensures pages { IfOk result (λ play. play.value.core.pool ≡ setting.pages) }
    ensures limits { IfOk result (λ play. play.value.core.limits ≡ setting.limits) }
{
    let play = Play::new(alloc, setting.pages, setting.limits, setting.seed)?;
    match Box::new(alloc, play) {
        Ok(play) => Ok(play),
        Err(_) => Err(ExploreFault::NoMemory),
    }
}

// As many clients join as there are plans.
fn join_plans(play: &mut Play, ground: &Ground<'_>) -> Result<(), ExploreFault>
    requires joining { AreJoining play.old }
    requires pages { play.old.core.pool ≡ ground.now.setting.pages }
    requires limits { play.old.core.limits ≡ ground.now.setting.limits }
    ensures way { OnOk result
        (IsOnWay ground.now.plans.now ground.now.vanishing ground.now.setting play.new) }
    ensures turns { OnOk result (play.new.turns.items ≡ []) }
    ensures told { OnOk result (IsTold play.new) }
{
    join_all(play, ground.alloc, ground.plans.len())?;
    if !play.have_joined(ground.plans) {
        return Err(ExploreFault::Unlike);
    }
    Ok(())
}

// A play in which every client has joined, and no turn was made.
fn start(ground: &Ground<'_>) -> Result<Box<Play>, ExploreFault>
    requires { IsPool ground.now.setting.pages }
    ensures way { IfOk result (λ play.
        IsOnWay ground.now.plans.now ground.now.vanishing ground.now.setting play.value) }
    ensures turns { IfOk result (λ play. play.value.turns.items ≡ []) }
    ensures told { IfOk result (λ play. IsTold play.value) }
{
    let mut play = new_play(ground.alloc, ground.setting)?;
    join_plans(&mut play, ground)?;
    Ok(play)
}

// The actor makes the call of its next step.
fn make_step(
    play: &mut Play,
    ground: &Ground<'_>,
    actor: usize,
    tells: bool,
) -> Result<(), ExploreFault>
    requires play { IsPlay ground.now.plans.now play.old }
    requires way { tells ≡ true →
        IsOnWay ground.now.plans.now ground.now.vanishing ground.now.setting play.old }
    ensures play { OnOk result (IsPlay ground.now.plans.now play.new) }
    ensures way { tells ≡ true → OnOk result
        (IsOnWay ground.now.plans.now ground.now.vanishing ground.now.setting play.new) }
    ensures turns { OnOk result
        (play.new.turns.items ≡ play.old.turns.items ++ Made.Step actor ∷ []) }
    ensures told { tells ≡ true → IsTold play.old → OnOk result (IsTold play.new) }
{
    match play.take_turn(ground.alloc, ground.plans, actor, tells)? {
        Turned::Made => Ok(()),
        Turned::Waits => Err(ExploreFault::Unlike),
        Turned::Rests => Err(ExploreFault::Unlike),
    }
}

// The actor leaves, or goes on to leave, by its next call, if it may. Each actor passes what it can before: an actor at
// its end leaves there.
fn make_leave(
    play: &mut Play,
    ground: &Ground<'_>,
    actor: usize,
    tells: bool,
) -> Result<(), ExploreFault>
    requires play { IsPlay ground.now.plans.now play.old }
    requires way { tells ≡ true →
        IsOnWay ground.now.plans.now ground.now.vanishing ground.now.setting play.old }
    ensures play { OnOk result (IsPlay ground.now.plans.now play.new) }
    ensures way { tells ≡ true → OnOk result
        (IsOnWay ground.now.plans.now ground.now.vanishing ground.now.setting play.new) }
    ensures turns { OnOk result
        (play.new.turns.items ≡ play.old.turns.items ++ Made.Leave actor ∷ []) }
    ensures told { tells ≡ true → IsTold play.old → OnOk result (IsTold play.new) }
{
    play.pass_all(ground.plans);
    if !may_go(ground.alloc, ground.vanishing, ground.plans, play, actor)? {
        return Err(ExploreFault::Unlike);
    }
    if play.take_leave(ground.alloc, ground.plans, actor, tells)? {
        Ok(())
    } else {
        Err(ExploreFault::Unlike)
    }
}

// The turn is made.
fn make_turn(
    play: &mut Play,
    ground: &Ground<'_>,
    turn: Turn,
    tells: bool,
) -> Result<(), ExploreFault>
    requires play { IsPlay ground.now.plans.now play.old }
    requires way { tells ≡ true →
        IsOnWay ground.now.plans.now ground.now.vanishing ground.now.setting play.old }
    ensures play { OnOk result (IsPlay ground.now.plans.now play.new) }
    ensures way { tells ≡ true → OnOk result
        (IsOnWay ground.now.plans.now ground.now.vanishing ground.now.setting play.new) }
    ensures turns { OnOk result (play.new.turns.items ≡ play.old.turns.items ++ turn ∷ []) }
    ensures told { tells ≡ true → IsTold play.old → OnOk result (IsTold play.new) }
{
    match turn {
        Turn::Step(actor) => make_step(play, ground, actor, tells),
        Turn::Leave(actor) => make_leave(play, ground, actor, tells),
    }
}

// These turns are made.
fn make_turns(
    play: &mut Play,
    ground: &Ground<'_>,
    turns: &[Turn],
    tells: bool,
) -> Result<(), ExploreFault>
    requires play { IsPlay ground.now.plans.now play.old }
    requires way { tells ≡ true →
        IsOnWay ground.now.plans.now ground.now.vanishing ground.now.setting play.old }
    ensures play { OnOk result (IsPlay ground.now.plans.now play.new) }
    ensures way { tells ≡ true → OnOk result
        (IsOnWay ground.now.plans.now ground.now.vanishing ground.now.setting play.new) }
    ensures turns { OnOk result (play.new.turns.items ≡ play.old.turns.items ++ turns.now) }
    ensures told { tells ≡ true → IsTold play.old → OnOk result (IsTold play.new) }
{
    'turns: for turn in turns {
        make_turn(play, ground, *turn, tells)?;
    }
    Ok(())
}

// These turns are made in a play without a turn, and each actor passes what it can.
fn make_all(
    play: &mut Play,
    ground: &Ground<'_>,
    turns: &[Turn],
    tells: bool,
) -> Result<(), ExploreFault>
    requires way { IsOnWay ground.now.plans.now ground.now.vanishing ground.now.setting play.old }
    requires none { play.old.turns.items ≡ [] }
    requires told { IsTold play.old }
    ensures plays { OnOk result (IsPlay ground.now.plans.now play.new) }
    ensures play { tells ≡ true → OnOk result
        (IsReplay ground.now.plans.now ground.now.vanishing ground.now.setting turns.now play.new) }
    ensures told { tells ≡ true → OnOk result (IsTold play.new) }
{
    make_turns(play, ground, turns, tells)?;
    play.pass_all(ground.plans);
    Ok(())
}

// The play with these turns, in which each actor has passed what it can. If it tells, all nodes that fell
// are noted.
pub(crate) fn made_again(
    ground: &Ground<'_>,
    turns: &[Turn],
    tells: bool,
) -> Result<Box<Play>, ExploreFault>
    requires { IsPool ground.now.setting.pages }
    ensures plays { IfOk result (λ play. IsPlay ground.now.plans.now play.value) }
    ensures play { tells ≡ true → IfOk result (λ play.
        IsReplay ground.now.plans.now ground.now.vanishing ground.now.setting turns.now play.value) }
    ensures told { tells ≡ true → IfOk result (λ play. IsTold play.value) }
{
    let mut play = start(ground)?;
    make_all(&mut play, ground, turns, tells)?;
    Ok(play)
}

// The same, which tells.
pub(crate) fn replay(ground: &Ground<'_>, turns: &[Turn]) -> Result<Box<Play>, ExploreFault>
    requires { IsPool ground.now.setting.pages }
    ensures play { IfOk result (λ play.
        IsReplay ground.now.plans.now ground.now.vanishing ground.now.setting turns.now play.value) }
    ensures told { IfOk result (λ play. IsTold play.value) }
{
    made_again(ground, turns, true)
}

// Whether the actor of this place neither has to go on to leave, nor has to leave since it is at its end.
fn may_stay(ground: &Ground<'_>, play: &Play, actor: usize) -> Result<bool, AllocError>
    ensures { IfOk result (λ yes. yes ≡ true → MayStay
        ground.now.vanishing ground.now.plans.now play.now actor) }
{
    let Some(one) = play.actor(actor) else {
        return Ok(true);
    };
    let at_end = ground.vanishing.at_end;
    if must_leave(ground.alloc, at_end, ground.plans, actor, one)? {
        return Ok(false);
    }
    Ok(true)
}

// Whether a turn made a call.
pub(crate) fn is_made(turned: Turned) -> bool
    ensures { result ≡ is_made_turn turned }
{
    matches!(turned, Turned::Made)
}

// Whether the actor makes no turn in the play with these turns.
fn makes_no_turn(
    ground: &Ground<'_>,
    play: &mut Play,
    _turns: &[Turn],
    actor: usize,
) -> Result<bool, ExploreFault>
    requires { IsReplay ground.now.plans.now ground.now.vanishing ground.now.setting
        _turns.now play.old }
    ensures { IfOk result (λ yes. yes ≡ true →
        HasNoTurn ground.now.plans.now ground.now.vanishing ground.now.setting _turns.now actor) }
{
    let turned = play.take_turn(ground.alloc, ground.plans, actor, true)?;
    if is_made(turned) {
        return Ok(false);
    }
    let stays = may_stay(ground, play, actor)?;
    Ok(stays)
}

// The same after these turns.
fn has_no_turn(ground: &Ground<'_>, turns: &[Turn], actor: usize) -> Result<bool, ExploreFault>
    requires { IsPool ground.now.setting.pages }
    ensures { IfOk result (λ yes. yes ≡ true →
        HasNoTurn ground.now.plans.now ground.now.vanishing ground.now.setting turns.now actor) }
{
    let mut play = replay(ground, turns)?;
    let none = makes_no_turn(ground, &mut play, turns, actor)?;
    Ok(none)
}

// Whether no actor makes a turn after these.
pub(crate) fn have_no_turn(ground: &Ground<'_>, turns: &[Turn]) -> Result<bool, ExploreFault>
    requires { IsPool ground.now.setting.pages }
    ensures { IfOk result (λ yes. yes ≡ true → HaveNoTurn
        ground.now.plans.now ground.now.vanishing ground.now.setting turns.now
        (length ground.now.plans.now)) }
{
    'actors: for actor in 0..ground.plans.len() {
        if !has_no_turn(ground, turns, actor)? {
            return Ok(false);
        }
    }
    Ok(true)
}
