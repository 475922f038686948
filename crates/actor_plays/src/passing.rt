//! Steps that actors of a play pass: they make no call.
ghost use Rattle.std.specs.Prelude.{ℕ, ◌≡◌, length, slice_get, slice_set, false, true, None, IfSome};
ghost use Rattle.std.specs.Option.{option_and_then, option_map_or};
ghost use Rattle.actor_scripts.specs.ActorStates.{step_call};
ghost use Rattle.actor_scripts.specs.Tables.{known};
ghost use Rattle.explore_model.specs.declared.plan.Plan.{Plan as Planning};
ghost use Rattle.actor_plays.specs.Moves.{HasPassed, HasRest, HavePassed, position_of};
ghost use Rattle.explore_model.specs.Plans.{steps_of};
ghost use Rattle.actor_plays.specs.Plays.{IsPlay, Stage, has_fired as has_fired_among, next_step, passed, polls as polls_for, stages_of};

use crate::play::Play;
use actor_scripts::{ActorState, Step};
use explore_model::{Plan, Planned};
use sm_names::{Fired, TrackerId};

// Whether the tracker is among those that fired.
fn has_fired(fired: &[Fired], tracker: TrackerId) -> bool
    ensures { result ≡ has_fired_among fired.now tracker }
{
    fired.iter().any(|one| one.tracker == tracker)
}

// Whether the step looks at a tracker that has not fired, and waits for it.
fn polls(fired: &[Fired], state: &ActorState, next: Planned) -> bool
    ensures { result ≡ polls_for fired.now (known state.now) next }
{
    if !next.waits {
        return false;
    }
    match next.step {
        Step::Poll { tracker } => match state.tracker(tracker) {
            Some(id) => !has_fired(fired, id),
            None => false,
        },
        Step::Ask { .. } => false,
    }
}

// How many steps the actor's plan has: none, if there is no such plan.
fn steps_in(plans: &[Plan], actor: usize) -> usize
    ensures { result ≡ option_map_or (λ (plan : Planning). length (steps_of plan)) (slice_get plans.now actor) 0 }
{
    match plans.get(actor) {
        Some(plan) => plan.steps.len(),
        None => 0,
    }
}

impl Play {
    // Whether the actor waits for a tracker to fire.
    fn polls(&self, actor: usize, next: Planned) -> bool
        ensures { result ≡ option_map_or
            (λ (stage : Stage). polls_for self.now.core.trackers.fired stage.known next)
            (slice_get (stages_of self.now) actor) false }
    {
        match self.actors.get(actor) {
            Some(one) => polls(self.core.fired(), &one.state, next),
            None => false,
        }
    }

    // Whether the actor can't pass its next step: it makes a call, or waits for a tracker to fire.
    fn stays(&self, actor: usize, next: Planned) -> bool
        ensures none { result ≡ false → option_and_then
            (λ (stage : Stage). step_call self.now.clients.items stage.known next.step)
            (slice_get (stages_of self.now) actor) ≡ None }
        ensures quiet { result ≡ false → option_map_or
            (λ (stage : Stage). polls_for self.now.core.trackers.fired stage.known next)
            (slice_get (stages_of self.now) actor) false ≡ false }
        ensures stays { result ≡ true → option_and_then
            (λ (stage : Stage). step_call self.now.clients.items stage.known next.step)
            (slice_get (stages_of self.now) actor) ≡ None →
            option_map_or
            (λ (stage : Stage). polls_for self.now.core.trackers.fired stage.known next)
            (slice_get (stages_of self.now) actor) false ≡ true }
    {
        match self.asked(actor, next.step) {
            Some(_) => true,
            None => self.polls(actor, next),
        }
    }

    // One more step of the actor's plan is behind it, unless all are.
    fn step_on(&mut self, plans: &[Plan], actor: usize) -> bool
        ensures stages { result ≡ true → IfSome (slice_get (stages_of self.old) actor) (λ stage.
            stages_of self.new ≡ slice_set (stages_of self.old) actor (passed stage)) }
        ensures none { result ≡ false → stages_of self.new ≡ stages_of self.old }
        ensures done { result ≡ false →
            option_and_then (next_step plans.now actor) (slice_get (stages_of self.old) actor) ≡ None }
        ensures rest { self.new ≡ record self.old { actors = self.new.actors } }
    {
        if self.actors.len() <= actor || plans.len() <= actor {
            return false;
        }
        self.actors[actor].pass(&plans[actor])
    }

    // Passes the next step of the actor, if it makes no call and does not wait.
    fn pass_one(&mut self, plans: &[Plan], actor: usize) -> bool
        requires { IsPlay plans.now self.old }
        ensures play { IsPlay plans.now self.new }
        ensures passes { result ≡ true → HasPassed plans.now self.old self.new actor }
        ensures same { result ≡ false → position_of self.new ≡ position_of self.old }
        ensures rests { result ≡ false → HasRest plans.now self.new actor }
        ensures rest { self.new ≡ record self.old { actors = self.new.actors } }
    {
        let Some(next) = self.next(plans, actor) else {
            return false;
        };
        if self.stays(actor, next) {
            return false;
        }
        self.step_on(plans, actor)
    }

    // Passes all that the actor can pass.
    #[tactic(auto, using(crate::proofs::PlayLaws::only_actors))]
    pub(crate) fn pass(&mut self, plans: &[Plan], actor: usize)
        requires { IsPlay plans.now self.old }
        ensures play { IsPlay plans.now self.new }
        ensures passes { HavePassed plans.now self.old self.new }
        ensures rests { HasRest plans.now self.new actor }
        ensures rest { self.new ≡ record self.old { actors = self.new.actors } }
    {
        let most = steps_in(plans, actor);
        'passing: for behind in 0..most {
            if !self.pass_one(plans, actor) {
                return;
            }
        }
    }

    /// Each actor passes the steps that it can pass. It makes no turn. Costs a constant number of look-ups
    /// for each step.
    #[tactic(auto, using(crate::proofs::PlayLaws::only_actors))]
    pub fn pass_all(&mut self, plans: &[Plan])
        requires { IsPlay plans.now self.old }
        ensures play { IsPlay plans.now self.new }
        ensures passes { HavePassed plans.now self.old self.new }
        ensures rests { (actor : ℕ) → HasRest plans.now self.new actor }
        ensures rest { self.new ≡ record self.old { actors = self.new.actors } }
    {
        'actors: for actor in 0..plans.len() {
            self.pass(plans, actor);
        }
    }
}
