//! Whether no turn leads out of what a search met.
ghost use Rattle.std.specs.Prelude.{◌≡◌, ◌<◌, ℕ, length, true, IfOk, None};
ghost use Rattle.actor_plays.specs.Moves.{position_of};
ghost use Rattle.actor_plays.specs.Plays.{IsPlay};
ghost use Rattle.play_search.specs.Closing.{AreAllTriedIn, AreClosedIn, AreTriedIn, IsBackIn, IsCallTriedIn, IsLeaveTriedIn, IsRowTriedIn, way_to};
ghost use Rattle.play_search.specs.Searches.{IsPool, IsReplay};

use crate::fault::ExploreFault;
use crate::graph::Graph;
use crate::likeness::are_alike;
use crate::replay::{Ground, is_made, replay};
use crate::turns::code_of;
use crate::vanishing::may_go;
use actor_plays::Play;
use explore_model::{Doubt, Turn};
use std::alloc::{AllocError, Global};

// How much a play of this many calls costs that is made again, in calls, and a look whether it is like another: as many looks
// as there are pairs of calls, of which so many cost as much as a call.
fn cost_of(calls: usize) -> usize {
    let looks = calls.saturating_mul(calls) / 64;
    calls.saturating_add(looks)
}

fn cost_at(costs: &[usize], at: usize) -> usize {
    match costs.get(at) {
        Some(cost) => *cost,
        None => 0,
    }
}

impl Graph {
    // How many turns the way to each value has: one more than the way from which it was met first.
    fn lengths(&self, alloc: Global) -> Result<Vec<usize>, AllocError> {
        let mut lengths = Vec::new(alloc);
        for row in &self.rows {
            let before = cost_at(&lengths, row.parent as usize);
            lengths.push(before.saturating_add(1))?;
        }
        Ok(lengths)
    }

    // What it costs to make each play again that `open_doubt` asks for, and to compare it: one for each value, and two for each
    // turn.
    fn closing_cost(&self, alloc: Global) -> Result<usize, AllocError> {
        let lengths = self.lengths(alloc)?;
        let mut cost: usize = 0;
        for at in 0..self.rows.len() {
            let edges = self.edges_of(at);
            let plays = edges.len().saturating_add(1);
            cost = cost.saturating_add(cost_at(&lengths, at).saturating_mul(plays));
            for edge in edges {
                cost = cost.saturating_add(cost_of(cost_at(&lengths, edge.to as usize)));
            }
        }
        Ok(cost)
    }

    // How many calls the way to the value at this place has.
    pub(crate) fn calls_to(&self, alloc: Global, at: usize) -> Result<usize, AllocError> {
        let turns = self.path_to(alloc, at)?;
        Ok(turns.len())
    }

    // The play of the way to the value at this place.
    pub(crate) fn replay_to(
        &self,
        ground: &Ground<'_>,
        at: usize,
    ) -> Result<Box<Play>, ExploreFault>
        requires { IsPool ground.now.setting.pages }
        ensures { IfOk result (λ play.
            IsReplay ground.now.plans.now ground.now.vanishing ground.now.setting
            (way_to self.now.rows.items at) play.value) }
    {
        let turns = self.path_to(ground.alloc, at)?;
        replay(ground, &turns)
    }

    // The place of the value to which the turn leads from the one at this place.
    fn place_behind(&self, at: usize, turn: Turn) -> Option<usize> {
        let code = code_of(turn);
        for edge in self.edges_of(at) {
            if edge.turn == code {
                return Some(edge.to as usize);
            }
        }
        None
    }

    // Whether a value was met that stands at this place.
    fn is_met(&self, at: usize) -> bool
        ensures { result ≡ true → at < length self.now.rows.items }
    {
        match self.row(at) {
            Some(_) => true,
            None => false,
        }
    }

    // Whether the play, to which the turn led from the value at this place, is like that of the way to the value to which it is
    // said to lead.
    fn leads_back(
        &self,
        ground: &Ground<'_>,
        play: &Play,
        at: usize,
        turn: Turn,
    ) -> Result<bool, ExploreFault>
        requires pages { IsPool ground.now.setting.pages }
        requires plays { IsPlay ground.now.plans.now play.now }
        requires limits { play.now.core.limits ≡ ground.now.setting.limits }
        ensures { IfOk result (λ yes. yes ≡ true →
            IsBackIn ground.now.plans.now ground.now.vanishing ground.now.setting
            self.now.rows.items (position_of play.now)) }
    {
        let Some(to) = self.place_behind(at, turn) else {
            return Ok(false);
        };
        if !self.is_met(to) {
            return Ok(false);
        }
        let other = self.replay_to(ground, to)?;
        let alike = are_alike(ground, play, &other)?;
        Ok(alike)
    }

    // Whether the call of the actor's next step leads from the value at this place, at which the play stands, to one that was
    // met, or has to wait.
    fn is_call_tried(
        &self,
        ground: &Ground<'_>,
        here: &Play,
        at: usize,
        actor: usize,
    ) -> Result<bool, ExploreFault>
        requires pages { IsPool ground.now.setting.pages }
        requires here { IsReplay ground.now.plans.now ground.now.vanishing ground.now.setting
            (way_to self.now.rows.items at) here.now }
        ensures { IfOk result (λ yes. yes ≡ true →
            IsCallTriedIn ground.now.plans.now ground.now.vanishing ground.now.setting
            self.now.rows.items at actor) }
    {
        match here.next_call(ground.plans, actor) {
            Some(_) => {
                let mut play = self.replay_to(ground, at)?;
                let called = self.is_called(ground, &mut play, at, actor)?;
                Ok(called)
            }
            None => Ok(true),
        }
    }

    // The same by the play, which stands there too and makes the call.
    fn is_called(
        &self,
        ground: &Ground<'_>,
        play: &mut Play,
        at: usize,
        actor: usize,
    ) -> Result<bool, ExploreFault>
        requires pages { IsPool ground.now.setting.pages }
        requires here { IsReplay ground.now.plans.now ground.now.vanishing ground.now.setting
            (way_to self.now.rows.items at) play.old }
        ensures { IfOk result (λ yes. yes ≡ true →
            IsCallTriedIn ground.now.plans.now ground.now.vanishing ground.now.setting
            self.now.rows.items at actor) }
    {
        let turned = play.take_turn(ground.alloc, ground.plans, actor, true)?;
        if !is_made(turned) {
            return Ok(true);
        }
        play.pass_all(ground.plans);
        let back = self.leads_back(ground, play, at, Turn::Step(actor))?;
        Ok(back)
    }

    // Whether the call by which the actor leaves, if it may, leads from there to one that was met.
    fn is_leave_tried(
        &self,
        ground: &Ground<'_>,
        here: &Play,
        at: usize,
        actor: usize,
    ) -> Result<bool, ExploreFault>
        requires pages { IsPool ground.now.setting.pages }
        requires here { IsReplay ground.now.plans.now ground.now.vanishing ground.now.setting
            (way_to self.now.rows.items at) here.now }
        ensures { IfOk result (λ yes. yes ≡ true →
            IsLeaveTriedIn ground.now.plans.now ground.now.vanishing ground.now.setting
            self.now.rows.items at actor) }
    {
        if !may_go(ground.alloc, ground.vanishing, ground.plans, here, actor)? {
            return Ok(true);
        }
        let mut play = self.replay_to(ground, at)?;
        let left = self.is_left(ground, &mut play, at, actor)?;
        Ok(left)
    }

    // The same by the play, which stands there too and in which the actor leaves, if it may.
    fn is_left(
        &self,
        ground: &Ground<'_>,
        play: &mut Play,
        at: usize,
        actor: usize,
    ) -> Result<bool, ExploreFault>
        requires pages { IsPool ground.now.setting.pages }
        requires here { IsReplay ground.now.plans.now ground.now.vanishing ground.now.setting
            (way_to self.now.rows.items at) play.old }
        ensures { IfOk result (λ yes. yes ≡ true →
            IsLeaveTriedIn ground.now.plans.now ground.now.vanishing ground.now.setting
            self.now.rows.items at actor) }
    {
        let may = may_go(ground.alloc, ground.vanishing, ground.plans, play, actor)?;
        if !may {
            return Ok(true);
        }
        let left = play.take_leave(ground.alloc, ground.plans, actor, true)?;
        if !left {
            return Ok(true);
        }
        play.pass_all(ground.plans);
        let back = self.leads_back(ground, play, at, Turn::Leave(actor))?;
        Ok(back)
    }

    // The doubt about a call of the actor from the value at this place, at which the play stands: that by which it leaves, or that
    // of its next step.
    fn turn_doubt(
        &self,
        ground: &Ground<'_>,
        here: &Play,
        at: usize,
        actor: usize,
        leaves: bool,
    ) -> Result<Doubt, AllocError> {
        let step = match here.actor(actor) {
            Some(one) => one.at,
            None => 0,
        };
        Ok(Doubt::Turn {
            calls: self.calls_to(ground.alloc, at)?,
            actor,
            at: step,
            leaves,
        })
    }

    // Which of both does not lead back, if one does not.
    fn actor_doubt(
        &self,
        ground: &Ground<'_>,
        here: &Play,
        at: usize,
        actor: usize,
    ) -> Result<Option<Doubt>, ExploreFault>
        requires pages { IsPool ground.now.setting.pages }
        requires here { IsReplay ground.now.plans.now ground.now.vanishing ground.now.setting
            (way_to self.now.rows.items at) here.now }
        ensures { IfOk result (λ doubt. doubt ≡ None →
            AreTriedIn ground.now.plans.now ground.now.vanishing ground.now.setting
            self.now.rows.items at actor) }
    {
        if !self.is_call_tried(ground, here, at, actor)? {
            return Ok(Some(self.turn_doubt(ground, here, at, actor, false)?));
        }
        if !self.is_leave_tried(ground, here, at, actor)? {
            return Ok(Some(self.turn_doubt(ground, here, at, actor, true)?));
        }
        Ok(None)
    }

    // The first turn that leads out of what was met from the value at this place, at which the play stands.
    fn actors_doubt(
        &self,
        ground: &Ground<'_>,
        here: &Play,
        at: usize,
    ) -> Result<Option<Doubt>, ExploreFault>
        requires pages { IsPool ground.now.setting.pages }
        requires here { IsReplay ground.now.plans.now ground.now.vanishing ground.now.setting
            (way_to self.now.rows.items at) here.now }
        ensures { IfOk result (λ doubt. doubt ≡ None →
            AreAllTriedIn ground.now.plans.now ground.now.vanishing ground.now.setting
            self.now.rows.items at (length ground.now.plans.now)) }
    {
        'actors: for actor in 0..ground.plans.len() {
            if let Some(doubt) = self.actor_doubt(ground, here, at, actor)? {
                return Ok(Some(doubt));
            }
        }
        Ok(None)
    }

    // The same by a play that is made again.
    fn row_doubt(&self, ground: &Ground<'_>, at: usize) -> Result<Option<Doubt>, ExploreFault>
        requires { IsPool ground.now.setting.pages }
        ensures { IfOk result (λ doubt. doubt ≡ None →
            IsRowTriedIn ground.now.plans.now ground.now.vanishing ground.now.setting
            self.now.rows.items at) }
    {
        let here = self.replay_to(ground, at)?;
        let doubt = self.actors_doubt(ground, &here, at)?;
        Ok(doubt)
    }

    // The first turn that leads out of what was met, from any value.
    fn rows_doubt(&self, ground: &Ground<'_>) -> Result<Option<Doubt>, ExploreFault>
        requires { IsPool ground.now.setting.pages }
        ensures { IfOk result (λ doubt. doubt ≡ None → (at : ℕ) → at < length self.now.rows.items →
            IsRowTriedIn ground.now.plans.now ground.now.vanishing ground.now.setting
            self.now.rows.items at) }
    {
        'values: for at in 0..self.rows.len() {
            if let Some(doubt) = self.row_doubt(ground, at)? {
                return Ok(Some(doubt));
            }
        }
        Ok(None)
    }

    // Why it is not known that the value without a turn was met and no turn leads out of what was met: it was not, one does, or
    // that is too much work to tell.
    pub(crate) fn open_doubt(&self, ground: &Ground<'_>) -> Result<Option<Doubt>, ExploreFault>
        requires { IsPool ground.now.setting.pages }
        ensures { IfOk result (λ doubt. doubt ≡ None →
            AreClosedIn ground.now.plans.now ground.now.vanishing ground.now.setting
            self.now.rows.items) }
    {
        if !self.is_met(0) {
            return Ok(Some(Doubt::Incomplete));
        }
        if self.is_costly(self.closing_cost(ground.alloc)?) {
            return Ok(Some(Doubt::Costly));
        }
        let doubt = self.rows_doubt(ground)?;
        Ok(doubt)
    }
}
