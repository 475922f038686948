//! Whether the plays that a search met end as outcomes say, where they are over.
ghost use Rattle.std.specs.Prelude.{◌≡◌, ℕ, length, true, IfOk, None, Ok};
ghost use Rattle.actor_plays.specs.Moves.{position_of};
ghost use Rattle.actor_plays.specs.Positions.{Rests};
ghost use Rattle.play_search.specs.Closing.{AreClosedIn, way_to};
ghost use Rattle.play_search.specs.Ends.{AreRowsEnded, EndsAsOne, IsOver, IsRowEnded, NoneIsMissing};
ghost use Rattle.play_search.specs.Searches.{IsOnWay, IsPool, IsReplay, setup_of};

use crate::ends::ends_as;
use crate::fault::ExploreFault;
use crate::graph::Graph;
use crate::next::is_left_open;
use crate::replay::{Ground, is_made};
use crate::turns::{actor_of, is_step};
use actor_plays::Play;
use explore_model::{Doubt, Found};
use std::alloc::AllocError;

// The outcomes that were found, and for each ending its place among them.
#[derive(Clone, Copy)]
pub(crate) struct Shown<'a> {
    pub(crate) outcomes: &'a [Found],
    pub(crate) places: &'a [Option<usize>],
}

// Whether the play ends as the outcome of this ending says.
fn ends_as_shown(
    ground: &Ground<'_>,
    play: &Play,
    shown: Shown<'_>,
    ending: u32,
) -> Result<bool, AllocError>
    ensures { result ≡ Ok true → EndsAsOne ground.now.vanishing.at_end ground.now.plans.now
        shown.entry.outcomes.now (position_of play.now) }
{
    let Some(Some(place)) = shown.places.get(ending as usize) else {
        return Ok(false);
    };
    match shown.outcomes.get(*place) {
        Some(found) => ends_as(ground, play, found),
        None => Ok(false),
    }
}

impl Graph {
    // The first actor that makes a step in the value at this place.
    fn mover_at(&self, at: usize) -> Option<usize> {
        for edge in self.edges_of(at) {
            if is_step(edge.turn) {
                return Some(actor_of(edge.turn));
            }
        }
        None
    }

    // Whether an actor has another turn, where all have passed what they can: one must leave, or the first that made a step in
    // the value at this place makes it.
    fn goes_on(&self, ground: &Ground<'_>, play: &mut Play, at: usize) -> Result<bool, ExploreFault>
        requires way { IsOnWay ground.now.plans.now ground.now.vanishing ground.now.setting play.old }
        requires rests { (actor : ℕ) →
            Rests (setup_of ground.now.plans.now ground.now.vanishing ground.now.setting)
            (position_of play.old) actor }
        ensures { IfOk result (λ yes. yes ≡ true → IsOver ground.now.vanishing.at_end
            (setup_of ground.now.plans.now ground.now.vanishing ground.now.setting)
            (position_of play.old) → ⊥) }
    {
        if is_left_open(ground, play)? {
            return Ok(true);
        }
        let Some(actor) = self.mover_at(at) else {
            return Ok(false);
        };
        let turned = play.take_turn(ground.alloc, ground.plans, actor, true)?;
        Ok(is_made(turned))
    }

    // Whether the play, which stands at the value at this place, ends as the outcome of its ending says, or is not over.
    fn is_ended(
        &self,
        ground: &Ground<'_>,
        play: &mut Play,
        shown: Shown<'_>,
        at: usize,
    ) -> Result<bool, ExploreFault>
        requires here { IsReplay ground.now.plans.now ground.now.vanishing ground.now.setting
            (way_to self.now.rows.items at) play.old }
        ensures { IfOk result (λ yes. yes ≡ true →
            IsRowEnded ground.now.plans.now ground.now.vanishing ground.now.setting
            self.now.rows.items shown.entry.outcomes.now at) }
    {
        if let Some(ending) = self.ending_at(at) {
            let ends = ends_as_shown(ground, play, shown, ending)?;
            return Ok(ends);
        }
        let goes = self.goes_on(ground, play, at)?;
        Ok(goes)
    }

    // The same of the play of the way there.
    fn is_row_ended(
        &self,
        ground: &Ground<'_>,
        shown: Shown<'_>,
        at: usize,
    ) -> Result<bool, ExploreFault>
        requires { IsPool ground.now.setting.pages }
        ensures { IfOk result (λ yes. yes ≡ true →
            IsRowEnded ground.now.plans.now ground.now.vanishing ground.now.setting
            self.now.rows.items shown.entry.outcomes.now at) }
    {
        let mut play = self.replay_to(ground, at)?;
        let ended = self.is_ended(ground, &mut play, shown, at)?;
        Ok(ended)
    }

    // The first value whose play does not. Costs one play for each, and one turn more for one that has no ending.
    fn ending_doubt(
        &self,
        ground: &Ground<'_>,
        shown: Shown<'_>,
    ) -> Result<Option<Doubt>, ExploreFault>
        requires { IsPool ground.now.setting.pages }
        ensures { IfOk result (λ doubt. doubt ≡ None →
            AreRowsEnded ground.now.plans.now ground.now.vanishing ground.now.setting
            self.now.rows.items shown.entry.outcomes.now (length self.now.rows.items)) }
    {
        'values: for at in 0..self.rows.len() {
            if !self.is_row_ended(ground, shown, at)? {
                let calls = self.calls_to(ground.alloc, at)?;
                return Ok(Some(Doubt::Outcome { calls }));
            }
        }
        Ok(None)
    }

    // Why it is not known that each play that is over ends as one of the outcomes says. It is if no turn leads out of the values
    // that were met, and the plays of these that are over do.
    pub(crate) fn doubt(
        &self,
        ground: &Ground<'_>,
        shown: Shown<'_>,
    ) -> Result<Option<Doubt>, ExploreFault>
        requires { IsPool ground.now.setting.pages }
        ensures closed { IfOk result (λ doubt. doubt ≡ None →
            AreClosedIn ground.now.plans.now ground.now.vanishing ground.now.setting
            self.now.rows.items) }
        ensures none { IfOk result (λ doubt. doubt ≡ None → NoneIsMissing ground.now.vanishing.at_end
            (setup_of ground.now.plans.now ground.now.vanishing ground.now.setting)
            shown.entry.outcomes.now) }
    {
        if let Some(doubt) = self.open_doubt(ground)? {
            return Ok(Some(doubt));
        }
        let ended = self.ending_doubt(ground, shown)?;
        Ok(ended)
    }
}
