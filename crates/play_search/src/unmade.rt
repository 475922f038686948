//! The steps whose call no play makes.
ghost use Rattle.std.specs.Prelude.{◌≡◌, [], IfOk, false};

use crate::births::{is_call, number_at};
use crate::graph::Graph;
use crate::replay::Ground;
use crate::turns::{actor_of, is_step};
use actor_plays::Play;
use std::alloc::{AllocError, Global};
use std::collections::HashMap;

// Notes the step whose call the turn of this number made, by its number; the turn was the last of the play.
pub(crate) fn note_made(
    made: &mut HashMap<u32, bool>,
    ground: &Ground<'_>,
    play: &Play,
    turn: u32,
) -> Result<(), AllocError> {
    if !is_step(turn) {
        return Ok(());
    }
    let place = actor_of(turn);
    let Some(actor) = play.actor(place) else {
        return Ok(());
    };
    if let Some((at, _)) = actor.made.last() {
        made.insert(number_at(ground.bases, place, *at), true)?;
    }
    Ok(())
}

// Adds the steps of this actor whose call no play makes.
fn push_unmade(
    unmade: &mut Vec<(usize, usize)>,
    ground: &Ground<'_>,
    graph: &Graph,
    actor: usize,
    steps: usize,
) -> Result<(), AllocError> {
    for at in 0..steps {
        let number = number_at(ground.bases, actor, at);
        if is_call(ground.plans, actor, at) && graph.made.get(&number).is_none() {
            unmade.push((actor, at))?;
        }
    }
    Ok(())
}

// The steps whose call no play makes, where all values were met; else none.
pub(crate) fn unmade_in(
    ground: &Ground<'_>,
    graph: &Graph,
    complete: bool,
) -> Result<Vec<(usize, usize)>, AllocError>
    ensures { IfOk result (λ steps. complete ≡ false → steps.items ≡ []) }
{
    if !complete {
        return Ok(Vec::new(ground.alloc));
    }
    let mut unmade = Vec::new(ground.alloc);
    for actor in 0..ground.plans.len() {
        push_unmade(
            &mut unmade,
            ground,
            graph,
            actor,
            ground.plans[actor].steps.len(),
        )?;
    }
    Ok(unmade)
}
