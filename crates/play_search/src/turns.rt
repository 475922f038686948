//! Turns as numbers.
ghost use Rattle.std.specs.Prelude.{◌≡◌, ◌==◌, ◌%◌};
ghost use Rattle.play_search.specs.Closing.{turn_numbered};

use crate::numbers::small;
use explore_model::Turn;

// The number of a turn: two for each actor.
pub(crate) fn code_of(turn: Turn) -> u32 {
    match turn {
        Turn::Step(actor) => small(actor).wrapping_mul(2),
        Turn::Leave(actor) => small(actor).wrapping_mul(2).wrapping_add(1),
    }
}

// The turn of this number.
pub(crate) fn turn_of(code: u32) -> Turn
    ensures { result ≡ turn_numbered code }
{
    let actor = (code / 2) as usize;
    if is_step(code) {
        Turn::Step(actor)
    } else {
        Turn::Leave(actor)
    }
}

// The actor of the turn of this number.
pub(crate) fn actor_of(code: u32) -> usize {
    (code >> 1) as usize
}

// Whether the turn of this number is a step.
pub(crate) fn is_step(code: u32) -> bool
    ensures { result ≡ (code % 2 == 0) }
{
    code % 2 == 0
}
