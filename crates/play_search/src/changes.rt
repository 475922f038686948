//! How many times the actor changes in a play.
ghost use Rattle.std.specs.Prelude.{◌≡◌};
ghost use Rattle.play_search.specs.Changes.{changes, is_other as is_another, mover};

use explore_model::Turn;

// The actor whose turn it is.
fn mover_of(turn: Turn) -> usize
    ensures { result ≡ mover turn }
{
    match turn {
        Turn::Step(actor) => actor,
        Turn::Leave(actor) => actor,
    }
}

// Whether the turn is another actor's than the last one, or there is none before it.
fn is_other(last: Option<usize>, turn: Turn) -> bool
    ensures { result ≡ is_another last turn }
{
    match last {
        Some(actor) => actor != mover_of(turn),
        None => true,
    }
}

// How many times the actor changes in these turns, the first turn among them.
pub(crate) fn changes_in(turns: &[Turn]) -> usize
    ensures { result ≡ changes turns.now }
{
    let mut count = 0;
    let mut last = None;
    let mut rest = turns;
    'turns: while let Some((turn, others)) = rest.split_first() {
        if is_other(last, *turn) {
            count += 1;
        }
        last = Some(mover_of(*turn));
        rest = others;
    }
    count
}
