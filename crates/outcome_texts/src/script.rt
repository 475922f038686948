//! A play as a script for all clients.
ghost use Rattle.std.specs.Prelude.{◌≡◌, ◌++◌, [], true, IfOk, OnOk};
ghost use Rattle.std.specs.Option.{option_map_or};
ghost use Rattle.outcome_texts.specs.declared.lines.StepLine.{StepLine as StepTold};
ghost use Rattle.outcome_texts.specs.Plays.{joins_text, line_told, step_text};
ghost use Rattle.outcome_texts.specs.Vanishing.{can_vanish as can_told};
ghost use Rattle.outcome_texts.specs.Scripts.{AppendsPlay, call_text, calls_text, gone_words, head_text, mark_text, marked_text, play_text, runs_end as runs_told};

use crate::calls::{PlayCall, calls_of};
use crate::labels::LabelNames;
use crate::leaves::push_leave;
use crate::numbers::share_words;
use crate::telling::Telling;
use crate::vanishing::{can_vanish, push_gone};
use explore_model::Found;
use script_lines::{Label, Line, Part, push, push_line, push_number, push_parts, read_line};
use std::alloc::{AllocError, Global};

// Appends the joins of these clients.
fn push_joins(text: &mut Vec<u8>, labels: &[Label]) -> Result<(), AllocError>
    ensures { OnOk result (text.new.items ≡ text.old.items ++ joins_text labels.now) }
{
    for label in labels {
        push_line(text, Line::Join { client: *label })?;
        push(text, "\n")?;
    }
    Ok(())
}

// Appends the line of the actor's step.
fn push_step(
    text: &mut Vec<u8>,
    names: &LabelNames,
    actor: usize,
    line: &[u8],
) -> Result<(), AllocError>
    ensures { OnOk result
        (text.new.items ≡ text.old.items ++ step_text names.now actor line.now) }
{
    if let Some(said) = read_line(line) {
        push_line(text, names.line(actor, said))?;
    }
    push(text, "\n")
}

// What follows what is said of the runs: where somebody may vanish it is no share.
fn runs_end(vanishing: bool) -> &'static str
    ensures { result.now ≡ runs_told vanishing }
{
    if vanishing { "" } else { " of 100 runs; " }
}

// Appends what is said of the outcome of this number, of so many: the share of the runs that come to it, or who vanishes.
fn push_head(
    text: &mut Vec<u8>,
    telling: &Telling<'_>,
    found: &Found,
    rank: u64,
    outcomes: usize,
    said: &[u8],
) -> Result<(), AllocError>
    ensures { OnOk result (text.new.items
        ≡ text.old.items ++ head_text telling.now found.now rank outcomes said.now) }
{
    push_parts(
        text,
        &[
            Part::Word("# outcome "),
            Part::Number(rank),
            Part::Word(" of "),
            Part::Number(outcomes as u64),
            Part::Word(": "),
            Part::Bytes(said),
            Part::Word(runs_end(can_vanish(telling.vanishing))),
            Part::Counted(found.turns.len() as u64, "call"),
            Part::Word(" in "),
            Part::Counted(found.figures.changes as u64, "turn"),
            Part::Word("\n"),
        ],
    )
}

// Appends the line of the step at this place of the actor's plan.
fn push_step_at(
    text: &mut Vec<u8>,
    telling: &Telling<'_>,
    actor: usize,
    at: usize,
) -> Result<(), AllocError>
    ensures { OnOk result (text.new.items ≡ text.old.items ++ option_map_or
        (λ (step : StepTold). step_text telling.now.names.now actor step.line.now)
        (line_told telling.now actor at) []) }
{
    match telling.line(actor, at) {
        Some(step) => push_step(text, telling.names, actor, step.line),
        None => Ok(()),
    }
}

// Appends the line of the call.
pub(crate) fn push_call(
    text: &mut Vec<u8>,
    telling: &Telling<'_>,
    found: &Found,
    call: PlayCall,
) -> Result<(), AllocError>
    ensures { OnOk result (text.new.items ≡ text.old.items
        ++ call_text telling.now found.now call) }
{
    match call {
        PlayCall::Step { actor, at } => push_step_at(text, telling, actor, at),
        PlayCall::Leave { actor, number } => push_leave(text, telling, found, actor, number),
    }
}

// Appends the lines of these calls.
fn push_calls(
    text: &mut Vec<u8>,
    telling: &Telling<'_>,
    found: &Found,
    calls: &[PlayCall],
) -> Result<(), AllocError>
    ensures { OnOk result
        (text.new.items ≡ text.old.items ++ calls_text telling.now found.now calls.now) }
{
    for call in calls {
        push_call(text, telling, found, *call)?;
    }
    Ok(())
}

// Appends the remark behind the call after which no outcome but this one is possible.
fn push_mark(text: &mut Vec<u8>, rank: u64) -> Result<(), AllocError>
    ensures { OnOk result (text.new.items ≡ text.old.items ++ mark_text rank) }
{
    push(text, "# from here on every order leads to outcome ")?;
    push_number(text, rank)?;
    push(text, "\n")
}

// Appends the lines of the calls, with a remark behind the one after which no other outcome is possible.
fn push_marked(
    text: &mut Vec<u8>,
    telling: &Telling<'_>,
    found: &Found,
    calls: &[PlayCall],
    rank: u64,
) -> Result<(), AllocError>
    ensures { OnOk result
        (text.new.items ≡ text.old.items ++ marked_text telling.now found.now calls.now rank) }
{
    let decided = found.figures.decided;
    if decided < 1 || calls.len() <= decided {
        return push_calls(text, telling, found, calls);
    }
    push_calls(text, telling, found, &calls[..decided])?;
    push_mark(text, rank)?;
    push_calls(text, telling, found, &calls[decided..])
}

// Appends the joins and the calls.
fn push_lines(
    text: &mut Vec<u8>,
    telling: &Telling<'_>,
    found: &Found,
    calls: &[PlayCall],
    rank: u64,
) -> Result<(), AllocError>
    ensures { OnOk result (text.new.items ≡ text.old.items
        ++ joins_text telling.now.labels.now ++ marked_text telling.now found.now calls.now rank) }
{
    push_joins(text, telling.labels)?;
    push_marked(text, telling, found, calls, rank)
}

// Who vanishes by the play of the outcome.
fn who_words(alloc: Global, telling: &Telling<'_>, found: &Found) -> Result<Vec<u8>, AllocError>
    ensures { IfOk result (λ words. words.items ≡ gone_words telling.now found.now) }
{
    let mut words = Vec::new(alloc);
    push_gone(&mut words, telling.labels, found)?;
    push(&mut words, "; ")?;
    Ok(words)
}

// What is said of the runs that come to the outcome: how many of 100 they are, or who vanishes.
fn runs_words(alloc: Global, telling: &Telling<'_>, found: &Found) -> Result<Vec<u8>, AllocError>
    ensures { can_told telling.now.vanishing ≡ true →
        IfOk result (λ words. words.items ≡ gone_words telling.now found.now) }
{
    if can_vanish(telling.vanishing) {
        who_words(alloc, telling, found)
    } else {
        share_words(alloc, found.figures.share)
    }
}

/// Appends the play of this outcome, which has this number among so many, as a script for all clients: a remark on it,
/// the joins, and a line for each call in the order of the turns, with a remark behind the one after which no other
/// outcome is possible. A call by which a client leaves is a `shut`, a `collect`, a `close` or a `droph`: a node is called
/// as its maker calls it, a buffer by the root of its collection, and what is collected by a label that no client uses. No
/// clause says which share of runs the first remark tells where nobody may vanish at any point.
///
/// `AllocError` where memory is refused. Costs O(n^2) for n calls.
pub fn push_play(
    alloc: Global,
    text: &mut Vec<u8>,
    telling: &Telling<'_>,
    found: &Found,
    rank: u64,
    outcomes: usize,
) -> Result<(), AllocError>
    ensures { OnOk result (AppendsPlay telling.now found.now rank outcomes text.old.items
        text.new.items) }
{
    let said = runs_words(alloc, telling, found)?;
    let calls = calls_of(alloc, found)?;
    push_head(text, telling, found, rank, outcomes, &said)?;
    push_lines(text, telling, found, &calls, rank)
}
