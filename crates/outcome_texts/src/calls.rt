//! The calls of an outcome's play.
ghost use Rattle.std.specs.Prelude.{◌≡◌, ◌++◌, ◌+◌, [], IfOk, OnOk, count_by};
ghost use Rattle.outcome_texts.specs.Calls.{at_most_one, call_told, calls_from, calls_told, entry_call, is_step_of, number_told, place_told, step_told};

use explore_model::{Found, Turn};
use std::alloc::{AllocError, Global};

/// A call of a play, with its actor.
#[derive(Clone, Copy)]
pub enum PlayCall {
    /// That of the step at this place of the actor's plan.
    Step { actor: usize, at: usize },
    /// The call of this number, joins among them, by which the actor leaves.
    Leave { actor: usize, number: usize },
}

// Whether the turn is a step of the actor.
fn is_step(turn: Turn, actor: usize) -> bool
    ensures { result ≡ is_step_of actor turn }
{
    match turn {
        Turn::Step(of) => of == actor,
        Turn::Leave(_) => false,
    }
}

// How many of these turns are steps of the actor.
fn steps_of(turns: &[Turn], actor: usize) -> usize
    ensures { result ≡ count_by (is_step_of actor) turns.now }
{
    turns.iter().filter(|turn| is_step(**turn, actor)).count()
}

// The place of the step of the actor's call of this number, in its plan.
fn place_of(found: &Found, actor: usize, call: usize) -> Option<usize>
    ensures { result ≡ place_told found.now actor call }
{
    match found.steps.get(actor) {
        Some(places) => places.get(call).copied(),
        None => None,
    }
}

// The call of this number of those that the actor's steps make.
fn step_of(found: &Found, actor: usize, call: usize) -> Option<PlayCall>
    ensures { result ≡ step_told found.now actor call }
{
    match place_of(found, actor, call) {
        Some(at) => Some(PlayCall::Step { actor, at }),
        None => None,
    }
}

// The number of the call behind these turns: all clients join before.
fn number_of(found: &Found, before: &[Turn]) -> usize
    ensures { result ≡ number_told found.now before.now }
{
    found.steps.len() + before.len()
}

// The call of the turn behind these.
fn call_at(found: &Found, before: &[Turn], turn: Turn) -> Option<PlayCall>
    ensures { result ≡ call_told found.now before.now turn }
{
    match turn {
        Turn::Step(actor) => step_of(found, actor, steps_of(before, actor)),
        Turn::Leave(actor) => Some(PlayCall::Leave {
            actor,
            number: number_of(found, before),
        }),
    }
}

// Appends the call, if there is one.
fn push_call(calls: &mut Vec<PlayCall>, call: Option<PlayCall>) -> Result<(), AllocError>
    ensures { OnOk result (calls.new.items ≡ calls.old.items ++ at_most_one call) }
{
    match call {
        Some(call) => {
            calls.push(call)?;
            Ok(())
        }
        None => Ok(()),
    }
}

// The calls of these turns of the play.
fn calls_in(alloc: Global, found: &Found, turns: &[Turn]) -> Result<Vec<PlayCall>, AllocError>
    ensures { IfOk result (λ calls. calls.items ≡ calls_from found.now [] turns.now) }
{
    let mut calls = Vec::new(alloc);
    'turns: for at in 0..turns.len() {
        push_call(&mut calls, call_at(found, &turns[..at], turns[at]))?;
    }
    Ok(calls)
}

/// The calls of the outcome's play in order, without the joins.
///
/// `AllocError` where memory is refused. Costs O(n^2) for n calls.
pub fn calls_of(alloc: Global, found: &Found) -> Result<Vec<PlayCall>, AllocError>
    ensures { IfOk result (λ calls. calls.items ≡ calls_told found.now) }
{
    calls_in(alloc, found, &found.turns)
}

// The call of this number, joins among them.
pub(crate) fn call_of_entry(found: &Found, number: usize) -> Option<PlayCall>
    ensures { result ≡ entry_call found.now number }
{
    let at = number.saturating_sub(found.steps.len());
    match found.turns.get(at) {
        Some(turn) => call_at(found, &found.turns[..at], *turn),
        None => None,
    }
}
