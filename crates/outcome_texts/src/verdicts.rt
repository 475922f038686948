//! What a search says of claims.
ghost use Rattle.std.specs.Prelude.{◌≡◌, ◌++◌, [], OnOk};
ghost use Rattle.std.specs.List.{flat_map};
ghost use Rattle.std.specs.Option.{option_map_or};
ghost use Rattle.outcome_texts.specs.Verdicts.{breaking as breaking_told, breaking_text, broken_head, broken_text, call_numbered as call_told, claim_text, claims_text, decided_text, decision_text, first_with as first_told, has_broken as broken_among, having as having_told, is_as as as_told, is_broken as broken_told, is_sought as sought_told, source_text, unbroken as unbroken_told, verdict_by as verdict_told, verdict_of, verdict_text, words_text};

use crate::calls::{PlayCall, calls_of};
use crate::facts::has_fact;
use crate::script::push_call;
use crate::telling::Telling;
use explore_model::{Exploration, Found};
use script_lines::{Claim, Fact, Often, Part, push, push_parts};
use std::alloc::{AllocError, Global};

/// A claim: the number of its line, from 1, the words that the report repeats, and what they say.
#[derive(Clone, Copy)]
pub struct ClaimLine<'a> {
    pub number: u64,
    pub words: &'a [u8],
    pub claim: Claim,
}

/// What a search says of a claim.
#[derive(Clone, Copy)]
pub enum Verdict {
    /// It holds of all outcomes of the orders that were gone through, which are all; or an outcome has the fact that
    /// one is to have.
    Holds,
    /// No outcome that was found breaks it, but not all orders were gone through.
    Open,
    /// The outcome of this place, from 0, breaks it.
    Broken(usize),
    /// All orders were gone through, and no outcome has the fact that one is to have.
    Missing,
}

// Whether an outcome with the fact is sought, or one without it.
fn is_sought(often: Often) -> bool
    ensures { result ≡ sought_told often }
{
    match often {
        Often::Always => false,
        Often::Never | Often::Sometimes => true,
    }
}

fn is_as(wanted: bool, so: bool) -> bool
    ensures { result ≡ as_told wanted so }
{
    if wanted { so } else { !so }
}

// The place of the first outcome with the fact, or of the first without it.
fn first_with(telling: &Telling<'_>, fact: Fact, wanted: bool, outcomes: &[Found]) -> Option<usize>
    ensures { result ≡ first_told telling.now fact wanted outcomes.now }
{
    outcomes.iter().position(|found| is_as(wanted, has_fact(telling, &found.outcome, fact)))
}

fn unbroken(complete: bool) -> Verdict
    ensures { result ≡ unbroken_told complete }
{
    if complete {
        Verdict::Holds
    } else {
        Verdict::Open
    }
}

// What is said of a claim that no outcome may break, by the first that does.
fn breaking(complete: bool, first: Option<usize>) -> Verdict
    ensures { result ≡ breaking_told complete first }
{
    match first {
        Some(at) => Verdict::Broken(at),
        None => unbroken(complete),
    }
}

// What is said of one that an outcome is to have, by the first that has it.
fn having(complete: bool, first: Option<usize>) -> Verdict
    ensures { result ≡ having_told complete first }
{
    match first {
        Some(_) => Verdict::Holds,
        None => {
            if complete {
                Verdict::Missing
            } else {
                Verdict::Open
            }
        }
    }
}

fn verdict_by(complete: bool, often: Often, first: Option<usize>) -> Verdict
    ensures { result ≡ verdict_told complete often first }
{
    match often {
        Often::Sometimes => having(complete, first),
        Often::Never | Often::Always => breaking(complete, first),
    }
}

/// What the search says of the claim. Costs what `has_fact` costs, for each outcome.
pub fn verdict_on(telling: &Telling<'_>, found: &Exploration, claim: Claim) -> Verdict
    ensures { result ≡ verdict_of telling.now found.now claim }
{
    let wanted = is_sought(claim.often);
    let first = first_with(telling, claim.fact, wanted, &found.outcomes);
    verdict_by(found.complete, claim.often, first)
}

fn is_broken(verdict: Verdict) -> bool
    ensures { result ≡ broken_told verdict }
{
    matches!(verdict, Verdict::Broken(_) | Verdict::Missing)
}

/// Whether one of the claims does not hold. Costs what `verdict_on` costs for each.
pub fn has_broken(telling: &Telling<'_>, found: &Exploration, claims: &[ClaimLine<'_>]) -> bool
    ensures { result ≡ broken_among telling.now found.now claims.now }
{
    claims
        .iter()
        .any(|one| is_broken(verdict_on(telling, found, one.claim)))
}

// Appends the call as the script has it: the line of its step, or that by which a client leaves.
fn push_source(
    text: &mut Vec<u8>,
    telling: &Telling<'_>,
    found: &Found,
    call: PlayCall,
) -> Result<(), AllocError>
    ensures { OnOk result
        (text.new.items ≡ text.old.items ++ source_text telling.now found.now call) }
{
    match call {
        PlayCall::Step { actor, at } => match telling.line(actor, at) {
            Some(step) => push_parts(text, &[Part::Bytes(step.line), Part::Word("\n")]),
            None => Ok(()),
        },
        PlayCall::Leave { .. } => push_call(text, telling, found, call),
    }
}

// Appends the call of this number, from 1, and that it decided.
fn push_decision(
    text: &mut Vec<u8>,
    telling: &Telling<'_>,
    found: &Found,
    number: usize,
    call: PlayCall,
) -> Result<(), AllocError>
    ensures { OnOk result (text.new.items
        ≡ text.old.items ++ decision_text telling.now found.now number call) }
{
    push_parts(
        text,
        &[
            Part::Word("    decided by call "),
            Part::Number(number as u64),
            Part::Word(": "),
        ],
    )?;
    push_source(text, telling, found, call)
}

// Appends the call of this number, if there is one, and that it decided.
fn push_decision_of(
    text: &mut Vec<u8>,
    telling: &Telling<'_>,
    found: &Found,
    number: usize,
    call: Option<PlayCall>,
) -> Result<(), AllocError>
    ensures { OnOk result (text.new.items
        ≡ text.old.items ++ option_map_or (decision_text telling.now found.now number) call []) }
{
    match call {
        Some(call) => push_decision(text, telling, found, number, call),
        None => Ok(()),
    }
}

// The call of this number, from 1.
fn call_of(calls: &[PlayCall], number: usize) -> Option<PlayCall>
    ensures { result ≡ call_told calls.now number }
{
    if number == 0 {
        return None;
    }
    calls.get(number - 1).copied()
}

// Appends the call after which no other outcome is possible, if there is one.
fn push_decided(
    alloc: Global,
    text: &mut Vec<u8>,
    telling: &Telling<'_>,
    found: &Found,
) -> Result<(), AllocError>
    ensures { OnOk result (text.new.items ≡ text.old.items ++ decided_text telling.now found.now) }
{
    let decided = found.figures.decided;
    let calls = calls_of(alloc, found)?;
    push_decision_of(text, telling, found, decided, call_of(&calls, decided))
}

// Appends how long the play is that breaks the claim.
fn push_broken_head(text: &mut Vec<u8>, rank: u64, found: &Found) -> Result<(), AllocError>
    ensures { OnOk result (text.new.items ≡ text.old.items ++ broken_head rank found.now) }
{
    push_parts(
        text,
        &[
            Part::Word("    does not hold: outcome "),
            Part::Number(rank),
            Part::Word(", in "),
            Part::Counted(found.turns.len() as u64, "call"),
            Part::Word(" and "),
            Part::Counted(found.figures.changes as u64, "turn"),
            Part::Word("\n"),
        ],
    )
}

// Appends that the outcome of this number breaks the claim.
fn push_broken(
    alloc: Global,
    text: &mut Vec<u8>,
    telling: &Telling<'_>,
    rank: u64,
    found: &Found,
) -> Result<(), AllocError>
    ensures { OnOk result (text.new.items ≡ text.old.items
        ++ broken_text telling.now rank found.now) }
{
    push_broken_head(text, rank, found)?;
    push_decided(alloc, text, telling, found)
}

// Appends that the outcome of this place breaks the claim.
fn push_breaking(
    alloc: Global,
    text: &mut Vec<u8>,
    telling: &Telling<'_>,
    outcomes: &[Found],
    at: usize,
) -> Result<(), AllocError>
    ensures { OnOk result (text.new.items
        ≡ text.old.items ++ breaking_text telling.now outcomes.now at) }
{
    match outcomes.get(at) {
        Some(found) => push_broken(alloc, text, telling, at as u64 + 1, found),
        None => Ok(()),
    }
}

// Appends what is said of a claim.
fn push_verdict(
    alloc: Global,
    text: &mut Vec<u8>,
    telling: &Telling<'_>,
    outcomes: &[Found],
    verdict: Verdict,
) -> Result<(), AllocError>
    ensures { OnOk result (text.new.items
        ≡ text.old.items ++ verdict_text telling.now outcomes.now verdict) }
{
    match verdict {
        Verdict::Holds => push(text, "    holds\n"),
        Verdict::Open => push(text, "    is open: not all was explored\n"),
        Verdict::Missing => push(text, "    does not hold: no outcome has it\n"),
        Verdict::Broken(at) => push_breaking(alloc, text, telling, outcomes, at),
    }
}

// Appends the claim itself.
fn push_words(text: &mut Vec<u8>, one: &ClaimLine<'_>) -> Result<(), AllocError>
    ensures { OnOk result (text.new.items ≡ text.old.items ++ words_text one.now) }
{
    push_parts(
        text,
        &[
            Part::Word("  line "),
            Part::Number(one.number),
            Part::Word(": "),
            Part::Bytes(one.words),
            Part::Word("\n"),
        ],
    )
}

// Appends the claim, and what is said of it.
fn push_claim(
    alloc: Global,
    text: &mut Vec<u8>,
    telling: &Telling<'_>,
    found: &Exploration,
    one: &ClaimLine<'_>,
) -> Result<(), AllocError>
    ensures { OnOk result (text.new.items ≡ text.old.items
        ++ claim_text telling.now found.now one.now) }
{
    push_words(text, one)?;
    let said = verdict_on(telling, found, one.claim);
    push_verdict(alloc, text, telling, &found.outcomes, said)
}

// Appends these claims.
fn push_each(
    alloc: Global,
    text: &mut Vec<u8>,
    telling: &Telling<'_>,
    found: &Exploration,
    claims: &[ClaimLine<'_>],
) -> Result<(), AllocError>
    ensures { OnOk result (text.new.items
        ≡ text.old.items ++ flat_map (claim_text telling.now found.now) claims.now) }
{
    'claims: for one in claims {
        push_claim(alloc, text, telling, found, one)?;
    }
    Ok(())
}

/// Appends the claims, each with what the search says of it: where it does not hold, the outcome that breaks it, how
/// long the play of that is, and after which call no other outcome was possible. Nothing where there is no claim.
///
/// `AllocError` where memory is refused. Costs what `verdict_on` costs for each claim, and O(n^2) for a play of n calls.
pub fn push_claims(
    alloc: Global,
    text: &mut Vec<u8>,
    telling: &Telling<'_>,
    found: &Exploration,
    claims: &[ClaimLine<'_>],
) -> Result<(), AllocError>
    ensures { OnOk result (text.new.items
        ≡ text.old.items ++ claims_text telling.now found.now claims.now) }
{
    if claims.is_empty() {
        return Ok(());
    }
    push(text, "\nclaims\n")?;
    push_each(alloc, text, telling, found, claims)
}
