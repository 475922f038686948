//! The lines of a script that are claims.
ghost use Rattle.std.specs.Prelude.{◌≡◌, ◌++◌, ◌≤◌, length, IfErr, IfOk, None, Ok, OnOk, true};
ghost use Rattle.script_lines.specs.declared.TheConstants.{MOST_BYTES};
ghost use Rattle.outcome_texts.specs.ClaimLines.{Adds, IsBadClaim, IsBadList, IsBadText, Takes, claim_text_of, claim_texts_of, claims_in, good_claim as good_told, judged, texts_in, words_behind as words_told};
ghost use Rattle.script_lines.specs.ClientLists.{are_clients as clients_told, listed as listed_told, vanish_text as vanish_told};

use crate::makers::is_known;
use crate::reasons::{ClaimFault, fault_of, list_fault};
use crate::telling::Telling;
use crate::verdicts::ClaimLine;
use script_lines::{Claim, is_claim, line_end, read_claim, vanish_text};
use std::alloc::{AllocError, Global};

/// A line that is a claim, good or bad: its number, from 1, and its bytes.
#[derive(Clone, Copy)]
pub struct ClaimText<'a> {
    pub number: u64,
    pub line: &'a [u8],
}

/// Why the claims of a script were not read.
#[derive(Clone, Copy)]
pub enum BadClaim {
    /// The line of this number is the first bad claim.
    Line {
        number: u64,
        /// What is wrong with it.
        fault: ClaimFault,
    },
    /// Memory was refused.
    NoMemory,
}

// Appends the line of this number, if it is a claim.
fn push_claim_text<'a>(
    texts: &mut Vec<ClaimText<'a>>,
    number: u64,
    line: &'a [u8],
) -> Result<(), AllocError>
    ensures { OnOk result (texts_in texts.new.items
        ≡ texts_in texts.old.items ++ claim_text_of number line.now) }
{
    if is_claim(line) {
        texts.push(ClaimText { number, line })?;
    }
    Ok(())
}

/// The lines of the script that are claims, good or bad, in order.
///
/// `AllocError` where memory is refused. Costs O(n) for n bytes.
pub fn claim_texts<'a>(alloc: Global, script: &'a [u8]) -> Result<Vec<ClaimText<'a>>, AllocError>
    requires { length script.now ≤ MOST_BYTES }
    ensures { IfOk result (λ texts. texts_in texts.items ≡ claim_texts_of script.now) }
{
    let mut texts = Vec::new(alloc);
    let mut number: u64 = 1;
    let mut rest = script;
    'lines: while let Some(at) = line_end(rest) {
        push_claim_text(&mut texts, number, &rest[..at])?;
        number += 1;
        rest = &rest[at + 1..];
    }
    Ok(texts)
}

// The words behind `#! `.
fn words_behind(line: &[u8]) -> &[u8]
    ensures { result.now ≡ words_told line.now }
{
    if 3 <= line.len() { &line[3..] } else { line }
}

// The claim of the line, if it is a good one, and all is there that it names.
fn good_claim(telling: &Telling<'_>, line: &[u8]) -> Option<Claim>
    ensures { result ≡ good_told telling.now line.now }
{
    match read_claim(line) {
        Some(claim) => {
            if is_known(telling, claim.fact) {
                Some(claim)
            } else {
                None
            }
        }
        None => None,
    }
}

// Adds the claim of the line.
fn push_claim_line<'a>(
    claims: &mut Vec<ClaimLine<'a>>,
    telling: &Telling<'_>,
    text: ClaimText<'a>,
) -> Result<(), BadClaim>
    ensures ok { OnOk result (Adds telling.now text.entry claims.old.items claims.new.items) }
    ensures err { IfErr result (IsBadText telling.now text.entry None) }
{
    let Some(claim) = good_claim(telling, text.line) else {
        return Err(BadClaim::Line {
            number: text.number,
            fault: fault_of(telling, text.line),
        });
    };
    let one = ClaimLine {
        number: text.number,
        words: words_behind(text.line),
        claim,
    };
    match claims.push(one) {
        Ok(()) => Ok(()),
        Err(_) => Err(BadClaim::NoMemory),
    }
}

// Judges the line of this number, which lets the clients of this list vanish.
fn judge_list(
    alloc: Global,
    telling: &Telling<'_>,
    number: u64,
    names: &[u8],
) -> Result<(), BadClaim>
    ensures ok { OnOk result (clients_told (listed_told 32 names.now) telling.now.labels.now
        ≡ true) }
    ensures err { IfErr result (IsBadList telling.now number names.now) }
{
    match list_fault(alloc, b' ', names, telling.labels) {
        Ok(None) => Ok(()),
        Ok(Some(fault)) => Err(BadClaim::Line { number, fault }),
        Err(_) => Err(BadClaim::NoMemory),
    }
}

// Judges the line, and adds its claim, if it is one.
fn take_line<'a>(
    alloc: Global,
    claims: &mut Vec<ClaimLine<'a>>,
    telling: &Telling<'_>,
    text: ClaimText<'a>,
) -> Result<(), BadClaim>
    ensures ok { OnOk result (Takes telling.now text.entry (vanish_told text.entry.line.now)
        claims.old.items claims.new.items) }
    ensures err { IfErr result (IsBadText telling.now text.entry
        (vanish_told text.entry.line.now)) }
{
    match vanish_text(text.line) {
        Some(names) => judge_list(alloc, telling, text.number, names),
        None => push_claim_line(claims, telling, text),
    }
}

/// The claims of these lines. Each names nodes and trackers that a line of just one client makes, and clients that join. A
/// line that lets clients vanish is none; it names clients that join, or all.
///
/// `Line` with the number of the first line that is neither, and why it is not; `NoMemory` where memory is refused. Costs what
/// `is_known` costs for each.
pub fn judged_claims<'a>(
    alloc: Global,
    telling: &Telling<'_>,
    texts: &[ClaimText<'a>],
) -> Result<Vec<ClaimLine<'a>>, BadClaim>
    ensures ok { IfOk result (λ claims. judged telling.now (texts_in texts.now)
        ≡ Ok (claims_in claims.items)) }
    ensures err { IfErr result (IsBadClaim telling.now (texts_in texts.now)) }
{
    let mut claims = Vec::new(alloc);
    'texts: for at in 0..texts.len() {
        take_line(alloc, &mut claims, telling, texts[at])?;
    }
    Ok(claims)
}
