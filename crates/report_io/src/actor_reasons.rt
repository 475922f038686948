//! What is wrong with a bad line of a script of actors, in words.
ghost use Rattle.std.specs.Prelude.{◌≡◌, ◌++◌, None, OnOk, option_map};
ghost use Rattle.script_lines.specs.Pieces.{last_part};
ghost use Rattle.report_io.specs.ActorReasons.{actor_line_reason, form_reason, line_at, reason_at, rest_reason};
ghost use Rattle.report_io.specs.Faults.{HasReason, IsBadLine};

use crate::fault::ReportFault;
use crate::reading::behind;
use crate::reasons::form_fault;
use script_lines::{Line, line_end, push, read_line};
use std::alloc::{AllocError, Global};

// The line of this number, from 1, and what stands from there on.
fn line_of_number(script: &[u8], number: u64) -> (Option<&[u8]>, &[u8])
    ensures line { option_map (λ line. line.now) result.0 ≡ line_at script.now number }
    ensures rest { result.0 ≡ None → result.1.now ≡ last_part script.now }
{
    let mut left = number;
    let mut rest = script;
    'lines: while let Some(at) = line_end(rest) {
        if left <= 1 {
            return (Some(&rest[..at]), rest);
        }
        left -= 1;
        rest = behind(rest, at);
    }
    (None, rest)
}

// Appends why the line, which has an end, is bad: a test of any line fails, or a script of actors does not take what it says.
fn push_reason_of_line(text: &mut Vec<u8>, line: &[u8]) -> Result<(), AllocError>
    ensures { OnOk result (text.new.items ≡ text.old.items ++ actor_line_reason line.now) }
{
    match form_fault(line) {
        Some(reason) => reason.push_text(text),
        None => push(text, reason_of_form(read_line(line))),
    }
}

// Why a line that says this is bad.
fn reason_of_form(line: Option<Line>) -> &'static str
    ensures { result.now ≡ form_reason line }
{
    match line {
        None => "no such line",
        Some(Line::Show { .. }) => "a script of actors has no show",
        Some(Line::Join { .. }) => "each client joins once, before all steps",
        Some(_) => "it names a client that does not join",
    }
}

// Why a script is bad of which this stands behind the last line.
fn reason_of_rest(rest: &[u8]) -> &'static str
    ensures { result.now ≡ rest_reason rest.now }
{
    if rest.is_empty() {
        "no client joins"
    } else {
        "the last line lacks a newline"
    }
}

// Appends why the line of this number is the first bad one of the script.
fn push_reason_at(text: &mut Vec<u8>, script: &[u8], number: u64) -> Result<(), AllocError>
    ensures { OnOk result (text.new.items ≡ text.old.items ++ reason_at script.now number) }
{
    match line_of_number(script, number) {
        (Some(line), _) => push_reason_of_line(text, line),
        (None, rest) => push(text, reason_of_rest(rest)),
    }
}

/// The fault that the line of this number is the first bad one of the script of actors, with the reason. Costs O(n)
/// for a script of n bytes.
pub fn bad_actor_line(alloc: Global, number: u64, script: &[u8]) -> ReportFault
    ensures line { IsBadLine number result }
    ensures reason { HasReason (reason_at script.now number) result }
{
    let mut reason = Vec::new(alloc);
    match push_reason_at(&mut reason, script, number) {
        Ok(()) => ReportFault::BadLine { number, reason },
        Err(_) => ReportFault::NoMemory,
    }
}
