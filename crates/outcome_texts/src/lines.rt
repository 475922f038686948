//! The lines of a script that are steps of clients.
ghost use Rattle.std.specs.Prelude.{◌≡◌, ◌++◌, ◌+◌, ◌<◌, ◌≤◌, ◌^◌, length, IfOk, OnOk, codes};
ghost use Rattle.script_lines.specs.declared.TheConstants.{MOST_BYTES};
ghost use Rattle.actor_scripts.specs.Steps.{client_place};
ghost use Rattle.outcome_texts.specs.Lines.{actor_line, client_in, line_of_step, number_and_line, step_lines_of, steps_in};

use script_lines::{Label, Line, line_end, read_line};
use std::alloc::{AllocError, Global};

/// A line that is a step of a client: the client's place among the joins, the number of the line, and its bytes.
#[derive(Clone, Copy)]
pub struct StepLine<'a> {
    pub actor: usize,
    pub number: u64,
    pub line: &'a [u8],
}

// The client whose step the line is.
fn client_of(line: &Line) -> Option<Label>
    ensures { result ≡ client_in line.now }
{
    match *line {
        Line::Ask { client, .. } => Some(client),
        Line::Poll { client, .. } => Some(client),
        _ => None,
    }
}

// The place of the client of this label, in the order of the joins.
fn place_of(labels: &[Label], client: Label) -> Option<usize>
    ensures { result ≡ client_place labels.now client }
{
    labels.iter().position(|label| client == *label)
}

// The place of the client whose step the line is.
fn actor_of(labels: &[Label], line: &[u8]) -> Option<usize>
    ensures { result ≡ line_of_step labels.now line.now }
{
    match read_line(line) {
        Some(said) => match client_of(&said) {
            Some(client) => place_of(labels, client),
            None => None,
        },
        None => None,
    }
}

// Appends the line of this number, if it is a step.
fn push_step_line<'a>(
    steps: &mut Vec<StepLine<'a>>,
    labels: &[Label],
    number: u64,
    line: &'a [u8],
) -> Result<(), AllocError>
    ensures { OnOk result (steps_in steps.new.items
        ≡ steps_in steps.old.items ++ number_and_line labels.now number line.now) }
{
    match actor_of(labels, line) {
        Some(actor) => {
            let step = StepLine {
                actor,
                number,
                line,
            };
            steps.push(step)?;
            Ok(())
        }
        None => Ok(()),
    }
}

/// The lines of a script that are steps of the clients of these labels, in order.
///
/// `AllocError` where memory is refused. Costs O(n) for n bytes, for each client.
pub fn step_lines<'a>(
    alloc: Global,
    labels: &[Label],
    script: &'a [u8],
) -> Result<Vec<StepLine<'a>>, AllocError>
    requires { length script.now ≤ MOST_BYTES }
    ensures { IfOk result (λ steps. steps_in steps.items ≡ step_lines_of labels.now script.now) }
{
    let mut steps = Vec::new(alloc);
    let mut number: u64 = 1;
    let mut rest = script;
    'lines: while let Some(at) = line_end(rest) {
        push_step_line(&mut steps, labels, number, &rest[..at])?;
        number += 1;
        rest = &rest[at + 1..];
    }
    Ok(steps)
}

// The actor's step of this number.
pub(crate) fn line_at<'a>(steps: &[StepLine<'a>], actor: usize, step: usize) -> Option<StepLine<'a>>
    ensures { result ≡ actor_line steps.now actor step }
{
    let mut left = step;
    'steps: for one in steps {
        if one.actor != actor {
            continue;
        }
        if left == 0 {
            return Some(*one);
        }
        left -= 1;
    }
    None
}
