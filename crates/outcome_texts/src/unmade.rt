//! The steps that no order makes, in words.
use crate::telling::Telling;
use explore_model::Exploration;
use script_lines::{Part, push, push_parts};
use std::alloc::{AllocError, Global};

// So many lines are told at most.
const MOST: usize = 20;

// The steps whose call no order makes, each by its actor and its place, by line.
fn unmade_in(
    alloc: Global,
    telling: &Telling<'_>,
    found: &Exploration,
) -> Result<Vec<(u64, (usize, usize))>, AllocError> {
    let mut places = Vec::new(alloc);
    for (actor, at) in &found.unmade {
        if let Some(step) = telling.line(*actor, *at) {
            places.push((step.number, (*actor, *at)))?;
        }
    }
    places.as_mut_slice().sort_unstable();
    Ok(places)
}

// Appends the line of the step, and that no order makes its call.
fn push_line_of(
    text: &mut Vec<u8>,
    telling: &Telling<'_>,
    actor: usize,
    at: usize,
) -> Result<(), AllocError> {
    match telling.line(actor, at) {
        Some(step) => push_parts(
            text,
            &[
                Part::Word("never made: line "),
                Part::Number(step.number),
                Part::Word(": "),
                Part::Bytes(step.line),
                Part::Word("\n"),
            ],
        ),
        None => Ok(()),
    }
}

// Appends the lines whose calls no order makes, if there are such, behind an empty line.
pub(crate) fn push_unmade(
    alloc: Global,
    text: &mut Vec<u8>,
    telling: &Telling<'_>,
    found: &Exploration,
) -> Result<(), AllocError> {
    let places = unmade_in(alloc, telling, found)?;
    if places.is_empty() {
        return Ok(());
    }
    push(text, "\n")?;
    for (_, (actor, at)) in &places[..places.len().min(MOST)] {
        push_line_of(text, telling, *actor, *at)?;
    }
    if MOST < places.len() {
        let more = (places.len() - MOST) as u64;
        push_parts(
            text,
            &[
                Part::Word("never made: "),
                Part::Counted(more, "more line"),
                Part::Word("\n"),
            ],
        )?;
    }
    Ok(())
}
