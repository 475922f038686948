//! Texts made of parts: one call appends an array of parts. A proof follows each early return, so
//! that with a call for each part its time would grow with the square of their number.

ghost use Rattle.std.specs.Prelude.{◌≡◌, ◌++◌, OnOk};
ghost use Rattle.std.specs.List.{flat_map};
ghost use Rattle.script_lines.specs.Parts.{plural_end, text_of};

use crate::label::Label;
use crate::spelling::{push, push_label, push_number};
use std::alloc::AllocError;

/// A part of a text.
#[derive(Clone, Copy)]
pub enum Part<'a> {
    /// These characters.
    Word(&'a str),
    /// These bytes.
    Bytes(&'a [u8]),
    /// The number, in decimal.
    Number(u64),
    /// The number and the word, with an s at any number but 1.
    Counted(u64, &'a str),
    /// The label, if there is one.
    Name(Option<Label>),
}

/// Appends the parts, one after another; some of them where memory is refused. Costs what `push` costs
/// for each.
pub fn push_parts(text: &mut Vec<u8>, parts: &[Part]) -> Result<(), AllocError>
    ensures { OnOk result (text.new.items ≡ text.old.items ++ flat_map text_of parts.now) }
{
    for part in parts {
        push_part(text, *part)?;
    }
    Ok(())
}

// Appends the part.
fn push_part(text: &mut Vec<u8>, part: Part) -> Result<(), AllocError>
    ensures { OnOk result (text.new.items ≡ text.old.items ++ text_of part.entry) }
{
    match part {
        Part::Word(word) => push(text, word),
        Part::Bytes(bytes) => text.extend_from_slice(bytes),
        Part::Number(number) => push_number(text, number),
        Part::Counted(number, word) => push_counted(text, number, word),
        Part::Name(label) => push_label(text, label),
    }
}

// Appends the number and the word, with an s at any number but 1.
fn push_counted(text: &mut Vec<u8>, number: u64, word: &str) -> Result<(), AllocError>
    ensures { OnOk result (text.new.items
        ≡ text.old.items ++ text_of (Part.Counted number word.entry)) }
{
    push_number(text, number)?;
    push(text, " ")?;
    push(text, word)?;
    push(text, ending(number))
}

// What follows a word that this many are counted of.
fn ending(number: u64) -> &'static str
    ensures { result.now ≡ plural_end number }
{
    if number == 1 { "" } else { "s" }
}
