//! The words of a line that is told of.
ghost use Rattle.std.specs.Prelude.{◌≡◌, ◌++◌, OnOk, is_some, map};
ghost use Rattle.std.specs.List.{list_any};
ghost use Rattle.script_lines.specs.Lines.{strength_named, view_of};
ghost use Rattle.script_lines.specs.Words.{words};
ghost use Rattle.report_io.specs.Reasons.{before_point, ends_in, is_empty, is_within, shown_byte as shown};

use script_lines::{is_word, next_word, place_of, read_number};
use std::alloc::AllocError;

// Whether a word of the line has no byte.
pub(crate) fn has_empty_word(line: &[u8]) -> bool
    ensures { result ≡ list_any is_empty (words line.now) }
{
    let mut left = Some(line);
    'words: while let Some((word, rest)) = next_word(left) {
        if word.is_empty() {
            return true;
        }
        left = rest;
    }
    false
}

// Whether the line ends in this byte.
pub(crate) fn has_end(line: &[u8], byte: u8) -> bool
    ensures { result ≡ ends_in byte line.now }
{
    match line.last() {
        Some(last) => *last == byte,
        None => false,
    }
}

// What stands before the point, or the whole word.
pub(crate) fn part_before_point(word: &[u8]) -> &[u8]
    ensures { result.now ≡ before_point word.now }
{
    match place_of(b'.', word) {
        Some(at) => &word[..at],
        None => word,
    }
}

// Whether the word is the name of a view.
pub(crate) fn is_view(word: &[u8]) -> bool
    ensures { result ≡ is_some (view_of word.now) }
{
    is_word(word, "live")
        || is_word(word, "held")
        || is_word(word, "fired")
        || is_word(word, "free")
}

// Whether the word is the name of a strength.
pub(crate) fn is_strength(word: &[u8]) -> bool
    ensures { result ≡ is_some (strength_named word.now) }
{
    is_word(word, "strong") || is_word(word, "weak")
}

// Whether the word spells a number from the least to the most.
pub(crate) fn has_number(word: &[u8], least: u32, most: u32) -> bool
    ensures { result ≡ is_within least most word.now }
{
    match read_number(word) {
        Some(number) => least <= number && number <= most,
        None => false,
    }
}

// Appends the word, with `?` in the place of each byte that is no printed ASCII.
pub(crate) fn push_shown(text: &mut Vec<u8>, word: &[u8]) -> Result<(), AllocError>
    ensures { OnOk result (text.new.items ≡ text.old.items ++ map shown word.now) }
{
    for byte in word {
        text.push(shown_byte(*byte))?;
    }
    Ok(())
}

// The byte, or `?` in the place of one that is no printed ASCII.
fn shown_byte(byte: u8) -> u8
    ensures { result ≡ shown byte }
{
    if b' ' < byte && byte < 127 {
        byte
    } else {
        b'?'
    }
}
