//! A line of the text: a verb, and the numbers behind it.
use crate::verb::{Verb, verb_of};
use test_streams::decimal;

/// A verb, and up to four numbers; those that the line lacks are 0.
#[derive(Clone, Copy)]
pub struct Line {
    pub verb: Verb,
    pub numbers: [u64; 4],
}

/// The verb and the numbers of a line, or `None` if a word behind its verb is no number.
pub fn line_of(text: &str) -> Option<Line> {
    let (verb, rest) = text.split_once(' ').unwrap_or((text, ""));
    let mut numbers = [0; 4];
    let mut words = rest.split_whitespace();
    for number in &mut numbers {
        if let Some(word) = words.next() {
            *number = number_of(word)?;
        }
    }
    Some(Line {
        verb: verb_of(verb),
        numbers,
    })
}

// The number that a word is: a strength counts as 0 or 1.
fn number_of(word: &str) -> Option<u64> {
    match word {
        "strong" => Some(0),
        "weak" => Some(1),
        _ => {
            let number = decimal(word)?;
            Some(u64::from(number))
        }
    }
}

/// The number, or the greatest of its type.
pub fn small(number: u64) -> u32 {
    u32::try_from(number).unwrap_or(u32::MAX)
}
