//! A line of the text: a verb, and the numbers behind it.
use crate::verb::{Verb, verb_of};
use test_streams::decimal;

/// A verb and up to five numbers. The line has `count` numbers; the others are 0.
#[derive(Clone, Copy)]
pub struct Line {
    pub verb: Verb,
    pub numbers: [u32; 5],
    pub count: usize,
}

/// The verb and the numbers of a line, or `None` if a word behind its verb is no number.
pub fn line_of(text: &str) -> Option<Line> {
    let (verb, rest) = text.split_once(' ').unwrap_or((text, ""));
    let mut numbers = [0; 5];
    let mut count = 0usize;
    let mut words = rest.split_whitespace();
    for number in &mut numbers {
        if let Some(word) = words.next() {
            *number = decimal(word)?;
            count = count.wrapping_add(1);
        }
    }
    Some(Line {
        verb: verb_of(verb),
        numbers,
        count,
    })
}

/// The nodes from one number to another, which may be the lesser.
#[derive(Clone, Copy)]
pub struct Range {
    first: u32,
    last: u32,
}

impl Range {
    /// The nodes that the first two numbers of a line name.
    pub fn of(line: &Line) -> Range {
        let [first, last, ..] = line.numbers;
        Range { first, last }
    }

    /// How far it is from the first node to the last.
    pub fn steps(self) -> u32 {
        if self.first < self.last {
            self.last.saturating_sub(self.first)
        } else {
            self.first.saturating_sub(self.last)
        }
    }

    /// The number of the node this many steps behind the first.
    pub fn at(self, step: u32) -> usize {
        if self.first < self.last {
            self.first.saturating_add(step) as usize
        } else {
            self.first.saturating_sub(step) as usize
        }
    }
}
