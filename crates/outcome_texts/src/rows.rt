//! The rows of a report: what became of each node, client and tracker, and in which outcomes.
use crate::numbers::share_words;
use indexmap::IndexSet;
use script_lines::{LabelHash, Part, push, push_number, push_parts};
use std::alloc::{AllocError, Global};

// The share of the runs in which something became of it, and the outcomes, by number.
#[derive(Drop)]
pub(crate) struct Occurrence {
    share: f64,
    ranks: Vec<u64>,
}

// All that became of it, each with the outcomes in which it did.
#[derive(Drop)]
pub(crate) struct Occurrences {
    whats: IndexSet<Vec<u8>, LabelHash>,
    each: Vec<Occurrence>,
}

// How many outcomes rows tell of, and whether these have shares of the runs.
#[derive(Clone, Copy)]
pub(crate) struct Among {
    pub(crate) outcomes: usize,
    pub(crate) have_shares: bool,
}

// The names of those of which all this became.
#[derive(Drop)]
pub(crate) struct ReportRow {
    pub(crate) names: Vec<u8>,
    pub(crate) occurrences: Occurrences,
}

// Appends so many spaces.
fn push_spaces(text: &mut Vec<u8>, count: usize) -> Result<(), AllocError> {
    for _ in 0..count {
        text.push(b' ')?;
    }
    Ok(())
}

// Appends two spaces, the word, and spaces up to this width.
fn push_column(text: &mut Vec<u8>, word: &[u8], width: usize) -> Result<(), AllocError> {
    push_parts(text, &[Part::Word("  "), Part::Bytes(word)])?;
    push_spaces(text, width.saturating_sub(word.len()))
}

// Appends the numbers, each behind a space.
fn push_numbers(text: &mut Vec<u8>, numbers: &[u64]) -> Result<(), AllocError> {
    for number in numbers {
        push(text, " ")?;
        push_number(text, *number)?;
    }
    Ok(())
}

// Appends the outcomes: at most three, and how many more there are.
fn push_ranks(text: &mut Vec<u8>, ranks: &[u64]) -> Result<(), AllocError> {
    push(text, "outcome")?;
    if ranks.len() <= 3 {
        return push_numbers(text, ranks);
    }
    push_numbers(text, &ranks[..3])?;
    push_parts(
        text,
        &[
            Part::Word(" and "),
            Part::Number((ranks.len() - 3) as u64),
            Part::Word(" more"),
        ],
    )
}

// Appends the share, to the right of four letters.
fn push_of_hundred(alloc: Global, text: &mut Vec<u8>, share: f64) -> Result<(), AllocError> {
    let said = share_words(alloc, share)?;
    push_spaces(text, 4usize.saturating_sub(said.len()))?;
    text.extend_from_slice(&said)?;
    push(text, " of 100: ")
}

impl Occurrence {
    // Appends in which of the outcomes it was so.
    fn push_which(&self, alloc: Global, text: &mut Vec<u8>, of: Among) -> Result<(), AllocError> {
        if self.ranks.len() == of.outcomes {
            return push(text, "always");
        }
        if of.have_shares {
            push_of_hundred(alloc, text, self.share)?;
        }
        push_ranks(text, &self.ranks)
    }
}

impl Occurrences {
    pub(crate) fn new(alloc: Global, hash: LabelHash) -> Occurrences {
        Occurrences {
            whats: IndexSet::with_hasher(alloc, hash),
            each: Vec::new(alloc),
        }
    }

    // The place of what became of it, which is last if it is new.
    fn place(&mut self, alloc: Global, what: Vec<u8>) -> Result<usize, AllocError> {
        let (place, is_new) = match self.whats.insert_full(what) {
            Ok(placed) => placed,
            Err(_) => return Err(AllocError),
        };
        if is_new {
            let occurrence = Occurrence {
                share: 0.0,
                ranks: Vec::new(alloc),
            };
            self.each.push(occurrence)?;
        }
        Ok(place)
    }

    // Adds what became of it in one more outcome.
    pub(crate) fn add(
        &mut self,
        alloc: Global,
        what: Vec<u8>,
        share: f64,
        rank: u64,
    ) -> Result<(), AllocError> {
        let place = self.place(alloc, what)?;
        if place < self.each.len() {
            let occurrence = &mut self.each[place];
            occurrence.share = occurrence.share + share;
            occurrence.ranks.push(rank)?;
        }
        Ok(())
    }

    // Appends the text that tells them from others.
    pub(crate) fn push_signature(&self, text: &mut Vec<u8>) -> Result<(), AllocError> {
        let whats = self.whats.as_slice();
        for at in 0..whats.len() {
            text.extend_from_slice(&whats[at])?;
            if at < self.each.len() {
                push_numbers(text, &self.each[at].ranks)?;
            }
            push(text, "\n")?;
        }
        Ok(())
    }

    // Appends what became of it at this place, in a column of this width, and in which outcomes.
    fn push_place(
        &self,
        alloc: Global,
        text: &mut Vec<u8>,
        at: usize,
        width: usize,
        of: Among,
    ) -> Result<(), AllocError> {
        let whats = self.whats.as_slice();
        if at < whats.len() && at < self.each.len() {
            push_column(text, &whats[at], width)?;
            push(text, "  ")?;
            self.each[at].push_which(alloc, text, of)?;
        }
        Ok(())
    }

    // The length of the longest of all that became of it.
    fn width(&self) -> usize {
        let mut width: usize = 0;
        for what in self.whats.as_slice() {
            width = width.max(what.len());
        }
        width
    }
}

// The widths of the names, at most 40, and of all that became of them.
fn widths(rows: &[ReportRow]) -> (usize, usize) {
    let mut left: usize = 0;
    let mut middle: usize = 0;
    for row in rows {
        left = left.max(row.names.len());
        middle = middle.max(row.occurrences.width());
    }
    (left.min(40), middle)
}

impl ReportRow {
    // Appends a line for what became of it at this place: the names stand on the first.
    fn push_line(
        &self,
        alloc: Global,
        text: &mut Vec<u8>,
        at: usize,
        widths: (usize, usize),
        of: Among,
    ) -> Result<(), AllocError> {
        let (left, middle) = widths;
        let names: &[u8] = if at == 0 { &self.names } else { &[] };
        push_column(text, names, left)?;
        self.occurrences.push_place(alloc, text, at, middle, of)?;
        push(text, "\n")
    }

    fn push_lines(
        &self,
        alloc: Global,
        text: &mut Vec<u8>,
        widths: (usize, usize),
        of: Among,
    ) -> Result<(), AllocError> {
        for at in 0..self.occurrences.each.len() {
            self.push_line(alloc, text, at, widths, of)?;
        }
        Ok(())
    }
}

// Appends the rows, which tell of these outcomes.
pub(crate) fn push_rows(
    alloc: Global,
    text: &mut Vec<u8>,
    rows: &[ReportRow],
    of: Among,
) -> Result<(), AllocError> {
    let widths = widths(rows);
    for row in rows {
        row.push_lines(alloc, text, widths, of)?;
    }
    Ok(())
}
