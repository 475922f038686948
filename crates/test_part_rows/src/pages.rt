//! A pool of pages. Buffers are called by their first page.
ghost use Rattle.std.specs.Prelude.{◌≡◌, ◌≤◌, true};
ghost use Rattle.buffer_pool.specs.Holdings.{in_run, HasRun};

use crate::line::{Line, small};
use crate::runs::{Runs, push_one};
use crate::verb::Verb;
use buffer_pool::{Placed, Pool, PoolFault};
use script_lines::Part;
use sm_names::{Interval, MAX_PAGES};
use std::alloc::Global;
use test_streams::Text;

/// A pool.
#[derive(Drop)]
pub struct Pages {
    pool: Pool,
}

// Which pages: from the first to the last, by this step.
#[derive(Clone, Copy)]
struct Range {
    first: u32,
    last: u32,
    step: u32,
}

// The pages that a line names: all from one to another by a step of 1 or more, or one alone.
fn range_of(line: &Line) -> Range {
    let [first, last, step, _] = line.numbers;
    Range {
        first: small(first),
        last: small(last.max(first)),
        step: small(step.max(1)),
    }
}

// Whether the page is one of these.
fn is_among(range: Range, page: u32) -> bool {
    let Some(past) = page.checked_sub(range.first) else {
        return false;
    };
    page <= range.last && past.checked_rem(range.step) == Some(0)
}

// Gives back the buffers that begin at these pages, and answers how many those are.
fn give_back(pool: &mut Pool, range: Range) -> u64 {
    match pool.held() {
        Ok(held) => {
            let mut count: u64 = 0;
            for back in &held {
                if !is_among(range, back.start) {
                    continue;
                }
                pool.give_back(back.start, back.pages);
                count = count.wrapping_add(1);
            }
            count
        }
        Err(_) => 0,
    }
}

// Whether the interval is of this many pages, and lies behind this many others of as many from this page on.
fn is_next(next: Interval, start: u32, pages: u32, count: u32) -> bool
    ensures { result ≡ true → next ≡ in_run start pages count }
{
    let end = u64::from(start) + u64::from(count) * u64::from(pages);
    next.pages == pages && u64::from(next.start) == end
}

// How many of these are of this many pages and lie side by side from this page on.
fn run_from(held: &[Interval], start: u32, pages: u32) -> u32
    ensures { HasRun start pages result held.now }
{
    let mut count = 0;
    for next in held {
        if count == MAX_PAGES || !is_next(*next, start, pages, count) {
            continue;
        }
        count += 1;
    }
    count
}

// Gives back at once all that are of this many pages and lie side by side from this page on, and answers
// how many those are.
fn give_back_from(pool: &mut Pool, start: u32, pages: u32) -> u64 {
    match pool.held() {
        Ok(held) => {
            let count = run_from(&held, start, pages);
            if count > 0 {
                pool.give_back_run(start, pages, count);
            }
            u64::from(count)
        }
        Err(_) => 0,
    }
}

// Puts the pages of buffers that were placed behind what is there, and how many holes were looked at.
fn push_placed(placed: &Placed, pages_each: u32, text: &mut Text) {
    let mut runs = Runs::new(u64::from(pages_each));
    text.word(":");
    for start in &placed.starts {
        runs.add(text, u64::from(*start));
    }
    runs.end(text);
    text.push(&[Part::Word(" by "), Part::Counted(placed.looks, "look")]);
}

// Puts the pages of each buffer behind what is there.
fn push_intervals(held: &[Interval], text: &mut Text) {
    text.word(":");
    for one in held {
        push_one(text, u64::from(one.start), u64::from(one.pages));
        text.word(",");
    }
}

impl Pages {
    /// A pool of this many pages, if it may have this many and there is memory.
    pub fn new(alloc: Global, pages: u32) -> Option<Pages> {
        if pages == 0 || MAX_PAGES < pages {
            return None;
        }
        match Pool::new(alloc, pages) {
            Ok(pool) => Some(Pages { pool }),
            Err(_) => None,
        }
    }

    // Places this many buffers of this many pages.
    fn place(&mut self, count: u32, pages_each: u32, text: &mut Text) {
        if count == 0 || pages_each == 0 {
            return text.word(": not understood");
        }
        match self.pool.place(count, pages_each) {
            Ok(placed) => push_placed(&placed, pages_each, text),
            Err(PoolFault::PoolFull) => text.word(": full"),
            Err(PoolFault::NoMemory) => text.word(": no memory"),
        }
    }

    // Puts the pages of each buffer that is held behind what is there.
    fn push_held(&self, text: &mut Text) {
        match self.pool.held() {
            Ok(held) => {
                push_intervals(&held, text);
                self.push_free(" ", text);
            }
            Err(_) => text.word(": no memory"),
        }
    }

    // Puts how many pages are free behind what is there.
    fn push_free(&self, before: &str, text: &mut Text) {
        let free = u64::from(self.pool.free_pages());
        text.push(&[Part::Word(before), Part::Number(free), Part::Word(" free")]);
    }

    // Puts behind what is there that this many buffers went back.
    fn push_back(&self, count: u64, text: &mut Text) {
        text.push(&[Part::Word(": "), Part::Counted(count, "buffer")]);
        self.push_free(", ", text);
    }

    /// Takes a line, which places buffers, gives some back, or asks which are held.
    pub fn take(&mut self, line: &Line, text: &mut Text) {
        let [first, second, ..] = line.numbers;
        match line.verb {
            Verb::Place => {
                self.place(small(first), small(second), text);
                self.push_free(", ", text);
            }
            Verb::Back => {
                let count = give_back(&mut self.pool, range_of(line));
                self.push_back(count, text);
            }
            Verb::Run => {
                let count = give_back_from(&mut self.pool, small(first), small(second));
                self.push_back(count, text);
            }
            Verb::Held => self.push_held(text),
            _ => text.word(": not understood"),
        }
    }
}
