//! A block of intervals: a short list, which a change does not copy.
ghost use Rattle.std.specs.Prelude.{List, ◌≡◌, false, ◌+◌, ◌-◌, ◌*◌, ◌<◌, ◌≤◌, ◌^◌, [], ◌++◌, length, take, drop, set, slice_index_or, nat_lt, min, vec_capacity, All, IfOk};
ghost use Rattle.std.specs.List.{insert, insert_slice, remove, prefix_len};
ghost use Rattle.std.specs.List.Sorted.{IsNonDecreasingBy};
ghost use Rattle.sm_names.specs.declared.keys.Interval.{Interval};
ghost use Rattle.buffer_pool.specs.Fitting.{rooms, starts_in, holes_after, looks_in, run_starts};
ghost use Rattle.buffer_pool.specs.Holes.{end_of};
ghost use Rattle.buffer_pool.specs.Rows.{IsSane};

use sm_names::{Interval, MAX_PAGES};
use std::alloc::{AllocError, Global};
use std::marker::Model;

/// The most intervals that a block has.
pub(crate) const FULL: usize = 64;

/// How many stay where a full block is divided in two.
pub(crate) const HALF: usize = 32;

/// This many intervals one after another. A change moves those behind it.
#[derive(Drop)]
pub(crate) struct Block {
    cells: Vec<Interval>,
    // No interval has more pages.
    greatest: u32,
}

impl Model for Block {
    ghost use Rattle.std.specs.Prelude.{List, vec_capacity};
    ghost use Rattle.sm_names.specs.declared.keys.Interval.{Interval};
    ghost use Rattle.buffer_pool.specs.Rows.{IsBlock};

    ghost Value = { List Interval };

    ghost view = { λ b. b.cells.items };

    ghost invariant = { λ b. IsBlock b.greatest (vec_capacity b.cells) b.cells.items };
}

impl Block {
    /// A block of none.
    pub(crate) fn new(alloc: Global) -> Result<Block, AllocError>
        ensures { IfOk result (λ block. block ≡ []) }
    {
        Ok(Block {
            cells: Vec::with_capacity(alloc, FULL)?,
            greatest: 0,
        })
    }

    /// How many there are.
    pub(crate) fn len(&self) -> usize
        ensures count { result ≡ length self.now }
        ensures few { result ≤ FULL }
    {
        self.cells.len()
    }

    /// The interval at a place.
    pub(crate) fn get(&self, at: usize) -> Interval
        requires { at < length self.now }
        ensures { result ≡ slice_index_or self.now at result }
    {
        self.cells[at]
    }

    /// Puts another interval in the place of one.
    pub(crate) fn set(&mut self, at: usize, new: Interval)
        requires { at < length self.old }
        ensures { self.new ≡ set self.old at new }
    {
        self.greatest = self.greatest.max(new.pages);
        self.cells[at] = new;
    }

    /// Puts an interval in before the one at this place.
    pub(crate) fn insert(&mut self, at: usize, new: Interval)
        requires within { at ≤ length self.old }
        requires room { length self.old < FULL }
        ensures { self.new ≡ insert self.old at new }
    {
        self.greatest = self.greatest.max(new.pages);
        self.cells.insert(at, new).unwrap();
    }

    /// Takes the interval at a place out.
    pub(crate) fn remove(&mut self, at: usize)
        requires { at < length self.old }
        ensures { self.new ≡ remove self.old at }
    {
        self.cells.remove(at);
    }

    /// Moves those from a place on into a block of none.
    pub(crate) fn cut_into(&mut self, at: usize, other: &mut Block)
        requires within { at ≤ length self.old }
        requires none { other.old ≡ [] }
        ensures front { self.new ≡ take at self.old }
        ensures back { other.new ≡ drop at self.old }
    {
        other.cells.extend_from_slice(&self.cells[at..]).unwrap();
        other.greatest = self.greatest;
        self.cells.truncate(at);
    }

    /// Moves all of another block behind those of this one.
    pub(crate) fn take_in(&mut self, other: &mut Block)
        requires room { length self.old + length other.old ≤ FULL }
        ensures whole { self.new ≡ self.old ++ other.old }
        ensures none { other.new ≡ [] }
    {
        self.cells.extend_from_slice(&other.cells).unwrap();
        self.greatest = self.greatest.max(other.greatest);
        other.cells.truncate(0);
    }

    /// How many end before this page. It looks close to a place first, and then searches by halves.
    pub(crate) fn place(&self, page: u64, near: usize) -> usize
        requires { IsNonDecreasingBy end_of self.now }
        ensures { result ≡ prefix_len (λ i. nat_lt (end_of i) page) self.now }
    {
        let mut low = 0;
        let mut high = self.cells.len();
        let mut guess = near;
        while low < high {
            let at = place_to_look(low, high, guess);
            guess = next_guess(guess, near);
            if end(self.cells[at]) < page {
                low = at + 1;
            } else {
                high = at;
            }
        }
        low
    }

    /// Whether an interval may have this many pages.
    pub(crate) fn may_fit(&self, pages_each: u32) -> bool
        requires { 1 ≤ pages_each }
        ensures { result ≡ false → rooms pages_each self.now ≡ 0 }
    {
        self.greatest >= pages_each
    }

    /// How many of so many buffers are left once those that have room here are placed. Where none has, this
    /// is kept, so that the next search for as many pages passes the block at once.
    pub(crate) fn left_over(&mut self, count: u32, pages_each: u32) -> u32
        requires pages { 1 ≤ pages_each }
        requires some { 1 ≤ count }
        ensures left { result ≡ count - rooms pages_each self.old }
        ensures same { self.new ≡ self.old }
    {
        if self.greatest < pages_each {
            return count;
        }
        let left = left_over_in(&self.cells, count, pages_each);
        if left == count {
            self.greatest = pages_each - 1;
        }
        left
    }

    /// Takes pages for at most this many buffers from the front of each interval that has as many, and
    /// pushes where they begin. So many intervals lie in the blocks before.
    pub(crate) fn take(
        &mut self,
        most: u32,
        pages_each: u32,
        before: usize,
        starts: &mut Vec<u32>,
    ) -> Taken
        requires pages { 1 ≤ pages_each }
        requires sane { All IsSane self.old }
        requires few { before + length self.old ≤ MAX_PAGES }
        requires room { length starts.old.items + most ≤ vec_capacity starts.old }
        ensures count { result.count ≡ min most (rooms pages_each self.old) }
        ensures items { self.new ≡ holes_after pages_each result.count self.old }
        ensures starts { starts.new.items
            ≡ starts.old.items ++ starts_in pages_each result.count self.old }
        ensures looks { result.looks
            ≡ result.count * before + looks_in pages_each result.count self.old }
        ensures capacity { vec_capacity starts.new ≡ vec_capacity starts.old }
    {
        if self.greatest < pages_each {
            return Taken { count: 0, looks: 0 };
        }
        let mut count = 0;
        let mut looks = 0;
        let mut at = first_in(&self.cells, pages_each);
        let mut kept = at;
        while count < most && at < self.cells.len() {
            let hole = self.cells[at];
            let more = (most - count).min(hole.pages / pages_each);
            push_starts(starts, hole.start, pages_each, more);
            looks += more as u64 * (before + kept + 1) as u64;
            count += more;
            let pages = more * pages_each;
            if pages < hole.pages {
                self.cells[kept] = Interval {
                    start: hole.start + pages,
                    pages: hole.pages - pages,
                };
                kept += 1;
            }
            at += 1;
        }
        self.cells.copy_within(at.., kept);
        self.cells.truncate(self.cells.len() - (at - kept));
        Taken { count, looks }
    }
}

/// Buffers that were placed: how many, and at how many intervals a search for them looks.
#[derive(Clone, Copy)]
pub(crate) struct Taken {
    pub(crate) count: u32,
    pub(crate) looks: u64,
}

/// The page behind the last of an interval.
pub(crate) fn end(i: Interval) -> u64
    ensures { result ≡ end_of i }
{
    u64::from(i.start) + u64::from(i.pages)
}

/// A place from `low` up to `high`: the guess, or the middle.
pub(crate) fn place_to_look(low: usize, high: usize, guess: usize) -> usize
    requires { low < high }
    ensures { (low ≤ result) × (result < high) }
{
    if low <= guess && guess < high {
        guess
    } else {
        low + (high - low) / 2
    }
}

/// Which place to look at after this one: the one before the last change, and then none.
pub(crate) fn next_guess(guess: usize, near: usize) -> usize {
    if guess == near {
        near.wrapping_sub(1)
    } else {
        usize::MAX
    }
}

// How many of so many buffers are left once those that have room are placed.
fn left_over_in(holes: &[Interval], count: u32, pages_each: u32) -> u32
    requires { 1 ≤ pages_each }
    ensures { result ≡ count - rooms pages_each holes.now }
{
    let mut left = count;
    for at in 0..holes.len() {
        if holes[at].pages >= pages_each {
            left = left.saturating_sub(holes[at].pages / pages_each);
            if left == 0 {
                return 0;
            }
        }
    }
    left
}

// The first that has this many pages, or their number.
fn first_in(holes: &[Interval], pages_each: u32) -> usize
    requires { 1 ≤ pages_each }
    ensures within { result ≤ length holes.now }
    ensures passed { rooms pages_each (take result holes.now) ≡ 0 }
{
    let mut at = 0;
    while at < holes.len() && holes[at].pages < pages_each {
        at += 1;
    }
    at
}

// Pushes the starts of this many buffers of as many pages, side by side from this page on.
fn push_starts(starts: &mut Vec<u32>, start: u32, pages: u32, count: u32)
    requires room { length starts.old.items + count ≤ vec_capacity starts.old }
    requires fits { start + count * pages < 2 ^ 32 }
    ensures items { starts.new.items ≡ starts.old.items ++ run_starts start pages count }
    ensures capacity { vec_capacity starts.new ≡ vec_capacity starts.old }
{
    let mut next = start;
    let mut left = count;
    while left > 0 {
        starts.push_reserved(next);
        next += pages;
        left -= 1;
    }
}
