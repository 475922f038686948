//! The counts of one page.
ghost use Rattle.std.specs.Prelude.{ℕ, ◌≡◌, ◌==◌, ◌+◌, ◌-◌, ◌^◌, ◌<◌, ◌≤◌, ◌↔◌, if◌then◌else◌, get_or, is_some, length, None, Some, IfOk, IsTrue};
ghost use Rattle.buffer_holds.specs.Pages.{cell_at, count_in, in_run, is_in, tidied, IsBlank, IsIn, RaisesSet, SetsCell};

use std::alloc::{AllocError, Global};
use std::boxed::Box;
use std::marker::Model;

// The cells of a page.
#[derive(Drop)]
struct Cells {
    // Bit i says whether something is in cell i. The count of an empty cell is 0.
    full: u128,
    counts: [u32; 128],
}

// Counts of a part, in memory of their own, which stay where they are: a cell for each kind of handle.
#[derive(Drop)]
pub(crate) struct Page {
    cells: Box<Cells>,
}

// One more in each count of a run. The answer is the greatest of these.
#[inline(always)]
fn raise_run(counts: &mut [u32; 128], first: usize, size: u32) -> u32
    requires there { first + size ≤ 128 }
    requires fits { (at : ℕ) → first ≤ at → at < first + size → get_or counts.old at 0 + 1 < 2 ^ 32 }
    ensures size { length counts.new ≡ 128 }
    ensures raised { (at : ℕ) → get_or counts.new at 0
        ≡ get_or counts.old at 0 + (if in_run first size at then 1 else 0) }
    ensures most { (at : ℕ) → first ≤ at → at < first + size → get_or counts.new at 0 ≤ result }
    ensures least { (most : ℕ) → ((at : ℕ) → first ≤ at → at < first + size → get_or counts.new at 0 ≤ most)
        → result ≤ most }
{
    let end = first + size as usize;
    let mut at = first;
    let mut most: u32 = 0;
    while at < end {
        let count = counts[at] + 1;
        counts[at] = count;
        most = most.max(count);
        at += 1;
    }
    most
}

// One more in each count of a set, as `Page::raise` does it. The answer is the greatest of these. The counts
// of a run stand side by side, and are raised at once.
#[inline(always)]
fn raise_counts(counts: &mut [u32; 128], first: usize, set: u64) -> u32
    requires near { first < 128 }
    requires there { (at : ℕ) → IsIn first set at → at < 128 }
    requires fits { (at : ℕ) → IsIn first set at → get_or counts.old at 0 + 1 < 2 ^ 32 }
    ensures size { length counts.new ≡ 128 }
    ensures raised { (at : ℕ) → get_or counts.new at 0
        ≡ get_or counts.old at 0 + (if is_in first set at then 1 else 0) }
    ensures most { (at : ℕ) → IsIn first set at → get_or counts.new at 0 ≤ result }
    ensures least { (most : ℕ) → ((at : ℕ) → IsIn first set at → get_or counts.new at 0 ≤ most)
        → result ≤ most }
{
    let mut rest = set;
    let mut at = first;
    let mut most: u32 = 0;
    while rest != 0 {
        let zeros = rest.trailing_zeros();
        let low = rest >> zeros;
        let ones = low.trailing_ones();
        let start = at + zeros as usize;
        let greatest = raise_run(counts, start, ones);
        most = most.max(greatest);
        at = start + ones as usize;
        rest = (low >> 1) >> (ones - 1);
    }
    most
}

impl Model for Page {
    ghost use Rattle.std.specs.Prelude.{ℕ, List, Option};
    ghost use Rattle.buffer_holds.specs.Pages.{masked, IsMasked};

    ghost Value = { List (Option ℕ) };

    ghost view = { λ p. masked p.cells.value.full p.cells.value.counts };

    ghost invariant = { λ p. IsMasked p.cells.value.full p.cells.value.counts };
}

impl Page {
    // All cells are empty.
    pub(crate) fn new(alloc: Global) -> Result<Page, AllocError>
        ensures { IfOk result (λ page. IsBlank page) }
    {
        let cells = Cells {
            full: 0,
            counts: [0; 128],
        };
        match Box::new(alloc, cells) {
            Ok(cells) => Ok(Page { cells }),
            Err(_) => Err(AllocError),
        }
    }

    // The count in the cell, and 0 where it is empty.
    #[inline(always)]
    pub(crate) fn get(&self, at: usize) -> u32
        requires { at < 128 }
        ensures { result ≡ count_in self.now at }
    {
        self.cells.counts[at]
    }

    // Whether something is in the cell, be it a count of 0.
    #[inline(always)]
    pub(crate) fn is_full(&self, at: usize) -> bool
        requires { at < 128 }
        ensures { result ≡ is_some (cell_at self.now at) }
    {
        (self.cells.full >> at) % 2 == 1
    }

    // Whether all cells are empty.
    #[inline(always)]
    pub(crate) fn is_blank(&self) -> bool
        ensures { IsTrue result ↔ IsBlank self.now }
    {
        self.cells.full == 0
    }

    // One handle more in each cell of a set: bit i stands for the cell that is i behind the first. The answer is
    // the greatest of their counts.
    #[inline(always)]
    pub(crate) fn raise(&mut self, first: usize, set: u64) -> u32
        requires near { first < 128 }
        requires there { (at : ℕ) → IsIn first set at → at < 128 }
        requires fits { (at : ℕ) → IsIn first set at → count_in self.old at + 1 < 2 ^ 32 }
        ensures raised { RaisesSet self.old self.new first set }
        ensures most { (at : ℕ) → IsIn first set at → count_in self.new at ≤ result }
        ensures least { (most : ℕ) → ((at : ℕ) → IsIn first set at → count_in self.new at ≤ most)
            → result ≤ most }
    {
        self.cells.full |= (set as u128) << first;
        raise_counts(&mut self.cells.counts, first, set)
    }

    // One handle less in the cell, which stays, though it may be of 0.
    #[inline(always)]
    pub(crate) fn lower(&mut self, at: usize)
        requires there { at < 128 }
        requires some { 0 < count_in self.old at }
        ensures { SetsCell self.old self.new at (Some (count_in self.old at - 1)) }
    {
        self.cells.counts[at] -= 1;
    }

    // One handle less in the cell, which is emptied where that was the last one.
    #[inline(always)]
    pub(crate) fn take(&mut self, at: usize)
        requires there { at < 128 }
        requires some { 0 < count_in self.old at }
        ensures { (other : ℕ) → count_in self.new other
            ≡ (if at == other then count_in self.old at - 1 else count_in self.old other) }
    {
        self.lower(at);
        let count = self.get(at);
        if count == 0 {
            self.clear(at);
        }
    }

    // Empties the cell if it is of 0.
    #[inline(always)]
    pub(crate) fn tidy(&mut self, at: usize)
        requires { at < 128 }
        ensures { SetsCell self.old self.new at (tidied (cell_at self.old at)) }
    {
        let count = self.get(at);
        if count == 0 {
            self.clear(at);
        }
    }

    // Empties a cell of 0.
    #[inline(always)]
    fn clear(&mut self, at: usize)
        requires there { at < 128 }
        requires none { count_in self.old at ≡ 0 }
        ensures { SetsCell self.old self.new at None }
    {
        self.cells.full &= !(1 << at);
    }
}
