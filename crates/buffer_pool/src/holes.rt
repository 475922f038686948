//! First fit and merging on the holes of a pool.
ghost use Rattle.std.specs.Prelude.{ℕ, List, ◌≡◌, ◌+◌, ◌++◌, ◌∷◌, [], ◌<◌, ◌≤◌, ◌^◌, length, take, drop, nat_le, nat_lt, vec_capacity, All, IsTrue, IfOk, OnOk};
ghost use Rattle.std.specs.List.{prefix_len};
ghost use Rattle.sm_names.specs.declared.keys.Interval.{Interval};
ghost use Rattle.buffer_pool.specs.Holes.{end_of};
ghost use Rattle.buffer_pool.specs.Fitting.{rooms, starts_in, holes_after, looks_in};
ghost use Rattle.buffer_pool.specs.Merging.{spaced, first_ends, first_begins, with_merged, with_released};
ghost use Rattle.buffer_pool.specs.Rows.{all_in, spot_index, capacity_of, HasIntervalAt, IsNextOrEnd, IsChanged, IsPassed, IsSane};

use crate::block::end;
use crate::blocks::{Blocks, Reach, Spot};
use crate::placement::Placed;
use sm_names::{Interval, MAX_PAGES};
use std::alloc::{AllocError, Global};
use std::marker::Model;

// Where a search starts of which nothing is known.
const START: Reach = Reach {
    block: 0,
    before: 0,
};

/// The holes by page.
#[derive(Drop)]
pub(crate) struct Holes {
    blocks: Blocks,
    // No hole in the blocks before the reach has this many pages.
    pages: u32,
    reach: Reach,
}

impl Model for Holes {
    ghost use Rattle.buffer_pool.specs.Rows.{BlockRows, all_in, capacity_of, IsPassed};

    ghost Value = { BlockRows };

    ghost view = { λ h. record { items = all_in h.blocks.lists; capacity = capacity_of h.blocks } };

    ghost invariant = { λ h. IsPassed h.pages h.reach h.blocks.lists };
}

impl Holes {
    /// One hole.
    pub(crate) fn of_one(alloc: Global, one: Interval) -> Result<Holes, AllocError>
        ensures { IfOk result (λ holes. holes.items ≡ one ∷ []) }
    {
        let mut blocks = Blocks::new(alloc);
        blocks.reserve(1)?;
        blocks.insert(
            Spot {
                block: 0,
                offset: 0,
            },
            one,
        );
        Ok(Holes {
            blocks,
            pages: 1,
            reach: START,
        })
    }

    /// Makes room for this many in all.
    pub(crate) fn reserve(&mut self, most: usize) -> Result<(), AllocError>
        ensures items { self.new.items ≡ self.old.items }
        ensures capacity { self.old.capacity ≤ self.new.capacity }
        ensures room { OnOk result (most ≤ self.new.capacity) }
    {
        self.blocks.reserve(most)
    }

    /// Whether the holes have room for `count` buffers.
    pub(crate) fn has_rooms(&mut self, count: u32, pages_each: u32) -> bool
        requires pages { 1 ≤ pages_each }
        requires few { length self.old.items ≤ MAX_PAGES }
        ensures rooms { result ≡ nat_le count (rooms pages_each self.old.items) }
        ensures same { self.new ≡ self.old }
    {
        let found = seek(&self.blocks, self.pages, self.reach, pages_each);
        self.pages = pages_each;
        self.reach = found;
        self.blocks.left_over(found, count, pages_each) == 0
    }

    /// Takes pages for this many buffers, which have room, each from the front of the first hole that is not
    /// too small.
    pub(crate) fn take(&mut self, count: u32, pages_each: u32, mut starts: Vec<u32>) -> Placed
        requires pages { 1 ≤ pages_each }
        requires rooms { count ≤ rooms pages_each self.old.items }
        requires sane { All IsSane self.old.items }
        requires few { length self.old.items ≤ MAX_PAGES }
        requires empty { starts.items ≡ [] }
        requires room { count ≤ vec_capacity starts }
        ensures starts { result.starts.items ≡ starts_in pages_each count self.old.items }
        ensures looks { result.looks ≡ looks_in pages_each count self.old.items }
        ensures items { self.new.items ≡ holes_after pages_each count self.old.items }
        ensures capacity { self.new.capacity ≡ self.old.capacity }
    {
        let found = seek(&self.blocks, self.pages, self.reach, pages_each);
        self.pages = pages_each;
        self.reach = found;
        let looks = self.blocks.take(found, count, pages_each, &mut starts);
        Placed { starts, looks }
    }

    /// Puts pages back that nobody holds, as one hole with those that they touch.
    pub(crate) fn release(&mut self, back: Interval)
        requires spaced { IsTrue (spaced 0 self.old.items) }
        requires few { length self.old.items ≤ MAX_PAGES }
        requires fits { All (λ h. end_of h < 2 ^ 32) self.old.items }
        requires back_fits { end_of back < 2 ^ 32 }
        requires room { length (with_released back self.old.items) ≤ self.old.capacity }
        ensures items { self.new.items ≡ with_released back self.old.items }
        ensures capacity { self.new.capacity ≡ self.old.capacity }
    {
        let reach = loosened(&mut self.blocks, self.reach);
        let found = self.blocks.find(u64::from(back.start));
        let spot = self.blocks.settle(found);
        self.reach = lowered(reach, spot);
        put_back(&mut self.blocks, spot, back);
    }
}

// The first block that may have a hole of this many pages. The search starts where one for this many pages
// ended, if they are no more.
fn seek(blocks: &Blocks, known: u32, reach: Reach, pages_each: u32) -> Reach
    requires pages { 1 ≤ pages_each }
    requires few { length (all_in blocks.now.lists) ≤ MAX_PAGES }
    requires known { IsPassed known reach blocks.now.lists }
    ensures { IsPassed pages_each result blocks.now.lists }
{
    let from = if known <= pages_each { reach } else { START };
    blocks.first(from, pages_each)
}

// Makes a block spare, and gives where the next search can start.
fn loosened(blocks: &mut Blocks, reach: Reach) -> Reach
    ensures items { all_in blocks.new.lists ≡ all_in blocks.old.lists }
    ensures capacity { capacity_of blocks.new ≡ capacity_of blocks.old }
    ensures spare { length (all_in blocks.old.lists) < capacity_of blocks.old →
        0 < blocks.new.spares }
    ensures passed { (pages : ℕ) → IsPassed pages reach blocks.old.lists →
        IsPassed pages result blocks.new.lists }
{
    if blocks.has_spare() {
        return reach;
    }
    blocks.gather();
    START
}

// Where the next search can start once a hole changes at the spot.
fn lowered(reach: Reach, spot: Spot) -> Reach
    ensures block { result.block ≤ spot.block }
    ensures passed { (pages : ℕ) (lists : List (List Interval)) → IsPassed pages reach lists →
        IsPassed pages result lists }
{
    if reach.block <= spot.block {
        reach
    } else {
        START
    }
}

// Whether there is a hole at this spot that ends at this page.
fn ends_at(blocks: &Blocks, spot: Spot, page: u32) -> bool
    requires { IsNextOrEnd blocks.now.lists spot }
    ensures { result
        ≡ first_ends page (drop (spot_index blocks.now.lists spot) (all_in blocks.now.lists)) }
{
    blocks.has_interval(spot) && end(blocks.get(spot)) == u64::from(page)
}

// Whether there is a hole at this spot that begins at this page.
fn begins_at(blocks: &Blocks, spot: Spot, page: u64) -> bool
    requires { IsNextOrEnd blocks.now.lists spot }
    ensures { result
        ≡ first_begins page (drop (spot_index blocks.now.lists spot) (all_in blocks.now.lists)) }
{
    blocks.has_interval(spot) && u64::from(blocks.get(spot).start) == page
}

// Makes one hole of this and the next, if they touch.
fn join_next(blocks: &mut Blocks, spot: Spot, hole: Interval)
    requires there { HasIntervalAt blocks.old.lists spot }
    requires few { length (all_in blocks.old.lists) ≤ MAX_PAGES }
    requires fits { All (λ h. end_of h < 2 ^ 32) (all_in blocks.old.lists) }
    ensures { IsChanged blocks.old blocks.new spot
        (take (spot_index blocks.old.lists spot) (all_in blocks.old.lists)
        ++ with_merged hole
        (drop (spot_index blocks.old.lists spot + 1) (all_in blocks.old.lists))) }
{
    let behind = Spot {
        block: spot.block,
        offset: spot.offset + 1,
    };
    let next = blocks.settle(behind);
    if begins_at(blocks, next, end(hole)) {
        let more = blocks.get(next).pages;
        let whole = Interval {
            start: hole.start,
            pages: hole.pages + more,
        };
        blocks.set(spot, whole);
        blocks.remove(next);
    } else {
        blocks.set(spot, hole);
    }
}

// Puts pages back at the spot before which all holes end before them.
fn put_back(blocks: &mut Blocks, spot: Spot, back: Interval)
    requires settled { IsNextOrEnd blocks.old.lists spot }
    requires found { spot_index blocks.old.lists spot
        ≡ prefix_len (λ h. nat_lt (end_of h) back.start) (all_in blocks.old.lists) }
    requires few { length (all_in blocks.old.lists) ≤ MAX_PAGES }
    requires fits { All (λ h. end_of h < 2 ^ 32) (all_in blocks.old.lists) }
    requires back_fits { end_of back < 2 ^ 32 }
    requires room { length (with_released back (all_in blocks.old.lists)) ≤ capacity_of blocks.old }
    requires spare { length (all_in blocks.old.lists) < capacity_of blocks.old →
        0 < blocks.old.spares }
    ensures { IsChanged blocks.old blocks.new spot (with_released back (all_in blocks.old.lists)) }
{
    if ends_at(blocks, spot, back.start) {
        let before = blocks.get(spot);
        let hole = Interval {
            start: before.start,
            pages: before.pages + back.pages,
        };
        join_next(blocks, spot, hole);
    } else if begins_at(blocks, spot, end(back)) {
        let behind = blocks.get(spot);
        let hole = Interval {
            start: back.start,
            pages: back.pages + behind.pages,
        };
        blocks.set(spot, hole);
    } else {
        blocks.insert(spot, back);
    }
}
