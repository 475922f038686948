//! Intervals in blocks, so that a change moves no more than a block of them.
ghost use Rattle.std.specs.Prelude.{◌≡◌, true, false, ◌+◌, ◌-◌, ◌*◌, ◌++◌, ◌∷◌, [], ◌<◌, ◌≤◌, ◌^◌, length, take, drop, set, get_or, slice_index_or, nat_lt, nat_le, max, vec_capacity, All, IfOk, OnOk};
ghost use Rattle.std.specs.List.{insert, insert_slice, remove, prefix_len};
ghost use Rattle.std.specs.List.Sorted.{IsNonDecreasingBy};
ghost use Rattle.sm_names.specs.declared.keys.Interval.{Interval};
ghost use Rattle.buffer_pool.specs.Fitting.{rooms, starts_in, holes_after, looks_in};
ghost use Rattle.buffer_pool.specs.Holes.{end_of};
ghost use Rattle.buffer_pool.specs.Rows.{capacity_of, all_in, spot_index, HasIntervalAt, IsInsertSpot, IsNextOrEnd, IsChanged, IsPassed, IsSane};

use crate::block::{Block, FULL, HALF, end, next_guess, place_to_look};
use sm_names::{Interval, MAX_PAGES};
use std::alloc::{AllocError, Global};
use std::marker::Model;

/// Where an interval lies: in which block, and behind how many of it.
#[derive(Clone, Copy)]
pub(crate) struct Spot {
    pub(crate) block: usize,
    pub(crate) offset: usize,
}

/// A block, and how many intervals lie in those before it.
#[derive(Clone, Copy)]
pub(crate) struct Reach {
    pub(crate) block: usize,
    pub(crate) before: usize,
}

/// Intervals by blocks.
#[derive(Drop)]
pub(crate) struct Blocks {
    // Each has an interval.
    used: Vec<Block>,
    // None has.
    spare: Vec<Block>,
    // Where the last change was.
    near: Spot,
}

impl Model for Blocks {
    ghost use Rattle.std.specs.Prelude.{length, vec_capacity};
    ghost use Rattle.buffer_pool.specs.Rows.{Blocked, AreBlocks};

    ghost Value = { Blocked };

    ghost view = { λ b. record { lists = b.used.items; spares = length b.spare.items } };

    ghost invariant = { λ b.
        AreBlocks b.used.items b.spare.items (vec_capacity b.used) (vec_capacity b.spare) };
}

impl Blocks {
    /// No intervals and no blocks.
    pub(crate) fn new(alloc: Global) -> Blocks
        ensures { result ≡ record { lists = []; spares = 0 } }
    {
        Blocks {
            used: Vec::new(alloc),
            spare: Vec::new(alloc),
            near: Spot {
                block: 0,
                offset: 0,
            },
        }
    }

    /// Where the blocks have their memory from.
    pub(crate) fn allocator(&self) -> Global {
        *self.used.allocator()
    }

    /// How many blocks there are, the spare ones too.
    pub(crate) fn blocks(&self) -> usize
        ensures { result ≡ length self.now.lists + self.now.spares }
    {
        self.used.len() + self.spare.len()
    }

    /// Whether a block is spare.
    pub(crate) fn has_spare(&self) -> bool
        ensures { result ≡ nat_lt 0 self.now.spares }
    {
        self.spare.len() > 0
    }

    /// Makes two blocks one, so that one is spare, where there is room for one more interval.
    pub(crate) fn gather(&mut self)
        requires none { self.old.spares ≡ 0 }
        ensures items { all_in self.new.lists ≡ all_in self.old.lists }
        ensures capacity { capacity_of self.new ≡ capacity_of self.old }
        ensures spare { length (all_in self.old.lists) < capacity_of self.old →
            0 < self.new.spares }
    {
        let at = short_pair(&self.used);
        if at + 1 < self.used.len() {
            self.merge(at);
        }
    }

    /// The interval at a spot.
    pub(crate) fn get(&self, spot: Spot) -> Interval
        requires { HasIntervalAt self.now.lists spot }
        ensures { result ≡ slice_index_or (all_in self.now.lists)
            (spot_index self.now.lists spot) result }
    {
        self.used[spot.block].get(spot.offset)
    }

    /// Whether an interval lies at the spot.
    pub(crate) fn has_interval(&self, spot: Spot) -> bool
        ensures yes { result ≡ true → HasIntervalAt self.now.lists spot }
        ensures no { result ≡ false → HasIntervalAt self.now.lists spot → ⊥ }
    {
        spot.block < self.used.len() && spot.offset < self.used[spot.block].len()
    }

    /// The same place, as the first spot of the next block where it lies behind the last of one.
    pub(crate) fn settle(&self, spot: Spot) -> Spot
        requires { IsInsertSpot self.now.lists spot }
        ensures settled { IsNextOrEnd self.now.lists result }
        ensures place { spot_index self.now.lists result ≡ spot_index self.now.lists spot }
        ensures block { spot.block ≤ result.block }
    {
        if spot.block < self.used.len() && spot.offset == self.used[spot.block].len() {
            Spot {
                block: spot.block + 1,
                offset: 0,
            }
        } else {
            spot
        }
    }

    /// The spot behind all that end before this page.
    pub(crate) fn find(&self, page: u64) -> Spot
        requires { IsNonDecreasingBy end_of (all_in self.now.lists) }
        ensures within { IsInsertSpot self.now.lists result }
        ensures place { spot_index self.now.lists result
            ≡ prefix_len (λ i. nat_lt (end_of i) page) (all_in self.now.lists) }
    {
        let block = block_of(&self.used, page, self.near.block);
        let mut offset = 0;
        if block < self.used.len() {
            offset = self.used[block].place(page, self.near.offset);
        }
        Spot { block, offset }
    }

    /// Puts another interval in the place of one.
    pub(crate) fn set(&mut self, spot: Spot, new: Interval)
        requires { HasIntervalAt self.old.lists spot }
        ensures changed { IsChanged self.old self.new spot
            (set (all_in self.old.lists) (spot_index self.old.lists spot) new) }
        ensures lists { self.new.lists ≡ set self.old.lists spot.block
            (set (get_or self.old.lists spot.block []) spot.offset new) }
    {
        self.used[spot.block].set(spot.offset, new);
        self.near = spot;
    }

    /// Puts an interval in before a spot.
    pub(crate) fn insert(&mut self, spot: Spot, new: Interval)
        requires within { IsInsertSpot self.old.lists spot }
        requires spare { 0 < self.old.spares }
        ensures { IsChanged self.old self.new spot
            (insert (all_in self.old.lists) (spot_index self.old.lists spot) new) }
    {
        if spot.block == self.used.len() {
            self.begin(spot.block, new);
        } else if self.used[spot.block].len() < FULL {
            self.put(spot, new);
        } else if spot.offset == FULL {
            self.begin(spot.block + 1, new);
        } else {
            self.cut(spot.block);
            if spot.offset <= HALF {
                self.put(spot, new);
            } else {
                let behind = Spot {
                    block: spot.block + 1,
                    offset: spot.offset - HALF,
                };
                self.put(behind, new);
            }
        }
    }

    /// Takes the interval at a spot out.
    pub(crate) fn remove(&mut self, spot: Spot)
        requires { HasIntervalAt self.old.lists spot }
        ensures { IsChanged self.old self.new spot
            (remove (all_in self.old.lists) (spot_index self.old.lists spot)) }
    {
        self.used[spot.block].remove(spot.offset);
        self.near = spot;
        clear(&mut self.used, &mut self.spare, spot.block);
    }

    // Puts an interval into a block that is not full.
    fn put(&mut self, spot: Spot, new: Interval)
        requires there { spot.block < length self.old.lists }
        requires within { spot.offset ≤ length (get_or self.old.lists spot.block []) }
        requires room { length (get_or self.old.lists spot.block []) < FULL }
        ensures lists { self.new.lists ≡ set self.old.lists spot.block
            (insert (get_or self.old.lists spot.block []) spot.offset new) }
        ensures spares { self.new.spares ≡ self.old.spares }
    {
        self.used[spot.block].insert(spot.offset, new);
        self.near = Spot {
            block: spot.block,
            offset: spot.offset + 1,
        };
    }

    // Puts an interval into a spare block, which comes before the one at this place.
    fn begin(&mut self, at: usize, new: Interval)
        requires within { at ≤ length self.old.lists }
        requires spare { 0 < self.old.spares }
        ensures lists { self.new.lists ≡ insert self.old.lists at (new ∷ []) }
        ensures spares { self.new.spares + 1 ≡ self.old.spares }
    {
        let mut block = self.spare.pop().unwrap();
        block.insert(0, new);
        self.used.insert(at, block).unwrap();
        self.near = Spot {
            block: at,
            offset: 1,
        };
    }

    // Moves the second half of a full block into a spare one, which comes behind it.
    fn cut(&mut self, at: usize)
        requires there { at < length self.old.lists }
        requires full { HALF < length (get_or self.old.lists at []) }
        requires spare { 0 < self.old.spares }
        ensures lists { self.new.lists
            ≡ insert (set self.old.lists at (take HALF (get_or self.old.lists at []))) (at + 1)
            (drop HALF (get_or self.old.lists at [])) }
        ensures spares { self.new.spares + 1 ≡ self.old.spares }
    {
        let mut block = self.spare.pop().unwrap();
        self.used[at].cut_into(HALF, &mut block);
        self.used.insert(at + 1, block).unwrap();
    }

    // Moves the intervals of a block behind those of the one before it.
    fn merge(&mut self, at: usize)
        requires there { at + 1 < length self.old.lists }
        requires room { length (get_or self.old.lists at [])
            + length (get_or self.old.lists (at + 1) []) ≤ FULL }
        ensures lists { self.new.lists
            ≡ set (remove self.old.lists (at + 1)) at
            (get_or self.old.lists at [] ++ get_or self.old.lists (at + 1) []) }
        ensures spares { self.new.spares ≡ self.old.spares + 1 }
    {
        let mut block = self.used.remove(at + 1);
        self.used[at].take_in(&mut block);
        self.spare.push_reserved(block);
    }

    // Makes one more block.
    fn add_spare(&mut self) -> Result<(), AllocError>
        ensures lists { self.new.lists ≡ self.old.lists }
        ensures kept { self.old.spares ≤ self.new.spares }
        ensures more { OnOk result (self.new.spares ≡ self.old.spares + 1) }
    {
        self.used.reserve(self.spare.len() + 1)?;
        self.spare.reserve(self.used.len() + 1)?;
        let block = Block::new(self.allocator())?;
        self.spare.push_reserved(block);
        Ok(())
    }

    /// Makes room for this many intervals in all.
    pub(crate) fn reserve(&mut self, most: usize) -> Result<(), AllocError>
        ensures lists { self.new.lists ≡ self.old.lists }
        ensures capacity { capacity_of self.old ≤ capacity_of self.new }
        ensures room { OnOk result (most ≤ capacity_of self.new) }
    {
        let blocks = most / HALF + 2;
        while self.blocks() < blocks {
            self.add_spare()?;
        }
        Ok(())
    }

    /// The first block that may have an interval of this many pages, from one on before which none has.
    pub(crate) fn first(&self, from: Reach, pages_each: u32) -> Reach
        requires few { length (all_in self.now.lists) ≤ MAX_PAGES }
        requires from { IsPassed pages_each from self.now.lists }
        ensures { IsPassed pages_each result self.now.lists }
    {
        let mut block = from.block;
        let mut before = from.before;
        while block < self.used.len() && !self.used[block].may_fit(pages_each) {
            before += self.used[block].len();
            block += 1;
        }
        Reach { block, before }
    }

    /// How many of so many buffers are left once those are placed that have room, where before a block none
    /// has.
    pub(crate) fn left_over(&mut self, from: Reach, count: u32, pages_each: u32) -> u32
        requires { IsPassed pages_each from self.old.lists }
        ensures left { result ≡ count - rooms pages_each (all_in self.old.lists) }
        ensures same { self.new ≡ self.old }
    {
        let mut left = count;
        let mut block = from.block;
        while left > 0 && block < self.used.len() {
            left = self.used[block].left_over(left, pages_each);
            block += 1;
        }
        left
    }

    /// Takes pages for this many buffers, which have room, each from the front of the first interval that has
    /// as many, and pushes where they begin. Answers at how many intervals a search for them looks.
    pub(crate) fn take(
        &mut self,
        from: Reach,
        most: u32,
        pages_each: u32,
        starts: &mut Vec<u32>,
    ) -> u64
        requires from { IsPassed pages_each from self.old.lists }
        requires rooms { most ≤ rooms pages_each (all_in self.old.lists) }
        requires sane { All IsSane (all_in self.old.lists) }
        requires few { length (all_in self.old.lists) ≤ MAX_PAGES }
        requires room { length starts.old.items + most ≤ vec_capacity starts.old }
        ensures items { all_in self.new.lists ≡ holes_after pages_each most (all_in self.old.lists) }
        ensures capacity { capacity_of self.new ≡ capacity_of self.old }
        ensures passed { IsPassed pages_each from self.new.lists }
        ensures starts { starts.new.items
            ≡ starts.old.items ++ starts_in pages_each most (all_in self.old.lists) }
        ensures looks { result ≡ looks_in pages_each most (all_in self.old.lists) }
    {
        let mut block = from.block;
        let mut before = from.before;
        let mut count = 0;
        let mut looks = 0;
        while count < most {
            let taken = self.used[block].take(most - count, pages_each, before, starts);
            count += taken.count;
            looks += taken.looks;
            let kept = clear(&mut self.used, &mut self.spare, block);
            before += kept;
            if kept > 0 {
                block += 1;
            }
        }
        looks
    }
}

// Makes a block spare if it has no interval. Answers how many it has.
fn clear(used: &mut Vec<Block>, spare: &mut Vec<Block>, at: usize) -> usize
    requires there { at < length used.old.items }
    requires room { length spare.old.items < vec_capacity spare.old }
    ensures count { result ≡ length (get_or used.old.items at []) }
    ensures gone { result ≡ 0 → (used.new.items ≡ remove used.old.items at)
        × (spare.new.items ≡ spare.old.items ++ [] ∷ []) }
    ensures kept { 0 < result → (used.new.items ≡ used.old.items)
        × (spare.new.items ≡ spare.old.items) }
    ensures capacity { (vec_capacity used.old ≤ vec_capacity used.new)
        × (vec_capacity spare.old ≤ vec_capacity spare.new) }
{
    let count = used[at].len();
    if count == 0 {
        let block = used.remove(at);
        spare.push_reserved(block);
    }
    count
}

// The first of two blocks side by side that have no more intervals than one can have, if there are such.
fn short_pair(blocks: &[Block]) -> usize
    requires { length blocks.now < 2 ^ 63 }
    ensures within { result ≤ length blocks.now }
    ensures none { length blocks.now ≤ result + 1 →
        (length blocks.now - 1) * HALF ≤ length (all_in blocks.now) }
    ensures short { result + 1 < length blocks.now
        → length (get_or blocks.now result []) + length (get_or blocks.now (result + 1) []) ≤ FULL }
{
    let mut at = 0;
    while at + 1 < blocks.len() && blocks[at].len() + blocks[at + 1].len() > FULL {
        at += 1;
    }
    at
}

// The block in which the place lies behind all that end before this page. It looks close to a block
// first, and then searches by halves.
fn block_of(blocks: &[Block], page: u64, near: usize) -> usize
    requires { All (λ b. 0 < length b) blocks.now }
    ensures within { result ≤ length blocks.now }
    ensures none { result ≡ length blocks.now → length blocks.now ≡ 0 }
    ensures below { (d : Interval) → 0 < result
        → end_of (get_or (get_or blocks.now result []) 0 d) < page }
    ensures above { (d : Interval) → result + 1 < length blocks.now
        → page ≤ end_of (get_or (get_or blocks.now (result + 1) []) 0 d) }
{
    let mut low = 0;
    let mut high = blocks.len().saturating_sub(1);
    let mut guess = near;
    while low < high {
        let before = place_to_look(low, high, guess);
        guess = next_guess(guess, near);
        if end(blocks[before + 1].get(0)) < page {
            low = before + 1;
        } else {
            high = before;
        }
    }
    low
}
