//! The pool.
ghost use Rattle.std.specs.Prelude.{ℕ, ◌≡◌, ◌+◌, ◌*◌, ◌<◌, ◌≤◌, ◌++◌, ◌↔◌, [], length, vec_capacity, ◌^◌, IfOk, OnErr, OnOk, None, Err, Contains};
ghost use Rattle.sm_names.specs.Pages.{places};
ghost use Rattle.buffer_pool.specs.Holdings.{HasRun, IsSound, total_pages, with_buffers, without, without_run};
ghost use Rattle.buffer_pool.specs.Placing.{PlacesBuffers};
ghost use Rattle.buffer_pool.specs.Lengths.{held_from};

use crate::holding::{hold, let_go, list_held};
use crate::holes::Holes;
use crate::placement::{Placed, PoolFault};
use sm_names::{Interval, MAX_PAGES, NoMemory};
use std::alloc::{AllocError, Global};
use std::marker::Model;

/// Pages 0, 1, 2, .. in which buffers lie apart from one another.
#[derive(Drop)]
pub struct Pool {
    size: u32,
    free: u32,
    // How many intervals are held.
    buffers: u32,
    // By page, with capacity for as many as there are held intervals, so that none is refused
    // its place when pages come back.
    holes: Holes,
    // How many pages the held interval has that begins at each page, or 0 where none does.
    lengths: Vec<u32>,
}

impl Model for Pool {
    ghost use Rattle.buffer_pool.specs.Holdings.{Holdings, IsPoolSound};
    ghost use Rattle.buffer_pool.specs.Lengths.{held_from};
    ghost use Rattle.std.specs.Prelude.{◌≡◌, length};

    ghost Value = { Holdings };

    ghost view = { λ p. record { size = p.size; held = held_from 0 p.lengths.items } };

    ghost invariant = { λ p.
        ((length p.lengths.items ≡ p.size) × (p.buffers ≡ length (held_from 0 p.lengths.items)))
        × IsPoolSound p.size p.free p.holes.items (held_from 0 p.lengths.items)
        p.holes.capacity };
}

impl Pool {
    /// A pool of this many pages, from 1 to `MAX_PAGES`, of which none is held.
    ///
    /// `NoMemory` where its memory is refused: four bytes for each page, and a list of holes. O(pages).
    pub fn new(alloc: Global, pages: u32) -> Result<Pool, NoMemory>
        requires { (1 ≤ pages) × (pages ≤ MAX_PAGES) }
        ensures ok { IfOk result (λ pool. pool ≡ record { size = pages; held = [] }) }
    {
        let Ok(lengths) = vec![in alloc; 0_u32; pages as usize] else {
            return Err(NoMemory);
        };
        match Holes::of_one(alloc, Interval { start: 0, pages }) {
            Ok(holes) => Ok(Pool {
                size: pages,
                free: pages,
                buffers: 0,
                holes,
                lengths,
            }),
            Err(_) => Err(NoMemory),
        }
    }

    /// Places `count` buffers of `pages_each` pages, at least one of each, one after another: each
    /// at the least start at which it lies in the pool and meets nothing that is held.
    ///
    /// `PoolFull` where some buffer has no such start, and `NoMemory` where a growth is refused.
    /// Either leaves the pool as it was.
    ///
    /// The holes lie in blocks of at most 64. Costs two walks over the blocks up to that of the last start, or
    /// to the end where the pool is full. They begin where the last search for as many pages or fewer did, if
    /// no pages came back before. A block whose greatest hole is too small is passed at once. In another each
    /// hole is looked at, and those that stay move once. Where a block becomes empty, the part of the list of
    /// blocks behind it moves. O(1) for each buffer besides.
    pub fn place(&mut self, count: u32, pages_each: u32) -> Result<Placed, PoolFault>
        requires { (1 ≤ count) × (1 ≤ pages_each) }

        ensures ok { IfOk result (λ placed.
            PlacesBuffers self.old self.new count pages_each placed.starts.items placed.looks) }
        ensures err { OnErr result (self.new ≡ self.old) }

        // It is full exactly where the definition has no place for some buffer.
        ensures full { (result ≡ Err PoolFault.PoolFull)
            ↔ (places self.old.size pages_each count self.old.held ≡ None) }
        ensures sound { IsSound self.new }
    {
        if !self.holes.has_rooms(count, pages_each) {
            return Err(PoolFault::PoolFull);
        }
        match reserve(
            &mut self.holes,
            *self.lengths.allocator(),
            self.buffers,
            count,
        ) {
            Ok(starts) => {
                let placed = self.holes.take(count, pages_each, starts);
                hold(&mut self.lengths, &placed.starts, pages_each);
                self.free -= count * pages_each;
                self.buffers += count;
                Ok(placed)
            }
            Err(_) => Err(PoolFault::NoMemory),
        }
    }

    /// Takes back the pages of a held interval, and leaves all others as they are. The pages form
    /// one hole with the holes that they touch.
    ///
    /// Takes no memory, and costs two binary searches, one among the blocks of holes and one in a block,
    /// and a move of at most a block; where a block becomes full or empty, also of the part of the list
    /// of blocks behind it. Where no block is spare, two that fit into one are sought and made one.
    pub fn give_back(&mut self, start: u32, pages: u32)
        requires { Contains self.old.held (record { start = start; pages = pages }) }
        ensures held { self.new ≡ record self.old { held = without start self.old.held } }
        ensures sound { IsSound self.new }
    {
        self.give_back_run(start, pages, 1);
    }

    /// Takes back the pages of `count` held intervals, at least one, of `pages` pages each, which lie
    /// side by side from `start` on, and leaves all others as they are. The pages form one hole with
    /// the holes that they touch.
    ///
    /// Takes no memory, and costs what one interval costs, and O(1) for each other one.
    pub fn give_back_run(&mut self, start: u32, pages: u32, count: u32)
        requires some { 1 ≤ count }
        requires held { HasRun start pages count self.old.held }
        ensures held { self.new
            ≡ record self.old { held = without_run start pages count self.old.held } }
        ensures sound { IsSound self.new }
    {
        let_go(&mut self.lengths, start, pages, count);
        let all = count * pages;
        self.holes.release(Interval { start, pages: all });
        self.free += all;
        self.buffers -= count;
    }

    /// The held intervals in order of page, which lie in the pool and apart.
    ///
    /// `NoMemory` where the copy is refused. O(pages).
    pub fn held(&self) -> Result<Vec<Interval>, NoMemory>
        ensures ok { IfOk result (λ held. held.items ≡ self.now.held) }
        ensures sound { IsSound self.now }
    {
        match list_held(&self.lengths, *self.lengths.allocator(), self.buffers) {
            Ok(held) => Ok(held),
            Err(_) => Err(NoMemory),
        }
    }

    /// How many pages there are, held or free. Costs one read.
    pub fn pages(&self) -> u32
        ensures { result ≡ self.now.size }
    {
        self.size
    }

    /// How many pages nobody holds. Takes no memory, and costs one read.
    pub fn free_pages(&self) -> u32
        ensures free { result + total_pages self.now.held ≡ self.now.size }
        ensures sound { IsSound self.now }
    {
        self.free
    }
}

// Makes room for `count` more buffers: for their starts, and for the holes that they can leave.
fn reserve(
    holes: &mut Holes,
    alloc: Global,
    buffers: u32,
    count: u32,
) -> Result<Vec<u32>, AllocError>
    ensures holes { holes.new.items ≡ holes.old.items }
    ensures kept { holes.old.capacity ≤ holes.new.capacity }
    ensures starts { IfOk result (λ starts. starts.items ≡ []) }
    ensures starts_room { IfOk result (λ starts. count ≤ vec_capacity starts) }
    ensures holes_room { OnOk result (buffers + count ≤ holes.new.capacity) }
{
    holes.reserve(buffers as usize + count as usize)?;
    Vec::with_capacity(alloc, count as usize)
}
