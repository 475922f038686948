//! That a refusal leaves a pool as it was.
ghost use Rattle.std.specs.Prelude.{◌≤◌};

use buffer_pool::{Placed, Pool, PoolFault};
use std::alloc::Global;

// A pool of 64 pages. Where memory is refused, it is asked for again.
fn new_pool(alloc: Global) -> Option<Pool> {
    match Pool::new(alloc, 64) {
        Ok(pool) => Some(pool),
        Err(_) => Pool::new(alloc, 64).ok(),
    }
}

// Whether buffers are placed, the first at this start.
fn is_at(placed: Result<Placed, PoolFault>, first: u32) -> bool {
    match placed {
        Ok(placed) => placed.starts.first() == Some(&first),
        Err(_) => false,
    }
}

// The same at last: a refusal leaves as many pages free, and they are asked for again.
fn places_at_last(pool: &mut Pool, count: u32, pages_each: u32, first: u32) -> bool
    requires count { 1 ≤ count }
    requires pages { 1 ≤ pages_each }
{
    let free = pool.free_pages();
    match pool.place(count, pages_each) {
        Err(PoolFault::NoMemory) => {
            pool.free_pages() == free && is_at(pool.place(count, pages_each), first)
        }
        placed => is_at(placed, first),
    }
}

// Whether all pages are placed in three calls.
fn fills(pool: &mut Pool) -> bool {
    places_at_last(pool, 2, 4, 0)
        && places_at_last(pool, 3, 8, 8)
        && places_at_last(pool, 2, 16, 32)
        && pool.free_pages() == 0
}

// Whether that is so of a new pool.
fn is_filled(alloc: Global) -> bool {
    match new_pool(alloc) {
        Some(mut pool) => fills(&mut pool),
        None => false,
    }
}

// Run with each allocation refused in turn, this meets each growth of `place`.
#[test]
fn refused_memory_changes_no_page(rt: HostRuntime) {
    assert!(rt; is_filled(rt.alloc()));
}
