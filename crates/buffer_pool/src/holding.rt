//! The held intervals: at each page, how many pages the one has that begins there.
ghost use Rattle.std.specs.Prelude.{ℕ, ◌≡◌, ◌+◌, ◌*◌, ◌≤◌, length, IfOk};
ghost use Rattle.buffer_pool.specs.Fitting.{AreFirstFits};
ghost use Rattle.buffer_pool.specs.Holdings.{with_buffers, without_run};
ghost use Rattle.buffer_pool.specs.Lengths.{held_from};

use sm_names::{Interval, MAX_PAGES};
use std::alloc::{AllocError, Global};

/// Holds intervals of this many pages, each where the first hole begins that is not too small. O(starts).
pub(crate) fn hold(lengths: &mut Vec<u32>, starts: &[u32], pages: u32)
    requires some { 1 ≤ pages }
    requires fit { AreFirstFits (length lengths.old.items) pages starts.now
        (held_from 0 lengths.old.items) }
    ensures held { held_from 0 lengths.new.items
        ≡ with_buffers pages starts.now (held_from 0 lengths.old.items) }
    ensures size { length lengths.new.items ≡ length lengths.old.items }
{
    for start in starts {
        lengths[*start as usize] = pages;
    }
}

/// Takes this many intervals of as many pages away that lie side by side from this page on. O(count).
pub(crate) fn let_go(lengths: &mut Vec<u32>, start: u32, pages: u32, count: u32)
    requires inside { start + count * pages ≤ length lengths.old.items }
    requires some { 1 ≤ pages }
    ensures held { held_from 0 lengths.new.items
        ≡ without_run start pages count (held_from 0 lengths.old.items) }
    ensures size { length lengths.new.items ≡ length lengths.old.items }
{
    let mut page = start as usize;
    let mut left = count;
    while left > 0 {
        lengths[page] = 0;
        page += pages as usize;
        left -= 1;
    }
}

/// The held intervals, of which there are this many. O(pages).
pub(crate) fn list_held(
    lengths: &[u32],
    alloc: Global,
    count: u32,
) -> Result<Vec<Interval>, AllocError>
    requires small { length lengths.now ≤ MAX_PAGES }
    requires all { length (held_from 0 lengths.now) ≤ count }
    ensures { IfOk result (λ held. held.items ≡ held_from 0 lengths.now) }
{
    let mut held = Vec::with_capacity(alloc, count as usize)?;
    let mut start = 0;
    for pages in lengths {
        if *pages > 0 {
            held.push_reserved(Interval {
                start,
                pages: *pages,
            });
        }
        start += 1;
    }
    Ok(held)
}
