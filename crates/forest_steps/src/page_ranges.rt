//! Buffers of as many pages each that lie side by side, and return their pages together.
ghost use Rattle.std.specs.Prelude.{◌≡◌, true, Contains};
ghost use Rattle.buffer_pool.specs.Holdings.{in_run, without, IsSound as IsSoundPool};
ghost use Rattle.forest_steps.specs.Runs.{rest_of, HoldsRun};

use buffer_pool::Pool;
use sm_names::Interval;

/// This many intervals of as many pages, side by side from a page on.
#[derive(Clone, Copy)]
pub(crate) struct PageRange {
    pub(crate) start: u32,
    pub(crate) pages: u32,
    pub(crate) count: u32,
}

impl PageRange {
    /// Of none.
    pub(crate) fn new() -> PageRange
        ensures { result ≡ record { start = 0; pages = 0; count = 0 } }
    {
        PageRange {
            start: 0,
            pages: 0,
            count: 0,
        }
    }
}

/// Whether the interval lies right behind those of the run, and has as many pages as each.
fn is_next(run: PageRange, next: Interval) -> bool
    ensures { result ≡ true → next ≡ in_run run.start run.pages run.count }
{
    let end = u64::from(run.start) + u64::from(run.count) * u64::from(run.pages);
    next.pages == run.pages && u64::from(next.start) == end
}

/// Returns the intervals of the run to the pool.
pub(crate) fn return_range(pool: &mut Pool, run: PageRange)
    requires sound { IsSoundPool pool.old }
    requires run { HoldsRun run pool.old.held }
    ensures held { pool.new.held ≡ rest_of run pool.old.held }
    ensures size { pool.new.size ≡ pool.old.size }
    ensures sound { IsSoundPool pool.new }
{
    if run.count > 0 {
        pool.give_back_run(run.start, run.pages, run.count);
    }
}

/// Adds the interval to the run, if it is the next of it. Else it returns the run to the pool, and
/// begins another with the interval.
pub(crate) fn extend_range(pool: &mut Pool, run: PageRange, next: Interval) -> PageRange
    requires sound { IsSoundPool pool.old }
    requires run { HoldsRun run pool.old.held }
    requires next { Contains (rest_of run pool.old.held) next }
    ensures run { HoldsRun result pool.new.held }
    ensures rest { rest_of result pool.new.held ≡ without next.start (rest_of run pool.old.held) }
    ensures size { pool.new.size ≡ pool.old.size }
    ensures sound { IsSoundPool pool.new }
{
    if is_next(run, next) {
        return PageRange {
            start: run.start,
            pages: run.pages,
            count: run.count + 1,
        };
    }
    return_range(pool, run);
    PageRange {
        start: next.start,
        pages: next.pages,
        count: 1,
    }
}
