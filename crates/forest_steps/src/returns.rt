//! Pages that buffers return to the pool.
ghost use Rattle.std.specs.Prelude.{◌≡◌, ◌++◌, List, Contains, if◌then◌else◌, length};
ghost use Rattle.std.specs.List.{filter};
ghost use Rattle.sm_names.specs.declared.keys.Interval.{Interval};
ghost use Rattle.buffer_holds.specs.Counts.{total};
ghost use Rattle.buffer_pool.specs.Holdings.{without, IsSound as IsSoundPool};
ghost use Rattle.forest_steps.specs.Runs.{rest_of, HoldsRun};
ghost use Rattle.forest_store.specs.Scenes.{by_page, is_out, pages_held};

use crate::page_ranges::{PageRange, extend_range, return_range};
use buffer_holds::Holds;
use buffer_pool::Pool;
use sm_names::HeldBuffer;

/// The buffers that are home give their pages back, and are not held any longer. Takes no memory,
/// and costs a look at the handles of each buffer, two where some stay held and others do not, with a
/// shift for each that does not, and the cost of `Pool::give_back`.
#[inline(always)]
pub(crate) fn free_home_buffers(
    held: &mut Vec<HeldBuffer>,
    pool: &mut Pool,
    holds: &Holds,
    strong_live: bool,
)
    requires { (others : List Interval)
        × (pool.old.held ≡ by_page (pages_held held.old.items ++ others)) }
    ensures held { held.new.items ≡ filter (is_out (total holds.now) strong_live) held.old.items }
    ensures pool { (others : List Interval) →
        pool.old.held ≡ by_page (pages_held held.old.items ++ others) →
        pool.new.held ≡ by_page (pages_held held.new.items ++ others) }
    ensures size { pool.new.size ≡ pool.old.size }
{
    if held.is_empty() {
        return;
    }
    let out = return_pages(held, pool, holds, strong_live);
    keep_held(held, holds, strong_live, out);
}

/// Each buffer that is home gives its pages back, together with those that lie side by side with it.
/// Answers how many are not.
fn return_pages(held: &[HeldBuffer], pool: &mut Pool, holds: &Holds, strong_live: bool) -> usize
    requires { (others : List Interval)
        × (pool.old.held ≡ by_page (pages_held held.now ++ others)) }
    ensures held { (others : List Interval) →
        pool.old.held ≡ by_page (pages_held held.now ++ others) →
        let left = filter (is_out (total holds.now) strong_live) held.now in
        pool.new.held ≡ by_page (pages_held left ++ others) }
    ensures size { pool.new.size ≡ pool.old.size }
    ensures out { result ≡ length (filter (is_out (total holds.now) strong_live) held.now) }
{
    assert_sound(pool);
    let mut run = PageRange::new();
    let mut out = 0;
    for buffer in held {
        out += return_one(*buffer, pool, holds, strong_live, &mut run);
    }
    return_range(pool, run);
    out
}

/// The buffer is to give its pages back with the run or after it, if it is home. Answers 1 if it is not,
/// and else 0.
fn return_one(
    buffer: HeldBuffer,
    pool: &mut Pool,
    holds: &Holds,
    strong_live: bool,
    run: &mut PageRange,
) -> usize
    requires sound { IsSoundPool pool.old }
    requires run { HoldsRun run.old pool.old.held }
    requires there { Contains (rest_of run.old pool.old.held) buffer.pages }
    ensures held { rest_of run.new pool.new.held ≡ (if is_out (total holds.now) strong_live buffer
        then rest_of run.old pool.old.held else without buffer.pages.start
        (rest_of run.old pool.old.held)) }
    ensures run { HoldsRun run.new pool.new.held }
    ensures size { pool.new.size ≡ pool.old.size }
    ensures sound { IsSoundPool pool.new }
    ensures out { result ≡ (if is_out (total holds.now) strong_live buffer then 1 else 0) }
{
    if holds.home(buffer.buffer, strong_live) {
        *run = extend_range(pool, *run, buffer.pages);
        return 0;
    }
    1
}

/// The pool's intervals lie apart.
pub(crate) fn assert_sound(pool: &Pool)
    ensures { IsSoundPool pool.now }
{
    let _free = pool.free_pages();
}

/// The buffers that are home are not held any longer. This many are not.
fn keep_held(held: &mut Vec<HeldBuffer>, holds: &Holds, strong_live: bool, out: usize)
    requires { out ≡ length (filter (is_out (total holds.now) strong_live) held.old.items) }
    ensures { held.new.items ≡ filter (is_out (total holds.now) strong_live) held.old.items }
{
    if out == held.len() {
        return;
    }
    if out == 0 {
        held.clear();
        return;
    }
    let mut at = 0;
    while at < held.len() {
        if holds.home(held[at].buffer, strong_live) {
            held.remove(at);
        } else {
            at += 1;
        }
    }
}
