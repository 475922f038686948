//! The walk that fires what is due.
ghost use Rattle.std.specs.Prelude.{◌≡◌, ◌+◌, ◌≤◌, ◌++◌, map, length};
ghost use Rattle.std.specs.List.{filter_map};
ghost use Rattle.trackers.specs.WaitIndex.{ids_of};
ghost use Rattle.trackers.specs.Held.{IdsRise, row_after, fires, due_id};

use crate::index::Waiter;
use crate::rows::Rows;
use crate::world::World;

/// Fires the trackers that are due, in their order.
#[inline(always)]
pub(crate) fn fire_due<W: World>(rows: &mut Rows, due: &[Waiter], event: u64, world: &W)
    requires rising { IdsRise rows.old.rows }
    requires due { ids_of due.now ≡ filter_map (due_id (W.seen world.now)) rows.old.rows }
    requires room { length rows.old.fired + length due.now ≤ rows.old.room }
    ensures rows { rows.new.rows ≡ map (row_after (W.seen world.now) event) rows.old.rows }
    ensures fired { rows.new.fired ≡ rows.old.fired
        ++ filter_map (fires (W.seen world.now) event) rows.old.rows }
    ensures room { rows.new.room ≡ rows.old.room }
{
    for waiter in due {
        rows.fire_by_id(waiter.tracker.id, waiter.hint, event);
    }
}
