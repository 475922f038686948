//! Changes to a collection that is there, the births of nodes, and handles that are dropped.
ghost use Rattle.std.specs.Prelude.{◌≡◌, ◌≤◌, ◌+◌, Some, false, true, get_or, is_ok, min, vec_capacity, IfOk, OnErr};
ghost use Rattle.std.specs.Option.{option_map_or};
ghost use Rattle.buffer_holds.specs.Counts.{total};
ghost use Rattle.node_table.specs.Table.{table_len};
ghost use Rattle.forest_store.specs.declared.change.Change.{Change as Changed};
ghost use Rattle.forest_store.specs.declared.entry.Entry.{Entry as EntryValue};
ghost use Rattle.forest_store.specs.CollectionRows.{place_in};
ghost use Rattle.forest_store.specs.Dropped.{are_others_out};
ghost use Rattle.forest_store.specs.Forest.{IsPoolOf, collection_at};
ghost use Rattle.forest_store.specs.Insertion.{birth_change};
ghost use Rattle.forest_store.specs.Settling.{MayChange, is_birth};
ghost use Rattle.forest_store.specs.Stores.{IsResting, forest_in};
ghost use Rattle.forest_steps.specs.StoreSteps.{BornIn, OutcomeOf, ReadyFor, UnbornIn};

use crate::forced_steps::{settle_effect, settle_loss, settle_nothing};
use buffer_holds::Holds;
use buffer_pool::Pool;
use forest_steps::dropped::drop_without_strong;
use forest_steps::event_end::{finish_event, is_finished};
use forest_steps::scratch::Scratch;
use forest_store::boxed_entry::BoxedEntry;
use forest_store::change::Change;
use forest_store::entry::place_of;
use forest_store::insertion::{Birth, insert_counted};
use forest_store::store::Store;
use forest_store::unit_counts::{assert_bounded, grow_to};
use sm_names::{BufferName, CollectionId, Fault, NoMemory, NodeKey};

/// Makes a change other than a birth to a collection that is there, and all that it forces. `NoMemory`
/// leaves the table, the entries and the pool as they were. Looks the collection up once, by a binary
/// search.
#[inline(always)]
pub(crate) fn settle_change(
    store: &mut Store,
    pool: &mut Pool,
    holds: &Holds,
    id: CollectionId,
    change: &Change,
    room: &mut Scratch,
) -> Result<(), NoMemory>
    requires ready { ReadyFor store.old id change.now }
    requires birth { is_birth change.now ≡ false }
    requires pool { IsPoolOf pool.old (forest_in store.old) }
    ensures { OutcomeOf (is_ok result) (total holds.now) pool.old pool.new store.old store.new id
        change.now }
{
    let Some(at) = place_of(&store.entries, id) else {
        unreachable!();
    };
    match *change {
        Change::Effect(key, effect) => settle_effect(store, at, pool, holds, key, effect, room),
        Change::Loss(origin, cause) => {
            let fault = Fault { cause, origin };
            settle_loss(store, at, pool, holds, fault, room)
        }
        Change::Nothing => settle_nothing(store, at, pool, holds, room),
        Change::Birth { .. } => unreachable!(),
    }
}

/// Makes the birth of a node, and all that it forces: if no strong node of the collection is live then, its
/// buffers may be abandoned, or home. `NoMemory` leaves the table and the pool as they were, and the
/// entries and the counts of units except for their room.
#[inline(never)]
pub(crate) fn settle_birth(
    store: &mut Store,
    pool: &mut Pool,
    holds: &Holds,
    id: CollectionId,
    birth: Birth,
    keys: &mut Vec<NodeKey>,
    spare: &mut Option<BoxedEntry>,
) -> Result<NodeKey, NoMemory>
    requires forest { IsResting store.old }
    requires change { MayChange (forest_in store.old) id (birth_change birth) }
    requires pool { IsPoolOf pool.old (forest_in store.old) }
    requires room { min (table_len store.old.nodes.table + 1) 18446744073709551615 ≤ vec_capacity
        keys.old }
    ensures ok { IfOk result (BornIn (total holds.now) pool.old pool.new store.old store.new id
        birth) }
    ensures err { OnErr result (UnbornIn pool.old pool.new store.old store.new) }
{
    grow_to(&mut store.nodes.units, store.nodes.table.next_slot())?;
    let key = insert_counted(store, id, birth, spare)?;
    assert_bounded(&store.nodes.table);
    let Some(at) = place_of(&store.entries, id) else {
        unreachable!();
    };
    if is_finished(store, at, pool, holds) {
        return Ok(key);
    }
    finish_event(store, at, pool, holds, keys);
    Ok(key)
}

/// Makes what a dropped handle of the buffer forces, where its collection stands at this place and no
/// strong node of it is live. `NoMemory` leaves the table, the entries and the pool as they were.
#[inline(always)]
fn settle_without_strong(
    store: &mut Store,
    at: usize,
    pool: &mut Pool,
    holds: &Holds,
    buffer: BufferName,
    room: &mut Scratch,
) -> Result<(), NoMemory>
    requires forest { IsResting store.old }
    requires place { place_in buffer.collection store.old.entries.items ≡ Some at }
    requires strong { (e : EntryValue) → e ≡ get_or store.old.entries.items at e → e.strong ≡ 0 }
    requires others { option_map_or (are_others_out (total holds.now) buffer)
        (collection_at (forest_in store.old) buffer.collection) false ≡ true }
    requires pool { IsPoolOf pool.old (forest_in store.old) }
    ensures { OutcomeOf (is_ok result) (total holds.now) pool.old pool.new store.old store.new
        buffer.collection Changed.Nothing }
{
    let nodes = &store.nodes.table;
    if drop_without_strong(nodes, &mut store.entries, at, pool, holds, buffer) {
        return Ok(());
    }
    settle_nothing(store, at, pool, holds, room)
}

/// Makes what a dropped handle of the buffer forces: nothing, where a strong node of its collection is
/// live. `NoMemory` leaves the table, the entries and the pool as they were. Looks the collection up once,
/// by a binary search.
#[inline(always)]
pub(crate) fn settle_dropped(
    store: &mut Store,
    pool: &mut Pool,
    holds: &Holds,
    buffer: BufferName,
    room: &mut Scratch,
) -> Result<(), NoMemory>
    requires forest { IsResting store.old }
    requires others { option_map_or (are_others_out (total holds.now) buffer)
        (collection_at (forest_in store.old) buffer.collection) false ≡ true }
    requires pool { IsPoolOf pool.old (forest_in store.old) }
    ensures { OutcomeOf (is_ok result) (total holds.now) pool.old pool.new store.old store.new
        buffer.collection Changed.Nothing }
{
    let Some(at) = place_of(&store.entries, buffer.collection) else {
        unreachable!();
    };
    let entry = store.entries[at].get();
    if entry.strong > 0 {
        return Ok(());
    }
    settle_without_strong(store, at, pool, holds, buffer, room)
}
