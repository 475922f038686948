//! Changes to a collection at its place, with the steps that they force, one after another.
ghost use Rattle.std.specs.Prelude.{◌≡◌, ◌≤◌, OnOk, is_ok, true, vec_capacity};
ghost use Rattle.buffer_holds.specs.Counts.{total};
ghost use Rattle.node_table.specs.Table.{table_len};
ghost use Rattle.forest_store.specs.declared.change.Change.{Change as Changed};
ghost use Rattle.forest_store.specs.Forest.{IsPoolOf};
ghost use Rattle.forest_store.specs.Stores.{forest_in};
ghost use Rattle.forest_steps.specs.NodeEffects.{IsWorkedOutAt};
ghost use Rattle.forest_steps.specs.StoreSteps.{HasRoom, OutcomeAt, ReadyAt, WaitsNot};

use buffer_holds::Holds;
use buffer_pool::Pool;
use forest_steps::event_end::{finish_event, is_finished};
use forest_steps::initial_allocation::allocate_root;
use forest_steps::node_effect::{NodeEffect, keeps_counts, work_out};
use forest_steps::propagation::{apply_effect, apply_loss};
use forest_steps::scratch::Scratch;
use forest_steps::unforced::{apply_unforced, is_unforced};
use forest_store::change::Effect;
use forest_store::store::Store;
use sm_names::{Fault, NoMemory, NodeKey};

/// Reserves room for as many as there are nodes, in the lists of removed nodes and of pending units.
fn reserve(store: &Store, room: &mut Scratch) -> Result<(), NoMemory>
    ensures removed { OnOk result
        (table_len store.now.nodes.table ≤ vec_capacity room.new.removed) }
    ensures unit { OnOk result (table_len store.now.nodes.table ≤ vec_capacity room.new.unit) }
    ensures pending { OnOk result
        (table_len store.now.nodes.table ≤ vec_capacity room.new.pending) }
{
    room.reserve(store.nodes.table.len())
}

/// Makes a loss, with all that it forces. `NoMemory` if room for the removed nodes is refused; then
/// nothing changed.
#[inline(never)]
pub(crate) fn settle_loss(
    store: &mut Store,
    at: usize,
    pool: &mut Pool,
    holds: &Holds,
    fault: Fault,
    room: &mut Scratch,
) -> Result<(), NoMemory>
    requires ready { ReadyAt store.old at (Changed.Loss fault.origin fault.cause) }
    requires pool { IsPoolOf pool.old (forest_in store.old) }
    ensures { OutcomeAt (is_ok result) (total holds.now) pool.old pool.new store.old store.new at
        (Changed.Loss fault.origin fault.cause) }
{
    reserve(store, room)?;
    let entry = store.entries[at].get_mut();
    apply_loss(&mut store.nodes, entry, holds, fault, room);
    finish_event(store, at, pool, holds, &mut room.removed);
    Ok(())
}

/// Makes what is forced in a collection without a change: its buffers may be abandoned, or home.
/// `NoMemory` if room for the removed nodes is refused; then nothing changed.
#[inline(never)]
pub(crate) fn settle_nothing(
    store: &mut Store,
    at: usize,
    pool: &mut Pool,
    holds: &Holds,
    room: &mut Scratch,
) -> Result<(), NoMemory>
    requires ready { ReadyAt store.old at Changed.Nothing }
    requires pool { IsPoolOf pool.old (forest_in store.old) }
    ensures { OutcomeAt (is_ok result) (total holds.now) pool.old pool.new store.old store.new at
        Changed.Nothing }
{
    if is_finished(store, at, pool, holds) {
        return Ok(());
    }
    reserve(store, room)?;
    finish_event(store, at, pool, holds, &mut room.removed);
    Ok(())
}

/// Makes an effect, with all that it forces, if the initial allocation is not among that. Takes no
/// memory.
fn settle_applied(
    store: &mut Store,
    at: usize,
    pool: &mut Pool,
    holds: &Holds,
    made: &NodeEffect,
    room: &mut Scratch,
)
    requires ready { ReadyAt store.old at (Changed.Effect made.now.key made.now.effect) }
    requires worked { IsWorkedOutAt store.old at made.now }
    requires waits { WaitsNot store.old at made.now.key made.now.effect }
    requires pool { IsPoolOf pool.old (forest_in store.old) }
    requires room { HasRoom store.old.nodes room.old }
    ensures { OutcomeAt true (total holds.now) pool.old pool.new store.old store.new at
        (Changed.Effect made.now.key made.now.effect) }
{
    let entry = store.entries[at].get_mut();
    apply_effect(&mut store.nodes, entry, holds, made, room);
    finish_event(store, at, pool, holds, &mut room.removed);
}

/// Makes an effect that was worked out, with all that it forces. `NoMemory` if room for removed nodes,
/// pending units, held buffers or in the pool is refused; then nothing changed.
#[inline(always)]
fn settle_forced(
    store: &mut Store,
    at: usize,
    pool: &mut Pool,
    holds: &Holds,
    made: &NodeEffect,
    room: &mut Scratch,
) -> Result<(), NoMemory>
    requires ready { ReadyAt store.old at (Changed.Effect made.now.key made.now.effect) }
    requires worked { IsWorkedOutAt store.old at made.now }
    requires pool { IsPoolOf pool.old (forest_in store.old) }
    ensures { OutcomeAt (is_ok result) (total holds.now) pool.old pool.new store.old store.new at
        (Changed.Effect made.now.key made.now.effect) }
{
    reserve(store, room)?;
    if allocate_root(store, at, pool, holds, made, room)? {
        return Ok(());
    }
    settle_applied(store, at, pool, holds, made, room);
    Ok(())
}

/// Makes an effect, with all that it forces, as `settle_effect` does. It works out the counts after it: by
/// these the effect forces nothing, or one step after another is made. Out of line, so that a caller which
/// makes an effect without forced steps keeps it in registers.
#[inline(never)]
fn settle_counted(
    store: &mut Store,
    at: usize,
    pool: &mut Pool,
    holds: &Holds,
    key: NodeKey,
    effect: Effect,
    room: &mut Scratch,
) -> Result<(), NoMemory>
    requires ready { ReadyAt store.old at (Changed.Effect key effect) }
    requires pool { IsPoolOf pool.old (forest_in store.old) }
    ensures { OutcomeAt (is_ok result) (total holds.now) pool.old pool.new store.old store.new at
        (Changed.Effect key effect) }
{
    let entry = store.entries[at].get();
    let made = work_out(&store.nodes, entry, key, effect);
    if is_unforced(&store.nodes.table, entry, holds, &made) {
        apply_unforced(store, at, pool, holds, &made);
        return Ok(());
    }
    settle_forced(store, at, pool, holds, &made, room)
}

/// Makes an effect, with all that it forces: at once if it changes no count and forces nothing. `NoMemory` if
/// room for removed nodes, pending units, held buffers or in the pool is refused; then nothing changed.
#[inline(always)]
pub(crate) fn settle_effect(
    store: &mut Store,
    at: usize,
    pool: &mut Pool,
    holds: &Holds,
    key: NodeKey,
    effect: Effect,
    room: &mut Scratch,
) -> Result<(), NoMemory>
    requires ready { ReadyAt store.old at (Changed.Effect key effect) }
    requires pool { IsPoolOf pool.old (forest_in store.old) }
    ensures { OutcomeAt (is_ok result) (total holds.now) pool.old pool.new store.old store.new at
        (Changed.Effect key effect) }
{
    if keeps_counts(&effect) {
        let made = NodeEffect {
            key,
            effect,
            counts: None,
        };
        let entry = store.entries[at].get();
        if is_unforced(&store.nodes.table, entry, holds, &made) {
            apply_unforced(store, at, pool, holds, &made);
            return Ok(());
        }
    }
    settle_counted(store, at, pool, holds, key, effect, room)
}
