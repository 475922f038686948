//! The last steps of an event: abandoned buffers are lost, and home buffers return their pages.
ghost use Rattle.std.specs.Prelude.{◌≡◌, ◌≤◌, ◌⊎◌, [], List, ℕ, Some, true, get_or, vec_capacity};
ghost use Rattle.sm_names.specs.declared.keys.NodeKey.{NodeKey as Key};
ghost use Rattle.buffer_holds.specs.Counts.{total};
ghost use Rattle.node_table.specs.Table.{table_len};
ghost use Rattle.forest_store.specs.declared.entry.Entry.{Entry as EntryValue};
ghost use Rattle.forest_store.specs.Dropped.{has_given_root};
ghost use Rattle.forest_store.specs.Forest.{IsPoolOf};
ghost use Rattle.forest_store.specs.CollectionRows.{CollectionRow, place_in, row_of};
ghost use Rattle.forest_store.specs.Resting.{is_kept_by};
ghost use Rattle.forest_store.specs.Scenes.{given_few};
ghost use Rattle.forest_store.specs.Settling.{Handles};
ghost use Rattle.forest_steps.specs.MidEvent.{is_abandoned_in};
ghost use Rattle.forest_store.specs.Stores.{AreNamed, forest_in};
ghost use Rattle.forest_steps.specs.StoreSteps.{FinishedOf, IsClosedIn, MayFinish, MidEventIn};

use crate::at_rest::is_kept_by;
use crate::dropped::is_abandoned;
use crate::placement::assert_disjoint;
use crate::removal::remove_subtree;
use crate::returns::free_home_buffers;
use buffer_holds::Holds;
use buffer_pool::Pool;
use forest_store::entry::Entry;
use forest_store::store::{NodeStore, Store};
use sm_names::{Cause, Fault, NodeKey};

/// Whether nothing is left to be done in the collection at this place: a strong node of it is live, or it
/// rests without one. Costs a look at the handles of each buffer where no strong node is live.
#[inline(always)]
pub fn is_finished(store: &Store, at: usize, pool: &Pool, holds: &Holds) -> bool
    requires may { MayFinish (total holds.now) store.now at }
    requires pool { IsPoolOf pool.now (forest_in store.now) }
    ensures kept { (e : EntryValue) → e ≡ get_or store.now.entries.items at e →
        result ≡ is_kept_by (total holds.now) store.now.nodes.table (row_of e) e.strong }
    ensures finished { result ≡ true → (id : ℕ) → place_in id store.now.entries.items ≡ Some at →
        FinishedOf (total holds.now) pool.now pool.now store.now store.now id }
{
    assert_disjoint(pool);
    let entry = store.entries[at].get();
    is_kept_by(&store.nodes.table, entry, holds, entry.strong)
}

/// Where no strong node is live and the buffers of the collection at this place are abandoned, the loss
/// of its root removes all its nodes; then the home buffers return their pages. No step is forced after
/// that. Costs O(1), a look at the handles of each buffer where no strong node is live, O(1) for each
/// node that is removed, and the cost of `free_home_buffers`. Takes no memory.
#[inline(always)]
pub fn finish_event(
    store: &mut Store,
    at: usize,
    pool: &mut Pool,
    holds: &Holds,
    keys: &mut Vec<NodeKey>,
)
    requires may { MayFinish (total holds.now) store.old at }
    requires pool { IsPoolOf pool.old (forest_in store.old) }
    requires room { table_len store.old.nodes.table ≤ vec_capacity keys.old }
    ensures closes { (id : ℕ) → place_in id store.old.entries.items ≡ Some at →
        FinishedOf (total holds.now) pool.old pool.new store.old store.new id }
    ensures size { pool.new.size ≡ pool.old.size }
{
    let entry = store.entries[at].get_mut();
    if entry.strong > 0 {
        assert_disjoint(pool);
        return;
    }
    fail_if_abandoned(&mut store.nodes, entry, holds, keys);
    assert_disjoint(pool);
    free_home_buffers(&mut entry.held, pool, holds, false);
    assert_disjoint(pool);
}

/// Where the buffers of the collection are abandoned, of which no strong node is live, the loss of its
/// root removes all its nodes. Costs a look at the strong handles of its buffers, and O(1) for each
/// node that is removed.
#[inline(always)]
fn fail_if_abandoned(
    nodes: &mut NodeStore,
    entry: &mut Entry,
    holds: &Holds,
    keys: &mut Vec<NodeKey>,
)
    requires few { given_few entry.old.buffers ≡ true }
    requires named { AreNamed nodes.old.table }
    requires room { table_len nodes.old.table ≤ vec_capacity keys.old }
    ensures closed { (ss : List CollectionRow) (pending : List Key) →
        MidEventIn nodes.old ss entry.old [] pending →
        (pending ≡ []) ⊎ (is_abandoned_in (total holds.now) nodes.old.table entry.old ≡ true) →
        entry.old.strong ≡ 0 →
        IsClosedIn (total holds.now) nodes.old nodes.new ss entry.old entry.new }
{
    if is_abandoned(&nodes.table, entry, holds) {
        lose_root(nodes, entry, keys);
    }
}

/// Loses the root of the collection for want of a strong node, which removes all its nodes. Out of line, since
/// an event seldom comes here.
#[inline(never)]
fn lose_root(nodes: &mut NodeStore, entry: &mut Entry, keys: &mut Vec<NodeKey>)
    requires given { has_given_root nodes.old.table entry.old.keys.items ≡ true }
    requires named { AreNamed nodes.old.table }
    requires room { table_len nodes.old.table ≤ vec_capacity keys.old }
    ensures closed { (handles : Handles) (ss : List CollectionRow) (pending : List Key) →
        MidEventIn nodes.old ss entry.old [] pending →
        is_abandoned_in handles nodes.old.table entry.old ≡ true →
        IsClosedIn handles nodes.old nodes.new ss entry.old entry.new }
{
    let Some(root) = entry.keys.as_slice().first().copied() else {
        unreachable!();
    };
    let fault = Fault {
        cause: Cause::NoStrong,
        origin: root,
    };
    remove_subtree(nodes, entry, root, Some(fault), keys);
}
