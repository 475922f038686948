//! A handle that is dropped: no other buffer can be home by that, and no step is forced by it but
//! that the buffers are abandoned.
ghost use Rattle.std.specs.Prelude.{◌≡◌, ◌&&◌, ◌++◌, List, Some, get_or, nat_lt, not, true, false};
ghost use Rattle.std.specs.List.{filter, list_any};
ghost use Rattle.std.specs.Option.{option_map_or};
ghost use Rattle.sm_names.specs.declared.keys.Interval.{Interval};
ghost use Rattle.sm_names.specs.declared.keys.Strength.{Strength as Grade};
ghost use Rattle.sm_names.specs.Handles.{is_home, names};
ghost use Rattle.buffer_holds.specs.Counts.{total};
ghost use Rattle.forest_store.specs.declared.change.Change.{Change as Changed};
ghost use Rattle.forest_store.specs.declared.entry.Entry.{Entry as EntryValue};
ghost use Rattle.forest_store.specs.declared.unit_counts.Unit.{Unit as Counts};
ghost use Rattle.forest_store.specs.Calm.{AreCounted};
ghost use Rattle.forest_store.specs.Counts.{HaveUnits};
ghost use Rattle.forest_store.specs.Dropped.{are_others_out, are_rest_out, has_given_root, is_given_root};
ghost use Rattle.forest_store.specs.Forest.{IsPoolOf, collection_at};
ghost use Rattle.forest_store.specs.CollectionRows.{IsStored, forest_of, place_in, rows_of};
ghost use Rattle.forest_store.specs.Outcomes.{IsOutcomeIn};
ghost use Rattle.forest_store.specs.Scenes.{by_page, given_few, is_held_strongly, is_out, name_of, pages_held};

use crate::placement::assert_disjoint;
use crate::returns::assert_sound;
use buffer_holds::Holds;
use buffer_pool::Pool;
use forest_store::boxed_entry::BoxedEntry;
use forest_store::entry::Entry;
use forest_store::node::Node;
use node_table::NodeTable;
use sm_names::{BufferName, Buffers, CollectionId, HeldBuffer, NodeKey, Strength};

/// Whether the key is of a root that is not gone and whose unit has its buffers.
fn is_given_root(table: &NodeTable<Node>, key: NodeKey) -> bool
    ensures { result ≡ is_given_root table.now key }
{
    match table.get(key) {
        Some(node) => node.parent.is_none() && !node.gone && node.allocated,
        None => false,
    }
}

/// Whether the first of these keys is.
pub(crate) fn has_given_root(table: &NodeTable<Node>, keys: &[NodeKey]) -> bool
    ensures { result ≡ has_given_root table.now keys.now }
{
    match keys.first() {
        Some(key) => is_given_root(table, *key),
        None => false,
    }
}

/// Whether the buffers of the collection are abandoned, where none of its strong nodes is live. It
/// looks at the handles of its buffers only where the root is not gone.
#[inline(always)]
pub(crate) fn is_abandoned(table: &NodeTable<Node>, entry: &Entry, holds: &Holds) -> bool
    requires { given_few entry.now.buffers ≡ true }
    ensures { result ≡ (has_given_root table.now entry.now.keys.items
        && not (is_held_strongly (total holds.now) entry.now.id entry.now.buffers)) }
{
    has_given_root(table, entry.keys.as_slice()) && !is_strong_open(entry.id, entry.buffers, holds)
}

/// The buffer with this name is not held any longer, and gives its pages back. Costs a pass over
/// the names.
fn free_buffer(held: &mut Vec<HeldBuffer>, pool: &mut Pool, holds: &Holds, buffer: BufferName)
    requires home { is_home (total holds.now buffer Grade.Strong)
        (total holds.now buffer Grade.Weak) false ≡ true }
    requires pool { (others : List Interval)
        × (pool.old.held ≡ by_page (pages_held held.old.items ++ others)) }
    requires others { are_rest_out (total holds.now) buffer false held.old.items ≡ true }
    ensures held { held.new.items ≡ filter (is_out (total holds.now) false) held.old.items }
    ensures pool { (others : List Interval) →
        pool.old.held ≡ by_page (pages_held held.old.items ++ others) →
        pool.new.held ≡ by_page (pages_held held.new.items ++ others) }
    ensures size { pool.new.size ≡ pool.old.size }
{
    assert_sound(pool);
    let mut at = 0;
    while at < held.len() {
        let one = held[at];
        if one.buffer == buffer {
            pool.give_back(one.pages.start, one.pages.pages);
            held.remove(at);
        } else {
            at += 1;
        }
    }
}

/// The buffer with this name gives its pages back, if it is home where no strong node is live. No other
/// one is home.
fn free_if_home(held: &mut Vec<HeldBuffer>, pool: &mut Pool, holds: &Holds, buffer: BufferName)
    requires pool { (others : List Interval)
        × (pool.old.held ≡ by_page (pages_held held.old.items ++ others)) }
    requires others { are_rest_out (total holds.now) buffer false held.old.items ≡ true }
    ensures held { held.new.items ≡ filter (is_out (total holds.now) false) held.old.items }
    ensures pool { (others : List Interval) →
        pool.old.held ≡ by_page (pages_held held.old.items ++ others) →
        pool.new.held ≡ by_page (pages_held held.new.items ++ others) }
    ensures size { pool.new.size ≡ pool.old.size }
{
    if holds.home(buffer, false) {
        free_buffer(held, pool, holds, buffer);
    }
}

/// What comes of a handle of the buffer that was dropped, where its collection stands at this place and
/// no strong node of it is live, if no step is forced by that: the buffer gives its pages back, if it is
/// home. Answers whether no step is forced; else nothing changed. No step is forced where the root is gone
/// or has no buffers, or a strong handle is open on one of these. Takes no memory.
#[inline(always)]
pub fn drop_without_strong(
    table: &NodeTable<Node>,
    entries: &mut Vec<BoxedEntry>,
    at: usize,
    pool: &mut Pool,
    holds: &Holds,
    buffer: BufferName,
) -> bool
    requires place { place_in buffer.collection entries.old.items ≡ Some at }
    requires strong { (e : EntryValue) → e ≡ get_or entries.old.items at e → e.strong ≡ 0 }
    requires kept { IsStored table.now (rows_of entries.old.items) }
    requires counted { AreCounted table.now entries.old.items }
    requires others { option_map_or (are_others_out (total holds.now) buffer)
        (collection_at (forest_of table.now (rows_of entries.old.items)) buffer.collection)
        false ≡ true }
    requires pool { IsPoolOf pool.old (forest_of table.now (rows_of entries.old.items)) }
    ensures outcome { IsOutcomeIn result (total holds.now) pool.old pool.new table.now table.now
        entries.old.items entries.new.items buffer.collection Changed.Nothing }
    ensures units { (us : List Counts) → HaveUnits us table.now entries.old.items →
        HaveUnits us table.now entries.new.items }
    ensures made { (e : EntryValue) → e ≡ get_or entries.old.items at e →
        not (has_given_root table.now e.keys.items
        && not (is_held_strongly (total holds.now) e.id e.buffers)) ≡ true → result ≡ true }
{
    if is_abandoned(table, entries[at].get(), holds) {
        return false;
    }
    assert_disjoint(pool);
    free_if_home(&mut entries[at].get_mut().held, pool, holds, buffer);
    assert_disjoint(pool);
    true
}

/// Whether a strong handle is open on one of the collection's buffers, in a parcel or out of it.
#[inline(never)]
pub(crate) fn is_strong_open(id: CollectionId, buffers: Option<Buffers>, holds: &Holds) -> bool
    requires { given_few buffers ≡ true }
    ensures { result ≡ is_held_strongly (total holds.now) id buffers }
{
    match buffers {
        Some(given) => is_any_open(id, given.count as u8, holds),
        None => false,
    }
}

/// The same of this many buffers.
fn is_any_open(id: CollectionId, count: u8, holds: &Holds) -> bool
    ensures { result ≡ list_any (λ b. nat_lt 0 (total holds.now b Grade.Strong)) (names id count) }
{
    for index in 0..count {
        if is_open(id, index, holds) {
            return true;
        }
    }
    false
}

/// Whether a strong handle is open on this buffer.
fn is_open(collection: CollectionId, index: u8, holds: &Holds) -> bool
    ensures { result ≡ nat_lt 0 (total holds.now (name_of collection index) Grade.Strong) }
{
    holds.total(BufferName { collection, index }, Strength::Strong) > 0
}
