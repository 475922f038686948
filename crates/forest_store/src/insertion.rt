//! The births of nodes, where nothing else changes with them.
ghost use Rattle.std.specs.Prelude.{◌≡◌, ◌≤◌, ◌+◌, ◌<◌, if◌then◌else◌, IfOk, IfSome, IsSome, OnOk, OnErr, length};
ghost use Rattle.std.specs.Option.{option_and_then};
ghost use Rattle.node_table.specs.Changes.{Births, Writes};
ghost use Rattle.node_table.specs.Lending.{table_with_node};
ghost use Rattle.node_table.specs.Table.{row_at, node_at};
ghost use Rattle.forest_store.specs.declared.entry.Entry.{Entry as EntryValue};
ghost use Rattle.forest_store.specs.declared.node.Node.{Node as NodeValue};
ghost use Rattle.forest_store.specs.Calm.{put_in};
ghost use Rattle.forest_store.specs.Counts.{HaveUnits};
ghost use Rattle.forest_store.specs.Insertion.{IsEntryWith, IsEntryWithout, KeepsNotes, birth_change, born_at};
ghost use Rattle.forest_store.specs.CollectionRows.{AreRising, Bears, born, named, row_of, rows_of};
ghost use Rattle.forest_store.specs.Settling.{MayChange, no_key};
ghost use Rattle.forest_store.specs.Still.{no_row, row_with};
ghost use Rattle.forest_store.specs.Stores.{InsertedIn, IsResting, RefusedIn, forest_in};

use crate::births::{new_child, new_root};
use crate::boxed_entry::BoxedEntry;
use crate::entry::{Entry, place_of};
use crate::key_list::KeyList;
use crate::node::Node;
use crate::store::{Store, put_entry};
use crate::unit_counts::{assert_bounded, count_born, no_unit, put_unit};
use crate::unkept::reserve_notes;
use node_table::NodeTable;
use sm_names::{ClientId, CollectionId, NoMemory, NodeKey};
use std::alloc::Global;
use std::cell::Cell;
use std::mem;

/// A node that is to be born, as `Change::Birth` tells of it.
#[derive(Clone, Copy)]
pub struct Birth {
    /// The node under which it is born, unless it is a root.
    pub parent: Option<NodeKey>,
    /// It heads a unit of its own.
    pub attached: bool,
    /// Who holds the new end.
    pub client: ClientId,
    /// The number of the event.
    pub event: u64,
}

// The key of a node that was given none yet.
const NO_KEY: NodeKey = NodeKey {
    slot: 0,
    generation: 0,
};

/// A node that is to be born, without its key: a child of the parent, or a root of the collection.
fn drafted(table: &NodeTable<Node>, id: CollectionId, birth: Birth) -> Node
    requires { IfSome birth.parent (λ p. IsSome (row_at table.now p)) }
    ensures { result ≡ born (option_and_then (node_at table.now) birth.parent) birth.attached id
        birth.event birth.client no_key }
{
    match birth.parent {
        Some(parent) => new_child(
            birth.attached,
            NO_KEY,
            birth.event,
            birth.client,
            table.kept(parent),
        ),
        None => new_root(NO_KEY, id, birth.event, birth.client),
    }
}

/// The node is given its key. It heads its unit, if it is a root or attached.
fn name(node: &mut Node, key: NodeKey)
    ensures { node.new ≡ named key node.old }
{
    node.key = key;
    if node.parent.is_none() || node.attached {
        node.head = key;
    }
}

/// The node is given its key in the table.
#[inline(always)]
fn name_at(table: &mut NodeTable<Node>, key: NodeKey)
    requires { IsSome (row_at table.old key) }
    ensures becomes { (n : NodeValue) → node_at table.old key ≡ Some n →
        table.new ≡ table_with_node table.old key (named key n) }
    ensures writes { (n : NodeValue) → node_at table.old key ≡ Some n →
        Writes table.old table.new key (named key n) }
{
    name(table.kept_mut(key), key);
}

/// Stores the node under a key that was never given.
#[inline(always)]
fn insert<N: Drop>(
    table: &mut NodeTable<N>,
    parent: Option<NodeKey>,
    node: N,
) -> Result<NodeKey, NoMemory>
    requires { IfSome parent (λ p. IsSome (row_at table.old p)) }
    ensures ok { IfOk result (Births table.old table.new parent node) }
    ensures err { OnErr result (table.new ≡ table.old) }
{
    match table.insert(parent, node) {
        Ok(key) => Ok(key),
        Err(_) => Err(NoMemory),
    }
}

/// One more node in the table, which is given its key.
#[inline(always)]
fn insert_node(table: &mut NodeTable<Node>, draft: &Node) -> Result<NodeKey, NoMemory>
    requires first { table.old.first ≡ 0 }
    requires parent { IfSome draft.now.parent (λ p. IsSome (row_at table.old p)) }
    ensures ok { IfOk result (λ key. Bears table.old table.new (named key draft.now)) }
    ensures err { OnErr result (table.new ≡ table.old) }
{
    let key = insert(table, draft.parent, Node { ..*draft })?;
    name_at(table, key);
    Ok(key)
}

/// How many strong nodes the node adds.
fn strong_with(draft: &Node) -> usize
    ensures { result ≡ (if draft.now.weak then 0 else 1) }
{
    if draft.weak { 0 } else { 1 }
}

/// One more node of a collection that is there. `NoMemory` leaves the table as it was, and of the
/// entry all but its room.
fn insert_child(
    table: &mut NodeTable<Node>,
    entry: &mut Entry,
    draft: &Node,
) -> Result<NodeKey, NoMemory>
    requires first { table.old.first ≡ 0 }
    requires parent { IfSome draft.now.parent (λ p. IsSome (row_at table.old p)) }
    requires few { entry.old.strong ≤ length entry.old.keys.items }
    ensures bears { IfOk result (λ key. Bears table.old table.new (named key draft.now)) }
    ensures entry { IfOk result (IsEntryWith entry.old entry.new draft.now) }
    ensures notes { KeepsNotes entry.old entry.new }
    ensures err_table { OnErr result (table.new ≡ table.old) }
    ensures err_entry { OnErr result (IsEntryWithout entry.old entry.new) }
{
    if entry.keys.reserve_one().is_err() {
        return Err(NoMemory);
    }
    if reserve_notes(&mut entry.unkept, entry.keys.len() + 1).is_err() {
        return Err(NoMemory);
    }
    let key = insert_node(table, draft)?;
    entry.keys.push(key);
    entry.strong += strong_with(draft);
    Ok(key)
}

/// Makes the entry that of a collection without a node. Its lists keep their room.
fn clear(entry: &mut Entry, id: CollectionId)
    ensures row { row_of entry.new ≡ no_row id }
    ensures strong { entry.new.strong ≡ 0 }
    ensures reserved { entry.new.reserved ≡ 0 }
{
    entry.id = id;
    entry.keys.clear();
    entry.buffers = None;
    entry.held.clear();
    entry.strong = 0;
    entry.reserved = 0;
    entry.unkept_known = true;
    entry.unkept.clear();
}

/// The entry of a collection without a node. Takes the spare one, if there is one.
#[inline(always)]
fn blank(
    alloc: Global,
    spare: &mut Option<BoxedEntry>,
    id: CollectionId,
) -> Result<BoxedEntry, NoMemory>
    ensures row { IfOk result (λ e. row_of e ≡ no_row id) }
    ensures strong { IfOk result (λ e. e.strong ≡ 0) }
    ensures reserved { IfOk result (λ e. e.reserved ≡ 0) }
{
    if let Some(mut entry) = mem::replace(spare, None) {
        clear(entry.get_mut(), id);
        return Ok(entry);
    }
    BoxedEntry::new(
        alloc,
        Entry {
            id,
            keys: KeyList::new(alloc),
            buffers: None,
            held: Vec::new(alloc),
            strong: 0,
            reserved: 0,
            unkept_known: true,
            unkept: Vec::new(alloc),
            guess: Cell::new(0),
        },
    )
}

/// The collection's first node.
#[inline(always)]
fn put_first(entry: &mut Entry, key: NodeKey, draft: &Node)
    requires room { length entry.old.keys.items < entry.old.keys.capacity }
    requires none { row_of entry.old ≡ no_row entry.old.id }
    ensures row { row_of entry.new ≡ row_with (no_row entry.old.id) key }
    ensures strong { entry.new.strong ≡ (if draft.now.weak then 0 else 1) }
    ensures reserved { entry.new.reserved ≡ entry.old.reserved }
{
    entry.keys.push(key);
    entry.strong = strong_with(draft);
}

/// The first node of a collection that is not there yet. Takes the spare entry, if there is one.
/// `NoMemory` leaves the table and the entries as they were.
fn insert_root(
    table: &mut NodeTable<Node>,
    entries: &mut Vec<BoxedEntry>,
    id: CollectionId,
    draft: &Node,
    spare: &mut Option<BoxedEntry>,
) -> Result<NodeKey, NoMemory>
    requires rising { AreRising (rows_of entries.old.items) }
    requires first { table.old.first ≡ 0 }
    requires parent { IfSome draft.now.parent (λ p. IsSome (row_at table.old p)) }
    ensures ok { IfOk result (λ key. Bears table.old table.new (named key draft.now)) }
    ensures err { OnErr result (table.new ≡ table.old) }
    ensures entries { IfOk result (λ key. (e : EntryValue)
        × (entries.new.items ≡ put_in e entries.old.items)
        × (row_of e ≡ row_with (no_row id) key)
        × (e.strong ≡ (if draft.now.weak then 0 else 1))
        × (e.reserved ≡ 0)) }
    ensures err_entries { OnErr result (entries.new.items ≡ entries.old.items) }
{
    let mut entry = blank(*entries.allocator(), spare, id)?;
    if entry.get_mut().keys.reserve_one().is_err() || entries.reserve(1).is_err() {
        return Err(NoMemory);
    }
    let key = insert_node(table, draft)?;
    put_first(entry.get_mut(), key, draft);
    put_entry(entries, entry);
    Ok(key)
}

/// The birth of the drafted node, where nothing else changes with it. `NoMemory` leaves the table as it
/// was, and of the entries all but their room. Costs O(1) and a binary search, growth spread
/// over the births, and for a root the shift of the entries behind it.
fn insert_uncounted(
    store: &mut Store,
    id: CollectionId,
    birth: Birth,
    draft: &Node,
    spare: &mut Option<BoxedEntry>,
) -> Result<NodeKey, NoMemory>
    requires forest { IsResting store.old }
    requires change { MayChange (forest_in store.old) id (birth_change birth) }
    requires draft { draft.now ≡ born_at store.old.nodes.table id birth no_key }
    ensures ok { IfOk result (InsertedIn store.old store.new id birth) }
    ensures err { OnErr result (RefusedIn store.old store.new) }
    ensures units { store.new.nodes.units.items ≡ store.old.nodes.units.items }
{
    match place_of(&store.entries, id) {
        Some(at) => insert_child(&mut store.nodes.table, store.entries[at].get_mut(), draft),
        None => insert_root(&mut store.nodes.table, &mut store.entries, id, draft, spare),
    }
}

/// The birth of a node, where nothing else changes with it, counted for its unit, whose slot the list
/// of units reaches. `NoMemory` leaves the table and the units as they were, and of the entries all
/// but their room. A new collection takes the spare entry, if there is one. Costs O(1) and a
/// binary search, growth spread over the births, and for a root the shift of the entries behind it.
#[inline(always)]
pub fn insert_counted(
    store: &mut Store,
    id: CollectionId,
    birth: Birth,
    spare: &mut Option<BoxedEntry>,
) -> Result<NodeKey, NoMemory>
    requires forest { IsResting store.old }
    requires reached { store.old.nodes.table.vacant < length store.old.nodes.units.items }
    requires change { MayChange (forest_in store.old) id (birth_change birth) }
    ensures ok { IfOk result (InsertedIn store.old store.new id birth) }
    ensures err { OnErr result (RefusedIn store.old store.new) }
    ensures units { HaveUnits store.new.nodes.units.items store.new.nodes.table
        store.new.entries.items }
{
    let mut draft = drafted(&store.nodes.table, id, birth);
    let key = insert_uncounted(store, id, birth, &draft, spare)?;
    name(&mut draft, key);
    assert_bounded(&store.nodes.table);
    put_unit(&mut store.nodes.units, key.slot as usize, no_unit());
    count_born(&mut store.nodes.units, &store.nodes.table, &draft);
    Ok(key)
}
