//! Removes the nodes that are no longer kept, with their keys, and collections without nodes and pages. A node
//! is unkept once it is gone and its end is spent.
ghost use Rattle.std.specs.Prelude.{IfSome, Some, None, ◌≡◌, ◌==◌, [], map, not, IsSome, MatchOption, length, nat_lt, ℕ, vec_len, ◌<◌, if◌then◌else◌, ◌≤◌, List, true, false};
ghost use Rattle.std.specs.List.{filter, find, list_all, list_any, AllByRecursion};
ghost use Rattle.std.specs.Option.{option_map_or};
ghost use Rattle.sm_names.specs.declared.keys.NodeKey.{NodeKey as Key};
ghost use Rattle.sm_names.specs.Sameness.{same_key};
ghost use Rattle.node_table.specs.Table.{Table, node_at, row_at, children_at};
ghost use Rattle.node_table.specs.Changes.{SameKeys};
ghost use Rattle.forest_store.specs.declared.node.Node.{Node as NodeValue};
ghost use Rattle.forest_store.specs.declared.entry.Entry.{Entry as KeptEntry};
ghost use Rattle.forest_store.specs.Calm.{AreCounted, unkept_except};
ghost use Rattle.forest_store.specs.Forest.{without_unkept_in};
ghost use Rattle.forest_store.specs.Unkept.{AreAllUnkept, IsBareAt, IsChild, IsForgettable, IsLeftIn, IsNotedIn, IsNoting, IsPlace, IsThinned, Unlinks, TakesOut, is_bare, is_found, is_left_by, is_own_if_unkept, left_at, thinned, thin_in, without_bare};
ghost use Rattle.forest_store.specs.CollectionRows.{AreRising, IsStored, CollectionRow, are_apart, collection_in, nodes_with, row_of, rows_of};
ghost use Rattle.forest_store.specs.Nodes.{is_unkept};
ghost use Rattle.forest_store.specs.Stores.{AreNamed};

use crate::boxed_entry::BoxedEntry;
use crate::entry::{Entry, place_of, remove_at};
use crate::key_list::KeyList;
use crate::lookup::is_unkept;
use crate::node::Node;
use node_table::NodeTable;
use sm_names::{CollectionId, NodeKey};
use std::alloc::AllocError;

/// For collections of at most this many nodes, a pass over all nodes costs no more than a list of
/// the unkept ones.
const FEW: usize = 4;

/// The list of a collection's unkept nodes has at most this many keys.
const MOST: usize = 64;

/// The first child of the node, which is there.
#[inline(always)]
pub(crate) fn first_child(table: &NodeTable<Node>, key: NodeKey) -> Option<NodeKey>
    requires { IsSome (row_at table.now key) }
    ensures { MatchOption result (children_at table.now key ≡ []) (IsChild table.now key) }
{
    table.kept_first_child(key)
}

/// Removes the links between the node and its children. Takes O(number of children).
#[inline(always)]
fn cut_children(table: &mut NodeTable<Node>, key: NodeKey)
    requires { IsSome (row_at table.old key) }
    ensures { Unlinks table.old table.new key }
{
    'cutting: while let Some(child) = first_child(table, key) {
        table.cut(child);
    }
}

/// Removes the node from the table. Its children stay, without a parent. Allocates nothing.
#[inline(always)]
pub fn take_out(table: &mut NodeTable<Node>, key: NodeKey) -> Node
    requires { IsSome (node_at table.old key) }
    ensures out { TakesOut table.old table.new key }
    ensures was { node_at table.old key ≡ Some result }
{
    cut_children(table, key);
    table.remove(key)
}

/// Whether the table has an unkept node with this key.
#[inline(always)]
fn is_unkept_at(table: &NodeTable<Node>, key: NodeKey) -> bool
    ensures { result ≡ option_map_or is_unkept (node_at table.now key) false }
{
    match table.get(key) {
        Some(node) => is_unkept(node),
        None => false,
    }
}

/// Removes the unkept nodes with these keys from the table, from the last to the first. Allocates
/// nothing.
#[inline(always)]
fn remove_unkept(table: &mut NodeTable<Node>, keys: &[NodeKey])
    ensures look { (k : Key) → node_at table.new k ≡ left_at table.old keys.now k }
    ensures kept { (ss : List CollectionRow) → IsStored table.old ss →
        IsStored table.new (map (thinned table.new) ss) }
    ensures keys { SameKeys table.old table.new }
{
    let mut rest = keys;
    'back: while let Some((key, older)) = rest.split_last() {
        if is_unkept_at(table, *key) {
            take_out(table, *key);
        }
        rest = older;
    }
}

/// Whether the table has a node with this key.
#[inline(always)]
pub(crate) fn is_found(table: &NodeTable<Node>, key: NodeKey) -> bool
    ensures { result ≡ is_found table.now key }
{
    table.get(key).is_some()
}

/// Whether it is known that no node of the collection is unkept.
#[inline(always)]
fn is_unkept_known(entry: &Entry) -> bool
    ensures { result ≡ true → (entry.now.unkept_known ≡ true) × (entry.now.unkept.items ≡ []) }
{
    entry.unkept_known && entry.unkept.is_empty()
}

/// Whether the table has a node with this key that was born before this event.
#[inline(always)]
fn is_born_before(table: &NodeTable<Node>, key: NodeKey, event: u64) -> bool
    ensures { result ≡ option_map_or (λ (n : NodeValue).
        nat_lt n.event event) (node_at table.now key) false }
{
    match table.get(key) {
        Some(node) => node.event < event,
        None => false,
    }
}

/// The index, if the key is at this index.
#[inline(always)]
fn found_at(keys: &[NodeKey], at: usize, key: NodeKey) -> Option<usize>
    ensures { IfSome result (λ at. IsPlace keys.now key at) }
{
    if at < keys.len() && keys[at] == key {
        Some(at)
    } else {
        None
    }
}

/// The index of the key among these, which are ordered by birth. Takes O(1) for the first key, for
/// the second one, which is the oldest below a root that stays, and for the last one, and O(log n)
/// for the others.
#[inline(always)]
pub(crate) fn place_by_birth(
    table: &NodeTable<Node>,
    keys: &[NodeKey],
    key: NodeKey,
) -> Option<usize>
    ensures { IfSome result (λ at. IsPlace keys.now key at) }
{
    if let Some(at) = found_at(keys, 0, key) {
        return Some(at);
    }
    if let Some(at) = found_at(keys, 1, key) {
        return Some(at);
    }
    if let Some(at) = found_at(keys, keys.len().saturating_sub(1), key) {
        return Some(at);
    }
    let node = table.get(key)?;
    let at = keys.partition_point(|key| is_born_before(table, *key, node.event));
    found_at(keys, at, key)
}

/// The same. Looks first behind this index, then before it.
#[inline(always)]
pub fn place_near(
    table: &NodeTable<Node>,
    keys: &[NodeKey],
    near: usize,
    key: NodeKey,
) -> Option<usize>
    ensures { IfSome result (λ at. IsPlace keys.now key at) }
{
    if let Some(at) = found_at(keys, near.wrapping_add(1), key) {
        return Some(at);
    }
    if let Some(at) = found_at(keys, near.wrapping_sub(1), key) {
        return Some(at);
    }
    place_by_birth(table, keys, key)
}

/// Whether the node with this key belongs to this collection, if it is unkept.
#[inline(always)]
fn is_own_if_unkept(table: &NodeTable<Node>, id: CollectionId, key: NodeKey) -> bool
    ensures { result ≡ is_own_if_unkept table.now id key }
{
    match table.get(key) {
        Some(node) => !is_unkept(node) || node.collection == id,
        None => true,
    }
}

/// Whether each unkept node with one of these keys belongs to this collection.
#[inline(always)]
fn are_own(table: &NodeTable<Node>, id: CollectionId, keys: &[NodeKey]) -> bool
    ensures { result ≡ list_all (is_own_if_unkept table.now id) keys.now }
{
    keys.iter().all(|key| is_own_if_unkept(table, id, *key))
}

/// Removes this key from those of a collection. O(keys of the collection).
#[inline(always)]
pub fn drop_key(table: &NodeTable<Node>, keys: &mut KeyList, key: NodeKey)
    requires { are_apart keys.old.items ≡ true }
    ensures { keys.new.items ≡ filter (λ other. not (same_key key other)) keys.old.items }
{
    match place_by_birth(table, keys.as_slice(), key) {
        Some(at) => keys.remove(at),
        None => keys.forget(key),
    }
}

/// Removes the listed keys whose nodes are unkept from those of a collection.
#[inline(always)]
fn drop_keys(table: &NodeTable<Node>, keys: &mut KeyList, unkept: &[NodeKey])
    requires { are_apart keys.old.items ≡ true }
    ensures { keys.new.items ≡ filter (is_left_by table.now unkept.now) keys.old.items }
{
    let mut rest = unkept;
    'dropping: while let Some((key, later)) = rest.split_first() {
        if is_unkept_at(table, *key) {
            drop_key(table, keys, *key);
        }
        rest = later;
    }
}

/// Removes the unkept nodes with these keys from the table, and their keys from these. If it is known
/// that no other node is unkept, this reads only the listed keys, and otherwise all keys. Allocates
/// nothing.
#[inline(always)]
fn take_all_unkept(table: &mut NodeTable<Node>, keys: &mut KeyList, unkept: &[NodeKey], known: bool)
    requires apart { are_apart keys.old.items ≡ true }
    requires known { known ≡ true → AreAllUnkept table.old unkept.now keys.old.items }
    ensures look { (k : Key) → node_at table.new k ≡ left_at table.old keys.old.items k }
    ensures kept { (ss : List CollectionRow) → IsStored table.old ss →
        IsStored table.new (map (thinned table.new) ss) }
    ensures same { SameKeys table.old table.new }
    ensures keys { keys.new.items ≡ filter (is_found table.new) keys.old.items }
{
    if known {
        drop_keys(table, keys, unkept);
        remove_unkept(table, unkept);
    } else {
        remove_unkept(table, keys.as_slice());
        keys.keep_found(table);
    }
}

/// Removes the unkept nodes of the collection.
fn forget_of(table: &mut NodeTable<Node>, entry: &mut Entry)
    requires { IsForgettable table.old entry.old }
    ensures look { (k : Key) → node_at table.new k ≡ left_at table.old entry.old.keys.items k }
    ensures kept { (ss : List CollectionRow) → IsStored table.old ss →
        IsStored table.new (map (thinned table.new) ss) }
    ensures keys { SameKeys table.old table.new }
    ensures entry { IsThinned table.new entry.old entry.new }
{
    let known = entry.unkept_known && are_own(table, entry.id, &entry.unkept);
    take_all_unkept(table, &mut entry.keys, &entry.unkept, known);
    entry.unkept.clear();
    entry.unkept_known = true;
}

/// Whether the collection has no node and no page.
#[inline(always)]
fn is_bare(entry: &Entry) -> bool
    ensures { result ≡ is_bare (row_of entry.now) }
{
    entry.keys.len() == 0 && entry.held.is_empty()
}

/// The place, if the collection that stands there has no node and no page.
#[inline(always)]
fn place_if_bare(entry: &Entry, at: usize) -> Option<usize>
    ensures { result ≡ (if is_bare (row_of entry.now) then Some at else None) }
{
    if is_bare(entry) { Some(at) } else { None }
}

/// Removes the collection at this place, which has no node and no page. Its entry is then the spare one.
/// Allocates nothing. Out of line, so that the function which makes an event stays small enough to be
/// inlined.
#[inline(never)]
fn drop_bare(entries: &mut Vec<BoxedEntry>, at: usize, spare: &mut Option<BoxedEntry>)
    requires { at < vec_len entries.old }
    ensures rows { (id : ℕ) → AreRising (rows_of entries.old.items) →
        IsBareAt id at entries.old.items →
        rows_of entries.new.items ≡ without_bare id (rows_of entries.old.items) }
    ensures counted { (t : Table NodeValue) → AreCounted t entries.old.items →
        AreCounted t entries.new.items }
{
    *spare = Some(remove_at(entries, at));
}

/// Removes the unkept nodes of the collection. Answers its place, if it has no node and no page then. If
/// it is known that no node is unkept, this takes O(log n) in the number of collections. If the unkept
/// nodes are listed, each takes a binary search among the collection's nodes and a move of the keys on its
/// shorter side. Otherwise this takes O(n) in the number of the collection's nodes.
#[inline(always)]
fn forget_nodes(
    table: &mut NodeTable<Node>,
    entries: &mut Vec<BoxedEntry>,
    id: CollectionId,
) -> Option<usize>
    requires kept { IsStored table.old (rows_of entries.old.items) }
    requires counted { AreCounted table.old entries.old.items }
    ensures rows { rows_of entries.new.items
        ≡ thin_in table.new id (rows_of entries.old.items) }
    ensures left { IsLeftIn table.old table.new id (rows_of entries.old.items) }
    ensures kept { IsStored table.new (map (thinned table.new) (rows_of entries.old.items)) }
    ensures counted { AreCounted table.new entries.new.items }
    ensures keys { SameKeys table.old table.new }
    ensures bare { IfSome result (λ at. IsBareAt id at entries.new.items) }
    ensures full { result ≡ None →
        without_bare id (rows_of entries.new.items) ≡ rows_of entries.new.items }
{
    let Some(at) = place_of(entries, id) else {
        return None;
    };
    if is_unkept_known(entries[at].get()) {
        return place_if_bare(entries[at].get(), at);
    }
    let entry = entries[at].get_mut();
    forget_of(table, entry);
    place_if_bare(entry, at)
}

/// Removes the unkept nodes of the collection, and the collection if it has no node and no page then. Its
/// entry is then the spare one. Allocates nothing.
#[inline(always)]
pub fn forget_unkept(
    table: &mut NodeTable<Node>,
    entries: &mut Vec<BoxedEntry>,
    id: CollectionId,
    spare: &mut Option<BoxedEntry>,
)
    requires kept { IsStored table.old (rows_of entries.old.items) }
    requires counted { AreCounted table.old entries.old.items }
    ensures collections { map (collection_in table.new) (rows_of entries.new.items)
        ≡ without_unkept_in id (map (collection_in table.old) (rows_of entries.old.items)) }
    ensures kept { IsStored table.new (rows_of entries.new.items) }
    ensures counted { AreCounted table.new entries.new.items }
    ensures keys { SameKeys table.old table.new }
{
    if let Some(at) = forget_nodes(table, entries, id) {
        drop_bare(entries, at, spare);
    }
}

/// Lists the key of an unkept node. If the list has no room, the entry records that not all unkept nodes
/// are listed. Allocates nothing.
#[inline(always)]
fn note_key(entry: &mut Entry, key: NodeKey)
    ensures entry { IsNoting entry.old entry.new }
    ensures unkept { IsNotedIn entry.new key }
{
    if entry.unkept.len() < entry.unkept.capacity() && entry.unkept.push(key).is_ok() {
        return;
    }
    entry.unkept_known = false;
}

/// Lists the collection's node with this key, if it is unkept now. Allocates nothing.
pub fn list_unkept(entries: &mut Vec<BoxedEntry>, id: CollectionId, key: NodeKey, over: bool)
    requires { AreRising (rows_of entries.old.items) }
    ensures rows { rows_of entries.new.items ≡ rows_of entries.old.items }
    ensures counted { (t : Table NodeValue) → AreCounted t entries.old.items →
        AreCounted t entries.new.items }
    ensures unkept { over ≡ true →
        AllByRecursion (λ (e : KeptEntry). e.id ≡ id → IsNotedIn e key) entries.new.items }
{
    if !over {
        return;
    }
    if let Some(at) = place_of(entries, id) {
        note_key(entries[at].get_mut(), key);
    }
}

/// Lists the collection's nodes with these keys that are unkept. Allocates nothing.
#[inline(always)]
fn note_all(table: &NodeTable<Node>, entry: &mut Entry, keys: &[NodeKey])
    requires named { AreNamed table.now }
    ensures entry { IsNoting entry.old entry.new }
    ensures over { entry.new.unkept_known ≡ true →
        list_any (unkept_except entry.new.unkept.items) (nodes_with table.now keys.now) ≡ false }
{
    let mut rest = keys;
    'noting: while let Some((key, later)) = rest.split_first() {
        if is_unkept_at(table, *key) {
            note_key(entry, *key);
        }
        rest = later;
    }
}

/// Lists the collection's nodes with these keys that are unkept, if the caller says that one is.
/// Allocates nothing.
#[inline(always)]
pub fn note_gone(table: &NodeTable<Node>, entry: &mut Entry, keys: &[NodeKey], over: bool)
    requires named { AreNamed table.now }
    requires over { over ≡ list_any is_unkept (nodes_with table.now keys.now) }
    ensures entry { IsNoting entry.old entry.new }
    ensures over { entry.new.unkept_known ≡ true →
        list_any (unkept_except entry.new.unkept.items) (nodes_with table.now keys.now) ≡ false }
{
    if over {
        note_all(table, entry, keys);
    }
}

/// Reserves room for the list of unkept nodes of a collection with this many nodes: none where a pass
/// over all nodes is as cheap, and at most 64 keys.
#[inline(always)]
pub(crate) fn reserve_notes(unkept: &mut Vec<NodeKey>, nodes: usize) -> Result<(), AllocError>
    ensures { unkept.new.items ≡ unkept.old.items }
{
    let most = nodes.min(MOST);
    if nodes <= FEW || most <= unkept.capacity() {
        return Ok(());
    }
    unkept.reserve(most.saturating_sub(unkept.len()))
}
