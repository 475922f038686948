//! A collection as it is kept, and the collections by their ids.
ghost use Rattle.std.specs.Prelude.{◌≡◌, ◌==◌, ◌<◌, ◌≤◌, nat_lt, option_copied, vec_capacity, vec_len, IfSome, Some};
ghost use Rattle.std.specs.List.{prefix_len, find, insert, remove};
ghost use Rattle.forest_store.specs.CollectionRows.{AreRising, place_in, rows_of};

use crate::boxed_entry::BoxedEntry;
use crate::key_list::KeyList;
use sm_names::{Buffers, CollectionId, HeldBuffer, NodeKey};
use std::cell::Cell;

/// A collection, with the keys of its nodes.
///
/// The order of the fields makes it 128 bytes long.
#[derive(Drop)]
pub struct Entry {
    /// How many buffers its nodes camp on that are not gone and whose units are allocated.
    pub reserved: u128,
    /// Its id.
    pub id: CollectionId,
    /// The keys of the kept nodes, by birth.
    pub keys: KeyList,
    /// The buffers whose pages were not given back, by index.
    pub held: Vec<HeldBuffer>,
    /// The keys of unkept nodes that are still in the table.
    pub unkept: Vec<NodeKey>,
    /// How many of its nodes are live and strong.
    pub strong: usize,
    /// What it was given.
    pub buffers: Option<Buffers>,
    /// In the first entry: the index at which the last search found a collection. The next search
    /// tries it first.
    pub guess: Cell<u16>,
    /// It is known that each of its unkept nodes is listed in `unkept`.
    pub unkept_known: bool,
}

/// How many collections have a smaller id, if the last one has this id or a smaller one.
#[inline(always)]
fn before_last(entries: &[BoxedEntry], id: CollectionId) -> Option<usize>
    requires { AreRising (rows_of entries.now) }
    ensures { IfSome result (λ at. at ≡ prefix_len (λ e. nat_lt e.id id) entries.now) }
{
    let last = entries.len().checked_sub(1)?;
    let greatest = entries[last].get().id;
    if greatest < id {
        Some(entries.len())
    } else if greatest == id {
        Some(last)
    } else {
        None
    }
}

/// The index that is guessed, if the collection with this id is there.
#[inline(always)]
fn guessed(entries: &[BoxedEntry], id: CollectionId) -> Option<usize>
    requires { AreRising (rows_of entries.now) }
    ensures before { IfSome result (λ at. at ≡ prefix_len (λ e. nat_lt e.id id) entries.now) }
    ensures place { IfSome result (λ at. place_in id entries.now ≡ Some at) }
{
    let at = entries.first()?.get().guess.get() as usize;
    if at < entries.len() && entries[at].get().id == id {
        Some(at)
    } else {
        None
    }
}

/// Keeps the index as the next guess, if it fits in 16 bits.
#[inline(always)]
fn keep_guess(entries: &[BoxedEntry], at: usize) {
    if let Some(first) = entries.first() {
        if at <= u16::MAX as usize {
            first.get().guess.set(at as u16);
        }
    }
}

/// How many collections have a smaller id, by a binary search, which is the next guess.
fn searched(entries: &[BoxedEntry], id: CollectionId) -> usize
    requires { AreRising (rows_of entries.now) }
    ensures { result ≡ prefix_len (λ e. nat_lt e.id id) entries.now }
{
    let at = entries.partition_point(|entry| entry.get().id < id);
    keep_guess(entries, at);
    at
}

/// How many collections have a smaller id. Looks at the last one, then at the one that was found
/// last, then makes a binary search.
#[inline(always)]
pub(crate) fn entries_before(entries: &[BoxedEntry], id: CollectionId) -> usize
    requires { AreRising (rows_of entries.now) }
    ensures { result ≡ prefix_len (λ e. nat_lt e.id id) entries.now }
{
    if let Some(at) = before_last(entries, id) {
        return at;
    }
    match guessed(entries, id) {
        Some(at) => at,
        None => searched(entries, id),
    }
}

/// The index of the collection with this id, by a binary search.
#[inline(never)]
fn searched_place(entries: &[BoxedEntry], id: CollectionId) -> Option<usize>
    requires { AreRising (rows_of entries.now) }
    ensures { result ≡ place_in id entries.now }
{
    let at = searched(entries, id);
    if at < entries.len() && entries[at].get().id == id {
        Some(at)
    } else {
        None
    }
}

/// The index of the collection with this id. Looks at the last one, then at the one that was found
/// last, then makes a binary search.
#[inline(always)]
pub fn place_of(entries: &[BoxedEntry], id: CollectionId) -> Option<usize>
    requires { AreRising (rows_of entries.now) }
    ensures { result ≡ place_in id entries.now }
{
    let last = entries.len().checked_sub(1)?;
    let greatest = entries[last].get().id;
    if greatest == id {
        return Some(last);
    }
    if greatest < id {
        return None;
    }
    if let Some(at) = guessed(entries, id) {
        return Some(at);
    }
    searched_place(entries, id)
}

/// The collection with this id.
pub fn entry_of(entries: &[BoxedEntry], id: CollectionId) -> Option<&Entry>
    requires { AreRising (rows_of entries.now) }
    ensures { option_copied result ≡ find (λ e. e.id == id) entries.now }
{
    match place_of(entries, id) {
        Some(at) => Some(entries[at].get()),
        None => None,
    }
}

/// Puts the entry at this index, into a list that has room. At the end no other moves.
#[inline(always)]
pub(crate) fn insert_at(entries: &mut Vec<BoxedEntry>, at: usize, entry: BoxedEntry)
    requires within { at ≤ vec_len entries.old }
    requires room { vec_len entries.old < vec_capacity entries.old }
    ensures { entries.new.items ≡ insert entries.old.items at entry }
{
    if at == entries.len() {
        entries.push_reserved(entry);
    } else {
        entries.insert(at, entry).unwrap();
    }
}

/// Removes the entry at this index, and answers it. At the end no other moves.
#[inline(always)]
pub(crate) fn remove_at(entries: &mut Vec<BoxedEntry>, at: usize) -> BoxedEntry
    requires { at < vec_len entries.old }
    ensures { entries.new.items ≡ remove entries.old.items at }
{
    if at + 1 == entries.len() {
        entries.pop().unwrap()
    } else {
        entries.remove(at)
    }
}
