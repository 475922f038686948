//! The keys of a collection's nodes.
ghost use Rattle.std.specs.Prelude.{◌≡◌, ◌+◌, ◌-◌, ◌++◌, ◌∷◌, ◌<◌, ◌≤◌, ◌^◌, [], length, not, drop, vec_capacity, OnOk};
ghost use Rattle.std.specs.List.{filter, remove};
ghost use Rattle.sm_names.specs.Sameness.{same_key};
ghost use Rattle.forest_store.specs.Unkept.{is_found};

use crate::node::Node;
use crate::unkept::is_found;
use node_table::NodeTable;
use sm_names::NodeKey;
use std::alloc::{AllocError, Global};
use std::marker::Model;

/// The keys of a collection's nodes, by birth. The removal of a key moves those on its shorter
/// side.
#[derive(Drop)]
pub struct KeyList {
    // The cells before `front` are free.
    cells: Vec<NodeKey>,
    front: usize,
}

impl Model for KeyList {
    ghost use Rattle.std.specs.Prelude.{◌-◌, ◌≤◌, drop, length, vec_capacity};
    ghost use Rattle.forest_store.specs.Keys.{Listed};

    ghost Value = { Listed };

    ghost view = { λ k. record {
      items = drop k.front k.cells.items;
      capacity = vec_capacity k.cells - k.front;
    } };

    ghost invariant = { λ k. k.front ≤ length k.cells.items };
}

impl KeyList {
    /// None.
    pub fn new(alloc: Global) -> KeyList
        ensures { result.items ≡ [] }
    {
        KeyList {
            cells: Vec::new(alloc),
            front: 0,
        }
    }

    /// These.
    pub fn of(keys: Vec<NodeKey>) -> KeyList
        ensures { result.items ≡ keys.items }
    {
        KeyList {
            cells: keys,
            front: 0,
        }
    }

    /// Forgets all of them. Their room stays.
    pub(crate) fn clear(&mut self)
        ensures { self.new.items ≡ [] }
    {
        self.cells.clear();
        self.front = 0;
    }

    /// How many there are.
    pub fn len(&self) -> usize
        ensures { result ≡ length self.now.items }
    {
        self.cells.len() - self.front
    }

    /// The keys, by birth.
    pub fn as_slice(&self) -> &[NodeKey]
        ensures items { result.now ≡ self.now.items }
        ensures few { length self.now.items < 2 ^ 63 }
    {
        &self.cells[self.front..]
    }

    /// Reserves room for one more.
    #[inline(always)]
    pub fn reserve_one(&mut self) -> Result<(), AllocError>
        ensures items { self.new.items ≡ self.old.items }
        ensures room { OnOk result (length self.new.items < self.new.capacity) }
        ensures few { length self.new.items < 2 ^ 63 }
    {
        if self.front > 0 && self.front >= self.len() {
            move_down(&mut self.cells, self.front);
            self.front = 0;
        }
        self.cells.reserve(1)
    }

    /// Adds one at the end.
    pub fn push(&mut self, key: NodeKey)
        requires room { length self.old.items < self.old.capacity }
        ensures { self.new.items ≡ self.old.items ++ key ∷ [] }
    {
        self.cells.push(key).unwrap();
    }

    /// Removes the key at this index. Takes O(n) in the number of keys on its shorter side.
    #[inline(always)]
    pub fn remove(&mut self, at: usize)
        requires { at < length self.old.items }
        ensures { self.new.items ≡ remove self.old.items at }
    {
        let place = self.front + at;
        if at < self.len() - at {
            move_up(&mut self.cells, self.front, place);
            self.front += 1;
        } else {
            self.cells.remove(place);
        }
    }

    /// Removes this key.
    pub fn forget(&mut self, key: NodeKey)
        ensures { self.new.items ≡ filter (λ other. not (same_key key other)) self.old.items }
    {
        move_down(&mut self.cells, self.front);
        self.front = 0;
        self.cells.retain(|other| key != *other);
    }

    /// Keeps those of the keys that the table has.
    pub fn keep_found(&mut self, table: &NodeTable<Node>)
        ensures { self.new.items ≡ filter (is_found table.now) self.old.items }
    {
        move_down(&mut self.cells, self.front);
        self.front = 0;
        self.cells.retain(|key| is_found(table, *key));
    }
}

// Drops this many cells from the front. Out of line, since a birth seldom comes here.
#[inline(never)]
fn move_down(cells: &mut Vec<NodeKey>, front: usize)
    requires { front ≤ length cells.old.items }
    ensures items { cells.new.items ≡ drop front cells.old.items }
    ensures capacity { vec_capacity cells.new ≡ vec_capacity cells.old }
{
    let left = cells.len() - front;
    cells.copy_within(front.., 0);
    cells.truncate(left);
}

// Moves the cells from one index up to another by one, over the last of them.
fn move_up(cells: &mut Vec<NodeKey>, from: usize, to: usize)
    requires order { from ≤ to }
    requires within { to < length cells.old.items }
    ensures items { drop (from + 1) cells.new.items
        ≡ remove (drop from cells.old.items) (to - from) }
    ensures len { length cells.new.items ≡ length cells.old.items }
{
    cells.copy_within(from..to, from + 1);
}
