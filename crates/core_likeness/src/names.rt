//! New names.
ghost use Rattle.std.specs.Prelude.{◌≡◌, OnOk};
ghost use Rattle.sm_names.specs.Sameness.{same_key};
ghost use Rattle.core_likeness.specs.Naming.{new_id, new_key, new_number, same_number, swapped, under};

use sm_names::{BufferName, CollectionId, NodeKey, TrackerId};
use std::alloc::{AllocError, Global};

/// New names of nodes, collections and trackers. Each list has swaps, which are made one after another: no two names
/// become one.
#[derive(Drop)]
pub struct Names {
    pub keys: Vec<(NodeKey, NodeKey)>,
    pub ids: Vec<(u64, u64)>,
    pub numbers: Vec<(u64, u64)>,
}

// The key after a swap.
fn swap_key(swap: (NodeKey, NodeKey), key: NodeKey) -> NodeKey
    ensures { result ≡ swapped same_key swap key }
{
    let (one, other) = swap;
    if one == key {
        other
    } else if other == key {
        one
    } else {
        key
    }
}

// The number after a swap.
fn swap_number(swap: (u64, u64), number: u64) -> u64
    ensures { result ≡ swapped same_number swap number }
{
    let (one, other) = swap;
    if one == number {
        other
    } else if other == number {
        one
    } else {
        number
    }
}

// The number after these swaps.
fn swap_all(swaps: &[(u64, u64)], number: u64) -> u64
    ensures { result ≡ under same_number swaps.now number }
{
    let mut name = number;
    for swap in swaps {
        name = swap_number(*swap, name);
    }
    name
}

// The key after these swaps.
fn swap_keys(swaps: &[(NodeKey, NodeKey)], key: NodeKey) -> NodeKey
    ensures { result ≡ under same_key swaps.now key }
{
    let mut name = key;
    for swap in swaps {
        name = swap_key(*swap, name);
    }
    name
}

impl Names {
    /// The old names.
    pub fn new(alloc: Global) -> Names {
        Names {
            keys: Vec::new(alloc),
            ids: Vec::new(alloc),
            numbers: Vec::new(alloc),
        }
    }

    /// The new key of the node. Costs O(k) for k swaps.
    pub fn key(&self, key: NodeKey) -> NodeKey
        ensures { result ≡ new_key self.now key }
    {
        swap_keys(&self.keys, key)
    }

    /// The new number of the collection. Costs O(k) for k swaps.
    pub fn id(&self, id: CollectionId) -> CollectionId
        ensures { result ≡ new_id self.now id }
    {
        swap_all(&self.ids, id)
    }

    /// The new number of the tracker. Costs O(k) for k swaps.
    pub fn number(&self, number: TrackerId) -> TrackerId
        ensures { result ≡ new_number self.now number }
    {
        swap_all(&self.numbers, number)
    }

    /// The buffer of the collection under its new number.
    pub fn buffer(&self, buffer: BufferName) -> BufferName
        ensures { result ≡ record buffer { collection = new_id self.now buffer.collection } }
    {
        BufferName {
            collection: self.id(buffer.collection),
            index: buffer.index,
        }
    }

    // The old number of the collection: a guess, since no clause says so.
    pub(crate) fn old_id(&self, id: CollectionId) -> CollectionId {
        let mut name = id;
        for swap in self.ids.iter().rev() {
            name = swap_number(*swap, name);
        }
        name
    }

    /// From now on the new key of the node is this one.
    pub fn pair_keys(&mut self, key: NodeKey, new: NodeKey) -> Result<(), AllocError>
        ensures { OnOk result (new_key self.new key ≡ new) }
    {
        let now = self.key(key);
        self.keys.push((now, new))?;
        Ok(())
    }

    /// From now on the new number of the collection is this one.
    pub fn pair_ids(&mut self, id: CollectionId, new: CollectionId) -> Result<(), AllocError>
        ensures { OnOk result (new_id self.new id ≡ new) }
    {
        let now = self.id(id);
        self.ids.push((now, new))?;
        Ok(())
    }

    /// From now on the new number of the tracker is this one.
    pub fn pair_numbers(&mut self, number: TrackerId, new: TrackerId) -> Result<(), AllocError>
        ensures { OnOk result (new_number self.new number ≡ new) }
    {
        let now = self.number(number);
        self.numbers.push((now, new))?;
        Ok(())
    }
}
