//! Room for removed nodes, and for pending units.
ghost use Rattle.std.specs.Prelude.{◌≡◌, ◌≤◌, [], OnOk, true, vec_capacity};

use crate::pending_units::PendingUnit;
use sm_names::{NoMemory, NodeKey};
use std::alloc::Global;

/// Lists with room for as many as there are nodes: births make it, so that removals and
/// allocations take no memory.
#[derive(Drop)]
pub struct Scratch {
    /// The removed nodes, or the nodes of the pending units.
    pub removed: Vec<NodeKey>,
    /// The nodes of the root's unit.
    pub unit: Vec<NodeKey>,
    /// Pending units.
    pub pending: Vec<PendingUnit>,
}

impl Scratch {
    /// Empty lists with room for nothing. Takes no memory.
    pub fn new(alloc: Global) -> Scratch
        ensures removed { result.removed.items ≡ [] }
        ensures unit { result.unit.items ≡ [] }
        ensures pending { result.pending.items ≡ [] }
    {
        Scratch {
            removed: Vec::new(alloc),
            unit: Vec::new(alloc),
            pending: Vec::new(alloc),
        }
    }

    /// Makes room for this many nodes in each list. O(1), growth spread over the calls.
    #[inline(always)]
    pub fn reserve(&mut self, nodes: usize) -> Result<(), NoMemory>
        ensures removed { OnOk result (nodes ≤ vec_capacity self.new.removed) }
        ensures unit { OnOk result (nodes ≤ vec_capacity self.new.unit) }
        ensures pending { OnOk result (nodes ≤ vec_capacity self.new.pending) }
    {
        if nodes <= self.removed.capacity()
            && nodes <= self.unit.capacity()
            && nodes <= self.pending.capacity()
        {
            return Ok(());
        }
        self.grow(nodes)
    }

    // Does what `reserve` does, where a list has too little room. Out of line, since a call seldom comes here.
    #[inline(never)]
    fn grow(&mut self, nodes: usize) -> Result<(), NoMemory>
        ensures removed { OnOk result (nodes ≤ vec_capacity self.new.removed) }
        ensures unit { OnOk result (nodes ≤ vec_capacity self.new.unit) }
        ensures pending { OnOk result (nodes ≤ vec_capacity self.new.pending) }
    {
        if make_in(&mut self.removed, nodes)
            && make_in(&mut self.unit, nodes)
            && make_in(&mut self.pending, nodes)
        {
            Ok(())
        } else {
            Err(NoMemory)
        }
    }
}

// Makes room for this many in this list, and answers whether there is.
fn make_in<T>(list: &mut Vec<T>, most: usize) -> bool
    ensures { result ≡ true → most ≤ vec_capacity list.new }
{
    most <= list.capacity() || list.reserve(most.saturating_sub(list.len())).is_ok()
}
