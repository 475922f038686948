//! That a failure is found once memory was refused, and the table is as it was.
use failure_domains::{Fall, Link, fall};
use node_table::NodeTable;
use sm_names::{NoMemory, NodeKey};
use std::alloc::Global;

#[derive(Clone, Copy)]
struct Node {
    blocks: bool,
}

impl Link for Node {
    ghost blocks = { λ node. node.blocks };

    fn blocks(&self) -> bool {
        self.blocks
    }
}

// The key of the node in this slot of a new table.
fn key_of(slot: u32) -> NodeKey {
    NodeKey {
        slot,
        generation: 0,
    }
}

// A root, its child that blocks, and the first and the last of the 28 children of that child.
const ROOT: NodeKey = NodeKey {
    slot: 0,
    generation: 0,
};

const CHILD: NodeKey = NodeKey {
    slot: 1,
    generation: 0,
};

const FIRST: NodeKey = NodeKey {
    slot: 2,
    generation: 0,
};

const LAST: NodeKey = NodeKey {
    slot: 29,
    generation: 0,
};

// The key of the node that is to get this slot, if the one above it is there.
fn born(table: &mut NodeTable<Node>, slot: u32) -> Option<NodeKey> {
    let above = above(slot);
    if let Some(key) = above {
        if !table.contains(key) {
            return None;
        }
    }
    let blocks = slot == CHILD.slot;
    table.insert(above, Node { blocks }).ok()
}

// Whether the next node gets this slot. One refused growth is tried again.
fn is_born(table: &mut NodeTable<Node>, slot: u32) -> bool {
    let wanted = Some(key_of(slot));
    match born(table, slot) {
        None => born(table, slot) == wanted,
        key => key == wanted,
    }
}

// Below which node the node of this slot is.
fn above(slot: u32) -> Option<NodeKey> {
    match slot {
        0 => None,
        1 => Some(ROOT),
        _ => Some(CHILD),
    }
}

fn bears_family(table: &mut NodeTable<Node>) -> bool {
    for slot in 0..30 {
        if !is_born(table, slot) {
            return false;
        }
    }
    true
}

// Whether these are the child, first, and 28 nodes more, its last child last.
fn are_all_but_the_root(keys: &[NodeKey]) -> bool {
    match keys {
        [first, .., last] => keys.len() == 29 && *first == CHILD && *last == LAST,
        _ => false,
    }
}

// Whether these nodes were found in 29 visits.
fn is_meant(fall: &Fall) -> bool {
    fall.visits == 29 && are_all_but_the_root(fall.keys.as_slice())
}

// Whether a failure of the child takes all but the root.
fn takes(alloc: Global, table: &NodeTable<Node>) -> Option<bool> {
    if !table.contains(CHILD) {
        return Some(false);
    }
    match fall(alloc, table, CHILD) {
        Ok(fall) => Some(is_meant(&fall)),
        Err(NoMemory) => None,
    }
}

// The same. One refused growth is tried again.
fn takes_all_but_the_root(alloc: Global, table: &NodeTable<Node>) -> bool {
    match takes(alloc, table) {
        Some(is_taken) => is_taken,
        None => takes(alloc, table) == Some(true),
    }
}

// Whether the table is unchanged by the search for what fails.
fn is_as_it_was(table: &NodeTable<Node>) -> bool {
    match table.get(CHILD) {
        Some(node) => {
            let now = (table.len(), table.parent(CHILD), table.first_child(CHILD));
            node.blocks && now == (30, Some(ROOT), Some(FIRST))
        }
        None => false,
    }
}

fn falls_in_part(alloc: Global, table: &mut NodeTable<Node>) -> bool {
    bears_family(table) && takes_all_but_the_root(alloc, table) && is_as_it_was(table)
}

// Run with each allocation refused in turn, this meets each growth of `fall`.
#[test]
fn a_fall_succeeds_after_refused_memory(rt: HostRuntime) {
    let mut table = NodeTable::new(rt.alloc(), 30);
    assert!(rt; falls_in_part(rt.alloc(), &mut table));
}
