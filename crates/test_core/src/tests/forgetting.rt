//! Nodes that go together leave no room taken, however many they are and however many stay.
use super::cores::{Play, first_root, goes_well, is_done, makes, token};
use lifetime_core::Core;
use sm_names::{Call, NodeKey};
use std::alloc::Global;

// How many children of the root stay.
const STAY: u32 = 200;

/// How the ends of a unit are spent, one after another.
#[derive(Clone, Copy)]
pub enum Leaving {
    /// All are released, so that they go with the last.
    Released,
    /// All but the last are released, and that fails with them.
    Failed,
    /// The first fails, and then each is closed.
    Closed,
}

// The root of the first collection, with this many children, bound.
fn family(core: &mut Core) -> Option<NodeKey> {
    let root = first_root(core)?;
    let is_there = makes(core, &Call::Duplicate(root), STAY) && is_done(core, Call::Bind(root));
    is_there.then_some(root)
}

// Whether the node becomes the head of a unit of this many, whose keys are noted, its own last.
fn has_unit(core: &mut Core, head: NodeKey, nodes: u8, keys: &mut Vec<NodeKey>) -> bool {
    for _ in 1..nodes {
        match token(core, Call::Duplicate(head)) {
            Some(key) if keys.push(key).is_ok() => {}
            _ => return false,
        }
    }
    keys.push(head).is_ok()
}

fn are_bound(core: &mut Core, keys: &[NodeKey]) -> bool {
    for key in keys {
        if !is_done(core, Call::Bind(*key)) {
            return false;
        }
    }
    true
}

// The call that spends an end so, which may be the last of its unit.
fn spending(leaving: Leaving, key: NodeKey, is_last: bool) -> Call {
    match leaving {
        Leaving::Released => Call::Release(key),
        Leaving::Failed if is_last => Call::Close(key),
        Leaving::Failed => Call::Release(key),
        Leaving::Closed => Call::Close(key),
    }
}

fn none_is_live(core: &Core, keys: &[NodeKey]) -> bool {
    for key in keys {
        if core.is_live(*key) {
            return false;
        }
    }
    true
}

// Whether the ends are spent so, and no node is live then.
fn leave(core: &mut Core, keys: &[NodeKey], leaving: Leaving) -> bool {
    for (at, key) in keys.iter().enumerate() {
        if !is_done(core, spending(leaving, *key, at + 1 == keys.len())) {
            return false;
        }
    }
    none_is_live(core, keys)
}

// Whether a unit of this many nodes below the root comes and goes so.
fn comes_and_goes(
    alloc: Global,
    core: &mut Core,
    root: NodeKey,
    nodes: u8,
    leaving: Leaving,
) -> bool {
    let Some(head) = token(core, Call::AttachToken(root)) else {
        return false;
    };
    let mut keys = Vec::new(alloc);
    has_unit(core, head, nodes, &mut keys) && are_bound(core, &keys) && leave(core, &keys, leaving)
}

/// Whether units of this many nodes come and go so, one after another, beside nodes that stay.
pub fn leave_beside(alloc: Global, core: &mut Core, nodes: u8, leaving: Leaving) -> bool {
    let Some(root) = family(core) else {
        return false;
    };
    for _ in 0..20 {
        if !comes_and_goes(alloc, core, root, nodes, leaving) {
            return false;
        }
    }
    core.is_live(root)
}

// Whether they do where no more nodes have room, be they few or many.
fn leave_nothing(alloc: Global, leaving: Leaving) -> bool {
    for nodes in [1, 2, 3, 64, 65, 200] {
        let limits = [100_000, 1 + STAY + u32::from(nodes), 1, 1, 1];
        if !goes_well(alloc, limits, Play::Units(nodes, leaving)) {
            return false;
        }
    }
    true
}

#[test]
fn released_units_leave_no_node(rt: HostRuntime) {
    assert!(rt; leave_nothing(rt.alloc(), Leaving::Released));
}

#[test]
fn units_that_fail_after_releases_leave_no_node(rt: HostRuntime) {
    assert!(rt; leave_nothing(rt.alloc(), Leaving::Failed));
}

#[test]
fn closed_units_leave_no_node(rt: HostRuntime) {
    assert!(rt; leave_nothing(rt.alloc(), Leaving::Closed));
}
