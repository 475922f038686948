//! Clients with ends, handles and parcels vanish, and nothing is left.
use super::cores::{Play, goes_well};
use super::scripts::FULL;
use super::views::is_empty;
use core_vanish::{VanishFault, Vanished, vanish};
use lifetime_core::Core;
use sm_names::{BufferName, Call, Constraints, NodeKey, Strength};
use std::alloc::Global;

// The keys of the nodes, in the order of their births.
const ROOT: NodeKey = NodeKey {
    slot: 0,
    generation: 0,
};

const CHILD: NodeKey = NodeKey {
    slot: 1,
    generation: 0,
};

const OTHER_ROOT: NodeKey = NodeKey {
    slot: 2,
    generation: 0,
};

// A buffer of the first collection.
const BUFFER: BufferName = BufferName {
    collection: 3,
    index: 0,
};

// Two clients share a tree and ask for a buffer each. Both take handles, and two handles and one end are given to the
// second.
fn come(alloc: Global, core: &mut Core) -> bool {
    let Some(wanted) = Constraints::new(1, 0, 8_192) else {
        return false;
    };
    let calls = [
        (0, Call::Join),
        (0, Call::Join),
        (1, Call::OpenRoot),
        (1, Call::Duplicate(ROOT)),
        (1, Call::Give(CHILD, 2)),
        (2, Call::Collect),
        (1, Call::Bind(ROOT)),
        (2, Call::Bind(CHILD)),
        (1, Call::SetConstraints(ROOT, wanted)),
        (2, Call::SetConstraints(CHILD, wanted)),
        (1, Call::Take(ROOT)),
        (2, Call::Take(CHILD)),
        (2, Call::DupHandle(BUFFER, Strength::Strong)),
        (1, Call::GiveHandle(BUFFER, Strength::Strong, 2)),
        (2, Call::GiveHandle(BUFFER, Strength::Strong, 2)),
        (1, Call::OpenRoot),
        (1, Call::Give(OTHER_ROOT, 2)),
    ];
    core.run(alloc, &calls).is_ok()
}

// Whether all vanish, and nothing is left. The first has one end and one handle then: its
// other end, and a handle, are parcels of the second. That has three parcels, two ends and four
// handles. A client that vanishes again is shut again, and there is no third.
fn leaves_nothing(core: &mut Core) -> bool {
    let parted = [
        vanish(core, 1),
        vanish(core, 2),
        vanish(core, 1),
        vanish(core, 3),
    ];
    let wanted = [
        Ok(Vanished { events: 3 }),
        Ok(Vanished { events: 10 }),
        Ok(Vanished { events: 1 }),
        Err((Vanished { events: 1 }, VanishFault::NoSuchClient)),
    ];
    parted == wanted && is_empty(core)
}

/// Whether they share a tree, take handles, and leave nothing.
pub fn come_and_go(alloc: Global, core: &mut Core) -> bool {
    come(alloc, core) && leaves_nothing(core)
}

#[test]
fn nothing_is_left_of_two_clients(rt: HostRuntime) {
    assert!(rt; goes_well(rt.alloc(), FULL, Play::Vanish));
}
