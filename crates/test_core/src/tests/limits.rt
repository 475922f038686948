//! No key comes back, and nothing is taken after the last event.
use super::cores::{Play, goes_well, is_done, joins, token};
use lifetime_core::Core;
use sm_names::{Call, NodeKey, Reply, StepFault};
use std::alloc::Global;

// Whether the root that is opened next has a new key, and is closed.
fn opens_anew(core: &mut Core, seen: &mut Vec<NodeKey>) -> bool {
    match token(core, Call::OpenRoot) {
        Some(root) => {
            !seen.as_slice().contains(&root)
                && seen.push(root).is_ok()
                && is_done(core, Call::Close(root))
        }
        None => false,
    }
}

fn open_anew(core: &mut Core, seen: &mut Vec<NodeKey>) -> bool {
    for _ in 0..3000 {
        if !opens_anew(core, seen) {
            return false;
        }
    }
    true
}

/// Whether roots that are opened and closed one after another have different keys.
pub fn has_rounds(alloc: Global, core: &mut Core) -> bool {
    let mut seen = Vec::new(alloc);
    joins(core) && open_anew(core, &mut seen)
}

// Whether calls run in order until one is not taken.
fn is_stopped(alloc: Global, core: &mut Core) -> bool {
    let calls = [(0, Call::Join), (2, Call::OpenRoot), (1, Call::Shut)];
    match core.run(alloc, &calls) {
        Err((made, StepFault::HistoryFull)) => {
            made.len() == 2 && made.first() == Some(&Reply::Joined(2))
        }
        _ => false,
    }
}

/// Whether nothing is taken after the third event.
pub fn stops(alloc: Global, core: &mut Core) -> bool {
    core.remaining() == 3
        && joins(core)
        && is_stopped(alloc, core)
        && core.events() == 3
        && core.remaining() == 0
        && core.step(1, Call::Shut) == Err(StepFault::HistoryFull)
        && core.step(99, Call::Collect) == Err(StepFault::HistoryFull)
}

#[test]
fn no_key_comes_back(rt: HostRuntime) {
    assert!(rt; goes_well(rt.alloc(), [10_000, 2, 9, 9, 9], Play::Keys));
}

#[test]
fn nothing_is_taken_after_the_last_event(rt: HostRuntime) {
    assert!(rt; goes_well(rt.alloc(), [3, 9, 9, 9, 9], Play::LastEvent));
}
