//! Cores that run for years: how many events are left, firings that are forgotten, and what is kept of
//! clients without parcels.
use super::cores::{Play, first_root, goes_well, is_done, is_refused, joins, makes, token};
use lifetime_core::Core;
use sm_names::{Call, Fired, NodeKey, Refusal, Reply};
use trackers::Tracker;

// Limits of as many events as a core takes.
const LASTING: [u32; 5] = [0, 1024, 256, 4096, u32::MAX];

const MOST: u64 = 9_007_199_254_740_991;

/// Whether a core takes as many events as JavaScript counts, and one less after each.
pub fn lasts(core: &mut Core) -> bool {
    core.remaining() == MOST
        && joins(core)
        && core.remaining() == MOST - 1
        && is_refused(
            core,
            Call::Bind(NodeKey {
                slot: 7,
                generation: 0,
            }),
            Refusal::NoSuchEnd,
        )
        && core.remaining() == MOST - 2
        && core.events() == 2
}

// The firing of this tracker at this event.
fn firing(tracker: u64, event: u64) -> Fired {
    Fired { tracker, event }
}

// Whether the reader tells of this firing.
fn tells(reader: Option<Tracker>, fired: Fired) -> bool {
    match reader {
        Some(mut reader) => reader.poll() == Some(fired),
        None => false,
    }
}

// Whether these firings are all, and then are forgotten.
fn forgets(core: &mut Core, fired: &[Fired]) -> bool {
    core.fired() == fired && core.forget_fired().is_ok() && core.fired().is_empty()
}

// Whether the two trackers of the first root are forgotten once they fired, but not by a reader.
fn forgets_the_first(core: &mut Core, first: NodeKey) -> bool {
    let early = core.take_tracker(3);
    is_done(core, Call::Close(first))
        && forgets(core, &[firing(3, 7), firing(4, 7)])
        && core.take_tracker(4).is_none()
        && tells(early, firing(3, 7))
}

// Whether the trackers that waited then, and later ones, fire as before.
fn fires_on(core: &mut Core, second: NodeKey) -> bool {
    makes(core, &Call::TrackNode(second), 1)
        && is_done(core, Call::Close(second))
        && tells(core.take_tracker(6), firing(6, 9))
        && forgets(core, &[firing(6, 9), firing(8, 9)])
}

/// Whether trackers that fired are forgotten, and no others.
pub fn forgets_firings(core: &mut Core) -> bool {
    let Some(first) = first_root(core) else {
        return false;
    };
    if !makes(core, &Call::TrackNode(first), 2) {
        return false;
    }
    match token(core, Call::OpenRoot) {
        Some(second) => {
            makes(core, &Call::TrackNode(second), 1)
                && forgets_the_first(core, first)
                && fires_on(core, second)
        }
        None => false,
    }
}

// Whether a new child of the node is given to the second client.
fn gives(core: &mut Core, root: NodeKey) -> bool {
    match token(core, Call::Duplicate(root)) {
        Some(child) => is_done(core, Call::Give(child, 2)),
        None => false,
    }
}

// Whether so many are, one after another.
fn gives_all(core: &mut Core, root: NodeKey, count: u32) -> bool {
    for _ in 0..count {
        if !gives(core, root) {
            return false;
        }
    }
    true
}

// Whether the second client collects so many ends, and then finds no more.
fn collects_all(core: &mut Core, count: u32) -> bool {
    for _ in 0..count {
        if !matches!(core.step(2, Call::Collect), Ok(Reply::Collected { .. })) {
            return false;
        }
    }
    core.step(2, Call::Collect) == Ok(Reply::Empty)
}

// Whether a client that is shut collects what waited for it, and gets nothing more.
fn is_left(core: &mut Core, root: NodeKey) -> bool {
    gives(core, root)
        && core.step(2, Call::Shut) == Ok(Reply::Shut(1))
        && is_refused(core, Call::Give(root, 2), Refusal::ClientShut)
        && collects_all(core, 1)
        && core.step(2, Call::Shut) == Ok(Reply::Shut(0))
        && is_refused(core, Call::Give(root, 2), Refusal::ClientShut)
        && is_refused(core, Call::Give(root, 4), Refusal::NoSuchClient)
}

/// Whether the second client collects its parcels, few and many, and also once it is shut.
pub fn collects(core: &mut Core) -> bool {
    if !joins(core) || core.step(0, Call::Join) != Ok(Reply::Joined(2)) {
        return false;
    }
    match token(core, Call::OpenRoot) {
        Some(root) => {
            gives_all(core, root, 100)
                && collects_all(core, 100)
                && gives_all(core, root, 2)
                && collects_all(core, 2)
                && is_left(core, root)
        }
        None => false,
    }
}

#[test]
fn a_lasting_core_counts_what_is_left(rt: HostRuntime) {
    assert!(rt; goes_well(rt.alloc(), LASTING, Play::Lasting));
}

#[test]
fn firings_are_forgotten(rt: HostRuntime) {
    assert!(rt; goes_well(rt.alloc(), LASTING, Play::Forgotten));
}

#[test]
fn parcels_are_collected_also_once_shut(rt: HostRuntime) {
    assert!(rt; goes_well(rt.alloc(), LASTING, Play::Collected));
}
