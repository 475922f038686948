//! That a cell that was set is seen from another thread, and that a refusal leaves trackers as they were.
use fixture::{Gone, Line};
use sm_names::{NodeKey, TrackerId};
use std::alloc::Global;
use std::thread;
use std::thread::Threads;
use trackers::{Condition, Fired, TrackFault, Tracker};

mod fixture;

const NODE: NodeKey = NodeKey {
    slot: 3,
    generation: 0,
};

const GONE: Gone = Gone { slot: 3 };

// The reader of a first tracker, which has fired.
fn fired_reader(alloc: Global) -> Option<Tracker> {
    let mut line = Line::new(alloc, 4);
    let reader = match line.track(Condition::Node(NODE)) {
        Ok(id) => line.take(id),
        Err(_) => None,
    };
    line.sweep(&GONE);
    reader
}

// What another thread reads of it.
fn read_elsewhere(rt: &impl Threads, alloc: Global) -> Option<Fired> {
    let mut reader = fired_reader(alloc)?;
    match thread::spawn(rt, move || reader.poll()) {
        Ok(child) => child.join(rt),
        Err(_) => None,
    }
}

const FIRST: Fired = Fired {
    tracker: 1,
    event: 1,
};

#[test]
fn a_reader_in_another_thread_sees_the_firing(rt: HostRuntime) {
    assert!(rt; read_elsewhere(&rt, rt.alloc()) == Some(FIRST));
}

// Whether no tracker has this number, and none fired.
fn has_none(line: &mut Line, id: TrackerId) -> bool {
    line.take(id).is_none() && line.fired().is_empty()
}

// Whether the next tracker of the node gets this number. If memory is refused, no tracker has this number and none
// fired, and the next try succeeds.
fn is_attached(line: &mut Line, wanted: TrackerId) -> bool {
    match line.track(Condition::Node(NODE)) {
        Ok(id) => id == wanted,
        Err(TrackFault::NoMemory) => {
            has_none(line, wanted) && line.track(Condition::Node(NODE)).ok() == Some(wanted)
        }
        Err(TrackFault::Full) => false,
    }
}

// Whether six trackers are attached and fire.
fn six_fire(line: &mut Line) -> bool {
    for wanted in 1..=6 {
        if !is_attached(line, wanted) {
            return false;
        }
    }
    line.sweep(&GONE);
    line.fired().len() == 6
}

// Run with each allocation refused in turn, this meets each growth of `attach`.
#[test]
fn refused_memory_changes_no_tracker(rt: HostRuntime) {
    let mut line = Line::new(rt.alloc(), 8);
    assert!(rt; six_fire(&mut line));
}
