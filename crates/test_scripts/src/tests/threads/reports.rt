//! Actors that come to their end.
use crate::tests::threads::fixture::{Case, TWO, TWO_REPORT, events, gathers, reports};
use sm_names::Limits;
use std::alloc::Global;
use std::process::Abort;
use std::sync::Wait;
use std::thread::Threads;
use std::time::Clock;
use thread_runs::ThreadsFault;

#[test]
fn two_independent_actors_are_reported(rt: HostRuntime) {
    let case = Case {
        pages: 64,
        limits: Limits::full(),
        script: TWO,
    };
    assert!(rt; reports(&rt, rt.alloc(), case, TWO_REPORT, Ok(())));
}

// Scripts, and their reports.
const LEFT_OUT: &[(&str, &str)] = &[
    (
        "a join\na open r\na close r\na sync r\na open r\n",
        "events 4\na events 3 strong 0 weak 0\ngather ok\n",
    ),
    (
        "a join\n",
        "events 2\na events 1 strong 0 weak 0\ngather ok\n",
    ),
    (
        "a join\na sync r\na check r\na droph r.0 strong\na poll t\n",
        "events 2\na events 1 strong 0 weak 0\ngather ok\n",
    ),
    (
        "a join\na open r\na bind r\na dup r k\na bind r\n",
        "events 5\na events 4 strong 0 weak 0\ngather ok\n",
    ),
];

const OWN_LABELS: &[(&str, &str)] = &[(
    "b join\na join\na open r\nb open r\nb sync r\n#\n\nb release r\n",
    "events 9\nb events 4 strong 0 weak 0\na events 3 strong 0 weak 0\ngather ok\n",
)];

const WAITING: &[(&str, &str)] = &[(
    "a join\na open r\na dup r k\na give k a\na bind r\na constrain r 0 0 1\na give r a\n\
a collect m\na open s\na bind s\na constrain s 2 0 4096\na take s\na giveh s.1 strong a\n\
a duph s.0 strong\n",
    "events 23\na events 22 strong 0 weak 0\ngather ok\n",
)];

// Whether each script has its report, with this many pages.
fn all_report<R: Threads + Wait + Clock + Abort + Sync>(
    rt: &R,
    alloc: Global,
    pages: u32,
    cases: &[(&str, &str)],
) -> bool {
    for (script, report) in cases {
        let case = Case {
            pages,
            limits: Limits::full(),
            script,
        };
        if !reports(rt, alloc, case, report, Ok(())) {
            return false;
        }
    }
    true
}

#[test]
fn steps_without_their_object_are_skipped(rt: HostRuntime) {
    assert!(rt; all_report(&rt, rt.alloc(), 1, LEFT_OUT));
}

#[test]
fn each_actor_has_its_own_labels_of_nodes(rt: HostRuntime) {
    assert!(rt; all_report(&rt, rt.alloc(), 2, OWN_LABELS));
}

// An actor that gives to itself knows what waits for it.
#[test]
fn an_actor_that_vanishes_collects_its_parcels(rt: HostRuntime) {
    assert!(rt; all_report(&rt, rt.alloc(), 2, WAITING));
}

// Actors that give to each other: how many events there are is open.
const SHARED: &str = "app join\ncam join\nenc join\napp open root\napp dup root forcam\n\
app dup root forenc\napp give forcam cam\napp give forenc enc\napp release root\n\
cam collect camera\ncam collect camera\ncam collect camera\ncam bind camera\n\
cam constrain camera 1 0 4096\ncam take camera\ncam giveh camera.0 strong enc\n\
enc collect encoder\nenc collect encoder\nenc collect encoder\nenc bind encoder\n\
enc constrain encoder 1 0 4096\nenc take encoder\nenc duph encoder.1 strong\n\
enc giveh encoder.1 strong app\n";

// Whether all is gathered after each of twenty runs of these actors.
fn are_gathered<R: Threads + Wait + Clock + Abort + Sync>(rt: &R, alloc: Global) -> bool {
    for _ in 0..20 {
        if !gathers(rt, alloc, SHARED.as_bytes(), 3) {
            return false;
        }
    }
    true
}

#[test]
fn gather_succeeds_in_any_order_of_the_threads(rt: HostRuntime) {
    assert!(rt; are_gathered(&rt, rt.alloc()));
}

// An actor that takes two buffers of a page.
const TAKER: &str = "a join\na open r\na bind r\na constrain r 2 0 4096\na take r\n";

// Its reports with a pool of one page, and of two.
const NONE: &str = "events 7\na events 6 strong 0 weak 0\ngather ok\n";

const BOTH: &str = "events 9\na events 8 strong 0 weak 0\ngather ok\n";

// Whether this many pages and events give this report, and one event less gives none.
fn is_just_enough<R: Threads + Wait + Clock + Abort + Sync>(
    rt: &R,
    alloc: Global,
    pages: u32,
    most: u32,
    report: &str,
) -> bool {
    let just = Case {
        pages,
        limits: events(rt, most),
        script: TAKER,
    };
    let less = Case {
        pages,
        limits: events(rt, most.saturating_sub(1)),
        script: TAKER,
    };
    let full = Err(ThreadsFault::HistoryFull);
    reports(rt, alloc, just, report, Ok(())) && reports(rt, alloc, less, "", full)
}

#[test]
fn a_run_has_the_pool_and_the_limits_asked_for(rt: HostRuntime) {
    assert!(rt; is_just_enough(&rt, rt.alloc(), 1, 7, NONE));
    assert!(rt; is_just_enough(&rt, rt.alloc(), 2, 9, BOTH));
}
