//! Actors that vanish after any of their steps.
use crate::tests::threads::fixture::gathers;
use std::alloc::Global;
use std::process::Abort;
use std::sync::Wait;
use std::thread::Threads;
use std::time::Clock;

// Whether all is gathered if the one actor makes no step, the first one, and so on to all steps. It joins in
// the first line.
fn are_gathered<R: Threads + Wait + Clock + Abort + Sync>(
    rt: &R,
    alloc: Global,
    script: &[u8],
) -> bool {
    for at in 0..script.len() {
        if script[at] == b'\n' && !gathers(rt, alloc, &script[..at + 1], 1) {
            return false;
        }
    }
    true
}

// The same for each of the scripts.
fn all_are_gathered<R: Threads + Wait + Clock + Abort + Sync>(
    rt: &R,
    alloc: Global,
    scripts: &[&str],
) -> bool {
    for script in scripts {
        if !are_gathered(rt, alloc, script.as_bytes()) {
            return false;
        }
    }
    true
}

// Whether all is gathered if these are the steps of two actors.
fn both_are_gathered<R: Threads + Wait + Clock + Abort + Sync>(
    rt: &R,
    alloc: Global,
    first: &[u8],
    second: &[u8],
) -> bool {
    let mut script = Vec::new(alloc);
    script.extend_from_slice(b"a join\nb join\n").is_ok()
        && script.extend_from_slice(first).is_ok()
        && script.extend_from_slice(second).is_ok()
        && gathers(rt, alloc, script.as_slice(), 2)
}

// The same if the second makes no step, the first one, and so on to all its steps.
fn cuts_are_gathered<R: Threads + Wait + Clock + Abort + Sync>(
    rt: &R,
    alloc: Global,
    first: &[u8],
    second: &[u8],
) -> bool {
    for at in 0..second.len() {
        if second[at] == b'\n' && !both_are_gathered(rt, alloc, first, &second[..at + 1]) {
            return false;
        }
    }
    both_are_gathered(rt, alloc, first, b"")
}

// The same if the first does so too, for each cut of the second.
fn all_cuts_are_gathered<R: Threads + Wait + Clock + Abort + Sync>(
    rt: &R,
    alloc: Global,
    first: &[u8],
    second: &[u8],
) -> bool {
    for at in 0..first.len() {
        if first[at] == b'\n' && !cuts_are_gathered(rt, alloc, &first[..at + 1], second) {
            return false;
        }
    }
    cuts_are_gathered(rt, alloc, b"", second)
}

// The same for each pair of scripts.
fn pairs_are_gathered<R: Threads + Wait + Clock + Abort + Sync>(
    rt: &R,
    alloc: Global,
    pairs: &[(&str, &str)],
) -> bool {
    for (first, second) in pairs {
        if !all_cuts_are_gathered(rt, alloc, first.as_bytes(), second.as_bytes()) {
            return false;
        }
    }
    true
}

const DISPENSABLE: &[&str] = &[
    "a join\na open r\na dup r k\na dispensable k\na dup k j\na bind r\na bind k\na bind j\n\
a constrain r 1 0 4096\na constrain k 1 0 4096\na constrain j 1 0 4096\na close j\na check k\na check r\n",
];

#[test]
fn a_failure_stops_at_an_allocated_dispensable_node(rt: HostRuntime) {
    assert!(rt; all_are_gathered(&rt, rt.alloc(), DISPENSABLE));
}

const ATTACHED: &[&str] = &[
    "a join\na open r\na dup r k\na dispensable k\na bind r\na bind k\na constrain r 1 0 4096\n\
a constrain k 1 0 4096\na close k\na attach r t\na bind t\na constrain t 1 0 4096\na check t\n\
a attach r u\na bind u\na constrain u 1 0 4096\na check u\na check r\n",
    "a join\na open r\na dup r k\na dispensable k\na bind r\na bind k\na constrain r 1 0 4096\n\
a constrain k 1 0 4096\na release k\na attach r t\na bind t\na constrain t 1 0 4096\na check t\n\
a attach r u\na bind u\na constrain u 1 0 4096\na check u\na check r\n",
];

#[test]
fn an_attached_subtree_fails_alone(rt: HostRuntime) {
    assert!(rt; all_are_gathered(&rt, rt.alloc(), ATTACHED));
}

// The steps of a and of b.
const PARCELS: &[(&str, &str)] = &[
    (
        "a open r\na give r b\na bind r\na give r a\na collect m\na check m\n",
        "b shut\n",
    ),
    (
        "a open r\na dup r k\na give k b\na sync k\na sync r\n",
        "b sync k\nb sync r\nb shut\nb collect m\nb close m\nb collect o\n",
    ),
    (
        "a open r\na bind r\na constrain r 2 0 4096\na take r\na giveh r.0 strong b\na duph r.1 strong\n\
a giveh r.1 strong a\na collect n\na droph r.1 strong\n",
        "b collect m\n",
    ),
];

#[test]
fn clients_that_vanish_after_any_steps_collect_their_parcels(rt: HostRuntime) {
    assert!(rt; pairs_are_gathered(&rt, rt.alloc(), PARCELS));
}
