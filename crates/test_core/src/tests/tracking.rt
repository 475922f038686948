//! Trackers that are taken before and after they fire.
use super::acts::{Act, Deed, Row, Said};
use super::late::later_firing;
use super::lending::{Question, holds};
use super::player::Player;
use super::scripts::{DONE, FULL};
use super::views::are_fired;
use sm_names::{Fired, Reply, TrackerId};
use std::alloc::Global;
use trackers::Tracker;

const TRACKED: &[Row] = &[
    (0, Act::Join, Said::Just(Reply::Joined(1))),
    (1, Act::Open, Said::Token(2)),
    (1, Act::Open, Said::Token(3)),
    (
        1,
        Act::On(2, Deed::TrackNode),
        Said::Just(Reply::Tracker(4)),
    ),
    (
        1,
        Act::On(3, Deed::TrackNode),
        Said::Just(Reply::Tracker(5)),
    ),
    (
        1,
        Act::On(3, Deed::TrackNode),
        Said::Just(Reply::Tracker(6)),
    ),
];

const CLOSED: &[Row] = &[
    (1, Act::On(3, Deed::Close), DONE),
    (1, Act::On(2, Deed::Close), DONE),
];

const FIRED: [Fired; 3] = [
    Fired {
        tracker: 5,
        event: 7,
    },
    Fired {
        tracker: 6,
        event: 7,
    },
    Fired {
        tracker: 4,
        event: 8,
    },
];

// Whether these trackers were taken before, or were never made.
fn are_taken(player: &mut Player, ids: &[TrackerId]) -> bool {
    for id in ids {
        if player.take_tracker(*id).is_some() {
            return false;
        }
    }
    true
}

// Whether the tracker that is taken now fired so.
fn is_taken_fired(player: &mut Player, fired: Fired) -> bool {
    match player.take_tracker(fired.tracker) {
        Some(mut tracker) => tracker.poll() == Some(later_firing(player.start(), fired)),
        None => false,
    }
}

// Whether a tracker that was taken before it fires fires with the next calls.
fn fires(player: &mut Player, early: &mut Tracker) -> bool {
    let first = Some(later_firing(player.start(), FIRED[0]));
    early.poll().is_none()
        && player.keeps_to(CLOSED, CLOSED.len())
        && [early.poll(), early.poll()] == [first, first]
        && is_taken_fired(player, FIRED[1])
        && is_taken_fired(player, FIRED[2])
        && are_taken(player, &[4, 5, 6])
        && are_fired(player, &FIRED)
}

/// Whether trackers are taken once, and tell of their firings, before and after they fire.
pub fn tells(player: &mut Player) -> bool {
    if !player.keeps_to(TRACKED, TRACKED.len()) || !are_taken(player, &[0, 2, 7, 99]) {
        return false;
    }
    match player.take_tracker(5) {
        Some(mut early) => fires(player, &mut early),
        None => false,
    }
}

fn trackers_fire(alloc: Global) -> bool {
    holds(alloc, FULL, Question::Tells)
}

#[test]
fn a_tracker_is_taken_once_and_told_of_its_firing(rt: HostRuntime) {
    // Once more where memory was refused.
    assert!(rt; trackers_fire(rt.alloc()) || trackers_fire(rt.alloc()));
}
