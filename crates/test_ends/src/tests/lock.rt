//! The lock alone: that calls succeed.
use super::stage::{Scene, stage};
pub use asking::stands;
use handles::handles;
use limits::last_event;
use service_lock::{Service, Setup};
use std::process::Abort;
use std::sync::Wait;
use std::sync::ledger::Ledger;
use tracking::tracker;

mod asking;
mod handles;
mod limits;
mod tracking;

/// What is played without clients.
#[derive(Clone, Copy)]
pub enum LockScene {
    Handles,
    LastEvent,
    Tracker,
}

/// Plays the scene on a service that has seen nothing.
pub fn play_lock<E: Setup, S: Ledger, W: Ledger, R: Wait + Abort>(
    rt: &R,
    service: &Service<E, S, W>,
    scene: LockScene,
) {
    match scene {
        LockScene::Handles => handles(rt, service),
        LockScene::LastEvent => last_event(rt, service),
        LockScene::Tracker => tracker(rt, service),
    }
}

#[test]
fn the_books_count_opened_given_and_dropped_handles(rt: HostRuntime) {
    stage(&rt, rt.alloc(), Scene::Lock(LockScene::Handles), 2)
}

#[test]
fn each_call_after_the_last_event_is_answered_history_full(rt: HostRuntime) {
    stage(&rt, rt.alloc(), Scene::Lock(LockScene::LastEvent), 1)
}

#[test]
fn a_reader_is_taken_once_and_sees_its_firing_without_the_lock(rt: HostRuntime) {
    stage(&rt, rt.alloc(), Scene::Lock(LockScene::Tracker), 64)
}
