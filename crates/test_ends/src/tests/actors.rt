//! Actors: that calls succeed where there is memory, that scripts are played, and that actors run side by side.
use super::stage::{Scene, stage};
use alone::{alone, patient};
use limits::one_event;
use meeting::meeting;
use memory::memory;
use service_lock::{Service, Setup};
use std::alloc::Global;
use std::process::Abort;
use std::sync::Wait;
use std::sync::ledger::Ledger;
use std::thread::Threads;
use std::time::Clock;

mod alone;
mod asking;
mod limits;
mod meeting;
mod memory;
mod together;

/// What actors play.
#[derive(Clone, Copy)]
pub enum ActorScene {
    Alone,
    Patient,
    Meeting,
    OneEvent,
    Memory,
}

/// Plays the scene on a service that has seen nothing, and ends it.
pub fn play_actors<
    E: Setup + Send + Sync,
    S: Ledger + Send + Sync,
    W: Ledger + Send + Sync,
    R: Threads + Wait + Clock + Abort + Sync,
>(rt: &R, alloc: Global, service: Service<E, S, W>, scene: ActorScene) {
    match scene {
        ActorScene::Alone => alone(rt, alloc, service),
        ActorScene::Patient => patient(rt, alloc, service),
        ActorScene::Meeting => meeting(rt, alloc, service),
        ActorScene::OneEvent => one_event(rt, alloc, service),
        ActorScene::Memory => memory(rt, alloc, service),
    }
}

#[test]
fn an_actor_makes_all_its_steps_and_vanishes(rt: HostRuntime) {
    stage(&rt, rt.alloc(), Scene::Actors(ActorScene::Alone), 2)
}

#[test]
fn a_patient_actor_makes_a_step_again(rt: HostRuntime) {
    stage(&rt, rt.alloc(), Scene::Actors(ActorScene::Patient), 1)
}

#[test]
fn actors_wait_for_each_other_without_the_lock(rt: HostRuntime) {
    stage(&rt, rt.alloc(), Scene::Actors(ActorScene::Meeting), 4)
}

#[test]
fn no_actor_starts_if_a_client_cannot_join(rt: HostRuntime) {
    stage(&rt, rt.alloc(), Scene::Actors(ActorScene::OneEvent), 1)
}

#[test]
fn clients_come_back_with_all_that_is_open_after_out_of_memory(rt: HostRuntime) {
    stage(&rt, rt.alloc(), Scene::Actors(ActorScene::Memory), 16)
}
