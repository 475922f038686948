//! A service for each scene.
ghost use Rattle.std.specs.Prelude.{◌≤◌};
ghost use Rattle.service_lock.specs.States.{IsSetUpWith};
ghost use Rattle.service_lock.specs.Units.{AreFor};

use super::actors::{ActorScene, play_actors};
use super::crowd::crowd;
use super::drafting::drafts;
use super::limits::last_event;
use super::lock::{LockScene, play_lock};
use super::memory::again;
use super::remains::remains;
use super::typed::typed;
use super::vanishing::handed::handed;
use super::vanishing::memory::two_again;
use super::vanishing::missing::all_gathered;
use super::vanishing::vanished::vanished;
use client_ends::{Client, end};
use service_lock::{BlankBooks, MAX_SHARES, Service, Setup};
use sm_names::Limits;
use std::alloc::Global;
use std::marker::Brand;
use std::process::Abort;
use std::sync::Wait;
use std::sync::ledger::{Blank, Ledger};
use std::thread::Threads;
use std::time::Clock;

/// What is played.
#[derive(Clone, Copy)]
pub enum Scene {
    Drafts,
    Typed,
    LastEvent,
    Remains,
    Memory,
    Vanished,
    Gathered,
    Handed,
    MemoryOfTwo,
    Crowd,
    Lock(LockScene),
    Actors(ActorScene),
}

// How many events the scene may make.
fn limits(scene: Scene) -> Option<Limits> {
    match scene {
        Scene::LastEvent | Scene::Lock(LockScene::LastEvent) => Limits::new(2, 4, 4, 4, 4),
        Scene::Lock(LockScene::Handles) => Limits::new(20, 2, 1, 1, 3),
        Scene::Lock(LockScene::Tracker) => Limits::new(4, 1, 1, 1, 1),
        Scene::Actors(ActorScene::OneEvent) => Limits::new(1, 4, 4, 4, 4),
        _ => Some(Limits::full()),
    }
}

/// Plays the scene on a service that has seen nothing and has a pool of this many pages, ends it, and
/// lets the client go.
pub fn stage<R: Threads + Wait + Clock + Abort + Sync>(
    rt: &R,
    alloc: Global,
    scene: Scene,
    pages: u32,
)
    requires { (1 ≤ pages) × (pages ≤ 1048576) }
{
    if !start(rt, alloc, scene, pages) {
        assert!(rt; start(rt, alloc, scene, pages));
    }
}

// The same, once: whether there was memory for a service.
fn start<R: Threads + Wait + Clock + Abort + Sync>(
    rt: &R,
    alloc: Global,
    scene: Scene,
    pages: u32,
) -> bool
    requires { (1 ≤ pages) × (pages ≤ 1048576) }
{
    let blanks = BlankBooks {
        events: Blank::new(MAX_SHARES),
        strong: Blank::new(MAX_SHARES),
        weak: Blank::new(MAX_SHARES),
    };
    let Some(limits) = limits(scene) else {
        panic!(rt; "no limits");
    };
    play::<Brand, Brand, Brand, _>(rt, alloc, blanks, scene, pages, limits)
}

fn play<
    E: Setup + Send + Sync,
    S: Ledger + Send + Sync,
    W: Ledger + Send + Sync,
    R: Threads + Wait + Clock + Abort + Sync,
>(rt: &R, alloc: Global, blanks: BlankBooks, scene: Scene, pages: u32, limits: Limits) -> bool
    requires pages { (1 ≤ pages) × (pages ≤ 1048576) }
    requires blanks { AreFor E.name E.parts S.name S.parts W.name W.parts blanks }
    requires asked { IsSetUpWith E.pages E.limits pages limits }
{
    let Ok(service) = Service::<E, S, W>::with_seed(alloc, blanks, pages, limits, [3; 16]) else {
        return false;
    };
    match scene {
        Scene::Drafts => leave(drafts(rt, alloc, &service), service),
        Scene::Typed => leave(typed(rt, alloc, &service), service),
        Scene::Memory => leave(again(rt, alloc, &service), service),
        Scene::LastEvent => last_event(rt, alloc, service),
        Scene::Remains => remains(rt, alloc, service),
        Scene::Vanished => vanished(rt, alloc, service),
        Scene::Gathered => all_gathered(rt, alloc, service),
        Scene::Handed => handed(rt, alloc, service),
        Scene::MemoryOfTwo => two_again(rt, alloc, service),
        Scene::Crowd => crowd(rt, alloc, service),
        Scene::Lock(scene) => {
            play_lock(rt, &service, scene);
            service.end();
        }
        Scene::Actors(scene) => play_actors(rt, alloc, service, scene),
    }
    true
}

// The service ends, and the client goes.
fn leave<E: Setup, S: Ledger, W: Ledger>(client: Client<E, S, W>, service: Service<E, S, W>) {
    client.spend(&end(service));
}
