//! A thread for each actor. A client is a linear value, so that no closure may own one: the actors
//! lie in a list, and `thread::for_each_mut` runs each place in a thread of its own. If the system
//! gives no second thread, it silently runs two places in one, where an actor that waits for the
//! other would wait for ever. So no actor begins before all threads run, or no further one began
//! for ten seconds; an actor whose thread begins later is not started.
ghost use Rattle.std.specs.Prelude.{◌≡◌, ◌<◌, ◌≤◌, ◌↔◌, [], Some, map, length, IfOk, IfErr, OnOk, IsSome, vec_len, vec_capacity};
ghost use Rattle.std.specs.List.{All, AllZip};
ghost use Rattle.sm_names.specs.declared.outcomes.StepFault.{StepFault as Fault};
ghost use Rattle.client_actors.specs.ActorEnds.{HaveRun, IsEndAt, IsEndThere, IsIdle, CanStart, id_there};

use crate::actor_run::{Playing, run_actor};
use crate::gate::{ActorEnd, Gate};
use crate::start::StartBarrier;
use actor_scripts::ActorScript;
use client_ends::{Held, join, memory_fault};
use client_vanish::Holding;
use service_lock::{Service, Setup, State};
use sm_names::{ClientId, StepFault};
use std::alloc::Global;
use std::sync::Wait;
use std::sync::ledger::Ledger;
use std::thread::Threads;
use std::time::Clock;
use std::{mem, thread};

// Plays the script of that number with the client at that place, if its thread reaches the start
// in time.
fn run_there<E: Setup, S: Ledger, W: Ledger, G: Gate, R: Wait + Clock>(
    rt: &R,
    playing: &Playing<'_, E, S, W, G>,
    start: &StartBarrier,
    scripts: &[ActorScript],
    number: usize,
    on: &mut Option<ActorEnd<E, S, W>>,
)
    requires ready { CanStart on.old }
    requires number { number < length scripts.now }
    ensures end { IsEndAt playing.now.clients.now playing.now.most scripts.now number on.new }
    ensures id { id_there on.new ≡ id_there on.old }
{
    if !start.come(rt) {
        return;
    }
    match mem::replace(on, None) {
        Some(ActorEnd::NotStarted(client)) => {
            let script = &scripts[number];
            let end = run_actor(rt, playing, client, script);
            match mem::replace(on, Some(end)) {
                None => {}
                Some(_) => unreachable!(),
            }
        }
        _ => unreachable!(),
    }
}

// Plays each script in a thread of its own.
fn run_all<
    E: Setup + Send + Sync,
    S: Ledger + Send + Sync,
    W: Ledger + Send + Sync,
    G: Gate + Sync,
    R: Threads + Wait + Clock + Sync,
>(
    rt: &R,
    playing: &Playing<'_, E, S, W, G>,
    scripts: &[ActorScript],
    actors: &mut [Option<ActorEnd<E, S, W>>],
)
    requires ready { All CanStart actors.old }
    requires len { length scripts.now ≡ length actors.old }
    ensures ends { AllZip (IsEndThere playing.now.clients.now playing.now.most) scripts.now
        actors.new }
    ensures ids { map id_there actors.new ≡ map id_there actors.old }
{
    let count = actors.len();
    if count == 0 {
        return;
    }
    let start = StartBarrier::new(count);
    thread::for_each_mut(
        rt,
        actors,
        count,
        &|i, on| run_there(rt, playing, &start, scripts, i, on),
    );
}

// The lists of a run, with a place for each actor: the ids of the clients, the actors, and what is answered, their ends or,
// if none starts, their parts.
struct Lists<E: Setup, S: Ledger, W: Ledger> {
    clients: Vec<ClientId>,
    actors: Vec<Option<ActorEnd<E, S, W>>>,
    ends: Vec<ActorEnd<E, S, W>>,
    parts: Vec<Holding<E, S, W>>,
}

// Makes room in empty lists for this many actors.
fn make_room<E: Setup, S: Ledger, W: Ledger>(
    state: &State<E, S, W>,
    count: usize,
    lists: &mut Lists<E, S, W>,
) -> Result<(), StepFault>
    requires none { (lists.old.clients.items ≡ []) × (lists.old.actors.items ≡ [])
        × (lists.old.ends.items ≡ []) × (lists.old.parts.items ≡ []) }
    ensures none { (lists.new.clients.items ≡ []) × (lists.new.actors.items ≡ [])
        × (lists.new.ends.items ≡ []) × (lists.new.parts.items ≡ []) }
    ensures clients { OnOk result (count ≤ vec_capacity lists.new.clients) }
    ensures actors { OnOk result (count ≤ vec_capacity lists.new.actors) }
    ensures ends { OnOk result (count ≤ vec_capacity lists.new.ends) }
    ensures parts { OnOk result (count ≤ vec_capacity lists.new.parts) }
    ensures full { IfErr result (λ f. (f ≡ Fault.HistoryFull)
        ↔ (state.now.limits.events ≤ length state.now.history)) }
{
    if lists.clients.reserve(count).is_err()
        || lists.actors.reserve(count).is_err()
        || lists.ends.reserve(count).is_err()
        || lists.parts.reserve(count).is_err()
    {
        return Err(memory_fault(state));
    }
    Ok(())
}

// The same, which takes the lock.
fn room_for<E: Setup, S: Ledger, W: Ledger, R: Wait>(
    rt: &R,
    service: &Service<E, S, W>,
    count: usize,
    lists: &mut Lists<E, S, W>,
) -> Result<(), StepFault>
    requires none { (lists.old.clients.items ≡ []) × (lists.old.actors.items ≡ [])
        × (lists.old.ends.items ≡ []) × (lists.old.parts.items ≡ []) }
    ensures none { (lists.new.clients.items ≡ []) × (lists.new.actors.items ≡ [])
        × (lists.new.ends.items ≡ []) × (lists.new.parts.items ≡ []) }
    ensures clients { OnOk result (count ≤ vec_capacity lists.new.clients) }
    ensures actors { OnOk result (count ≤ vec_capacity lists.new.actors) }
    ensures ends { OnOk result (count ≤ vec_capacity lists.new.ends) }
    ensures parts { OnOk result (count ≤ vec_capacity lists.new.parts) }
{
    let guard = service.lock(rt);
    make_room(guard.state(), count, lists)
}

// Joins this many clients, in order.
fn join_all<E: Setup, S: Ledger, W: Ledger, R: Wait>(
    rt: &R,
    alloc: Global,
    service: &Service<E, S, W>,
    count: usize,
    clients: &mut Vec<ClientId>,
    actors: &mut Vec<Option<ActorEnd<E, S, W>>>,
) -> Result<(), StepFault>
    requires none { (clients.old.items ≡ []) × (actors.old.items ≡ []) }
    requires clients { count ≤ vec_capacity clients.old }
    requires actors { count ≤ vec_capacity actors.old }
    ensures all { IfOk result (λ _. vec_len actors.new ≡ count) }
    ensures few { vec_len actors.new ≤ count }
    ensures ready { All CanStart actors.new.items }
    ensures ids { clients.new.items ≡ map id_there actors.new.items }
{
    for _ in 0..count {
        let client = join(rt, alloc, service)?;
        clients.push_reserved(client.id());
        actors.push_reserved(Some(ActorEnd::NotStarted(client)));
    }
    Ok(())
}

// Takes the ends out of their places, in order.
fn ends_of<E: Setup, S: Ledger, W: Ledger>(
    actors: Vec<Option<ActorEnd<E, S, W>>>,
    ends: Vec<ActorEnd<E, S, W>>,
) -> Vec<ActorEnd<E, S, W>>
    requires none { ends.items ≡ [] }
    requires room { vec_len actors ≤ vec_capacity ends }
    requires some { All (λ a. IsSome a) actors.items }
    ensures { map Some result.items ≡ actors.items }
{
    let mut actors = actors;
    let mut ends = ends;
    actors.reverse();
    while let Some(actor) = actors.pop() {
        match actor {
            Some(end) => ends.push_reserved(end),
            None => unreachable!(),
        }
    }
    actors.destroy_empty();
    ends
}

// A client that joined and did not start.
fn idle<E: Setup, S: Ledger, W: Ledger>(
    alloc: Global,
    actor: Option<ActorEnd<E, S, W>>,
) -> Holding<E, S, W>
    requires { CanStart actor }
    ensures { IsIdle result }
{
    match actor {
        Some(ActorEnd::NotStarted(client)) => Holding::Present(client, Held::new(alloc)),
        _ => unreachable!(),
    }
}

// The clients that joined, none of which started.
fn clients_of<E: Setup, S: Ledger, W: Ledger>(
    alloc: Global,
    actors: Vec<Option<ActorEnd<E, S, W>>>,
    parts: Vec<Holding<E, S, W>>,
) -> Vec<Holding<E, S, W>>
    requires none { parts.items ≡ [] }
    requires room { vec_len actors ≤ vec_capacity parts }
    requires ready { All CanStart actors.items }
    ensures idle { All IsIdle result.items }
    ensures len { vec_len result ≡ vec_len actors }
{
    let mut actors = actors;
    let mut parts = parts;
    actors.reverse();
    while let Some(actor) = actors.pop() {
        parts.push_reserved(idle(alloc, actor));
    }
    actors.destroy_empty();
    parts
}

/// Runs all scripts side by side: a client for each joins, in order, and then each runs its script,
/// as by `run_actor`, in a thread of its own. All threads wait until all are there, so that each
/// actor may wait for any other; all have ended when it returns. Each step is made again while
/// nothing is there for it, at most `most` times more. The gate hears of each try of each actor,
/// outside the lock.
///
/// One end for each script, in order; labels of clients stand for the clients of these ends. An
/// actor that is stopped by a fault leaves the others as they are. Where the system gives no more
/// threads, the actors that have one begin after ten to twenty seconds in which none was added, and
/// the others end `NotStarted`.
///
/// Where a client can't join, or memory for the lists is refused before the first does, no actor
/// starts: the fault, `HistoryFull` or `NoMemory`, and the clients that joined, which hold nothing.
///
/// Costs an event for each client, a thread for each but one, a constant number of words for each
/// script, and what `run_actor` does.
pub fn run_actors<
    E: Setup + Send + Sync,
    S: Ledger + Send + Sync,
    W: Ledger + Send + Sync,
    G: Gate + Sync,
    R: Threads + Wait + Clock + Sync,
>(
    rt: &R,
    alloc: Global,
    service: &Service<E, S, W>,
    gate: &G,
    scripts: &[ActorScript],
    most: u64,
) -> Result<Vec<ActorEnd<E, S, W>>, (Vec<Holding<E, S, W>>, StepFault)>
    ensures ran { IfOk result (λ ends. HaveRun most scripts.now ends.items) }
    ensures idle { IfErr result (λ e. All IsIdle e.0.items) }
    ensures few { IfErr result (λ e. vec_len e.0 ≤ length scripts.now) }
{
    let count = scripts.len();
    let mut lists = Lists {
        clients: Vec::new(alloc),
        actors: Vec::new(alloc),
        ends: Vec::new(alloc),
        parts: Vec::new(alloc),
    };
    let made = room_for(rt, service, count, &mut lists);
    let Lists {
        mut clients,
        mut actors,
        ends,
        parts,
    } = lists;
    if let Err(fault) = made {
        actors.destroy_empty();
        ends.destroy_empty();
        return Err((parts, fault));
    }
    match join_all(rt, alloc, service, count, &mut clients, &mut actors) {
        Ok(()) => {
            parts.destroy_empty();
            let ids = clients.as_slice();
            let playing = Playing {
                alloc,
                service,
                gate,
                clients: ids,
                most,
            };
            run_all(rt, &playing, scripts, actors.as_mut_slice());
            Ok(ends_of(actors, ends))
        }
        Err(fault) => {
            ends.destroy_empty();
            Err((clients_of(alloc, actors, parts), fault))
        }
    }
}
