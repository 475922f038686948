//! An actor runs its script, and vanishes.
ghost use Rattle.std.specs.Prelude.{◌≡◌, [], IfOk, OnErr, OnOk};
ghost use Rattle.actor_scripts.specs.Tables.{known};
ghost use Rattle.client_vanish.specs.Vanishings.{AllHeldBy, held_in, sorted};
ghost use Rattle.client_actors.specs.ActorSteps.{EndsSo, HasFaltered, HasGivenUp, HasRunSome, HasStepped, HasTaken, IsAware, ActorInvariant, objects_in_slots, pairs_of};
ghost use Rattle.client_actors.specs.ObjectCalls.{lies};
ghost use Rattle.client_actors.specs.PatientRuns.{RunsPatiently};

use crate::actor::Actor;
use crate::gate::{ActorEnd, Gate};
use crate::patience::{await_firing, is_nothing, pause};
use crate::stored_objects::unload;
use actor_scripts::{ActorScript, Step};
use client_ends::{Client, Held};
use client_vanish::vanish;
use service_lock::{Service, Setup};
use sm_names::{ClientId, Reply, StepFault};
use std::alloc::Global;
use std::sync::Wait;
use std::sync::ledger::Ledger;
use std::time::Clock;

/// What actors play with.
#[derive(Drop)]
pub struct Playing<'a, E: Setup, S: Ledger, W: Ledger, G: Gate> {
    /// For the lists of the actors.
    pub alloc: Global,
    /// The service at which they make their calls.
    pub service: &'a Service<E, S, W>,
    /// It hears of each try of a step.
    pub gate: &'a G,
    /// The ids of all actors, in the order of their scripts.
    pub clients: &'a [ClientId],
    /// How many times more a step that finds nothing is made at most.
    pub most: u64,
}

// Makes the step, and again while nothing is there for it, as often as may be.
fn take_step<E: Setup, S: Ledger, W: Ledger, G: Gate, R: Wait + Clock>(
    rt: &R,
    playing: &Playing<'_, E, S, W, G>,
    actor: &mut Actor<E, S, W>,
    number: u64,
    step: &Step,
) -> Result<(), StepFault>
    requires sound { ActorInvariant actor.old }
    requires aware { IsAware actor.old }
    ensures taken { OnOk result (HasTaken playing.now.clients.now playing.now.most step.now
        actor.old actor.new) }
    ensures given { OnErr result (HasGivenUp playing.now.clients.now playing.now.most step.now
        actor.old actor.new) }
    ensures sound { ActorInvariant actor.new }
    ensures id { actor.new.client.id ≡ actor.old.client.id }
{
    for tries in 0..playing.most {
        let reply = try_step(rt, playing, actor, number, *step)?;
        if !is_nothing(&reply) {
            return Ok(());
        }
        pause(rt, tries);
    }
    let _last = try_step(rt, playing, actor, number, *step)?;
    Ok(())
}

// Makes the step once, and the gate hears of it.
fn try_step<E: Setup, S: Ledger, W: Ledger, G: Gate, R: Wait>(
    rt: &R,
    playing: &Playing<'_, E, S, W, G>,
    actor: &mut Actor<E, S, W>,
    number: u64,
    step: Step,
) -> Result<Option<Reply>, StepFault>
    requires sound { ActorInvariant actor.old }
    requires aware { IsAware actor.old }
    ensures stepped { IfOk result (λ reply.
        HasStepped playing.now.clients.now step reply actor.old actor.new) }
    ensures faltered { OnErr result (HasFaltered playing.now.clients.now step actor.old actor.new) }
    ensures sound { ActorInvariant actor.new }
    ensures id { actor.new.client.id ≡ actor.old.client.id }
{
    playing.gate.before(actor.client.id(), number);
    let reply = actor.step(rt, playing.alloc, playing.service, playing.clients, step)?;
    playing.gate.after(actor.client.id(), number, &reply);
    Ok(reply)
}

// Makes the steps in order, until a fault.
fn run_steps<E: Setup, S: Ledger, W: Ledger, G: Gate, R: Wait + Clock>(
    rt: &R,
    playing: &Playing<'_, E, S, W, G>,
    actor: &mut Actor<E, S, W>,
    steps: &[Step],
) -> Result<(), StepFault>
    requires sound { ActorInvariant actor.old }
    requires aware { IsAware actor.old }
    requires none { RunsPatiently playing.now.clients.now playing.now.most []
        (pairs_of actor.old.client.own) (known actor.old.state) }
    ensures runs { OnOk result (RunsPatiently playing.now.clients.now playing.now.most steps.now
        (pairs_of actor.new.client.own) (known actor.new.state)) }
    ensures aware { OnOk result (IsAware actor.new) }
    ensures some { OnErr result (HasRunSome playing.now.clients.now playing.now.most steps.now
        actor.new.client (lies actor.new.slots.items)) }
    ensures sound { ActorInvariant actor.new }
    ensures id { actor.new.client.id ≡ actor.old.client.id }
{
    let mut number: u64 = 0;
    let mut rest = steps;
    'each_step: while let Some((step, more)) = rest.split_first() {
        number = number.wrapping_add(1);
        take_step(rt, playing, actor, number, step)?;
        await_firing(rt, playing.service, &actor.state, *step, playing.most);
        rest = more;
    }
    Ok(())
}

// Takes the actor apart: what it holds, in the list of each kind in the order in which it came.
fn leave<E: Setup, S: Ledger, W: Ledger>(actor: Actor<E, S, W>) -> (Client<E, S, W>, Held<E, S, W>)
    requires { ActorInvariant actor }
    ensures client { result.0 ≡ actor.client }
    ensures held { held_in result.1 ≡ sorted (objects_in_slots actor.slots.items) }
    ensures owned { AllHeldBy result.0.id (held_in result.1) }
{
    let Actor {
        client,
        mut slots,
        mut held,
        state: _,
    } = actor;
    slots.reverse();
    unload(slots, &mut held);
    (client, held)
}

/// Plays the script: makes its steps in order, each as the call that its labels name at that moment, and
/// then vanishes, as by `vanish`, with all that it holds, in the list of each kind in the order in which it
/// came: tokens as replies gave them, collections as they were bound or collected, handles as they were
/// opened. The client is one that joined and has made no event since.
///
/// A `collect`, `check` or `take` that finds nothing is tried again, and so is a look at a tracker that has
/// not fired: each at most `playing.most` times more, with a pause of a millisecond behind each try but the first
/// hundred. So each step is made once where that is 0.
///
/// Ended `Wrecked`, the client's own list is a run of the script, each step's tries one after another, and then
/// the events of its vanishing. On a fault it is `Stopped` at once: its own list is a run of the first
/// steps, each with all that its reply gave, and then, if it made them all, the first events of its
/// vanishing; it has all that it then holds.
///
/// Costs the events of its calls, a constant number of look-ups for each step and each object that
/// came or was spent, and memory for each object that was ever given. A tracker is dropped at once,
/// and a look at one makes no call.
pub fn run_actor<E: Setup, S: Ledger, W: Ledger, G: Gate, R: Wait + Clock>(
    rt: &R,
    playing: &Playing<'_, E, S, W, G>,
    client: Client<E, S, W>,
    script: &ActorScript,
) -> ActorEnd<E, S, W>
    requires { client.own ≡ [] }
    ensures { EndsSo playing.now.clients.now playing.now.most script.now.steps.items client.id
        result }
{
    let mut actor = Actor::new(playing.alloc, client);
    let steps = script.steps.as_slice();
    let ran = run_steps(rt, playing, &mut actor, steps);
    let (client, held) = leave(actor);
    match ran {
        Ok(()) => match vanish(rt, playing.alloc, playing.service, client, held) {
            Ok(wreck) => ActorEnd::Wrecked(wreck),
            Err((client, held, fault)) => ActorEnd::Stopped(client, held, fault),
        },
        Err(fault) => ActorEnd::Stopped(client, held, fault),
    }
}
