//! An actor: what it has and knows, and how it makes a step.
ghost use Rattle.std.specs.Prelude.{◌≡◌, ◌+◌, ◌≤◌, [], MatchResult, IfOk, OnErr, vec_len, vec_capacity};
ghost use Rattle.std.specs.List.{All};
ghost use Rattle.actor_scripts.specs.ActorStates.{Fits, nothing_known};
ghost use Rattle.actor_scripts.specs.Tables.{known};
ghost use Rattle.client_actors.specs.ActorSteps.{MakesCall, Asks, Falters, HasFaltered, HasMade, HasStepped, IsAware, ActorInvariant};
ghost use Rattle.client_actors.specs.ObjectCalls.{SlotHeldBy, lies};

use crate::lent_objects::on_none;
use crate::new_objects::NewObjects;
use crate::slots::ask_there;
use crate::stored_objects::{make_room, store};
use actor_scripts::{ActorState, Step, StepCall};
use client_ends::{Client, Held, ParcelContent};
use service_lock::{Service, Setup};
use sm_names::{ClientId, MAX_BUFFERS, Reply, StepFault};
use std::alloc::Global;
use std::sync::Wait;
use std::sync::ledger::Ledger;

// An actor while it runs: its client, its objects in their slots, and what it knows.
pub(crate) struct Actor<E: Setup, S: Ledger, W: Ledger> {
    pub client: Client<E, S, W>,
    pub slots: Vec<Option<ParcelContent<E, S, W>>>,
    // Empty lists, with room for all that lies in the slots.
    pub held: Held<E, S, W>,
    pub state: ActorState,
}

// Makes the call on the object in the slot, if the call names one.
fn ask_on<E: Setup, S: Ledger, W: Ledger, R: Wait>(
    rt: &R,
    alloc: Global,
    service: &Service<E, S, W>,
    client: &mut Client<E, S, W>,
    slots: &mut Vec<Option<ParcelContent<E, S, W>>>,
    asked: &StepCall,
) -> Result<NewObjects<E, S, W>, StepFault>
    requires owned { All (SlotHeldBy client.old.id) slots.old.items }
    requires fits { Fits (lies slots.old.items) asked.now.slot asked.now.call }
    ensures asked { MatchResult result
        (λ b. Asks client.old client.new asked.now.call asked.now.slot
        (lies slots.old.items) (lies slots.new.items) b)
        (λ _. (client.new ≡ client.old) × (lies slots.new.items ≡ lies slots.old.items)) }
    ensures owned { All (SlotHeldBy client.old.id) slots.new.items }
    ensures len { vec_len slots.new ≡ vec_len slots.old }
    ensures room { vec_capacity slots.new ≡ vec_capacity slots.old }
{
    match asked.slot {
        Some(slot) => ask_there(rt, alloc, service, client, &mut slots[slot], asked.call),
        None => on_none(rt, service, client, asked.call),
    }
}

// Makes the call: what it is made on leaves its slot if it is spent, and what it brings is stored.
fn ask<E: Setup, S: Ledger, W: Ledger, R: Wait>(
    rt: &R,
    alloc: Global,
    service: &Service<E, S, W>,
    client: &mut Client<E, S, W>,
    slots: &mut Vec<Option<ParcelContent<E, S, W>>>,
    asked: &StepCall,
) -> Result<(), StepFault>
    requires owned { All (SlotHeldBy client.old.id) slots.old.items }
    requires fits { Fits (lies slots.old.items) asked.now.slot asked.now.call }
    requires room { vec_len slots.old + MAX_BUFFERS ≤ vec_capacity slots.old }
    ensures asked { MatchResult result
        (λ _. MakesCall client.old client.new asked.now (lies slots.old.items)
        (lies slots.new.items))
        (λ _. (client.new ≡ client.old) × (lies slots.new.items ≡ lies slots.old.items)) }
    ensures owned { All (SlotHeldBy client.old.id) slots.new.items }
    ensures len { vec_len slots.new ≤ vec_len slots.old + MAX_BUFFERS }
{
    match ask_on(rt, alloc, service, client, slots, asked) {
        Ok(brought) => {
            store(slots, brought);
            Ok(())
        }
        Err(fault) => Err(fault),
    }
}

impl<E: Setup, S: Ledger, W: Ledger> Actor<E, S, W> {
    // An actor that has made no step.
    pub(crate) fn new(alloc: Global, client: Client<E, S, W>) -> Actor<E, S, W>
        ensures client { result.client ≡ client }
        ensures slots { result.slots.items ≡ [] }
        ensures state { known result.state ≡ nothing_known }
        ensures sound { ActorInvariant result }
    {
        Actor {
            client,
            slots: Vec::new(alloc),
            held: Held::new(alloc),
            state: ActorState::new(alloc),
        }
    }

    // Makes the call of a step.
    fn make_call<R: Wait>(
        &mut self,
        rt: &R,
        alloc: Global,
        service: &Service<E, S, W>,
        step: Step,
        asked: &StepCall,
    ) -> Result<Reply, StepFault>
        requires sound { ActorInvariant self.old }
        requires fits { Fits (lies self.old.slots.items) asked.now.slot asked.now.call }
        ensures made { IfOk result (λ reply. HasMade step asked.now reply self.old self.new) }
        ensures falters { OnErr result (Falters self.old.client self.new.client asked.now
            (lies self.old.slots.items) (lies self.new.slots.items)) }
        ensures sound { ActorInvariant self.new }
        ensures id { self.new.client.id ≡ self.old.client.id }
    {
        make_room(&mut self.slots, &mut self.held)?;
        ask(rt, alloc, service, &mut self.client, &mut self.slots, asked)?;
        let Some(reply) = self.client.last() else {
            unreachable!();
        };
        if self.state.note_reply(step, asked, &reply).is_err() {
            return Err(StepFault::NoMemory);
        }
        Ok(reply)
    }

    // Makes a step: the reply to its call, or `None` where it made none.
    pub(crate) fn step<R: Wait>(
        &mut self,
        rt: &R,
        alloc: Global,
        service: &Service<E, S, W>,
        clients: &[ClientId],
        step: Step,
    ) -> Result<Option<Reply>, StepFault>
        requires sound { ActorInvariant self.old }
        requires aware { IsAware self.old }
        ensures stepped { IfOk result (λ reply.
            HasStepped clients.now step reply self.old self.new) }
        ensures faltered { OnErr result (HasFaltered clients.now step self.old self.new) }
        ensures sound { ActorInvariant self.new }
        ensures id { self.new.client.id ≡ self.old.client.id }
    {
        let again = step;
        match self.state.call(clients, step) {
            Some(asked) => {
                let reply = self.make_call(rt, alloc, service, again, &asked)?;
                Ok(Some(reply))
            }
            None => Ok(None),
        }
    }
}
