//! A play on a core, turn by turn.
ghost use Rattle.std.specs.Prelude.{ℕ, ◌≡◌, ◌+◌, ◌≤◌, ◌&&◌, ◌∷◌, ◌++◌, [], length};
ghost use Rattle.std.specs.Prelude.{option_copied, slice_get, slice_set, true, None, Err, IfErr, IfOk, IfSome, OnOk};
ghost use Rattle.std.specs.Option.{option_and_then, option_map};
ghost use Rattle.sm_names.specs.declared.rules.TheConstants.{MAX_PAGES};
ghost use Rattle.sm_names.specs.declared.outcomes.StepFault.{StepFault as Fault};
ghost use Rattle.core_state.specs.Shown.{Shows};
ghost use Rattle.core_state.specs.Theorem.{Makes};
ghost use Rattle.actor_plays.specs.declared.play.Asked.{Asked as AskedFor};
ghost use Rattle.explore_model.specs.declared.found.Turn.{Turn as Made};
ghost use Rattle.actor_plays.specs.Fates.{AreFalls};
ghost use Rattle.actor_plays.specs.Moves.{IsOfSetup, TakesTurn, TakesTurnUntold, position_of};
ghost use Rattle.actor_plays.specs.Plays.{AreJoining, Asks, AsksNothing, IsPlay, IsTurn, Stage};
ghost use Rattle.actor_plays.specs.Plays.{first_clients, first_stage, is_wait as is_waiting, next_step, stage_after, stage_of, stages_of};
ghost use Rattle.actor_plays.specs.Positions.{Begins, Fell, Setup};
ghost use Rattle.actor_scripts.specs.ActorStates.{step_call};

use crate::actor::Actor;
use crate::falls::{GoneNode, note_falls};
use actor_scripts::{Step, StepCall};
use event_facts::step_with_marks;
use explore_model::{Plan, Planned, Turn};
use lifetime_core::Core;
use sm_names::{Call, ClientId, Limits, NoMemory, Reply, StepFault};
use std::alloc::Global;

/// What came of an actor's turn.
#[derive(Clone, Copy, PartialEq, Eq)]
pub enum Turned {
    /// It made a call.
    Made,
    /// The call for which it waits was answered Empty or Pending. It counts as an event, but is no turn.
    Waits,
    /// It has no call to make: it is behind its last step, or waits for a tracker to fire.
    Rests,
}

/// A play of actors on a core: the clients, what each actor knows, the turns, the calls with their replies,
/// and the nodes that fell.
#[derive(Drop)]
pub struct Play {
    pub(crate) core: Core,
    pub(crate) clients: Vec<ClientId>,
    pub(crate) actors: Vec<Actor>,
    pub(crate) turns: Vec<Turn>,
    pub(crate) entries: Vec<(ClientId, Call, Reply)>,
    pub(crate) falls: Vec<GoneNode>,
}

// The next step of an actor, its call, and the client that makes it.
#[derive(Clone, Copy)]
pub(crate) struct Asked {
    pub(crate) next: Planned,
    pub(crate) asked: StepCall,
    pub(crate) client: ClientId,
}

// Whether nothing was there for the call.
fn is_wait(reply: &Reply) -> bool
    ensures { result ≡ is_waiting reply.now }
{
    matches!(*reply, Reply::Empty | Reply::Pending)
}

// Whether the step waits, and nothing was there for its call.
fn must_wait(next: &Planned, reply: &Reply) -> bool
    ensures { result ≡ (next.now.waits && is_waiting reply.now) }
{
    next.waits && is_wait(reply)
}

impl Play {
    /// A play in which no client has joined, on a core with a pool of this many pages, 1 to 1,048,576. Its
    /// table of handles hashes from the seed, which changes no reply.
    ///
    /// `NoMemory` if the pool's memory is refused. Costs O(pages).
    pub fn new(alloc: Global, pages: u32, limits: Limits, seed: [u8; 16]) -> Result<Play, NoMemory>
        requires { (1 ≤ pages) × (pages ≤ MAX_PAGES) }
        ensures joining { IfOk result AreJoining }
        ensures none { IfOk result (λ play. play.clients.items ≡ []) }
        ensures pages { IfOk result (λ play. play.core.pool ≡ pages) }
        ensures limits { IfOk result (λ play. play.core.limits ≡ limits) }
    {
        let core = Core::with_seed(alloc, pages, limits, seed)?;
        Ok(Play {
            core,
            clients: Vec::new(alloc),
            actors: Vec::new(alloc),
            turns: Vec::new(alloc),
            entries: Vec::new(alloc),
            falls: Vec::new(alloc),
        })
    }

    // Makes a call, and notes it.
    fn make_call(&mut self, client: ClientId, call: Call) -> Result<Reply, StepFault>
        requires { Shows self.old.core self.old.entries.items }
        ensures shows { OnOk result (Shows self.new.core self.new.entries.items) }
        ensures makes { IfOk result (λ reply. Makes self.old.core self.new.core (client, call, reply)) }
        ensures entries { IfOk result (λ reply. self.new.entries.items
            ≡ self.old.entries.items ++ (client, call, reply) ∷ []) }
        ensures rest { OnOk result
            (self.new ≡ record self.old { core = self.new.core; entries = self.new.entries }) }
        ensures full { result ≡ Err Fault.HistoryFull →
            self.old.core.limits.events ≤ self.old.core.events }
        ensures pool { OnOk result (self.new.core.pool ≡ self.old.core.pool) }
        ensures limits { OnOk result (self.new.core.limits ≡ self.old.core.limits) }
    {
        let made = call;
        let reply = self.core.step(client, call)?;
        let answer = reply;
        match self.entries.push((client, made, reply)) {
            Ok(()) => Ok(answer),
            Err(_) => Err(StepFault::NoMemory),
        }
    }

    // Does what `make_call` does, and notes the nodes that the call took.
    fn tell_call(&mut self, alloc: Global, client: ClientId, call: Call) -> Result<Reply, StepFault>
        requires { Shows self.old.core self.old.entries.items }
        ensures shows { OnOk result (Shows self.new.core self.new.entries.items) }
        ensures makes { IfOk result (λ reply. Makes self.old.core self.new.core (client, call, reply)) }
        ensures entries { IfOk result (λ reply. self.new.entries.items
            ≡ self.old.entries.items ++ (client, call, reply) ∷ []) }
        ensures told { OnOk result (AreFalls self.old.entries.items self.old.falls.items →
            AreFalls self.new.entries.items self.new.falls.items) }
        ensures fell { IfOk result
            (λ reply. Fell (position_of self.old) (position_of self.new) client call reply) }
        ensures rest { OnOk result (self.new ≡ record self.old {
          core = self.new.core;
          entries = self.new.entries;
          falls = self.new.falls;
        }) }
        ensures full { result ≡ Err Fault.HistoryFull →
            self.old.core.limits.events ≤ self.old.core.events }
        ensures pool { OnOk result (self.new.core.pool ≡ self.old.core.pool) }
        ensures limits { OnOk result (self.new.core.limits ≡ self.old.core.limits) }
    {
        let made = call;
        let told = step_with_marks(&mut self.core, alloc, client, call)?;
        note_falls(&mut self.falls, alloc, &told.moments)?;
        let reply = told.reply;
        let answer = reply;
        match self.entries.push((client, made, reply)) {
            Ok(()) => Ok(answer),
            Err(_) => Err(StepFault::NoMemory),
        }
    }

    /// One more client joins, before any turn.
    ///
    /// The fault is that of the call: as many events were made as may be, or memory was refused. Then the
    /// play is of no more use. Costs O(1).
    pub fn join(&mut self, alloc: Global) -> Result<(), StepFault>
        requires { AreJoining self.old }
        ensures joining { OnOk result (AreJoining self.new) }
        ensures counted { OnOk result
            (length self.new.clients.items ≡ length self.old.clients.items + 1) }
        ensures full { result ≡ Err Fault.HistoryFull →
            self.old.core.limits.events ≤ self.old.core.events }
        ensures pool { OnOk result (self.new.core.pool ≡ self.old.core.pool) }
        ensures limits { OnOk result (self.new.core.limits ≡ self.old.core.limits) }
    {
        let reply = self.make_call(0, Call::Join)?;
        let Reply::Joined(client) = reply else {
            return Err(StepFault::NoMemory);
        };
        self.add_actor(alloc, client)?;
        Ok(())
    }

    // Adds an actor, who has made nothing, with this client.
    fn add_actor(&mut self, alloc: Global, client: ClientId) -> Result<(), StepFault>
        ensures clients { OnOk result
            (self.new.clients.items ≡ self.old.clients.items ++ client ∷ []) }
        ensures stages { OnOk result
            (stages_of self.new ≡ stages_of self.old ++ first_stage ∷ []) }
        ensures rest { OnOk result (self.new
            ≡ record self.old { clients = self.new.clients; actors = self.new.actors }) }
        ensures memory { IfErr result (λ fault. fault ≡ Fault.NoMemory) }
    {
        let actor = Actor::new(alloc, client);
        match self.actors.push(actor) {
            Ok(()) => {}
            Err(_) => return Err(StepFault::NoMemory),
        }
        match self.clients.push(client) {
            Ok(()) => Ok(()),
            Err(_) => Err(StepFault::NoMemory),
        }
    }

    /// Whether as many clients have joined as there are plans: then the actors of these plans can make turns.
    /// Costs O(1).
    pub fn have_joined(&self, plans: &[Plan]) -> bool
        ensures count { result ≡ true → length self.now.clients.items ≡ length plans.now }
        ensures all { length self.now.clients.items ≡ length plans.now → result ≡ true }
        ensures play { AreJoining self.now →
            length self.now.clients.items ≡ length plans.now → IsPlay plans.now self.now }
        ensures told { AreJoining self.now → AreFalls self.now.entries.items self.now.falls.items }
        ensures clients { AreJoining self.now → length self.now.clients.items ≡ length plans.now →
            self.now.clients.items ≡ first_clients (length plans.now) }
        ensures begins { AreJoining self.now → length self.now.clients.items ≡ length plans.now →
            (setup : Setup) → IsOfSetup setup plans.now self.now → Begins setup (position_of self.now) }
    {
        self.clients.len() == plans.len()
    }

    // The next step of the actor.
    pub(crate) fn next(&self, plans: &[Plan], actor: usize) -> Option<Planned>
        ensures { result
            ≡ option_and_then (next_step plans.now actor) (slice_get (stages_of self.now) actor) }
    {
        let one = self.actors.get(actor)?;
        if one.vanish.is_some() {
            return None;
        }
        plans.get(actor)?.steps.get(one.at).copied()
    }

    /// The actor of this place. Costs O(1).
    pub fn actor(&self, actor: usize) -> Option<&Actor>
        ensures { option_map stage_of (option_copied result) ≡ slice_get (stages_of self.now) actor }
    {
        self.actors.get(actor)
    }

    // The call that the actor's step makes.
    pub(crate) fn asked(&self, actor: usize, step: Step) -> Option<StepCall>
        ensures { result ≡ option_and_then
            (λ (stage : Stage). step_call self.now.clients.items stage.known step)
            (slice_get (stages_of self.now) actor) }
    {
        match self.actor(actor) {
            Some(one) => one.asked(&self.clients, step),
            None => None,
        }
    }

    // Makes the call, and notes the nodes that it took if the play tells.
    pub(crate) fn call(
        &mut self,
        alloc: Global,
        client: ClientId,
        call: Call,
        tells: bool,
    ) -> Result<Reply, StepFault>
        requires { Shows self.old.core self.old.entries.items }
        ensures shows { OnOk result (Shows self.new.core self.new.entries.items) }
        ensures makes { IfOk result (λ reply. Makes self.old.core self.new.core (client, call, reply)) }
        ensures entries { IfOk result (λ reply. self.new.entries.items
            ≡ self.old.entries.items ++ (client, call, reply) ∷ []) }
        ensures told { tells ≡ true → OnOk result
            (AreFalls self.old.entries.items self.old.falls.items →
            AreFalls self.new.entries.items self.new.falls.items) }
        ensures fell { tells ≡ true → IfOk result
            (λ reply. Fell (position_of self.old) (position_of self.new) client call reply) }
        ensures rest { OnOk result (self.new ≡ record self.old {
          core = self.new.core;
          entries = self.new.entries;
          falls = self.new.falls;
        }) }
        ensures full { result ≡ Err Fault.HistoryFull →
            self.old.core.limits.events ≤ self.old.core.events }
        ensures pool { OnOk result (self.new.core.pool ≡ self.old.core.pool) }
        ensures limits { OnOk result (self.new.core.limits ≡ self.old.core.limits) }
    {
        if tells {
            self.tell_call(alloc, client, call)
        } else {
            self.make_call(client, call)
        }
    }

    // Notes the reply to the actor's next step.
    fn note(
        &mut self,
        actor: usize,
        next: Planned,
        asked: &StepCall,
        reply: Reply,
    ) -> Result<(), StepFault>
        ensures stages { OnOk result (IfSome (slice_get (stages_of self.old) actor) (λ stage.
            stages_of self.new
            ≡ slice_set (stages_of self.old) actor (stage_after stage next asked.now reply))) }
        ensures turns { OnOk result (self.new.turns.items
            ≡ self.old.turns.items ++ Made.Step actor ∷ []) }
        ensures rest { OnOk result (self.new
            ≡ record self.old { actors = self.new.actors; turns = self.new.turns }) }
        ensures memory { IfErr result (λ fault. fault ≡ Fault.NoMemory) }
    {
        if self.actors.len() <= actor {
            return Err(StepFault::NoMemory);
        }
        self.actors[actor].note(next, asked, reply)?;
        match self.turns.push(Turn::Step(actor)) {
            Ok(()) => Ok(()),
            Err(_) => Err(StepFault::NoMemory),
        }
    }

    // What the actor asks for by its next step, if it makes a call.
    fn asks(&self, plans: &[Plan], actor: usize) -> Option<Asked>
        ensures some { IfSome result (Asks plans.now self.now actor) }
        ensures none { result ≡ None → AsksNothing plans.now self.now actor }
    {
        let Some(next) = self.next(plans, actor) else {
            return None;
        };
        let Some(asked) = self.asked(actor, next.step) else {
            return None;
        };
        let Some(client) = self.clients.get(actor).copied() else {
            return None;
        };
        Some(Asked {
            next,
            asked,
            client,
        })
    }

    /// The call of the actor's next step, if that makes one, and whether the step waits. Costs a constant number of look-ups.
    pub fn next_call(&self, plans: &[Plan], actor: usize) -> Option<(Call, bool)>
        ensures some { IfSome result (λ call. (asks : AskedFor) × Asks plans.now self.now actor asks
            × (call ≡ (asks.asked.call, asks.next.waits))) }
        ensures none { result ≡ None → AsksNothing plans.now self.now actor }
    {
        match self.asks(plans, actor) {
            Some(asks) => Some((asks.asked.call, asks.next.waits)),
            None => None,
        }
    }

    // The actor makes the call that it asks for.
    fn make_turn(
        &mut self,
        alloc: Global,
        plans: &[Plan],
        actor: usize,
        asks: &Asked,
        tells: bool,
    ) -> Result<Turned, StepFault>
        requires play { IsPlay plans.now self.old }
        requires asks { Asks plans.now self.old actor asks.now }
        ensures turn { IfOk result (IsTurn plans.now self.old self.new actor) }
        ensures takes { tells ≡ true → IfOk result (TakesTurn plans.now self.old self.new actor) }
        ensures untold { IfOk result (TakesTurnUntold plans.now self.old self.new actor) }
        ensures told { tells ≡ true → AreFalls self.old.entries.items self.old.falls.items →
            OnOk result (AreFalls self.new.entries.items self.new.falls.items) }
        ensures full { result ≡ Err Fault.HistoryFull →
            self.old.core.limits.events ≤ self.old.core.events }
        ensures pool { OnOk result (self.new.core.pool ≡ self.old.core.pool) }
        ensures limits { OnOk result (self.new.core.limits ≡ self.old.core.limits) }
    {
        let reply = self.call(alloc, asks.client, asks.asked.call, tells)?;
        if must_wait(&asks.next, &reply) {
            return Ok(Turned::Waits);
        }
        self.note(actor, asks.next, &asks.asked, reply)?;
        Ok(Turned::Made)
    }

    // The actor passes the steps that it can pass, and makes the call of the next one.
    fn pass_and_turn(
        &mut self,
        alloc: Global,
        plans: &[Plan],
        actor: usize,
        tells: bool,
    ) -> Result<Turned, StepFault>
        requires { IsPlay plans.now self.old }
        ensures turn { IfOk result (IsTurn plans.now self.old self.new actor) }
        ensures takes { tells ≡ true → IfOk result (TakesTurn plans.now self.old self.new actor) }
        ensures untold { IfOk result (TakesTurnUntold plans.now self.old self.new actor) }
        ensures told { tells ≡ true → AreFalls self.old.entries.items self.old.falls.items →
            OnOk result (AreFalls self.new.entries.items self.new.falls.items) }
        ensures full { result ≡ Err Fault.HistoryFull →
            self.old.core.limits.events ≤ self.old.core.events }
        ensures pool { OnOk result (self.new.core.pool ≡ self.old.core.pool) }
        ensures limits { OnOk result (self.new.core.limits ≡ self.old.core.limits) }
    {
        self.pass(plans, actor);
        match self.asks(plans, actor) {
            Some(asks) => self.make_turn(alloc, plans, actor, &asks, tells),
            None => Ok(Turned::Rests),
        }
    }

    /// A turn of the actor: it passes the steps that it can pass, and makes the call of the next one. If the
    /// play tells, the nodes that the call took are noted.
    ///
    /// The fault is that of the call, or memory was refused. Then the play is of no more use. Costs the call,
    /// and a constant number of look-ups for each step that is passed; if the play tells, what `step_with_marks`
    /// costs, and a copy of the collection for each mark of the event.
    pub fn take_turn(
        &mut self,
        alloc: Global,
        plans: &[Plan],
        actor: usize,
        tells: bool,
    ) -> Result<Turned, StepFault>
        requires { IsPlay plans.now self.old }
        ensures turn { IfOk result (IsTurn plans.now self.old self.new actor) }
        ensures takes { tells ≡ true → IfOk result (TakesTurn plans.now self.old self.new actor) }
        ensures untold { IfOk result (TakesTurnUntold plans.now self.old self.new actor) }
        ensures told { tells ≡ true → AreFalls self.old.entries.items self.old.falls.items →
            OnOk result (AreFalls self.new.entries.items self.new.falls.items) }
        ensures full { result ≡ Err Fault.HistoryFull →
            self.old.core.limits.events ≤ self.old.core.events }
        ensures pool { OnOk result (self.new.core.pool ≡ self.old.core.pool) }
        ensures limits { OnOk result (self.new.core.limits ≡ self.old.core.limits) }
    {
        match self.asks(plans, actor) {
            Some(asks) => self.make_turn(alloc, plans, actor, &asks, tells),
            None => self.pass_and_turn(alloc, plans, actor, tells),
        }
    }

    /// The core. Costs O(1).
    pub fn core(&self) -> &Core
        ensures { result.now ≡ self.now.core }
    {
        &self.core
    }

    /// The actors, in the order of their plans. Costs O(1).
    pub fn actors(&self) -> &[Actor]
        ensures { result.now ≡ self.now.actors.items }
    {
        &self.actors
    }

    /// The calls with their replies, joins among them. Costs O(1).
    pub fn entries(&self) -> &[(ClientId, Call, Reply)]
        ensures { result.now ≡ self.now.entries.items }
    {
        &self.entries
    }

    /// The nodes that fell in calls that were told. Costs O(1).
    pub fn falls(&self) -> &[GoneNode]
        ensures { result.now ≡ self.now.falls.items }
    {
        &self.falls
    }
}
