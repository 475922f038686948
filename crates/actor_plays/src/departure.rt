//! How an actor of a play leaves, call by call.
ghost use Rattle.std.specs.Prelude.{◌≡◌, ◌≤◌, ◌∷◌, ◌++◌, [], slice_get, slice_set, true, Err, Some, IfErr, IfOk, IfSome, OnOk};
ghost use Rattle.std.specs.Option.{option_and_then};
ghost use Rattle.sm_names.specs.declared.outcomes.StepFault.{StepFault as Fault};
ghost use Rattle.explore_model.specs.declared.found.Turn.{Turn as Made};
ghost use Rattle.actor_plays.specs.Fates.{AreFalls};
ghost use Rattle.actor_plays.specs.Moves.{TakesLeave, TakesLeaveUntold};
ghost use Rattle.actor_plays.specs.Plays.{IsLeave, IsPlay, leaves_by, left, stages_of};

use crate::play::Play;
use explore_model::{Plan, Turn};
use sm_names::{Call, ClientId, Reply, StepFault};
use std::alloc::{AllocError, Global};

impl Play {
    // The call by which the actor leaves, or goes on to leave, if there is one.
    fn leave_call(&self, alloc: Global, actor: usize) -> Result<Option<Call>, AllocError>
        ensures { IfOk result (λ call. call
            ≡ option_and_then leaves_by (slice_get (stages_of self.now) actor)) }
    {
        match self.actor(actor) {
            Some(one) => one.leave_call(alloc),
            None => Ok(None),
        }
    }

    // Notes the reply to that call.
    fn note_leave(&mut self, alloc: Global, actor: usize, reply: Reply) -> Result<(), StepFault>
        ensures stages { OnOk result (IfSome (slice_get (stages_of self.old) actor) (λ stage.
            stages_of self.new ≡ slice_set (stages_of self.old) actor (left stage reply))) }
        ensures turns { OnOk result
            (self.new.turns.items ≡ self.old.turns.items ++ Made.Leave actor ∷ []) }
        ensures rest { OnOk result (self.new
            ≡ record self.old { actors = self.new.actors; turns = self.new.turns }) }
        ensures memory { IfErr result (λ fault. fault ≡ Fault.NoMemory) }
    {
        if self.actors.len() <= actor {
            return Err(StepFault::NoMemory);
        }
        self.actors[actor].note_leave(alloc, reply)?;
        match self.turns.push(Turn::Leave(actor)) {
            Ok(()) => Ok(()),
            Err(_) => Err(StepFault::NoMemory),
        }
    }

    // The actor's client.
    fn client_of(&self, actor: usize) -> Option<ClientId>
        ensures { result ≡ slice_get self.now.clients.items actor }
    {
        self.clients.get(actor).copied()
    }

    // The actor's client makes this call, by which the actor leaves, or goes on to leave.
    fn make_leave(
        &mut self,
        alloc: Global,
        plans: &[Plan],
        actor: usize,
        call: Call,
        tells: bool,
    ) -> Result<(), StepFault>
        requires play { IsPlay plans.now self.old }
        requires call { option_and_then leaves_by (slice_get (stages_of self.old) actor) ≡ Some call }
        ensures leave { OnOk result (IsLeave plans.now self.old self.new actor true) }
        ensures takes { tells ≡ true → OnOk result (TakesLeave plans.now self.old self.new actor true) }
        ensures untold { OnOk result (TakesLeaveUntold plans.now self.old self.new actor true) }
        ensures told { tells ≡ true → AreFalls self.old.entries.items self.old.falls.items →
            OnOk result (AreFalls self.new.entries.items self.new.falls.items) }
        ensures full { result ≡ Err Fault.HistoryFull →
            self.old.core.limits.events ≤ self.old.core.events }
        ensures pool { OnOk result (self.new.core.pool ≡ self.old.core.pool) }
        ensures limits { OnOk result (self.new.core.limits ≡ self.old.core.limits) }
    {
        let Some(client) = self.client_of(actor) else {
            return Err(StepFault::NoMemory);
        };
        let reply = self.call(alloc, client, call, tells)?;
        self.note_leave(alloc, actor, reply)?;
        Ok(())
    }

    /// The actor leaves, or goes on to leave, by one call, and the answer is whether there was one: Shut, then a Collect
    /// of each parcel that waited for it, then a Close or a DropHandle of each of its objects, in the order of
    /// `Client::vanish`. It makes no step any more. If the play tells, the nodes that the call took are noted.
    ///
    /// The fault is that of the call, or memory was refused. Then the play is of no more use. Costs the call, and
    /// O(n) for the n objects that the actor was ever given; if the play tells, what `take_turn` says.
    pub fn take_leave(
        &mut self,
        alloc: Global,
        plans: &[Plan],
        actor: usize,
        tells: bool,
    ) -> Result<bool, StepFault>
        requires { IsPlay plans.now self.old }
        ensures leave { IfOk result (IsLeave plans.now self.old self.new actor) }
        ensures takes { tells ≡ true → IfOk result (TakesLeave plans.now self.old self.new actor) }
        ensures untold { IfOk result (TakesLeaveUntold plans.now self.old self.new actor) }
        ensures told { tells ≡ true → AreFalls self.old.entries.items self.old.falls.items →
            OnOk result (AreFalls self.new.entries.items self.new.falls.items) }
        ensures full { result ≡ Err Fault.HistoryFull →
            self.old.core.limits.events ≤ self.old.core.events }
        ensures pool { OnOk result (self.new.core.pool ≡ self.old.core.pool) }
        ensures limits { OnOk result (self.new.core.limits ≡ self.old.core.limits) }
    {
        let call = match self.leave_call(alloc, actor) {
            Ok(Some(call)) => call,
            Ok(None) => return Ok(false),
            Err(_) => return Err(StepFault::NoMemory),
        };
        self.make_leave(alloc, plans, actor, call, tells)?;
        Ok(true)
    }
}
