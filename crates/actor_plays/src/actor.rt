//! An actor in a play.
ghost use Rattle.std.specs.Prelude.{◌≡◌, ◌≤◌, length, false, true, IfErr, IfOk, OnOk};
ghost use Rattle.sm_names.specs.declared.outcomes.StepFault.{StepFault as Fault};
ghost use Rattle.actor_scripts.specs.ActorStates.{step_call};
ghost use Rattle.actor_scripts.specs.Tables.{known};
ghost use Rattle.explore_model.specs.Plans.{steps_of};
ghost use Rattle.actor_plays.specs.Endings.{birth_in, is_birth as births};
ghost use Rattle.actor_plays.specs.Plays.{first_stage, leaves_by, left, passed, stage_after, stage_of};

use crate::vanish::{VanishProgress, leave_call, note_leave};
use actor_scripts::{ActorState, Step, StepCall};
use explore_model::{Plan, Planned};
use sm_names::{Call, ClientId, NodeKey, Reply, StepFault};
use std::alloc::{AllocError, Global};

/// An actor in a play: its client, how many steps of its plan are behind it, what it knows, the replies to the
/// calls of its steps, each with the place of its step in the plan, and how far it is in leaving, if it leaves.
#[derive(Drop)]
pub struct Actor {
    pub client: ClientId,
    pub at: usize,
    pub state: ActorState,
    pub made: Vec<(usize, Reply)>,
    pub vanish: Option<VanishProgress>,
}

// Whether the call with this reply made the node.
fn is_birth(key: NodeKey, reply: Reply) -> bool
    ensures { result ≡ births key reply }
{
    match reply {
        Reply::Token { key: other, .. } => other == key,
        _ => false,
    }
}

impl Actor {
    // An actor with no step behind it.
    pub(crate) fn new(alloc: Global, client: ClientId) -> Actor
        ensures { stage_of result ≡ first_stage }
    {
        let state = ActorState::new(alloc);
        let made = Vec::new(alloc);
        Actor {
            client,
            at: 0,
            state,
            made,
            vanish: None,
        }
    }

    // The place of the first of its steps whose call made the node.
    pub(crate) fn birth(&self, key: NodeKey) -> Option<usize>
        ensures { result ≡ birth_in key self.now.made.items }
    {
        match self.made.iter().find(|made| is_birth(key, made.1)) {
            Some((at, _)) => Some(*at),
            None => None,
        }
    }

    // The call that the step makes.
    pub(crate) fn asked(&self, clients: &[ClientId], step: Step) -> Option<StepCall>
        ensures { result ≡ step_call clients.now (known self.now.state) step }
    {
        self.state.call(clients, step)
    }

    // One more step of its plan is behind it, unless all are.
    pub(crate) fn pass(&mut self, plan: &Plan) -> bool
        ensures stage { result ≡ true → stage_of self.new ≡ passed (stage_of self.old) }
        ensures same { result ≡ false → self.new ≡ self.old }
        ensures done { result ≡ false → length (steps_of plan.now) ≤ self.old.at }
    {
        if plan.steps.len() <= self.at {
            return false;
        }
        self.at += 1;
        true
    }

    // Notes the reply to its next step.
    pub(crate) fn note(
        &mut self,
        next: Planned,
        asked: &StepCall,
        reply: Reply,
    ) -> Result<(), StepFault>
        ensures stage { OnOk result
            (stage_of self.new ≡ stage_after (stage_of self.old) next asked.now reply) }
        ensures memory { IfErr result (λ fault. fault ≡ Fault.NoMemory) }
    {
        if self.at == usize::MAX {
            return Err(StepFault::NoMemory);
        }
        match self.made.push((self.at, reply)) {
            Ok(()) => {}
            Err(_) => return Err(StepFault::NoMemory),
        }
        match self.state.note_reply(next.step, asked, &reply) {
            Ok(()) => {}
            Err(_) => return Err(StepFault::NoMemory),
        }
        self.at += 1;
        Ok(())
    }

    /// The call by which the actor leaves, or goes on to leave: Shut, a Collect of each parcel that waited for it then, and
    /// a Close or a DropHandle of each of its objects, in the order of `Client::vanish`. `None` once it has made all of them.
    ///
    /// `AllocError` where memory is refused. Costs O(n) for the n objects that it was ever given.
    pub fn leave_call(&self, alloc: Global) -> Result<Option<Call>, AllocError>
        ensures { IfOk result (λ call. call ≡ leaves_by (stage_of self.now)) }
    {
        leave_call(alloc, &self.vanish, self.state.objects())
    }

    // Notes the reply to that call.
    pub(crate) fn note_leave(&mut self, alloc: Global, reply: Reply) -> Result<(), StepFault>
        ensures stage { OnOk result (stage_of self.new ≡ left (stage_of self.old) reply) }
        ensures memory { IfErr result (λ fault. fault ≡ Fault.NoMemory) }
    {
        note_leave(alloc, &mut self.vanish, &reply)
    }
}
