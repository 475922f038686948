//! How an actor leaves: it is shut, collects what waits for it, and parts with all that it has.
ghost use Rattle.std.specs.Prelude.{◌≡◌, ◌++◌, None, Some, IfErr, IfOk, OnOk};
ghost use Rattle.std.specs.List.{flat_map};
ghost use Rattle.std.specs.Option.{option_map};
ghost use Rattle.sm_names.specs.declared.messages.Call.{Call as Asked};
ghost use Rattle.sm_names.specs.declared.outcomes.StepFault.{StepFault as Fault};
ghost use Rattle.actor_scripts.specs.ActorStates.{new_objects};
ghost use Rattle.actor_plays.specs.Leaves.{all_objects as objects_told, is_of as is_of_sort, leave_after, leave_call as call_told};
ghost use Rattle.actor_plays.specs.Leaves.{vanish_of, vanishing_call as vanishing_told, there, those, waiting_told};

use actor_scripts::ActorObject;
use sm_names::{Call, Kind, Reply, StepFault};
use std::alloc::{AllocError, Global};

/// How far an actor is that leaves.
#[derive(Drop)]
pub struct VanishProgress {
    /// How many parcels it has still to collect.
    pub waiting: u64,
    /// What it collected since it was shut.
    pub collected: Vec<ActorObject>,
    /// With how many of its objects it parted.
    pub parted: usize,
}

// Which objects are parted with one after another.
#[derive(Clone, Copy)]
pub(crate) enum Sort {
    End,
    Token,
    Collection,
    Handle,
}

// Whether the object is of the sort.
fn is_of(sort: Sort, object: ActorObject) -> bool
    ensures { result ≡ is_of_sort sort object }
{
    match (sort, object) {
        (Sort::End, ActorObject::Token { .. } | ActorObject::Collection { .. }) => true,
        (Sort::Token, ActorObject::Token { .. }) => true,
        (Sort::Collection, ActorObject::Collection { .. }) => true,
        (Sort::Handle, ActorObject::Handle { .. }) => true,
        _ => false,
    }
}

// Adds the object, if it is of the sort.
fn push_if(all: &mut Vec<ActorObject>, sort: Sort, object: ActorObject) -> Result<(), AllocError>
    ensures { OnOk result (all.new.items ≡ all.old.items ++ those sort object) }
{
    if is_of(sort, object) {
        all.push(object)?;
    }
    Ok(())
}

// Adds what lies in a slot, if it is of the sort.
fn push_there(
    all: &mut Vec<ActorObject>,
    sort: Sort,
    slot: Option<ActorObject>,
) -> Result<(), AllocError>
    ensures { OnOk result (all.new.items ≡ all.old.items ++ there sort slot) }
{
    match slot {
        Some(object) => push_if(all, sort, object),
        None => Ok(()),
    }
}

// Adds those of the objects that are of the sort.
fn push_those(
    all: &mut Vec<ActorObject>,
    sort: Sort,
    objects: &[ActorObject],
) -> Result<(), AllocError>
    ensures { OnOk result (all.new.items ≡ all.old.items ++ flat_map (those sort) objects.now) }
{
    for object in objects {
        push_if(all, sort, *object)?;
    }
    Ok(())
}

// Adds those in these slots that are of the sort.
fn push_slots(
    all: &mut Vec<ActorObject>,
    sort: Sort,
    slots: &[Option<ActorObject>],
) -> Result<(), AllocError>
    ensures { OnOk result (all.new.items ≡ all.old.items ++ flat_map (there sort) slots.now) }
{
    for slot in slots {
        push_there(all, sort, *slot)?;
    }
    Ok(())
}

// All with which an actor parts, in order, which collected these and has the others in slots.
fn all_objects(
    alloc: Global,
    collected: &[ActorObject],
    slots: &[Option<ActorObject>],
) -> Result<Vec<ActorObject>, AllocError>
    ensures { IfOk result (λ all. all.items ≡ objects_told collected.now slots.now) }
{
    let mut all = Vec::new(alloc);
    push_those(&mut all, Sort::End, collected)?;
    push_slots(&mut all, Sort::Token, slots)?;
    push_slots(&mut all, Sort::Collection, slots)?;
    push_those(&mut all, Sort::Handle, collected)?;
    push_slots(&mut all, Sort::Handle, slots)?;
    Ok(all)
}

// The call that parts with the object.
fn vanishing_call(object: ActorObject) -> Call
    ensures { result ≡ vanishing_told object }
{
    match object {
        ActorObject::Token { key, .. } => Call::Close(key),
        ActorObject::Collection { key, .. } => Call::Close(key),
        ActorObject::Handle { buffer, strength } => Call::DropHandle(buffer, strength),
    }
}

// How many parcels the reply to a Shut counts.
fn waiting_in(reply: &Reply) -> u64
    ensures { result ≡ waiting_told reply.now }
{
    match *reply {
        Reply::Shut(waiting) => waiting,
        _ => 0,
    }
}

// Adds what the reply to a Collect gives.
fn push_collected(collected: &mut Vec<ActorObject>, reply: &Reply) -> Result<(), AllocError>
    ensures { OnOk result (collected.new.items
        ≡ collected.old.items ++ new_objects None Asked.Collect reply.now) }
{
    match *reply {
        Reply::Collected {
            key,
            kind,
            collection,
        } => match kind {
            Kind::Token => collected.push(ActorObject::Token { key, collection })?,
            Kind::Collection => collected.push(ActorObject::Collection { key, collection })?,
        },
        Reply::CollectedHandle { buffer, strength } => {
            collected.push(ActorObject::Handle { buffer, strength })?
        }
        _ => {}
    }
    Ok(())
}

impl VanishProgress {
    /// All objects with which it parts, in order, if these lie in the actor's slots: those that it collected are among them,
    /// and not those that it has still to collect. It parted with the first `parted` of them.
    ///
    /// `AllocError` where memory is refused. Costs O(n) for n slots and collected objects.
    pub fn objects(
        &self,
        alloc: Global,
        slots: &[Option<ActorObject>],
    ) -> Result<Vec<ActorObject>, AllocError>
        ensures { IfOk result (λ all. all.items ≡ objects_told self.now.collected.items slots.now) }
    {
        all_objects(alloc, &self.collected, slots)
    }

    // The call by which it goes on to leave, if there is one; it has these slots.
    fn call(&self, alloc: Global, slots: &[Option<ActorObject>]) -> Result<Option<Call>, AllocError>
        ensures { IfOk result (λ call. call ≡ call_told slots.now (Some (vanish_of self.now))) }
    {
        if self.waiting > 0 {
            return Ok(Some(Call::Collect));
        }
        let all = all_objects(alloc, &self.collected, slots)?;
        match all.get(self.parted) {
            Some(object) => Ok(Some(vanishing_call(*object))),
            None => Ok(None),
        }
    }

    // It is shut, and answered so.
    fn begun(alloc: Global, reply: &Reply) -> VanishProgress
        ensures { vanish_of result ≡ leave_after None reply.now }
    {
        VanishProgress {
            waiting: waiting_in(reply),
            collected: Vec::new(alloc),
            parted: 0,
        }
    }

    // Its next call is answered so.
    fn note(&mut self, reply: &Reply) -> Result<(), StepFault>
        ensures stage { OnOk result
            (vanish_of self.new ≡ leave_after (Some (vanish_of self.old)) reply.now) }
        ensures memory { IfErr result (λ fault. fault ≡ Fault.NoMemory) }
    {
        if self.waiting > 0 {
            self.waiting -= 1;
            return match push_collected(&mut self.collected, reply) {
                Ok(()) => Ok(()),
                Err(_) => Err(StepFault::NoMemory),
            };
        }
        if self.parted == usize::MAX {
            return Err(StepFault::NoMemory);
        }
        self.parted += 1;
        Ok(())
    }
}

// The call by which an actor leaves, or goes on to leave, if there is one; it has these slots.
pub(crate) fn leave_call(
    alloc: Global,
    vanish: &Option<VanishProgress>,
    slots: &[Option<ActorObject>],
) -> Result<Option<Call>, AllocError>
    ensures { IfOk result (λ call. call ≡ call_told slots.now (option_map vanish_of vanish.now)) }
{
    match vanish {
        Some(vanish) => vanish.call(alloc, slots),
        None => Ok(Some(Call::Shut)),
    }
}

// That call is answered so.
pub(crate) fn note_leave(
    alloc: Global,
    vanish: &mut Option<VanishProgress>,
    reply: &Reply,
) -> Result<(), StepFault>
    ensures stage { OnOk result (option_map vanish_of vanish.new
        ≡ Some (leave_after (option_map vanish_of vanish.old) reply.now)) }
    ensures memory { IfErr result (λ fault. fault ≡ Fault.NoMemory) }
{
    match vanish {
        Some(vanish) => vanish.note(reply),
        None => {
            *vanish = Some(VanishProgress::begun(alloc, reply));
            Ok(())
        }
    }
}
