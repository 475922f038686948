//! What an actor knows by the replies that it got.
ghost use Rattle.std.specs.Prelude.{◌≡◌, ◌||◌, IfSome, OnOk};
ghost use Rattle.actor_scripts.specs.ActorStates.{state_after, new_objects, handle_of as handle_told, handles_of_set, without_spent, with_node_label, with_object, with_objects, with_tracker_label, without_handle, without_object, step_call, call_at as call_told, call_on as on_object, slot_call as call_lying, end_slot as slot_of_end, handle_slot as slot_of_handle, is_bound as bound_to, node_label as label_of_node, nothing_known, on_of as lies_in, object_at as lies_at, objects_after, Fits, tracker_label as label_of_tracker};
ghost use Rattle.actor_scripts.specs.Tables.{known};

mod tables;

use crate::calls::{asked_strength, bare_call, call_on, node_label, tracker_label};
use crate::object::{ActorObject as Held, StepCall};
use crate::queues::Queues;
use crate::replies::{handle_of, new_place, new_tracker, spends_object};
use crate::step::{Step, StepBuffer};
use script_lines::Request;
use sm_names::{
    BufferName, Call, ClientId, CollectionId, Kind, NodeKey, Object, Reply, Strength, TrackerId,
    has_buffer,
};
use std::alloc::{AllocError, Global};
use std::collections::HashMap;

// How many bits the set of a Take has, one for each buffer.
pub(crate) const SET_BITS: u8 = 64;

/// What an actor knows by the replies that it got: what its labels stand for, and all objects that it
/// was given, each in a slot of its own, in the order in which they came.
///
/// It takes memory for each object that was ever given.
#[derive(Drop)]
pub struct ActorState {
    nodes: HashMap<u32, (NodeKey, CollectionId)>,
    trackers: HashMap<u32, TrackerId>,
    objects: Vec<Option<Held>>,
    // The slot of the newest object of each node.
    spots: HashMap<NodeKey, usize>,
    strong: Queues,
    weak: Queues,
}

impl ActorState {
    /// Nothing is known. Takes no memory. Costs O(1).
    pub fn new(alloc: Global) -> ActorState
        ensures { known result ≡ nothing_known }
    {
        ActorState {
            nodes: HashMap::new(alloc),
            trackers: HashMap::new(alloc),
            objects: Vec::new(alloc),
            spots: HashMap::new(alloc),
            strong: Queues::new(alloc),
            weak: Queues::new(alloc),
        }
    }

    /// What lies in each slot, in the order in which the objects came. Costs O(1).
    pub fn objects(&self) -> &[Option<Held>]
        ensures { result.now ≡ (known self.now).objects }
    {
        &self.objects
    }

    // What lies in the slot.
    fn object_at(&self, slot: usize) -> Option<Held>
        ensures { result ≡ lies_at (known self.now).objects slot }
    {
        match self.objects.get(slot) {
            Some(object) => *object,
            None => None,
        }
    }

    /// The tracker of this label, if it stands for one. Costs one look-up.
    pub fn tracker(&self, label: u32) -> Option<TrackerId>
        ensures { result ≡ (known self.now).trackers label }
    {
        self.trackers.get(&label).copied()
    }

    // The slot of the newest object of the node of this label.
    fn end_slot(&self, label: u32) -> Option<usize>
        ensures { result ≡ slot_of_end (known self.now) label }
    {
        match self.nodes.get(&label) {
            Some((key, _)) => self.spots.get(key).copied(),
            None => None,
        }
    }

    // The slot of the first handle of this strength and index in the collection of the node of this
    // label.
    fn handle_slot(&self, strength: Strength, label: u32, index: u8) -> Option<usize>
        ensures { result ≡ slot_of_handle (known self.now) strength label index }
    {
        match self.nodes.get(&label) {
            Some((_, collection)) => {
                let buffer = BufferName {
                    collection: *collection,
                    index,
                };
                match strength {
                    Strength::Strong => self.strong.first(buffer),
                    Strength::Weak => self.weak.first(buffer),
                }
            }
            None => None,
        }
    }

    // Whether a label that the step binds stands for something already.
    fn is_bound(&self, step: Step) -> bool
        ensures { result ≡ bound_to (known self.now).nodes (label_of_node step)
            || bound_to (known self.now).trackers (label_of_tracker step) }
    {
        let same = step;
        let node = match node_label(step) {
            Some(label) => self.nodes.contains_key(&label),
            None => false,
        };
        let tracker = match tracker_label(same) {
            Some(label) => self.trackers.contains_key(&label),
            None => false,
        };
        node || tracker
    }

    // The call on what lies in the slot.
    fn call_there(
        &self,
        clients: &[ClientId],
        request: &Request<u32, StepBuffer>,
        slot: usize,
    ) -> Option<StepCall>
        ensures { result
            ≡ call_lying (known self.now).objects (on_object clients.now request.now) slot }
    {
        let call = call_on(clients, request, self.object_at(slot)?)?;
        Some(StepCall {
            call,
            slot: Some(slot),
        })
    }

    // The call of the step, whatever label it binds.
    fn call_at(&self, clients: &[ClientId], step: Step) -> Option<StepCall>
        ensures { result ≡ call_told clients.now (known self.now) step }
    {
        match step {
            Step::Ask { request } => match request.object {
                Object::Nothing => Some(StepCall {
                    call: bare_call(clients, &request)?,
                    slot: None,
                }),
                Object::Node(node) => {
                    let slot = self.end_slot(node)?;
                    self.call_there(clients, &request, slot)
                }
                Object::Buffer(buffer) => {
                    let strength = asked_strength(&request.argument);
                    let slot = self.handle_slot(strength, buffer.node, buffer.index)?;
                    self.call_there(clients, &request, slot)
                }
            },
            Step::Poll { .. } => None,
        }
    }

    /// The call that the step makes, and the slot of what it is made on, or `None` where the step is
    /// skipped: a label that it uses stands for nothing, or for nothing of the kind that the call
    /// needs, or a label that it binds stands for something already. A client's label is its place in
    /// `clients`. A look at a tracker makes no call.
    ///
    /// Costs a constant number of look-ups.
    pub fn call(&self, clients: &[ClientId], step: Step) -> Option<StepCall>
        ensures asked { result ≡ step_call clients.now (known self.now) step }
        ensures fits { IfSome result (λ a. Fits (known self.now).objects a.slot a.call) }
    {
        let asked = step;
        if self.is_bound(step) {
            return None;
        }
        self.call_at(clients, asked)
    }

    // The label that the step binds to a node stands for the node in the reply.
    fn label_node(&mut self, step: Step, reply: &Reply) -> Result<(), AllocError>
        ensures { OnOk result (known self.new ≡ with_node_label (known self.old) step reply.now) }
    {
        match node_label(step) {
            Some(label) => match new_place(reply) {
                Some(place) => {
                    self.nodes.insert(label, place)?;
                    Ok(())
                }
                None => Ok(()),
            },
            None => Ok(()),
        }
    }

    // The same of a tracker.
    fn label_tracker(&mut self, step: Step, reply: &Reply) -> Result<(), AllocError>
        ensures { OnOk result
            (known self.new ≡ with_tracker_label (known self.old) step reply.now) }
    {
        match tracker_label(step) {
            Some(label) => match new_tracker(reply) {
                Some(id) => {
                    self.trackers.insert(label, id)?;
                    Ok(())
                }
                None => Ok(()),
            },
            None => Ok(()),
        }
    }

    // What the call is made on.
    fn on(&self, slot: Option<usize>) -> Option<Held>
        ensures { result ≡ lies_in (known self.now).objects slot }
    {
        match slot {
            Some(slot) => self.object_at(slot),
            None => None,
        }
    }

    // The object in the slot is gone.
    fn remove_object(&mut self, slot: Option<usize>)
        ensures { known self.new ≡ without_object (known self.old) slot }
    {
        if let Some(slot) = slot {
            if slot < self.objects.len() {
                self.objects[slot] = None;
            }
        }
    }

    // A handle that is let go was the first of its name.
    fn remove_handle(&mut self, call: &Call) -> Result<(), AllocError>
        ensures { OnOk result
            (known self.new ≡ without_handle (known self.old) (handle_told call.now)) }
    {
        match handle_of(call) {
            Some((buffer, strength)) => match strength {
                Strength::Strong => self.strong.pop(buffer),
                Strength::Weak => self.weak.pop(buffer),
            },
            None => Ok(()),
        }
    }

    // The object is gone, if the reply says so.
    fn remove_spent(&mut self, asked: &StepCall, reply: &Reply) -> Result<(), AllocError>
        ensures { OnOk result
            (known self.new ≡ without_spent (known self.old) asked.now reply.now) }
    {
        if spends_object(&asked.call, reply) {
            self.remove_object(asked.slot);
            self.remove_handle(&asked.call)?;
        }
        Ok(())
    }

    // One more object, in the next slot.
    fn push(&mut self, object: Held) -> Result<(), AllocError>
        ensures { OnOk result (known self.new ≡ with_object (known self.old) object) }
    {
        let slot = self.objects.len();
        self.objects.push(Some(object))?;
        match object {
            Held::Token { key, .. } | Held::Collection { key, .. } => {
                self.spots.insert(key, slot)?;
                Ok(())
            }
            Held::Handle { buffer, strength } => match strength {
                Strength::Strong => self.strong.push(buffer, slot),
                Strength::Weak => self.weak.push(buffer, slot),
            },
        }
    }

    // Handles of all buffers of the set, by rising index.
    fn push_handles(
        &mut self,
        collection: CollectionId,
        strength: Strength,
        set: u64,
    ) -> Result<(), AllocError>
        ensures { OnOk result (known self.new
            ≡ with_objects (known self.old) (handles_of_set collection strength set)) }
    {
        'pushing: for index in 0..SET_BITS {
            if has_buffer(set, index) {
                let buffer = BufferName { collection, index };
                self.push(Held::Handle { buffer, strength })?;
            }
        }
        Ok(())
    }

    // The objects that the reply gives.
    fn add_new_objects(
        &mut self,
        on: Option<Held>,
        call: &Call,
        reply: &Reply,
    ) -> Result<(), AllocError>
        ensures { OnOk result (known self.new
            ≡ with_objects (known self.old) (new_objects on call.now reply.now)) }
    {
        match (*call, *reply) {
            (
                Call::OpenRoot | Call::Duplicate(_) | Call::AttachToken(_),
                Reply::Token { key, collection },
            ) => self.push(Held::Token { key, collection }),
            (
                Call::Collect,
                Reply::Collected {
                    key,
                    kind,
                    collection,
                },
            ) => match kind {
                Kind::Token => self.push(Held::Token { key, collection }),
                Kind::Collection => self.push(Held::Collection { key, collection }),
            },
            (Call::Collect, Reply::CollectedHandle { buffer, strength }) => {
                self.push(Held::Handle { buffer, strength })
            }
            (
                Call::Take(_),
                Reply::Taken {
                    collection,
                    strength,
                    set,
                },
            ) => self.push_handles(collection, strength, set),
            (Call::DupHandle(buffer, strength), Reply::Done) => {
                self.push(Held::Handle { buffer, strength })
            }
            (Call::Bind(_), Reply::Done) => match on {
                Some(Held::Token { key, collection }) => {
                    self.push(Held::Collection { key, collection })
                }
                _ => Ok(()),
            },
            _ => Ok(()),
        }
    }

    /// Takes in the reply to the step's call: a new label, objects that were spent, and objects
    /// that came. A reply with none of these changes nothing. Where memory is refused the table is
    /// of no more use.
    ///
    /// Costs a constant number of look-ups for each object that came or was spent.
    pub fn note_reply(
        &mut self,
        step: Step,
        asked: &StepCall,
        reply: &Reply,
    ) -> Result<(), AllocError>
        ensures known { OnOk result
            (known self.new ≡ state_after (known self.old) step asked.now reply.now) }
        ensures objects { OnOk result ((known self.new).objects
            ≡ objects_after (known self.old).objects asked.now reply.now) }
    {
        let on = self.on(asked.slot);
        let same = step;
        self.label_node(step, reply)?;
        self.label_tracker(same, reply)?;
        self.remove_spent(asked, reply)?;
        self.add_new_objects(on, &asked.call, reply)?;
        Ok(())
    }
}
