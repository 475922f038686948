//! One event: a call, its reply, and its marks.
ghost use Rattle.std.specs.Prelude.{◌≡◌, ◌≤◌, Err, IfErr, IfOk, IfSome, Ok, drop, length, map};
ghost use Rattle.std.specs.List.{list_any};
ghost use Rattle.std.specs.Option.{option_and_then, option_map};
ghost use Rattle.sm_names.specs.Answers.{IsAnswer};
ghost use Rattle.sm_names.specs.declared.messages.Reply.{Reply as Answer};
ghost use Rattle.forest_store.specs.declared.snapshot.Snapshot.{Snapshot as Copy};
ghost use Rattle.core_state.specs.Reads.{readings_of};
ghost use Rattle.core_state.specs.Theorem.{Stepped};
ghost use Rattle.forced_marks.specs.Marks.{AreStages};
ghost use Rattle.forced_marks.specs.Moments.{stage_of};
ghost use Rattle.event_facts.specs.Events.{IsSnapshot, IsCopiedAfter, IsSetOf, concerned_by, given_in, has_left, snapshot_held, is_doomed_in, is_newly_doomed, snapshot_nodes, scene_after, some_left_in};

use crate::before::{Before, look};
use crate::marked_steps::step_with_marks;
use crate::pages::{doomed_of, without};
use forced_marks::Moment;
use forest_store::{Node, Snapshot};
use lifetime_core::Core;
use sm_names::{Buffers, Call, ClientId, Fired, HeldBuffer, NoMemory, Reply, StepFault};
use std::alloc::Global;

/// A call and its reply, and what it did to the collection that it concerns, if it concerns one.
#[derive(Drop)]
pub struct Event {
    pub call: Call,
    pub reply: Reply,
    /// The collection before the event, if that drops a handle or may force something.
    pub before: Option<Before>,
    /// The marks that the event made, in order, each with the collection before it.
    pub moments: Vec<Moment>,
    /// The collection after the event, if it is kept.
    pub after: Option<Snapshot>,
    /// How many trackers had fired before.
    pub fired: usize,
}

/// Makes the call, as `Core::step` does, and answers its event: the reply, the marks, and the
/// collection before and after.
///
/// `HistoryFull` exactly if as many events were made as may be: nothing was done. `NoMemory` where memory was
/// refused: then the call may have been made. Costs what `step_with_marks` costs, and two copies of the
/// collection that the event concerns, if it concerns one.
pub fn take_event(
    alloc: Global,
    core: &mut Core,
    client: ClientId,
    call: Call,
) -> Result<Event, StepFault>
    ensures call { IfOk result (λ event. event.call ≡ call) }
    ensures stepped { IfOk result (λ event. Stepped core.old core.new client call
        (Ok event.reply)) }
    ensures stages { IfOk result (λ event.
        AreStages core.old core.new client call event.reply (map stage_of event.moments.items)) }
    // The copies are of the one collection that the event concerns.
    ensures before { IfOk result (λ event.
        IsSnapshot core.old (concerned_by core.old client call event.reply) event.before) }
    ensures doomed { IfOk result (λ event. IfSome event.before (λ b. IsSetOf
        (is_doomed_in core.old.holds b.copied.id b.copied.nodes.items b.copied.buffers) b.doomed)) }
    ensures after { IfOk result (λ event. IsCopiedAfter core.new event.before event.after) }
    ensures fired { IfOk result (λ event. event.fired ≡ length core.old.trackers.fired) }
    ensures err { IfErr result (λ fault. fault ≡ StepFault.HistoryFull →
        core.old.limits.events ≤ core.old.events) }
    ensures full { core.old.limits.events ≤ core.old.events →
        result ≡ Err StepFault.HistoryFull }
    ensures same { result ≡ Err StepFault.HistoryFull → core.new ≡ core.old }
{
    if core.remaining() == 0 {
        return Err(StepFault::HistoryFull);
    }
    let fired = core.fired().len();
    let before = before_of(core, client, &call)?;
    let told = step_with_marks(core, alloc, client, call)?;
    let reply = told.reply;
    let Some(moments) = told.moments else {
        return Err(StepFault::NoMemory);
    };
    let after = after_of(core, &before)?;
    Ok(Event {
        call,
        reply,
        before,
        moments,
        after,
        fired,
    })
}

// The collection that the call concerns, as it stands.
fn before_of(core: &Core, client: ClientId, call: &Call) -> Result<Option<Before>, StepFault>
    ensures copied { IfOk result (λ before. (reply : Answer) →
        IsAnswer core.now.limits (readings_of core.now) client call.now reply →
        IsSnapshot core.now (concerned_by core.now client call.now reply) before) }
    ensures doomed { IfOk result (λ before. IfSome before (λ b. IsSetOf
        (is_doomed_in core.now.holds b.copied.id b.copied.nodes.items b.copied.buffers) b.doomed)) }
    ensures fault { IfErr result (λ fault. fault ≡ StepFault.NoMemory) }
{
    match look(core, client, call) {
        Ok(before) => Ok(before),
        Err(NoMemory) => Err(StepFault::NoMemory),
    }
}

// The same collection, as it stands now.
fn after_of(core: &Core, before: &Option<Before>) -> Result<Option<Snapshot>, StepFault>
    ensures copied { IfOk result (λ after. IsCopiedAfter core.now before.now after) }
    ensures fault { IfErr result (λ fault. fault ≡ StepFault.NoMemory) }
{
    match before {
        Some(before) => match core.collection(before.copied.id) {
            Ok(after) => Ok(after),
            Err(NoMemory) => Err(StepFault::NoMemory),
        },
        None => Ok(None),
    }
}

/// The trackers that fired since this many had, by event and then by id. Costs O(1).
pub fn fired_since(core: &Core, before: usize) -> &[Fired]
    ensures { result.now ≡ drop before core.now.trackers.fired }
{
    let fired = core.fired();
    if before <= fired.len() {
        &fired[before..]
    } else {
        &[]
    }
}

impl Event {
    /// What the collection has been given by now, if it was given buffers. Costs O(1).
    pub fn given(&self) -> Option<Buffers>
        ensures { result ≡ given_in self.now.after self.now.before }
    {
        match (&self.after, &self.before) {
            (Some(after), _) => after.buffers,
            (None, Some(before)) => before.copied.buffers,
            (None, None) => None,
        }
    }

    /// The buffers of the collection that nothing strong keeps since the event, as a set. Costs what
    /// `doomed_of` costs.
    pub fn newly_doomed(&self, core: &Core) -> u64
        ensures { IsSetOf (is_newly_doomed core.now.holds self.now.after self.now.before) result }
    {
        match &self.before {
            Some(before) => {
                let doomed = doomed_of(core, before.copied.id, self.nodes_after(), self.given());
                without(doomed, before.doomed)
            }
            None => 0,
        }
    }

    // The kept nodes of the collection after the event.
    fn nodes_after(&self) -> &[Node]
        ensures { result.now ≡ snapshot_nodes self.now.after }
    {
        match &self.after {
            Some(after) => &after.nodes,
            None => &[],
        }
    }

    /// The collection's buffers with pages after the event. Costs O(1).
    pub fn held_after(&self) -> &[HeldBuffer]
        ensures { result.now ≡ snapshot_held self.now.after }
    {
        match &self.after {
            Some(after) => &after.held,
            None => &[],
        }
    }

    /// Whether a node of the collection was live before the event and is not any more. Costs a look-up
    /// for each node.
    pub fn some_left(&self, core: &Core) -> bool
        ensures { result ≡ some_left_in core.now self.now.before }
    {
        match &self.before {
            Some(before) => some_of(core, &before.copied.nodes),
            None => false,
        }
    }
}

// Whether one of the nodes was live when it was copied, and is not any more.
fn some_of(core: &Core, nodes: &[Node]) -> bool
    ensures { result ≡ list_any (has_left core.now) nodes.now }
{
    nodes.iter().any(|node| left(core, node))
}

// Whether the node was live when it was copied, and is not any more.
fn left(core: &Core, node: &Node) -> bool
    ensures { result ≡ has_left core.now node.now }
{
    !(node.gone || node.released) && !core.is_live(node.key)
}

/// The collection's buffers with their pages after a mark, where these moments follow it. Costs
/// O(1).
pub fn placed_by<'a>(later: &'a [Moment], event: &'a Event) -> Option<(Buffers, &'a [HeldBuffer])>
    ensures buffers { option_map (λ placed. placed.0) result
        ≡ option_and_then (λ (s : Copy). s.buffers) (scene_after later.now event.now.after) }
    ensures held { IfSome result (λ placed. placed.1.now
        ≡ snapshot_held (scene_after later.now event.now.after)) }
{
    match (later.first(), &event.after) {
        (Some(next), _) => Some((next.before.buffers?, &next.before.held)),
        (None, Some(after)) => Some((after.buffers?, &after.held)),
        (None, None) => None,
    }
}
