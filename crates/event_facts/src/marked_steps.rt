//! A call that is taken, with the marks of its event.
ghost use Rattle.std.specs.Prelude.{◌≡◌, ◌∷◌, List, [], None, map, true, IfOk, IfSome};
ghost use Rattle.std.specs.Option.{unwrap_or};
ghost use Rattle.sm_names.specs.Answers.{IsAnswer, new_key};
ghost use Rattle.sm_names.specs.declared.messages.Reply.{Reply};
ghost use Rattle.sm_names.specs.Marks.{Called, Entry};
ghost use Rattle.sm_names.specs.Timelines.{after, timeline};
ghost use Rattle.buffer_holds.specs.Counts.{total};
ghost use Rattle.forest_store.specs.Scenes.{IsSound};
ghost use Rattle.forest_store.specs.Settling.{changed, collection_or_new, no_key};
ghost use Rattle.forest_store.specs.Snapshots.{collection_of};
ghost use Rattle.core_state.specs.Reads.{readings_of};
ghost use Rattle.core_state.specs.Shown.{Shows};
ghost use Rattle.core_state.specs.Steps.{leaves_tracker_room, work_of};
ghost use Rattle.core_state.specs.Theorem.{Stepped};
ghost use Rattle.forced_marks.specs.Marks.{AreStages, StagesOf, laid_on};
ghost use Rattle.forced_marks.specs.Moments.{stage_of};
ghost use Rattle.forced_marks.specs.Steps.{mark_told};
ghost use Rattle.event_facts.specs.Walks.{IsStart, reply_of};

use forced_marks::moment::own_moment;
use forced_marks::own_change::{apply, forces_nothing};
use forced_marks::{Moment, settle};
use forest_store::{Change, Snapshot};
use lifetime_core::Core;
use sm_names::{Call, ClientId, CollectionId, Interval, NoMemory, NodeKey, Reply, StepFault};
use std::alloc::{AllocError, Global};

/// What a call was answered, and the marks of its event.
#[derive(Drop)]
pub struct Told {
    pub reply: Reply,
    /// The marks that the event made behind its own, in order: the loss that the call makes itself,
    /// and those that are forced. `None` where memory for them was refused.
    pub moments: Option<Vec<Moment>>,
}

/// Where the walk over an event starts: the collection that a call changes, and the pages of the
/// others, as they stand before it.
#[derive(Drop)]
pub(crate) struct Start {
    pub(crate) change: Change,
    pub(crate) scene: Snapshot,
    pub(crate) others: Vec<Interval>,
}

/// Makes the call, as `Core::step` does, and answers the marks of its event, each with the
/// collection before it.
///
/// Where memory for the marks is refused, the call is taken all the same, and they are `None`. A call
/// that changes no collection, or only makes a node or writes of one what no step reads, has none, and
/// costs what the step costs. Any other costs besides a copy of its collection, one more for each mark, a
/// walk over the kept collections, and for each mark what `settle` says.
pub fn step_with_marks(
    core: &mut Core,
    alloc: Global,
    client: ClientId,
    call: Call,
) -> Result<Told, StepFault>
    ensures stepped { Stepped core.old core.new client call (reply_of result) }
    ensures stages { IfOk result (λ told. IfSome told.moments (λ ms.
        AreStages core.old core.new client call told.reply (map stage_of ms.items))) }
    ensures shown { IfOk result (λ told. IfSome told.moments (λ ms. (history : List Entry) →
        Shows core.old history → let marks = timeline core.old.pool history in
        after core.old.pool marks (client, call, told.reply)
        ≡ laid_on (map (λ m. mark_told m.mark) ms.items) (Called client told.reply call ∷ marks))) }
{
    let before = copy_before(core, client, &call);
    let reply = core.step(client, call)?;
    let Ok(before) = before else {
        return Ok(Told {
            reply,
            moments: None,
        });
    };
    let Some(before) = before else {
        return Ok(Told {
            reply,
            moments: Some(Vec::new(alloc)),
        });
    };
    let moments = walk(core, alloc, before, &reply).ok();
    Ok(Told { reply, moments })
}

/// The collection that the call changes, if it changes one and that may force something, as it stands now.
fn copy_before(core: &Core, client: ClientId, call: &Call) -> Result<Option<Start>, NoMemory>
    ensures { IfOk result (λ before. (reply : Reply) →
        IsAnswer core.now.limits (readings_of core.now) client call.now reply →
        IsStart core.now (work_of core.now client call.now reply) before) }
{
    let Some((id, change)) = core.change_of(client, call) else {
        return Ok(None);
    };
    if forces_nothing(&change) {
        // Every core shows a history, so that its collections rest.
        let _events = core.events();
        return Ok(None);
    }
    let others = core.pages_beside(id)?;
    let scene = copy_or_empty(core, *others.allocator(), id)?;
    Ok(Some(Start {
        change,
        scene,
        others,
    }))
}

/// A copy of the collection, or an empty one if it is not there.
fn copy_or_empty(core: &Core, alloc: Global, id: CollectionId) -> Result<Snapshot, NoMemory>
    ensures value { IfOk result (λ scene.
        collection_of scene ≡ collection_or_new core.now.forest id) }
    ensures sound { IfOk result (λ scene. IsSound (collection_of scene)) }
{
    let Some(copied) = core.collection(id)? else {
        return Ok(empty(alloc, id));
    };
    Ok(copied)
}

/// A collection without nodes.
fn empty(alloc: Global, id: CollectionId) -> Snapshot
    ensures value { collection_of result
        ≡ record { id = id; nodes = []; buffers = None; held = [] } }
    ensures sound { IsSound (collection_of result) }
{
    Snapshot {
        id,
        nodes: Vec::new(alloc),
        buffers: None,
        held: Vec::new(alloc),
    }
}

/// Makes the change to the copy, and then the steps that it forces, and answers the moments.
fn walk(core: &Core, alloc: Global, before: Start, reply: &Reply) -> Result<Vec<Moment>, AllocError>
    requires room { leaves_tracker_room before.change before.scene.nodes.items ≡ true }
    requires sound { IsSound (changed before.change (unwrap_or (new_key reply.now) no_key)
        (collection_of before.scene)) }
    ensures { IfOk result (λ moments. StagesOf core.now.pool (total core.now.holds)
        before.others.items before.change (collection_of before.scene)
        (changed before.change (unwrap_or (new_key reply.now) no_key) (collection_of before.scene))
        (map stage_of moments.items)) }
{
    let Start {
        change,
        mut scene,
        others,
    } = before;
    let moments = own_moment(alloc, &change, &scene)?;
    apply(&mut scene, &change, key_told(reply))?;
    settle(&mut scene, core.holds(), core.pages(), &others, moments)
}

/// The key of the new node in the reply, or any.
fn key_told(reply: &Reply) -> NodeKey
    ensures { result ≡ unwrap_or (new_key reply.now) no_key }
{
    match *reply {
        Reply::Token { key, .. } => key,
        _ => NodeKey {
            slot: 0,
            generation: 0,
        },
    }
}
