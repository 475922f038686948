//! What an event does to a collection.
ghost use Rattle.std.specs.Prelude.{◌≡◌, ℕ, IfOk, IfSome, OnErr, Some, if◌then◌else◌, is_some, true, None, option_copied};
ghost use Rattle.sm_names.specs.declared.keys.NodeKey.{NodeKey as Key};
ghost use Rattle.sm_names.specs.Answers.{answer as answer_of};
ghost use Rattle.sm_names.specs.Timelines.{key_of as key_in};
ghost use Rattle.buffer_holds.specs.Counts.{total};
ghost use Rattle.forest_store.specs.Forest.{IsPoolOf, SameKeys, all_held, node_at, without_unkept_in};
ghost use Rattle.forest_store.specs.Settling.{no_key};
ghost use Rattle.core_state.specs.Reads.{node_named, readings_of};
ghost use Rattle.core_state.specs.Steps.{at_node as change_at, birth_by, done_to, drop_at};
ghost use Rattle.core_state.specs.Steps.{work_of, with_place, without_unkept};
ghost use Rattle.core_state.specs.Tasks.{AsksOnly, OthersStay};
ghost use Rattle.core_state.specs.Tasks.{DoesSome, MayDo, Reworked, SpendsThere};
ghost use Rattle.core_state.specs.Tasks.{end_placed, spent_by, spent_in, spent_place, work_in};
ghost use Rattle.core_state.specs.Whole.{CanCarry, CanFinish};

use crate::machine::Core;
use alloc_event::effects::effect_of;
use alloc_event::{Change, End, Forest, Node};
use buffer_holds::Holds;
use buffer_pool::Pool;
use core_state::task::{EndPlace, EventTask};
use sm_names::{
    BufferName, Call, Cause, ClientId, CollectionId, NoMemory, NodeKey, Reply, Strength,
};

// The birth of a node.
#[inline(always)]
fn birth(core: &Core, client: ClientId, call: &Call, collection: CollectionId) -> Option<EventTask>
    ensures work { work_in result ≡ birth_by core.now client call.now collection }
    ensures spends { (key : Key) → spent_in result
        ≡ spent_by call.now (Reply.Token key collection) }
    ensures there { IfSome result (SpendsThere core.now.forest) }
    ensures some { IfSome result DoesSome }
{
    let (parent, attached) = match *call {
        Call::OpenRoot => (None, false),
        Call::Duplicate(above) => (Some(above), false),
        Call::AttachToken(above) => (Some(above), true),
        _ => {
            return None;
        }
    };
    Some(EventTask {
        collection,
        change: Some(Change::Birth {
            parent,
            attached,
            client,
            event: core.next_event(),
        }),
        spends: None,
    })
}

// What a dropped handle does to the collection of its buffer: nothing if another handle of this buffer
// and strength stays open; otherwise the buffer may be home.
#[inline(always)]
fn dropped(core: &Core, buffer: BufferName, strength: Strength) -> Option<EventTask>
    ensures work { work_in result ≡ drop_at core.now buffer strength }
    ensures spends { spent_in result ≡ None }
    ensures there { IfSome result (SpendsThere core.now.forest) }
    ensures some { IfSome result DoesSome }
{
    if 2 <= core.open_total(buffer, strength) {
        return None;
    }
    if !core.has_collection(buffer.collection) {
        return None;
    }
    Some(EventTask {
        collection: buffer.collection,
        change: Some(Change::Nothing),
        spends: None,
    })
}

// The loss of the node with this key, unless the node is gone, and the spending of its end.
#[inline(always)]
fn closing(key: NodeKey, node: &Node) -> EventTask
    ensures { result ≡ record {
      collection = node.now.collection;
      change = if node.now.gone then None else Some (Change.Loss key Cause.Lost);
      spends = Some key;
    } }
{
    let change = if node.gone {
        None
    } else {
        Some(Change::Loss(key, Cause::Lost))
    };
    EventTask {
        collection: node.collection,
        change,
        spends: Some(key),
    }
}

// A call on a node that was answered Done.
#[inline(always)]
fn done_task(core: &Core, call: &Call, node: Option<&Node>) -> Option<EventTask>
    requires node { option_copied node ≡ node_named core.now call.now }
    requires there { IfSome (key_in call.now) (λ key.
        is_some (node_at core.now.forest key) ≡ true) }
    ensures work { work_in result ≡ done_to core.now call.now }
    ensures spends { spent_in result ≡ spent_by call.now Reply.Done }
    ensures there { IfSome result (SpendsThere core.now.forest) }
    ensures some { IfSome result DoesSome }
{
    if let Call::DropHandle(buffer, strength) = *call {
        return dropped(core, buffer, strength);
    }
    let node = node?;
    if let Call::Close(key) = *call {
        return Some(closing(key, node));
    }
    Some(EventTask {
        collection: node.collection,
        change: Some(effect_of(call, &Reply::Done)?),
        spends: match *call {
            Call::Release(key) => Some(key),
            _ => None,
        },
    })
}

// The change to the node's collection, if the node is there.
#[inline(always)]
fn at_node(core: &Core, key: NodeKey, node: Option<&Node>, change: Change) -> Option<EventTask>
    requires { option_copied node ≡ node_at core.now.forest key }
    ensures work { work_in result ≡ change_at core.now.forest key (λ n. change) }
    ensures spends { spent_in result ≡ None }
    ensures there { IfSome result (SpendsThere core.now.forest) }
    ensures some { IfSome result DoesSome }
{
    let node = node?;
    Some(EventTask {
        collection: node.collection,
        change: Some(change),
        spends: None,
    })
}

/// What a call with this reply does to a collection, if it does anything. `named` is the key of the node
/// that the call names, `node` this node, if it is kept.
#[inline(always)]
pub(crate) fn task_of(
    core: &Core,
    client: ClientId,
    call: &Call,
    reply: &Reply,
    named: Option<NodeKey>,
    node: Option<&Node>,
) -> Option<EventTask>
    requires key { key_in call.now ≡ named }
    requires node { option_copied node ≡ node_named core.now call.now }
    requires answered { reply.now
        ≡ answer_of core.now.limits (readings_of core.now) client no_key call.now }
    ensures work { work_in result ≡ work_of core.now client call.now reply.now }
    ensures spends { spent_in result ≡ spent_by call.now reply.now }
    ensures there { IfSome result (SpendsThere core.now.forest) }
    ensures some { IfSome result DoesSome }
{
    match (*call, *reply) {
        (_, Reply::Token { collection, .. }) => birth(core, client, call, collection),
        (_, Reply::Done) => done_task(core, call, node),
        (_, Reply::Misused(misuse)) => {
            let key = named?;
            at_node(core, key, node, Change::Loss(key, Cause::Misused(misuse)))
        }
        (Call::Take(key), Reply::Taken { .. }) | (Call::TrackNode(key), Reply::Tracker(_)) => {
            at_node(core, key, node, effect_of(call, reply)?)
        }
        (Call::Release(key), Reply::PeerClosed { .. }) => {
            let node = node?;
            Some(EventTask {
                collection: node.collection,
                change: None,
                spends: Some(key),
            })
        }
        _ => None,
    }
}

/// Makes the task's change, if it has one, with all that the change forces. After a dropped handle only
/// its own buffer can be home.
///
/// `NoMemory` if memory is refused; then the forest and the pool are as they were.
#[inline(always)]
pub(crate) fn make_change(
    forest: &mut Forest,
    pool: &mut Pool,
    holds: &Holds,
    task: &Option<EventTask>,
    call: &Call,
) -> Result<Option<NodeKey>, NoMemory>
    requires may { IfSome task.now (MayDo forest.old) }
    requires asks { AsksOnly call.now task.now }
    requires others { OthersStay (total holds.now) forest.old call.now task.now }
    requires pool { IsPoolOf pool.old forest.old }
    ensures work { IfOk result (λ key.
        Reworked pool.old.size (total holds.now) forest.old (work_in task.now) key forest.new) }
    ensures pool { IsPoolOf pool.new forest.new }
    ensures size { pool.new.size ≡ pool.old.size }
    ensures kept { OnErr result ((forest.new ≡ forest.old) × (pool.new ≡ pool.old)) }
    ensures why { OnErr result (is_some (work_in task.now) ≡ true) }
{
    let Some(
        EventTask {
            collection,
            change: Some(change),
            ..
        },
    ) = *task
    else {
        return Ok(None);
    };
    if let Call::DropHandle(buffer, _) = *call {
        forest.settle_drop(pool, holds, buffer)?;
        return Ok(None);
    }
    forest.settle(pool, holds, collection, change)
}

// Puts an end into its new place, if the event moves one.
#[inline(always)]
fn carry(forest: &mut Forest, carried: Option<EndPlace>)
    requires { CanCarry forest.old carried }
    ensures { forest.new ≡ with_place carried forest.old }
{
    if let Some(EndPlace { key, end }) = carried {
        forest.set_end(key, end);
    }
}

// Spends an end of the collection, if the event spends one, and removes the nodes that are then no longer
// kept.
#[inline(always)]
fn spend(forest: &mut Forest, end: Option<NodeKey>, collection: CollectionId)
    requires { IfSome end (λ key. is_some (node_at forest.old key) ≡ true) }
    ensures collections { forest.new.collections ≡ without_unkept_in collection
        (with_place (spent_place end) forest.old).collections }
    ensures keys { SameKeys forest.old forest.new }
{
    match end {
        Some(key) => forest.spend(key, collection),
        None => forest.forget_unkept(collection),
    }
}

/// Spends the end that the event spends, or puts an end into its new place, and removes the nodes that
/// are then no longer kept. Takes no memory. Costs what `forget_unkept` costs.
#[inline(always)]
pub(crate) fn put_end(forest: &mut Forest, task: &Option<EventTask>, carried: Option<EndPlace>)
    requires task { CanFinish forest.old task.now }
    requires carried { CanCarry forest.old carried }
    requires one { is_some task.now ≡ true → carried ≡ None }
    ensures collections { forest.new.collections
        ≡ without_unkept (with_place (end_placed task.now carried) forest.old).collections }
    ensures keys { SameKeys forest.old forest.new }
    ensures held { all_held forest.new ≡ all_held forest.old }
{
    let Some(task) = *task else {
        carry(forest, carried);
        return;
    };
    spend(forest, task.spends, task.collection);
}
