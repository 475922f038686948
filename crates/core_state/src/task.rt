//! The tasks of events: what each changes of a collection, and where it puts an end.
ghost use Rattle.std.specs.Prelude.{◌≡◌};
ghost use Rattle.std.specs.Option.{option_map};
ghost use Rattle.core_state.specs.Steps.{Work};
ghost use Rattle.core_state.specs.Tasks.{carried_by, work_in};

use forest_store::{Change, End};
use sm_names::{Call, ClientId, CollectionId, NodeKey, Reply};

/// A change to a collection, if there is one, and the end that is spent after it, if one is.
#[derive(Clone, Copy)]
pub struct EventTask {
    pub collection: CollectionId,
    pub change: Option<Change>,
    pub spends: Option<NodeKey>,
}

/// Where the end of the node with this key is put.
#[derive(Clone, Copy)]
pub struct EndPlace {
    pub key: NodeKey,
    pub end: End,
}

/// The end that a Give or a Collect, answered so, carries.
#[inline(always)]
pub fn carried_end(client: ClientId, call: &Call, reply: &Reply) -> Option<EndPlace>
    ensures { result ≡ carried_by client call.now reply.now }
{
    match (*call, *reply) {
        (Call::Give(key, _), Reply::Done) => Some(EndPlace {
            key,
            end: End::InTransit(client),
        }),
        (Call::Collect, Reply::Collected { key, .. }) => Some(EndPlace {
            key,
            end: End::Held(client),
        }),
        _ => None,
    }
}

/// The collection to which the task makes a change, if it makes one.
#[inline(always)]
pub fn changed_by(task: &Option<EventTask>) -> Option<CollectionId>
    ensures { result ≡ option_map (λ (w : Work). w.collection) (work_in task.now) }
{
    match *task {
        Some(
            EventTask {
                collection,
                change: Some(_),
                ..
            },
        ) => Some(collection),
        _ => None,
    }
}

/// The change that the task makes, and the collection to which it makes it, if it makes one.
pub fn change_in(task: Option<EventTask>) -> Option<(CollectionId, Change)>
    ensures { result ≡ option_map (λ (w : Work). (w.collection, w.change)) (work_in task) }
{
    let task = task?;
    Some((task.collection, task.change?))
}
