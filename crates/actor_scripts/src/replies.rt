//! What an actor reads in replies.
ghost use Rattle.std.specs.Prelude.{◌≡◌};
ghost use Rattle.actor_scripts.specs.ActorStates.{handle_of as handle_told, new_place as place_told, new_tracker as tracker_told, spends_by as spends_told, spends_object as is_spending};

use sm_names::{
    BufferName, Call, CollectionId, NodeKey, Reply, Spends, Strength, TrackerId, parts_of, row_of,
};

/// The node in the reply, and its collection.
pub(crate) fn new_place(reply: &Reply) -> Option<(NodeKey, CollectionId)>
    ensures { result ≡ place_told reply.now }
{
    match *reply {
        Reply::Token { key, collection } => Some((key, collection)),
        Reply::Collected {
            key,
            collection,
            ..
        } => Some((key, collection)),
        _ => None,
    }
}

/// The tracker in the reply.
pub(crate) fn new_tracker(reply: &Reply) -> Option<TrackerId>
    ensures { result ≡ tracker_told reply.now }
{
    match *reply {
        Reply::Tracker(id) => Some(id),
        _ => None,
    }
}

// Whether a call that spends so, answered so, spends what it is made on.
fn spends_by(spends: Spends, reply: &Reply) -> bool
    ensures { result ≡ spends_told spends reply.now }
{
    match (spends, *reply) {
        (Spends::IfDone | Spends::IfMet, Reply::Done) => true,
        (Spends::IfMet, Reply::PeerClosed { .. }) => true,
        _ => false,
    }
}

/// Whether the object on which the call was made is gone, as the table of calls says.
pub(crate) fn spends_object(call: &Call, reply: &Reply) -> bool
    ensures { result ≡ is_spending call.now reply.now }
{
    spends_by(row_of(parts_of(*call).kind).spends, reply)
}

/// The handle that the call lets go.
pub(crate) fn handle_of(call: &Call) -> Option<(BufferName, Strength)>
    ensures { result ≡ handle_told call.now }
{
    match *call {
        Call::DropHandle(buffer, strength) => Some((buffer, strength)),
        Call::GiveHandle(buffer, strength, _) => Some((buffer, strength)),
        _ => None,
    }
}
