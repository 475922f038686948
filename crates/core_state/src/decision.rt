//! What is decided of a call before anything changes.
ghost use Rattle.std.specs.Prelude.{◌≡◌};
ghost use Rattle.core_state.specs.Tasks.{changes_nothing as is_idle, with_key as keyed_by};

use crate::task::EventTask;
use sm_names::{Call, NodeKey, Reply};
use trackers::Waiting;

/// What a core decides of a call before anything changes: the answer, except for the key of a new
/// node, the task that the call brings, and the tracker that it attaches.
#[derive(Clone, Copy)]
pub struct Decision {
    pub reply: Reply,
    pub task: Option<EventTask>,
    pub tracking: Option<Waiting>,
}

/// Whether the call, answered so, changes nothing: it was refused, or only asks.
#[inline(always)]
pub fn changes_nothing(call: &Call, reply: &Reply) -> bool
    ensures { result ≡ is_idle call.now reply.now }
{
    match *reply {
        Reply::Done => matches!(*call, Call::Sync(_)),
        Reply::Empty | Reply::Pending | Reply::Allocated { .. } | Reply::Refused(_) => true,
        Reply::PeerClosed { .. } => !matches!(*call, Call::Release(_)),
        Reply::Joined(_)
        | Reply::Shut(_)
        | Reply::Token { .. }
        | Reply::Collected { .. }
        | Reply::CollectedHandle { .. }
        | Reply::Taken { .. }
        | Reply::Tracker(_)
        | Reply::Misused(_) => false,
    }
}

/// The reply, where a new node got this key.
#[inline(always)]
pub fn with_key(reply: Reply, new: Option<NodeKey>) -> Reply
    ensures { result ≡ keyed_by reply new }
{
    match (reply, new) {
        (Reply::Token { collection, .. }, Some(key)) => Reply::Token { key, collection },
        _ => reply,
    }
}
