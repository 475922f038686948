//! The effects of calls, and what they change of the nodes.
ghost use Rattle.std.specs.Prelude.{◌≡◌, true};
ghost use Rattle.std.specs.Option.{option_map};
ghost use Rattle.forest_store.specs.declared.change.Change.{Change as Changed};
ghost use Rattle.forest_store.specs.Effects.{effect_of as effect_in, if_done as where_done};
ghost use Rattle.forest_store.specs.Nodes.{affected};
ghost use Rattle.forest_store.specs.Scenes.{has_tracker_room};

use crate::change::{Change, Effect};
use crate::node::Node;
use sm_names::{Call, NodeKey, Reply};

// The effect on the node, where the call was answered Done.
#[inline(always)]
fn if_done(reply: &Reply, key: NodeKey, effect: Effect) -> Option<Change>
    ensures { result ≡ option_map (λ e. Changed.Effect e.0 e.1) (where_done reply.now key effect) }
{
    match *reply {
        Reply::Done => Some(Change::Effect(key, effect)),
        _ => None,
    }
}

/// The effect of the call on the node that it names, if the call with this reply has one. The match
/// names each call, without a catch-all. Takes O(1).
#[inline(always)]
pub fn effect_of(call: &Call, reply: &Reply) -> Option<Change>
    ensures { result ≡ option_map (λ e. Changed.Effect e.0 e.1) (effect_in call.now reply.now) }
{
    match *call {
        Call::Bind(key) => if_done(reply, key, Effect::Bound),
        Call::SetDispensable(key) => if_done(reply, key, Effect::Dispensable),
        Call::SetWeak(key) => if_done(reply, key, Effect::Weak),
        Call::SetWeakOk(key, children) => if_done(reply, key, Effect::WeakOk(children)),
        Call::SetConstraints(key, constraints) => {
            if_done(reply, key, Effect::Constrained(constraints))
        }
        Call::Release(key) => if_done(reply, key, Effect::Released),
        Call::Take(key) => match *reply {
            Reply::Taken { .. } => Some(Change::Effect(key, Effect::Taken)),
            _ => None,
        },
        Call::TrackNode(key) => match *reply {
            Reply::Tracker(_) => Some(Change::Effect(key, Effect::Tracked)),
            _ => None,
        },
        Call::Join
        | Call::Shut
        | Call::OpenRoot
        | Call::Duplicate(_)
        | Call::AttachToken(_)
        | Call::Sync(_)
        | Call::Give(_, _)
        | Call::Collect
        | Call::Check(_)
        | Call::Close(_)
        | Call::DupHandle(_, _)
        | Call::DropHandle(_, _)
        | Call::GiveHandle(_, _, _)
        | Call::TrackLifetime(_, _)
        | Call::TrackWeak(_) => None,
    }
}

/// The same on one node.
#[inline(always)]
pub fn affect_one(node: &mut Node, key: NodeKey, effect: &Effect)
    requires { has_tracker_room key effect.now node.old ≡ true }
    ensures { node.new ≡ affected key effect.now node.old }
{
    if key != node.key {
        return;
    }
    match *effect {
        Effect::Bound => node.bound = true,
        Effect::Dispensable => node.dispensable = true,
        Effect::Weak => {
            node.weak = true;
            node.weak_ok = true;
        }
        Effect::WeakOk(children) => {
            node.weak_ok = true;
            node.covers = children || node.covers;
        }
        Effect::Constrained(constraints) => node.constraints = Some(constraints),
        Effect::Taken => node.took = true,
        Effect::Released => node.released = true,
        Effect::Tracked => node.trackers += 1,
    }
}
