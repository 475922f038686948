//! The answers that the end of a call determines.
ghost use Rattle.std.specs.Prelude.{◌≡◌, ◌∷◌, ◌&&◌, [], false, not, if◌then◌else◌};
ghost use Rattle.std.specs.Option.{option_map, option_map_or, option_or};
ghost use Rattle.sm_names.specs.declared.outcomes.Refusal.{Refusal as Refused};
ghost use Rattle.sm_names.specs.Answers.{closing, misuse_of};
ghost use Rattle.sm_names.specs.Sameness.{same_kind};
ghost use Rattle.sm_names.specs.Words.{first_some};
ghost use Rattle.forest_store.specs.Nodes.{is_spent};
ghost use Rattle.core_state.specs.Lines.{another_of, transit_of, peer_of, kind_line};
ghost use Rattle.core_state.specs.Reads.{open_end_of};
ghost use Rattle.core_state.specs.State.{State};
ghost use Rattle.core_state.specs.Traits.{Describes};

use crate::traits::Traits;
use forest_store::{End, Node};
use sm_names::{Call, ClientId, Kind, MAX_NODE_TRACKERS, Misuse, Refusal, Reply};

/// The kind of the node's end.
#[inline(always)]
pub fn kind_of(node: &Node) -> Kind
    ensures { result ≡ (if node.now.bound then Kind.Collection else Kind.Token) }
{
    if node.bound {
        Kind::Collection
    } else {
        Kind::Token
    }
}

// Why a call on the end is refused, if it is: another client holds it, or it is in a parcel.
#[inline(always)]
fn refusal_of_end(client: ClientId, end: End) -> Option<Refusal>
    requires { is_spent end ≡ false }
    ensures { option_map (λ (r : Refused). Reply.Refused r) result
        ≡ option_or (another_of client end) (transit_of end) }
{
    match end {
        End::InTransit(_) => Some(Refusal::InTransit),
        End::Held(holder) if holder == client => None,
        _ => Some(Refusal::NoSuchEnd),
    }
}

// Whether the call is for an end of the other kind.
#[inline(always)]
fn is_wrong_kind(node: &Node, kind: Option<Kind>) -> bool
    ensures { result ≡ option_map_or
        (λ k. not (same_kind (if node.now.bound then Kind.Collection else Kind.Token) k))
        kind false }
{
    match kind {
        Some(asked) => asked != kind_of(node),
        None => false,
    }
}

// The misuse of the end that the call is.
#[inline(always)]
fn misuse(node: &Node, call: &Call) -> Option<Reply>
    ensures { (s : State) → result ≡ misuse_of (open_end_of s node.now) call.now }
{
    let misuse = match *call {
        Call::SetConstraints(_, _) if node.constraints.is_some() => Misuse::SecondConstraints,
        Call::SetWeak(_) if node.constraints.is_some() => Misuse::LateWeak,
        Call::SetWeakOk(_, _) if node.took => Misuse::LateWeakOk,
        Call::Take(_) if node.weak && !node.weak_ok => Misuse::WeakNotOk,
        Call::TrackNode(_) if node.trackers >= MAX_NODE_TRACKERS => Misuse::TooManyNodeTrackers,
        _ => {
            return None;
        }
    };
    Some(Reply::Misused(misuse))
}

/// The answer that the end of this node, which is not spent, determines for a call with these traits, if
/// it determines one. In this order: by its holder; Done to each Close; cause and origin of a node that
/// failed; by the other kind; the misuse. Costs O(1).
#[inline(always)]
pub fn answer_of_end(client: ClientId, node: &Node, call: &Call, traits: &Traits) -> Option<Reply>
    requires law { Describes call.now traits.now }
    requires unspent { is_spent node.now.end ≡ false }
    ensures { (s : State) → result ≡ first_some (
        another_of client node.now.end
        ∷ transit_of node.now.end
        ∷ closing call.now
        ∷ peer_of node.now.fault
        ∷ kind_line node.now.bound call.now
        ∷ misuse_of (open_end_of s node.now) call.now
        ∷ []) }
{
    if let Some(refusal) = refusal_of_end(client, node.end) {
        return Some(Reply::Refused(refusal));
    }
    if let Call::Close(_) = *call {
        return Some(Reply::Done);
    }
    if let Some(fault) = node.fault {
        return Some(Reply::PeerClosed {
            cause: fault.cause,
            origin: fault.origin,
        });
    }
    if is_wrong_kind(node, traits.kind) {
        return Some(Reply::Refused(Refusal::WrongKind));
    }
    misuse(node, call)
}
