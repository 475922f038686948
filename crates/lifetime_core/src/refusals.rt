//! The order of answers: the first line that has an answer answers the call. If none has, the call takes
//! effect.
ghost use Rattle.std.specs.Prelude.{◌≡◌, ◌∷◌, [], false};
ghost use Rattle.std.specs.Prelude.{IfSome, option_copied};
ghost use Rattle.std.specs.Option.{option_and_then, option_map, option_or};
ghost use Rattle.sm_names.specs.declared.outcomes.Refusal.{Refusal as Refused};
ghost use Rattle.sm_names.specs.Answers.{answers_first, closing};
ghost use Rattle.sm_names.specs.Answers.{unknown_client, shut_client, no_end, end_named};
ghost use Rattle.sm_names.specs.Answers.{end_in_transit, peer_closed, wrong_kind};
ghost use Rattle.sm_names.specs.Answers.{misuse as misuse_in, no_handle};
ghost use Rattle.sm_names.specs.Words.{first_some};
ghost use Rattle.forest_store.specs.Nodes.{is_spent};
ghost use Rattle.core_state.specs.Lines.{limits_of};
ghost use Rattle.core_state.specs.Reads.{end_in, open_end_of, readings_of};
ghost use Rattle.core_state.specs.Traits.{Describes, key_in, too_many_on};

use crate::machine::Core;
use crate::opening::{is_one_full, strength_of};
use alloc_event::Node;
use core_state::end_answers::answer_of_end;
use core_state::traits::{Named, Traits, is_acquired};
use sm_names::{Call, ClientId, Product, Refusal, Reply};

// ---- the clients

// The refusal of the call because of its clients, if there is one. Only client 0 makes a Join. Any other call is
// made by a client that joined, and a gift is to such a client. Nothing is given to a shut client, and it
// acquires nothing. Each client is looked up once.
#[inline(always)]
fn refusal_of_clients(
    core: &Core,
    client: ClientId,
    call: &Call,
    traits: &Traits,
) -> Option<Refusal>
    requires { Describes call.now traits.now }
    ensures { option_map (λ (r : Refused). Reply.Refused r) result
        ≡ option_or (unknown_client (readings_of core.now) client call.now)
        (shut_client (readings_of core.now) client call.now) }
{
    let caller = match *call {
        Call::Join if client == 0 => Some(false),
        Call::Join => None,
        _ => core.standing_of(client),
    };
    let receiver = match traits.to {
        Some(to) => core.standing_of(to),
        None => Some(false),
    };
    let (Some(is_shut), Some(is_receiver_shut)) = (caller, receiver) else {
        return Some(Refusal::NoSuchClient);
    };
    if is_acquired(traits.makes) && is_shut || is_receiver_shut {
        Some(Refusal::ClientShut)
    } else {
        None
    }
}

// ---- what is named

// The answer because of the end or the handle that the call names, if there is one.
#[inline(always)]
fn answer_of_named(
    core: &Core,
    client: ClientId,
    call: &Call,
    traits: &Traits,
    node: Option<&Node>,
) -> Option<Reply>
    requires law { Describes call.now traits.now }
    requires end { end_named (readings_of core.now) call.now
        ≡ option_map (open_end_of core.now) (option_copied node) }
    requires unspent { IfSome node (λ n. is_spent n.now.end ≡ false) }
    ensures { let r = readings_of core.now in result ≡ first_some (
        no_end r client call.now
        ∷ end_in_transit r call.now
        ∷ closing call.now
        ∷ peer_closed r call.now
        ∷ wrong_kind r call.now
        ∷ misuse_in r call.now
        ∷ no_handle r client call.now
        ∷ []) }
{
    match traits.on {
        Named::Nothing => None,
        Named::End(_) => match node {
            Some(node) => answer_of_end(client, node, call, traits),
            None => Some(Reply::Refused(Refusal::NoSuchEnd)),
        },
        Named::Handle(buffer, strength) => {
            if core.open_of(client, buffer, strength) == 0 {
                Some(Reply::Refused(Refusal::NoSuchHandle))
            } else {
                None
            }
        }
    }
}

// ---- the limits

// Whether the call would open too many handles.
#[inline(always)]
fn opens_too_many(core: &Core, on: Named, node: Option<&Node>) -> bool
    requires { option_and_then (end_in core.now) (key_in on)
        ≡ option_map (open_end_of core.now) (option_copied node) }
    ensures { result ≡ too_many_on core.now.limits (readings_of core.now) on }
{
    match on {
        Named::Nothing => false,
        Named::End(_) => match node {
            Some(node) => {
                node.allocated && is_one_full(core, node.collection, strength_of(node.weak))
            }
            None => false,
        },
        Named::Handle(buffer, strength) => { core.has_all_handles(buffer, strength) }
    }
}

// The limit of nodes, collections, trackers or handles that the call meets, if it meets one.
#[inline(always)]
fn limit_met(core: &Core, traits: &Traits, node: Option<&Node>) -> Option<Reply>
    requires { option_and_then (end_in core.now) (key_in traits.now.on)
        ≡ option_map (open_end_of core.now) (option_copied node) }
    ensures { result
        ≡ first_some (limits_of core.now.limits (readings_of core.now) traits.now) }
{
    let refusal = match traits.makes {
        Product::Collection | Product::Node if core.has_all_nodes() => Refusal::TooManyNodes,
        Product::Collection if core.has_all_collections() => Refusal::TooManyCollections,
        Product::Tracker if core.has_all_trackers() => Refusal::TrackersFull,
        Product::Handles if opens_too_many(core, traits.on, node) => Refusal::TooManyHandles,
        _ => {
            return None;
        }
    };
    Some(Reply::Refused(refusal))
}

/// The first answer that precedes the effect, if there is one. The limits are tested last, since this
/// test costs a walk over the buffers of a Take.
#[inline(always)]
pub(crate) fn first_answer(
    core: &Core,
    client: ClientId,
    call: &Call,
    traits: &Traits,
    node: Option<&Node>,
) -> Option<Reply>
    requires law { Describes call.now traits.now }
    requires end { end_named (readings_of core.now) call.now
        ≡ option_map (open_end_of core.now) (option_copied node) }
    requires unspent { IfSome node (λ n. is_spent n.now.end ≡ false) }
    ensures { result ≡ first_some (
        answers_first core.now.limits (readings_of core.now) client call.now) }
{
    if let Some(refusal) = refusal_of_clients(core, client, call, traits) {
        return Some(Reply::Refused(refusal));
    }
    match answer_of_named(core, client, call, traits, node) {
        Some(reply) => Some(reply),
        None => limit_met(core, traits, node),
    }
}
