//! The calls that steps make on objects.
ghost use Rattle.std.specs.Prelude.{◌≡◌, slice_get};
ghost use Rattle.actor_scripts.specs.ActorStates.{argument_at as argument_told, argument_held as argument_of_handle, asked_strength as strength_told, bare_call as call_on_nothing, call_on as call_on_object, node_label as label_of_node, target_of as target_on, tracker_label as label_of_tracker};

use crate::object::ActorObject as Held;
use crate::step::{Step, StepBuffer};
use script_lines::Request;
use sm_names::{
    Argument, BufferName, Call, CallParts, ClientId, NodeKey, Object, Product, Strength, Target,
    call_of, row_of,
};

// The client of this label.
fn client_at(clients: &[ClientId], label: u32) -> Option<ClientId>
    ensures { result ≡ slice_get clients.now label }
{
    clients.get(label as usize).copied()
}

// What else the call says, by clients.
fn argument_at(clients: &[ClientId], argument: Argument<u32>) -> Option<Argument<ClientId>>
    ensures { result ≡ argument_told clients.now argument }
{
    match argument {
        Argument::Nothing => Some(Argument::Nothing),
        Argument::Client(to) => Some(Argument::Client(client_at(clients, to)?)),
        Argument::Children(children) => Some(Argument::Children(children)),
        Argument::Constraints(constraints) => Some(Argument::Constraints(constraints)),
        Argument::Most(most) => Some(Argument::Most(most)),
        Argument::Strength(strength) => Some(Argument::Strength(strength)),
        Argument::Gift(strength, to) => Some(Argument::Gift(strength, client_at(clients, to)?)),
    }
}

// The same of a handle: it has the strength that the handle has.
fn argument_held(object: Held, argument: Argument<ClientId>) -> Argument<ClientId>
    ensures { result ≡ argument_of_handle object argument }
{
    match object {
        Held::Handle { strength, .. } => match argument {
            Argument::Strength(_) => Argument::Strength(strength),
            Argument::Gift(_, to) => Argument::Gift(strength, to),
            other => other,
        },
        _ => argument,
    }
}

// What the object is for the call, if calls of the kind are made on such objects.
fn target_of(on: Target, object: Held) -> Option<Object<NodeKey, BufferName>>
    ensures { result ≡ target_on on object }
{
    match object {
        Held::Token { key, .. } => match on {
            Target::Token | Target::End => Some(Object::Node(key)),
            _ => None,
        },
        Held::Collection { key, .. } => match on {
            Target::Collection | Target::End => Some(Object::Node(key)),
            _ => None,
        },
        Held::Handle { buffer, .. } => match on {
            Target::Handle => Some(Object::Buffer(buffer)),
            _ => None,
        },
    }
}

/// The call that the step makes on the object, whatever label it binds.
pub(crate) fn call_on(
    clients: &[ClientId],
    request: &Request<u32, StepBuffer>,
    object: Held,
) -> Option<Call>
    ensures { result ≡ call_on_object clients.now request.now object }
{
    let target = target_of(row_of(request.kind).on, object)?;
    let argument = argument_at(clients, request.argument)?;
    call_of(CallParts {
        kind: request.kind,
        object: target,
        argument: argument_held(object, argument),
    })
}

/// The call that it makes on nothing: no actor joins.
pub(crate) fn bare_call(clients: &[ClientId], request: &Request<u32, StepBuffer>) -> Option<Call>
    ensures { result ≡ call_on_nothing clients.now request.now }
{
    if matches!(row_of(request.kind).brings, Product::Client) {
        return None;
    }
    let argument = argument_at(clients, request.argument)?;
    call_of(CallParts {
        kind: request.kind,
        object: Object::Nothing,
        argument,
    })
}

/// The strength of the handle that the step is for: it says so, or it is for a weak one.
pub(crate) fn asked_strength(argument: &Argument<u32>) -> Strength
    ensures { result ≡ strength_told argument.now }
{
    match *argument {
        Argument::Strength(strength) => strength,
        Argument::Gift(strength, _) => strength,
        _ => Strength::Weak,
    }
}

/// The label that the step binds to a node.
pub(crate) fn node_label(step: Step) -> Option<u32>
    ensures { result ≡ label_of_node step }
{
    match step {
        Step::Ask { request } => {
            if row_of(request.kind).brings.brings_end() {
                request.binds
            } else {
                None
            }
        }
        Step::Poll { .. } => None,
    }
}

/// The label that it binds to a tracker.
pub(crate) fn tracker_label(step: Step) -> Option<u32>
    ensures { result ≡ label_of_tracker step }
{
    match step {
        Step::Ask { request } => {
            if row_of(request.kind).brings.is_tracker() {
                request.binds
            } else {
                None
            }
        }
        Step::Poll { .. } => None,
    }
}
