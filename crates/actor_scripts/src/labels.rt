//! Lines as steps, in which labels are numbers.
ghost use Rattle.std.specs.Prelude.{◌≡◌, ◌+◌, ◌^◌, ◌<◌, ◌≤◌, [], ◌∷◌, ◌++◌, length, IfErr, IfOk, MatchResult, OnOk, Some};
ghost use Rattle.actor_scripts.specs.declared.step.Step.{Step};
ghost use Rattle.actor_scripts.specs.ActorLists.{steps_of, Halts};
ghost use Rattle.actor_scripts.specs.Steps.{argument_placed, binds_naming, binds_numbered, client_place, label_number, naming, object_naming, object_numbered, request_numbered, step_of};

use crate::halt::Halt;
use crate::{ActorScript, Step, StepBuffer};
use indexmap::IndexSet;
use script_lines::{BufferLabel, Label, LabelHash, Line, Request};
use sm_names::{Argument, Object};

// The number of the label of this actor, which is named now.
fn number(
    named: &mut IndexSet<(u32, Label), LabelHash>,
    actor: u32,
    label: Label,
) -> Result<u32, Halt>
    requires { length named.old.keys + 1 < 2 ^ 32 }
    ensures number { IfOk result (λ n. n ≡ label_number named.old.keys (actor, label)) }
    ensures named { OnOk result (named.new.keys ≡ naming named.old.keys (actor, label)) }
    ensures few { OnOk result (length named.new.keys ≤ length named.old.keys + 1) }
    ensures err { IfErr result (λ halt. halt ≡ Halt.NoMemory) }
{
    match named.insert_full((actor, label)) {
        Ok((place, _)) => Ok(place as u32),
        Err(_) => Err(Halt::NoMemory),
    }
}

// The place of the client of this label.
pub(crate) fn place(clients: &IndexSet<Label, LabelHash>, label: Label) -> Result<u32, Halt>
    requires { length clients.now.keys < 2 ^ 32 }
    ensures within { IfOk result (λ place. place < length clients.now.keys) }
    ensures place { MatchResult result (λ place. client_place clients.now.keys label ≡ Some place)
        (Halts (client_place clients.now.keys label)) }
{
    match clients.get_index_of(&label) {
        Some(place) => Ok(place as u32),
        None => Err(Halt::BadLine),
    }
}

// What a call is made on, whose label is named now.
fn object(
    named: &mut IndexSet<(u32, Label), LabelHash>,
    actor: u32,
    object: Object<Label, BufferLabel>,
) -> Result<Object<u32, StepBuffer>, Halt>
    requires { length named.old.keys + 1 < 2 ^ 32 }
    ensures object { IfOk result (λ o. o ≡ object_numbered named.old.keys actor object) }
    ensures named { OnOk result (named.new.keys ≡ object_naming named.old.keys actor object) }
    ensures few { OnOk result (length named.new.keys ≤ length named.old.keys + 1) }
    ensures err { IfErr result (λ halt. halt ≡ Halt.NoMemory) }
{
    match object {
        Object::Nothing => Ok(Object::Nothing),
        Object::Node(node) => Ok(Object::Node(number(named, actor, node)?)),
        Object::Buffer(buffer) => Ok(Object::Buffer(StepBuffer {
            node: number(named, actor, buffer.node)?,
            index: buffer.index,
        })),
    }
}

// What else the call says.
fn argument(
    clients: &IndexSet<Label, LabelHash>,
    argument: Argument<Label>,
) -> Result<Argument<u32>, Halt>
    requires { length clients.now.keys < 2 ^ 32 }
    ensures { MatchResult result (λ a. argument_placed clients.now.keys argument ≡ Some a)
        (Halts (argument_placed clients.now.keys argument)) }
{
    match argument {
        Argument::Nothing => Ok(Argument::Nothing),
        Argument::Client(to) => Ok(Argument::Client(place(clients, to)?)),
        Argument::Children(children) => Ok(Argument::Children(children)),
        Argument::Constraints(constraints) => Ok(Argument::Constraints(constraints)),
        Argument::Most(most) => Ok(Argument::Most(most)),
        Argument::Strength(strength) => Ok(Argument::Strength(strength)),
        Argument::Gift(strength, to) => Ok(Argument::Gift(strength, place(clients, to)?)),
    }
}

// The label that the call binds, which is named now.
fn binds(
    named: &mut IndexSet<(u32, Label), LabelHash>,
    actor: u32,
    binds: Option<Label>,
) -> Result<Option<u32>, Halt>
    requires { length named.old.keys + 1 < 2 ^ 32 }
    ensures binds { IfOk result (λ b. b ≡ binds_numbered named.old.keys actor binds) }
    ensures named { OnOk result (named.new.keys ≡ binds_naming named.old.keys actor binds) }
    ensures few { OnOk result (length named.new.keys ≤ length named.old.keys + 1) }
    ensures err { IfErr result (λ halt. halt ≡ Halt.NoMemory) }
{
    match binds {
        None => Ok(None),
        Some(label) => Ok(Some(number(named, actor, label)?)),
    }
}

// What the actor asks.
fn request(
    clients: &IndexSet<Label, LabelHash>,
    named: &mut IndexSet<(u32, Label), LabelHash>,
    actor: u32,
    request: &Request<Label, BufferLabel>,
) -> Result<Request<u32, StepBuffer>, Halt>
    requires named { length named.old.keys + 2 < 2 ^ 32 }
    requires clients { length clients.now.keys < 2 ^ 32 }
    ensures says { MatchResult result
        (λ r. request_numbered clients.now.keys named.old.keys actor request.now
        ≡ Some (r, named.new.keys))
        (Halts (request_numbered clients.now.keys named.old.keys actor request.now)) }
    ensures few { OnOk result (length named.new.keys ≤ length named.old.keys + 2) }
{
    let object = object(named, actor, request.object)?;
    let argument = argument(clients, request.argument)?;
    let binds = binds(named, actor, request.binds)?;
    Ok(Request {
        kind: request.kind,
        object,
        argument,
        binds,
    })
}

// Puts the step that the line is for this actor behind the others.
pub(crate) fn add_step(
    clients: &IndexSet<Label, LabelHash>,
    named: &mut IndexSet<(u32, Label), LabelHash>,
    script: &mut ActorScript,
    actor: u32,
    line: Line,
) -> Result<(), Halt>
    requires named { length named.old.keys + 2 < 2 ^ 32 }
    requires clients { length clients.now.keys < 2 ^ 32 }
    ensures says { MatchResult result
        (λ _. (step : Step)
        × (step_of clients.now.keys named.old.keys actor line ≡ Some (step, named.new.keys))
        × (steps_of script.new ≡ steps_of script.old ++ step ∷ []))
        (Halts (step_of clients.now.keys named.old.keys actor line)) }
    ensures few { OnOk result (length named.new.keys ≤ length named.old.keys + 2) }
{
    let step = match line {
        Line::Nothing | Line::Join { .. } | Line::Show { .. } => return Err(Halt::BadLine),
        Line::Ask { request: said, .. } => Step::Ask {
            request: request(clients, named, actor, &said)?,
        },
        Line::Poll { tracker, .. } => Step::Poll {
            tracker: number(named, actor, tracker)?,
        },
    };
    match script.steps.push(step) {
        Ok(()) => Ok(()),
        Err(_) => Err(Halt::NoMemory),
    }
}
