//! The lines of calls.
ghost use Rattle.std.specs.Prelude.{◌≡◌, ◌∷◌, ◌++◌, OnOk, codes, decimal};
ghost use Rattle.script_lines.specs.Labels.{label_text};
ghost use Rattle.script_lines.specs.LineTexts.{demand_text};
ghost use Rattle.script_lines.specs.LineTexts.{strength_name as name_of_strength};
ghost use Rattle.script_labels.specs.Texts.{bound_text};
ghost use Rattle.script_labels.specs.Records.{RecorderNames, Scribe, scribe_argument_text, asker_text, call_text, client_text, new_text, scribe_object_text, parts_text};

use crate::act::Binds;
use crate::recorder::Recorder;
use crate::texts::{push_buffer, push_node};
use script_lines::{Label, push, push_label, push_number, strength_name};
use sm_names::{
    Argument, BufferName, Call, CallParts, ClientId, Constraints, NodeKey, Object, Product,
    Strength, parts_of, row_of, word_of,
};
use std::alloc::AllocError;

// Puts the label that a line binds behind it.
fn push_bound(text: &mut Vec<u8>, binds: Binds) -> Result<(), AllocError>
    ensures { OnOk result (text.new.items ≡ text.old.items ++ bound_text binds) }
{
    match binds {
        Binds::Nothing => Ok(()),
        Binds::Client(label) => push_label(text, Some(label)),
        Binds::Node(label) => push_label(text, Some(label)),
        Binds::Tracker(label) => push_label(text, Some(label)),
    }
}

// Puts the label that a line binds behind it, behind a space, if its call brings what has a label.
fn push_new(text: &mut Vec<u8>, product: Product, binds: Binds) -> Result<(), AllocError>
    ensures { OnOk result (text.new.items ≡ text.old.items ++ new_text product binds) }
{
    if !product.brings_end() && !product.is_tracker() {
        return Ok(());
    }
    push(text, " ")?;
    push_bound(text, binds)
}

// Puts a space and the client's label behind it.
fn push_client(text: &mut Vec<u8>, recorder: &Recorder, client: ClientId) -> Result<(), AllocError>
    ensures { OnOk result ((s : Scribe) → RecorderNames recorder.now s →
        text.new.items ≡ text.old.items ++ client_text s client) }
{
    push(text, " ")?;
    push_label(text, recorder.client(client))
}

// Puts a space and the strength behind it.
fn push_strength(text: &mut Vec<u8>, strength: Strength) -> Result<(), AllocError>
    ensures { OnOk result (text.new.items ≡ text.old.items ++ 32 ∷ name_of_strength strength) }
{
    push(text, " ")?;
    push(text, strength_name(strength))
}

// Puts the numbers of constraints behind it.
fn push_constraints(text: &mut Vec<u8>, constraints: Constraints) -> Result<(), AllocError>
    ensures { OnOk result (text.new.items ≡ text.old.items ++ demand_text constraints) }
{
    push(text, " ")?;
    push_number(text, constraints.camping() as u64)?;
    push(text, " ")?;
    push_number(text, constraints.at_least() as u64)?;
    push(text, " ")?;
    push_number(text, constraints.size() as u64)
}

// Puts what the call is made on behind it: a node or a buffer.
fn push_object(
    text: &mut Vec<u8>,
    recorder: &Recorder,
    object: Object<NodeKey, BufferName>,
) -> Result<(), AllocError>
    ensures { OnOk result ((s : Scribe) → RecorderNames recorder.now s →
        text.new.items ≡ text.old.items ++ scribe_object_text s object) }
{
    match object {
        Object::Nothing => Ok(()),
        Object::Node(node) => push_node(text, &recorder.tables, node),
        Object::Buffer(buffer) => push_buffer(text, &recorder.tables, buffer),
    }
}

// Puts what else the call says behind it.
fn push_argument(
    text: &mut Vec<u8>,
    recorder: &Recorder,
    argument: Argument<ClientId>,
) -> Result<(), AllocError>
    ensures { OnOk result ((s : Scribe) → RecorderNames recorder.now s →
        text.new.items ≡ text.old.items ++ scribe_argument_text s argument) }
{
    match argument {
        Argument::Nothing => Ok(()),
        Argument::Client(to) => push_client(text, recorder, to),
        Argument::Children(children) => push(text, if children { " children" } else { "" }),
        Argument::Constraints(constraints) => push_constraints(text, constraints),
        Argument::Most(most) => {
            push(text, " ")?;
            push_number(text, most as u64)
        }
        Argument::Strength(strength) => push_strength(text, strength),
        Argument::Gift(strength, to) => {
            push_strength(text, strength)?;
            push_client(text, recorder, to)
        }
    }
}

// Puts the words of the call behind it, and the label that its line binds.
fn push_parts(
    text: &mut Vec<u8>,
    recorder: &Recorder,
    binds: Binds,
    parts: &CallParts,
) -> Result<(), AllocError>
    ensures { OnOk result ((s : Scribe) → RecorderNames recorder.now s →
        text.new.items ≡ text.old.items ++ parts_text s binds parts.now) }
{
    push(text, " ")?;
    push(text, word_of(parts.kind))?;
    push_object(text, recorder, parts.object)?;
    push_argument(text, recorder, parts.argument)?;
    push_new(text, row_of(parts.kind).brings, binds)
}

// Puts the label of the client that calls behind it: that of a client that joins is bound by its line.
fn push_asker(
    text: &mut Vec<u8>,
    recorder: &Recorder,
    binds: Binds,
    client: ClientId,
    call: &Call,
) -> Result<(), AllocError>
    ensures { OnOk result ((s : Scribe) → RecorderNames recorder.now s →
        text.new.items ≡ text.old.items ++ asker_text s binds client call.now) }
{
    match *call {
        Call::Join => push_bound(text, binds),
        _ => push_label(text, recorder.client(client)),
    }
}

/// Appends the line of a call, without its end; a part of it where memory is refused.
pub(crate) fn push_call(
    text: &mut Vec<u8>,
    recorder: &Recorder,
    binds: Binds,
    client: ClientId,
    call: &Call,
) -> Result<(), AllocError>
    ensures { OnOk result ((s : Scribe) → RecorderNames recorder.now s →
        text.new.items ≡ text.old.items ++ call_text s binds client call.now) }
{
    push_asker(text, recorder, binds, client, call)?;
    push_parts(text, recorder, binds, &parts_of(*call))
}
