//! Lines, as a script spells them.
ghost use Rattle.std.specs.Prelude.{◌≡◌, ◌∷◌, ◌++◌, OnOk, decimal};
ghost use Rattle.script_lines.specs.Labels.{text_of_label};
ghost use Rattle.script_lines.specs.LineTexts.{argument_text, binds_text, buffer_label_text, demand_text, line_text, object_text, request_text, strength_name as name_of_strength, view_name as name_of_view};

use crate::buffer_label::BufferLabel;
use crate::label::Label;
use crate::line::{Line, Query, Request};
use crate::spelling::{push, push_label, push_number};
use sm_names::{Argument, Constraints, Object, Strength, word_of};
use std::alloc::AllocError;

/// The name of the strength: `strong` or `weak`. Costs O(1).
pub fn strength_name(strength: Strength) -> &'static str
    ensures { result.now ≡ name_of_strength strength }
{
    match strength {
        Strength::Strong => "strong",
        Strength::Weak => "weak",
    }
}

/// Appends the line, without its end, as `read_line` reads it; a part of it where memory is
/// refused. Costs O(n) for n bytes of text.
pub fn push_line(text: &mut Vec<u8>, line: Line) -> Result<(), AllocError>
    ensures { OnOk result (text.new.items ≡ text.old.items ++ line_text line) }
{
    match line {
        Line::Nothing => Ok(()),
        Line::Join { client } => push_named(text, client, " join"),
        Line::Ask { client, request } => push_ask(text, client, &request),
        Line::Poll { client, tracker } => {
            push_named(text, client, " poll ")?;
            push_label(text, Some(tracker))
        }
        Line::Show { view } => {
            push(text, "show ")?;
            push(text, view_name(view))
        }
    }
}

// Puts the client's label and a text behind it.
fn push_named(text: &mut Vec<u8>, client: Label, more: &str) -> Result<(), AllocError>
    ensures { OnOk result (text.new.items ≡ text.old.items ++ (text_of_label client ++ more.now)) }
{
    push_label(text, Some(client))?;
    push(text, more)
}

// Puts what a client asks behind it.
fn push_ask(
    text: &mut Vec<u8>,
    client: Label,
    request: &Request<Label, BufferLabel>,
) -> Result<(), AllocError>
    ensures { OnOk result (text.new.items
        ≡ text.old.items ++ (text_of_label client ++ 32 ∷ request_text request.now)) }
{
    push_named(text, client, " ")?;
    push_request(text, request)
}

// Puts the word of the call and what it says behind it.
fn push_request(text: &mut Vec<u8>, request: &Request<Label, BufferLabel>) -> Result<(), AllocError>
    ensures { OnOk result (text.new.items ≡ text.old.items ++ request_text request.now) }
{
    push(text, word_of(request.kind))?;
    push_object(text, request.object)?;
    push_argument(text, request.argument)?;
    push_binds(text, request.binds)
}

// Puts what a call is made on behind it.
fn push_object(text: &mut Vec<u8>, object: Object<Label, BufferLabel>) -> Result<(), AllocError>
    ensures { OnOk result (text.new.items ≡ text.old.items ++ object_text object) }
{
    match object {
        Object::Nothing => Ok(()),
        Object::Node(node) => push_last(text, node),
        Object::Buffer(buffer) => push_buffer_label(text, buffer),
    }
}

// Puts what else it says behind it.
fn push_argument(text: &mut Vec<u8>, argument: Argument<Label>) -> Result<(), AllocError>
    ensures { OnOk result (text.new.items ≡ text.old.items ++ argument_text argument) }
{
    match argument {
        Argument::Nothing => Ok(()),
        Argument::Client(to) => push_last(text, to),
        Argument::Children(children) => push(text, if children { " children" } else { "" }),
        Argument::Constraints(constraints) => push_constraints(text, constraints),
        Argument::Most(most) => push_behind(text, most as u64),
        Argument::Strength(strength) => push_strength(text, strength),
        Argument::Gift(strength, to) => {
            push_strength(text, strength)?;
            push_last(text, to)
        }
    }
}

// Puts the label that is to be bound behind it, if there is one.
fn push_binds(text: &mut Vec<u8>, binds: Option<Label>) -> Result<(), AllocError>
    ensures { OnOk result (text.new.items ≡ text.old.items ++ binds_text binds) }
{
    match binds {
        Some(label) => push_last(text, label),
        None => Ok(()),
    }
}

// Puts a space and the label behind it.
fn push_last(text: &mut Vec<u8>, label: Label) -> Result<(), AllocError>
    ensures { OnOk result (text.new.items ≡ text.old.items ++ 32 ∷ text_of_label label) }
{
    push(text, " ")?;
    push_label(text, Some(label))
}

// Puts the numbers of constraints behind it.
fn push_constraints(text: &mut Vec<u8>, constraints: Constraints) -> Result<(), AllocError>
    ensures { OnOk result (text.new.items ≡ text.old.items ++ demand_text constraints) }
{
    push_behind(text, constraints.camping() as u64)?;
    push_behind(text, constraints.at_least() as u64)?;
    push_behind(text, constraints.size() as u64)
}

// Puts a space and the number behind it.
fn push_behind(text: &mut Vec<u8>, number: u64) -> Result<(), AllocError>
    ensures { OnOk result (text.new.items ≡ text.old.items ++ 32 ∷ decimal number) }
{
    push(text, " ")?;
    push_number(text, number)
}

// Puts a space and the strength behind it.
fn push_strength(text: &mut Vec<u8>, strength: Strength) -> Result<(), AllocError>
    ensures { OnOk result (text.new.items ≡ text.old.items ++ 32 ∷ name_of_strength strength) }
{
    push(text, " ")?;
    push(text, strength_name(strength))
}

// Puts a space, the buffer's label, a point and its index behind it.
fn push_buffer_label(text: &mut Vec<u8>, buffer: BufferLabel) -> Result<(), AllocError>
    ensures { OnOk result (text.new.items ≡ text.old.items ++ 32 ∷ buffer_label_text buffer) }
{
    push_last(text, buffer.node)?;
    push(text, ".")?;
    push_number(text, buffer.index as u64)
}

// The name of a view.
fn view_name(view: Query) -> &'static str
    ensures { result.now ≡ name_of_view view }
{
    match view {
        Query::Live => "live",
        Query::Held => "held",
        Query::Fired => "fired",
        Query::Free => "free",
    }
}
