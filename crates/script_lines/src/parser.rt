//! What a line of bytes says.
ghost use Rattle.std.specs.Prelude.{◌≡◌, ◌∷◌};
ghost use Rattle.script_lines.specs.Lines.{argument_read, ask_of, binds_read, call_read, children_read, constraints_read, demand_in_range, demand_of, gift_read, line_of, object_read, poll_of, request_of, said_of, show_of, strength_named as strength_told, view_of};
ghost use Rattle.script_lines.specs.Words.{Reads, words_left};

use crate::MOST_LINE_BYTES;
use crate::buffer_label::BufferLabel;
use crate::label::Label;
use crate::line::{Line, Query, Request};
use crate::number::number;
use crate::words::{cut, is_word, next_word};
use sm_names::{
    Argument, ArgumentForm, CallKind, Constraints, MAX_AT_LEAST, MAX_CAMPING, Object, Product,
    Strength, Target, kind_named, row_of,
};

/// What the line says, without its end, or `None` if it is bad. Costs O(n) for a line of n bytes.
pub fn line(bytes: &[u8]) -> Option<Line>
    ensures { result ≡ line_of bytes.now }
{
    if MOST_LINE_BYTES < bytes.len() {
        return None;
    }
    match bytes.first() {
        None => Some(Line::Nothing),
        Some(b'#') => Some(Line::Nothing),
        Some(_) => {
            let (first, rest) = cut(bytes);
            said(first, rest)
        }
    }
}

// What the words say.
fn said(first: &[u8], rest: Option<&[u8]>) -> Option<Line>
    ensures { result ≡ said_of (first.now ∷ words_left rest.entry) }
{
    if is_word(first, "show") {
        return show(rest);
    }
    match (Label::new(first), next_word(rest)) {
        (Some(client), Some((verb, rest))) => call(client, verb, rest),
        _ => None,
    }
}

// What is shown.
fn show(rest: Option<&[u8]>) -> Option<Line>
    ensures { result ≡ show_of (words_left rest.entry) }
{
    match next_word(rest) {
        Some((what, rest)) => match (view(what), next_word(rest)) {
            (Some(view), None) => Some(Line::Show { view }),
            _ => None,
        },
        None => None,
    }
}

// The view of this name.
fn view(word: &[u8]) -> Option<Query>
    ensures { result ≡ view_of word.now }
{
    if is_word(word, "live") {
        Some(Query::Live)
    } else if is_word(word, "held") {
        Some(Query::Held)
    } else if is_word(word, "fired") {
        Some(Query::Fired)
    } else if is_word(word, "free") {
        Some(Query::Free)
    } else {
        None
    }
}

// What the client does, by the word behind its label and those behind that.
fn call(client: Label, word: &[u8], rest: Option<&[u8]>) -> Option<Line>
    ensures { result ≡ call_read client word.now (words_left rest.entry) }
{
    if is_word(word, "join") {
        return match next_word(rest) {
            None => Some(Line::Join { client }),
            Some(_) => None,
        };
    }
    if is_word(word, "poll") {
        return poll(client, rest);
    }
    ask(client, word, rest)
}

// A look at a tracker, whose label is the one word that follows.
fn poll(client: Label, rest: Option<&[u8]>) -> Option<Line>
    ensures { result ≡ poll_of client (words_left rest.entry) }
{
    match next_word(rest) {
        Some((word, rest)) => match (Label::new(word), next_word(rest)) {
            (Some(tracker), None) => Some(Line::Poll { client, tracker }),
            _ => None,
        },
        None => None,
    }
}

// What the client asks, by the call's word and those behind it.
fn ask(client: Label, word: &[u8], rest: Option<&[u8]>) -> Option<Line>
    ensures { result ≡ ask_of client word.now (words_left rest.entry) }
{
    let kind = kind_named(word)?;
    let request = request(kind, rest)?;
    Some(Line::Ask { client, request })
}

// What is asked by a call of this kind, by the words behind its own.
fn request(kind: CallKind, rest: Option<&[u8]>) -> Option<Request<Label, BufferLabel>>
    ensures { result ≡ request_of kind (words_left rest.entry) }
{
    let row = row_of(kind);
    let (object, rest) = object(row.on, rest)?;
    match argument(row.says, rest) {
        Some((argument, rest)) => {
            let (binds, rest) = binds(row.brings, rest)?;
            match next_word(rest) {
                None => Some(Request {
                    kind,
                    object,
                    argument,
                    binds,
                }),
                Some(_) => None,
            }
        }
        None => None,
    }
}

// What a call is made on: a node by its label, a handle by its buffer.
fn object(on: Target, rest: Option<&[u8]>) -> Option<(Object<Label, BufferLabel>, Option<&[u8]>)>
    ensures { Reads result (object_read on (words_left rest.entry)) }
{
    match on {
        Target::Nothing => Some((Object::Nothing, rest)),
        Target::Handle => {
            let (word, rest) = next_word(rest)?;
            Some((Object::Buffer(BufferLabel::new(word)?), rest))
        }
        Target::Token | Target::Collection | Target::End => {
            let (word, rest) = next_word(rest)?;
            Some((Object::Node(Label::new(word)?), rest))
        }
    }
}

// What else the call says.
fn argument(form: ArgumentForm, rest: Option<&[u8]>) -> Option<(Argument<Label>, Option<&[u8]>)>
    ensures { Reads result (argument_read form (words_left rest.entry)) }
{
    match form {
        ArgumentForm::Nothing => Some((Argument::Nothing, rest)),
        ArgumentForm::Client => {
            let (word, rest) = next_word(rest)?;
            Some((Argument::Client(Label::new(word)?), rest))
        }
        ArgumentForm::Children => children(rest),
        ArgumentForm::Constraints => constraints(rest),
        ArgumentForm::Most => {
            let (word, rest) = next_word(rest)?;
            Some((Argument::Most(number(word)?), rest))
        }
        ArgumentForm::Strength => {
            let (word, rest) = next_word(rest)?;
            Some((Argument::Strength(strength(word)?), rest))
        }
        ArgumentForm::Gift => gift(rest),
    }
}

// Whether weak handles for children to come are meant too: the one word there may be says so.
fn children(rest: Option<&[u8]>) -> Option<(Argument<Label>, Option<&[u8]>)>
    ensures { Reads result (children_read (words_left rest.entry)) }
{
    match next_word(rest) {
        None => Some((Argument::Children(false), None)),
        Some((word, rest)) => {
            if is_word(word, "children") {
                Some((Argument::Children(true), rest))
            } else {
                None
            }
        }
    }
}

// Constraints, by three words.
fn constraints(rest: Option<&[u8]>) -> Option<(Argument<Label>, Option<&[u8]>)>
    ensures { Reads result (constraints_read (words_left rest.entry)) }
{
    let (camping, rest) = next_word(rest)?;
    let (at_least, rest) = next_word(rest)?;
    let (size, rest) = next_word(rest)?;
    Some((
        Argument::Constraints(constraints_of(camping, at_least, size)?),
        rest,
    ))
}

// A strength, and a client.
fn gift(rest: Option<&[u8]>) -> Option<(Argument<Label>, Option<&[u8]>)>
    ensures { Reads result (gift_read (words_left rest.entry)) }
{
    let (word, rest) = next_word(rest)?;
    let strength = strength(word)?;
    let (word, rest) = next_word(rest)?;
    Some((Argument::Gift(strength, Label::new(word)?), rest))
}

// The label that is to be bound, if the call makes or brings what has a label.
fn binds(product: Product, rest: Option<&[u8]>) -> Option<(Option<Label>, Option<&[u8]>)>
    ensures { Reads result (binds_read product (words_left rest.entry)) }
{
    if !product.brings_end() && !product.is_tracker() {
        return Some((None, rest));
    }
    let (word, rest) = next_word(rest)?;
    Some((Some(Label::new(word)?), rest))
}

// The constraints that the words spell, or `None` if a word is no number or out of range.
fn constraints_of(camping: &[u8], at_least: &[u8], size: &[u8]) -> Option<Constraints>
    ensures { result ≡ demand_of camping.now at_least.now size.now }
{
    match (number(camping), number(at_least), number(size)) {
        (Some(camping), Some(at_least), Some(size)) => in_range(camping, at_least, size),
        _ => None,
    }
}

// The constraints of these numbers, or `None` if one is out of range.
fn in_range(camping: u32, at_least: u32, size: u32) -> Option<Constraints>
    ensures { result ≡ demand_in_range camping at_least size }
{
    if u32::from(MAX_CAMPING) < camping || u32::from(MAX_AT_LEAST) < at_least {
        return None;
    }
    Constraints::new(camping as u8, at_least as u8, size)
}

// The strength of this name.
fn strength(word: &[u8]) -> Option<Strength>
    ensures { result ≡ strength_told word.now }
{
    if is_word(word, "strong") {
        Some(Strength::Strong)
    } else if is_word(word, "weak") {
        Some(Strength::Weak)
    } else {
        None
    }
}
