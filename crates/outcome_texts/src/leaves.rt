//! The lines of the calls by which clients leave.
ghost use Rattle.std.specs.Prelude.{◌≡◌, ◌++◌, OnOk, count_by};
ghost use Rattle.std.specs.List.{position};
ghost use Rattle.std.specs.Option.{option_map};
ghost use Rattle.sm_names.specs.Marks.{Entry};
ghost use Rattle.outcome_texts.specs.Leaves.{actor_text, asked_text, bound_in, bound_told, brings_into as into_told, brings_node as node_told, close_request, collect_request, drop_request, entry_leaving as entry_call, entry_request as request_of_entry, is_collect as collect_told, is_collecting, label_told, leave_text, leaving_request as request_told, node_label as node_called, root_label as root_called};

use crate::calls::{PlayCall, call_of_entry};
use crate::telling::Telling;
use explore_model::Found;
use script_lines::{BufferLabel, Label, Line, Request, push, push_line};
use sm_names::{
    Argument, BufferName, Call, CallKind, ClientId, CollectionId, NodeKey, Object, Reply, Strength,
};
use std::alloc::AllocError;

// Whether the reply brings the node of this key, which is new.
fn brings_node(reply: Reply, key: NodeKey) -> bool
    ensures { result ≡ node_told key reply }
{
    match reply {
        Reply::Token { key: other, .. } => other == key,
        _ => false,
    }
}

// Whether it brings a new node of this collection.
fn brings_into(reply: Reply, collection: CollectionId) -> bool
    ensures { result ≡ into_told collection reply }
{
    match reply {
        Reply::Token {
            collection: other,
            ..
        } => other == collection,
        _ => false,
    }
}

// The number of the call that made the node.
fn birth_of(entries: &[(ClientId, Call, Reply)], key: NodeKey) -> Option<usize>
    ensures { result ≡ position (λ (e : Entry). node_told key e.2) entries.now }
{
    entries.iter().position(|entry| brings_node(entry.2, key))
}

// The number of the call that made the collection's first node, its root.
fn opening_of(entries: &[(ClientId, Call, Reply)], collection: CollectionId) -> Option<usize>
    ensures { result ≡ position (λ (e : Entry). into_told collection e.2) entries.now }
{
    entries
        .iter()
        .position(|entry| brings_into(entry.2, collection))
}

// What the call makes is called so.
fn bound_by(telling: &Telling<'_>, call: PlayCall) -> Option<Label>
    ensures { result ≡ bound_told telling.now call }
{
    match call {
        PlayCall::Step { actor, at } => telling.bound(actor, at),
        PlayCall::Leave { .. } => None,
    }
}

// What the call of this number makes is called so.
fn bound_at(telling: &Telling<'_>, found: &Found, number: usize) -> Option<Label>
    ensures { result ≡ bound_in telling.now found.now number }
{
    match call_of_entry(found, number) {
        Some(call) => bound_by(telling, call),
        None => None,
    }
}

// The same, if there is such a number.
fn label_at(telling: &Telling<'_>, found: &Found, number: Option<usize>) -> Option<Label>
    ensures { result ≡ label_told telling.now found.now number }
{
    match number {
        Some(number) => bound_at(telling, found, number),
        None => None,
    }
}

// What the node is called: as its maker calls it.
fn node_label(telling: &Telling<'_>, found: &Found, key: NodeKey) -> Option<Label>
    ensures { result ≡ node_called telling.now found.now key }
{
    label_at(telling, found, birth_of(&found.entries, key))
}

// What the root of the collection is called.
fn root_label(telling: &Telling<'_>, found: &Found, collection: CollectionId) -> Option<Label>
    ensures { result ≡ root_called telling.now found.now collection }
{
    label_at(telling, found, opening_of(&found.entries, collection))
}

// The request of a Collect that binds the label.
fn collecting(label: Option<Label>) -> Option<Request<Label, BufferLabel>>
    ensures { result ≡ option_map collect_request label }
{
    match label {
        Some(label) => Some(Request {
            kind: CallKind::Collect,
            object: Object::Nothing,
            argument: Argument::Nothing,
            binds: Some(label),
        }),
        None => None,
    }
}

// The request of a Close of the node of this label.
fn closing(label: Option<Label>) -> Option<Request<Label, BufferLabel>>
    ensures { result ≡ option_map close_request label }
{
    match label {
        Some(label) => Some(Request {
            kind: CallKind::Close,
            object: Object::Node(label),
            argument: Argument::Nothing,
            binds: None,
        }),
        None => None,
    }
}

// The request of a DropHandle, of a buffer of the collection of the node of this label.
fn dropping(
    label: Option<Label>,
    index: u8,
    strength: Strength,
) -> Option<Request<Label, BufferLabel>>
    ensures { result ≡ option_map (drop_request index strength) label }
{
    match label {
        Some(label) => Some(Request {
            kind: CallKind::DropHandle,
            object: Object::Buffer(BufferLabel { node: label, index }),
            argument: Argument::Strength(strength),
            binds: None,
        }),
        None => None,
    }
}

// The request of a call by which a client leaves, before which so many calls collect.
fn leaving_request(
    telling: &Telling<'_>,
    found: &Found,
    call: Call,
    collects: usize,
) -> Option<Request<Label, BufferLabel>>
    ensures { result ≡ request_told telling.now found.now call collects }
{
    match call {
        Call::Shut => Some(Request {
            kind: CallKind::Shut,
            object: Object::Nothing,
            argument: Argument::Nothing,
            binds: None,
        }),
        Call::Collect => collecting(telling.names.fresh(collects)),
        Call::Close(key) => closing(node_label(telling, found, key)),
        Call::DropHandle(buffer, strength) => dropping(
            root_label(telling, found, buffer.collection),
            buffer.index,
            strength,
        ),
        _ => None,
    }
}

// Appends what the client asks, if it is there.
fn push_asked(
    text: &mut Vec<u8>,
    client: Label,
    request: Option<Request<Label, BufferLabel>>,
) -> Result<(), AllocError>
    ensures { OnOk result (text.new.items ≡ text.old.items ++ asked_text client request) }
{
    match request {
        Some(request) => push_line(text, Line::Ask { client, request }),
        None => Ok(()),
    }
}

// Appends what the actor of this place asks, if it is there.
fn push_of_actor(
    text: &mut Vec<u8>,
    labels: &[Label],
    actor: usize,
    request: Option<Request<Label, BufferLabel>>,
) -> Result<(), AllocError>
    ensures { OnOk result (text.new.items ≡ text.old.items ++ actor_text labels.now actor request) }
{
    match labels.get(actor) {
        Some(client) => push_asked(text, *client, request),
        None => Ok(()),
    }
}

// Whether the call collects.
fn collects(call: Call) -> bool
    ensures { result ≡ is_collecting call }
{
    matches!(call, Call::Collect)
}

// Whether that of the entry does.
fn is_collect(entry: &(ClientId, Call, Reply)) -> bool
    ensures { result ≡ collect_told entry.now }
{
    collects(entry.1)
}

// How many of these calls do.
fn collects_in(entries: &[(ClientId, Call, Reply)]) -> usize
    ensures { result ≡ count_by (λ (e : Entry). collect_told e) entries.now }
{
    entries.iter().filter(|entry| is_collect(*entry)).count()
}

// The call of this number, and how many before it collect.
fn call_at(entries: &[(ClientId, Call, Reply)], number: usize) -> Option<(Call, usize)>
    ensures { result ≡ entry_call entries.now number }
{
    match entries.get(number) {
        Some((_, call, _)) => Some((*call, collects_in(&entries[..number]))),
        None => None,
    }
}

// The request of the call of this number, joins among them.
fn entry_request(
    telling: &Telling<'_>,
    found: &Found,
    number: usize,
) -> Option<Request<Label, BufferLabel>>
    ensures { result ≡ request_of_entry telling.now found.now number }
{
    match call_at(&found.entries, number) {
        Some((call, collects)) => leaving_request(telling, found, call, collects),
        None => None,
    }
}

// Appends the line of the call of this number by which the actor leaves.
pub(crate) fn push_leave(
    text: &mut Vec<u8>,
    telling: &Telling<'_>,
    found: &Found,
    actor: usize,
    number: usize,
) -> Result<(), AllocError>
    ensures { OnOk result
        (text.new.items ≡ text.old.items ++ leave_text telling.now found.now actor number) }
{
    let request = entry_request(telling, found, number);
    push_of_actor(text, telling.labels, actor, request)?;
    push(text, "\n")
}
