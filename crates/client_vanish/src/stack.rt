//! The objects that a vanishing client still has to give up: a stack, whose top comes first.
ghost use Rattle.std.specs.Prelude.{◌≡◌, ◌+◌, ◌<◌, ◌≤◌, ◌∷◌, ◌++◌, [], map, vec_len, vec_capacity};
ghost use Rattle.client_vanish.specs.Vanishings.{Collection, Handle as Handed, Token, held_in, object_of};
ghost use Rattle.client_vanish.specs.Stacks.{HasRoomFor, both, sorted_one, top_first};
ghost use Rattle.client_vanish.specs.Vanishings.{sorted};

use client_ends::{CollectionEnd, Handle, Held, ParcelContent, TokenEnd};
use service_lock::Setup;
use std::sync::ledger::Ledger;

/// Moves these ends to the stack, the last one first, so that the first one comes first.
pub(crate) fn stack_ends<E: Setup, S: Ledger, W: Ledger>(
    stack: &mut Vec<ParcelContent<E, S, W>>,
    ends: &mut Vec<ParcelContent<E, S, W>>,
)
    requires { vec_len stack.old + vec_len ends.old ≤ vec_capacity stack.old }
    ensures objects { top_first stack.new.items
        ≡ map object_of ends.old.items ++ top_first stack.old.items }
    ensures none { vec_len ends.new ≡ 0 }
    ensures len { vec_len stack.new ≡ vec_len stack.old + vec_len ends.old }
    ensures room { vec_capacity stack.new ≡ vec_capacity stack.old }
{
    while let Some(end) = ends.pop() {
        stack.push_reserved(end);
    }
}

/// Does the same with tokens. Their list keeps its room.
pub(crate) fn stack_tokens<E: Setup, S: Ledger, W: Ledger>(
    stack: &mut Vec<ParcelContent<E, S, W>>,
    tokens: &mut Vec<TokenEnd<E>>,
)
    requires { vec_len stack.old + vec_len tokens.old ≤ vec_capacity stack.old }
    ensures objects { top_first stack.new.items
        ≡ map Token tokens.old.items ++ top_first stack.old.items }
    ensures none { tokens.new.items ≡ [] }
    ensures kept { vec_capacity tokens.new ≡ vec_capacity tokens.old }
    ensures len { vec_len stack.new ≡ vec_len stack.old + vec_len tokens.old }
    ensures room { vec_capacity stack.new ≡ vec_capacity stack.old }
{
    while let Some(token) = tokens.pop() {
        stack.push_reserved(ParcelContent::Token(token));
    }
}

/// Does the same with collections.
pub(crate) fn stack_collections<E: Setup, S: Ledger, W: Ledger>(
    stack: &mut Vec<ParcelContent<E, S, W>>,
    collections: &mut Vec<CollectionEnd<E>>,
)
    requires { vec_len stack.old + vec_len collections.old ≤ vec_capacity stack.old }
    ensures objects { top_first stack.new.items
        ≡ map Collection collections.old.items ++ top_first stack.old.items }
    ensures none { collections.new.items ≡ [] }
    ensures kept { vec_capacity collections.new ≡ vec_capacity collections.old }
    ensures len { vec_len stack.new ≡ vec_len stack.old + vec_len collections.old }
    ensures room { vec_capacity stack.new ≡ vec_capacity stack.old }
{
    while let Some(collection) = collections.pop() {
        stack.push_reserved(ParcelContent::Collection(collection));
    }
}

/// Does the same with handles.
pub(crate) fn stack_handles<E: Setup, S: Ledger, W: Ledger>(
    stack: &mut Vec<ParcelContent<E, S, W>>,
    handles: &mut Vec<Handle<E, S, W>>,
)
    requires { vec_len stack.old + vec_len handles.old ≤ vec_capacity stack.old }
    ensures objects { top_first stack.new.items
        ≡ map Handed handles.old.items ++ top_first stack.old.items }
    ensures none { handles.new.items ≡ [] }
    ensures kept { vec_capacity handles.new ≡ vec_capacity handles.old }
    ensures len { vec_len stack.new ≡ vec_len stack.old + vec_len handles.old }
    ensures room { vec_capacity stack.new ≡ vec_capacity stack.old }
{
    while let Some(handle) = handles.pop() {
        stack.push_reserved(ParcelContent::Handle(handle));
    }
}

/// Appends one object to the list of its kind.
pub(crate) fn put<E: Setup, S: Ledger, W: Ledger>(
    held: &mut Held<E, S, W>,
    object: ParcelContent<E, S, W>,
)
    requires { HasRoomFor held.old (object_of object ∷ []) }
    ensures put { held_in held.new ≡ both (held_in held.old) (sorted_one (object_of object)) }
    ensures tokens { vec_capacity held.new.tokens ≡ vec_capacity held.old.tokens }
    ensures collections { vec_capacity held.new.collections ≡ vec_capacity held.old.collections }
    ensures handles { vec_capacity held.new.handles ≡ vec_capacity held.old.handles }
{
    match object {
        ParcelContent::Token(token) => held.tokens.push_reserved(token),
        ParcelContent::Collection(collection) => held.collections.push_reserved(collection),
        ParcelContent::Handle(handle) => held.handles.push_reserved(handle),
    }
}

/// Moves all objects from the stack to the lists of their kinds, in order.
pub(crate) fn put_all<E: Setup, S: Ledger, W: Ledger>(
    held: &mut Held<E, S, W>,
    stack: Vec<ParcelContent<E, S, W>>,
)
    requires { HasRoomFor held.old (top_first stack.items) }
    ensures { held_in held.new ≡ both (held_in held.old) (sorted (top_first stack.items)) }
{
    let mut stack = stack;
    while let Some(object) = stack.pop() {
        put(held, object);
    }
    stack.destroy_empty();
}
