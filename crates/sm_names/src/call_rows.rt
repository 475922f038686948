//! The table of calls: each call taken apart, and what is true of each kind of call.
ghost use Rattle.std.specs.Prelude.{◌≡◌, slice_get};
ghost use Rattle.std.specs.List.{position};
ghost use Rattle.std.specs.Str.{bytes_eq};
ghost use Rattle.sm_names.specs.CallRows.{call_made, call_of as made_of, kind_at as kind_numbered, kind_named as kind_spelled, object_buffer as buffer_in, object_key as key_in, parts as parts_told, parts_of as parts_made, row as row_told, row_of as row_at, word_of as word_spelled};

use crate::call_parts::{
    Answer, Argument, ArgumentForm, CallParts, CallRow, Object, Product, Spends, Target,
};
use crate::demands::Constraints;
use crate::keys::{BufferName, ClientId, NodeKey, Strength};
use crate::messages::Call;

/// Which call it is, without what it names. The kinds stand in the order of their numbers for C.
#[derive(Clone, Copy, PartialEq, Eq)]
pub enum CallKind {
    Join,
    Shut,
    OpenRoot,
    Duplicate,
    AttachToken,
    Sync,
    Give,
    Collect,
    Bind,
    SetDispensable,
    SetWeak,
    SetWeakOk,
    SetConstraints,
    Check,
    Take,
    Release,
    Close,
    DupHandle,
    DropHandle,
    GiveHandle,
    TrackNode,
    TrackLifetime,
    TrackWeak,
}

/// All kinds, each at the place of its number.
pub const KINDS: [CallKind; 23] = [
    CallKind::Join,
    CallKind::Shut,
    CallKind::OpenRoot,
    CallKind::Duplicate,
    CallKind::AttachToken,
    CallKind::Sync,
    CallKind::Give,
    CallKind::Collect,
    CallKind::Bind,
    CallKind::SetDispensable,
    CallKind::SetWeak,
    CallKind::SetWeakOk,
    CallKind::SetConstraints,
    CallKind::Check,
    CallKind::Take,
    CallKind::Release,
    CallKind::Close,
    CallKind::DupHandle,
    CallKind::DropHandle,
    CallKind::GiveHandle,
    CallKind::TrackNode,
    CallKind::TrackLifetime,
    CallKind::TrackWeak,
];

// Parts of a call.
fn parts(
    kind: CallKind,
    object: Object<NodeKey, BufferName>,
    argument: Argument<ClientId>,
) -> CallParts
    ensures { result ≡ parts_told kind object argument }
{
    CallParts {
        kind,
        object,
        argument,
    }
}

// Parts of a call on nothing.
fn bare(kind: CallKind) -> CallParts
    ensures { result ≡ parts_told kind Object.Nothing Argument.Nothing }
{
    parts(kind, Object::Nothing, Argument::Nothing)
}

// Parts of a call on a node, without an argument.
fn on_node(kind: CallKind, key: NodeKey) -> CallParts
    ensures { result ≡ parts_told kind (Object.Node key) Argument.Nothing }
{
    parts(kind, Object::Node(key), Argument::Nothing)
}

// Parts of a call on handles of a buffer, with this argument.
fn on_buffer(kind: CallKind, buffer: BufferName, argument: Argument<ClientId>) -> CallParts
    ensures { result ≡ parts_told kind (Object.Buffer buffer) argument }
{
    parts(kind, Object::Buffer(buffer), argument)
}

// Parts of a call on a handle of this buffer and strength.
fn on_handle(kind: CallKind, buffer: BufferName, strength: Strength) -> CallParts
    ensures { result ≡ parts_told kind (Object.Buffer buffer) (Argument.Strength strength) }
{
    on_buffer(kind, buffer, Argument::Strength(strength))
}

/// The call, taken apart. Costs O(1).
pub fn parts_of(call: Call) -> CallParts
    ensures { result ≡ parts_made call }
{
    match call {
        Call::Join => bare(CallKind::Join),
        Call::Shut => bare(CallKind::Shut),
        Call::OpenRoot => bare(CallKind::OpenRoot),
        Call::Duplicate(key) => on_node(CallKind::Duplicate, key),
        Call::AttachToken(key) => on_node(CallKind::AttachToken, key),
        Call::Sync(key) => on_node(CallKind::Sync, key),
        Call::Give(key, to) => parts(CallKind::Give, Object::Node(key), Argument::Client(to)),
        Call::Collect => bare(CallKind::Collect),
        Call::Bind(key) => on_node(CallKind::Bind, key),
        Call::SetDispensable(key) => on_node(CallKind::SetDispensable, key),
        Call::SetWeak(key) => on_node(CallKind::SetWeak, key),
        Call::SetWeakOk(key, children) => parts(
            CallKind::SetWeakOk,
            Object::Node(key),
            Argument::Children(children),
        ),
        Call::SetConstraints(key, constraints) => parts(
            CallKind::SetConstraints,
            Object::Node(key),
            Argument::Constraints(constraints),
        ),
        Call::Check(key) => on_node(CallKind::Check, key),
        Call::Take(key) => on_node(CallKind::Take, key),
        Call::Release(key) => on_node(CallKind::Release, key),
        Call::Close(key) => on_node(CallKind::Close, key),
        Call::DupHandle(buffer, strength) => on_handle(CallKind::DupHandle, buffer, strength),
        Call::DropHandle(buffer, strength) => on_handle(CallKind::DropHandle, buffer, strength),
        Call::GiveHandle(buffer, strength, to) => {
            on_buffer(CallKind::GiveHandle, buffer, Argument::Gift(strength, to))
        }
        Call::TrackNode(key) => on_node(CallKind::TrackNode, key),
        Call::TrackLifetime(key, most) => parts(
            CallKind::TrackLifetime,
            Object::Node(key),
            Argument::Most(most),
        ),
        Call::TrackWeak(buffer) => on_buffer(CallKind::TrackWeak, buffer, Argument::Nothing),
    }
}

/// The node that the object is, if it is one. Costs O(1), as do those below.
pub fn object_key(object: Object<NodeKey, BufferName>) -> Option<NodeKey>
    ensures { result ≡ key_in object }
{
    match object {
        Object::Node(key) => Some(key),
        _ => None,
    }
}

/// The buffer that the object is, if it is one.
pub fn object_buffer(object: Object<NodeKey, BufferName>) -> Option<BufferName>
    ensures { result ≡ buffer_in object }
{
    match object {
        Object::Buffer(buffer) => Some(buffer),
        _ => None,
    }
}

// The call of this kind on a node, if it is one that says nothing else.
fn plain_call(kind: CallKind, key: NodeKey) -> Option<Call>
    ensures { result ≡ call_made kind (Object.Node key) Argument.Nothing }
{
    match kind {
        CallKind::Duplicate => Some(Call::Duplicate(key)),
        CallKind::AttachToken => Some(Call::AttachToken(key)),
        CallKind::Sync => Some(Call::Sync(key)),
        CallKind::Bind => Some(Call::Bind(key)),
        CallKind::SetDispensable => Some(Call::SetDispensable(key)),
        CallKind::SetWeak => Some(Call::SetWeak(key)),
        CallKind::Check => Some(Call::Check(key)),
        CallKind::Take => Some(Call::Take(key)),
        CallKind::Release => Some(Call::Release(key)),
        CallKind::Close => Some(Call::Close(key)),
        CallKind::TrackNode => Some(Call::TrackNode(key)),
        _ => None,
    }
}

// The call of this kind on nothing, if there is one.
fn bare_call(kind: CallKind) -> Option<Call>
    ensures { result ≡ call_made kind Object.Nothing Argument.Nothing }
{
    match kind {
        CallKind::Join => Some(Call::Join),
        CallKind::Shut => Some(Call::Shut),
        CallKind::OpenRoot => Some(Call::OpenRoot),
        CallKind::Collect => Some(Call::Collect),
        _ => None,
    }
}

// The call of this kind on a node with this argument, if there is one.
fn node_call(kind: CallKind, key: NodeKey, argument: Argument<ClientId>) -> Option<Call>
    ensures { result ≡ call_made kind (Object.Node key) argument }
{
    match argument {
        Argument::Nothing => plain_call(kind, key),
        Argument::Client(to) => match kind {
            CallKind::Give => Some(Call::Give(key, to)),
            _ => None,
        },
        Argument::Children(children) => match kind {
            CallKind::SetWeakOk => Some(Call::SetWeakOk(key, children)),
            _ => None,
        },
        Argument::Constraints(constraints) => match kind {
            CallKind::SetConstraints => Some(Call::SetConstraints(key, constraints)),
            _ => None,
        },
        Argument::Most(most) => match kind {
            CallKind::TrackLifetime => Some(Call::TrackLifetime(key, most)),
            _ => None,
        },
        _ => None,
    }
}

// The call of this kind on handles of a buffer with this argument, if there is one.
fn buffer_call(kind: CallKind, buffer: BufferName, argument: Argument<ClientId>) -> Option<Call>
    ensures { result ≡ call_made kind (Object.Buffer buffer) argument }
{
    match (kind, argument) {
        (CallKind::DupHandle, Argument::Strength(strength)) => Some(Call::DupHandle(
            buffer, strength,
        )),
        (CallKind::DropHandle, Argument::Strength(strength)) => Some(Call::DropHandle(
            buffer, strength,
        )),
        (CallKind::GiveHandle, Argument::Gift(strength, to)) => Some(Call::GiveHandle(
            buffer, strength, to,
        )),
        (CallKind::TrackWeak, Argument::Nothing) => Some(Call::TrackWeak(buffer)),
        _ => None,
    }
}

/// The call of these parts, or `None` if the object or the argument does not fit the kind. Costs
/// O(1).
pub fn call_of(parts: CallParts) -> Option<Call>
    ensures { result ≡ made_of parts }
{
    match (parts.object, parts.argument) {
        (Object::Nothing, Argument::Nothing) => bare_call(parts.kind),
        (Object::Nothing, _) => None,
        (Object::Node(key), argument) => node_call(parts.kind, key, argument),
        (Object::Buffer(buffer), argument) => buffer_call(parts.kind, buffer, argument),
    }
}

// A row of the table.
fn row(on: Target, says: ArgumentForm, brings: Product, spends: Spends, answers: Answer) -> CallRow
    ensures { result ≡ row_told on says brings spends answers }
{
    CallRow {
        on,
        says,
        brings,
        spends,
        answers,
    }
}

// The row of a kind that says, brings and spends nothing.
fn plain(on: Target, answers: Answer) -> CallRow
    ensures { result ≡ row_told on ArgumentForm.Nothing Product.Nothing Spends.Never answers }
{
    row(
        on,
        ArgumentForm::Nothing,
        Product::Nothing,
        Spends::Never,
        answers,
    )
}

// The row of a kind that sets something and is answered Done.
fn setter(on: Target, says: ArgumentForm) -> CallRow
    ensures { result ≡ row_told on says Product.Nothing Spends.Never Answer.Done }
{
    row(on, says, Product::Nothing, Spends::Never, Answer::Done)
}

// The row of a kind that spends what it is made on and is answered Done.
fn spender(on: Target, says: ArgumentForm, spends: Spends) -> CallRow
    ensures { result ≡ row_told on says Product.Nothing spends Answer.Done }
{
    row(on, says, Product::Nothing, spends, Answer::Done)
}

// The row of a kind that makes or brings something and says nothing.
fn maker(on: Target, brings: Product, answers: Answer) -> CallRow
    ensures { result ≡ row_told on ArgumentForm.Nothing brings Spends.Never answers }
{
    row(on, ArgumentForm::Nothing, brings, Spends::Never, answers)
}

// The row of a kind that makes a tracker.
fn tracker(on: Target, says: ArgumentForm) -> CallRow
    ensures { result ≡ row_told on says Product.Tracker Spends.Never Answer.Tracker }
{
    row(on, says, Product::Tracker, Spends::Never, Answer::Tracker)
}

/// The row of the kind. Costs O(1).
pub fn row_of(kind: CallKind) -> CallRow
    ensures { result ≡ row_at kind }
{
    match kind {
        CallKind::Join => maker(Target::Nothing, Product::Client, Answer::Joined),
        CallKind::Shut => plain(Target::Nothing, Answer::Shut),
        CallKind::OpenRoot => maker(Target::Nothing, Product::Collection, Answer::Token),
        CallKind::Duplicate => maker(Target::Token, Product::Node, Answer::Token),
        CallKind::AttachToken => maker(Target::Collection, Product::Node, Answer::Token),
        CallKind::Sync => plain(Target::End, Answer::Done),
        CallKind::Give => spender(Target::End, ArgumentForm::Client, Spends::IfDone),
        CallKind::Collect => maker(Target::Nothing, Product::Parcel, Answer::Parcel),
        CallKind::Bind => spender(Target::Token, ArgumentForm::Nothing, Spends::IfDone),
        CallKind::SetDispensable => setter(Target::Token, ArgumentForm::Nothing),
        CallKind::SetWeak => setter(Target::End, ArgumentForm::Nothing),
        CallKind::SetWeakOk => setter(Target::End, ArgumentForm::Children),
        CallKind::SetConstraints => setter(Target::Collection, ArgumentForm::Constraints),
        CallKind::Check => plain(Target::Collection, Answer::Allocated),
        CallKind::Take => maker(Target::Collection, Product::Handles, Answer::Taken),
        CallKind::Release => spender(Target::End, ArgumentForm::Nothing, Spends::IfMet),
        CallKind::Close => spender(Target::End, ArgumentForm::Nothing, Spends::IfDone),
        CallKind::DupHandle => row(
            Target::Handle,
            ArgumentForm::Strength,
            Product::Handles,
            Spends::Never,
            Answer::Done,
        ),
        CallKind::DropHandle => spender(Target::Handle, ArgumentForm::Strength, Spends::IfDone),
        CallKind::GiveHandle => spender(Target::Handle, ArgumentForm::Gift, Spends::IfDone),
        CallKind::TrackNode => tracker(Target::End, ArgumentForm::Nothing),
        CallKind::TrackLifetime => tracker(Target::Collection, ArgumentForm::Most),
        CallKind::TrackWeak => tracker(Target::Handle, ArgumentForm::Nothing),
    }
}

/// The word for calls of the kind in a script. Costs O(1).
pub fn word_of(kind: CallKind) -> &'static str
    ensures { result.now ≡ word_spelled kind }
{
    match kind {
        CallKind::Join => "join",
        CallKind::Shut => "shut",
        CallKind::OpenRoot => "open",
        CallKind::Duplicate => "dup",
        CallKind::AttachToken => "attach",
        CallKind::Sync => "sync",
        CallKind::Give => "give",
        CallKind::Collect => "collect",
        CallKind::Bind => "bind",
        CallKind::SetDispensable => "dispensable",
        CallKind::SetWeak => "weak",
        CallKind::SetWeakOk => "weakok",
        CallKind::SetConstraints => "constrain",
        CallKind::Check => "check",
        CallKind::Take => "take",
        CallKind::Release => "release",
        CallKind::Close => "close",
        CallKind::DupHandle => "duph",
        CallKind::DropHandle => "droph",
        CallKind::GiveHandle => "giveh",
        CallKind::TrackNode => "tracknode",
        CallKind::TrackLifetime => "tracklife",
        CallKind::TrackWeak => "trackweak",
    }
}

// The kind at this place.
fn kind_in(kinds: &[CallKind], number: usize) -> Option<CallKind>
    ensures { result ≡ slice_get kinds.now number }
{
    kinds.get(number).copied()
}

/// The kind of this number, or `None` if there is none. Costs O(1).
pub fn kind_at(number: u32) -> Option<CallKind>
    ensures { result ≡ kind_numbered number }
{
    kind_in(&KINDS, number as usize)
}

// Whether it is the word of the kind.
fn is_word(word: &[u8], kind: CallKind) -> bool
    ensures { result ≡ bytes_eq word.now (word_spelled kind) }
{
    word == word_of(kind).as_bytes()
}

// The place of the first of these kinds that has this word.
fn place_of(kinds: &[CallKind], word: &[u8]) -> Option<usize>
    ensures { result ≡ position (λ kind. bytes_eq word.now (word_spelled kind)) kinds.now }
{
    kinds.iter().position(|kind| is_word(word, *kind))
}

/// The kind of this word, or `None` if there is none. Costs a comparison with the word of each
/// kind.
pub fn kind_named(word: &[u8]) -> Option<CallKind>
    ensures { result ≡ kind_spelled word.now }
{
    kind_in(&KINDS, place_of(&KINDS, word)?)
}
