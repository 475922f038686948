//! The texts of replies and polls.
ghost use Rattle.std.specs.Prelude.{◌≡◌, ◌<◌, ◌∷◌, ◌++◌, OnOk, codes, decimal};
ghost use Rattle.std.specs.List.{flat_map};
ghost use Rattle.sm_names.specs.Handles.{names as names_of};
ghost use Rattle.script_lines.specs.Labels.{label_text};
ghost use Rattle.script_lines.specs.LineTexts.{strength_name as name_of_strength};
ghost use Rattle.script_labels.specs.Names.{Names, label_of_node};
ghost use Rattle.script_labels.specs.Tables.{Keeps};
ghost use Rattle.script_labels.specs.Texts.{bound_text, buffer_text, cause_text, failure_name as name_of_failure, fired_text, held_text, kind_name as name_of_kind, member_text, node_text, numbered, poll_text, reply_text};

use crate::act::Binds;
use crate::tables::Tables;
use script_lines::{Label, push, push_label, push_number, strength_name};
use sm_names::{
    BufferName, Cause, CollectionId, Failure, Fired, HeldBuffer, Kind, MAX_BUFFERS, NodeKey, Reply,
    Strength, has_buffer,
};
use std::alloc::AllocError;

// How many bits the set of a Take has, one for each buffer.
pub(crate) const SET_BITS: u8 = 64;

// Puts two texts behind it.
fn push_both(text: &mut Vec<u8>, first: &str, second: &str) -> Result<(), AllocError>
    ensures { OnOk result (text.new.items ≡ text.old.items ++ (first.now ++ second.now)) }
{
    push(text, first)?;
    push(text, second)
}

// Puts a word and a number behind it.
fn push_count(text: &mut Vec<u8>, word: &str, number: u64) -> Result<(), AllocError>
    ensures { OnOk result (text.new.items ≡ text.old.items ++ (word.now ++ decimal number)) }
{
    push(text, word)?;
    push_number(text, number)
}

// Puts a word and a label behind it, if there is a label.
fn push_named(text: &mut Vec<u8>, word: &str, label: Option<Label>) -> Result<(), AllocError>
    ensures { OnOk result (text.new.items ≡ text.old.items ++ (word.now ++ label_text label)) }
{
    push(text, word)?;
    push_label(text, label)
}

// Puts a number, a space and a name behind it.
fn push_numbered(text: &mut Vec<u8>, number: u64, name: &str) -> Result<(), AllocError>
    ensures { OnOk result (text.new.items ≡ text.old.items ++ numbered number name.now) }
{
    push_number(text, number)?;
    push_both(text, " ", name)
}

// The name of the failure.
fn failure_name(failure: Failure) -> &'static str
    ensures { result.now ≡ name_of_failure failure }
{
    match failure {
        Failure::NoStrong => "NoStrong",
        Failure::NoBuffers => "NoBuffers",
        Failure::TooManyBuffers => "TooManyBuffers",
        Failure::PoolFull => "PoolFull",
        Failure::TooFew => "TooFew",
        Failure::TooSmall => "TooSmall",
    }
}

// The name of what an end is.
fn kind_name(kind: Kind) -> &'static str
    ensures { result.now ≡ name_of_kind kind }
{
    match kind {
        Kind::Token => "token",
        Kind::Collection => "collection",
    }
}

/// Appends why a node failed; a part of it where memory is refused. Costs O(n) for n bytes of text.
pub fn push_cause(text: &mut Vec<u8>, cause: Cause) -> Result<(), AllocError>
    ensures { OnOk result (text.new.items ≡ text.old.items ++ cause_text cause) }
{
    match cause {
        Cause::Lost => push(text, "lost"),
        Cause::Misused(misuse) => push_both(text, "misused ", misuse.name()),
        Cause::Failed(failure) => push_both(text, "failed ", failure_name(failure)),
        Cause::NoStrong => push(text, "nostrong"),
    }
}

/// Appends the reply to a call that was to bind this, without the end of its line; a part of it where
/// memory is refused. Costs O(n) for n bytes of text, and a look-up of each label.
pub fn push_reply(
    text: &mut Vec<u8>,
    tables: &Tables,
    binds: Binds,
    reply: Reply,
) -> Result<(), AllocError>
    ensures { OnOk result ((names : Names) → Keeps tables.now names →
        text.new.items ≡ text.old.items ++ reply_text names binds reply) }
{
    match reply {
        Reply::Done => push(text, "done"),
        Reply::Joined(_) => push(text, "joined"),
        Reply::Shut(waiting) => push_shut(text, waiting),
        Reply::Token { .. } => push_bound(text, "token", binds),
        Reply::Collected { kind, .. } => push_bound(text, kind_name(kind), binds),
        Reply::CollectedHandle { buffer, strength } => push_handle(text, tables, buffer, strength),
        Reply::Empty => push(text, "empty"),
        Reply::Pending => push(text, "pending"),
        Reply::Allocated { count, size } => push_allocated(text, count, size),
        Reply::Taken {
            collection,
            strength,
            set,
        } => push_taken(text, tables, collection, strength, set),
        Reply::Tracker(_) => push_bound(text, "tracker", binds),
        Reply::Refused(refusal) => {
            push_behind(text, "refused ", refusal.number() as u64, refusal.name())
        }
        Reply::Misused(misuse) => {
            push_behind(text, "misused ", misuse.number() as u64, misuse.name())
        }
        Reply::PeerClosed { cause, origin } => push_closed(text, tables, cause, origin),
    }
}

// Puts behind it how many parcels wait for a client that was shut.
fn push_shut(text: &mut Vec<u8>, waiting: u64) -> Result<(), AllocError>
    ensures { OnOk result (text.new.items ≡ text.old.items ++ (codes "shut " ++ decimal waiting)) }
{
    push_count(text, "shut ", waiting)
}

// Puts a word behind it, and a number and a name behind that.
fn push_behind(text: &mut Vec<u8>, word: &str, number: u64, name: &str) -> Result<(), AllocError>
    ensures { OnOk result (text.new.items
        ≡ text.old.items ++ (word.now ++ numbered number name.now)) }
{
    push(text, word)?;
    push_numbered(text, number, name)
}

// Puts a name behind it, and the label that was to be bound.
fn push_bound(text: &mut Vec<u8>, name: &str, binds: Binds) -> Result<(), AllocError>
    ensures { OnOk result (text.new.items
        ≡ text.old.items ++ (name.now ++ 32 ∷ bound_text binds)) }
{
    push(text, name)?;
    push_named(text, " ", label_in(binds))
}

// The label that is to be bound.
fn label_in(binds: Binds) -> Option<Label>
    ensures { label_text result ≡ bound_text binds }
{
    match binds {
        Binds::Nothing => None,
        Binds::Client(label) => Some(label),
        Binds::Node(label) => Some(label),
        Binds::Tracker(label) => Some(label),
    }
}

// Puts behind it that a handle was collected.
fn push_handle(
    text: &mut Vec<u8>,
    tables: &Tables,
    buffer: BufferName,
    strength: Strength,
) -> Result<(), AllocError>
    ensures { OnOk result ((names : Names) → Keeps tables.now names →
        text.new.items ≡ text.old.items ++ (codes "handle"
        ++ buffer_text names buffer ++ 32 ∷ name_of_strength strength)) }
{
    push(text, "handle")?;
    push_buffer(text, tables, buffer)?;
    push_both(text, " ", strength_name(strength))
}

// Puts behind it that handles of this strength were opened, on the buffers of the set.
fn push_taken(
    text: &mut Vec<u8>,
    tables: &Tables,
    collection: CollectionId,
    strength: Strength,
    set: u64,
) -> Result<(), AllocError>
    ensures { OnOk result ((names : Names) → Keeps tables.now names →
        text.new.items ≡ text.old.items ++ (codes "taken " ++ name_of_strength strength
        ++ flat_map (member_text names set) (names_of collection MAX_BUFFERS))) }
{
    push_both(text, "taken ", strength_name(strength))?;
    push_set(text, tables, collection, set)
}

// Puts the buffers of the set behind it.
fn push_set(
    text: &mut Vec<u8>,
    tables: &Tables,
    collection: CollectionId,
    set: u64,
) -> Result<(), AllocError>
    ensures { OnOk result ((names : Names) → Keeps tables.now names →
        text.new.items ≡ text.old.items
        ++ flat_map (member_text names set) (names_of collection MAX_BUFFERS)) }
{
    for index in 0..SET_BITS {
        push_member(text, tables, set, BufferName { collection, index })?;
    }
    Ok(())
}

// Puts a space and the buffer behind it, if it is in the set.
fn push_member(
    text: &mut Vec<u8>,
    tables: &Tables,
    set: u64,
    buffer: BufferName,
) -> Result<(), AllocError>
    requires { buffer.index < MAX_BUFFERS }
    ensures { OnOk result ((names : Names) → Keeps tables.now names →
        text.new.items ≡ text.old.items ++ member_text names set buffer) }
{
    if has_buffer(set, buffer.index) {
        return push_buffer(text, tables, buffer);
    }
    Ok(())
}

// Puts behind it that there are this many buffers of this many bytes.
fn push_allocated(text: &mut Vec<u8>, count: u32, size: u32) -> Result<(), AllocError>
    ensures { OnOk result (text.new.items
        ≡ text.old.items ++ (codes "allocated " ++ numbered count (decimal size))) }
{
    push_count(text, "allocated ", count as u64)?;
    push_count(text, " ", size as u64)
}

// Puts behind it that the node is gone: why, and the label of the node whose failure took it.
fn push_closed(
    text: &mut Vec<u8>,
    tables: &Tables,
    cause: Cause,
    origin: NodeKey,
) -> Result<(), AllocError>
    ensures { OnOk result ((names : Names) → Keeps tables.now names →
        text.new.items ≡ text.old.items
        ++ (codes "closed " ++ cause_text cause ++ 32 ∷ label_text (label_of_node names origin))) }
{
    push(text, "closed ")?;
    push_cause(text, cause)?;
    push_named(text, " ", tables.birth_label(origin))
}

/// Appends a space and the node's label; a part of it where memory is refused. Costs O(n) for n
/// bytes of text, and a look-up.
pub fn push_node(text: &mut Vec<u8>, tables: &Tables, node: NodeKey) -> Result<(), AllocError>
    ensures { OnOk result ((names : Names) → Keeps tables.now names →
        text.new.items ≡ text.old.items ++ node_text names node) }
{
    push_named(text, " ", tables.birth_label(node))
}

/// Appends a space and the buffer; a part of it where memory is refused. Costs O(n) for n bytes of
/// text, and a look-up.
pub fn push_buffer(
    text: &mut Vec<u8>,
    tables: &Tables,
    buffer: BufferName,
) -> Result<(), AllocError>
    ensures { OnOk result ((names : Names) → Keeps tables.now names →
        text.new.items ≡ text.old.items ++ buffer_text names buffer) }
{
    push_named(text, " ", tables.root_label(buffer.collection))?;
    push_count(text, ".", buffer.index as u64)
}

/// Appends a space, the held buffer, its first page and their number; a part of it where memory is
/// refused. Costs O(n) for n bytes of text, and a look-up.
pub fn push_held(text: &mut Vec<u8>, tables: &Tables, held: HeldBuffer) -> Result<(), AllocError>
    ensures { OnOk result ((names : Names) → Keeps tables.now names →
        text.new.items ≡ text.old.items ++ held_text names held) }
{
    push_buffer(text, tables, held.buffer)?;
    push_count(text, " ", held.pages.start as u64)?;
    push_count(text, " ", held.pages.pages as u64)
}

/// Appends a space, the tracker's label and the event of its firing; a part of it where memory is
/// refused. Costs O(n) for n bytes of text, and a look-up.
pub fn push_firing(text: &mut Vec<u8>, tables: &Tables, firing: Fired) -> Result<(), AllocError>
    ensures { OnOk result ((names : Names) → Keeps tables.now names →
        text.new.items ≡ text.old.items ++ fired_text names firing) }
{
    push_named(text, " ", tables.tracker_label(firing.tracker))?;
    push_count(text, " ", firing.event)
}

/// Appends that a tracker fired at this event; a part of it where memory is refused. Costs O(n) for
/// n bytes of text.
pub fn push_poll(text: &mut Vec<u8>, event: u64) -> Result<(), AllocError>
    ensures { OnOk result (text.new.items ≡ text.old.items ++ poll_text event) }
{
    push_count(text, "fired ", event)
}
