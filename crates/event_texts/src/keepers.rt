//! The text of the holders that keep the pages of a buffer.
ghost use Rattle.std.specs.Prelude.{◌≡◌, ◌++◌, IfOk, OnOk, IfErr};
ghost use Rattle.std.specs.List.{flat_map};
ghost use Rattle.event_facts.specs.Facts.{holders_in};
ghost use Rattle.script_labels.specs.Names.{Names};
ghost use Rattle.event_texts.specs.Called.{Calls};
ghost use Rattle.script_labels.specs.Tables.{Keeps};
ghost use Rattle.script_labels.specs.Texts.{buffer_text};
ghost use Rattle.event_texts.specs.EventTexts.{between_buffers, by_text, kept_behind, kept_by_nodes, kept_from, kept_text, live_text, live_words as words_for_live};
ghost use Rattle.event_texts.specs.FactTexts.{holder_text, holders_text, next_holder};
ghost use Rattle.event_texts.specs.KeeperTexts.{comma_behind, keepers_words, keeping_in, strong_in, who_has_with, who_keeps_with};

use crate::labels::Labels;
use crate::words::push_nodes;
use event_facts::keepers::{Holder, holders, strong_live};
use lifetime_core::Core;
use script_labels::{LineStop, Tables, push_buffer};
use script_lines::{Part, push, push_parts, strength_name};
use sm_names::{BufferName, ClientId, CollectionId, HeldBuffer, NodeKey};
use std::alloc::{AllocError, Global};

// Appends that these live nodes keep the buffer.
pub(crate) fn push_kept_by_nodes(
    text: &mut Vec<u8>,
    tables: &Tables,
    buffer: BufferName,
    nodes: &[NodeKey],
) -> Result<(), AllocError>
    ensures { OnOk result ((names : Names) → Keeps tables.now names →
        text.new.items ≡ text.old.items ++ kept_by_nodes names buffer nodes.now) }
{
    push(text, "kept   ")?;
    push_buffer(text, tables, buffer)?;
    push(text, " by ")?;
    push_live(text, tables, nodes)?;
    push(text, "\n")
}

// That one node is live, or more.
fn live_words(nodes: &[NodeKey]) -> &'static str
    ensures { result.now ≡ words_for_live nodes.now }
{
    if nodes.len() == 1 {
        "the live node"
    } else {
        "the live nodes"
    }
}

// What holders are found by, and what they are called.
#[derive(Drop)]
struct Register<'a> {
    core: &'a Core,
    tables: &'a Tables,
    labels: &'a Labels,
    // The clients that joined.
    clients: &'a Vec<ClientId>,
    // Whether the live strong nodes of a buffer's collection are told too.
    with_nodes: bool,
}

// Appends the buffers and their holders: consecutive buffers with the same holders in one line. The live
// strong nodes of their collections are among the holders, if nodes are told.
pub(crate) fn push_kept(
    text: &mut Vec<u8>,
    core: &Core,
    tables: &Tables,
    labels: &Labels,
    held: &[HeldBuffer],
    with_nodes: bool,
) -> Result<(), LineStop>
    ensures text { OnOk result ((names : Names) → Keeps tables.now names → Calls labels.now names →
        text.new.items
        ≡ text.old.items ++ kept_text names (who_keeps_with names with_nodes core.now) held.now) }
    ensures err { IfErr result (λ stop. stop ≡ LineStop.NoMemory) }
{
    let clients = core.clients()?;
    let register = Register {
        core,
        tables,
        labels,
        clients: &clients,
        with_nodes,
    };
    push_rows(text, &register, held)?;
    Ok(())
}

// The same, where these clients have joined.
fn push_rows(text: &mut Vec<u8>, register: &Register, held: &[HeldBuffer]) -> Result<(), AllocError>
    ensures { OnOk result ((names : Names) → Keeps register.now.tables.now names →
        Calls register.now.labels.now names → text.new.items ≡ text.old.items ++ kept_text names
        (who_has_with names register.now.with_nodes
        register.now.core.now register.now.clients.now.items) held.now) }
{
    match held.split_first() {
        Some((first, later)) => push_from(text, register, first, later),
        None => Ok(()),
    }
}

// The same, where there is a first buffer.
fn push_from(
    text: &mut Vec<u8>,
    register: &Register,
    first: &HeldBuffer,
    later: &[HeldBuffer],
) -> Result<(), AllocError>
    ensures { OnOk result ((names : Names) → Keeps register.now.tables.now names →
        Calls register.now.labels.now names → text.new.items ≡ text.old.items ++ kept_from names
        (who_has_with names register.now.with_nodes
        register.now.core.now register.now.clients.now.items) first.now later.now) }
{
    let row = holders_of(*text.allocator(), register, first)?;
    push(text, "kept   ")?;
    push_buffer(text, register.tables, first.buffer)?;
    push_later(text, register, row, later)
}

// The text of the holders of the buffer.
fn holders_of(alloc: Global, register: &Register, held: &HeldBuffer) -> Result<Vec<u8>, AllocError>
    ensures { IfOk result (λ row. (names : Names) → Keeps register.now.tables.now names →
        Calls register.now.labels.now names → row.items ≡ who_has_with names register.now.with_nodes
        register.now.core.now register.now.clients.now.items held.now) }
{
    let nodes = keeping(alloc, register, held.buffer.collection)?;
    let mut row = Vec::new(alloc);
    push_keepers(
        &mut row,
        register.core,
        register.tables,
        register.labels,
        register.clients,
        &nodes,
        held.buffer,
    )?;
    Ok(row)
}

/// Appends who keeps the buffer: these live nodes, and whoever has handles on it, these clients among
/// them. Costs O(n) for n bytes of text, a look-up of each label, and one of each client and strength.
#[tactic(auto, unfolding(crate::specs::KeeperTexts::keepers_words))]
pub fn push_keepers(
    text: &mut Vec<u8>,
    core: &Core,
    tables: &Tables,
    labels: &Labels,
    clients: &Vec<ClientId>,
    nodes: &[NodeKey],
    buffer: BufferName,
) -> Result<(), AllocError>
    ensures { OnOk result ((names : Names) → Keeps tables.now names → Calls labels.now names →
        text.new.items ≡ text.old.items
        ++ keepers_words core.now names clients.now.items nodes.now buffer) }
{
    push_live(text, tables, nodes)?;
    push_holders(text, core, labels, clients, buffer, behind(nodes))
}

// The live strong nodes of the collection, if nodes are told.
fn keeping(
    alloc: Global,
    register: &Register,
    collection: CollectionId,
) -> Result<Vec<NodeKey>, AllocError>
    ensures { IfOk result (λ nodes. nodes.items
        ≡ keeping_in register.now.with_nodes register.now.core.now collection) }
{
    if register.with_nodes {
        strong_of(alloc, register.core, collection)
    } else {
        Ok(Vec::new(alloc))
    }
}

// The live strong nodes of the collection.
fn strong_of(
    alloc: Global,
    core: &Core,
    collection: CollectionId,
) -> Result<Vec<NodeKey>, AllocError>
    ensures { IfOk result (λ nodes. nodes.items ≡ strong_in core.now collection) }
{
    match core.collection(collection) {
        Ok(Some(copied)) => strong_live(&copied.nodes),
        Ok(None) => Ok(Vec::new(alloc)),
        Err(_) => Err(AllocError),
    }
}

// Appends that these nodes are live, if there are some.
fn push_live(text: &mut Vec<u8>, tables: &Tables, nodes: &[NodeKey]) -> Result<(), AllocError>
    ensures { OnOk result ((names : Names) → Keeps tables.now names →
        text.new.items ≡ text.old.items ++ live_text names nodes.now) }
{
    if nodes.is_empty() {
        return Ok(());
    }
    push(text, live_words(nodes))?;
    push_nodes(text, tables, nodes)
}

// What stands behind these nodes: a comma, if there are some.
fn behind(nodes: &[NodeKey]) -> &'static str
    ensures { result.now ≡ comma_behind nodes.now }
{
    if nodes.is_empty() { "" } else { ", " }
}

// Appends the buffers behind one with these holders, and ends the last line.
fn push_later(
    text: &mut Vec<u8>,
    register: &Register,
    first: Vec<u8>,
    later: &[HeldBuffer],
) -> Result<(), AllocError>
    ensures { OnOk result ((names : Names) → Keeps register.now.tables.now names →
        Calls register.now.labels.now names → text.new.items ≡ text.old.items ++ kept_behind names
        (who_has_with names register.now.with_nodes
        register.now.core.now register.now.clients.now.items) first.items later.now) }
{
    let mut row = first;
    let mut rest = later;
    'buffers: while let Some((held, more)) = rest.split_first() {
        let next = holders_of(*text.allocator(), register, held)?;
        push_next_kept(text, register.tables, &row, &next, held.buffer)?;
        row = next;
        rest = more;
    }
    push_by(text, &row)
}

// Appends a buffer with these holders behind one with those.
fn push_next_kept(
    text: &mut Vec<u8>,
    tables: &Tables,
    row: &[u8],
    next: &[u8],
    buffer: BufferName,
) -> Result<(), AllocError>
    ensures { OnOk result ((names : Names) → Keeps tables.now names → text.new.items
        ≡ text.old.items ++ (between_buffers row.now next.now ++ buffer_text names buffer)) }
{
    push_between(text, row, next)?;
    push_buffer(text, tables, buffer)
}

// Appends what stands between two buffers with these holders.
fn push_between(text: &mut Vec<u8>, row: &[u8], next: &[u8]) -> Result<(), AllocError>
    ensures { OnOk result (text.new.items ≡ text.old.items ++ between_buffers row.now next.now) }
{
    if next == row {
        return Ok(());
    }
    push_parts(
        text,
        &[
            Part::Word(" by "),
            Part::Bytes(row),
            Part::Word("\nkept   "),
        ],
    )
}

// Appends the end of a line.
fn push_by(text: &mut Vec<u8>, row: &[u8]) -> Result<(), AllocError>
    ensures { OnOk result (text.new.items ≡ text.old.items ++ by_text row.now) }
{
    push_parts(
        text,
        &[Part::Word(" by "), Part::Bytes(row), Part::Word("\n")],
    )
}

// Appends the holders of open handles on the buffer, and how many each has: these clients in their order, strong
// before weak, and the parcels last. These words stand before them, if there are some.
pub(crate) fn push_holders(
    text: &mut Vec<u8>,
    core: &Core,
    labels: &Labels,
    clients: &Vec<ClientId>,
    buffer: BufferName,
    before: &str,
) -> Result<(), AllocError>
    ensures { OnOk result ((names : Names) → Calls labels.now names →
        text.new.items ≡ text.old.items ++ holders_text names before.now
        (holders_in core.now.holds clients.now.items buffer)) }
{
    let found = holders(core, clients, buffer)?;
    push_found(text, labels, &found, before)
}

// Appends these holders, and these words before them, if there are some.
fn push_found(
    text: &mut Vec<u8>,
    labels: &Labels,
    found: &[Holder],
    before: &str,
) -> Result<(), AllocError>
    ensures { OnOk result ((names : Names) → Calls labels.now names →
        text.new.items ≡ text.old.items ++ holders_text names before.now found.now) }
{
    match found.split_first() {
        Some((first, others)) => {
            push(text, before)?;
            push_holder(text, labels, first)?;
            push_others(text, labels, others)
        }
        None => Ok(()),
    }
}

// Appends these holders, each behind a comma.
fn push_others(text: &mut Vec<u8>, labels: &Labels, others: &[Holder]) -> Result<(), AllocError>
    ensures { OnOk result ((names : Names) → Calls labels.now names →
        text.new.items ≡ text.old.items ++ flat_map (next_holder names) others.now) }
{
    for holder in others {
        push_next(text, labels, holder)?;
    }
    Ok(())
}

// Appends the holder, behind a comma.
fn push_next(text: &mut Vec<u8>, labels: &Labels, holder: &Holder) -> Result<(), AllocError>
    ensures { OnOk result ((names : Names) → Calls labels.now names →
        text.new.items ≡ text.old.items ++ next_holder names holder.now) }
{
    push(text, ", ")?;
    push_holder(text, labels, holder)
}

// Appends the holder.
fn push_holder(text: &mut Vec<u8>, labels: &Labels, holder: &Holder) -> Result<(), AllocError>
    ensures { OnOk result ((names : Names) → Calls labels.now names →
        text.new.items ≡ text.old.items ++ holder_text names holder.now) }
{
    match holder.client {
        Some(client) => push_parts(
            text,
            &[
                Part::Name(labels.client(client)),
                Part::Word(" "),
                Part::Word(strength_name(holder.strength)),
                Part::Word(" "),
                Part::Number(holder.count as u64),
            ],
        ),
        None => push_parts(
            text,
            &[
                Part::Word("parcels"),
                Part::Word(" "),
                Part::Word(strength_name(holder.strength)),
                Part::Word(" "),
                Part::Number(holder.count as u64),
            ],
        ),
    }
}
