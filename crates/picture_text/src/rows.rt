//! The rows of a tree as text: one for each node, and one for each buffer with pages.
ghost use Rattle.std.specs.Prelude.{◌≡◌, ◌-◌, ◌++◌, IfOk, List, OnOk, length, replicate};
ghost use Rattle.std.specs.List.{flat_map};
ghost use Rattle.sm_names.specs.declared.keys.NodeKey.{NodeKey as Key};
ghost use Rattle.event_facts.specs.KeyMaps.{HasKeys};
ghost use Rattle.script_labels.specs.Names.{Names, label_of_node};
ghost use Rattle.script_labels.specs.Tables.{Keeps};
ghost use Rattle.event_texts.specs.Called.{Calls, last_label, other_text};
ghost use Rattle.event_texts.specs.FactTexts.{buffer_name};
ghost use Rattle.picture_text.specs.Outlines.{line_of_row};
ghost use Rattle.picture_text.specs.TextPictures.{asked_text, buffer_row, dispensable_text, facts_text, freed_row, full_name as full_name_of, in_parentheses, keepers_text, name_cell, node_mark as mark_in, pages_row, row_text, row_width as width_of_row, sign_cell as cell_of, signs_of_node, spaces, told_row, weak_text, widest_row};

use crate::outline::OutlineRow;
use event_facts::keys_of;
use event_texts::EventWriter;
use forced_marks::key_sets::KeySet;
use forest_store::Node;
use picture_model::{
    Class, Tree, class_of, class_sign, kind_name, push_asked_line, push_keepers, push_pages,
    push_place, push_state_line,
};
use script_lines::{Part, push, push_parts};
use sm_names::{BufferName, ClientId, Constraints, HeldBuffer, NodeKey};
use std::alloc::AllocError;

// The width of the widest row: the lines that lead to its node, and the node's name.
pub(crate) fn width_of(
    event_writer: &EventWriter,
    rows: &Vec<OutlineRow>,
) -> Result<u64, AllocError>
    ensures { IfOk result (λ width. (names : Names) → Keeps event_writer.now.session.tables names →
        Calls event_writer.now.labels names → width ≡ widest_row names rows.now.items) }
{
    let mut width: u64 = 0;
    for row in rows {
        width = width.max(row_width(event_writer, row)?);
    }
    Ok(width)
}

// The columns of the lines that lead to the row's node, and of its name.
fn row_width(event_writer: &EventWriter, row: &OutlineRow) -> Result<u64, AllocError>
    ensures { IfOk result (λ width. (names : Names) → Keeps event_writer.now.session.tables names →
        Calls event_writer.now.labels names → width ≡ width_of_row names (line_of_row row.now)) }
{
    let name = full_name(event_writer, row)?;
    Ok(row.columns.saturating_add(name.len() as u64))
}

// The label of the birth of the row's node, and in parentheses another under which its end was collected
// last.
fn full_name(event_writer: &EventWriter, row: &OutlineRow) -> Result<Vec<u8>, AllocError>
    ensures { IfOk result (λ name. (names : Names) → Keeps event_writer.now.session.tables names →
        Calls event_writer.now.labels names → name.items ≡ full_name_of names row.now.node.key) }
{
    let mut name = Vec::new(*row.lines.allocator());
    let tables = &event_writer.session.tables;
    push_parts(&mut name, &[Part::Name(tables.birth_label(row.node.key))])?;
    push_other_name(&mut name, event_writer, row.node.key)?;
    Ok(name)
}

// Appends the label under which the end of the node was collected last, in parentheses, if it is another
// than that of its birth.
fn push_other_name(
    text: &mut Vec<u8>,
    event_writer: &EventWriter,
    node: NodeKey,
) -> Result<(), AllocError>
    ensures { OnOk result ((names : Names) → Keeps event_writer.now.session.tables names →
        Calls event_writer.now.labels names → text.new.items ≡ text.old.items
        ++ in_parentheses (other_text (last_label names node) (label_of_node names node))) }
{
    let mut other = Vec::new(*text.allocator());
    event_writer.push_other_name(&mut other, node)?;
    push_in_parentheses(text, &other)
}

// Appends the words, in parentheses, if there are some.
fn push_in_parentheses(text: &mut Vec<u8>, words: &[u8]) -> Result<(), AllocError>
    ensures { OnOk result (text.new.items ≡ text.old.items ++ in_parentheses words.now) }
{
    if words.is_empty() {
        return Ok(());
    }
    push_parts(
        text,
        &[Part::Word(" ("), Part::Bytes(words), Part::Word(")")],
    )
}

// Appends this many spaces.
fn push_spaces(text: &mut Vec<u8>, count: u64) -> Result<(), AllocError>
    ensures { OnOk result (text.new.items ≡ text.old.items ++ replicate count 32) }
{
    for at in 0..count {
        push(text, " ")?;
    }
    Ok(())
}

// Appends a row for each node, in a tree of this width, of which these nodes left at the event.
pub(crate) fn push_rows(
    text: &mut Vec<u8>,
    event_writer: &EventWriter,
    rows: &[OutlineRow],
    left: &[NodeKey],
    width: u64,
) -> Result<(), AllocError>
    ensures { OnOk result ((names : Names) → Keeps event_writer.now.session.tables names →
        Calls event_writer.now.labels names → text.new.items ≡ text.old.items
        ++ flat_map (λ r. row_text names width left.now (line_of_row r)) rows.now) }
{
    let left = keys_of(*text.allocator(), left)?;
    push_each_row(text, event_writer, rows, &left, width)
}

// Appends a row for each node, in a tree of this width, of which these nodes left at the event.
fn push_each_row(
    text: &mut Vec<u8>,
    event_writer: &EventWriter,
    rows: &[OutlineRow],
    left: &KeySet,
    width: u64,
) -> Result<(), AllocError>
    ensures { OnOk result ((names : Names) → Keeps event_writer.now.session.tables names →
        Calls event_writer.now.labels names → (keys : List Key) → HasKeys left.now keys →
        text.new.items ≡ text.old.items
        ++ flat_map (told_row names width keys) rows.now) }
{
    for row in rows {
        push_row(text, event_writer, row, left, width)?;
    }
    Ok(())
}

// Appends the row of a node.
fn push_row(
    text: &mut Vec<u8>,
    event_writer: &EventWriter,
    row: &OutlineRow,
    left: &KeySet,
    width: u64,
) -> Result<(), AllocError>
    ensures { OnOk result ((names : Names) → Keeps event_writer.now.session.tables names →
        Calls event_writer.now.labels names → (keys : List Key) → HasKeys left.now keys →
        text.new.items ≡ text.old.items ++ told_row names width keys row.now) }
{
    push_name(text, event_writer, row, width)?;
    push_signs(text, left, &row.node)?;
    push_state_line(text, &event_writer.session.tables, &row.node)?;
    push_facts(text, event_writer, &row.node)
}

// Appends the lines that lead to the node and its name, up to this width.
fn push_name(
    text: &mut Vec<u8>,
    event_writer: &EventWriter,
    row: &OutlineRow,
    width: u64,
) -> Result<(), AllocError>
    ensures { OnOk result ((names : Names) → Keeps event_writer.now.session.tables names →
        Calls event_writer.now.labels names → text.new.items ≡ text.old.items
        ++ name_cell names width (line_of_row row.now)) }
{
    let name = full_name(event_writer, row)?;
    let taken = row.columns.saturating_add(name.len() as u64);
    push_parts(text, &[Part::Bytes(&row.lines), Part::Bytes(&name)])?;
    push_spaces(text, width.saturating_sub(taken))
}

// Appends the sign of what the node is drawn as, and whether it left at this event.
fn push_signs(text: &mut Vec<u8>, left: &KeySet, node: &Node) -> Result<(), AllocError>
    ensures { OnOk result ((keys : List Key) → HasKeys left.now keys →
        text.new.items ≡ text.old.items ++ signs_of_node keys node.now) }
{
    push_parts(
        text,
        &[
            Part::Word("  "),
            Part::Word(sign_cell(class_of(node))),
            Part::Word(mark_of(left, node.key)),
        ],
    )
}

// The sign of what a node is drawn as, or a space.
fn sign_cell(class: Class) -> &'static str
    ensures { result.now ≡ cell_of class }
{
    let sign = class_sign(class);
    if sign.is_empty() { " " } else { sign }
}

// Whether the node is one of these, which left at the event.
fn mark_of(left: &KeySet, key: NodeKey) -> &'static str
    ensures { (keys : List Key) → HasKeys left.now keys → result.now ≡ mark_in keys key }
{
    if left.has(key) { "! " } else { "  " }
}

// Puts what is said of the node behind its state, and the end of its row.
fn push_facts(text: &mut Vec<u8>, event_writer: &EventWriter, node: &Node) -> Result<(), AllocError>
    ensures { OnOk result ((names : Names) → Calls event_writer.now.labels names →
        text.new.items ≡ text.old.items ++ facts_text names node.now) }
{
    push_parts(
        text,
        &[
            Part::Word("; "),
            Part::Word(kind_name(node)),
            Part::Word(dispensable_words(node)),
            Part::Word(weak_words(node)),
        ],
    )?;
    push_asked(text, node.constraints)?;
    push(text, "; ")?;
    push_place(text, &event_writer.labels, node)?;
    push(text, "\n")
}

// That the node is dispensable.
fn dispensable_words(node: &Node) -> &'static str
    ensures { result.now ≡ dispensable_text node.now }
{
    if node.dispensable {
        "; dispensable"
    } else {
        ""
    }
}

// That the node is weak.
fn weak_words(node: &Node) -> &'static str
    ensures { result.now ≡ weak_text node.now }
{
    if node.weak { "; weak" } else { "" }
}

// Appends what is asked for.
fn push_asked(text: &mut Vec<u8>, asked: Option<Constraints>) -> Result<(), AllocError>
    ensures { OnOk result (text.new.items ≡ text.old.items ++ asked_text asked) }
{
    match asked {
        Some(asked) => {
            push(text, "; ")?;
            push_asked_line(text, asked)
        }
        None => Ok(()),
    }
}

// Appends a row for each buffer of the tree with pages.
pub(crate) fn push_held_rows(
    text: &mut Vec<u8>,
    event_writer: &EventWriter,
    clients: &Vec<ClientId>,
    tree: &Tree,
    width: u64,
) -> Result<(), AllocError>
    ensures { OnOk result ((names : Names) → Keeps event_writer.now.session.tables names →
        Calls event_writer.now.labels names → text.new.items ≡ text.old.items
        ++ flat_map (buffer_row event_writer.now.session.core names clients.now.items width
        tree.now.strong.items) tree.now.held.items) }
{
    for buffer in &tree.held {
        push_buffer_row(text, event_writer, clients, tree, *buffer, width)?;
    }
    Ok(())
}

// Appends the row of a buffer.
fn push_buffer_row(
    text: &mut Vec<u8>,
    event_writer: &EventWriter,
    clients: &Vec<ClientId>,
    tree: &Tree,
    buffer: HeldBuffer,
    width: u64,
) -> Result<(), AllocError>
    ensures { OnOk result ((names : Names) → Keeps event_writer.now.session.tables names →
        Calls event_writer.now.labels names → text.new.items ≡ text.old.items
        ++ buffer_row event_writer.now.session.core names clients.now.items width
        tree.now.strong.items buffer) }
{
    push_pages_row(text, event_writer, buffer, width)?;
    push_kept_by(text, event_writer, clients, &tree.strong, buffer)
}

// Appends the name of the buffer and its pages.
fn push_pages_row(
    text: &mut Vec<u8>,
    event_writer: &EventWriter,
    buffer: HeldBuffer,
    width: u64,
) -> Result<(), AllocError>
    ensures { OnOk result ((names : Names) → Keeps event_writer.now.session.tables names →
        text.new.items ≡ text.old.items ++ pages_row names width buffer) }
{
    push_buffer_name(text, event_writer, buffer.buffer, width)?;
    push(text, "     ")?;
    push_pages(text, buffer.pages)
}

// Appends the name of the buffer, up to this width.
fn push_buffer_name(
    text: &mut Vec<u8>,
    event_writer: &EventWriter,
    buffer: BufferName,
    width: u64,
) -> Result<(), AllocError>
    ensures { OnOk result ((names : Names) → Keeps event_writer.now.session.tables names →
        text.new.items ≡ text.old.items
        ++ (buffer_name names buffer ++ spaces (length (buffer_name names buffer)) width)) }
{
    let mut name = Vec::new(*text.allocator());
    event_writer.push_buffer_name(&mut name, buffer)?;
    push_padded(text, &name, width)
}

// Appends the words, up to this width.
fn push_padded(text: &mut Vec<u8>, words: &[u8], width: u64) -> Result<(), AllocError>
    ensures { OnOk result (text.new.items
        ≡ text.old.items ++ (words.now ++ spaces (length words.now) width)) }
{
    text.extend_from_slice(words)?;
    push_spaces(text, width.saturating_sub(words.len() as u64))
}

// Appends the holders of the buffer, where these nodes are strong and live.
fn push_kept_by(
    text: &mut Vec<u8>,
    event_writer: &EventWriter,
    clients: &Vec<ClientId>,
    strong: &[NodeKey],
    buffer: HeldBuffer,
) -> Result<(), AllocError>
    ensures { OnOk result ((names : Names) → Keeps event_writer.now.session.tables names →
        Calls event_writer.now.labels names → text.new.items ≡ text.old.items
        ++ keepers_text event_writer.now.session.core names clients.now.items strong.now buffer) }
{
    push(text, "; kept by ")?;
    push_keepers(text, event_writer, clients, strong, buffer.buffer)?;
    push(text, "\n")
}

// Appends a row for each of these buffers, which gave their pages back.
pub(crate) fn push_freed_rows(
    text: &mut Vec<u8>,
    event_writer: &EventWriter,
    freed: &[HeldBuffer],
    width: u64,
) -> Result<(), AllocError>
    ensures { OnOk result ((names : Names) → Keeps event_writer.now.session.tables names →
        text.new.items ≡ text.old.items ++ flat_map (freed_row names width) freed.now) }
{
    for buffer in freed {
        push_freed_row(text, event_writer, *buffer, width)?;
    }
    Ok(())
}

// Appends the row of a buffer that gave its pages back.
fn push_freed_row(
    text: &mut Vec<u8>,
    event_writer: &EventWriter,
    buffer: HeldBuffer,
    width: u64,
) -> Result<(), AllocError>
    ensures { OnOk result ((names : Names) → Keeps event_writer.now.session.tables names →
        text.new.items ≡ text.old.items ++ freed_row names width buffer) }
{
    push_pages_row(text, event_writer, buffer, width)?;
    push(text, "; home\n")
}
