//! The tables of buffers in the language of Graphviz.
ghost use Rattle.std.specs.Prelude.{◌≡◌, ◌++◌, OnOk};
ghost use Rattle.std.specs.List.{flat_map};
ghost use Rattle.script_labels.specs.Names.{Names};
ghost use Rattle.script_labels.specs.Tables.{Keeps};
ghost use Rattle.event_texts.specs.Called.{Calls};
ghost use Rattle.picture_dot.specs.DotPictures.{buffers_table, cells_text, freed_row, has_table as has_table_in, held_row, table_text, table_words};

use event_texts::EventWriter;
use picture_model::{Tree, push_keepers, push_pages};
use script_lines::{push, push_number};
use sm_names::{ClientId, HeldBuffer, NodeKey};
use std::alloc::AllocError;

// Whether a table of buffers is drawn.
pub(crate) fn has_table(tree: &Tree) -> bool
    ensures { result ≡ has_table_in tree.now }
{
    !tree.held.is_empty() || !tree.freed.is_empty()
}

// Appends the table of the tree's buffers, if there is one.
pub(crate) fn push_table_of(
    text: &mut Vec<u8>,
    event_writer: &EventWriter,
    clients: &Vec<ClientId>,
    tree: &Tree,
) -> Result<(), AllocError>
    ensures { OnOk result ((names : Names) → Keeps event_writer.now.session.tables names →
        Calls event_writer.now.labels names → text.new.items ≡ text.old.items
        ++ buffers_table event_writer.now.session.core names clients.now.items tree.now) }
{
    if has_table(tree) {
        push_table(text, event_writer, clients, tree)
    } else {
        Ok(())
    }
}

// Appends the table of the tree's buffers.
#[tactic(auto, unfolding(crate::specs::DotPictures::table_text))]
fn push_table(
    text: &mut Vec<u8>,
    event_writer: &EventWriter,
    clients: &Vec<ClientId>,
    tree: &Tree,
) -> Result<(), AllocError>
    ensures { OnOk result ((names : Names) → Keeps event_writer.now.session.tables names →
        Calls event_writer.now.labels names → text.new.items ≡ text.old.items
        ++ table_text event_writer.now.session.core names clients.now.items tree.now) }
{
    push(text, "    b")?;
    push_number(text, tree.id)?;
    push(text, words_for_table())?;
    push_held_rows(text, event_writer, clients, tree)?;
    push_freed_rows(text, event_writer, &tree.freed)?;
    push(text, "</table>>];\n")
}

// What is set for a table, and its first row.
#[tactic(auto, unfolding(crate::specs::DotPictures::table_words))]
fn words_for_table() -> &'static str
    ensures { result.now ≡ table_words }
{
    " [shape=plain, label=<<table border=\"0\" cellborder=\"1\" cellspacing=\"0\" cellpadding=\"4\" \
     color=\"#666666\"><tr><td><b>buffer</b></td><td><b>pages</b></td><td align=\"left\"><b>kept by</b>\
     </td></tr>"
}

// Appends a row for each buffer with pages.
fn push_held_rows(
    text: &mut Vec<u8>,
    event_writer: &EventWriter,
    clients: &Vec<ClientId>,
    tree: &Tree,
) -> Result<(), AllocError>
    ensures { OnOk result ((names : Names) → Keeps event_writer.now.session.tables names →
        Calls event_writer.now.labels names → text.new.items ≡ text.old.items
        ++ flat_map (held_row event_writer.now.session.core names clients.now.items
        tree.now.strong.items) tree.now.held.items) }
{
    for buffer in &tree.held {
        push_held_row(text, event_writer, clients, &tree.strong, *buffer)?;
    }
    Ok(())
}

// Appends the row of a buffer with pages.
#[tactic(auto, unfolding(crate::specs::DotPictures::held_row))]
fn push_held_row(
    text: &mut Vec<u8>,
    event_writer: &EventWriter,
    clients: &Vec<ClientId>,
    strong: &[NodeKey],
    buffer: HeldBuffer,
) -> Result<(), AllocError>
    ensures { OnOk result ((names : Names) → Keeps event_writer.now.session.tables names →
        Calls event_writer.now.labels names → text.new.items ≡ text.old.items
        ++ held_row event_writer.now.session.core names clients.now.items strong.now buffer) }
{
    push_cells(text, event_writer, buffer, "<td bgcolor=\"#FAF2CC\">")?;
    push_keepers(text, event_writer, clients, strong, buffer.buffer)?;
    push(text, "</td></tr>")
}

// Appends the cells of the buffer's name and pages, each begun so, and the begin of one more.
fn push_cells(
    text: &mut Vec<u8>,
    event_writer: &EventWriter,
    buffer: HeldBuffer,
    begin: &str,
) -> Result<(), AllocError>
    ensures { OnOk result ((names : Names) → Keeps event_writer.now.session.tables names →
        text.new.items ≡ text.old.items ++ cells_text names begin.now buffer) }
{
    push(text, "<tr>")?;
    push(text, begin)?;
    event_writer.push_buffer_name(text, buffer.buffer)?;
    push(text, "</td>")?;
    push(text, begin)?;
    push_pages(text, buffer.pages)?;
    push(text, "</td><td align=\"left\">")
}

// Appends a row for each buffer that gave its pages back.
fn push_freed_rows(
    text: &mut Vec<u8>,
    event_writer: &EventWriter,
    freed: &[HeldBuffer],
) -> Result<(), AllocError>
    ensures { OnOk result ((names : Names) → Keeps event_writer.now.session.tables names →
        text.new.items ≡ text.old.items ++ flat_map (freed_row names) freed.now) }
{
    for buffer in freed {
        push_freed_row(text, event_writer, *buffer)?;
    }
    Ok(())
}

// Appends the row of a buffer that gave its pages back.
#[tactic(auto, unfolding(crate::specs::DotPictures::freed_row))]
fn push_freed_row(
    text: &mut Vec<u8>,
    event_writer: &EventWriter,
    buffer: HeldBuffer,
) -> Result<(), AllocError>
    ensures { OnOk result ((names : Names) → Keeps event_writer.now.session.tables names →
        text.new.items ≡ text.old.items ++ freed_row names buffer) }
{
    push_cells(text, event_writer, buffer, "<td>")?;
    push(text, "home</td></tr>")
}
