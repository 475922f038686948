//! A picture as text.
ghost use Rattle.std.specs.Prelude.{◌≡◌, ◌++◌, OnOk, map, IfErr};
ghost use Rattle.std.specs.List.{flat_map, list_any};
ghost use Rattle.script_labels.specs.Names.{Names};
ghost use Rattle.script_labels.specs.Tables.{Keeps};
ghost use Rattle.event_texts.specs.Called.{Calls};
ghost use Rattle.picture_text.specs.Outlines.{line_of_row, outline};
ghost use Rattle.picture_text.specs.TextPictures.{fired_line, fired_lines, has_page, head_text, picture_text, pool_signs, pool_text, sign_of_page, signs_of_pages, tree_text};

use crate::outline::{OutlineRow, outline_of};
use crate::rows::{push_freed_rows, push_held_rows, push_rows, width_of};
use event_texts::EventWriter;
use lifetime_core::Core;
use picture_model::{Picture, Tree, push_fired, push_free_pages, push_header};
use script_labels::{LineStop, Tables};
use script_lines::push;
use sm_names::{ClientId, Fired, HeldBuffer};
use std::alloc::AllocError;

// The most pages of a pool of which each is drawn.
const MOST_DRAWN: u32 = 64;

/// Appends the picture, where the last event has this line.
///
/// `NoMemory` where memory is refused. Costs O(n log n) for the n nodes of each tree, the text, a look-up
/// of each label, and for each buffer a look-up for each client and strength.
#[tactic(auto, unfolding(crate::specs::TextPictures::picture_text))]
pub fn push_text(
    text: &mut Vec<u8>,
    event_writer: &EventWriter,
    picture: &Picture,
    line: &[u8],
) -> Result<(), LineStop>
    ensures text { OnOk result ((names : Names) → Keeps event_writer.now.session.tables names →
        Calls event_writer.now.labels names → text.new.items ≡ text.old.items
        ++ picture_text event_writer.now.session.core names line.now picture.now.trees.items) }
    ensures err { IfErr result (λ stop. stop ≡ LineStop.NoMemory) }
{
    let core = &event_writer.session.core;
    push_head(text, core.events(), line)?;
    let clients = core.clients()?;
    push_trees(text, event_writer, &clients, &picture.trees)?;
    push_pool(text, core)?;
    push_firings(text, &event_writer.session.tables, core.fired())?;
    Ok(())
}

// Appends the number of the event and its line.
fn push_head(text: &mut Vec<u8>, event: u64, line: &[u8]) -> Result<(), AllocError>
    ensures { OnOk result (text.new.items ≡ text.old.items ++ head_text event line.now) }
{
    push_header(text, event, line)?;
    push(text, "\n")
}

// Appends the trees, each behind an empty line.
fn push_trees(
    text: &mut Vec<u8>,
    event_writer: &EventWriter,
    clients: &Vec<ClientId>,
    trees: &[Tree],
) -> Result<(), AllocError>
    ensures { OnOk result ((names : Names) → Keeps event_writer.now.session.tables names →
        Calls event_writer.now.labels names → text.new.items ≡ text.old.items
        ++ flat_map (tree_text event_writer.now.session.core names clients.now.items) trees.now) }
{
    for tree in trees {
        push_tree(text, event_writer, clients, tree)?;
    }
    Ok(())
}

// Appends a tree, behind an empty line: a row for each node, one for each buffer with pages, and one for each
// that gave its pages back.
fn push_tree(
    text: &mut Vec<u8>,
    event_writer: &EventWriter,
    clients: &Vec<ClientId>,
    tree: &Tree,
) -> Result<(), AllocError>
    ensures { OnOk result ((names : Names) → Keeps event_writer.now.session.tables names →
        Calls event_writer.now.labels names → text.new.items ≡ text.old.items
        ++ tree_text event_writer.now.session.core names clients.now.items tree.now) }
{
    let rows = outline_of(&tree.nodes)?;
    push_grown(text, event_writer, clients, tree, &rows)
}

// Appends a tree, whose nodes have these rows.
fn push_grown(
    text: &mut Vec<u8>,
    event_writer: &EventWriter,
    clients: &Vec<ClientId>,
    tree: &Tree,
    rows: &Vec<OutlineRow>,
) -> Result<(), AllocError>
    ensures { OnOk result ((names : Names) → Keeps event_writer.now.session.tables names →
        Calls event_writer.now.labels names →
        map line_of_row rows.now.items ≡ outline tree.now.nodes.items → text.new.items
        ≡ text.old.items ++ tree_text event_writer.now.session.core names clients.now.items tree.now) }
{
    let width = width_of(event_writer, rows)?;
    push(text, "\n")?;
    push_rows(text, event_writer, rows, &tree.left, width)?;
    push_held_rows(text, event_writer, clients, tree, width)?;
    push_freed_rows(text, event_writer, &tree.freed, width)
}

// Appends the pool, behind an empty line: a sign for each page, and how many are free.
fn push_pool(text: &mut Vec<u8>, core: &Core) -> Result<(), LineStop>
    ensures text { OnOk result (text.new.items ≡ text.old.items ++ pool_text core.now) }
    ensures err { IfErr result (λ stop. stop ≡ LineStop.NoMemory) }
{
    let held = core.held()?;
    push(text, "\npool ")?;
    push_signs(text, &held, core.pages())?;
    push_free_pages(text, core.free_pages(), core.pages())?;
    push(text, "\n")?;
    Ok(())
}

// Appends a sign for each of this many pages, unless they are many.
fn push_signs(text: &mut Vec<u8>, held: &[HeldBuffer], pages: u32) -> Result<(), AllocError>
    ensures { OnOk result (text.new.items ≡ text.old.items ++ pool_signs held.now pages) }
{
    if MOST_DRAWN < pages {
        return Ok(());
    }
    push_each_sign(text, held, pages)?;
    push(text, " ")
}

// Appends a sign for each of this many pages.
fn push_each_sign(text: &mut Vec<u8>, held: &[HeldBuffer], pages: u32) -> Result<(), AllocError>
    ensures { OnOk result (text.new.items ≡ text.old.items ++ signs_of_pages held.now pages) }
{
    for page in 0..pages {
        push(text, sign_of(held, page))?;
    }
    Ok(())
}

// The sign for a page of the pool.
fn sign_of(held: &[HeldBuffer], page: u32) -> &'static str
    ensures { result.now ≡ sign_of_page held.now page }
{
    if is_held(held, page) { "█" } else { "░" }
}

// Whether the page is one of a buffer's.
fn is_held(held: &[HeldBuffer], page: u32) -> bool
    ensures { result ≡ list_any (has_page page) held.now }
{
    held.iter().any(|buffer| is_on(buffer, page))
}

// Whether the page is one of the buffer's.
fn is_on(buffer: &HeldBuffer, page: u32) -> bool
    ensures { result ≡ has_page page buffer.now }
{
    buffer.pages.start <= page && page - buffer.pages.start < buffer.pages.pages
}

// Appends each of the trackers that fired so far, in a line of its own.
fn push_firings(text: &mut Vec<u8>, tables: &Tables, fired: &[Fired]) -> Result<(), AllocError>
    ensures { OnOk result ((names : Names) → Keeps tables.now names →
        text.new.items ≡ text.old.items ++ fired_lines names fired.now) }
{
    for firing in fired {
        push_fired_line(text, tables, *firing)?;
    }
    Ok(())
}

// Appends the line of a tracker that fired.
fn push_fired_line(text: &mut Vec<u8>, tables: &Tables, firing: Fired) -> Result<(), AllocError>
    ensures { OnOk result ((names : Names) → Keeps tables.now names →
        text.new.items ≡ text.old.items ++ fired_line names firing) }
{
    push_fired(text, tables, firing)?;
    push(text, "\n")
}
