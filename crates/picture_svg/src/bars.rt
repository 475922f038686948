//! The buffers of a tree as a vector graphic: a bar for each, and beside it the holders that keep it.
ghost use Rattle.std.specs.Prelude.{◌≡◌, ◌++◌, codes, IfOk, OnOk, map};
ghost use Rattle.std.specs.List.{filter};
ghost use Rattle.script_labels.specs.Names.{Names};
ghost use Rattle.script_labels.specs.Tables.{Keeps};
ghost use Rattle.event_texts.specs.Called.{Calls};
ghost use Rattle.picture_svg.specs.Bars.{bar_text, bars_bottom, bars_right, bars_text, words_column, buffer_line as line_of_buffer, freed_shown, has_index as has_index_in, held_shown, kept_line as line_of_keepers, shown_at, shown_in, shown_of};

use crate::elements::{MARGIN, Rect, plain, push_rect, push_words};
use event_texts::EventWriter;
use picture_layout::{COLUMN_GAP, plus, times};
use picture_model::colors::{EARTH, SAND, WHITE};
use picture_model::{Tree, push_keepers, push_pages};
use script_lines::push;
use sm_names::{ClientId, HeldBuffer, MAX_BUFFERS, NodeKey};
use std::alloc::{AllocError, Global};

// How many indices the buffers of a collection may have.
const INDICES: u8 = MAX_BUFFERS as u8;

// What is drawn of a buffer: its name and pages, its holders, for how many letters these have room, and its
// colours.
#[derive(Drop)]
pub(crate) struct Bar {
    pub(crate) name: Vec<u8>,
    pub(crate) keepers: Vec<u8>,
    pub(crate) letters: u64,
    pub(crate) fill: &'static str,
    pub(crate) dashes: &'static str,
}

// The row below bars, and their last column.
#[derive(Clone, Copy)]
pub(crate) struct Extent {
    pub(crate) bottom: u64,
    pub(crate) right: u64,
}

// The buffers of a tree by index, those that gave their pages back among them.
pub(crate) fn bars_of(
    event_writer: &EventWriter,
    clients: &Vec<ClientId>,
    tree: &Tree,
) -> Result<Vec<Bar>, AllocError>
    ensures { IfOk result (λ bars. (names : Names) → Keeps event_writer.now.session.tables names →
        Calls event_writer.now.labels names → map shown_in bars.items
        ≡ shown_of event_writer.now.session.core names clients.now.items tree.now) }
{
    let mut bars = Vec::new(*clients.allocator());
    for index in 0..INDICES {
        add_index(&mut bars, event_writer, clients, tree, index)?;
    }
    Ok(bars)
}

// Puts the buffers with this index behind those that are there.
fn add_index(
    bars: &mut Vec<Bar>,
    event_writer: &EventWriter,
    clients: &Vec<ClientId>,
    tree: &Tree,
    index: u8,
) -> Result<(), AllocError>
    ensures { OnOk result ((names : Names) → Keeps event_writer.now.session.tables names →
        Calls event_writer.now.labels names → map shown_in bars.new.items ≡ map shown_in bars.old.items
        ++ shown_at event_writer.now.session.core names clients.now.items tree.now index) }
{
    add_held(bars, event_writer, clients, tree, index)?;
    add_freed(bars, event_writer, &tree.freed, index)
}

// Puts the buffers with pages and this index behind those that are there.
fn add_held(
    bars: &mut Vec<Bar>,
    event_writer: &EventWriter,
    clients: &Vec<ClientId>,
    tree: &Tree,
    index: u8,
) -> Result<(), AllocError>
    ensures { OnOk result ((names : Names) → Keeps event_writer.now.session.tables names →
        Calls event_writer.now.labels names → map shown_in bars.new.items ≡ map shown_in bars.old.items
        ++ map (held_shown event_writer.now.session.core names clients.now.items tree.now.strong.items)
        (filter (has_index_in index) tree.now.held.items)) }
{
    for held in &tree.held {
        if has_index(*held, index) {
            bars.push(held_bar(event_writer, clients, &tree.strong, *held)?)?;
        }
    }
    Ok(())
}

// Puts the buffers with this index that gave their pages back behind those that are there.
fn add_freed(
    bars: &mut Vec<Bar>,
    event_writer: &EventWriter,
    freed: &[HeldBuffer],
    index: u8,
) -> Result<(), AllocError>
    ensures { OnOk result ((names : Names) → Keeps event_writer.now.session.tables names →
        map shown_in bars.new.items ≡ map shown_in bars.old.items
        ++ map (freed_shown names) (filter (has_index_in index) freed.now)) }
{
    for held in freed {
        if has_index(*held, index) {
            bars.push(freed_bar(*bars.allocator(), event_writer, *held)?)?;
        }
    }
    Ok(())
}

// Whether the buffer has this index.
fn has_index(held: HeldBuffer, index: u8) -> bool
    ensures { result ≡ has_index_in index held }
{
    held.buffer.index == index
}

// A buffer with pages.
fn held_bar(
    event_writer: &EventWriter,
    clients: &Vec<ClientId>,
    strong: &[NodeKey],
    held: HeldBuffer,
) -> Result<Bar, AllocError>
    ensures { IfOk result (λ bar. (names : Names) → Keeps event_writer.now.session.tables names →
        Calls event_writer.now.labels names → shown_in bar
        ≡ held_shown event_writer.now.session.core names clients.now.items strong.now held) }
{
    let name = buffer_line(*clients.allocator(), event_writer, held)?;
    let keepers = kept_line(event_writer, clients, strong, held)?;
    let letters = keepers.len() as u64;
    Ok(Bar {
        name,
        keepers,
        letters,
        fill: SAND,
        dashes: "",
    })
}

// A buffer that gave its pages back.
fn freed_bar(
    alloc: Global,
    event_writer: &EventWriter,
    freed: HeldBuffer,
) -> Result<Bar, AllocError>
    ensures { IfOk result (λ bar. (names : Names) → Keeps event_writer.now.session.tables names →
        shown_in bar ≡ freed_shown names freed) }
{
    let name = buffer_line(alloc, event_writer, freed)?;
    let keepers = words_for_freed(alloc)?;
    Ok(Bar {
        name,
        keepers,
        letters: 4,
        fill: WHITE,
        dashes: "3 3",
    })
}

// What is said of a buffer that gave its pages back.
fn words_for_freed(alloc: Global) -> Result<Vec<u8>, AllocError>
    ensures { IfOk result (λ words.
        words.items ≡ codes "home") }
{
    let mut words = Vec::new(alloc);
    push(&mut words, "home")?;
    Ok(words)
}

// The name and the pages of a buffer.
#[tactic(auto, unfolding(crate::specs::Bars::buffer_line))]
fn buffer_line(
    alloc: Global,
    event_writer: &EventWriter,
    held: HeldBuffer,
) -> Result<Vec<u8>, AllocError>
    ensures { IfOk result (λ line. (names : Names) → Keeps event_writer.now.session.tables names →
        line.items ≡ line_of_buffer names held) }
{
    let mut line = Vec::new(alloc);
    event_writer.push_buffer_name(&mut line, held.buffer)?;
    push(&mut line, "  ")?;
    push_pages(&mut line, held.pages)?;
    Ok(line)
}

// Who keeps a buffer.
#[tactic(auto, unfolding(crate::specs::Bars::kept_line))]
fn kept_line(
    event_writer: &EventWriter,
    clients: &Vec<ClientId>,
    strong: &[NodeKey],
    held: HeldBuffer,
) -> Result<Vec<u8>, AllocError>
    ensures { IfOk result (λ line. (names : Names) → Keeps event_writer.now.session.tables names →
        Calls event_writer.now.labels names → line.items
        ≡ line_of_keepers event_writer.now.session.core names clients.now.items strong.now held) }
{
    let mut line = Vec::new(*clients.allocator());
    push(&mut line, "kept by ")?;
    push_keepers(&mut line, event_writer, clients, strong, held.buffer)?;
    Ok(line)
}

// Draws these buffers from this row on, where a box has this width; answers the row below them, and their last
// column, or this one.
pub(crate) fn push_bars(
    body: &mut Vec<u8>,
    bars: &[Bar],
    width: u64,
    row: u64,
    right: u64,
) -> Result<Extent, AllocError>
    ensures text { OnOk result (body.new.items
        ≡ body.old.items ++ bars_text width row (map shown_in bars.now)) }
    ensures bottom { IfOk result (λ extent.
        extent.bottom ≡ bars_bottom row (map shown_in bars.now)) }
    ensures right { IfOk result (λ extent.
        extent.right ≡ bars_right width right (map shown_in bars.now)) }
{
    let bottom = push_rows(body, bars, width, row)?;
    Ok(Extent {
        bottom,
        right: right_of(bars, width, right),
    })
}

// Draws these buffers from this row on; answers the row below them.
fn push_rows(body: &mut Vec<u8>, bars: &[Bar], width: u64, row: u64) -> Result<u64, AllocError>
    ensures text { OnOk result (body.new.items
        ≡ body.old.items ++ bars_text width row (map shown_in bars.now)) }
    ensures bottom { IfOk result (λ bottom. bottom ≡ bars_bottom row (map shown_in bars.now)) }
{
    let mut y = row;
    let mut rest = bars;
    'bars: while let Some((bar, later)) = rest.split_first() {
        push_bar(body, bar, width, y)?;
        y = plus(y, 26);
        rest = later;
    }
    Ok(y)
}

// The last column of the words beside these buffers, or this one.
#[tactic(auto, unfolding(crate::specs::Bars::bars_right))]
fn right_of(bars: &[Bar], width: u64, start: u64) -> u64
    ensures { result ≡ bars_right width start (map shown_in bars.now) }
{
    let mut right = start;
    for bar in bars {
        right = right.max(plus(beside(width), times(8, bar.letters)));
    }
    right
}

// The column of the words beside a buffer, where a box has this width.
fn beside(width: u64) -> u64
    ensures { result ≡ words_column width }
{
    plus(MARGIN + COLUMN_GAP, width)
}

// Draws a buffer in this row, and puts its holders beside it.
#[tactic(auto, unfolding(crate::specs::Bars::bar_text))]
fn push_bar(body: &mut Vec<u8>, bar: &Bar, width: u64, y: u64) -> Result<(), AllocError>
    ensures { OnOk result (body.new.items
        ≡ body.old.items ++ bar_text width y (shown_in bar.now)) }
{
    push_rect(
        body,
        &Rect {
            x: MARGIN,
            y,
            width: 216,
            height: 22,
            rounded: 3,
            fill: bar.fill,
            stroke: EARTH,
            stroke_width: "",
            dashes: bar.dashes,
        },
    )?;
    let below = plus(y, 15);
    push_words(body, MARGIN + 10, below, plain(12), &bar.name)?;
    push_words(body, beside(width), below, plain(12), &bar.keepers)
}
