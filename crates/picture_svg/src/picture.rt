//! A picture as a vector graphic, laid out by the program itself.
ghost use Rattle.std.specs.Prelude.{◌≡◌, ◌+◌, ◌++◌, codes, false, true, IfOk, OnOk, map, IfErr};
ghost use Rattle.std.specs.List.{flat_map, fold};
ghost use Rattle.forest_store.specs.Forest.{held_by_page};
ghost use Rattle.core_state.specs.Reads.{views_of};
ghost use Rattle.script_labels.specs.Names.{Names};
ghost use Rattle.script_labels.specs.Tables.{Keeps};
ghost use Rattle.event_texts.specs.Called.{Calls};
ghost use Rattle.picture_model.specs.BoxLines.{fired_words};
ghost use Rattle.picture_model.specs.Features.{free_words};
ghost use Rattle.picture_svg.specs.Elements.{look, look_of, rect_text};
ghost use Rattle.picture_svg.specs.Trees.{line_items};
ghost use Rattle.picture_svg.specs.SvgPictures.{all_trees, body_text, box_width as width_of_box, cell_name, cell_paint, fact_text, fires_bottom, svg_fires, frame_text, framed_text, height_of, held_cell, svg_free, svg_held, last_column, lines_tenths as tenths_of_lines, longest_of as longest_in, mark_look, marks_bottom, svg_marks, name_tenths as tenths_of_name, node_tenths as tenths_of_node, page_width as width_of_page, pool_row, svg_pool, right_of, svg_text, title_text, svg_told, tree_tenths as tenths_of_tree, trees_row, width_of};

use crate::bars::Extent;
use crate::box_lines::node_lines;
use crate::elements::{MARGIN, Rect, Style, bold, colored, plain, push_rect, push_words};
use crate::legend::push_legend;
use crate::tree::{Sheet, push_trees};
use event_facts::fired_since;
use event_texts::EventWriter;
use event_texts::words::push_name;
use forest_store::Node;
use picture_layout::{minus, plus, times};
use picture_model::colors::{DEEP, EARTH, GREY, INK, RED, SAND, WHITE};
use picture_model::{
    Picture, ToldMark, Tree, push_fired, push_free_pages, push_header, travels_by_node,
};
use script_labels::{LineStop, Tables};
use script_lines::{Part, push_parts};
use sm_names::{Fired, HeldBuffer, NodeKey};
use std::alloc::{AllocError, Global};

/// Appends the picture; the last event has this line. It shows what the event did, the trees, the
/// pool, and what its signs stand for.
///
/// `NoMemory` where memory is refused. Costs O(n log n) for the n nodes of each tree and the n links that
/// failures followed, a look-up of each label, and for each buffer a look-up for each client and
/// strength.
#[tactic(auto, unfolding(crate::specs::SvgPictures::svg_text))]
pub fn push_svg(
    text: &mut Vec<u8>,
    event_writer: &EventWriter,
    picture: &Picture,
    line: &[u8],
) -> Result<(), LineStop>
    ensures text { OnOk result ((names : Names) → Keeps event_writer.now.session.tables names →
        Calls event_writer.now.labels names → text.new.items ≡ text.old.items
        ++ svg_text event_writer.now.session.core names line.now picture.now) }
    ensures err { IfErr result (λ stop. stop ≡ LineStop.NoMemory) }
{
    let mut body = Vec::new(*text.allocator());
    let extent = push_body(&mut body, event_writer, picture, line)?;
    push_whole(text, extent, &body)?;
    Ok(())
}

// Appends these elements in a frame of this size.
fn push_whole(text: &mut Vec<u8>, extent: Extent, body: &Vec<u8>) -> Result<(), AllocError>
    ensures { OnOk result (text.new.items ≡ text.old.items
        ++ framed_text extent.right extent.bottom body.now.items) }
{
    push_frame(text, extent.right, extent.bottom)?;
    push_framed(text, body)
}

// Appends what stands in the frame; answers the width and the height of the picture.
#[tactic(auto, unfolding(crate::specs::SvgPictures::body_text))]
fn push_body(
    body: &mut Vec<u8>,
    event_writer: &EventWriter,
    picture: &Picture,
    line: &[u8],
) -> Result<Extent, LineStop>
    ensures text { OnOk result ((names : Names) → Keeps event_writer.now.session.tables names →
        Calls event_writer.now.labels names → body.new.items ≡ body.old.items
        ++ body_text event_writer.now.session.core names line.now picture.now) }
    ensures bottom { IfOk result (λ extent. (names : Names) →
        Keeps event_writer.now.session.tables names →
        Calls event_writer.now.labels names →
        extent.bottom ≡ height_of event_writer.now.session.core names picture.now) }
    ensures right { IfOk result (λ extent. (names : Names) →
        Keeps event_writer.now.session.tables names →
        Calls event_writer.now.labels names →
        extent.right ≡ width_of event_writer.now.session.core names picture.now) }
    ensures err { IfErr result (λ stop. stop ≡ LineStop.NoMemory) }
{
    push_title(body, event_writer.session.core.events(), line)?;
    let row = push_told(body, event_writer, picture)?;
    let trees = push_all_trees(body, event_writer, picture, row)?;
    push_pool(body, event_writer, trees.bottom)?;
    let legend = plus(trees.bottom, 44);
    push_legend(body, legend)?;
    Ok(Extent {
        bottom: plus(legend, 36 + MARGIN),
        right: plus(
            right_column(event_writer.session.core.pages(), trees.right),
            MARGIN,
        ),
    })
}

// The last column of the trees, which is this, of the pool, which has this many pages, and of the legend.
fn right_column(pages: u32, trees: u64) -> u64
    ensures { result ≡ right_of pages trees }
{
    let pool = plus(MARGIN + 60 + 170, times(page_width(pages), pages as u64));
    trees.max(pool).max(MARGIN + 558 + 150)
}

// Draws the trees from this row on; answers the row below them, and their last column.
#[tactic(auto, unfolding(crate::specs::SvgPictures::all_trees))]
fn push_all_trees(
    body: &mut Vec<u8>,
    event_writer: &EventWriter,
    picture: &Picture,
    row: u64,
) -> Result<Extent, LineStop>
    ensures text { OnOk result ((names : Names) → Keeps event_writer.now.session.tables names →
        Calls event_writer.now.labels names → row ≡ trees_row event_writer.now.session.core picture.now →
        body.new.items ≡ body.old.items ++ all_trees event_writer.now.session.core names picture.now) }
    ensures bottom { IfOk result (λ extent. (names : Names) →
        Keeps event_writer.now.session.tables names →
        Calls event_writer.now.labels names →
        row ≡ trees_row event_writer.now.session.core picture.now →
        extent.bottom ≡ pool_row event_writer.now.session.core names picture.now) }
    ensures right { IfOk result (λ extent. (names : Names) →
        Keeps event_writer.now.session.tables names →
        Calls event_writer.now.labels names →
        row ≡ trees_row event_writer.now.session.core picture.now →
        extent.right ≡ last_column event_writer.now.session.core names picture.now) }
    ensures err { IfErr result (λ stop. stop ≡ LineStop.NoMemory) }
{
    let clients = event_writer.session.core.clients()?;
    let travels = travels_by_node(*body.allocator(), &picture.travels)?;
    let width = box_width(event_writer, &picture.trees)?;
    let sheet = Sheet {
        event_writer,
        clients: &clients,
        travels: &travels,
        width,
    };
    let extent = push_trees(body, &sheet, &picture.trees, row)?;
    Ok(extent)
}

// Appends these elements, and the end of the picture.
fn push_framed(text: &mut Vec<u8>, body: &Vec<u8>) -> Result<(), AllocError>
    ensures { OnOk result (text.new.items
        ≡ text.old.items ++ (body.now.items ++ codes "</svg>\n")) }
{
    push_parts(
        text,
        &[Part::Bytes(body.as_slice()), Part::Word("</svg>\n")],
    )
}

// The width that a box needs: an even number, for the longest line of all boxes.
#[tactic(auto, unfolding(crate::specs::SvgPictures::box_width))]
fn box_width(event_writer: &EventWriter, trees: &[Tree]) -> Result<u64, AllocError>
    ensures { IfOk result (λ width. (names : Names) → Keeps event_writer.now.session.tables names →
        Calls event_writer.now.labels names → width ≡ width_of_box names trees.now) }
{
    let tenths = all_tenths(event_writer, trees)?;
    Ok(plus(tenths, 10) / 10 / 2 * 2)
}

// The width that the longest line of all boxes needs, in tenths, and at least that of a narrow box.
fn all_tenths(event_writer: &EventWriter, trees: &[Tree]) -> Result<u64, AllocError>
    ensures { IfOk result (λ tenths. (names : Names) → Keeps event_writer.now.session.tables names →
        Calls event_writer.now.labels names → tenths ≡ fold (tenths_of_tree names) 2000 trees.now) }
{
    let mut tenths: u64 = 2000;
    for tree in trees {
        tenths = tree_tenths(event_writer, tree, tenths)?;
    }
    Ok(tenths)
}

// The width that the longest line of the tree's boxes needs, in tenths, or this one.
fn tree_tenths(event_writer: &EventWriter, tree: &Tree, start: u64) -> Result<u64, AllocError>
    ensures { IfOk result (λ tenths. (names : Names) → Keeps event_writer.now.session.tables names →
        Calls event_writer.now.labels names → tenths ≡ tenths_of_tree names start tree.now) }
{
    let mut tenths = start;
    for node in &tree.nodes {
        tenths = node_tenths(*tree.nodes.allocator(), event_writer, node, tenths)?;
    }
    Ok(tenths)
}

// The width that the longest line of the node's box needs, in tenths, or this one.
fn node_tenths(
    alloc: Global,
    event_writer: &EventWriter,
    node: &Node,
    start: u64,
) -> Result<u64, AllocError>
    ensures { IfOk result (λ tenths. (names : Names) → Keeps event_writer.now.session.tables names →
        Calls event_writer.now.labels names → tenths ≡ tenths_of_node names start node.now) }
{
    let head = name_tenths(alloc, &event_writer.session.tables, node.key)?;
    let below = lines_tenths(alloc, event_writer, node)?;
    Ok(start.max(head).max(below))
}

// The width that the name of a node needs, in tenths.
fn name_tenths(alloc: Global, tables: &Tables, node: NodeKey) -> Result<u64, AllocError>
    ensures { IfOk result (λ tenths. (names : Names) → Keeps tables.now names →
        tenths ≡ tenths_of_name names node) }
{
    let mut name = Vec::new(alloc);
    push_name(&mut name, tables, node)?;
    Ok(plus(240, times(90, plus(name.len() as u64, 2))))
}

// The width that the longest line of the node's box below its name needs, in tenths.
fn lines_tenths(alloc: Global, event_writer: &EventWriter, node: &Node) -> Result<u64, AllocError>
    ensures { IfOk result (λ tenths. (names : Names) → Keeps event_writer.now.session.tables names →
        Calls event_writer.now.labels names → tenths ≡ tenths_of_lines names node.now) }
{
    let lines = node_lines(alloc, event_writer, node)?;
    Ok(plus(240, times(73, longest_of(&lines))))
}

// The length of the longest of these lines.
fn longest_of(lines: &[Vec<u8>]) -> u64
    ensures { result ≡ longest_in (map line_items lines.now) }
{
    let mut longest: u64 = 0;
    for line in lines {
        longest = longest.max(line.len() as u64);
    }
    longest
}

// Appends the event and its line.
#[tactic(auto, unfolding(crate::specs::SvgPictures::title_text))]
fn push_title(body: &mut Vec<u8>, event: u64, line: &[u8]) -> Result<(), AllocError>
    ensures { OnOk result (body.new.items ≡ body.old.items ++ title_text event line.now) }
{
    let mut title = Vec::new(*body.allocator());
    push_header(&mut title, event, line)?;
    push_words(body, MARGIN, MARGIN + 14, bold(18, INK), &title)
}

// Draws what the event did, in a line for each mark and each firing; answers the row of the trees.
#[tactic(auto, unfolding(crate::specs::SvgPictures::svg_told))]
fn push_told(
    body: &mut Vec<u8>,
    event_writer: &EventWriter,
    picture: &Picture,
) -> Result<u64, AllocError>
    ensures text { OnOk result ((names : Names) → Keeps event_writer.now.session.tables names →
        body.new.items ≡ body.old.items ++ svg_told event_writer.now.session.core names picture.now) }
    ensures row { IfOk result (λ row. row ≡ trees_row event_writer.now.session.core picture.now) }
{
    let row = push_marks(body, &picture.told, MARGIN + 50)?;
    let fired = fired_since(&event_writer.session.core, picture.fired);
    let below = push_fires(body, &event_writer.session.tables, fired, row)?;
    Ok(plus(below, 8))
}

// Draws these marks from this row on; answers the row below them.
fn push_marks(body: &mut Vec<u8>, marks: &[ToldMark], row: u64) -> Result<u64, AllocError>
    ensures text { OnOk result (body.new.items ≡ body.old.items ++ svg_marks row marks.now) }
    ensures row { IfOk result (λ below. below ≡ marks_bottom row marks.now) }
{
    let mut y = row;
    let mut rest = marks;
    'marks: while let Some((mark, later)) = rest.split_first() {
        push_fact(body, y, style_of(mark), &mark.line)?;
        y = plus(y, 18);
        rest = later;
    }
    Ok(y)
}

// How the words of a mark look.
fn style_of(mark: &ToldMark) -> Style
    ensures { look_of result ≡ mark_look mark.now }
{
    if mark.fails {
        colored(13, DEEP)
    } else {
        colored(13, INK)
    }
}

// Draws these firings from this row on; answers the row below them.
fn push_fires(
    body: &mut Vec<u8>,
    tables: &Tables,
    fired: &[Fired],
    row: u64,
) -> Result<u64, AllocError>
    ensures text { OnOk result ((names : Names) → Keeps tables.now names →
        body.new.items ≡ body.old.items ++ svg_fires names row fired.now) }
    ensures row { IfOk result (λ below. below ≡ fires_bottom row fired.now) }
{
    let mut y = row;
    let mut rest = fired;
    'firings: while let Some((firing, later)) = rest.split_first() {
        push_firing(body, tables, *firing, y)?;
        y = plus(y, 18);
        rest = later;
    }
    Ok(y)
}

// Draws above this row that a tracker fired.
fn push_firing(body: &mut Vec<u8>, tables: &Tables, firing: Fired, y: u64) -> Result<(), AllocError>
    ensures { OnOk result ((names : Names) → Keeps tables.now names → body.new.items
        ≡ body.old.items ++ fact_text y (look 13 false (codes "#222222") false) (fired_words names firing)) }
{
    let line = firing_line(*body.allocator(), tables, firing)?;
    push_fact(body, y, plain(13), &line)
}

// That a tracker fired, and at which event.
fn firing_line(alloc: Global, tables: &Tables, firing: Fired) -> Result<Vec<u8>, AllocError>
    ensures { IfOk result (λ line. (names : Names) → Keeps tables.now names →
        line.items ≡ fired_words names firing) }
{
    let mut line = Vec::new(alloc);
    push_fired(&mut line, tables, firing)?;
    Ok(line)
}

// Appends a line of words, above this row.
#[tactic(auto, unfolding(crate::specs::SvgPictures::fact_text))]
fn push_fact(body: &mut Vec<u8>, y: u64, style: Style, words: &[u8]) -> Result<(), AllocError>
    ensures { OnOk result (body.new.items
        ≡ body.old.items ++ fact_text y (look_of style) words.now) }
{
    push_words(body, MARGIN, minus(y, 12), style, words)
}

// The width of a page, where the pool has this many.
fn page_width(pages: u32) -> u64
    ensures { result ≡ width_of_page pages }
{
    if pages == 0 {
        return 2;
    }
    (800u64 / pages as u64).min(24).max(2)
}

// Draws the pages of the pool in this row, and which buffers hold them.
#[tactic(auto, unfolding(crate::specs::SvgPictures::svg_pool))]
fn push_pool(body: &mut Vec<u8>, event_writer: &EventWriter, y: u64) -> Result<(), LineStop>
    ensures text { OnOk result ((names : Names) → Keeps event_writer.now.session.tables names →
        body.new.items ≡ body.old.items ++ svg_pool names y
        (held_by_page event_writer.now.session.core.forest)
        (views_of event_writer.now.session.core).free event_writer.now.session.core.pool) }
    ensures err { IfErr result (λ stop. stop ≡ LineStop.NoMemory) }
{
    let core = &event_writer.session.core;
    let held = core.held()?;
    push_held(body, event_writer, &held, core.pages(), y)?;
    push_free(body, core.free_pages(), core.pages(), y)?;
    Ok(())
}

// Draws this many pages in this row, and which buffers hold them.
#[tactic(auto, unfolding(crate::specs::SvgPictures::svg_held))]
fn push_held(
    body: &mut Vec<u8>,
    event_writer: &EventWriter,
    held: &[HeldBuffer],
    pages: u32,
    y: u64,
) -> Result<(), AllocError>
    ensures { OnOk result ((names : Names) → Keeps event_writer.now.session.tables names →
        body.new.items ≡ body.old.items ++ svg_held names y held.now pages) }
{
    push_words(body, MARGIN, plus(y, 14), bold(12, INK), b"pool")?;
    push_row(body, times(page_width(pages), pages as u64), y)?;
    push_cells(body, event_writer, held, page_width(pages), y)
}

// Draws the frame of the pool in this row, with this width.
fn push_row(body: &mut Vec<u8>, width: u64, y: u64) -> Result<(), AllocError>
    ensures { OnOk result (body.new.items ≡ body.old.items
        ++ rect_text (MARGIN + 48) y width 20 (cell_paint (codes "#FFFFFF") (codes "#808080"))) }
{
    push_rect(
        body,
        &Rect {
            x: MARGIN + 48,
            y,
            width,
            height: 20,
            rounded: 0,
            fill: WHITE,
            stroke: GREY,
            stroke_width: "",
            dashes: "",
        },
    )
}

// Draws the pages of these buffers in this row, where a page has this width.
fn push_cells(
    body: &mut Vec<u8>,
    event_writer: &EventWriter,
    held: &[HeldBuffer],
    cell: u64,
    y: u64,
) -> Result<(), AllocError>
    ensures { OnOk result ((names : Names) → Keeps event_writer.now.session.tables names →
        body.new.items ≡ body.old.items ++ flat_map (held_cell names cell y) held.now) }
{
    for buffer in held {
        push_cell(body, event_writer, *buffer, cell, y)?;
    }
    Ok(())
}

// Puts behind the pool, which has this many pages, how many of them are free.
#[tactic(auto, unfolding(crate::specs::SvgPictures::svg_free))]
fn push_free(body: &mut Vec<u8>, free: u32, pages: u32, y: u64) -> Result<(), AllocError>
    ensures { OnOk result (body.new.items ≡ body.old.items ++ svg_free y free pages) }
{
    let line = free_line(*body.allocator(), free, pages)?;
    let end = times(page_width(pages), pages as u64);
    push_words(body, plus(MARGIN + 60, end), plus(y, 14), plain(12), &line)
}

// How many of this many pages are free.
fn free_line(alloc: Global, free: u32, pages: u32) -> Result<Vec<u8>, AllocError>
    ensures { IfOk result (λ line. line.items ≡ free_words free pages) }
{
    let mut line = Vec::new(alloc);
    push_free_pages(&mut line, free, pages)?;
    Ok(line)
}

// Draws the pages of a buffer in this row, and its name where there is room.
#[tactic(auto, unfolding(crate::specs::SvgPictures::held_cell))]
fn push_cell(
    body: &mut Vec<u8>,
    event_writer: &EventWriter,
    held: HeldBuffer,
    cell: u64,
    y: u64,
) -> Result<(), AllocError>
    ensures { OnOk result ((names : Names) → Keeps event_writer.now.session.tables names →
        body.new.items ≡ body.old.items ++ held_cell names cell y held) }
{
    let x = plus(MARGIN + 48, times(cell, held.pages.start as u64));
    let width = times(cell, held.pages.pages as u64);
    push_cell_rect(body, x, y, width)?;
    push_cell_name(body, event_writer, held, x, y, width)
}

// Draws pages that a buffer holds, from this column on.
fn push_cell_rect(body: &mut Vec<u8>, x: u64, y: u64, width: u64) -> Result<(), AllocError>
    ensures { OnOk result (body.new.items ≡ body.old.items
        ++ rect_text x y width 20 (cell_paint (codes "#FAF2CC") (codes "#7A6A00"))) }
{
    push_rect(
        body,
        &Rect {
            x,
            y,
            width,
            height: 20,
            rounded: 0,
            fill: SAND,
            stroke: EARTH,
            stroke_width: "",
            dashes: "",
        },
    )
}

// Puts the name of a buffer into its pages, which are so wide, where there is room.
#[tactic(auto, unfolding(crate::specs::SvgPictures::cell_name))]
fn push_cell_name(
    body: &mut Vec<u8>,
    event_writer: &EventWriter,
    held: HeldBuffer,
    x: u64,
    y: u64,
    width: u64,
) -> Result<(), AllocError>
    ensures { OnOk result ((names : Names) → Keeps event_writer.now.session.tables names →
        body.new.items ≡ body.old.items ++ cell_name names x y width held) }
{
    if width < 44 {
        return Ok(());
    }
    let mut name = Vec::new(*body.allocator());
    event_writer.push_buffer_name(&mut name, held.buffer)?;
    push_words(body, plus(x, width / 2), plus(y, 14), small(), &name)
}

// How the name of a buffer in the pool looks.
fn small() -> Style
    ensures { look_of result ≡ look 10 false (codes "#222222") true }
{
    Style {
        size: 10,
        bold: false,
        fill: INK,
        middle: true,
    }
}

// Appends the begin of a picture of this size.
#[tactic(auto, unfolding(crate::specs::SvgPictures::frame_text))]
fn push_frame(text: &mut Vec<u8>, width: u64, height: u64) -> Result<(), AllocError>
    ensures { OnOk result (text.new.items ≡ text.old.items ++ frame_text width height) }
{
    push_parts(
        text,
        &[
            Part::Word("<svg xmlns=\"http://www.w3.org/2000/svg\" width=\""),
            Part::Number(width),
            Part::Word("\" height=\""),
            Part::Number(height),
            Part::Word("\" viewBox=\"0 0 "),
            Part::Number(width),
            Part::Word(" "),
            Part::Number(height),
            Part::Word(
                "\" font-family=\"DejaVu Sans Mono, monospace\">\n<defs><marker id=\"a\" \
                 markerUnits=\"userSpaceOnUse\" markerWidth=\"14\" markerHeight=\"14\" refX=\"5\" \
                 refY=\"7\" orient=\"auto\"><path d=\"M0 0 L12 7 L0 14 Z\" fill=\"",
            ),
            Part::Word(RED),
            Part::Word(
                "\"/></marker></defs>\n<rect width=\"100%\" height=\"100%\" fill=\"#FFFFFF\"/>\n",
            ),
        ],
    )
}
