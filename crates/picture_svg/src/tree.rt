//! A tree of a vector graphic: links, boxes and buffers.
ghost use Rattle.std.specs.Prelude.{◌≡◌, ◌++◌, IfOk, List, OnOk, map};
ghost use Rattle.std.specs.List.{flat_map};
ghost use Rattle.script_labels.specs.Names.{Names};
ghost use Rattle.script_labels.specs.Tables.{Keeps};
ghost use Rattle.picture_model.specs.declared.failure_view.Travel.{Travel as Step};
ghost use Rattle.picture_model.specs.Travels.{FindsTravels};
ghost use Rattle.event_texts.specs.Called.{Calls};
ghost use Rattle.picture_svg.specs.Trees.{bars_row, border_width, box_paint, svg_box, svg_box_words, dashes_text, line_items, nodes_right, svg_lines, svg_name, svg_nodes, svg_words_below, tree_bottom, tree_boxes, tree_right, svg_tree, trees_bottom, trees_right, svg_trees};
ghost use Rattle.picture_svg.specs.Elements.{rect_text};

use crate::bars::{Extent, bars_of, push_bars};
use crate::box_lines::{node_lines, node_name};
use crate::elements::{MARGIN, Rect, bold, colored, push_rect, push_words};
use crate::links::push_links;
use event_facts::KeyMap;
use event_texts::EventWriter;
use forest_store::Node;
use picture_layout::{BOX_HEIGHT, Corner, NodeBox, boxes_of, lowest_row, plus, right_edge};
use picture_model::colors::{edge_color, fill_color, ink_color};
use picture_model::{Class, Travel, Tree, class_of};
use script_labels::Tables;
use sm_names::ClientId;
use std::alloc::AllocError;

// The dashes of a node's border.
pub(crate) fn dashes_of(class: Class) -> &'static str
    ensures { result.now ≡ dashes_text class }
{
    match class {
        Class::Orphan => "5 3",
        Class::Ended => "2 3",
        Class::Live | Class::Origin | Class::Taken => "",
    }
}

// What the trees of a picture are drawn with: the session, its clients, the links that failures followed, and the width of
// a box.
#[derive(Clone, Copy)]
pub(crate) struct Sheet<'a> {
    pub(crate) event_writer: &'a EventWriter,
    pub(crate) clients: &'a Vec<ClientId>,
    pub(crate) travels: &'a KeyMap<Travel>,
    pub(crate) width: u64,
}

// Draws these trees one below the other, from this row on; answers the row below them, and their last column.
pub(crate) fn push_trees(
    body: &mut Vec<u8>,
    sheet: &Sheet<'_>,
    trees: &[Tree],
    row: u64,
) -> Result<Extent, AllocError>
    ensures text { OnOk result ((names : Names) →
        Keeps sheet.now.event_writer.now.session.tables names →
        Calls sheet.now.event_writer.now.labels names → (steps : List Step) →
        FindsTravels sheet.now.travels.now steps →
        body.new.items ≡ body.old.items ++ svg_trees sheet.now.event_writer.now.session.core names
        sheet.now.clients.now.items steps sheet.now.width row trees.now) }
    ensures bottom { IfOk result (λ extent. (names : Names) →
        Keeps sheet.now.event_writer.now.session.tables names →
        Calls sheet.now.event_writer.now.labels names → extent.bottom
        ≡ trees_bottom sheet.now.event_writer.now.session.core names sheet.now.clients.now.items
        sheet.now.width row trees.now) }
    ensures right { IfOk result (λ extent. (names : Names) →
        Keeps sheet.now.event_writer.now.session.tables names →
        Calls sheet.now.event_writer.now.labels names → extent.right
        ≡ trees_right sheet.now.event_writer.now.session.core names sheet.now.clients.now.items
        sheet.now.width row 0 trees.now) }
{
    let mut bottom = row;
    let mut right: u64 = 0;
    let mut rest = trees;
    'trees: while let Some((tree, later)) = rest.split_first() {
        let extent = push_tree(body, sheet, tree, Extent { bottom, right })?;
        bottom = extent.bottom;
        right = extent.right;
        rest = later;
    }
    Ok(Extent { bottom, right })
}

// Draws a tree below what is there, and its buffers below it; answers the row below them, and the last
// column.
fn push_tree(
    body: &mut Vec<u8>,
    sheet: &Sheet<'_>,
    tree: &Tree,
    above: Extent,
) -> Result<Extent, AllocError>
    ensures text { OnOk result ((names : Names) →
        Keeps sheet.now.event_writer.now.session.tables names →
        Calls sheet.now.event_writer.now.labels names → (steps : List Step) →
        FindsTravels sheet.now.travels.now steps →
        body.new.items ≡ body.old.items ++ svg_tree sheet.now.event_writer.now.session.core names
        sheet.now.clients.now.items steps sheet.now.width above.bottom tree.now) }
    ensures bottom { IfOk result (λ extent. (names : Names) →
        Keeps sheet.now.event_writer.now.session.tables names →
        Calls sheet.now.event_writer.now.labels names → extent.bottom
        ≡ tree_bottom sheet.now.event_writer.now.session.core names sheet.now.clients.now.items
        sheet.now.width above.bottom tree.now) }
    ensures right { IfOk result (λ extent. (names : Names) →
        Keeps sheet.now.event_writer.now.session.tables names →
        Calls sheet.now.event_writer.now.labels names → extent.right
        ≡ tree_right sheet.now.event_writer.now.session.core names sheet.now.clients.now.items
        sheet.now.width above.bottom above.right tree.now) }
{
    let below = push_nodes(
        body,
        sheet.event_writer,
        tree,
        sheet.travels,
        sheet.width,
        above,
    )?;
    let bars = bars_of(sheet.event_writer, sheet.clients, tree)?;
    let extent = push_bars(body, &bars, sheet.width, below.bottom, below.right)?;
    Ok(Extent {
        bottom: plus(extent.bottom, 26),
        right: extent.right,
    })
}

// Draws the links and the boxes of a tree below what is there; answers the row of its buffers, and the last
// column.
fn push_nodes(
    body: &mut Vec<u8>,
    event_writer: &EventWriter,
    tree: &Tree,
    travels: &KeyMap<Travel>,
    width: u64,
    above: Extent,
) -> Result<Extent, AllocError>
    ensures text { OnOk result ((names : Names) → Keeps event_writer.now.session.tables names →
        Calls event_writer.now.labels names → (steps : List Step) → FindsTravels travels.now steps →
        body.new.items ≡ body.old.items ++ svg_nodes names steps width above.bottom tree.now) }
    ensures bottom { IfOk result (λ below. below.bottom ≡ bars_row width above.bottom tree.now) }
    ensures right { IfOk result (λ below.
        below.right ≡ nodes_right width above.bottom above.right tree.now) }
{
    let boxes = boxes_from(tree, width, above.bottom)?;
    push_links(body, &boxes, width, travels)?;
    push_boxes(body, event_writer, &boxes, width)?;
    let row = plus(lowest_row(&boxes, above.bottom), BOX_HEIGHT + 30);
    let right = above.right.max(right_edge(&boxes, width));
    Ok(Extent { bottom: row, right })
}

// Where the boxes of the tree are, from this row on.
fn boxes_from(tree: &Tree, width: u64, row: u64) -> Result<Vec<NodeBox>, AllocError>
    ensures { IfOk result (λ boxes. boxes.items ≡ tree_boxes width row tree.now) }
{
    let start = Corner { x: MARGIN, y: row };
    boxes_of(&tree.nodes, &tree.left, start, width)
}

// Draws the boxes of the nodes.
fn push_boxes(
    body: &mut Vec<u8>,
    event_writer: &EventWriter,
    boxes: &[NodeBox],
    width: u64,
) -> Result<(), AllocError>
    ensures { OnOk result ((names : Names) → Keeps event_writer.now.session.tables names →
        Calls event_writer.now.labels names →
        body.new.items ≡ body.old.items ++ flat_map (svg_box names width) boxes.now) }
{
    for node_box in boxes {
        push_box(body, event_writer, node_box, width)?;
    }
    Ok(())
}

// Draws the box of a node, and puts its words into it.
#[tactic(auto, unfolding(crate::specs::Trees::svg_box))]
fn push_box(
    body: &mut Vec<u8>,
    event_writer: &EventWriter,
    node_box: &NodeBox,
    width: u64,
) -> Result<(), AllocError>
    ensures { OnOk result ((names : Names) → Keeps event_writer.now.session.tables names →
        Calls event_writer.now.labels names →
        body.new.items ≡ body.old.items ++ svg_box names width node_box.now) }
{
    push_border(body, node_box, width)?;
    push_box_words(body, event_writer, &node_box.node, node_box.corner)
}

// Draws the box of a node.
fn push_border(body: &mut Vec<u8>, node_box: &NodeBox, width: u64) -> Result<(), AllocError>
    ensures { OnOk result (body.new.items ≡ body.old.items
        ++ rect_text node_box.now.corner.x node_box.now.corner.y width BOX_HEIGHT
        (box_paint node_box.now.left node_box.now.node)) }
{
    let class = class_of(&node_box.node);
    push_rect(
        body,
        &Rect {
            x: node_box.corner.x,
            y: node_box.corner.y,
            width,
            height: BOX_HEIGHT,
            rounded: 6,
            fill: fill_color(class),
            stroke: edge_color(class),
            stroke_width: border_of(node_box.left),
            dashes: dashes_of(class),
        },
    )
}

// The width of a box's border.
fn border_of(left: bool) -> &'static str
    ensures { result.now ≡ border_width left }
{
    if left { "3.5" } else { "1.8" }
}

// Puts the words of a box into it.
#[tactic(auto, unfolding(crate::specs::Trees::svg_box_words))]
fn push_box_words(
    body: &mut Vec<u8>,
    event_writer: &EventWriter,
    node: &Node,
    corner: Corner,
) -> Result<(), AllocError>
    ensures { OnOk result ((names : Names) → Keeps event_writer.now.session.tables names →
        Calls event_writer.now.labels names →
        body.new.items ≡ body.old.items ++ svg_box_words names corner node.now) }
{
    push_name(body, &event_writer.session.tables, node, corner)?;
    push_words_below(body, event_writer, node, corner)
}

// Puts the name of the node into its box.
fn push_name(
    body: &mut Vec<u8>,
    tables: &Tables,
    node: &Node,
    corner: Corner,
) -> Result<(), AllocError>
    ensures { OnOk result ((names : Names) → Keeps tables.now names →
        body.new.items ≡ body.old.items ++ svg_name names corner node.now) }
{
    let name = node_name(*body.allocator(), tables, node)?;
    let style = bold(15, ink_color(class_of(node)));
    push_words(body, plus(corner.x, 10), plus(corner.y, 20), style, &name)
}

// Puts the lines below the name of the node into its box.
fn push_words_below(
    body: &mut Vec<u8>,
    event_writer: &EventWriter,
    node: &Node,
    corner: Corner,
) -> Result<(), AllocError>
    ensures { OnOk result ((names : Names) → Keeps event_writer.now.session.tables names →
        Calls event_writer.now.labels names →
        body.new.items ≡ body.old.items ++ svg_words_below names corner node.now) }
{
    let lines = node_lines(*body.allocator(), event_writer, node)?;
    let fill = ink_color(class_of(node));
    push_lines(body, plus(corner.x, 10), plus(corner.y, 38), fill, &lines)
}

// Puts these lines into a box, from this row on.
fn push_lines(
    body: &mut Vec<u8>,
    x: u64,
    row: u64,
    fill: &'static str,
    lines: &[Vec<u8>],
) -> Result<(), AllocError>
    ensures { OnOk result (body.new.items
        ≡ body.old.items ++ svg_lines x row fill.now (map line_items lines.now)) }
{
    let mut y = row;
    let mut rest = lines;
    'lines: while let Some((line, later)) = rest.split_first() {
        push_words(body, x, y, colored(12, fill), line.as_slice())?;
        y = plus(y, 16);
        rest = later;
    }
    Ok(())
}
