//! Where the boxes of a tree are drawn: a column for each leaf, and a parent over the middle of its
//! children.
ghost use Rattle.std.specs.Prelude.{◌≡◌, IfOk, List, map};
ghost use Rattle.std.specs.List.{range_with_len};
ghost use Rattle.std.specs.Option.{option_map};
ghost use Rattle.sm_names.specs.declared.keys.NodeKey.{NodeKey as Key};
ghost use Rattle.forest_store.specs.declared.node.Node.{Node as Kept};
ghost use Rattle.event_facts.specs.KeyMaps.{HasKeys};
ghost use Rattle.picture_layout.specs.Layouts.{FindsPlaces, box_of, boxes_from, boxes_of as all_boxes, column_of, columns_of as all_columns, corner_at as corner_in, corner_of, corner_or as corner_in_or, corners_of as all_corners, depth_below, depths_of as all_depths, lowest_of, number_at as number_in, parent_place, place_above, places_above, rightmost_of, taken_columns, widened, widths_of as all_widths, with_number as with_number_in};

use crate::lengths::{minus, plus, times};
use event_facts::{KeyMap, keys_of};
use forced_marks::key_sets::KeySet;
use forest_store::Node;
use sm_names::NodeKey;
use std::alloc::{AllocError, Global};

/// The height of a box, in units.
pub const BOX_HEIGHT: u64 = 92;

/// The gap between columns, in units.
pub const COLUMN_GAP: u64 = 22;

/// The gap between rows, in units.
pub const ROW_GAP: u64 = 62;

/// The left upper corner of a box, in units: `x` counts to the right, `y` downwards.
#[derive(Clone, Copy)]
pub struct Corner {
    pub x: u64,
    pub y: u64,
}

/// The box of a node: the node, the corner of its box, that of its parent's, if it has one, and whether
/// it left at the event.
#[derive(Clone, Copy)]
pub struct NodeBox {
    pub node: Node,
    pub corner: Corner,
    pub above: Option<Corner>,
    pub left: bool,
}

/// Lays out the boxes of these nodes, which stand by birth, the root first, each this many units wide,
/// from this corner on. `left` has the keys of those that left at the event.
///
/// `AllocError` where memory is refused. Costs O(n log n) for n nodes, those that left among them.
#[tactic(auto, unfolding(crate::specs::Layouts::boxes_of))]
pub fn boxes_of(
    nodes: &Vec<Node>,
    left: &[NodeKey],
    start: Corner,
    width: u64,
) -> Result<Vec<NodeBox>, AllocError>
    ensures { IfOk result (λ boxes.
        boxes.items ≡ all_boxes start width left.now nodes.now.items) }
{
    let parents = parents_of(nodes)?;
    let corners = corners_of(&parents, start, width)?;
    let left = keys_of(*nodes.allocator(), left)?;
    place_boxes(nodes, &left, &parents, &corners, start)
}

/// The row in which the lowest of the boxes begins, or this one. Costs O(n) for n boxes.
#[tactic(auto, unfolding(crate::specs::Layouts::lowest_of))]
pub fn lowest_row(boxes: &[NodeBox], start: u64) -> u64
    ensures { result ≡ lowest_of start boxes.now }
{
    let mut bottom = start;
    for node_box in boxes {
        bottom = bottom.max(node_box.corner.y);
    }
    bottom
}

/// The column in which the last of the boxes ends, which are so wide; 0 if there is none. Costs O(n) for
/// n boxes.
#[tactic(auto, unfolding(crate::specs::Layouts::rightmost_of))]
pub fn right_edge(boxes: &[NodeBox], width: u64) -> u64
    ensures { result ≡ rightmost_of width boxes.now }
{
    let mut right: u64 = 0;
    for node_box in boxes {
        right = right.max(plus(node_box.corner.x, width));
    }
    right
}

// The place of each node's parent among the nodes.
fn parents_of(nodes: &Vec<Node>) -> Result<Vec<Option<usize>>, AllocError>
    ensures { IfOk result (λ parents. parents.items ≡ places_above nodes.now.items) }
{
    let places = places_of(nodes)?;
    parents_in(nodes, &places)
}

// The places of the nodes, by their keys.
fn places_of(nodes: &Vec<Node>) -> Result<KeyMap<usize>, AllocError>
    ensures { IfOk result (λ places. FindsPlaces places nodes.now.items) }
{
    let mut places = KeyMap::new(*nodes.allocator());
    for at in 0..nodes.len() {
        places.add(nodes[at].key, at)?;
    }
    Ok(places)
}

// The places of these nodes' parents.
fn parents_in(nodes: &Vec<Node>, places: &KeyMap<usize>) -> Result<Vec<Option<usize>>, AllocError>
    ensures { IfOk result (λ parents. (all : List Kept) → FindsPlaces places.now all →
        parents.items ≡ map (place_above all) nodes.now.items) }
{
    let mut parents = Vec::new(*nodes.allocator());
    for node in nodes {
        parents.push(parent_of(places, node))?;
    }
    Ok(parents)
}

// The place of the node's parent.
fn parent_of(places: &KeyMap<usize>, node: &Node) -> Option<usize>
    ensures { (all : List Kept) → FindsPlaces places.now all → result ≡ place_above all node.now }
{
    match node.parent {
        Some(parent) => places.get(parent).copied(),
        None => None,
    }
}

// The number at this place, or 0.
fn number_at(numbers: &[u64], at: usize) -> u64
    ensures { result ≡ number_in numbers.now at }
{
    match numbers.get(at) {
        Some(number) => *number,
        None => 0,
    }
}

// Puts the number at this place, if there is such a place.
fn set_number(numbers: &mut Vec<u64>, at: usize, number: u64)
    ensures { numbers.new.items ≡ with_number_in numbers.old.items at number }
{
    if at < numbers.len() {
        numbers[at] = number;
    }
}

// The place of the parent of the node at this one.
fn parent_at(parents: &[Option<usize>], at: usize) -> Option<usize>
    ensures { result ≡ parent_place parents.now at }
{
    match parents.get(at) {
        Some(parent) => *parent,
        None => None,
    }
}

// How many columns each node takes: one, or those of its children.
#[tactic(auto, unfolding(crate::specs::Layouts::widths_of))]
fn widths_of(parents: &Vec<Option<usize>>) -> Result<Vec<u64>, AllocError>
    ensures { IfOk result (λ widths. widths.items ≡ all_widths parents.now.items) }
{
    let mut widths = vec![in *parents.allocator(); 0u64; parents.len()]?;
    let mut left = parents.len();
    'nodes: while 0 < left {
        left -= 1;
        widen(&mut widths, parents, left);
    }
    Ok(widths)
}

// Gives the node at this place its columns, and its parent as many more.
#[tactic(auto, unfolding(crate::specs::Layouts::widened))]
fn widen(widths: &mut Vec<u64>, parents: &[Option<usize>], at: usize)
    ensures { widths.new.items ≡ widened parents.now at widths.old.items }
{
    let own = number_at(widths, at).max(1);
    set_number(widths, at, own);
    if let Some(parent) = parent_at(parents, at) {
        let sum = plus(number_at(widths, parent), own);
        set_number(widths, parent, sum);
    }
}

// How many generations each node is below the root.
#[tactic(auto, unfolding(crate::specs::Layouts::depths_of))]
fn depths_of(parents: &Vec<Option<usize>>) -> Result<Vec<u64>, AllocError>
    ensures { IfOk result (λ depths. depths.items ≡ all_depths parents.now.items) }
{
    let mut depths = Vec::new(*parents.allocator());
    for parent in parents {
        let depth = depth_of(&depths, *parent);
        depths.push(depth)?;
    }
    Ok(depths)
}

// How many generations a node with this parent is below the root.
fn depth_of(depths: &[u64], parent: Option<usize>) -> u64
    ensures { result ≡ depth_below depths.now parent }
{
    match parent {
        Some(parent) => plus(number_at(depths, parent), 1),
        None => 0,
    }
}

// The first column of each node, where these are their widths.
#[tactic(auto, unfolding(crate::specs::Layouts::columns_of))]
fn columns_of(parents: &Vec<Option<usize>>, widths: &[u64]) -> Result<Vec<u64>, AllocError>
    ensures { IfOk result (λ columns.
        columns.items ≡ all_columns parents.now.items widths.now) }
{
    let alloc = *parents.allocator();
    let mut free = vec![in alloc; 0u64; parents.len()]?;
    let mut columns = Vec::new(alloc);
    for at in 0..parents.len() {
        columns.push(free_column(&free, parent_at(parents, at)))?;
        take_columns(&mut free, parents, widths, at);
    }
    Ok(columns)
}

// The first column that is free for a node with this parent.
fn free_column(free: &[u64], parent: Option<usize>) -> u64
    ensures { result ≡ column_of free.now parent }
{
    match parent {
        Some(parent) => number_at(free, parent),
        None => 0,
    }
}

// The node at this place has its columns: those behind them are free for its siblings, they themselves for
// its children.
#[tactic(auto, unfolding(crate::specs::Layouts::taken_columns))]
fn take_columns(free: &mut Vec<u64>, parents: &[Option<usize>], widths: &[u64], at: usize)
    ensures { free.new.items ≡ taken_columns parents.now widths.now at free.old.items }
{
    let parent = parent_at(parents, at);
    let column = free_column(free, parent);
    if let Some(parent) = parent {
        set_number(free, parent, plus(column, number_at(widths, at)));
    }
    set_number(free, at, column);
}

// For each node: how many columns it takes, the first of them, and its generation.
#[derive(Drop)]
struct Grid {
    widths: Vec<u64>,
    columns: Vec<u64>,
    depths: Vec<u64>,
}

// The corners of the boxes, which are so wide.
#[tactic(auto, unfolding(crate::specs::Layouts::corners_of))]
fn corners_of(
    parents: &Vec<Option<usize>>,
    start: Corner,
    width: u64,
) -> Result<Vec<Corner>, AllocError>
    ensures { IfOk result (λ corners.
        corners.items ≡ all_corners parents.now.items start width) }
{
    let widths = widths_of(parents)?;
    let columns = columns_of(parents, &widths)?;
    let depths = depths_of(parents)?;
    let grid = Grid {
        widths,
        columns,
        depths,
    };
    let pitch = plus(width, COLUMN_GAP);
    corners_over(*parents.allocator(), start, pitch, &grid, parents.len())
}

// The corners of the boxes, in columns of this pitch.
fn corners_over(
    alloc: Global,
    start: Corner,
    pitch: u64,
    grid: &Grid,
    count: usize,
) -> Result<Vec<Corner>, AllocError>
    ensures { IfOk result (λ corners. corners.items ≡ map
        (corner_in start pitch grid.now.widths.items grid.now.columns.items grid.now.depths.items)
        (range_with_len 0 count)) }
{
    let mut corners = Vec::new(alloc);
    for at in 0..count {
        corners.push(corner_under(start, pitch, grid, at))?;
    }
    Ok(corners)
}

// The corner of the box at this place.
fn corner_under(start: Corner, pitch: u64, grid: &Grid, at: usize) -> Corner
    ensures { result ≡ corner_in start pitch grid.now.widths.items grid.now.columns.items
        grid.now.depths.items at }
{
    corner_over(
        start,
        pitch,
        number_at(&grid.widths, at),
        number_at(&grid.columns, at),
        number_at(&grid.depths, at),
    )
}

// The corner of a box that spans `width` columns of this pitch, from this column on, in this generation.
fn corner_over(start: Corner, pitch: u64, width: u64, column: u64, depth: u64) -> Corner
    ensures { result ≡ corner_of start pitch width column depth }
{
    let middle = times(minus(width, 1), pitch) / 2;
    Corner {
        x: plus(plus(start.x, times(column, pitch)), middle),
        y: plus(start.y, times(depth, BOX_HEIGHT + ROW_GAP)),
    }
}

// The nodes with their corners.
fn place_boxes(
    nodes: &Vec<Node>,
    left: &KeySet,
    parents: &[Option<usize>],
    corners: &[Corner],
    start: Corner,
) -> Result<Vec<NodeBox>, AllocError>
    ensures { IfOk result (λ boxes. (keys : List Key) → HasKeys left.now keys →
        boxes.items ≡ boxes_from start parents.now corners.now keys 0 nodes.now.items) }
{
    let mut boxes = Vec::new(*nodes.allocator());
    let mut rest = nodes.as_slice();
    'nodes: while let Some((node, later)) = rest.split_first() {
        boxes.push(box_at(node, left, parents, corners, start, boxes.len()))?;
        rest = later;
    }
    Ok(boxes)
}

// The node at this place with its corner.
fn box_at(
    node: &Node,
    left: &KeySet,
    parents: &[Option<usize>],
    corners: &[Corner],
    start: Corner,
    at: usize,
) -> NodeBox
    ensures { (keys : List Key) → HasKeys left.now keys →
        result ≡ box_of start parents.now corners.now keys at node.now }
{
    NodeBox {
        node: *node,
        corner: corner_at(corners, start, at),
        above: corner_above(corners, start, parent_at(parents, at)),
        left: left.has(node.key),
    }
}

// The corner at this place, or this one.
fn corner_at(corners: &[Corner], start: Corner, at: usize) -> Corner
    ensures { result ≡ corner_in_or start corners.now at }
{
    match corners.get(at) {
        Some(corner) => *corner,
        None => start,
    }
}

// The corner of the parent at this place, if there is one.
fn corner_above(corners: &[Corner], start: Corner, parent: Option<usize>) -> Option<Corner>
    ensures { result ≡ option_map (corner_in_or start corners.now) parent }
{
    match parent {
        Some(parent) => Some(corner_at(corners, start, parent)),
        None => None,
    }
}
