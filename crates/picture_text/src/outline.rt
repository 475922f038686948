//! The outline of a tree: its nodes, each behind the lines that lead to it.
ghost use Rattle.std.specs.Prelude.{◌≡◌, ◌++◌, ◌∷◌, [], true, IfOk, OnOk, List, map, reverse};
ghost use Rattle.forest_store.specs.declared.node.Node.{Node as Kept};
ghost use Rattle.picture_model.specs.Kin.{FindsChildren};
ghost use Rattle.picture_text.specs.Outlines.{begin_text, branch_of, first_branches, line_of_row, line_of_branch, outline, outline_from, stem_text, twig, twigs, twigs_below};

use event_facts::KeyRows;
use forest_store::Node;
use picture_model::{LinkStyle, children_by_key, link_of};
use script_lines::push;
use std::alloc::{AllocError, Global};

// A node, the lines that lead to it, and how many columns they take.
#[derive(Drop)]
pub(crate) struct OutlineRow {
    pub(crate) node: Node,
    pub(crate) lines: Vec<u8>,
    pub(crate) columns: u64,
}

// A node that has no row yet: what leads to the rows of its parent's children, how deep it hangs, and
// whether it is the last of them. The root hangs at depth 0.
#[derive(Drop)]
struct Branch {
    node: Node,
    stem: Vec<u8>,
    depth: u64,
    last: bool,
}

// A row for each node, the root first, and behind each node the rows of its children, by birth. Costs
// O(n log n) for n nodes, and the lines.
pub(crate) fn outline_of(nodes: &Vec<Node>) -> Result<Vec<OutlineRow>, AllocError>
    ensures { IfOk result (λ rows. map line_of_row rows.items ≡ outline nodes.now.items) }
{
    let children = children_by_key(nodes)?;
    let mut waiting = begin(nodes)?;
    let mut rows = Vec::new(*nodes.allocator());
    push_waiting(&mut rows, &mut waiting, &children, nodes.len())?;
    Ok(rows)
}

// Puts the rows of those that wait behind the others, and below each those of its children, but no more
// than this many.
fn push_waiting(
    rows: &mut Vec<OutlineRow>,
    waiting: &mut Vec<Branch>,
    children: &KeyRows<Node>,
    count: usize,
) -> Result<(), AllocError>
    ensures { OnOk result ((nodes : List Kept) → FindsChildren children.now nodes →
        map line_of_row rows.new.items ≡ map line_of_row rows.old.items
        ++ outline_from count nodes (reverse (map branch_of waiting.old.items))) }
{
    for at in 0..count {
        let Some(next) = waiting.pop() else {
            return Ok(());
        };
        push_next(rows, waiting, children, next)?;
    }
    Ok(())
}

// Puts the row of the node behind the others; its children wait.
fn push_next(
    rows: &mut Vec<OutlineRow>,
    waiting: &mut Vec<Branch>,
    children: &KeyRows<Node>,
    next: Branch,
) -> Result<(), AllocError>
    ensures row { OnOk result (map line_of_row rows.new.items
        ≡ map line_of_row rows.old.items ++ line_of_branch (branch_of next) ∷ []) }
    ensures below { OnOk result ((nodes : List Kept) → FindsChildren children.now nodes →
        reverse (map branch_of waiting.new.items)
        ≡ twigs_below nodes (branch_of next) ++ reverse (map branch_of waiting.old.items)) }
{
    push_below(children, &next, waiting)?;
    let row = row_of(next)?;
    rows.push(row)?;
    Ok(())
}

// The first of the nodes alone, which is the root, if there is one.
fn begin(nodes: &Vec<Node>) -> Result<Vec<Branch>, AllocError>
    ensures { IfOk result (λ waiting. map branch_of waiting.items
        ≡ first_branches nodes.now.items) }
{
    let alloc = *nodes.allocator();
    match nodes.as_slice().split_first() {
        Some((root, _)) => root_alone(alloc, *root),
        None => Ok(Vec::new(alloc)),
    }
}

// The root alone.
fn root_alone(alloc: Global, root: Node) -> Result<Vec<Branch>, AllocError>
    ensures { IfOk result (λ waiting. map branch_of waiting.items ≡ twig root [] 0 true ∷ []) }
{
    let mut waiting = Vec::new(alloc);
    let stem = Vec::new(alloc);
    waiting.push(Branch {
        node: root,
        stem,
        depth: 0,
        last: true,
    })?;
    Ok(waiting)
}

// Puts the children of the node onto those that have no row yet, the first on top.
fn push_below(
    children: &KeyRows<Node>,
    next: &Branch,
    waiting: &mut Vec<Branch>,
) -> Result<(), AllocError>
    ensures { OnOk result ((nodes : List Kept) → FindsChildren children.now nodes →
        reverse (map branch_of waiting.new.items)
        ≡ twigs_below nodes (branch_of next.now) ++ reverse (map branch_of waiting.old.items)) }
{
    let stem = stem_below(next)?;
    let depth = next.depth.saturating_add(1);
    push_branches(waiting, children.row(next.node.key), &stem, depth)
}

// Puts these nodes onto those that have no row yet, the first on top, at this depth, where this leads to
// their rows.
fn push_branches(
    waiting: &mut Vec<Branch>,
    children: &[Node],
    stem: &[u8],
    depth: u64,
) -> Result<(), AllocError>
    ensures { OnOk result (reverse (map branch_of waiting.new.items)
        ≡ twigs stem.now depth true children.now ++ reverse (map branch_of waiting.old.items)) }
{
    let mut left = children;
    let mut last = true;
    'children: while let Some((node, older)) = left.split_last() {
        push_branch(waiting, *node, stem, depth, last)?;
        last = false;
        left = older;
    }
    Ok(())
}

// Puts the node on top of those that have no row yet.
fn push_branch(
    waiting: &mut Vec<Branch>,
    node: Node,
    stem: &[u8],
    depth: u64,
    last: bool,
) -> Result<(), AllocError>
    ensures { OnOk result (map branch_of waiting.new.items ≡ map branch_of waiting.old.items
        ++ twig node stem.now depth last ∷ []) }
{
    let stem = text_of(*waiting.allocator(), stem, "")?;
    waiting.push(Branch {
        node,
        stem,
        depth,
        last,
    })?;
    Ok(())
}

// These words behind the text.
fn text_of(alloc: Global, text: &[u8], words: &str) -> Result<Vec<u8>, AllocError>
    ensures { IfOk result (λ whole. whole.items ≡ text.now ++ words.now) }
{
    let mut whole = Vec::new(alloc);
    whole.extend_from_slice(text)?;
    push(&mut whole, words)?;
    Ok(whole)
}

// What leads to the rows of the node's children.
fn stem_below(next: &Branch) -> Result<Vec<u8>, AllocError>
    ensures { IfOk result (λ stem. stem.items ≡ next.now.stem.items
        ++ stem_text next.now.depth next.now.last) }
{
    let alloc = *next.stem.allocator();
    text_of(alloc, &next.stem, stem_words(next.depth, next.last))
}

// What a node of this depth puts in front of the rows below it, where it is the last of its parent's
// children or not.
fn stem_words(depth: u64, last: bool) -> &'static str
    ensures { result.now ≡ stem_text depth last }
{
    if depth == 0 {
        ""
    } else if last {
        "    "
    } else {
        "│   "
    }
}

// The row of the node.
fn row_of(next: Branch) -> Result<OutlineRow, AllocError>
    ensures { IfOk result (λ row. line_of_row row ≡ line_of_branch (branch_of next)) }
{
    let Branch {
        node,
        stem,
        depth,
        last,
    } = next;
    let mut lines = stem;
    push(&mut lines, begin_words(depth, last, link_of(&node)))?;
    Ok(OutlineRow {
        node,
        lines,
        columns: depth.saturating_mul(4),
    })
}

// What leads to a node of this depth, along this link.
fn begin_words(depth: u64, last: bool, link: LinkStyle) -> &'static str
    ensures { result.now ≡ begin_text depth last link }
{
    if depth == 0 {
        return "";
    }
    match (last, link) {
        (false, LinkStyle::Normal) => "├── ",
        (false, LinkStyle::Attached) => "├══ ",
        (false, LinkStyle::Dispensable) => "├~~ ",
        (true, LinkStyle::Normal) => "└── ",
        (true, LinkStyle::Attached) => "└══ ",
        (true, LinkStyle::Dispensable) => "└~~ ",
    }
}
