//! The links of a tree in the language of Graphviz.
ghost use Rattle.std.specs.Prelude.{◌≡◌, ◌++◌, IfOk, List, OnOk};
ghost use Rattle.std.specs.List.{flat_map};
ghost use Rattle.forest_store.specs.declared.node.Node.{Node as NodeValue};
ghost use Rattle.picture_model.specs.declared.failure_view.Travel.{Travel as Step};
ghost use Rattle.picture_model.specs.Kin.{AreParents, FindsNodes};
ghost use Rattle.picture_model.specs.Travels.{FindsTravels};
ghost use Rattle.picture_dot.specs.DotPictures.{arrow_text, link_begin, dot_way_text, leaves_of as leaves_in, link_to, link_text, links_text, middle_of, parent_among, stop_words, table_link, table_link_of};

use crate::tables::has_table;
use event_facts::KeyMap;
use forced_marks::key_sets::KeySet;
use forest_store::Node;
use picture_model::{
    LinkStyle, Travel, TravelWay, Tree, link_of, nodes_by_key, parents_among, way_of,
};
use script_lines::{Part, push, push_parts};
use std::alloc::AllocError;

// Appends the links of a tree, and one that keeps its table below it.
#[tactic(auto, unfolding(crate::specs::DotPictures::links_text))]
pub(crate) fn push_links(
    text: &mut Vec<u8>,
    tree: &Tree,
    travels: &KeyMap<Travel>,
) -> Result<(), AllocError>
    ensures { OnOk result ((steps : List Step) → FindsTravels travels.now steps →
        text.new.items ≡ text.old.items ++ links_text steps tree.now) }
{
    push_node_links(text, &tree.nodes, travels)?;
    push_table_link(text, tree)
}

// Appends the link of each node to its parent.
fn push_node_links(
    text: &mut Vec<u8>,
    nodes: &Vec<Node>,
    travels: &KeyMap<Travel>,
) -> Result<(), AllocError>
    ensures { OnOk result ((steps : List Step) → FindsTravels travels.now steps →
        text.new.items ≡ text.old.items ++ flat_map (link_to nodes.now.items steps) nodes.now.items) }
{
    let by_key = nodes_by_key(nodes)?;
    push_each_link(text, nodes, &by_key, travels)
}

// Appends the link of each of these nodes to its parent.
fn push_each_link(
    text: &mut Vec<u8>,
    nodes: &[Node],
    by_key: &KeyMap<Node>,
    travels: &KeyMap<Travel>,
) -> Result<(), AllocError>
    ensures { OnOk result ((all : List NodeValue) → FindsNodes by_key.now all →
        (steps : List Step) → FindsTravels travels.now steps →
        text.new.items ≡ text.old.items ++ flat_map (link_to all steps) nodes.now) }
{
    for node in nodes {
        push_link_of(text, by_key, node, travels)?;
    }
    Ok(())
}

// Appends the link of the node to its parent, if it has one.
fn push_link_of(
    text: &mut Vec<u8>,
    by_key: &KeyMap<Node>,
    node: &Node,
    travels: &KeyMap<Travel>,
) -> Result<(), AllocError>
    ensures { OnOk result ((all : List NodeValue) → FindsNodes by_key.now all →
        (steps : List Step) → FindsTravels travels.now steps →
        text.new.items ≡ text.old.items ++ link_to all steps node.now) }
{
    match parent_of(by_key, node) {
        Some(above) => push_link(text, above.event, node, way_of(travels, node.key)),
        None => Ok(()),
    }
}

// The parent of the node, if it has one.
fn parent_of(by_key: &KeyMap<Node>, node: &Node) -> Option<Node>
    ensures { (all : List NodeValue) → FindsNodes by_key.now all →
        result ≡ parent_among all node.now }
{
    match node.parent {
        Some(parent) => by_key.get(parent).copied(),
        None => None,
    }
}

// Appends a link, from the parent that was born at this event, and how a failure followed it along
// it.
fn push_link(
    text: &mut Vec<u8>,
    above: u64,
    node: &Node,
    way: Option<TravelWay>,
) -> Result<(), AllocError>
    ensures { OnOk result (text.new.items ≡ text.old.items ++ link_text above node.now way) }
{
    push_parts(
        text,
        &[
            Part::Word("  n"),
            Part::Number(above),
            Part::Word(" -> n"),
            Part::Number(node.event),
            Part::Word(begin_of(link_of(node))),
        ],
    )?;
    push_way(text, way)?;
    push(text, "];\n")
}

// What stands before how a link looks.
fn begin_of(link: LinkStyle) -> &'static str
    ensures { result.now ≡ link_begin link }
{
    match link {
        LinkStyle::Normal => " [",
        LinkStyle::Attached => " [style=dashed, ",
        LinkStyle::Dispensable => " [style=dotted, ",
    }
}

// Appends how a failure followed a link, if it did.
fn push_way(text: &mut Vec<u8>, way: Option<TravelWay>) -> Result<(), AllocError>
    ensures { OnOk result (text.new.items ≡ text.old.items ++ dot_way_text way) }
{
    match way {
        Some(TravelWay::Up(step)) => push_arrow(text, "dir=back", "3", step),
        Some(TravelWay::Down(step)) => push_arrow(text, "dir=forward", "2", step),
        Some(TravelWay::Stop) => push(text, words_for_stop()),
        None => push(text, "dir=none"),
    }
}

// How a link looks at which a failure stopped.
#[tactic(auto, unfolding(crate::specs::DotPictures::stop_words))]
fn words_for_stop() -> &'static str
    ensures { result.now ≡ stop_words }
{
    "dir=both, arrowhead=tee, arrowtail=none, arrowsize=1.6, color=\"#222222\", penwidth=2, \
     label=\" stops\""
}

// Appends how an arrow looks that a failure followed, at this step.
fn push_arrow<'a>(
    text: &mut Vec<u8>,
    direction: &'a str,
    width: &'a str,
    step: u64,
) -> Result<(), AllocError>
    ensures { OnOk result (text.new.items
        ≡ text.old.items ++ arrow_text direction.now width.now step) }
{
    push_parts(
        text,
        &[
            Part::Word(direction),
            Part::Word(", color=\"#D55E00\", penwidth="),
            Part::Word(width),
            Part::Word(", label=\" "),
            Part::Number(step),
            Part::Word("\", fontcolor=\"#D55E00\""),
        ],
    )
}

// Appends a link from the middle leaf to the table, if there are both.
fn push_table_link(text: &mut Vec<u8>, tree: &Tree) -> Result<(), AllocError>
    ensures { OnOk result (text.new.items ≡ text.old.items ++ table_link_of tree.now) }
{
    if !has_table(tree) {
        return Ok(());
    }
    let leaves = leaves_of(&tree.nodes)?;
    match middle(&leaves) {
        Some(event) => push_leaf_link(text, tree.id, event),
        None => Ok(()),
    }
}

// Appends a link, from the node that was born at this event to the table of this number.
fn push_leaf_link(text: &mut Vec<u8>, id: u64, event: u64) -> Result<(), AllocError>
    ensures { OnOk result (text.new.items ≡ text.old.items ++ table_link id event) }
{
    push_parts(
        text,
        &[
            Part::Word("  n"),
            Part::Number(event),
            Part::Word(" -> b"),
            Part::Number(id),
            Part::Word(" [style=invis];\n"),
        ],
    )
}

// The one in the middle.
fn middle(events: &[u64]) -> Option<u64>
    ensures { result ≡ middle_of events.now }
{
    events.get(events.len() / 2).copied()
}

// The events of the births of the nodes that have no child.
fn leaves_of(nodes: &Vec<Node>) -> Result<Vec<u64>, AllocError>
    ensures { IfOk result (λ leaves. leaves.items ≡ leaves_in nodes.now.items) }
{
    let parents = parents_among(nodes)?;
    leaves_past(nodes, &parents)
}

// The events of the births of the nodes that are none of these, on which others hang.
fn leaves_past(nodes: &Vec<Node>, parents: &KeySet) -> Result<Vec<u64>, AllocError>
    ensures { IfOk result (λ leaves. AreParents parents.now nodes.now.items →
        leaves.items ≡ leaves_in nodes.now.items) }
{
    let mut leaves = Vec::new(*nodes.allocator());
    for node in nodes {
        if !parents.has(node.key) {
            leaves.push(node.event)?;
        }
    }
    Ok(leaves)
}
