//! The boxes of nodes in the language of Graphviz.
ghost use Rattle.std.specs.Prelude.{◌≡◌, ◌++◌, List, OnOk};
ghost use Rattle.std.specs.List.{flat_map};
ghost use Rattle.sm_names.specs.declared.keys.NodeKey.{NodeKey as Key};
ghost use Rattle.event_facts.specs.KeyMaps.{HasKeys};
ghost use Rattle.script_labels.specs.Names.{Names};
ghost use Rattle.script_labels.specs.Tables.{Keeps};
ghost use Rattle.event_texts.specs.Called.{Calls};
ghost use Rattle.picture_dot.specs.DotPictures.{asked_line, border_text, box_head, box_lines, box_text, look_text, width_text};

use event_facts::keys_of;
use event_texts::EventWriter;
use forced_marks::key_sets::KeySet;
use forest_store::Node;
use picture_model::colors::{edge_color, fill_color, ink_color};
use picture_model::{
    Class, class_of, push_asked_line, push_kind_line, push_node_name, push_place, push_state_line,
};
use script_labels::Tables;
use script_lines::{Part, push, push_parts};
use sm_names::{Constraints, NodeKey};
use std::alloc::AllocError;

// Appends a box for each of the nodes, of which these left at the event.
pub(crate) fn push_boxes(
    text: &mut Vec<u8>,
    event_writer: &EventWriter,
    nodes: &[Node],
    left: &[NodeKey],
) -> Result<(), AllocError>
    ensures { OnOk result ((names : Names) → Keeps event_writer.now.session.tables names →
        Calls event_writer.now.labels names → text.new.items ≡ text.old.items
        ++ flat_map (box_text names left.now) nodes.now) }
{
    let left = keys_of(*text.allocator(), left)?;
    push_each_box(text, event_writer, nodes, &left)
}

// Appends a box for each of the nodes, of which these left at the event.
fn push_each_box(
    text: &mut Vec<u8>,
    event_writer: &EventWriter,
    nodes: &[Node],
    left: &KeySet,
) -> Result<(), AllocError>
    ensures { OnOk result ((names : Names) → Keeps event_writer.now.session.tables names →
        Calls event_writer.now.labels names → (keys : List Key) → HasKeys left.now keys →
        text.new.items ≡ text.old.items ++ flat_map (box_text names keys) nodes.now) }
{
    for node in nodes {
        push_box(text, event_writer, node, left)?;
    }
    Ok(())
}

// Appends the box of a node.
#[tactic(auto, unfolding(crate::specs::DotPictures::box_text))]
fn push_box(
    text: &mut Vec<u8>,
    event_writer: &EventWriter,
    node: &Node,
    left: &KeySet,
) -> Result<(), AllocError>
    ensures { OnOk result ((names : Names) → Keeps event_writer.now.session.tables names →
        Calls event_writer.now.labels names → (keys : List Key) → HasKeys left.now keys →
        text.new.items ≡ text.old.items ++ box_text names keys node.now) }
{
    push_head(text, &event_writer.session.tables, node)?;
    push_lines(text, event_writer, node)?;
    push_look(text, left, node)
}

// Appends the begin of a box, with the sign and the label of its node.
#[tactic(auto, unfolding(crate::specs::DotPictures::box_head))]
fn push_head(text: &mut Vec<u8>, tables: &Tables, node: &Node) -> Result<(), AllocError>
    ensures { OnOk result ((names : Names) → Keeps tables.now names →
        text.new.items ≡ text.old.items ++ box_head names node.now) }
{
    push_parts(
        text,
        &[
            Part::Word("    n"),
            Part::Number(node.event),
            Part::Word(" [label=<<b>"),
        ],
    )?;
    push_node_name(text, tables, node)?;
    push(text, "</b>")
}

// Appends the lines of a box.
fn push_lines(text: &mut Vec<u8>, event_writer: &EventWriter, node: &Node) -> Result<(), AllocError>
    ensures { OnOk result ((names : Names) → Keeps event_writer.now.session.tables names →
        Calls event_writer.now.labels names → text.new.items ≡ text.old.items
        ++ box_lines names node.now) }
{
    push(text, "<br/>")?;
    push_state_line(text, &event_writer.session.tables, node)?;
    push(text, "<br/>")?;
    push_kind_line(text, event_writer, node)?;
    push_asked(text, node.constraints)?;
    push(text, "<br/>")?;
    push_place(text, &event_writer.labels, node)
}

// Appends the line of what is asked for, if something is.
fn push_asked(text: &mut Vec<u8>, asked: Option<Constraints>) -> Result<(), AllocError>
    ensures { OnOk result (text.new.items ≡ text.old.items ++ asked_line asked) }
{
    match asked {
        Some(asked) => {
            push(text, "<br/>")?;
            push_asked_line(text, asked)
        }
        None => Ok(()),
    }
}

// Appends how the box of a node looks.
#[tactic(auto, unfolding(crate::specs::DotPictures::look_text))]
fn push_look(text: &mut Vec<u8>, left: &KeySet, node: &Node) -> Result<(), AllocError>
    ensures { OnOk result ((keys : List Key) → HasKeys left.now keys →
        text.new.items ≡ text.old.items ++ look_text keys node.now) }
{
    let class = class_of(node);
    push_parts(
        text,
        &[
            Part::Word(">, style=\"filled"),
            Part::Word(border_of(class)),
            Part::Word("\", fillcolor=\""),
            Part::Word(fill_color(class)),
            Part::Word("\", color=\""),
            Part::Word(edge_color(class)),
            Part::Word("\", fontcolor=\""),
            Part::Word(ink_color(class)),
            Part::Word(width_of(left, node.key)),
        ],
    )
}

// How the border of a box looks.
fn border_of(class: Class) -> &'static str
    ensures { result.now ≡ border_text class }
{
    match class {
        Class::Orphan => ",dashed",
        Class::Ended => ",dotted",
        Class::Live | Class::Origin | Class::Taken => "",
    }
}

// The end of a box, whose border is thick if its node is one of these.
fn width_of(left: &KeySet, key: NodeKey) -> &'static str
    ensures { (keys : List Key) → HasKeys left.now keys → result.now ≡ width_text keys key }
{
    if left.has(key) {
        "\", penwidth=3];\n"
    } else {
        "\", penwidth=1.5];\n"
    }
}
