//! The lines of a node's box.
ghost use Rattle.std.specs.Prelude.{◌≡◌, ◌∷◌, ◌++◌, [], IfOk, OnOk, map};
ghost use Rattle.script_labels.specs.Names.{Names};
ghost use Rattle.script_labels.specs.Tables.{Keeps};
ghost use Rattle.event_texts.specs.Called.{Calls};
ghost use Rattle.picture_model.specs.BoxLines.{asked_words, kind_words, node_words, state_words};
ghost use Rattle.picture_model.specs.Features.{place_text};
ghost use Rattle.picture_svg.specs.Trees.{asked_lines, line_items, node_lines as lines_of};

use event_texts::EventWriter;
use forest_store::Node;
use picture_model::{push_asked_line, push_kind_line, push_node_name, push_place, push_state_line};
use script_labels::Tables;
use sm_names::Constraints;
use std::alloc::{AllocError, Global};

// The name of the node, behind the sign of what it is drawn as.
pub(crate) fn node_name(alloc: Global, tables: &Tables, node: &Node) -> Result<Vec<u8>, AllocError>
    ensures { IfOk result (λ name. (names : Names) → Keeps tables.now names →
        name.items ≡ node_words names node.now) }
{
    let mut name = Vec::new(alloc);
    push_node_name(&mut name, tables, node)?;
    Ok(name)
}

// The lines of the node's box, below its name: its state, what it is, what it asks for, and where its end
// is. Costs O(n) for n bytes of text, and a look-up of each label.
pub(crate) fn node_lines(
    alloc: Global,
    event_writer: &EventWriter,
    node: &Node,
) -> Result<Vec<Vec<u8>>, AllocError>
    ensures { IfOk result (λ lines. (names : Names) → Keeps event_writer.now.session.tables names →
        Calls event_writer.now.labels names → map line_items lines.items ≡ lines_of names node.now) }
{
    let mut lines = Vec::new(alloc);
    add_lines(&mut lines, event_writer, node)?;
    Ok(lines)
}

// Puts the lines of the node's box behind those that are there.
fn add_lines(
    lines: &mut Vec<Vec<u8>>,
    event_writer: &EventWriter,
    node: &Node,
) -> Result<(), AllocError>
    ensures { OnOk result ((names : Names) → Keeps event_writer.now.session.tables names →
        Calls event_writer.now.labels names → map line_items lines.new.items
        ≡ map line_items lines.old.items ++ lines_of names node.now) }
{
    add_state(lines, event_writer, node)?;
    add_kind(lines, event_writer, node)?;
    add_asked(lines, node.constraints)?;
    add_place(lines, event_writer, node)
}

// Puts the state of the node behind the lines.
fn add_state(
    lines: &mut Vec<Vec<u8>>,
    event_writer: &EventWriter,
    node: &Node,
) -> Result<(), AllocError>
    ensures { OnOk result ((names : Names) → Keeps event_writer.now.session.tables names →
        map line_items lines.new.items
        ≡ map line_items lines.old.items ++ state_words names node.now ∷ []) }
{
    let mut text = Vec::new(*lines.allocator());
    push_state_line(&mut text, &event_writer.session.tables, node)?;
    lines.push(text)?;
    Ok(())
}

// Puts what the node is, and what it was collected as, behind the lines.
fn add_kind(
    lines: &mut Vec<Vec<u8>>,
    event_writer: &EventWriter,
    node: &Node,
) -> Result<(), AllocError>
    ensures { OnOk result ((names : Names) → Keeps event_writer.now.session.tables names →
        Calls event_writer.now.labels names → map line_items lines.new.items
        ≡ map line_items lines.old.items ++ kind_words names node.now ∷ []) }
{
    let mut text = Vec::new(*lines.allocator());
    push_kind_line(&mut text, event_writer, node)?;
    lines.push(text)?;
    Ok(())
}

// Puts what the node asks for behind the lines, if it does.
fn add_asked(lines: &mut Vec<Vec<u8>>, asked: Option<Constraints>) -> Result<(), AllocError>
    ensures { OnOk result (map line_items lines.new.items
        ≡ map line_items lines.old.items ++ asked_lines asked) }
{
    match asked {
        Some(asked) => {
            let mut text = Vec::new(*lines.allocator());
            push_asked_line(&mut text, asked)?;
            lines.push(text)?;
            Ok(())
        }
        None => Ok(()),
    }
}

// Puts where the end of the node is behind the lines.
fn add_place(
    lines: &mut Vec<Vec<u8>>,
    event_writer: &EventWriter,
    node: &Node,
) -> Result<(), AllocError>
    ensures { OnOk result ((names : Names) → Calls event_writer.now.labels names →
        map line_items lines.new.items
        ≡ map line_items lines.old.items ++ place_text names node.now.end ∷ []) }
{
    let mut text = Vec::new(*lines.allocator());
    push_place(&mut text, &event_writer.labels, node)?;
    lines.push(text)?;
    Ok(())
}
