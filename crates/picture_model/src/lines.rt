//! The lines of a node's box.
ghost use Rattle.std.specs.Prelude.{◌≡◌, ◌++◌, OnOk};
ghost use Rattle.script_labels.specs.Names.{Names, label_of_node};
ghost use Rattle.script_labels.specs.Tables.{Keeps};
ghost use Rattle.event_texts.specs.Called.{Calls, last_label, other_text};
ghost use Rattle.picture_model.specs.BoxLines.{also_text, asked_words, bytes_word, camps_words, dispensable_words as dispensable_text, fallen_words, fired_words, gap_behind_sign, header_text, kind_words, least_words, node_words, released_words as released_text, size_words, state_words, weak_words as weak_text};

use crate::features::{Class, class_of, class_sign, kind_name};
use event_texts::EventWriter;
use forest_store::Node;
use script_labels::{Tables, push_cause};
use script_lines::{Part, push, push_parts};
use sm_names::{Constraints, Fault, Fired, NodeKey};
use std::alloc::AllocError;

/// Appends the number of the event and its line, or that there was no event. Costs O(n) for n bytes of text.
pub fn push_header(text: &mut Vec<u8>, event: u64, line: &[u8]) -> Result<(), AllocError>
    ensures { OnOk result (text.new.items ≡ text.old.items ++ header_text event line.now) }
{
    if event == 0 {
        return push(text, "no event");
    }
    push_parts(
        text,
        &[
            Part::Word("event "),
            Part::Number(event),
            Part::Word(": "),
            Part::Bytes(line),
        ],
    )
}

/// Appends the state of the node. Costs O(n) for n bytes of text, and a look-up.
pub fn push_state_line(text: &mut Vec<u8>, tables: &Tables, node: &Node) -> Result<(), AllocError>
    ensures { OnOk result ((names : Names) → Keeps tables.now names →
        text.new.items ≡ text.old.items ++ state_words names node.now) }
{
    push(text, released_words(node))?;
    match (class_of(node), node.fault) {
        (Class::Live, _) => push(text, "live"),
        (Class::Orphan, _) => push(text, "released"),
        (Class::Ended, _) => push(text, "ended"),
        (Class::Origin, None) => push(text, "ended"),
        (Class::Origin, Some(fault)) => push_cause(text, fault.cause),
        (Class::Taken, None) => push(text, "ended"),
        (Class::Taken, Some(fault)) => push_fallen(text, tables, fault),
    }
}

/// Appends the label of the node, behind the sign of what it is drawn as, if it has one. Costs O(n) for
/// n bytes of text, and a look-up.
pub fn push_node_name(text: &mut Vec<u8>, tables: &Tables, node: &Node) -> Result<(), AllocError>
    ensures { OnOk result ((names : Names) → Keeps tables.now names →
        text.new.items ≡ text.old.items ++ node_words names node.now) }
{
    let class = class_of(node);
    push_parts(
        text,
        &[
            Part::Word(class_sign(class)),
            Part::Word(gap_behind(class)),
            Part::Name(tables.birth_label(node.key)),
        ],
    )
}

// What stands behind the sign.
fn gap_behind(class: Class) -> &'static str
    ensures { result.now ≡ gap_behind_sign class }
{
    match class {
        Class::Live => "",
        Class::Orphan | Class::Origin | Class::Taken | Class::Ended => " ",
    }
}

/// Appends that the tracker fired, and at which event. Costs O(n) for n bytes of text, and a look-up.
pub fn push_fired(text: &mut Vec<u8>, tables: &Tables, firing: Fired) -> Result<(), AllocError>
    ensures { OnOk result ((names : Names) → Keeps tables.now names →
        text.new.items ≡ text.old.items ++ fired_words names firing) }
{
    push_parts(
        text,
        &[
            Part::Word("tracker "),
            Part::Name(tables.tracker_label(firing.tracker)),
            Part::Word(" fired at event "),
            Part::Number(firing.event),
        ],
    )
}

// That the node was released before it left.
fn released_words(node: &Node) -> &'static str
    ensures { result.now ≡ released_text node.now }
{
    if node.released && node.gone {
        "released; "
    } else {
        ""
    }
}

// Appends why the node failed, and with whom.
fn push_fallen(text: &mut Vec<u8>, tables: &Tables, fault: Fault) -> Result<(), AllocError>
    ensures { OnOk result ((names : Names) → Keeps tables.now names →
        text.new.items ≡ text.old.items ++ fallen_words names fault) }
{
    push_cause(text, fault.cause)?;
    push_parts(
        text,
        &[
            Part::Word(", origin "),
            Part::Name(tables.birth_label(fault.origin)),
        ],
    )
}

/// Appends what the node is, and what it was collected as. Costs O(n) for n bytes of text, and two
/// look-ups.
pub fn push_kind_line(
    text: &mut Vec<u8>,
    event_writer: &EventWriter,
    node: &Node,
) -> Result<(), AllocError>
    ensures { OnOk result ((names : Names) → Keeps event_writer.now.session.tables names →
        Calls event_writer.now.labels names →
        text.new.items ≡ text.old.items ++ kind_words names node.now) }
{
    push_parts(
        text,
        &[
            Part::Word(kind_name(node)),
            Part::Word(dispensable_words(node)),
            Part::Word(weak_words(node)),
        ],
    )?;
    push_other_name(text, event_writer, node.key)
}

// That the node is dispensable.
fn dispensable_words(node: &Node) -> &'static str
    ensures { result.now ≡ dispensable_text node.now }
{
    if node.dispensable {
        ", dispensable"
    } else {
        ""
    }
}

// That the node is weak.
fn weak_words(node: &Node) -> &'static str
    ensures { result.now ≡ weak_text node.now }
{
    if node.weak { ", weak" } else { "" }
}

// Appends the label under which the end of the node was collected last, if it is another than that of its
// birth.
fn push_other_name(
    text: &mut Vec<u8>,
    event_writer: &EventWriter,
    node: NodeKey,
) -> Result<(), AllocError>
    ensures { OnOk result ((names : Names) → Keeps event_writer.now.session.tables names →
        Calls event_writer.now.labels names → text.new.items ≡ text.old.items
        ++ also_text (other_text (last_label names node) (label_of_node names node))) }
{
    let mut other = Vec::new(*text.allocator());
    event_writer.push_other_name(&mut other, node)?;
    push_also(text, &other)
}

// Appends the name, in parentheses, if there is one.
fn push_also(text: &mut Vec<u8>, name: &[u8]) -> Result<(), AllocError>
    ensures { OnOk result (text.new.items ≡ text.old.items ++ also_text name.now) }
{
    if name.is_empty() {
        return Ok(());
    }
    push_parts(
        text,
        &[Part::Word(" ("), Part::Bytes(name), Part::Word(")")],
    )
}

/// Appends what is asked for. Costs O(n) for n bytes of text.
pub fn push_asked_line(text: &mut Vec<u8>, asked: Constraints) -> Result<(), AllocError>
    ensures { OnOk result (text.new.items ≡ text.old.items ++ asked_words asked) }
{
    push_camps(text, asked.camping() as u64)?;
    push_least(text, asked.at_least() as u64)?;
    push_size(text, asked.size() as u64)
}

// Appends how many buffers are camped on.
#[tactic(auto, unfolding(crate::specs::BoxLines::camps_words))]
fn push_camps(text: &mut Vec<u8>, camping: u64) -> Result<(), AllocError>
    ensures { OnOk result (text.new.items ≡ text.old.items ++ camps_words camping) }
{
    push_parts(text, &[Part::Word("camps on "), Part::Number(camping)])
}

// Appends how many bytes a buffer is to have.
#[tactic(auto, unfolding(crate::specs::BoxLines::size_words))]
fn push_size(text: &mut Vec<u8>, size: u64) -> Result<(), AllocError>
    ensures { OnOk result (text.new.items ≡ text.old.items ++ size_words size) }
{
    push_parts(
        text,
        &[
            Part::Word(", "),
            Part::Number(size),
            Part::Word(bytes_behind(size)),
        ],
    )
}

// The word behind a number of bytes.
fn bytes_behind(size: u64) -> &'static str
    ensures { result.now ≡ bytes_word size }
{
    if size == 1 { " byte" } else { " bytes" }
}

// Appends how many buffers there are to be at least, if some are.
fn push_least(text: &mut Vec<u8>, at_least: u64) -> Result<(), AllocError>
    ensures { OnOk result (text.new.items ≡ text.old.items ++ least_words at_least) }
{
    if at_least == 0 {
        return Ok(());
    }
    push_parts(text, &[Part::Word(", at least "), Part::Number(at_least)])
}
