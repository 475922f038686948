//! The text of an allocation.
ghost use Rattle.std.specs.Prelude.{◌≡◌, ◌++◌, OnOk};
ghost use Rattle.std.specs.List.{flat_map};
ghost use Rattle.script_labels.specs.Names.{Names};
ghost use Rattle.script_labels.specs.Tables.{Keeps};
ghost use Rattle.script_labels.specs.Texts.{held_text};
ghost use Rattle.event_texts.specs.EventTexts.{at_least_text, camp_text, camped_in, camping_in, camps_text, given_text, initial_text, logical_text, nobody_text, pages_line, reserved_text, shared_text};

use crate::words::shown;
use forced_marks::demand::reserved;
use forest_store::{Node, Snapshot};
use script_labels::{Tables, push_held};
use script_lines::{Part, push, push_parts};
use sm_names::{Buffers, HeldBuffer, NodeKey};
use std::alloc::AllocError;

// Appends that the unit of the root was given these buffers, where the collection stood so before.
pub(crate) fn push_initial(
    text: &mut Vec<u8>,
    tables: &Tables,
    scene: &Snapshot,
    head: NodeKey,
    given: Buffers,
    held: &[HeldBuffer],
) -> Result<(), AllocError>
    ensures { OnOk result ((names : Names) → Keeps tables.now names →
        text.new.items
        ≡ text.old.items ++ initial_text names scene.now.nodes.items head given held.now) }
{
    push_given(text, tables, head, given)?;
    push_camps(text, tables, &scene.nodes, head)?;
    push_at_least(text, camped(&scene.nodes, head), given.count as u64)?;
    push_pages(text, tables, held)
}

// Appends the buffers that the unit of the root was given.
fn push_given(
    text: &mut Vec<u8>,
    tables: &Tables,
    head: NodeKey,
    given: Buffers,
) -> Result<(), AllocError>
    ensures { OnOk result ((names : Names) → Keeps tables.now names →
        text.new.items ≡ text.old.items ++ given_text names head given) }
{
    push_parts(
        text,
        &[
            Part::Name(tables.birth_label(head)),
            Part::Word(" is allocated: "),
            Part::Counted(given.count as u64, "buffer"),
            Part::Word(" of "),
            Part::Counted(given.size as u64, "byte"),
            Part::Word("\n"),
        ],
    )
}

// Appends that this many buffers were asked for at least, where fewer are camped on.
fn push_at_least(text: &mut Vec<u8>, camped: u64, count: u64) -> Result<(), AllocError>
    ensures { OnOk result (text.new.items ≡ text.old.items ++ at_least_text camped count) }
{
    if camped < count {
        push_parts(text, &[Part::Word("; at least "), Part::Number(count)])
    } else {
        Ok(())
    }
}

// Appends the line of the pages.
fn push_pages(text: &mut Vec<u8>, tables: &Tables, held: &[HeldBuffer]) -> Result<(), AllocError>
    ensures { OnOk result ((names : Names) → Keeps tables.now names →
        text.new.items ≡ text.old.items ++ pages_line names held.now) }
{
    push(text, "\n  pages  ")?;
    push_each_held(text, tables, held)?;
    push(text, "\n")
}

// Appends a space and each of the buffers, with its pages.
pub(crate) fn push_each_held(
    text: &mut Vec<u8>,
    tables: &Tables,
    held: &[HeldBuffer],
) -> Result<(), AllocError>
    ensures { OnOk result ((names : Names) → Keeps tables.now names →
        text.new.items ≡ text.old.items ++ flat_map (held_text names) held.now) }
{
    for buffer in held {
        push_held(text, tables, *buffer)?;
    }
    Ok(())
}

// Appends that the unit of an attached head shares the collection's buffers, where the collection
// stood so before.
pub(crate) fn push_logical(
    text: &mut Vec<u8>,
    tables: &Tables,
    scene: &Snapshot,
    head: NodeKey,
    given: Buffers,
) -> Result<(), AllocError>
    ensures { OnOk result ((names : Names) → Keeps tables.now names →
        text.new.items ≡ text.old.items ++ logical_text names scene.now.nodes.items head given) }
{
    push_shared(text, tables, head)?;
    push_camps(text, tables, &scene.nodes, head)?;
    push_reserved(text, &scene.nodes, given.count as u64)
}

// Appends that the unit of an attached head is allocated.
fn push_shared(text: &mut Vec<u8>, tables: &Tables, head: NodeKey) -> Result<(), AllocError>
    ensures { OnOk result ((names : Names) → Keeps tables.now names →
        text.new.items ≡ text.old.items ++ shared_text names head) }
{
    push_parts(
        text,
        &[
            Part::Name(tables.birth_label(head)),
            Part::Word(" is allocated out of the buffers that there are\n"),
        ],
    )
}

// Appends how many of this many buffers were reserved before.
fn push_reserved(text: &mut Vec<u8>, nodes: &[Node], count: u64) -> Result<(), AllocError>
    ensures { OnOk result (text.new.items ≡ text.old.items ++ reserved_text nodes.now count) }
{
    push_parts(
        text,
        &[
            Part::Word("; "),
            Part::Number(shown(reserved(nodes))),
            Part::Word(" of "),
            Part::Number(count),
            Part::Word(" were reserved\n"),
        ],
    )
}

// On how many buffers the node camps, if it is in the unit with this head and not gone.
fn camping(node: &Node, head: NodeKey) -> u8
    ensures { result ≡ camping_in head node.now }
{
    match node.constraints {
        Some(asked) => {
            if node.head == head && !node.gone {
                asked.camping()
            } else {
                0
            }
        }
        None => 0,
    }
}

// On how many buffers the unit with this head camps, or the greatest number.
fn camped(nodes: &[Node], head: NodeKey) -> u64
    ensures { result ≡ camped_in head nodes.now }
{
    let mut sum: u64 = 0;
    for node in nodes {
        sum = sum.saturating_add(camping(node, head) as u64);
    }
    sum
}

// Appends the nodes of the unit that camp on buffers, with the number of each.
fn push_camps(
    text: &mut Vec<u8>,
    tables: &Tables,
    nodes: &[Node],
    head: NodeKey,
) -> Result<(), AllocError>
    ensures { OnOk result ((names : Names) → Keeps tables.now names →
        text.new.items ≡ text.old.items ++ camps_text names head nodes.now) }
{
    push(text, "  camps  ")?;
    push_each_camp(text, tables, nodes, head)?;
    push(text, nobody_of(camped(nodes, head)))
}

// That nobody camps, where the sum is 0.
fn nobody_of(sum: u64) -> &'static str
    ensures { result.now ≡ nobody_text sum }
{
    if sum == 0 { " nobody" } else { "" }
}

// Appends each node of the unit that camps.
fn push_each_camp(
    text: &mut Vec<u8>,
    tables: &Tables,
    nodes: &[Node],
    head: NodeKey,
) -> Result<(), AllocError>
    ensures { OnOk result ((names : Names) → Keeps tables.now names →
        text.new.items ≡ text.old.items ++ flat_map (camp_text names head) nodes.now) }
{
    for node in nodes {
        push_camp(text, tables, node, head)?;
    }
    Ok(())
}

// Appends the node, and on how many buffers it camps, if it does.
fn push_camp(
    text: &mut Vec<u8>,
    tables: &Tables,
    node: &Node,
    head: NodeKey,
) -> Result<(), AllocError>
    ensures { OnOk result ((names : Names) → Keeps tables.now names →
        text.new.items ≡ text.old.items ++ camp_text names head node.now) }
{
    let count = camping(node, head);
    if count == 0 {
        return Ok(());
    }
    push_parts(
        text,
        &[
            Part::Word(" "),
            Part::Name(tables.birth_label(node.key)),
            Part::Word(" "),
            Part::Number(count as u64),
        ],
    )
}
