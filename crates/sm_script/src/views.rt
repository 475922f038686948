//! The texts of views.
ghost use Rattle.std.specs.Prelude.{◌≡◌, ◌++◌, List, OnOk, codes, decimal};
ghost use Rattle.std.specs.List.{flat_map};
ghost use Rattle.sm_names.specs.Marks.{Entry};
ghost use Rattle.sm_names.specs.Timelines.{timeline};
ghost use Rattle.core_state.specs.Shown.{Shows};
ghost use Rattle.script_labels.specs.Names.{Names};
ghost use Rattle.script_labels.specs.Tables.{Keeps};
ghost use Rattle.script_labels.specs.Texts.{fired_text, held_text, node_text, view_text};

use lifetime_core::Core;
use script_labels::{Tables, push_firing, push_held, push_node};
use script_lines::{Query, push, push_number};
use sm_names::{Fired, HeldBuffer, NodeKey};
use std::alloc::AllocError;

// Appends the view.
pub(crate) fn push_view(
    text: &mut Vec<u8>,
    core: &Core,
    tables: &Tables,
    view: Query,
) -> Result<(), AllocError>
    ensures { OnOk result ((names : Names) (history : List Entry) → Keeps tables.now names →
        Shows core.now history → text.new.items
        ≡ text.old.items ++ view_text core.now.pool (timeline core.now.pool history) names view) }
{
    match view {
        Query::Live => match core.live() {
            Ok(nodes) => push_nodes(text, tables, nodes.as_slice()),
            Err(_) => Err(AllocError),
        },
        Query::Held => match core.held() {
            Ok(buffers) => push_buffers(text, tables, buffers.as_slice()),
            Err(_) => Err(AllocError),
        },
        Query::Fired => push_firings(text, tables, core.fired()),
        Query::Free => push_free(text, core.free_pages()),
    }
}

// Appends the number of free pages.
fn push_free(text: &mut Vec<u8>, pages: u32) -> Result<(), AllocError>
    ensures { OnOk result (text.new.items ≡ text.old.items ++ (codes "free " ++ decimal pages)) }
{
    push(text, "free ")?;
    push_number(text, pages as u64)
}

// Appends the live nodes.
fn push_nodes(text: &mut Vec<u8>, tables: &Tables, nodes: &[NodeKey]) -> Result<(), AllocError>
    ensures { OnOk result ((names : Names) → Keeps tables.now names →
        text.new.items ≡ text.old.items ++ (codes "live" ++ flat_map (node_text names) nodes.now)) }
{
    push(text, "live")?;
    for node in nodes {
        push_node(text, tables, *node)?;
    }
    Ok(())
}

// Appends the held buffers.
fn push_buffers(
    text: &mut Vec<u8>,
    tables: &Tables,
    buffers: &[HeldBuffer],
) -> Result<(), AllocError>
    ensures { OnOk result ((names : Names) → Keeps tables.now names →
        text.new.items ≡ text.old.items ++ (codes "held" ++ flat_map (held_text names) buffers.now)) }
{
    push(text, "held")?;
    for held in buffers {
        push_held(text, tables, *held)?;
    }
    Ok(())
}

// Appends the firings.
fn push_firings(text: &mut Vec<u8>, tables: &Tables, firings: &[Fired]) -> Result<(), AllocError>
    ensures { OnOk result ((names : Names) → Keeps tables.now names →
        text.new.items ≡ text.old.items ++ (codes "fired" ++ flat_map (fired_text names) firings.now)) }
{
    push(text, "fired")?;
    for firing in firings {
        push_firing(text, tables, *firing)?;
    }
    Ok(())
}
