//! The words of facts.
ghost use Rattle.std.specs.Prelude.{◌≡◌, ◌++◌, ◌<◌, OnOk};
ghost use Rattle.std.specs.List.{flat_map};
ghost use Rattle.script_lines.specs.Labels.{label_text};
ghost use Rattle.script_labels.specs.Names.{Names, label_of_node};
ghost use Rattle.script_labels.specs.Tables.{Keeps};
ghost use Rattle.sm_names.specs.Handles.{names as names_of};
ghost use Rattle.script_labels.specs.Texts.{member_text, node_text};
ghost use Rattle.event_texts.specs.Called.{Calls, client_label};
ghost use Rattle.event_texts.specs.LossTexts.{misuse_text, shown as shown_number};

use crate::labels::Labels;
use script_labels::{Tables, push_buffer, push_node};
use script_lines::push_label;
use sm_names::{
    BufferName, ClientId, CollectionId, MAX_BUFFERS, Misuse, NodeKey, PAGE_SIZE, has_buffer,
};
use std::alloc::AllocError;

// How many bytes a page has.
pub(crate) const PAGE: u64 = PAGE_SIZE as u64;

// How many bits a set has, one for each buffer.
const SET_BITS: u8 = 64;

/// Appends the node's label. Costs O(n) for a label of n bytes, and a look-up.
pub fn push_name(text: &mut Vec<u8>, tables: &Tables, node: NodeKey) -> Result<(), AllocError>
    ensures { OnOk result ((names : Names) → Keeps tables.now names →
        text.new.items ≡ text.old.items ++ label_text (label_of_node names node)) }
{
    push_label(text, tables.birth_label(node))
}

/// Appends a space and the label of each node. Costs O(n) for n bytes of labels, and a look-up of each.
pub fn push_nodes(text: &mut Vec<u8>, tables: &Tables, nodes: &[NodeKey]) -> Result<(), AllocError>
    ensures { OnOk result ((names : Names) → Keeps tables.now names →
        text.new.items ≡ text.old.items ++ flat_map (node_text names) nodes.now) }
{
    for node in nodes {
        push_node(text, tables, *node)?;
    }
    Ok(())
}

/// Appends the client's label. Costs O(n) for a label of n bytes, and a look-up.
pub fn push_client(text: &mut Vec<u8>, labels: &Labels, client: ClientId) -> Result<(), AllocError>
    ensures { OnOk result ((names : Names) → Calls labels.now names →
        text.new.items ≡ text.old.items ++ label_text (client_label names client)) }
{
    push_label(text, labels.client(client))
}

// Appends a space and each buffer of the set.
pub(crate) fn push_set(
    text: &mut Vec<u8>,
    tables: &Tables,
    collection: CollectionId,
    set: u64,
) -> Result<(), AllocError>
    ensures { OnOk result ((names : Names) → Keeps tables.now names →
        text.new.items ≡ text.old.items
        ++ flat_map (member_text names set) (names_of collection MAX_BUFFERS)) }
{
    for index in 0..SET_BITS {
        push_member(text, tables, set, BufferName { collection, index })?;
    }
    Ok(())
}

// Appends a space and the buffer, if it is in the set.
fn push_member(
    text: &mut Vec<u8>,
    tables: &Tables,
    set: u64,
    buffer: BufferName,
) -> Result<(), AllocError>
    requires { buffer.index < MAX_BUFFERS }
    ensures { OnOk result ((names : Names) → Keeps tables.now names →
        text.new.items ≡ text.old.items ++ member_text names set buffer) }
{
    if has_buffer(set, buffer.index) {
        return push_buffer(text, tables, buffer);
    }
    Ok(())
}

// The number, or the greatest that a text is made of.
pub(crate) fn shown(number: u128) -> u64
    ensures { result ≡ shown_number number }
{
    match u64::try_from(number) {
        Ok(number) => number,
        Err(_) => u64::MAX,
    }
}

// Why a misuse makes a node fail.
pub(crate) fn misuse_words(misuse: Misuse) -> &'static str
    ensures { result.now ≡ misuse_text misuse }
{
    match misuse {
        Misuse::SecondConstraints => "its constraints were set before",
        Misuse::LateWeak => "weak after constraints",
        Misuse::LateWeakOk => "weakok after it took buffers",
        Misuse::WeakNotOk => "it is weak and took buffers without weakok",
        Misuse::TooManyNodeTrackers => "it has 64 node trackers",
    }
}
