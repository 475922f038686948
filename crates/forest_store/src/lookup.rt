//! What is kept of the nodes: reading them by their keys.
ghost use Rattle.std.specs.Prelude.{◌≡◌, ◌++◌, ◌==◌, IfOk, map, not};
ghost use Rattle.std.specs.List.{filter, flat_map};
ghost use Rattle.sm_names.specs.Words.{sorted_by};
ghost use Rattle.forest_store.specs.declared.entry.Entry.{Entry as EntryValue};
ghost use Rattle.forest_store.specs.CollectionRows.{all_keys, collection_in, nodes_with, row_of, rows_of, is_strong};
ghost use Rattle.forest_store.specs.Nodes.{is_unkept};
ghost use Rattle.forest_store.specs.Questions.{is_live_node};
ghost use Rattle.forest_store.specs.Scenes.{pages_held};
ghost use Rattle.forest_store.specs.Snapshots.{collection_of};

use crate::boxed_entry::BoxedEntry;
use crate::entry::Entry;
use crate::node::{End, Node};
use crate::snapshot::Snapshot;
use node_table::NodeTable;
use sm_names::{CollectionId, HeldBuffer, Interval, NodeKey};
use std::alloc::{AllocError, Global};

/// Whether the node is live and strong.
pub fn is_strong(node: &Node) -> bool
    ensures { result ≡ is_strong node.now }
{
    is_live(node) && !node.weak
}

/// Whether the node is unkept: it is gone and its end is spent.
pub(crate) fn is_unkept(node: &Node) -> bool
    ensures { result ≡ is_unkept node.now }
{
    node.gone && matches!(node.end, End::Spent)
}

/// The live nodes with these keys, behind others.
fn add_live(
    nodes: &mut Vec<Node>,
    table: &NodeTable<Node>,
    keys: &[NodeKey],
) -> Result<(), AllocError>
    ensures { IfOk result (λ _. nodes.new.items
        ≡ nodes.old.items ++ filter is_live_node (nodes_with table.now keys.now)) }
{
    for key in keys {
        if let Some(node) = table.get(*key) {
            if is_live(node) {
                nodes.push(*node)?;
            }
        }
    }
    Ok(())
}

/// The nodes with these keys, behind others.
fn add_kept(
    nodes: &mut Vec<Node>,
    table: &NodeTable<Node>,
    keys: &[NodeKey],
) -> Result<(), AllocError>
    ensures { IfOk result (λ _. nodes.new.items
        ≡ nodes.old.items ++ nodes_with table.now keys.now) }
{
    for key in keys {
        if let Some(node) = table.get(*key) {
            nodes.push(*node)?;
        }
    }
    Ok(())
}

/// The kept nodes of all collections, collection by collection, and by birth within each.
pub fn kept_nodes(
    alloc: Global,
    table: &NodeTable<Node>,
    entries: &[BoxedEntry],
) -> Result<Vec<Node>, AllocError>
    ensures { IfOk result (λ nodes. nodes.items
        ≡ nodes_with table.now (all_keys (rows_of entries.now))) }
{
    let mut nodes = Vec::with_capacity(alloc, table.len())?;
    for entry in entries {
        add_kept(&mut nodes, table, entry.get().keys.as_slice())?;
    }
    Ok(nodes)
}

/// The keys of the live nodes of all collections, by birth.
pub fn live_by_birth(
    alloc: Global,
    table: &NodeTable<Node>,
    entries: &[BoxedEntry],
) -> Result<Vec<NodeKey>, AllocError>
    ensures { IfOk result (λ keys. keys.items
        ≡ map (λ n. n.key) (sorted_by (λ n.
        n.event) (filter is_live_node
        (nodes_with table.now (all_keys (rows_of entries.now)))))) }
{
    let mut nodes = Vec::new(alloc);
    for entry in entries {
        add_live(&mut nodes, table, entry.get().keys.as_slice())?;
    }
    nodes.sort_by_key(|node| node.event)?;
    let mut keys = Vec::with_capacity(alloc, nodes.len())?;
    for node in &nodes {
        keys.push(node.key)?;
    }
    Ok(keys)
}

/// The buffers of all collections, by page.
pub fn held_by_page(alloc: Global, entries: &[BoxedEntry]) -> Result<Vec<HeldBuffer>, AllocError>
    ensures { IfOk result (λ held. held.items
        ≡ sorted_by (λ h. h.pages.start)
        (flat_map (λ (e : EntryValue). e.held.items) entries.now)) }
{
    let mut held = Vec::new(alloc);
    for entry in entries {
        held.extend_from_slice(&entry.get().held)?;
    }
    held.sort_by_key(|buffer| buffer.pages.start)?;
    Ok(held)
}

/// The pages of these buffers, behind others.
fn add_pages(pages: &mut Vec<Interval>, held: &[HeldBuffer]) -> Result<(), AllocError>
    ensures { IfOk result (λ _. pages.new.items ≡ pages.old.items ++ pages_held held.now) }
{
    for buffer in held {
        pages.push(buffer.pages)?;
    }
    Ok(())
}

/// The pages of the buffers of all entries but the one with this id, entry by entry.
pub fn pages_beside(
    alloc: Global,
    entries: &[BoxedEntry],
    id: CollectionId,
) -> Result<Vec<Interval>, AllocError>
    ensures { IfOk result (λ pages. pages.items
        ≡ flat_map (λ (e : EntryValue).
        pages_held e.held.items) (filter (λ (e : EntryValue). not (e.id == id)) entries.now)) }
{
    let mut pages = Vec::new(alloc);
    for entry in entries {
        if entry.get().id != id {
            add_pages(&mut pages, &entry.get().held)?;
        }
    }
    Ok(pages)
}

/// Whether the node is neither gone nor released.
pub fn is_live(node: &Node) -> bool
    ensures { result ≡ is_live_node node.now }
{
    !node.gone && !node.released
}

/// The collection of the entry, with its nodes and buffers.
pub fn copy_out(
    alloc: Global,
    table: &NodeTable<Node>,
    entry: &Entry,
) -> Result<Snapshot, AllocError>
    ensures { IfOk result (λ copied. collection_of copied
        ≡ collection_in table.now (row_of entry.now)) }
{
    let mut nodes = Vec::new(alloc);
    add_kept(&mut nodes, table, entry.keys.as_slice())?;
    let mut held = Vec::new(alloc);
    held.extend_from_slice(&entry.held)?;
    Ok(Snapshot {
        id: entry.id,
        nodes,
        buffers: entry.buffers,
        held,
    })
}
