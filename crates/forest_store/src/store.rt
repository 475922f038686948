//! The store of a forest: its nodes with the counts of their units, and its collections.
ghost use Rattle.std.specs.Prelude.{◌≡◌, Some, None, vec_len, vec_capacity, ◌<◌};
ghost use Rattle.node_table.specs.Table.{node_at};
ghost use Rattle.node_table.specs.Changes.{Writes};
ghost use Rattle.node_table.specs.Lending.{table_with_node};
ghost use Rattle.forest_store.specs.declared.node.Node.{Node as NodeValue};
ghost use Rattle.forest_store.specs.Calm.{put_in};
ghost use Rattle.forest_store.specs.CollectionRows.{row_of, rows_of, put_row, AreRising};
ghost use Rattle.forest_store.specs.Nodes.{is_unkept};

use crate::boxed_entry::BoxedEntry;
use crate::entry::{entries_before, insert_at, place_of};
use crate::lookup::is_unkept;
use crate::node::{End, Node};
use crate::unit_counts::Unit;
use node_table::NodeTable;
use sm_names::{CollectionId, NodeKey};

/// The nodes by their keys, and what is counted of their units.
#[derive(Drop)]
pub struct NodeStore {
    /// The nodes.
    pub table: NodeTable<Node>,
    /// What is counted of the unit whose head has the slot.
    pub units: Vec<Unit>,
}

/// What a forest keeps of its collections, at rest or while an event is made.
#[derive(Drop)]
pub struct Store {
    /// The nodes of all collections.
    pub nodes: NodeStore,
    /// The collections, by rising id.
    pub entries: Vec<BoxedEntry>,
}

/// Sets the end of the node with this key. Answers the node's collection, and whether the node is
/// unkept then.
pub fn put_end(table: &mut NodeTable<Node>, key: NodeKey, end: End) -> Option<(CollectionId, bool)>
    ensures none { result ≡ None → node_at table.old key ≡ None }
    ensures told { (n : NodeValue) → node_at table.old key ≡ Some n →
        result ≡ Some (n.collection, is_unkept (record n { end = end })) }
    ensures becomes { (n : NodeValue) → node_at table.old key ≡ Some n →
        table.new ≡ table_with_node table.old key (record n { end = end }) }
    ensures writes { (n : NodeValue) → node_at table.old key ≡ Some n →
        Writes table.old table.new key (record n { end = end }) }
{
    match table.get_mut(key) {
        Some(node) => {
            node.end = end;
            Some((node.collection, is_unkept(node)))
        }
        None => None,
    }
}

/// Replaces the entry with the same id by this one, or inserts it in the order of the ids.
pub(crate) fn put_entry(entries: &mut Vec<BoxedEntry>, entry: BoxedEntry)
    requires rising { AreRising (rows_of entries.old.items) }
    requires room { vec_len entries.old < vec_capacity entries.old }
    ensures rows { rows_of entries.new.items
        ≡ put_row (row_of entry) (rows_of entries.old.items) }
    ensures items { entries.new.items ≡ put_in entry entries.old.items }
{
    let id = entry.get().id;
    match place_of(entries, id) {
        Some(at) => entries[at] = entry,
        None => {
            let at = entries_before(entries, id);
            insert_at(entries, at, entry);
        }
    }
}
