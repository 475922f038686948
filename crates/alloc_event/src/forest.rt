//! The forest: the collections with their nodes and buffers.
ghost use Rattle.std.specs.Prelude.{◌≡◌, ◌≤◌, ◌&&◌, [], false, true, None, IfOk, IfSome, OnErr, OnOk, map, length, not, is_some, option_copied, ◌==◌};
ghost use Rattle.std.specs.List.{filter};
ghost use Rattle.buffer_holds.specs.Counts.{total};
ghost use Rattle.std.specs.Option.{option_map, option_map_or};
ghost use Rattle.sm_names.specs.Members.{some_strong_live};
ghost use Rattle.forest_store.specs.declared.change.Change.{Change as Changed};
ghost use Rattle.forest_store.specs.declared.node.End.{End};
ghost use Rattle.forest_store.specs.declared.node.Node.{Node as NodeValue};
ghost use Rattle.forest_store.specs.Dropped.{are_others_out};
ghost use Rattle.forest_store.specs.Forest.{Collection, IsPoolOf, SameKeys, all_nodes, beside, collection_at, node_at, node_count, empty_forest, summary_of, live_keys, held_by_page, on_collections, with_nodes, is_left, without_unkept_in};
ghost use Rattle.forest_store.specs.Nodes.{members_of, with_end, is_of, is_unkept};
ghost use Rattle.forest_store.specs.Scenes.{IsSound};
ghost use Rattle.forest_store.specs.Settling.{MayChange, Settled};
ghost use Rattle.forest_store.specs.Snapshots.{collection_of};

use crate::settle::{settle_birth, settle_change, settle_dropped};
use buffer_holds::Holds;
use buffer_pool::Pool;
use forest_steps::scratch::Scratch;
use forest_store::boxed_entry::BoxedEntry;
use forest_store::change::Change;
use forest_store::entry::{entry_of, place_of};
use forest_store::insertion::Birth;
use forest_store::lookup::{copy_out, held_by_page, kept_nodes, live_by_birth, pages_beside};
use forest_store::node::{End, Node};
use forest_store::snapshot::Snapshot;
use forest_store::store::{NodeStore, Store, put_end};
use forest_store::summary::Summary;
use forest_store::unkept::{drop_key, forget_unkept, list_unkept, take_out};
use node_table::NodeTable;
use sm_names::{BufferName, CollectionId, HeldBuffer, Interval, MAX_BUFFERS, NoMemory, NodeKey};
use std::alloc::Global;
use std::marker::Model;

/// The collections with their nodes and buffers, and the keys that were given to nodes so far.
#[derive(Drop)]
pub struct Forest {
    store: Store,
    // The lists that an event works with, reserved before it.
    room: Scratch,
    // Memory for the next collection: that of the one which was forgotten last.
    spare: Option<BoxedEntry>,
}

impl Model for Forest {
    ghost use Rattle.forest_store.specs.Forest.{Forest};

    ghost Value = { Forest };

    ghost use Rattle.forest_store.specs.CollectionRows.{forest_of, rows_of};
    ghost use Rattle.forest_store.specs.Calm.{IsForest};

    ghost view = { λ f. forest_of f.store.nodes.table (rows_of f.store.entries.items) };

    ghost invariant = { λ f.
        IsForest f.store.nodes.table f.store.entries.items f.store.nodes.units.items };
}

impl Forest {
    /// An empty forest for `limit` nodes at a time. Takes no memory.
    pub fn new(alloc: Global, limit: usize) -> Forest
        ensures { result ≡ empty_forest limit }
    {
        Forest {
            store: Store {
                nodes: NodeStore {
                    table: NodeTable::new(alloc, limit),
                    units: Vec::new(alloc),
                },
                entries: Vec::new(alloc),
            },
            room: Scratch::new(alloc),
            spare: None,
        }
    }

    /// Makes the change to the collection and then the steps that it forces, one after another,
    /// until none applies, and gives back the pages of buffers that are home. A birth answers the
    /// key of the new node, which no node had before.
    ///
    /// `NoMemory` if a growth is refused, or no slot has a number left. The forest and the pool are
    /// then as they were. Only a birth and an initial allocation take memory: a birth for its node,
    /// its collection, the counts of its unit, and the lists of removed nodes, of pending units and
    /// of unkept nodes; an initial allocation for the list of held buffers and in the pool. So any
    /// other change takes memory only if it forces an initial allocation: the lists that a loss
    /// fills have room since the births of their nodes.
    ///
    /// Costs O(log c) for c collections, and in the changed collection, with n kept nodes:
    ///
    /// - a birth: O(1) amortized. A root also shifts the entries of the collections behind its own;
    /// - a loss: O(1) for each node that is removed, as `failure_domains::fall`;
    /// - the end of a subtree, once a release, a loss or a refusal leaves a unit without a live node
    ///   and without a unit directly below it: O(1) for each unit above it that only this one
    ///   holds, and for each kept node at and below the highest of these, gone nodes included;
    /// - the initial allocation, once the root's unit is ready: O(1) for each node of the unit and
    ///   for each attached node directly below it, and the cost of `Pool::place`. If it fails, a
    ///   loss of the root;
    /// - the logical allocation of an attached unit, once it is ready below an allocated unit, and
    ///   then of the ready units directly below it, recursively, by birth: O(log n) for each unit,
    ///   and O(1) for each of its nodes and for each attached node directly below it. If it is
    ///   refused, a loss of its head. O(n) replaces O(log n) if births came with falling events;
    /// - if no strong node is live after the change: O(1) look-ups of handles for each of at most
    ///   `MAX_BUFFERS` buffers, and one for each logical allocation. If the buffers are abandoned, a
    ///   loss of the root. For each buffer that is home, the cost of `Pool::give_back`, and a shift
    ///   of the buffers behind it if some stay held.
    ///
    /// Counts of each collection and of each unit determine the next step, so no step looks at
    /// other nodes. A unit that becomes ready below a unit without buffers costs O(1).
    #[inline(always)]
    pub fn settle(
        &mut self,
        pool: &mut Pool,
        holds: &Holds,
        collection: CollectionId,
        change: Change,
    ) -> Result<Option<NodeKey>, NoMemory>
        requires change { MayChange self.old collection change }
        requires pool { IsPoolOf pool.old self.old }
        ensures ok { IfOk result (λ key.
            Settled pool.old.size (total holds.now) self.old self.new collection change key) }
        ensures pool { IsPoolOf pool.new self.new }
        ensures size { pool.new.size ≡ pool.old.size }
        ensures kept { OnErr result ((self.new ≡ self.old) × (pool.new ≡ pool.old)) }
    {
        let store = &mut self.store;
        if let Change::Birth {
            parent,
            attached,
            client,
            event,
        } = change
        {
            self.room
                .reserve(store.nodes.table.len().saturating_add(1))?;
            let keys = &mut self.room.removed;
            let birth = Birth {
                parent,
                attached,
                client,
                event,
            };
            let spare = &mut self.spare;
            let key = settle_birth(store, pool, holds, collection, birth, keys, spare)?;
            return Ok(Some(key));
        }
        let room = &mut self.room;
        settle_change(store, pool, holds, collection, &change, room)?;
        Ok(None)
    }

    /// Makes the steps that are forced because a handle of the buffer was dropped, and gives back
    /// the pages of the buffer, if it is home. No other buffer of its collection may be home before
    /// the call: `settle` and `settle_drop` leave none, and opening a handle makes none home.
    ///
    /// `NoMemory` if a growth is refused. The forest and the pool are then as they were. A drop forces
    /// no initial allocation, and so takes no memory: as in `settle`, the births made room for what
    /// the loss of the root removes.
    ///
    /// Costs O(log c) for c collections, if a strong node of the collection is live. If none is, it
    /// also costs:
    ///
    /// - if the root is gone or has no buffers: one look-up of handles; if the buffer is home, also
    ///   O(buffers) of its collection, and the cost of `Pool::give_back`;
    /// - if the root has its buffers: a look-up of handles for each buffer up to the first that has
    ///   an open strong handle. If no buffer has one, the root is lost, which costs what `settle`
    ///   costs for a loss of each node of the collection.
    pub fn settle_drop(
        &mut self,
        pool: &mut Pool,
        holds: &Holds,
        buffer: BufferName,
    ) -> Result<(), NoMemory>
        requires others { option_map_or (are_others_out (total holds.now) buffer)
            (collection_at self.old buffer.collection) false ≡ true }
        requires pool { IsPoolOf pool.old self.old }
        ensures ok { OnOk result (Settled pool.old.size (total holds.now) self.old self.new
            buffer.collection Changed.Nothing None) }
        ensures pool { IsPoolOf pool.new self.new }
        ensures size { pool.new.size ≡ pool.old.size }
        ensures kept { OnErr result ((self.new ≡ self.old) × (pool.new ≡ pool.old)) }
    {
        settle_dropped(&mut self.store, pool, holds, buffer, &mut self.room)
    }

    /// The node with this key; `None` if it was never born, or was forgotten. Costs O(1).
    pub fn node(&self, key: NodeKey) -> Option<&Node>
        ensures { option_copied result ≡ node_at self.now key }
    {
        self.store.nodes.table.get(key)
    }

    /// The number of nodes and held buffers of the collection with this id, and its buffers; `None`
    /// if it is not there. Costs O(log collections).
    pub fn collection(&self, id: CollectionId) -> Option<Summary>
        ensures value { result ≡ option_map summary_of (collection_at self.now id) }
        ensures few { IfSome result (λ s. IfSome s.buffers (λ b. b.count ≤ MAX_BUFFERS)) }
    {
        match entry_of(&self.store.entries, id) {
            Some(entry) => Some(Summary {
                nodes: entry.keys.len(),
                buffers: entry.buffers,
                held: entry.held.len(),
            }),
            None => None,
        }
    }

    /// How many nodes are kept. Costs O(1).
    pub fn len(&self) -> usize
        ensures { result ≡ node_count self.now }
    {
        self.store.nodes.table.len()
    }

    /// How many collections there are. Costs O(1).
    pub fn collections(&self) -> usize
        ensures { result ≡ length self.now.collections }
    {
        self.store.entries.len()
    }

    /// Whether a strong node of the collection is live. False if there is no such collection. Costs
    /// O(log collections).
    pub fn strong_live(&self, id: CollectionId) -> bool
        ensures { result ≡ option_map_or (λ (c : Collection).
            some_strong_live (members_of c.nodes)) (collection_at self.now id) false }
    {
        match entry_of(&self.store.entries, id) {
            Some(entry) => entry.strong > 0,
            None => false,
        }
    }

    /// The keys of all live nodes, by birth. `NoMemory` if the list is refused. Costs O(n + l log l)
    /// for n kept nodes, of which l are live.
    pub fn live(&self) -> Result<Vec<NodeKey>, NoMemory>
        ensures { IfOk result (λ keys. keys.items ≡ live_keys self.now) }
    {
        match live_by_birth(
            *self.store.entries.allocator(),
            &self.store.nodes.table,
            &self.store.entries,
        ) {
            Ok(keys) => Ok(keys),
            Err(_) => Err(NoMemory),
        }
    }

    /// All kept nodes with their ends, collection by collection by rising id, and by birth within each.
    /// `NoMemory` if the list is refused. Costs O(nodes).
    pub fn nodes(&self) -> Result<Vec<Node>, NoMemory>
        ensures { IfOk result (λ nodes. nodes.items ≡ all_nodes self.now) }
    {
        match kept_nodes(
            *self.store.entries.allocator(),
            &self.store.nodes.table,
            &self.store.entries,
        ) {
            Ok(nodes) => Ok(nodes),
            Err(_) => Err(NoMemory),
        }
    }

    /// The collection with this id, with its kept nodes and its buffers; `None` if it is not there.
    /// `NoMemory` if the lists are refused. Costs O(log collections), and a copy.
    pub fn snapshot(&self, id: CollectionId) -> Result<Option<Snapshot>, NoMemory>
        ensures value { IfOk result (λ copied. option_map collection_of copied
            ≡ collection_at self.now id) }
        ensures sound { IfOk result (λ copied. IfSome copied (λ s. IsSound (collection_of s))) }
    {
        let Some(entry) = entry_of(&self.store.entries, id) else {
            return Ok(None);
        };
        match copy_out(
            *self.store.entries.allocator(),
            &self.store.nodes.table,
            entry,
        ) {
            Ok(copied) => Ok(Some(copied)),
            Err(_) => Err(NoMemory),
        }
    }

    /// The pages of the buffers of all collections but this one, collection by collection, and by
    /// index within each. `NoMemory` if the list is refused. Costs O(collections + their buffers).
    pub fn pages_beside(&self, id: CollectionId) -> Result<Vec<Interval>, NoMemory>
        ensures { IfOk result (λ pages. pages.items ≡ beside self.now id) }
    {
        match pages_beside(*self.store.entries.allocator(), &self.store.entries, id) {
            Ok(pages) => Ok(pages),
            Err(_) => Err(NoMemory),
        }
    }

    /// All buffers whose pages were not given back, by page. `NoMemory` if the list is refused. Costs
    /// O(b log b) for b such buffers.
    pub fn held(&self) -> Result<Vec<HeldBuffer>, NoMemory>
        ensures { IfOk result (λ held. held.items ≡ held_by_page self.now) }
    {
        match held_by_page(*self.store.entries.allocator(), &self.store.entries) {
            Ok(held) => Ok(held),
            Err(_) => Err(NoMemory),
        }
    }

    /// The buffers of the collection with this id whose pages were not given back, by index; none if it
    /// is not there. Takes no memory. Costs O(log collections).
    pub fn held_of(&self, id: CollectionId) -> &[HeldBuffer]
        ensures { result.now
            ≡ option_map_or (λ (c : Collection). c.held) (collection_at self.now id) [] }
    {
        match entry_of(&self.store.entries, id) {
            Some(entry) => &entry.held,
            None => &[],
        }
    }

    /// Sets the state of a kept node's end. Takes no memory. Costs O(1); O(log collections) if the
    /// node is gone and its end is spent, since it is then listed as unkept.
    #[inline(always)]
    pub fn set_end(&mut self, key: NodeKey, end: End)
        requires { is_some (node_at self.old key) ≡ true }
        ensures { self.new ≡ on_collections (with_nodes (map (with_end key end))) self.old }
    {
        if let Some((id, over)) = put_end(&mut self.store.nodes.table, key, end) {
            list_unkept(&mut self.store.entries, id, key, over);
        }
    }

    // Forgets a node of this collection that is gone. Its key is given to no other node. Takes no memory.
    // Costs O(log collections + log n + s), where n is the number of the collection's nodes and s the number
    // of keys on its shorter side.
    #[inline(always)]
    fn forget_gone(&mut self, key: NodeKey, id: CollectionId)
        requires there { is_some (node_at self.old key) ≡ true }
        requires gone { option_map_or (λ (n : NodeValue). n.gone && n.collection == id)
            (node_at self.old key) false ≡ true }
        ensures nodes { self.new.collections
            ≡ map (with_nodes (filter (λ n. not (is_of key n)))) self.old.collections }
        ensures keys { SameKeys self.old self.new }
        // Of the collection is left what would be if the node's end were spent.
        ensures spent { without_unkept_in id self.new.collections ≡ without_unkept_in id
            (map (with_nodes (map (with_end key End.Spent))) self.old.collections) }
    {
        let Some(at) = place_of(&self.store.entries, id) else {
            unreachable!();
        };
        drop_key(
            &self.store.nodes.table,
            &mut self.store.entries[at].get_mut().keys,
            key,
        );
        take_out(&mut self.store.nodes.table, key);
    }

    /// Forgets a node that is gone and whose end is spent. Its key is given to no other node. Takes no
    /// memory. Costs O(log collections + log n + s), where n is the number of the collection's nodes and s
    /// the number of keys on its shorter side.
    pub fn forget(&mut self, key: NodeKey)
        requires there { is_some (node_at self.old key) ≡ true }
        requires over { option_map_or is_unkept (node_at self.old key) false ≡ true }
        ensures nodes { self.new.collections
            ≡ map (with_nodes (filter (λ n. not (is_of key n)))) self.old.collections }
        ensures keys { SameKeys self.old self.new }
    {
        let Some(node) = self.node(key) else {
            unreachable!();
        };
        let id = node.collection;
        self.forget_gone(key, id);
    }

    // Whether the node with this key, which is kept, is of this collection and gone.
    #[inline(always)]
    fn is_gone_in(&self, key: NodeKey, id: CollectionId) -> bool
        requires { is_some (node_at self.now key) ≡ true }
        ensures { result ≡ option_map_or (λ (n : NodeValue). n.gone && n.collection == id)
            (node_at self.now key) false }
    {
        let Some(node) = self.node(key) else {
            unreachable!();
        };
        node.gone && node.collection == id
    }

    // Sets the end of a kept node to spent, or forgets the node, if it is of this collection and gone: then
    // nothing has to be listed.
    #[inline(always)]
    fn forget_or_spend(&mut self, key: NodeKey, id: CollectionId)
        requires { is_some (node_at self.old key) ≡ true }
        ensures spent { without_unkept_in id self.new.collections ≡ without_unkept_in id
            (map (with_nodes (map (with_end key End.Spent))) self.old.collections) }
        ensures keys { SameKeys self.old self.new }
    {
        if self.is_gone_in(key, id) {
            self.forget_gone(key, id);
        } else {
            self.set_end(key, End::Spent);
        }
    }

    /// Sets the end of a kept node to spent, and then does what `forget_unkept` does. Takes no memory. Costs
    /// what `set_end` and `forget_unkept` cost; O(log collections + log n + s), if no other node of the
    /// collection is unkept, where n is the number of its nodes and s the number of keys on the shorter side.
    #[inline(never)]
    pub fn spend(&mut self, key: NodeKey, id: CollectionId)
        requires { is_some (node_at self.old key) ≡ true }
        ensures collections { self.new.collections ≡ without_unkept_in id
            (map (with_nodes (map (with_end key End.Spent))) self.old.collections) }
        ensures keys { SameKeys self.old self.new }
    {
        self.forget_or_spend(key, id);
        self.forget_unkept(id);
    }

    /// Forgets a collection that has no node and holds no page. Takes no memory. Costs
    /// O(collections), for a shift.
    pub fn forget_collection(&mut self, id: CollectionId)
        requires { option_map_or is_left (collection_at self.old id) false ≡ true }
        ensures collections { self.new.collections
            ≡ filter (λ (c : Collection). not (c.id == id)) self.old.collections }
        ensures keys { SameKeys self.old self.new }
    {
        if let Some(at) = place_of(&self.store.entries, id) {
            self.store.entries.remove(at);
        }
    }

    /// Forgets each node of the collection that is gone and whose end is spent, and then the
    /// collection, if it has no node and holds no page. Without such a collection nothing changes.
    ///
    /// Takes no memory. Costs O(log collections), and for each node that is forgotten O(log n + s),
    /// where n is the number of the collection's nodes and s the number of keys on its shorter side.
    /// Costs O(n) instead if more than 64 such nodes were found since the last call (one found twice
    /// counts twice).
    #[inline(always)]
    pub fn forget_unkept(&mut self, id: CollectionId)
        ensures collections { self.new.collections ≡ without_unkept_in id self.old.collections }
        ensures keys { SameKeys self.old self.new }
    {
        let store = &mut self.store;
        forget_unkept(
            &mut store.nodes.table,
            &mut store.entries,
            id,
            &mut self.spare,
        );
    }
}
