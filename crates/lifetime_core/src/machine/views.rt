//! Views of a core: fired trackers, nodes, buffers and pages, collections, clients and handles.
//!
//! Each view is that of every history that the core shows, but for the firings `gone` that it forgot. A
//! core that forgot none shows its histories but for `[]`, so `shown []` speaks of `Shows` itself.
ghost use Rattle.std.specs.Prelude.{◌≡◌, ◌+◌, ◌≤◌, ◌++◌, List, map, reverse, option_map, if◌then◌else◌};
ghost use Rattle.std.specs.Prelude.{AllPairs, IfOk, IfSome, None, Some, []};
ghost use Rattle.std.specs.Option.{option_map_or};
ghost use Rattle.sm_names.specs.declared.outcomes.Fault.{Fault};
ghost use Rattle.sm_names.specs.declared.tracking.Fired.{Fired as Firing};
ghost use Rattle.sm_names.specs.declared.keys.HeldBuffer.{HeldBuffer as Held};
ghost use Rattle.sm_names.specs.Births.{birth_of};
ghost use Rattle.sm_names.specs.Ends.{clients as clients_after};
ghost use Rattle.sm_names.specs.Handles.{buffers_of as given_after, moving as moving_after, open_of as open_after, open_total as total_after};
ghost use Rattle.sm_names.specs.Kept.{is_kept, is_kept_collection};
ghost use Rattle.sm_names.specs.Losses.{live as is_live_after, fault as fault_after};
ghost use Rattle.sm_names.specs.Marks.{Entry};
ghost use Rattle.sm_names.specs.Timelines.{timeline};
ghost use Rattle.sm_names.specs.Trackers.{fired as fired_after};
ghost use Rattle.sm_names.specs.Views.{live_nodes, held_by_page as held_after};
ghost use Rattle.sm_names.specs.Views.{free_pages as free_after};
ghost use Rattle.forest_store.specs.Forest.{all_nodes, beside, live_keys, node_at, held_by_page};
ghost use Rattle.forest_store.specs.Forest.{Collection as CollectionValue, collection_at as collection_told};
ghost use Rattle.forest_store.specs.Scenes.{IsSound as IsSoundCollection};
ghost use Rattle.forest_store.specs.Snapshots.{collection_of};
ghost use Rattle.buffer_holds.specs.Counts.{moving_count, of, total};
ghost use Rattle.core_state.specs.Reads.{buffers_in, fault_in, is_live_in, views_of};
ghost use Rattle.core_state.specs.Shown.{ShowsBut, collection_after, all_kept_nodes, node_after, pages_beside_after};
ghost use Rattle.core_state.specs.State.{Client as ClientRow};

use super::Core;
use alloc_event::{Node, Snapshot};
use buffer_holds::Holds;
use core_state::clients::ids_of;
use core_state::reading::{cause, is_live};
use sm_names::{
    BufferName, Buffers, Cause, ClientId, CollectionId, Fired, HeldBuffer, Interval, NoMemory,
    NodeKey, Strength,
};

impl Core {
    /// The trackers that fired, by event, and by rising id within an event, without those that the core
    /// forgot. Costs O(1), and takes no memory.
    pub fn fired(&self) -> &[Fired]
        ensures value { result.now ≡ self.now.trackers.fired }
        ensures shown { (gone : List Firing) (history : List Entry) → ShowsBut gone self.now history →
            gone ++ result.now ≡ fired_after (timeline self.now.pool history) }
    {
        self.contents.trackers.fired()
    }

    /// Whether the node is live: neither gone nor released. False if no node has the key, or a forgotten
    /// one had it. Costs one look-up.
    pub fn is_live(&self, key: NodeKey) -> bool
        ensures value { result ≡ is_live_in self.now key }
        ensures shown { (gone : List Firing) (history : List Entry) → ShowsBut gone self.now history →
            result ≡ is_live_after (timeline self.now.pool history) key }
    {
        is_live(self.contents.forest.node(key))
    }

    /// Why the node failed, and the origin: the node whose loss reached it. `None` if the node has not
    /// failed, or was forgotten, since it is gone and its end is spent. Costs one look-up.
    pub fn cause(&self, key: NodeKey) -> Option<(Cause, NodeKey)>
        ensures value { result
            ≡ option_map (λ (f : Fault). (f.cause, f.origin)) (fault_in self.now key) }
        ensures shown { (gone : List Firing) (history : List Entry) → ShowsBut gone self.now history →
            let marks = timeline self.now.pool history in
            result ≡ (if is_kept marks key
            then option_map (λ (f : Fault). (f.cause, f.origin)) (fault_after marks key)
            else None) }
    {
        cause(self.contents.forest.node(key))
    }

    /// The live nodes of all collections, by birth.
    ///
    /// `NoMemory` if the list is refused. Costs O(n + l log l) for n kept nodes, of which l are live.
    pub fn live(&self) -> Result<Vec<NodeKey>, NoMemory>
        ensures value { IfOk result (λ keys. keys.items ≡ live_keys self.now.forest) }
        ensures shown { IfOk result (λ keys. (gone : List Firing) (history : List Entry) →
            ShowsBut gone self.now history →
            keys.items ≡ live_nodes (timeline self.now.pool history)) }
    {
        self.contents.forest.live()
    }

    /// The buffers of all collections that hold pages, with these pages, by page.
    ///
    /// `NoMemory` if the list is refused. Costs a sort of these buffers.
    pub fn held(&self) -> Result<Vec<HeldBuffer>, NoMemory>
        ensures value { IfOk result (λ held.
            held.items ≡ held_by_page self.now.forest) }
        ensures shown { IfOk result (λ held. (gone : List Firing) (history : List Entry) →
            ShowsBut gone self.now history →
            let marks = timeline self.now.pool history in
            held.items ≡ held_after self.now.pool marks) }
        // Each ends before the next begins.
        ensures apart { IfOk result (λ held.
            AllPairs (λ (a b : Held).
            a.pages.start + a.pages.pages ≤ b.pages.start) held.items) }
    {
        // By the pool each buffer has a page, so that no two start at the same one.
        let _free = self.contents.pool.free_pages();
        self.contents.forest.held()
    }

    /// The buffers of this collection that hold pages, with these pages, by index: none if it is not
    /// allocated, or not kept. Takes no memory. Costs O(log collections).
    pub fn held_of(&self, collection: CollectionId) -> &[HeldBuffer]
        ensures value { result.now ≡ option_map_or (λ (c : CollectionValue). c.held)
            (collection_told self.now.forest collection) [] }
        ensures shown { (gone : List Firing) (history : List Entry) → ShowsBut gone self.now history →
            let marks = timeline self.now.pool history in
            result.now ≡ (if is_kept_collection marks collection
            then (collection_after self.now.pool marks collection).held else []) }
    {
        self.contents.forest.held_of(collection)
    }

    /// The number of the pool's pages that no buffer holds. Costs O(1).
    pub fn free_pages(&self) -> u32
        ensures value { result ≡ (views_of self.now).free }
        ensures shown { (gone : List Firing) (history : List Entry) → ShowsBut gone self.now history →
            result ≡ free_after self.now.pool (timeline self.now.pool history) }
    {
        self.contents.pool.free_pages()
    }

    /// The kept nodes of all collections with their ends: collection by collection, the earliest first,
    /// and by birth within each. A node is kept while it is not gone or its end is not spent.
    ///
    /// `NoMemory` if the list is refused. Costs a copy of these nodes.
    pub fn nodes(&self) -> Result<Vec<Node>, NoMemory>
        ensures value { IfOk result (λ nodes. nodes.items ≡ all_nodes self.now.forest) }
        ensures shown { IfOk result (λ nodes. (gone : List Firing) (history : List Entry) →
            ShowsBut gone self.now history →
            nodes.items ≡ all_kept_nodes (timeline self.now.pool history)) }
    {
        self.contents.forest.nodes()
    }

    /// The pages of the buffers of all kept collections except this one: collection by collection, by
    /// rising id, and by index within each.
    ///
    /// `NoMemory` if the list is refused. Costs O(collections + their buffers).
    pub fn pages_beside(&self, collection: CollectionId) -> Result<Vec<Interval>, NoMemory>
        ensures value { IfOk result (λ pages. pages.items ≡ beside self.now.forest collection) }
        ensures shown { IfOk result (λ pages. (gone : List Firing) (history : List Entry) →
            ShowsBut gone self.now history →
            let marks = timeline self.now.pool history in
            pages.items ≡ pages_beside_after self.now.pool marks collection) }
    {
        self.contents.forest.pages_beside(collection)
    }

    /// The number of the pool's pages, held or free. Costs O(1).
    pub fn pages(&self) -> u32
        ensures { result ≡ self.now.pool }
    {
        self.contents.pool.pages()
    }

    /// The collection's buffers. `None` if the collection is not allocated, or not kept: then it has no
    /// kept node, and each of its buffers is home. Costs O(log collections).
    pub fn given(&self, collection: CollectionId) -> Option<Buffers>
        ensures value { result ≡ buffers_in self.now collection }
        ensures shown { (gone : List Firing) (history : List Entry) → ShowsBut gone self.now history →
            let marks = timeline self.now.pool history in
            result ≡ (if is_kept_collection marks collection
            then given_after marks collection else None) }
    {
        self.buffers_of(collection)
    }

    /// The clients that joined, the earliest first. `NoMemory` if the list is refused. Costs
    /// O(clients).
    pub fn clients(&self) -> Result<Vec<ClientId>, NoMemory>
        ensures value { IfOk result (λ ids. ids.items
            ≡ map (λ (c : ClientRow). c.id) self.now.clients) }
        ensures shown { IfOk result (λ ids. (gone : List Firing) (history : List Entry) →
            ShowsBut gone self.now history →
            ids.items ≡ reverse (clients_after (timeline self.now.pool history))) }
    {
        match ids_of(*self.contents.clients.allocator(), &self.contents.clients) {
            Ok(ids) => Ok(ids),
            Err(_) => Err(NoMemory),
        }
    }

    /// The number of handles of this buffer and strength that the client has open. Handles in parcels
    /// belong to nobody. Costs one look-up.
    pub fn open_handles(&self, client: ClientId, buffer: BufferName, strength: Strength) -> u32
        ensures value { result ≡ of self.now.holds client buffer strength }
        ensures shown { (gone : List Firing) (history : List Entry) → ShowsBut gone self.now history →
            result ≡ open_after (timeline self.now.pool history) client buffer strength }
    {
        self.contents.holds.of(client, buffer, strength)
    }

    /// The number of handles of this buffer and strength in parcels. Costs one look-up.
    pub fn handles_in_parcels(&self, buffer: BufferName, strength: Strength) -> u32
        ensures value { result ≡ moving_count self.now.holds buffer strength }
        ensures shown { (gone : List Firing) (history : List Entry) → ShowsBut gone self.now history →
            result ≡ moving_after (timeline self.now.pool history) buffer strength }
    {
        self.contents.holds.moving(buffer, strength)
    }

    /// The number of open handles of this buffer and strength, those in parcels included. Costs O(k),
    /// where k is the number of clients that have some.
    pub fn total_handles(&self, buffer: BufferName, strength: Strength) -> u32
        ensures value { result ≡ total self.now.holds buffer strength }
        ensures shown { (gone : List Firing) (history : List Entry) → ShowsBut gone self.now history →
            result ≡ total_after (timeline self.now.pool history) buffer strength }
    {
        self.open_total(buffer, strength)
    }

    /// The counts of handles, open and in parcels. Costs O(1).
    pub fn holds(&self) -> &Holds
        ensures { result.now ≡ self.now.holds }
    {
        &self.contents.holds
    }

    /// A copy of the collection: its kept nodes by birth, its buffers, and by index those that hold
    /// pages. `None` if the collection is not kept.
    ///
    /// `NoMemory` if the lists are refused. Costs O(log collections), and the copy.
    pub fn collection(&self, id: CollectionId) -> Result<Option<Snapshot>, NoMemory>
        ensures value { IfOk result (λ copied. option_map collection_of copied
            ≡ collection_told self.now.forest id) }
        ensures sound { IfOk result (λ copied.
            IfSome copied (λ s. IsSoundCollection (collection_of s))) }
        ensures shown { IfOk result (λ copied. (gone : List Firing) (history : List Entry) →
            ShowsBut gone self.now history →
            let marks = timeline self.now.pool history in
            option_map collection_of copied ≡ (if is_kept_collection marks id
            then Some (collection_after self.now.pool marks id) else None)) }
    {
        self.contents.forest.snapshot(id)
    }

    /// A copy of the node with its end. `None` if no kept node has the key: no node ever had it, or that
    /// node is gone and its end is spent. Costs one look-up.
    pub fn node(&self, key: NodeKey) -> Option<Node>
        ensures value { result ≡ node_at self.now.forest key }
        ensures shown { (gone : List Firing) (history : List Entry) → ShowsBut gone self.now history →
            let marks = timeline self.now.pool history in
            result ≡ (if is_kept marks key
            then option_map (node_after marks) (birth_of marks key) else None) }
    {
        self.contents.forest.node(key).copied()
    }
}
