//! Readings of a core: what the answer to a call asks of its clients, nodes, collections, handles and
//! trackers.
ghost use Rattle.std.specs.Prelude.{◌≡◌, ◌≤◌, nat_le};
ghost use Rattle.std.specs.Prelude.{length, slice_get, option_map, IfSome};
ghost use Rattle.std.specs.Prelude.{false, true, is_some, option_copied};
ghost use Rattle.sm_names.specs.declared.keys.BufferName.{BufferName as Buffer};
ghost use Rattle.sm_names.specs.declared.keys.Strength.{Strength};
ghost use Rattle.sm_names.specs.Answers.{is_at_limit};
ghost use Rattle.sm_names.specs.Handles.{is_doomed};
ghost use Rattle.sm_names.specs.Members.{some_strong_live};
ghost use Rattle.std.specs.Option.{option_map_or, unwrap_or};
ghost use Rattle.forest_store.specs.Forest.{node_count};
ghost use Rattle.forest_store.specs.Forest.{Collection as CollectionValue, collection_at};
ghost use Rattle.forest_store.specs.Nodes.{is_spent, members_of};
ghost use Rattle.buffer_holds.specs.Counts.{total};
ghost use Rattle.core_state.specs.Reads.{buffers_in, end_in, open_end_of};
ghost use Rattle.core_state.specs.Reads.{readings_of};

use super::Core;
use alloc_event::Node;
use core_state::clients::{count_waiting, first_waiting, standing_of};
use core_state::reading::with_end;
use sm_names::{
    BufferName, Buffers, ClientId, CollectionId, MAX_BUFFERS, NodeKey, Parcel, Strength,
};

impl Core {
    // Whether the client was shut, if it joined.
    #[inline(always)]
    pub(crate) fn standing_of(&self, client: ClientId) -> Option<bool>
        ensures joined { (readings_of self.now).has_joined client ≡ is_some result }
        ensures shut { (readings_of self.now).is_shut client ≡ unwrap_or result false }
    {
        standing_of(&self.contents.clients, client)
    }

    // How many parcels wait for the client.
    #[inline(always)]
    pub(crate) fn count_waiting(&self, client: ClientId) -> usize
        ensures { result ≡ length ((readings_of self.now).waiting client) }
    {
        count_waiting(&self.contents.clients, client)
    }

    // The parcel that the client collects next.
    #[inline(always)]
    pub(crate) fn first_waiting(&self, client: ClientId) -> Option<Parcel>
        ensures { result ≡ slice_get ((readings_of self.now).waiting client) 0 }
    {
        first_waiting(&self.contents.clients, client)
    }

    // How many of these handles the client has open.
    #[inline(always)]
    pub(crate) fn open_of(&self, client: ClientId, buffer: BufferName, strength: Strength) -> u32
        ensures { result ≡ (readings_of self.now).open_of client buffer strength }
    {
        self.contents.holds.of(client, buffer, strength)
    }

    // How many of these handles are open, those in parcels among them.
    #[inline(always)]
    pub(crate) fn open_total(&self, buffer: BufferName, strength: Strength) -> u32
        ensures { result ≡ total self.now.holds buffer strength }
    {
        self.contents.holds.total(buffer, strength)
    }

    // True only if one more handle of any buffer and strength may be opened.
    #[inline(always)]
    pub(crate) fn have_room(&self) -> bool
        ensures { result ≡ true → (buffer : Buffer) (strength : Strength) →
            is_at_limit self.now.limits (readings_of self.now) strength buffer ≡ false }
    {
        self.contents.holds.have_room()
    }

    // Whether as many of these handles are open as the limit allows.
    #[inline(always)]
    pub(crate) fn has_all_handles(&self, buffer: BufferName, strength: Strength) -> bool
        ensures { result ≡ is_at_limit self.now.limits (readings_of self.now) strength buffer }
    {
        if self.have_room() {
            return false;
        }
        self.limits.handles() <= self.contents.holds.total(buffer, strength)
    }

    // Whether as many trackers wait as the limit allows.
    #[inline(always)]
    pub(crate) fn has_all_trackers(&self) -> bool
        ensures { result
            ≡ nat_le self.now.limits.trackers (readings_of self.now).unfired }
    {
        self.limits.trackers() as usize <= self.contents.trackers.waiting()
    }

    // Whether a strong node of the collection is live.
    #[inline(always)]
    pub(crate) fn strong_live(&self, id: CollectionId) -> bool
        ensures { result ≡ option_map_or
            (λ (c : CollectionValue). some_strong_live (members_of c.nodes))
            (collection_at self.now.forest id) false }
    {
        self.contents.forest.strong_live(id)
    }

    // Whether nothing strong keeps the buffer; `strong_live` says whether a strong node is live.
    #[inline(always)]
    pub(crate) fn is_doomed(&self, buffer: BufferName, strong_live: bool) -> bool
        ensures { result ≡ is_doomed (total self.now.holds buffer Strength.Strong) strong_live }
    {
        self.contents.holds.doomed(buffer, strong_live)
    }

    // The node with this key, unless its end is spent.
    #[inline(always)]
    pub(crate) fn node_with_end(&self, key: NodeKey) -> Option<&Node>
        ensures value { end_in self.now key
            ≡ option_map (open_end_of self.now) (option_copied result) }
        ensures unspent { IfSome result (λ n. is_spent n.now.end ≡ false) }
    {
        with_end(self.contents.forest.node(key))
    }

    // Whether the collection is kept.
    #[inline(always)]
    pub(crate) fn has_collection(&self, id: CollectionId) -> bool
        ensures { result ≡ is_some (collection_at self.now.forest id) }
    {
        self.contents.forest.collection(id).is_some()
    }

    // The collection's buffers, if it is kept and allocated.
    #[inline(always)]
    pub(crate) fn buffers_of(&self, id: CollectionId) -> Option<Buffers>
        ensures value { result ≡ buffers_in self.now id }
        ensures few { IfSome result (λ b. b.count ≤ MAX_BUFFERS) }
    {
        self.contents.forest.collection(id)?.buffers
    }

    // Whether as many nodes are kept as the limit allows.
    #[inline(always)]
    pub(crate) fn has_all_nodes(&self) -> bool
        ensures { result ≡ nat_le self.now.limits.nodes (node_count self.now.forest) }
    {
        self.limits.nodes() as usize <= self.contents.forest.len()
    }

    // Whether as many collections are kept as the limit allows.
    #[inline(always)]
    pub(crate) fn has_all_collections(&self) -> bool
        ensures { result
            ≡ nat_le self.now.limits.collections (length self.now.forest.collections) }
    {
        self.limits.collections() as usize <= self.contents.forest.collections()
    }
}
