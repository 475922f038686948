//! What an actor knows, one thing after another.
ghost use Rattle.std.specs.Prelude.{◌≡◌, ◌==◌, ℕ, [], None, false, IfOk};
ghost use Rattle.std.specs.List.{list_any};
ghost use Rattle.sm_names.specs.declared.keys.BufferName.{BufferName as Buffer};
ghost use Rattle.sm_names.specs.declared.keys.NodeKey.{NodeKey as Key};
ghost use Rattle.sm_names.specs.Sameness.{same_buffer, same_key};
ghost use Rattle.actor_scripts.specs.Tables.{known};

use super::ActorState;
use sm_names::{BufferName, CollectionId, NodeKey, Strength};
use std::alloc::{AllocError, Global};

impl ActorState {
    /// The node of this label and its collection, if it stands for one. Costs one look-up.
    pub fn node(&self, label: u32) -> Option<(NodeKey, CollectionId)>
        ensures { result ≡ (known self.now).nodes label }
    {
        self.nodes.get(&label).copied()
    }

    /// The slot of the newest object of the node. Costs one look-up.
    pub fn spot(&self, key: NodeKey) -> Option<usize>
        ensures { result ≡ (known self.now).spots key }
    {
        self.spots.get(&key).copied()
    }

    /// The slots of the handles of this strength on the buffer, first come first. Costs a copy of them.
    pub fn queue(
        &self,
        alloc: Global,
        strength: Strength,
        buffer: BufferName,
    ) -> Result<Vec<usize>, AllocError>
        ensures { IfOk result (λ slots. slots.items ≡ (known self.now).handles strength buffer) }
    {
        match strength {
            Strength::Strong => self.strong.queue(alloc, buffer),
            Strength::Weak => self.weak.queue(alloc, buffer),
        }
    }

    /// The labels of nodes: no other stands for one. Costs O(n) for n labels, as does `tracker_labels`.
    pub fn node_labels(&self, alloc: Global) -> Result<Vec<u32>, AllocError>
        ensures { IfOk result (λ labels. (label : ℕ) →
            list_any (λ other. label == other) labels.items ≡ false →
            (known self.now).nodes label ≡ None) }
    {
        let mut labels = Vec::new(alloc);
        for label in self.nodes.keys() {
            labels.push(*label)?;
        }
        Ok(labels)
    }

    /// The labels of trackers: no other stands for one.
    pub fn tracker_labels(&self, alloc: Global) -> Result<Vec<u32>, AllocError>
        ensures { IfOk result (λ labels. (label : ℕ) →
            list_any (λ other. label == other) labels.items ≡ false →
            (known self.now).trackers label ≡ None) }
    {
        let mut labels = Vec::new(alloc);
        for label in self.trackers.keys() {
            labels.push(*label)?;
        }
        Ok(labels)
    }

    /// The nodes that had objects: no other has a slot. Costs O(n) for n nodes.
    pub fn spot_keys(&self, alloc: Global) -> Result<Vec<NodeKey>, AllocError>
        ensures { IfOk result (λ keys. (key : Key) →
            list_any (same_key key) keys.items ≡ false → (known self.now).spots key ≡ None) }
    {
        let mut keys = Vec::new(alloc);
        for key in self.spots.keys() {
            keys.push(*key)?;
        }
        Ok(keys)
    }

    /// The buffers that had handles of this strength: no other has one. Costs O(n) for n buffers.
    pub fn handle_buffers(
        &self,
        alloc: Global,
        strength: Strength,
    ) -> Result<Vec<BufferName>, AllocError>
        ensures { IfOk result (λ buffers. (buffer : Buffer) →
            list_any (same_buffer buffer) buffers.items ≡ false →
            (known self.now).handles strength buffer ≡ []) }
    {
        match strength {
            Strength::Strong => self.strong.buffers(alloc),
            Strength::Weak => self.weak.buffers(alloc),
        }
    }
}
