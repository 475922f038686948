//! The state by which the conditions of trackers are tested.
ghost use Rattle.buffer_holds.specs.Counts.{total};
ghost use Rattle.core_state.specs.Reads.{world_in};

use alloc_event::Forest;
use buffer_holds::Holds;
use sm_names::{BufferName, CollectionId, NodeKey};
use trackers::World;

/// The forest before this event forgets nodes, and the handles.
#[derive(Drop)]
pub(crate) struct TrackerWorld<'a> {
    pub(crate) forest: &'a Forest,
    pub(crate) holds: &'a Holds,
}

impl<'a> World for TrackerWorld<'a> {
    ghost seen = { λ s. world_in s.forest.now (total s.holds.now) };

    fn gone(&self, key: NodeKey) -> bool {
        match self.forest.node(key) {
            Some(node) => node.gone,
            None => true,
        }
    }

    fn allocated(&self, key: NodeKey) -> bool {
        match self.forest.node(key) {
            Some(node) => node.allocated,
            None => true,
        }
    }

    fn left(&self, collection: CollectionId) -> usize {
        match self.forest.collection(collection) {
            Some(summary) => summary.held,
            None => 0,
        }
    }

    fn doomed(&self, buffer: BufferName) -> bool {
        let Some(summary) = self.forest.collection(buffer.collection) else {
            return false;
        };
        let strong_live = self.forest.strong_live(buffer.collection);
        summary.buffers.is_some() && self.holds.doomed(buffer, strong_live)
    }
}
