//! The trackers of one collection, at events that are numbered from 1.
ghost use Rattle.std.specs.Prelude.{◌≡◌, ◌≤◌, Some, All, IfSome};
ghost use Rattle.trackers.specs.declared.waiting.Waiting.{Waiting};
ghost use Rattle.trackers.specs.Table.{Cell, cell_of};
ghost use Rattle.test_parts.specs.declared.tests.cells.fixture.TheConstants.{HERE};

use sm_names::{BufferName, CollectionId, NodeKey, TrackerId};
use std::alloc::Global;
use trackers::{Condition, Fired, TrackFault, Tracker, Trackers, Waiting, World};

/// The collection.
pub const HERE: CollectionId = 1;

/// A world in which the node of one slot is gone, and nothing else has happened.
#[derive(Clone, Copy)]
pub struct Gone {
    pub slot: u32,
}

impl World for Gone {
    ghost use Rattle.std.specs.Prelude.{◌==◌, false};

    ghost seen = { λ w. record {
      gone = λ key. w.slot == key.slot;
      allocated = λ key. false;
      left = λ collection. 0;
      doomed = λ buffer. false;
    } };

    fn gone(&self, key: NodeKey) -> bool {
        self.slot == key.slot
    }

    fn allocated(&self, _key: NodeKey) -> bool {
        false
    }

    fn left(&self, _collection: CollectionId) -> usize {
        0
    }

    fn doomed(&self, _buffer: BufferName) -> bool {
        false
    }
}

/// A tracker that is filed under the collection.
pub fn waiting(id: TrackerId, condition: Condition) -> Waiting
    ensures { result ≡ record { id = id; collection = HERE; condition = condition } }
{
    Waiting {
        id,
        collection: HERE,
        condition,
    }
}

/// Trackers, and the number of the newest event.
#[derive(Drop)]
pub struct Line {
    trackers: Trackers,
    event: u64,
    ghost numbered: { All (λ (c : Cell). c.id ≤ event) trackers.cells },
    ghost here: { All (λ (t : Waiting). t.collection ≡ HERE) trackers.unfired },
}

impl Line {
    /// No trackers.
    pub fn new(alloc: Global, limit: u32) -> Line {
        Line {
            trackers: Trackers::new(alloc, limit),
            event: 0,
        }
    }

    /// Attaches a tracker at the next event.
    pub fn track(&mut self, condition: Condition) -> Result<TrackerId, TrackFault> {
        if self.event == u64::MAX {
            return Err(TrackFault::NoMemory);
        }
        let id = self.event + 1;
        match self.trackers.attach(waiting(id, condition)) {
            Ok(()) => {
                self.event = id;
                Ok(id)
            }
            Err(fault) => Err(fault),
        }
    }

    /// Sweeps at this event.
    pub fn sweep(&mut self, world: &Gone) {
        self.trackers.sweep(self.event, HERE, world);
    }

    /// The firings.
    pub fn fired(&self) -> &[Fired] {
        self.trackers.fired()
    }

    /// The reader of a tracker, once.
    pub fn take(&mut self, id: TrackerId) -> Option<Tracker>
        ensures own { IfSome result (λ t. cell_of self.new.trackers.cells t.tracker ≡ Some t.cell) }
    {
        self.trackers.take_tracker(id)
    }
}
