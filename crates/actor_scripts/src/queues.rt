//! The handles of one strength: for each buffer a queue of their slots.
ghost use Rattle.std.specs.Prelude.{◌≡◌, [], OnOk, slice_get};
ghost use Rattle.actor_scripts.specs.ActorStates.{with_first_gone, with_slot_last};
ghost use Rattle.actor_scripts.specs.Tables.{queues_of};

mod listed;

use sm_names::BufferName;
use std::alloc::{AllocError, Global};
use std::collections::{HashMap, VecDeque};

// The slots of each buffer's handles, first come first.
#[derive(Drop)]
pub(crate) struct Queues {
    alloc: Global,
    slots: HashMap<BufferName, VecDeque<usize>>,
}

impl Queues {
    // No handle is there.
    pub(crate) fn new(alloc: Global) -> Queues
        ensures { queues_of result ≡ (λ buffer. []) }
    {
        Queues {
            alloc,
            slots: HashMap::new(alloc),
        }
    }

    // The slot of the first handle of this buffer.
    pub(crate) fn first(&self, buffer: BufferName) -> Option<usize>
        ensures { result ≡ slice_get (queues_of self.now buffer) 0 }
    {
        match self.slots.get(&buffer) {
            Some(queue) => queue.get(0).copied(),
            None => None,
        }
    }

    // One more handle of this buffer.
    pub(crate) fn push(&mut self, buffer: BufferName, slot: usize) -> Result<(), AllocError>
        ensures { OnOk result (queues_of self.new
            ≡ with_slot_last (queues_of self.old) buffer slot) }
    {
        let mut queue = match self.slots.remove(&buffer) {
            Some(queue) => queue,
            None => VecDeque::new(self.alloc),
        };
        queue.push_back(slot)?;
        self.slots.insert(buffer, queue)?;
        Ok(())
    }

    // The first handle of this buffer is gone.
    pub(crate) fn pop(&mut self, buffer: BufferName) -> Result<(), AllocError>
        ensures { OnOk result (queues_of self.new ≡ with_first_gone (queues_of self.old) buffer) }
    {
        if let Some(mut queue) = self.slots.remove(&buffer) {
            queue.pop_front();
            self.slots.insert(buffer, queue)?;
        }
        Ok(())
    }
}
