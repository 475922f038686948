//! The queues, one after another.
ghost use Rattle.std.specs.Prelude.{◌≡◌, [], false, IfOk};
ghost use Rattle.std.specs.List.{list_any};
ghost use Rattle.sm_names.specs.declared.keys.BufferName.{BufferName as Buffer};
ghost use Rattle.sm_names.specs.Sameness.{same_buffer};
ghost use Rattle.actor_scripts.specs.Tables.{queues_of};

use super::Queues;
use sm_names::BufferName;
use std::alloc::{AllocError, Global};
use std::collections::VecDeque;

// The slots in the queue.
fn slots_in(alloc: Global, queue: &VecDeque<usize>) -> Result<Vec<usize>, AllocError>
    ensures { IfOk result (λ slots. slots.items ≡ queue.now.items) }
{
    let mut slots = Vec::new(alloc);
    for at in 0..queue.len() {
        slots.push(queue[at])?;
    }
    Ok(slots)
}

impl Queues {
    // The slots of the handles of this buffer, first come first.
    pub(crate) fn queue(&self, alloc: Global, buffer: BufferName) -> Result<Vec<usize>, AllocError>
        ensures { IfOk result (λ slots. slots.items ≡ queues_of self.now buffer) }
    {
        match self.slots.get(&buffer) {
            Some(queue) => slots_in(alloc, queue),
            None => Ok(Vec::new(alloc)),
        }
    }

    // The buffers that have queues: any other has none.
    pub(crate) fn buffers(&self, alloc: Global) -> Result<Vec<BufferName>, AllocError>
        ensures { IfOk result (λ buffers. (buffer : Buffer) →
            list_any (same_buffer buffer) buffers.items ≡ false → queues_of self.now buffer ≡ []) }
    {
        let mut buffers = Vec::new(alloc);
        for buffer in self.slots.keys() {
            buffers.push(*buffer)?;
        }
        Ok(buffers)
    }
}
