//! The buffers of a root unit, placed in the pool.
ghost use Rattle.std.specs.Prelude.{◌≡◌, ◌≤◌, ◌+◌, ◌++◌, [], IfOk, IfSome, None, OnErr, length, true, vec_capacity};
ghost use Rattle.sm_names.specs.Pages.{pages_of as pages_taken, places};
ghost use Rattle.forest_steps.specs.First.{IsLaid};
ghost use Rattle.forest_store.specs.Starts.{starts_differ};
ghost use Rattle.forest_store.specs.Scenes.{laid};

use buffer_pool::{Pool, PoolFault};
use sm_names::{
    BufferName, Buffers, Cause, CollectionId, Failure, Fault, HeldBuffer, Interval, MAX_BUFFERS,
    MAX_SIZE, NoMemory, NodeKey, PAGE_SIZE,
};

/// Places this many buffers of the collection in the pool, and answers them with the others behind them.
/// `None` where the pool is full. With `None` and `NoMemory` the pool is as it was.
pub(crate) fn place_buffers(
    pool: &mut Pool,
    collection: CollectionId,
    wants: Buffers,
    others: &Vec<HeldBuffer>,
) -> Result<Option<Vec<HeldBuffer>>, NoMemory>
    requires count { (1 ≤ wants.count) × (wants.count ≤ MAX_BUFFERS) }
    requires sized { (1 ≤ wants.size) × (wants.size ≤ MAX_SIZE) }
    ensures err { OnErr result (pool.new ≡ pool.old) }
    ensures none { IfOk result (λ held. held ≡ None → pool.new ≡ pool.old) }
    ensures full { IfOk result (λ held. held ≡ None →
        places pool.old.size (pages_taken wants.size) wants.count pool.old.held ≡ None) }
    ensures some { IfOk result (λ held. IfSome held (λ held.
        IsLaid pool.old pool.new collection wants others.now.items held.items)) }
    ensures size { pool.new.size ≡ pool.old.size }
{
    let pages = pages_of(wants.size);
    let room = wants.count as usize + others.len();
    let Ok(held) = Vec::with_capacity(*others.allocator(), room) else {
        return Err(NoMemory);
    };
    match pool.place(wants.count, pages) {
        Ok(placed) => Ok(Some(list_placed(held, collection, pages, &placed.starts, others))),
        Err(PoolFault::PoolFull) => Ok(None),
        Err(PoolFault::NoMemory) => Err(NoMemory),
    }
}

/// The pages that this many bytes take.
fn pages_of(size: u32) -> u32
    requires { (1 ≤ size) × (size ≤ MAX_SIZE) }
    ensures value { result ≡ pages_taken size }
    ensures some { 1 ≤ result }
{
    (size + (PAGE_SIZE - 1)) / PAGE_SIZE
}

/// The collection's buffers at these starts, one after another, and then the others. There is room
/// for all of them.
fn list_placed(
    mut held: Vec<HeldBuffer>,
    collection: CollectionId,
    pages: u32,
    starts: &[u32],
    others: &[HeldBuffer],
) -> Vec<HeldBuffer>
    requires empty { held.items ≡ [] }
    requires room { length starts.now + length others.now ≤ vec_capacity held }
    requires few { length starts.now ≤ MAX_BUFFERS }
    ensures { result.items ≡ laid collection pages 0 starts.now ++ others.now }
{
    let mut index = 0;
    for start in starts {
        held.push_reserved(HeldBuffer {
            buffer: BufferName { collection, index },
            pages: Interval {
                start: *start,
                pages,
            },
        });
        index += 1;
    }
    for buffer in others {
        held.push_reserved(*buffer);
    }
    held
}

/// No two intervals of a pool begin at one page, so that their order by page is one.
pub(crate) fn assert_disjoint(pool: &Pool)
    ensures { starts_differ pool.now.held ≡ true }
{
    let _ = pool.free_pages();
}
