//! What became of the buffers of a collection at an event.
ghost use Rattle.std.specs.Prelude.{ℕ, ◌≡◌, ◌≢◌, ◌<◌, ◌-◌, min, if◌then◌else◌, IfOk};
ghost use Rattle.std.specs.Int.{bit_at};
ghost use Rattle.std.specs.List.{filter, list_any};
ghost use Rattle.event_facts.specs.Events.{IsSetOf, is_doomed_in};
ghost use Rattle.event_facts.specs.Facts.{is_back, is_on_buffer};

use forced_marks::questions::some_strong_live;
use forest_store::Node;
use lifetime_core::Core;
use sm_names::{BufferName, Buffers, CollectionId, HeldBuffer, Strength};
use std::alloc::AllocError;

// How many bits a set has, one for each buffer.
const SET_BITS: u8 = 64;

/// Those of the buffers that are not among the later ones: they gave their pages back. Costs the product
/// of both numbers.
pub fn given_back(
    held: &Vec<HeldBuffer>,
    later: &[HeldBuffer],
) -> Result<Vec<HeldBuffer>, AllocError>
    ensures { IfOk result (λ freed. freed.items ≡ filter (is_back later.now) held.now.items) }
{
    let mut freed = Vec::new(*held.allocator());
    for buffer in held {
        if went_back(later, buffer) {
            freed.push(*buffer)?;
        }
    }
    Ok(freed)
}

// Whether the buffer is not among the later ones.
fn went_back(later: &[HeldBuffer], held: &HeldBuffer) -> bool
    ensures { result ≡ is_back later.now held.now }
{
    !is_among(later, held.buffer)
}

// Whether the buffer is among these.
fn is_among(held: &[HeldBuffer], buffer: BufferName) -> bool
    ensures { result ≡ list_any (is_on_buffer buffer) held.now }
{
    held.iter().any(|other| other.buffer == buffer)
}

/// The buffers of the collection that nothing strong keeps, as a set, where these are its kept nodes and
/// it was given this many: bit i stands for the buffer with index i. Costs O(n) for n nodes, and a look at
/// the handles of each buffer.
pub fn doomed_of(
    core: &Core,
    collection: CollectionId,
    nodes: &[Node],
    given: Option<Buffers>,
) -> u64
    ensures { IsSetOf (is_doomed_in core.now.holds collection nodes.now given) result }
{
    let mut set = 0;
    let Some(buffers) = given else {
        return 0;
    };
    if some_strong_live(nodes) {
        return 0;
    }
    for index in 0..SET_BITS {
        let is_given = (index as u32) < buffers.count;
        let buffer = BufferName { collection, index };
        let open = core.total_handles(buffer, Strength::Strong);
        set = add_if(set, index, is_given && open == 0);
    }
    set
}

// The set, and this index too if it is to be in it.
fn add_if(set: u64, index: u8, is_in: bool) -> u64
    requires { index < SET_BITS }
    ensures same { bit_at result index ≡ (if is_in then 1 else bit_at set index) }
    ensures other { (i : ℕ) → i ≢ index → bit_at result i ≡ bit_at set i }
{
    if is_in { set | 1u64 << index } else { set }
}

// Those of the set that are not in the other.
pub(crate) fn without(set: u64, other: u64) -> u64
    ensures { (i : ℕ) → i < SET_BITS → bit_at result i ≡ min (bit_at set i) (1 - bit_at other i) }
{
    set & !other
}
