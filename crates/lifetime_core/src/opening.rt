//! The handles that a Take opens: one on each buffer of its collection that is not doomed.
ghost use Rattle.std.specs.Prelude.{◌≡◌, ◌+◌, ◌^◌, ◌≤◌};
ghost use Rattle.std.specs.List.{list_any};
ghost use Rattle.sm_names.specs.Answers.{is_at_limit, set_of, strength_of as strength_for};
ghost use Rattle.core_state.specs.Reads.{readings_of, to_open_in};

use crate::machine::Core;
use sm_names::{BufferName, CollectionId, MAX_BUFFERS, Strength};

/// The strength of handles that are taken through a node, which is weak or not.
pub(crate) fn strength_of(weak: bool) -> Strength
    ensures { result ≡ strength_for weak }
{
    if weak {
        Strength::Weak
    } else {
        Strength::Strong
    }
}

/// Whether one of the buffers that the Take would open has as many handles of this strength as the limit
/// allows. Costs O(1) as long as no count of handles was ever at the limit, and then at most two look-ups
/// for each buffer.
pub(crate) fn is_one_full(core: &Core, collection: CollectionId, strength: Strength) -> bool
    ensures { result ≡ list_any (is_at_limit core.now.limits (readings_of core.now) strength)
        (to_open_in core.now collection) }
{
    if core.have_room() {
        return false;
    }
    let Some(buffers) = core.buffers_of(collection) else {
        return false;
    };
    let strong_live = core.strong_live(collection);
    for index in 0..buffers.count as u8 {
        let buffer = BufferName { collection, index };
        if !core.is_doomed(buffer, strong_live) && core.has_all_handles(buffer, strength) {
            return true;
        }
    }
    false
}

// The set of all of this many buffers.
fn full_set(count: u32) -> u64
    requires { count ≤ MAX_BUFFERS }
    ensures { result + 1 ≡ 2 ^ count }
{
    if count == 0 {
        return 0;
    }
    let half = 1 << (count - 1);
    half - 1 + half
}

/// The set of buffers that the Take opens: bit i stands for buffer i. Costs a look-up for each buffer,
/// or O(1) if a strong node is live.
pub(crate) fn set_to_open(core: &Core, collection: CollectionId) -> u64
    ensures { result ≡ set_of (to_open_in core.now collection) }
{
    let Some(buffers) = core.buffers_of(collection) else {
        return 0;
    };
    let strong_live = core.strong_live(collection);
    if strong_live {
        return full_set(buffers.count);
    }
    let mut set = 0;
    for index in 0..buffers.count as u8 {
        if !core.is_doomed(BufferName { collection, index }, strong_live) {
            set += 1 << index;
        }
    }
    set
}
