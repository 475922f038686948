//! How many handles of one strength there are in what an event opens or moves.
ghost use Rattle.std.specs.Prelude.{◌≡◌, length};
ghost use Rattle.event_laws.specs.HandleSums.{count_if, indices_in};

use sm_names::{Strength, has_buffer};

// How many bits the set of a Take has, one for each buffer.
pub(crate) const SET_BITS: u8 = 64;

/// One, where the strengths are the same, and else none. Costs O(1).
pub fn count_one(strength: Strength, other: Strength) -> u64
    ensures { result ≡ count_if strength other 1 }
{
    match (strength, other) {
        (Strength::Strong, Strength::Strong) => 1,
        (Strength::Weak, Strength::Weak) => 1,
        _ => 0,
    }
}

// How many buffers the set has.
fn size_of(set: u64) -> u64
    ensures { result ≡ length (indices_in set) }
{
    let mut size = 0;
    let mut index = 0;
    while index < SET_BITS && set >> index != 0 {
        if has_buffer(set, index) {
            size += 1;
        }
        index += 1;
    }
    size
}

/// How many buffers the set of a Take has, where the strengths are the same, and else none. Looks
/// at the bits up to the last that is set.
pub fn count_set(strength: Strength, other: Strength, set: u64) -> u64
    ensures { result ≡ count_if strength other (length (indices_in set)) }
{
    match (strength, other) {
        (Strength::Strong, Strength::Strong) => size_of(set),
        (Strength::Weak, Strength::Weak) => size_of(set),
        _ => 0,
    }
}
