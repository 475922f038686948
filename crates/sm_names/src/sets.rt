//! Sets of buffers of one collection, as in the reply to a Take.
ghost use Rattle.std.specs.Prelude.{◌≡◌, ◌==◌, ◌<◌};
ghost use Rattle.std.specs.Int.{bit_at};

use crate::rules::MAX_BUFFERS;

/// Whether the set has the buffer with this index: bit i stands for buffer i. Costs O(1).
pub fn has_buffer(set: u64, index: u8) -> bool
    requires { index < MAX_BUFFERS }
    ensures { result ≡ (bit_at set index == 1) }
{
    (set >> index) % 2 == 1
}
