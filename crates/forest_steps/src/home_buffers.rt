//! Whether a buffer is home.
ghost use Rattle.std.specs.Prelude.{◌≡◌};
ghost use Rattle.std.specs.List.{list_all};
ghost use Rattle.buffer_holds.specs.Counts.{total};
ghost use Rattle.forest_store.specs.Scenes.{is_out};

use buffer_holds::Holds;
use sm_names::HeldBuffer;

/// Whether none of the buffers is home.
#[inline(always)]
pub(crate) fn no_buffer_home(held: &[HeldBuffer], holds: &Holds, strong_live: bool) -> bool
    ensures { result ≡ list_all (is_out (total holds.now) strong_live) held.now }
{
    let mut rest = held;
    'on: while let Some((one, more)) = rest.split_first() {
        if holds.home(one.buffer, strong_live) {
            return false;
        }
        rest = more;
    }
    true
}
