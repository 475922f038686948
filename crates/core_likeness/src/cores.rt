//! Whether a core is another one under new names.
ghost use Rattle.std.specs.Prelude.{◌≡◌, true, Ok};
ghost use Rattle.core_state.specs.Shown.{Shows};
ghost use Rattle.alike_cores.specs.Cores.{AreAlikeCores};
ghost use Rattle.core_likeness.specs.Naming.{new_id, new_key, new_number};

use crate::clients::clients_are_alike;
use crate::collections::collections_are_alike;
use crate::handles::handles_are_alike;
use crate::names::Names;
use crate::tracking::{fired_are_alike, unfired_are_alike};
use lifetime_core::Core;
use sm_names::{Call, ClientId, NoMemory, Reply};
use std::alloc::Global;

/// Whether the other core, behind the second entries, is the one behind the first under these names. If it is not, the
/// answer is `false`; it may be `false` too for names that fit, but are no names of what entries made.
///
/// `NoMemory` if a list is refused. Costs O(n² k) for n entries and k swaps.
pub fn cores_are_alike(
    alloc: Global,
    one: &Core,
    first: &[(ClientId, Call, Reply)],
    other: &Core,
    second: &[(ClientId, Call, Reply)],
    names: &Names,
) -> Result<bool, NoMemory>
    requires limits { other.now.limits ≡ one.now.limits }
    requires one { Shows one.now first.now }
    requires other { Shows other.now second.now }
    ensures { result ≡ Ok true → AreAlikeCores (new_key names.now) (new_id names.now)
        (new_number names.now) one.now other.now }
{
    if one.pages() != other.pages() || !handles_are_alike(one, first, other, second, names) {
        return Ok(false);
    }
    if !clients_are_alike(alloc, one, first, other, second, names)? {
        return Ok(false);
    }
    if !collections_are_alike(alloc, one, first, other, second, names)? {
        return Ok(false);
    }
    if !unfired_are_alike(alloc, one, first, other, second, names)? {
        return Ok(false);
    }
    fired_are_alike(alloc, one, other, names)
}
