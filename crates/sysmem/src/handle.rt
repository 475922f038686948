//! The handle by which a program in C keeps a core between its calls.
ghost use Rattle.std.specs.Prelude.{◌≡◌, true, false, is_some, option_map, Some, None};

use crate::place::{CorePlace, keep, nowhere, out_of};
use crate::raw::{rebox, unbox};
use lifetime_core::Core;
use std::alloc::Global;
use std::mem;

/// A core that a program in C keeps, or none: a handle of zeros has none.
#[repr(C)]
#[derive(Drop)]
pub struct CoreHandle {
    is_open: bool,
    place: CorePlace,
    ghost told: { is_open ≡ is_some place.core },
}

// Whether the handle has a core.
pub(crate) fn is_open(handle: &CoreHandle) -> bool
    ensures { result ≡ is_some handle.now.place.core }
{
    handle.is_open
}

// Takes the core out, and leaves none.
pub(crate) fn take(alloc: Global, handle: &mut CoreHandle) -> Option<Box<Core>>
    ensures core { handle.old.place.core ≡ option_map (λ b. b.value) result }
    ensures left { handle.new.place.core ≡ None }
{
    let none = CoreHandle {
        is_open: false,
        place: nowhere(alloc),
    };
    let CoreHandle { is_open, place } = mem::replace(handle, none);
    if is_open {
        Some(rebox(out_of(place)))
    } else {
        None
    }
}

// A value that may go to another thread.
fn for_any_thread<T: Send>(value: T) -> T
    ensures { result ≡ value }
{
    value
}

// Puts the core into the handle, over its old content, which is not dropped. Another thread may make the
// next call.
pub(crate) fn put(handle: &mut CoreHandle, core: Box<Core>)
    ensures core { handle.new.place.core ≡ Some core.value }
{
    *handle = for_any_thread(CoreHandle {
        is_open: true,
        place: keep(unbox(core)),
    });
}
