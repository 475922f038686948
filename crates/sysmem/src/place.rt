//! The memory of a core that a program in C keeps.
ghost use Rattle.std.specs.Prelude.{◌≡◌, true, is_some, Option, Some, None};
ghost use Rattle.core_state.specs.State.{State};
ghost use Rattle.sysmem.specs.Ownership.{owns_core, state_coded};

use crate::raw::Unboxed;
use lifetime_core::Core;
use std::alloc::Global;
use std::marker::Model;

/// A core as a program in C sees it: without fields.
#[repr(C)]
#[derive(Clone, Copy)]
pub struct Opaque {
    unused: u8,
}

/// A core on the heap, or nothing.
#[repr(C)]
#[derive(Drop)]
pub struct CorePlace {
    at: *mut Opaque,
    alloc: Global,
    pub ghost core: { Option State } by { state_coded },
}

impl Model for CorePlace {
    ghost also_owns = { λ p. owns_core p.alloc p.at p.core };
}

// A core has no data of a thread, and any thread may free its block.
unsafe impl Send for CorePlace {}

// No core.
pub(crate) fn nowhere(alloc: Global) -> CorePlace
    ensures { result.core ≡ None }
{
    CorePlace {
        at: std::ptr::null_mut(),
        alloc,
    }
}

// Gives the parts of a box to a program in C.
pub(crate) fn keep(core: Unboxed<Core, Global>) -> CorePlace
    ensures { result.core ≡ Some core.value }
{
    let Unboxed { parts: (at, alloc) } = core;
    CorePlace {
        at: at as *mut Opaque,
        alloc,
    }
}

// Takes back the parts of a box that a program in C kept.
pub(crate) fn out_of(place: CorePlace) -> Unboxed<Core, Global>
    requires { is_some place.core ≡ true }
    ensures { place.core ≡ Some result.value }
{
    let CorePlace { at, alloc } = place;
    Unboxed {
        parts: (at as *mut Core, alloc),
    }
}
