//! A box that is taken apart.
ghost use Rattle.std.specs.Prelude.{◌≡◌};
ghost use Rattle.std.specs.Box.Ownership.{box_owns};

use std::alloc::Allocator;
use std::marker::Model;

/// What a box owns, as its pointer and its allocator.
pub(crate) struct Unboxed<T, A: Allocator> {
    pub(crate) parts: (*mut T, A),
    pub(crate) ghost value: { T },
}

impl<T, A: Allocator> Model for Unboxed<T, A> {
    ghost also_owns = { λ p. box_owns (A.dealloc_token p.parts.1) T.row p.parts.0 p.value };
}

// Takes the box apart.
pub(crate) fn unbox<T: Drop, A: Allocator>(whole: Box<T, A>) -> Unboxed<T, A>
    ensures { result.value ≡ whole.value }
{
    Unboxed {
        parts: Box::into_raw_with_allocator(whole),
    }
}

// Makes a box of the parts.
pub(crate) fn rebox<T, A: Allocator>(unboxed: Unboxed<T, A>) -> Box<T, A>
    ensures { result.value ≡ unboxed.value }
{
    let Unboxed { parts: (at, alloc) } = unboxed;
    unsafe { Box::from_raw(alloc, at) }
}
