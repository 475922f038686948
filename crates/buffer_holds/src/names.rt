//! What pages of counts are of.
ghost use Rattle.std.specs.Prelude.{◌≡◌, ◌<◌};
ghost use Rattle.buffer_holds.specs.Pages.{part_of, owner_of, slot_of};

use crate::kinds::{HandleKind, Hold};
use sm_names::{ClientId, CollectionId, Strength};

/// The handles of both strengths on 64 buffers of a collection. The buffers of a collection have the indices 0
/// to 63, so it has one part. Names with a greater index are counted in parts of their own.
#[derive(Clone, Copy, PartialEq, Eq, Hash)]
pub struct Part {
    pub collection: CollectionId,
    pub number: u8,
}

/// Whose handles one page counts: those of one client of a part.
#[derive(Clone, Copy, PartialEq, Eq, Hash)]
pub struct Owner {
    pub client: ClientId,
    pub part: Part,
}

// The part that has the kind.
#[inline(always)]
pub(crate) fn part_of(kind: HandleKind) -> Part
    ensures { result ≡ part_of kind }
{
    Part {
        collection: kind.buffer.collection,
        number: kind.buffer.index / 64,
    }
}

// Whose page counts the hold.
#[inline(always)]
pub(crate) fn owner_of(hold: Hold) -> Owner
    ensures { result ≡ owner_of hold }
{
    Owner {
        client: hold.client,
        part: part_of(hold.kind),
    }
}

// The cell that counts the kind: first the strong handles on each buffer of the part, then the weak ones.
#[inline(always)]
pub(crate) fn slot_of(kind: HandleKind) -> usize
    ensures value { result ≡ slot_of kind }
    ensures within { result < 128 }
{
    let place = (kind.buffer.index % 64) as usize;
    match kind.strength {
        Strength::Strong => place,
        Strength::Weak => place + 64,
    }
}
