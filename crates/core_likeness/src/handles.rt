//! Whether clients have as many handles under new names.
ghost use Rattle.std.specs.Prelude.{◌≡◌, ◌==◌, ◌&&◌, ℕ, true};
ghost use Rattle.std.specs.Int.{bit_at};
ghost use Rattle.sm_names.specs.declared.keys.BufferName.{BufferName as Buffer};
ghost use Rattle.sm_names.specs.declared.keys.Strength.{Strength as Hold};
ghost use Rattle.buffer_holds.specs.Counts.{of, total};
ghost use Rattle.core_state.specs.Shown.{Shows};
ghost use Rattle.core_likeness.specs.Told.{is_opened};
ghost use Rattle.alike_cores.specs.Renamed.{CountsAlike, buffer_renamed};
ghost use Rattle.core_likeness.specs.Naming.{new_id};
ghost use Rattle.core_likeness.specs.Parts.{AreCounted, IsCounted, IsPaired, SameCounts};

use crate::names::Names;
use crate::readings::openings::{Opening, opening_of};
use lifetime_core::Core;
use sm_names::{BufferName, Call, ClientId, CollectionId, Reply, Strength, has_buffer};

// Two cores, new names, and whether the buffers that are asked for have their old ones.
#[derive(Clone, Copy)]
struct Sides<'a> {
    one: &'a Core,
    other: &'a Core,
    names: &'a Names,
    is_old: bool,
}

// Whether the client has in the other core as many handles of this strength on the second buffer as in the one on the
// first, and whether all have.
fn has_same_count(
    one: &Core,
    other: &Core,
    client: ClientId,
    first: BufferName,
    second: BufferName,
    strength: Strength,
) -> bool
    ensures { result ≡ true → SameCounts one.now.holds other.now.holds client first second strength }
{
    one.open_handles(client, first, strength) == other.open_handles(client, second, strength)
        && one.total_handles(first, strength) == other.total_handles(second, strength)
}

// The same of both strengths.
fn has_same_counts(
    one: &Core,
    other: &Core,
    client: ClientId,
    first: BufferName,
    second: BufferName,
) -> bool
    ensures { result ≡ true → (strength : Hold) →
        SameCounts one.now.holds other.now.holds client first second strength }
{
    has_same_count(one, other, client, first, second, Strength::Strong)
        && has_same_count(one, other, client, first, second, Strength::Weak)
}

// The old name of the buffer, which has the old name or the new.
fn old_name(names: &Names, is_old: bool, buffer: BufferName) -> BufferName {
    if is_old {
        return buffer;
    }
    BufferName {
        collection: names.old_id(buffer.collection),
        index: buffer.index,
    }
}

// Whether these are the names of one buffer: its old one, and its old or its new one.
fn is_paired(names: &Names, is_old: bool, old: BufferName, buffer: BufferName) -> bool
    ensures { result ≡ true → IsPaired (new_id names.now) is_old old buffer }
{
    if is_old {
        old.collection == buffer.collection && old.index == buffer.index
    } else {
        names.id(old.collection) == buffer.collection && old.index == buffer.index
    }
}

// Whether the counts of the buffer are the same, which has the old name or the new.
fn is_counted(sides: &Sides<'_>, client: ClientId, buffer: BufferName) -> bool
    ensures { result ≡ true → (strength : Hold) →
        IsCounted sides.now.one.now.holds sides.now.other.now.holds (new_id sides.now.names.now)
        sides.now.is_old client buffer strength }
{
    let old = old_name(sides.names, sides.is_old, buffer);
    if !is_paired(sides.names, sides.is_old, old, buffer) {
        return false;
    }
    let new = sides.names.buffer(old);
    has_same_counts(sides.one, sides.other, client, old, new)
}

// Whether those of each buffer of the set are.
fn is_set_counted(sides: &Sides<'_>, client: ClientId, collection: CollectionId, set: u64) -> bool
    ensures { result ≡ true → (buffer : Buffer) (strength : Hold) →
        (collection == buffer.collection && bit_at set buffer.index == 1) ≡ true →
        IsCounted sides.now.one.now.holds sides.now.other.now.holds (new_id sides.now.names.now)
        sides.now.is_old client buffer strength }
{
    'counting: for index in 0..64u8 {
        if has_buffer(set, index) {
            let buffer = BufferName { collection, index };
            if !is_counted(sides, client, buffer) {
                return false;
            }
        }
    }
    true
}

// Whether those of each of these buffers are.
fn is_opening_counted(sides: &Sides<'_>, client: ClientId, opening: Opening) -> bool
    ensures { result ≡ true → (buffer : Buffer) (strength : Hold) →
        is_opened opening buffer ≡ true →
        IsCounted sides.now.one.now.holds sides.now.other.now.holds (new_id sides.now.names.now)
        sides.now.is_old client buffer strength }
{
    match opening {
        Opening::Nothing => true,
        Opening::Set(collection, set) => is_set_counted(sides, client, collection, set),
        Opening::Buffer(buffer) => is_counted(sides, client, buffer),
    }
}

// Whether those of each buffer are on which one of these entries brought handles. The entries have the old names or the
// new.
fn are_counted(sides: &Sides<'_>, entries: &[(ClientId, Call, Reply)]) -> bool
    ensures { result ≡ true → AreCounted sides.now.one.now.holds sides.now.other.now.holds
        (new_id sides.now.names.now) sides.now.is_old entries.now }
{
    for entry in entries {
        let opening = opening_of(entry.1, entry.2);
        if !is_opening_counted(sides, entry.0, opening) {
            return false;
        }
    }
    true
}

// Whether clients have as many handles in the other core as in the one.
pub(crate) fn handles_are_alike(
    one: &Core,
    first: &[(ClientId, Call, Reply)],
    other: &Core,
    second: &[(ClientId, Call, Reply)],
    names: &Names,
) -> bool
    requires one { Shows one.now first.now }
    requires other { Shows other.now second.now }
    ensures open_of { result ≡ true → (client : ℕ) (b : Buffer) (strength : Hold) →
        of other.now.holds client (buffer_renamed (new_id names.now) b) strength
        ≡ of one.now.holds client b strength }
    ensures total { result ≡ true →
        CountsAlike (new_id names.now) (total one.now.holds) (total other.now.holds) }
{
    let olds = Sides {
        one,
        other,
        names,
        is_old: true,
    };
    let news = Sides {
        one,
        other,
        names,
        is_old: false,
    };
    if !are_counted(&olds, first) {
        return false;
    }
    are_counted(&news, second)
}
