//! The places of trackers in the table.
ghost use Rattle.std.specs.Prelude.{◌≡◌, ◌↔◌, ◌+◌, ◌^◌, ◌<◌, ◌≤◌, [], ◌∷◌, ◌++◌, vec_len, vec_capacity, Some, None, OnOk, IfSome, true, false};
ghost use Rattle.slab.specs.Slab.{get, HasRoomFor, Updates};
ghost use Rattle.trackers.specs.declared.place.Place.{Place as PlaceValue};
ghost use Rattle.trackers.specs.Row.{firing_of_row, reader_of_row};
ghost use Rattle.trackers.specs.Held.{IdsRise, IsSearchAnswer};
ghost use Rattle.trackers.specs.Places.{firing_or_none, row_in, row_at, rows_of, in_slot, IsFiredAt, IsKeptAt, IsHere, Leaves, Names};

use crate::row::Row;
use crate::tracker::Tracker;
use once_cell::race::Note;
use slab::Slab;
use sm_names::{Fired, TrackerId};
use std::alloc::AllocError;

/// The first number that is too great for a place.
const NUMBERS: usize = u32::MAX as usize;

/// How far a tracker is.
#[derive(Clone, Copy)]
pub(crate) enum Stage {
    /// It waits, and its row is in a slot.
    InSlot,
    /// It fired, and its reader is still here.
    Untaken,
    /// It fired, and its reader was taken, before or after. Whether the firing set its cell.
    Taken { was_set: bool },
}

/// What the table keeps of a tracker until it is forgotten: the slot of its row, or the place of its
/// firing. The note, which takes no bytes, tells the proofs the name of its cell, and the firing that
/// set it.
#[derive(Drop)]
pub(crate) struct Place {
    pub(crate) number: u32,
    pub(crate) stage: Stage,
    pub(crate) note: Note<Fired>,
}

/// The id of the tracker.
pub(crate) fn id_at(place: &Place, slots: &Slab<Row>, fired: &[Fired]) -> TrackerId
    ensures { result ≡ (row_at slots.now.slots fired.now place.now).id }
{
    let number = place.number as usize;
    match place.stage {
        Stage::InSlot => match slots.get(number) {
            Some(row) => row.id(),
            None => 0,
        },
        Stage::Untaken | Stage::Taken { .. } => id_of(fired, number),
    }
}

/// The id in the firing at this place, or 0.
fn id_of(fired: &[Fired], number: usize) -> TrackerId
    ensures { result ≡ (firing_or_none fired.now number).tracker }
{
    if number < fired.len() {
        fired[number].tracker
    } else {
        0
    }
}

/// Whether the row of the place is in a slot.
pub(crate) fn waits(place: &Place) -> bool
    ensures { result ≡ in_slot place.now.stage }
{
    matches!(place.stage, Stage::InSlot)
}

/// Makes room for one place and one row, and for one firing beside those of this many that wait.
pub(crate) fn make_room(
    places: &mut Vec<Place>,
    slots: &mut Slab<Row>,
    fired: &mut Vec<Fired>,
    waiting: usize,
) -> Result<(), AllocError>
    requires { waiting < 2 ^ 32 }
    ensures place_room { OnOk result (vec_len places.new < vec_capacity places.new) }
    ensures slot_room { OnOk result (HasRoomFor slots.new 1) }
    ensures number { OnOk result (slots.new.vacant_key < 2 ^ 32) }
    ensures room { OnOk result (vec_len fired.old + (waiting + 1) ≤ vec_capacity fired.new) }
    ensures small { OnOk result (vec_len fired.old + (waiting + 1) ≤ 2 ^ 32) }
    ensures places { places.new.items ≡ places.old.items }
    ensures slots { slots.new ≡ record slots.old { capacity = slots.new.capacity } }
    ensures fired { fired.new.items ≡ fired.old.items }
    ensures more_room { vec_capacity fired.old ≤ vec_capacity fired.new }
{
    if slots.vacant_key() >= NUMBERS || fired.len() >= NUMBERS - waiting {
        return Err(AllocError);
    }
    places.reserve(1)?;
    slots.reserve(1)?;
    fired.reserve(waiting + 1)
}

/// Puts the row into a slot, and its place behind the others.
pub(crate) fn add(places: &mut Vec<Place>, slots: &mut Slab<Row>, row: Row)
    requires place_room { vec_len places.old < vec_capacity places.old }
    requires slot_room { HasRoomFor slots.old 1 }
    requires number { slots.old.vacant_key < 2 ^ 32 }
    ensures place { (p : PlaceValue) × (places.new.items ≡ places.old.items ++ p ∷ [])
        × Names p slots.old.vacant_key row.cell }
    ensures vacant { get slots.old slots.old.vacant_key ≡ None }
    ensures slot { Updates slots.old slots.new slots.old.vacant_key (Some row) }
{
    let mut row = row;
    let note = row.cell_note();
    let number = slots.insert_reserved(row) as u32;
    places.push_reserved(Place {
        number,
        stage: Stage::InSlot,
        note,
    });
}

/// Empties the slot of the place, if it has one.
pub(crate) fn leave(slots: &mut Slab<Row>, place: &Place)
    ensures { Leaves slots.old.slots slots.new.slots place.now }
{
    if let Stage::InSlot = place.stage {
        let _row = slots.try_remove(place.number as usize);
    }
}

/// Takes the row out of its slot and fires it: from then on the place names the firing of this number,
/// and its note knows what the cell was set to, if the reader was taken.
pub(crate) fn fire_place(place: &mut Place, slots: &mut Slab<Row>, number: u32, event: u64) -> Fired
    requires { IsHere slots.old.slots place.old }
    ensures firing { result
        ≡ record { tracker = (row_in (get slots.old place.old.number)).id; event = event } }
    ensures number { place.new.number ≡ number }
    ensures cell { place.new.note.cell ≡ place.old.note.cell }
    ensures told { IsFiredAt (row_in (get slots.old place.old.number)).has_reader result place.new }
    ensures slots { Updates slots.old slots.new place.old.number None }
{
    let row = slots.remove(place.number as usize);
    let (firing, note, set) = row.fire(event);
    place.number = number;
    place.note = note;
    place.stage = match set {
        Some(set) => Stage::Taken {
            was_set: set.is_ok(),
        },
        None => Stage::Untaken,
    };
    firing
}

/// The reader of the tracker, once.
pub(crate) fn take_at(place: &mut Place, slots: &mut Slab<Row>, fired: &[Fired]) -> Option<Tracker>
    requires { IsKeptAt slots.old.slots fired.now place.old }
    ensures reader { result ≡ reader_of_row (row_at slots.old.slots fired.now place.old) }
    ensures taken { row_at slots.new.slots fired.now place.new
        ≡ record (row_at slots.old.slots fired.now place.old) { has_reader = false } }
    ensures kept { IsKeptAt slots.new.slots fired.now place.new }
    ensures others { Leaves slots.old.slots slots.new.slots place.old }
{
    let number = place.number as usize;
    match place.stage {
        Stage::InSlot => slots[number].take(),
        Stage::Untaken => {
            place.stage = Stage::Taken { was_set: false };
            Some(Tracker::told(fired[number], place.note.again()))
        }
        Stage::Taken { .. } => None,
    }
}

/// Whether the tracker fired, and what a reader of its cell knows is that firing.
pub(crate) fn agree_at(
    place: &mut Place,
    slots: &Slab<Row>,
    fired: &[Fired],
    reader: &mut Tracker,
) -> bool
    requires kept { IsKeptAt slots.now.slots fired.now place.old }
    requires own { reader.old.cell ≡ place.old.note.cell }
    ensures kept { place.new ≡ place.old }
    ensures reader_kept { reader.new ≡ reader.old }
    ensures waiting { firing_of_row (row_at slots.now.slots fired.now place.old) ≡ None
        → result ≡ false }
    ensures same { IfSome reader.old.known (λ f. (result ≡ true)
        ↔ (firing_of_row (row_at slots.now.slots fired.now place.old) ≡ Some f)) }
{
    let number = place.number as usize;
    match place.stage {
        Stage::InSlot => false,
        Stage::Taken { was_set: true } => reader.compare(&mut place.note, fired[number]),
        Stage::Untaken | Stage::Taken { was_set: false } => reader.holds(fired[number]),
    }
}

/// Where the place of the tracker with this id stands.
pub(crate) fn find_place(
    places: &[Place],
    slots: &Slab<Row>,
    fired: &[Fired],
    id: TrackerId,
) -> Option<usize>
    requires { IdsRise (rows_of slots.now.slots fired.now places.now) }
    ensures { IsSearchAnswer id (rows_of slots.now.slots fired.now places.now) result }
{
    let at = places.partition_point(|place| id_at(place, slots, fired) < id);
    if at < places.len() && id_at(&places[at], slots, fired) == id {
        Some(at)
    } else {
        None
    }
}
