//! The rows of all trackers: one that waits has a row in a slot, which is used again once it fired;
//! of one that fired the table keeps its firing, and a place of 8 bytes with the number of that.
//! Places stand by rising id, for a binary search; firings stand in their order, in which ids do
//! not rise.
ghost use Rattle.std.specs.Prelude.{◌≡◌, ℕ, ◌↔◌, ◌+◌, ◌^◌, ◌<◌, ◌≤◌, [], ◌∷◌, ◌++◌, length, true, false, Option, None, OnOk, OnErr, IfSome, slice_index_or, slice_set, option_to_list};
ghost use Rattle.std.specs.List.{AllByRecursion, filter};
ghost use Rattle.trackers.specs.Row.{TrackerRow, Over, is_waiting, firing_of_row, reader_of_row, row_of_waiting};
ghost use Rattle.trackers.specs.Held.{Found, IsSearchAnswer};

use crate::place::{
    Place, add, agree_at, find_place, fire_place, id_at, leave, make_room, take_at, waits,
};
use crate::row::Row;
use crate::tracker::Tracker;
use slab::Slab;
use sm_names::{Fired, TrackerId};
use std::alloc::{AllocError, Global};
use std::marker::Model;

/// The rows of all trackers that were attached.
#[derive(Drop)]
pub(crate) struct Rows {
    // By rising id.
    places: Vec<Place>,
    slots: Slab<Row>,
    fired: Vec<Fired>,
}

impl Model for Rows {
    ghost use Rattle.trackers.specs.Row.{KeptRows};

    ghost Value = { KeptRows };

    ghost use Rattle.std.specs.Prelude.{◌^◌, min, vec_capacity};
    ghost use Rattle.trackers.specs.Places.{rows_of, RowsInvariant};

    ghost view = { λ r. record {
      rows = rows_of r.slots.slots r.fired.items r.places.items;
      fired = r.fired.items;
      room = min (vec_capacity r.fired) (2 ^ 32);
    } };

    ghost invariant = { λ r. RowsInvariant r.slots.slots r.fired.items r.places.items };
}

impl Rows {
    /// No rows.
    pub(crate) fn new(alloc: Global) -> Rows
        ensures rows { result.rows ≡ [] }
        ensures fired { result.fired ≡ [] }
    {
        Rows {
            places: Vec::new(alloc),
            slots: Slab::new(alloc),
            fired: Vec::new(alloc),
        }
    }

    /// How many trackers were attached.
    pub(crate) fn len(&self) -> usize
        ensures { result ≡ length self.now.rows }
    {
        self.places.len()
    }

    /// How many trackers wait.
    pub(crate) fn waiting(&self) -> usize
        requires { length self.now.fired ≤ length self.now.rows }
        ensures { result + length self.now.fired ≡ length self.now.rows }
    {
        self.places.len() - self.fired.len()
    }

    /// Forgets the rows of the trackers that fired, and their firings.
    pub(crate) fn forget(&mut self)
        ensures rows { self.new.rows ≡ filter is_waiting self.old.rows }
        ensures fired { self.new.fired ≡ [] }
        ensures room { self.new.room ≡ self.old.room }
    {
        self.places.retain(|place| waits(place));
        self.fired.clear();
    }

    /// The firings in their order.
    pub(crate) fn fired(&self) -> &[Fired]
        ensures { result.now ≡ self.now.fired }
    {
        &self.fired
    }

    /// Adds a row behind the others, with room for its firing beside those of the others that wait.
    pub(crate) fn push(&mut self, row: Row, waiting: usize) -> Result<(), AllocError>
        requires small { waiting < 2 ^ 32 }
        requires rising { AllByRecursion (λ (r : TrackerRow). r.id < row.tracker.id) self.old.rows }
        ensures row { OnOk result (self.new.rows ≡ self.old.rows ++ row_of_waiting row ∷ []) }
        ensures room { OnOk result (length self.old.fired + (waiting + 1) ≤ self.new.room) }
        ensures few { OnOk result (length self.old.fired + (waiting + 1) ≤ 2 ^ 32) }
        ensures kept { OnErr result (self.new.rows ≡ self.old.rows) }
        ensures fired { self.new.fired ≡ self.old.fired }
        ensures more_room { self.old.room ≤ self.new.room }
    {
        make_room(&mut self.places, &mut self.slots, &mut self.fired, waiting)?;
        add(&mut self.places, &mut self.slots, row);
        Ok(())
    }

    /// Takes the last row out.
    pub(crate) fn pop(&mut self)
        ensures last { (o : Option TrackerRow) × (self.old.rows ≡ self.new.rows ++ option_to_list o)
            × (o ≡ None → self.old.rows ≡ []) }
        ensures fired { self.new.fired ≡ self.old.fired }
        ensures room { self.new.room ≡ self.old.room }
    {
        let Some(place) = self.places.pop() else {
            return;
        };
        leave(&mut self.slots, &place);
    }

    /// Where the row with this id stands: a binary search.
    pub(crate) fn find(&self, id: TrackerId) -> Option<usize>
        ensures { IsSearchAnswer id self.now.rows result }
    {
        find_place(&self.places, &self.slots, &self.fired, id)
    }

    /// Whether the tracker at this place fired, and what a reader of its cell knows is that firing.
    pub(crate) fn agree(&mut self, at: usize, reader: &mut Tracker) -> bool
        requires within { at < length self.old.rows }
        requires own { (d : TrackerRow) →
            reader.old.cell ≡ (slice_index_or self.old.rows at d).cell }
        ensures kept { self.new ≡ self.old }
        ensures reader_kept { reader.new ≡ reader.old }
        ensures waiting { (d : TrackerRow) →
            firing_of_row (slice_index_or self.old.rows at d) ≡ None → result ≡ false }
        ensures same { (d : TrackerRow) → IfSome reader.old.known (λ f. (result ≡ true)
            ↔ (firing_of_row (slice_index_or self.old.rows at d) ≡ Some f)) }
    {
        agree_at(&mut self.places[at], &self.slots, &self.fired, reader)
    }

    /// Fires the tracker with this id, which waits, and stood at this place when it was attached: a look
    /// there, and a binary search where that is the place of another now.
    pub(crate) fn fire_by_id(&mut self, id: TrackerId, hint: u32, event: u64)
        requires waits { (at : ℕ) × (row : TrackerRow) × Found id self.old.rows at row
            × (is_waiting row ≡ true) }
        requires room { length self.old.fired < self.old.room }
        ensures row { (at : ℕ) (row : TrackerRow) → Found id self.old.rows at row →
            self.new.rows ≡ slice_set self.old.rows at (record row { state = Over event }) }
        ensures fired { self.new.fired ≡ self.old.fired
            ++ (record { tracker = id; event = event }) ∷ [] }
        ensures room { self.new.room ≡ self.old.room }
    {
        let Some(at) = self.find_near(id, hint as usize) else {
            return;
        };
        self.fire(at, event);
    }

    /// Where the row with this id stands: at this place, or a binary search says.
    fn find_near(&self, id: TrackerId, hint: usize) -> Option<usize>
        ensures { IsSearchAnswer id self.now.rows result }
    {
        if hint < self.places.len() && id_at(&self.places[hint], &self.slots, &self.fired) == id {
            Some(hint)
        } else {
            self.find(id)
        }
    }

    /// Fires the tracker at this place, which waits.
    fn fire(&mut self, at: usize, event: u64)
        requires within { at < length self.old.rows }
        requires waits { (d : TrackerRow) → is_waiting (slice_index_or self.old.rows at d) ≡ true }
        requires room { length self.old.fired < self.old.room }
        ensures row { (d : TrackerRow) → self.new.rows ≡ slice_set self.old.rows at
            (record (slice_index_or self.old.rows at d) { state = Over event }) }
        ensures fired { (d : TrackerRow) → self.new.fired ≡ self.old.fired
            ++ (record { tracker = (slice_index_or self.old.rows at d).id; event = event }) ∷ [] }
        ensures room { self.new.room ≡ self.old.room }
    {
        let number = self.fired.len() as u32;
        let firing = fire_place(&mut self.places[at], &mut self.slots, number, event);
        self.fired.push_reserved(firing);
    }

    /// The reader of the tracker at this place, once.
    pub(crate) fn take(&mut self, at: usize) -> Option<Tracker>
        requires { at < length self.old.rows }
        ensures reader { (d : TrackerRow) →
            result ≡ reader_of_row (slice_index_or self.old.rows at d) }
        ensures taken { (d : TrackerRow) → self.new ≡ record self.old {
          rows = slice_set self.old.rows
              at (record (slice_index_or self.old.rows at d) { has_reader = false });
        } }
    {
        take_at(&mut self.places[at], &mut self.slots, &self.fired)
    }
}
