//! One tracker that waits, as the table keeps it.
ghost use Rattle.std.specs.Prelude.{◌≡◌, true, false, Some, IfOk, MatchOption, MatchResult};
ghost use Rattle.sm_names.specs.declared.tracking.Fired.{Fired};
ghost use Rattle.trackers.specs.Row.{WaitingRow, reader_of_waiting};

use crate::tracker::Tracker;
use crate::waiting::Waiting;
use once_cell::race::{Note, OnceBox};
use sm_names::{Fired, TrackerId};
use std::alloc::{AllocError, Global};
use std::marker::Model;
use std::sync::Arc;

/// A tracker that waits: its cell, the room for what the cell will be set to, what is known of the
/// cell, and its reader until that is taken.
#[derive(Drop)]
pub(crate) struct Row {
    tracker: Waiting,
    cell: Arc<OnceBox<Fired>>,
    room: Box<Fired>,
    note: Note<Fired>,
    reader: Option<Tracker>,
}

impl Model for Row {
    ghost use Rattle.trackers.specs.Row.{WaitingRow};

    ghost Value = { WaitingRow };

    ghost use Rattle.trackers.specs.RowStates.{row_view, RowInvariant};

    ghost view = { row_view };

    ghost invariant = { RowInvariant };
}

impl Row {
    /// The tracker as a row, and its reader.
    pub(crate) fn new(alloc: Global, tracker: Waiting) -> Result<Row, AllocError>
        ensures { IfOk result (λ r. (r.tracker ≡ tracker) × (r.has_reader ≡ true)) }
    {
        let cell = Arc::new(alloc, OnceBox::new(alloc))?;
        let room = Box::new(
            alloc,
            Fired {
                tracker: tracker.id,
                event: 0,
            },
        )?;
        let mut note = cell.note();
        let reader = Tracker::new(tracker.id, Arc::try_clone(&cell)?, note.again());
        Ok(Row {
            tracker,
            cell,
            room,
            note,
            reader: Some(reader),
        })
    }

    pub(crate) fn id(&self) -> TrackerId
        ensures { result ≡ self.now.tracker.id }
    {
        self.tracker.id
    }

    /// A note of the cell, which takes no bytes: the name of the cell for the proofs.
    pub(crate) fn cell_note(&mut self) -> Note<Fired>
        ensures kept { self.new ≡ self.old }
        ensures cell { result.cell ≡ self.old.cell }
    {
        self.note.again()
    }

    /// The firing of the tracker at this event, a note of its cell, and what the setting of the cell
    /// to the firing was answered, for a reader that was taken. The note then knows what the cell
    /// holds: the firing where the answer is `Ok`, and else what another set before. A reader that is
    /// still here gets the firing as a value instead: nobody will read the cell, so that the cell and
    /// its room are given back, and the answer is `None`.
    pub(crate) fn fire(self, event: u64) -> (Fired, Note<Fired>, Option<Result<(), Box<Fired>>>)
        ensures firing { result.0 ≡ record { tracker = self.tracker.id; event = event } }
        ensures cell { result.1.cell ≡ self.cell }
        ensures set { MatchOption result.2 (self.has_reader ≡ true) (λ set.
            (self.has_reader ≡ false) × MatchResult set (λ _. result.1.known ≡ Some result.0)
            (λ room. (room.value ≡ result.0) × (x : Fired) × (result.1.known ≡ Some x))) }
    {
        let Row {
            tracker,
            cell,
            mut room,
            mut note,
            reader,
        } = self;
        let fired = Fired {
            tracker: tracker.id,
            event,
        };
        if reader.is_some() {
            return (fired, note, None);
        }
        *room = fired;
        let set = cell.set_as(room, &mut note);
        (fired, note, Some(set))
    }

    /// The reader, once.
    pub(crate) fn take(&mut self) -> Option<Tracker>
        ensures reader { result ≡ reader_of_waiting self.old }
        ensures taken { self.new ≡ record self.old { has_reader = false } }
    {
        self.reader.take()
    }
}
