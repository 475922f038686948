//! The text of what all events left: in which nodes failed, who keeps pages, and which trackers wait.
ghost use Rattle.std.specs.Prelude.{◌≡◌, ◌==◌, if◌then◌else◌, [], ◌∷◌, ◌++◌, IfOk, OnOk, true, IfErr};
ghost use Rattle.std.specs.List.{flat_map, list_any};
ghost use Rattle.sm_names.specs.declared.tracking.Fired.{Fired as Firing};
ghost use Rattle.core_state.specs.Reads.{views_of};
ghost use Rattle.script_labels.specs.Names.{Names};
ghost use Rattle.script_labels.specs.Tables.{Keeps};
ghost use Rattle.event_texts.specs.Called.{Calls};
ghost use Rattle.event_texts.specs.EventTexts.{kept_text};
ghost use Rattle.event_texts.specs.KeeperTexts.{who_keeps_with};
ghost use Rattle.event_texts.specs.SummaryTexts.{colon as colon_text, events_text, failing_text, is_waiting, number_text, pages_text, summary_text, waiting_label, waiting_of, waiting_text};

use crate::event_writer::EventWriter;
use crate::keepers::push_kept;
use lifetime_core::Core;
use script_labels::{LineStop, Tables};
use script_lines::{Part, push, push_parts};
use sm_names::{Fired, TrackerId};
use std::alloc::{AllocError, Global};

impl EventWriter {
    /// Appends a summary of the events so far, where nodes failed in those of these numbers: how many events
    /// there were, these numbers, how many pages are held, which buffers have them and who keeps these, and
    /// which trackers wait.
    ///
    /// `NoMemory` where memory is refused. Costs O(e + b (n + c) + t f) for e events, b buffers with pages,
    /// the n nodes of a collection, c clients, and t trackers, of which f fired.
    pub fn push_summary(&self, failing: &[u64], text: &mut Vec<u8>) -> Result<(), LineStop>
        ensures text { OnOk result ((names : Names) → Keeps self.now.session.tables names →
            Calls self.now.labels names → text.new.items ≡ text.old.items
            ++ summary_text names self.now.session.core failing.now) }
        ensures err { IfErr result (λ stop. stop ≡ LineStop.NoMemory) }
    {
        let core = &self.session.core;
        push_events(text, core.events())?;
        push_failing(text, failing)?;
        push_pages(text, core)?;
        self.push_all_kept(text)?;
        Ok(push_waiting(text, core, &self.session.tables)?)
    }

    // Appends all buffers that have pages, and who keeps them.
    fn push_all_kept(&self, text: &mut Vec<u8>) -> Result<(), LineStop>
        ensures text { OnOk result ((names : Names) → Keeps self.now.session.tables names →
            Calls self.now.labels names → text.new.items ≡ text.old.items
            ++ kept_text names (who_keeps_with names true self.now.session.core)
            (views_of self.now.session.core).held) }
        ensures err { IfErr result (λ stop. stop ≡ LineStop.NoMemory) }
    {
        let session = &self.session;
        let held = session.core.held()?;
        push_kept(
            text,
            &session.core,
            &session.tables,
            &self.labels,
            &held,
            true,
        )
    }
}

// Appends how many events there were.
fn push_events(text: &mut Vec<u8>, events: u64) -> Result<(), AllocError>
    ensures { OnOk result (text.new.items ≡ text.old.items ++ events_text events) }
{
    push_parts(
        text,
        &[
            Part::Word("summary of "),
            Part::Counted(events, "event"),
            Part::Word("\n"),
        ],
    )
}

// What stands before so many: a colon, if there are some.
fn colon(count: u64) -> &'static str
    ensures { result.now ≡ colon_text count }
{
    if count == 0 { "" } else { ":" }
}

// Appends in how many events nodes failed, and their numbers.
fn push_failing(text: &mut Vec<u8>, failing: &[u64]) -> Result<(), AllocError>
    ensures { OnOk result (text.new.items ≡ text.old.items ++ failing_text failing.now) }
{
    let count = failing.len() as u64;
    push_parts(
        text,
        &[
            Part::Word("failed  "),
            Part::Counted(count, "event"),
            Part::Word(colon(count)),
        ],
    )?;
    push_numbers(text, failing)?;
    push(text, "\n")
}

// Appends a space and each of the numbers.
fn push_numbers(text: &mut Vec<u8>, numbers: &[u64]) -> Result<(), AllocError>
    ensures { OnOk result (text.new.items ≡ text.old.items ++ flat_map number_text numbers.now) }
{
    for number in numbers {
        push_spaced(text, *number)?;
    }
    Ok(())
}

// Appends a space and the number.
fn push_spaced(text: &mut Vec<u8>, number: u64) -> Result<(), AllocError>
    ensures { OnOk result (text.new.items ≡ text.old.items ++ number_text number) }
{
    push_parts(text, &[Part::Word(" "), Part::Number(number)])
}

// Appends how many of the pages are held.
fn push_pages(text: &mut Vec<u8>, core: &Core) -> Result<(), AllocError>
    ensures { OnOk result (text.new.items ≡ text.old.items ++ pages_text core.now) }
{
    let pages = core.pages();
    let held = pages.saturating_sub(core.free_pages());
    push_parts(
        text,
        &[
            Part::Word("held    "),
            Part::Number(held as u64),
            Part::Word(" of "),
            Part::Counted(pages as u64, "page"),
            Part::Word("\n"),
        ],
    )
}

// Appends how many trackers wait, and which.
fn push_waiting(text: &mut Vec<u8>, core: &Core, tables: &Tables) -> Result<(), AllocError>
    ensures { OnOk result ((names : Names) → Keeps tables.now names →
        text.new.items ≡ text.old.items
        ++ waiting_text names (waiting_of names core.now.trackers.fired core.now.events)) }
{
    let waiting = waiting_trackers(*text.allocator(), core, tables)?;
    push_named(text, tables, &waiting)
}

// Appends how many these trackers are that wait, and which.
fn push_named(text: &mut Vec<u8>, tables: &Tables, waiting: &[TrackerId]) -> Result<(), AllocError>
    ensures { OnOk result ((names : Names) → Keeps tables.now names →
        text.new.items ≡ text.old.items ++ waiting_text names waiting.now) }
{
    let count = waiting.len() as u64;
    push_parts(
        text,
        &[
            Part::Word("waiting "),
            Part::Counted(count, "tracker"),
            Part::Word(colon(count)),
        ],
    )?;
    push_trackers(text, tables, waiting)?;
    push(text, "\n")
}

// The trackers that wait, in the order in which they were made.
fn waiting_trackers(
    alloc: Global,
    core: &Core,
    tables: &Tables,
) -> Result<Vec<TrackerId>, AllocError>
    ensures { IfOk result (λ waiting. (names : Names) → Keeps tables.now names →
        waiting.items ≡ waiting_of names core.now.trackers.fired core.now.events) }
{
    let events = core.events();
    let fired = core.fired();
    let mut waiting = Vec::new(alloc);
    for before in 0..events {
        let id = before + 1;
        add_if(&mut waiting, id, waits(tables, fired, id))?;
    }
    Ok(waiting)
}

// Puts the tracker behind the others, if it is to be added.
fn add_if(trackers: &mut Vec<TrackerId>, id: TrackerId, added: bool) -> Result<(), AllocError>
    ensures { OnOk result (trackers.new.items
        ≡ trackers.old.items ++ (if added then id ∷ [] else [])) }
{
    if added {
        trackers.push(id)?;
    }
    Ok(())
}

// Whether the tracker with this number was made, and has not fired.
fn waits(tables: &Tables, fired: &[Fired], id: TrackerId) -> bool
    ensures { (names : Names) → Keeps tables.now names → result ≡ is_waiting names fired.now id }
{
    tables.tracker_label(id).is_some() && !has_fired(fired, id)
}

// Whether the tracker fired.
fn has_fired(fired: &[Fired], tracker: TrackerId) -> bool
    ensures { result ≡ list_any (λ (f : Firing). f.tracker == tracker) fired.now }
{
    fired.iter().any(|one| one.tracker == tracker)
}

// Appends a space and the label of each of the trackers.
fn push_trackers(
    text: &mut Vec<u8>,
    tables: &Tables,
    trackers: &[TrackerId],
) -> Result<(), AllocError>
    ensures { OnOk result ((names : Names) → Keeps tables.now names →
        text.new.items ≡ text.old.items ++ flat_map (waiting_label names) trackers.now) }
{
    for tracker in trackers {
        push_tracker(text, tables, *tracker)?;
    }
    Ok(())
}

// Appends a space and the label of the tracker.
fn push_tracker(text: &mut Vec<u8>, tables: &Tables, tracker: TrackerId) -> Result<(), AllocError>
    ensures { OnOk result ((names : Names) → Keeps tables.now names →
        text.new.items ≡ text.old.items ++ waiting_label names tracker) }
{
    push_parts(
        text,
        &[Part::Word(" "), Part::Name(tables.tracker_label(tracker))],
    )
}
