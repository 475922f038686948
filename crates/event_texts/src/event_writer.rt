//! A session that also writes the facts of its events.
ghost use Rattle.std.specs.Prelude.{◌≡◌, ◌≢◌, ◌≤◌, ◌+◌, ◌++◌, [], ◌∷◌, IfErr, IfOk, OnOk};
ghost use Rattle.script_labels.specs.Names.{Names, label_of_node};
ghost use Rattle.sm_script.specs.Scenes.{Scene, as_line, first_scene, next_scene};
ghost use Rattle.sm_script.specs.Sessions.{Advances, Gains, IsAt, IsStopped};
ghost use Rattle.script_labels.specs.Tables.{Keeps};
ghost use Rattle.script_labels.specs.Texts.{reply_text};
ghost use Rattle.event_texts.specs.Called.{Calls, Knows, Notes, last_label, other_text};
ghost use Rattle.event_texts.specs.Deeds.{DeedLines, KeptLines, Recalls, RecallsDeeds, no_lines, with_deed, with_event};
ghost use Rattle.event_texts.specs.FactTexts.{buffer_name};
ghost use Rattle.event_texts.specs.Failing.{failures_with, has_failure, is_failure};
ghost use Rattle.event_texts.specs.LostLines.{LossLines, RecallsLosses, kept_line, with_loss, with_losses};
ghost use Rattle.event_texts.specs.EventLines.{IsEventOf, TellsFacts, TellsLine};

mod facts;
mod reasons;

use crate::deeds::{Deed, deed_of};
use crate::labels::Labels;
use event_facts::{Event, take_event};
use forced_marks::{Forced, Moment};
use script_labels::{Act, Binds, LineStop};
use script_lines::{Label, Part, push_label, push_parts};
use sm_names::{
    BufferName, Call, ClientId, Limits, MAX_PAGES, NoMemory, NodeKey, Reply, StepFault,
};
use sm_script::Session;
use std::alloc::{AllocError, Global};
use std::collections::HashMap;

// A line that made a node fail or did something to an end, and its number.
#[derive(Drop)]
struct KeptLine {
    number: u64,
    line: Vec<u8>,
}

/// A session, what its clients are called, and the lines that made nodes fail or did something to ends.
#[derive(Drop)]
pub struct EventWriter {
    /// The core, and what the labels of the lines so far stand for.
    pub session: Session,
    /// What clients and collected ends are called.
    pub labels: Labels,
    /// In how many events of the lines so far nodes failed.
    pub failures: u64,
    // By the node where a loss began.
    losses: HashMap<NodeKey, KeptLine>,
    // By what they did.
    deeds: HashMap<Deed, KeptLine>,
    // Those of the core.
    limits: Limits,
}

impl EventWriter {
    /// An event writer that has seen no line. Counts and labels hash from the seed.
    ///
    /// `NoMemory` where the core is refused its first tables. Costs O(1).
    pub fn new(
        alloc: Global,
        seed: [u8; 16],
        pages: u32,
        limits: Limits,
    ) -> Result<EventWriter, NoMemory>
        requires { (1 ≤ pages) × (pages ≤ MAX_PAGES) }
        ensures pool { IfOk result (λ event_writer. event_writer.session.core.pool ≡ pages) }
        ensures limits { IfOk result (λ event_writer. event_writer.session.core.limits ≡ limits) }
        ensures start { IfOk result (λ event_writer. IsAt event_writer.session first_scene) }
        ensures knows { IfOk result (λ event_writer. Knows event_writer first_scene) }
        ensures recalls { IfOk result (λ event_writer. Recalls event_writer no_lines) }
    {
        Ok(EventWriter {
            session: Session::new(alloc, seed, pages, limits)?,
            labels: Labels::new(alloc),
            failures: 0,
            losses: HashMap::new(alloc),
            deeds: HashMap::new(alloc),
            limits,
        })
    }

    /// Answers the line of this number, without its end, as `Session::answer` does: what it is answered
    /// is written into `reply`, and the facts of its event into `facts`; both are emptied first. The facts
    /// are all marks of the event, for whom a pending allocation waits or which line made the loss that an
    /// answer tells of, what became of buffers, who keeps pages, and which trackers fired.
    ///
    /// On an error neither is to be read. A bad line changes nothing of the session. Where memory was refused its
    /// call may have been made. Costs what
    /// the session's answer costs, and where a collection changes what `take_event` costs.
    pub fn answer(
        &mut self,
        alloc: Global,
        number: u64,
        line: &[u8],
        reply: &mut Vec<u8>,
        facts: &mut Vec<u8>,
    ) -> Result<(), LineStop>
        ensures ok { OnOk result ((scene : Scene) → IsAt self.old.session scene →
            Advances self.old.session self.new.session line.now reply.new.items scene) }
        ensures tells { OnOk result ((scene : Scene) (lines : KeptLines) →
            Knows self.old scene → Recalls self.old lines →
            TellsLine self.old self.new number line.now reply.new.items facts.new.items scene lines) }
        ensures err { IfErr result (λ stop. (scene : Scene) → IsAt self.old.session scene →
            IsStopped self.old.session line.now scene stop) }
        ensures same { IfErr result (λ stop. (scene : Scene) → IsAt self.old.session scene →
            stop ≡ LineStop.BadLine → self.new.session ≡ self.old.session) }
    {
        facts.clear();
        match self.session.read(line) {
            Some(
                Act::Ask {
                    client,
                    call,
                    binds,
                },
            ) => match self.take(alloc, client, call, binds, reply) {
                Ok(event) => match self.tell(alloc, number, line, &event, facts) {
                    Ok(()) => Ok(()),
                    Err(_) => Err(LineStop::NoMemory),
                },
                Err(stop) => Err(stop),
            },
            Some(Act::Nothing) => self.session.answer(line, reply),
            Some(Act::Poll(_)) => self.session.answer(line, reply),
            Some(Act::Show(_)) => self.session.answer(line, reply),
            None => Err(LineStop::BadLine),
        }
    }

    // Keeps the line with each loss that its event made and with what it did to an end, and appends the facts of
    // the event. It fails for want of memory alone.
    fn tell(
        &mut self,
        alloc: Global,
        number: u64,
        line: &[u8],
        event: &Event,
        facts: &mut Vec<u8>,
    ) -> Result<(), LineStop>
        ensures session { self.new.session ≡ self.old.session }
        ensures labels { self.new.labels ≡ self.old.labels }
        ensures failures { self.new.failures ≡ self.old.failures }
        ensures recalls { OnOk result ((lines : KeptLines) → Recalls self.old lines →
            Recalls self.new (with_event (number, line.now) event.now lines)) }
        ensures facts { OnOk result ((names : Names) (lines : KeptLines) →
            Keeps self.old.session.tables names → Calls self.old.labels names →
            Recalls self.old lines → facts.old.items ≡ [] → TellsFacts names
            (with_event (number, line.now) event.now lines)
            self.old.session.core event.now facts.new.items) }
        ensures err { IfErr result (λ stop. stop ≡ LineStop.NoMemory) }
    {
        self.note_event(alloc, number, line, event)?;
        self.push_facts(event, facts)
    }

    // Keeps the line with each loss that its event made, and with what it did to an end.
    fn note_event(
        &mut self,
        alloc: Global,
        number: u64,
        line: &[u8],
        event: &Event,
    ) -> Result<(), AllocError>
        ensures session { self.new.session ≡ self.old.session }
        ensures labels { self.new.labels ≡ self.old.labels }
        ensures failures { self.new.failures ≡ self.old.failures }
        ensures recalls { OnOk result ((lines : KeptLines) → Recalls self.old lines →
            Recalls self.new (with_event (number, line.now) event.now lines)) }
    {
        self.note_losses(alloc, number, line, &event.moments)?;
        let deed = deed_of(event.call, event.reply);
        self.note_deed(alloc, number, line, deed)
    }

    // Keeps the line with what it did to an end, if it did something.
    fn note_deed(
        &mut self,
        alloc: Global,
        number: u64,
        line: &[u8],
        deed: Option<Deed>,
    ) -> Result<(), AllocError>
        ensures session { self.new.session ≡ self.old.session }
        ensures labels { self.new.labels ≡ self.old.labels }
        ensures failures { self.new.failures ≡ self.old.failures }
        ensures losses { self.new.losses ≡ self.old.losses }
        ensures limits { self.new.limits ≡ self.old.limits }
        ensures recalls { OnOk result ((lines : DeedLines) → RecallsDeeds self.old lines →
            RecallsDeeds self.new (with_deed (number, line.now) deed lines)) }
    {
        match deed {
            Some(deed) => self.note_done(alloc, number, line, deed),
            None => Ok(()),
        }
    }

    // Keeps the line with what it did to an end, in the place of an earlier one.
    fn note_done(
        &mut self,
        alloc: Global,
        number: u64,
        line: &[u8],
        deed: Deed,
    ) -> Result<(), AllocError>
        ensures session { self.new.session ≡ self.old.session }
        ensures labels { self.new.labels ≡ self.old.labels }
        ensures failures { self.new.failures ≡ self.old.failures }
        ensures losses { self.new.losses ≡ self.old.losses }
        ensures limits { self.new.limits ≡ self.old.limits }
        ensures recalls { OnOk result ((lines : DeedLines) → RecallsDeeds self.old lines →
            RecallsDeeds self.new ((deed, (number, line.now)) ∷ lines)) }
    {
        let done = kept_line_of(alloc, number, line)?;
        self.deeds.insert(deed, done)?;
        Ok(())
    }

    /// Makes the call of a line, and puts its reply in the place of what was there; what its label stands
    /// for is what the call made.
    ///
    /// `HistoryFull` and `NoMemory` as `take_event` has them, and never `BadLine`. Costs what that costs.
    pub fn take(
        &mut self,
        alloc: Global,
        client: ClientId,
        call: Call,
        binds: Binds,
        reply: &mut Vec<u8>,
    ) -> Result<Event, LineStop>
        ensures ok { OnOk result ((scene : Scene) → IsAt self.old.session scene →
            Gains self.old.session self.new.session (Act.Ask client call binds)
            [] reply.new.items scene) }
        ensures knows { IfOk result (λ event. (scene : Scene) → Knows self.old scene →
            Knows self.new (next_scene scene client call binds event.reply)) }
        ensures text { IfOk result (λ event. (names : Names) →
            Keeps self.old.session.tables names →
            reply.new.items ≡ as_line (reply_text names binds event.reply)) }
        ensures event { IfOk result (λ event. IsEventOf self.old.session.core client call event) }
        ensures losses { self.new.losses ≡ self.old.losses }
        ensures deeds { self.new.deeds ≡ self.old.deeds }
        ensures limits { self.new.limits ≡ self.old.limits }
        ensures failures { OnOk result (self.new.failures ≤ self.old.failures + 1) }
        ensures err { IfErr result (λ stop. (stop ≢ LineStop.BadLine)
            × (stop ≡ LineStop.HistoryFull →
            self.old.session.core.limits.events ≤ self.old.session.core.events)) }
        ensures full { self.old.session.core.limits.events ≤ self.old.session.core.events →
            result ≡ Err LineStop.HistoryFull }
    {
        reply.clear();
        let event = taken(take_event(alloc, &mut self.session.core, client, call))?;
        let events = self.session.core.events();
        self.failures = failures_with(self.failures, events, &event.moments);
        let made = self.noted(binds, event, reply)?;
        Ok(made)
    }

    // Takes note of the event's reply, and gives the event back.
    fn noted(&mut self, binds: Binds, event: Event, text: &mut Vec<u8>) -> Result<Event, AllocError>
        ensures losses { self.new.losses ≡ self.old.losses }
        ensures deeds { self.new.deeds ≡ self.old.deeds }
        ensures limits { self.new.limits ≡ self.old.limits }
        ensures failures { self.new.failures ≡ self.old.failures }
        ensures same { IfOk result (λ made. made ≡ event) }
        ensures notes { IfOk result (λ made.
            Notes self.old self.new binds made.reply text.old.items text.new.items) }
    {
        match self.note(binds, event.reply, text) {
            Ok(()) => Ok(event),
            Err(fault) => Err(fault),
        }
    }

    // Appends the text of the reply, and takes note of what it made or brought.
    fn note(&mut self, binds: Binds, reply: Reply, text: &mut Vec<u8>) -> Result<(), AllocError>
        ensures losses { self.new.losses ≡ self.old.losses }
        ensures deeds { self.new.deeds ≡ self.old.deeds }
        ensures limits { self.new.limits ≡ self.old.limits }
        ensures failures { self.new.failures ≡ self.old.failures }
        ensures notes { OnOk result
            (Notes self.old self.new binds reply text.old.items text.new.items) }
    {
        self.session.note(binds, reply, text)?;
        self.labels.note(binds, reply)?;
        Ok(())
    }

    // Keeps the line with each loss that it made.
    fn note_losses(
        &mut self,
        alloc: Global,
        number: u64,
        line: &[u8],
        moments: &[Moment],
    ) -> Result<(), AllocError>
        ensures session { self.new.session ≡ self.old.session }
        ensures labels { self.new.labels ≡ self.old.labels }
        ensures failures { self.new.failures ≡ self.old.failures }
        ensures deeds { self.new.deeds ≡ self.old.deeds }
        ensures limits { self.new.limits ≡ self.old.limits }
        ensures recalls { OnOk result ((lines : LossLines) → RecallsLosses self.old lines →
            RecallsLosses self.new (with_losses (number, line.now) moments.now lines)) }
    {
        let mut rest = moments;
        'marks: while let Some((moment, later)) = rest.split_first() {
            self.note_mark(alloc, number, line, moment.mark)?;
            rest = later;
        }
        Ok(())
    }

    // Keeps the line with the mark, if that is a loss.
    fn note_mark(
        &mut self,
        alloc: Global,
        number: u64,
        line: &[u8],
        mark: Forced,
    ) -> Result<(), AllocError>
        ensures session { self.new.session ≡ self.old.session }
        ensures labels { self.new.labels ≡ self.old.labels }
        ensures failures { self.new.failures ≡ self.old.failures }
        ensures deeds { self.new.deeds ≡ self.old.deeds }
        ensures limits { self.new.limits ≡ self.old.limits }
        ensures recalls { OnOk result ((lines : LossLines) → RecallsLosses self.old lines →
            RecallsLosses self.new (with_loss (number, line.now) mark lines)) }
    {
        match mark {
            Forced::Loss(fault) => self.note_loss(alloc, number, line, fault.origin),
            Forced::Allocated(_) => Ok(()),
            Forced::Ended(_) => Ok(()),
        }
    }

    // Keeps the line with the loss that began at the node, in the place of an earlier one.
    fn note_loss(
        &mut self,
        alloc: Global,
        number: u64,
        line: &[u8],
        origin: NodeKey,
    ) -> Result<(), AllocError>
        ensures session { self.new.session ≡ self.old.session }
        ensures labels { self.new.labels ≡ self.old.labels }
        ensures failures { self.new.failures ≡ self.old.failures }
        ensures deeds { self.new.deeds ≡ self.old.deeds }
        ensures limits { self.new.limits ≡ self.old.limits }
        ensures recalls { OnOk result ((lines : LossLines) → RecallsLosses self.old lines →
            RecallsLosses self.new ((origin, (number, line.now)) ∷ lines)) }
    {
        let told = kept_line_of(alloc, number, line)?;
        self.losses.insert(origin, told)?;
        Ok(())
    }

    /// Appends the label under which the end of the node was collected last, if it is another than that
    /// of its birth. Costs two look-ups.
    pub fn push_other_name(&self, text: &mut Vec<u8>, node: NodeKey) -> Result<(), AllocError>
        ensures { OnOk result ((names : Names) → Keeps self.now.session.tables names →
            Calls self.now.labels names → text.new.items ≡ text.old.items
            ++ other_text (last_label names node) (label_of_node names node)) }
    {
        push_other(
            text,
            self.labels.last(node),
            self.session.tables.birth_label(node),
        )
    }

    /// Appends the name of the buffer. Costs O(n) for n bytes of text, and a look-up.
    pub fn push_buffer_name(&self, text: &mut Vec<u8>, buffer: BufferName) -> Result<(), AllocError>
        ensures { OnOk result ((names : Names) → Keeps self.now.session.tables names →
            text.new.items ≡ text.old.items ++ buffer_name names buffer) }
    {
        push_parts(
            text,
            &[
                Part::Name(self.session.tables.root_label(buffer.collection)),
                Part::Word("."),
                Part::Number(buffer.index as u64),
            ],
        )
    }
}

// Appends the last label, where it is another than the first.
fn push_other(
    text: &mut Vec<u8>,
    last: Option<Label>,
    first: Option<Label>,
) -> Result<(), AllocError>
    ensures { OnOk result (text.new.items ≡ text.old.items ++ other_text last first) }
{
    match (last, first) {
        (None, _) => Ok(()),
        (Some(last), None) => push_label(text, Some(last)),
        (Some(last), Some(first)) => {
            if last == first {
                Ok(())
            } else {
                push_label(text, Some(last))
            }
        }
    }
}

// In how many events nodes failed, where one more has these marks, so many did in before, and so many events were made.
fn failures_with(failures: u64, events: u64, moments: &[Moment]) -> u64
    ensures value { result ≡ failures_with failures events moments.now }
    ensures few { result ≤ failures + 1 }
{
    if has_failure(moments) {
        failures.saturating_add(1).min(events)
    } else {
        failures
    }
}

// Whether one of the marks is that of a failure.
fn has_failure(moments: &[Moment]) -> bool
    ensures { result ≡ has_failure moments.now }
{
    moments.iter().any(|moment| is_failure(moment.mark))
}

// Whether the mark is that of a failure.
fn is_failure(mark: Forced) -> bool
    ensures { result ≡ is_failure mark }
{
    match mark {
        Forced::Loss(_) => true,
        Forced::Allocated(_) | Forced::Ended(_) => false,
    }
}

// The line, kept with its number.
fn kept_line_of(alloc: Global, number: u64, line: &[u8]) -> Result<KeptLine, AllocError>
    ensures { IfOk result (λ kept. kept_line kept ≡ (number, line.now)) }
{
    let mut kept = Vec::new(alloc);
    kept.extend_from_slice(line)?;
    Ok(KeptLine { number, line: kept })
}

// The event, or why it stopped the script.
fn taken(event: Result<Event, StepFault>) -> Result<Event, LineStop>
    ensures ok { IfOk result (λ made. event ≡ Ok made) }
    ensures err { IfErr result (λ stop. (stop ≢ LineStop.BadLine)
        × (stop ≡ LineStop.HistoryFull → event ≡ Err StepFault.HistoryFull)) }
    ensures full { event ≡ Err StepFault.HistoryFull → result ≡ Err LineStop.HistoryFull }
{
    match event {
        Ok(event) => Ok(event),
        Err(StepFault::HistoryFull) => Err(LineStop::HistoryFull),
        Err(StepFault::NoMemory) => Err(LineStop::NoMemory),
    }
}
