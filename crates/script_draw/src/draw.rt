//! The trees of a script behind an event, drawn.
ghost use Rattle.std.specs.Prelude.{◌≡◌, ◌≢◌, ◌≤◌, ◌+◌, [], ◌∷◌, ◌++◌, List, ℕ, Option, None, true, IfErr, IfOk, OnOk, length, nat_le};
ghost use Rattle.std.specs.Option.{IfSome};
ghost use Rattle.sm_names.specs.declared.messages.Call.{Call as CallMade};
ghost use Rattle.sm_names.specs.Marks.{Entry};
ghost use Rattle.core_state.specs.Shown.{Shows};
ghost use Rattle.core_state.specs.State.{State};
ghost use Rattle.report_io.specs.Streams.{Reads};
ghost use Rattle.report_io.specs.Takings.{IsTaken};
ghost use Rattle.script_draw.specs.declared.draw.Scroll.{Scroll as Start};
ghost use Rattle.report_io.specs.declared.view.Until.{Until as Asked};
ghost use Rattle.script_labels.specs.Names.{Names};
ghost use Rattle.sm_script.specs.Scenes.{Scene, Setting};
ghost use Rattle.sm_script.specs.Sessions.{IsAt, IsSameSetting, setting_of};
ghost use Rattle.script_labels.specs.Tables.{Keeps};
ghost use Rattle.event_texts.specs.Called.{Calls, Knows};
ghost use Rattle.event_texts.specs.EventLines.{IsEventOf};
ghost use Rattle.picture_model.specs.PictureStates.{HasSeen, KnowsKept, known_after, known_in};
ghost use Rattle.script_draw.specs.Draws.{Draws, IsPicture, LinesDrawn, PictureTold, picture_in};
ghost use Rattle.script_draw.specs.Played.{asked_number, found, is_reached, none_wanted, wanted};
ghost use Rattle.script_draw.specs.Reached.{AsksFor, IsHeldUp, LineMakesCall, MakesEvent, PlayedFrom, PlaysLine, PlayStops, Reached, TakesIn, stops_at_line};
ghost use Rattle.script_draw.specs.Played.{IsAhead};

use event_facts::Event;
use event_texts::EventWriter;
use picture_dot::push_dot;
use picture_model::{Picture, PictureState, named_collection, picture_of};
use picture_svg::push_svg;
use picture_text::push_text;
use report_io::{
    Format, ReportFault, Sought, TakesLines, Until, View, fault_of, is_indented, put_out,
    read_script, take_script,
};
use script_labels::{Act, Binds, LineStop};
use script_lines::{MOST_BYTES, Pages};
use sm_names::{Call, ClientId, CollectionId, Limits, MAX_PAGES, NoMemory};
use std::alloc::Global;
use std::io::{Read, Write};

/// The pages of the pool, and which picture is drawn.
#[derive(Clone, Copy)]
pub struct DrawJob {
    /// The size of the pool.
    pub pages: Pages,
    /// What is drawn of the script.
    pub view: View,
}

// A script that is played up to some event.
#[derive(Drop)]
struct Scroll {
    event_writer: EventWriter,
    picture_state: PictureState,
    limits: Limits,
    until: Until,
    // The last event, its line and its reply.
    event: Option<Event>,
    line: Vec<u8>,
    reply: Vec<u8>,
}

/// Runs the script that the reader holds against a new core with a pool of the job's pages, and writes a
/// picture of the trees behind its last line, or behind the event, line or failure that is asked for; the
/// lines behind that are not looked at. Lines that begin with two spaces are passed over. The whole script is read
/// before any line is judged.
///
/// On a fault nothing was written, but for these: `WriteFault`, where a first part of the picture was;
/// and `BadLine` and `HistoryFull`, where the last line is asked for: then the picture is that behind the
/// line before. `Missing` where the script has no such event, line or failure.
///
/// Costs what `explain_script` costs; O(n log n) for each event, for the n nodes that were ever born in the
/// collection that it names, and for each collection that is drawn; the picture, where the text of a node at
/// depth d has d columns before it; and for each buffer a look-up for each client and strength.
pub fn draw_script<R: Read, W: Write>(
    alloc: Global,
    seed: [u8; 16],
    reader: &mut R,
    writer: &mut W,
    job: DrawJob,
    limits: Limits,
) -> Result<(), ReportFault>
    ensures { Draws (record { pool = job.pages.count; limits = limits }) job.view
        (R.remaining reader.old) (R.remaining reader.new)
        (W.contents writer.old) (W.contents writer.new) result }
{
    let script = match read_script(alloc, reader) {
        Ok(script) => script,
        Err(fault) => return Err(fault),
    };
    if let Some(sought) = none_wanted(job.view.until) {
        return Err(ReportFault::Missing { sought, number: 0 });
    }
    match Scroll::new(alloc, seed, job.pages.count, limits, job.view.until) {
        Ok(mut scroll) => draw_all(alloc, &mut scroll, writer, &script, job.view),
        Err(_) => Err(ReportFault::NoMemory),
    }
}

// Plays the lines up to what is asked for, or to the last, and writes the picture.
fn draw_all<W: Write>(
    alloc: Global,
    scroll: &mut Scroll,
    writer: &mut W,
    script: &[u8],
    view: View,
) -> Result<(), ReportFault>
    requires small { length script.now ≤ MOST_BYTES }
    requires same { scroll.old.until ≡ view.until }
    requires some { none_wanted view.until ≡ None }
    requires start { PlayedFrom scroll.old scroll.old true [] [] }
    ensures { LinesDrawn (setting_of scroll.old.event_writer.session) (record { format = view.format; until = scroll.old.until })
        (W.contents writer.old) (W.contents writer.new) script.now result }
{
    match take_script(alloc, scroll, writer, script) {
        Ok(more) => draw_asked(alloc, scroll, writer, view, more),
        Err(fault) => draw_so_far(alloc, scroll, writer, view, fault),
    }
}

// What is sought, if none of it is wanted: that of the number 0.
fn none_wanted(until: Until) -> Option<Sought>
    ensures { result ≡ none_wanted until }
{
    match wanted(until) {
        Some((sought, 0)) => Some(sought),
        _ => None,
    }
}

// What is sought, and which of it; nothing where the last line is asked for.
fn wanted(until: Until) -> Option<(Sought, u64)>
    ensures { result ≡ wanted until }
{
    match until {
        Until::Last => None,
        Until::Event(number) => Some((Sought::Event, number)),
        Until::Line(number) => Some((Sought::Line, number)),
        Until::Failure(number) => Some((Sought::Failure, number)),
    }
}

// Writes the picture, unless what is asked for was not reached: then more lines would be played.
fn draw_asked<W: Write>(
    alloc: Global,
    scroll: &Scroll,
    writer: &mut W,
    view: View,
    more: bool,
) -> Result<(), ReportFault>
    ensures { (first : Start) (old : Option (List ℕ)) (script : List ℕ) → first.until ≡ view.until →
        none_wanted view.until ≡ None →
        IsTaken (PlayedFrom first) scroll.now old (W.contents writer.old) script more →
        LinesDrawn (setting_of first.event_writer.session) (record { format = view.format; until = first.until })
        old (W.contents writer.new) script result }
{
    match wanted(view.until) {
        Some((sought, number)) => {
            if more {
                Err(ReportFault::Missing { sought, number })
            } else {
                write_picture(alloc, writer, scroll, view.format)
            }
        }
        None => write_picture(alloc, writer, scroll, view.format),
    }
}

// Whether the fault is one of a line, which changed nothing.
fn is_line_fault(fault: &ReportFault) -> bool
    ensures { result ≡ stops_at_line fault.now }
{
    match fault {
        ReportFault::BadLine { .. } | ReportFault::HistoryFull => true,
        ReportFault::ReadFault
        | ReportFault::TooLong
        | ReportFault::WriteFault(_)
        | ReportFault::NoMemory
        | ReportFault::Missing { .. } => false,
    }
}

// Writes the picture of what was there before the fault of a line, if the last line is asked for.
fn draw_so_far<W: Write>(
    alloc: Global,
    scroll: &Scroll,
    writer: &mut W,
    view: View,
    fault: ReportFault,
) -> Result<(), ReportFault>
    ensures { (first : Start) (old : Option (List ℕ)) (script : List ℕ) → first.until ≡ view.until →
        PlayStops first scroll.now old (W.contents writer.old) script fault →
        LinesDrawn (setting_of first.event_writer.session) (record { format = view.format; until = first.until })
        old (W.contents writer.new) script result }
{
    match wanted(view.until) {
        Some(_) => Err(fault),
        None => draw_last(alloc, scroll, writer, view, fault),
    }
}

// Writes the picture of what was there before the fault of a line, where the last line is asked for.
fn draw_last<W: Write>(
    alloc: Global,
    scroll: &Scroll,
    writer: &mut W,
    view: View,
    fault: ReportFault,
) -> Result<(), ReportFault>
    ensures { (first : Start) (old : Option (List ℕ)) (script : List ℕ) → wanted first.until ≡ None →
        PlayStops first scroll.now old (W.contents writer.old) script fault →
        LinesDrawn (setting_of first.event_writer.session) (record { format = view.format; until = first.until })
        old (W.contents writer.new) script result }
{
    if !is_line_fault(&fault) {
        return Err(fault);
    }
    match write_picture(alloc, writer, scroll, view.format) {
        Ok(()) => Err(fault),
        Err(other) => Err(other),
    }
}

// Writes the picture.
fn write_picture<W: Write>(
    alloc: Global,
    writer: &mut W,
    scroll: &Scroll,
    format: Format,
) -> Result<(), ReportFault>
    ensures { (setting : Setting) (until : Asked) (lines : List (List ℕ))
        (far : Reached setting until scroll.now lines) →
        PictureTold format setting far.scene scroll.now.line.items
        (W.contents writer.old) (W.contents writer.new) result }
{
    let mut text = Vec::new(alloc);
    match push_picture(alloc, &mut text, scroll, format) {
        Ok(()) => put_out(writer, &text),
        Err(_) => Err(ReportFault::NoMemory),
    }
}

// Puts the picture into the empty text.
fn push_picture(
    alloc: Global,
    text: &mut Vec<u8>,
    scroll: &Scroll,
    format: Format,
) -> Result<(), LineStop>
    ensures { OnOk result ((names : Names) → Keeps scroll.now.event_writer.session.tables names →
        Calls scroll.now.event_writer.labels names → text.old.items ≡ [] →
        (history : List Entry) → Shows scroll.now.event_writer.session.core history →
        KnowsKept scroll.now.event_writer.session.core scroll.now.picture_state →
        HasSeen scroll.now.event_writer.session.core.pool history (known_in scroll.now.picture_state) →
        IsPicture format scroll.now.event_writer.session.core history names scroll.now.line.items
        scroll.now.event text.new.items) }
{
    let event = scroll.event.as_ref();
    let picture = picture_of(alloc, &scroll.event_writer, &scroll.picture_state, event)?;
    push_format(text, &scroll.event_writer, &picture, &scroll.line, format)
}

// Appends the picture, where the last event has this line.
fn push_format(
    text: &mut Vec<u8>,
    event_writer: &EventWriter,
    picture: &Picture,
    line: &[u8],
    format: Format,
) -> Result<(), LineStop>
    ensures { OnOk result ((names : Names) → Keeps event_writer.now.session.tables names →
        Calls event_writer.now.labels names → text.new.items ≡ text.old.items
        ++ picture_in format event_writer.now.session.core names line.now picture.now) }
{
    match format {
        Format::Text => push_text(text, event_writer, picture, line),
        Format::Dot => push_dot(text, event_writer, picture, line),
        Format::Svg => push_svg(text, event_writer, picture, line),
    }
}

impl Scroll {
    // No line was played.
    fn new(
        alloc: Global,
        seed: [u8; 16],
        pages: u32,
        limits: Limits,
        until: Until,
    ) -> Result<Scroll, NoMemory>
        requires { (1 ≤ pages) × (pages ≤ MAX_PAGES) }
        ensures pool { IfOk result (λ scroll. scroll.event_writer.session.core.pool ≡ pages) }
        ensures limits { IfOk result (λ scroll. scroll.event_writer.session.core.limits ≡ limits) }
        ensures until { IfOk result (λ scroll. scroll.until ≡ until) }
        ensures start { IfOk result (λ scroll. none_wanted until ≡ None → PlayedFrom scroll scroll true [] []) }
    {
        let event_writer = EventWriter::new(alloc, seed, pages, limits)?;
        let picture_state = PictureState::new(alloc);
        let line = Vec::new(alloc);
        Ok(Scroll {
            event_writer,
            picture_state,
            limits,
            until,
            event: None,
            line,
            reply: Vec::new(alloc),
        })
    }

    // Whether what is asked for was reached, where so many lines were played.
    fn is_at(&self, lines: u64) -> bool
        ensures { (setting : Setting) (played : List (List ℕ))
            (far : Reached setting self.now.until self.now played) →
            lines ≡ length played →
            result ≡ is_reached (asked_number self.now.until) (found self.now.until setting.pool played far.scene) }
    {
        match self.until {
            Until::Last => false,
            Until::Event(number) => number == self.event_writer.session.core.events(),
            Until::Line(number) => number == lines,
            Until::Failure(number) => number == self.event_writer.failures,
        }
    }

    // Plays one more line. Where it can't, but for want of memory, nothing changes.
    fn play_line(&mut self, alloc: Global, line: &[u8]) -> Result<(), LineStop>
        ensures ok { OnOk result (PlaysLine self.old self.new line.now) }
        ensures until { self.new.until ≡ self.old.until }
        ensures same { IfErr result (λ stop. stop ≢ LineStop.NoMemory → self.new ≡ self.old) }
        ensures err { IfErr result (λ stop. (setting : Setting) (until : Asked)
            (lines : List (List ℕ)) (far : Reached setting until self.old lines) →
            IsHeldUp setting far.scene line.now stop) }
    {
        if is_indented(line) {
            return Ok(());
        }
        match self.event_writer.session.read(line) {
            Some(act) => self.take_act(alloc, act, line),
            None => Err(LineStop::BadLine),
        }
    }

    // Makes one more call, if the line asks for one, which is not indented. Where it can't, but for want of
    // memory, nothing changes.
    fn take_act(&mut self, alloc: Global, act: Act, line: &[u8]) -> Result<(), LineStop>
        ensures ok { OnOk result ((setting : Setting) (until : Asked) (lines : List (List ℕ))
            (far : Reached setting until self.old lines) → AsksFor far.scene line.now act →
            IsAhead until setting.pool lines far.scene →
            Reached setting until self.new (lines ++ line.now ∷ [])) }
        ensures until { self.new.until ≡ self.old.until }
        ensures same { IfErr result (λ stop. stop ≢ LineStop.NoMemory → self.new ≡ self.old) }
        ensures err { IfErr result (λ stop. (setting : Setting) (until : Asked)
            (lines : List (List ℕ)) (far : Reached setting until self.old lines) →
            AsksFor far.scene line.now act → IsHeldUp setting far.scene line.now stop) }
    {
        match act {
            Act::Ask {
                client,
                call,
                binds,
            } => {
                if self.is_full() {
                    return Err(LineStop::HistoryFull);
                }
                self.make(alloc, client, call, binds, line)
            }
            Act::Nothing => Ok(()),
            Act::Poll(_) => Ok(()),
            Act::Show(_) => Ok(()),
        }
    }

    // Whether as many events were made as may be.
    fn is_full(&self) -> bool
        ensures { result ≡ nat_le self.now.limits.events self.now.event_writer.session.core.events }
    {
        self.limits.events() <= self.event_writer.session.core.events()
    }

    // Makes one more call, that of this line. It fails for want of memory alone.
    fn make(
        &mut self,
        alloc: Global,
        client: ClientId,
        call: Call,
        binds: Binds,
        line: &[u8],
    ) -> Result<(), LineStop>
        ensures ok { OnOk result (LineMakesCall self.old self.new client call binds line.now) }
        ensures until { self.new.until ≡ self.old.until }
        ensures err { IfErr result (λ stop. stop ≡ LineStop.NoMemory) }
    {
        match self.take_call(alloc, client, call, binds) {
            Ok(()) => {}
            Err(_) => return Err(LineStop::NoMemory),
        }
        self.line.clear();
        match self.line.extend_from_slice(line) {
            Ok(()) => Ok(()),
            Err(_) => Err(LineStop::NoMemory),
        }
    }

    // Makes one more call, and keeps its event.
    fn take_call(
        &mut self,
        alloc: Global,
        client: ClientId,
        call: Call,
        binds: Binds,
    ) -> Result<(), LineStop>
        ensures setting { OnOk result ((scene : Scene) → IsAt self.old.event_writer.session scene →
            IsSameSetting self.old.event_writer.session self.new.event_writer.session) }
        ensures limits { OnOk result (self.new.limits ≡ self.old.limits) }
        ensures until { self.new.until ≡ self.old.until }
        ensures made { OnOk result
            (MakesEvent self.old.event_writer self.new.event_writer self.new.event client call binds) }
        ensures seen { OnOk result (IfSome self.new.event (TakesIn self.old self.new call)) }
        ensures kept { OnOk result ((scene : Scene) → Knows self.old.event_writer scene →
            KnowsKept self.old.event_writer.session.core self.old.picture_state →
            KnowsKept self.new.event_writer.session.core self.new.picture_state) }
        ensures failures { OnOk result
            (self.new.event_writer.failures ≤ self.old.event_writer.failures + 1) }
    {
        let named = named_collection(&self.event_writer.session.core, &call);
        let event = self
            .event_writer
            .take(alloc, client, call, binds, &mut self.reply)?;
        keep(
            alloc,
            &self.event_writer,
            &mut self.picture_state,
            &mut self.event,
            named,
            event,
        )?;
        Ok(())
    }
}

impl TakesLines for Scroll {
    ghost use Rattle.script_draw.specs.Reached.{PlayedFrom, Unplayed};

    ghost took = { PlayedFrom };

    ghost refuses = { Unplayed };

    fn take_line(
        &mut self,
        alloc: Global,
        number: u64,
        line: &[u8],
        _text: &mut Vec<u8>,
    ) -> Result<bool, ReportFault> {
        match self.play_line(alloc, line) {
            Ok(()) => Ok(!self.is_at(number)),
            Err(stop) => {
                let tables = &self.event_writer.session.tables;
                Err(fault_of(alloc, stop, tables, number, line))
            }
        }
    }
}

// Takes the event into the picture state, where its call named this collection, and keeps it as the last.
fn keep(
    alloc: Global,
    event_writer: &EventWriter,
    picture_state: &mut PictureState,
    last: &mut Option<Event>,
    named: Option<CollectionId>,
    event: Event,
) -> Result<(), LineStop>
    ensures last { OnOk result (last.new ≡ Some event) }
    ensures known { OnOk result ((id : ℕ) → known_in picture_state.new id ≡ known_after
        event_writer.now.session.core named event id (known_in picture_state.old id)) }
    ensures kept { OnOk result ((old : State) (client : ℕ) (call : CallMade)
        (history : List Entry) →
        Shows old history → IsEventOf old client call event →
        event_writer.now.session.core.pool ≡ old.pool →
        Shows event_writer.now.session.core (history ++ (client, call, event.reply) ∷ []) →
        KnowsKept old picture_state.old →
        KnowsKept event_writer.now.session.core picture_state.new) }
{
    let updated = picture_state.update(alloc, &event_writer.session.core, named, &event);
    *last = Some(event);
    updated
}
