//! Each line of a script with its reply, and indented the facts of its event. A line is explained
//! in a buffer of its own, which is then appended to the text: if memory is refused, the text still
//! ends with a whole line.
ghost use Rattle.std.specs.Prelude.{◌≡◌, ◌==◌, ◌||◌, not, ◌≤◌, [], ◌++◌, true, IfErr, IfOk, OnErr, OnOk};
ghost use Rattle.sm_script.specs.Scenes.{Scene};
ghost use Rattle.sm_script.specs.Sessions.{IsAt, IsStopped, setting_of};
ghost use Rattle.event_texts.specs.Called.{Knows};
ghost use Rattle.event_texts.specs.Deeds.{KeptLines, Recalls};
ghost use Rattle.event_texts.specs.EventLines.{TellsLine};
ghost use Rattle.script_explain.specs.Explanations.{Explains};
ghost use Rattle.script_explain.specs.Progress.{SummaryTold, Explained, failing_since, seen_summary, told_between};
ghost use Rattle.script_explain.specs.ExplainedLines.{if_told, indent, line_with_reply, numbered_facts, told_line};

use crate::seen::Seen;
use crate::summary::put_summary;
use report_io::{ReportFault, TakesLines, fault_of, flush, is_indented, push_indented, take_lines};
use script_labels::LineStop;
use script_lines::{Pages, Part, push_parts};
use sm_names::{Limits, MAX_PAGES, NoMemory};
use std::alloc::{AllocError, Global};
use std::io::{Read, Write};

// What is known of the lines so far, and how much is told of a line.
#[derive(Drop)]
struct Explainer {
    seen: Seen,
    only_failures: bool,
    // Those of the line at hand: its reply, its facts, these behind the numbers of event and line, and its
    // text.
    reply: Vec<u8>,
    facts: Vec<u8>,
    numbered: Vec<u8>,
    piece: Vec<u8>,
}

/// How much is told of a script.
#[derive(Clone, Copy)]
pub struct Scope {
    /// Only the lines whose event made a node fail.
    pub only_failures: bool,
    /// A summary too, behind the lines.
    pub has_summary: bool,
}

/// The pages of the pool, and how much is told.
#[derive(Clone, Copy)]
pub struct ExplainJob {
    /// The size of the pool.
    pub pages: Pages,
    /// What is told of the script.
    pub scope: Scope,
}

/// Runs the script that the reader holds against a new core with a pool of the job's pages, and writes each
/// line as it is, two spaces and the line's reply, if it has one, and four spaces and each fact that its
/// event came to, behind one with the numbers of the event and of the line. With `only_failures` it writes
/// only the lines whose event made a node fail. Lines that begin with two spaces are passed over: they count as lines. The whole script
/// is read before any line is judged. With `has_summary` a summary follows, behind four spaces: how many events
/// there were, in which nodes failed, how many pages are held and who keeps them, and which trackers wait.
///
/// On a fault there is no summary, and the output is the text of the whole lines before the one at which it
/// came:
/// - `ReadFault`, `TooLong`: the reader failed, or the script has more than `MOST_BYTES` bytes; nothing
///   was written.
/// - `WriteFault`: the writer failed, or took nothing, or could not be flushed. A first part of the text
///   was written, or all of it and a first part of the summary.
/// - `BadLine`: this line is bad, with the reason that `report_io::fault_of` gives, or is the last one and has no end.
/// - `HistoryFull`: the line makes a call, and as many events were made as may be.
/// - `NoMemory`: memory was refused.
///
/// Labels and the core's counts are hashed from the seed, best of random bytes: it changes what a line
/// costs, and nothing that is written. A line that changes no collection costs what `run_script` costs and
/// its text; any other a copy of its collection, a list of the held buffers, and for each step that it
/// forces O(n log n) for the n nodes of the collection. A summary costs what `EventWriter::push_summary` does.
pub fn explain_script<R: Read, W: Write>(
    alloc: Global,
    seed: [u8; 16],
    reader: &mut R,
    writer: &mut W,
    job: ExplainJob,
    limits: Limits,
) -> Result<(), ReportFault>
    ensures { Explains (record { pool = job.pages.count; limits = limits }) job.scope
        (R.remaining reader.old) (R.remaining reader.new)
        (W.contents writer.old) (W.contents writer.new) result }
{
    let Scope {
        only_failures,
        has_summary,
    } = job.scope;
    match Explainer::new(alloc, seed, job.pages.count, limits, only_failures) {
        Ok(mut explainer) => explain_all(alloc, &mut explainer, reader, writer, has_summary),
        Err(_) => Err(ReportFault::NoMemory),
    }
}

// Explains the lines, and writes all of their text, and the summary behind it, if one is asked for.
fn explain_all<R: Read, W: Write>(
    alloc: Global,
    explainer: &mut Explainer,
    reader: &mut R,
    writer: &mut W,
    has_summary: bool,
) -> Result<(), ReportFault>
    requires { Explained explainer.old explainer.old true [] [] }
    ensures { Explains (setting_of explainer.old.seen.event_writer.session)
        (record { only_failures = explainer.old.only_failures; has_summary = has_summary })
        (R.remaining reader.old) (R.remaining reader.new)
        (W.contents writer.old) (W.contents writer.new) result }
{
    match take_lines(alloc, explainer, reader, writer) {
        Ok(_) => end(alloc, &explainer.seen, writer, has_summary),
        Err(fault) => Err(fault),
    }
}

// Writes the summary, if one is asked for.
fn end<W: Write>(
    alloc: Global,
    seen: &Seen,
    writer: &mut W,
    has_summary: bool,
) -> Result<(), ReportFault>
    ensures { (scene : Scene) → Knows seen.now.event_writer scene →
        SummaryTold (W.contents writer.old) (W.contents writer.new) (if_told has_summary (seen_summary seen.now scene)) result }
{
    if has_summary {
        put_summary(alloc, seen, writer)
    } else {
        flush(writer)
    }
}

impl Explainer {
    // No line was explained.
    fn new(
        alloc: Global,
        seed: [u8; 16],
        pages: u32,
        limits: Limits,
        only_failures: bool,
    ) -> Result<Explainer, NoMemory>
        requires { (1 ≤ pages) × (pages ≤ MAX_PAGES) }
        ensures pool { IfOk result (λ explainer. explainer.seen.event_writer.session.core.pool ≡ pages) }
        ensures limits { IfOk result (λ explainer. explainer.seen.event_writer.session.core.limits ≡ limits) }
        ensures scope { IfOk result (λ explainer. explainer.only_failures ≡ only_failures) }
        ensures start { IfOk result (λ explainer. Explained explainer explainer true [] []) }
    {
        let seen = Seen::new(alloc, seed, pages, limits)?;
        Ok(Explainer {
            seen,
            only_failures,
            reply: Vec::new(alloc),
            facts: Vec::new(alloc),
            numbered: Vec::new(alloc),
            piece: Vec::new(alloc),
        })
    }

    // Appends the explanation of the line of this number, or if only failures are told, only if a node
    // failed in its event; nothing where it is stopped.
    fn explain(
        &mut self,
        alloc: Global,
        number: u64,
        line: &[u8],
        text: &mut Vec<u8>,
    ) -> Result<(), LineStop>
        ensures text { OnOk result (text.new.items ≡ text.old.items
            ++ told_between self.old.only_failures self.old.seen.event_writer self.new.seen.event_writer number
            line.now self.new.reply.items self.new.facts.items) }
        ensures tells { OnOk result ((scene : Scene) (kept : KeptLines) →
            Knows self.old.seen.event_writer scene → Recalls self.old.seen.event_writer kept →
            TellsLine self.old.seen.event_writer self.new.seen.event_writer number line.now
            self.new.reply.items self.new.facts.items scene kept) }
        ensures failing { OnOk result (self.new.seen.failing.items ≡ self.old.seen.failing.items
            ++ failing_since self.old.seen.event_writer.failures self.new.seen.event_writer) }
        ensures scope { self.new.only_failures ≡ self.old.only_failures }
        ensures kept { OnErr result (text.new.items ≡ text.old.items) }
        ensures err { IfErr result (λ stop. (scene : Scene) →
            IsAt self.old.seen.event_writer.session scene →
            IsStopped self.old.seen.event_writer.session line.now scene stop) }
        ensures same { IfErr result (λ stop. (scene : Scene) →
            IsAt self.old.seen.event_writer.session scene → stop ≡ LineStop.BadLine →
            self.new.seen.event_writer.session ≡ self.old.seen.event_writer.session) }
    {
        let failures = self.seen.event_writer.failures;
        match self
            .seen
            .answer(alloc, number, line, &mut self.reply, &mut self.facts)
        {
            Ok(()) => {}
            Err(stop) => return Err(stop),
        }
        if is_told(
            self.only_failures,
            failures,
            self.seen.event_writer.failures,
        ) {
            match self.tell(number, line, text) {
                Ok(()) => Ok(()),
                Err(_) => Err(LineStop::NoMemory),
            }
        } else {
            Ok(())
        }
    }

    // Appends the line of this number, with its reply and the facts of its event; nothing where memory is
    // refused.
    fn tell(&mut self, number: u64, line: &[u8], text: &mut Vec<u8>) -> Result<(), AllocError>
        ensures text { OnOk result (text.new.items ≡ text.old.items
            ++ told_line line.now self.old.reply.items (numbered_facts
            self.old.seen.event_writer.session.core.events number self.old.facts.items)) }
        ensures kept { OnErr result (text.new.items ≡ text.old.items) }
        ensures seen { self.new.seen ≡ self.old.seen }
        ensures scope { self.new.only_failures ≡ self.old.only_failures }
        ensures reply { self.new.reply ≡ self.old.reply }
        ensures facts { self.new.facts ≡ self.old.facts }
    {
        let event = self.seen.event_writer.session.core.events();
        self.numbered.clear();
        self.piece.clear();
        push_numbered(&mut self.numbered, event, number, &self.facts)?;
        push_told(&mut self.piece, line, &self.reply, &self.numbered)?;
        text.extend_from_slice(&self.piece)
    }
}

impl TakesLines for Explainer {
    ghost use Rattle.script_explain.specs.Progress.{Unexplained, Explained};

    ghost took = { Explained };

    ghost refuses = { Unexplained };

    fn take_line(
        &mut self,
        alloc: Global,
        number: u64,
        line: &[u8],
        text: &mut Vec<u8>,
    ) -> Result<bool, ReportFault> {
        if is_indented(line) {
            return Ok(true);
        }
        match self.explain(alloc, number, line, text) {
            Ok(()) => Ok(true),
            Err(stop) => {
                let tables = &self.seen.event_writer.session.tables;
                Err(fault_of(alloc, stop, tables, number, line))
            }
        }
    }
}

// Whether a line is told between which so many events had failures: all are, or those that add one.
fn is_told(only_failures: bool, before: u64, after: u64) -> bool
    ensures { result ≡ (not only_failures || not (after == before)) }
{
    !only_failures || after != before
}

// Appends the facts, behind a line with the numbers of their event and of its line; nothing where there are none.
fn push_numbered(
    text: &mut Vec<u8>,
    event: u64,
    number: u64,
    facts: &[u8],
) -> Result<(), AllocError>
    ensures { OnOk result
        (text.new.items ≡ text.old.items ++ numbered_facts event number facts.now) }
{
    if facts.is_empty() {
        return Ok(());
    }
    push_parts(
        text,
        &[
            Part::Word("event   "),
            Part::Number(event),
            Part::Word(", line "),
            Part::Number(number),
            Part::Word("\n"),
            Part::Bytes(facts),
        ],
    )
}

// Appends the line, below it its reply, and then the facts.
fn push_told(text: &mut Vec<u8>, line: &[u8], reply: &[u8], facts: &[u8]) -> Result<(), AllocError>
    ensures { OnOk result
        (text.new.items ≡ text.old.items ++ told_line line.now reply.now facts.now) }
{
    push_line(text, line, reply)?;
    push_indented(text, facts)
}

// Appends the line, and below it its reply, which is a line of its own, if it has one.
fn push_line<'a>(text: &mut Vec<u8>, line: &'a [u8], reply: &'a [u8]) -> Result<(), AllocError>
    ensures { OnOk result (text.new.items ≡ text.old.items ++ line_with_reply line.now reply.now) }
{
    push_parts(
        text,
        &[
            Part::Bytes(line),
            Part::Word("\n"),
            Part::Word(indent_of(reply)),
            Part::Bytes(reply),
        ],
    )
}

// What stands before the reply: two spaces, if there is one.
fn indent_of(reply: &[u8]) -> &'static str
    ensures { result.now ≡ indent reply.now }
{
    if reply.is_empty() { "" } else { "  " }
}
