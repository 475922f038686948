//! The replies that a transcript has, compared with those of a machine.
ghost use Rattle.std.specs.Prelude.{◌≡◌, ◌↔◌, ◌^◌, ◌<◌, ◌≤◌, ◌+◌, [], ◌∷◌, ◌++◌, List, ℕ, false, true, length};
ghost use Rattle.std.specs.Prelude.{IfErr, IfOk, IsTrue, OnErr, OnOk};
ghost use Rattle.report_io.specs.IndentedLines.{indented, is_indented as is_indented_line};
ghost use Rattle.report_io.specs.Takings.{Gains};
ghost use Rattle.sm_script.specs.Scenes.{Scene, Setting, as_line};
ghost use Rattle.sm_script.specs.Sessions.{setting_of};
ghost use Rattle.event_texts.specs.Deeds.{KeptLines};
ghost use Rattle.script_explain.specs.Comparisons.{Checks, IsSaid, IsUnchecked, Records, agreement_text, empty_words, legal_text, replies_word, told_difference};
ghost use Rattle.script_explain.specs.Progress.{Compared, ComparedFrom, IsCompared, VerdictTold, comparison_place, lines_counted};

use event_texts::EventWriter;
use report_io::{
    ReportFault, TakesLines, bad_line, behind_indent, fault_of, flush, is_indented, push_indented,
    put_out, take_lines,
};
use script_lines::{Part, push, push_parts};
use sm_names::{Limits, MAX_PAGES, NoMemory};
use std::alloc::{AllocError, Global};
use std::io::{Read, Write};

/// The result of comparing a transcript.
#[derive(Clone, Copy)]
pub enum CheckResult {
    /// Some replies are there, and each is the machine's.
    Agrees,
    /// The first that differs was written.
    Differs,
    /// No reply was compared.
    Empty,
}

// A transcript that is compared, up to some line.
#[derive(Drop)]
struct Comparison {
    event_writer: EventWriter,
    // The last line that was played, its number, what the machine answered, and the facts of its event.
    number: u64,
    line: Vec<u8>,
    reply: Vec<u8>,
    facts: Vec<u8>,
    // How many lines were played that have a reply, and how many replies compared.
    lines: u64,
    replies: u64,
}

/// Plays the lines of the transcript that the reader holds against a new core with a pool of `pages`
/// pages, and compares each reply that is there with the machine's. A line that begins with two spaces is
/// the reply to the line before it that begins with none; one that begins with four says nothing. Where
/// all agree, writes how many lines were played that have a reply and how many replies compared, or that no
/// reply or no line was; else the first that differs, with the machine's reply and the facts of the event. The whole
/// transcript is read before any line is judged.
///
/// On a fault nothing was written, but for `WriteFault`, where a first part of the text was. Costs what
/// `explain_script` costs.
pub fn check_script<R: Read, W: Write>(
    alloc: Global,
    seed: [u8; 16],
    reader: &mut R,
    writer: &mut W,
    pages: u32,
    limits: Limits,
) -> Result<CheckResult, ReportFault>
    requires { (1 ≤ pages) × (pages ≤ MAX_PAGES) }
    ensures { Checks (record { pool = pages; limits = limits })
        (R.remaining reader.old) (R.remaining reader.new)
        (W.contents writer.old) (W.contents writer.new) result }
{
    match Comparison::new(alloc, seed, pages, limits) {
        Ok(mut comparison) => check_all(alloc, &mut comparison, reader, writer),
        Err(_) => Err(ReportFault::NoMemory),
    }
}

// Compares the lines, up to the first that differs, and writes the verdict.
fn check_all<R: Read, W: Write>(
    alloc: Global,
    comparison: &mut Comparison,
    reader: &mut R,
    writer: &mut W,
) -> Result<CheckResult, ReportFault>
    requires { ComparedFrom comparison.old comparison.old true [] [] }
    ensures { Checks (setting_of comparison.old.event_writer.session) (R.remaining reader.old) (R.remaining reader.new)
        (W.contents writer.old) (W.contents writer.new) result }
{
    match take_lines(alloc, comparison, reader, writer) {
        Ok(true) => comparison.agree(alloc, writer),
        Ok(false) => match flush(writer) {
            Ok(()) => Ok(CheckResult::Differs),
            Err(fault) => Err(fault),
        },
        Err(fault) => Err(fault),
    }
}

impl Comparison {
    // No line was compared.
    fn new(
        alloc: Global,
        seed: [u8; 16],
        pages: u32,
        limits: Limits,
    ) -> Result<Comparison, NoMemory>
        requires { (1 ≤ pages) × (pages ≤ MAX_PAGES) }
        ensures pool { IfOk result (λ c. c.event_writer.session.core.pool ≡ pages) }
        ensures limits { IfOk result (λ c. c.event_writer.session.core.limits ≡ limits) }
        ensures start { IfOk result (λ c. ComparedFrom c c true [] []) }
    {
        let event_writer = EventWriter::new(alloc, seed, pages, limits)?;
        let line = Vec::new(alloc);
        let reply = Vec::new(alloc);
        let facts = Vec::new(alloc);
        Ok(Comparison {
            event_writer,
            number: 0,
            line,
            reply,
            facts,
            lines: 0,
            replies: 0,
        })
    }

    // Writes the verdict where all replies agree.
    fn agree<W: Write>(&self, alloc: Global, writer: &mut W) -> Result<CheckResult, ReportFault>
        ensures { (scene : Scene) (kept : KeptLines) → VerdictTold (comparison_place self.now scene kept)
            (W.contents writer.old) (W.contents writer.new) result }
    {
        let mut text = Vec::new(alloc);
        match self.push_verdict(&mut text) {
            Ok(verdict) => match put_out(writer, &text) {
                Ok(()) => Ok(verdict),
                Err(fault) => Err(fault),
            },
            Err(_) => Err(ReportFault::NoMemory),
        }
    }

    // Appends the verdict where all replies agree.
    fn push_verdict(&self, text: &mut Vec<u8>) -> Result<CheckResult, AllocError>
        ensures { IfOk result (λ verdict. (scene : Scene) (kept : KeptLines) →
            IsSaid verdict (comparison_place self.now scene kept) text.old.items text.new.items) }
    {
        if self.replies == 0 {
            push(text, words_of_none(self.lines))?;
            return Ok(CheckResult::Empty);
        }
        self.push_agreement(text)?;
        Ok(CheckResult::Agrees)
    }

    // Plays the line of this number.
    fn play(&mut self, alloc: Global, number: u64, line: &[u8]) -> Result<(), ReportFault>
        requires { number < 2 ^ 64 }
        ensures ok { OnOk result ((setting : Setting) (lines : List (List ℕ)) →
            is_indented_line line.now ≡ false → Compared setting self.old lines →
            number ≡ length lines + 1 → Compared setting self.new (lines ++ line.now ∷ [])) }
        ensures err { IfErr result (λ fault. (setting : Setting) (lines : List (List ℕ)) (text : List ℕ) →
            is_indented_line line.now ≡ false → IsCompared setting self.old true lines text →
            number ≡ length lines + 1 → IsUnchecked setting lines text line.now fault) }
    {
        self.number = number;
        self.line.clear();
        match self.line.extend_from_slice(line) {
            Ok(()) => {}
            Err(_) => return Err(ReportFault::NoMemory),
        }
        match self
            .event_writer
            .answer(alloc, number, line, &mut self.reply, &mut self.facts)
        {
            Ok(()) => {
                self.lines = counted(self.lines, &self.reply);
                Ok(())
            }
            Err(stop) => {
                Err(fault_of(alloc, stop, &self.event_writer.session.tables, number, line))
            }
        }
    }

    // Compares the reply that the line of this number records with the machine's. Whether they are the same: if not, appends what
    // is told of it.
    fn compare(
        &mut self,
        alloc: Global,
        number: u64,
        recorded: &[u8],
        text: &mut Vec<u8>,
    ) -> Result<bool, ReportFault>
        requires { number < 2 ^ 64 }
        ensures ok { IfOk result (λ same. (setting : Setting) (lines : List (List ℕ)) (line whole : List ℕ) →
            Records line recorded.now → IsCompared setting self.old true lines whole → number ≡ length lines + 1 →
            Gains (IsCompared setting self.new same (lines ++ line ∷ [])) whole text.old.items text.new.items) }
        ensures kept { OnErr result (text.new.items ≡ text.old.items) }
        ensures err { IfErr result (λ fault. (setting : Setting) (lines : List (List ℕ)) (line whole : List ℕ) →
            Records line recorded.now → IsCompared setting self.old true lines whole → number ≡ length lines + 1 →
            IsUnchecked setting lines whole line fault) }
    {
        if is_line_of(&self.reply, recorded) {
            self.replies = self.replies.saturating_add(1);
            return Ok(true);
        }
        if self.lines == 0 {
            let words = "a reply stands before the first line that has one";
            return Err(bad_line(alloc, number, words));
        }
        match self.tell_difference(alloc, recorded, text) {
            Ok(()) => Ok(false),
            Err(_) => Err(ReportFault::NoMemory),
        }
    }

    // Appends that all replies agree.
    fn push_agreement(&self, text: &mut Vec<u8>) -> Result<(), AllocError>
        ensures { OnOk result ((scene : Scene) (kept : KeptLines) → text.new.items
            ≡ text.old.items ++ agreement_text (comparison_place self.now scene kept)) }
    {
        push_parts(
            text,
            &[
                Part::Word("agrees: "),
                Part::Counted(self.lines, "line"),
                Part::Word(", "),
                Part::Number(self.replies),
                Part::Word(replies_word(self.replies)),
            ],
        )
    }

    // Appends the last line, with the reply that is recorded, and that of the machine, and the
    // facts of its event; nothing where memory is refused.
    fn tell_difference(
        &self,
        alloc: Global,
        recorded: &[u8],
        text: &mut Vec<u8>,
    ) -> Result<(), AllocError>
        ensures ok { OnOk result (text.new.items ≡ text.old.items
            ++ (told_difference self.now.number self.now.line.items self.now.reply.items recorded.now
            ++ indented self.now.facts.items)) }
        ensures kept { OnErr result (text.new.items ≡ text.old.items) }
    {
        let mut told = Vec::new(alloc);
        push_difference(&mut told, self.number, &self.line, &self.reply, recorded)?;
        push_indented(&mut told, &self.facts)?;
        text.extend_from_slice(&told)
    }
}

impl TakesLines for Comparison {
    ghost use Rattle.script_explain.specs.Progress.{ComparedFrom, Unchecked};

    ghost took = { ComparedFrom };

    ghost refuses = { Unchecked };

    fn take_line(
        &mut self,
        alloc: Global,
        number: u64,
        line: &[u8],
        text: &mut Vec<u8>,
    ) -> Result<bool, ReportFault> {
        match behind_indent(line) {
            None => match self.play(alloc, number, line) {
                Ok(()) => Ok(true),
                Err(fault) => Err(fault),
            },
            Some(recorded) => {
                if is_indented(recorded) {
                    return Ok(true);
                }
                self.compare(alloc, number, recorded, text)
            }
        }
    }
}

// How many lines were played that have a reply, where one more has this reply.
fn counted(lines: u64, reply: &[u8]) -> u64
    ensures { result ≡ lines_counted lines reply.now }
{
    if reply.is_empty() {
        lines
    } else {
        lines.saturating_add(1)
    }
}

// What is told where no reply was compared, after so many lines that have one.
fn words_of_none(lines: u64) -> &'static str
    ensures { result.now ≡ empty_words lines }
{
    if lines == 0 {
        "no line was played\n"
    } else {
        "no reply is recorded\n"
    }
}

// The word behind this number of replies.
fn replies_word(replies: u64) -> &'static str
    ensures { result.now ≡ replies_word replies }
{
    if replies == 1 {
        " reply\n"
    } else {
        " replies\n"
    }
}

// Appends a line and its number, the reply that is recorded, and that of the machine.
fn push_difference<'a>(
    text: &mut Vec<u8>,
    number: u64,
    line: &'a [u8],
    reply: &'a [u8],
    recorded: &'a [u8],
) -> Result<(), AllocError>
    ensures { OnOk result (text.new.items ≡ text.old.items
        ++ told_difference number line.now reply.now recorded.now) }
{
    push_parts(
        text,
        &[
            Part::Word("line "),
            Part::Number(number),
            Part::Word(": "),
            Part::Bytes(line),
            Part::Word("\n  recorded  "),
            Part::Bytes(recorded),
            Part::Word("\n  legal     "),
            Part::Bytes(legal_reply(reply)),
        ],
    )
}

// The text that a difference shows as the legal reply: `no reply` if the line has none.
fn legal_reply(reply: &[u8]) -> &[u8]
    ensures { result.now ≡ legal_text reply.now }
{
    if reply.is_empty() {
        b"no reply\n".as_slice()
    } else {
        reply
    }
}

// Whether the reply is this text, as a line.
fn is_line_of(reply: &[u8], text: &[u8]) -> bool
    ensures { IsTrue result ↔ (reply.now ≡ as_line text.now) }
{
    match reply.split_last() {
        Some((last, front)) => *last == b'\n' && front == text,
        None => false,
    }
}
