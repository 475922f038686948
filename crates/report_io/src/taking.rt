//! The lines of a script are taken one after another, and their text is written.
ghost use Rattle.std.specs.Prelude.{◌≡◌, ◌≢◌, ◌⊎◌, ◌+◌, ◌^◌, ◌<◌, ◌≤◌, [], ◌∷◌, ◌++◌, Bool, ℕ, List, length, true};
ghost use Rattle.std.specs.Prelude.{IfErr, IfOk, OnErr, OnOk, Ok};
ghost use Rattle.std.specs.Io.KnownBytes.{Appends};
ghost use Rattle.script_lines.specs.Pieces.{lines_from, rest_from};
ghost use Rattle.report_io.specs.declared.fault.ReportFault.{ReportFault as Fault};
ghost use Rattle.report_io.specs.Faults.{HasReason, IsBadLine};
ghost use Rattle.report_io.specs.Reasons.{unended_reason};
ghost use Rattle.report_io.specs.Streams.{Reads};
ghost use Rattle.report_io.specs.Takings.{BreaksOff, Fails, Gains, GivesUp, Goes, GoesOn, Halts, ScriptComes};

use crate::fault::{ReportFault, unended};
use crate::reading::{behind, read_script};
use script_lines::{MOST_BYTES, line_end, write_out};
use std::alloc::Global;
use std::io::{Read, Write};

// Text is written once it has this many bytes.
const ENOUGH: usize = 65_536;

/// Takes the lines of a script, one after another.
pub trait TakesLines {
    // From this first state on these lines were taken, with this text, up to that state; more are taken, or none.
    ghost took: { Self → Self → Bool → List (List ℕ) → List ℕ → Type 0 };

    // From this first state on these lines were taken, with this text, and then this line is not, for this fault.
    ghost refuses: { Self → Self → List (List ℕ) → List ℕ → List ℕ → Fault → Type 0 };

    /// Takes the line of this number, and appends its text, of which there is none where the line is not taken. Whether more
    /// lines are taken behind it.
    fn take_line(
        &mut self,
        alloc: Global,
        number: u64,
        line: &[u8],
        text: &mut Vec<u8>,
    ) -> Result<bool, ReportFault>
        ensures ok { IfOk result (λ more. (first : Self) (lines : List (List ℕ)) (whole : List ℕ) →
            took first self.old true lines whole → number ≡ length lines + 1 →
            Gains (took first self.new more (lines ++ line.now ∷ [])) whole text.old.items text.new.items) }
        ensures kept { OnErr result (text.new.items ≡ text.old.items) }
        ensures err { IfErr result (λ fault. (fault ≡ Fault.NoMemory)
            ⊎ ((first : Self) (lines : List (List ℕ)) (whole : List ℕ) →
            took first self.old true lines whole → number ≡ length lines + 1 →
            refuses first self.new lines whole line.now fault)) };
}

/// How many lines were taken, and their text that is not written yet.
#[derive(Drop)]
pub struct Told {
    lines: u64,
    text: Vec<u8>,
}

/// How far a script is that comes in pieces: what was taken of it, and the front of the next line.
#[derive(Drop)]
pub struct Intake {
    told: Told,
    front: Vec<u8>,
}

// Writes the text, if there is any.
fn write_text<W: Write>(writer: &mut W, text: &[u8]) -> Result<(), ReportFault>
    ensures ok { OnOk result (Appends (W.contents writer.old) (W.contents writer.new) text.now) }
    ensures err { IfErr result (Fails (W.contents writer.old) (W.contents writer.new) text.now) }
{
    if text.is_empty() {
        return Ok(());
    }
    match write_out(writer, text) {
        Ok(()) => Ok(()),
        Err(fault) => Err(ReportFault::WriteFault(fault)),
    }
}

impl Told {
    // Writes the text that is not written yet.
    fn put_out<W: Write>(&mut self, writer: &mut W) -> Result<(), ReportFault>
        ensures ok { OnOk result
            (Appends (W.contents writer.old) (W.contents writer.new) self.old.text.items) }
        ensures empty { OnOk result (self.new.text.items ≡ []) }
        ensures same { self.new.lines ≡ self.old.lines }
        ensures err { IfErr result
            (Fails (W.contents writer.old) (W.contents writer.new) self.old.text.items) }
    {
        match write_text(writer, &self.text) {
            Ok(()) => {
                self.text.clear();
                Ok(())
            }
            Err(fault) => Err(fault),
        }
    }

    // Writes the text of the lines before the one that was not taken for this fault, and answers the fault to tell.
    fn give_up<W: Write>(&self, writer: &mut W, fault: ReportFault) -> ReportFault
        ensures { GivesUp (W.contents writer.old) (W.contents writer.new) self.now.text.items fault result }
    {
        match write_text(writer, &self.text) {
            Ok(()) => fault,
            Err(other) => other,
        }
    }

    // Takes one more line. Whether more are taken.
    fn take_line<T: TakesLines, W: Write>(
        &mut self,
        alloc: Global,
        taker: &mut T,
        writer: &mut W,
        line: &[u8],
    ) -> Result<bool, ReportFault>
        requires { self.old.lines + 1 < 2 ^ 64 }
        ensures ok { IfOk result (λ more. Goes T.took taker.old self.old (W.contents writer.old)
            taker.new more self.new (W.contents writer.new) (line.now ∷ [])) }
        ensures counted { OnOk result (self.new.lines ≡ self.old.lines + 1) }
        ensures err { IfErr result (Halts T.took taker.old self.old (W.contents writer.old)
            T.refuses taker.new (W.contents writer.new) (line.now ∷ [])) }
    {
        let more = match taker.take_line(alloc, self.lines + 1, line, &mut self.text) {
            Ok(more) => more,
            Err(fault) => return Err(self.give_up(writer, fault)),
        };
        self.lines += 1;
        if self.text.len() < ENOUGH {
            return Ok(more);
        }
        match self.put_out(writer) {
            Ok(()) => Ok(more),
            Err(fault) => Err(fault),
        }
    }
}

impl Intake {
    /// Nothing came.
    pub fn new(alloc: Global) -> Intake
        ensures lines { result.told.lines ≡ 0 }
        ensures text { result.told.text.items ≡ [] }
        ensures front { result.front.items ≡ [] }
    {
        Intake {
            told: Told {
                lines: 0,
                text: Vec::new(alloc),
            },
            front: Vec::new(alloc),
        }
    }

    // Takes the line whose front came in earlier pieces, and whose end came in this one.
    fn end_line<T: TakesLines, W: Write>(
        &mut self,
        alloc: Global,
        taker: &mut T,
        writer: &mut W,
        line: &[u8],
    ) -> Result<bool, ReportFault>
        requires { self.old.told.lines + 1 < 2 ^ 64 }
        ensures ok { IfOk result (λ more. Goes T.took taker.old self.old.told (W.contents writer.old)
            taker.new more self.new.told (W.contents writer.new) ((self.old.front.items ++ line.now) ∷ [])) }
        ensures counted { OnOk result (self.new.told.lines ≡ self.old.told.lines + 1) }
        ensures empty { OnOk result (self.new.front.items ≡ []) }
        ensures err { IfErr result (Halts T.took taker.old self.old.told (W.contents writer.old)
            T.refuses taker.new (W.contents writer.new) ((self.old.front.items ++ line.now) ∷ [])) }
    {
        if self.front.is_empty() {
            return self.told.take_line(alloc, taker, writer, line);
        }
        match self.front.extend_from_slice(line) {
            Ok(()) => {}
            Err(_) => return Err(self.told.give_up(writer, ReportFault::NoMemory)),
        }
        match self.told.take_line(alloc, taker, writer, &self.front) {
            Ok(more) => {
                self.front.clear();
                Ok(more)
            }
            Err(fault) => Err(fault),
        }
    }

    // Takes all lines that end in the piece, and keeps the front of the line that does not end. Whether more are taken.
    fn take_piece<T: TakesLines, W: Write>(
        &mut self,
        alloc: Global,
        taker: &mut T,
        writer: &mut W,
        piece: &[u8],
    ) -> Result<bool, ReportFault>
        requires { self.old.told.lines + length piece.now + 1 < 2 ^ 64 }
        ensures ok { IfOk result (GoesOn T.took taker.old self.old.told (W.contents writer.old)
            taker.new self.new.told (W.contents writer.new) (lines_from self.old.front.items piece.now)) }
        ensures few { OnOk result (self.new.told.lines ≤ self.old.told.lines + length piece.now) }
        ensures rest { result ≡ Ok true → self.new.front.items ≡ rest_from self.old.front.items piece.now }
        ensures err { IfErr result (BreaksOff T.took taker.old self.old.told (W.contents writer.old)
            T.refuses taker.new (W.contents writer.new) (lines_from self.old.front.items piece.now)
            (rest_from self.old.front.items piece.now)) }
    {
        let mut rest = piece;
        'lines: while let Some(at) = line_end(rest) {
            match self.end_line(alloc, taker, writer, &rest[..at]) {
                Ok(true) => rest = behind(rest, at),
                Ok(false) => return Ok(false),
                Err(fault) => return Err(fault),
            }
        }
        if rest.is_empty() {
            return Ok(true);
        }
        match self.front.extend_from_slice(rest) {
            Ok(()) => Ok(true),
            Err(_) => Err(self.told.give_up(writer, ReportFault::NoMemory)),
        }
    }

    /// Takes all lines that end in the piece, and writes their text. Whether more are taken behind them.
    ///
    /// On a fault what was written is the text of exactly the lines before the one that was not taken, or a first part of the
    /// text of some lines. Costs what the taker does for each line, and O(n) for a piece of n bytes and for their text.
    pub fn take<T: TakesLines, W: Write>(
        &mut self,
        alloc: Global,
        taker: &mut T,
        writer: &mut W,
        piece: &[u8],
    ) -> Result<bool, ReportFault>
        requires { self.old.told.lines + length piece.now + 1 < 2 ^ 64 }
        ensures ok { IfOk result (GoesOn T.took taker.old self.old.told (W.contents writer.old)
            taker.new self.new.told (W.contents writer.new) (lines_from self.old.front.items piece.now)) }
        ensures few { OnOk result (self.new.told.lines ≤ self.old.told.lines + length piece.now) }
        ensures rest { result ≡ Ok true → self.new.front.items ≡ rest_from self.old.front.items piece.now }
        ensures empty { OnOk result (self.new.told.text.items ≡ []) }
        ensures err { IfErr result (BreaksOff T.took taker.old self.old.told (W.contents writer.old)
            T.refuses taker.new (W.contents writer.new) (lines_from self.old.front.items piece.now)
            (rest_from self.old.front.items piece.now)) }
    {
        match self.take_piece(alloc, taker, writer, piece) {
            Ok(more) => match self.told.put_out(writer) {
                Ok(()) => Ok(more),
                Err(fault) => Err(fault),
            },
            Err(fault) => Err(fault),
        }
    }

    /// Whether the last line that came has an end: if not, it is a bad one. Costs O(1).
    pub fn end(&self, alloc: Global) -> Result<(), ReportFault>
        requires { self.now.told.lines + 1 < 2 ^ 64 }
        ensures ok { OnOk result (self.now.front.items ≡ []) }
        ensures some { OnErr result (self.now.front.items ≢ []) }
        ensures line { IfErr result (IsBadLine (self.now.told.lines + 1)) }
        ensures reason { IfErr result (HasReason unended_reason) }
    {
        if self.front.is_empty() {
            Ok(())
        } else {
            Err(unended(alloc, self.told.lines + 1))
        }
    }
}

/// Takes the lines of the script, up to the last, or to one behind which no more are taken, and writes their text. Whether more
/// would be taken. Costs and faults are those of `take_lines`, without the reader's.
pub fn take_script<T: TakesLines, W: Write>(
    alloc: Global,
    taker: &mut T,
    writer: &mut W,
    script: &[u8],
) -> Result<bool, ReportFault>
    requires small { length script.now ≤ MOST_BYTES }
    requires start { T.took taker.old taker.old true [] [] }
    ensures { ScriptComes (T.took taker.old) (T.refuses taker.old) taker.new
        (W.contents writer.old) (W.contents writer.new) script.now result }
{
    let mut intake = Intake::new(alloc);
    match intake.take(alloc, taker, writer, script) {
        Ok(true) => match intake.end(alloc) {
            Ok(()) => Ok(true),
            Err(fault) => Err(fault),
        },
        Ok(false) => Ok(false),
        Err(fault) => Err(fault),
    }
}

/// Reads the whole script, then takes its lines, up to the last, or to one behind which no more are taken, and writes their
/// text. Whether more would be taken.
///
/// On a fault what was written is the text of exactly the lines before the one that was not taken, or, where the writer failed, a
/// first part of the text of some lines. Costs what the taker does for each line, and O(n) for a script of n bytes and for their
/// text.
pub fn take_lines<T: TakesLines, R: Read, W: Write>(
    alloc: Global,
    taker: &mut T,
    reader: &mut R,
    writer: &mut W,
) -> Result<bool, ReportFault>
    requires { T.took taker.old taker.old true [] [] }
    ensures { Reads (ScriptComes (T.took taker.old) (T.refuses taker.old) taker.new
        (W.contents writer.old) (W.contents writer.new))
        (R.remaining reader.old) (R.remaining reader.new)
        (W.contents writer.old) (W.contents writer.new) result }
{
    match read_script(alloc, reader) {
        Ok(script) => take_script(alloc, taker, writer, &script),
        Err(fault) => Err(fault),
    }
}
