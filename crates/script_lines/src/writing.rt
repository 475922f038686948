//! Text is written.
ghost use Rattle.std.specs.Prelude.{◌≡◌, OnErr, OnOk, IfSome, ◌∷◌, ◌++◌, []};
ghost use Rattle.std.specs.Io.KnownBytes.{Appends};
ghost use Rattle.std.specs.IoError.{error_kind};
ghost use Rattle.script_lines.specs.Written.{WritesPart, is_closed_pipe};

use arrayvec::ArrayString;
use std::fmt::Write as _;
use std::io::{ErrorKind, Write};
use std::{fmt, io};

// The longest line that is written has 115 bytes and its end: why a search is not certified, with the greatest numbers.
const LONGEST: usize = 128;

/// The writer failed, or took nothing.
#[derive(Clone, Copy, Debug, PartialEq, Eq)]
pub struct WriteFault {
    /// Whether nobody reads any more what is written: the other end of a pipe is closed.
    pub is_reader_gone: bool,
}

impl WriteFault {
    /// The fault of a writer that failed by this error. Costs O(1).
    pub fn new(error: &io::Error) -> WriteFault
        ensures { result.is_reader_gone ≡ is_closed_pipe (error_kind error.now) }
    {
        WriteFault {
            is_reader_gone: matches!(error.kind(), ErrorKind::BrokenPipe),
        }
    }
}

// The fault of a writer that took nothing.
const NOTHING_TAKEN: WriteFault = WriteFault {
    is_reader_gone: false,
};

/// Writes all of the text. Where the writer fails or takes nothing, a first part of the text was
/// written. Takes no memory. Costs O(n) for n bytes of text.
pub fn write_out<W: Write>(writer: &mut W, text: &[u8]) -> Result<(), WriteFault>
    ensures ok { OnOk result (Appends (W.contents writer.old) (W.contents writer.new) text.now) }
    ensures part { OnErr result
        (WritesPart (W.contents writer.old) (W.contents writer.new) text.now) }
{
    let mut rest = text;
    while !rest.is_empty() {
        match writer.write(rest) {
            Ok(0) => return Err(NOTHING_TAKEN),
            Ok(n) => rest = &rest[n..],
            Err(error) => return Err(WriteFault::new(&error)),
        }
    }
    Ok(())
}

/// Writes what the value displays, in one line with its end. Where the writer fails or takes nothing,
/// a first part of the line was written; of a line of more than 128 bytes, none. Takes no memory.
/// Costs O(n) for a line of n bytes.
pub fn write_line<W: Write, D: fmt::Display + Copy>(
    writer: &mut W,
    told: D,
) -> Result<(), WriteFault>
    ensures ok { IfSome (D.output told) (λ text. OnOk result
        (Appends (W.contents writer.old) (W.contents writer.new) (text ++ 10 ∷ []))) }
    ensures part { IfSome (D.output told) (λ text. OnErr result
        (WritesPart (W.contents writer.old) (W.contents writer.new) (text ++ 10 ∷ []))) }
{
    let mut line = ArrayString::<LONGEST>::new();
    match line.writeln(told) {
        Ok(()) => write_out(writer, line.as_str().as_bytes()),
        Err(_) => Err(NOTHING_TAKEN),
    }
}
