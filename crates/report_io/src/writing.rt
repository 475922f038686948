//! Text is written.
ghost use Rattle.std.specs.Prelude.{IfErr, OnOk};
ghost use Rattle.std.specs.Io.KnownBytes.{Appends, Keeps};
ghost use Rattle.script_lines.specs.Written.{WritesPart};
ghost use Rattle.report_io.specs.Faults.{IsWriteFault};

use crate::fault::ReportFault;
use script_lines::{WriteFault, write_out};
use std::io::Write;

/// Writes the text, and flushes the writer.
///
/// `WriteFault` where the writer fails, takes nothing, or can't be flushed: a first part was written.
/// Costs O(n) for n bytes of text.
pub fn put_out<W: Write>(writer: &mut W, text: &[u8]) -> Result<(), ReportFault>
    ensures ok { OnOk result (Appends (W.contents writer.old) (W.contents writer.new) text.now) }
    ensures err { IfErr result (λ fault. IsWriteFault fault
        × WritesPart (W.contents writer.old) (W.contents writer.new) text.now) }
{
    match write_out(writer, text) {
        Ok(()) => {}
        Err(fault) => return Err(ReportFault::WriteFault(fault)),
    }
    flush(writer)
}

/// Flushes the writer. `WriteFault` where it can't be flushed.
pub fn flush<W: Write>(writer: &mut W) -> Result<(), ReportFault>
    ensures kept { Keeps (W.contents writer.old) (W.contents writer.new) }
    ensures err { IfErr result IsWriteFault }
{
    match writer.flush() {
        Ok(()) => Ok(()),
        Err(error) => Err(ReportFault::WriteFault(WriteFault::new(&error))),
    }
}
