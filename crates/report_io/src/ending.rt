//! How a program ends on a fault.
ghost use Rattle.std.specs.Prelude.{◌≡◌, ◌≤◌, IfOk};
ghost use Rattle.std.specs.Process.{exit_status};
ghost use Rattle.report_io.specs.Faults.{IsReported, IsTold, IsTried, fault_line, fault_start, fault_status, report_status};

use crate::fault::ReportFault;
use script_lines::{WriteFault, push, write_out};
use std::alloc::{AllocError, Global};
use std::io::Write;
use std::process::ExitCode;

// What the line of a fault begins with: the program's name, unless `run` has a line for the same fault.
fn start_of(fault: &ReportFault) -> &'static str
    ensures { result.now ≡ fault_start fault.now }
{
    match fault {
        ReportFault::TooLong | ReportFault::Missing { .. } => "sysmem: ",
        ReportFault::ReadFault
        | ReportFault::WriteFault(_)
        | ReportFault::BadLine { .. }
        | ReportFault::HistoryFull
        | ReportFault::NoMemory => "",
    }
}

// The fault in one line.
fn fault_line(alloc: Global, fault: &ReportFault) -> Result<Vec<u8>, AllocError>
    ensures { IfOk result (λ line. line.items ≡ fault_line fault.now) }
{
    let mut line = Vec::new(alloc);
    push(&mut line, start_of(fault))?;
    fault.push_text(&mut line)?;
    push(&mut line, "\n")?;
    Ok(line)
}

// Writes the line of the fault, or that of refused memory.
fn tell<F: Write>(alloc: Global, faults: &mut F, fault: &ReportFault) -> Result<(), WriteFault>
    ensures { IsTried (F.contents faults.old) (F.contents faults.new) fault.now }
{
    match fault_line(alloc, fault) {
        Ok(line) => write_out(faults, &line),
        Err(_) => write_out(faults, b"no memory\n"),
    }
}

/// The status of the fault, which is reported as one line on `faults`, as far as that takes it; where
/// memory is refused, that is reported. Nothing is reported where the reader of the output is gone. Costs O(n) for a
/// line of n bytes.
pub fn end_with<F: Write>(alloc: Global, faults: &mut F, fault: &ReportFault) -> ExitCode
    ensures status { exit_status result ≡ fault_status fault.now }
    ensures told { IsTold (F.contents faults.old) (F.contents faults.new) fault.now }
{
    if !fault.is_silent() {
        let _ = tell(alloc, faults, fault);
    }
    ExitCode::from(fault.status())
}

/// The status of a report: 0 where it was made, else that of its fault, which is reported as `end_with` does.
pub fn end_report<F: Write>(
    alloc: Global,
    faults: &mut F,
    ended: &Result<(), ReportFault>,
) -> ExitCode
    ensures most { exit_status result ≤ 4 }
    ensures status { exit_status result ≡ report_status ended.now }
    ensures told { IsReported (F.contents faults.old) (F.contents faults.new) ended.now }
{
    match ended {
        Ok(()) => ExitCode::SUCCESS,
        Err(fault) => end_with(alloc, faults, fault),
    }
}
