//! A script of actors as a program runs it: to an exit status.
ghost use Rattle.std.specs.Prelude.{◌≡◌};
ghost use Rattle.std.specs.Process.{exit_status};
ghost use Rattle.thread_runs.specs.Endings.{EndsThreads, EndsUntold, IsTextTold};
ghost use Rattle.thread_runs.specs.Faults.{threads_fault_status};

use crate::fault::ThreadsFault;
use crate::job::{Job, RunHost};
use crate::run::tell_script;
use report_io::{bad_actor_line, end_report, end_with, put_out, read_script};
use script_lines::write_line;
use sm_names::Limits;
use std::alloc::Global;
use std::io::{Read, Write};
use std::process::ExitCode;
use std::sync::Wait;
use std::thread::Threads;
use std::time::Clock;

/// Runs the script of actors that the reader holds, with the greatest limits, as `run_threads` does, and
/// answers the status that a program is to end with: 0 if all that the job asks for was written, else the
/// status of the fault, which is told in one line on `faults`, as far as that takes it: with the reason of a bad line,
/// and as too long if the script is. Nothing is told where the reader of the output is gone. Costs what `run_threads`
/// costs.
pub fn run_threads_to_exit<I: Read, O: Write, F: Write, R: Threads + Wait + Clock + Sync>(
    host: RunHost<'_, R>,
    seed: [u8; 16],
    reader: &mut I,
    writer: &mut O,
    faults: &mut F,
    job: Job,
) -> ExitCode
    ensures { EndsThreads job.output job.repeats job.pages.count (I.remaining reader.old)
        (I.remaining reader.new)
        (O.contents writer.old) (O.contents writer.new)
        (F.contents faults.old) (F.contents faults.new) (exit_status result) }
{
    let alloc = host.alloc;
    let script = match read_script(alloc, reader) {
        Ok(script) => script,
        Err(fault) => return end_with(alloc, faults, &fault),
    };
    let mut rest = script.as_slice();
    match tell_script(host, seed, &mut rest, job, Limits::full()) {
        Ok(text) => end_report(alloc, faults, &put_out(writer, &text)),
        Err(fault) => end_untold(alloc, faults, &script, fault),
    }
}

// The status where nothing is told of the actors of this script, for this fault, which is told.
fn end_untold<F: Write>(
    alloc: Global,
    faults: &mut F,
    script: &[u8],
    fault: ThreadsFault,
) -> ExitCode
    ensures { EndsUntold script.now fault (F.contents faults.old) (F.contents faults.new)
        (exit_status result) }
{
    match fault {
        ThreadsFault::BadLine(number) => {
            end_with(alloc, faults, &bad_actor_line(alloc, number, script))
        }
        ThreadsFault::ReadFault
        | ThreadsFault::WriteFault
        | ThreadsFault::HistoryFull
        | ThreadsFault::NoMemory
        | ThreadsFault::NoThread
        | ThreadsFault::Gather(_) => end_by_text(faults, fault),
    }
}

// The status of the fault, whose text is told as one line.
fn end_by_text<F: Write>(faults: &mut F, fault: ThreadsFault) -> ExitCode
    ensures status { exit_status result ≡ threads_fault_status fault }
    ensures told { IsTextTold fault (F.contents faults.old) (F.contents faults.new) }
{
    let _ = write_line(faults, fault);
    ExitCode::from(fault.status())
}
