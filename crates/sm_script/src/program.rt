//! A script as a program runs it, up to the exit status.
ghost use Rattle.std.specs.Process.{exit_status};
ghost use Rattle.sm_script.specs.Endings.{Ends};

use crate::run::report_run;
use report_io::end_report;
use script_lines::Pages;
use sm_names::{Limits, MAX_COLLECTIONS, MAX_EVENTS, MAX_HANDLES, MAX_NODES, MAX_TRACKERS};
use std::alloc::Global;
use std::io::{Read, Write};
use std::process::ExitCode;

/// Runs the reader's script as `report_run` does, with these pages and the greatest limits, and answers
/// the exit status as `report_io::end_report` does: it reports a fault on `faults`.
pub fn run_to_exit<R: Read, W: Write, F: Write>(
    alloc: Global,
    seed: [u8; 16],
    reader: &mut R,
    writer: &mut W,
    faults: &mut F,
    pages: Pages,
) -> ExitCode
    ensures { Ends (record {
      pool = pages.count;
      limits = record {
        events = MAX_EVENTS;
        nodes = MAX_NODES;
        collections = MAX_COLLECTIONS;
        trackers = MAX_TRACKERS;
        handles = MAX_HANDLES;
      };
    })
        (R.remaining reader.old) (R.remaining reader.new)
        (W.contents writer.old) (W.contents writer.new)
        (F.contents faults.old) (F.contents faults.new) (exit_status result) }
{
    let ended = report_run(alloc, seed, reader, writer, pages.count, Limits::full());
    end_report(alloc, faults, &ended)
}
