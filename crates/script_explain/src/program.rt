//! Scripts explained and transcripts compared as a program does it: to an exit status.
ghost use Rattle.std.specs.Prelude.{◌≤◌};
ghost use Rattle.std.specs.Process.{exit_status};
ghost use Rattle.script_explain.specs.Comparisons.{EndsChecked};
ghost use Rattle.script_explain.specs.Explanations.{EndsExplained};

use crate::check::{CheckResult, check_script};
use crate::explain::{ExplainJob, explain_script};
use report_io::{end_report, end_with};
use script_lines::Pages;
use sm_names::{Limits, MAX_COLLECTIONS, MAX_EVENTS, MAX_HANDLES, MAX_NODES, MAX_TRACKERS};
use std::alloc::Global;
use std::io::{Read, Write};
use std::process::ExitCode;

// The status of a transcript that differs.
const DIFFERS: u8 = 6;

// The status of one of which no line was played.
const EMPTY: u8 = 7;

/// Explains of the script that the reader holds what the job asks for, with the greatest limits, as
/// `explain_script` does, and answers the status that a program is to end with: 0 where the script came
/// to its end, and else the status of the fault, which is reported as one line on `faults`, as far as
/// that takes it. Costs what `explain_script` costs.
pub fn explain_to_exit<R: Read, W: Write, F: Write>(
    alloc: Global,
    seed: [u8; 16],
    reader: &mut R,
    writer: &mut W,
    faults: &mut F,
    job: ExplainJob,
) -> ExitCode
    ensures most { exit_status result ≤ 4 }
    ensures ends { EndsExplained (record {
      pool = job.pages.count;
      limits = record {
        events = MAX_EVENTS;
        nodes = MAX_NODES;
        collections = MAX_COLLECTIONS;
        trackers = MAX_TRACKERS;
        handles = MAX_HANDLES;
      };
    }) job.scope
        (R.remaining reader.old) (R.remaining reader.new)
        (W.contents writer.old) (W.contents writer.new)
        (F.contents faults.old) (F.contents faults.new) (exit_status result) }
{
    let ended = explain_script(alloc, seed, reader, writer, job, Limits::full());
    end_report(alloc, faults, &ended)
}

/// Checks the transcript that the reader holds, with these pages and the greatest limits, as
/// `check_script` does, and answers a status as `explain_to_exit` does, 6 where a reply differs, and 7 where no
/// line was played. Costs
/// what `check_script` costs.
pub fn check_to_exit<R: Read, W: Write, F: Write>(
    alloc: Global,
    seed: [u8; 16],
    reader: &mut R,
    writer: &mut W,
    faults: &mut F,
    pages: Pages,
) -> ExitCode
    ensures most { exit_status result ≤ 7 }
    ensures ends { EndsChecked (record {
      pool = pages.count;
      limits = record {
        events = MAX_EVENTS;
        nodes = MAX_NODES;
        collections = MAX_COLLECTIONS;
        trackers = MAX_TRACKERS;
        handles = MAX_HANDLES;
      };
    })
        (R.remaining reader.old) (R.remaining reader.new)
        (W.contents writer.old) (W.contents writer.new)
        (F.contents faults.old) (F.contents faults.new) (exit_status result) }
{
    match check_script(alloc, seed, reader, writer, pages.count, Limits::full()) {
        Ok(CheckResult::Agrees) => ExitCode::SUCCESS,
        Ok(CheckResult::Differs) => ExitCode::from(DIFFERS),
        Ok(CheckResult::Empty) => ExitCode::from(EMPTY),
        Err(fault) => end_with(alloc, faults, &fault),
    }
}
