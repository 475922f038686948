//! Scripts drawn as a program does it: to an exit status.
ghost use Rattle.std.specs.Prelude.{◌≤◌};
ghost use Rattle.std.specs.Process.{exit_status};
ghost use Rattle.script_draw.specs.Draws.{EndsDrawn};

use crate::draw::{DrawJob, draw_script};
use report_io::end_report;
use sm_names::{Limits, MAX_COLLECTIONS, MAX_EVENTS, MAX_HANDLES, MAX_NODES, MAX_TRACKERS};
use std::alloc::Global;
use std::io::{Read, Write};
use std::process::ExitCode;

/// Draws the script that the reader holds as the job asks, with the greatest limits, as `draw_script`
/// does, and answers the status that a program is to end with: 0 where the script came to its end, and
/// else the status of the fault, which is reported as one line on `faults`, as far as that takes it.
/// Costs what `draw_script` costs.
pub fn draw_to_exit<R: Read, W: Write, F: Write>(
    alloc: Global,
    seed: [u8; 16],
    reader: &mut R,
    writer: &mut W,
    faults: &mut F,
    job: DrawJob,
) -> ExitCode
    ensures most { exit_status result ≤ 4 }
    ensures ends { EndsDrawn (record {
      pool = job.pages.count;
      limits = record {
        events = MAX_EVENTS;
        nodes = MAX_NODES;
        collections = MAX_COLLECTIONS;
        trackers = MAX_TRACKERS;
        handles = MAX_HANDLES;
      };
    }) job.view
        (R.remaining reader.old) (R.remaining reader.new)
        (W.contents writer.old) (W.contents writer.new)
        (F.contents faults.old) (F.contents faults.new) (exit_status result) }
{
    let ended = draw_script(alloc, seed, reader, writer, job, Limits::full());
    end_report(alloc, faults, &ended)
}
