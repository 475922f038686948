//! The orders of a script of actors, from its first byte to the last of what is told.
ghost use Rattle.std.specs.Prelude.{◌≤◌, length, IfErr, IfOk};
ghost use Rattle.sm_names.specs.declared.rules.TheConstants.{MAX_PAGES};
ghost use Rattle.script_lines.specs.declared.TheConstants.{MOST_BYTES};
ghost use Rattle.outcome_runs.specs.Explored.{Explores, IsExplored, TellingStops};

use crate::job::{Ending, SearchHost, SearchJob};
use crate::telling::told_of_script;
use play_search::Progress;
use report_io::{ReportFault, put_out, read_script};
use std::io::{Read, Write};

/// Goes through all orders of the steps of the script of actors that the reader holds, on a new core with these
/// pages and the greatest limits, and writes the report of the outcomes, or a play of the one that is asked for.
/// The whole script is read before any line is judged, and nothing is written before all is found.
///
/// Answered `Ok`, each outcome that was told of has a play of the actors whose history is legal, which the core
/// played, and whose outcome it is. The text is the report of these outcomes, or the lines of the play of the one of
/// this number, in the order of its turns; if there is none of this number, nothing was written, and nothing either
/// where a client that is asked to vanish does not join, or where a play that was made again went on otherwise.
///
/// Those clients may vanish that are asked for, or else those that the script's lines let vanish.
///
/// The host's `progress` is told as `explore` says.
///
/// On a fault nothing was written, but for `WriteFault`, where a first part of the text was. Costs what `explore` does.
pub fn explore_script<P: Progress, R: Read, W: Write>(
    host: SearchHost<'_, P>,
    seed: [u8; 16],
    reader: &mut R,
    writer: &mut W,
    job: SearchJob<'_>,
) -> Result<Ending, ReportFault>
    requires { (1 ≤ job.pages) × (job.pages ≤ MAX_PAGES) }
    ensures { Explores job.entry (R.remaining reader.old) (R.remaining reader.new)
        (W.contents writer.old) (W.contents writer.new) result }
{
    let script = match read_script(host.alloc, reader) {
        Ok(script) => script,
        Err(fault) => return Err(fault),
    };
    tell(host, seed, writer, job, &script)
}

// Writes what is told of the script.
fn tell<P: Progress, W: Write>(
    host: SearchHost<'_, P>,
    seed: [u8; 16],
    writer: &mut W,
    job: SearchJob<'_>,
    script: &[u8],
) -> Result<Ending, ReportFault>
    requires pages { (1 ≤ job.pages) × (job.pages ≤ MAX_PAGES) }
    requires few { length script.now ≤ MOST_BYTES }
    ensures ok { IfOk result (IsExplored job.entry (W.contents writer.old)
        (W.contents writer.new) script.now) }
    ensures err { IfErr result
        (TellingStops job.entry (W.contents writer.old) (W.contents writer.new) script.now) }
{
    let told = match told_of_script(host, seed, job, script) {
        Ok(told) => told,
        Err(fault) => return Err(fault),
    };
    match put_out(writer, &told.text) {
        Ok(()) => Ok(told.ending),
        Err(fault) => Err(fault),
    }
}
