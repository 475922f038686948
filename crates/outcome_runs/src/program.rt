//! A script of actors explored as a program does it: to an exit status.
ghost use Rattle.std.specs.Prelude.{◌≡◌, ◌≤◌, IfOk};
ghost use Rattle.std.specs.Process.{exit_status};
ghost use Rattle.sm_names.specs.declared.rules.TheConstants.{MAX_PAGES};
ghost use Rattle.script_lines.specs.Written.{WritesPart};
ghost use Rattle.outcome_runs.specs.Endings.{EndsExplored, IsDoubtTold, IsUnknownTold, doubt_line, missing_line, part_line, unknown_line, unlike_line};

use crate::explore::explore_script;
use crate::job::{DoubtLine, Ending, SearchHost, SearchJob};
use outcome_texts::ClaimFault;
use play_search::Progress;
use report_io::end_with;
use script_lines::{Part, push_parts, write_line, write_out};
use std::alloc::{AllocError, Global};
use std::fmt;
use std::io::{Read, Write};
use std::process::ExitCode;

// The status where not all orders were gone through, or a search was to certify and did not.
const PART: u8 = 7;

// The status where a claim does not hold.
const BROKEN: u8 = 6;

// The status where there is no outcome of the number that is asked for.
const MISSING: u8 = 2;

// The status where the list of the clients that may vanish is bad.
const UNKNOWN: u8 = 2;

// The status where a play was unlike itself, which is a mistake of the program.
const UNLIKE: u8 = 5;

// There is no outcome of this number.
#[derive(Clone, Copy)]
struct NoOutcome {
    number: u64,
}

impl fmt::Display for NoOutcome {
    ghost use Rattle.std.specs.Prelude.{Some, ◌++◌, codes, decimal};

    ghost output = { λ missing. Some (codes "sysmem: there is no outcome " ++ decimal missing.number) };

    fn fmt<W: fmt::Write>(&self, f: &mut fmt::Formatter<W>) -> fmt::Result {
        let number = self.number;
        write!(f, "sysmem: there is no outcome {number}")
    }
}

// Says that there is no outcome of this number, as far as the writer takes it.
fn tell_missing<F: Write>(faults: &mut F, outcome: Option<u64>)
    ensures { WritesPart (F.contents faults.old) (F.contents faults.new) (missing_line outcome) }
{
    if let Some(number) = outcome {
        let _ = write_line(faults, NoOutcome { number });
    }
}

// The line that says what is wrong with the list of the clients that may vanish.
fn unknown_text(alloc: Global, fault: ClaimFault) -> Result<Vec<u8>, AllocError>
    ensures { IfOk result (λ line. line.items ≡ unknown_line fault) }
{
    let mut words = Vec::new(alloc);
    fault.push_text(&mut words)?;
    let mut line = Vec::new(alloc);
    push_parts(
        &mut line,
        &[
            Part::Word("sysmem: --vanish: "),
            Part::Bytes(&words),
            Part::Word("\n"),
        ],
    )?;
    Ok(line)
}

// Says what is wrong with the list of the clients that may vanish, as far as the writer takes it.
fn tell_unknown<F: Write>(alloc: Global, faults: &mut F, fault: ClaimFault)
    ensures { IsUnknownTold (F.contents faults.old) (F.contents faults.new) fault }
{
    let _ = match unknown_text(alloc, fault) {
        Ok(line) => write_out(faults, &line),
        Err(_) => write_out(faults, b"no memory\n"),
    };
}

// Says that a play that was made again went on otherwise than before, as far as the writer takes it.
fn tell_unlike<F: Write>(faults: &mut F)
    ensures { WritesPart (F.contents faults.old) (F.contents faults.new) unlike_line }
{
    let _ = write_line(faults, "explore: a play went on otherwise");
}

// Says that not all orders were gone through, as far as the writer takes it.
fn tell_part<F: Write>(faults: &mut F)
    ensures { WritesPart (F.contents faults.old) (F.contents faults.new) part_line }
{
    let _ = write_line(faults, "sysmem: not all explored: try a larger --states");
}

impl fmt::Display for DoubtLine {
    ghost use Rattle.std.specs.Prelude.{Some};
    ghost use Rattle.outcome_runs.specs.Endings.{doubt_text};

    ghost output = { λ doubt. Some (doubt_text doubt) };

    fn fmt<W: fmt::Write>(&self, f: &mut fmt::Formatter<W>) -> fmt::Result {
        match *self {
            DoubtLine::Incomplete => write!(
                f,
                "sysmem: not certified: not all explored: try a larger --states"
            ),
            DoubtLine::Costly => write!(
                f,
                "sysmem: not certified: too many calls to repeat: try a larger --states"
            ),
            DoubtLine::Step { calls, line } => write!(
                f,
                "sysmem: not certified: after {calls} calls line {line} leads to a state that was not met"
            ),
            DoubtLine::Leave { calls } => write!(
                f,
                "sysmem: not certified: after {calls} calls a client that vanishes leads to a state that was not met"
            ),
            DoubtLine::Outcome { calls } => write!(
                f,
                "sysmem: not certified: a schedule of {calls} calls does not end as its outcome says"
            ),
        }
    }
}

// Says why a search did not certify, as far as the writer takes it.
fn tell_doubt<F: Write>(faults: &mut F, doubt: DoubtLine)
    ensures { WritesPart (F.contents faults.old) (F.contents faults.new) (doubt_line doubt) }
{
    let _ = write_line(faults, doubt);
}

// The same, if there is a reason.
fn tell_doubt_of<F: Write>(faults: &mut F, doubt: Option<DoubtLine>)
    ensures { IsDoubtTold (F.contents faults.old) (F.contents faults.new) doubt }
{
    if let Some(doubt) = doubt {
        tell_doubt(faults, doubt);
    }
}

/// Explores the script of actors that the reader holds, with the greatest limits, as `explore_script` does, and
/// answers the status that a program is to end with: 0 where all orders were gone through and each claim holds, 6 where
/// a claim does not, 7 where not all orders were gone through or the search was to certify and did not, 2 where there is
/// no outcome of the number that is asked for or the list of the clients that may vanish is bad, 5 where a play that was
/// made again went on otherwise, and else the status of the fault. Of a fault, of orders that were not gone through, of why
/// a search did not certify, of a missing outcome, of such a list, or of such a play one line is written on `faults`, as far as
/// that takes it. Costs what `explore_script` costs.
pub fn explore_to_exit<P: Progress, R: Read, W: Write, F: Write>(
    host: SearchHost<'_, P>,
    seed: [u8; 16],
    reader: &mut R,
    writer: &mut W,
    faults: &mut F,
    job: SearchJob<'_>,
) -> ExitCode
    requires { (1 ≤ job.pages) × (job.pages ≤ MAX_PAGES) }
    ensures { EndsExplored job.entry (R.remaining reader.old) (R.remaining reader.new)
        (W.contents writer.old) (W.contents writer.new)
        (F.contents faults.old) (F.contents faults.new) (exit_status result) }
{
    let alloc = host.alloc;
    match explore_script(host, seed, reader, writer, job) {
        Ok(Ending::Whole) => ExitCode::SUCCESS,
        Ok(Ending::Part) => {
            tell_part(faults);
            ExitCode::from(PART)
        }
        Ok(Ending::Unsure(doubt)) => {
            tell_doubt(faults, doubt);
            ExitCode::from(PART)
        }
        Ok(Ending::Broken(doubt)) => {
            tell_doubt_of(faults, doubt);
            ExitCode::from(BROKEN)
        }
        Ok(Ending::Missing) => {
            tell_missing(faults, job.outcome);
            ExitCode::from(MISSING)
        }
        Ok(Ending::Unknown(fault)) => {
            tell_unknown(alloc, faults, fault);
            ExitCode::from(UNKNOWN)
        }
        Ok(Ending::Unlike) => {
            tell_unlike(faults);
            ExitCode::from(UNLIKE)
        }
        Err(fault) => end_with(alloc, faults, &fault),
    }
}
