//! A script of actors from its first byte to the last of its report.
ghost use Rattle.std.specs.Prelude.{◌≡◌, IfErr, IfOk};
ghost use Rattle.thread_runs.specs.Runs.{HasRunActors, IsNotTold, RunsThreads};

use crate::fault::ThreadsFault;
use crate::job::{Job, RunHost, RunSetting};
use crate::report::tell_all;
use actor_scripts::read_actors;
use report_io::put_out;
use script_lines::LabelHash;
use sm_names::Limits;
use std::io::{Read, Write};
use std::sync::Wait;
use std::thread::Threads;
use std::time::Clock;

/// Runs the script of actors that the reader holds, each actor in a thread of its own, against a new
/// service with a pool of this many pages, and writes the report of what they leave, or also their record.
///
/// A step for which nothing is there is made again, at most as often as the job says.
///
/// The whole script is read before any line is judged, and all lines are judged before any actor
/// starts. Nothing is written before all actors have ended and all that they left was gathered. The
/// writer is flushed at the end. In every case the service is ended with all that is left.
///
/// Answered Ok, what was written is the report of a legal history, with this pool and these limits, in
/// which first the clients of the script joined in their order, and nobody else made an event, and in which
/// each of them played its script. A core came by the events of this history, one after another. Where the
/// job asks for a transcript, all events of this history stand before it, in their order, as `push_record`
/// writes them with the actors' labels, and each line of the report begins with `# `. Else, where nothing was
/// written but for `WriteFault`:
/// - `ReadFault`: the reader failed, or the script has more than `MOST_BYTES` bytes.
/// - `BadLine`: this line is the first bad one.
/// - `NoMemory`: memory was refused, at any time.
/// - `HistoryFull`, `NoThread`: a client could not join or an actor could not make a call, since as
///   many events were made as may be; or the system gave an actor no thread. It is the fault of the
///   first of the actors that did not come to their end, in the order of the joins.
/// - `Gather`: the actors' parts are not complete, or don't agree with the record; or the clients that
///   joined are not just the actors in their order, reported as the first client that is elsewhere; or the
///   record does not begin with their joins, or has an event of nobody, reported as the first such event.
/// - `WriteFault`: the writer failed, or took nothing, or could not be flushed. The output is a
///   first part of that.
///
/// Costs what `read_actors`, `run_actors`, `compare`, `push_report` and, for a transcript, `push_record`
/// do. Labels and the
/// service's counts are hashed from the seed, best of random bytes: it changes what the run costs,
/// and nothing that is written.
pub fn run_threads<I: Read, O: Write, R: Threads + Wait + Clock + Sync>(
    host: RunHost<'_, R>,
    seed: [u8; 16],
    reader: &mut I,
    writer: &mut O,
    job: Job,
    limits: Limits,
) -> Result<(), ThreadsFault>
    ensures { RunsThreads job.output job.repeats job.pages.count limits (I.remaining reader.old)
        (I.remaining reader.new) (O.contents writer.old) (O.contents writer.new) result }
{
    match tell_script(host, seed, reader, job, limits) {
        Ok(text) => match put_out(writer, &text) {
            Ok(()) => Ok(()),
            Err(_) => Err(ThreadsFault::WriteFault),
        },
        Err(fault) => Err(fault),
    }
}

// What is to be written of the script of actors that the reader holds, which are run. The fault is none of writing.
pub(crate) fn tell_script<I: Read, R: Threads + Wait + Clock + Sync>(
    host: RunHost<'_, R>,
    seed: [u8; 16],
    reader: &mut I,
    job: Job,
    limits: Limits,
) -> Result<Vec<u8>, ThreadsFault>
    ensures ok { IfOk result (λ text. HasRunActors job.output job.repeats job.pages.count limits
        (I.remaining reader.old) (I.remaining reader.new) (λ told. told ≡ text.items)) }
    ensures err { IfErr result (IsNotTold (I.remaining reader.old) (I.remaining reader.new)) }
{
    let RunHost { rt, alloc } = host;
    let list = match read_actors(alloc, LabelHash::new(seed), reader) {
        Ok(list) => list,
        Err(fault) => return Err(ThreadsFault::from(fault)),
    };
    let setting = RunSetting { seed, job, limits };
    match tell_all(rt, alloc, setting, &list) {
        Ok(text) => Ok(text),
        Err(fault) => Err(fault),
    }
}
