//! The program: `sysmem run` answers a script, `sysmem threads` runs its clients side by side, `sysmem
//! explain` and `sysmem draw` say what its events did, `sysmem check` compares a transcript, `sysmem explore` tells
//! all outcomes.
#![tactic(auto)]

mod messages;
mod progress;

ghost use Rattle.std.specs.Prelude.{◌≡◌, IfErr, MatchResult, option_map};
ghost use Rattle.std.specs.Process.{exit_status};
ghost use Rattle.std.specs.IoError.{error_kind};
ghost use Rattle.clap.specs.Words.{kind_of};
ghost use Rattle.sysmem_main.specs.Jobs.{IsAnswered, IsPlayed, IsRead, job_for, output_for, repeats_for, streams, waiting_for};
ghost use Rattle.sysmem_main.specs.Statuses.{IsRefused, IsUnreadStatus, help_status, refusal_status, unread_status};

use clap::error::ErrorKind;
use clap::{ArgMatches, Error};
use command_line::{CommandLine, ScriptTask, Search, command, request_of};
use explore_model::Waiting;
use messages::{Misplaced, NAME, NO_COMMAND, Unopened, misplaced_file, reason_of};
use outcome_runs::{SearchHost, explore_to_exit};
use progress::ProgressLine;
use script_draw::{DrawJob, draw_to_exit};
use script_explain::{ExplainJob, Scope, check_to_exit, explain_to_exit};
use script_lines::{Pages, WriteFault};
use sm_script::run_to_exit;
use std::alloc::Global;
use std::fs::{Files, OpenFile};
use std::io::{IsTerminal, Read, Write};
use std::process::ExitCode;
use std::random::RandomSource;
use std::sync::Wait;
use std::thread::Threads;
use std::time::Clock;
use std::{env, fs, io};
use thread_runs::{Job, MOST_REPEATS, Output, RunHost, run_threads_to_exit};

// The status of what clap says of the words, which was written or not.
fn status_of(kind: ErrorKind, is_written: bool) -> u8
    ensures { result ≡ refusal_status is_written kind }
{
    match kind {
        ErrorKind::OutOfMemory => 4,
        ErrorKind::DisplayHelp | ErrorKind::DisplayVersion => help_status(is_written),
        _ => 2,
    }
}

// The status of help, which was written or not.
fn help_status(is_written: bool) -> u8
    ensures { result ≡ help_status is_written }
{
    if is_written { 0 } else { 1 }
}

// Writes help, and says if it can't be written, unless nobody reads it any more.
fn print_help(rt: &(impl Print + Eprint), error: &Error) -> io::Result<()> {
    let written = error.print(rt);
    if let Err(fault) = &written {
        if !WriteFault::new(fault).is_reader_gone {
            let _ = rt.eprintln("write fault");
        }
    }
    written
}

// Says why the words ask for no run, behind the program's name: a missing command and a file instead
// of one in words of our own, all else in clap's. Help stands alone.
fn tell(rt: &(impl Print + Eprint), error: &Error, words: &[String]) -> io::Result<()> {
    match error.kind() {
        ErrorKind::DisplayHelp | ErrorKind::DisplayVersion => print_help(rt, error),
        ErrorKind::MissingSubcommand => rt.eprintln(NO_COMMAND),
        ErrorKind::InvalidSubcommand => match misplaced_file(words) {
            Some(name) => rt.eprintln(Misplaced { name }),
            None => tell_named(rt, error),
        },
        _ => tell_named(rt, error),
    }
}

// Says it in clap's words, behind the program's name.
fn tell_named(rt: &(impl Print + Eprint), error: &Error) -> io::Result<()> {
    rt.eprint(NAME)?;
    error.print(rt)
}

// Help on standard output with status 0, or 1 if it can't be written; a refusal on standard error with 2.
fn refuse(rt: &(impl Print + Eprint), error: Error, words: &[String]) -> ExitCode
    ensures { IsRefused (kind_of error) (exit_status result) }
{
    match error.kind() {
        ErrorKind::OutOfMemory => no_memory(rt),
        kind => {
            let is_written = tell(rt, &error, words).is_ok();
            ExitCode::from(status_of(kind, is_written))
        }
    }
}

fn no_memory(rt: &impl Eprint) -> ExitCode
    ensures { exit_status result ≡ 4 }
{
    let _ = rt.eprintln("no memory");
    ExitCode::from(4)
}

// The words could not be read: for want of memory, or since one of them is no text.
fn unread(rt: &impl Eprint, error: &io::Error) -> ExitCode
    ensures { exit_status result ≡ unread_status (error_kind error.now) }
{
    match error.kind() {
        io::ErrorKind::OutOfMemory => no_memory(rt),
        _ => {
            let _ = rt.eprintln("sysmem: a word of the command line is not UTF-8");
            ExitCode::from(2)
        }
    }
}

// What labels and counts are hashed from: random bytes. Where there are none, all runs hash alike,
// as they answer alike.
fn random_seed(rt: &impl RandomSource) -> [u8; 16] {
    let mut seed = [0; 16];
    let _ = rt.fill_bytes(&mut seed);
    seed
}

// The words of the command line, or the status that the program ends with where they can't be read.
fn words_of(rt: &HostRuntime) -> Result<Vec<String>, ExitCode>
    ensures { IfErr result (λ status. IsUnreadStatus (exit_status status)) }
{
    words_in(rt, rt.alloc(), env::args(rt))
}

// The words that were read, or the status for why they could not be, or could not be kept.
fn words_in(
    rt: &impl Eprint,
    alloc: Global,
    read: io::Result<env::Args>,
) -> Result<Vec<String>, ExitCode>
    ensures { MatchResult read
        (λ args. MatchResult result (λ words. words.items ≡ args.rest.items)
        (λ status. exit_status status ≡ 4))
        (λ error. MatchResult result (λ words. ⊥)
        (λ status. exit_status status ≡ unread_status (error_kind error))) }
{
    match read {
        Ok(args) => match args.collect(alloc) {
            Ok(words) => Ok(words),
            Err(_) => Err(no_memory(rt)),
        },
        Err(error) => Err(unread(rt, &error)),
    }
}

fn main(rt: HostRuntime) -> ExitCode {
    match words_of(&rt) {
        Ok(words) => start(&rt, &rt, words.as_slice()),
        Err(status) => status,
    }
}

// Parses the words, and does what they ask for with the program's own streams.
fn start<H: Threads + Wait + Clock + Sync>(
    rt: &HostRuntime,
    host: &H,
    words: &[String],
) -> ExitCode {
    let Ok(command) = command(rt.alloc()) else {
        return no_memory(rt);
    };
    let parse = command.try_get_matches_from(words);
    let reader = &mut rt.reader();
    let writer = &mut io::writer(rt);
    let stderr = rt.stderr();
    let faults = &mut io::writer(&stderr);
    let host = Host { rt, threads: host };
    serve(host, words, parse, reader, writer, faults)
}

// The host that the program runs on, and where actors get their threads from.
#[derive(Clone, Copy)]
struct Host<'a, H> {
    rt: &'a HostRuntime,
    threads: &'a H,
}

// Does what the parse of the words asks for: with the script that is named, or that the reader holds.
fn serve<H: Threads + Wait + Clock + Sync, R: Read, W: Write, F: Write>(
    host: Host<'_, H>,
    words: &[String],
    parse: Result<ArgMatches<'_>, Error>,
    reader: &mut R,
    writer: &mut W,
    faults: &mut F,
) -> ExitCode
    ensures { MatchResult parse.entry
        (λ matches. IsAnswered matches
        (streams (R.remaining reader.old) (W.contents writer.old) (F.contents faults.old))
        (streams (R.remaining reader.new) (W.contents writer.new) (F.contents faults.new))
        (exit_status result))
        (λ e. IsRefused (kind_of e) (exit_status result)) }
{
    match parse {
        Ok(matches) => match request_of(&matches) {
            Some(request) => {
                let seed = random_seed(host.rt);
                read(host, seed, reader, writer, faults, request)
            }
            None => no_such_pool(host.rt),
        },
        Err(error) => refuse(host.rt, error, words),
    }
}

// No pool has as many pages as are asked for.
fn no_such_pool(rt: &impl Eprint) -> ExitCode
    ensures { exit_status result ≡ 2 }
{
    let _ = rt.eprintln("sysmem: the pool has from 1 to 1048576 pages");
    ExitCode::from(2)
}

// Does what is asked for with the script that is named, or that the reader holds.
fn read<H: Threads + Wait + Clock + Sync, R: Read, W: Write, F: Write>(
    host: Host<'_, H>,
    seed: [u8; 16],
    reader: &mut R,
    writer: &mut W,
    faults: &mut F,
    request: CommandLine<'_>,
) -> ExitCode
    ensures { IsRead (option_map (λ name. name.now) request.entry.file) request.entry.task
        request.entry.pages.count
        (streams (R.remaining reader.old) (W.contents writer.old) (F.contents faults.old))
        (streams (R.remaining reader.new) (W.contents writer.new) (F.contents faults.new))
        (exit_status result) }
{
    match request.file {
        None => play(host, seed, reader, writer, faults, request),
        Some(name) => match opened(host.rt, name) {
            Ok(mut file) => play(host, seed, &mut file, writer, faults, request),
            Err(kind) => unopened(host.rt, name, kind),
        },
    }
}

// Opens the file of this name. The system opens a directory too, which can't be read: here that is an error.
fn opened<R: Files>(files: &R, name: &str) -> Result<R::File, io::ErrorKind> {
    match fs::open(files, name) {
        Ok(file) if is_directory(&file) => Err(io::ErrorKind::IsADirectory),
        Ok(file) => Ok(file),
        Err(error) => Err(error.kind()),
    }
}

// Whether the open file is a directory. False if the system does not say.
fn is_directory(file: &impl OpenFile) -> bool {
    match file.metadata() {
        Ok(metadata) => metadata.is_dir(),
        Err(_) => false,
    }
}

// The file of this name can't be read: opening it gives an error of this kind.
fn unopened(rt: &impl Eprint, name: &str, kind: io::ErrorKind) -> ExitCode
    ensures { exit_status result ≡ 1 }
{
    let reason = reason_of(kind);
    let _ = rt.eprintln(Unopened { name, reason });
    ExitCode::from(1)
}

// Does with the script that the reader holds what is asked for, with a pool of the pages that are
// asked for.
fn play<H: Threads + Wait + Clock + Sync, R: Read, W: Write, F: Write>(
    host: Host<'_, H>,
    seed: [u8; 16],
    reader: &mut R,
    writer: &mut W,
    faults: &mut F,
    request: CommandLine<'_>,
) -> ExitCode
    ensures { IsPlayed request.entry.task request.entry.pages.count
        (streams (R.remaining reader.old) (W.contents writer.old) (F.contents faults.old))
        (streams (R.remaining reader.new) (W.contents writer.new) (F.contents faults.new))
        (exit_status result) }
{
    let Host { rt, threads } = host;
    let alloc = rt.alloc();
    let pages = request.pages;
    match request.task {
        ScriptTask::Run => run_to_exit(alloc, seed, reader, writer, faults, pages),
        ScriptTask::Threads {
            has_record,
            is_patient,
        } => {
            let output = output_of(has_record);
            let repeats = repeats_of(is_patient);
            let job = Job {
                pages,
                repeats,
                output,
            };
            let host = RunHost { rt: threads, alloc };
            run_threads_to_exit(host, seed, reader, writer, faults, job)
        }
        ScriptTask::Explain {
            only_failures,
            has_summary,
        } => {
            let scope = Scope {
                only_failures,
                has_summary,
            };
            let job = ExplainJob { pages, scope };
            explain_to_exit(alloc, seed, reader, writer, faults, job)
        }
        ScriptTask::Draw(view) => {
            draw_to_exit(alloc, seed, reader, writer, faults, DrawJob { pages, view })
        }
        ScriptTask::Check => check_to_exit(alloc, seed, reader, writer, faults, pages),
        ScriptTask::Explore(search) => {
            let progress = &ProgressLine::new(rt, rt.stderr().is_terminal());
            let host = SearchHost { alloc, progress };
            explore_to_exit(host, seed, reader, writer, faults, job_of(pages, search))
        }
    }
}

// What a run of actors is to write.
fn output_of(has_record: bool) -> Output
    ensures { result ≡ output_for has_record }
{
    if has_record {
        Output::Transcript
    } else {
        Output::Report
    }
}

// How many times more an actor makes a step at most while nothing is there for it.
fn repeats_of(is_patient: bool) -> u64
    ensures { result ≡ repeats_for is_patient }
{
    if is_patient { MOST_REPEATS } else { 0 }
}

// Which lines wait in a search, as `outcome_runs` names it.
fn waiting_of(once: bool, is_patient: bool) -> Waiting
    ensures { result ≡ waiting_for once is_patient }
{
    if once {
        Waiting::Never
    } else if is_patient {
        Waiting::Always
    } else {
        Waiting::Repeated
    }
}

// The search that is asked for, as `outcome_runs` names it.
fn job_of<'a>(pages: Pages, search: Search<'a>) -> outcome_runs::SearchJob<'a>
    ensures { result ≡ job_for pages.count search.entry }
{
    outcome_runs::SearchJob {
        pages: pages.count,
        waiting: waiting_of(search.once, search.is_patient),
        at_end: search.at_end,
        vanish: search.vanish,
        most: search.most,
        outcome: search.outcome,
        states: search.states,
        certifies: search.certifies,
        lists: search.lists,
    }
}
