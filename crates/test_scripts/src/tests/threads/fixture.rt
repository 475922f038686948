//! Runs of actors.
use script_lines::Pages;
use sm_names::Limits;
use std::alloc::Global;
use std::process::Abort;
use std::sync::Wait;
use std::thread::Threads;
use std::time::Clock;
use test_streams::{FailingWriter, ShortReader};
use thread_runs::{Job, Output, RunHost, ThreadsFault, run_threads};

/// Two actors that never meet: each asks for a buffer and takes it.
pub const TWO: &str = "a join\nb join\na open r\nb open s\na bind r\nb bind s\n\
a constrain r 1 0 4096\nb constrain s 1 0 4096\na take r\nb take s\n";

/// What they leave: each made its four calls, a Shut, a Close and a DropHandle.
pub const TWO_REPORT: &str =
    "events 16\na events 7 strong 0 weak 0\nb events 7 strong 0 weak 0\ngather ok\n";

/// What labels and counts are hashed from.
pub const SEED: [u8; 16] = [3; 16];

/// Limits of this many events, and else the greatest.
pub fn events<R: Abort>(rt: &R, most: u32) -> Limits {
    match Limits::new(most, 1024, 256, 4096, u32::MAX) {
        Some(limits) => limits,
        None => panic!(rt; "no limits"),
    }
}

/// A report on a pool of this many pages.
pub fn report_of<R: Abort>(rt: &R, pages: u32) -> Job {
    match Pages::new(pages) {
        Some(pages) => Job {
            pages,
            repeats: 0,
            output: Output::Report,
        },
        None => panic!(rt; "no pages"),
    }
}

/// A script of actors, and how many pages and which limits it is run with.
#[derive(Clone, Copy)]
pub struct Case<'a> {
    pub pages: u32,
    pub limits: Limits,
    pub script: &'a str,
}

/// Whether a run of actors writes this report, and ends so.
pub fn reports<R: Threads + Wait + Clock + Abort + Sync>(
    rt: &R,
    alloc: Global,
    case: Case<'_>,
    report: &str,
    outcome: Result<(), ThreadsFault>,
) -> bool {
    let mut reader = case.script.as_bytes();
    let mut out = Vec::new(alloc);
    let job = report_of(rt, case.pages);
    let host = RunHost { rt, alloc };
    let ended = run_threads(host, SEED, &mut reader, &mut out, job, case.limits);
    ended == outcome && out.as_slice() == report.as_bytes()
}

/// Runs both actors, this many bytes a read.
pub fn run_two<R: Threads + Wait + Clock + Abort + Sync>(
    rt: &R,
    alloc: Global,
    step: usize,
    read_fails: usize,
    writer: &mut FailingWriter,
) -> Result<(), ThreadsFault> {
    let mut reader = ShortReader {
        bytes: TWO.as_bytes(),
        step,
        reads: 0,
        fails: read_fails,
    };
    let job = report_of(rt, 2);
    let host = RunHost { rt, alloc };
    run_threads(host, SEED, &mut reader, writer, job, Limits::full())
}

// Whether the line is that of an actor that has no handle open.
fn has_none_open(line: &[u8]) -> bool {
    line.ends_with(b" strong 0 weak 0")
}

// Whether this many actors have no open handle by the report, and all was gathered.
fn is_gathered(report: &[u8], actors: usize) -> bool {
    let lines = report.split(|byte| *byte == b'\n');
    lines.filter(|line| has_none_open(*line)).count() == actors
        && report.ends_with(b"\ngather ok\n")
}

/// Whether this many actors end without an open handle, and all is gathered.
pub fn gathers<R: Threads + Wait + Clock + Abort + Sync>(
    rt: &R,
    alloc: Global,
    script: &[u8],
    actors: usize,
) -> bool {
    let mut reader = script;
    let mut out = Vec::new(alloc);
    let job = report_of(rt, 16);
    let host = RunHost { rt, alloc };
    let ended = run_threads(host, SEED, &mut reader, &mut out, job, Limits::full());
    ended == Ok(()) && is_gathered(&out, actors)
}
