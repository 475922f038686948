//! Runs of actors without a report.
use crate::tests::threads::fixture::{Case, TWO, TWO_REPORT, events, reports, run_two};
use sm_names::Limits;
use std::alloc::Global;
use std::process::Abort;
use std::sync::Wait;
use std::thread::Threads;
use std::time::Clock;
use test_streams::FailingWriter;
use thread_runs::ThreadsFault;

// Scripts, each with the number of its first bad line.
const BAD: &[(&str, u64)] = &[
    ("", 1),
    ("\n# nobody\n", 3),
    ("a open r\n", 1),
    ("a join\nshow live\n", 2),
    ("a join\na join\n", 2),
    ("a join\na open r\nb join\n", 3),
    ("a join\na open r\na give r b\n", 3),
    ("a join\na open r\na fly r\n", 3),
    ("a join\na open r\na  bind r\n", 3),
    ("a join\na open r", 2),
];

fn all_are_bad<R: Threads + Wait + Clock + Abort + Sync>(rt: &R, alloc: Global) -> bool {
    for (script, line) in BAD {
        let outcome = Err(ThreadsFault::BadLine(*line));
        let case = Case {
            pages: 1,
            limits: Limits::full(),
            script,
        };
        if !reports(rt, alloc, case, "", outcome) {
            return false;
        }
    }
    true
}

#[test]
fn no_actor_starts_if_a_line_is_bad(rt: HostRuntime) {
    assert!(rt; all_are_bad(&rt, rt.alloc()));
}

// Whether the history of both actors is full with any limit below 16 events.
fn are_too_few<R: Threads + Wait + Clock + Abort + Sync>(rt: &R, alloc: Global) -> bool {
    for most in 1..16 {
        let outcome = Err(ThreadsFault::HistoryFull);
        let case = Case {
            pages: 2,
            limits: events(rt, most),
            script: TWO,
        };
        if !reports(rt, alloc, case, "", outcome) {
            return false;
        }
    }
    true
}

#[test]
fn a_full_history_leaves_no_report(rt: HostRuntime) {
    assert!(rt; are_too_few(&rt, rt.alloc()));
    let case = Case {
        pages: 16,
        limits: events(&rt, 16),
        script: TWO,
    };
    assert!(rt; reports(&rt, rt.alloc(), case, TWO_REPORT, Ok(())));
}

// Whether nothing is written if the read after this many bytes fails.
fn leaves_nothing<R: Threads + Wait + Clock + Abort + Sync>(
    rt: &R,
    alloc: Global,
    read: usize,
) -> bool {
    let mut writer = FailingWriter::new(alloc);
    let ended = run_two(rt, alloc, 1, read.saturating_add(1), &mut writer);
    ended == Err(ThreadsFault::ReadFault) && writer.writes == 0
}

// Whether the writer has the report if each read gives this many bytes.
fn is_reported<R: Threads + Wait + Clock + Abort + Sync>(
    rt: &R,
    alloc: Global,
    step: usize,
) -> bool {
    let mut writer = FailingWriter::new(alloc);
    let ended = run_two(rt, alloc, step, 0, &mut writer);
    ended == Ok(()) && writer.bytes.as_slice() == TWO_REPORT.as_bytes()
}

// The first number of bytes, before a read that fails or of each read, for which that is false.
fn wrong_read<R: Threads + Wait + Clock + Abort + Sync>(rt: &R, alloc: Global) -> Option<usize> {
    for read in 0..TWO.len() + 1 {
        if !leaves_nothing(rt, alloc, read) || !is_reported(rt, alloc, read + 1) {
            return Some(read);
        }
    }
    None
}

#[test]
fn a_read_that_fails_leaves_no_report(rt: HostRuntime) {
    assert!(rt; wrong_read(&rt, rt.alloc()).is_none());
}

// Whether the writer has all bytes before this one if the write of this one fails, or takes nothing.
fn stops_at<R: Threads + Wait + Clock + Abort + Sync>(
    rt: &R,
    alloc: Global,
    write: usize,
    takes_nothing: bool,
) -> bool {
    let mut writer = FailingWriter::new(alloc);
    writer.fails = write.saturating_add(1);
    writer.takes_nothing = takes_nothing;
    let ended = run_two(rt, alloc, 64, 0, &mut writer);
    let report = TWO_REPORT.as_bytes();
    ended == Err(ThreadsFault::WriteFault)
        && writer.bytes.as_slice() == &report[..write.min(report.len())]
}

// The number of the first byte whose write fails and leaves other bytes.
fn wrong_part<R: Threads + Wait + Clock + Abort + Sync>(rt: &R, alloc: Global) -> Option<usize> {
    for write in 0..TWO_REPORT.len() {
        if !stops_at(rt, alloc, write, false) || !stops_at(rt, alloc, write, true) {
            return Some(write);
        }
    }
    None
}

#[test]
fn a_first_part_is_written_if_a_write_fails(rt: HostRuntime) {
    assert!(rt; wrong_part(&rt, rt.alloc()).is_none());
}

// Whether a failed flush is a write fault, and the writer has the whole report.
fn is_flushed<R: Threads + Wait + Clock + Abort + Sync>(rt: &R, alloc: Global) -> bool {
    let mut writer = FailingWriter::new(alloc);
    writer.flushes = false;
    let ended = run_two(rt, alloc, 64, 0, &mut writer);
    ended == Err(ThreadsFault::WriteFault) && writer.bytes.as_slice() == TWO_REPORT.as_bytes()
}

#[test]
fn a_writer_is_flushed_at_the_end(rt: HostRuntime) {
    assert!(rt; is_flushed(&rt, rt.alloc()));
}
