//! The status that a program ends with, and what it tells.
use crate::tests::threads::fixture::{SEED, report_of};
use sm_script::run_to_exit;
use std::alloc::Global;
use std::process::{Abort, ExitCode};
use std::sync::Wait;
use std::thread::Threads;
use std::time::Clock;
use test_streams::{FailingWriter, ShortReader};
use thread_runs::{RunHost, run_threads_to_exit};

/// What runs a script.
#[derive(Clone, Copy)]
pub enum Runner {
    Script,
    Threads,
}

/// A script; the numbers of the read, of the write and of the write of a fault that fail, or 0; and what is written, the
/// text of the fault and the status.
pub struct Exit {
    pub script: &'static str,
    pub fails: [usize; 3],
    pub written: &'static str,
    pub told: &'static str,
    pub status: u8,
}

const OUTCOMES: &[Exit] = &[
    Exit {
        script: "",
        fails: [0, 0, 0],
        written: "",
        told: "",
        status: 0,
    },
    Exit {
        script: "a join\nshow free\n",
        fails: [0, 0, 0],
        written: "joined\nfree 16\n",
        told: "",
        status: 0,
    },
    Exit {
        script: "a join\na fly\n",
        fails: [0, 0, 0],
        written: "joined\n",
        told: "bad line 2: no such word: fly\n",
        status: 3,
    },
    Exit {
        script: "a join\nshow free",
        fails: [0, 0, 0],
        written: "joined\n",
        told: "bad line 2: the last line lacks a newline\n",
        status: 3,
    },
    Exit {
        script: "a join\na ope",
        fails: [0, 0, 0],
        written: "joined\n",
        told: "bad line 2: the last line lacks a newline\n",
        status: 3,
    },
];

const BROKEN: &[Exit] = &[
    Exit {
        script: "a join\n",
        fails: [1, 0, 0],
        written: "",
        told: "read fault\n",
        status: 1,
    },
    Exit {
        script: "a join\n",
        fails: [0, 1, 0],
        written: "",
        told: "write fault\n",
        status: 1,
    },
];

const UNHEARD: &[Exit] = &[Exit {
    script: "a fly\n",
    fails: [0, 0, 4],
    written: "",
    told: "bad",
    status: 3,
}];

// A writer whose write of this number fails.
fn failing(alloc: Global, fails: usize) -> FailingWriter {
    let mut writer = FailingWriter::new(alloc);
    writer.fails = fails;
    writer
}

// Runs a script with 16 pages, or actors with 8.
fn run<R: Threads + Wait + Clock + Abort + Sync>(
    rt: &R,
    alloc: Global,
    runner: Runner,
    reader: &mut ShortReader,
    out: &mut FailingWriter,
    faults: &mut FailingWriter,
) -> ExitCode {
    match runner {
        Runner::Script => run_to_exit(alloc, SEED, reader, out, faults, report_of(rt, 16).pages),
        Runner::Threads => {
            let host = RunHost { rt, alloc };
            run_threads_to_exit(host, SEED, reader, out, faults, report_of(rt, 8))
        }
    }
}

// Whether the script ends with this output, this text and this status.
fn ends_so<R: Threads + Wait + Clock + Abort + Sync>(
    rt: &R,
    alloc: Global,
    runner: Runner,
    exit: &Exit,
) -> bool {
    let [read_fails, write_fails, fault_fails] = exit.fails;
    let mut reader = ShortReader {
        bytes: exit.script.as_bytes(),
        step: 7,
        reads: 0,
        fails: read_fails,
    };
    let mut out = failing(alloc, write_fails);
    let mut faults = failing(alloc, fault_fails);
    let ended = run(rt, alloc, runner, &mut reader, &mut out, &mut faults);
    ended == ExitCode::from(exit.status)
        && out.bytes.as_slice() == exit.written.as_bytes()
        && faults.bytes.as_slice() == exit.told.as_bytes()
}

/// Whether each script does.
pub fn all_end_so<R: Threads + Wait + Clock + Abort + Sync>(
    rt: &R,
    alloc: Global,
    runner: Runner,
    exits: &[Exit],
) -> bool {
    for exit in exits {
        if !ends_so(rt, alloc, runner, exit) {
            return false;
        }
    }
    true
}

#[test]
fn each_outcome_has_its_status(rt: HostRuntime) {
    assert!(rt; all_end_so(&rt, rt.alloc(), Runner::Script, OUTCOMES));
}

#[test]
fn a_stream_that_fails_gives_status_1(rt: HostRuntime) {
    assert!(rt; all_end_so(&rt, rt.alloc(), Runner::Script, BROKEN));
}

// The status is that of the script's fault also where nobody takes the text of it.
#[test]
fn a_fault_keeps_its_status_if_its_text_cannot_be_written(rt: HostRuntime) {
    assert!(rt; all_end_so(&rt, rt.alloc(), Runner::Script, UNHEARD));
}
