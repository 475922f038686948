//! Two actors where memory is refused.
use crate::tests::threads::fixture::{SEED, TWO, TWO_REPORT, report_of};
use sm_names::Limits;
use test_streams::FixedWriter;
use thread_runs::{RunHost, ThreadsFault, run_threads};

// Whether the writer has the whole report; or nothing, for want of memory. A thread needs memory too.
fn is_whole_or_none(writer: &FixedWriter, ended: Result<(), ThreadsFault>) -> bool {
    let out = writer.used.min(128);
    match ended {
        Ok(()) => &writer.bytes[..out] == TWO_REPORT.as_bytes(),
        Err(ThreadsFault::NoMemory | ThreadsFault::NoThread) => out == 0,
        Err(_) => false,
    }
}

#[test]
fn refused_memory_leaves_the_whole_report_or_none(rt: HostRuntime) {
    let mut writer = FixedWriter {
        bytes: [0; 128],
        used: 0,
    };
    let mut reader = TWO.as_bytes();
    let host = RunHost {
        rt: &rt,
        alloc: rt.alloc(),
    };
    let ended = run_threads(
        host,
        SEED,
        &mut reader,
        &mut writer,
        report_of(&rt, 4),
        Limits::full(),
    );
    if ended != Ok(()) {
        let _ = println!(rt; "memory was refused");
    }
    assert!(rt; is_whole_or_none(&writer, ended));
}
