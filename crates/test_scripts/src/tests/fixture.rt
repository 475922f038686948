//! Runs of scripts.
use sm_names::Limits;
use sm_script::{ScriptFault, run_script};
use std::alloc::Global;
use test_streams::{FailingWriter, ShortReader};

/// Runs a script with 16 pages, this many bytes a read.
pub fn play(
    alloc: Global,
    script: &[u8],
    step: usize,
    read_fails: usize,
    writer: &mut FailingWriter,
) -> Result<(), ScriptFault> {
    let mut reader = ShortReader {
        bytes: script,
        step,
        reads: 0,
        fails: read_fails,
    };
    run_script(alloc, [3; 16], &mut reader, writer, 16, Limits::full())
}

/// Whether the writer has the first `count` bytes of the text, and no others.
pub fn is_out(writer: &FailingWriter, text: &str, count: usize) -> bool {
    let bytes = text.as_bytes();
    writer.bytes.as_slice() == &bytes[..count.min(bytes.len())]
}
