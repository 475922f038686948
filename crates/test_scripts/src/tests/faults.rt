//! Scripts that stop before their end.
use crate::tests::fixture::{is_out, play};
use sm_names::Limits;
use sm_script::{ScriptFault, run_script};
use std::alloc::{AllocError, Global};
use std::test::Fail;
use test_streams::{FailingWriter, FixedWriter};

// Whether the second line is the first bad one, and the first line has its reply.
fn is_second_bad(alloc: Global, script: &str) -> bool {
    let mut writer = FailingWriter::new(alloc);
    let ended = play(alloc, script.as_bytes(), 3, 0, &mut writer);
    ended == Err(ScriptFault::BadLine(2)) && is_out(&writer, "joined\n", 7)
}

#[test]
fn a_last_line_without_its_end_is_bad(rt: HostRuntime) {
    assert!(rt; is_second_bad(rt.alloc(), "a join\na ope"));
    assert!(rt; is_second_bad(rt.alloc(), "a join\na open r"));
    assert!(rt; is_second_bad(rt.alloc(), "a join\n#"));
}

// A script of weak handles, with its replies: each line has one.
const SCRIPT: &str =
    "a join\na open r\na dup r w\na weak w\na bind r\na bind w\na constrain r 2 0 4096\n\
    a constrain w 0 0 1\na take r\na take w\na tracklife w 0 l\na trackweak r.1 k\n\
    a release r\na droph r.0 strong\nshow held\na take w\na droph r.1 strong\na poll k\n\
    a check w\nshow held\na droph r.0 weak\nshow held\na droph r.1 weak\na droph r.1 weak\n\
    show held\na poll l\n";

const REPLIES: &str =
    "joined\ntoken r\ntoken w\ndone\ndone\ndone\ndone\ndone\ntaken strong r.0 r.1\n\
    taken weak r.0 r.1\ntracker l\ntracker k\ndone\ndone\nheld r.0 0 1 r.1 1 1\n\
    taken weak r.1\ndone\nfired 16\nclosed nostrong r\nheld r.0 0 1 r.1 1 1\ndone\n\
    held r.1 1 1\ndone\ndone\nheld\nfired 20\n";

// How many bytes the first lines of the text have.
fn front(text: &[u8], lines: usize) -> usize {
    let mut left = lines;
    let mut bytes = 0usize;
    for byte in text {
        if left == 0 {
            return bytes;
        }
        bytes = bytes.saturating_add(1);
        if *byte == b'\n' {
            left = left.saturating_sub(1);
        }
    }
    bytes
}

// How many bytes of the replies are out once this many bytes were read.
fn answered(read: usize) -> usize {
    let mut lines = 0usize;
    for byte in SCRIPT.as_bytes().iter().take(read) {
        if *byte == b'\n' {
            lines = lines.saturating_add(1);
        }
    }
    front(REPLIES.as_bytes(), lines)
}

// Whether the writer has the replies to all whole lines if the read after this many bytes fails.
fn stops_behind(alloc: Global, read: usize) -> bool {
    let mut writer = FailingWriter::new(alloc);
    let fails = read.saturating_add(1);
    let ended = play(alloc, SCRIPT.as_bytes(), 1, fails, &mut writer);
    ended == Err(ScriptFault::ReadFault) && is_out(&writer, REPLIES, answered(read))
}

// Whether the writer has all replies if each read gives this many bytes.
fn is_played_by(alloc: Global, step: usize) -> bool {
    let mut writer = FailingWriter::new(alloc);
    let ended = play(alloc, SCRIPT.as_bytes(), step, 0, &mut writer);
    ended == Ok(()) && is_out(&writer, REPLIES, REPLIES.len())
}

// The first number of bytes, before a read that fails or of each read, with which the writer has other replies.
fn late_reply(alloc: Global) -> Option<usize> {
    for read in 0..SCRIPT.len() + 1 {
        if !stops_behind(alloc, read) || !is_played_by(alloc, read + 1) {
            return Some(read);
        }
    }
    None
}

#[test]
fn whole_lines_are_answered_before_the_next_read(rt: HostRuntime) {
    assert!(rt; late_reply(rt.alloc()).is_none());
}

// Whether the writer has all bytes before this one if the write of this one fails, or takes nothing.
fn stops_at(alloc: Global, write: usize, takes_nothing: bool) -> bool {
    let mut writer = FailingWriter::new(alloc);
    writer.fails = write.saturating_add(1);
    writer.takes_nothing = takes_nothing;
    let ended = play(alloc, SCRIPT.as_bytes(), 5, 0, &mut writer);
    ended == Err(ScriptFault::WriteFault) && is_out(&writer, REPLIES, write)
}

// The number of the first byte whose write fails and leaves other bytes.
fn wrong_part(alloc: Global) -> Option<usize> {
    for write in 0..REPLIES.len() {
        if !stops_at(alloc, write, false) || !stops_at(alloc, write, true) {
            return Some(write);
        }
    }
    None
}

#[test]
fn a_first_part_is_written_if_a_write_fails(rt: HostRuntime) {
    assert!(rt; wrong_part(rt.alloc()).is_none());
}

// Whether a failed flush is a write fault, and the writer has all replies.
fn is_flushed(alloc: Global) -> bool {
    let mut writer = FailingWriter::new(alloc);
    writer.flushes = false;
    let ended = play(alloc, SCRIPT.as_bytes(), 5, 0, &mut writer);
    ended == Err(ScriptFault::WriteFault) && is_out(&writer, REPLIES, REPLIES.len())
}

#[test]
fn a_writer_is_flushed_at_the_end(rt: HostRuntime) {
    assert!(rt; is_flushed(rt.alloc()));
}

// Remarks of as many bytes as a script may have.
fn remarks(alloc: Global) -> Result<Vec<u8>, AllocError> {
    let remark = 64;
    let mut script = Vec::with_capacity(alloc, sm_script::MOST_BYTES + 1)?;
    for _ in 0..sm_script::MOST_BYTES / remark {
        script.resize(script.len().saturating_add(remark - 1), b'#')?;
        script.push(b'\n')?;
    }
    Ok(script)
}

// How a script of remarks ends.
fn end_of(alloc: Global, script: &[u8]) -> Result<(), ScriptFault> {
    let mut writer = FailingWriter::new(alloc);
    play(alloc, script, 65_536, 0, &mut writer)
}

#[test]
fn a_script_of_the_greatest_size_is_read(rt: HostRuntime) -> Result<(), Fail> {
    let mut script = remarks(rt.alloc())?;
    assert!(rt; end_of(rt.alloc(), script.as_slice()) == Ok(()));
    script.push(b'\n')?;
    assert!(rt; end_of(rt.alloc(), script.as_slice()) == Err(ScriptFault::ReadFault));
    Ok(())
}

// A script whose replies fit a slate.
const SHORT: &str = "a join\n\na open r\nshow live\n";

const SHORT_REPLIES: &str = "joined\ntoken r\nlive r\n";

// Whether the writer has whole replies: all of them if the run ended well, and else it ended for want of memory.
fn is_whole(writer: &FixedWriter, ended: Result<(), ScriptFault>) -> bool {
    let out = writer.used.min(128);
    let is_well = match ended {
        Ok(()) => out == SHORT_REPLIES.len(),
        Err(fault) => fault == ScriptFault::NoMemory,
    };
    let whole = [0, 7, 15, SHORT_REPLIES.len()];
    is_well
        && whole.contains(&out)
        && &writer.bytes[..out] == &SHORT_REPLIES.as_bytes()[..out.min(SHORT_REPLIES.len())]
}

// With memory refused at any growth, whole replies are out or the run ends well.
#[test]
fn refused_memory_leaves_the_text_of_the_first_lines(rt: HostRuntime) {
    let mut writer = FixedWriter {
        bytes: [0; 128],
        used: 0,
    };
    let mut reader = SHORT.as_bytes();
    let ended = run_script(
        rt.alloc(),
        [3; 16],
        &mut reader,
        &mut writer,
        16,
        Limits::full(),
    );
    if ended != Ok(()) {
        let _ = println!(rt; "memory was refused");
    }
    assert!(rt; is_whole(&writer, ended));
}
