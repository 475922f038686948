//! Each whole line is answered before the next read.
use sm_names::Limits;
use sm_script::run_script;
use std::cell::Cell;
use std::io;
use std::io::{Read, Write};

// A line and its reply, of as many bytes each.
const LINE: usize = 7;

const SCRIPT: &str = "a join\nb join\nc join\n";

// Gives a byte a read, and notes whether a whole line that it gave was not answered by then.
#[derive(Drop)]
struct TurnReader<'a> {
    bytes: &'a [u8],
    given: usize,
    written: &'a Cell<usize>,
    is_late: bool,
}

impl Read for TurnReader<'_> {
    fn read(&mut self, buf: &mut [u8]) -> io::Result<usize> {
        if self.written.get() / LINE != self.given / LINE {
            self.is_late = true;
        }
        match (self.bytes.split_first(), buf.first_mut()) {
            (Some((first, rest)), Some(place)) => {
                *place = *first;
                self.bytes = rest;
                self.given = self.given.saturating_add(1);
                Ok(1)
            }
            _ => Ok(0),
        }
    }
}

// Counts the bytes that are written.
#[derive(Drop)]
struct CountingWriter<'a> {
    written: &'a Cell<usize>,
}

impl Write for CountingWriter<'_> {
    fn write(&mut self, buf: &[u8]) -> io::Result<usize> {
        self.written
            .set(self.written.get().saturating_add(buf.len()));
        Ok(buf.len())
    }

    fn flush(&mut self) -> io::Result<()> {
        Ok(())
    }
}

#[test]
fn a_line_is_answered_before_the_next_read(rt: HostRuntime) {
    let written = Cell::new(0);
    let mut reader = TurnReader {
        bytes: SCRIPT.as_bytes(),
        given: 0,
        written: &written,
        is_late: false,
    };
    let mut writer = CountingWriter { written: &written };
    let ended = run_script(
        rt.alloc(),
        [3; 16],
        &mut reader,
        &mut writer,
        16,
        Limits::full(),
    );
    assert!(rt; ended == Ok(()) && !reader.is_late && written.get() == SCRIPT.len());
}
