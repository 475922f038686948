//! A writer that takes a byte at a time and may fail.
ghost use Rattle.std.specs.Prelude.{◌≡◌, [], false, true};

use std::alloc::Global;
use std::io;
use std::io::{ErrorKind, Write};

/// One byte a write, and at write `fails` (0: none) an error, or nothing taken.
#[derive(Drop)]
pub struct FailingWriter {
    pub bytes: Vec<u8>,
    pub writes: usize,
    pub fails: usize,
    pub takes_nothing: bool,
    pub flushes: bool,
}

impl FailingWriter {
    /// One that holds nothing, and fails at no write. Takes no memory.
    pub fn new(alloc: Global) -> FailingWriter
        ensures empty { result.bytes.items ≡ [] }
        ensures writes { (result.writes ≡ 0) × (result.fails ≡ 0) }
        ensures works { (result.takes_nothing ≡ false) × (result.flushes ≡ true) }
    {
        FailingWriter {
            bytes: Vec::new(alloc),
            writes: 0,
            fails: 0,
            takes_nothing: false,
            flushes: true,
        }
    }
}

impl Write for FailingWriter {
    fn write(&mut self, buf: &[u8]) -> io::Result<usize> {
        self.writes = self.writes.saturating_add(1);
        if self.writes == self.fails {
            if self.takes_nothing {
                return Ok(0);
            }
            return Err(io::Error::from(ErrorKind::Other));
        }
        match buf.first() {
            Some(byte) => {
                self.bytes.push(*byte)?;
                Ok(1)
            }
            None => Ok(0),
        }
    }

    fn flush(&mut self) -> io::Result<()> {
        if self.flushes {
            Ok(())
        } else {
            Err(io::Error::from(ErrorKind::Other))
        }
    }
}
