//! A reader that gives a few bytes at a time and may fail.
use std::io;
use std::io::{ErrorKind, Read};

/// This many bytes a read, and an error at read `fails` (0: none).
#[derive(Drop)]
pub struct ShortReader<'a> {
    pub bytes: &'a [u8],
    pub step: usize,
    pub reads: usize,
    pub fails: usize,
}

impl Read for ShortReader<'_> {
    fn read(&mut self, buf: &mut [u8]) -> io::Result<usize> {
        self.reads = self.reads.saturating_add(1);
        if self.reads == self.fails {
            return Err(io::Error::from(ErrorKind::Other));
        }
        let most = self.step.min(buf.len()).min(self.bytes.len());
        buf[..most].copy_from_slice(&self.bytes[..most]);
        self.bytes = &self.bytes[most..];
        Ok(most)
    }
}
