//! A writer that takes no memory.
use std::io;
use std::io::Write;

/// It keeps the first 128 bytes, and takes no memory.
#[derive(Drop)]
pub struct FixedWriter {
    pub bytes: [u8; 128],
    pub used: usize,
}

impl Write for FixedWriter {
    fn write(&mut self, buf: &[u8]) -> io::Result<usize> {
        let used = self.used.min(128);
        let count = buf.len().min(128 - used);
        self.bytes[used..used + count].copy_from_slice(&buf[..count]);
        self.used = used + count;
        Ok(count)
    }

    fn flush(&mut self) -> io::Result<()> {
        Ok(())
    }
}
