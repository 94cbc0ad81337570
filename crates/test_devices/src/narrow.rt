//! Streams that fail.

use std::io;
use std::io::{Error, ErrorKind, Write};

/// A stream that takes one byte a call, up to a limit, and then nothing.
#[derive(Drop)]
pub struct Narrow {
    pub left: usize,
}

impl Write for Narrow {
    fn write(&mut self, buf: &[u8]) -> io::Result<usize> {
        if buf.is_empty() || self.left == 0 {
            return Ok(0);
        }
        self.left -= 1;
        Ok(1)
    }

    fn flush(&mut self) -> io::Result<()> {
        Ok(())
    }
}

/// A stream that has no memory.
#[derive(Drop)]
pub struct NoMemory;

impl Write for NoMemory {
    fn write(&mut self, _: &[u8]) -> io::Result<usize> {
        Err(Error::from(ErrorKind::OutOfMemory))
    }

    fn flush(&mut self) -> io::Result<()> {
        Ok(())
    }
}
