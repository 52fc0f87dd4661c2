//! A writer that fails at its flush.
use std::io;
use std::io::{Error, ErrorKind, Write};

/// Takes all that it is given, and fails where it is to pass it on.
#[derive(Clone, Copy)]
pub struct Unflushed;

impl Write for Unflushed {
    fn write(&mut self, buf: &[u8]) -> io::Result<usize> {
        Ok(buf.len())
    }

    fn flush(&mut self) -> io::Result<()> {
        Err(Error::from(ErrorKind::BrokenPipe))
    }
}
