//! A writer that fails after some calls.
use crate::call::take_call;
use std::io;
use std::io::{ErrorKind, Write};

/// Takes all that it is given, and after this many calls fails with an error of the kind.
#[derive(Drop)]
pub struct FailingWriter {
    pub calls: usize,
    pub kind: ErrorKind,
}

impl Write for FailingWriter {
    fn write(&mut self, buf: &[u8]) -> io::Result<usize> {
        take_call(&mut self.calls, self.kind)?;
        Ok(buf.len())
    }

    fn flush(&mut self) -> io::Result<()> {
        take_call(&mut self.calls, self.kind)
    }
}
