//! A reader that fails after some calls.
use crate::call::take_call;
use std::io;
use std::io::{BufRead, ErrorKind, Read};

/// Hands out its bytes, and after this many calls fails with an error of the kind.
#[derive(Drop)]
pub struct FailingReader<'a> {
    pub bytes: &'a [u8],
    pub calls: usize,
    pub kind: ErrorKind,
}

impl Read for FailingReader<'_> {
    fn read(&mut self, buf: &mut [u8]) -> io::Result<usize> {
        take_call(&mut self.calls, self.kind)?;
        self.bytes.read(buf)
    }
}

impl BufRead for FailingReader<'_> {
    fn fill_buf(&mut self) -> io::Result<&[u8]> {
        take_call(&mut self.calls, self.kind)?;
        Ok(self.bytes)
    }

    fn consume(&mut self, amount: usize) {
        self.bytes.consume(amount);
    }
}
