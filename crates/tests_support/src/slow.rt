//! A reader of one byte at a time.
ghost use Rattle.std.specs.Prelude.{Some};

use std::io;
use std::io::{BufRead, Error, ErrorKind, Read};

/// Hands out its bytes one at a time; behind them stands an error of the kind, or the input's end.
#[derive(Drop)]
pub struct Slow<'a> {
    pub bytes: &'a [u8],
    pub end: Option<ErrorKind>,
}

impl Slow<'_> {
    // Fails where no byte is left and an error stands behind them.
    fn check_end(&self) -> io::Result<()> {
        match self.end {
            Some(kind) if self.bytes.is_empty() => Err(Error::from(kind)),
            _ => Ok(()),
        }
    }
}

impl Read for Slow<'_> {
    ghost remaining = { λ r. Some r.bytes.now };

    fn read(&mut self, buf: &mut [u8]) -> io::Result<usize> {
        self.check_end()?;
        let most = buf.len().min(1);
        self.bytes.read(&mut buf[..most])
    }
}

impl BufRead for Slow<'_> {
    fn fill_buf(&mut self) -> io::Result<&[u8]> {
        self.check_end()?;
        let all = self.bytes;
        let most = all.len().min(1);
        Ok(&all[..most])
    }

    fn consume(&mut self, amount: usize) {
        self.bytes.consume(amount);
    }
}
