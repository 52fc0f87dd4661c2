//! A writer of one byte at a time.
ghost use Rattle.std.specs.Prelude.{Some};

use std::io;
use std::io::{Error, ErrorKind, Write};

/// Takes one byte at a time, and after `room` of them fails with an error of the kind.
#[derive(Drop)]
pub struct Narrow {
    pub got: Vec<u8>,
    pub room: usize,
    pub kind: ErrorKind,
}

impl Write for Narrow {
    ghost contents = { λ w. Some w.got.items };

    fn write(&mut self, buf: &[u8]) -> io::Result<usize> {
        if self.room <= self.got.len() {
            return Err(Error::from(self.kind));
        }
        let most = buf.len().min(1);
        self.got.extend_from_slice(&buf[..most])?;
        Ok(most)
    }

    fn flush(&mut self) -> io::Result<()> {
        Ok(())
    }
}
