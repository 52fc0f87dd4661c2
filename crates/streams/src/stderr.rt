//! Standard error, as a place for texts.
use std::io::{Error, ErrorKind, Write};
use std::{io, str};

/// Standard error of the process, to which bytes are written that are UTF-8; others are refused
/// with `InvalidData`. It takes no memory.
#[derive(Drop)]
pub struct Stderr<'a, E> {
    pub rt: &'a E,
}

impl<E: Eprint> Write for Stderr<'_, E> {
    fn write(&mut self, buf: &[u8]) -> io::Result<usize> {
        let Ok(text) = str::from_utf8(buf) else {
            return Err(Error::from(ErrorKind::InvalidData));
        };
        self.rt.eprint(text)?;
        Ok(buf.len())
    }

    fn flush(&mut self) -> io::Result<()> {
        Ok(())
    }
}
