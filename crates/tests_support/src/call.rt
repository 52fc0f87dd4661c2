//! The calls that a stream answers before it fails.
use std::io;
use std::io::{Error, ErrorKind};

// Takes one of the calls that are left; where none is, it fails with the kind.
pub(crate) fn take_call(calls: &mut usize, kind: ErrorKind) -> io::Result<()> {
    if *calls == 0 {
        return Err(Error::from(kind));
    }
    *calls -= 1;
    Ok(())
}
