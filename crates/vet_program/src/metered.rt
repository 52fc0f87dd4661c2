//! An input that is watched on a terminal.
use crate::watched::Watched;
use std::io;
use std::io::Read;
use std::rt::Clock;

/// An input of a process that is watched: what is read is counted, and handed on as it is. The
/// error of a read that failed is kept.
#[derive(Drop)]
pub(crate) struct Metered<'w, 'a, E, R> {
    pub(crate) inner: R,
    pub(crate) watched: &'w Watched<'a, E>,
    pub(crate) error: Option<io::Error>,
}

impl<E: Eprint + Clock, R: Read> Read for Metered<'_, '_, E, R> {
    ghost remaining = { λ m. R.remaining m.inner };

    fn read(&mut self, buf: &mut [u8]) -> io::Result<usize> {
        match self.inner.read(buf) {
            Ok(count) => {
                if let Some(meter) = &self.watched.meter {
                    meter.count(self.watched.rt, &buf[..count]);
                }
                Ok(count)
            }
            Err(error) => {
                let kind = error.kind();
                self.error = Some(error);
                Err(io::Error::from(kind))
            }
        }
    }
}
