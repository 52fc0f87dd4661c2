//! Standard output, as a place for bytes.
use std::io;
use std::io::Write;

// Of a process. The error of a write that failed is kept.
#[derive(Drop)]
pub(crate) struct Stdout<'a, E> {
    pub(crate) rt: &'a E,
    pub(crate) error: Option<io::Error>,
}

impl<E: Print> Write for Stdout<'_, E> {
    fn write(&mut self, buf: &[u8]) -> io::Result<usize> {
        match self.rt.write_some(buf) {
            Ok(count) => {
                self.error = None;
                Ok(count)
            }
            Err(error) => {
                let kind = error.kind();
                self.error = Some(error);
                Err(io::Error::from(kind))
            }
        }
    }

    fn flush(&mut self) -> io::Result<()> {
        Ok(())
    }
}
