//! A process whose words, files, input and outputs are values.
mod files;

use crate::slow::Slow;
pub use files::OpenedFile;
use std::alloc::{Alloc, Allocator, Global};
use std::cell::{Cell, RefCell};
use std::env::FillError;
use std::fmt::Display;
use std::io;
use std::io::{BufRead, Eprint, Error, ErrorKind, Input, Lines, Print};
use std::rt::{Clock, Env};
use std::time::Duration;

/// The output of a process that fails.
#[derive(Clone, Copy, PartialEq, Eq)]
pub enum Closed {
    Neither,
    Output,
    Error,
}

/// A process with these words, of which the first is the program's name, files by their paths, this
/// input with the error at its end, and an output that fails; it keeps what is written. Its clock
/// begins at 0, and each look at it moves it on by `tick` milliseconds; with None it has no clock.
#[derive(Drop)]
pub struct Process<'a> {
    pub alloc: Global,
    pub words: &'a [&'a [u8]],
    pub files: &'a [(&'a str, &'a [u8])],
    pub input: &'a [u8],
    pub end: Option<ErrorKind>,
    pub closed: Closed,
    pub tick: Option<u64>,
    time: Cell<u64>,
    output: RefCell<Vec<u8>>,
    error: RefCell<Vec<u8>>,
}

impl<'a> Process<'a> {
    /// A process with these words, files and input, in which nothing fails.
    pub fn new(
        alloc: Global,
        words: &'a [&'a [u8]],
        files: &'a [(&'a str, &'a [u8])],
        input: &'a [u8],
    ) -> Process<'a> {
        Process {
            alloc,
            words,
            files,
            input,
            end: None,
            closed: Closed::Neither,
            tick: Some(0),
            time: Cell::new(0),
            output: RefCell::new(Vec::new(alloc)),
            error: RefCell::new(Vec::new(alloc)),
        }
    }

    /// What was written to standard output, and to standard error.
    pub fn into_written(self) -> (Vec<u8>, Vec<u8>) {
        let Process { output, error, .. } = self;
        (output.into_inner(), error.into_inner())
    }

    // Writes to standard output.
    fn put(&self, bytes: &[u8]) -> io::Result<()> {
        append(&self.output, self.closed == Closed::Output, bytes)
    }

    // Writes to standard error.
    fn tell(&self, bytes: &[u8]) -> io::Result<()> {
        append(&self.error, self.closed == Closed::Error, bytes)
    }
}

fn append(to: &RefCell<Vec<u8>>, closed: bool, bytes: &[u8]) -> io::Result<()> {
    if closed {
        return Err(Error::from(ErrorKind::BrokenPipe));
    }
    let Ok(mut all) = to.try_borrow_mut() else {
        return Err(Error::from(ErrorKind::Other));
    };
    all.extend_from_slice(bytes)?;
    Ok(())
}

impl Alloc for Process<'_> {
    type A = Global;

    fn alloc(&self) -> Global {
        self.alloc
    }
}

impl Clock for Process<'_> {
    fn monotonic(&self) -> io::Result<Duration> {
        let Some(tick) = self.tick else {
            return Err(Error::from(ErrorKind::Unsupported));
        };
        let now = self.time.get();
        self.time.set(now.saturating_add(tick));
        Ok(Duration::from_millis(now))
    }

    fn since_1970(&self) -> io::Result<Duration> {
        self.monotonic()
    }
}

impl Env for Process<'_> {
    fn arg(&self, i: usize, buf: &mut [u8]) -> Result<usize, FillError> {
        let Some(word) = self.words.get(i) else {
            return Err(FillError::NotPresent);
        };
        let len = word.len();
        if len > buf.len() {
            return Err(FillError::TooLong);
        }
        buf[..len].copy_from_slice(word);
        Ok(len)
    }

    fn var(&self, _name: &str, _buf: &mut [u8]) -> Result<usize, FillError> {
        Err(FillError::NotPresent)
    }

    fn var_at(&self, _i: usize, _buf: &mut [u8]) -> Result<usize, FillError> {
        Err(FillError::NotPresent)
    }
}

impl<'a> Input for Process<'a> {
    type Reader = Slow<'a>;

    fn read_line<A: Allocator + Clone>(&self, _buf: &mut String<A>) -> io::Result<usize> {
        Err(Error::from(ErrorKind::Unsupported))
    }

    fn lines<A: Allocator>(&self, alloc: A) -> Lines<Slow<'a>, A> {
        self.reader().lines(alloc)
    }

    fn reader(&self) -> Slow<'a> {
        Slow {
            bytes: self.input,
            end: self.end,
        }
    }
}

impl Print for Process<'_> {
    fn print<D: Display + Drop>(&self, value: D) -> io::Result<()> {
        self.put(value.to_string(self.alloc)?.as_bytes())
    }

    fn println<D: Display + Drop>(&self, value: D) -> io::Result<()> {
        self.print(value)?;
        self.put(b"\n")
    }

    fn write_all(&self, bytes: &[u8]) -> io::Result<()> {
        self.put(bytes)
    }
}

impl Eprint for Process<'_> {
    fn eprint<D: Display + Drop>(&self, value: D) -> io::Result<()> {
        self.tell(value.to_string(self.alloc)?.as_bytes())
    }

    fn eprintln<D: Display + Drop>(&self, value: D) -> io::Result<()> {
        self.eprint(value)?;
        self.tell(b"\n")
    }
}
