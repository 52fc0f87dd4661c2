//! A process whose output fails otherwise than by a closed pipe, or with an input that is no file.
use std::alloc::{Alloc, Allocator, Global};
use std::env::FillError;
use std::fmt::Display;
use std::fs::{Metadata, OpenOptions};
use std::io;
use std::io::{Eprint, Error, ErrorKind, Input, Lines, Print};
use std::rt::{Clock, Env, Files};
use std::time::Duration;
use tests_support::{OpenedFile, Process, Slow};

/// A process, but for its standard output, of which each write fails with an error of the kind,
/// where there is one, for the input of the name, which is read as before and is a folder, and for
/// the variables of its environment.
#[derive(Drop)]
pub(super) struct OddProcess<'a> {
    pub(super) held: Process<'a>,
    pub(super) fault: Option<ErrorKind>,
    pub(super) folder: &'a str,
    pub(super) variables: &'a [(&'a str, &'a [u8])],
}

impl OddProcess<'_> {
    fn check_output(&self) -> io::Result<()> {
        match self.fault {
            Some(kind) => Err(Error::from(kind)),
            None => Ok(()),
        }
    }
}

impl Alloc for OddProcess<'_> {
    type A = Global;

    fn alloc(&self) -> Global {
        self.held.alloc()
    }
}

impl Clock for OddProcess<'_> {
    fn monotonic(&self) -> io::Result<Duration> {
        self.held.monotonic()
    }

    fn since_1970(&self) -> io::Result<Duration> {
        self.held.since_1970()
    }
}

impl Env for OddProcess<'_> {
    fn arg(&self, i: usize, buf: &mut [u8]) -> Result<usize, FillError> {
        self.held.arg(i, buf)
    }

    fn var(&self, name: &str, buf: &mut [u8]) -> Result<usize, FillError> {
        let mut variables = self.variables.iter();
        let Some((_, text)) = variables.find(|(known, _)| *known == name) else {
            return Err(FillError::NotPresent);
        };
        let len = text.len();
        if len > buf.len() {
            return Err(FillError::TooLong);
        }
        buf[..len].copy_from_slice(text);
        Ok(len)
    }

    fn var_at(&self, i: usize, buf: &mut [u8]) -> Result<usize, FillError> {
        self.held.var_at(i, buf)
    }
}

impl<'a> Input for OddProcess<'a> {
    type Reader = Slow<'a>;

    fn read_line<A: Allocator + Clone>(&self, buf: &mut String<A>) -> io::Result<usize> {
        self.held.read_line(buf)
    }

    fn lines<A: Allocator>(&self, alloc: A) -> Lines<Slow<'a>, A> {
        self.held.lines(alloc)
    }

    fn reader(&self) -> Slow<'a> {
        self.held.reader()
    }
}

impl Print for OddProcess<'_> {
    fn print<D: Display + Drop>(&self, value: D) -> io::Result<()> {
        self.check_output()?;
        self.held.print(value)
    }

    fn println<D: Display + Drop>(&self, value: D) -> io::Result<()> {
        self.check_output()?;
        self.held.println(value)
    }

    fn write_all(&self, bytes: &[u8]) -> io::Result<()> {
        self.check_output()?;
        self.held.write_all(bytes)
    }
}

impl Eprint for OddProcess<'_> {
    fn eprint<D: Display + Drop>(&self, value: D) -> io::Result<()> {
        self.held.eprint(value)
    }

    fn eprintln<D: Display + Drop>(&self, value: D) -> io::Result<()> {
        self.held.eprintln(value)
    }
}

impl<'a> Files for OddProcess<'a> {
    type File = OpenedFile<'a>;

    type Dir = OpenedFile<'a>;

    fn open_file(&self, how: &OpenOptions, path: &str) -> io::Result<OpenedFile<'a>> {
        self.held.open_file(how, path)
    }

    fn open_dir(&self, path: &str) -> io::Result<OpenedFile<'a>> {
        self.held.open_dir(path)
    }

    fn metadata(&self, path: &str) -> io::Result<Metadata> {
        if path == self.folder {
            return Ok(Metadata::of_dir());
        }
        self.held.metadata(path)
    }

    fn symlink_metadata(&self, path: &str) -> io::Result<Metadata> {
        self.held.symlink_metadata(path)
    }

    fn copy(&self, from: &str, to: &str) -> io::Result<u64> {
        self.held.copy(from, to)
    }

    fn rename(&self, from: &str, to: &str) -> io::Result<()> {
        self.held.rename(from, to)
    }

    fn remove_file(&self, path: &str) -> io::Result<()> {
        self.held.remove_file(path)
    }

    fn create_dir(&self, path: &str) -> io::Result<()> {
        self.held.create_dir(path)
    }

    fn remove_dir(&self, path: &str) -> io::Result<()> {
        self.held.remove_dir(path)
    }

    fn remove_dir_all<B: Allocator>(&self, alloc: B, path: &str) -> io::Result<()> {
        self.held.remove_dir_all(alloc, path)
    }
}
