//! The files of a process, which are read.
use super::Process;
use std::alloc::Allocator;
use std::fs::{Metadata, OpenFile, OpenOptions};
use std::io;
use std::io::{Error, ErrorKind, Read, Seek, SeekFrom, Write};
use std::rt::Files;

/// A file of a process, as it is read.
#[derive(Drop)]
pub struct OpenedFile<'a> {
    bytes: &'a [u8],
}

fn refuse<T>() -> io::Result<T> {
    Err(Error::from(ErrorKind::Unsupported))
}

impl Read for OpenedFile<'_> {
    fn read(&mut self, buf: &mut [u8]) -> io::Result<usize> {
        self.bytes.read(buf)
    }
}

impl Write for OpenedFile<'_> {
    fn write(&mut self, _buf: &[u8]) -> io::Result<usize> {
        Err(Error::from(ErrorKind::Unsupported))
    }

    fn flush(&mut self) -> io::Result<()> {
        refuse()
    }
}

impl Seek for OpenedFile<'_> {
    fn seek(&mut self, _pos: SeekFrom) -> io::Result<u64> {
        refuse()
    }
}

impl OpenFile for OpenedFile<'_> {
    fn metadata(&self) -> io::Result<Metadata> {
        refuse()
    }

    fn set_len(&self, _size: u64) -> io::Result<()> {
        refuse()
    }

    fn sync_all(&self) -> io::Result<()> {
        refuse()
    }

    fn sync_data(&self) -> io::Result<()> {
        refuse()
    }
}

impl<'a> Files for Process<'a> {
    type File = OpenedFile<'a>;

    type Dir = OpenedFile<'a>;

    fn open_file(&self, _how: &OpenOptions, path: &str) -> io::Result<OpenedFile<'a>> {
        for (name, bytes) in self.files {
            if path == *name {
                return Ok(OpenedFile { bytes });
            }
        }
        Err(Error::from(ErrorKind::NotFound))
    }

    fn open_dir(&self, _path: &str) -> io::Result<OpenedFile<'a>> {
        refuse()
    }

    fn metadata(&self, path: &str) -> io::Result<Metadata> {
        for (name, bytes) in self.files {
            if path == *name {
                return Ok(Metadata::of_file(bytes.len() as u64));
            }
        }
        Err(Error::from(ErrorKind::NotFound))
    }

    fn symlink_metadata(&self, _path: &str) -> io::Result<Metadata> {
        refuse()
    }

    fn copy(&self, _from: &str, _to: &str) -> io::Result<u64> {
        refuse()
    }

    fn rename(&self, _from: &str, _to: &str) -> io::Result<()> {
        refuse()
    }

    fn remove_file(&self, _path: &str) -> io::Result<()> {
        refuse()
    }

    fn create_dir(&self, _path: &str) -> io::Result<()> {
        refuse()
    }

    fn remove_dir(&self, _path: &str) -> io::Result<()> {
        refuse()
    }

    fn remove_dir_all<B: Allocator>(&self, _alloc: B, _path: &str) -> io::Result<()> {
        refuse()
    }
}
