//! How often `take` calls the file system, and the fault that stands for each error.
use super::parts::{Parts, has_parts};
use predicates_path::PathFault::{NotFound, Other, PermissionDenied};
use predicates_path::{FileType, PathFault, Snapshot};
use std::alloc::{AllocError, Allocator, Global};
use std::cell::Cell;
use std::fs::{Metadata, OpenOptions};
use std::io;
use std::io::ErrorKind;
use std::rt::Files;

// A file system of one empty file, which counts its calls and fails at some of them.
#[derive(Drop)]
struct OneFile {
    rt: HostRuntime,
    plain: Result<(), ErrorKind>,
    followed: Result<(), ErrorKind>,
    opened: Result<&'static str, ErrorKind>,
    plain_count: Cell<u8>,
    followed_count: Cell<u8>,
    opened_count: Cell<u8>,
}

fn count(cell: &Cell<u8>) {
    cell.set(cell.get().saturating_add(1));
}

fn refuse<T>() -> io::Result<T> {
    Err(io::Error::from(ErrorKind::Unsupported))
}

impl Alloc for OneFile {
    type A = Global;

    fn alloc(&self) -> Global {
        self.rt.alloc()
    }
}

impl Files for OneFile {
    type File = <HostRuntime as Files>::File;

    type Dir = <HostRuntime as Files>::Dir;

    fn open_file(&self, how: &OpenOptions, _path: &str) -> io::Result<Self::File> {
        count(&self.opened_count);
        match self.opened {
            Ok(path) => self.rt.open_file(how, path),
            Err(kind) => Err(io::Error::from(kind)),
        }
    }

    fn open_dir(&self, _path: &str) -> io::Result<Self::Dir> {
        refuse()
    }

    fn metadata(&self, _path: &str) -> io::Result<Metadata> {
        count(&self.followed_count);
        match self.followed {
            Ok(()) => Ok(Metadata::of_file(0)),
            Err(kind) => Err(io::Error::from(kind)),
        }
    }

    fn symlink_metadata(&self, _path: &str) -> io::Result<Metadata> {
        count(&self.plain_count);
        match self.plain {
            Ok(()) => Ok(Metadata::of_file(0)),
            Err(kind) => Err(io::Error::from(kind)),
        }
    }

    fn copy(&self, _from: &str, _to: &str) -> io::Result<u64> {
        refuse()
    }

    fn rename(&self, _from: &str, _to: &str) -> io::Result<()> {
        refuse()
    }

    fn remove_file(&self, _path: &str) -> io::Result<()> {
        refuse()
    }

    fn create_dir(&self, _path: &str) -> io::Result<()> {
        refuse()
    }

    fn remove_dir(&self, _path: &str) -> io::Result<()> {
        refuse()
    }

    fn remove_dir_all<B: Allocator>(&self, _alloc: B, _path: &str) -> io::Result<()> {
        refuse()
    }
}

// The kinds of error, and the fault that stands for each.
const KINDS: [(ErrorKind, PathFault); 5] = [
    (ErrorKind::NotFound, NotFound),
    (ErrorKind::PermissionDenied, PermissionDenied),
    (ErrorKind::NotADirectory, Other),
    (ErrorKind::FilesystemLoop, Other),
    (ErrorKind::Uncategorized, Other),
];

// What `symlink_metadata`, `metadata` and `open_file` answer; the last opens what stands at the
// path.
type Calls = (
    Result<(), ErrorKind>,
    Result<(), ErrorKind>,
    Result<&'static str, ErrorKind>,
);

// Whether the snapshot at `p` has these parts where the calls answer so, and each is made so often.
fn takes(
    rt: &HostRuntime,
    calls: Calls,
    parts: Parts<'_>,
    counts: [u8; 3],
) -> Result<bool, AllocError> {
    let (plain, followed, opened) = calls;
    let files = OneFile {
        rt: rt.clone()?,
        plain,
        followed,
        opened,
        plain_count: Cell::new(0),
        followed_count: Cell::new(0),
        opened_count: Cell::new(0),
    };
    let taken = Snapshot::take(&files, files.alloc(), "p")?;
    let made = [
        files.plain_count.get(),
        files.followed_count.get(),
        files.opened_count.get(),
    ];
    Ok(taken.path() == "p" && has_parts(&taken, parts) && made == counts)
}

const EMPTY: &str = "/dev/null";

// Whether the fault stands for the error where `symlink_metadata` fails, where `metadata` does, and
// where `open_file` does.
fn are_faults(
    rt: &HostRuntime,
    kind: ErrorKind,
    fault: PathFault,
) -> Result<[bool; 3], AllocError> {
    let (file, failed) = (Ok(FileType::File), Err(kind));
    let calls = (failed, Ok(()), Ok(EMPTY));
    let first = takes(rt, calls, (Err(fault), file, Ok(b"")), [1, 1, 1])?;
    let calls = (Ok(()), failed, Ok(EMPTY));
    let second = takes(rt, calls, (file, Err(fault), Err(fault)), [1, 1, 0])?;
    let calls = (Ok(()), Ok(()), Err(kind));
    let third = takes(rt, calls, (file, file, Err(fault)), [1, 1, 1])?;
    Ok([first, second, third])
}

#[test]
fn each_call_is_made_once(rt: HostRuntime) {
    let file = Ok(FileType::File);
    let calls = (Ok(()), Ok(()), Ok(EMPTY));
    assert!(rt; takes(&rt, calls, (file, file, Ok(b"")), [1, 1, 1]).expect(&rt, "memory"));
    for (kind, fault) in KINDS {
        assert!(rt;
            are_faults(&rt, kind, fault).expect(&rt, "memory") == [true; 3],
            "{kind:?}"
        );
    }
}

// A folder is opened as a file is, and its first read fails.
#[test]
fn a_read_that_fails(rt: HostRuntime) {
    let file = Ok(FileType::File);
    let calls = (Ok(()), Ok(()), Ok("/"));
    assert!(rt; takes(&rt, calls, (file, file, Err(Other)), [1, 1, 1]).expect(&rt, "memory"));
}

// Whether there is no snapshot where the calls answer so.
fn takes_nothing(rt: &HostRuntime, calls: Calls) -> bool {
    let nothing = (Err(Other), Err(Other), Err(Other));
    takes(rt, calls, nothing, [0, 0, 0]).is_err()
}

// A call that runs out of memory gives no snapshot.
#[test]
fn out_of_memory(rt: HostRuntime) {
    let refused = ErrorKind::OutOfMemory;
    assert!(rt; takes_nothing(&rt, (Err(refused), Ok(()), Ok(EMPTY))));
    assert!(rt; takes_nothing(&rt, (Ok(()), Err(refused), Ok(EMPTY))));
    assert!(rt; takes_nothing(&rt, (Ok(()), Ok(()), Err(refused))));
}
