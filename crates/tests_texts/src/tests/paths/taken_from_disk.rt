//! What `take` finds on a real file system.
use super::parts::{Parts, has_parts};
use crate::tests::made::Host;
use predicates_path::FileType::{Dir, File, Other, Symlink};
use predicates_path::PathFault::{NotFound, NotRegular, Other as Fault};
use predicates_path::Snapshot;
use std::alloc::AllocError;
use std::io::{Read, Write};
use std::os::unix::fs::symlink;
use std::os::unix::io::AsRawFd;
use std::{fs, io};
use tests_support::new_folder;

// The names in the folder, and what stands under each.
const ROWS: [(&str, Parts<'static>); 15] = [
    ("file", (Ok(File), Ok(File), Ok(b"hello"))),
    ("empty", (Ok(File), Ok(File), Ok(b""))),
    ("folder", (Ok(Dir), Ok(Dir), Err(NotRegular))),
    ("to_file", (Ok(Symlink), Ok(File), Ok(b"hello"))),
    ("to_empty", (Ok(Symlink), Ok(File), Ok(b""))),
    ("to_folder", (Ok(Symlink), Ok(Dir), Err(NotRegular))),
    ("to_device", (Ok(Symlink), Ok(Other), Err(NotRegular))),
    ("to_nothing", (Ok(Symlink), Err(NotFound), Err(NotFound))),
    ("nothing", (Err(NotFound), Err(NotFound), Err(NotFound))),
    ("bytes", (Ok(File), Ok(File), Ok(b"\xff\x00\xfe"))),
    ("lines", (Ok(File), Ok(File), Ok(b"a\n\n\n"))),
    ("a name ", (Ok(File), Ok(File), Ok(b" "))),
    ("a name", (Err(NotFound), Err(NotFound), Err(NotFound))),
    ("file/", (Err(Fault), Err(Fault), Err(Fault))),
    ("folder/", (Ok(Dir), Ok(Dir), Err(NotRegular))),
];

// The files in the folder, and the content of each.
const FILES: [(&str, &[u8]); 5] = [
    ("file", b"hello"),
    ("empty", b""),
    ("bytes", b"\xff\x00\xfe"),
    ("lines", b"a\n\n\n"),
    ("a name ", b" "),
];

// The links in the folder, and where each leads.
const LINKS: [(&str, &str); 5] = [
    ("to_file", "file"),
    ("to_empty", "empty"),
    ("to_folder", "folder"),
    ("to_device", "/dev/null"),
    ("to_nothing", "nothing"),
];

// The path of the name in the folder.
fn path_in(rt: &HostRuntime, folder: &str, name: &str) -> Result<String, AllocError> {
    format!(in rt.alloc(); "{folder}/{name}")
}

fn write_in(rt: &HostRuntime, folder: &str, name: &str, content: &[u8]) -> io::Result<()> {
    let path = path_in(rt, folder, name)?;
    fs::write(rt, path.as_str(), content)
}

fn link_in(rt: &HostRuntime, folder: &str, name: &str, place: &str) -> io::Result<()> {
    let path = path_in(rt, folder, name)?;
    symlink(rt, place, path.as_str())
}

fn fill(rt: &HostRuntime, folder: &str) -> io::Result<()> {
    for (name, content) in FILES {
        write_in(rt, folder, name, content)?;
    }
    for (name, place) in LINKS {
        link_in(rt, folder, name, place)?;
    }
    let path = path_in(rt, folder, "folder")?;
    fs::create_dir(rt, path.as_str())
}

// Whether what is taken at the path has the path and these parts.
fn stands(rt: &HostRuntime, path: &str, parts: Parts<'_>) -> io::Result<bool> {
    let taken = Snapshot::take(rt, rt.alloc(), path)?;
    Ok(taken.path() == path && has_parts(&taken, parts))
}

// Whether what is taken under the name in the folder has these parts.
fn stands_in(rt: &HostRuntime, folder: &str, name: &str, parts: Parts<'_>) -> io::Result<bool> {
    let path = path_in(rt, folder, name)?;
    stands(rt, path.as_str(), parts)
}

// The first name under which something else was taken, or `none`.
fn first_wrong(rt: &HostRuntime, folder: &str) -> io::Result<&'static str> {
    fill(rt, folder)?;
    for (name, parts) in ROWS {
        if !stands_in(rt, folder, name, parts)? {
            return Ok(name);
        }
    }
    Ok("none")
}

#[test]
fn what_stands_in_a_folder(rt: HostRuntime) {
    let folder = new_folder(&rt, "predicates_path").expect(&rt, "files");
    let wrong = first_wrong(&rt, folder.as_str());
    fs::remove_dir_all(&rt, folder.as_str()).expect(&rt, "files");
    assert_eq!(rt; wrong.expect(&rt, "files"), "none");
}

// This many bytes, which repeat after 251.
fn bytes(rt: &impl Host, length: u32) -> Vec<u8> {
    let mut bytes = Vec::new(rt.alloc());
    for number in 0..length {
        bytes.push((number % 251) as u8).expect(rt, "memory");
    }
    bytes
}

// Whether a file in the folder is taken with the content that it is made with.
fn is_kept(rt: &HostRuntime, folder: &str, content: &[u8]) -> io::Result<bool> {
    write_in(rt, folder, "long", content)?;
    stands_in(rt, folder, "long", (Ok(File), Ok(File), Ok(content)))
}

#[test]
fn a_long_content(rt: HostRuntime) {
    let content = bytes(&rt, 70_001);
    let folder = new_folder(&rt, "predicates_path").expect(&rt, "files");
    let kept = is_kept(&rt, folder.as_str(), content.as_slice());
    fs::remove_dir_all(&rt, folder.as_str()).expect(&rt, "files");
    assert!(rt; kept.expect(&rt, "files"));
}

#[test]
fn an_empty_path(rt: HostRuntime) {
    let nothing = (Err(NotFound), Err(NotFound), Err(NotFound));
    assert!(rt; stands(&rt, "", nothing).expect(&rt, "files"));
}

#[test]
fn a_device(rt: HostRuntime) {
    let device = (Ok(Other), Ok(Other), Err(NotRegular));
    assert!(rt; stands(&rt, "/dev/null", device).expect(&rt, "files"));
}

// A pipe stands behind a link of the system's.
const PIPE: Parts<'static> = (Ok(Symlink), Ok(Other), Err(NotRegular));

// Whether a pipe stands behind the link of the process's file of this number.
fn is_pipe(rt: &HostRuntime, number: i32) -> io::Result<bool> {
    let path = format!(in rt.alloc(); "/proc/self/fd/{number}")?;
    stands(rt, path.as_str(), PIPE)
}

// Whether this byte is read next.
fn is_next<R: Read>(reader: &mut R, byte: u8) -> io::Result<bool> {
    let mut bytes = [0];
    let count = reader.read(&mut bytes)?;
    Ok(count == 1 && bytes == [byte])
}

// Reading a pipe would wait, as nothing is written yet.
#[test]
fn a_pipe_left_unread(rt: HostRuntime) {
    let (mut reader, mut writer) = io::pipe(&rt).expect(&rt, "files");
    let number = reader.as_raw_fd();
    assert!(rt; is_pipe(&rt, number).expect(&rt, "files"));
    writer.write_all(b"a").expect(&rt, "files");
    assert!(rt; is_pipe(&rt, number).expect(&rt, "files"));
    assert!(rt; is_next(&mut reader, b'a').expect(&rt, "files"));
}
