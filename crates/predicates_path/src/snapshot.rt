//! What was found at a path, read once.
//!
//! ```
//! let taken = Snapshot::take(&rt, alloc, "run.sh")?;
//! let made = Snapshot::from_parts("l".to_owned(alloc)?, kind, kind, Ok(bytes));
//! ```
ghost use Rattle.std.specs.Prelude.{◌≡◌, Some, codes, IfOk, string_bytes};
ghost use Rattle.predicates_core.specs.Leaves.{IsShowing};
ghost use Rattle.std.specs.Fs.{file_type};
ghost use Rattle.predicates_path.specs.Equality.{has_bytes, has_content};
ghost use Rattle.predicates_path.specs.FileType.{IsKindOf};
ghost use Rattle.predicates_path.specs.Fault.{IsKeptAs};
ghost use Rattle.predicates_path.specs.Snapshot.{path_of, plain_of, followed_of, held_of};
ghost use Rattle.predicates_path.specs.Snapshot.{content_of, read_bytes, IsConsistent};

use crate::fault::{PathFault, path_fault};
use crate::file_type::{FileType, kind_of};
use predicates_core::node::showing_text;
use predicates_core::reflection::Case;
use std::alloc::{AllocError, Global};
use std::fs::Metadata;
use std::rt::Files;
use std::{fs, io};

/// A path with the kinds and the content that were found there, or the faults in their place.
#[derive(Drop)]
pub struct Snapshot {
    pub(crate) path: String,
    plain: Result<FileType, PathFault>,
    followed: Result<FileType, PathFault>,
    pub(crate) content: Result<Vec<u8>, PathFault>,
}

// The kind that the metadata gives, or the fault.
fn kind(answer: io::Result<Metadata>) -> Result<Result<FileType, PathFault>, AllocError>
    ensures { IsKeptAs (λ metadata. IsKindOf (file_type metadata)) answer result }
{
    match answer {
        Ok(metadata) => Ok(Ok(kind_of(&metadata))),
        Err(error) => Ok(Err(path_fault(&error)?)),
    }
}

// The bytes that were read, or the fault.
fn content(answer: io::Result<Vec<u8>>) -> Result<Result<Vec<u8>, PathFault>, AllocError>
    ensures { IsKeptAs ◌≡◌ answer result }
{
    match answer {
        Ok(bytes) => Ok(Ok(bytes)),
        Err(error) => Ok(Err(path_fault(&error)?)),
    }
}

// Whether the bytes that were found equal these.
pub(crate) fn has_bytes(bytes: &[u8], found: &[u8]) -> bool
    ensures { result ≡ has_bytes bytes.now found.now }
{
    found == bytes
}

impl Snapshot {
    /// Queries the file system once for each of the two kinds, and reads the content once where the
    /// path leads to a regular file; it never waits for a pipe or a device. A failed query is kept
    /// as a `PathFault`. It fails only where memory runs out, here or in the system. It takes
    /// memory for the path and the content.
    ///
    /// ```
    /// let gone = Snapshot::take(&rt, alloc, "no such file")?;
    /// assert!(rt; gone.plain() == Err(PathFault::NotFound));
    /// ```
    pub fn take<R: Files + AllocGlobal>(
        rt: &R,
        alloc: Global,
        path: &str,
    ) -> Result<Snapshot, AllocError>
        ensures path { IfOk result (λ snapshot. path_of snapshot ≡ path.now) }
        ensures consistent { IfOk result IsConsistent }
    {
        let owned = String::from_str(alloc, path)?;
        let plain = kind(fs::symlink_metadata(rt, path))?;
        let followed = kind(fs::metadata(rt, path))?;
        let content = match followed {
            Ok(FileType::File) => content(fs::read(rt, path))?,
            Ok(_) => Err(PathFault::NotRegular),
            Err(fault) => Err(fault),
        };
        Ok(Snapshot {
            path: owned,
            plain,
            followed,
            content,
        })
    }

    /// A snapshot made of the given parts, even of parts that no file system would give together.
    /// It takes no memory.
    ///
    /// ```
    /// let (kind, content) = (Ok(FileType::File), Ok(Vec::from_slice(alloc, b"hello")?));
    /// let file = Snapshot::from_parts("a".to_owned(alloc)?, kind, kind, content);
    /// assert!(rt; file.path() == "a");
    /// ```
    pub fn from_parts(
        path: String,
        plain: Result<FileType, PathFault>,
        followed: Result<FileType, PathFault>,
        content: Result<Vec<u8>, PathFault>,
    ) -> Snapshot
        ensures path { path_of result ≡ string_bytes path }
        ensures plain { plain_of result ≡ plain }
        ensures followed { followed_of result ≡ followed }
        ensures content { held_of result ≡ content }
    {
        Snapshot {
            path,
            plain,
            followed,
            content,
        }
    }

    /// The path as it was given.
    ///
    /// ```
    /// let gone = Snapshot::take(&rt, alloc, "no such file")?;
    /// assert!(rt; gone.path() == "no such file");
    /// ```
    pub fn path(&self) -> &str
        ensures { result.now ≡ path_of self.now }
    {
        self.path.as_str()
    }

    /// The kind of file at the path itself, without following a link, or why there is none.
    ///
    /// ```
    /// let gone = Snapshot::take(&rt, alloc, "no such file")?;
    /// assert!(rt; gone.plain() == Err(PathFault::NotFound));
    /// ```
    pub fn plain(&self) -> Result<FileType, PathFault>
        ensures { result ≡ plain_of self.now }
    {
        self.plain
    }

    /// The kind of file that the path leads to, after following links, or why there is none.
    ///
    /// ```
    /// let here = Snapshot::take(&rt, alloc, ".")?;
    /// assert!(rt; here.followed() == Ok(FileType::Dir));
    /// ```
    pub fn followed(&self) -> Result<FileType, PathFault>
        ensures { result ≡ followed_of self.now }
    {
        self.followed
    }

    /// The bytes of the file that the path leads to, after following links, or why there are none.
    ///
    /// ```
    /// let (kind, content) = (Ok(FileType::File), Ok(Vec::from_slice(alloc, b"hello")?));
    /// let file = Snapshot::from_parts("a".to_owned(alloc)?, kind, kind, content);
    /// assert!(rt; file.content().unwrap_or(&[]).len() == 5);
    /// ```
    pub fn content(&self) -> Result<&[u8], PathFault>
        ensures { read_bytes (λ bytes. bytes.now) result ≡ content_of self.now }
    {
        match &self.content {
            Ok(bytes) => Ok(bytes.as_slice()),
            Err(fault) => Err(*fault),
        }
    }

    // Whether there is a content, and it equals the bytes.
    pub(crate) fn has_content(&self, bytes: &[u8]) -> bool
        ensures { result ≡ has_content bytes.now (content_of self.now) }
    {
        match &self.content {
            Ok(found) => has_bytes(bytes, found.as_slice()),
            Err(_) => false,
        }
    }

    // Adds the path as the product `var`.
    pub(crate) fn show_path(&self, alloc: Global, case: Case) -> Result<Case, AllocError>
        ensures { IfOk result (IsShowing (codes "var") (Some (path_of self.now)) case) }
    {
        showing_text(alloc, case, "var", self.path.as_str())
    }

    // The content as it is stored.
    pub(crate) fn content_or_fault(&self) -> &Result<Vec<u8>, PathFault>
        ensures { result.now ≡ held_of self.now }
    {
        &self.content
    }
}
