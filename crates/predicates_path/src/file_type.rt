//! Kinds of files.
ghost use Rattle.std.specs.Prelude.{Some};
ghost use Rattle.std.specs.Fs.{file_type};
ghost use Rattle.predicates_path.specs.FileType.{IsKindOf, kind_text};

use std::fmt;
use std::fs::Metadata;

/// The kind of file at a path. It prints as one word, such as `file`.
#[derive(Debug, Clone, Copy, PartialEq, Eq)]
pub enum FileType {
    /// A regular file: `file`.
    File,
    /// A directory: `dir`.
    Dir,
    /// A symbolic link, where links are not followed: `symlink`.
    Symlink,
    /// A device, a pipe or a socket: `other`.
    Other,
}

impl fmt::Display for FileType {
    ghost output = { λ kind. Some (kind_text kind) };

    fn fmt<W: fmt::Write>(&self, f: &mut fmt::Formatter<W>) -> fmt::Result {
        match self {
            FileType::File => write!(f, "file"),
            FileType::Dir => write!(f, "dir"),
            FileType::Symlink => write!(f, "symlink"),
            FileType::Other => write!(f, "other"),
        }
    }
}

// The kind that the metadata gives.
pub(crate) fn kind_of(metadata: &Metadata) -> FileType
    ensures { IsKindOf (file_type metadata.now) result }
{
    let found = metadata.file_type();
    if found.is_file() {
        FileType::File
    } else if found.is_dir() {
        FileType::Dir
    } else if found.is_symlink() {
        FileType::Symlink
    } else {
        FileType::Other
    }
}
