//! Predicates over what was found at a path, read once.
//!
//! ```
//! let file = Snapshot::take(&rt, alloc, "run.sh")?;
//! let script = predicate::path::is_file().follow_links(true);
//! assert!(rt; script.eval(alloc, &file)?);
//! ```
//!
//! Items are `Snapshot`s: a predicate itself never queries the file system. Making one of these
//! predicates takes no memory, and neither does `eval`, apart from what a predicate of bytes takes
//! under `from_file_path`.
#![tactic(auto)]

mod content;
mod equality;
mod existence;
mod fault;
mod file_test;
mod file_type;
mod file_type_predicate;
mod snapshot;

pub use content::{FileContentPredicate, PredicateFileContentExt};
pub use equality::eq_file;
pub use existence::{exists, missing};
pub use fault::PathFault;
pub use file_test::FileTestPredicate;
pub use file_type::FileType;
pub use file_type_predicate::{is_dir, is_file, is_symlink};
pub use snapshot::Snapshot;

/// Whether a path leads to anything, after following links. Made by `exists` and `missing`.
pub type ExistencePredicate = FileTestPredicate<existence::ExistencePredicate>;

/// Whether the file at a path is of one kind. Made by `is_file`, `is_dir`, `is_symlink` and
/// `from_path`.
pub type FileTypePredicate = FileTestPredicate<file_type_predicate::FileTypePredicate>;

/// Whether a content equals the bytes of a file. Made by `eq_file`.
pub type BinaryFilePredicate = FileTestPredicate<equality::BinaryFilePredicate>;

/// Whether a text or a content equals the text of a file. Made by `BinaryFilePredicate::utf8`.
pub type StrFilePredicate = FileTestPredicate<equality::StrFilePredicate>;
