//! Snapshots, and comparisons with them.
use crate::tests::made::{Host, owned, vec_of};
use predicates_path::FileType::File;
use predicates_path::PathFault::NotFound;
use predicates_path::{
    BinaryFilePredicate, FileType, PathFault, Snapshot, StrFilePredicate, eq_file,
};

/// A snapshot at the path `p`.
pub fn snapshot(
    rt: &impl Host,
    plain: Result<FileType, PathFault>,
    followed: Result<FileType, PathFault>,
    content: Result<&[u8], PathFault>,
) -> Snapshot {
    let path = owned(rt, "p");
    let content = match content {
        Ok(bytes) => Ok(vec_of(rt, bytes)),
        Err(fault) => Err(fault),
    };
    Snapshot::from_parts(path, plain, followed, content)
}

pub fn file(rt: &impl Host, bytes: &[u8]) -> Snapshot {
    snapshot(rt, Ok(File), Ok(File), Ok(bytes))
}

/// A path and a content that are this text.
pub fn file_at(rt: &impl Host, path: &str) -> Snapshot {
    let content = vec_of(rt, path.as_bytes());
    Snapshot::from_parts(owned(rt, path), Ok(File), Ok(File), Ok(content))
}

/// A path that is this text, where nothing stands.
pub fn nothing_at(rt: &impl Host, path: &str) -> Snapshot {
    let gone = Err(NotFound);
    Snapshot::from_parts(owned(rt, path), Err(NotFound), Err(NotFound), gone)
}

/// The comparison with a file of these bytes.
pub fn same_bytes(rt: &impl Host, bytes: &[u8]) -> BinaryFilePredicate {
    eq_file(file(rt, bytes)).expect(rt, "memory")
}

/// The comparison with a file of this text.
pub fn same_text(rt: &impl Host, bytes: &[u8]) -> StrFilePredicate {
    same_bytes(rt, bytes).utf8().expect(rt, "no text")
}
