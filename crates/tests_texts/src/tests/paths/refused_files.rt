//! Which snapshots make a predicate, and which are refused.
use super::helpers::{file, same_bytes, snapshot};
use crate::tests::made::Host;
use predicates_path::FileType::{Dir, File, Other};
use predicates_path::PathFault::{NotFound, NotRegular, PermissionDenied};
use predicates_path::{FileType, FileTypePredicate, PathFault, Snapshot, eq_file};

// The fault for which a file of these parts is refused, or none.
fn refusal(
    rt: &impl Host,
    kind: Result<FileType, PathFault>,
    content: Result<&[u8], PathFault>,
) -> Option<PathFault> {
    eq_file(snapshot(rt, kind, kind, content)).err()
}

// A kind, and the fault of its content.
const REFUSED: [(Result<FileType, PathFault>, PathFault); 4] = [
    (Ok(Dir), NotRegular),
    (Ok(Other), NotRegular),
    (Err(NotFound), NotFound),
    (Ok(File), PermissionDenied),
];

#[test]
fn files_without_content(rt: HostRuntime) {
    for (kind, fault) in REFUSED {
        assert_eq!(rt; refusal(&rt, kind, Err(fault)), Some(fault));
    }
}

#[test]
fn a_content_that_is_no_text(rt: HostRuntime) {
    assert!(rt; same_bytes(&rt, b"\xff").utf8().is_none());
}

// Parts that no file system gives: nothing stands there, and yet there is content.
fn odd(rt: &impl Host) -> Snapshot {
    snapshot(rt, Err(NotFound), Err(NotFound), Ok(b"a"))
}

#[test]
fn content_where_nothing_stands(rt: HostRuntime) {
    assert!(rt; FileTypePredicate::from_path(&odd(&rt)) == Err(NotFound));
    assert!(rt; eq_file(odd(&rt)).is_ok());
    assert!(rt; FileTypePredicate::from_path(&file(&rt, b"a")).is_ok());
}
