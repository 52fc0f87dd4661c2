//! The traits that types derive, and the parts of a snapshot and of a description.
use super::helpers::{file, same_bytes, same_text, snapshot};
use super::parts::has_parts;
use crate::tests::asked::are_apart;
use crate::tests::made::Host;
use predicates::constant::always;
use predicates::str::PredicateStrExt;
use predicates_path::FileType::{File, Symlink};
use predicates_path::PathFault::{NotRegular, PermissionDenied};
use predicates_path::{PredicateFileContentExt, exists, is_file, missing};
use tests_support::{are_copied, is_described};

#[test]
fn copies_equal_what_they_copy(rt: HostRuntime) {
    let alloc = rt.alloc();
    assert!(rt; are_copied(alloc, exists(), missing()).expect(&rt, "memory"));
    assert!(rt; are_copied(alloc, is_file(), is_file().follow_links(true)).expect(&rt, "memory"));
    assert!(rt; are_copied(alloc, File, Symlink).expect(&rt, "memory"));
    assert!(rt; are_copied(alloc, NotRegular, PermissionDenied).expect(&rt, "memory"));
}

// Whether an adapter over a predicate that is copied is copied.
fn is_adapter_copied(rt: &impl Host) -> bool {
    let first = always::<Vec<u8>>().from_file_path();
    let second = always::<String>().from_utf8().from_file_path();
    let copied = second;
    first.clone().expect(rt, "memory") == first
        && copied == second
        && copied.clone().expect(rt, "memory") == second
        && !format!(in rt.alloc(); "{first:?}{second:?}")
            .expect(rt, "memory")
            .is_empty()
}

#[test]
fn adapters_and_equal_files_are_compared(rt: HostRuntime) {
    assert!(rt; is_adapter_copied(&rt));
    let (a, b) = (same_bytes(&rt, b"a"), same_bytes(&rt, b"b"));
    assert!(rt; are_apart(&rt, a, b));
    let (a, b) = (same_bytes(&rt, b"a"), same_bytes(&rt, b"b"));
    assert!(rt; are_apart(&rt, a.from_file_path(), b.from_file_path()));
    assert!(rt; are_apart(&rt, same_text(&rt, b"a"), same_text(&rt, b"b")));
}

#[test]
fn parts_that_a_snapshot_holds(rt: HostRuntime) {
    let link = snapshot(&rt, Ok(Symlink), Ok(File), Err(PermissionDenied));
    assert_eq!(rt; link.path(), "p");
    assert!(rt; has_parts(&link, (Ok(Symlink), Ok(File), Err(PermissionDenied))));
    let file = file(&rt, b"a");
    assert!(rt; has_parts(&file, (Ok(File), Ok(File), Ok(b"a"))));
}

#[test]
fn description_of_a_content(rt: HostRuntime) {
    let content = same_bytes(&rt, b"a").from_file_path();
    let lines = "var is p\npredicate: var is p\n  content=[97]\n";
    assert!(rt; is_described(rt.alloc(), &content, lines).expect(&rt, "memory"));
}
