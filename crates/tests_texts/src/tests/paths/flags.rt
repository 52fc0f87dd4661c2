//! Flags, a width and a precision change no text of a kind, a fault or a predicate of files.
use super::helpers::{same_bytes, same_text};
use crate::tests::made::Host;
use predicates_core::Predicate;
use predicates_path::{FileType, PathFault, PredicateFileContentExt, Snapshot};
use tests_support::{print_in_combinators, print_under_flags};

#[test]
fn kinds_and_faults(rt: HostRuntime) {
    let alloc = rt.alloc();
    let mut out = String::new(alloc);
    for kind in [
        FileType::File,
        FileType::Dir,
        FileType::Symlink,
        FileType::Other,
    ] {
        print_under_flags(alloc, &mut out, &kind).expect(&rt, "memory");
    }
    for fault in [
        PathFault::NotFound,
        PathFault::PermissionDenied,
        PathFault::NotRegular,
        PathFault::Other,
    ] {
        print_under_flags(alloc, &mut out, &fault).expect(&rt, "memory");
    }
    assert_eq!(rt;
        out.as_str(),
        "\
file
dir
symlink
other
not found
permission denied
not a regular file
other fault
"
    );
}

// Whether the predicate prints the path of its file, also in a combinator.
fn prints_path<P: Predicate<Snapshot> + Drop>(rt: &impl Host, predicate: P) -> bool {
    let mut out = String::new(rt.alloc());
    print_in_combinators(rt.alloc(), &mut out, predicate).expect(rt, "memory");
    out.as_str() == "var is p\n"
}

#[test]
fn equal_files(rt: HostRuntime) {
    assert!(rt; prints_path(&rt, same_bytes(&rt, b"a")));
    assert!(rt; prints_path(&rt, same_text(&rt, b"a")));
    assert!(rt; prints_path(&rt, same_bytes(&rt, b"a").from_file_path()));
}
