//! The callers, with ample memory.
use super::file;
use crate::tests::made::{Host, has_lines, in_box, owned, vec_of};
use predicates::path::{FileType, PathFault, Snapshot};
use predicates::prelude::*;
use tests_uses::{Around, eval_boxed, find_plain_case, is_copy, no_script};

// Whether the file is a script.
fn is_script(rt: &impl Host, file: Snapshot) -> bool {
    no_script(rt.alloc(), &file).expect(rt, "memory").is_none()
}

// Whether these lines explain why the file is no script.
fn is_refused(rt: &impl Host, file: Snapshot, lines: &str) -> bool {
    has_lines(rt, no_script(rt.alloc(), &file).expect(rt, "memory"), lines)
}

// A link to what was followed so.
fn link(
    rt: &impl Host,
    path: &str,
    followed: Result<FileType, PathFault>,
    content: Result<Vec<u8>, PathFault>,
) -> Snapshot {
    let path = owned(rt, path);
    Snapshot::from_parts(path, Ok(FileType::Symlink), followed, content)
}

// A link to a script.
fn linked(rt: &impl Host) -> Snapshot {
    let content = vec_of(rt, b"#!/bin/sh\n");
    link(rt, "link", Ok(FileType::File), Ok(content))
}

// A link to nothing.
fn lost(rt: &impl Host) -> Snapshot {
    link(
        rt,
        "lost",
        Err(PathFault::NotFound),
        Err(PathFault::NotFound),
    )
}

// Behind a link, and with white space before the mark.
#[test]
fn checks_scripts(rt: HostRuntime) {
    assert!(rt; is_script(&rt, linked(&rt)));
    let lines = "\
script = false
  script: (var is file && var.starts_with(\"#!\")) = false
    right: var.starts_with(\"#!\") = false
      - var:  #!
      - var as str:  #!
      - var: a
";
    assert!(rt; is_refused(&rt, file(&rt, "a", b" #!"), lines));
    let lines = "\
script = false
  script: (var is file && var.starts_with(\"#!\")) = false
    left: var is file = false
      - error: not found
";
    assert!(rt; is_refused(&rt, lost(&rt), lines));
}

// Whether a file at `q` with the content `a` is a copy of the original, or the fault is this.
fn is_copied(rt: &impl Host, original: Snapshot, expected: Result<bool, PathFault>) -> bool {
    let copy = file(rt, "q", b"a");
    is_copy(rt.alloc(), original, &copy) == expected
}

// A folder at `d`.
fn folder(rt: &impl Host) -> Snapshot {
    let kind = Ok(FileType::Dir);
    let content = Err(PathFault::NotRegular);
    Snapshot::from_parts(owned(rt, "d"), kind, kind, content)
}

#[test]
fn checks_files(rt: HostRuntime) {
    assert!(rt; is_copied(&rt, file(&rt, "p", b"a"), Ok(true)));
    assert!(rt; is_copied(&rt, file(&rt, "p", b"b"), Ok(false)));
    assert!(rt; is_copied(&rt, folder(&rt), Err(PathFault::NotRegular)));
    assert!(rt; is_script(&rt, file(&rt, "run.sh", b"#!/bin/sh\n")));
    let lines = "\
script = false
  script: (var is file && var.starts_with(\"#!\")) = false
    right: var.starts_with(\"#!\") = false
      - var: echo
      - var as str: echo
      - var: run.sh
";
    assert!(rt; is_refused(&rt, file(&rt, "run.sh", b"echo"), lines));
}

// Whether the number has the plain case of the verdict, and none of the opposite.
fn is_plain(rt: &impl Host, around: Around, item: i32, verdict: bool) -> bool {
    let small = predicate::lt(3);
    let lines = format!(in rt.alloc(); "var < 3 = {verdict}\n  - var: {item}\n").expect(
        rt, "memory",
    );
    let is_alone = find_plain_case(rt.alloc(), &small, around, !verdict, &item)
        .expect(rt, "memory")
        .is_none();
    let found = find_plain_case(rt.alloc(), &small, around, verdict, &item).expect(rt, "memory");
    has_lines(rt, found, lines.as_str()) && is_alone
}

#[test]
fn plain_cases(rt: HostRuntime) {
    for around in [Around::Name("small"), Around::TwoNegations] {
        for (item, verdict) in [(2, true), (3, false)] {
            assert!(rt; is_plain(&rt, around, item, verdict), "{item}");
        }
    }
}

// Whether a named test of no characters, in a box, holds of the text.
fn is_blank(rt: &impl Host, item: &str) -> bool {
    let blank = predicate::str::is_empty().name(StaticText::new("blank"));
    eval_boxed(rt.alloc(), in_box(rt, blank), &owned(rt, item)).expect(rt, "memory")
}

#[test]
fn asks_in_a_box(rt: HostRuntime) {
    let answers = (is_blank(&rt, ""), is_blank(&rt, "a"));
    assert_eq!(rt; answers, (true, false));
}
