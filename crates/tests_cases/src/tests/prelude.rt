//! Each name of the prelude, and what the traits in it add.
use crate::tests::made::{Host, describes, owned};
use predicates::path::{FileType, PathFault, Snapshot};
use predicates::prelude::*;
use predicates::reflection::PredicateReflection;

// Whether it prints the text, and ends here.
fn print<P: PredicateReflection + Drop>(rt: &impl Host, predicate: P, text: &str) -> bool {
    predicate
        .to_string(rt.alloc())
        .expect(rt, "memory")
        .as_str()
        == text
}

#[test]
fn each_name_prints_its_own_text(rt: HostRuntime) {
    assert!(rt; print(&rt, predicate::always::<i64>(), "true"));
    assert!(rt; print(&rt, predicate::never::<i64>(), "false"));
    assert!(rt; print(&rt, predicate::function(|n: &i64| *n < 3), "fn(var)"));
    assert!(rt; print(&rt, predicate::eq(3i64), "var == 3"));
    assert!(rt; print(&rt, predicate::ne(3i64), "var != 3"));
    assert!(rt; print(&rt, predicate::lt(3i64), "var < 3"));
    assert!(rt; print(&rt, predicate::le(3i64), "var <= 3"));
    assert!(rt; print(&rt, predicate::ge(3i64), "var >= 3"));
    assert!(rt; print(&rt, predicate::gt(3i64), "var > 3"));
}

#[test]
fn each_name_of_members_describes_them(rt: HostRuntime) {
    let listed = predicate::in_iter(rt.alloc(), [3i64, 3]).expect(&rt, "memory");
    assert!(rt; describes(&rt, listed, "var in values\nvalues=[3, 3]\n"));
    let hashed = predicate::in_hash(rt.alloc(), [3i64, 3]).expect(&rt, "memory");
    assert!(rt; describes(&rt, hashed, "var in values\nvalues={3}\n"));
    let same = predicate::same_members(rt.alloc(), [3i64, 1]).expect(&rt, "memory");
    assert!(rt; describes(&rt, same, "var == values in any order\nvalues=[1, 3]\n"));
}

#[test]
fn each_name_of_texts_and_paths_prints_its_own_text(rt: HostRuntime) {
    let starts = predicate::str::starts_with(owned(&rt, "a"));
    assert!(rt; print(&rt, starts, "var.starts_with(\"a\")"));
    let ends = predicate::str::ends_with(owned(&rt, "a"));
    assert!(rt; print(&rt, ends, "var.ends_with(\"a\")"));
    let part = predicate::str::contains(owned(&rt, "a"));
    assert!(rt; print(&rt, part, "var.contains(a)"));
    let same = predicate::str::eq_ignore_case(owned(&rt, "a"));
    assert!(rt; print(&rt, same, "var.eq_ignore_case(\"a\")"));
    assert!(rt; print(&rt, predicate::str::is_empty(), "var.is_empty()"));
    let digits = predicate::str::is_match(rt.alloc(), owned(&rt, "^[0-9]+$"));
    assert!(rt; print(&rt, digits.expect(&rt, "memory"), "var.is_match(^[0-9]+$)"));
    assert!(rt; print(&rt, predicate::path::exists(), "exists(var)"));
    assert!(rt; print(&rt, predicate::path::missing(), "missing(var)"));
    assert!(rt; print(&rt, predicate::path::is_file(), "var is file"));
    assert!(rt; print(&rt, predicate::path::is_dir(), "var is dir"));
    assert!(rt; print(&rt, predicate::path::is_symlink(), "var is symlink"));
}

// A check of a text, by what the prelude names alone.
fn is_short_greeting(rt: &impl Host, item: &str) -> bool {
    let (hello, bye) = (owned(rt, "Hello"), owned(rt, "bye\n"));
    let (last, item) = (owned(rt, "z"), owned(rt, item));
    let hello = predicate::str::starts_with(hello).trim();
    let bye = predicate::str::ends_with(bye).normalize();
    let greeting = hello.or(bye).and(predicate::lt(last)).name("greeting");
    greeting.eval(rt.alloc(), &item).expect(rt, "memory")
}

#[test]
fn a_check_of_texts_by_names_of_the_prelude(rt: HostRuntime) {
    for (item, verdict) in [
        (" Hello World", true),
        ("Goodbye\r", true),
        ("zHello", false),
    ] {
        assert!(rt; is_short_greeting(&rt, item) == verdict, "{item}");
    }
}

// Whether the content of a file with the byte `a` is that text.
fn holds_a(rt: &impl Host) -> bool {
    let kind = Ok(FileType::File);
    let file = Snapshot::from_parts(
        owned(rt, "p"),
        kind,
        kind,
        Ok(vec![in rt.alloc(); b'a'].expect(rt, "memory")),
    );
    let is_a = predicate::eq(owned(rt, "a")).from_utf8().from_file_path();
    is_a.eval(rt.alloc(), &file).expect(rt, "memory")
}

// Whether a folder's content is refused.
fn refuses_a_folder(rt: &impl Host) -> bool {
    let kind = Ok(FileType::Dir);
    let folder = Snapshot::from_parts(owned(rt, "p"), kind, kind, Err(PathFault::NotRegular));
    predicate::path::eq_file(folder).is_err()
}

#[test]
fn checks_of_files_by_names_of_the_prelude(rt: HostRuntime) {
    assert!(rt; holds_a(&rt));
    assert!(rt; refuses_a_folder(&rt));
}
