//! Tests of what stands at a path.
use predicates::ord::eq;
use predicates_path::PathFault::NotFound;
use predicates_path::{FileType, PredicateFileContentExt, Snapshot, eq_file, is_symlink};
use predicates_text::PredicateStrExt;
use std::alloc::Global;
use std::process::Abort;
use tests_support::text;
use tests_sweep::Memory::{Perhaps, Taken};
use tests_sweep::{leaf, over, sweep_calls};

/// A file at the path `p` with this content.
pub fn file(rt: &impl Abort, alloc: Global, content: &[u8]) -> Snapshot {
    Snapshot::from_parts(
        text(alloc, "p").expect(rt, "memory"),
        Ok(FileType::File),
        Ok(FileType::File),
        Ok(Vec::from_slice(alloc, content).expect(rt, "memory")),
    )
}

// A link without a target.
fn dangling(rt: &impl Abort, alloc: Global) -> Snapshot {
    Snapshot::from_parts(
        text(alloc, "p").expect(rt, "memory"),
        Ok(FileType::Symlink),
        Err(NotFound),
        Err(NotFound),
    )
}

#[test]
fn kinds(rt: HostRuntime) {
    let alloc = rt.alloc();
    let lines = "var is symlink = false\n  - error: not found\n";
    let row = leaf("is_symlink", false, lines).with_parameters("follow=true\n");
    sweep_calls(
        &rt,
        &is_symlink().follow_links(true),
        &dangling(&rt, alloc),
        row,
    )
    .expect(&rt, "memory")
}

#[test]
fn equal_bytes(rt: HostRuntime) {
    let alloc = rt.alloc();
    let bytes = eq_file(file(&rt, alloc, b"a")).expect(&rt, "memory");
    let other = file(&rt, alloc, b"b");
    let row = leaf("eq_file", false, "var is p = false\n").with_parameters("content=[97]\n");
    sweep_calls(&rt, &bytes, &other, row).expect(&rt, "memory")
}

#[test]
fn equal_texts(rt: HostRuntime) {
    let alloc = rt.alloc();
    let texts = eq_file(file(&rt, alloc, b"a"))
        .expect(&rt, "memory")
        .utf8()
        .expect(&rt, "no text");
    let other = file(&rt, alloc, b"b");
    let row = leaf("utf8", false, "var is p = false\n").with_parameters("content=a\n");
    sweep_calls(&rt, &texts, &other, row).expect(&rt, "memory")
}

#[test]
fn contents(rt: HostRuntime) {
    let alloc = rt.alloc();
    let content = eq(text(alloc, "a").expect(&rt, "memory"))
        .from_utf8()
        .from_file_path();
    let children = "predicate: var == \"a\"\n  predicate: var == \"a\"\n";
    let lines = "var == \"a\" = true\n  - var: \"a\"\n  - var as str: a\n  - var: p\n";
    let mut row = over("from_file_path", true, lines, children);
    row.eval = Taken;
    row.opposite = Perhaps;
    let there = file(&rt, alloc, b"a");
    sweep_calls(&rt, &content, &there, row).expect(&rt, "memory")
}
