// A small tree of files, made in a temporary folder.
use super::render_failures;
use crate::tests::made::{Host, owned};
use predicates::check::Expectation;
use predicates::path::{FileContentPredicate, FileType, PathFault};
use predicates::prelude::*;
use predicates::str::{StartsWithPredicate, Utf8Predicate};
use std::fs;
use std::os::unix::fs::symlink;
use std::rt::{Env, Files};
use tests_support::new_folder;

// The path of the name in the folder.
fn path_of(rt: &impl Host, folder: &str, name: &str) -> String {
    format!(in rt.alloc(); "{folder}/{name}").expect(rt, "memory")
}

fn fill<R: Host + Files>(rt: &R, folder: &str) {
    for (name, content) in [("run", "#!/bin/sh\n"), ("notes", "echo")] {
        fs::write(rt, path_of(rt, folder, name), content).expect(rt, "files");
    }
    fs::create_dir(rt, path_of(rt, folder, "folder")).expect(rt, "files");
    for (name, target) in [("link", "run"), ("lost", "nothing")] {
        symlink(rt, target, path_of(rt, folder, name)).expect(rt, "files");
    }
}

// What stands at the name now, expected to be so; its label is the name.
fn expect_at<R: Host + Files, P: Drop>(
    rt: &R,
    folder: &str,
    name: &str,
    check: P,
) -> Expectation<Snapshot, P> {
    let path = path_of(rt, folder, name);
    let found = Snapshot::take(rt, rt.alloc(), path.as_str()).expect(rt, "memory");
    expect(rt.alloc(), name, found, check).expect(rt, "memory")
}

const NAMES: [&str; 6] = ["run", "notes", "folder", "link", "lost", "gone"];

fn kinds<R: Host + Files>(rt: &R, folder: &str) -> String {
    let mut expected = Vec::new(rt.alloc());
    for name in NAMES {
        let file = predicate::path::is_file().follow_links(true);
        let at_name = expect_at(rt, folder, name, file);
        expected.push(at_name).expect(rt, "memory");
    }
    let failures = check_all(rt.alloc(), expected.as_slice()).expect(rt, "memory");
    render_failures(rt, failures.as_slice())
}

// The content begins with the mark of a script.
fn script(rt: &impl Host) -> FileContentPredicate<Utf8Predicate<StartsWithPredicate>> {
    let mark = predicate::str::starts_with(owned(rt, "#!"));
    mark.from_utf8().from_file_path()
}

// A file that the tester may not read.
fn kept(rt: &impl Host, folder: &str) -> Snapshot {
    let (path, kind) = (path_of(rt, folder, "kept"), Ok(FileType::File));
    Snapshot::from_parts(path, kind, kind, Err(PathFault::PermissionDenied))
}

fn contents<R: Host + Files>(rt: &R, folder: &str) -> String {
    let mut expected = Vec::new(rt.alloc());
    for name in NAMES {
        let at_name = expect_at(rt, folder, name, script(rt));
        expected.push(at_name).expect(rt, "memory");
    }
    let of_kept = expect(rt.alloc(), "kept", kept(rt, folder), script(rt)).expect(rt, "memory");
    expected.push(of_kept).expect(rt, "memory");
    let failures = check_all(rt.alloc(), expected.as_slice()).expect(rt, "memory");
    render_failures(rt, failures.as_slice())
}

// The folder, which is removed by now, and the failures of its kinds and of its contents.
fn check_folder<R: Host + Env + Files>(rt: &R) -> [String; 3] {
    let folder = new_folder(rt, "predicates_require").expect(rt, "files");
    fill(rt, folder.as_str());
    let found = kinds(rt, folder.as_str());
    let read = contents(rt, folder.as_str());
    fs::remove_dir_all(rt, folder.as_str()).expect(rt, "files");
    [folder, found, read]
}

#[test]
fn checks_a_tree(rt: HostRuntime) {
    let [folder, found, read] = check_folder(&rt);
    assert_eq!(rt;
        found.as_str(),
        "\
folder: var is file = false
  - actual filetype: dir
lost: var is file = false
  - error: not found
gone: var is file = false
  - error: not found
"
    );
    let expected = format!(in rt.alloc();
        "\
notes: var.starts_with(\"#!\") = false
  - var: echo
  - var as str: echo
  - var: {folder}/notes
folder: var.starts_with(\"#!\") = false
  - var: {folder}/folder
  - error: not a regular file
lost: var.starts_with(\"#!\") = false
  - var: {folder}/lost
  - error: not found
gone: var.starts_with(\"#!\") = false
  - var: {folder}/gone
  - error: not found
kept: var.starts_with(\"#!\") = false
  - var: {folder}/kept
  - error: permission denied
"
    )
    .expect(&rt, "memory");
    assert_eq!(rt; read.as_str(), expected.as_str());
}
