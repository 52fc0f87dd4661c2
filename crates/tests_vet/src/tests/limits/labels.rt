//! Labels of records: by what is no path, by paths with an escape, and by floats.
use super::told;
use std::alloc::Global;
use std::process::Abort;
use tests_support::Process;

const FILES: [(&str, &[u8]); 1] = [("rules", b"a: /x == 1")];

// A text behind `--id`, with a `~` that is no escape.
const NO_PATHS: [&str; 5] = ["/a~", "/~", "/a~2", "/a~/b", "/a~~1"];

// Whether the words are refused, and no input is read.
fn is_refused(rt: &impl Abort, alloc: Global, path: &str) -> bool {
    let words: [&[u8]; 4] = [b"vet", b"--id", path.as_bytes(), b"rules"];
    let (status, output, error) = told(Process::new(alloc, &words, &FILES, b"2"));
    let message = format!(in alloc; "vet: --id {path}: not a path, which begins with `/`\n").expect(
        rt, "memory",
    );
    status == 2 && output.is_empty() && error.as_slice() == message.as_bytes()
}

#[test]
fn labels_by_no_path(rt: HostRuntime) {
    for path in NO_PATHS {
        assert!(rt; is_refused(&rt, rt.alloc(), path), "{path}");
    }
}

// A path, a record, and the label that heads its block, as JSON.
const LABELS: [(&str, &str, &str); 9] = [
    ("/a~0", "{\"a~\": 7}", "7"),
    ("/a~1b", "{\"a/b\": \"c\"}", "\"c\""),
    ("/x", "{\"x\": 1.5}", "1.5"),
    ("/x", "{\"x\": -0.25}", "-0.25"),
    ("/x", "{\"x\": 15e-1}", "1.5"),
    ("/x", "{\"x\": 2e2}", "200.0"),
    ("/x", "{\"x\": 1e300}", "1e+300"),
    ("/x", "{\"x\": [0.5, 3.0]}", "[0.5,3.0]"),
    (
        "/x",
        "{\"x\": 18446744073709551616}",
        "1.8446744073709552e+19",
    ),
];

// Whether the block of the record, and its object, have the label.
fn is_labelled(rt: &impl Abort, alloc: Global, path: &str, record: &str, label: &str) -> bool {
    let words: [&[u8]; 4] = [b"vet", b"--id", path.as_bytes(), b"rules"];
    let (status, output, _) = told(Process::new(alloc, &words, &FILES, record.as_bytes()));
    let block = format!(in alloc; "record 1 ({label}): false\na = false\n").expect(rt, "memory");
    let words: [&[u8]; 5] = [b"vet", b"--json", b"--id", path.as_bytes(), b"rules"];
    let (_, object, _) = told(Process::new(alloc, &words, &FILES, record.as_bytes()));
    let front = format!(in alloc; "{{\"record\":{label},\"holds\":false,").expect(rt, "memory");
    status == 1 && output.starts_with(block.as_bytes()) && object.starts_with(front.as_bytes())
}

#[test]
fn labels_by_a_path(rt: HostRuntime) {
    for (path, record, label) in LABELS {
        let right = is_labelled(&rt, rt.alloc(), path, record, label);
        assert!(rt; right, "{path} of {record}");
    }
}
