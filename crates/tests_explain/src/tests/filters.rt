//! The filters over lines: which are written, with their ends, and how many; and what is told of
//! the others.
use super::{Host, read_check};
use explain_run::{Filtered, RunFault, filter_lines, filter_with_reasons};
use predicates::prelude::*;
use std::io::ErrorKind;
use tests_support::{FailingWriter, text};

// Whether the lines of the input that contain `#`, or those that do not, are these, with the
// counts.
fn keeps(rt: &impl Host, wanted: bool, input: &[u8], lines: &[u8], counts: Filtered) -> bool {
    let alloc = rt.alloc();
    let marked = predicate::str::contains(text(alloc, "#").expect(rt, "memory"));
    let mut reader = input;
    let mut output = Vec::new(alloc);
    let ended = filter_lines(alloc, &marked, wanted, &mut reader, &mut output);
    ended == Ok(counts) && output.as_slice() == lines
}

// The wanted verdict, the input, what is written, and how many lines are written and are no text.
const ROWS: [(bool, &[u8], &[u8], u64, u64); 6] = [
    (true, b"", b"", 0, 0),
    (true, b"a#\nb\n#", b"a#\n#", 2, 0),
    (false, b"a#\nb\n#", b"b\n", 1, 0),
    (false, b"\n\r\n#\r\n\xff\n", b"\n\r\n", 2, 1),
    (true, b"#\r\n#\xff\n\xff", b"#\r\n", 1, 2),
    (false, b"b", b"b", 1, 0),
];

#[test]
fn lines_by_their_verdict(rt: HostRuntime) {
    for (wanted, input, lines, written, not_utf8) in ROWS {
        let counts = Filtered { written, not_utf8 };
        assert!(rt; keeps(&rt, wanted, input, lines, counts), "{input:?}");
    }
}

// What the filter that tells writes: the lines, and what it tells of the others.
#[derive(Clone, Copy)]
struct Sifted<'a> {
    lines: &'a [u8],
    told: &'a str,
}

// Whether that filter writes these to its two writers.
fn tells(rt: &impl Host, words: &[&str], wanted: bool, input: &[u8], sifted: Sifted<'_>) -> bool {
    let alloc = rt.alloc();
    let check = read_check(rt, words);
    let mut reader = input;
    let (mut output, mut reasons) = (Vec::new(alloc), Vec::new(alloc));
    filter_with_reasons(
        alloc,
        &check,
        wanted,
        &mut reader,
        &mut output,
        &mut reasons,
    )
    .expect(rt, "memory");
    output.as_slice() == sifted.lines && reasons.as_slice() == sifted.told.as_bytes()
}

// The wanted verdict, the input, what is written, and what is told of the other lines, where lines
// with a `#` pass.
const MARKED: [(bool, &[u8], &[u8], &str); 6] = [
    (true, b"", b"", ""),
    (
        true,
        b"a#\n\n#",
        b"a#\n#",
        "line 2: false\nvar.contains(#) = false\n  - var: \n",
    ),
    (
        false,
        b"a#\nb\n#",
        b"b\n",
        "\
line 1: true
var.contains(#) = true
  - var: a#
line 3: true
var.contains(#) = true
  - var: #
",
    ),
    (
        false,
        b"\n\r\n#\r\n\xff\n",
        b"\n\r\n",
        "line 3: true\nvar.contains(#) = true\n  - var: #\r\nline 4: not UTF-8\n",
    ),
    (
        true,
        b"#\r\n#\xff\n\xff",
        b"#\r\n",
        "line 2: not UTF-8\nline 3: not UTF-8\n",
    ),
    (false, b"b", b"b", ""),
];

#[test]
fn reasons_of_the_lines_left_out(rt: HostRuntime) {
    for (wanted, input, lines, told) in MARKED {
        let sifted = Sifted { lines, told };
        let holds = tells(&rt, &["contains=#"], wanted, input, sifted);
        assert!(rt; holds, "{input:?}");
    }
}

// What is told of a comment, and of a line that is no text.
const COMMENT: &str = "line 2: false
(! (var.is_empty() || var.starts_with(\"#\"))) = false
  predicate: (var.is_empty() || var.starts_with(\"#\")) = true
    right: var.starts_with(\"#\") = true
      - var: # a note
line 4: not UTF-8
";

#[test]
fn reasons_of_a_comment(rt: HostRuntime) {
    let words = ["empty", "trim", "starts=#", "trim", "or", "not"];
    let input = b"one\n  # a note\ntwo\n\xff\n".as_slice();
    let sifted = Sifted {
        lines: b"one\ntwo\n",
        told: COMMENT,
    };
    let holds = tells(&rt, &words, true, input, sifted);
    assert!(rt; holds);
}

// Whether the filter over two lines that are left out and one that is written ends by the fault,
// where the writer of the reasons fails after this many calls.
fn ends_by(rt: &impl Host, calls: usize, kind: ErrorKind, fault: RunFault) -> bool {
    let check = read_check(rt, &["contains=#"]);
    let mut reader = b"a\n#\nb\n".as_slice();
    let mut output = Vec::new(rt.alloc());
    let mut reasons = FailingWriter { calls, kind };
    let ended = filter_with_reasons(
        rt.alloc(),
        &check,
        true,
        &mut reader,
        &mut output,
        &mut reasons,
    );
    ended == Err(fault)
}

const FAULTS: [(ErrorKind, RunFault); 2] = [
    (ErrorKind::BrokenPipe, RunFault::Output),
    (ErrorKind::OutOfMemory, RunFault::NoMemory),
];

// Each write of a reason in turn fails, and then the flush.
#[test]
fn failing_writes_of_reasons(rt: HostRuntime) {
    for (kind, fault) in FAULTS {
        for calls in 0..3usize {
            assert!(rt; ends_by(&rt, calls, kind, fault), "{fault}, {calls}");
        }
    }
}
