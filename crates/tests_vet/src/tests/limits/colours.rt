//! The program, where blocks are coloured, or show few parts.
use super::odd_process::OddProcess;
use std::alloc::Global;
use std::process::Abort;
use std::str;
use tests_support::Process;
use vet_program::{Terminals, run_program};

const FILES: [(&str, &[u8]); 2] = [("rules", b"a: / == 1"), ("parts", b"a: each /x (/ == 1)")];

const PLAIN: &str = "record 1: false\na = false\n  rule: / == 1 = false\n    - found: 2\n";

const RED: &str = "record 1: false\na = \x1b[31mfalse\x1b[0m\n  rule: / == 1 = \
                   \x1b[31mfalse\x1b[0m\n    - found: 2\n";

const OBJECT: &str = "{\"record\":1,\"holds\":false,\"case\":{\"text\":\"a\",\"result\":false,\
    \"products\":[],\"children\":[{\"name\":\"rule\",\"case\":{\"text\":\"/ == 1\",\
    \"result\":false,\"products\":[{\"name\":\"found\",\"value\":2}],\"children\":[]}}]}}\n";

const ERROR: &str =
    "::error title=a::record 1: false%0Aa = false%0A  rule: / == 1 = false%0A    - found: 2\n";

type Variables = &'static [(&'static str, &'static [u8])];

// Words, whether standard output is a terminal, the environment, and what is written.
type Row = (&'static [&'static [u8]], bool, Variables, &'static str);

const AUTO: &[&[u8]] = &[b"vet", b"rules"];

const CHOICES: [Row; 9] = [
    (AUTO, true, &[], RED),
    (AUTO, false, &[], PLAIN),
    (
        &[b"vet", b"--color", b"auto", b"rules"],
        true,
        &[("TERM", b"xterm")],
        RED,
    ),
    (&[b"vet", b"--color=auto", b"rules"], false, &[], PLAIN),
    (&[b"vet", b"--color=never", b"rules"], true, &[], PLAIN),
    (&[b"vet", b"--color=always", b"rules"], false, &[], RED),
    // What is asked for goes before the environment.
    (
        &[b"vet", b"--color=always", b"rules"],
        false,
        &[("NO_COLOR", b"1"), ("TERM", b"dumb")],
        RED,
    ),
    (
        &[b"vet", b"--color=always", b"--all", b"rules"],
        false,
        &[],
        RED,
    ),
    (
        &[b"vet", b"--color=always", b"--change", b"rules"],
        false,
        &[],
        RED,
    ),
];

const ENVIRONMENTS: [Row; 7] = [
    (AUTO, true, &[("NO_COLOR", b"1")], PLAIN),
    (AUTO, true, &[("NO_COLOR", b"long")], PLAIN),
    (AUTO, true, &[("NO_COLOR", b"")], RED),
    (AUTO, true, &[("TERM", b"dumb")], PLAIN),
    (AUTO, true, &[("TERM", b"dumb2")], RED),
    (AUTO, true, &[("TERM", b"xterm-256color")], RED),
    (AUTO, true, &[("TERM", b"dum")], RED),
];

// What other programs read has none.
const REPORTS: [Row; 4] = [
    (
        &[b"vet", b"--color=always", b"--json", b"rules"],
        true,
        &[],
        OBJECT,
    ),
    (
        &[b"vet", b"--color=always", b"--format=github", b"rules"],
        true,
        &[],
        ERROR,
    ),
    (
        &[b"vet", b"--color=always", b"--failed", b"rules"],
        true,
        &[],
        "2\n",
    ),
    (&[b"vet", b"--failed", b"rules"], true, &[], "2\n"),
];

fn writes(alloc: Global, row: Row) -> bool {
    let (words, output, variables, written) = row;
    let process = OddProcess {
        held: Process::new(alloc, words, &FILES, b"2"),
        fault: None,
        folder: "",
        variables,
    };
    let terminals = Terminals {
        output,
        error: false,
    };
    let status = run_program(&process, terminals);
    let (found, _) = process.held.into_written();
    status == 1 && found.as_slice() == written.as_bytes()
}

fn all_write(rt: &impl Abort, alloc: Global, rows: &[Row]) {
    for row in rows {
        assert!(rt; writes(alloc, *row), "{:?} {:?}", row.0, row.2);
    }
}

#[test]
fn colours(rt: HostRuntime) {
    let alloc = rt.alloc();
    all_write(&rt, alloc, &CHOICES);
    all_write(&rt, alloc, &ENVIRONMENTS);
    all_write(&rt, alloc, &REPORTS);
}

// How many parts are shown at most, and what is written then of three that would all have to change.
const PARTS: [(&[u8], &str); 3] = [
    (
        b"1",
        "    item: / == 1 = false\n      - found: 2\n      - index: 0\n    .. 2 more\n",
    ),
    (b"0", "record 1: false\na = false\n  .. 1 more\n"),
    (
        b"3",
        "      - index: 1\n    item: / == 1 = false\n      - found: 2\n      - index: 2\n",
    ),
];

// Whether the line stands in what is written where so many parts are shown.
fn shows(alloc: Global, most: &[u8], line: &str) -> bool {
    let words: [&[u8]; 5] = [b"vet", b"--change", b"--parts", most, b"parts"];
    let process = Process::new(alloc, &words, &FILES, b"{\"x\": [2, 2, 2]}");
    let terminals = Terminals {
        output: false,
        error: false,
    };
    let status = run_program(&process, terminals);
    let (found, _) = process.into_written();
    let lines = str::from_utf8(&found).unwrap_or("");
    status == 1 && lines.contains(line)
}

#[test]
fn parts(rt: HostRuntime) {
    for (most, line) in PARTS {
        assert!(rt; shows(rt.alloc(), most, line), "{line}");
    }
}
