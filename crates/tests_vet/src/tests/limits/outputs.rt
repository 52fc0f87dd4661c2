//! The program, where its output fails or is closed, where little of it is wanted, and where the
//! share of an input can't be told.
use super::odd_process::OddProcess;
use super::told;
use std::alloc::Global;
use std::io::ErrorKind;
use std::process::Abort;
use tests_support::{Closed, Process};
use vet_program::{Terminals, run_program};

const FILES: [(&str, &[u8]); 4] = [
    ("rules", b"a: / == 1"),
    ("one", b"2\n1\n"),
    ("two", b"1\n\n3"),
    (
        "sum",
        b"{\"records\":0,\"failed\":0,\"unreadable\":0,\"rules\":[{\"rule\":\"a\",\"broken\":0}]}",
    ),
];

type Words = &'static [&'static [u8]];

// Words, and what stands on standard input.
type Row = (Words, &'static [u8]);

// The same with the status and what is told.
type Unread = (Words, &'static [u8], u8, &'static [u8]);

// Words and standard input of runs that write before the end.
const BEFORE_THE_END: [Row; 6] = [
    (&[b"vet", b"rules"], b"2"),
    (&[b"vet", b"--flush", b"rules"], b"2"),
    (&[b"vet", b"--json", b"rules"], b"1"),
    (&[b"vet", b"--failed", b"--summary", b"rules"], b"2"),
    (&[b"vet", b"--format", b"github", b"rules"], b"2"),
    // The next file is not opened.
    (&[b"vet", b"rules", b"one", b"none"], b""),
];

// Those that write no more than a document, or the help.
const AT_THE_END: [Row; 4] = [
    (&[b"vet", b"--format", b"junit", b"rules"], b"1"),
    (&[b"vet", b"--format", b"junit", b"rules"], b"2"),
    (&[b"vet", b"--help"], b""),
    (&[b"vet", b"--merge", b"sum"], b""),
];

// Whether the program has this status and tells this and no more, where each write of the output
// fails by the kind.
fn ends(alloc: Global, row: Row, kind: ErrorKind, status: u8, messages: &[u8]) -> bool {
    let (words, input) = row;
    let variables: &'static [(&'static str, &'static [u8])] = &[];
    let process = OddProcess {
        held: Process::new(alloc, words, &FILES, input),
        fault: Some(kind),
        folder: "",
        variables,
    };
    let found = run_program(
        &process,
        Terminals {
            output: false,
            error: false,
        },
    );
    let (output, error) = process.held.into_written();
    found == status && output.is_empty() && error.as_slice() == messages
}

// Whether each tells this of the fault in place of the totals; its status is not that of the
// records.
fn all_fail(rt: &impl Abort, alloc: Global, rows: &[Row], kind: ErrorKind, messages: &[u8]) {
    for row in rows {
        let (words, input) = *row;
        assert!(rt;
            ends(alloc, *row, kind, 2, messages),
            "{words:?} on {input:?}"
        );
    }
}

#[test]
fn blocks_that_are_not_written(rt: HostRuntime) {
    let messages = b"vet: output could not be written: no storage space\n";
    all_fail(
        &rt,
        rt.alloc(),
        &BEFORE_THE_END,
        ErrorKind::StorageFull,
        messages,
    );
}

#[test]
fn documents_that_are_not_written(rt: HostRuntime) {
    let messages = b"vet: no storage space\n";
    all_fail(
        &rt,
        rt.alloc(),
        &AT_THE_END,
        ErrorKind::StorageFull,
        messages,
    );
}

#[test]
fn outputs_out_of_memory(rt: HostRuntime) {
    let messages = b"vet: no memory\n";
    for rows in [BEFORE_THE_END.as_slice(), AT_THE_END.as_slice()] {
        all_fail(&rt, rt.alloc(), rows, ErrorKind::OutOfMemory, messages);
    }
}

// Where nothing is to be written, the output may fail.
#[test]
fn runs_that_write_nothing(rt: HostRuntime) {
    let words: Words = &[b"vet", b"rules"];
    let messages = b"1 record, 0 failed\n";
    assert!(rt;
        ends(
            rt.alloc(),
            (words, b"1"),
            ErrorKind::StorageFull,
            0,
            messages
        )
    );
}

// Words, standard input, and the status and what is told, where nothing reads the document: no
// totals, and the status is that of the records.
const UNREAD: [Unread; 4] = [
    (&[b"vet", b"--format", b"junit", b"rules"], b"1", 0, b""),
    (&[b"vet", b"--format", b"junit", b"rules"], b"2\n1", 1, b""),
    (
        &[b"vet", b"--format", b"junit", b"--summary", b"rules"],
        b"2",
        1,
        b"",
    ),
    (
        &[b"vet", b"--format", b"junit", b"rules", b"none", b"one"],
        b"",
        2,
        b"vet: none: entity not found\n",
    ),
];

fn is_unread(alloc: Global, row: Unread) -> bool {
    let (words, input, status, messages) = row;
    let mut process = Process::new(alloc, words, &FILES, input);
    process.closed = Closed::Output;
    let (found, _, error) = told(process);
    found == status && error.as_slice() == messages
}

#[test]
fn documents_that_nothing_reads(rt: HostRuntime) {
    for row in UNREAD {
        assert!(rt; is_unread(rt.alloc(), row), "{:?} on {:?}", row.0, row.1);
    }
}

const BLOCK: &[u8] = b"record 1: false\na = false\n  rule: / == 1 = false\n    - found: 2\n";

// How many records are written of, and what is written of three, of which two break the rule. The
// lines of the summary count them all.
const MOST: [(&[u8], &[u8]); 3] = [
    (b"0", b""),
    (b"1", BLOCK),
    (
        b"2",
        b"\
record 1: false
a = false
  rule: / == 1 = false
    - found: 2
record 3: false
a = false
  rule: / == 1 = false
    - found: 3
",
    ),
];

fn is_limited(alloc: Global, most: &[u8], output: &[u8]) -> bool {
    let words: [&[u8]; 5] = [b"vet", b"--summary", b"--max", most, b"rules"];
    let process = Process::new(alloc, &words, &FILES, b"2\n1\n3");
    let (status, written, error) = told(process);
    let messages = b"2  ##  a\n3 records, 2 failed\n".as_slice();
    status == 1 && written.as_slice() == output && error.as_slice() == messages
}

#[test]
fn summaries_of_limited_runs(rt: HostRuntime) {
    for (most, output) in MOST {
        assert!(rt; is_limited(rt.alloc(), most, output), "{most:?}");
    }
}

// An input that is no file, and the lines of the run over `one` and `two`, without a share.
const WITHOUT_SHARE: &[u8] = b"\r2 lines, 10 a second\x1b[K\r2 lines, 5 a second\x1b[K\r\x1b[K\
    \r4 lines, 6 a second\x1b[K\r4 lines, 5 a second\x1b[K\r4 lines, 4 a second\x1b[K\
    \r\x1b[K4 records, 2 failed\n";

fn shows_no_share(alloc: Global, folder: &'static str) -> bool {
    let words: Words = &[b"vet", b"--progress", b"rules", b"one", b"two"];
    let mut held = Process::new(alloc, words, &FILES, b"");
    held.tick = Some(200);
    let variables: &'static [(&'static str, &'static [u8])] = &[];
    let process = OddProcess {
        held,
        fault: None,
        folder,
        variables,
    };
    let status = run_program(
        &process,
        Terminals {
            output: false,
            error: true,
        },
    );
    let (_, error) = process.held.into_written();
    status == 1 && error.as_slice() == WITHOUT_SHARE
}

#[test]
fn shares_of_what_is_no_file(rt: HostRuntime) {
    for folder in ["one", "two"] {
        assert!(rt; shows_no_share(rt.alloc(), folder), "{folder}");
    }
}
