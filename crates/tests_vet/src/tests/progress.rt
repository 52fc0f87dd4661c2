//! The program, where it shows on a terminal how far it is. Each look at the clock moves it on by
//! `tick` milliseconds: the first is before the inputs are opened, and there is one for each read.
//! Standard input gives a byte a read, and a file all that it has; both are read at their end once
//! more, and twice where the last line has no line feed.
use std::alloc::Global;
use std::io::ErrorKind;
use std::process::Abort;
use tests_support::{Closed, Process};
use vet_program::{Terminals, run_program};

// Words, the tick, what the file of standard input has, where it is one, standard input, and
// standard error.
type Row = (
    &'static [&'static [u8]],
    u64,
    Option<&'static [u8]>,
    &'static [u8],
    &'static str,
);

const PLAIN: &[&[u8]] = &[b"vet", b"--progress", b"rules"];

const LINES: [Row; 3] = [
    // Five times a second, however often is read.
    (
        PLAIN,
        100,
        None,
        b"1\n2\n1\n",
        "\r1 line, 5 a second\x1b[K\r2 lines, 5 a second\x1b[K\r3 lines, 5 a second\x1b[K\
         \r\x1b[K3 records, 1 failed\n",
    ),
    (
        PLAIN,
        66,
        None,
        b"1\n1\n1\n",
        "\r2 lines, 7 a second\x1b[K\r\x1b[K3 records, 0 failed\n",
    ),
    // A run of less than a fifth of a second shows nothing.
    (PLAIN, 20, None, b"1\n2\n1\n", "3 records, 1 failed\n"),
];

const SHARES: [Row; 6] = [
    // The share, of all files together.
    (
        &[b"vet", b"--progress", b"rules", b"one", b"two"],
        200,
        None,
        b"",
        "\r2 lines, 50 %, 10 a second, 0 s left\x1b[K\
         \r2 lines, 50 %, 5 a second, 0 s left\x1b[K\r\x1b[K\
         \r4 lines, 100 %, 6 a second, 0 s left\x1b[K\r4 lines, 100 %, 5 a second, 0 s left\x1b[K\
         \r4 lines, 100 %, 4 a second, 0 s left\x1b[K\r\x1b[K4 records, 2 failed\n",
    ),
    // Standard input may be a file.
    (
        PLAIN,
        200,
        Some(b"2\n1\n"),
        b"2\n1\n",
        "\r0 lines, 25 %, 0 a second, 0 s left\x1b[K\r1 line, 50 %, 2 a second, 0 s left\x1b[K\
         \r1 line, 75 %, 1 a second, 0 s left\x1b[K\r2 lines, 100 %, 2 a second, 0 s left\x1b[K\
         \r2 lines, 100 %, 2 a second, 0 s left\x1b[K\r\x1b[K2 records, 1 failed\n",
    ),
    (
        &[b"vet", b"--progress", b"rules", b"one", b"-"],
        400,
        Some(b"1\n"),
        b"1\n",
        "\r2 lines, 66 %, 5 a second, 0 s left\x1b[K\
         \r2 lines, 66 %, 2 a second, 0 s left\x1b[K\r\x1b[K\
         \r2 lines, 83 %, 1 a second, 0 s left\x1b[K\r3 lines, 100 %, 1 a second, 0 s left\x1b[K\
         \r3 lines, 100 %, 1 a second, 0 s left\x1b[K\r\x1b[K3 records, 1 failed\n",
    ),
    // The time left, in minutes from two on.
    (
        PLAIN,
        60_000,
        Some(b"2\n1\n"),
        b"2\n1\n",
        "\r0 lines, 25 %, 0 a second, 3 min left\x1b[K\r1 line, 50 %, 0 a second, 2 min left\x1b[K\
         \r1 line, 75 %, 0 a second, 60 s left\x1b[K\r2 lines, 100 %, 0 a second, 0 s left\x1b[K\
         \r2 lines, 100 %, 0 a second, 0 s left\x1b[K\r\x1b[K2 records, 1 failed\n",
    ),
    // One that has grown, and one that had nothing.
    (
        PLAIN,
        200,
        Some(b"1"),
        b"1\n",
        "\r0 lines, 100 %, 0 a second, 0 s left\x1b[K\r1 line, 100 %, 2 a second, 0 s left\x1b[K\
         \r1 line, 100 %, 1 a second, 0 s left\x1b[K\r\x1b[K1 record, 0 failed\n",
    ),
    (
        PLAIN,
        200,
        Some(b""),
        b"",
        "\r0 lines, 0 %, 0 a second, 0 s left\x1b[K\r0 lines, 0 %, 0 a second, 0 s left\x1b[K\
         \r\x1b[K0 records, 0 failed\n",
    ),
];

const MESSAGES: [Row; 4] = [
    // The line is taken away before a message, before the summary, and where nothing else is told.
    (
        PLAIN,
        200,
        None,
        b"[\n1\n",
        "\
\r0 lines, 0 a second\x1b[K\r1 line, 2 a second\x1b[K\
    \r\x1b[Kvet: record 1: not JSON: EOF while parsing at its end
\r1 line, 1 a second\x1b[K\r2 lines, 2 a second\x1b[K\r2 lines, 2 a second\x1b[K\
    \r\x1b[K1 record, 0 failed, 1 line unreadable
",
    ),
    (
        &[
            b"vet",
            b"--progress",
            b"--summary",
            b"rules",
            b"none",
            b"one",
        ],
        200,
        None,
        b"",
        "\
vet: none: entity not found
\r2 lines, 10 a second\x1b[K\r2 lines, 5 a second\x1b[K\r\x1b[K1  #  a
2 records, 1 failed
",
    ),
    // Before each write to standard output.
    (
        &[b"vet", b"--progress", b"--flush", b"--failed", b"rules"],
        200,
        None,
        b"2\n1\n",
        "\r0 lines, 0 a second\x1b[K\r1 line, 2 a second\x1b[K\r\x1b[K\r1 line, 1 a second\x1b[K\
         \r2 lines, 2 a second\x1b[K\r2 lines, 2 a second\x1b[K\r\x1b[K2 records, 1 failed\n",
    ),
    // The lines of values that take several.
    (
        &[b"vet", b"--progress", b"--input-format", b"json", b"rules"],
        300,
        None,
        b"[1,\n1]",
        "\r0 lines, 0 a second\x1b[K\r0 lines, 0 a second\x1b[K\r0 lines, 0 a second\x1b[K\
         \r1 line, 0 a second\x1b[K\r1 line, 0 a second\x1b[K\r1 line, 0 a second\x1b[K\
         \r1 line, 0 a second\x1b[K\r\x1b[K2 records, 0 failed\n",
    ),
];

// The error at the end of an input, the output that fails, and standard error.
const FAULTS: [(Option<ErrorKind>, Closed, &str); 3] = [
    (
        Some(ErrorKind::BrokenPipe),
        Closed::Neither,
        "\r0 lines, 0 a second\x1b[K\r1 line, 2 a second\x1b[K\
         \r\x1b[Kvet: input could not be read: broken pipe\n",
    ),
    // Nothing else is told.
    (
        None,
        Closed::Output,
        "\r0 lines, 0 a second\x1b[K\r1 line, 2 a second\x1b[K\r1 line, 1 a second\x1b[K\r\x1b[K",
    ),
    // The run goes on, and ends as without the line.
    (None, Closed::Error, ""),
];

const FILES: [(&str, &[u8]); 3] = [
    ("rules", b"a: / == 1"),
    ("one", b"2\n1\n"),
    ("two", b"1\n\n3"),
];

// The status, standard output and standard error.
fn run(process: Process<'_>, on_terminal: bool) -> (u8, Vec<u8>, Vec<u8>) {
    let status = run_program(
        &process,
        Terminals {
            output: false,
            error: on_terminal,
        },
    );
    let (output, error) = process.into_written();
    (status, output, error)
}

fn ticking<'a>(
    alloc: Global,
    words: &'a [&'a [u8]],
    files: &'a [(&'a str, &'a [u8])],
    input: &'a [u8],
    tick: Option<u64>,
) -> Process<'a> {
    let mut process = Process::new(alloc, words, files, input);
    process.tick = tick;
    process
}

// Whether this is told on a terminal, and the status and the output are those of a run elsewhere.
fn tells(watched: Process<'_>, plain: Process<'_>, messages: &str) -> bool {
    let (status, output, told) = run(watched, true);
    let (plain_status, plain_output, _) = run(plain, false);
    status == plain_status && output == plain_output && told.as_slice() == messages.as_bytes()
}

// Whether the program tells so.
fn row_tells(alloc: Global, row: Row) -> bool {
    let (words, tick, stdin, input, messages) = row;
    let tick = Some(tick);
    let [rules, one, two] = FILES;
    let files = [rules, one, two, ("/dev/stdin", stdin.unwrap_or(b""))];
    let known = if stdin.is_some() { 4 } else { 3 };
    let files = &files[..known];
    let watched = ticking(alloc, words, files, input, tick);
    tells(watched, ticking(alloc, words, files, input, tick), messages)
}

fn failing(alloc: Global, end: Option<ErrorKind>, closed: Closed) -> Process<'static> {
    let mut process = ticking(alloc, PLAIN, &FILES, b"2\n", Some(200));
    process.end = end;
    process.closed = closed;
    process
}

// Whether the program tells so where something fails.
fn fault_tells(alloc: Global, fault: (Option<ErrorKind>, Closed, &str)) -> bool {
    let (end, closed, messages) = fault;
    let watched = failing(alloc, end, closed);
    tells(watched, failing(alloc, end, closed), messages)
}

// Whether nothing is shown.
fn is_silent(alloc: Global, words: &[&[u8]], tick: Option<u64>, on_terminal: bool) -> bool {
    let process = ticking(alloc, words, &FILES, b"1\n2\n1\n", tick);
    let (_, _, told) = run(process, on_terminal);
    told.as_slice() == b"3 records, 1 failed\n".as_slice()
}

fn all_tell(rt: &impl Abort, alloc: Global, rows: &[Row]) {
    for row in rows {
        assert!(rt; row_tells(alloc, *row), "{:?} on {:?}", row.0, row.3);
    }
}

#[test]
fn lines(rt: HostRuntime) {
    let alloc = rt.alloc();
    all_tell(&rt, alloc, &LINES);
    all_tell(&rt, alloc, &SHARES);
    all_tell(&rt, alloc, &MESSAGES);
}

#[test]
fn faults(rt: HostRuntime) {
    for fault in FAULTS {
        let messages = fault.2;
        assert!(rt; fault_tells(rt.alloc(), fault), "{messages:?}");
    }
}

#[test]
fn silent_elsewhere(rt: HostRuntime) {
    assert!(rt; is_silent(rt.alloc(), PLAIN, Some(100), false));
    assert!(rt; is_silent(rt.alloc(), &[b"vet", b"rules"], Some(100), true));
    // Without a clock.
    assert!(rt; is_silent(rt.alloc(), PLAIN, None, true));
}
