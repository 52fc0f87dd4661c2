//! Records that nest: the deepest, those that are broken, and objects in objects.
use super::{nested, told};
use std::alloc::Global;
use std::process::Abort;
use tests_support::Process;

const FILES: [(&str, &[u8]); 1] = [("rules", b"a: / exists")];

// What opens a level, how often; what stands innermost; what closes a level, and how often; and why
// that is no JSON, or nothing where it is a record.
type Row = (
    &'static str,
    usize,
    &'static str,
    &'static str,
    usize,
    &'static str,
);

const DEEPEST: [Row; 4] = [
    ("[", 127, "1", "]", 127, ""),
    ("{\"a\":", 127, "1", "}", 127, ""),
    ("{\"a\":", 126, "{}", "}", 126, ""),
    ("{\"a\":[", 63, "{}", "]}", 63, ""),
];

const DEEPER: [Row; 5] = [
    ("[", 128, "1", "]", 128, "nested more than 127 deep"),
    ("{\"a\":", 128, "1", "}", 128, "nested more than 127 deep"),
    ("{\"a\":", 127, "{}", "}", 127, "nested more than 127 deep"),
    ("{\"a\":[", 64, "1", "]}", 64, "nested more than 127 deep"),
    ("{\"a\":", 128, "", "", 0, "nested more than 127 deep"),
];

// What is wrong is not their depth.
const BROKEN: [Row; 5] = [
    ("[", 127, "1", "]", 126, "EOF while parsing at its end"),
    (
        "{\"a\":",
        127,
        "1",
        "}",
        126,
        "EOF while parsing at its end",
    ),
    ("{\"a\":[", 63, "{", "", 0, "EOF while parsing at its end"),
    ("[", 127, "x", "]", 127, "invalid JSON at line 1 column 128"),
    (
        "{\"a\":",
        127,
        "x",
        "}",
        127,
        "invalid JSON at line 1 column 636",
    ),
];

fn record_of(rt: &impl Abort, alloc: Global, row: Row) -> String {
    let (opening, opened, innermost, closing, closed, _) = row;
    nested(rt, alloc, (opening, opened), innermost, (closing, closed))
}

// Whether a run over the record, on a line or as a value, tells this and no more.
fn is_told(rt: &impl Abort, alloc: Global, row: Row, format: &[u8]) -> bool {
    let record = record_of(rt, alloc, row);
    let reason = row.5;
    let (expected, messages) = if reason.is_empty() {
        (
            0,
            String::from_str(alloc, "1 record, 0 failed\n").expect(rt, "memory"),
        )
    } else {
        let messages = format!(in alloc;
            "vet: record 1: not JSON: {reason}\n0 records, 0 failed, 1 line unreadable\n"
        );
        (2, messages.expect(rt, "memory"))
    };
    let words: [&[u8]; 4] = [b"vet", b"--input-format", format, b"rules"];
    let (status, _, error) = told(Process::new(alloc, &words, &FILES, record.as_bytes()));
    status == expected && error.as_slice() == messages.as_bytes()
}

fn all_told(rt: &impl Abort, alloc: Global, rows: &[Row], format: &[u8]) {
    for row in rows {
        assert!(rt; is_told(rt, alloc, *row, format), "{row:?}");
    }
}

#[test]
fn deepest_and_deeper_records(rt: HostRuntime) {
    all_told(&rt, rt.alloc(), &DEEPEST, b"jsonl");
    all_told(&rt, rt.alloc(), &DEEPER, b"jsonl");
}

#[test]
fn deepest_records_that_are_broken(rt: HostRuntime) {
    all_told(&rt, rt.alloc(), &BROKEN, b"jsonl");
}

// As values, what nests in braces ends where they close.
const OBJECTS: [Row; 6] = [
    ("{\"a\":", 127, "1", "}", 127, ""),
    ("{\"a\":", 126, "{}", "}", 126, ""),
    ("{\"a\":[", 63, "{}", "]}", 63, ""),
    ("{\"a\":{\"b\":1},\"c\":", 20, "{}", "}", 20, ""),
    ("{\"a\":", 128, "1", "}", 128, "nested more than 127 deep"),
    ("{\"a\":", 127, "{}", "}", 127, "nested more than 127 deep"),
];

// Whether as many records are counted as the input has: the record twice, alone and in an array.
fn is_counted(rt: &impl Abort, alloc: Global, row: Row) -> bool {
    let record = record_of(rt, alloc, row);
    let input = format!(in alloc; "{record}{record}[{record},{record}]").expect(rt, "memory");
    let words: [&[u8]; 4] = [b"vet", b"--input-format", b"json", b"rules"];
    let (_, _, error) = told(Process::new(alloc, &words, &FILES, input.as_bytes()));
    let totals = if row.5.is_empty() {
        "4 records, 0 failed\n"
    } else {
        "0 records, 0 failed, 4 lines unreadable\n"
    };
    error.ends_with(totals.as_bytes())
}

#[test]
fn objects_in_objects(rt: HostRuntime) {
    all_told(&rt, rt.alloc(), &OBJECTS, b"json");
    for row in OBJECTS {
        assert!(rt; is_counted(&rt, rt.alloc(), row), "{row:?}");
    }
}
