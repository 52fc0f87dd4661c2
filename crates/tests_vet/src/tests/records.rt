//! The records of inputs, and their lines.
mod copied;
mod faults;
mod lines;

use std::alloc::Global;
use std::io::BufRead;
use std::process::Abort;
use streams::{MAX_LINE, Position, RunFault, TakenRecord, next_record, write_bytes};
use tests_support::Slow;

// Takes one record, and writes it with `|` behind it; `#` for one that is too long, `[` for an
// array that the input does not close, and `.` at the end, which is the answer.
fn tell_one<R: BufRead>(
    rt: &impl Abort,
    alloc: Global,
    input: &mut R,
    position: &mut Position,
    limit: u32,
    told: &mut Vec<u8>,
) -> bool {
    let mut value = Vec::new(alloc);
    let taken = next_record(input, position, &mut value, limit).expect(rt, "memory");
    let mark = match taken {
        TakenRecord::Record => {
            write_bytes(told, &value).expect(rt, "memory");
            b"|"
        }
        TakenRecord::TooLong => b"#",
        TakenRecord::Unclosed => b"[",
        TakenRecord::End => b".",
    };
    write_bytes(told, mark).expect(rt, "memory");
    taken == TakenRecord::End
}

// Tells the whole input.
fn tell_all<R: BufRead>(rt: &impl Abort, alloc: Global, input: &mut R, limit: u32) -> Vec<u8> {
    let mut position = Position::Outside;
    let mut told = Vec::new(alloc);
    for _ in 0..u64::MAX {
        if tell_one(rt, alloc, input, &mut position, limit, &mut told) {
            break;
        }
    }
    told
}

// Whether the input is told so, all at once and byte by byte.
fn is_told(rt: &impl Abort, alloc: Global, bytes: &[u8], limit: u32, expected: &[u8]) -> bool {
    let mut input = bytes;
    let at_once = tell_all(rt, alloc, &mut input, limit);
    let mut slow = Slow { bytes, end: None };
    let by_bytes = tell_all(rt, alloc, &mut slow, limit);
    at_once.as_slice() == expected && by_bytes.as_slice() == expected
}

// An input, and how it is told.
const INPUTS: [(&[u8], &[u8]); 24] = [
    (b"", b"."),
    (b" \t\r\n", b"."),
    (b"1", b"1|."),
    (b"1 true\n\"a\" null ", b"1|true|\"a\"|null|."),
    (b"\"a\"\"b\"", b"\"a\"|\"b\"|."),
    (b"{}{\"a\":{}}\n\n{}\n", b"{}|{\"a\":{}}|{}|."),
    (
        b"{\n  \"a\": [\n    1\n  ]\n}\n2",
        b"{\n  \"a\": [\n    1\n  ]\n}|2|.",
    ),
    // Brackets, quotes and backslashes in texts.
    (b"{\"a\": \"}]\\\"[{\"} 2", b"{\"a\": \"}]\\\"[{\"}|2|."),
    (
        b"[\"a,b\", \"]\\\\\", \"\\\"]\"]",
        b"\"a,b\"|\"]\\\\\"|\"\\\"]\"|.",
    ),
    (b"\"\xc3\xa9]\"\xff", b"\"\xc3\xa9]\"|\xff|."),
    // Arrays.
    (b"[]", b"."),
    (b" [ ]\n", b"."),
    (b"[1,2]", b"1|2|."),
    (b"[ 1 ,\n2 ]3", b"1 |2 |3|."),
    (b"[[1,2],{\"a\":[3,4]}]", b"[1,2]|{\"a\":[3,4]}|."),
    (b"[1][]\n[2,3]", b"1|2|3|."),
    // What is no JSON, but for `[1 2]` each where it stands.
    (b"[1,]2", b"1|]|2|."),
    (b"[,1,,2]", b",|1|,|2|."),
    (b"[1 2]", b"1 2|."),
    (b"[{\"a\":1], 2}, 3]", b"{\"a\":1]|2}|3|."),
    (b"1,2 ] } , 3", b"1,2|]|}|,|3|."),
    (b"{]}", b"{]|}|."),
    (b"{}:{}", b"{}|:{}|."),
    (b"1[2]", b"1[2]|."),
];

#[test]
fn records_of_inputs(rt: HostRuntime) {
    for (input, expected) in INPUTS {
        assert!(rt;
            is_told(&rt, rt.alloc(), input, MAX_LINE, expected),
            "{input:?}"
        );
    }
}

// An input that is cut short, and how it is told.
const CUT: [(&[u8], &[u8]); 10] = [
    (b"[", b"[."),
    (b"[ ", b"[."),
    (b"[1", b"1|[."),
    (b"[1 ", b"1 |[."),
    (b"[1,", b"1|[."),
    (b"[\"a\\", b"\"a\\|[."),
    (b"[{\"a\": [", b"{\"a\": [|[."),
    (b"{\"a\": 1", b"{\"a\": 1|."),
    (b"\"a", b"\"a|."),
    (b"\"\\", b"\"\\|."),
];

#[test]
fn inputs_that_are_cut_short(rt: HostRuntime) {
    for (input, expected) in CUT {
        assert!(rt;
            is_told(&rt, rt.alloc(), input, MAX_LINE, expected),
            "{input:?}"
        );
    }
}

// An input, how long a record may be, and how it is told.
const LIMITS: [(&[u8], u32, &[u8]); 8] = [
    (b"123 1234 12", 3, b"123|#12|."),
    (b"[1234, 567, {} ]", 3, b"#567|{} |."),
    (b"[1234, 567,{}]", 2, b"##{}|."),
    (b"[123 ,1]", 3, b"#1|."),
    (b"1234", 3, b"#."),
    (b"[1234", 3, b"#[."),
    (b"1 {}", 0, b"##."),
    (b"[[[[]]]]", 5, b"#."),
];

#[test]
fn records_up_to_a_length(rt: HostRuntime) {
    for (input, limit, expected) in LIMITS {
        assert!(rt;
            is_told(&rt, rt.alloc(), input, limit, expected),
            "{input:?}"
        );
    }
}
