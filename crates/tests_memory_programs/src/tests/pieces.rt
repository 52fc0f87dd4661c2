//! Inputs without a line or a record, of which taking one takes no memory.
use streams::{Position, TakenLine, TakenRecord, next_line, next_line_within, next_record};
use tests_sweep::refusing;

// How many bytes a line or a record may have.
const LIMIT: u32 = 12;

#[test]
fn lines_of_nothing(rt: HostRuntime) {
    let (mut input, mut bytes) = (b"".as_slice(), Vec::new(rt.alloc()));
    let begun = refusing(rt.alloc(), "next_line of nothing");
    let right = next_line(&mut input, &mut bytes) == Ok(false);
    begun.end(&rt, right).expect(&rt, "memory");
    let begun = refusing(rt.alloc(), "next_line_within of nothing");
    let right = next_line_within(&mut input, &mut bytes, LIMIT) == Ok(TakenLine::End);
    begun.end(&rt, right).expect(&rt, "memory")
}

// An input, and what is taken of it: of an array that is not closed, and of nothing.
const RECORDS: [(&str, &[u8], TakenRecord); 2] = [
    (
        "next_record of an array that is not closed",
        b"[",
        TakenRecord::Unclosed,
    ),
    ("next_record of nothing", b"", TakenRecord::End),
];

#[test]
fn records_of_nothing(rt: HostRuntime) {
    for (name, mut input, expected) in RECORDS {
        let (mut position, mut bytes) = (Position::Outside, Vec::new(rt.alloc()));
        let begun = refusing(rt.alloc(), name);
        let right = next_record(&mut input, &mut position, &mut bytes, LIMIT) == Ok(expected);
        begun.end(&rt, right).expect(&rt, "memory");
    }
}
