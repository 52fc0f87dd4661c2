//! Lines within a length.
use streams::{TakenLine, next_line_within};

// What is taken, one after another, and the line.
const TAKEN: [(TakenLine, &[u8]); 6] = [
    (TakenLine::Line, b"one\n"),
    (TakenLine::TooLong, b""),
    (TakenLine::Line, b"\n"),
    (TakenLine::TooLong, b""),
    (TakenLine::Line, b"four"),
    (TakenLine::End, b""),
];

#[test]
fn lines_of_four_bytes(rt: HostRuntime) {
    let mut input = b"one\nfive\n\nsixteen\nfour".as_slice();
    let mut line = Vec::new(rt.alloc());
    for (taken, bytes) in TAKEN {
        assert!(rt; next_line_within(&mut input, &mut line, 4).expect(&rt, "memory") == taken);
        assert!(rt; taken == TakenLine::TooLong || line.as_slice() == bytes);
    }
}
