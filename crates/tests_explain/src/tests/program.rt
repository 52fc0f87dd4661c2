//! Calls of the program, with the words typed.
mod faults;
mod process;
mod sizes;

use super::Host;
use explain_run::{MAX_DEPTH, run_command_line};

const USAGE: &str = "usage: explain between LO HI\nusage: explain text TOKEN..\n";

const REFUSED: &str = "explain: pattern refused\n";

const DEEP: &str = "explain: check nested too deep\n";

const BLANK: &str = "\
line 1: true
(var.is_empty() || var.contains(a)) = true
  left: var.is_empty() = true
    - var: \n";

// The words, parted by `|`.
fn split_words(rt: &impl Host, line: &[u8]) -> Vec<Vec<u8>> {
    let alloc = rt.alloc();
    let mut words = Vec::new(alloc);
    let mut word = Vec::new(alloc);
    for byte in line {
        if *byte == b'|' {
            words.push(word).expect(rt, "memory");
            word = Vec::new(alloc);
        } else {
            word.push(*byte).expect(rt, "memory");
        }
    }
    words.push(word).expect(rt, "memory");
    words
}

// Words, an input, the status and standard output.
const ROWS: [(&[u8], &[u8], u8, &str); 4] = [
    // Every line is an item.
    (b"between|5|10", b"", 0, ""),
    (b"text|empty|trim|contains=a|or", b"  \n", 0, BLANK),
    // Some line is none.
    (b"between|5|10", b"x", 1, "line 1: not a number\n"),
    (b"text|empty", b"\xff\n", 1, "line 1: not UTF-8\n"),
];

const WRONG_WORDS: [&[u8]; 21] = [
    b"",
    b"betwee|5|10",
    b"between",
    b"between|5",
    b"between|5|10|15",
    b"between|5|x",
    b"between|x|10",
    b"between| 5|10",
    b"between|5|10 ",
    b"between|5|9223372036854775808",
    b"between|5|10\xff",
    b"\xff|5|10",
    b"text|empt",
    b"text|empty|\xff",
    // A missing operand.
    b"text|and",
    b"text|empty|or",
    b"text|not|empty",
    // Not exactly one predicate.
    b"text",
    b"text|empty|empty",
    // The first fault from the left decides.
    b"text|and|match=(",
    b"text|\xff|match=(",
];

const REFUSED_PATTERNS: [&[u8]; 5] = [
    b"text|match=(",
    // The first fault from the left decides.
    b"text|match=(|and",
    b"text|match=(|\xff",
    b"text|empty|match=[|nothing",
    b"text|empty|empty|match=(",
];

// How a call ends, with what it writes.
#[derive(Clone, Copy)]
struct End<'a> {
    status: u8,
    output: &'a str,
    message: &'a str,
}

// Whether the words end so on the input, and the message could be written.
fn ends(rt: &impl Host, line: &[u8], input: &[u8], wanted: End<'_>) -> bool {
    let alloc = rt.alloc();
    let words = split_words(rt, line);
    let mut reader = input;
    let mut written = Vec::new(alloc);
    let mut messages = Vec::new(alloc);
    let (end, message_written) = run_command_line(
        alloc,
        &words,
        &mut reader,
        &mut written,
        &mut messages,
    );
    // Wrong words are reported before any input is read.
    let left = if wanted.status < 2 {
        b"".as_slice()
    } else {
        input
    };
    end.status() == wanted.status
        && message_written
        && written.as_slice() == wanted.output.as_bytes()
        && messages.as_slice() == wanted.message.as_bytes()
        && reader == left
}

#[test]
fn statuses_and_outputs_of_words(rt: HostRuntime) {
    for (line, input, status, output) in ROWS {
        let wanted = End {
            status,
            output,
            message: "",
        };
        assert!(rt; ends(&rt, line, input, wanted), "at {line:?}");
    }
}

// Whether the words are refused with the message, whatever the input.
fn is_refused(rt: &impl Host, line: &[u8], message: &str) -> bool {
    let wanted = End {
        status: 2,
        output: "",
        message,
    };
    ends(rt, line, b"7", wanted)
}

#[test]
fn wrong_words(rt: HostRuntime) {
    for line in WRONG_WORDS {
        assert!(rt; is_refused(&rt, line, USAGE), "at {line:?}");
    }
}

#[test]
fn refused_patterns(rt: HostRuntime) {
    for line in REFUSED_PATTERNS {
        assert!(rt; is_refused(&rt, line, REFUSED), "at {line:?}");
    }
}

// A check of one level past the limit, and then these words.
fn deep_line(rt: &impl Host, end: &[u8]) -> Vec<u8> {
    let mut line = Vec::from_slice(rt.alloc(), b"text|empty").expect(rt, "memory");
    for _ in 0..=MAX_DEPTH {
        line.extend_from_slice(b"|not").expect(rt, "memory");
    }
    line.extend_from_slice(end).expect(rt, "memory");
    line
}

// Whether such a check is rejected.
fn is_too_deep(rt: &impl Host, end: &[u8]) -> bool {
    let line = deep_line(rt, end);
    is_refused(rt, &line, DEEP)
}

// Also before a word that is wrong by itself.
#[test]
fn deep_checks(rt: HostRuntime) {
    assert!(rt; is_too_deep(&rt, b""));
    assert!(rt; is_too_deep(&rt, b"|match=("));
}
