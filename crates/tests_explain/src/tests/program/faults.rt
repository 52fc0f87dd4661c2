use super::split_words;
use crate::tests::Host;
use explain_run::{Exit, run_command_line};
use std::io::{BufRead, ErrorKind, Write};
use tests_support::{FailingReader, FailingWriter};

const NO_MEMORY: &str = "explain: no memory\n";

const FAULT: &str = "explain: input or output fault\n";

const KINDS: [(ErrorKind, &str); 3] = [
    (ErrorKind::OutOfMemory, NO_MEMORY),
    (ErrorKind::BrokenPipe, FAULT),
    (ErrorKind::InvalidData, FAULT),
];

const LINES: [&[u8]; 2] = [b"text|empty", b"between|5|10"];

// Whether the words end with the message and the status of a fault, over this input and output.
fn is_fault<R: BufRead + Drop, W: Write + Drop>(
    rt: &impl Host,
    line: &[u8],
    mut reader: R,
    mut writer: W,
    message: &str,
) -> bool {
    let words = split_words(rt, line);
    let mut messages = Vec::new(rt.alloc());
    let (end, _) = run_command_line(rt.alloc(), &words, &mut reader, &mut writer, &mut messages);
    end.status() == 3 && messages.as_slice() == message.as_bytes()
}

// Each read in turn wants memory, or fails.
#[test]
fn failing_reads(rt: HostRuntime) {
    let (alloc, bytes) = (rt.alloc(), b"1\n2".as_slice());
    for line in LINES {
        for (kind, message) in KINDS {
            for calls in 0..4usize {
                let reader = FailingReader { bytes, calls, kind };
                let holds = is_fault(&rt, line, reader, Vec::new(alloc), message);
                assert!(rt; holds, "at {line:?}, {message}, {calls}");
            }
        }
    }
}

// Each write and the flush in turn want memory, or fail.
#[test]
fn failing_writes(rt: HostRuntime) {
    let (alloc, reader) = (rt.alloc(), b"1\n2".as_slice());
    for line in LINES {
        for (kind, message) in KINDS {
            for calls in 0..3usize {
                let writer = FailingWriter { calls, kind };
                let holds = is_fault(&rt, line, reader, writer, message);
                assert!(rt; holds, "at {line:?}, {message}, {calls}");
            }
        }
    }
}

// How the words end where no message can be written, and how many bytes of output there are.
fn ended_without_message(rt: &impl Host, line: &[u8]) -> ((Exit, bool), usize) {
    let words = split_words(rt, line);
    let mut reader = b"1".as_slice();
    let mut written = Vec::new(rt.alloc());
    let mut closed = FailingWriter {
        calls: 0,
        kind: ErrorKind::BrokenPipe,
    };
    let ended = run_command_line(rt.alloc(), &words, &mut reader, &mut written, &mut closed);
    (ended, written.len())
}

// A message that can't be written leaves the status as it is.
#[test]
fn no_place_for_messages(rt: HostRuntime) {
    let ended = ended_without_message(&rt, b"text|and");
    assert_eq!(rt; ended, ((Exit::Usage, false), 0));
}
