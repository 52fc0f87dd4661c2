//! The whole program, over a process of the test's.
use super::{BLANK, REFUSED, USAGE};
use crate::tests::Host;
use explain_run::run_program;
use std::alloc::Global;
use tests_support::{Closed, Process};

// The status, standard output and standard error.
fn run(alloc: Global, words: &[&[u8]], input: &[u8]) -> (u8, Vec<u8>, Vec<u8>) {
    run_closed(alloc, words, input, Closed::Neither)
}

// The same, where an output fails.
fn run_closed(
    alloc: Global,
    words: &[&[u8]],
    input: &[u8],
    closed: Closed,
) -> (u8, Vec<u8>, Vec<u8>) {
    let mut process = Process::new(alloc, words, &[], input);
    process.closed = closed;
    let status = run_program(&process);
    let (output, error) = process.into_written();
    (status, output, error)
}

const BLANK_WORDS: [&[u8]; 6] = [b"explain", b"text", b"empty", b"trim", b"contains=a", b"or"];

const WRONG_WORDS: [&[&[u8]]; 8] = [
    &[b"explain", b"text", b"and"],
    &[b"explain", b"between", b"5"],
    &[b"explain", b"text", b"\xff", b"match=("],
    // An empty word is a word.
    &[b"explain", b"text", b"empty", b""],
    &[b"explain", b"text", b"", b"empty"],
    &[b"explain", b"", b"text", b"empty"],
    &[b"text"],
    &[],
];

const REFUSED_PATTERNS: [&[&[u8]]; 2] = [
    &[b"explain", b"text", b"match=("],
    &[b"explain", b"text", b"match=(", b"\xff"],
];

// Whether the words end so, on a line of spaces.
fn ends(alloc: Global, words: &[&[u8]], status: u8, output: &str, message: &str) -> bool {
    let (found, written, messages) = run(alloc, words, b"  \n");
    found == status
        && written.as_slice() == output.as_bytes()
        && messages.as_slice() == message.as_bytes()
}

#[test]
fn status_and_outputs_of_a_process(rt: HostRuntime) {
    assert!(rt; ends(rt.alloc(), &BLANK_WORDS, 0, BLANK, ""));
    assert!(rt; ends(rt.alloc(), &BETWEEN, 1, "line 1: not a number\n", ""));
    for words in WRONG_WORDS {
        assert!(rt; ends(rt.alloc(), words, 2, "", USAGE), "at {words:?}");
    }
    for words in REFUSED_PATTERNS {
        assert!(rt; ends(rt.alloc(), words, 2, "", REFUSED), "at {words:?}");
    }
}

// Whether the item holds the word, and, where it is not empty, the item less one letter does not.
fn is_read_whole(alloc: Global, word: &[u8], item: &[u8]) -> bool {
    let words = [b"explain".as_slice(), b"text", word];
    let (status, written, messages) = run(alloc, &words, item);
    if status != 0
        || !written.starts_with(b"line 1: true\nvar.contains(a")
        || !messages.is_empty()
    {
        return false;
    }
    let shorter = &item[..item.len().saturating_sub(1)];
    let (_, written, _) = run(alloc, &words, shorter);
    written.starts_with(b"line 1: false\n") || item.len() == 1
}

// Whether a word of this many letters is read whole.
fn is_long_word_read(rt: &impl Host, size: usize) -> bool {
    let alloc = rt.alloc();
    let mut item = Vec::new(alloc);
    item.resize(size, b'a').expect(rt, "memory");
    let mut word = Vec::new(alloc);
    word.extend_from_slice(b"contains=").expect(rt, "memory");
    word.extend_from_slice(&item).expect(rt, "memory");
    is_read_whole(alloc, &word, &item)
}

// A word is read whole, however long it is.
#[test]
fn long_words(rt: HostRuntime) {
    for size in [1usize, 246, 247, 248, 300, 70_000] {
        assert!(rt; is_long_word_read(&rt, size), "at {size}");
    }
}

// The status of the words, the number of lines, and whether the first one says true.
fn count_lines(alloc: Global, words: &[&[u8]]) -> (u8, usize, bool) {
    let (status, written, _) = run(alloc, words, b"\n");
    let lines = written.iter().filter(|byte| **byte == b'\n').count();
    (status, lines, written.starts_with(b"line 1: true\n"))
}

// The words of this many checks, joined, and then one word more, if any.
fn joined_words(rt: &impl Host, count: usize, more: &[&'static [u8]]) -> Vec<&'static [u8]> {
    let mut words = Vec::new(rt.alloc());
    words
        .extend_from_slice(&[b"explain".as_slice(), b"text"])
        .expect(rt, "memory");
    words
        .resize(count.saturating_add(2), b"empty")
        .expect(rt, "memory");
    words
        .resize(count.saturating_add(count).saturating_add(1), b"or")
        .expect(rt, "memory");
    words.extend_from_slice(more).expect(rt, "memory");
    words
}

// What is counted of such words.
fn count_joined(rt: &impl Host, count: usize, more: &[&'static [u8]]) -> (u8, usize, bool) {
    let words = joined_words(rt, count, more);
    count_lines(rt.alloc(), &words)
}

// Whether all of such words are read, and one that is too many is refused.
fn are_read(rt: &impl Host, count: usize) -> [bool; 2] {
    // The label, the nodes that decide, and the product of the last.
    let lines = if count == 1 { 3 } else { 4 };
    let is_whole = count_joined(rt, count, &[]) == (0, lines, true);
    let (status, _, _) = count_joined(rt, count, &[b"and"]);
    [is_whole, status == 2]
}

// Every word is read, however many there are; this many checks stand on the stack before they are
// joined.
#[test]
fn many_words(rt: HostRuntime) {
    for count in [1usize, 8, 9, 300] {
        assert!(rt; are_read(&rt, count) == [true; 2], "at {count}");
    }
}

// Whether the words end so on the line `7`, where an output fails and nothing is written to the
// other one but this.
fn ends_closed(alloc: Global, words: &[&[u8]], closed: Closed, status: u8, message: &[u8]) -> bool {
    let (found, written, messages) = run_closed(alloc, words, b"7\n", closed);
    found == status && written.is_empty() && messages.as_slice() == message
}

const BETWEEN: [&[u8]; 4] = [b"explain", b"between", b"5", b"10"];

// A fault of standard output is reported, and one of standard error leaves the status as it is.
#[test]
fn closed_outputs(rt: HostRuntime) {
    let message = b"explain: input or output fault\n";
    let holds = ends_closed(rt.alloc(), &BETWEEN, Closed::Output, 3, message);
    assert!(rt; holds, "of standard output");
    let holds = ends_closed(rt.alloc(), &BETWEEN[..2], Closed::Error, 2, b"");
    assert!(rt; holds, "of standard error");
}
