//! Large and empty operands.
use super::split_words;
use crate::tests::Host;
use crate::tests::numbers::{SEVEN, is_one, is_total};
use explain_run::run_command_line;
use predicates::ord::ge;
use tests_support::repeated;

// What is written for the input, where every line is an item.
fn answer(rt: &impl Host, line: &[u8], input: &[u8]) -> Vec<u8> {
    let alloc = rt.alloc();
    let words = split_words(rt, line);
    let mut reader = input;
    let mut written = Vec::new(alloc);
    let mut messages = Vec::new(alloc);
    let (end, _) = run_command_line(alloc, &words, &mut reader, &mut written, &mut messages);
    assert!(rt; end.status() == 0 && reader.is_empty() && messages.is_empty());
    written
}

// The text, this many times.
fn repeat(rt: &impl Host, text: &str, count: usize) -> Vec<u8> {
    let mut all = Vec::new(rt.alloc());
    for _ in 0..count {
        all.extend_from_slice(text.as_bytes()).expect(rt, "memory");
    }
    all
}

// Whether the last of this many lines, of which none is empty, has this label.
fn ends_at(rt: &impl Host, count: usize, last: &str) -> bool {
    let input = repeat(rt, "7\n", count);
    let written = answer(rt, b"text|empty", &input);
    let mut end = String::from_str(rt.alloc(), last).expect(rt, "memory");
    end.push_str(": false\nvar.is_empty() = false\n  - var: 7\n")
        .expect(rt, "memory");
    written.ends_with(end.as_bytes())
}

// Whether the program writes the block of 7 as often as the line stands there.
fn repeats(rt: &impl Host, count: usize) -> bool {
    let input = repeat(rt, "7\n", count);
    let written = answer(rt, b"between|5|10", &input);
    let expected = repeat(rt, SEVEN, count);
    written == expected
}

#[test]
fn many_lines(rt: HostRuntime) {
    assert!(rt; repeats(&rt, 300));
    for (count, last) in [(300, "line 300"), (70_000, "line 70000")] {
        assert!(rt; ends_at(&rt, count, last), "at {count}");
    }
}

// Whether the program writes, of the words and the input, this and then the input.
fn echoes(rt: &impl Host, words: &[u8], input: &[u8], begin: &str, end: &str) -> bool {
    let mut expected = Vec::new(rt.alloc());
    expected
        .extend_from_slice(begin.as_bytes())
        .expect(rt, "memory");
    expected.extend_from_slice(input).expect(rt, "memory");
    expected
        .extend_from_slice(end.as_bytes())
        .expect(rt, "memory");
    answer(rt, words, input) == expected
}

// Whether 7, behind this many zeros, lies between 5 and 10.
fn is_seven(rt: &impl Host, zeros: usize, end: &str) -> bool {
    let mut number = repeat(rt, "0", zeros);
    number
        .extend_from_slice(end.as_bytes())
        .expect(rt, "memory");
    let written = answer(rt, b"between|5|10", &number);
    written.as_slice() == SEVEN.as_bytes()
}

// Whether a line of this many letters is shown whole.
fn is_shown_whole(rt: &impl Host, size: usize) -> bool {
    let begin = "line 1: false\nvar.contains(a) = false\n  - var: ";
    let mut input = repeat(rt, "b", size);
    input.push(b'\n').expect(rt, "memory");
    echoes(rt, b"text|contains=a", &input, begin, "")
}

// Lines of 0 to 300 bytes, so that what is written for them has each length as well.
#[test]
fn lines_of_each_length(rt: HostRuntime) {
    for size in 0..301usize {
        assert!(rt; is_shown_whole(&rt, size), "at {size}");
        assert!(rt; is_seven(&rt, size, "7\r\n"), "at {size}");
    }
}

// Whether both blocks stand under a label of this size.
fn is_labelled(rt: &impl Host, size: u32) -> bool {
    let label = repeated(rt.alloc(), "b", size, "").expect(rt, "memory");
    let block = repeated(
        rt.alloc(),
        "b",
        size,
        ": true\nvar >= 5 = true\n  - var: 7\n",
    )
    .expect(rt, "memory");
    let one = is_one(rt, ge(5i64), &label, 7, &block);
    let total = is_total(rt, ge(5i64), &label, 7, &block);
    one && total
}

// Labels of any length, also of none.
#[test]
fn labels_of_any_length(rt: HostRuntime) {
    for size in [0u32, 1, 255, 256, 300, 70_000] {
        assert!(rt; is_labelled(&rt, size), "at {size}");
    }
}
