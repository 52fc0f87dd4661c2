//! Lines of texts, to a writer that passes nothing on, and a deep check.
use super::{Host, read_check};
use explain_run::{RunFault, run_text};
use tests_support::Unflushed;

// How a run over the input ends, where the writer passes nothing on.
fn unflushed(rt: &impl Host, mut input: &[u8]) -> Result<bool, RunFault> {
    let check = read_check(rt, &["empty"]);
    run_text(rt.alloc(), &check, &mut input, &mut Unflushed)
}

// The writer passes on what it keeps back, also where a line was bad or none was read.
#[test]
fn flushed_at_each_end(rt: HostRuntime) {
    for input in [b"".as_slice(), b"\xff\n", b"7\n"] {
        let answer = unflushed(&rt, input);
        assert_eq!(rt; answer, Err(RunFault::Output), "at {input:?}");
    }
}

// What `empty`, negated 200 times, writes of an empty line, where it answers true.
fn write_negated(rt: &impl Host) -> Vec<u8> {
    let alloc = rt.alloc();
    let mut tokens = Vec::new(alloc);
    tokens.push("empty").expect(rt, "memory");
    tokens.resize(201, "not").expect(rt, "memory");
    let check = read_check(rt, tokens.as_slice());
    let mut output = Vec::new(alloc);
    let mut reader = b"\n".as_slice();
    assert!(rt; run_text(alloc, &check, &mut reader, &mut output) == Ok(true));
    output
}

// The line, 200 levels deep.
fn push_deep(rt: &impl Host, text: &mut String, line: &str) {
    for _ in 0..200 {
        text.push_str("  ").expect(rt, "memory");
    }
    text.push_str(line).expect(rt, "memory");
}

// The last lines of the case: two of a node and its product.
fn deep_end(rt: &impl Host) -> String {
    let mut end = String::from_str(rt.alloc(), "\n").expect(rt, "memory");
    push_deep(rt, &mut end, "predicate: var.is_empty() = true\n");
    push_deep(rt, &mut end, "  - var: \n");
    end
}

// How many lines are written, and whether they begin and end as they should.
fn negated_lines(rt: &impl Host) -> (usize, bool, bool) {
    let end = deep_end(rt);
    let output = write_negated(rt);
    let lines = output.iter().filter(|byte| **byte == b'\n').count();
    let begins = output.starts_with(b"line 1: true\n(! (! ");
    (lines, begins, output.ends_with(end.as_bytes()))
}

#[test]
fn two_hundred_times_not(rt: HostRuntime) {
    // The label, 201 nodes, and the product of the last, which stands 200 levels deep.
    assert_eq!(rt; negated_lines(&rt), (203, true, true));
}
