//! What no contract says: that calls succeed, and where faults come from.
use super::{Host, is_shown};
use explain_run::{RunFault, explain_one, explain_total, number, run_between};
use predicates::Total;
use predicates::boolean::PredicateBooleanExt;
use predicates::ord::{ge, le, lt};
use std::alloc::Global;
use std::io::ErrorKind;
use tests_support::{Narrow, Slow, Unflushed, keeps_text};

/// The block of 7 between 5 and 10.
pub const SEVEN: &str = "\
7: true
(var >= 5 && var <= 10) = true
  left: var >= 5 = true
    - var: 7
  right: var <= 10 = true
    - var: 7
";

const ELEVEN: &str =
    "11: false\n(var >= 5 && var <= 10) = false\n  right: var <= 10 = false\n    - var: 11\n";

const ZERO: &str =
    "0: false\n(var >= 5 && var <= 10) = false\n  left: var >= 5 = false\n    - var: 0\n";

// Two lines, the second of them cut short.
const CUT: &str = "\
7: true
(var >= 5 && var <= 10) = true
  left: var >= 5 = true
    - var: 7
  right: var <= 10 = true
    - var: 7
1: false
(var >= 5 && var <= 10) = false
  left: var >= 5 = false
    - var: 1
";

const LEAST: &str = "\
-9223372036854775808: false
(var >= 5 && var <= 10) = false
  left: var >= 5 = false
    - var: -9223372036854775808
";

// Inputs, what is written for them between 5 and 10, and whether every line is an item.
const ROWS: [(&str, &str, bool); 14] = [
    ("", "", true),
    ("+7", SEVEN, true),
    ("7", SEVEN, true),
    ("7\r\n", SEVEN, true),
    ("7\n1", CUT, true),
    ("00011\n", ELEVEN, true),
    ("-0", ZERO, true),
    ("-9223372036854775808", LEAST, true),
    (
        "x\n9223372036854775808\n",
        "line 1: not a number\nline 2: not a number\n",
        false,
    ),
    ("7\r\r\n", "line 1: not a number\n", false),
    ("\n", "line 1: not a number\n", false),
    ("-9223372036854775809", "line 1: not a number\n", false),
    (
        "\n\n",
        "line 1: not a number\nline 2: not a number\n",
        false,
    ),
    ("٣", "line 1: not a number\n", false),
];

// Whether every line of the input is an item, and this is written for it.
fn answers(alloc: Global, (lo, hi): (i64, i64), input: &[u8], all: bool, expected: &str) -> bool {
    let mut output = Vec::new(alloc);
    let mut reader = input;
    let answer = run_between(alloc, lo, hi, &mut reader, &mut output);
    answer == Ok(all) && output.as_slice() == expected.as_bytes()
}

#[test]
fn lines_between_5_and_10(rt: HostRuntime) {
    for (input, expected, all) in ROWS {
        let holds = answers(rt.alloc(), (5, 10), input.as_bytes(), all, expected);
        assert!(rt; holds, "at {input:?}");
    }
}

// The same, of a reader and a writer of one byte at a time.
fn answers_by_bytes(alloc: Global, input: &[u8], all: bool, expected: &str) -> bool {
    let mut output = Narrow {
        got: Vec::new(alloc),
        room: usize::MAX,
        kind: ErrorKind::BrokenPipe,
    };
    let mut reader = Slow {
        bytes: input,
        end: None,
    };
    let answer = run_between(alloc, 5, 10, &mut reader, &mut output);
    answer == Ok(all) && output.got.as_slice() == expected.as_bytes()
}

#[test]
fn one_byte_at_a_time(rt: HostRuntime) {
    for (input, expected, all) in ROWS {
        let holds = answers_by_bytes(rt.alloc(), input.as_bytes(), all, expected);
        assert!(rt; holds, "at {input:?}");
    }
}

// A line of bytes that are no text, between two numbers, the second of them cut short.
#[test]
fn a_line_that_is_no_text(rt: HostRuntime) {
    let expected = "\
7: false
(var >= 1 && var <= 1) = false
  right: var <= 1 = false
    - var: 7
line 2: not a number
1: true
(var >= 1 && var <= 1) = true
  left: var >= 1 = true
    - var: 1
  right: var <= 1 = true
    - var: 1
";
    assert!(rt; answers(rt.alloc(), (1, 1), b"7\n\xff7\n1", false, expected));
}

// The writer passes on what it keeps back, also where a line was bad or none was read.
#[test]
fn flushed_at_each_end(rt: HostRuntime) {
    for input in ["", "x\n", "7\n"] {
        let mut reader = input.as_bytes();
        let answer = run_between(rt.alloc(), 5, 10, &mut reader, &mut Unflushed);
        assert_eq!(rt; answer, Err(RunFault::Output), "at {input:?}");
    }
}

#[test]
fn flags_change_no_fault(rt: HostRuntime) {
    assert!(rt; is_shown(&rt, RunFault::Output, "output could not be written"));
    for fault in [RunFault::NoMemory, RunFault::Input, RunFault::Output] {
        assert!(rt; keeps_text(rt.alloc(), &fault).expect(&rt, "memory"));
    }
}

const LEAST_OF_ALL: &str = "\
-9223372036854775808: true
(var >= -9223372036854775808 && var <= 9223372036854775807) = true
  left: var >= -9223372036854775808 = true
    - var: -9223372036854775808
  right: var <= 9223372036854775807 = true
    - var: -9223372036854775808
";

const GREATEST_OF_ALL: &str = "\
9223372036854775807: true
(var >= -9223372036854775808 && var <= 9223372036854775807) = true
  left: var >= -9223372036854775808 = true
    - var: 9223372036854775807
  right: var <= 9223372036854775807 = true
    - var: 9223372036854775807
";

// Bounds, inputs, and what is written for them: no number lies between, one, and all.
const BOUNDS: [(i64, i64, &str, &str); 5] = [
    (
        10,
        5,
        "7",
        "7: false\n(var >= 10 && var <= 5) = false\n  left: var >= 10 = false\n    - var: 7\n",
    ),
    (
        10,
        5,
        "10",
        "10: false\n(var >= 10 && var <= 5) = false\n  right: var <= 5 = false\n    - var: 10\n",
    ),
    (
        7,
        7,
        "7",
        "\
7: true
(var >= 7 && var <= 7) = true
  left: var >= 7 = true
    - var: 7
  right: var <= 7 = true
    - var: 7
",
    ),
    (i64::MIN, i64::MAX, "-9223372036854775808", LEAST_OF_ALL),
    (i64::MIN, i64::MAX, "9223372036854775807", GREATEST_OF_ALL),
];

#[test]
fn bounds_that_hold_no_number_one_or_all(rt: HostRuntime) {
    for (lo, hi, input, want) in BOUNDS {
        let holds = answers(rt.alloc(), (lo, hi), input.as_bytes(), true, want);
        assert!(rt; holds, "at {input:?}");
    }
}

/// Whether the block of the item under the label is this one.
pub fn is_one<P: Total<i64> + Drop>(
    rt: &impl Host,
    predicate: P,
    label: &str,
    item: i64,
    block: &str,
) -> bool {
    let text = explain_one(rt.alloc(), &predicate, label, &item).expect(rt, "memory");
    text.as_str() == block
}

/// The same of the block that is always made.
pub fn is_total<P: Total<i64> + Drop>(
    rt: &impl Host,
    predicate: P,
    label: &str,
    item: i64,
    block: &str,
) -> bool {
    let text = explain_total(rt.alloc(), &predicate, label, &item).expect(rt, "memory");
    text.as_str() == block
}

const OUTSIDE: &str = "\
line 3: true
(var < 5 || (! var <= 10)) = true
  right: (! var <= 10) = true
    predicate: var <= 10 = false
      - var: 11
";

#[test]
fn blocks_of_one_item(rt: HostRuntime) {
    let between = ge(5i64).and(le(10i64));
    assert!(rt; is_one(&rt, between, "7", 7, SEVEN));
    let outside = lt(5i64).or(le(10i64).not());
    assert!(rt; is_total(&rt, outside, "line 3", 11, OUTSIDE));
}

const NUMBERS: [(&str, Option<i64>); 9] = [
    ("+7", Some(7)),
    ("-9223372036854775808", Some(i64::MIN)),
    ("9223372036854775807", Some(i64::MAX)),
    ("9223372036854775808", None),
    ("", None),
    ("+", None),
    ("+-1", None),
    (" 1", None),
    ("1_0", None),
];

#[test]
fn which_lines_are_numbers(rt: HostRuntime) {
    for (line, expected) in NUMBERS {
        assert_eq!(rt; number(line.as_bytes()), expected, "at {line:?}");
    }
}
