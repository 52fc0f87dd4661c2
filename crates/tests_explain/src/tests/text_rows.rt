use super::{Host, read_check};
use explain_run::run_text;
use predicates::BoxPredicate;
use predicates::prelude::*;
use std::alloc::Global;

// Tokens, an input, what is written for it, and whether every line is a text.
const ROWS: [(&[&str], &[u8], &str, bool); 7] = [
    (
        &["empty", "trim", "contains=a", "or"],
        b"  \n",
        "\
line 1: true
(var.is_empty() || var.contains(a)) = true
  left: var.is_empty() = true
    - var: \n",
        true,
    ),
    (
        &["contains=a", "normalize", "match=T[a-z]*", "or"],
        b"Two",
        "\
line 1: true
(var.contains(a) || var.is_match(T[a-z]*)) = true
  right: var.is_match(T[a-z]*) = true
    - var: Two
",
        true,
    ),
    (
        &["empty", "contains=a", "xor"],
        b"b",
        "\
line 1: false
(var.is_empty() ^ var.contains(a)) = false
  left: var.is_empty() = false
    - var: b
  right: var.contains(a) = false
    - var: b
",
        true,
    ),
    (
        &["starts=a", "ends=b", "and"],
        b"ab\nba\n",
        "\
line 1: true
(var.starts_with(\"a\") && var.ends_with(\"b\")) = true
  left: var.starts_with(\"a\") = true
    - var: ab
  right: var.ends_with(\"b\") = true
    - var: ab
line 2: false
(var.starts_with(\"a\") && var.ends_with(\"b\")) = false
  left: var.starts_with(\"a\") = false
    - var: ba
",
        true,
    ),
    (&["empty"], b"\xff\n", "line 1: not UTF-8\n", false),
    (
        &["empty"],
        b"a\r\n",
        "line 1: false\nvar.is_empty() = false\n  - var: a\r\n",
        true,
    ),
    (
        &["eq=a", "not"],
        b"a\n\xc3\n\n",
        "\
line 1: false
(! var == \"a\") = false
  predicate: var == \"a\" = true
    - var: \"a\"
line 2: not UTF-8
line 3: true
(! var == \"a\") = true
  predicate: var == \"a\" = false
    - var: \"\"
",
        false,
    ),
];

// Whether the check of the tokens answers so.
fn answers(rt: &impl Host, tokens: &[&str], mut input: &[u8], expected: &str, all: bool) -> bool {
    let check = read_check(rt, tokens);
    let mut output = Vec::new(rt.alloc());
    let answer = run_text(rt.alloc(), &check, &mut input, &mut output);
    answer == Ok(all) && output.as_slice() == expected.as_bytes()
}

#[test]
fn lines_of_checks_of_words(rt: HostRuntime) {
    for (tokens, input, expected, all) in ROWS {
        let holds = answers(&rt, tokens, input, expected, all);
        assert!(rt; holds, "for {expected:?}");
    }
}

const IN_A_BOX: &[u8] =
    b"line 1: true\n(! var.is_empty()) = true\n  predicate: var.is_empty() = false\n    - var: b\n";

const OF_A_FUNCTION: &[u8] = b"line 1: true\nshort(var) = true\n";

// Whether a predicate in a box answers true of `b`, and this is written.
fn answers_in_a_box(rt: &impl Host) -> bool {
    let alloc = rt.alloc();
    let boxed = BoxPredicate::new(
        alloc,
        Box::new(alloc, predicate::str::is_empty()).expect(rt, "memory"),
    )
    .expect(rt, "memory");
    let mut reader = b"b".as_slice();
    let mut output = Vec::new(alloc);
    let answer = run_text(alloc, &boxed.not(), &mut reader, &mut output);
    answer == Ok(true) && output.as_slice() == IN_A_BOX
}

// The same of one with a stored function.
fn answers_of_a_function(alloc: Global) -> bool {
    let short = predicate::function(|text: &String| text.len() < 2).fn_name("short");
    let mut reader = b"b".as_slice();
    let mut output = Vec::new(alloc);
    let answer = run_text(alloc, &short, &mut reader, &mut output);
    answer == Ok(true) && output.as_slice() == OF_A_FUNCTION
}

// Any predicate of texts will do: one in a box, and one with a stored function.
#[test]
fn other_predicates(rt: HostRuntime) {
    assert!(rt; answers_in_a_box(&rt));
    assert!(rt; answers_of_a_function(rt.alloc()));
}
