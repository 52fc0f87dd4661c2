//! Checks of words: policies that are read and asked, each error's text, and the limit of depth.
use super::{Host, is_shown, nested, read_check, texts_of};
use explain_run::{MAX_DEPTH, TextCheck, WordsError};
use explain_words::take_word;
use predicates::Predicate;
use predicates::prelude::*;

// Words, and the text of their error.
const REJECTED: [(&[&str], &str); 6] = [
    (&["empty", "trim", "foo"], "word 3, \"foo\": no such word"),
    (
        &["empty", "and", "foo"],
        "word 2, \"and\": takes more checks than there are",
    ),
    (
        &["match=(", "not"],
        "word 1, \"match=(\": regular expression rejected",
    ),
    (&["empty", "a\nb\""], "word 2, \"a\\nb\\\"\": no such word"),
    (&[], "0 checks are left, not one"),
    (&["empty", "empty", "eq="], "3 checks are left, not one"),
];

// The text of the words' error, or `read` where they are read.
fn error_text(rt: &impl Host, words: &[String]) -> String {
    let alloc = rt.alloc();
    match TextCheck::from_words(alloc, words) {
        Ok(_) => String::from_str(alloc, "read").expect(rt, "memory"),
        Err(error) => error.to_string(alloc).expect(rt, "memory"),
    }
}

// Whether this is the text of the words' error.
fn is_told(rt: &impl Host, words: Vec<String>, expected: &str) -> bool {
    let text = error_text(rt, &words);
    text.as_str() == expected
}

#[test]
fn texts_of_errors(rt: HostRuntime) {
    for (tokens, expected) in REJECTED {
        let right = is_told(&rt, texts_of(&rt, tokens), expected);
        assert!(rt; right, "{expected}");
    }
    assert!(rt; is_shown(&rt, WordsError::NoMemory, "no memory"));
}

#[test]
fn check_that_the_words_leave(rt: HostRuntime) {
    let alloc = rt.alloc();
    let words = texts_of(&rt, &["empty", "trim", "not"]);
    let text = String::from_str(alloc, "a").expect(&rt, "memory");
    let check = TextCheck::from_words(alloc, &words).expect(&rt, "memory"); // `empty`, `trim`, `not`
    assert!(rt; check.eval(alloc, &text).expect(&rt, "memory"));
}

#[test]
fn words_are_taken_one_by_one(rt: HostRuntime) {
    let alloc = rt.alloc();
    let mut checks = Vec::new(alloc);
    let mut depths = Vec::new(alloc);
    assert!(rt;
        take_word(alloc, &mut checks, &mut depths, "empty")
            .expect(&rt, "memory")
            .is_none()
    );
    assert!(rt; checks.len() == 1);
}

// Whether the deepest check that is read holds of no characters.
fn deepest_holds(rt: &impl Host, tokens: &[&str]) -> bool {
    let alloc = rt.alloc();
    let words = nested(rt, tokens, MAX_DEPTH);
    let check = TextCheck::from_words(alloc, &words).expect(rt, "memory");
    check.eval(alloc, &String::new(alloc)).expect(rt, "memory")
}

const TOO_DEEP: [(&[&str], &str); 2] = [
    (&["not"], "word 2002, \"not\": check nested too deep"),
    (&["empty", "or"], "word 4003, \"or\": check nested too deep"),
];

#[test]
fn limit_of_depth(rt: HostRuntime) {
    for (tokens, expected) in TOO_DEEP {
        let is_read = is_told(&rt, nested(&rt, tokens, MAX_DEPTH), "read");
        assert!(rt; is_read, "{expected}");
        assert!(rt; deepest_holds(&rt, tokens), "{expected}");
        let is_refused = is_told(&rt, nested(&rt, tokens, MAX_DEPTH + 5), expected);
        assert!(rt; is_refused, "{expected}");
    }
}

// Why the policy does not hold of the item, or `met`.
fn outcome(rt: &impl Host, policy: &TextCheck, item: &str) -> String {
    let alloc = rt.alloc();
    match require(
        alloc,
        policy,
        &String::from_str(alloc, item).expect(rt, "memory"),
    ) {
        Ok(()) => String::from_str(alloc, "met").expect(rt, "memory"),
        Err(unmet) => unmet.to_string(alloc).expect(rt, "memory"),
    }
}

const POLICY: [&str; 6] = ["empty", "trim", "not", "contains=#", "not", "and"];

// Whether this is said of the item.
fn says(rt: &impl Host, item: &str, expected: &str) -> bool {
    let policy = read_check(rt, &POLICY);
    let text = outcome(rt, &policy, item);
    text.as_str() == expected
}

#[test]
fn policies(rt: HostRuntime) {
    assert!(rt; says(&rt, "a line", "met"));
    let lines = "\
((! var.is_empty()) && (! var.contains(#))) = false
  right: (! var.contains(#)) = false
    predicate: var.contains(#) = true
      - var: a # b
";
    assert!(rt; says(&rt, "a # b", lines));
}
