//! What patterns match, how often, and which are invalid.
use crate::tests::asked::{holds, shows};
use crate::tests::made::{Host, owned};
use predicates_text::{RegexMatchesPredicate, RegexPredicate, is_match};
use tests_support::{is_described, repeated};

fn pattern(rt: &impl Host, pattern: &str) -> RegexPredicate {
    is_match(rt.alloc(), owned(rt, pattern)).expect(rt, "memory")
}

fn count_of(rt: &impl Host, of: &str, count: usize) -> RegexMatchesPredicate {
    pattern(rt, of).count(count)
}

const WORDS: &str = "T[a-z]*";

// How many words there are to be, a text, and the lines of the case.
const COUNTED: [(usize, &str, &str); 3] = [
    (
        3,
        "One Two Three Two One",
        "\
var.is_match(T[a-z]*) = true
  - var: One Two Three Two One
  - actual count: 3
",
    ),
    (
        3,
        "One Two Three",
        "\
var.is_match(T[a-z]*) = false
  - var: One Two Three
  - actual count: 2
",
    ),
    (
        0,
        "one",
        "\
var.is_match(T[a-z]*) = true
  - var: one
  - actual count: 0
",
    ),
];

// Whether the case of a count has these lines.
fn shows_count(rt: &impl Host, of: &str, count: usize, item: &str, lines: &str) -> bool {
    let counted = count_of(rt, of, count);
    shows(rt, counted, owned(rt, item), lines)
}

// Whether the case of a pattern has these lines.
fn shows_match(rt: &impl Host, of: &str, item: &str, lines: &str) -> bool {
    let found = pattern(rt, of);
    shows(rt, found, owned(rt, item), lines)
}

#[test]
fn words_are_counted(rt: HostRuntime) {
    let alloc = rt.alloc();
    for (count, item, lines) in COUNTED {
        assert!(rt; shows_count(&rt, WORDS, count, item, lines), "{item}");
    }
    let lines = "var.is_match(T[a-z]*)\ncount=3\n";
    assert!(rt; is_described(alloc, &count_of(&rt, WORDS, 3), lines).expect(&rt, "memory"));
}

const GREETING: &str = "^Hello.*$";

// A text, and the lines of the case of the greeting.
const GREETED: [(&str, &str); 2] = [
    (
        "Hello World",
        "var.is_match(^Hello.*$) = true\n  - var: Hello World\n",
    ),
    (
        "Food World",
        "var.is_match(^Hello.*$) = false\n  - var: Food World\n",
    ),
];

#[test]
fn whole_lines(rt: HostRuntime) {
    let alloc = rt.alloc();
    for (item, lines) in GREETED {
        assert!(rt; shows_match(&rt, GREETING, item, lines), "{item}");
    }
    let lines = "var.is_match(^Hello.*$)\n";
    assert!(rt; is_described(alloc, &pattern(&rt, GREETING), lines).expect(&rt, "memory"));
}

// Whether the pattern is invalid.
fn is_refused(rt: &impl Host, of: &str) -> bool {
    is_match(rt.alloc(), owned(rt, of)).is_err()
}

#[test]
fn refused_patterns(rt: HostRuntime) {
    for invalid in ["(", ")", "[a", "*", "a{2,1}"] {
        assert!(rt; is_refused(&rt, invalid), "{invalid}");
    }
}

// Whether the pattern is found in the text.
fn is_found(rt: &impl Host, of: &str, item: &str) -> bool {
    let found = pattern(rt, of);
    holds(rt, found, owned(rt, item))
}

// Whether the pattern is found in the text this often.
fn is_found_often(rt: &impl Host, of: &str, item: &str, count: usize) -> bool {
    let counted = count_of(rt, of, count);
    holds(rt, counted, owned(rt, item))
}

// Whether the pattern is found as often as that, and not once more.
fn is_counted(rt: &impl Host, of: &str, item: &str, count: usize) -> bool {
    let is_there = is_found(rt, of, item);
    let is_right = is_found_often(rt, of, item, count);
    let is_more = is_found_often(rt, of, item, count.saturating_add(1));
    is_there == (count != 0) && is_right && !is_more
}

// A pattern, a text, and the number of matches; one of no characters stands before each character
// and at the end.
const MATCHES: [(&str, &str, usize); 10] = [
    ("", "", 1),
    ("", "abc", 4),
    ("", "äb", 3),
    ("x*", "ab", 3),
    ("x*", "ä€😀", 4),
    ("ä", "ää", 2),
    (".", "ä€😀", 3),
    ("[α-ω]+", "λογος und μυθος", 2),
    ("^.$", "😀", 1),
    ("é", "e", 0),
];

#[test]
fn numbers_of_matches(rt: HostRuntime) {
    for (of, item, count) in MATCHES {
        assert!(rt; is_counted(&rt, of, item, count), "{of} in {item}");
    }
}

// Whether the case of the pattern shows the text, in which it stands or not.
fn explains_match(rt: &impl Host, of: &str, item: &str, holds: bool) -> bool {
    let lines = format!(in rt.alloc(); "var.is_match({of}) = {holds}\n  - var: {item}\n").expect(
        rt, "memory",
    );
    shows_match(rt, of, item, &lines)
}

// Whether the case of the pattern's count shows the text, in which it stands this often, and that
// is not seven times.
fn explains_count(rt: &impl Host, of: &str, item: &str, count: u32) -> bool {
    let lines = format!(in rt.alloc();
        "var.is_match({of}) = false\n  - var: {item}\n  - actual count: {count}\n"
    ).expect(rt, "memory");
    shows_count(rt, of, 7, item, &lines)
}

// Whether both cases show the text, in which the pattern stands this often.
fn explains_matches(rt: &impl Host, of: &str, item: &str, count: u32) -> bool {
    let is_match = explains_match(rt, of, item, count != 0);
    explains_count(rt, of, item, count) && is_match
}

// The same of three patterns, in a text of `a` alone: one that is not in it, its letter, and it
// itself.
fn explains_length(rt: &impl Host, length: u32) -> [bool; 3] {
    let item = repeated(rt.alloc(), "a", length, "").expect(rt, "memory");
    let other = explains_matches(rt, "b", &item, 0);
    let letter = explains_matches(rt, "a", &item, length);
    let whole = explains_matches(rt, &item, &item, 1);
    [other, letter, whole]
}

#[test]
fn patterns_and_texts_of_any_length(rt: HostRuntime) {
    for length in [0, 1, 300, 70_000] {
        assert_eq!(rt;
            explains_length(&rt, length),
            [true, true, true],
            "{length}"
        );
    }
}

// Whether the pattern that others search for long is found this often behind 40 letters and the
// end.
fn is_found_at_the_end(rt: &impl Host, end: &str, count: usize) -> [bool; 2] {
    let item = repeated(rt.alloc(), "a", 40, end).expect(rt, "memory");
    let is_there = is_found(rt, "(a+)+$", &item);
    [is_there, is_found_often(rt, "(a+)+$", &item, count)]
}

#[test]
fn a_pattern_that_others_search_for_long(rt: HostRuntime) {
    let found = is_found_at_the_end(&rt, "", 1);
    assert_eq!(rt; found, [true, true]);
    let found = is_found_at_the_end(&rt, "b", 0);
    assert_eq!(rt; found, [false, true]);
}
