//! The calls of `check`, with ample memory: how their errors print, and what they report.
mod tree;

use crate::tests::made::{Host, owned, vec_of};
use predicates::check::{Failure, Sifted, Unmet};
use predicates::prelude::*;
use predicates::reflection::{Case, render_onto};
use predicates_style::Style;

const ELEVEN: &str = "(var >= 5 && var <= 10) = false\n  right: var <= 10 = false\n    - var: 11\n";

// Whether the requirement was met, or its error has this text, as `Display` and as `Debug`.
fn ends_in(rt: &impl Host, ended: Result<(), Unmet>, expected: &str) -> bool {
    match ended {
        Ok(()) => expected == "met",
        Err(unmet) => {
            let shown = unmet.to_string(rt.alloc()).expect(rt, "memory");
            let debugged = format!(in rt.alloc(); "{unmet:?}").expect(rt, "memory");
            shown.as_str() == expected && debugged.as_str() == expected
        }
    }
}

// How the requirement that the number is between 5 and 10 ends.
fn is_required(rt: &impl Host, number: i32, expected: &str) -> bool {
    let between = predicate::ge(5i32).and(predicate::le(10i32));
    ends_in(rt, require(rt.alloc(), &between, &number), expected)
}

// The same under a label.
fn is_required_as(rt: &impl Host, number: i32, expected: &str) -> bool {
    let between = predicate::ge(5i32).and(predicate::le(10i32));
    let ended = require_as(rt.alloc(), "request 17", &between, &number);
    ends_in(rt, ended, expected)
}

fn is_eleven_required_as(rt: &impl Host) -> bool {
    let labelled = format!(in rt.alloc(); "request 17: {ELEVEN}").expect(rt, "memory");
    is_required_as(rt, 11, labelled.as_str())
}

fn is_required_by_function(rt: &impl Host, number: i32, expected: &str) -> bool {
    let bound = 5;
    let big = predicate::function(move |x: &i32| *x >= bound).fn_name("big");
    ends_in(rt, require(rt.alloc(), &big, &number), expected)
}

#[test]
fn requirements(rt: HostRuntime) {
    assert!(rt; is_required(&rt, 7, "met"));
    assert!(rt; is_required(&rt, 11, ELEVEN));
    assert!(rt; is_required_as(&rt, 7, "met"));
    assert!(rt; is_eleven_required_as(&rt));
    assert!(rt; ends_in(&rt, Err(Unmet::NoMemory), "no memory"));
    assert!(rt; is_required_by_function(&rt, 4, "big(var) = false\n"));
}

// No limits.
const WHOLE: Style = Style {
    children: None,
    characters: None,
    escapes: false,
    colours: false,
};

// One child of each node, and one character of each value.
const SHORT: Style = Style {
    children: Some(1),
    characters: Some(1),
    escapes: false,
    colours: false,
};

const ALL_LINES: &str = "\
any(var >= 5) = false
  item: var >= 5 = false
    - var: -2
  item: var >= 5 = false
    - var: 1
  item: var >= 5 = false
    - var: 3
";

const FIRST_LINES: &str = "\
any(var >= 5) = false
  item: var >= 5 = false
    - var (first 1 of 2 characters): -
  .. 2 more
";

// How the requirement ends that one of the numbers is 5 or more.
const STYLED: [(Style, [i32; 3], &str); 4] = [
    (WHOLE, [-2, 1, 7], "met"),
    (SHORT, [-2, 1, 7], "met"),
    (WHOLE, [-2, 1, 3], ALL_LINES),
    (SHORT, [-2, 1, 3], FIRST_LINES),
];

#[test]
fn requirements_in_a_style(rt: HostRuntime) {
    let alloc = rt.alloc();
    for (style, numbers, expected) in STYLED {
        let item = Vec::from_array(alloc, numbers).expect(&rt, "memory");
        let some_large = predicate::ge(5i32).of_any();
        let ended = require_styled(alloc, &style, &some_large, &item);
        assert!(rt; ends_in(&rt, ended, expected), "{expected}");
    }
}

// The lines of the cases, one after the other.
fn render_cases(rt: &impl Host, cases: &[Case]) -> String {
    let mut lines = String::new(rt.alloc());
    for case in cases {
        render_onto(&mut lines, case).expect(rt, "memory");
    }
    lines
}

// Whether the cases have these lines; they end here.
fn are_cases(rt: &impl Host, cases: Vec<Case>, lines: &str) -> bool {
    render_cases(rt, cases.as_slice()).as_str() == lines
}

// The second and the third of three numbers are too large for 7.
fn numbers_fail(rt: &impl Host, lines: &str) -> bool {
    let rules = [predicate::ge(5i32), predicate::ge(10), predicate::gt(7)];
    let cases = failures(rt.alloc(), &rules, &7).expect(rt, "memory");
    are_cases(rt, cases, lines)
}

// The same by stored functions.
fn functions_fail(rt: &impl Host, lines: &str) -> bool {
    let mut rules = Vec::new(rt.alloc());
    for bound in [5, 10, 8] {
        rules
            .push(predicate::function(move |x: &i32| *x >= bound))
            .expect(rt, "memory");
    }
    let cases = failures(rt.alloc(), rules.as_slice(), &7).expect(rt, "memory");
    are_cases(rt, cases, lines)
}

// Rules of several types, one after the other.
fn several_types_fail(rt: &impl Host) -> Vec<Case> {
    let alloc = rt.alloc();
    let mut cases = Vec::new(alloc);
    add_failure(alloc, &mut cases, &predicate::ge(10), &7).expect(rt, "memory");
    add_failure(alloc, &mut cases, &predicate::always(), &7).expect(rt, "memory");
    let small = predicate::function(|x: &i32| *x < 5).fn_name("small");
    add_failure(alloc, &mut cases, &small, &7).expect(rt, "memory");
    cases
}

#[test]
fn all_failures(rt: HostRuntime) {
    let lines = "var >= 10 = false\n  - var: 7\nvar > 7 = false\n  - var: 7\n";
    assert!(rt; numbers_fail(&rt, lines));
    assert!(rt; functions_fail(&rt, "fn(var) = false\nfn(var) = false\n"));
    let lines = "var >= 10 = false\n  - var: 7\nsmall(var) = false\n";
    assert!(rt; are_cases(&rt, several_types_fail(&rt), lines));
}

// Whether 7 and 5 were kept and these two rejected, the second of them with these lines.
fn keeps(rt: &impl Host, sifted: Sifted<i32>, others: [i32; 2], lines: &str) -> bool {
    match sifted.rejected.as_slice() {
        [first, second] => {
            let are_right = sifted.kept.as_slice() == [7, 5].as_slice()
                && [first.item, second.item] == others;
            let reason = render(rt.alloc(), &second.reason).expect(rt, "memory");
            reason.as_str() == lines && are_right
        }
        _ => false,
    }
}

fn sifts_by_numbers(rt: &impl Host) -> bool {
    let between = predicate::ge(5).and(predicate::le(10));
    let sifted = sift(rt.alloc(), &between, vec_of(rt, &[4, 7, 11, 5])).expect(rt, "memory");
    keeps(rt, sifted, [4, 11], ELEVEN)
}

#[test]
fn sifts(rt: HostRuntime) {
    assert!(rt; sifts_by_numbers(&rt));
}

fn sifts_by_bound(rt: &impl Host, bound: i32) -> bool {
    let big = predicate::function(move |x: &i32| *x >= bound).fn_name("big");
    let sifted = sift(rt.alloc(), &big, vec_of(rt, &[4, 7, 3, 5])).expect(rt, "memory");
    keeps(rt, sifted, [4, 3], "big(var) = false\n")
}

#[test]
fn sifts_by_a_function(rt: HostRuntime) {
    assert!(rt; sifts_by_bound(&rt, 5));
}

// The label of each failure and the lines of its case.
fn render_failures(rt: &impl Host, failures: &[Failure]) -> String {
    let mut out = String::new(rt.alloc());
    for Failure { label, reason } in failures {
        out.push_str(label.as_str()).expect(rt, "memory");
        out.push_str(": ").expect(rt, "memory");
        render_onto(&mut out, reason).expect(rt, "memory");
    }
    out
}

fn failures_of_names(rt: &impl Host) -> String {
    let alloc = rt.alloc();
    let mut expected = Vec::new(alloc);
    for (label, name) in [("first", "Ada"), ("second", "Bob"), ("third", "")] {
        let starts = predicate::str::starts_with(owned(rt, "A"));
        let starting = expect(alloc, label, owned(rt, name), starts).expect(rt, "memory");
        expected.push(starting).expect(rt, "memory");
    }
    let failures = check_all(alloc, expected.as_slice()).expect(rt, "memory");
    render_failures(rt, failures.as_slice())
}

#[test]
fn expectations(rt: HostRuntime) {
    let failures = failures_of_names(&rt);
    assert_eq!(rt;
        failures.as_str(),
        "\
second: var.starts_with(\"A\") = false
  - var: Bob
third: var.starts_with(\"A\") = false
  - var: \n"
    );
}

// Whether each failure prints its label and the lines of its case, as `Display` and as `Debug`.
fn print_themselves(rt: &impl Host, failures: &[Failure]) -> bool {
    let expected = render_failures(rt, failures);
    let (mut shown, mut debugged) = (String::new(rt.alloc()), String::new(rt.alloc()));
    for failure in failures {
        write!(shown, "{failure}").expect(rt, "memory");
        write!(debugged, "{failure:?}").expect(rt, "memory");
    }
    shown.as_str() == expected.as_str() && debugged.as_str() == expected.as_str()
}

// Of numbers that are not to be between 5 and 10, two are; their cases have three levels.
fn two_print_themselves(rt: &impl Host) -> bool {
    let alloc = rt.alloc();
    let mut expected = Vec::new(alloc);
    for (label, number) in [("seven", 7), ("four", 4), ("six", 6)] {
        let between = predicate::ge(5i32).and(predicate::le(10i32)).not();
        expected
            .push(expect(alloc, label, number, between).expect(rt, "memory"))
            .expect(rt, "memory");
    }
    let failures = check_all(alloc, expected.as_slice()).expect(rt, "memory");
    failures.len() == 2 && print_themselves(rt, failures.as_slice())
}

#[test]
fn failures_print_themselves(rt: HostRuntime) {
    assert!(rt; two_print_themselves(&rt));
}

// How requiring ends that one, two and three tickets cost so much, at most 9 each.
fn are_required(rt: &impl Host, prices: [u32; 3], expected: &str) -> bool {
    let alloc = rt.alloc();
    let [one, two, three] = prices;
    let mut expectations = Vec::new(alloc);
    expectations
        .push(expect(alloc, "one ticket", one, predicate::le(9u32)).expect(rt, "memory"))
        .expect(rt, "memory");
    expectations
        .push(expect(alloc, "two tickets", two, predicate::le(18)).expect(rt, "memory"))
        .expect(rt, "memory");
    expectations
        .push(expect(alloc, "three tickets", three, predicate::le(27)).expect(rt, "memory"))
        .expect(rt, "memory");
    ends_in(rt, require_all(alloc, expectations.as_slice()), expected)
}

const THREE_PRICES: &str = "\
one ticket: var <= 9 = false
  - var: 11
two tickets: var <= 18 = false
  - var: 22
three tickets: var <= 27 = false
  - var: 33
";

const OUTER_PRICES: &str = "\
one ticket: var <= 9 = false
  - var: 10
three tickets: var <= 27 = false
  - var: 28
";

#[test]
fn all_required(rt: HostRuntime) {
    assert!(rt; are_required(&rt, [9, 18, 27], "met"));
    assert!(rt; are_required(&rt, [11, 22, 33], THREE_PRICES));
    assert!(rt; are_required(&rt, [10, 18, 28], OUTER_PRICES));
}
