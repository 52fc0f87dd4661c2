//! Custom predicates: a leaf, combinators and an adapter.
use crate::tests::made::{Host, describes, explains, has_lines};
use predicates::custom::{Join, Operator, bare_case, detailed_leaf, join_case, leaf, not_case};
use predicates::iter::InPredicate;
use predicates::ord::OrdPredicate;
use predicates::prelude::*;
use tests_support::{describe, render_verdict};
use tests_uses::{DivisibleBy, Either, IsTheAnswer, MultipleOf, RightFirst, is_known};

// Writes the description, and the case of the verdict on 42 and on 41.
fn append_row<P: Predicate<u32>>(rt: &impl Host, out: &mut String, predicate: &P)
    requires { P.lawful predicate.now }
{
    describe(rt.alloc(), out, predicate).expect(rt, "memory");
    render_verdict(rt.alloc(), out, predicate, &42).expect(rt, "memory");
    render_verdict(rt.alloc(), out, predicate, &41).expect(rt, "memory")
}

// Whether these are all that it writes.
fn has_row<P: Predicate<u32> + Drop>(rt: &impl Host, predicate: P, lines: &str) -> bool
    requires { P.lawful predicate }
{
    let mut out = String::new(rt.alloc());
    append_row(rt, &mut out, &predicate);
    out.as_str() == lines
}

#[test]
fn a_leaf_of_the_callers_own(rt: HostRuntime) {
    let lines = "\
(var.is_the_answer() || var in values) = true
  right: var in values = true
    - var: 41
";
    let list = predicate::in_iter(rt.alloc(), [41u32, 43]).expect(&rt, "memory");
    assert!(rt; explains(&rt, IsTheAnswer.or(list), 41, lines));
    let lines = "var.is_the_answer() = false\n  - var: 41\n";
    assert!(rt; explains(&rt, IsTheAnswer, 41, lines));
    assert!(rt; describes(&rt, IsTheAnswer, "var.is_the_answer()\n"));
}

type Own = Either<IsTheAnswer, InPredicate<u32>>;

// The leaf, or a list, by a combinator of the caller's own.
fn own(rt: &impl Host) -> Own {
    let list = predicate::in_iter(rt.alloc(), [41u32, 43]).expect(rt, "memory");
    Either::new(IsTheAnswer, list)
}

#[test]
fn a_combinator_of_the_callers_own(rt: HostRuntime) {
    let lines = "\
either(var.is_the_answer(), var in values) = true
  right: var in values = true
    - var: 41
";
    assert!(rt; explains(&rt, own(&rt), 41, lines));
    let lines = "\
either(var.is_the_answer(), var in values) = false
  left: var.is_the_answer() = false
    - var: 40
  right: var in values = false
    - var: 40
";
    assert!(rt; explains(&rt, own(&rt), 40, lines));
    let lines = "\
either(var.is_the_answer(), var in values)
left: var.is_the_answer()
right: var in values
  values=[41, 43]
";
    assert!(rt; describes(&rt, own(&rt), lines));
}

const UNDER_NOT: [&str; 2] = [
    "\
(! var.is_the_answer())
predicate: var.is_the_answer()
(! var.is_the_answer()) = false
  predicate: var.is_the_answer() = true
    - var: 42
(! var.is_the_answer()) = true
  predicate: var.is_the_answer() = false
    - var: 41
",
    "\
(! either(var.is_the_answer(), var < 10))
predicate: either(var.is_the_answer(), var < 10)
  left: var.is_the_answer()
  right: var < 10
(! either(var.is_the_answer(), var < 10)) = false
  predicate: either(var.is_the_answer(), var < 10) = true
    left: var.is_the_answer() = true
      - var: 42
(! either(var.is_the_answer(), var < 10)) = true
  predicate: either(var.is_the_answer(), var < 10) = false
    left: var.is_the_answer() = false
      - var: 41
    right: var < 10 = false
      - var: 41
",
];

const UNDER_A_NAME: [&str; 2] = [
    "\
answer
answer: var.is_the_answer()
answer = true
  answer: var.is_the_answer() = true
    - var: 42
answer = false
  answer: var.is_the_answer() = false
    - var: 41
",
    "\
answer
answer: either(var.is_the_answer(), var < 10)
  left: var.is_the_answer()
  right: var < 10
answer = true
  answer: either(var.is_the_answer(), var < 10) = true
    left: var.is_the_answer() = true
      - var: 42
answer = false
  answer: either(var.is_the_answer(), var < 10) = false
    left: var.is_the_answer() = false
      - var: 41
    right: var < 10 = false
      - var: 41
",
];

// The leaf, or a number below ten.
fn answer_or_small() -> Either<IsTheAnswer, OrdPredicate<u32>> {
    Either::new(IsTheAnswer, predicate::lt(10u32))
}

#[test]
fn under_not_and_under_a_name(rt: HostRuntime) {
    let [leaf, either] = UNDER_NOT;
    assert!(rt; has_row(&rt, IsTheAnswer.not(), leaf));
    assert!(rt; has_row(&rt, answer_or_small().not(), either));
    let [leaf, either] = UNDER_A_NAME;
    assert!(rt; has_row(&rt, IsTheAnswer.name("answer"), leaf));
    assert!(rt; has_row(&rt, answer_or_small().name("answer"), either));
}

#[test]
fn a_leaf_made_of_a_test(rt: HostRuntime) {
    let lines = "\
var % 42 == 0
var % 42 == 0 = true
  - var: 42
var % 42 == 0 = false
  - var: 41
";
    assert!(rt; has_row(&rt, leaf(MultipleOf { divisor: 42 }), lines));
    let lines = "\
answer
answer: (var % 42 == 0 || var > 41)
  left: var % 42 == 0
  right: var > 41
answer = true
  answer: (var % 42 == 0 || var > 41) = true
    left: var % 42 == 0 = true
      - var: 42
answer = false
  answer: (var % 42 == 0 || var > 41) = false
    left: var % 42 == 0 = false
      - var: 41
    right: var > 41 = false
      - var: 41
";
    let multiple = leaf(MultipleOf { divisor: 42 });
    let either = multiple.or(predicate::gt(41u32)).name("answer");
    assert!(rt; has_row(&rt, either, lines));
}

fn explains_divisible(rt: &impl Host, divisor: u32, number: i64, lines: &str) -> bool {
    explains(rt, detailed_leaf(DivisibleBy { divisor }), number, lines)
}

// The remainder has the sign of the item, and 0 divides 0 alone.
#[test]
fn a_leaf_with_a_product_and_a_parameter_of_its_own(rt: HostRuntime) {
    let lines = "var % 3 == 0 = false\n  - var: -7\n  - remainder: -1\n";
    assert!(rt; explains_divisible(&rt, 3, -7, lines));
    let lines = "var % 3 == 0 = true\n  - var: 9\n  - remainder: 0\n";
    assert!(rt; explains_divisible(&rt, 3, 9, lines));
    let lines = "var % 0 == 0 = false\n  - var: 5\n  - remainder: 5\n";
    assert!(rt; explains_divisible(&rt, 0, 5, lines));
    let lines = "var % 0 == 0 = true\n  - var: 0\n  - remainder: 0\n";
    assert!(rt; explains_divisible(&rt, 0, 0, lines));
    let divisible = detailed_leaf(DivisibleBy { divisor: 3 });
    assert!(rt; describes(&rt, divisible, "var % 3 == 0\ndivisor=3\n"));
}

// The parts are evaluated in the other order, and are shown in the same one.
#[test]
fn a_combinator_that_evaluates_its_right_part_first(rt: HostRuntime) {
    let lines = "\
either(var.is_the_answer(), var > 41)
left: var.is_the_answer()
right: var > 41
either(var.is_the_answer(), var > 41) = true
  left: var.is_the_answer() = true
    - var: 42
either(var.is_the_answer(), var > 41) = false
  left: var.is_the_answer() = false
    - var: 41
  right: var > 41 = false
    - var: 41
";
    let greater = RightFirst::new(IsTheAnswer, predicate::gt(41u32));
    assert!(rt; has_row(&rt, greater, lines));
    let lines = "\
either(var.is_the_answer(), var < 42)
left: var.is_the_answer()
right: var < 42
either(var.is_the_answer(), var < 42) = true
  left: var.is_the_answer() = true
    - var: 42
either(var.is_the_answer(), var < 42) = true
  right: var < 42 = true
    - var: 41
";
    let less = RightFirst::new(IsTheAnswer, predicate::lt(42u32));
    assert!(rt; has_row(&rt, less, lines));
}

#[test]
fn known_numbers(rt: HostRuntime) {
    for (number, expected) in [(0, true), (9, true), (10, false), (41, false), (42, true)] {
        assert_eq!(rt;
            is_known(rt.alloc(), &number).expect(&rt, "memory"),
            expected,
            "{number}"
        );
    }
}

// Of two leaves, by the operator, whether the case for the verdict has the lines.
fn has_case_of_two(rt: &impl Host, operator: Operator, verdict: bool, lines: &str) -> bool {
    let (low, small) = (predicate::lt(3), predicate::lt(5));
    let whole = IsTheAnswer;
    let join = Join {
        whole: &whole,
        operator,
        left: &low,
        right: &small,
    };
    let found = join_case(rt.alloc(), join, verdict, &4).expect(rt, "memory");
    has_lines(rt, found, lines)
}

// By `not`.
fn has_case_of_not(rt: &impl Host, lines: &str) -> bool {
    let found = not_case(rt.alloc(), &IsTheAnswer, &predicate::lt(3), true, &4).expect(
        rt, "memory",
    );
    has_lines(rt, found, lines)
}

// Bare, of the verdict alone.
fn has_bare_case(rt: &impl Host, lines: &str) -> [bool; 2] {
    let found = bare_case(rt.alloc(), &IsTheAnswer, true, Some(true)).expect(rt, "memory");
    let is_bare = has_lines(rt, found, lines);
    let found = bare_case(rt.alloc(), &IsTheAnswer, true, Some(false)).expect(rt, "memory");
    [is_bare, found.is_none()]
}

// The calls that make a case for a custom predicate, under the text of the leaf.
#[test]
fn custom_cases(rt: HostRuntime) {
    let both = "var.is_the_answer() = false\n  left: var < 3 = false\n    - var: 4\n";
    let one = "\
var.is_the_answer() = true
  left: var < 3 = false
    - var: 4
  right: var < 5 = true
    - var: 4
";
    assert!(rt; has_case_of_two(&rt, Operator::And, false, both));
    assert!(rt; has_case_of_two(&rt, Operator::Xor, true, one));
    let negated = "var.is_the_answer() = true\n  predicate: var < 3 = false\n    - var: 4\n";
    let bare = "var.is_the_answer() = true\n";
    assert!(rt; has_case_of_not(&rt, negated));
    assert_eq!(rt; has_bare_case(&rt, bare), [true; 2]);
}
