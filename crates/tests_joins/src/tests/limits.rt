//! What limits and exact numbers of rules and of members print, and their cases.
use predicates::ord::OrdPredicate;
use predicates::prelude::*;
use std::alloc::Global;
use std::process::Abort;
use tests_support::explains;

fn grades(rt: &impl Abort, alloc: Global) -> Vec<OrdPredicate<i64>> {
    vec![in alloc;
        predicate::ge(1i64),
        predicate::ge(5i64),
        predicate::ge(9i64),
    ]
    .expect(rt, "memory")
}

fn ages(rt: &impl Abort, alloc: Global) -> Vec<i64> {
    vec![in alloc; 20, 17, 30].expect(rt, "memory")
}

// Whether the only case of `at_most` of the grades has these lines.
#[tactic(auto, using(predicates_core::proofs::Several::each_holds))]
fn rules_limit(rt: &impl Abort, alloc: Global, most: usize, item: i64, lines: &str) -> bool {
    let few = predicate::at_most(most, grades(rt, alloc));
    explains(alloc, &few, &item, lines).expect(rt, "memory")
}

#[tactic(auto, using(predicates_core::proofs::Several::each_holds))]
fn rules_number(rt: &impl Abort, alloc: Global, number: usize, item: i64, lines: &str) -> bool {
    let just = predicate::exactly(number, grades(rt, alloc)).expect(rt, "memory");
    explains(alloc, &just, &item, lines).expect(rt, "memory")
}

// The same of members that are 18 or more.
fn members_limit(rt: &impl Abort, alloc: Global, most: usize, lines: &str) -> bool {
    let few = predicate::ge(18i64).of_at_most(most);
    explains(alloc, &few, &ages(rt, alloc), lines).expect(rt, "memory")
}

fn members_number(rt: &impl Abort, alloc: Global, number: usize, lines: &str) -> bool {
    let just = predicate::ge(18i64).of_exactly(number).expect(rt, "memory");
    explains(alloc, &just, &ages(rt, alloc), lines).expect(rt, "memory")
}

#[test]
fn limits_of_rules(rt: HostRuntime) {
    for (most, item, lines) in [
        (
            1,
            4,
            "\
at_most(1, var >= 1, var >= 5, var >= 9) = true
  predicate: at_least(2, var >= 1, var >= 5, var >= 9) = false
    rule: var >= 5 = false
      - var: 4
      - index: 1
    rule: var >= 9 = false
      - var: 4
      - index: 2
",
        ),
        (
            1,
            6,
            "\
at_most(1, var >= 1, var >= 5, var >= 9) = false
  predicate: at_least(2, var >= 1, var >= 5, var >= 9) = true
    rule: var >= 1 = true
      - var: 6
      - index: 0
    rule: var >= 5 = true
      - var: 6
      - index: 1
",
        ),
        (
            3,
            9,
            "\
at_most(3, var >= 1, var >= 5, var >= 9) = true
  predicate: at_least(4, var >= 1, var >= 5, var >= 9) = false
    - len: 3
",
        ),
    ] {
        let right = rules_limit(&rt, rt.alloc(), most, item, lines);
        assert!(rt; right, "at most {most} of {item}");
    }
}

#[test]
fn exact_numbers_of_rules(rt: HostRuntime) {
    for (number, item, lines) in [
        (
            2,
            6,
            "\
(at_least(2, var >= 1, var >= 5, var >= 9) && at_most(2, var >= 1, var >= 5, var >= 9)) = true
  left: at_least(2, var >= 1, var >= 5, var >= 9) = true
    rule: var >= 1 = true
      - var: 6
      - index: 0
    rule: var >= 5 = true
      - var: 6
      - index: 1
  right: at_most(2, var >= 1, var >= 5, var >= 9) = true
    predicate: at_least(3, var >= 1, var >= 5, var >= 9) = false
      rule: var >= 9 = false
        - var: 6
        - index: 2
",
        ),
        (
            1,
            6,
            "\
(at_least(1, var >= 1, var >= 5, var >= 9) && at_most(1, var >= 1, var >= 5, var >= 9)) = false
  right: at_most(1, var >= 1, var >= 5, var >= 9) = false
    predicate: at_least(2, var >= 1, var >= 5, var >= 9) = true
      rule: var >= 1 = true
        - var: 6
        - index: 0
      rule: var >= 5 = true
        - var: 6
        - index: 1
",
        ),
    ] {
        let right = rules_number(&rt, rt.alloc(), number, item, lines);
        assert!(rt; right, "exactly {number} of {item}");
    }
}

#[test]
fn limits_of_members(rt: HostRuntime) {
    for (most, lines) in [
        (
            1,
            "\
at_most(1, var >= 18) = false
  predicate: at_least(2, var >= 18) = true
    item: var >= 18 = true
      - var: 20
      - index: 0
    item: var >= 18 = true
      - var: 30
      - index: 2
",
        ),
        (
            2,
            "\
at_most(2, var >= 18) = true
  predicate: at_least(3, var >= 18) = false
    item: var >= 18 = false
      - var: 17
      - index: 1
",
        ),
    ] {
        let right = members_limit(&rt, rt.alloc(), most, lines);
        assert!(rt; right, "at most {most}");
    }
}

#[test]
fn exact_numbers_of_members(rt: HostRuntime) {
    for (number, lines) in [
        (
            1,
            "\
(at_least(1, var >= 18) && at_most(1, var >= 18)) = false
  right: at_most(1, var >= 18) = false
    predicate: at_least(2, var >= 18) = true
      item: var >= 18 = true
        - var: 20
        - index: 0
      item: var >= 18 = true
        - var: 30
        - index: 2
",
        ),
        (
            2,
            "\
(at_least(2, var >= 18) && at_most(2, var >= 18)) = true
  left: at_least(2, var >= 18) = true
    item: var >= 18 = true
      - var: 20
      - index: 0
    item: var >= 18 = true
      - var: 30
      - index: 2
  right: at_most(2, var >= 18) = true
    predicate: at_least(3, var >= 18) = false
      item: var >= 18 = false
        - var: 17
        - index: 1
",
        ),
    ] {
        let right = members_number(&rt, rt.alloc(), number, lines);
        assert!(rt; right, "exactly {number}");
    }
}
