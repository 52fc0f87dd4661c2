//! How often calls that report what does not hold evaluate the leaves.
use super::counting::{CountingLeaf, leaf_that_counts};
use crate::tests::made::{Host, vec_of};
use predicates::boolean::AndPredicate;
use predicates::prelude::*;
use std::alloc::Global;
use std::cell::Cell;

type Rule<'a> = AndPredicate<CountingLeaf<'a, u32>, CountingLeaf<'a, u32>, u32>;

// Both of a leaf that holds and of one of this verdict.
fn rule(asked: &Cell<usize>, holds: bool) -> Rule<'_> {
    leaf_that_counts(asked, true).and(leaf_that_counts(asked, holds))
}

// By `failures` of a rule that holds and of two that do not.
fn asked_by_failures(rt: &impl Host) -> usize {
    let asked = Cell::new(0);
    let rules = [rule(&asked, true), rule(&asked, false), rule(&asked, false)];
    failures(rt.alloc(), &rules, &5u32).expect(rt, "memory");
    asked.get()
}

// By `check_all`, or by `require_all`, of three expectations, of which the first is met.
fn asked_of_three(rt: &impl Host, requires_all: bool) -> usize {
    let asked = Cell::new(0);
    let mut expected = Vec::new(rt.alloc());
    for holds in [true, false, false] {
        expected
            .push(expect(rt.alloc(), "a", 5u32, rule(&asked, holds)).expect(rt, "memory"))
            .expect(rt, "memory");
    }
    if requires_all {
        let _unmet = require_all(rt.alloc(), expected.as_slice());
    } else {
        check_all(rt.alloc(), expected.as_slice()).expect(rt, "memory");
    }
    asked.get()
}

fn asked_by_require_as(alloc: Global, holds: bool) -> usize {
    let asked = Cell::new(0);
    let _unmet = require_as(alloc, "a", &rule(&asked, holds), &5u32);
    asked.get()
}

fn asked_by_add_failure(rt: &impl Host, holds: bool) -> usize {
    let asked = Cell::new(0);
    let mut cases = Vec::new(rt.alloc());
    add_failure(rt.alloc(), &mut cases, &rule(&asked, holds), &5u32).expect(rt, "memory");
    asked.get()
}

fn asked_by_required_change(rt: &impl Host, holds: bool) -> usize {
    let asked = Cell::new(0);
    required_change(rt.alloc(), &rule(&asked, holds), &5u32).expect(rt, "memory");
    asked.get()
}

// By `sift` of three items, which all pass or all do not.
fn asked_by_sift(rt: &impl Host, holds: bool) -> usize {
    let asked = Cell::new(0);
    let items = vec_of(rt, &[1u32, 2, 3]);
    sift(rt.alloc(), &rule(&asked, holds), items).expect(rt, "memory");
    asked.get()
}

// Each leaf once for the verdict, and once more for the case of a rule that does not hold; for a
// change once.
#[test]
fn reports(rt: HostRuntime) {
    let alloc = rt.alloc();
    assert_eq!(rt; asked_by_failures(&rt), 2 + 4 + 4);
    assert_eq!(rt; asked_of_three(&rt, false), 2 + 4 + 4);
    assert_eq!(rt; asked_of_three(&rt, true), 2 + 4 + 4);
    for (holds, twice) in [(true, 2), (false, 4)] {
        assert_eq!(rt; asked_by_require_as(alloc, holds), twice);
        assert_eq!(rt; asked_by_add_failure(&rt, holds), twice);
        assert_eq!(rt; asked_by_required_change(&rt, holds), 2);
    }
    assert_eq!(rt; asked_by_sift(&rt, true), 3 * 2);
    assert_eq!(rt; asked_by_sift(&rt, false), 3 * 4);
}
