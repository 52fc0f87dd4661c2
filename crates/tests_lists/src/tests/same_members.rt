//! Lists with the same members as others, in any order.
ghost use Rattle.std.specs.Prelude.{◌≡◌, IfOk};
ghost use Rattle.std.specs.Ordering.{int_cmp};
ghost use Rattle.predicates_item.specs.Multiset.{ascending, members_of};

use crate::tests::made::{Host, vec_of};
use predicates::iter::{SameMembersPredicate, same_members};
use predicates::reflection::render;
use predicates_core::PredicateChange;
use std::alloc::{AllocError, Global};
use tests_support::{differ, is_described, verdict};

// What a caller can prove of the kept members.
fn of_vec(alloc: Global, members: Vec<i64>) -> Result<SameMembersPredicate<i64>, AllocError>
    ensures { IfOk result (λ p. members_of p ≡ ascending int_cmp members.items) }
{
    same_members(alloc, members)
}

// Whether the case for the truth has these lines, and that of the change as well.
fn has_lines<P: PredicateChange<Vec<i64>>>(
    rt: &impl Host,
    predicate: &P,
    list: &Vec<i64>,
    truth: bool,
    lines: &str,
) -> bool
    requires { P.lawful predicate.now }
{
    let case = predicate
        .find_case(rt.alloc(), truth, list)
        .expect(rt, "memory");
    let change = predicate
        .find_change(rt.alloc(), Some(truth), list)
        .expect(rt, "memory");
    match (case, change) {
        (Some(case), Some(change)) => {
            let rendered = render(rt.alloc(), &case).expect(rt, "memory");
            rendered.as_str() == lines
                && render(rt.alloc(), &change).expect(rt, "memory") == rendered
        }
        _ => false,
    }
}

// The values, a list, what it lacks and what else it has.
type Row = (&'static [i64], &'static [i64], &'static str, &'static str);

const ROWS: [Row; 9] = [
    (&[], &[], "[]", "[]"),
    (&[3, 1, 3], &[3, 3, 1], "[]", "[]"),
    (&[3, 1, 3], &[1, 3, 1], "[3]", "[1]"),
    (&[3, 1, 3], &[1, 3], "[3]", "[]"),
    (&[3, 1], &[1, 3, 3], "[]", "[3]"),
    (&[2, 1, 2], &[], "[1, 2, 2]", "[]"),
    (&[], &[2, 1, 2], "[]", "[1, 2, 2]"),
    (&[5, 1, 4, 2], &[6, 3, 0, 4], "[1, 2, 5]", "[0, 3, 6]"),
    (&[7, 7, 7, 8], &[8, 8, 7, 9, 8], "[7, 7]", "[8, 8, 9]"),
];

fn is_right(rt: &impl Host, row: Row) -> bool {
    let (values, list, missing, extra) = row;
    let same = of_vec(rt.alloc(), vec_of(rt, values)).expect(rt, "memory");
    let list = vec_of(rt, list);
    let truth = missing == "[]" && extra == "[]";
    let lines = format!(in rt.alloc();
        "var == values in any order = {truth}\n  - missing: {missing}\n  - extra: {extra}\n"
    ).expect(rt, "memory");
    let found = verdict(rt.alloc(), &same, &list).expect(rt, "memory");
    found == Some(truth) && has_lines(rt, &same, &list, truth, lines.as_str())
}

#[test]
fn what_is_missing_and_what_is_extra(rt: HostRuntime) {
    for row in ROWS {
        assert!(rt; is_right(&rt, row), "{:?} {:?}", row.0, row.1);
    }
}

#[test]
fn members_in_ascending_order(rt: HostRuntime) {
    let same = of_vec(rt.alloc(), vec_of(&rt, &[3, 1, 3])).expect(&rt, "memory");
    let lines = "var == values in any order\nvalues=[1, 3, 3]\n";
    assert!(rt; is_described(rt.alloc(), &same, lines).expect(&rt, "memory"));
    let other = same_members(rt.alloc(), [1i64, 3]).expect(&rt, "memory");
    assert!(rt; differ(rt.alloc(), &same, &other).expect(&rt, "memory"));
}

// The numbers below 101, in another order.
fn reordered(rt: &impl Host) -> Vec<u32> {
    let mut list = Vec::new(rt.alloc());
    for number in 0..101u32 {
        list.push(number * 7 % 101).expect(rt, "memory");
    }
    list
}

// More members than are sorted in place.
#[test]
fn many_members(rt: HostRuntime) {
    let same = same_members(rt.alloc(), 0..101u32).expect(&rt, "memory");
    let mut list = reordered(&rt);
    assert_eq!(rt;
        verdict(rt.alloc(), &same, &list).expect(&rt, "memory"),
        Some(true)
    );
    list.push(0).expect(&rt, "memory");
    assert_eq!(rt;
        verdict(rt.alloc(), &same, &list).expect(&rt, "memory"),
        Some(false)
    );
}
