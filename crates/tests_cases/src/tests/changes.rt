//! What would have to change, as the guide prints it beside the reason.
use crate::tests::made::{Host, has_lines, owned};
use predicates::prelude::*;

// The reason's lines and those of the change, where the predicate is false of the item.
fn is_told<P: PredicateChange<Item> + Drop, Item: Drop>(
    rt: &impl Host,
    predicate: P,
    item: Item,
    lines: [&str; 2],
) -> bool
    requires { P.lawful predicate }
{
    let [reason, change] = lines;
    let why = predicate
        .find_case(rt.alloc(), false, &item)
        .expect(rt, "memory");
    let what = predicate
        .find_change(rt.alloc(), Some(false), &item)
        .expect(rt, "memory");
    has_lines(rt, why, reason) && has_lines(rt, what, change)
}

fn password(rt: &impl Host) -> bool {
    let digit = predicate::str::contains(owned(rt, "7"));
    let dash = predicate::str::contains(owned(rt, "-"));
    let start = predicate::str::starts_with(owned(rt, "x"));
    let policy = digit.or(dash).and(start);
    is_told(
        rt,
        policy,
        owned(rt, "abc"),
        [
            "\
((var.contains(7) || var.contains(-)) && var.starts_with(\"x\")) = false
  left: (var.contains(7) || var.contains(-)) = false
    left: var.contains(7) = false
      - var: abc
    right: var.contains(-) = false
      - var: abc
",
            "\
((var.contains(7) || var.contains(-)) && var.starts_with(\"x\")) = false
  left: (var.contains(7) || var.contains(-)) = false
    left: var.contains(7) = false
      - var: abc
  right: var.starts_with(\"x\") = false
    - var: abc
",
        ],
    )
}

fn first_and_not_fewest(rt: &impl Host) -> bool {
    let policy = predicate::ge(10).and(predicate::ne(3)).or(predicate::eq(7));
    is_told(
        rt,
        policy,
        3,
        [
            "\
((var >= 10 && var != 3) || var == 7) = false
  left: (var >= 10 && var != 3) = false
    left: var >= 10 = false
      - var: 3
  right: var == 7 = false
    - var: 3
",
            "\
((var >= 10 && var != 3) || var == 7) = false
  left: (var >= 10 && var != 3) = false
    left: var >= 10 = false
      - var: 3
    right: var != 3 = false
      - var: 3
",
        ],
    )
}

fn members(rt: &impl Host) -> bool {
    is_told(
        rt,
        predicate::ge(18).of_each(),
        vec![in rt.alloc(); 20, 17, 30, 16].expect(rt, "memory"),
        [
            "\
each(var >= 18) = false
  item: var >= 18 = false
    - var: 17
    - index: 1
",
            "\
each(var >= 18) = false
  item: var >= 18 = false
    - var: 17
    - index: 1
  item: var >= 18 = false
    - var: 16
    - index: 3
",
        ],
    )
}

#[tactic(auto, using(predicates_core::proofs::Several::each_holds))]
fn threshold(rt: &impl Host) -> bool {
    let rules = vec![in rt.alloc(); predicate::ge(1), predicate::ge(5), predicate::ge(9)].expect(
        rt, "memory",
    );
    is_told(
        rt,
        predicate::at_least(2, rules),
        4,
        [
            "\
at_least(2, var >= 1, var >= 5, var >= 9) = false
  rule: var >= 5 = false
    - var: 4
    - index: 1
  rule: var >= 9 = false
    - var: 4
    - index: 2
",
            "\
at_least(2, var >= 1, var >= 5, var >= 9) = false
  rule: var >= 5 = false
    - var: 4
    - index: 1
",
        ],
    )
}

#[test]
fn reason_and_change(rt: HostRuntime) {
    assert!(rt; password(&rt));
    assert!(rt; first_and_not_fewest(&rt));
    assert!(rt; members(&rt));
    assert!(rt; threshold(&rt));
}
