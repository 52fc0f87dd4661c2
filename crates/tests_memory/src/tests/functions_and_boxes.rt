//! Stored functions and boxes.
ghost use Rattle.std.specs.Prelude.{◌≡◌, nat_le};

use predicates::BoxPredicate;
use predicates::boolean::PredicateBooleanExt;
use predicates::function::function;
use predicates::str::{contains, is_empty};
use tests_support::text;
use tests_sweep::{leaf, over, sweep_calls};

/// Whether the number is 5 or more.
pub fn is_big(number: &u8) -> bool
    ensures { result ≡ nat_le 5 number.now }
{
    5 <= *number
}

#[test]
fn functions(rt: HostRuntime) {
    let big = leaf("fn_name", true, "big(var) = true\n");
    sweep_calls(&rt, &function(is_big).fn_name("big"), &7, big).expect(&rt, "memory")
}

#[test]
fn a_box_over_a_leaf(rt: HostRuntime) {
    let alloc = rt.alloc();
    let counted = contains(text(alloc, "a").expect(&rt, "memory")).count(2);
    let boxed = BoxPredicate::new(alloc, Box::new(alloc, counted).expect(&rt, "memory")).expect(
        &rt, "memory",
    );
    let lines = "var.contains(a) = true\n  - var: aa\n  - actual count: 2\n";
    let row = leaf("a box", true, lines).with_parameters("count=2\n");
    sweep_calls(&rt, &boxed, &text(alloc, "aa").expect(&rt, "memory"), row).expect(&rt, "memory")
}

#[test]
fn a_box_over_a_part(rt: HostRuntime) {
    let alloc = rt.alloc();
    let boxed = BoxPredicate::new(
        alloc,
        Box::new(alloc, is_empty().not()).expect(&rt, "memory"),
    )
    .expect(&rt, "memory");
    let lines = "(! var.is_empty()) = true\n  predicate: var.is_empty() = false\n    - var: aa\n";
    let row = over(
        "a box over a part",
        true,
        lines,
        "predicate: var.is_empty()\n",
    );
    sweep_calls(&rt, &boxed, &text(alloc, "aa").expect(&rt, "memory"), row).expect(&rt, "memory")
}
