//! The pattern of nothing, whose searches may go on without some of their memory.
use predicates_text::is_match;
use tests_support::text;
use tests_sweep::Memory::GoesOn;
use tests_sweep::{leaf, sweep_calls};

#[test]
fn the_empty_pattern(rt: HostRuntime) {
    let alloc = rt.alloc();
    let pattern = is_match(alloc, text(alloc, "").expect(&rt, "memory")).expect(&rt, "memory");
    let mut row = leaf(
        "is_match of nothing",
        true,
        "var.is_match() = true\n  - var: \n",
    );
    row.eval = GoesOn;
    row.case = GoesOn;
    row.opposite = GoesOn;
    let item = text(alloc, "").expect(&rt, "memory");
    sweep_calls(&rt, &pattern, &item, row).expect(&rt, "memory")
}
