//! What reads and evaluates without memory.
use predicates::boolean::PredicateBooleanExt;
use predicates::constant::always;
use predicates::iter::{Steps, in_iter};
use predicates::ord::lt;
use predicates_core::reflection::CaseChild;
use predicates_core::{Predicate, default_find_case};
use tests_sweep::refusing;

#[test]
fn none_is_found(rt: HostRuntime) {
    let alloc = rt.alloc();
    let begun = refusing(alloc, "default_find_case for the opposite truth");
    let right = matches!(default_find_case(alloc, &lt(5i64), true, &9), Ok(None));
    begun.end(&rt, right).expect(&rt, "memory")
}

#[test]
fn searches(rt: HostRuntime) {
    let alloc = rt.alloc();
    let begun = refusing(alloc, "Steps");
    let mut steps = Steps::new();
    let right = steps.count() == 0;
    begun.end(&rt, right).expect(&rt, "memory");
    let sorted = in_iter(alloc, [3i64, 1, 5])
        .expect(&rt, "memory")
        .sort()
        .expect(&rt, "memory");
    let begun = refusing(alloc, "search_counted");
    let found = sorted.search_counted(&3, &mut steps) && !sorted.search_counted(&2, &mut steps);
    let right = found && steps.count() == 2;
    begun.end(&rt, right).expect(&rt, "memory")
}

#[test]
fn views_of_cases(rt: HostRuntime) {
    let alloc = rt.alloc();
    let nested = always().and(always()).or(always());
    let found = nested.find_case(alloc, true, &4i64).expect(&rt, "memory");
    let case = found.expect(&rt, "it holds");
    let begun = refusing(alloc, "all views of a case");
    let root = case.root();
    let mut right = root.predicate() == Some("((true && true) || true)")
        && root.result()
        && root.products().is_empty();
    let mut names = 0usize;
    for CaseChild { name, case: both } in root.children() {
        right = right && name == "left" && both.predicate() == Some("(true && true)");
        for CaseChild { name, case: leaf } in both.children() {
            right = right && leaf.predicate() == Some("true") && leaf.result();
            right = right && leaf.products().is_empty() && leaf.children().count() == 0;
            names = names.saturating_add(name.len());
        }
    }
    // Once `left` and once `right`.
    right = right && root.children().count() == 1 && names == 9;
    begun.end(&rt, right).expect(&rt, "memory")
}
