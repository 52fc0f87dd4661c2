//! Each law, called, beside what it says of the predicates themselves.
use crate::tests::made::Host;
use predicates::boolean::PredicateBooleanExt;
use predicates::iter::{in_hash, in_iter};
use predicates::laws;
use predicates::ord::{eq, ge, gt, le, lt, ne};
use predicates_core::Predicate;
use tests_support::verdict;

// What the predicate answers of the item, and ends here.
fn holds<P: Predicate<i64> + Drop>(rt: &impl Host, predicate: P, item: i64) -> bool
    requires { P.lawful predicate }
{
    predicate.eval(rt.alloc(), &item).expect(rt, "memory")
}

// What the comparisons with 5 answer: `lt`, `lt` denied, `ge`, `gt`, `le`, `eq` and `ne`.
fn comparisons(rt: &impl Host, item: i64) -> [bool; 7] {
    laws::complements(&5, &item);
    [
        holds(rt, lt(5i64), item),
        holds(rt, lt(5i64).not(), item),
        holds(rt, ge(5i64), item),
        holds(rt, gt(5i64), item),
        holds(rt, le(5i64), item),
        holds(rt, eq(5i64), item),
        holds(rt, ne(5i64), item),
    ]
}

const ITEMS: [(i64, [bool; 7]); 3] = [
    (4, [true, false, false, false, true, false, true]),
    (5, [false, true, true, false, true, true, false]),
    (6, [false, true, true, true, false, false, true]),
];

#[test]
fn opposite_comparisons(rt: HostRuntime) {
    for (item, expected) in &ITEMS {
        assert!(rt; comparisons(&rt, *item) == *expected, "{item}");
    }
}

const MEMBERS: [i64; 5] = [5, 1, 5, 3, 1];

// What the list, the sorted list and the set of the members answer.
fn among(rt: &impl Host, item: i64) -> [bool; 3] {
    laws::memberships(&MEMBERS, &item);
    let listed = in_iter(rt.alloc(), MEMBERS).expect(rt, "memory");
    let of_list = holds(rt, listed, item);
    let listed = in_iter(rt.alloc(), MEMBERS).expect(rt, "memory");
    let of_sorted = holds(rt, listed.sort().expect(rt, "memory"), item);
    let hashed = in_hash(rt.alloc(), MEMBERS).expect(rt, "memory");
    [of_list, of_sorted, holds(rt, hashed, item)]
}

#[test]
fn one_list_three_times(rt: HostRuntime) {
    for (item, expected) in [
        (0, false),
        (1, true),
        (2, false),
        (3, true),
        (5, true),
        (6, false),
    ] {
        assert!(rt; among(&rt, item) == [expected; 3], "{item}");
    }
}

fn call_laws_of_joins() {
    laws::de_morgan(&lt(3i64), &lt(5i64), &9);
    laws::exclusive_or(&lt(3i64), &lt(5i64), &4);
    laws::first_reasons();
    laws::one_child();
}

fn call_laws_of_one() {
    let both = lt(3i64).and(lt(5i64));
    laws::double_negation(&both, &9);
    laws::named(&both, &9, "small");
    laws::one_case(&both, &4);
    laws::one_verdict(&both, &4);
}

fn call_law_of_functions() {
    let both = lt(3i64).and(lt(5i64));
    laws::same_function(&both.not(), &lt(3i64).not().or(lt(5i64).not()), &4);
}

// The tables show the verdicts and the kept leaves of these formulas.
#[test]
fn equal_functions(rt: HostRuntime) {
    call_laws_of_joins();
    call_laws_of_one();
    call_law_of_functions();
    let both = lt(3i64).and(lt(5i64));
    assert_eq!(rt;
        verdict(rt.alloc(), &both, &4).expect(&rt, "memory"),
        Some(false)
    );
}
