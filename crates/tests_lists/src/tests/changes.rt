//! What would turn verdicts on parts, lengths, absent values, rules, boxes and patterns, beside the
//! search of all sets of leaves.
use crate::guests::{Guest, name_of, seat_of};
use crate::tests::made::{Host, in_box, owned, vec_of};
use predicates::ord::OrdPredicate;
use predicates::prelude::*;
use tests_support::{ReferenceFormula, counted, find_changes, is_explained, named_leaf};

// The formula of the policy on guests, by the truths of its leaves.
fn guest_formula(rt: &impl Host, truths: [bool; 3]) -> ReferenceFormula {
    let [adult, known, seated] = truths;
    let left = in_box(rt, named_leaf(rt.alloc(), adult).expect(rt, "memory"));
    let right = in_box(rt, named_leaf(rt.alloc(), known).expect(rt, "memory"));
    let both = in_box(rt, ReferenceFormula::And(left, right));
    let seated = in_box(rt, named_leaf(rt.alloc(), seated).expect(rt, "memory"));
    ReferenceFormula::And(both, seated)
}

// A guest's name, age and seat, and the truths of the policy's leaves.
type GuestRow = (&'static str, u32, Option<u32>, [bool; 3]);

const GUESTS: [GuestRow; 4] = [
    ("Ada", 36, Some(7), [true, true, true]),
    ("Bob", 36, None, [true, false, false]),
    ("Ada", 9, Some(70), [false, true, false]),
    ("Bob", 9, Some(7), [false, false, true]),
];

fn turns_guest(rt: &impl Host, row: GuestRow) -> bool {
    let (name, age, seat, truths) = row;
    let name = owned(rt, name);
    let guest = Guest { name, age, seat };
    let adult = predicate::ge(18u32).of("age", |guest: &Guest| guest.age);
    let known = predicate::str::starts_with(owned(rt, "A")).of_ref("name", name_of);
    let seated = predicate::le(40u32).of_some_ref("seat", seat_of);
    let policy = adult.and(known).and(seated);
    is_explained(rt.alloc(), &policy, &guest, &guest_formula(rt, truths)).expect(rt, "memory")
}

#[test]
fn parts(rt: HostRuntime) {
    for row in GUESTS {
        assert!(rt; turns_guest(&rt, row));
    }
}

fn turns_length(rt: &impl Host, list: &[u32], truth: bool) -> bool {
    let list = vec_of(rt, list);
    let short = predicate::le(2usize).of_len();
    is_explained(
        rt.alloc(),
        &short,
        &list,
        &named_leaf(rt.alloc(), truth).expect(rt, "memory"),
    )
    .expect(rt, "memory")
}

fn turns_present(rt: &impl Host, item: Option<u32>, truth: bool) -> bool {
    let adult = predicate::ge(18u32).of_some();
    is_explained(rt.alloc(), &adult, &item, &ReferenceFormula::Leaf(truth)).expect(rt, "memory")
}

fn turns_found(rt: &impl Host, item: Result<u16, u8>, truth: bool) -> bool {
    let found = predicate::eq(200u16).of_ok();
    is_explained(rt.alloc(), &found, &item, &ReferenceFormula::Leaf(truth)).expect(rt, "memory")
}

#[test]
fn lengths_and_absent_values(rt: HostRuntime) {
    assert!(rt; turns_length(&rt, &[1, 2], true));
    assert!(rt; turns_length(&rt, &[1, 2, 3], false));
    assert!(rt; turns_present(&rt, Some(18), true));
    assert!(rt; turns_present(&rt, None, false));
    assert!(rt; turns_found(&rt, Ok(200), true));
    assert!(rt; turns_found(&rt, Err(7), false));
}

// "At least this number", for three numbers.
fn rules(rt: &impl Host) -> Vec<OrdPredicate<u32>> {
    vec![in rt.alloc();
        predicate::ge(1u32),
        predicate::ge(5u32),
        predicate::ge(9u32),
    ]
    .expect(rt, "memory")
}

// The leaves of these rules.
fn leaves(rt: &impl Host, truths: [bool; 3]) -> Vec<ReferenceFormula> {
    let [first, second, third] = truths;
    vec![in rt.alloc();
        ReferenceFormula::Leaf(first),
        ReferenceFormula::Leaf(second),
        ReferenceFormula::Leaf(third),
    ]
    .expect(rt, "memory")
}

// Whether what would turn the verdict keeps the leaves that the search finds.
fn is_turned<P: PredicateChange<Item>, Item>(
    rt: &impl Host,
    predicate: &P,
    item: &Item,
    formula: &ReferenceFormula,
) -> bool
    requires { P.lawful predicate.now }
{
    let changes = find_changes(rt.alloc(), predicate, item).expect(rt, "memory");
    changes.are_right(rt.alloc(), formula).expect(rt, "memory") == Some(true)
}

// Whether "all of the rules", which are three, and "any of them" are turned.
fn turns_rules(rt: &impl Host, number: u32, truths: [bool; 3]) -> bool {
    let all = predicate::all_of(rules(rt));
    let any = predicate::any_of(rules(rt));
    let three = counted(rt.alloc(), 3, leaves(rt, truths)).expect(rt, "memory");
    let one = counted(rt.alloc(), 1, leaves(rt, truths)).expect(rt, "memory");
    is_turned(rt, &all, &number, &three) && is_turned(rt, &any, &number, &one)
}

#[test]
fn sets_of_rules(rt: HostRuntime) {
    assert!(rt; turns_rules(&rt, 0, [false, false, false]));
    assert!(rt; turns_rules(&rt, 6, [true, true, false]));
    assert!(rt; turns_rules(&rt, 9, [true, true, true]));
}

// A list of adults and children, by whether its members are adults.
fn guests(rt: &impl Host, adults: &[bool]) -> Vec<u32> {
    let mut ages = Vec::new(rt.alloc());
    for adult in adults {
        ages.push(if *adult { 18 } else { 17 }).expect(rt, "memory");
    }
    ages
}

// "At least so many of them are adults".
fn adults_formula(rt: &impl Host, least: usize, adults: &[bool]) -> ReferenceFormula {
    let mut members = Vec::new(rt.alloc());
    for adult in adults {
        members
            .push(ReferenceFormula::Leaf(*adult))
            .expect(rt, "memory");
    }
    counted(rt.alloc(), least, members).expect(rt, "memory")
}

fn has_at_least(rt: &impl Host, number: usize, adults: &[bool]) -> bool {
    let enough = predicate::ge(18u32).of_at_least(number);
    let formula = adults_formula(rt, number, adults);
    is_explained(rt.alloc(), &enough, &guests(rt, adults), &formula).expect(rt, "memory")
}

fn has_at_most(rt: &impl Host, number: usize, adults: &[bool]) -> bool {
    let few = predicate::ge(18u32).of_at_most(number);
    let more = in_box(rt, adults_formula(rt, number.saturating_add(1), adults));
    let formula = ReferenceFormula::Not(more);
    is_explained(rt.alloc(), &few, &guests(rt, adults), &formula).expect(rt, "memory")
}

fn has_exactly(rt: &impl Host, number: usize, adults: &[bool]) -> bool {
    let just = predicate::ge(18u32).of_exactly(number).expect(rt, "memory");
    let least = in_box(rt, adults_formula(rt, number, adults));
    let more = in_box(rt, adults_formula(rt, number.saturating_add(1), adults));
    let most = in_box(rt, ReferenceFormula::Not(more));
    let formula = ReferenceFormula::And(least, most);
    is_explained(rt.alloc(), &just, &guests(rt, adults), &formula).expect(rt, "memory")
}

#[test]
fn numbers_of_members(rt: HostRuntime) {
    for truths in 0..16_usize {
        let adult = |place: usize| truths >> place & 1 == 1;
        let adults = [adult(0), adult(1), adult(2), adult(3)];
        for length in 0..5_usize {
            for number in 0..4_usize {
                let adults = &adults[..length];
                assert!(rt; has_at_least(&rt, number, adults), "{number} of {adults:?}");
                assert!(rt; has_at_most(&rt, number, adults), "{number} of {adults:?}");
                assert!(rt; has_exactly(&rt, number, adults), "{number} of {adults:?}");
            }
        }
    }
}

fn turns_box(rt: &impl Host, item: &str, is_empty: bool) -> bool {
    let some = predicate::str::is_empty().not();
    let boxed = BoxPredicate::new(rt.alloc(), in_box(rt, some)).expect(rt, "memory");
    let leaf = in_box(rt, ReferenceFormula::Leaf(is_empty));
    is_explained(
        rt.alloc(),
        &boxed,
        &owned(rt, item),
        &ReferenceFormula::Not(leaf),
    )
    .expect(rt, "memory")
}

#[test]
fn boxes(rt: HostRuntime) {
    assert!(rt; turns_box(&rt, "", true));
    assert!(rt; turns_box(&rt, "a", false));
}

fn turns_pattern(rt: &impl Host, item: &str, truth: bool) -> bool {
    let word = predicate::str::is_match(rt.alloc(), owned(rt, "T[a-z]*")).expect(rt, "memory");
    is_explained(
        rt.alloc(),
        &word,
        &owned(rt, item),
        &ReferenceFormula::Leaf(truth),
    )
    .expect(rt, "memory")
}

fn turns_count(rt: &impl Host, item: &str, truth: bool) -> bool {
    let two = predicate::str::is_match(rt.alloc(), owned(rt, "T[a-z]*"))
        .expect(rt, "memory")
        .count(2);
    is_explained(
        rt.alloc(),
        &two,
        &owned(rt, item),
        &ReferenceFormula::Leaf(truth),
    )
    .expect(rt, "memory")
}

#[test]
fn patterns(rt: HostRuntime) {
    assert!(rt; turns_pattern(&rt, "a Tea", true));
    assert!(rt; turns_pattern(&rt, "a tea", false));
    assert!(rt; turns_count(&rt, "Tea Tax", true));
    assert!(rt; turns_count(&rt, "Tea", false));
}
