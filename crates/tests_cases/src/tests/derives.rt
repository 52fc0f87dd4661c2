//! The traits that types derive, at types that have them.
use crate::tests::made::{Host, in_box, owned, vec_of};
use predicates::boolean::PredicateBooleanExt;
use predicates::constant::{always, never};
use predicates::iter::{InPredicate, OrdInPredicate, in_hash, in_iter};
use predicates::name::PredicateNameExt;
use predicates::ord::{EqPredicate, eq, ge, lt, ne};
use predicates::static_text::StaticText;
use predicates::{BoxPredicate, Predicate};
use std::fmt;
use tests_support::{are_copied, differ};

// An item that derives nothing.
#[derive(Drop)]
struct Bare;

// Whether the debug form has a text, in both of its forms.
fn is_shown<P: fmt::Debug>(rt: &impl Host, predicate: &P) -> bool {
    let is_plain = !format!(in rt.alloc(); "{predicate:?}")
        .expect(rt, "memory")
        .is_empty();
    is_plain
        && !format!(in rt.alloc(); "{predicate:#?}")
            .expect(rt, "memory")
            .is_empty()
}

// Whether the copy and the clone equal the value, which differs from the other.
fn is_copied<T: fmt::Debug + Copy + Eq>(rt: &impl Host, value: T, other: T) -> bool {
    are_copied(rt.alloc(), value, other).expect(rt, "memory")
}

#[test]
fn copies_equal_what_they_copy(rt: HostRuntime) {
    let (five, six) = (ge(5i32), ge(6i32));
    assert!(rt; is_copied(&rt, always::<Bare>(), never()));
    assert!(rt; is_copied(&rt, eq(5i32), ne(5)));
    assert!(rt; is_copied(&rt, five, lt(5)));
    assert!(rt; is_copied(&rt, five.and(never()), six.and(never())));
    assert!(rt; is_copied(&rt, five.or(never()), five.or(always())));
    assert!(rt; is_copied(&rt, five.xor(never()), six.xor(never())));
    assert!(rt; is_copied(&rt, five.not(), six.not()));
    assert!(rt; is_copied(&rt, five.name("big"), five.name("large")));
}

// Whether a copy is named on, also by a text without a lifetime, and equals the first.
fn is_copy_named(rt: &impl Host) -> bool {
    let one = never().name("x").or(lt(3i32).name("y"));
    let other = one;
    let held = other.name(StaticText::new("held")).not();
    one == other && !held.eval(rt.alloc(), &1).expect(rt, "memory")
}

#[test]
fn a_copy_is_named_again(rt: HostRuntime) {
    assert!(rt; is_copy_named(&rt));
}

fn is_letter(rt: &impl Host, letter: &str) -> EqPredicate<String> {
    eq(owned(rt, letter))
}

// Whether the values differ, each is equal to itself, and both are shown.
fn do_differ<T: fmt::Debug + Eq + Drop>(rt: &impl Host, left: T, right: T) -> bool {
    differ(rt.alloc(), &left, &right).expect(rt, "memory")
}

// Whether comparisons with texts are cloned, though a text is not copied.
fn is_letter_cloned(rt: &impl Host) -> bool {
    let letter = is_letter(rt, "a");
    letter.clone().expect(rt, "memory") == letter
}

// The list of the members, and the sorted one.
fn listed(rt: &impl Host, members: &[i64]) -> InPredicate<i64> {
    in_iter(rt.alloc(), vec_of(rt, members)).expect(rt, "memory")
}

fn sorted(rt: &impl Host, members: &[i64]) -> OrdInPredicate<i64> {
    listed(rt, members).sort().expect(rt, "memory")
}

#[test]
fn clones_and_lists_are_compared(rt: HostRuntime) {
    assert!(rt; is_letter_cloned(&rt));
    assert!(rt; do_differ(&rt, is_letter(&rt, "a"), is_letter(&rt, "b")));
    let (left, right) = (is_letter(&rt, "a"), is_letter(&rt, "b"));
    assert!(rt; do_differ(&rt, always().and(left), always().and(right)));
    let (left, right) = (is_letter(&rt, "a"), is_letter(&rt, "a"));
    assert!(rt; do_differ(&rt, always().xor(left), never().xor(right)));
    assert!(rt; do_differ(&rt, listed(&rt, &[3, 1]), listed(&rt, &[1, 3])));
    assert!(rt; sorted(&rt, &[3, 1]) == sorted(&rt, &[1, 3]));
    assert!(rt; do_differ(&rt, sorted(&rt, &[3, 1]), sorted(&rt, &[1, 3, 3])));
}

// Whether a set is shown.
fn is_set_shown(rt: &impl Host) -> bool {
    is_shown(rt, &in_hash(rt.alloc(), [1i64]).expect(rt, "memory"))
}

// Whether one in a box is shown by its type's name, also in the alternate form.
fn is_box_shown(rt: &impl Host) -> bool {
    let held = always().and(is_letter(rt, "a"));
    let boxed = BoxPredicate::new(rt.alloc(), in_box(rt, held)).expect(rt, "memory");
    format!(in rt.alloc(); "{boxed:#?}")
        .expect(rt, "memory")
        .as_str()
        == "BoxPredicate"
}

#[test]
fn debug_forms_of_a_set_and_of_a_box(rt: HostRuntime) {
    assert!(rt; is_set_shown(&rt));
    assert!(rt; is_box_shown(&rt));
}
