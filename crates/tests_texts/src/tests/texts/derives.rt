//! Which traits the tests of texts derive, at types that have it.
use crate::tests::asked::are_apart;
use crate::tests::made::{Host, owned};
use predicates_text::{
    ContainsPredicate, PredicateStrExt, contains, ends_with, eq_ignore_case, is_empty, starts_with,
};
use std::fmt;

// A value of a type that is copied, compared and shown, and that has one value alone.
fn is_copied<T: fmt::Debug + Copy + Eq>(rt: &impl Host, value: T) -> bool {
    let copied = value;
    let shown = format!(in rt.alloc(); "{value:?}").expect(rt, "memory");
    copied == value && value.clone().expect(rt, "memory") == copied && !shown.is_empty()
}

// Whether the value has this `Debug` form.
fn is_shown_as<T: fmt::Debug>(rt: &impl Host, value: &T, form: &str) -> bool {
    format!(in rt.alloc(); "{value:?}")
        .expect(rt, "memory")
        .as_str()
        == form
}

// A leaf of each of two patterns.
fn parts(rt: &impl Host) -> (ContainsPredicate, ContainsPredicate) {
    (contains(owned(rt, "a")), contains(owned(rt, "b")))
}

#[test]
fn copied(rt: HostRuntime) {
    assert!(rt; is_copied(&rt, is_empty()));
    assert!(rt; is_copied(&rt, is_empty().trim()));
    assert!(rt; is_copied(&rt, is_empty().normalize()));
    assert!(rt; is_copied(&rt, is_empty().fold_case()));
    assert!(rt; is_copied(&rt, is_empty().from_utf8()));
}

#[test]
fn adapters_are_shown(rt: HostRuntime) {
    let (alloc, part) = (rt.alloc(), is_empty());
    let trim = "TrimPredicate { inner: IsEmptyPredicate }";
    let normalized = "NormalizedPredicate { inner: IsEmptyPredicate }";
    let folded = "FoldCasePredicate { inner: IsEmptyPredicate }";
    let utf8 = "Utf8Predicate { inner: IsEmptyPredicate }";
    assert!(rt; is_shown_as(&rt, &part.trim(), trim));
    assert!(rt; is_shown_as(&rt, &part.normalize(), normalized));
    assert!(rt; is_shown_as(&rt, &part.fold_case(), folded));
    assert!(rt; is_shown_as(&rt, &part.from_utf8(), utf8));
}

#[test]
fn leaves_are_compared(rt: HostRuntime) {
    let (a, b) = (owned(&rt, "a"), owned(&rt, "b"));
    assert!(rt; are_apart(&rt, starts_with(a), starts_with(b)));
    let (a, b) = (owned(&rt, "a"), owned(&rt, "b"));
    assert!(rt; are_apart(&rt, ends_with(a), ends_with(b)));
    let (a, b) = (owned(&rt, "a"), owned(&rt, "b"));
    assert!(rt; are_apart(&rt, eq_ignore_case(a), eq_ignore_case(b)));
    let (a, b) = parts(&rt);
    assert!(rt; are_apart(&rt, a, b));
    let (once, twice) = (contains(owned(&rt, "a")), contains(owned(&rt, "a")));
    assert!(rt; are_apart(&rt, once.count(1), twice.count(2)));
}

#[test]
fn adapters_are_compared(rt: HostRuntime) {
    let (a, b) = parts(&rt);
    assert!(rt; are_apart(&rt, a.trim(), b.trim()));
    let (a, b) = parts(&rt);
    assert!(rt; are_apart(&rt, a.normalize(), b.normalize()));
    let (a, b) = parts(&rt);
    assert!(rt; are_apart(&rt, a.fold_case(), b.fold_case()));
    let (a, b) = parts(&rt);
    assert!(rt; are_apart(&rt, a.from_utf8(), b.from_utf8()));
}
