//! Flags, a width and a precision change no printed text.
use crate::tests::made::{Host, in_box, owned};
use predicates::boolean::PredicateBooleanExt;
use predicates::constant::{BooleanPredicate, always};
use predicates::function::function;
use predicates::iter::{in_hash, in_iter};
use predicates::name::PredicateNameExt;
use predicates::ord::{eq, le};
use predicates::path::PredicateFileContentExt;
use predicates::static_text::StaticText;
use predicates::str::{PredicateStrExt, is_empty, is_match};
use predicates::{BoxPredicate, Predicate, TextPredicate};
use std::cell::Cell;
use std::fmt;
use std::rc::Rc;
use tests_support::{Counting, print_in_combinators, print_under_flags};

// Whether the value prints the line, also under flags.
fn prints<T: fmt::Display + Drop>(rt: &impl Host, value: T, line: &str) -> bool {
    let mut out = String::new(rt.alloc());
    print_under_flags(rt.alloc(), &mut out, &value).expect(rt, "memory");
    out.as_str() == line
}

// The same, also in combinators.
fn prints_inside<P: Predicate<Item> + Drop, Item>(
    rt: &impl Host,
    predicate: P,
    line: &str,
) -> bool {
    let mut out = String::new(rt.alloc());
    print_in_combinators(rt.alloc(), &mut out, predicate).expect(rt, "memory");
    out.as_str() == line
}

#[test]
fn flags_change_no_function(rt: HostRuntime) {
    assert!(rt; prints(&rt, function(|n: &i64| *n >= 5), "fn(var)\n"));
    let both = function(|n: &i64| *n >= 5).fn_name("big").and(le(10i64));
    assert!(rt; prints(&rt, both, "(big(var) && var <= 10)\n"));
    let both = function(|n: &i64| *n >= 5).fn_name("big").and(le(10i64));
    let either = both.name("n").or(function(|n: &i64| *n == 1));
    assert!(rt; prints(&rt, either, "(n || fn(var))\n"));
}

const MEMBERS: &str = "var in values\n";

fn twice(rt: &impl Host) -> Vec<String> {
    let mut members = Vec::new(rt.alloc());
    members.push(owned(rt, "a b")).expect(rt, "memory");
    members.push(owned(rt, "a b")).expect(rt, "memory");
    members
}

#[test]
fn flags_change_no_membership(rt: HostRuntime) {
    let list = in_iter(rt.alloc(), twice(&rt)).expect(&rt, "memory");
    assert!(rt; prints_inside(&rt, list, MEMBERS));
    let list = in_iter(rt.alloc(), twice(&rt)).expect(&rt, "memory");
    assert!(rt; prints_inside(&rt, list.sort().expect(&rt, "memory"), MEMBERS));
    let set = in_hash(rt.alloc(), twice(&rt)).expect(&rt, "memory");
    assert!(rt; prints_inside(&rt, set, MEMBERS));
}

// Whether the predicate prints the line in a box, and flags do not change the box's debug form.
fn prints_boxed(rt: &impl Host, held: Box<dyn TextPredicate>, line: &str) -> bool {
    let boxed = BoxPredicate::new(rt.alloc(), held).expect(rt, "memory");
    let shown = format!(in rt.alloc(); "{boxed:?}{boxed:#?}{boxed:40?}").expect(rt, "memory");
    let is_shown = shown.as_str() == "BoxPredicateBoxPredicateBoxPredicate";
    prints_inside(rt, boxed, line) && is_shown
}

#[test]
fn flags_change_no_box(rt: HostRuntime) {
    assert!(rt; prints_boxed(&rt, in_box(&rt, always()), "true\n"));
    let other = eq(owned(&rt, "a b")).not();
    assert!(rt; prints_boxed(&rt, in_box(&rt, other), "(! var == \"a b\")\n"));
    assert!(rt; prints_boxed(&rt, in_box(&rt, is_empty().trim()), "var.is_empty()\n"));
    let small = is_empty().name(StaticText::new("small"));
    assert!(rt; prints_boxed(&rt, in_box(&rt, small), "small\n"));
    let pattern = is_match(rt.alloc(), owned(&rt, "a+ b*")).expect(&rt, "memory");
    assert!(rt; prints_boxed(&rt, in_box(&rt, pattern.count(2)), "var.is_match(a+ b*)\n"));
}

// A part that prints another text in a width.
fn wide<Item>(rt: &impl Host) -> Counting<BooleanPredicate<Item>> {
    Counting {
        held: always(),
        asked: Rc::new(rt.alloc(), Cell::new(0)).expect(rt, "memory"),
    }
}

#[test]
fn combinators_give_their_parts_no_flags(rt: HostRuntime) {
    let (left, right) = (wide::<i64>(&rt), wide(&rt));
    assert!(rt; prints(&rt, left.and(right), "(true && true)\n"));
    let (left, right) = (wide::<i64>(&rt), wide(&rt));
    assert!(rt; prints(&rt, left.or(right), "(true || true)\n"));
    let (left, right) = (wide::<i64>(&rt), wide(&rt));
    assert!(rt; prints(&rt, left.xor(right), "(true ^ true)\n"));
    assert!(rt; prints(&rt, wide::<i64>(&rt).not(), "(! true)\n"));
}

#[test]
fn adapters_give_their_parts_no_flags(rt: HostRuntime) {
    assert!(rt; prints(&rt, wide::<String>(&rt).trim(), "true\n"));
    assert!(rt; prints(&rt, wide::<String>(&rt).normalize(), "true\n"));
    assert!(rt; prints(&rt, wide::<String>(&rt).fold_case(), "true\n"));
    assert!(rt; prints(&rt, wide::<String>(&rt).from_utf8(), "true\n"));
    let of_file = wide::<String>(&rt).from_utf8().from_file_path();
    assert!(rt; prints(&rt, of_file, "true\n"));
}
