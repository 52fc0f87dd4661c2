//! What makes predicates without memory.
use super::functions_and_boxes::is_big;
use super::paths::file;
use predicates::boolean::{AndPredicate, NotPredicate, OrPredicate, XorPredicate};
use predicates::function::function;
use predicates::ord::{eq, ge, gt, le, lt};
use predicates_core::Predicate;
use predicates_path::eq_file;
use predicates_text::{PredicateStrExt, is_match};
use std::process::Abort;
use tests_support::text;
use tests_sweep::{Without, refusing};

/// What was made without memory holds of the item, and answers so without any.
pub fn holds<R: Abort + AllocGlobal + Print, P: Predicate<Item> + Drop, Item>(
    rt: &R,
    begun: Without<'_>,
    predicate: P,
    item: &Item,
)
    requires { P.lawful predicate }
{
    let right = predicate.eval(rt.alloc(), item) == Ok(true);
    begun.end(rt, right).expect(rt, "memory")
}

#[test]
fn functions(rt: HostRuntime) {
    let stored = function(is_big);
    let begun = refusing(rt.alloc(), "fn_name");
    holds(&rt, begun, stored.fn_name("big"), &7)
}

#[test]
fn combinators_by_new(rt: HostRuntime) {
    let alloc = rt.alloc();
    let begun = refusing(alloc, "AndPredicate::new");
    holds(&rt, begun, AndPredicate::new(ge(5i64), le(10)), &7);
    let begun = refusing(alloc, "OrPredicate::new");
    holds(&rt, begun, OrPredicate::new(lt(3i64), gt(5)), &7);
    let begun = refusing(alloc, "XorPredicate::new");
    holds(&rt, begun, XorPredicate::new(lt(3i64), lt(5)), &4);
    let begun = refusing(alloc, "NotPredicate::new");
    holds(&rt, begun, NotPredicate::new(lt(3i64)), &4)
}

#[test]
fn counted_patterns(rt: HostRuntime) {
    let alloc = rt.alloc();
    let item = text(alloc, "aba").expect(&rt, "memory");
    let pattern = is_match(alloc, text(alloc, "b").expect(&rt, "memory")).expect(&rt, "memory");
    let begun = refusing(alloc, "count of a pattern");
    let once = pattern.count(1);
    begun.end(&rt, true).expect(&rt, "memory");
    let found = once.eval(alloc, &item).expect(&rt, "memory");
    assert!(rt; found, "another answer");
}

#[test]
fn folded_texts(rt: HostRuntime) {
    let alloc = rt.alloc();
    let masse = eq(text(alloc, "masse").expect(&rt, "memory"));
    let item = text(alloc, "masse").expect(&rt, "memory");
    let begun = refusing(alloc, "fold_case of a folded text");
    holds(&rt, begun, masse.fold_case(), &item)
}

#[test]
fn refused_contents(rt: HostRuntime) {
    let alloc = rt.alloc();
    let bytes = eq_file(file(&rt, alloc, b"\xff")).expect(&rt, "memory");
    let begun = refusing(alloc, "utf8 of a byte that is no text");
    let right = bytes.utf8().is_none();
    begun.end(&rt, right).expect(&rt, "memory")
}
