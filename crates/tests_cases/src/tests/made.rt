//! What the helpers of tests take, and values that they own.
use predicates::Predicate;
use predicates::reflection::{Case, PredicateReflection, render};
use std::process::Abort;

/// The runtime of a test, which ends the test and has memory.
pub trait Host: Abort + AllocGlobal {}

impl<R: Abort + AllocGlobal> Host for R {}

/// The value in a box.
pub fn in_box<T: Drop>(rt: &impl Host, value: T) -> Box<T> {
    Box::new(rt.alloc(), value).expect(rt, "memory")
}

/// These members.
pub fn vec_of<T: Copy>(rt: &impl Host, members: &[T]) -> Vec<T> {
    Vec::from_slice(rt.alloc(), members).expect(rt, "memory")
}

/// These words.
pub fn owned(rt: &impl Host, words: &str) -> String {
    String::from_str(rt.alloc(), words).expect(rt, "memory")
}

/// Whether the only case of the item, which is the verdict's, has these lines.
pub fn explains<P: Predicate<Item> + Drop, Item: Drop>(
    rt: &impl Host,
    predicate: P,
    item: Item,
    lines: &str,
) -> bool
    requires { P.lawful predicate }
{
    tests_support::explains(rt.alloc(), &predicate, &item, lines).expect(rt, "memory")
}

/// Whether its printed text, its parameters and its children are these lines.
pub fn describes<P: PredicateReflection + Drop>(rt: &impl Host, predicate: P, lines: &str) -> bool {
    tests_support::is_described(rt.alloc(), &predicate, lines).expect(rt, "memory")
}

/// Whether there is a case, with these lines.
pub fn has_lines(rt: &impl Host, found: Option<Case>, lines: &str) -> bool {
    match found {
        Some(case) => render(rt.alloc(), &case).expect(rt, "memory").as_str() == lines,
        None => false,
    }
}
