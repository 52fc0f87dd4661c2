//! Comparisons of numbers.
use crate::asked::ask;
use predicates::boolean::PredicateBooleanExt;
use predicates::ord::{OrdPredicate, ge, gt, le, lt};
use std::alloc::Global;

/// Asks whether each number is at least `lo` and at most `hi`.
#[unsafe(no_mangle)]
pub extern "C" fn bench_between(
    alloc: Global,
    lo: i64,
    hi: i64,
    items: &[i64],
    question: u8,
    rounds: usize,
) -> usize {
    let between = ge(lo).and(le(hi));
    ask(alloc, &between, items, question, rounds)
}

// The comparison with this number among the four, in their order.
fn chosen(number: u8, constant: i64) -> OrdPredicate<i64> {
    match number {
        0 => lt(constant),
        1 => le(constant),
        2 => ge(constant),
        _ => gt(constant),
    }
}

/// Asks whether two comparisons that are chosen at run time hold of each number.
#[unsafe(no_mangle)]
pub extern "C" fn bench_chosen(
    alloc: Global,
    first: u8,
    lo: i64,
    second: u8,
    hi: i64,
    items: &[i64],
    question: u8,
    rounds: usize,
) -> usize {
    let both = chosen(first, lo).and(chosen(second, hi));
    ask(alloc, &both, items, question, rounds)
}
