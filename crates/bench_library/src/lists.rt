//! Lists of numbers.
use crate::asked::ask;
use predicates::ord::ge;
use predicates::part::PredicatePartExt;
use std::alloc::{AllocError, Global};

// A list of these members, as the only item.
fn only_item(alloc: Global, members: &[i64]) -> Result<Vec<Vec<i64>>, AllocError> {
    let mut items = Vec::new(alloc);
    items.push(Vec::from_slice(alloc, members)?)?;
    Ok(items)
}

/// Asks whether each of the members is at least `least`.
#[unsafe(no_mangle)]
pub extern "C" fn bench_each(
    alloc: Global,
    least: i64,
    members: &[i64],
    question: u8,
    rounds: usize,
) -> usize {
    let each = ge(least).of_each();
    match only_item(alloc, members) {
        Ok(items) => ask(alloc, &each, &items, question, rounds),
        Err(_) => 0,
    }
}

/// Asks whether so many of the members are at least `least`.
#[unsafe(no_mangle)]
pub extern "C" fn bench_at_least(
    alloc: Global,
    least: i64,
    needed: usize,
    members: &[i64],
    question: u8,
    rounds: usize,
) -> usize {
    let enough = ge(least).of_at_least(needed);
    match only_item(alloc, members) {
        Ok(items) => ask(alloc, &enough, &items, question, rounds),
        Err(_) => 0,
    }
}
