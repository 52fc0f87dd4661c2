//! Membership among numbers, and the making of it.
use crate::asked::ask;
use predicates::iter::{HashableInPredicate, InPredicate, OrdInPredicate, in_hash, in_iter};
use predicates_core::Total;
use std::alloc::{AllocError, Global};

fn list_of(alloc: Global, members: &[i64]) -> Result<InPredicate<i64>, AllocError> {
    in_iter(alloc, Vec::from_slice(alloc, members)?)
}

fn sorted_list_of(alloc: Global, members: &[i64]) -> Result<OrdInPredicate<i64>, AllocError> {
    list_of(alloc, members)?.sort()
}

fn set_of(alloc: Global, members: &[i64]) -> Result<HashableInPredicate<i64>, AllocError> {
    in_hash(alloc, Vec::from_slice(alloc, members)?)
}

/// Asks whether each number is in the list.
#[unsafe(no_mangle)]
pub extern "C" fn bench_listed(
    alloc: Global,
    members: &[i64],
    items: &[i64],
    question: u8,
    rounds: usize,
) -> usize {
    match list_of(alloc, members) {
        Ok(predicate) => ask(alloc, &predicate, items, question, rounds),
        Err(_) => 0,
    }
}

/// Asks whether each number is in the sorted list.
#[unsafe(no_mangle)]
pub extern "C" fn bench_sorted(
    alloc: Global,
    members: &[i64],
    items: &[i64],
    question: u8,
    rounds: usize,
) -> usize {
    match sorted_list_of(alloc, members) {
        Ok(predicate) => ask(alloc, &predicate, items, question, rounds),
        Err(_) => 0,
    }
}

/// Asks whether each number is in the hashed set.
#[unsafe(no_mangle)]
pub extern "C" fn bench_hashed(
    alloc: Global,
    members: &[i64],
    items: &[i64],
    question: u8,
    rounds: usize,
) -> usize {
    match set_of(alloc, members) {
        Ok(predicate) => ask(alloc, &predicate, items, question, rounds),
        Err(_) => 0,
    }
}

// How often a predicate that is made anew in each round holds of the item.
fn ask_anew<P: Total<i64> + Drop, F: Fn() -> Result<P, AllocError>>(
    alloc: Global,
    make: F,
    item: i64,
    rounds: usize,
) -> Result<usize, AllocError>
    requires { F.IsAlwaysCallable make }
{
    let mut found: usize = 0;
    for _ in 0..rounds {
        let predicate = make()?;
        if predicate.eval(alloc, &item)? {
            found = found.wrapping_add(1);
        }
    }
    Ok(found)
}

/// Makes a list of the members, and asks whether the item is in it.
#[unsafe(no_mangle)]
pub extern "C" fn bench_make_listed(
    alloc: Global,
    members: &[i64],
    item: i64,
    rounds: usize,
) -> usize {
    ask_anew(alloc, || list_of(alloc, members), item, rounds).unwrap_or(0)
}

/// Makes a sorted list of the members, and asks whether the item is in it.
#[unsafe(no_mangle)]
pub extern "C" fn bench_make_sorted(
    alloc: Global,
    members: &[i64],
    item: i64,
    rounds: usize,
) -> usize {
    ask_anew(alloc, || sorted_list_of(alloc, members), item, rounds).unwrap_or(0)
}

/// Makes a hashed set of the members, and asks whether the item is in it.
#[unsafe(no_mangle)]
pub extern "C" fn bench_make_hashed(
    alloc: Global,
    members: &[i64],
    item: i64,
    rounds: usize,
) -> usize {
    ask_anew(alloc, || set_of(alloc, members), item, rounds).unwrap_or(0)
}
