//! Checks of texts as the program `explain` makes them, by their depth or their number of leaves.
use crate::texts::{ask_of_text, text};
use explain_run::TextCheck;
use predicates_text::{ends_with, starts_with};
use std::alloc::{AllocError, Global};

// `starts_with("a")`, the leaf of all checks here.
fn leaf(alloc: Global) -> Result<Box<TextCheck>, AllocError> {
    let pattern = String::from_str(alloc, "a")?;
    Ok(Box::new(alloc, TextCheck::Starts(starts_with(pattern)))?)
}

// The leaf under as many `not` as `depth` says.
fn nots(alloc: Global, depth: usize) -> Result<Box<TextCheck>, AllocError> {
    let mut check = leaf(alloc)?;
    for _ in 0..depth {
        check = Box::new(alloc, TextCheck::Not(check))?;
    }
    Ok(check)
}

// This many leaves joined by `and`, and `ends_with("b")` as the last one.
fn row(alloc: Global, leaves: usize) -> Result<Box<TextCheck>, AllocError> {
    let mut check = leaf(alloc)?;
    for _ in 1..leaves {
        check = Box::new(alloc, TextCheck::And(check, leaf(alloc)?))?;
    }
    let last = TextCheck::Ends(ends_with(String::from_str(alloc, "b")?));
    Ok(Box::new(alloc, TextCheck::And(check, Box::new(alloc, last)?))?)
}

// This many `xor` over leaves; the checks made so far stand on the right or on the left.
fn chain(alloc: Global, xors: usize, on_the_right: bool) -> Result<Box<TextCheck>, AllocError> {
    let mut check = leaf(alloc)?;
    for _ in 0..xors {
        let next = leaf(alloc)?;
        check = Box::new(
            alloc,
            if on_the_right {
                TextCheck::Xor(next, check)
            } else {
                TextCheck::Xor(check, next)
            },
        )?;
    }
    Ok(check)
}

// The neighbours of a level joined in pairs, by `and` or by `or`.
fn join_pairs(
    alloc: Global,
    checks: Vec<Box<TextCheck>>,
    by_and: bool,
) -> Result<Vec<Box<TextCheck>>, AllocError> {
    let mut joined = Vec::new(alloc);
    let mut checks = checks.into_iter();
    for _ in 0..checks.len() {
        let Some(left) = checks.next() else { break };
        let Some(right) = checks.next() else { break };
        let pair = if by_and {
            TextCheck::And(left, right)
        } else {
            TextCheck::Or(left, right)
        };
        joined.push(Box::new(alloc, pair)?)?;
    }
    Ok(joined)
}

// A full tree of the given number of levels over leaves, by `and` and `or` in turn, with `and` at
// the root.
fn full(alloc: Global, levels: u8) -> Result<Box<TextCheck>, AllocError> {
    let mut checks = Vec::new(alloc);
    for _ in 0..1u32 << (levels % 16) {
        checks.push(leaf(alloc)?)?;
    }
    let mut by_and = levels % 2 == 1;
    for _ in 0..levels {
        checks = join_pairs(alloc, checks, by_and)?;
        by_and = !by_and;
    }
    checks.pop().ok_or(AllocError)
}

fn ask_check(
    alloc: Global,
    check: Result<Box<TextCheck>, AllocError>,
    bytes: &[u8],
    copies: usize,
    question: u8,
    rounds: usize,
) -> usize {
    match check {
        Ok(check) => {
            let check = Box::into_inner(check);
            ask_of_text(alloc, &check, bytes, copies, question, rounds)
        }
        Err(_) => 0,
    }
}

/// Asks a chain of `depth` times `not` over `starts_with("a")`.
#[unsafe(no_mangle)]
pub extern "C" fn bench_nots(
    alloc: Global,
    depth: usize,
    bytes: &[u8],
    copies: usize,
    question: u8,
    rounds: usize,
) -> usize {
    ask_check(alloc, nots(alloc, depth), bytes, copies, question, rounds)
}

/// Asks `leaves` times `starts_with("a")` and a last `ends_with("b")`, joined by `and`.
#[unsafe(no_mangle)]
pub extern "C" fn bench_row(
    alloc: Global,
    leaves: usize,
    bytes: &[u8],
    copies: usize,
    question: u8,
    rounds: usize,
) -> usize {
    ask_check(alloc, row(alloc, leaves), bytes, copies, question, rounds)
}

/// Asks a chain of `xors` times `xor` over `starts_with("a")`, to the right where `on_the_right` is
/// not 0.
#[unsafe(no_mangle)]
pub extern "C" fn bench_xors(
    alloc: Global,
    xors: usize,
    on_the_right: u8,
    bytes: &[u8],
    copies: usize,
    question: u8,
    rounds: usize,
) -> usize {
    let check = chain(alloc, xors, on_the_right != 0);
    ask_check(alloc, check, bytes, copies, question, rounds)
}

/// Asks a full tree of `levels` levels over `starts_with("a")`, with `and` and `or` in turn.
#[unsafe(no_mangle)]
pub extern "C" fn bench_full(
    alloc: Global,
    levels: u8,
    bytes: &[u8],
    copies: usize,
    question: u8,
    rounds: usize,
) -> usize {
    ask_check(alloc, full(alloc, levels), bytes, copies, question, rounds)
}
