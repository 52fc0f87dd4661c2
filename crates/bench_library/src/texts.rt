//! Predicates of one text.
use crate::asked::ask;
use predicates::boolean::PredicateBooleanExt;
use predicates_core::PredicateChange;
use predicates_text::{PredicateStrExt, contains, is_empty, is_match, starts_with};
use std::alloc::{AllocError, Global};

// The text that the bytes are; other bytes are refused as memory is.
pub(crate) fn text(alloc: Global, bytes: &[u8]) -> Result<String, AllocError> {
    match str::from_utf8(bytes) {
        Ok(text) => String::from_str(alloc, text),
        Err(_) => Err(AllocError),
    }
}

// This many texts that the bytes are. The compiler sees neither the texts nor how many there are.
fn copies_of(alloc: Global, bytes: &[u8], copies: usize) -> Result<Vec<String>, AllocError> {
    let mut all = Vec::new(alloc);
    for _ in 0..copies {
        all.push(text(alloc, bytes)?)?;
    }
    Ok(all)
}

// The sum of the answers about all copies of the text, and zero where memory runs out.
pub(crate) fn ask_of_text<P: PredicateChange<String>>(
    alloc: Global,
    predicate: &P,
    bytes: &[u8],
    copies: usize,
    question: u8,
    rounds: usize,
) -> usize
    requires { P.lawful predicate.now }
{
    match copies_of(alloc, bytes, copies) {
        Ok(items) => ask(alloc, predicate, &items, question, rounds),
        Err(_) => 0,
    }
}

/// Asks whether the text has the pattern in it.
#[unsafe(no_mangle)]
pub extern "C" fn bench_contains(
    alloc: Global,
    pattern: &[u8],
    bytes: &[u8],
    copies: usize,
    question: u8,
    rounds: usize,
) -> usize {
    match text(alloc, pattern) {
        Ok(pattern) => ask_of_text(alloc, &contains(pattern), bytes, copies, question, rounds),
        Err(_) => 0,
    }
}

/// Asks whether the text has the pattern in it so often.
#[unsafe(no_mangle)]
pub extern "C" fn bench_count(
    alloc: Global,
    pattern: &[u8],
    count: usize,
    bytes: &[u8],
    copies: usize,
    question: u8,
    rounds: usize,
) -> usize {
    match text(alloc, pattern) {
        Ok(pattern) => {
            let predicate = contains(pattern).count(count);
            ask_of_text(alloc, &predicate, bytes, copies, question, rounds)
        }
        Err(_) => 0,
    }
}

/// Asks whether the text begins with the pattern.
#[unsafe(no_mangle)]
pub extern "C" fn bench_starts_with(
    alloc: Global,
    pattern: &[u8],
    bytes: &[u8],
    copies: usize,
    question: u8,
    rounds: usize,
) -> usize {
    match text(alloc, pattern) {
        Ok(pattern) => ask_of_text(
            alloc,
            &starts_with(pattern),
            bytes,
            copies,
            question,
            rounds,
        ),
        Err(_) => 0,
    }
}

/// Asks whether the regular expression has `count` matches in the text.
#[unsafe(no_mangle)]
pub extern "C" fn bench_matches(
    alloc: Global,
    pattern: &[u8],
    count: usize,
    bytes: &[u8],
    copies: usize,
    question: u8,
    rounds: usize,
) -> usize {
    let Ok(pattern) = text(alloc, pattern) else {
        return 0;
    };
    match is_match(alloc, pattern) {
        Ok(predicate) => ask_of_text(
            alloc,
            &predicate.count(count),
            bytes,
            copies,
            question,
            rounds,
        ),
        Err(_) => 0,
    }
}

/// Asks whether nothing is left of the text without the white space at its ends.
#[unsafe(no_mangle)]
pub extern "C" fn bench_trimmed(
    alloc: Global,
    bytes: &[u8],
    copies: usize,
    question: u8,
    rounds: usize,
) -> usize {
    ask_of_text(alloc, &is_empty().trim(), bytes, copies, question, rounds)
}

fn copied_bytes(alloc: Global, bytes: &[u8], copies: usize) -> Result<Vec<Vec<u8>>, AllocError> {
    let mut all = Vec::new(alloc);
    for _ in 0..copies {
        all.push(Vec::from_slice(alloc, bytes)?)?;
    }
    Ok(all)
}

/// Asks whether the bytes are a text that is not empty.
#[unsafe(no_mangle)]
pub extern "C" fn bench_from_utf8(
    alloc: Global,
    bytes: &[u8],
    copies: usize,
    question: u8,
    rounds: usize,
) -> usize {
    match copied_bytes(alloc, bytes, copies) {
        Ok(items) => {
            let predicate = is_empty().not().from_utf8();
            ask(alloc, &predicate, &items, question, rounds)
        }
        Err(_) => 0,
    }
}
