//! Questions that are put to a predicate again and again.
use predicates_core::reflection::render_onto;
use predicates_core::{Predicate, PredicateChange};
use std::alloc::{AllocError, Global};

// What is asked of a predicate about each item.
#[derive(Clone, Copy)]
pub(crate) enum Question {
    Verdict,
    Case,
    OtherCase,
    Lines,
    Change,
}

impl Question {
    // The question of this number, in their order.
    fn of_number(number: u8) -> Question {
        match number {
            0 => Question::Verdict,
            1 => Question::Case,
            2 => Question::OtherCase,
            3 => Question::Lines,
            _ => Question::Change,
        }
    }
}

// How many of the items it holds of, counted anew in each round.
fn true_verdicts<P: Predicate<Item>, Item>(
    alloc: Global,
    predicate: &P,
    items: &[Item],
    rounds: usize,
) -> Result<usize, AllocError>
    requires { P.lawful predicate.now }
{
    let mut found: usize = 0;
    for _ in 0..rounds {
        for item in items {
            if predicate.eval(alloc, item)? {
                found = found.wrapping_add(1);
            }
        }
    }
    Ok(found)
}

// The verdict on each item, or the opposite of it.
fn verdicts<P: Predicate<Item>, Item>(
    alloc: Global,
    predicate: &P,
    items: &[Item],
    opposite: bool,
) -> Result<Vec<bool>, AllocError>
    requires { P.lawful predicate.now }
{
    let mut all = Vec::new(alloc);
    for item in items {
        all.push(predicate.eval(alloc, item)? != opposite)?;
    }
    Ok(all)
}

// How many cases there are for these verdicts, found anew in each round.
fn cases<P: Predicate<Item>, Item>(
    alloc: Global,
    predicate: &P,
    items: &[Item],
    expected: &[bool],
    rounds: usize,
) -> Result<usize, AllocError>
    requires { P.lawful predicate.now }
{
    let mut found: usize = 0;
    for _ in 0..rounds {
        for (item, &expected) in items.iter().zip(expected) {
            if predicate.find_case(alloc, expected, item)?.is_some() {
                found = found.wrapping_add(1);
            }
        }
    }
    Ok(found)
}

// How many bytes the lines of the cases have, written anew in each round.
fn line_bytes<P: Predicate<Item>, Item>(
    alloc: Global,
    predicate: &P,
    items: &[Item],
    expected: &[bool],
    rounds: usize,
) -> Result<usize, AllocError>
    requires { P.lawful predicate.now }
{
    let mut written: usize = 0;
    let mut text = String::new(alloc);
    for _ in 0..rounds {
        for (item, &expected) in items.iter().zip(expected) {
            text.clear();
            if let Some(case) = predicate.find_case(alloc, expected, item)? {
                render_onto(&mut text, &case)?;
            }
            written = written.wrapping_add(text.len());
        }
    }
    Ok(written)
}

// How many changes there are that turn these verdicts, found anew in each round.
fn changes<P: PredicateChange<Item>, Item>(
    alloc: Global,
    predicate: &P,
    items: &[Item],
    expected: &[bool],
    rounds: usize,
) -> Result<usize, AllocError>
    requires { P.lawful predicate.now }
{
    let mut found: usize = 0;
    for _ in 0..rounds {
        for (item, &expected) in items.iter().zip(expected) {
            if predicate
                .find_change(alloc, Some(expected), item)?
                .is_some()
            {
                found = found.wrapping_add(1);
            }
        }
    }
    Ok(found)
}

fn answer<P: PredicateChange<Item>, Item>(
    alloc: Global,
    predicate: &P,
    items: &[Item],
    question: Question,
    rounds: usize,
) -> Result<usize, AllocError>
    requires { P.lawful predicate.now }
{
    match question {
        Question::Verdict => true_verdicts(alloc, predicate, items, rounds),
        Question::Case => {
            let expected = verdicts(alloc, predicate, items, false)?;
            cases(alloc, predicate, items, &expected, rounds)
        }
        Question::OtherCase => {
            let expected = verdicts(alloc, predicate, items, true)?;
            cases(alloc, predicate, items, &expected, rounds)
        }
        Question::Lines => {
            let expected = verdicts(alloc, predicate, items, false)?;
            line_bytes(alloc, predicate, items, &expected, rounds)
        }
        Question::Change => {
            let expected = verdicts(alloc, predicate, items, false)?;
            changes(alloc, predicate, items, &expected, rounds)
        }
    }
}

// The sum of the answers about all items over all rounds, and zero where memory runs out.
pub(crate) fn ask<P: PredicateChange<Item>, Item>(
    alloc: Global,
    predicate: &P,
    items: &[Item],
    question: u8,
    rounds: usize,
) -> usize
    requires { P.lawful predicate.now }
{
    answer(
        alloc,
        predicate,
        items,
        Question::of_number(question),
        rounds,
    )
    .unwrap_or(0)
}
