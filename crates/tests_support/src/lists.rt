//! What the library's predicates over lists of numbers answer, and the formulas that they have.
//!
//! Their words are those of a predicate over numbers, and `each` or `any` behind them.
use crate::answers::{Answers, ask};
use crate::from_words::{FromWords, some, whole};
use crate::level::Level;
use crate::number_leaf::NumberLeaf;
use crate::numbers::number_formula;
use crate::reference::ReferenceFormula;
use crate::words::NumberWord;
use predicates::part::PredicatePartExt;
use std::alloc::{AllocError, Global};

type Member = Level<Level<NumberLeaf, i64>, i64>;

// Whether the last word is `each`; none where it is another than `each` and `any`.
fn is_each(words: &[NumberWord]) -> Option<bool> {
    match words {
        [.., NumberWord::Each] => Some(true),
        [.., NumberWord::Any] => Some(false),
        _ => None,
    }
}

// What a predicate of each member, or of one, answers.
fn ask_members<P: FromWords<NumberWord, i64>>(
    alloc: Global,
    member: P,
    is_each: bool,
    list: &Vec<i64>,
) -> Result<Answers, AllocError> {
    if is_each {
        ask(alloc, &member.of_each(), list)
    } else {
        ask(alloc, &member.of_any(), list)
    }
}

/// What the predicate of the words answers about a list; none where the words are not one predicate
/// over lists, or where it is too deep.
pub fn answer_list(
    alloc: Global,
    mut words: Vec<NumberWord>,
    list: &Vec<i64>,
) -> Result<Option<Answers>, AllocError> {
    let Some(is_each) = is_each(words.as_slice()) else {
        return Ok(None);
    };
    words.pop();
    match whole::<Member, NumberWord, i64>(alloc, words)? {
        Some(member) => some(ask_members(alloc, member, is_each, list)),
        None => Ok(None),
    }
}

// A member's formula and that of the members behind it.
fn joined(
    alloc: Global,
    is_each: bool,
    member: ReferenceFormula,
    rest: ReferenceFormula,
) -> Result<ReferenceFormula, AllocError> {
    let member = Box::new(alloc, member)?;
    let rest = Box::new(alloc, rest)?;
    Ok(if is_each {
        ReferenceFormula::And(member, rest)
    } else {
        ReferenceFormula::Or(member, rest)
    })
}

/// The formula that the words mean on a list; none where they are not one predicate over lists.
pub fn list_formula(
    alloc: Global,
    words: &[NumberWord],
    list: &[i64],
) -> Result<Option<ReferenceFormula>, AllocError> {
    let (Some(is_each), [of_member @ .., _]) = (is_each(words), words) else {
        return Ok(None);
    };
    if list.is_empty() {
        return Ok(Some(ReferenceFormula::Leaf(is_each)));
    }
    let mut members = ReferenceFormula::NoMore(is_each);
    for number in list.iter().rev() {
        let Some(member) = number_formula(alloc, of_member, *number)? else {
            return Ok(None);
        };
        members = joined(alloc, is_each, member, members)?;
    }
    Ok(Some(ReferenceFormula::Members(Box::new(alloc, members)?)))
}
