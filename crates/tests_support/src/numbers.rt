//! What the library's predicates over numbers answer, and the formulas that they have.
use crate::answers::Answers;
use crate::from_words::{Combinator, FromWords, Word, answer};
use crate::level::Level;
use crate::number_leaf::NumberLeaf;
use crate::reference::{ReferenceFormula, combined};
use crate::words::NumberWord;
use predicates_core::static_text::StaticText;
use std::alloc::{AllocError, Global};

impl Word for NumberWord {
    fn combinator(&self) -> Option<Combinator> {
        Some(match self {
            NumberWord::Not => Combinator::Not,
            NumberWord::Named(name) => Combinator::Named(StaticText::new(name.as_str())),
            NumberWord::And => Combinator::And,
            NumberWord::Or => Combinator::Or,
            NumberWord::Xor => Combinator::Xor,
            _ => return None,
        })
    }
}

// What the predicate of the words answers, of at most two combinators over a predicate that is
// read. A type of many levels is made in steps, since a call at all of them at once is dear to
// check.
fn answer_two<P: FromWords<NumberWord, i64>>(
    alloc: Global,
    words: Vec<NumberWord>,
    item: i64,
) -> Result<Option<Answers>, AllocError> {
    answer::<Level<Level<P, i64>, i64>, NumberWord, i64>(alloc, words, &item)
}

fn answer_four<P: FromWords<NumberWord, i64>>(
    alloc: Global,
    words: Vec<NumberWord>,
    item: i64,
) -> Result<Option<Answers>, AllocError> {
    answer_two::<Level<Level<P, i64>, i64>>(alloc, words, item)
}

fn answer_six<P: FromWords<NumberWord, i64>>(
    alloc: Global,
    words: Vec<NumberWord>,
    item: i64,
) -> Result<Option<Answers>, AllocError> {
    answer_four::<Level<Level<P, i64>, i64>>(alloc, words, item)
}

/// What the predicate of the words answers, which is made of the library's own types at every
/// node; none where the words are not one predicate.
pub fn answer_number(
    alloc: Global,
    words: Vec<NumberWord>,
    item: i64,
) -> Result<Option<Answers>, AllocError> {
    answer_six::<Level<NumberLeaf, i64>>(alloc, words, item)
}

// The only value of a stack that holds one.
fn only<T: Drop>(mut stack: Vec<T>) -> Option<T> {
    let last = stack.pop()?;
    if stack.is_empty() { Some(last) } else { None }
}

// Whether a leaf is true of a number; none where the word names no leaf.
fn leaf_truth(word: &NumberWord, item: i64) -> Option<bool> {
    Some(match word {
        NumberWord::Always => true,
        NumberWord::Never => false,
        NumberWord::Equal(c) => item == *c,
        NumberWord::Unequal(c) => item != *c,
        NumberWord::Less(c) => item < *c,
        NumberWord::AtMost(c) => item <= *c,
        NumberWord::AtLeast(c) => item >= *c,
        NumberWord::Greater(c) => item > *c,
        NumberWord::Called(c) => item >= *c,
        NumberWord::Listed(list) | NumberWord::Sorted(list) | NumberWord::Hashed(list) => {
            list.as_slice().contains(&item)
        }
        _ => return None,
    })
}

// The formula of a combinator over the last ones of the stack, of which the last is given; none
// where there are too few.
fn combine_last(
    alloc: Global,
    combinator: Combinator,
    stack: &mut Vec<ReferenceFormula>,
    last: ReferenceFormula,
) -> Result<Option<ReferenceFormula>, AllocError> {
    match combinator {
        Combinator::Not | Combinator::Named(_) => combined(alloc, combinator, last, None),
        _ => match stack.pop() {
            Some(left) => combined(alloc, combinator, left, Some(last)),
            None => Ok(None),
        },
    }
}

// The formula of a combinator over the last ones of the stack; none where there are too few, or
// where the word names no combinator.
fn combine(
    alloc: Global,
    word: &NumberWord,
    stack: &mut Vec<ReferenceFormula>,
) -> Result<Option<ReferenceFormula>, AllocError> {
    let Some(combinator) = word.combinator() else {
        return Ok(None);
    };
    match stack.pop() {
        Some(last) => combine_last(alloc, combinator, stack, last),
        None => Ok(None),
    }
}

// The formula of a word on a number, over the last ones of the stack.
fn formula_of_word(
    alloc: Global,
    word: &NumberWord,
    item: i64,
    stack: &mut Vec<ReferenceFormula>,
) -> Result<Option<ReferenceFormula>, AllocError> {
    match leaf_truth(word, item) {
        Some(truth) => Ok(Some(ReferenceFormula::Leaf(truth))),
        None => combine(alloc, word, stack),
    }
}

/// The formula that the words mean on a number; none where they are not one predicate.
pub fn number_formula(
    alloc: Global,
    words: &[NumberWord],
    item: i64,
) -> Result<Option<ReferenceFormula>, AllocError> {
    let mut stack: Vec<ReferenceFormula> = Vec::new(alloc);
    for word in words {
        let Some(made) = formula_of_word(alloc, word, item, &mut stack)? else {
            return Ok(None);
        };
        stack.push(made)?;
    }
    Ok(only(stack))
}
