//! The kinds of items that predicates are asked about.
use crate::cells::{bytes, text};
use anyhow::{Context, Result, bail};
use std::alloc::Global;
use tests_support::{
    Answers, ReferenceFormula, TextWord, answer_bytes, answer_list, answer_number, answer_text,
    bytes_formula, list_formula, number_formula, read_number_words, read_numbers, read_text_words,
    text_formula,
};

/// What a predicate answers on an item, and the formula that it has there.
pub type Asked = Result<(Answers, ReferenceFormula)>;

/// A kind of items.
pub trait Items {
    /// What the predicate of the words answers on the item.
    fn ask(&self, alloc: Global, predicate: &str, item: &str) -> Asked;
}

const NO_FORMULA: &str = "no formula";

const NO_PREDICATE: &str = "no predicate, or too deep";

// Both, where both are there.
fn asked(answers: Option<Answers>, formula: Option<ReferenceFormula>) -> Asked {
    match (answers, formula) {
        (Some(answers), Some(formula)) => Ok((answers, formula)),
        (None, _) => bail!(NO_PREDICATE),
        (_, None) => bail!(NO_FORMULA),
    }
}

/// Whole numbers in decimal.
pub struct Numbers;

impl Items for Numbers {
    fn ask(&self, alloc: Global, predicate: &str, item: &str) -> Asked {
        let words = read_number_words(alloc, predicate)?.context("an unknown word")?;
        let item = item.parse::<i64>().context("no number")?;
        let formula = number_formula(alloc, words.as_slice(), item)?;
        asked(answer_number(alloc, words, item)?, formula)
    }
}

/// Lists of whole numbers, with commas between them.
pub struct Lists;

impl Items for Lists {
    fn ask(&self, alloc: Global, predicate: &str, item: &str) -> Asked {
        let words = read_number_words(alloc, predicate)?.context("an unknown word")?;
        let list = read_numbers(alloc, item)?.context("no list of numbers")?;
        let formula = list_formula(alloc, words.as_slice(), list.as_slice())?;
        asked(answer_list(alloc, words, &list)?, formula)
    }
}

fn words(alloc: Global, predicate: &str) -> Result<Vec<TextWord>> {
    read_text_words(alloc, predicate)?.context("an unknown word")
}

/// Texts.
pub struct Texts;

impl Items for Texts {
    fn ask(&self, alloc: Global, predicate: &str, item: &str) -> Asked {
        let item = text(alloc, item)?;
        let answers = answer_text(alloc, words(alloc, predicate)?, &item)?;
        let formula = text_formula(alloc, words(alloc, predicate)?, item.as_str())?;
        asked(answers, formula)
    }
}

/// Bytes as hexadecimal digits.
pub struct Bytes;

impl Items for Bytes {
    fn ask(&self, alloc: Global, predicate: &str, item: &str) -> Asked {
        let item = bytes(alloc, item)?;
        let answers = answer_bytes(alloc, words(alloc, predicate)?, &item)?;
        let formula = bytes_formula(alloc, words(alloc, predicate)?, item.as_slice())?;
        asked(answers, formula)
    }
}
