//! Predicates over numbers, and over lists of them, as postfix words: operands first, the left one
//! of two first.
use crate::escapes::unescape;
use predicates_core::static_text::StaticText;
use std::alloc::{AllocError, Global};

/// One word for a predicate over numbers or over lists of numbers.
#[derive(Drop)]
pub enum NumberWord {
    Always,
    Never,
    Equal(i64),
    Unequal(i64),
    Less(i64),
    AtMost(i64),
    AtLeast(i64),
    Greater(i64),
    /// The function that answers whether the item is at least the number.
    Called(i64),
    Listed(Vec<i64>),
    Sorted(Vec<i64>),
    Hashed(Vec<i64>),
    /// Of a list: the predicate before it holds of each member.
    Each,
    /// Of a list: the predicate before it holds of a member.
    Any,
    Named(StaticText),
    Not,
    And,
    Or,
    Xor,
}

fn bare_word(word: &str) -> Option<NumberWord> {
    Some(match word {
        "always" => NumberWord::Always,
        "never" => NumberWord::Never,
        "each" => NumberWord::Each,
        "any" => NumberWord::Any,
        "not" => NumberWord::Not,
        "and" => NumberWord::And,
        "or" => NumberWord::Or,
        "xor" => NumberWord::Xor,
        _ => return None,
    })
}

fn compared_word(name: &str, constant: i64) -> Option<NumberWord> {
    Some(match name {
        "eq" => NumberWord::Equal(constant),
        "ne" => NumberWord::Unequal(constant),
        "lt" => NumberWord::Less(constant),
        "le" => NumberWord::AtMost(constant),
        "ge" => NumberWord::AtLeast(constant),
        "gt" => NumberWord::Greater(constant),
        "at_least" => NumberWord::Called(constant),
        _ => return None,
    })
}

/// The numbers of a list with commas between them, which is a point where there are none.
pub fn read_numbers(alloc: Global, list: &str) -> Result<Option<Vec<i64>>, AllocError> {
    let mut numbers = Vec::new(alloc);
    if list != "." {
        for number in list.split(',') {
            let Ok(number) = number.parse::<i64>() else {
                return Ok(None);
            };
            numbers.push(number)?;
        }
    }
    Ok(Some(numbers))
}

// The names that are given. A name is there for good, so it can't be made of what was read.
const NAMES: [&str; 12] = [
    "",
    "a b",
    "any",
    "has a",
    "high",
    "low",
    "n",
    "name",
    "non-empty",
    "none",
    "small",
    "top",
];

/// The name that is written; none where it is not given.
pub fn read_name(alloc: Global, written: &str) -> Result<Option<StaticText>, AllocError> {
    let Some(read) = unescape(alloc, written)? else {
        return Ok(None);
    };
    for name in NAMES {
        if name == read.as_str() {
            return Ok(Some(StaticText::new(name)));
        }
    }
    Ok(None)
}

fn named_word(name: Option<StaticText>) -> Option<NumberWord> {
    Some(NumberWord::Named(name?))
}

fn list_word(name: &str, list: Option<Vec<i64>>) -> Option<NumberWord> {
    let list = list?;
    Some(match name {
        "in_iter" => NumberWord::Listed(list),
        "sorted" => NumberWord::Sorted(list),
        _ => NumberWord::Hashed(list),
    })
}

fn number_word(name: &str, value: &str) -> Option<NumberWord> {
    match value.parse::<i64>() {
        Ok(constant) => compared_word(name, constant),
        Err(_) => None,
    }
}

fn read_number_word(alloc: Global, word: &str) -> Result<Option<NumberWord>, AllocError> {
    let Some((name, value)) = word.split_once('=') else {
        return Ok(bare_word(word));
    };
    match name {
        "name" => Ok(named_word(read_name(alloc, value)?)),
        "in_iter" | "sorted" | "in_hash" => Ok(list_word(name, read_numbers(alloc, value)?)),
        _ => Ok(number_word(name, value)),
    }
}

// Adds a word; false where it is unknown.
fn add_word(alloc: Global, words: &mut Vec<NumberWord>, word: &str) -> Result<bool, AllocError> {
    match read_number_word(alloc, word)? {
        Some(word) => {
            words.push(word)?;
            Ok(true)
        }
        None => Ok(false),
    }
}

/// The words of a line that spaces part; none where one of them is unknown.
pub fn read_number_words(alloc: Global, line: &str) -> Result<Option<Vec<NumberWord>>, AllocError> {
    let mut words = Vec::new(alloc);
    for word in line.split(' ') {
        if !add_word(alloc, &mut words, word)? {
            return Ok(None);
        }
    }
    Ok(Some(words))
}
