//! The formulas that words mean on texts and bytes.
use crate::from_words::Word;
use crate::helpers::characters;
use crate::reference::{ReferenceFormula, combined};
use crate::text_words::TextWord;
use std::alloc::{AllocError, Global};

// An item, as the predicates above `from_utf8` see it, or as those below it do.
#[derive(Drop)]
enum SeenItem {
    Text(String),
    Bytes(Vec<u8>),
}

// How deep the words may be nested.
const ROOM: u32 = 100;

// How many places of the pattern are there where they are taken from the left, and none overlap.
fn count_places(alloc: Global, pattern: &str, text: &str) -> Result<usize, AllocError> {
    let pattern = characters(alloc, pattern)?;
    let text = characters(alloc, text)?;
    let mut count = 0_usize;
    let mut free = 0_usize;
    for place in 0..text.len().saturating_add(1) {
        let stands = match text.as_slice().get(place..) {
            Some(rest) => rest.starts_with(pattern.as_slice()),
            None => false,
        };
        if stands && place >= free {
            count = count.saturating_add(1);
            free = place.saturating_add(pattern.len());
        }
    }
    Ok(count)
}

// The text in which a carriage return, with the line feed behind it or alone, is a line feed.
fn even(alloc: Global, text: &str) -> Result<String, AllocError> {
    let mut even = String::new(alloc);
    let mut is_after_return = false;
    for character in text.chars() {
        if character == '\r' {
            even.push('\n')?;
        } else if character != '\n' || !is_after_return {
            even.push(character)?;
        }
        is_after_return = character == '\r';
    }
    Ok(even)
}

// Whether a leaf is true of a text; none where the word names no leaf.
fn leaf_truth(alloc: Global, word: &TextWord, item: &str) -> Result<Option<bool>, AllocError> {
    Ok(Some(match word {
        TextWord::Always => true,
        TextWord::Never => false,
        TextWord::Empty => item.is_empty(),
        TextWord::Equal(c) => item == c.as_str(),
        TextWord::Unequal(c) => item != c.as_str(),
        TextWord::Less(c) => item < c.as_str(),
        TextWord::AtMost(c) => item <= c.as_str(),
        TextWord::AtLeast(c) => item >= c.as_str(),
        TextWord::Greater(c) => item > c.as_str(),
        TextWord::Starts(pattern) => item.starts_with(pattern.as_str()),
        TextWord::Ends(pattern) => item.ends_with(pattern.as_str()),
        TextWord::Contains(pattern) => count_places(alloc, pattern.as_str(), item)? > 0,
        TextWord::Counted(pattern, count) => {
            count_places(alloc, pattern.as_str(), item)? == *count
        }
        _ => return Ok(None),
    }))
}

// How many parts a word takes.
fn part_count(word: &TextWord) -> u8 {
    match word {
        TextWord::And | TextWord::Or | TextWord::Xor => 2,
        TextWord::Not | TextWord::Named(_) => 1,
        TextWord::Trim | TextWord::Normalize | TextWord::FromUtf8 => 1,
        _ => 0,
    }
}

// The text as the parts see it.
fn seen_as(text: Result<String, AllocError>) -> Result<Option<SeenItem>, AllocError> {
    Ok(Some(SeenItem::Text(text?)))
}

// What the parts of a word over a text see; none where it is one over bytes.
fn seen_of_text(
    alloc: Global,
    word: &TextWord,
    text: &str,
) -> Result<Option<SeenItem>, AllocError> {
    match word {
        TextWord::Trim => seen_as(String::from_str(alloc, text.trim())),
        TextWord::Normalize => seen_as(even(alloc, text)),
        TextWord::FromUtf8 => Ok(None),
        _ => seen_as(String::from_str(alloc, text)),
    }
}

// What the parts of a word over bytes see; none where it is one over a text.
fn seen_of_bytes(
    alloc: Global,
    word: &TextWord,
    bytes: &[u8],
) -> Result<Option<SeenItem>, AllocError> {
    match word {
        TextWord::FromUtf8 => {
            seen_as(String::from_str(alloc, str::from_utf8(bytes).unwrap_or("")))
        }
        TextWord::Trim | TextWord::Normalize => Ok(None),
        _ => Ok(Some(SeenItem::Bytes(Vec::from_slice(alloc, bytes)?))),
    }
}

// The item that the word's parts see, which for bytes that are no text is empty; none where the
// word is not one of such items.
fn seen_by_parts(
    alloc: Global,
    word: &TextWord,
    item: &SeenItem,
) -> Result<Option<SeenItem>, AllocError> {
    match item {
        SeenItem::Text(text) => seen_of_text(alloc, word, text.as_str()),
        SeenItem::Bytes(bytes) => seen_of_bytes(alloc, word, bytes.as_slice()),
    }
}

fn is_no_text(item: &SeenItem) -> bool {
    match item {
        SeenItem::Text(_) => false,
        SeenItem::Bytes(bytes) => str::from_utf8(bytes.as_slice()).is_err(),
    }
}

// The formula of a word over one part or two; none where they are not as many.
fn formula_over(
    alloc: Global,
    word: &TextWord,
    item: &SeenItem,
    first: ReferenceFormula,
    second: Option<ReferenceFormula>,
) -> Result<Option<ReferenceFormula>, AllocError> {
    match word.combinator() {
        Some(combinator) => combined(alloc, combinator, first, second),
        None if is_no_text(item) => Ok(Some(ReferenceFormula::Leaf(false))),
        None => Ok(Some(first)),
    }
}

// The formula of a leaf; none where the word names none over such items.
fn leaf_formula(
    alloc: Global,
    word: &TextWord,
    item: &SeenItem,
) -> Result<Option<ReferenceFormula>, AllocError> {
    let SeenItem::Text(text) = item else {
        return Ok(None);
    };
    match leaf_truth(alloc, word, text.as_str())? {
        Some(truth) => Ok(Some(ReferenceFormula::Leaf(truth))),
        None => Ok(None),
    }
}

// The formula of the word over those of its parts; none where they are not as many.
fn combine(
    alloc: Global,
    word: &TextWord,
    item: &SeenItem,
    first: Option<ReferenceFormula>,
    second: Option<ReferenceFormula>,
) -> Result<Option<ReferenceFormula>, AllocError> {
    match first {
        Some(first) => formula_over(alloc, word, item, first, second),
        None => leaf_formula(alloc, word, item),
    }
}

// The formula of the predicate at the words' end on the item. It takes the words.
fn formula_of_words(
    alloc: Global,
    room: u32,
    words: &mut Vec<TextWord>,
    item: &SeenItem,
) -> Result<Option<ReferenceFormula>, AllocError> {
    if room == 0 {
        return Ok(None);
    }
    let Some(word) = words.pop() else {
        return Ok(None);
    };
    let Some(seen) = seen_by_parts(alloc, &word, item)? else {
        return Ok(None);
    };
    let mut parts: Vec<ReferenceFormula> = Vec::new(alloc);
    for _ in 0..part_count(&word) {
        let Some(part) = formula_of_words(alloc, room - 1, words, &seen)? else {
            return Ok(None);
        };
        parts.push(part)?;
    }
    // The right one of two parts is read before the left one.
    let first = parts.pop();
    combine(alloc, &word, item, first, parts.pop())
}

fn formula_on(
    alloc: Global,
    mut words: Vec<TextWord>,
    item: &SeenItem,
) -> Result<Option<ReferenceFormula>, AllocError> {
    let formula = formula_of_words(alloc, ROOM, &mut words, item)?;
    Ok(if words.is_empty() { formula } else { None })
}

/// The formula that the words mean on a text; none where they are not one predicate of texts.
pub fn text_formula(
    alloc: Global,
    words: Vec<TextWord>,
    item: &str,
) -> Result<Option<ReferenceFormula>, AllocError> {
    formula_on(
        alloc,
        words,
        &SeenItem::Text(String::from_str(alloc, item)?),
    )
}

/// The formula that the words mean on bytes; none where they are not one predicate of bytes.
pub fn bytes_formula(
    alloc: Global,
    words: Vec<TextWord>,
    item: &[u8],
) -> Result<Option<ReferenceFormula>, AllocError> {
    formula_on(
        alloc,
        words,
        &SeenItem::Bytes(Vec::from_slice(alloc, item)?),
    )
}
