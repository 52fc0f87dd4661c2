//! Predicates over texts and bytes as postfix words: operands first, the left one of two first.
use crate::escapes::unescape;
use crate::from_words::{Combinator, Word};
use crate::words::read_name;
use predicates_core::static_text::StaticText;
use std::alloc::{AllocError, Global};

/// One word for a predicate over texts or bytes.
#[derive(Drop)]
pub enum TextWord {
    Always,
    Never,
    Empty,
    Equal(String),
    Unequal(String),
    Less(String),
    AtMost(String),
    AtLeast(String),
    Greater(String),
    Starts(String),
    Ends(String),
    Contains(String),
    /// The pattern that is contained, and how often.
    Counted(String, usize),
    Trim,
    Normalize,
    FromUtf8,
    Named(StaticText),
    Not,
    And,
    Or,
    Xor,
}

impl Word for TextWord {
    fn combinator(&self) -> Option<Combinator> {
        Some(match self {
            TextWord::Not => Combinator::Not,
            TextWord::Named(name) => Combinator::Named(StaticText::new(name.as_str())),
            TextWord::And => Combinator::And,
            TextWord::Or => Combinator::Or,
            TextWord::Xor => Combinator::Xor,
            _ => return None,
        })
    }
}

fn bare_word(word: &str) -> Option<TextWord> {
    Some(match word {
        "always" => TextWord::Always,
        "never" => TextWord::Never,
        "empty" => TextWord::Empty,
        "trim" => TextWord::Trim,
        "normalize" => TextWord::Normalize,
        "from_utf8" => TextWord::FromUtf8,
        "not" => TextWord::Not,
        "and" => TextWord::And,
        "or" => TextWord::Or,
        "xor" => TextWord::Xor,
        _ => return None,
    })
}

fn word_with_text(name: &str, text: String) -> Option<TextWord> {
    Some(match name {
        "eq" => TextWord::Equal(text),
        "ne" => TextWord::Unequal(text),
        "lt" => TextWord::Less(text),
        "le" => TextWord::AtMost(text),
        "ge" => TextWord::AtLeast(text),
        "gt" => TextWord::Greater(text),
        "starts" => TextWord::Starts(text),
        "ends" => TextWord::Ends(text),
        "contains" => TextWord::Contains(text),
        _ => return None,
    })
}

// The counted word that a number makes of the word before it.
fn counted_word(before: Option<TextWord>, count: &str) -> Option<TextWord> {
    match (before, count.parse::<usize>()) {
        (Some(TextWord::Contains(pattern)), Ok(count)) => Some(TextWord::Counted(pattern, count)),
        _ => None,
    }
}

fn named_word(name: Option<StaticText>) -> Option<TextWord> {
    Some(TextWord::Named(name?))
}

fn word_of_text(name: &str, text: Option<String>) -> Option<TextWord> {
    match text {
        Some(text) => word_with_text(name, text),
        None => None,
    }
}

fn read_text_word(alloc: Global, word: &str) -> Result<Option<TextWord>, AllocError> {
    let Some((name, value)) = word.split_once('=') else {
        return Ok(bare_word(word));
    };
    if name == "name" {
        Ok(named_word(read_name(alloc, value)?))
    } else {
        Ok(word_of_text(name, unescape(alloc, value)?))
    }
}

// Adds the word that was read, if it was.
fn add_read(words: &mut Vec<TextWord>, read: Option<TextWord>) -> Result<bool, AllocError> {
    match read {
        Some(read) => {
            words.push(read)?;
            Ok(true)
        }
        None => Ok(false),
    }
}

// Adds a word; false where it is unknown.
fn add_word(alloc: Global, words: &mut Vec<TextWord>, word: &str) -> Result<bool, AllocError> {
    match word.strip_prefix("count=") {
        Some(count) => {
            let counted = counted_word(words.pop(), count);
            add_read(words, counted)
        }
        None => add_read(words, read_text_word(alloc, word)?),
    }
}

/// The words of a line that spaces part; none where one of them is unknown.
pub fn read_text_words(alloc: Global, line: &str) -> Result<Option<Vec<TextWord>>, AllocError> {
    let mut words: Vec<TextWord> = Vec::new(alloc);
    for word in line.split(' ') {
        if !add_word(alloc, &mut words, word)? {
            return Ok(None);
        }
    }
    Ok(Some(words))
}
