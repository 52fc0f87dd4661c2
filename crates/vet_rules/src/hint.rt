//! What was likely meant where a rule could not be read.

ghost use Rattle.std.specs.Prelude.{IfOk};
ghost use Rattle.vet_rules.specs.Faults.{IsHintOf};

use crate::error::{Expected, Reason};
use crate::fixed::{ALL, fixed_of, text};
use std::alloc::{AllocError, Global};
use std::fmt;
use std::str::from_utf8;
use strsim::levenshtein;

/// What was likely meant where a rule could not be read.
#[derive(Clone, Copy, Debug, PartialEq, Eq)]
pub enum Hint {
    /// This word or operator.
    Meant(&'static str),
    /// What to write, in a phrase.
    Advice(&'static str),
}

impl fmt::Display for Hint {
    ghost use Rattle.std.specs.Prelude.{Some};
    ghost use Rattle.vet_rules.specs.Messages.{hint_text};

    ghost output = { λ hint. Some (hint_text hint) };

    fn fmt<W: fmt::Write>(&self, f: &mut fmt::Formatter<W>) -> fmt::Result {
        match self {
            Hint::Meant(word) => write!(f, "did you mean `{word}`?"),
            Hint::Advice(text) => f.write_str(text),
        }
    }
}

const PATH: Hint = Hint::Advice("a path begins with `/`");

const TEXT: Hint = Hint::Advice("a text stands in double quotes");

const LENGTH: Hint = Hint::Advice("a length is asked as `PATH length > 1`");

const NOT_FIRST: Hint = Hint::Advice("`not` stands before the path");

const NO_IS: Hint = Hint::Advice("`is_empty` stands without `is`");

// What other languages write before a path, and what a rule writes.
const FIRST_WORDS: [(&str, Hint); 8] = [
    ("all", Hint::Meant("each")),
    ("every", Hint::Meant("each")),
    ("some", Hint::Meant("any")),
    ("none", Hint::Meant("not any")),
    ("count", LENGTH),
    ("size", LENGTH),
    ("len", LENGTH),
    (
        "exactly",
        Hint::Advice("exactly N is `at least N` and `not at least` one more"),
    ),
];

// What they write elsewhere.
const OTHER_WORDS: [(&str, Hint); 35] = [
    ("=", Hint::Meant("==")),
    ("===", Hint::Meant("==")),
    ("!==", Hint::Meant("!=")),
    ("<>", Hint::Meant("!=")),
    ("=<", Hint::Meant("<=")),
    ("=>", Hint::Meant(">=")),
    ("!", Hint::Meant("not")),
    ("eq", Hint::Meant("==")),
    ("equals", Hint::Meant("==")),
    ("ne", Hint::Meant("!=")),
    ("lt", Hint::Meant("<")),
    ("le", Hint::Meant("<=")),
    ("gt", Hint::Meant(">")),
    ("ge", Hint::Meant(">=")),
    ("all", Hint::Meant("each")),
    ("every", Hint::Meant("each")),
    ("some", Hint::Meant("any")),
    ("implies", Hint::Meant("if .. then")),
    ("when", Hint::Meant("if")),
    (
        "else",
        Hint::Advice("a second `if`, with `not` before A, stands for `else`"),
    ),
    ("empty", Hint::Meant("is_empty")),
    ("isnull", Hint::Meant("is null")),
    ("is_null", Hint::Meant("is null")),
    ("begins_with", Hint::Meant("starts_with")),
    ("like", Hint::Meant("matches")),
    (
        "between",
        Hint::Advice("a range is `PATH >= 1 and PATH <= 9`"),
    ),
    ("nil", Hint::Meant("null")),
    ("none", Hint::Meant("null")),
    ("len", Hint::Meant("length")),
    ("size", Hint::Meant("length")),
    ("count", Hint::Meant("length")),
    ("string", Hint::Meant("text")),
    ("integer", Hint::Meant("whole")),
    ("int", Hint::Meant("whole")),
    ("boolean", Hint::Meant("bool")),
];

fn hint_of(word: &str, words: &[(&str, Hint)]) -> Option<Hint> {
    for (other, hint) in words {
        if other.eq_ignore_ascii_case(word) {
            return Some(*hint);
        }
    }
    None
}

// Longer ones are misspelt from no word.
const LONGEST_WORD: usize = 16;

// The word of rules that is nearest, if at most a third of the letters differ.
fn nearest(alloc: Global, word: &str) -> Result<Option<&'static str>, AllocError> {
    if word.len() > LONGEST_WORD {
        return Ok(None);
    }
    let mut lower = String::from_str(alloc, word)?;
    lower.make_ascii_lowercase();
    let mut limit = lower.len() / 3 + 1;
    let mut found = None;
    for fixed in ALL {
        let known = text(fixed);
        let distance = levenshtein(alloc, &lower, known)?;
        if distance < limit {
            limit = distance;
            found = Some(known);
        }
    }
    Ok(found)
}

// What stands at a place by what is before it.
#[derive(Clone, Copy)]
enum Place {
    Expression,
    Literal,
    Unknown,
}

fn last_word(text: &[u8]) -> &[u8] {
    match text
        .rsplit(|b| !b.is_ascii_alphanumeric() && *b != b'_')
        .next()
    {
        Some(word) => word,
        None => text,
    }
}

fn place_behind(before: &[u8]) -> Place {
    let before = before.trim_ascii_end();
    match before.last() {
        Some(b':' | b'(') => return Place::Expression,
        Some(b'=' | b'<' | b'>' | b'[') => return Place::Literal,
        _ => {}
    }
    match last_word(before) {
        b"not" | b"and" | b"or" | b"xor" | b"each" | b"any" | b"keys" => Place::Expression,
        b"if" | b"then" => Place::Expression,
        b"starts_with" | b"ends_with" | b"contains" | b"matches" => Place::Literal,
        _ => Place::Unknown,
    }
}

// Whether an operator is next.
fn is_compared(after: &[u8]) -> bool {
    match after.trim_ascii_start() {
        [b'=' | b'!' | b'<' | b'>', ..] => true,
        _ => false,
    }
}

// Whether an operator and a path are next.
fn precedes_path(after: &[u8]) -> bool {
    let rest = match after.trim_ascii_start() {
        [b'=' | b'!' | b'<' | b'>', b'=', rest @ ..] => rest,
        [b'<' | b'>', rest @ ..] => rest,
        _ => return false,
    };
    rest.trim_ascii_start().starts_with(b"/")
}

// Of a word that other languages have, or that only another place has.
fn foreign_word(before: &[u8], word: &str, after: &[u8]) -> Option<Hint> {
    match (last_word(before.trim_ascii_end()), word) {
        (b"at", "most") => return Some(Hint::Advice("at most N is `not at least` one more")),
        (b"is", "empty") => return Some(NO_IS),
        _ => {}
    }
    match place_behind(before) {
        Place::Expression if is_compared(after) => None,
        Place::Expression => hint_of(word, &FIRST_WORDS).or(hint_of(word, &OTHER_WORDS)),
        _ => hint_of(word, &OTHER_WORDS),
    }
}

// Of a word that is none of the words of rules.
fn unknown_word(
    alloc: Global,
    before: &[u8],
    word: &str,
    after: &[u8],
) -> Result<Option<Hint>, AllocError> {
    if is_compared(after) {
        return Ok(Some(PATH));
    }
    if let Some(meant) = nearest(alloc, word)? {
        return Ok(Some(Hint::Meant(meant)));
    }
    Ok(match place_behind(before) {
        Place::Expression if word.contains('.') && !word.starts_with('$') => {
            Some(Hint::Advice("keys stand behind `/`, as in `/a/b`"))
        }
        Place::Expression => Some(PATH),
        Place::Literal => Some(TEXT),
        Place::Unknown => None,
    })
}

// Of a word of rules that stands where none can.
fn known_word(expected: Expected, word: &str, after: &[u8]) -> Option<Hint> {
    match (expected, word) {
        (Expected::Expression | Expected::Whole, _) if is_compared(after) => Some(PATH),
        (Expected::Expression, "if") => Some(Hint::Advice("`if` needs parentheses here")),
        (Expected::Condition, "keys") => Some(Hint::Advice("`keys` stands before the path")),
        (Expected::Condition | Expected::Kind, "not") => Some(NOT_FIRST),
        (Expected::Condition, "null") => Some(Hint::Meant("is null")),
        (Expected::Kind, "is_empty") => Some(NO_IS),
        _ => None,
    }
}

// Of a literal or a mark that stands where none can.
fn misplaced(expected: Expected, first: char, after: &[u8]) -> Option<Hint> {
    match (expected, first) {
        (Expected::Condition, '[') => Some(Hint::Advice("an item is named as in `/list/0`")),
        (Expected::List, '(') => Some(Hint::Advice("a list stands in brackets, as in `[1, 2]`")),
        (Expected::Count, '"') => Some(Hint::Advice("a number stands without quotes")),
        (Expected::Text, '0'..='9' | '-') => Some(TEXT),
        (Expected::Expression | Expected::Whole, '"') if !precedes_path(after) => Some(PATH),
        (Expected::Expression | Expected::Whole, '0'..='9' | '-' | '"') => {
            Some(Hint::Advice("the path stands before the operator"))
        }
        _ => None,
    }
}

fn is_name(word: &str) -> bool {
    match word.chars().next() {
        Some(c) => c.is_alphanumeric(),
        None => false,
    }
}

// Of the front of a line, or of a text.
fn outside(expected: Expected, word: &str) -> Option<Hint> {
    match expected {
        Expected::Name if word.starts_with('{') || word.starts_with('[') => {
            Some(Hint::Advice("this is a record: the rules come first"))
        }
        Expected::Colon if word == ":" => Some(Hint::Advice("no space stands before `:`")),
        Expected::Colon if is_name(word) => {
            Some(Hint::Advice("a name of two words stands in double quotes"))
        }
        Expected::Escapes if word.contains('\\') => {
            Some(Hint::Advice("a backslash is written twice"))
        }
        _ => None,
    }
}

// Of a word in an expression.
fn word_hint(
    alloc: Global,
    expected: Expected,
    before: &[u8],
    word: &str,
    after: &[u8],
) -> Result<Option<Hint>, AllocError> {
    if fixed_of(word.as_bytes()).is_some() {
        return Ok(known_word(expected, word, after));
    }
    if let Some(hint) = foreign_word(before, word, after) {
        return Ok(Some(hint));
    }
    unknown_word(alloc, before, word, after)
}

// Of what stands where something else was expected.
fn expected_hint(
    alloc: Global,
    expected: Expected,
    before: &[u8],
    found: &[u8],
    after: &[u8],
) -> Result<Option<Hint>, AllocError> {
    let Ok(word) = from_utf8(found) else {
        return Ok(None);
    };
    match expected {
        Expected::Name | Expected::Colon | Expected::Escapes => return Ok(outside(expected, word)),
        Expected::Utf8 | Expected::Number | Expected::Quote => return Ok(None),
        _ => {}
    }
    match word.chars().next() {
        Some('=') if after.starts_with(b"~") => Ok(Some(Hint::Meant("matches"))),
        Some('=' | '!' | '<' | '>') => Ok(hint_of(word, &OTHER_WORDS)),
        Some('^') => Ok(Some(PATH)),
        Some('&') => Ok(Some(Hint::Meant("and"))),
        Some('|') => Ok(Some(Hint::Meant("or"))),
        Some('*') => Ok(Some(Hint::Advice("`each PATH (..)` asks all items"))),
        Some('\'' | '\u{2018}' | '\u{201c}') => Ok(Some(TEXT)),
        Some(c) if c.is_alphabetic() || c == '_' || c == '$' => {
            word_hint(alloc, expected, before, word, after)
        }
        Some(c) => Ok(misplaced(expected, c, after)),
        None => Ok(None),
    }
}

/// What `found` was likely meant as, between what is before it on its line and what is after it;
/// nothing where the reason tells what to change.
pub(crate) fn hint_at(
    alloc: Global,
    reason: Reason,
    before: &[u8],
    found: &[u8],
    after: &[u8],
) -> Result<Option<Hint>, AllocError>
    ensures { IfOk result (IsHintOf reason) }
{
    match reason {
        Reason::Expected(expected) => expected_hint(alloc, expected, before, found, after),
        Reason::TooDeep | Reason::Repeated(_) => Ok(None),
    }
}
