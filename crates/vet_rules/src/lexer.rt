//! Takes an expression's text apart into tokens.

ghost use Rattle.std.specs.Prelude.{◌≡◌, ℕ, ◌+◌, ◌≤◌, List, map, option_map, length, IfOk, IfErr};
ghost use Rattle.std.specs.Prelude.{IfSome, MatchOption, Ok, Some, None, string_bytes, [], false};
ghost use Rattle.std.specs.Prelude.{not, ◌&&◌, ◌==◌, true, if◌then◌else◌};
ghost use Rattle.std.specs.List.{list_all, list_any, prefix_len};
ghost use Rattle.std.specs.Str.{chars};
ghost use Rattle.serde_json.specs.View.{view, number_view};
ghost use Rattle.vet_rules.specs.Literals.{literal_of};
ghost use Rattle.vet_rules.specs.Signs.{Sign, sign_of};
ghost use Rattle.vet_rules.specs.Lexemes.{class_of, continues, is_control, is_hidden};
ghost use Rattle.vet_rules.specs.Lexemes.{is_masked, is_path, is_quoted, is_shown, is_title};
ghost use Rattle.vet_rules.specs.Lexemes.{is_space, is_over, text_end, token_len, cut};
ghost use Rattle.vet_rules.specs.Lexemes.{pointer, IsLexed};
ghost use Rattle.vet_rules.specs.Scanning.{number_in, literal_in, literal_from, front_class};
ghost use Rattle.vet_rules.specs.Scanning.{path_or, sign_in, token_at, after_space, placed};
ghost use Rattle.vet_rules.specs.Heading.{title_or};
ghost use Rattle.vet_rules.specs.Printing.{is_bare};
ghost use Rattle.vet_rules.specs.Answers.{Gives, IsStop, stop_at};
ghost use Rattle.vet_rules.specs.Faults.{NoToken, told_class, told_len};

use crate::error::{Expected, Reason};
use crate::fixed::fixed_of;
use crate::literal::Literal;
use crate::stop::{ReadError, Stop};
use crate::token::{Kind, Token};
use serde_json::{Number, Value};
use std::alloc::{AllocError, Global};
use std::str::from_utf8;

/// Bytes that belong together: tokens by their first byte, spaces, and the name of a rule.
#[derive(Clone, Copy, Debug, PartialEq, Eq)]
pub enum Class {
    Letter,
    Digit,
    Symbol,
    Mark,
    Slash,
    Quote,
    Space,
    Name,
    Other,
}

fn class_at(b: u8) -> Class
    ensures { result ≡ class_of b }
{
    match b {
        b'a'..=b'z' | b'A'..=b'Z' | b'_' => Class::Letter,
        b'0'..=b'9' | b'-' => Class::Digit,
        b'=' | b'!' | b'<' | b'>' => Class::Symbol,
        b'(' | b')' | b',' | b'[' | b']' => Class::Mark,
        b'/' | b'^' => Class::Slash,
        b'"' => Class::Quote,
        _ => Class::Other,
    }
}

fn is_blank(b: u8) -> bool
    ensures { result ≡ is_space b }
{
    b == b' ' || b == b'\t' || b == b'\r'
}

fn is_control(b: u8) -> bool
    ensures { result ≡ is_control b }
{
    b < b' ' || b == 127
}

fn belongs(class: Class, b: u8) -> bool
    ensures { result ≡ continues class b }
{
    match class {
        Class::Letter => b.is_ascii_alphanumeric() || b == b'_',
        Class::Digit => {
            b.is_ascii_alphanumeric() || b == b'_' || b == b'+' || b == b'-' || b == b'.'
        }
        Class::Symbol => b'<' <= b && b <= b'>' || b == b'!',
        Class::Slash => match class_at(b) {
            Class::Mark | Class::Symbol => false,
            _ => !(is_blank(b) || b == b'#' || is_control(b)),
        },
        Class::Space => is_blank(b),
        Class::Name => b.is_ascii_alphanumeric() || b == b'_' || b == b'-' || b == b'.' || 128 <= b,
        Class::Mark | Class::Quote | Class::Other => false,
    }
}

/// How many bytes at the front of a text belong together.
pub fn run_len(class: Class, text: &[u8]) -> usize
    ensures value { result ≡ prefix_len (continues class) text.now }
    ensures within { result ≤ length text.now }
{
    for (i, b) in text.iter().enumerate() {
        if !belongs(class, *b) {
            return i;
        }
    }
    text.len()
}

fn closes(escaped: bool, b: u8) -> bool
    ensures { result ≡ (not escaped && b == 34) }
{
    !escaped && b == b'"'
}

fn escapes(escaped: bool, b: u8) -> bool
    ensures { result ≡ (not escaped && b == 92) }
{
    !escaped && b == b'\\'
}

// How many bytes there are up to the quote that closes a text, with that quote.
fn quoted_len(text: &[u8]) -> Option<usize>
    ensures value { result ≡ text_end false text.now }
    ensures within { IfSome result (λ n. n ≤ length text.now) }
{
    let mut escaped = false;
    for (i, b) in text.iter().enumerate() {
        if closes(escaped, *b) {
            return Some(i + 1);
        }
        escaped = escapes(escaped, *b);
    }
    None
}

// How many bytes the token at the front takes.
fn front_len(text: &[u8]) -> Option<usize>
    ensures value { result ≡ token_len text.now }
    ensures within { IfSome result (λ n. n ≤ length text.now) }
{
    let [first, rest @ ..] = text else {
        return Some(0);
    };
    match class_at(*first) {
        Class::Quote => {
            let len = quoted_len(rest)?;
            Some(len + 1)
        }
        class => Some(run_len(class, rest) + 1),
    }
}

// What a fault tells together: a name for a word, and for what begins no token all up to a space
// or a mark.
fn told_class(class: Class) -> Class
    ensures { result ≡ told_class class }
{
    match class {
        Class::Letter => Class::Name,
        Class::Other => Class::Slash,
        class => class,
    }
}

/// How many bytes at the front a fault tells.
pub fn told_len(text: &[u8]) -> usize
    ensures value { result ≡ told_len text.now }
    ensures within { result ≤ length text.now }
{
    let [first, rest @ ..] = text else {
        return 0;
    };
    match told_class(class_at(*first)) {
        Class::Quote => quoted_len(rest).unwrap_or(rest.len()) + 1,
        class => run_len(class, rest) + 1,
    }
}

// The token at the front, and what is behind it.
#[tactic(auto, unfolding(crate::specs::Lexemes::cut))]
fn front(text: &[u8]) -> Option<(&[u8], &[u8])>
    ensures { option_map (λ x. (x.0.now, x.1.now)) result ≡ cut text.now }
{
    let len = front_len(text)?;
    Some(text.split_at(len))
}

fn number_of(alloc: Global, text: &str, number: Number) -> Result<Literal, AllocError>
    ensures { IfOk result (λ v. literal_of v ≡ number_in text.now (number_view number)) }
{
    if let Some(n) = number.as_u64() {
        return Ok(Literal::Natural(n));
    }
    if let Some(n) = number.as_i64() {
        return Ok(Literal::Negative(n));
    }
    Ok(Literal::Decimal {
        text: String::from_str(alloc, text)?,
        value: number.as_f64().unwrap_or(0.0),
    })
}

// The literal that a value is, which was read from this text.
fn literal_of(alloc: Global, text: &str, value: Value) -> Result<Option<Literal>, AllocError>
    ensures { IfOk result (λ o. option_map literal_of o ≡ literal_in text.now (view value)) }
{
    Ok(match value {
        Value::Null => Some(Literal::Null),
        Value::Bool(b) => Some(Literal::Boolean(b)),
        Value::Number(n) => Some(number_of(alloc, text, n)?),
        Value::String(text) => Some(Literal::Text(text)),
        Value::Array(_) => None,
        Value::Object(_) => None,
    })
}

// The literal that JSON reads.
#[tactic(auto, unfolding(crate::specs::Scanning::literal_from))]
fn literal(alloc: Global, word: &[u8]) -> Result<Option<Literal>, ReadError>
    ensures { Gives (option_map literal_of) result (Ok (literal_from word.now)) }
{
    let Ok(text) = from_utf8(word) else {
        return Ok(None);
    };
    match Value::from_str(alloc, text) {
        Ok(value) => Ok(literal_of(alloc, text, value)?),
        Err(error) => {
            if error.is_memory() {
                Err(ReadError::Memory)
            } else {
                Ok(None)
            }
        }
    }
}

/// Something else stands where this many bytes are left.
pub fn stop(expected: Expected, left: usize) -> ReadError
    ensures { result ≡ ReadError.Stopped (stop_at expected left) }
{
    ReadError::Stopped(Stop {
        reason: Reason::Expected(expected),
        left,
    })
}

// The pointer that a path is written as.
fn pointer_of(alloc: Global, path: &str) -> Result<String, AllocError>
    ensures { IfOk result (λ p. string_bytes p ≡ pointer path.now) }
{
    match path.as_bytes() {
        [_] => Ok(String::new(alloc)),
        [b'^', b'/'] => String::from_str(alloc, "^"),
        _ => String::from_str(alloc, path),
    }
}

fn is_hidden(c: char) -> bool
    ensures { result ≡ is_hidden c }
{
    match c {
        '\u{80}'..='\u{a0}' | '\u{2007}' | '\u{202f}' | '\u{2060}' | '\u{feff}' => true,
        _ => false,
    }
}

fn hides(text: &str) -> bool
    ensures { result ≡ list_any is_hidden (chars text.now) }
{
    text.chars().any(|c| is_hidden(c))
}

/// The text that bytes are, if it has no no-break space and no control character beyond ASCII.
#[tactic(auto, unfolding(crate::specs::Lexemes::is_shown))]
pub fn shown(bytes: &[u8]) -> Option<&str>
    ensures cases { MatchOption result (is_shown bytes.now ≡ false)
        (λ text. (text.now ≡ bytes.now) × (is_shown bytes.now ≡ true)) }
{
    match from_utf8(bytes) {
        Ok(text) => { if hides(text) { None } else { Some(text) } }
        Err(_) => None,
    }
}

fn is_masked(c: char) -> bool
    ensures { result ≡ is_masked c }
{
    is_hidden(c) || c < ' ' || c == '\u{7f}'
}

fn masks(text: &str) -> bool
    ensures { result ≡ list_any is_masked (chars text.now) }
{
    text.chars().any(|c| is_masked(c))
}

#[tactic(auto, unfolding(crate::specs::Lexemes::is_title))]
fn is_title(text: &str) -> bool
    ensures { result ≡ is_title text.now }
{
    !text.is_empty() && !masks(text)
}

/// The name that a text in quotes is, where the token stands with this many bytes from it on.
pub fn title_of(left: usize, kind: Kind) -> Result<String, ReadError>
    ensures { Gives string_bytes result (title_or left (sign_of kind)) }
{
    match kind {
        Kind::Literal(Literal::Text(name)) => {
            if is_title(&name) {
                Ok(name)
            } else {
                Err(stop(Expected::Name, left))
            }
        }
        _ => Err(stop(Expected::Name, left)),
    }
}

/// Whether a text in quotes is at the front.
pub fn is_quoted(text: &[u8]) -> bool
    ensures { result ≡ is_quoted text.now }
{
    match text {
        [] => false,
        [first, ..] => *first == b'"',
    }
}

/// Whether it begins with `/`, or with `^/`.
pub fn is_path(word: &[u8]) -> bool
    ensures { result ≡ is_path word.now }
{
    match word {
        [b'/', ..] => true,
        [b'^', b'/', ..] => true,
        _ => false,
    }
}

/// The pointer that a text in quotes is, if it is a path.
pub fn quoted_path(alloc: Global, text: &str) -> Result<Option<String>, AllocError>
    ensures { IfOk result (λ p. option_map string_bytes p
        ≡ (if is_path text.now then Some (pointer text.now) else None)) }
{
    if is_path(text.as_bytes()) {
        Ok(Some(pointer_of(alloc, text)?))
    } else {
        Ok(None)
    }
}

fn shows(bytes: &[u8]) -> bool
    ensures { result ≡ is_shown bytes.now }
{
    match shown(bytes) {
        Some(_) => true,
        None => false,
    }
}

fn goes_on(bytes: &[u8]) -> bool
    ensures { result ≡ list_all (continues Class.Slash) bytes.now }
{
    bytes.iter().all(|b| belongs(Class::Slash, *b))
}

/// Whether a path is a token as it stands.
#[tactic(auto, unfolding(crate::specs::Printing::is_bare))]
pub fn is_bare(path: &str) -> bool
    ensures { result ≡ is_bare path.now }
{
    goes_on(path.as_bytes()) && shows(path.as_bytes())
}

fn path_token(alloc: Global, left: usize, word: &[u8]) -> Result<Kind, ReadError>
    ensures { Gives sign_of result (path_or left word.now (is_path word.now) (is_shown word.now)) }
{
    if !is_path(word) {
        return Err(stop(Expected::Token, left));
    }
    let Some(path) = shown(word) else {
        return Err(stop(Expected::Utf8, left));
    };
    Ok(Kind::Path(pointer_of(alloc, path)?))
}

// The token that is written so, with this many bytes from it on.
#[tactic(auto, unfolding(crate::specs::Scanning::sign_in))]
fn token_of(alloc: Global, class: Class, left: usize, word: &[u8]) -> Result<Kind, ReadError>
    ensures { Gives sign_of result (sign_in class left word.now) }
{
    match class {
        Class::Letter | Class::Symbol | Class::Mark => match fixed_of(word) {
            Some(fixed) => Ok(Kind::Word(fixed)),
            None => Err(stop(Expected::Token, left)),
        },
        Class::Digit => match literal(alloc, word)? {
            Some(literal) => Ok(Kind::Literal(literal)),
            None => Err(stop(Expected::Number, left)),
        },
        Class::Quote => match literal(alloc, word)? {
            Some(literal) => Ok(Kind::Literal(literal)),
            None => Err(stop(Expected::Escapes, left)),
        },
        Class::Slash => path_token(alloc, left, word),
        Class::Space | Class::Name | Class::Other => Err(stop(Expected::Token, left)),
    }
}

fn first_class(word: &[u8]) -> Class
    ensures { result ≡ front_class word.now }
{
    match word {
        [] => Class::Other,
        [first, ..] => class_at(*first),
    }
}

/// The token at the front, and what is behind it.
#[tactic(auto, unfolding(crate::specs::Scanning::token_at))]
pub fn token(alloc: Global, text: &[u8]) -> Result<(Kind, &[u8]), ReadError>
    ensures { Gives (λ x. (sign_of x.0, x.1.now)) result (token_at text.now) }
{
    match front(text) {
        Some((word, rest)) => {
            let kind = token_of(alloc, first_class(word), text.len(), word)?;
            Ok((kind, rest))
        }
        None => Err(stop(Expected::Quote, text.len())),
    }
}

/// Whether nothing follows but a comment.
pub fn is_at_end(text: &[u8]) -> bool
    ensures { result ≡ is_over text.now }
{
    match text {
        [] => true,
        [first, ..] => *first == b'#',
    }
}

// What is behind a space at the front.
fn behind_space(text: &[u8]) -> Option<&[u8]>
    ensures { option_map (λ x. x.now) result ≡ after_space text.now }
{
    let [first, rest @ ..] = text else {
        return None;
    };
    is_blank(*first).then_some(rest)
}

/// Takes a text apart into tokens.
pub fn lex(alloc: Global, text: &[u8]) -> Result<Vec<Token>, ReadError>
    // What is taken apart is spaces and these tokens.
    ensures found { IfOk result (λ ts. IsLexed text.now (map placed ts.items)) }
    // What is spaces and tokens is taken apart so, unless memory runs out.
    ensures only { (ts : List (Sign × ℕ)) → IsLexed text.now ts
        → Gives (λ v. map placed v.items) result (Ok ts) }
    // Where it stops, and why.
    ensures fault { IfErr result (IsStop (NoToken text.now)) }
{
    let mut tokens = Vec::new(alloc);
    let mut left = text;
    while !is_at_end(left) {
        match behind_space(left) {
            Some(rest) => {
                left = rest;
            }
            None => {
                let (kind, rest) = token(alloc, left)?;
                tokens.push(Token {
                    kind,
                    left: left.len(),
                })?;
                left = rest;
            }
        }
    }
    tokens.push(Token {
        kind: Kind::End,
        left: left.len(),
    })?;
    Ok(tokens)
}
