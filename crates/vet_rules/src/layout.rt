//! Tokens as a rule lays them out.
ghost use Rattle.std.specs.Prelude.{◌≡◌, ◌||◌, ◌∷◌, [], IfOk, Some, if◌then◌else◌, map};
ghost use Rattle.std.specs.Fmt.{DisplaysOnOk};
ghost use Rattle.vet_rules.specs.Printing.{opens, closes, is_bare, path_sign, path_text};
ghost use Rattle.vet_rules.specs.Printing.{word_of, written_sign, front_signs, Lays};

use crate::display::literal::fmt_text;
use crate::fixed::{Fixed, text};
use crate::lexer::is_bare;
use crate::literal::Literal;
use std::fmt;

/// A token to be written.
#[derive(Clone, Copy, Drop)]
pub enum Written<'a> {
    Word(Fixed),
    Path(&'a str),
    Text(&'a str),
    Number(u64),
    Value(&'a Literal),
}

/// A path, in quotes where it needs them.
pub fn path(path: &str) -> Written<'_>
    ensures { written_sign result ≡ path_sign path.now }
{
    if is_bare(path) {
        Written::Path(path)
    } else {
        Written::Text(path)
    }
}

// `/` for the empty path, and `^/` for `^`.
fn path_shown(path: &str) -> &str
    ensures { result.now ≡ path_text path.now }
{
    match path.as_bytes() {
        [] => "/",
        [b'^'] => "^/",
        _ => path,
    }
}

impl fmt::Display for Written<'_> {
    ghost output = { λ token. Some (word_of (written_sign token)) };

    fn fmt<W: fmt::Write>(&self, f: &mut fmt::Formatter<W>) -> fmt::Result {
        match self {
            Written::Word(word) => f.write_str(text(*word)),
            Written::Path(path) => f.write_str(path_shown(path)),
            Written::Text(text) => fmt_text(text, f),
            Written::Number(number) => write!(f, "{number}"),
            Written::Value(literal) => write!(f, "{literal}"),
        }
    }
}

fn opens(token: Written) -> bool
    ensures { result ≡ opens (written_sign token.entry) }
{
    match token {
        Written::Word(Fixed::Open | Fixed::OpenList) => true,
        _ => false,
    }
}

fn closes(token: Written) -> bool
    ensures { result ≡ closes (written_sign token.entry) }
{
    match token {
        Written::Word(Fixed::Close | Fixed::CloseList | Fixed::Comma) => true,
        _ => false,
    }
}

fn fmt_gap<W: fmt::Write>(token: Written, at_once: bool, f: &mut fmt::Formatter<W>) -> fmt::Result
    ensures { DisplaysOnOk W.write_str_gives f.old result
        (Some (if at_once || closes (written_sign token.entry) then [] else 32 ∷ [])) f.new }
{
    if at_once || closes(token) {
        Ok(())
    } else {
        f.write_str(" ")
    }
}

/// Writes a token, at once or behind a space; whether the next one follows at once.
pub fn fmt_token<W: fmt::Write>(
    token: Written,
    at_once: bool,
    f: &mut fmt::Formatter<W>,
) -> Result<bool, fmt::Error>
    ensures { IfOk result (λ next. Lays W.write_str_gives f.old at_once
        (written_sign token.entry ∷ []) next f.new) }
{
    fmt_gap(token, at_once, f)?;
    write!(f, "{token}")?;
    Ok(opens(token))
}

/// Writes tokens.
pub fn fmt_tokens<W: fmt::Write>(
    tokens: &[Written],
    at_once: bool,
    f: &mut fmt::Formatter<W>,
) -> Result<bool, fmt::Error>
    ensures { IfOk result (λ next. Lays W.write_str_gives f.old at_once
        (map written_sign tokens.now) next f.new) }
{
    let mut next = at_once;
    for token in tokens {
        next = fmt_token(*token, next, f)?;
    }
    Ok(next)
}

/// Writes the word before a part of a row, behind so many others.
pub fn fmt_front<W: fmt::Write>(
    word: Fixed,
    index: usize,
    at_once: bool,
    f: &mut fmt::Formatter<W>,
) -> Result<bool, fmt::Error>
    ensures { IfOk result (λ next. Lays W.write_str_gives f.old at_once (front_signs word index)
        next f.new) }
{
    if index == 0 {
        return Ok(at_once);
    }
    fmt_token(Written::Word(word), at_once, f)
}
