//! The words, operators and marks of rules: the tokens whose text is always the same.

ghost use Rattle.std.specs.Prelude.{◌≡◌};
ghost use Rattle.std.specs.List.{find};
ghost use Rattle.std.specs.Str.{bytes_eq};
ghost use Rattle.vet_rules.specs.Lexemes.{text_of, fixed_at};

use crate::condition::{Comparison, Relation, State, ValueKind};
use crate::expression::Connective;

#[derive(Clone, Copy, Debug, PartialEq, Eq)]
pub enum Fixed {
    Join(Connective),
    Not,
    If,
    Then,
    Each,
    Any,
    At,
    Keys,
    Least,
    Of,
    Relation(Relation),
    In,
    State(State),
    Length,
    Is,
    /// Of which `null` is a literal too.
    ValueKind(ValueKind),
    Boolean(bool),
    Comparison(Comparison),
    Open,
    Close,
    OpenList,
    CloseList,
    Comma,
}

/// All of them.
pub const ALL: [Fixed; 42] = [
    Fixed::Join(Connective::Or),
    Fixed::Join(Connective::Xor),
    Fixed::Join(Connective::And),
    Fixed::Not,
    Fixed::If,
    Fixed::Then,
    Fixed::Each,
    Fixed::Any,
    Fixed::At,
    Fixed::Keys,
    Fixed::Least,
    Fixed::Of,
    Fixed::Relation(Relation::StartsWith),
    Fixed::Relation(Relation::EndsWith),
    Fixed::Relation(Relation::Contains),
    Fixed::Relation(Relation::Matches),
    Fixed::In,
    Fixed::State(State::Exists),
    Fixed::State(State::Missing),
    Fixed::State(State::IsEmpty),
    Fixed::Length,
    Fixed::Is,
    Fixed::ValueKind(ValueKind::Text),
    Fixed::ValueKind(ValueKind::Number),
    Fixed::ValueKind(ValueKind::Whole),
    Fixed::ValueKind(ValueKind::Boolean),
    Fixed::ValueKind(ValueKind::Array),
    Fixed::ValueKind(ValueKind::Object),
    Fixed::ValueKind(ValueKind::Null),
    Fixed::Boolean(true),
    Fixed::Boolean(false),
    Fixed::Comparison(Comparison::Equal),
    Fixed::Comparison(Comparison::Unequal),
    Fixed::Comparison(Comparison::Below),
    Fixed::Comparison(Comparison::AtMost),
    Fixed::Comparison(Comparison::Above),
    Fixed::Comparison(Comparison::AtLeast),
    Fixed::Open,
    Fixed::Close,
    Fixed::OpenList,
    Fixed::CloseList,
    Fixed::Comma,
];

/// How the token is written.
pub fn text(fixed: Fixed) -> &'static str
    ensures { result.now ≡ text_of fixed }
{
    match fixed {
        Fixed::Join(Connective::Or) => "or",
        Fixed::Join(Connective::Xor) => "xor",
        Fixed::Join(Connective::And) => "and",
        Fixed::Not => "not",
        Fixed::If => "if",
        Fixed::Then => "then",
        Fixed::Each => "each",
        Fixed::Any => "any",
        Fixed::At => "at",
        Fixed::Keys => "keys",
        Fixed::Least => "least",
        Fixed::Of => "of",
        Fixed::Relation(Relation::StartsWith) => "starts_with",
        Fixed::Relation(Relation::EndsWith) => "ends_with",
        Fixed::Relation(Relation::Contains) => "contains",
        Fixed::Relation(Relation::Matches) => "matches",
        Fixed::In => "in",
        Fixed::State(State::Exists) => "exists",
        Fixed::State(State::Missing) => "missing",
        Fixed::State(State::IsEmpty) => "is_empty",
        Fixed::Length => "length",
        Fixed::Is => "is",
        Fixed::ValueKind(ValueKind::Text) => "text",
        Fixed::ValueKind(ValueKind::Number) => "number",
        Fixed::ValueKind(ValueKind::Whole) => "whole",
        Fixed::ValueKind(ValueKind::Boolean) => "bool",
        Fixed::ValueKind(ValueKind::Array) => "array",
        Fixed::ValueKind(ValueKind::Object) => "object",
        Fixed::ValueKind(ValueKind::Null) => "null",
        Fixed::Boolean(true) => "true",
        Fixed::Boolean(false) => "false",
        Fixed::Comparison(Comparison::Equal) => "==",
        Fixed::Comparison(Comparison::Unequal) => "!=",
        Fixed::Comparison(Comparison::Below) => "<",
        Fixed::Comparison(Comparison::AtMost) => "<=",
        Fixed::Comparison(Comparison::Above) => ">",
        Fixed::Comparison(Comparison::AtLeast) => ">=",
        Fixed::Open => "(",
        Fixed::Close => ")",
        Fixed::OpenList => "[",
        Fixed::CloseList => "]",
        Fixed::Comma => ",",
    }
}

pub fn is_same(a: Fixed, b: Fixed) -> bool
    ensures { result ≡ bytes_eq (text_of a) (text_of b) }
{
    text(a) == text(b)
}

fn among(all: &[Fixed], word: &[u8]) -> Option<Fixed>
    ensures { result ≡ find (λ f. bytes_eq (text_of f) word.now) all.now }
{
    all.iter()
        .copied()
        .find(|fixed| text(*fixed).as_bytes() == word)
}

/// The token with this text.
#[tactic(auto, unfolding(crate::specs::Lexemes::fixed_at))]
pub fn fixed_of(word: &[u8]) -> Option<Fixed>
    ensures { result ≡ fixed_at word.now }
{
    among(&ALL, word)
}
