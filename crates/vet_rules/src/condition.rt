//! What a test says of the value at its path.

use crate::literal::Literal;

/// What is said of a value alone.
#[derive(Clone, Copy, Debug, PartialEq, Eq)]
pub enum State {
    Exists,
    Missing,
    IsEmpty,
}

/// How a value compares with a literal.
#[derive(Clone, Copy, Debug, PartialEq, Eq)]
pub enum Comparison {
    Equal,
    Unequal,
    Below,
    AtMost,
    Above,
    AtLeast,
}

/// How a text relates to another one.
#[derive(Clone, Copy, Debug, PartialEq, Eq)]
pub enum Relation {
    StartsWith,
    EndsWith,
    Contains,
    /// The other text is a pattern, which is not looked into when a rule is read.
    Matches,
}

/// What kind of JSON a value is.
#[derive(Clone, Copy, Debug, PartialEq, Eq)]
pub enum ValueKind {
    Text,
    /// Any number.
    Number,
    /// A number that JSON reads as a whole one of 64 bits: from -2^63 to 2^64 - 1, with no point
    /// and no exponent, and not `-0`.
    Whole,
    Boolean,
    Array,
    Object,
    Null,
}

/// What a test says of a value.
#[derive(Debug, Drop)]
pub enum Condition {
    Is(State),
    Compare(Comparison, Literal),
    /// How it compares with the value at another path, which begins where the first one does or,
    /// behind `^`, at the record.
    CompareWith(Comparison, String),
    /// How its length compares with a number: a text has characters, an array items, an object
    /// members.
    Length(Comparison, u64),
    IsOf(ValueKind),
    Relate(Relation, String),
    /// It is one of these, of which there may be none.
    In(Vec<Literal>),
    /// It is an object, and each of its keys is one of these, of which there may be none. A rule
    /// writes `keys` before the path: `keys /a in ["b", "c"]`.
    KeysIn(Vec<String>),
}
