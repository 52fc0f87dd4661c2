//! Why rules could not be read.
ghost use Rattle.std.specs.Prelude.{Some};
ghost use Rattle.vet_rules.specs.Messages.{expected_text, reason_text, error_text};

use crate::expression::MAX_DEPTH;
use crate::fault::Fault;
use std::error::Error;
use std::fmt;

/// What could have stood at a place.
#[derive(Clone, Copy, Debug, PartialEq, Eq)]
pub enum Expected {
    /// The name of a rule, which may be a text in quotes, not empty, with no control character and
    /// no no-break space.
    Name,
    /// The colon behind a rule's name.
    Colon,
    /// A path, `not`, `each`, `any`, `at`, `keys` or a parenthesis.
    Expression,
    /// One of these, or `if`.
    Whole,
    Path,
    /// An operator, or a word such as `exists`.
    Condition,
    Literal,
    /// What a value is compared with: a literal, or the path of another value.
    Operand,
    /// One of the six operators that compare.
    Comparison,
    /// The word for the kind of a value.
    Kind,
    /// A text, as what is before it takes nothing else.
    Text,
    /// The word `in` behind `keys` and its path.
    In,
    /// The bracket that opens a list.
    List,
    /// A comma, or the bracket that closes a list.
    ListGoesOn,
    /// The word `least` behind `at`.
    Least,
    /// The number behind `at least`, or that a length is compared with.
    Count,
    /// What is counted: `of` before expressions, or the path of a list.
    Counted,
    /// A comma, the parenthesis that closes, or `or`, `xor` or `and`.
    PartsGoOn,
    Open,
    /// The parenthesis that closes, or `or`, `xor` or `and`.
    Close,
    /// The word `then` behind `if`, or `or`, `xor` or `and`.
    Then,
    /// The end of the line, or `or`, `xor` or `and`.
    End,
    /// A word, an operator, a path or a literal.
    Token,
    /// A number as JSON writes it, with no zero in front, which is not too large for a 64-bit
    /// float.
    Number,
    /// A text with JSON's escapes alone.
    Escapes,
    /// The quote that closes a text.
    Quote,
    /// UTF-8 with no control character and no no-break space.
    Utf8,
}

impl fmt::Display for Expected {
    ghost output = { λ expected. Some (expected_text expected) };

    fn fmt<W: fmt::Write>(&self, f: &mut fmt::Formatter<W>) -> fmt::Result {
        let text = match self {
            Expected::Name => "the name of a rule",
            Expected::Colon => "`:` behind the name of a rule",
            Expected::Expression => "a path, `not`, `each`, `any`, `at`, `keys` or `(`",
            Expected::Whole => "a path, `not`, `each`, `any`, `at`, `keys`, `if` or `(`",
            Expected::Path => "a path",
            Expected::Condition => "an operator, `exists`, `missing`, `is_empty`, `length` or `is`",
            Expected::Literal => "a literal",
            Expected::Operand => "a literal or a path",
            Expected::Comparison => "`==`, `!=`, `<`, `<=`, `>` or `>=`",
            Expected::Kind => "`text`, `number`, `whole`, `bool`, `array`, `object` or `null`",
            Expected::Text => "a text in quotes",
            Expected::In => "`in`",
            Expected::List => "`[`",
            Expected::ListGoesOn => "`,` or `]`",
            Expected::Least => "`least`",
            Expected::Count => "a whole number from 0 to 2^64 - 1",
            Expected::Counted => "`of` or a path",
            Expected::PartsGoOn => "`,`, `)`, `or`, `xor` or `and`",
            Expected::Open => "`(`",
            Expected::Close => "`)`, `or`, `xor` or `and`",
            Expected::Then => "`then`, `or`, `xor` or `and`",
            Expected::End => "the end of the line, `or`, `xor` or `and`",
            Expected::Token => "a word, an operator, a path or a literal",
            Expected::Number => "a number as JSON writes it, in the range of a 64-bit float",
            Expected::Escapes => "a text as JSON writes it",
            Expected::Quote => "the quote that ends the text",
            Expected::Utf8 => "text in UTF-8 without no-break spaces",
        };
        f.write_str(text)
    }
}

/// Why a rule was not read.
#[derive(Clone, Copy, Debug, PartialEq, Eq)]
pub enum Reason {
    Expected(Expected),
    /// It nests deeper than `MAX_DEPTH`.
    TooDeep,
    /// Its name is that of the rule on this line, counted from 1.
    Repeated(usize),
}

impl fmt::Display for Reason {
    ghost output = { λ reason. Some (reason_text reason) };

    fn fmt<W: fmt::Write>(&self, f: &mut fmt::Formatter<W>) -> fmt::Result {
        match self {
            Reason::Expected(expected) => write!(f, "expected {expected}"),
            Reason::TooDeep => write!(f, "nested more than {MAX_DEPTH} deep"),
            Reason::Repeated(line) => write!(f, "the name stands on line {line} already"),
        }
    }
}

/// Why rules were not read.
#[derive(Debug, Drop)]
pub enum RulesError {
    NoMemory,
    /// The first fault of the text.
    Unreadable(Fault),
}

impl fmt::Display for RulesError {
    ghost output = { λ error. Some (error_text error) };

    fn fmt<W: fmt::Write>(&self, f: &mut fmt::Formatter<W>) -> fmt::Result {
        match self {
            RulesError::NoMemory => f.write_str("no memory"),
            RulesError::Unreadable(fault) => write!(f, "{fault}"),
        }
    }
}

impl Error for RulesError {}
