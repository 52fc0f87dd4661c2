//! The words and operators of a rule.
ghost use Rattle.std.specs.Prelude.{IfOk, Some};
ghost use Rattle.vet_rules.specs.declared.fixed.Fixed.TheVariants as words;
ghost use Rattle.vet_rules.specs.Lexemes.{text_of};
ghost use Rattle.vet_rules.specs.Printing.{laid, quantifier_signs, threshold_signs, Lays};

use crate::condition::{Comparison, Relation, State, ValueKind};
use crate::expression::{Connective, HowMany};
use crate::fixed::{Fixed, text};
use crate::layout::{Written, fmt_token, fmt_tokens};
use std::fmt;

impl fmt::Display for Connective {
    ghost output = { λ c. Some (text_of (words.Join c)) };

    fn fmt<W: fmt::Write>(&self, f: &mut fmt::Formatter<W>) -> fmt::Result {
        f.write_str(text(Fixed::Join(*self)))
    }
}

/// Writes the number of parts or items that have to hold.
pub fn fmt_threshold<W: fmt::Write>(
    least: u64,
    at_once: bool,
    f: &mut fmt::Formatter<W>,
) -> Result<bool, fmt::Error>
    ensures { IfOk result (λ next. Lays W.write_str_gives f.old at_once (threshold_signs least)
        next f.new) }
{
    let words = [
        Written::Word(Fixed::At),
        Written::Word(Fixed::Least),
        Written::Number(least),
    ];
    fmt_tokens(&words, at_once, f)
}

/// Writes how many items have to meet an expression.
pub fn fmt_quantifier<W: fmt::Write>(
    quantifier: HowMany,
    at_once: bool,
    f: &mut fmt::Formatter<W>,
) -> Result<bool, fmt::Error>
    ensures { IfOk result (λ next. Lays W.write_str_gives f.old at_once
        (quantifier_signs quantifier) next f.new) }
{
    match quantifier {
        HowMany::Each => fmt_token(Written::Word(Fixed::Each), at_once, f),
        HowMany::Any => fmt_token(Written::Word(Fixed::Any), at_once, f),
        HowMany::AtLeast(least) => fmt_threshold(least, at_once, f),
    }
}

impl fmt::Display for HowMany {
    ghost output = { λ q. Some (laid (quantifier_signs q)) };

    fn fmt<W: fmt::Write>(&self, f: &mut fmt::Formatter<W>) -> fmt::Result {
        fmt_quantifier(*self, true, f)?;
        Ok(())
    }
}

impl fmt::Display for State {
    ghost output = { λ s. Some (text_of (words.State s)) };

    fn fmt<W: fmt::Write>(&self, f: &mut fmt::Formatter<W>) -> fmt::Result {
        f.write_str(text(Fixed::State(*self)))
    }
}

impl fmt::Display for Comparison {
    ghost output = { λ o. Some (text_of (words.Comparison o)) };

    fn fmt<W: fmt::Write>(&self, f: &mut fmt::Formatter<W>) -> fmt::Result {
        f.write_str(text(Fixed::Comparison(*self)))
    }
}

impl fmt::Display for Relation {
    ghost output = { λ r. Some (text_of (words.Relation r)) };

    fn fmt<W: fmt::Write>(&self, f: &mut fmt::Formatter<W>) -> fmt::Result {
        f.write_str(text(Fixed::Relation(*self)))
    }
}

impl fmt::Display for ValueKind {
    ghost output = { λ k. Some (text_of (words.ValueKind k)) };

    fn fmt<W: fmt::Write>(&self, f: &mut fmt::Formatter<W>) -> fmt::Result {
        f.write_str(text(Fixed::ValueKind(*self)))
    }
}
