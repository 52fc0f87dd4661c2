//! What a test says, as a rule says it.
ghost use Rattle.std.specs.Prelude.{IfOk, Some, map};
ghost use Rattle.vet_rules.specs.Conditions.{condition_of};
ghost use Rattle.vet_rules.specs.Printing.{row_signs, among_signs, subject_signs};
ghost use Rattle.vet_rules.specs.Printing.{condition_signs, laid, Lays};

use crate::condition::Condition;
use crate::element::Element;
use crate::fixed::Fixed;
use crate::layout::{Written, fmt_front, fmt_token, fmt_tokens, path};
use std::fmt;

// The elements with commas between them.
fn fmt_row<T: Element, W: fmt::Write>(
    elements: &[T],
    at_once: bool,
    f: &mut fmt::Formatter<W>,
) -> Result<bool, fmt::Error>
    ensures { IfOk result (λ next. Lays W.write_str_gives f.old at_once
        (row_signs (map T.sign (map T.value elements.now))) next f.new) }
{
    let mut next = at_once;
    for (index, element) in elements.iter().enumerate() {
        next = fmt_front(Fixed::Comma, index, next, f)?;
        next = fmt_token(element.token(), next, f)?;
    }
    Ok(next)
}

// `in`, and the elements in brackets.
fn fmt_among<T: Element, W: fmt::Write>(
    elements: &[T],
    at_once: bool,
    f: &mut fmt::Formatter<W>,
) -> Result<bool, fmt::Error>
    ensures { IfOk result (λ next. Lays W.write_str_gives f.old at_once
        (among_signs (map T.sign (map T.value elements.now))) next f.new) }
{
    let opening = [Written::Word(Fixed::In), Written::Word(Fixed::OpenList)];
    let next = fmt_tokens(&opening, at_once, f)?;
    let next = fmt_row(elements, next, f)?;
    fmt_token(Written::Word(Fixed::CloseList), next, f)
}

/// Writes the path of a test, and what stands before it.
pub fn fmt_subject<W: fmt::Write>(
    subject: &str,
    condition: &Condition,
    at_once: bool,
    f: &mut fmt::Formatter<W>,
) -> Result<bool, fmt::Error>
    ensures { IfOk result (λ next. Lays W.write_str_gives f.old at_once
        (subject_signs subject.now (condition_of condition.now)) next f.new) }
{
    match condition {
        Condition::KeysIn(_) => {
            let keys = Written::Word(Fixed::Keys);
            fmt_tokens(&[keys, path(subject)], at_once, f)
        }
        _ => fmt_token(path(subject), at_once, f),
    }
}

/// Writes what is said of the value.
pub fn fmt_condition<W: fmt::Write>(
    condition: &Condition,
    at_once: bool,
    f: &mut fmt::Formatter<W>,
) -> Result<bool, fmt::Error>
    ensures { IfOk result (λ next. Lays W.write_str_gives f.old at_once
        (condition_signs (condition_of condition.now)) next f.new) }
{
    match condition {
        Condition::Is(state) => fmt_token(Written::Word(Fixed::State(*state)), at_once, f),
        Condition::Compare(comparison, literal) => {
            let operator = Written::Word(Fixed::Comparison(*comparison));
            fmt_tokens(&[operator, Written::Value(literal)], at_once, f)
        }
        Condition::CompareWith(comparison, path) => {
            let operator = Written::Word(Fixed::Comparison(*comparison));
            fmt_tokens(&[operator, Written::Path(path)], at_once, f)
        }
        Condition::Length(comparison, number) => {
            let operator = Written::Word(Fixed::Comparison(*comparison));
            let length = Written::Word(Fixed::Length);
            fmt_tokens(&[length, operator, Written::Number(*number)], at_once, f)
        }
        Condition::IsOf(kind) => {
            let kind = Written::Word(Fixed::ValueKind(*kind));
            fmt_tokens(&[Written::Word(Fixed::Is), kind], at_once, f)
        }
        Condition::Relate(relation, text) => {
            let operator = Written::Word(Fixed::Relation(*relation));
            fmt_tokens(&[operator, Written::Text(text)], at_once, f)
        }
        Condition::In(literals) => fmt_among(literals, at_once, f),
        Condition::KeysIn(texts) => fmt_among(texts, at_once, f),
    }
}

/// As a rule says it behind the path; `keys` stands before the path.
impl fmt::Display for Condition {
    ghost output = { λ condition. Some (laid (condition_signs (condition_of condition))) };

    fn fmt<W: fmt::Write>(&self, f: &mut fmt::Formatter<W>) -> fmt::Result {
        fmt_condition(self, true, f)?;
        Ok(())
    }
}
