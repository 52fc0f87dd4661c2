//! Expressions as a rule writes them.
ghost use Rattle.std.specs.Prelude.{◌≡◌, ◌++◌, ◌∷◌, [], IfOk, Some, if◌then◌else◌, map};
ghost use Rattle.vet_rules.specs.Conditions.{condition_of};
ghost use Rattle.vet_rules.specs.Trees.{Test, Not, Quantified, Joined, AtLeast, tree_of};
ghost use Rattle.vet_rules.specs.Trees.{trees_of};
ghost use Rattle.vet_rules.specs.Signs.{Word};
ghost use Rattle.vet_rules.specs.Grammar.{Single, part_level, separator_word};
ghost use Rattle.vet_rules.specs.Levels.{level_of};
ghost use Rattle.vet_rules.specs.Printing.{fits, stands_at, takes_if, in_parentheses};
ghost use Rattle.vet_rules.specs.Printing.{signs_at, part_signs, front_signs, printed, Lays};

use crate::condition::Condition;
use crate::display::condition::{fmt_condition, fmt_subject};
use crate::display::words::{fmt_quantifier, fmt_threshold};
use crate::expression::{Connective, Expression, HowMany};
use crate::fixed::Fixed;
use crate::layout::{Written, fmt_front, fmt_token, fmt_tokens, path};
use crate::parser::{Grip, Separator, next_tighter, separator_word};
use std::fmt;

// Whether a connective holds its parts together tightly enough.
fn is_loose(grip: Grip, connective: Connective) -> bool
    ensures { result ≡ fits (level_of grip) connective }
{
    match grip {
        Grip::By(Connective::Or) => true,
        Grip::By(Connective::Xor) => connective != Connective::Or,
        Grip::By(Connective::And) => connective == Connective::And,
        Grip::Single | Grip::Premise => false,
        Grip::Whole => true,
    }
}

// Whether parts that a connective joins need no parentheses.
fn are_loose(parts: &[Expression], connective: Connective, grip: Grip) -> bool
    ensures { result ≡ stands_at (level_of grip) connective (trees_of (map tree_of parts.now)) }
{
    match parts {
        [] => false,
        [_, ..] => is_loose(grip, connective),
    }
}

fn grip_of_part(separator: Separator) -> Grip
    ensures { level_of result ≡ part_level separator }
{
    match separator {
        Separator::Connective(connective) => next_tighter(connective),
        Separator::Comma => Grip::Whole,
    }
}

// `if`, behind a parenthesis where an implication needs them.
fn fmt_opening<W: fmt::Write>(
    grip: Grip,
    at_once: bool,
    f: &mut fmt::Formatter<W>,
) -> Result<bool, fmt::Error>
    ensures { IfOk result (λ next. Lays W.write_str_gives f.old at_once (if takes_if (level_of grip)
        then Word Fixed.If ∷ [] else Word Fixed.Open ∷ Word Fixed.If ∷ []) next f.new) }
{
    match grip {
        Grip::Whole => fmt_token(Written::Word(Fixed::If), at_once, f),
        _ => {
            let opening = [Written::Word(Fixed::Open), Written::Word(Fixed::If)];
            fmt_tokens(&opening, at_once, f)
        }
    }
}

// The parenthesis behind it.
fn fmt_closing<W: fmt::Write>(
    grip: Grip,
    at_once: bool,
    f: &mut fmt::Formatter<W>,
) -> Result<bool, fmt::Error>
    ensures { IfOk result (λ next. Lays W.write_str_gives f.old at_once
        (if takes_if (level_of grip) then [] else Word Fixed.Close ∷ []) next f.new) }
{
    match grip {
        Grip::Whole => fmt_tokens(&[], at_once, f),
        _ => fmt_token(Written::Word(Fixed::Close), at_once, f),
    }
}

fn fmt_test<W: fmt::Write>(
    path: &str,
    condition: &Condition,
    at_once: bool,
    f: &mut fmt::Formatter<W>,
) -> Result<bool, fmt::Error>
    ensures { IfOk result (λ next. Lays W.write_str_gives f.old at_once
        (signs_at Single (Test path.now (condition_of condition.now))) next f.new) }
{
    let next = fmt_subject(path, condition, at_once, f)?;
    fmt_condition(condition, next, f)
}

// The expression, where it holds together as tightly as that.
#[cycle(printing)]
fn fmt_at<W: fmt::Write>(
    expression: &Expression,
    grip: Grip,
    at_once: bool,
    f: &mut fmt::Formatter<W>,
) -> Result<bool, fmt::Error>
    ensures { IfOk result (λ next. Lays W.write_str_gives f.old at_once
        (signs_at (level_of grip) (tree_of expression.now)) next f.new) }
{
    match expression {
        Expression::Test(path, condition) => fmt_test(path, condition, at_once, f),
        Expression::Not(inner) => fmt_not(inner, at_once, f),
        Expression::Implies(premise, conclusion) => {
            let next = fmt_opening(grip, at_once, f)?;
            let next = fmt_at(premise, Grip::Whole, next, f)?;
            let next = fmt_token(Written::Word(Fixed::Then), next, f)?;
            let next = fmt_at(conclusion, Grip::Whole, next, f)?;
            fmt_closing(grip, next, f)
        }
        Expression::Quantified(quantifier, path, inner) => {
            fmt_quantified(inner, *quantifier, path, at_once, f)
        }
        Expression::Joined(connective, parts) => fmt_joined(parts, *connective, grip, at_once, f),
        Expression::AtLeast(least, parts) => fmt_counted(parts, *least, at_once, f),
    }
}

/// Writes what denies the expression.
#[cycle(printing)]
pub fn fmt_not<W: fmt::Write>(
    inner: &Expression,
    at_once: bool,
    f: &mut fmt::Formatter<W>,
) -> Result<bool, fmt::Error>
    ensures { IfOk result (λ next. Lays W.write_str_gives f.old at_once
        (signs_at Single (Not (tree_of inner.now))) next f.new) }
{
    let next = fmt_token(Written::Word(Fixed::Not), at_once, f)?;
    fmt_at(inner, Grip::Single, next, f)
}

#[cycle(printing)]
fn fmt_quantified<W: fmt::Write>(
    inner: &Expression,
    quantifier: HowMany,
    list: &str,
    at_once: bool,
    f: &mut fmt::Formatter<W>,
) -> Result<bool, fmt::Error>
    ensures { IfOk result (λ next. Lays W.write_str_gives f.old at_once
        (signs_at Single (Quantified quantifier list.now (tree_of inner.now))) next f.new) }
{
    let next = fmt_quantifier(quantifier, at_once, f)?;
    let next = fmt_tokens(&[path(list), Written::Word(Fixed::Open)], next, f)?;
    let next = fmt_at(inner, Grip::Whole, next, f)?;
    fmt_token(Written::Word(Fixed::Close), next, f)
}

#[cycle(printing)]
fn fmt_joined<W: fmt::Write>(
    parts: &[Expression],
    connective: Connective,
    grip: Grip,
    at_once: bool,
    f: &mut fmt::Formatter<W>,
) -> Result<bool, fmt::Error>
    ensures { IfOk result (λ next. Lays W.write_str_gives f.old at_once
        (signs_at (level_of grip) (Joined connective (trees_of (map tree_of parts.now)))) next
        f.new) }
{
    if are_loose(parts, connective, grip) {
        fmt_row(parts, Separator::Connective(connective), at_once, f)
    } else {
        fmt_group(parts, Separator::Connective(connective), at_once, f)
    }
}

#[cycle(printing)]
fn fmt_counted<W: fmt::Write>(
    parts: &[Expression],
    least: u64,
    at_once: bool,
    f: &mut fmt::Formatter<W>,
) -> Result<bool, fmt::Error>
    ensures { IfOk result (λ next. Lays W.write_str_gives f.old at_once
        (signs_at Single (AtLeast least (trees_of (map tree_of parts.now)))) next f.new) }
{
    let next = fmt_threshold(least, at_once, f)?;
    let next = fmt_token(Written::Word(Fixed::Of), next, f)?;
    fmt_group(parts, Separator::Comma, next, f)
}

// The parts in parentheses.
#[cycle(printing)]
fn fmt_group<W: fmt::Write>(
    parts: &[Expression],
    separator: Separator,
    at_once: bool,
    f: &mut fmt::Formatter<W>,
) -> Result<bool, fmt::Error>
    ensures { IfOk result (λ next. Lays W.write_str_gives f.old at_once
        (in_parentheses (part_signs separator (trees_of (map tree_of parts.now)))) next f.new) }
{
    let next = fmt_token(Written::Word(Fixed::Open), at_once, f)?;
    let next = fmt_row(parts, separator, next, f)?;
    fmt_token(Written::Word(Fixed::Close), next, f)
}

// The parts with separators between them.
#[cycle(printing)]
fn fmt_row<W: fmt::Write>(
    parts: &[Expression],
    separator: Separator,
    at_once: bool,
    f: &mut fmt::Formatter<W>,
) -> Result<bool, fmt::Error>
    ensures { IfOk result (λ next. Lays W.write_str_gives f.old at_once
        (part_signs separator (trees_of (map tree_of parts.now))) next f.new) }
{
    let mut next = at_once;
    for (index, part) in parts.iter().enumerate() {
        next = fmt_part(part, index, separator, next, f)?;
    }
    Ok(next)
}

// A part of a row, behind a separator where it is not the first.
#[cycle(printing)]
fn fmt_part<W: fmt::Write>(
    part: &Expression,
    index: usize,
    separator: Separator,
    at_once: bool,
    f: &mut fmt::Formatter<W>,
) -> Result<bool, fmt::Error>
    ensures { IfOk result (λ next. Lays W.write_str_gives f.old at_once
        (front_signs (separator_word separator) index
        ++ signs_at (part_level separator) (tree_of part.now)) next f.new) }
{
    let next = fmt_front(separator_word(separator), index, at_once, f)?;
    fmt_at(part, grip_of_part(separator), next, f)
}

/// As a rule writes it, with no more parentheses than it needs. Takes a stack frame or a few for
/// each level, and no memory.
impl fmt::Display for Expression {
    ghost output = { λ expression. Some (printed (tree_of expression)) };

    fn fmt<W: fmt::Write>(&self, f: &mut fmt::Formatter<W>) -> fmt::Result {
        fmt_at(self, Grip::Whole, true, f)?;
        Ok(())
    }
}
