//! Reads an expression from its tokens.

ghost use Rattle.std.specs.Prelude.{◌≡◌, ℕ, suc, List, Option, map, option_map, string_bytes, is_some};
ghost use Rattle.std.specs.Prelude.{IfOk, IfErr, Ok, length};
ghost use Rattle.vet_rules.specs.Signs.{Sign, sign_of, signs};
ghost use Rattle.vet_rules.specs.Conditions.{condition_of};
ghost use Rattle.vet_rules.specs.Trees.{Tree, tree_of};
ghost use Rattle.vet_rules.specs.Grammar.{tighter, separator_word, path_in, Whole};
ghost use Rattle.vet_rules.specs.Grammar.{IsSpelled};
ghost use Rattle.vet_rules.specs.Levels.{level_of};
ghost use Rattle.vet_rules.specs.Answers.{Gives, IsSyntax, stop_at};
ghost use Rattle.vet_rules.specs.Reading.{is_word, next_word, after, one_at, count_at};
ghost use Rattle.vet_rules.specs.Reading.{comparison_at, kind_at, parts_at, row_at, items_at};
ghost use Rattle.vet_rules.specs.Reading.{list_at, other_path_at, compared_at, length_at};
ghost use Rattle.vet_rules.specs.Reading.{said_by, condition_at, test_at, keys_at, group};
ghost use Rattle.vet_rules.specs.Reading.{quantified, listed, counted, threshold, begun_by};
ghost use Rattle.vet_rules.specs.Reading.{single, part_at, join, chain, implication, whole};
ghost use Rattle.vet_rules.specs.Reading.{is_first, begins, at_level, below, is_end, all_of};

use crate::condition::{Comparison, Condition, ValueKind};
use crate::element::Element;
use crate::error::{Expected, Reason};
use crate::expression::{Connective, Expression, HowMany, MAX_DEPTH};
use crate::fixed::{Fixed, is_same};
use crate::lexer::{is_path, quoted_path};
use crate::literal::Literal;
use crate::stop::{ReadError, Stop};
use crate::token::{Kind, Token};
use std::alloc::{AllocError, Global};

// The error at the front of these tokens.
fn stop(expected: Expected, tokens: &[Token]) -> ReadError
    ensures { result ≡ ReadError.Stopped (stop_at expected (length (signs tokens.now))) }
{
    ReadError::Stopped(Stop {
        reason: Reason::Expected(expected),
        left: tokens.len(),
    })
}

fn is_word(word: Fixed, kind: &Kind) -> bool
    ensures { result ≡ is_word word (sign_of kind.now) }
{
    match kind {
        Kind::Word(found) => is_same(*found, word),
        _ => false,
    }
}

// What stands behind the word, if it is next.
#[tactic(auto, unfolding(crate::specs::Reading::next_word))]
fn next(word: Fixed, tokens: &[Token]) -> Option<&[Token]>
    ensures { option_map (λ x. signs x.now) result ≡ next_word word (signs tokens.now) }
{
    let [first, rest @ ..] = tokens else {
        return None;
    };
    is_word(word, &first.kind).then_some(rest)
}

// What stands behind the word, where else `expected` would be.
#[tactic(auto, unfolding(crate::specs::Reading::after))]
fn behind(word: Fixed, expected: Expected, tokens: &[Token]) -> Result<&[Token], ReadError>
    ensures { Gives (λ x. signs x.now) result (after word expected (signs tokens.now)) }
{
    match next(word, tokens) {
        Some(rest) => Ok(rest),
        None => Err(stop(expected, tokens)),
    }
}

#[tactic(auto, unfolding(crate::specs::Reading::one_at))]
fn element<T: Element>(tokens: &[Token]) -> Result<(T, &[Token]), ReadError>
    ensures { Gives (λ x. (T.value x.0, signs x.1.now)) result
        (one_at T.seen T.expected (signs tokens.now)) }
{
    let [first, rest @ ..] = tokens else {
        return Err(stop(T::expected(), tokens));
    };
    match T::seen(&first.kind)? {
        Some(element) => Ok((element, rest)),
        None => Err(stop(T::expected(), tokens)),
    }
}

// The elements behind the first one, each with the comma before it.
fn elements<T: Element>(alloc: Global, tokens: &[Token]) -> Result<(Vec<T>, &[Token]), ReadError>
    ensures { Gives (λ x. (map T.value x.0.items, signs x.1.now)) result
        (parts_at (length (signs tokens.now)) Fixed.Comma (one_at T.seen T.expected)
        (signs tokens.now)) }
{
    let mut elements = Vec::new(alloc);
    let mut left = tokens;
    while let Some(rest) = next(Fixed::Comma, left) {
        let (element, rest) = element(rest)?;
        elements.push(element)?;
        left = rest;
    }
    Ok((elements, left))
}

#[tactic(auto, unfolding(crate::specs::Reading::row_at))]
fn row<T: Element>(alloc: Global, tokens: &[Token]) -> Result<(Vec<T>, &[Token]), ReadError>
    ensures { Gives (λ x. (map T.value x.0.items, signs x.1.now)) result
        (row_at Fixed.CloseList Expected.ListGoesOn (one_at T.seen T.expected)
        (signs tokens.now)) }
{
    let (first, rest) = element(tokens)?;
    let (mut elements, rest) = elements(alloc, rest)?;
    let rest = behind(Fixed::CloseList, Expected::ListGoesOn, rest)?;
    elements.insert(0, first)?;
    Ok((elements, rest))
}

#[tactic(auto, unfolding(crate::specs::Reading::items_at))]
fn items<T: Element>(alloc: Global, tokens: &[Token]) -> Result<(Vec<T>, &[Token]), ReadError>
    ensures { Gives (λ x. (map T.value x.0.items, signs x.1.now)) result
        (items_at (one_at T.seen T.expected) (signs tokens.now)) }
{
    match next(Fixed::CloseList, tokens) {
        Some(rest) => Ok((Vec::new(alloc), rest)),
        None => row(alloc, tokens),
    }
}

#[tactic(auto, unfolding(crate::specs::Reading::list_at))]
fn list<T: Element>(alloc: Global, tokens: &[Token]) -> Result<(Vec<T>, &[Token]), ReadError>
    ensures { Gives (λ x. (map T.value x.0.items, signs x.1.now)) result
        (list_at (one_at T.seen T.expected) (signs tokens.now)) }
{
    let rest = behind(Fixed::OpenList, Expected::List, tokens)?;
    items(alloc, rest)
}

// The path that it is.
fn path_of(alloc: Global, kind: &Kind) -> Result<Option<String>, AllocError>
    ensures { IfOk result (λ s. option_map string_bytes s ≡ path_in (sign_of kind.now)) }
{
    match kind {
        Kind::Path(path) => Ok(Some(path.clone()?)),
        Kind::Literal(Literal::Text(text)) => quoted_path(alloc, text),
        _ => Ok(None),
    }
}

#[tactic(auto, unfolding(crate::specs::Reading::one_at))]
fn path(
    alloc: Global,
    expected: Expected,
    tokens: &[Token],
) -> Result<(String, &[Token]), ReadError>
    ensures { Gives (λ x. (string_bytes x.0, signs x.1.now)) result
        (one_at path_in expected (signs tokens.now)) }
{
    let [first, rest @ ..] = tokens else {
        return Err(stop(expected, tokens));
    };
    match path_of(alloc, &first.kind)? {
        Some(path) => Ok((path, rest)),
        None => Err(stop(expected, tokens)),
    }
}

#[tactic(auto, unfolding(crate::specs::Reading::count_at))]
fn count(tokens: &[Token]) -> Result<(u64, &[Token]), ReadError>
    ensures { Gives (λ x. (x.0, signs x.1.now)) result (count_at (signs tokens.now)) }
{
    let [first, rest @ ..] = tokens else {
        return Err(stop(Expected::Count, tokens));
    };
    match &first.kind {
        Kind::Literal(Literal::Natural(count)) => Ok((*count, rest)),
        _ => Err(stop(Expected::Count, tokens)),
    }
}

// What stands behind `keys`.
#[tactic(auto, unfolding(crate::specs::Reading::keys_at))]
fn keys(alloc: Global, tokens: &[Token]) -> Result<(Expression, &[Token]), ReadError>
    ensures { Gives (λ x. (tree_of x.0, signs x.1.now)) result (keys_at (signs tokens.now)) }
{
    let (path, rest) = path(alloc, Expected::Path, tokens)?;
    let rest = behind(Fixed::In, Expected::In, rest)?;
    let (texts, rest) = list(alloc, rest)?;
    Ok((Expression::Test(path, Condition::KeysIn(texts)), rest))
}

// Another path that a value is compared with.
#[tactic(auto, unfolding(crate::specs::Reading::other_path_at))]
fn other_path(comparison: Comparison, tokens: &[Token]) -> Result<(Condition, &[Token]), ReadError>
    ensures { Gives (λ x. (condition_of x.0, signs x.1.now)) result
        (other_path_at comparison (signs tokens.now)) }
{
    let [first, rest @ ..] = tokens else {
        return Err(stop(Expected::Operand, tokens));
    };
    match &first.kind {
        Kind::Path(path) => Ok((Condition::CompareWith(comparison, path.clone()?), rest)),
        _ => Err(stop(Expected::Operand, tokens)),
    }
}

// What a value is compared with.
#[tactic(auto, unfolding(crate::specs::Reading::compared_at))]
fn compared(comparison: Comparison, tokens: &[Token]) -> Result<(Condition, &[Token]), ReadError>
    ensures { Gives (λ x. (condition_of x.0, signs x.1.now)) result
        (compared_at comparison (signs tokens.now)) }
{
    let [first, rest @ ..] = tokens else {
        return Err(stop(Expected::Operand, tokens));
    };
    match Literal::seen(&first.kind)? {
        Some(literal) => Ok((Condition::Compare(comparison, literal), rest)),
        None => other_path(comparison, tokens),
    }
}

#[tactic(auto, unfolding(crate::specs::Reading::comparison_at))]
fn comparison(tokens: &[Token]) -> Result<(Comparison, &[Token]), ReadError>
    ensures { Gives (λ x. (x.0, signs x.1.now)) result (comparison_at (signs tokens.now)) }
{
    let [first, rest @ ..] = tokens else {
        return Err(stop(Expected::Comparison, tokens));
    };
    match first.kind {
        Kind::Word(Fixed::Comparison(comparison)) => Ok((comparison, rest)),
        _ => Err(stop(Expected::Comparison, tokens)),
    }
}

// What a length is compared with.
#[tactic(auto, unfolding(crate::specs::Reading::length_at))]
fn length(tokens: &[Token]) -> Result<(Condition, &[Token]), ReadError>
    ensures { Gives (λ x. (condition_of x.0, signs x.1.now)) result (length_at (signs tokens.now)) }
{
    let (comparison, rest) = comparison(tokens)?;
    let (count, rest) = count(rest)?;
    Ok((Condition::Length(comparison, count), rest))
}

#[tactic(auto, unfolding(crate::specs::Reading::kind_at))]
fn value_kind(tokens: &[Token]) -> Result<(ValueKind, &[Token]), ReadError>
    ensures { Gives (λ x. (x.0, signs x.1.now)) result (kind_at (signs tokens.now)) }
{
    let [first, rest @ ..] = tokens else {
        return Err(stop(Expected::Kind, tokens));
    };
    match first.kind {
        Kind::Word(Fixed::ValueKind(kind)) => Ok((kind, rest)),
        _ => Err(stop(Expected::Kind, tokens)),
    }
}

// The error at a word, before these tokens.
fn stop_before(expected: Expected, rest: &[Token]) -> ReadError
    ensures { result ≡ ReadError.Stopped (stop_at expected (suc (length (signs rest.now)))) }
{
    ReadError::Stopped(Stop {
        reason: Reason::Expected(expected),
        left: rest.len() + 1,
    })
}

// What is said behind a path, by the word there.
#[tactic(auto, unfolding(crate::specs::Reading::said_by))]
fn said(alloc: Global, word: Fixed, rest: &[Token]) -> Result<(Condition, &[Token]), ReadError>
    ensures { Gives (λ x. (condition_of x.0, signs x.1.now)) result
        (said_by word (signs rest.now)) }
{
    match word {
        Fixed::State(state) => Ok((Condition::Is(state), rest)),
        Fixed::Comparison(comparison) => compared(comparison, rest),
        Fixed::Length => length(rest),
        Fixed::Is => {
            let (kind, rest) = value_kind(rest)?;
            Ok((Condition::IsOf(kind), rest))
        }
        Fixed::Relation(relation) => {
            let (text, rest) = element(rest)?;
            Ok((Condition::Relate(relation, text), rest))
        }
        Fixed::In => {
            let (literals, rest) = list(alloc, rest)?;
            Ok((Condition::In(literals), rest))
        }
        _ => Err(stop_before(Expected::Condition, rest)),
    }
}

#[tactic(auto, unfolding(crate::specs::Reading::condition_at))]
fn condition(alloc: Global, tokens: &[Token]) -> Result<(Condition, &[Token]), ReadError>
    ensures { Gives (λ x. (condition_of x.0, signs x.1.now)) result
        (condition_at (signs tokens.now)) }
{
    let [first, rest @ ..] = tokens else {
        return Err(stop(Expected::Condition, tokens));
    };
    match first.kind {
        Kind::Word(word) => said(alloc, word, rest),
        _ => Err(stop(Expected::Condition, tokens)),
    }
}

#[tactic(auto, unfolding(crate::specs::Reading::test_at))]
fn test(alloc: Global, tokens: &[Token]) -> Result<(Expression, &[Token]), ReadError>
    ensures { Gives (λ x. (tree_of x.0, signs x.1.now)) result (test_at (signs tokens.now)) }
{
    let (path, rest) = path(alloc, Expected::Expression, tokens)?;
    let (condition, rest) = condition(alloc, rest)?;
    Ok((Expression::Test(path, condition), rest))
}

// What parts the expressions of a row.
#[derive(Clone, Copy)]
pub enum Separator {
    Connective(Connective),
    Comma,
}

pub fn separator_word(separator: Separator) -> Fixed
    ensures { result ≡ separator_word separator }
{
    match separator {
        Separator::Connective(connective) => Fixed::Join(connective),
        Separator::Comma => Fixed::Comma,
    }
}

// A first part with those that follow it, of which there may be none.
fn with_others(
    connective: Connective,
    first: Expression,
    mut others: Vec<Expression>,
) -> Result<Expression, AllocError>
    ensures { IfOk result (λ e. tree_of e
        ≡ join connective (tree_of first) (map tree_of others.items)) }
{
    if others.is_empty() {
        return Ok(first);
    }
    others.insert(0, first)?;
    Ok(Expression::Joined(connective, others))
}

// How tightly an expression holds together.
#[derive(Clone, Copy)]
pub enum Grip {
    By(Connective),
    Single,
    /// An implication too.
    Whole,
    /// What stands behind an `if`: it counts one level more.
    Premise,
}

pub fn next_tighter(connective: Connective) -> Grip
    ensures { level_of result ≡ tighter connective }
{
    match connective {
        Connective::Or => Grip::By(Connective::Xor),
        Connective::Xor => Grip::By(Connective::And),
        Connective::And => Grip::Single,
    }
}

#[cycle(reader)]
#[tactic(auto, unfolding(crate::specs::Reading::below))]
fn deeper(
    alloc: Global,
    grip: Grip,
    depth: u32,
    tokens: &[Token],
) -> Result<(Expression, &[Token]), ReadError>
    ensures { Gives (λ x. (tree_of x.0, signs x.1.now)) result
        (below depth (level_of grip) (signs tokens.now)) }
{
    if depth == 0 {
        return Err(ReadError::Stopped(Stop {
            reason: Reason::TooDeep,
            left: tokens.len(),
        }));
    }
    at_grip(alloc, grip, depth - 1, tokens)
}

#[cycle(reader)]
#[tactic(auto, unfolding(crate::specs::Reading::at_level))]
fn at_grip(
    alloc: Global,
    grip: Grip,
    depth: u32,
    tokens: &[Token],
) -> Result<(Expression, &[Token]), ReadError>
    ensures { Gives (λ x. (tree_of x.0, signs x.1.now)) result
        (at_level (below depth) (level_of grip) (signs tokens.now)) }
{
    match grip {
        Grip::By(connective) => joined(alloc, connective, depth, tokens),
        Grip::Single => alone(alloc, depth, tokens),
        Grip::Whole => whole(alloc, depth, tokens),
        Grip::Premise => deeper(alloc, Grip::Whole, depth, tokens),
    }
}

#[cycle(reader)]
#[tactic(auto, unfolding(crate::specs::Reading::chain))]
fn joined(
    alloc: Global,
    connective: Connective,
    depth: u32,
    tokens: &[Token],
) -> Result<(Expression, &[Token]), ReadError>
    ensures { Gives (λ x. (tree_of x.0, signs x.1.now)) result
        (chain connective (at_level (below depth) (tighter connective)) (signs tokens.now)) }
{
    let separator = Separator::Connective(connective);
    let (first, rest) = part(alloc, separator, depth, tokens)?;
    let (others, rest) = others(alloc, separator, depth, rest)?;
    Ok((with_others(connective, first, others)?, rest))
}

#[cycle(reader)]
fn part(
    alloc: Global,
    separator: Separator,
    depth: u32,
    tokens: &[Token],
) -> Result<(Expression, &[Token]), ReadError>
    ensures { Gives (λ x. (tree_of x.0, signs x.1.now)) result
        (part_at (below depth) separator (signs tokens.now)) }
{
    match separator {
        Separator::Connective(connective) => {
            at_grip(alloc, next_tighter(connective), depth, tokens)
        }
        Separator::Comma => deeper(alloc, Grip::Whole, depth, tokens),
    }
}

// The parts behind the first one, each with the separator before it.
#[cycle(reader)]
fn others(
    alloc: Global,
    separator: Separator,
    depth: u32,
    tokens: &[Token],
) -> Result<(Vec<Expression>, &[Token]), ReadError>
    ensures { Gives (λ x. (map tree_of x.0.items, signs x.1.now)) result
        (parts_at (length (signs tokens.now)) (separator_word separator)
        (part_at (below depth) separator) (signs tokens.now)) }
{
    let mut parts = Vec::new(alloc);
    let mut left = tokens;
    while let Some(rest) = next(separator_word(separator), left) {
        let (part, rest) = part(alloc, separator, depth, rest)?;
        parts.push(part)?;
        left = rest;
    }
    Ok((parts, left))
}

fn is_first(word: Fixed) -> bool
    ensures { result ≡ is_first word }
{
    match word {
        Fixed::Not | Fixed::Open | Fixed::Each | Fixed::Any | Fixed::At | Fixed::Keys => true,
        _ => false,
    }
}

fn is_path_token(kind: &Kind) -> bool
    ensures { result ≡ is_some (path_in (sign_of kind.now)) }
{
    match kind {
        Kind::Path(_) => true,
        Kind::Literal(Literal::Text(text)) => is_path(text.as_bytes()),
        _ => false,
    }
}

// Whether an expression other than an implication may begin so.
fn begins(tokens: &[Token]) -> bool
    ensures { result ≡ begins (signs tokens.now) }
{
    let [first, ..] = tokens else {
        return false;
    };
    match first.kind {
        Kind::Word(word) => is_first(word),
        _ => is_path_token(&first.kind),
    }
}

// An expression that may be an implication.
#[cycle(reader)]
#[tactic(auto, unfolding(crate::specs::Reading::whole, crate::specs::Reading::at_level))]
fn whole(alloc: Global, depth: u32, tokens: &[Token]) -> Result<(Expression, &[Token]), ReadError>
    ensures { Gives (λ x. (tree_of x.0, signs x.1.now)) result
        (whole (below depth) (signs tokens.now)) }
{
    if let Some(rest) = next(Fixed::If, tokens) {
        return implication(alloc, depth, rest);
    }
    if !begins(tokens) {
        return Err(stop(Expected::Whole, tokens));
    }
    joined(alloc, Connective::Or, depth, tokens)
}

// What stands behind an `if`.
#[cycle(reader)]
#[tactic(auto, unfolding(crate::specs::Reading::implication))]
fn implication(
    alloc: Global,
    depth: u32,
    tokens: &[Token],
) -> Result<(Expression, &[Token]), ReadError>
    ensures { Gives (λ x. (tree_of x.0, signs x.1.now)) result
        (implication (below depth) (signs tokens.now)) }
{
    let (premise, rest) = deeper(alloc, Grip::Premise, depth, tokens)?;
    let rest = behind(Fixed::Then, Expected::Then, rest)?;
    let (conclusion, rest) = deeper(alloc, Grip::Whole, depth, rest)?;
    let premise = Box::new(alloc, premise)?;
    let conclusion = Box::new(alloc, conclusion)?;
    Ok((Expression::Implies(premise, conclusion), rest))
}

#[cycle(reader)]
#[tactic(auto, unfolding(crate::specs::Reading::single))]
fn alone(alloc: Global, depth: u32, tokens: &[Token]) -> Result<(Expression, &[Token]), ReadError>
    ensures { Gives (λ x. (tree_of x.0, signs x.1.now)) result
        (single (below depth) (signs tokens.now)) }
{
    let [first, rest @ ..] = tokens else {
        return test(alloc, tokens);
    };
    match first.kind {
        Kind::Word(word) => begun(alloc, word, depth, rest),
        _ => test(alloc, tokens),
    }
}

// What begins with the word, before these tokens.
#[cycle(reader)]
#[tactic(auto, unfolding(crate::specs::Reading::begun_by))]
fn begun(
    alloc: Global,
    word: Fixed,
    depth: u32,
    rest: &[Token],
) -> Result<(Expression, &[Token]), ReadError>
    ensures { Gives (λ x. (tree_of x.0, signs x.1.now)) result
        (begun_by (below depth) word (signs rest.now)) }
{
    match word {
        Fixed::Not => {
            let (denied, rest) = deeper(alloc, Grip::Single, depth, rest)?;
            Ok((Expression::Not(Box::new(alloc, denied)?), rest))
        }
        Fixed::Open => in_parentheses(alloc, depth, rest),
        Fixed::Each => over_items(alloc, Expected::Path, HowMany::Each, depth, rest),
        Fixed::Any => over_items(alloc, Expected::Path, HowMany::Any, depth, rest),
        Fixed::At => threshold(alloc, depth, rest),
        Fixed::Keys => keys(alloc, rest),
        _ => Err(stop_before(Expected::Expression, rest)),
    }
}

#[cycle(reader)]
#[tactic(auto, unfolding(crate::specs::Reading::group))]
fn in_parentheses(
    alloc: Global,
    depth: u32,
    tokens: &[Token],
) -> Result<(Expression, &[Token]), ReadError>
    ensures { Gives (λ x. (tree_of x.0, signs x.1.now)) result
        (group (below depth) (signs tokens.now)) }
{
    let (inner, rest) = deeper(alloc, Grip::Whole, depth, tokens)?;
    let rest = behind(Fixed::Close, Expected::Close, rest)?;
    Ok((inner, rest))
}

#[cycle(reader)]
#[tactic(auto, unfolding(crate::specs::Reading::quantified))]
fn over_items(
    alloc: Global,
    expected: Expected,
    quantifier: HowMany,
    depth: u32,
    tokens: &[Token],
) -> Result<(Expression, &[Token]), ReadError>
    ensures { Gives (λ x. (tree_of x.0, signs x.1.now)) result
        (quantified (below depth) expected quantifier (signs tokens.now)) }
{
    let (path, rest) = path(alloc, expected, tokens)?;
    let rest = behind(Fixed::Open, Expected::Open, rest)?;
    let (inner, rest) = in_parentheses(alloc, depth, rest)?;
    Ok((
        Expression::Quantified(quantifier, path, Box::new(alloc, inner)?),
        rest,
    ))
}

#[cycle(reader)]
#[tactic(auto, unfolding(crate::specs::Reading::threshold))]
fn threshold(
    alloc: Global,
    depth: u32,
    tokens: &[Token],
) -> Result<(Expression, &[Token]), ReadError>
    ensures { Gives (λ x. (tree_of x.0, signs x.1.now)) result
        (threshold (below depth) (signs tokens.now)) }
{
    let rest = behind(Fixed::Least, Expected::Least, tokens)?;
    let (count, rest) = count(rest)?;
    counted(alloc, count, depth, rest)
}

// At least so many of the expressions or of the items that follow.
#[cycle(reader)]
#[tactic(auto, unfolding(crate::specs::Reading::counted))]
fn counted(
    alloc: Global,
    count: u64,
    depth: u32,
    tokens: &[Token],
) -> Result<(Expression, &[Token]), ReadError>
    ensures { Gives (λ x. (tree_of x.0, signs x.1.now)) result
        (counted (below depth) count (signs tokens.now)) }
{
    match next(Fixed::Of, tokens) {
        Some(rest) => listed(alloc, count, depth, rest),
        None => over_items(
            alloc,
            Expected::Counted,
            HowMany::AtLeast(count),
            depth,
            tokens,
        ),
    }
}

#[cycle(reader)]
#[tactic(auto, unfolding(crate::specs::Reading::listed, crate::specs::Reading::row_at))]
fn listed(
    alloc: Global,
    count: u64,
    depth: u32,
    tokens: &[Token],
) -> Result<(Expression, &[Token]), ReadError>
    ensures { Gives (λ x. (tree_of x.0, signs x.1.now)) result
        (listed (below depth) count (signs tokens.now)) }
{
    let rest = behind(Fixed::Open, Expected::Open, tokens)?;
    let (first, rest) = part(alloc, Separator::Comma, depth, rest)?;
    let (mut parts, rest) = others(alloc, Separator::Comma, depth, rest)?;
    let rest = behind(Fixed::Close, Expected::PartsGoOn, rest)?;
    parts.insert(0, first)?;
    Ok((Expression::AtLeast(count, parts), rest))
}

fn is_last(tokens: &[Token]) -> bool
    ensures { result ≡ is_end (signs tokens.now) }
{
    match tokens {
        [token] => match token.kind {
            Kind::End => true,
            _ => false,
        },
        _ => false,
    }
}

#[tactic(auto, unfolding(crate::specs::Reading::all_of, crate::specs::Reading::ended, crate::specs::Reading::below))]
fn all(alloc: Global, tokens: &[Token]) -> Result<Expression, ReadError>
    ensures { Gives tree_of result (all_of MAX_DEPTH (signs tokens.now)) }
{
    let (expression, rest) = at_grip(alloc, Grip::Whole, MAX_DEPTH, tokens)?;
    if !is_last(rest) {
        return Err(stop(Expected::End, rest));
    }
    Ok(expression)
}

/// Reads an expression from all of the tokens.
pub fn parse(alloc: Global, tokens: &[Token]) -> Result<Expression, ReadError>
    // What is read is spelled so.
    ensures found { IfOk result (λ e. IsSpelled MAX_DEPTH (signs tokens.now) (tree_of e)) }
    // What is spelled so is read, unless memory runs out.
    ensures only { (e : Tree) → IsSpelled MAX_DEPTH (signs tokens.now) e
        → Gives tree_of result (Ok e) }
    // Where it is refused for another reason than its depth, it is spelled by nothing, however
    // deep.
    ensures never { IfErr result (λ e. IsSyntax e → (n : ℕ) (t : Tree)
        → IsSpelled n (signs tokens.now) t → ⊥) }
    // Which fault it is, and how many tokens are left there.
    ensures exact { Gives tree_of result (all_of MAX_DEPTH (signs tokens.now)) }
{
    all(alloc, tokens)
}

/// Tokens spell one expression at most, however deep it may nest.
pub fn one_meaning()
    ensures { (n m : ℕ) (ts : List Sign) (e f : Tree)
        → IsSpelled n ts e → IsSpelled m ts f → e ≡ f }
{}
