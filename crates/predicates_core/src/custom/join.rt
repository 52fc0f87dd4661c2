//! The verdict and the case of two parts that an operator joins.
ghost use Rattle.std.specs.Prelude.{◌≡◌, ℕ, List, Option, None, if◌then◌else◌, IfOk, IsOk};
ghost use Rattle.std.specs.Prelude.{⊤};
ghost use Rattle.predicates_core.specs.Asked.{asks, keeps, left_wanted, right_wanted, IsFoundIf};
ghost use Rattle.predicates_core.specs.Asked.{shown_verdict, is_other};
ghost use Rattle.predicates_core.specs.Combined.{sign, IsPair};
ghost use Rattle.predicates_core.specs.Formula.{apply, HasTruth};
ghost use Rattle.predicates_core.specs.Shows.{IsAnswer, IsFound};

use crate::Predicate;
use crate::node::{binary_node_of, printed};
use crate::reflection::Case;
use std::alloc::{AllocError, Global};
use std::fmt;

/// How the truths of two parts make that of the whole.
#[derive(Debug, Clone, Copy, PartialEq, Eq)]
pub enum Operator {
    /// Both hold.
    And,
    /// At least one holds.
    Or,
    /// Exactly one holds.
    Xor,
}

impl Operator {
    /// What is printed between two parts.
    pub fn sign(self) -> &'static str
        ensures { result.now ≡ sign self }
    {
        match self {
            Operator::And => " && ",
            Operator::Or => " || ",
            Operator::Xor => " ^ ",
        }
    }

    /// The truth of the whole, from those of its parts.
    ///
    /// ```
    /// assert!(rt; Operator::Xor.apply(true, false) && !Operator::Xor.apply(true, true));
    /// ```
    pub fn apply(self, left: bool, right: bool) -> bool
        ensures { result ≡ apply self left right }
    {
        match self {
            Operator::And => left && right,
            Operator::Or => left || right,
            Operator::Xor => left != right,
        }
    }

    /// Whether the right part is evaluated after the left one had this truth.
    pub fn asks(self, left: bool) -> bool
        ensures { result ≡ asks self left }
    {
        match self {
            Operator::And => left,
            Operator::Or => !left,
            Operator::Xor => true,
        }
    }

    /// The verdict that the left part's case has to have, where one of the whole is wanted.
    pub fn left_wanted(self, wanted: Option<bool>) -> Option<bool>
        ensures { result ≡ left_wanted self wanted }
    {
        match self {
            Operator::And | Operator::Or => wanted,
            Operator::Xor => None,
        }
    }

    /// The verdict that the right part's case has to have, where the left part's is known.
    pub fn right_wanted(self, wanted: Option<bool>, left: bool) -> Option<bool>
        ensures { result ≡ right_wanted self left wanted }
    {
        match self {
            Operator::And | Operator::Or => wanted,
            Operator::Xor => match wanted {
                Some(expected) => Some(expected != left),
                None => None,
            },
        }
    }

    /// Whether the left part belongs to the reason where the parts have these truths.
    pub fn keeps(self, left: bool, right: bool) -> bool
        ensures { result ≡ keeps self left right }
    {
        match self {
            Operator::And => !left || right,
            Operator::Or => left || !right,
            Operator::Xor => true,
        }
    }
}

/// A whole that an operator joins of two parts.
#[derive(Drop)]
pub struct Join<'a, W, P, Q> {
    /// What prints the whole.
    pub whole: &'a W,
    /// How the truths of the parts make that of the whole.
    pub operator: Operator,
    /// The part that is evaluated first.
    pub left: &'a P,
    /// The other part.
    pub right: &'a Q,
}

impl<'a, W, P, Q> Copy for Join<'a, W, P, Q> {}

impl<'a, W, P, Q> Clone for Join<'a, W, P, Q> {
    ghost is_clone = { λ x y. y ≡ x };

    ghost is_infallible = { λ _. ⊤ };

    fn clone(&self) -> Result<Self, AllocError> {
        Ok(*self)
    }
}

// What is found of the part if it is `asked`.
fn explain_if<P: Predicate<Item>, Item>(
    alloc: Global,
    asked: bool,
    part: &P,
    wanted: Option<bool>,
    item: &Item,
) -> Result<Option<Case>, AllocError>
    requires { P.lawful part.now }
    ensures { IfOk result (IsFoundIf asked (P.formula part.now item.now) wanted) }
{
    if asked {
        part.explain(alloc, wanted, item)
    } else {
        Ok(None)
    }
}

/// The case if it is to be `kept`.
pub fn kept_if(kept: bool, found: Option<Case>) -> Option<Case>
    ensures { result ≡ (if kept then found else None) }
{
    if kept { found } else { None }
}

/// The verdict of a part for which this was found where this was wanted.
pub fn shown_verdict(wanted: Option<bool>, found: &Option<Case>) -> bool
    ensures { result ≡ shown_verdict wanted found.now }
{
    match (wanted, found) {
        (Some(expected), Some(_)) => expected,
        (Some(expected), None) => !expected,
        (None, Some(case)) => case.root().result(),
        (None, None) => false,
    }
}

/// The `eval` of a predicate that joins two parts by an operator. It evaluates the left part first,
/// and the right one only if that can change the verdict.
///
/// ```
/// let (low, high) = (predicate::ge(5), predicate::le(10));
/// assert!(rt; join_truth(alloc, Operator::And, &low, &high, &7)?);
/// ```
pub fn join_truth<P: Predicate<Item>, Q: Predicate<Item>, Item>(
    alloc: Global,
    operator: Operator,
    left_part: &P,
    right_part: &Q,
    item: &Item,
) -> Result<bool, AllocError>
    requires left { P.lawful left_part.now }
    requires right { Q.lawful right_part.now }
    ensures truth { IfOk result (λ b. (text : Option (List ℕ)) → HasTruth (IsPair operator text
        (P.formula left_part.now item.now) (Q.formula right_part.now item.now)) b) }
    ensures infallible { P.infallible left_part.now item.now → Q.infallible right_part.now item.now
        → IsOk result }
{
    match operator {
        Operator::And => Ok(left_part.eval(alloc, item)? && right_part.eval(alloc, item)?),
        Operator::Or => Ok(left_part.eval(alloc, item)? || right_part.eval(alloc, item)?),
        Operator::Xor => Ok(left_part.eval(alloc, item)? != right_part.eval(alloc, item)?),
    }
}

/// The `find_case` of a predicate that joins two parts by an operator. It evaluates them as
/// `join_truth` does, and then makes the cases of those that belong to the reason.
///
/// ```
/// let (low, high) = (predicate::ge(5), predicate::le(10));
/// let text = "between".to_owned(alloc)?;
/// let join = Join { whole: &text, operator: Operator::And, left: &low, right: &high };
/// let found = join_case(alloc, join, false, &11)?;
/// let lines = "between = false\n  right: var <= 10 = false\n    - var: 11\n";
/// assert!(rt; render(alloc, &found.ok_or("no case")?)?.as_str() == lines);
/// ```
pub fn join_case<W: fmt::Display, P: Predicate<Item>, Q: Predicate<Item>, Item>(
    alloc: Global,
    join: Join<'_, W, P, Q>,
    expected: bool,
    item: &Item,
) -> Result<Option<Case>, AllocError>
    requires left { P.lawful join.left.now }
    requires right { Q.lawful join.right.now }
    ensures { IfOk result (IsAnswer (IsPair join.entry.operator (W.output join.entry.whole.now)
        (P.formula join.entry.left.now item.now) (Q.formula join.entry.right.now item.now))
        expected) }
{
    if join_truth(alloc, join.operator, join.left, join.right, item)? != expected {
        return Ok(None);
    }
    join_explained(alloc, join, Some(expected), item)
}

/// The `explain` of such a predicate. It asks its parts for their cases, the left one first, and
/// the right one only if that can change the verdict.
///
/// ```
/// let (low, high) = (predicate::ge(5), predicate::le(10));
/// let text = "between".to_owned(alloc)?;
/// let join = Join { whole: &text, operator: Operator::And, left: &low, right: &high };
/// let found = join_explained(alloc, join, None, &7)?;
/// assert!(rt; found.ok_or("no case")?.root().result());
/// ```
pub fn join_explained<W: fmt::Display, P: Predicate<Item>, Q: Predicate<Item>, Item>(
    alloc: Global,
    join: Join<'_, W, P, Q>,
    wanted: Option<bool>,
    item: &Item,
) -> Result<Option<Case>, AllocError>
    requires left { P.lawful join.left.now }
    requires right { Q.lawful join.right.now }
    ensures { IfOk result (IsFound (IsPair join.entry.operator (W.output join.entry.whole.now)
        (P.formula join.entry.left.now item.now) (Q.formula join.entry.right.now item.now))
        wanted) }
{
    let operator = join.operator;
    let left_wanted = operator.left_wanted(wanted);
    let left = join.left.explain(alloc, left_wanted, item)?;
    let left_holds = shown_verdict(left_wanted, &left);
    let asks = operator.asks(left_holds);
    let right_wanted = operator.right_wanted(wanted, left_holds);
    let right = explain_if(alloc, asks, join.right, right_wanted, item)?;
    let right_holds = shown_verdict(right_wanted, &right);
    let holds = operator.apply(left_holds, right_holds);
    if is_other(wanted, holds) {
        return Ok(None);
    }
    let kept = kept_if(operator.keeps(left_holds, right_holds), left);
    let text = printed(alloc, join.whole)?;
    Ok(Some(binary_node_of(alloc, text, holds, kept, right)?))
}

/// Whether a verdict is wanted, and another than this one.
///
/// ```
/// assert!(rt; is_other(Some(false), true) && !is_other(None, true));
/// ```
pub fn is_other(wanted: Option<bool>, holds: bool) -> bool
    ensures { result ≡ is_other wanted holds }
{
    match wanted {
        Some(expected) => expected != holds,
        None => false,
    }
}
