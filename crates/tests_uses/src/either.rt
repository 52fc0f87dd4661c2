//! A combinator of the caller's own, by the trait and the calls of cases alone.
ghost use Rattle.std.specs.Prelude.{◌≡◌, ◌↔◌, [], ◌∷◌, codes, None, Some, IfOk};
ghost use Rattle.std.specs.Prelude.{string_bytes};
ghost use Rattle.predicates_core.specs.declared.custom.join.Operator.TheVariants.{Or};
ghost use Rattle.predicates_core.specs.Label.{plain};
ghost use Rattle.predicates_core.specs.Formula.{Formula, pair};
ghost use Rattle.predicates_core.specs.Parts.{two_parts};
ghost use Rattle.predicates_core.specs.Combined.{IsPair};
ghost use Rattle.predicates_core.specs.Shows.{IsNode, IsAnswer, IsFound};
ghost use Rattle.predicates_core.proofs.CombinedLemmas.{pair_text_fits, one_pair, has_pair};
ghost use Rattle.tests_uses.specs.Either.{either_text, left_of, right_of};

use predicates::custom::{Join, Operator, join_change};
use predicates::reflection::{Case, Child, Parameter, PredicateReflection, describe};
use predicates::{Predicate, PredicateChange, Total};
use std::alloc::{AllocError, Global};
use std::fmt;

/// Either part holds. The right one is evaluated only where the left one does not hold.
#[derive(Debug, Clone, Copy, PartialEq, Eq, Drop)]
pub struct Either<P, Q> {
    left: P,
    right: Q,
}

impl<P, Q> Either<P, Q> {
    /// Either of the two.
    pub fn new(left: P, right: Q) -> Either<P, Q>
        ensures left { left_of result ≡ left }
        ensures right { right_of result ≡ right }
    {
        Either { left, right }
    }
}

impl<P: fmt::Display, Q: fmt::Display> fmt::Display for Either<P, Q> {
    ghost output = { λ p. either_text (P.output (left_of p)) (Q.output (right_of p)) };

    fn fmt<W: fmt::Write>(&self, f: &mut fmt::Formatter<W>) -> fmt::Result {
        let left = &self.left;
        let right = &self.right;
        write!(f, "either({left}, {right})")
    }
}

impl<P: PredicateReflection, Q: PredicateReflection> PredicateReflection for Either<P, Q> {
    ghost parameters_of = { λ p. [] };

    ghost children_of = { λ p. two_parts
        (codes "left") (P.output (left_of p)) (P.parameters_of (left_of p))
        (P.children_of (left_of p))
        (codes "right") (Q.output (right_of p)) (Q.parameters_of (right_of p))
        (Q.children_of (right_of p)) };

    fn parameters(&self, alloc: Global) -> Result<Vec<Parameter>, AllocError> {
        Ok(Vec::new(alloc))
    }

    fn children(&self, alloc: Global) -> Result<Vec<Child>, AllocError> {
        let mut children = Vec::new(alloc);
        children.push(describe(alloc, "left", &self.left)?)?;
        children.push(describe(alloc, "right", &self.right)?)?;
        Ok(children)
    }
}

// A node over one part.
fn over_one(
    alloc: Global,
    text: String,
    outcome: bool,
    name: &'static str,
    part: Case,
) -> Result<Case, AllocError>
    ensures { IfOk result
        (IsNode (Some (string_bytes text)) outcome ((name.entry.now, part) ∷ [])) }
{
    Case::new(alloc, Some(text), outcome).add_child(name, part)
}

// A node over both parts.
fn over_both(
    alloc: Global,
    text: String,
    outcome: bool,
    left: Case,
    right: Case,
) -> Result<Case, AllocError>
    ensures { IfOk result
        (IsNode (Some (string_bytes text)) outcome
        ((codes "left", left) ∷ (codes "right", right) ∷ [])) }
{
    Case::new(alloc, Some(text), outcome)
        .add_child("left", left)?
        .add_child("right", right)
}

// The case where the verdict is the expected one. It asks the left part for its case, and the right
// one where the left one does not decide.
#[tactic(auto, using(crate::proofs::BothEvaluated::both_evaluated))]
fn wanted_case<P: Predicate<Item>, Q: Predicate<Item>, Item>(
    alloc: Global,
    either: &Either<P, Q>,
    expected: bool,
    item: &Item,
) -> Result<Option<Case>, AllocError>
    requires left { P.lawful (left_of either.now) }
    requires right { Q.lawful (right_of either.now) }
    ensures { IfOk result (IsAnswer (IsPair Or
        (either_text (P.output (left_of either.now)) (Q.output (right_of either.now)))
        (P.formula (left_of either.now) item.now)
        (Q.formula (right_of either.now) item.now)) expected) }
{
    match either.left.explain(alloc, Some(expected), item)? {
        None if !expected => Ok(None),
        None => {
            let Some(right) = either.right.explain(alloc, Some(expected), item)? else {
                return Ok(None);
            };
            let text = either.to_string(alloc)?;
            Ok(Some(over_one(alloc, text, expected, "right", right)?))
        }
        Some(left) if expected => {
            let text = either.to_string(alloc)?;
            Ok(Some(over_one(alloc, text, expected, "left", left)?))
        }
        Some(left) => {
            let Some(right) = either.right.explain(alloc, Some(expected), item)? else {
                return Ok(None);
            };
            let text = either.to_string(alloc)?;
            Ok(Some(over_both(alloc, text, expected, left, right)?))
        }
    }
}

// The case of whichever verdict it has, asked for in the same order.
fn whichever_case<P: Predicate<Item>, Q: Predicate<Item>, Item>(
    alloc: Global,
    either: &Either<P, Q>,
    item: &Item,
) -> Result<Option<Case>, AllocError>
    requires left { P.lawful (left_of either.now) }
    requires right { Q.lawful (right_of either.now) }
    ensures { IfOk result (IsFound (IsPair Or
        (either_text (P.output (left_of either.now)) (Q.output (right_of either.now)))
        (P.formula (left_of either.now) item.now)
        (Q.formula (right_of either.now) item.now)) None) }
{
    let Some(left) = either.left.explain(alloc, None, item)? else {
        return Ok(None);
    };
    let text = either.to_string(alloc)?;
    if left.root().result() {
        return Ok(Some(over_one(alloc, text, true, "left", left)?));
    }
    let Some(right) = either.right.explain(alloc, None, item)? else {
        return Ok(None);
    };
    if right.root().result() {
        return Ok(Some(over_one(alloc, text, true, "right", right)?));
    }
    Ok(Some(over_both(alloc, text, false, left, right)?))
}

impl<P: Predicate<Item>, Q: Predicate<Item>, Item> Predicate<Item> for Either<P, Q> {
    ghost lawful = { λ p. P.lawful (left_of p) × Q.lawful (right_of p) };

    ghost formula = { λ p v. IsPair Or
        (either_text (P.output (left_of p)) (Q.output (right_of p)))
        (P.formula (left_of p) v)
        (Q.formula (right_of p) v) };

    ghost infallible = { λ p v. P.infallible (left_of p) v × Q.infallible (right_of p) v };

    ghost text_fits = { λ p v f. pair_text_fits };

    ghost one_formula = { λ p v f g lawful. one_pair
        (λ x y. P.one_formula (left_of p) v x y lawful.0)
        (λ x y. Q.one_formula (right_of p) v x y lawful.1) };

    #[tactic(auto, using(crate::proofs::BothEvaluated::both_evaluated))]
    fn eval(&self, alloc: Global, item: &Item) -> Result<bool, AllocError> {
        Ok(self.left.eval(alloc, item)? || self.right.eval(alloc, item)?)
    }

    fn find_case(
        &self,
        alloc: Global,
        expected: bool,
        item: &Item,
    ) -> Result<Option<Case>, AllocError> {
        if self.eval(alloc, item)? != expected {
            return Ok(None);
        }
        self.explain(alloc, Some(expected), item)
    }

    fn explain(
        &self,
        alloc: Global,
        wanted: Option<bool>,
        item: &Item,
    ) -> Result<Option<Case>, AllocError> {
        match wanted {
            Some(expected) => wanted_case(alloc, self, expected, item),
            None => whichever_case(alloc, self, item),
        }
    }
}

impl<P: PredicateChange<Item>, Q: PredicateChange<Item>, Item> PredicateChange<Item>
    for Either<P, Q> {
    fn find_change(
        &self,
        alloc: Global,
        wanted: Option<bool>,
        item: &Item,
    ) -> Result<Option<Case>, AllocError> {
        let join = Join {
            whole: self,
            operator: Operator::Or,
            left: &self.left,
            right: &self.right,
        };
        join_change(alloc, join, wanted, item)
    }
}

impl<P: Total<Item>, Q: Total<Item>, Item> Total<Item> for Either<P, Q> {
    ghost formula_of = { λ p v. pair Or
        (plain (either_text (P.output (left_of p)) (Q.output (right_of p))))
        (P.formula_of (left_of p) v)
        (Q.formula_of (right_of p) v) };

    ghost always_lawful = { λ p. (P.always_lawful (left_of p), Q.always_lawful (right_of p)) };

    ghost has_formula = { λ p v. has_pair
        (P.has_formula (left_of p) v)
        (Q.has_formula (right_of p) v) };
}

/// What `Either` means: its formulas are `Or` over a formula of each part. It may be evaluated
/// where its parts may, and takes no memory where they take none.
pub fn alternatives<P: Predicate<Item>, Q: Predicate<Item>, Item>(
    either: &Either<P, Q>,
    item: &Item,
)
    ensures formula { (f : Formula)
        → ⟦<Either<P, Q> as Predicate<Item>>⟧.formula either.now item.now f
        ↔ IsPair Or
        (either_text (P.output (left_of either.now)) (Q.output (right_of either.now)))
        (P.formula (left_of either.now) item.now)
        (Q.formula (right_of either.now) item.now)
        f }
    ensures lawful { ⟦<Either<P, Q> as Predicate<Item>>⟧.lawful either.now
        ↔ P.lawful (left_of either.now) × Q.lawful (right_of either.now) }
    ensures infallible { ⟦<Either<P, Q> as Predicate<Item>>⟧.infallible either.now item.now
        ↔ P.infallible (left_of either.now) item.now × Q.infallible (right_of either.now) item.now }
    ensures values { ⟦<Either<P, Q> as PredicateReflection>⟧.parameters_of either.now ≡ [] }
    ensures parts { ⟦<Either<P, Q> as PredicateReflection>⟧.children_of either.now ≡ two_parts
        (codes "left") (P.output (left_of either.now))
        (P.parameters_of (left_of either.now)) (P.children_of (left_of either.now))
        (codes "right") (Q.output (right_of either.now))
        (Q.parameters_of (right_of either.now)) (Q.children_of (right_of either.now)) }
{}
