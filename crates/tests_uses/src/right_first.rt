//! A custom combinator that evaluates its right part first.
ghost use Rattle.std.specs.Prelude.{◌≡◌, ◌==◌, ◌||◌, [], Ok, codes, nat_lt};
ghost use Rattle.predicates_core.specs.Label.{plain};
ghost use Rattle.predicates_core.specs.declared.custom.join.Operator.TheVariants.{Or};
ghost use Rattle.predicates_core.specs.Formula.{pair};
ghost use Rattle.predicates_core.specs.Parts.{two_parts};
ghost use Rattle.predicates_core.specs.Combined.{IsPair};
ghost use Rattle.predicates_core.proofs.CombinedLemmas.{pair_text_fits, one_pair, has_pair};
ghost use Rattle.tests_uses.specs.Either.{either_text};
ghost use Rattle.tests_uses.specs.RightFirst.{left_of, right_of};

use crate::IsTheAnswer;
use predicates::custom::{Join, Operator, join_change, two_children};
use predicates::node::{binary_node, unary_node};
use predicates::ord::lt;
use predicates::reflection::{Case, Child, Parameter, PredicateReflection};
use predicates::{Predicate, PredicateChange, Total};
use std::alloc::{AllocError, Global};
use std::fmt;

/// Either part holds. The right one is evaluated first, and is shown where the left one does not
/// hold.
// No contract speaks of the order in which parts are evaluated: the answer is the same in each.
// What is shown is pinned, and the first reason needs the left part's answer.
#[derive(Debug, Clone, Copy, PartialEq, Eq, Drop)]
pub struct RightFirst<P, Q> {
    left: P,
    right: Q,
}

impl<P, Q> RightFirst<P, Q> {
    /// Either of the two.
    pub fn new(left: P, right: Q) -> RightFirst<P, Q>
        ensures left { left_of result ≡ left }
        ensures right { right_of result ≡ right }
    {
        RightFirst { left, right }
    }
}

impl<P: fmt::Display, Q: fmt::Display> fmt::Display for RightFirst<P, Q> {
    ghost output = { λ p. either_text (P.output (left_of p)) (Q.output (right_of p)) };

    fn fmt<W: fmt::Write>(&self, f: &mut fmt::Formatter<W>) -> fmt::Result {
        let left = &self.left;
        let right = &self.right;
        write!(f, "either({left}, {right})")
    }
}

impl<P: PredicateReflection, Q: PredicateReflection> PredicateReflection for RightFirst<P, Q> {
    ghost parameters_of = { λ p. [] };

    ghost children_of = { λ p. two_parts
        (codes "left") (P.output (left_of p)) (P.parameters_of (left_of p))
        (P.children_of (left_of p))
        (codes "right") (Q.output (right_of p)) (Q.parameters_of (right_of p))
        (Q.children_of (right_of p)) };

    fn parameters(&self, alloc: Global) -> Result<Vec<Parameter>, AllocError> {
        Ok(Vec::new(alloc))
    }

    fn children(&self, alloc: Global) -> Result<Vec<Child>, AllocError> {
        two_children(alloc, &self.left, &self.right)
    }
}

impl<P: Predicate<Item>, Q: Predicate<Item>, Item> Predicate<Item> for RightFirst<P, Q> {
    ghost lawful = { λ p. P.lawful (left_of p) × Q.lawful (right_of p) };

    ghost formula = { λ p v. IsPair Or
        (either_text (P.output (left_of p)) (Q.output (right_of p)))
        (P.formula (left_of p) v)
        (Q.formula (right_of p) v) };

    ghost infallible = { λ p v. P.infallible (left_of p) v × Q.infallible (right_of p) v };

    ghost text_fits = { λ p v f. pair_text_fits };

    ghost one_formula = { λ p v f g lawful. one_pair
        (λ x y. P.one_formula (left_of p) v x y lawful.0)
        (λ x y. Q.one_formula (right_of p) v x y lawful.1) };

    #[tactic(auto, using(crate::proofs::BothEvaluated::both_evaluated))]
    fn eval(&self, alloc: Global, item: &Item) -> Result<bool, AllocError> {
        let right = self.right.eval(alloc, item)?;
        let left = self.left.eval(alloc, item)?;
        Ok(left || right)
    }

    #[tactic(auto, using(crate::proofs::BothEvaluated::both_evaluated))]
    fn find_case(
        &self,
        alloc: Global,
        expected: bool,
        item: &Item,
    ) -> Result<Option<Case>, AllocError> {
        let right = self.right.find_case(alloc, expected, item)?;
        match self.left.find_case(alloc, expected, item)? {
            None if !expected => Ok(None),
            None => {
                let Some(right) = right else {
                    return Ok(None);
                };
                let text = self.to_string(alloc)?;
                Ok(Some(unary_node(alloc, text, expected, "right", right)?))
            }
            Some(left) if expected => {
                let text = self.to_string(alloc)?;
                Ok(Some(unary_node(alloc, text, expected, "left", left)?))
            }
            Some(left) => {
                let Some(right) = right else {
                    return Ok(None);
                };
                let text = self.to_string(alloc)?;
                Ok(Some(binary_node(alloc, text, expected, left, right)?))
            }
        }
    }
}

impl<P: PredicateChange<Item>, Q: PredicateChange<Item>, Item> PredicateChange<Item>
    for RightFirst<P, Q> {
    fn find_change(
        &self,
        alloc: Global,
        wanted: Option<bool>,
        item: &Item,
    ) -> Result<Option<Case>, AllocError> {
        let join = Join {
            whole: self,
            operator: Operator::Or,
            left: &self.left,
            right: &self.right,
        };
        join_change(alloc, join, wanted, item)
    }
}

impl<P: Total<Item>, Q: Total<Item>, Item> Total<Item> for RightFirst<P, Q> {
    ghost formula_of = { λ p v. pair Or
        (plain (either_text (P.output (left_of p)) (Q.output (right_of p))))
        (P.formula_of (left_of p) v)
        (Q.formula_of (right_of p) v) };

    ghost always_lawful = { λ p. (P.always_lawful (left_of p), Q.always_lawful (right_of p)) };

    ghost has_formula = { λ p v. has_pair
        (P.has_formula (left_of p) v)
        (Q.has_formula (right_of p) v) };
}

/// Whether the number is 42 or below 10. It takes no memory.
pub fn is_known(alloc: Global, number: &u32) -> Result<bool, AllocError>
    ensures { result ≡ Ok (number.now == 42 || nat_lt number.now 10) }
{
    RightFirst::new(IsTheAnswer, lt(10)).eval(alloc, number)
}
