//! A leaf of the caller's own, written out.
ghost use Rattle.std.specs.Prelude.{refl, []};
ghost use Rattle.predicates_core.specs.Tree.{empty};
ghost use Rattle.predicates_core.specs.Leaves.{IsExactly};
ghost use Rattle.predicates_core.specs.LeafLaws.{exactly_text_fits, one_exactly};
ghost use Rattle.tests_uses.specs.Answer.{answer_text, answer_formula};

use predicates::custom::leaf_change;
use predicates::node::{leaf_node, printed, showing_item};
use predicates::reflection::{Case, Child, Parameter, PredicateReflection};
use predicates::{Predicate, PredicateChange, Total};
use std::alloc::{AllocError, Global};
use std::fmt;

/// Holds of 42 alone.
#[derive(Debug, Clone, Copy, PartialEq, Eq, Drop)]
pub struct IsTheAnswer;

impl fmt::Display for IsTheAnswer {
    ghost output = { λ p. answer_text };

    fn fmt<W: fmt::Write>(&self, f: &mut fmt::Formatter<W>) -> fmt::Result {
        write!(f, "var.is_the_answer()")
    }
}

impl PredicateReflection for IsTheAnswer {
    ghost parameters_of = { λ p. [] };

    ghost children_of = { λ p. empty };

    fn parameters(&self, alloc: Global) -> Result<Vec<Parameter>, AllocError> {
        Ok(Vec::new(alloc))
    }

    fn children(&self, alloc: Global) -> Result<Vec<Child>, AllocError> {
        Ok(Vec::new(alloc))
    }
}

impl Predicate<u32> for IsTheAnswer {
    ghost formula = { λ p v. IsExactly (answer_formula v) };

    ghost infallible = { λ p v. Unit {0} };

    ghost text_fits = { λ p v f. exactly_text_fits };

    ghost one_formula = { λ p v f g lawful. one_exactly };

    #[tactic(auto, using(predicates_core::proofs::Leaves::leaves))]
    fn eval(&self, _alloc: Global, item: &u32) -> Result<bool, AllocError> {
        Ok(*item == 42)
    }

    #[tactic(auto, using(predicates_core::proofs::Leaves::leaves))]
    fn find_case(
        &self,
        alloc: Global,
        expected: bool,
        item: &u32,
    ) -> Result<Option<Case>, AllocError> {
        if (*item == 42) != expected {
            return Ok(None);
        }
        let case = leaf_node(alloc, printed(alloc, self)?, expected);
        Ok(Some(showing_item(alloc, case, item)?))
    }
}

impl PredicateChange<u32> for IsTheAnswer {
    fn find_change(
        &self,
        alloc: Global,
        wanted: Option<bool>,
        item: &u32,
    ) -> Result<Option<Case>, AllocError> {
        leaf_change(alloc, self, wanted, item)
    }
}

impl Total<u32> for IsTheAnswer {
    ghost formula_of = { λ p v. answer_formula v };

    ghost always_lawful = { λ p. tt };

    ghost has_formula = { λ p v. record { is = refl } };
}
