//! Whether a value is null.
ghost use Rattle.std.specs.Prelude.{◌≡◌, ◌↔◌, refl, [], Some};
ghost use Rattle.predicates_core.specs.Formula.{Formula};
ghost use Rattle.predicates_core.specs.Tree.{empty};
ghost use Rattle.predicates_core.specs.Leaves.{IsExactly};
ghost use Rattle.predicates_core.specs.LeafLaws.{one_exactly};
ghost use Rattle.serde_json.specs.View.{view};
ghost use Rattle.serde_json.specs.declared.value.Value.{Value as JsonValue};
ghost use Rattle.predicates_json.specs.Null.{null_text, null_formula};
ghost use Rattle.predicates_json.specs.NullLaws.{null_text_fits};

use crate::kind::kind;
use predicates_core::custom::{absent_case, is_other, leaf_change};
use predicates_core::node::{leaf_node, printed};
use predicates_core::reflection::{Case, Child, Parameter, PredicateReflection};
use predicates_core::{Predicate, PredicateChange, Total};
use serde_json::Value;
use std::alloc::{AllocError, Global};
use std::fmt;

/// Whether a value is null. Made by `is_null`.
#[derive(Debug, Clone, Copy, PartialEq, Eq, Drop)]
pub struct NullPredicate;

/// The predicate of null. On another value its case shows which kind that is. It takes no memory,
/// and neither does its `eval`.
///
/// ```
/// assert!(rt; is_null().eval(alloc, &Value::from_str(alloc, "null")?)?);
/// assert!(rt; !is_null().eval(alloc, &Value::from_str(alloc, "0")?)?);
/// ```
pub fn is_null() -> NullPredicate
    ensures formula { (v : JsonValue) (f : Formula)
        → ⟦<NullPredicate as Predicate<Value>>⟧.formula result v f
        ↔ IsExactly (null_formula (view v)) f }
    ensures lawful { ⟦<NullPredicate as Predicate<Value>>⟧.lawful result }
    ensures infallible { (v : JsonValue)
        → ⟦<NullPredicate as Predicate<Value>>⟧.infallible result v }
    ensures values { ⟦<NullPredicate as PredicateReflection>⟧.parameters_of result ≡ [] }
    ensures parts { ⟦<NullPredicate as PredicateReflection>⟧.children_of result ≡ empty }
{
    NullPredicate
}

impl fmt::Display for NullPredicate {
    ghost output = { λ p. Some null_text };

    fn fmt<W: fmt::Write>(&self, f: &mut fmt::Formatter<W>) -> fmt::Result {
        write!(f, "var.is_null()")
    }
}

impl PredicateReflection for NullPredicate {
    ghost parameters_of = { λ p. [] };

    ghost children_of = { λ p. empty };

    fn parameters(&self, alloc: Global) -> Result<Vec<Parameter>, AllocError> {
        Ok(Vec::new(alloc))
    }

    fn children(&self, alloc: Global) -> Result<Vec<Child>, AllocError> {
        Ok(Vec::new(alloc))
    }
}

impl Predicate<Value> for NullPredicate {
    ghost formula = { λ p v. IsExactly (null_formula (view v)) };

    ghost infallible = { λ p v. Unit {0} };

    ghost text_fits = { λ p v f. null_text_fits (view v) };

    ghost one_formula = { λ p v f g lawful. one_exactly };

    #[tactic(auto, using(crate::proofs::NullCases::null_cases))]
    fn eval(&self, _alloc: Global, item: &Value) -> Result<bool, AllocError> {
        Ok(item.is_null())
    }

    fn find_case(
        &self,
        alloc: Global,
        expected: bool,
        item: &Value,
    ) -> Result<Option<Case>, AllocError> {
        self.explain(alloc, Some(expected), item)
    }

    #[tactic(auto, using(crate::proofs::NullCases::null_cases))]
    fn explain(
        &self,
        alloc: Global,
        wanted: Option<bool>,
        item: &Value,
    ) -> Result<Option<Case>, AllocError> {
        let holds = item.is_null();
        if is_other(wanted, holds) {
            return Ok(None);
        }
        if holds {
            return Ok(Some(leaf_node(alloc, printed(alloc, self)?, true)));
        }
        Ok(Some(absent_case(alloc, self, kind(item))?))
    }
}

impl PredicateChange<Value> for NullPredicate {
    fn find_change(
        &self,
        alloc: Global,
        wanted: Option<bool>,
        item: &Value,
    ) -> Result<Option<Case>, AllocError> {
        leaf_change(alloc, self, wanted, item)
    }
}

impl Total<Value> for NullPredicate {
    ghost formula_of = { λ p v. null_formula (view v) };

    ghost always_lawful = { λ p. tt };

    ghost has_formula = { λ p v. record { is = refl } };
}
