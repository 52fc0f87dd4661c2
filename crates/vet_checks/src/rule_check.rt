//! A rule that a record keeps or breaks.
ghost use Rattle.std.specs.Prelude.{◌∷◌, refl, [], Some, IfOk, codes};
ghost use Rattle.predicates_core.specs.Tree.{empty};
ghost use Rattle.predicates_core.specs.Formula.{HasTruth};
ghost use Rattle.predicates_core.specs.Leaves.{IsExactly};
ghost use Rattle.predicates_core.specs.LeafLaws.{one_exactly};
ghost use Rattle.predicates_core.specs.Shows.{IsNode};
ghost use Rattle.serde_json.specs.View.{view};
ghost use Rattle.vet_checks.specs.RuleChecks.{rule_formula, name_of, tree_of_rule};
ghost use Rattle.vet_checks.specs.Scopes.{alone};
ghost use Rattle.vet_checks.specs.CheckLaws.{rule_text_fits};

use crate::check::Check;
use crate::matchers::Matchers;
use predicates_core::node::unary_node;
use predicates_core::reflection::{Case, Child, Parameter, PredicateReflection};
use predicates_core::{Predicate, PredicateChange, Total};
use serde_json::Value;
use std::alloc::{AllocError, Global};
use std::fmt;

/// A rule of a file: what it is called, and the check that it makes. It prints its name, and the
/// check stands under `rule`.
///
/// ```
/// let rule = RuleCheck { name, check }; // `adult`, and the check of `/age >= 18`
/// let record = Value::from_str(alloc, "{\"age\": 17}")?;
/// let case = rule.find_case(alloc, false, &record)?.ok_or("no case")?;
/// let lines = "adult = false\n  rule: /age >= 18 = false\n    - found: 17\n";
/// assert!(rt; render(alloc, &case)?.as_str() == lines);
/// ```
#[derive(Drop)]
pub struct RuleCheck {
    pub name: String,
    pub check: Check,
}

impl fmt::Display for RuleCheck {
    ghost output = { λ r. Some (name_of r) };

    fn fmt<W: fmt::Write>(&self, f: &mut fmt::Formatter<W>) -> fmt::Result {
        f.write_str(&self.name)
    }
}

impl PredicateReflection for RuleCheck {
    ghost parameters_of = { λ _. [] };

    ghost children_of = { λ _. empty };

    fn parameters(&self, alloc: Global) -> Result<Vec<Parameter>, AllocError> {
        Ok(Vec::new(alloc))
    }

    fn children(&self, alloc: Global) -> Result<Vec<Child>, AllocError> {
        Ok(Vec::new(alloc))
    }
}

impl RuleCheck {
    /// Whether it holds of the value, as `eval` says, by the matchers of a run.
    ///
    /// ```
    /// let mut matchers = Matchers::new(alloc, &rules);
    /// assert!(rt; !rule.holds(alloc, &mut matchers, &record)?);
    /// ```
    pub fn holds(
        &self,
        alloc: Global,
        matchers: &mut Matchers<'_>,
        item: &Value,
    ) -> Result<bool, AllocError>
        ensures { IfOk result (HasTruth (IsExactly
            (rule_formula (name_of self.now) (tree_of_rule self.now) (alone (view item.now))))) }
    {
        let holds = self.check.holds(alloc, matchers, item)?;
        Ok(holds)
    }

    // The node of the rule over what was found of its check.
    fn node_over(&self, alloc: Global, case: Case) -> Result<Case, AllocError>
        ensures { IfOk result (IsNode (Some (name_of self.now)) case.root.result
            ((codes "rule", case) ∷ [])) }
    {
        let name = String::from_str(alloc, &self.name)?;
        let outcome = case.root().result();
        unary_node(alloc, name, outcome, "rule", case)
    }
}

impl Predicate<Value> for RuleCheck {
    ghost formula = { λ r v.
        IsExactly (rule_formula (name_of r) (tree_of_rule r) (alone (view v))) };

    ghost infallible = { λ _ _. ⊥ };

    ghost text_fits = { λ r v f. rule_text_fits (name_of r) (tree_of_rule r) (alone (view v)) };

    ghost one_formula = { λ r v f g lawful. one_exactly };

    fn eval(&self, alloc: Global, item: &Value) -> Result<bool, AllocError> {
        let mut matchers = Matchers::new(alloc, &[]);
        let held = self.holds(alloc, &mut matchers, item)?;
        Ok(held)
    }

    fn find_case(
        &self,
        alloc: Global,
        expected: bool,
        item: &Value,
    ) -> Result<Option<Case>, AllocError> {
        self.explain(alloc, Some(expected), item)
    }

    fn explain(
        &self,
        alloc: Global,
        wanted: Option<bool>,
        item: &Value,
    ) -> Result<Option<Case>, AllocError> {
        let Some(case) = self.check.explain(alloc, wanted, item)? else {
            return Ok(None);
        };
        let node = self.node_over(alloc, case)?;
        Ok(Some(node))
    }
}

impl PredicateChange<Value> for RuleCheck {
    fn find_change(
        &self,
        alloc: Global,
        wanted: Option<bool>,
        item: &Value,
    ) -> Result<Option<Case>, AllocError> {
        let Some(case) = self.check.find_change(alloc, wanted, item)? else {
            return Ok(None);
        };
        let node = self.node_over(alloc, case)?;
        Ok(Some(node))
    }
}

impl Total<Value> for RuleCheck {
    ghost formula_of = { λ r v. rule_formula (name_of r) (tree_of_rule r) (alone (view v)) };

    ghost always_lawful = { λ _. tt };

    ghost has_formula = { λ r v. record { is = refl } };
}
