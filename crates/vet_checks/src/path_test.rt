//! A test of the value at a path.
ghost use Rattle.std.specs.Prelude.{◌≡◌, refl, [], Some, IfOk, IfSome, false};
ghost use Rattle.std.specs.Option.{unwrap_or};
ghost use Rattle.predicates_core.specs.Tree.{empty};
ghost use Rattle.predicates_core.specs.Formula.{HasTruth};
ghost use Rattle.predicates_core.specs.Leaves.{IsExactly};
ghost use Rattle.predicates_core.specs.LeafLaws.{one_exactly};
ghost use Rattle.predicates_core.specs.Shows.{IsCaseOf, IsFound};
ghost use Rattle.serde_json.specs.View.{view};
ghost use Rattle.regex.specs.Strings.{regex_source};
ghost use Rattle.vet_checks.specs.CheckLaws.{test_text_fits};
ghost use Rattle.vet_checks.specs.CheckTrees.{test_formula, answer_leaf, found_leaf};
ghost use Rattle.vet_checks.specs.CheckTrees.{misfit_leaf, shown_beside};
ghost use Rattle.vet_checks.specs.Nodes.{text_of_test, path_of_test};
ghost use Rattle.vet_checks.specs.Patterns.{regex_of};
ghost use Rattle.vet_checks.specs.Questions.{answer_at, misfit_text};
ghost use Rattle.vet_checks.specs.Scopes.{place_of, stands};

use crate::leaf::{bare_leaf, found_at, nothing_at};
use crate::matchers::Matchers;
use crate::pattern::Pattern;
use crate::question::Question;
use crate::scope::Scope;
use predicates_core::custom::is_other;
use predicates_core::node::showing;
use predicates_core::reflection::{Case, Child, Parameter, PredicateReflection};
use predicates_core::{Predicate, PredicateChange, Total};
use predicates_tree::EvaluateWith;
use serde_json::Value;
use std::alloc::{AllocError, Global};
use std::fmt;

/// A test of the value at a path. It prints the test as a rule writes it, and its case shows the
/// value that it found, or says what is wrong.
#[derive(Drop)]
pub struct PathTest {
    pub(crate) text: String,
    pub(crate) path: String,
    pub(crate) question: Question,
}

impl fmt::Display for PathTest {
    ghost output = { λ t. Some (text_of_test t) };

    fn fmt<W: fmt::Write>(&self, f: &mut fmt::Formatter<W>) -> fmt::Result {
        f.write_str(&self.text)
    }
}

impl PredicateReflection for PathTest {
    ghost parameters_of = { λ _. [] };

    ghost children_of = { λ _. empty };

    fn parameters(&self, alloc: Global) -> Result<Vec<Parameter>, AllocError> {
        Ok(Vec::new(alloc))
    }

    fn children(&self, alloc: Global) -> Result<Vec<Child>, AllocError> {
        Ok(Vec::new(alloc))
    }
}

impl PathTest {
    // What it answers of an item of a record, by the matchers of a run, or none where it can't.
    fn answer_in(
        &self,
        alloc: Global,
        matchers: &mut Matchers<'_>,
        scope: Scope<'_>,
    ) -> Result<Option<bool>, AllocError>
        ensures { IfOk result (λ answer. answer ≡ answer_at self.now.question
            (place_of scope.entry) (stands (path_of_test self.now) (place_of scope.entry))) }
    {
        match scope.at(&self.path) {
            Some(value) => {
                let answer = self.question.verdict(alloc, matchers, scope, value)?;
                Ok(answer)
            }
            None => Ok(self.question.verdict_of_nothing()),
        }
    }

    // Whether it holds.
    fn holds_in(
        &self,
        alloc: Global,
        matchers: &mut Matchers<'_>,
        scope: Scope<'_>,
    ) -> Result<bool, AllocError>
        ensures { IfOk result (HasTruth (IsExactly
            (test_formula self.now (place_of scope.entry)))) }
    {
        let answer = self.answer_in(alloc, matchers, scope)?;
        Ok(answer.unwrap_or(false))
    }

    // What is found.
    fn explain_in(
        &self,
        alloc: Global,
        wanted: Option<bool>,
        scope: Scope<'_>,
    ) -> Result<Option<Case>, AllocError>
        ensures { IfOk result (IsFound (IsExactly
            (test_formula self.now (place_of scope.entry))) wanted) }
    {
        let mut matchers = Matchers::new(alloc, &[]);
        let answer = self.answer_in(alloc, &mut matchers, scope)?;
        if is_other(wanted, answer.unwrap_or(false)) {
            return Ok(None);
        }
        let case = self.case_of(alloc, scope, answer)?;
        Ok(Some(case))
    }

    // Its pattern, if it has one that was read from the source.
    pub(crate) fn pattern_of(&self, source: &str) -> Option<&Pattern>
        ensures { IfSome result (λ p. regex_source (regex_of p.now) ≡ source.now) }
    {
        self.question.pattern_of(source)
    }

    // The case of its answer.
    #[tactic(auto, using(crate::proofs::Leaving::answers))]
    fn case_of(
        &self,
        alloc: Global,
        scope: Scope<'_>,
        answer: Option<bool>,
    ) -> Result<Case, AllocError>
        ensures { IfOk result (IsCaseOf (IsExactly (answer_leaf (text_of_test self.now)
            (path_of_test self.now) self.now.question (place_of scope.entry)
            (stands (path_of_test self.now) (place_of scope.entry)) answer))
            (unwrap_or answer false)) }
    {
        match (scope.at(&self.path), answer) {
            (Some(value), Some(holds)) => {
                let case = self.value_case(alloc, scope, value, holds)?;
                Ok(case)
            }
            (Some(value), None) => {
                let case = self.misfit_case(alloc, scope, value)?;
                Ok(case)
            }
            (None, Some(holds)) => {
                let case = bare_leaf(alloc, &self.text, holds)?;
                Ok(case)
            }
            (None, None) => {
                let case = nothing_at(alloc, &self.text, &self.path)?;
                Ok(case)
            }
        }
    }

    // The case that shows the value, and what is shown beside it.
    fn value_case(
        &self,
        alloc: Global,
        scope: Scope<'_>,
        value: &Value,
        holds: bool,
    ) -> Result<Case, AllocError>
        ensures { IfOk result (IsCaseOf (IsExactly (found_leaf (text_of_test self.now)
            (view value.now)
            (shown_beside self.now.question (place_of scope.entry) (view value.now)) holds))
            holds) }
    {
        let case = found_at(alloc, &self.text, value, holds)?;
        let shown = self.question.showing_beside(alloc, case, scope, value)?;
        Ok(shown)
    }

    // The same of a value that can't answer, with why.
    fn misfit_case(
        &self,
        alloc: Global,
        scope: Scope<'_>,
        value: &Value,
    ) -> Result<Case, AllocError>
        ensures { IfOk result (IsCaseOf (IsExactly (misfit_leaf (text_of_test self.now)
            (misfit_text self.now.question (place_of scope.entry)) (view value.now)
            (shown_beside self.now.question (place_of scope.entry) (view value.now))))
            false) }
    {
        let case = self.value_case(alloc, scope, value, false)?;
        let error = self.question.misfit(alloc, scope)?;
        Ok(showing(case, "error", error)?)
    }
}

impl<'v> Predicate<Scope<'v>> for PathTest {
    ghost formula = { λ t s. IsExactly (test_formula t (place_of s)) };

    ghost infallible = { λ _ _. ⊥ };

    ghost text_fits = { λ t s f. test_text_fits t (place_of s) };

    ghost one_formula = { λ t s f g lawful. one_exactly };

    fn eval(&self, alloc: Global, item: &Scope<'v>) -> Result<bool, AllocError> {
        let mut matchers = Matchers::new(alloc, &[]);
        let held = self.holds_in(alloc, &mut matchers, *item)?;
        Ok(held)
    }

    fn find_case(
        &self,
        alloc: Global,
        expected: bool,
        item: &Scope<'v>,
    ) -> Result<Option<Case>, AllocError> {
        self.explain_in(alloc, Some(expected), *item)
    }

    fn explain(
        &self,
        alloc: Global,
        wanted: Option<bool>,
        item: &Scope<'v>,
    ) -> Result<Option<Case>, AllocError> {
        self.explain_in(alloc, wanted, *item)
    }
}

impl<'v> PredicateChange<Scope<'v>> for PathTest {
    fn find_change(
        &self,
        alloc: Global,
        wanted: Option<bool>,
        item: &Scope<'v>,
    ) -> Result<Option<Case>, AllocError> {
        let found = self.explain_in(alloc, wanted, *item)?;
        Ok(found)
    }
}

impl<'v> Total<Scope<'v>> for PathTest {
    ghost formula_of = { λ t s. test_formula t (place_of s) };

    ghost always_lawful = { λ _. tt };

    ghost has_formula = { λ t s. record { is = refl } };
}

impl<'r, 'v> EvaluateWith<Scope<'v>, Matchers<'r>> for PathTest {
    fn eval_with(
        &self,
        alloc: Global,
        context: &mut Matchers<'r>,
        item: &Scope<'v>,
    ) -> Result<bool, AllocError> {
        let held = self.holds_in(alloc, context, *item)?;
        Ok(held)
    }
}
