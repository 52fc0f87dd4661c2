//! A check of a JSON value, made of a rule's expression.
ghost use Rattle.std.specs.Prelude.{◌≡◌, refl, [], IfOk, Some};
ghost use Rattle.predicates_core.specs.Tree.{empty};
ghost use Rattle.predicates_core.specs.Formula.{HasTruth};
ghost use Rattle.predicates_core.specs.Leaves.{IsExactly};
ghost use Rattle.predicates_core.specs.LeafLaws.{one_exactly};
ghost use Rattle.serde_json.specs.View.{view};
ghost use Rattle.vet_checks.specs.CheckTrees.{check_formula, check_text, check_tree};
ghost use Rattle.vet_checks.specs.CheckLaws.{check_text_fits};
ghost use Rattle.vet_checks.specs.Checks.{tree_of_check};
ghost use Rattle.vet_checks.specs.Scopes.{alone};

use crate::elements::Elements;
use crate::matchers::Matchers;
use crate::path_test::PathTest;
use crate::scope::Scope;
use crate::written::Written;
use predicates_core::reflection::{Case, Child, Parameter, PredicateReflection};
use predicates_core::{Predicate, PredicateChange, Total};
use serde_json::Value;
use std::alloc::{AllocError, Global};
use std::fmt;

// The tree of a rule: tests of what stands at paths, over items of a record, each node with its
// printed text.
pub(crate) type Tree = predicates_tree::Check<PathTest, Elements, Written>;

/// A check of a JSON value, in the form of a rule's expression. It has no parameters and no
/// children, and what is over a path or over parts has its printed text with it. `find_case` and
/// `explain` ask each test once of an item, at most, however deep it stands.
///
/// Of many parts as many have to hold as the rule says: a row without parts holds under `and`
/// alone. At least so many of the parts is a leaf where that is so whatever they answer, or is not,
/// which says how many there are. What is asked of each, of any or of so many items is asked of
/// those of the array at the path, or of the object's values in the order of its keys. What is
/// neither is a false leaf that says so. A path that begins with `^` leads from the record on, and
/// not from the item. A call lists the items: the error is memory that was refused.
#[derive(Drop)]
pub struct Check {
    pub(crate) tree: Tree,
}

impl fmt::Display for Check {
    ghost output = { λ c. check_text (tree_of_check c) };

    fn fmt<W: fmt::Write>(&self, f: &mut fmt::Formatter<W>) -> fmt::Result {
        f.write_str(self.text())
    }
}

impl PredicateReflection for Check {
    ghost parameters_of = { λ _. [] };

    ghost children_of = { λ _. empty };

    fn parameters(&self, alloc: Global) -> Result<Vec<Parameter>, AllocError> {
        Ok(Vec::new(alloc))
    }

    fn children(&self, alloc: Global) -> Result<Vec<Child>, AllocError> {
        Ok(Vec::new(alloc))
    }
}

// The text that the tree's node on top keeps.
fn text_of(tree: &Tree) -> &str
    ensures { Some result.now ≡ check_text (check_tree tree.now) }
{
    match tree {
        Tree::Leaf(test) => &test.text,
        Tree::Named(name, _) => name.as_str(),
        Tree::Not(written, _)
        | Tree::Pair(written, _, _, _)
        | Tree::Row(written, _, _)
        | Tree::Members(written, _, _, _) => &written.text,
    }
}

impl Check {
    /// What the check prints. It takes no memory.
    pub fn text(&self) -> &str
        ensures { Some result.now ≡ check_text (tree_of_check self.now) }
    {
        text_of(&self.tree)
    }

    /// Whether it holds of the value, as `eval` says, by the matchers of a run.
    ///
    /// ```
    /// let record = Value::from_str(alloc, "{\"age\": 18}")?;
    /// assert!(rt; rule.check.holds(alloc, &mut matchers, &record)?);
    /// ```
    pub fn holds(
        &self,
        alloc: Global,
        matchers: &mut Matchers<'_>,
        item: &Value,
    ) -> Result<bool, AllocError>
        ensures { IfOk result (HasTruth (IsExactly
            (check_formula (tree_of_check self.now) (alone (view item.now))))) }
    {
        let scope = Scope { whole: item, item };
        let held = self.tree.eval_with(alloc, matchers, &scope)?;
        Ok(held)
    }
}

impl Predicate<Value> for Check {
    ghost formula = { λ c v. IsExactly (check_formula (tree_of_check c) (alone (view v))) };

    ghost infallible = { λ _ _. ⊥ };

    ghost text_fits = { λ c v f. check_text_fits (tree_of_check c) (alone (view v)) };

    ghost one_formula = { λ c v f g lawful. one_exactly };

    fn eval(&self, alloc: Global, item: &Value) -> Result<bool, AllocError> {
        let mut matchers = Matchers::new(alloc, &[]);
        let held = self.holds(alloc, &mut matchers, item)?;
        Ok(held)
    }

    fn find_case(
        &self,
        alloc: Global,
        expected: bool,
        item: &Value,
    ) -> Result<Option<Case>, AllocError> {
        self.explain(alloc, Some(expected), item)
    }

    fn explain(
        &self,
        alloc: Global,
        wanted: Option<bool>,
        item: &Value,
    ) -> Result<Option<Case>, AllocError> {
        let scope = Scope { whole: item, item };
        let found = self.tree.explain(alloc, wanted, &scope)?;
        Ok(found)
    }
}

impl PredicateChange<Value> for Check {
    fn find_change(
        &self,
        alloc: Global,
        wanted: Option<bool>,
        item: &Value,
    ) -> Result<Option<Case>, AllocError> {
        let scope = Scope { whole: item, item };
        let found = self.tree.find_change(alloc, wanted, &scope)?;
        Ok(found)
    }
}

impl Total<Value> for Check {
    ghost formula_of = { λ c v. check_formula (tree_of_check c) (alone (view v)) };

    ghost always_lawful = { λ _. tt };

    ghost has_formula = { λ c v. record { is = refl } };
}
