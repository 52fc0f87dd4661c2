//! The one predicate behind the comparisons and the memberships: a test of the item.
ghost use Rattle.std.specs.Prelude.{◌≡◌, Bool, List, ℕ, codes, refl, string_bytes};
ghost use Rattle.std.specs.Fmt.{debug_str};
ghost use Rattle.predicates_core.specs.Formula.{Leaf};
ghost use Rattle.predicates_core.specs.Label.{showing};
ghost use Rattle.predicates_core.specs.Leaves.{IsExactly};
ghost use Rattle.predicates_core.specs.LeafLaws.{exactly_text_fits, one_exactly};
ghost use Rattle.predicates_core.specs.Text.{Text};
ghost use Rattle.predicates_core.specs.Tree.{empty};

use predicates_core::custom::{Test, TestParameters, leaf_change, showing_case};
use predicates_core::reflection::{Case, Child, Parameter, PredicateReflection};
use predicates_core::{Predicate, PredicateChange, ReadsContent, Total};
use std::alloc::{AllocError, Global};
use std::fmt;

/// A test of texts that depends on nothing but their content.
pub trait ContentTest: Test<String> {
    // Whether it holds of a text with these bytes.
    ghost holds_of_bytes: { Self → List ℕ → Bool };

    // To be proved: that is whether it holds of the text.
    ghost reads_bytes: { (test : Self) (text : Text)
        → holds_of_bytes test (string_bytes text) ≡ Self.holds_of test text };
}

/// Holds where its test does, and shows the item. It has the parameters of the test and no parts,
/// takes no memory to evaluate, and prints as the test does.
#[derive(Clone, Copy, PartialEq, Eq, Drop)]
pub struct ShowingPredicate<T> {
    pub(crate) test: T,
}

impl<T: TestParameters> ShowingPredicate<T> {
    // The predicate over this test.
    pub(crate) fn new<Item: fmt::Debug>(test: T) -> ShowingPredicate<T>
    where
        T: Test<Item>,
        ensures test { result.test ≡ test }
        ensures lawful { ⟦<ShowingPredicate<T> as Predicate<Item>>⟧.lawful result }
        ensures infallible { (v : Item)
            → ⟦<ShowingPredicate<T> as Predicate<Item>>⟧.infallible result v }
        ensures values { ⟦<ShowingPredicate<T> as PredicateReflection>⟧.parameters_of result
            ≡ T.parameters_of test }
        ensures parts { ⟦<ShowingPredicate<T> as PredicateReflection>⟧.children_of result
            ≡ empty }
    {
        ShowingPredicate { test }
    }
}

impl<T: fmt::Debug> fmt::Debug for ShowingPredicate<T> {
    ghost debug_output = { λ p. T.debug_output p.test };

    fn fmt<W: fmt::Write>(&self, f: &mut fmt::Formatter<W>) -> fmt::Result {
        self.test.fmt(f)
    }
}

impl<T: fmt::Display> fmt::Display for ShowingPredicate<T> {
    ghost output = { λ p. T.output p.test };

    fn fmt<W: fmt::Write>(&self, f: &mut fmt::Formatter<W>) -> fmt::Result {
        self.test.fmt(f)
    }
}

impl<T: fmt::Display + TestParameters> PredicateReflection for ShowingPredicate<T> {
    ghost parameters_of = { λ p. T.parameters_of p.test };

    ghost children_of = { λ p. empty };

    fn parameters(&self, alloc: Global) -> Result<Vec<Parameter>, AllocError> {
        self.test.parameters(alloc)
    }

    fn children(&self, alloc: Global) -> Result<Vec<Child>, AllocError> {
        Ok(Vec::new(alloc))
    }
}

impl<T: Test<Item> + TestParameters, Item: fmt::Debug> Predicate<Item> for ShowingPredicate<T> {
    ghost formula = { λ p v. IsExactly (Leaf
        (showing (T.output p.test) (codes "var") (Item.debug_output v))
        (T.holds_of p.test v)) };

    ghost infallible = { λ p v. Unit {0} };

    ghost text_fits = { λ p v f. exactly_text_fits };

    ghost one_formula = { λ p v f g lawful. one_exactly };

    #[tactic(auto, using(predicates_core::proofs::Leaves::leaves))]
    fn eval(&self, _alloc: Global, item: &Item) -> Result<bool, AllocError> {
        Ok(self.test.holds(item))
    }

    fn find_case(
        &self,
        alloc: Global,
        expected: bool,
        item: &Item,
    ) -> Result<Option<Case>, AllocError> {
        self.explain(alloc, Some(expected), item)
    }

    fn explain(
        &self,
        alloc: Global,
        wanted: Option<bool>,
        item: &Item,
    ) -> Result<Option<Case>, AllocError> {
        showing_case(alloc, self, self.test.holds(item), wanted, item)
    }
}

impl<T: Test<Item> + TestParameters, Item: fmt::Debug> PredicateChange<Item>
    for ShowingPredicate<T> {
    fn find_change(
        &self,
        alloc: Global,
        wanted: Option<bool>,
        item: &Item,
    ) -> Result<Option<Case>, AllocError> {
        leaf_change(alloc, self, wanted, item)
    }
}

impl<T: Test<Item> + TestParameters, Item: fmt::Debug> Total<Item> for ShowingPredicate<T> {
    ghost formula_of = { λ p v. Leaf
        (showing (T.output p.test) (codes "var") (Item.debug_output v))
        (T.holds_of p.test v) };

    ghost always_lawful = { λ p. tt };

    ghost has_formula = { λ p v. record { is = refl } };
}

impl<T: ContentTest + TestParameters> ReadsContent<String> for ShowingPredicate<T> {
    ghost content_formula = { λ p bytes. Leaf
        (showing (T.output p.test) (codes "var") (debug_str bytes))
        (T.holds_of_bytes p.test bytes) };

    ghost always_lawful = { λ p. tt };

    ghost has_formula = { λ p v. record {
      is = λ i. Leaf
          (showing (T.output p.test) (codes "var") (debug_str (string_bytes v)))
          (T.reads_bytes p.test v i);
    } };
}
