//! The one predicate behind the tests of files: a leaf that shows at most one product.
ghost use Rattle.std.specs.Prelude.{◌≡◌, Bool, Option, IfOk, refl};
ghost use Rattle.predicates_core.specs.Label.{Product};
ghost use Rattle.predicates_core.specs.Leaves.{IsExactly};
ghost use Rattle.predicates_core.specs.LeafLaws.{exactly_text_fits, one_exactly};
ghost use Rattle.predicates_core.specs.Tree.{empty};
ghost use Rattle.predicates_path.specs.FileTest.{IsShown, file_leaf};
ghost use Rattle.predicates_path.specs.declared.snapshot.Snapshot.{Snapshot};

use crate::Snapshot;
use predicates_core::custom::{TestParameters, is_other, leaf_change};
use predicates_core::node::{leaf_node, printed};
use predicates_core::reflection::{Case, Child, Parameter, PredicateReflection};
use predicates_core::{Predicate, PredicateChange, Total};
use std::alloc::{AllocError, Global};
use std::fmt;

/// A test of a snapshot, bytes or a text, and what the leaf over it prints and shows.
pub trait FileTest<Item>: fmt::Display + TestParameters {
    // Whether it holds of the item.
    ghost holds_of: { Self → Item → Bool };

    // What the leaf shows of the item, if anything.
    ghost product_of: { Self → Item → Option Product };

    /// Whether it holds of the item. It takes no memory.
    fn holds(&self, item: &Item) -> bool
        ensures { result ≡ holds_of self.now item.now };

    /// The case with what the leaf shows.
    fn show(&self, alloc: Global, case: Case, item: &Item) -> Result<Case, AllocError>
        ensures { IfOk result (IsShown (product_of self.now item.now) case) };
}

/// Holds where its test does, and shows what that says. It has the parameters of the test and no
/// parts, takes no memory to evaluate, and prints as the test does.
#[derive(Clone, Copy, PartialEq, Eq, Drop)]
pub struct FileTestPredicate<T> {
    pub(crate) test: T,
}

impl<T: FileTest<Snapshot>> FileTestPredicate<T> {
    // The predicate of the test.
    pub(crate) fn new(test: T) -> FileTestPredicate<T>
        ensures test { result.test ≡ test }
        ensures lawful { ⟦<FileTestPredicate<T> as Predicate<Snapshot>>⟧.lawful result }
        ensures infallible { (s : Snapshot)
            → ⟦<FileTestPredicate<T> as Predicate<Snapshot>>⟧.infallible result s }
        ensures values { ⟦<FileTestPredicate<T> as PredicateReflection>⟧.parameters_of result
            ≡ T.parameters_of test }
        ensures parts { ⟦<FileTestPredicate<T> as PredicateReflection>⟧.children_of result
            ≡ empty }
    {
        FileTestPredicate { test }
    }
}

impl<T: fmt::Debug> fmt::Debug for FileTestPredicate<T> {
    ghost debug_output = { λ p. T.debug_output p.test };

    fn fmt<W: fmt::Write>(&self, f: &mut fmt::Formatter<W>) -> fmt::Result {
        self.test.fmt(f)
    }
}

impl<T: fmt::Display> fmt::Display for FileTestPredicate<T> {
    ghost output = { λ p. T.output p.test };

    fn fmt<W: fmt::Write>(&self, f: &mut fmt::Formatter<W>) -> fmt::Result {
        self.test.fmt(f)
    }
}

impl<T: fmt::Display + TestParameters> PredicateReflection for FileTestPredicate<T> {
    ghost parameters_of = { λ p. T.parameters_of p.test };

    ghost children_of = { λ p. empty };

    fn parameters(&self, alloc: Global) -> Result<Vec<Parameter>, AllocError> {
        self.test.parameters(alloc)
    }

    fn children(&self, alloc: Global) -> Result<Vec<Child>, AllocError> {
        Ok(Vec::new(alloc))
    }
}

impl<T: FileTest<Item>, Item> Predicate<Item> for FileTestPredicate<T> {
    ghost formula = { λ p v. IsExactly
        (file_leaf (T.output p.test) (T.product_of p.test v) (T.holds_of p.test v)) };

    ghost infallible = { λ p v. Unit {0} };

    ghost text_fits = { λ p v f. exactly_text_fits };

    ghost one_formula = { λ p v f g lawful. one_exactly };

    #[tactic(auto, using(predicates_core::proofs::Leaves::leaves))]
    fn eval(&self, _alloc: Global, item: &Item) -> Result<bool, AllocError> {
        Ok(self.test.holds(item))
    }

    fn find_case(
        &self,
        alloc: Global,
        expected: bool,
        item: &Item,
    ) -> Result<Option<Case>, AllocError> {
        self.explain(alloc, Some(expected), item)
    }

    fn explain(
        &self,
        alloc: Global,
        wanted: Option<bool>,
        item: &Item,
    ) -> Result<Option<Case>, AllocError> {
        let holds = self.test.holds(item);
        if is_other(wanted, holds) {
            return Ok(None);
        }
        let case = leaf_node(alloc, printed(alloc, &self.test)?, holds);
        Ok(Some(self.test.show(alloc, case, item)?))
    }
}

impl<T: FileTest<Item>, Item> PredicateChange<Item> for FileTestPredicate<T> {
    fn find_change(
        &self,
        alloc: Global,
        wanted: Option<bool>,
        item: &Item,
    ) -> Result<Option<Case>, AllocError> {
        leaf_change(alloc, self, wanted, item)
    }
}

impl<T: FileTest<Item>, Item> Total<Item> for FileTestPredicate<T> {
    ghost formula_of = { λ p v.
        file_leaf (T.output p.test) (T.product_of p.test v) (T.holds_of p.test v) };

    ghost always_lawful = { λ p. tt };

    ghost has_formula = { λ p v. record { is = refl } };
}
