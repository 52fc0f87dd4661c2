//! A leaf over a test of an item.
ghost use Rattle.std.specs.Prelude.{◌≡◌, refl, [], codes, Bool};
ghost use Rattle.predicates_core.specs.Formula.{Leaf};
ghost use Rattle.predicates_core.specs.Label.{showing};
ghost use Rattle.predicates_core.specs.Leaves.{IsExactly};
ghost use Rattle.predicates_core.specs.Tree.{empty};
ghost use Rattle.predicates_core.specs.Custom.{test_of};
ghost use Rattle.predicates_core.specs.LeafLaws.{exactly_text_fits, one_exactly};

use crate::custom::{leaf_change, showing_case};
use crate::reflection::{Case, Child, Parameter, PredicateReflection};
use crate::{Predicate, PredicateChange, Total};
use std::alloc::{AllocError, Global};
use std::fmt;

/// A test of an item, and the text that the leaf over it prints. It takes no memory.
pub trait Test<Item>: fmt::Display {
    ghost holds_of: { Self → Item → Bool };

    /// Whether it holds of the item.
    fn holds(&self, item: &Item) -> bool
        ensures { result ≡ holds_of self.now item.now };
}

/// Holds where its test does, and shows the item. It has no parameters and no parts.
#[derive(Debug, Clone, Copy, PartialEq, Eq, Drop)]
pub struct TestPredicate<T> {
    test: T,
}

/// The predicate of a test.
///
/// ```
/// let multiple = leaf(MultipleOf { divisor: 42 });
/// assert!(rt; multiple.eval(alloc, &84)?);
/// assert!(rt; !multiple.eval(alloc, &41)?);
/// ```
pub fn leaf<T>(test: T) -> TestPredicate<T>
    ensures { test_of result ≡ test }
{
    TestPredicate { test }
}

impl<T: fmt::Display> fmt::Display for TestPredicate<T> {
    ghost output = { λ p. T.output p.test };

    fn fmt<W: fmt::Write>(&self, f: &mut fmt::Formatter<W>) -> fmt::Result {
        let test = &self.test;
        write!(f, "{test}")
    }
}

impl<T: fmt::Display> PredicateReflection for TestPredicate<T> {
    ghost parameters_of = { λ p. [] };

    ghost children_of = { λ p. empty };

    fn parameters(&self, alloc: Global) -> Result<Vec<Parameter>, AllocError> {
        Ok(Vec::new(alloc))
    }

    fn children(&self, alloc: Global) -> Result<Vec<Child>, AllocError> {
        Ok(Vec::new(alloc))
    }
}

impl<T: Test<Item>, Item: fmt::Debug> Predicate<Item> for TestPredicate<T> {
    ghost formula = { λ p v. IsExactly (Leaf
        (showing (T.output p.test) (codes "var") (Item.debug_output v))
        (T.holds_of p.test v)) };

    ghost infallible = { λ p v. Unit {0} };

    ghost text_fits = { λ p v f. exactly_text_fits };

    ghost one_formula = { λ p v f g lawful. one_exactly };

    #[tactic(auto, using(crate::proofs::Leaves::leaves))]
    fn eval(&self, _alloc: Global, item: &Item) -> Result<bool, AllocError> {
        Ok(self.test.holds(item))
    }

    fn find_case(
        &self,
        alloc: Global,
        expected: bool,
        item: &Item,
    ) -> Result<Option<Case>, AllocError> {
        self.explain(alloc, Some(expected), item)
    }

    fn explain(
        &self,
        alloc: Global,
        wanted: Option<bool>,
        item: &Item,
    ) -> Result<Option<Case>, AllocError> {
        showing_case(alloc, self, self.test.holds(item), wanted, item)
    }
}

impl<T: Test<Item>, Item: fmt::Debug> PredicateChange<Item> for TestPredicate<T> {
    fn find_change(
        &self,
        alloc: Global,
        wanted: Option<bool>,
        item: &Item,
    ) -> Result<Option<Case>, AllocError> {
        leaf_change(alloc, self, wanted, item)
    }
}

impl<T: Test<Item>, Item: fmt::Debug> Total<Item> for TestPredicate<T> {
    ghost formula_of = { λ p v. Leaf
        (showing (T.output p.test) (codes "var") (Item.debug_output v))
        (T.holds_of p.test v) };

    ghost always_lawful = { λ p. tt };

    ghost has_formula = { λ p v. record { is = refl } };
}
