//! A leaf over a test of an item that shows products of its own.
ghost use Rattle.std.specs.Prelude.{◌≡◌, List, [], Bool, IfOk, IsOk, refl};
ghost use Rattle.predicates_core.specs.Formula.{Leaf};
ghost use Rattle.predicates_core.specs.Label.{Product, FitsProducts};
ghost use Rattle.predicates_core.specs.Leaves.{IsExactly};
ghost use Rattle.predicates_core.specs.Details.{showing_details};
ghost use Rattle.predicates_core.specs.Shows.{IsAnswer, IsFound};
ghost use Rattle.predicates_core.specs.Tree.{empty};
ghost use Rattle.predicates_core.specs.Custom.{detailed_test_of};
ghost use Rattle.predicates_core.specs.LeafLaws.{exactly_text_fits, one_exactly};

use crate::custom::{Test, is_other, leaf_change};
use crate::node::{leaf_node, printed, showing_all, showing_item};
use crate::reflection::{Case, Child, Parameter, PredicateReflection, Product};
use crate::{Predicate, PredicateChange, Total};
use std::alloc::{AllocError, Global};
use std::fmt;

/// The values that a test was made with, which its leaf lists.
pub trait TestParameters {
    // The values that `parameters` is to give, in order.
    ghost parameters_of: { Self → List Product };

    /// The values that the test was made with, in order. It takes memory for them; where there are
    /// none it cannot fail.
    fn parameters(&self, alloc: Global) -> Result<Vec<Parameter>, AllocError>
        ensures fits { IfOk result (λ ps. FitsProducts (parameters_of self.now) ps.items) }
        ensures none { parameters_of self.now ≡ [] → IsOk result };
}

/// A test of an item that says what its leaf shows beside the item.
pub trait DetailedTest<Item>: Test<Item> + TestParameters {
    // The products that `products` is to give, in order.
    ghost products_of: { Self → Item → List Product };

    /// What the leaf shows behind the item, in order. It is asked only for a case, and takes memory
    /// for them.
    fn products(&self, alloc: Global, item: &Item) -> Result<Vec<Product>, AllocError>
        ensures { IfOk result (λ ps. FitsProducts (products_of self.now item.now) ps.items) };
}

/// Holds where its test does, and shows the item and then the products of the test. It has the
/// parameters of the test and no parts.
#[derive(Debug, Clone, Copy, PartialEq, Eq, Drop)]
pub struct DetailedPredicate<T> {
    test: T,
}

/// The predicate of a test that says what it shows. A case shows the item as `var` first.
///
/// ```
/// let divisible = detailed_leaf(DivisibleBy { divisor: 3 });
/// let case = divisible.find_case(alloc, false, &-7)?.ok_or("no case")?;
/// let lines = "var % 3 == 0 = false\n  - var: -7\n  - remainder: -1\n";
/// assert!(rt; render(alloc, &case)?.as_str() == lines);
/// ```
pub fn detailed_leaf<T>(test: T) -> DetailedPredicate<T>
    ensures { detailed_test_of result ≡ test }
{
    DetailedPredicate { test }
}

impl<T: fmt::Display> fmt::Display for DetailedPredicate<T> {
    ghost output = { λ p. T.output p.test };

    fn fmt<W: fmt::Write>(&self, f: &mut fmt::Formatter<W>) -> fmt::Result {
        let test = &self.test;
        write!(f, "{test}")
    }
}

impl<T: fmt::Display + TestParameters> PredicateReflection for DetailedPredicate<T> {
    ghost parameters_of = { λ p. T.parameters_of p.test };

    ghost children_of = { λ p. empty };

    fn parameters(&self, alloc: Global) -> Result<Vec<Parameter>, AllocError> {
        self.test.parameters(alloc)
    }

    fn children(&self, alloc: Global) -> Result<Vec<Child>, AllocError> {
        Ok(Vec::new(alloc))
    }
}

// The case of the test's verdict. It is not inlined, so that a caller that gets none uses no stack
// for it.
#[inline(never)]
fn make_detailed_case<T: DetailedTest<Item>, Item: fmt::Debug>(
    alloc: Global,
    test: &T,
    holds: bool,
    item: &Item,
) -> Result<Option<Case>, AllocError>
    ensures { IfOk result (IsAnswer (IsExactly (Leaf (showing_details
        (T.output test.now) (Item.debug_output item.now) (T.products_of test.now item.now))
        holds)) holds) }
{
    let bare = leaf_node(alloc, printed(alloc, test)?, holds);
    let case = showing_item(alloc, bare, item)?;
    let products = test.products(alloc, item)?;
    Ok(Some(showing_all(case, products)?))
}

// The `explain` of the leaf, from the verdict `holds` of its test.
fn detailed_case<T: DetailedTest<Item>, Item: fmt::Debug>(
    alloc: Global,
    test: &T,
    holds: bool,
    wanted: Option<bool>,
    item: &Item,
) -> Result<Option<Case>, AllocError>
    ensures { IfOk result (IsFound (IsExactly (Leaf (showing_details
        (T.output test.now) (Item.debug_output item.now) (T.products_of test.now item.now))
        holds)) wanted) }
{
    if is_other(wanted, holds) {
        return Ok(None);
    }
    make_detailed_case(alloc, test, holds, item)
}

impl<T: DetailedTest<Item>, Item: fmt::Debug> Predicate<Item> for DetailedPredicate<T> {
    ghost formula = { λ p v. IsExactly (Leaf
        (showing_details (T.output p.test) (Item.debug_output v) (T.products_of p.test v))
        (T.holds_of p.test v)) };

    ghost infallible = { λ p v. Unit {0} };

    ghost text_fits = { λ p v f. exactly_text_fits };

    ghost one_formula = { λ p v f g lawful. one_exactly };

    #[tactic(auto, using(crate::proofs::Leaves::leaves))]
    fn eval(&self, _alloc: Global, item: &Item) -> Result<bool, AllocError> {
        Ok(self.test.holds(item))
    }

    fn find_case(
        &self,
        alloc: Global,
        expected: bool,
        item: &Item,
    ) -> Result<Option<Case>, AllocError> {
        self.explain(alloc, Some(expected), item)
    }

    fn explain(
        &self,
        alloc: Global,
        wanted: Option<bool>,
        item: &Item,
    ) -> Result<Option<Case>, AllocError> {
        detailed_case(alloc, &self.test, self.test.holds(item), wanted, item)
    }
}

impl<T: DetailedTest<Item>, Item: fmt::Debug> PredicateChange<Item> for DetailedPredicate<T> {
    fn find_change(
        &self,
        alloc: Global,
        wanted: Option<bool>,
        item: &Item,
    ) -> Result<Option<Case>, AllocError> {
        leaf_change(alloc, self, wanted, item)
    }
}

impl<T: DetailedTest<Item>, Item: fmt::Debug> Total<Item> for DetailedPredicate<T> {
    ghost formula_of = { λ p v. Leaf
        (showing_details (T.output p.test) (Item.debug_output v) (T.products_of p.test v))
        (T.holds_of p.test v) };

    ghost always_lawful = { λ p. tt };

    ghost has_formula = { λ p v. record { is = refl } };
}
