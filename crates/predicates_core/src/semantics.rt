//! What leaves over a test mean on an item of any type, as contracts of calls that do nothing: the
//! calls that make them don't name the items that they are asked of.
//!
//! ```
//! // From here on a proof knows the formulas of `multiple` on 84, and that it takes no memory.
//! semantics::leaf(&multiple, &84);
//! ```
ghost use Rattle.std.specs.Prelude.{◌≡◌, ◌↔◌, [], codes};
ghost use Rattle.predicates_core.specs.Custom.{test_of, detailed_test_of};
ghost use Rattle.predicates_core.specs.Details.{showing_details};
ghost use Rattle.predicates_core.specs.Formula.{Formula, Leaf};
ghost use Rattle.predicates_core.specs.Label.{showing};
ghost use Rattle.predicates_core.specs.Leaves.{IsExactly};
ghost use Rattle.predicates_core.specs.Tree.{empty};

use crate::Predicate;
use crate::custom::{DetailedPredicate, DetailedTest, Test, TestPredicate};
use crate::reflection::PredicateReflection;
use std::fmt;

/// Its one formula is a leaf that shows the item and is true where the test holds.
pub fn leaf<T: Test<Item>, Item: fmt::Debug>(predicate: &TestPredicate<T>, item: &Item)
    ensures formula { (f : Formula)
        → ⟦<TestPredicate<T> as Predicate<Item>>⟧.formula predicate.now item.now f
        ↔ IsExactly (Leaf (showing (T.output (test_of predicate.now)) (codes "var")
        (Item.debug_output item.now)) (T.holds_of (test_of predicate.now) item.now)) f }
    ensures lawful { ⟦<TestPredicate<T> as Predicate<Item>>⟧.lawful predicate.now }
    ensures infallible { ⟦<TestPredicate<T> as Predicate<Item>>⟧.infallible
        predicate.now item.now }
    ensures values { ⟦<TestPredicate<T> as PredicateReflection>⟧.parameters_of predicate.now
        ≡ [] }
    ensures parts { ⟦<TestPredicate<T> as PredicateReflection>⟧.children_of predicate.now
        ≡ empty }
{}

/// Its one formula is a leaf that shows the item and then the products of the test, and is true
/// where the test holds.
pub fn detailed_leaf<T: DetailedTest<Item>, Item: fmt::Debug>(
    predicate: &DetailedPredicate<T>,
    item: &Item,
)
    ensures formula { (f : Formula)
        → ⟦<DetailedPredicate<T> as Predicate<Item>>⟧.formula predicate.now item.now f
        ↔ IsExactly (Leaf (showing_details (T.output (detailed_test_of predicate.now))
        (Item.debug_output item.now) (T.products_of (detailed_test_of predicate.now) item.now))
        (T.holds_of (detailed_test_of predicate.now) item.now)) f }
    ensures lawful { ⟦<DetailedPredicate<T> as Predicate<Item>>⟧.lawful predicate.now }
    ensures infallible { ⟦<DetailedPredicate<T> as Predicate<Item>>⟧.infallible
        predicate.now item.now }
    ensures values { ⟦<DetailedPredicate<T> as PredicateReflection>⟧.parameters_of predicate.now
        ≡ T.parameters_of (detailed_test_of predicate.now) }
    ensures parts { ⟦<DetailedPredicate<T> as PredicateReflection>⟧.children_of predicate.now
        ≡ empty }
{}
