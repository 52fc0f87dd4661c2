//! The one predicate behind all tests of a text: a leaf that shows the text.
ghost use Rattle.std.specs.Prelude.{◌≡◌, ◌↔◌, refl, [], ℕ, Bool, List, IfOk, IsOk, string_bytes};
ghost use Rattle.predicates_core.specs.Formula.{Formula};
ghost use Rattle.predicates_core.specs.LeafLaws.{exactly_text_fits, one_exactly};
ghost use Rattle.predicates_core.specs.Leaves.{IsExactly};
ghost use Rattle.predicates_core.specs.Text.{Text};
ghost use Rattle.predicates_core.specs.Tree.{empty};
ghost use Rattle.predicates_text.specs.Leaves.{text_leaf};

use crate::leaf_case::text_case;
use predicates_core::custom::leaf_change;
use predicates_core::reflection::{Case, Child, Parameter, PredicateReflection};
use predicates_core::{Predicate, PredicateChange, ReadsContent, Total};
use std::alloc::{AllocError, Global};
use std::fmt;

/// A test of a text, and what the leaf over it prints.
pub trait TextTest: fmt::Display {
    // What the leaf over it means on the text with the bytes.
    ghost leaf: { Self → List ℕ → Formula → Type 0 };

    // Whether it holds of that text.
    ghost holds_of: { Self → List ℕ → Bool };

    // Asking it takes no memory.
    ghost infallible: { Self → Type 0 } = { λ _. Unit {0} };

    /// Whether it holds of the text. It fails only where memory runs out.
    fn holds(&self, alloc: Global, text: &str) -> Result<bool, AllocError>
        ensures truth { IfOk result (λ holds. holds ≡ holds_of self.now text.now) }
        ensures infallible { infallible self.now → IsOk result };

    // To be proved: that is the leaf that shows the text and is true where the test holds.
    ghost is_leaf: { (t : Self) (bytes : List ℕ) (f : Formula) → leaf t bytes f
        ↔ IsExactly (text_leaf (Self.output t) bytes (holds_of t bytes)) f };
}

/// Holds where its test does, and shows the text. It has no parameters and no parts.
#[derive(Clone, Copy, PartialEq, Eq, Drop)]
pub struct TextTestPredicate<T> {
    pub(crate) test: T,
}

impl<T: TextTest> TextTestPredicate<T> {
    // The predicate over this test.
    pub(crate) fn new(test: T) -> TextTestPredicate<T>
        ensures test { result.test ≡ test }
        ensures lawful { ⟦<TextTestPredicate<T> as Predicate<String>>⟧.lawful result }
        ensures infallible { (v : Text)
            → ⟦<TextTestPredicate<T> as Predicate<String>>⟧.infallible result v
            ↔ T.infallible test }
        ensures values { ⟦<TextTestPredicate<T> as PredicateReflection>⟧.parameters_of result
            ≡ [] }
        ensures parts { ⟦<TextTestPredicate<T> as PredicateReflection>⟧.children_of result
            ≡ empty }
    {
        TextTestPredicate { test }
    }

    // Whether the test holds of the text. Not inlined, so that `explain` has a small frame.
    #[inline(never)]
    fn verdict(&self, alloc: Global, text: &str) -> Result<bool, AllocError>
        ensures { IfOk result (λ holds. holds ≡ T.holds_of self.now.test text.now) }
    {
        self.test.holds(alloc, text)
    }
}

// Its debug form is that of its test, which has the name of the leaf.
impl<T: fmt::Debug> fmt::Debug for TextTestPredicate<T> {
    ghost debug_output = { λ p. T.debug_output p.test };

    fn fmt<W: fmt::Write>(&self, f: &mut fmt::Formatter<W>) -> fmt::Result {
        self.test.fmt(f)
    }
}

impl<T: fmt::Display> fmt::Display for TextTestPredicate<T> {
    ghost output = { λ p. T.output p.test };

    fn fmt<W: fmt::Write>(&self, f: &mut fmt::Formatter<W>) -> fmt::Result {
        let test = &self.test;
        write!(f, "{test}")
    }
}

impl<T: fmt::Display> PredicateReflection for TextTestPredicate<T> {
    ghost parameters_of = { λ p. [] };

    ghost children_of = { λ p. empty };

    fn parameters(&self, alloc: Global) -> Result<Vec<Parameter>, AllocError> {
        Ok(Vec::new(alloc))
    }

    fn children(&self, alloc: Global) -> Result<Vec<Child>, AllocError> {
        Ok(Vec::new(alloc))
    }
}

impl<T: TextTest> Predicate<String> for TextTestPredicate<T> {
    ghost formula = { λ p v. T.leaf p.test (string_bytes v) };

    ghost infallible = { λ p v. T.infallible p.test };

    ghost text_fits = { λ p v f h. exactly_text_fits
        ((T.is_leaf p.test (string_bytes v) f).0 h) };

    ghost one_formula = { λ p v f g lawful h k. one_exactly
        ((T.is_leaf p.test (string_bytes v) f).0 h) ((T.is_leaf p.test (string_bytes v) g).0 k) };

    fn eval(&self, alloc: Global, item: &String) -> Result<bool, AllocError> {
        self.test.holds(alloc, item)
    }

    fn find_case(
        &self,
        alloc: Global,
        expected: bool,
        item: &String,
    ) -> Result<Option<Case>, AllocError> {
        self.explain(alloc, Some(expected), item)
    }

    fn explain(
        &self,
        alloc: Global,
        wanted: Option<bool>,
        item: &String,
    ) -> Result<Option<Case>, AllocError> {
        let holds = self.verdict(alloc, item)?;
        text_case(alloc, self, holds, wanted, item)
    }
}

impl<T: TextTest> PredicateChange<String> for TextTestPredicate<T> {
    fn find_change(
        &self,
        alloc: Global,
        wanted: Option<bool>,
        item: &String,
    ) -> Result<Option<Case>, AllocError> {
        leaf_change(alloc, self, wanted, item)
    }
}

impl<T: TextTest> Total<String> for TextTestPredicate<T> {
    ghost formula_of = { λ p v. text_leaf
        (T.output p.test) (string_bytes v) (T.holds_of p.test (string_bytes v)) };

    ghost always_lawful = { λ p. tt };

    ghost has_formula = { λ p v. (T.is_leaf p.test (string_bytes v) _).1
        (record { is = refl }) };
}

impl<T: TextTest> ReadsContent<String> for TextTestPredicate<T> {
    ghost content_formula = { λ p bytes. text_leaf
        (T.output p.test) bytes (T.holds_of p.test bytes) };

    ghost always_lawful = { λ p. tt };

    ghost has_formula = { λ p t. (T.is_leaf p.test (string_bytes t) _).1
        (record { is = refl }) };
}
