//! The one predicate behind all counts: a leaf that shows the text and how many there are in it.
ghost use Rattle.std.specs.Prelude.{◌≡◌, ◌↔◌, refl, ℕ, List, Some, IfOk, IsOk, codes, string_bytes};
ghost use Rattle.std.specs.Fmt.{decimal};
ghost use Rattle.predicates_core.specs.Formula.{Formula};
ghost use Rattle.predicates_core.specs.Label.{value_of};
ghost use Rattle.predicates_core.specs.LeafLaws.{exactly_text_fits, one_exactly};
ghost use Rattle.predicates_core.specs.Leaves.{IsExactly};
ghost use Rattle.predicates_core.specs.Text.{Text};
ghost use Rattle.predicates_core.specs.Tree.{empty};
ghost use Rattle.predicates_text.specs.Leaves.{number_leaf};

use crate::leaf_case::count_case;
use predicates_core::custom::leaf_change;
use predicates_core::reflection::{Case, Child, Parameter, PredicateReflection};
use predicates_core::{Predicate, PredicateChange, ReadsContent, Total};
use std::alloc::{AllocError, Global};
use std::fmt;

/// What is counted in a text, and what the leaf over it prints.
pub trait TextCount: fmt::Display {
    // What the leaf that asks for so many means on the text with the bytes.
    ghost leaf: { Self → ℕ → List ℕ → Formula → Type 0 };

    // How many there are in that text.
    ghost number_of: { Self → List ℕ → ℕ };

    // Counting takes no memory.
    ghost infallible: { Self → Type 0 } = { λ _. Unit {0} };

    /// How many there are in the text. It fails only where memory runs out.
    fn number_in(&self, alloc: Global, text: &str) -> Result<usize, AllocError>
        ensures number { IfOk result (λ n. n ≡ number_of self.now text.now) }
        ensures infallible { infallible self.now → IsOk result };

    // To be proved: that is the leaf that shows this number, and is true where it is the count.
    ghost is_leaf: { (t : Self) (count : ℕ) (bytes : List ℕ) (f : Formula) → leaf t count bytes f
        ↔ IsExactly (number_leaf (Self.output t) bytes (number_of t bytes) count) f };
}

/// Holds where there are so many in the text, and shows the text and their number. It has no parts.
#[derive(PartialEq, Eq, Drop)]
pub struct TextCountPredicate<T> {
    pub(crate) counted: T,
    pub(crate) count: usize,
}

impl<T: TextCount> TextCountPredicate<T> {
    // The predicate that asks for so many.
    pub(crate) fn new(counted: T, count: usize) -> TextCountPredicate<T>
        ensures counted { result.counted ≡ counted }
        ensures count { result.count ≡ count }
        ensures lawful { ⟦<TextCountPredicate<T> as Predicate<String>>⟧.lawful result }
        ensures infallible { (v : Text)
            → ⟦<TextCountPredicate<T> as Predicate<String>>⟧.infallible result v
            ↔ T.infallible counted }
        ensures values { ⟦<TextCountPredicate<T> as PredicateReflection>⟧.parameters_of result
            ≡ value_of (codes "count") (Some (decimal count)) }
        ensures parts { ⟦<TextCountPredicate<T> as PredicateReflection>⟧.children_of result
            ≡ empty }
    {
        TextCountPredicate { counted, count }
    }
}

impl<T: fmt::Display> fmt::Display for TextCountPredicate<T> {
    ghost output = { λ p. T.output p.counted };

    fn fmt<W: fmt::Write>(&self, f: &mut fmt::Formatter<W>) -> fmt::Result {
        let counted = &self.counted;
        write!(f, "{counted}")
    }
}

impl<T: fmt::Display> PredicateReflection for TextCountPredicate<T> {
    ghost parameters_of = { λ p. value_of (codes "count") (Some (decimal p.count)) };

    ghost children_of = { λ p. empty };

    fn parameters(&self, alloc: Global) -> Result<Vec<Parameter>, AllocError> {
        let mut parameters = Vec::new(alloc);
        parameters.push(Parameter::new("count", self.count.to_string(alloc)?))?;
        Ok(parameters)
    }

    fn children(&self, alloc: Global) -> Result<Vec<Child>, AllocError> {
        Ok(Vec::new(alloc))
    }
}

impl<T: TextCount> Predicate<String> for TextCountPredicate<T> {
    ghost formula = { λ p v. T.leaf p.counted p.count (string_bytes v) };

    ghost infallible = { λ p v. T.infallible p.counted };

    ghost text_fits = { λ p v f h. exactly_text_fits
        ((T.is_leaf p.counted p.count (string_bytes v) f).0 h) };

    ghost one_formula = { λ p v f g lawful h k. one_exactly
        ((T.is_leaf p.counted p.count (string_bytes v) f).0 h)
        ((T.is_leaf p.counted p.count (string_bytes v) g).0 k) };

    fn eval(&self, alloc: Global, item: &String) -> Result<bool, AllocError> {
        Ok(self.counted.number_in(alloc, item)? == self.count)
    }

    fn find_case(
        &self,
        alloc: Global,
        expected: bool,
        item: &String,
    ) -> Result<Option<Case>, AllocError> {
        self.explain(alloc, Some(expected), item)
    }

    fn explain(
        &self,
        alloc: Global,
        wanted: Option<bool>,
        item: &String,
    ) -> Result<Option<Case>, AllocError> {
        let actual = self.counted.number_in(alloc, item)?;
        count_case(alloc, self, actual, self.count, wanted, item)
    }
}

impl<T: TextCount> PredicateChange<String> for TextCountPredicate<T> {
    fn find_change(
        &self,
        alloc: Global,
        wanted: Option<bool>,
        item: &String,
    ) -> Result<Option<Case>, AllocError> {
        leaf_change(alloc, self, wanted, item)
    }
}

impl<T: TextCount> Total<String> for TextCountPredicate<T> {
    ghost formula_of = { λ p v. number_leaf (T.output p.counted) (string_bytes v)
        (T.number_of p.counted (string_bytes v)) p.count };

    ghost always_lawful = { λ p. tt };

    ghost has_formula = { λ p v. (T.is_leaf p.counted p.count (string_bytes v) _).1
        (record { is = refl }) };
}

impl<T: TextCount> ReadsContent<String> for TextCountPredicate<T> {
    ghost content_formula = { λ p bytes. number_leaf
        (T.output p.counted) bytes (T.number_of p.counted bytes) p.count };

    ghost always_lawful = { λ p. tt };

    ghost has_formula = { λ p t. (T.is_leaf p.counted p.count (string_bytes t) _).1
        (record { is = refl }) };
}
