//! Predicates of the length of an item.
//!
//! ```
//! let short = predicate::le(80).of_len();
//! ```
ghost use Rattle.std.specs.Prelude.{◌≡◌, ℕ, [], Some, codes, length, string_bytes};
ghost use Rattle.predicates_core.specs.Label.{plain};
ghost use Rattle.predicates_core.specs.Formula.{Named};
ghost use Rattle.predicates_core.specs.Parts.{part};
ghost use Rattle.predicates_core.specs.Combined.{IsNamed};
ghost use Rattle.predicates_core.proofs.CombinedLemmas.{named_text_fits, one_named, has_named};
ghost use Rattle.predicates_part.specs.Length.{inner_of};

use predicates_core::custom::{named_case, named_change, named_explained, one_child};
use predicates_core::reflection::{Case, Child, Parameter, PredicateReflection};
use predicates_core::{Predicate, PredicateChange, ReadsContent, Total};
use std::alloc::{AllocError, Global};
use std::fmt;

/// An item that has a length.
pub trait Length {
    ghost length_of: { Self → ℕ };

    /// The length: the number of members of a list, and of bytes of a text.
    fn length(&self) -> usize
        ensures { result ≡ length_of self.now };
}

impl<U> Length for Vec<U> {
    ghost length_of = { λ list. length list.items };

    fn length(&self) -> usize {
        self.len()
    }
}

impl Length for String {
    ghost length_of = { λ text. length (string_bytes text) };

    fn length(&self) -> usize {
        self.len()
    }
}

/// Holds of an item where its inner predicate holds of the item's length, and prints `len`. Made by
/// `PredicatePartExt::of_len`.
#[derive(Debug, Clone, Copy, PartialEq, Eq, Drop)]
pub struct LengthPredicate<P> {
    inner: P,
}

impl<P: PredicateReflection> LengthPredicate<P> {
    /// The predicate of a length.
    pub fn new(inner: P) -> LengthPredicate<P>
        ensures inner { inner_of result ≡ inner }
        ensures values { ⟦<LengthPredicate<P> as PredicateReflection>⟧.parameters_of result ≡ [] }
        ensures parts { ⟦<LengthPredicate<P> as PredicateReflection>⟧.children_of result
            ≡ part (codes "len") (P.output inner) (P.parameters_of inner) (P.children_of inner) }
    {
        LengthPredicate { inner }
    }
}

impl<P> fmt::Display for LengthPredicate<P> {
    ghost output = { λ p. Some (codes "len") };

    fn fmt<W: fmt::Write>(&self, f: &mut fmt::Formatter<W>) -> fmt::Result {
        write!(f, "len")
    }
}

impl<P: PredicateReflection> PredicateReflection for LengthPredicate<P> {
    ghost parameters_of = { λ p. [] };

    ghost children_of = { λ p. part
        (codes "len") (P.output (inner_of p)) (P.parameters_of (inner_of p))
        (P.children_of (inner_of p)) };

    fn parameters(&self, alloc: Global) -> Result<Vec<Parameter>, AllocError> {
        Ok(Vec::new(alloc))
    }

    fn children(&self, alloc: Global) -> Result<Vec<Child>, AllocError> {
        one_child(alloc, "len", &self.inner)
    }
}

impl<P: Predicate<usize>, T: Length> Predicate<T> for LengthPredicate<P> {
    ghost lawful = { λ p. P.lawful (inner_of p) };

    ghost formula = { λ p v. IsNamed (codes "len") (P.formula (inner_of p) (T.length_of v)) };

    ghost infallible = { λ p v. P.infallible (inner_of p) (T.length_of v) };

    ghost text_fits = { λ p v f. named_text_fits };

    ghost one_formula = { λ p v f g lawful. one_named (λ x y.
        P.one_formula (inner_of p) (T.length_of v) x y lawful) };

    #[tactic(auto, using(predicates_core::proofs::CombinedLemmas::combined))]
    fn eval(&self, alloc: Global, item: &T) -> Result<bool, AllocError> {
        let length = item.length();
        self.inner.eval(alloc, &length)
    }

    fn find_case(
        &self,
        alloc: Global,
        expected: bool,
        item: &T,
    ) -> Result<Option<Case>, AllocError> {
        named_case(alloc, "len", &self.inner, expected, &item.length())
    }

    fn explain(
        &self,
        alloc: Global,
        wanted: Option<bool>,
        item: &T,
    ) -> Result<Option<Case>, AllocError> {
        named_explained(alloc, "len", &self.inner, wanted, &item.length())
    }
}

impl<P: PredicateChange<usize>, T: Length> PredicateChange<T> for LengthPredicate<P> {
    fn find_change(
        &self,
        alloc: Global,
        wanted: Option<bool>,
        item: &T,
    ) -> Result<Option<Case>, AllocError> {
        named_change(alloc, "len", &self.inner, wanted, &item.length())
    }
}

impl<P: Total<usize>, T: Length> Total<T> for LengthPredicate<P> {
    ghost formula_of = { λ p v. Named (plain (Some (codes "len"))) (codes "len")
        (P.formula_of (inner_of p) (T.length_of v)) };

    ghost always_lawful = { λ p. P.always_lawful (inner_of p) };

    ghost has_formula = { λ p v. has_named (P.has_formula (inner_of p) (T.length_of v)) };
}

impl<P: Total<usize>> ReadsContent<String> for LengthPredicate<P> {
    ghost content_formula = { λ p bytes. Named (plain (Some (codes "len"))) (codes "len")
        (P.formula_of (inner_of p) (length bytes)) };

    ghost always_lawful = { λ p. P.always_lawful (inner_of p) };

    ghost has_formula = { λ p v. has_named (P.has_formula (inner_of p) (length (string_bytes v))) };
}
