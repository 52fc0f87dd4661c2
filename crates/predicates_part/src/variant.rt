//! Predicates of a value that may be absent: of `Some`, of `Ok` and of `Err`.
//!
//! ```
//! let adult = predicate::ge(18).of_some();
//! let forbidden = predicate::eq(403).of_err();
//! ```
ghost use Rattle.std.specs.Prelude.{◌≡◌, ℕ, [], List, Option, codes, IfSome, option_copied};
ghost use Rattle.predicates_core.specs.Parts.{part};
ghost use Rattle.predicates_core.specs.Present.{IsOfPresent, present_text_fits, one_present};
ghost use Rattle.predicates_core.specs.Present.{present_formula, has_present};
ghost use Rattle.predicates_part.specs.Optional.{inner_of, value_of_ok, value_of_err};

use predicates_core::custom::{
    one_child, present_case, present_change, present_explained, present_holds,
};
use predicates_core::reflection::{Case, Child, Parameter, PredicateReflection};
use predicates_core::{Predicate, PredicateChange, Total};
use std::alloc::{AllocError, Global};
use std::fmt;
use std::marker::PhantomData;

/// A variant of an item that holds a value, as a type.
pub trait Variant<T> {
    /// What the variant holds.
    type Value;

    // The value, where the item is of the variant.
    ghost value_of: { T → Option Self.Value };

    // The `error` that a case shows where it is not.
    ghost absent: { List ℕ };

    /// The value, where the item is of the variant.
    fn value(item: &T) -> Option<&Self::Value>
        ensures { option_copied result ≡ value_of item.now };

    /// The `error` that a case shows where the item is not of the variant.
    fn absent() -> &'static str
        ensures { result.now ≡ absent };
}

/// `Some` of an `Option`.
#[derive(Debug, Clone, Copy, PartialEq, Eq)]
pub struct SomeVariant;

impl<U> Variant<Option<U>> for SomeVariant {
    type Value = U;

    ghost value_of = { λ option. option };

    ghost absent = { codes "no value" };

    fn value(item: &Option<U>) -> Option<&U> {
        item.as_ref()
    }

    fn absent() -> &'static str {
        "no value"
    }
}

/// `Ok` of a `Result`.
#[derive(Debug, Clone, Copy, PartialEq, Eq)]
pub struct OkVariant;

impl<U, E> Variant<Result<U, E>> for OkVariant {
    type Value = U;

    ghost value_of = { value_of_ok };

    ghost absent = { codes "is Err" };

    fn value(item: &Result<U, E>) -> Option<&U> {
        item.as_ref().ok()
    }

    fn absent() -> &'static str {
        "is Err"
    }
}

/// `Err` of a `Result`.
#[derive(Debug, Clone, Copy, PartialEq, Eq)]
pub struct ErrVariant;

impl<U, E> Variant<Result<U, E>> for ErrVariant {
    type Value = E;

    ghost value_of = { value_of_err };

    ghost absent = { codes "is Ok" };

    fn value(item: &Result<U, E>) -> Option<&E> {
        item.as_ref().err()
    }

    fn absent() -> &'static str {
        "is Ok"
    }
}

/// Holds of an item where the item is of the variant and its inner predicate holds of the value.
/// Made by `of_some`, `of_ok` and `of_err` of `PredicatePartExt`.
#[derive(Debug, Clone, Copy, PartialEq, Eq, Drop)]
pub struct VariantPredicate<V, P> {
    inner: P,
    variant: PhantomData<V>,
}

/// Holds of `Some` where its inner predicate holds of the value, and not of `None`.
pub type SomePredicate<P> = VariantPredicate<SomeVariant, P>;

/// Holds of `Ok` where its inner predicate holds of the value, and not of `Err`.
pub type OkPredicate<P> = VariantPredicate<OkVariant, P>;

/// Holds of `Err` where its inner predicate holds of the error, and not of `Ok`.
pub type ErrPredicate<P> = VariantPredicate<ErrVariant, P>;

impl<V, P: PredicateReflection> VariantPredicate<V, P> {
    /// The predicate of the value that the variant holds.
    pub fn new(inner: P) -> VariantPredicate<V, P>
        ensures inner { inner_of result ≡ inner }
        ensures values { ⟦<VariantPredicate<V, P> as PredicateReflection>⟧.parameters_of result
            ≡ [] }
        ensures parts { ⟦<VariantPredicate<V, P> as PredicateReflection>⟧.children_of result
            ≡ part (codes "predicate") (P.output inner) (P.parameters_of inner)
            (P.children_of inner) }
    {
        VariantPredicate {
            inner,
            variant: PhantomData,
        }
    }
}

impl<V, P: fmt::Display> fmt::Display for VariantPredicate<V, P> {
    ghost output = { λ p. P.output (inner_of p) };

    fn fmt<W: fmt::Write>(&self, f: &mut fmt::Formatter<W>) -> fmt::Result {
        let inner = &self.inner;
        write!(f, "{inner}")
    }
}

impl<V, P: PredicateReflection> PredicateReflection for VariantPredicate<V, P> {
    ghost parameters_of = { λ p. [] };

    ghost children_of = { λ p. part
        (codes "predicate") (P.output (inner_of p)) (P.parameters_of (inner_of p))
        (P.children_of (inner_of p)) };

    fn parameters(&self, alloc: Global) -> Result<Vec<Parameter>, AllocError> {
        Ok(Vec::new(alloc))
    }

    fn children(&self, alloc: Global) -> Result<Vec<Child>, AllocError> {
        one_child(alloc, "predicate", &self.inner)
    }
}

impl<V: Variant<T>, P: Predicate<V::Value>, T> Predicate<T> for VariantPredicate<V, P> {
    ghost lawful = { λ p. P.lawful (inner_of p) };

    ghost formula = { λ p v. IsOfPresent (P.output (inner_of p)) V.absent (P.formula (inner_of p))
        (V.value_of v) };

    ghost infallible = { λ p v. IfSome (V.value_of v) (P.infallible (inner_of p)) };

    ghost text_fits = { λ p v f. present_text_fits (V.value_of v)
        (λ u. P.text_fits (inner_of p) u) };

    ghost one_formula = { λ p v f g lawful. one_present (V.value_of v)
        (λ u x y. P.one_formula (inner_of p) u x y lawful) };

    fn eval(&self, alloc: Global, item: &T) -> Result<bool, AllocError> {
        present_holds(alloc, &self.inner, V::value(item))
    }

    fn find_case(
        &self,
        alloc: Global,
        expected: bool,
        item: &T,
    ) -> Result<Option<Case>, AllocError> {
        present_case(alloc, &self.inner, V::value(item), V::absent(), expected)
    }

    fn explain(
        &self,
        alloc: Global,
        wanted: Option<bool>,
        item: &T,
    ) -> Result<Option<Case>, AllocError> {
        present_explained(alloc, &self.inner, V::value(item), V::absent(), wanted)
    }
}

impl<V: Variant<T>, P: PredicateChange<V::Value>, T> PredicateChange<T> for VariantPredicate<V, P> {
    fn find_change(
        &self,
        alloc: Global,
        wanted: Option<bool>,
        item: &T,
    ) -> Result<Option<Case>, AllocError> {
        present_change(alloc, &self.inner, V::value(item), V::absent(), wanted)
    }
}

impl<V: Variant<T>, P: Total<V::Value>, T> Total<T> for VariantPredicate<V, P> {
    ghost formula_of = { λ p v. present_formula (P.output (inner_of p)) V.absent
        (P.formula_of (inner_of p)) (V.value_of v) };

    ghost always_lawful = { λ p. P.always_lawful (inner_of p) };

    ghost has_formula = { λ p v. has_present (P.output (inner_of p)) V.absent
        (P.formula (inner_of p)) (P.formula_of (inner_of p)) (V.value_of v)
        (P.has_formula (inner_of p)) };
}
