//! Predicates of the number that a value holds.
//!
//! ```
//! let adult = predicate::ge(18i64).of_number();
//! ```
ghost use Rattle.std.specs.Prelude.{◌≡◌, ◌↔◌, ℕ, [], List, codes, Some, IfSome, Option};
ghost use Rattle.std.specs.Prelude.{option_and_then};
ghost use Rattle.predicates_core.specs.Formula.{Formula};
ghost use Rattle.predicates_core.specs.Parts.{part};
ghost use Rattle.serde_json.specs.Data.{Num};
ghost use Rattle.serde_json.specs.Find.{as_i64, as_u64, as_number, to_float};
ghost use Rattle.serde_json.specs.View.{view, number_view};
ghost use Rattle.serde_json.specs.declared.value.Value.{Value as JsonValue};
ghost use Rattle.predicates_json.specs.Kinds.{no_i64_text, no_u64_text, no_f64_text};
ghost use Rattle.predicates_json.specs.Kinds.{no_number_text};
ghost use Rattle.predicates_core.specs.Present.{IsOfPresent, present_text_fits, one_present};
ghost use Rattle.predicates_core.specs.Present.{present_formula};
ghost use Rattle.predicates_core.specs.Present.{has_present};
ghost use Rattle.predicates_json.specs.NumberParts.{inner_of};

use crate::kind::kind;
use predicates_core::custom::{
    one_child, present_case, present_change, present_explained, present_holds,
};
use predicates_core::reflection::{Case, Child, Parameter, PredicateReflection};
use predicates_core::{Predicate, PredicateChange, Total};
use serde_json::{Number, Value};
use std::alloc::{AllocError, Global};
use std::fmt;
use std::marker::PhantomData;

/// A type that a JSON number may be read as: `i64`, `u64`, or `f64`, which has each number, an
/// integer as the float that is nearest.
pub trait JsonNumber: Sized + Copy + Drop {
    // The number, if the type can represent it.
    ghost number_as: { Num → Option Self };

    // The `error` that a case shows of a number that the type cannot represent.
    ghost misfit_text: { Num → List ℕ };

    /// The number, if the type can represent it. It takes no memory.
    fn from_number(number: &Number) -> Option<Self>
        ensures { result ≡ number_as (number_view number.now) };

    /// The `error` that a case shows of a number that the type cannot represent, as `is a float`.
    fn misfit(number: &Number) -> &'static str
        ensures { result.now ≡ misfit_text (number_view number.now) };
}

impl JsonNumber for i64 {
    ghost number_as = { as_i64 };

    ghost misfit_text = { no_i64_text };

    fn from_number(number: &Number) -> Option<i64> {
        number.as_i64()
    }

    fn misfit(number: &Number) -> &'static str {
        if number.is_f64() {
            "is a float"
        } else {
            "is too large for i64"
        }
    }
}

impl JsonNumber for u64 {
    ghost number_as = { as_u64 };

    ghost misfit_text = { no_u64_text };

    fn from_number(number: &Number) -> Option<u64> {
        number.as_u64()
    }

    fn misfit(number: &Number) -> &'static str {
        if number.is_f64() {
            "is a float"
        } else {
            "is negative"
        }
    }
}

impl JsonNumber for f64 {
    ghost number_as = { λ n. Some (to_float n) };

    ghost misfit_text = { no_f64_text };

    fn from_number(number: &Number) -> Option<f64> {
        number.as_f64()
    }

    fn misfit(_number: &Number) -> &'static str {
        "is no f64"
    }
}

// The `error` that a case shows of a value that is no number of the type.
fn no_number<N: JsonNumber>(value: &Value) -> &'static str
    ensures { result.now ≡ no_number_text N.misfit_text (view value.now) }
{
    match value {
        Value::Number(number) => N::misfit(number),
        other => kind(other),
    }
}

// The number that the value holds, if it is one of the type.
fn number_of<N: JsonNumber>(value: &Value) -> Option<N>
    ensures { result ≡ option_and_then N.number_as (as_number (view value.now)) }
{
    match value.as_number() {
        Some(number) => N::from_number(number),
        None => None,
    }
}

/// Holds of a number of the type where its inner predicate holds of it, and not of another value.
/// A number with a point or an exponent is a float, even `5.0`, and no `i64` or `u64`. Made by
/// `of_number` of `PredicateJsonExt`.
#[derive(Debug, Clone, Copy, PartialEq, Eq, Drop)]
pub struct NumberPredicate<P, N> {
    inner: P,
    number: PhantomData<N>,
}

impl<P: Predicate<N>, N: JsonNumber> NumberPredicate<P, N> {
    // The predicate of a number over this one.
    pub(crate) fn new(inner: P) -> NumberPredicate<P, N>
        ensures inner { inner_of result ≡ inner }
        ensures formula { (v : JsonValue) (f : Formula)
            → ⟦<NumberPredicate<P, N> as Predicate<Value>>⟧.formula result v f
            ↔ IsOfPresent (P.output inner) (no_number_text N.misfit_text (view v))
            (P.formula inner) (option_and_then N.number_as (as_number (view v))) f }
        ensures lawful { ⟦<NumberPredicate<P, N> as Predicate<Value>>⟧.lawful result
            ↔ P.lawful inner }
        ensures infallible { (v : JsonValue)
            → ⟦<NumberPredicate<P, N> as Predicate<Value>>⟧.infallible result v
            ↔ IfSome (option_and_then N.number_as (as_number (view v))) (P.infallible inner) }
        ensures values { ⟦<NumberPredicate<P, N> as PredicateReflection>⟧.parameters_of result
            ≡ [] }
        ensures parts { ⟦<NumberPredicate<P, N> as PredicateReflection>⟧.children_of result
            ≡ part (codes "predicate") (P.output inner) (P.parameters_of inner)
            (P.children_of inner) }
    {
        NumberPredicate {
            inner,
            number: PhantomData,
        }
    }
}

impl<P: fmt::Display, N> fmt::Display for NumberPredicate<P, N> {
    ghost output = { λ p. P.output (inner_of p) };

    fn fmt<W: fmt::Write>(&self, f: &mut fmt::Formatter<W>) -> fmt::Result {
        let inner = &self.inner;
        write!(f, "{inner}")
    }
}

impl<P: PredicateReflection, N> PredicateReflection for NumberPredicate<P, N> {
    ghost parameters_of = { λ p. [] };

    ghost children_of = { λ p. part
        (codes "predicate") (P.output (inner_of p)) (P.parameters_of (inner_of p))
        (P.children_of (inner_of p)) };

    fn parameters(&self, alloc: Global) -> Result<Vec<Parameter>, AllocError> {
        Ok(Vec::new(alloc))
    }

    fn children(&self, alloc: Global) -> Result<Vec<Child>, AllocError> {
        one_child(alloc, "predicate", &self.inner)
    }
}

impl<P: Predicate<N>, N: JsonNumber> Predicate<Value> for NumberPredicate<P, N> {
    ghost lawful = { λ p. P.lawful (inner_of p) };

    ghost formula = { λ p v. IsOfPresent (P.output (inner_of p))
        (no_number_text N.misfit_text (view v))
        (P.formula (inner_of p)) (option_and_then N.number_as (as_number (view v))) };

    ghost infallible = { λ p v. IfSome (option_and_then N.number_as (as_number (view v)))
        (P.infallible (inner_of p)) };

    ghost text_fits = { λ p v f. present_text_fits
        (option_and_then N.number_as (as_number (view v))) (λ u. P.text_fits (inner_of p) u) };

    ghost one_formula = { λ p v f g lawful. one_present
        (option_and_then N.number_as (as_number (view v)))
        (λ u x y. P.one_formula (inner_of p) u x y lawful) };

    fn eval(&self, alloc: Global, item: &Value) -> Result<bool, AllocError> {
        let number = number_of::<N>(item);
        present_holds(alloc, &self.inner, number.as_ref())
    }

    fn find_case(
        &self,
        alloc: Global,
        expected: bool,
        item: &Value,
    ) -> Result<Option<Case>, AllocError> {
        let (number, reason) = (number_of::<N>(item), no_number::<N>(item));
        present_case(alloc, &self.inner, number.as_ref(), reason, expected)
    }

    fn explain(
        &self,
        alloc: Global,
        wanted: Option<bool>,
        item: &Value,
    ) -> Result<Option<Case>, AllocError> {
        let (number, reason) = (number_of::<N>(item), no_number::<N>(item));
        present_explained(alloc, &self.inner, number.as_ref(), reason, wanted)
    }
}

impl<P: PredicateChange<N>, N: JsonNumber> PredicateChange<Value> for NumberPredicate<P, N> {
    fn find_change(
        &self,
        alloc: Global,
        wanted: Option<bool>,
        item: &Value,
    ) -> Result<Option<Case>, AllocError> {
        let (number, reason) = (number_of::<N>(item), no_number::<N>(item));
        present_change(alloc, &self.inner, number.as_ref(), reason, wanted)
    }
}

impl<P: Total<N>, N: JsonNumber> Total<Value> for NumberPredicate<P, N> {
    ghost formula_of = { λ p v. present_formula (P.output (inner_of p))
        (no_number_text N.misfit_text (view v)) (P.formula_of (inner_of p))
        (option_and_then N.number_as (as_number (view v))) };

    ghost always_lawful = { λ p. P.always_lawful (inner_of p) };

    ghost has_formula = { λ p v. has_present (P.output (inner_of p))
        (no_number_text N.misfit_text (view v)) (P.formula (inner_of p)) (P.formula_of (inner_of p))
        (option_and_then N.number_as (as_number (view v))) (P.has_formula (inner_of p)) };
}
