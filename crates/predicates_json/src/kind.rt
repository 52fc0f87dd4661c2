//! Predicates of what a value of one kind holds: a text, a truth, the items of an array.
//!
//! ```
//! let named = predicate::str::starts_with(prefix).of_string();
//! ```
ghost use Rattle.std.specs.Prelude.{◌≡◌, ◌↔◌, [], codes, IfSome, Option, option_map};
ghost use Rattle.predicates_core.specs.Formula.{Formula};
ghost use Rattle.predicates_core.specs.Parts.{part};
ghost use Rattle.serde_json.specs.View.{view};
ghost use Rattle.serde_json.specs.declared.value.Value.{Value as JsonValue};
ghost use Rattle.predicates_json.specs.Kinds.{kind_text, held_bool, held_string, held_array};
ghost use Rattle.predicates_json.specs.Kinds.{held_object};
ghost use Rattle.predicates_core.specs.Present.{IsOfPresent, present_text_fits, one_present};
ghost use Rattle.predicates_core.specs.Present.{present_formula};
ghost use Rattle.predicates_core.specs.Present.{has_present};
ghost use Rattle.predicates_json.specs.KindParts.{inner_of};

use predicates_core::custom::{
    one_child, present_case, present_change, present_explained, present_holds,
};
use predicates_core::reflection::{Case, Child, Parameter, PredicateReflection};
use predicates_core::{Predicate, PredicateChange, Total};
use serde_json::{Map, Value};
use std::alloc::{AllocError, Global};
use std::fmt;
use std::marker::PhantomData;

/// What a JSON value of one kind holds: a `String`, a `bool`, the `Vec<Value>` of an array or the
/// `Map<String, Value>` of an object.
pub trait JsonKind: Sized {
    // What a value of the kind holds, and none for a value of another kind.
    ghost held_by: { JsonValue → Option Self };

    /// Borrows what the value holds, if it is of the kind. It takes no memory.
    fn held(value: &Value) -> Option<&Self>
        ensures { option_map (λ r. r.now) result ≡ held_by value.now };
}

impl JsonKind for bool {
    ghost held_by = { held_bool };

    fn held(value: &Value) -> Option<&bool> {
        match value {
            Value::Bool(truth) => Some(truth),
            _ => None,
        }
    }
}

impl JsonKind for String {
    ghost held_by = { held_string };

    fn held(value: &Value) -> Option<&String> {
        match value {
            Value::String(text) => Some(text),
            _ => None,
        }
    }
}

impl JsonKind for Vec<Value> {
    ghost held_by = { held_array };

    fn held(value: &Value) -> Option<&Vec<Value>> {
        match value {
            Value::Array(items) => Some(items),
            _ => None,
        }
    }
}

impl JsonKind for Map<String, Value> {
    ghost held_by = { held_object };

    fn held(value: &Value) -> Option<&Map<String, Value>> {
        match value {
            Value::Object(members) => Some(members),
            _ => None,
        }
    }
}

/// The `error` that a case shows of a value of another kind than the wanted one.
pub(crate) fn kind(value: &Value) -> &'static str
    ensures { result.now ≡ kind_text (view value.now) }
{
    match value {
        Value::Null => "is null",
        Value::Bool(_) => "is a boolean",
        Value::Number(_) => "is a number",
        Value::String(_) => "is a string",
        Value::Array(_) => "is an array",
        Value::Object(_) => "is an object",
    }
}

/// Holds of a value of the kind where its inner predicate holds of what the value holds, and not of
/// another value. Made by `of_string`, `of_bool`, `of_array` and `of_object` of `PredicateJsonExt`.
#[derive(Debug, Clone, Copy, PartialEq, Eq, Drop)]
pub struct KindPredicate<P, U> {
    inner: P,
    kind: PhantomData<U>,
}

impl<P: Predicate<U>, U: JsonKind> KindPredicate<P, U> {
    // The predicate of the kind over this one.
    pub(crate) fn new(inner: P) -> KindPredicate<P, U>
        ensures inner { inner_of result ≡ inner }
        ensures formula { (v : JsonValue) (f : Formula)
            → ⟦<KindPredicate<P, U> as Predicate<Value>>⟧.formula result v f
            ↔ IsOfPresent (P.output inner) (kind_text (view v)) (P.formula inner) (U.held_by v) f }
        ensures lawful { ⟦<KindPredicate<P, U> as Predicate<Value>>⟧.lawful result
            ↔ P.lawful inner }
        ensures infallible { (v : JsonValue)
            → ⟦<KindPredicate<P, U> as Predicate<Value>>⟧.infallible result v
            ↔ IfSome (U.held_by v) (P.infallible inner) }
        ensures values { ⟦<KindPredicate<P, U> as PredicateReflection>⟧.parameters_of result ≡ [] }
        ensures parts { ⟦<KindPredicate<P, U> as PredicateReflection>⟧.children_of result
            ≡ part (codes "predicate") (P.output inner) (P.parameters_of inner)
            (P.children_of inner) }
    {
        KindPredicate {
            inner,
            kind: PhantomData,
        }
    }
}

impl<P: fmt::Display, U> fmt::Display for KindPredicate<P, U> {
    ghost output = { λ p. P.output (inner_of p) };

    fn fmt<W: fmt::Write>(&self, f: &mut fmt::Formatter<W>) -> fmt::Result {
        let inner = &self.inner;
        write!(f, "{inner}")
    }
}

impl<P: PredicateReflection, U> PredicateReflection for KindPredicate<P, U> {
    ghost parameters_of = { λ p. [] };

    ghost children_of = { λ p. part
        (codes "predicate") (P.output (inner_of p)) (P.parameters_of (inner_of p))
        (P.children_of (inner_of p)) };

    fn parameters(&self, alloc: Global) -> Result<Vec<Parameter>, AllocError> {
        Ok(Vec::new(alloc))
    }

    fn children(&self, alloc: Global) -> Result<Vec<Child>, AllocError> {
        one_child(alloc, "predicate", &self.inner)
    }
}

impl<P: Predicate<U>, U: JsonKind> Predicate<Value> for KindPredicate<P, U> {
    ghost lawful = { λ p. P.lawful (inner_of p) };

    ghost formula = { λ p v. IsOfPresent (P.output (inner_of p)) (kind_text (view v))
        (P.formula (inner_of p)) (U.held_by v) };

    ghost infallible = { λ p v. IfSome (U.held_by v) (P.infallible (inner_of p)) };

    ghost text_fits = { λ p v f. present_text_fits (U.held_by v)
        (λ u. P.text_fits (inner_of p) u) };

    ghost one_formula = { λ p v f g lawful. one_present (U.held_by v)
        (λ u x y. P.one_formula (inner_of p) u x y lawful) };

    fn eval(&self, alloc: Global, item: &Value) -> Result<bool, AllocError> {
        present_holds(alloc, &self.inner, U::held(item))
    }

    fn find_case(
        &self,
        alloc: Global,
        expected: bool,
        item: &Value,
    ) -> Result<Option<Case>, AllocError> {
        present_case(alloc, &self.inner, U::held(item), kind(item), expected)
    }

    fn explain(
        &self,
        alloc: Global,
        wanted: Option<bool>,
        item: &Value,
    ) -> Result<Option<Case>, AllocError> {
        present_explained(alloc, &self.inner, U::held(item), kind(item), wanted)
    }
}

impl<P: PredicateChange<U>, U: JsonKind> PredicateChange<Value> for KindPredicate<P, U> {
    fn find_change(
        &self,
        alloc: Global,
        wanted: Option<bool>,
        item: &Value,
    ) -> Result<Option<Case>, AllocError> {
        present_change(alloc, &self.inner, U::held(item), kind(item), wanted)
    }
}

impl<P: Total<U>, U: JsonKind> Total<Value> for KindPredicate<P, U> {
    ghost formula_of = { λ p v. present_formula (P.output (inner_of p)) (kind_text (view v))
        (P.formula_of (inner_of p)) (U.held_by v) };

    ghost always_lawful = { λ p. P.always_lawful (inner_of p) };

    ghost has_formula = { λ p v. has_present (P.output (inner_of p)) (kind_text (view v))
        (P.formula (inner_of p)) (P.formula_of (inner_of p)) (U.held_by v)
        (P.has_formula (inner_of p)) };
}
