//! Predicates of JSON values, and cases as JSON.
//!
//! ```
//! let adult = predicate::ge(18i64).of_number().of_pointer("/age");
//! ```
//!
//! Its case on `{"age": 17}` shows what stands at the pointer, and on `{"age": "17"}` why that
//! cannot be tested:
//!
//! ```text
//! /age = false
//!   value: var >= 18 = false
//!     - var: 17
//! /age = false
//!   value: var >= 18 = false
//!     - error: is a string
//! ```
#![tactic(auto)]

ghost use Rattle.std.specs.Prelude.{◌≡◌, ◌↔◌, option_and_then, [], codes, IfSome};
ghost use Rattle.predicates_core.specs.Formula.{Formula};
ghost use Rattle.predicates_core.specs.Present.{IsOfPresent};
ghost use Rattle.serde_json.specs.Find.{as_number};
ghost use Rattle.serde_json.specs.View.{view};
ghost use Rattle.serde_json.specs.declared.value.Value.{Value as JsonValue};
ghost use Rattle.predicates_json.specs.At.{at_pointer};
ghost use Rattle.predicates_json.specs.Kinds.{held_bool, held_string, held_array, held_object};
ghost use Rattle.predicates_json.specs.Kinds.{kind_text, no_number_text};
ghost use Rattle.predicates_json.specs.KindParts as Kind;
ghost use Rattle.predicates_json.specs.NumberParts as Number;
ghost use Rattle.predicates_json.specs.Pointer as Pointer;
ghost use Rattle.predicates_json.specs.Pointer.{IsAt, no_value_text};
ghost use Rattle.predicates_core.specs.Parts.{part};

mod at;
mod case;
pub mod float;
mod kind;
mod null;
mod number;
mod pointer;
mod presence;

pub use at::value_at;
pub use case::case_json;
pub use kind::{JsonKind, KindPredicate};
pub use null::{NullPredicate, is_null};
pub use number::{JsonNumber, NumberPredicate};
pub use pointer::{JsonPointer, PointerPredicate, is_pointer};
use predicates_core::Predicate;
use predicates_core::reflection::PredicateReflection;
pub use presence::{PointerPresencePredicate, has_pointer, lacks_pointer};
use serde_json::{Map, Value};

/// Makes a predicate of JSON values from one of what they hold, or of what stands within them.
pub trait PredicateJsonExt: Sized {
    /// The predicate that holds of a value where this one holds of what stands at the pointer, and
    /// not where nothing stands there. It prints the pointer. Making it takes no memory, and its
    /// `eval` takes what this one's does.
    ///
    /// ```
    /// let adult = predicate::ge(18i64).of_number().of_pointer("/age");
    /// assert!(rt; adult.eval(alloc, &Value::from_str(alloc, "{\"age\": 18}")?)?);
    /// assert!(rt; !adult.eval(alloc, &Value::from_str(alloc, "{}")?)?);
    /// ```
    fn of_pointer<N: JsonPointer>(self, pointer: N) -> PointerPredicate<Self, N>
    where
        Self: Predicate<Value>,
        ensures inner { Pointer.inner_of result ≡ self }
        ensures pointer { Pointer.pointer_of result ≡ pointer }
        ensures formula { (v : JsonValue) (f : Formula)
            → ⟦<PointerPredicate<Self, N> as Predicate<Value>>⟧.formula result v f
            ↔ IsAt (N.bytes pointer) (IsOfPresent (Self.output self) no_value_text
            (Self.formula self) (at_pointer (N.bytes pointer) v)) f }
        ensures lawful { ⟦<PointerPredicate<Self, N> as Predicate<Value>>⟧.lawful result
            ↔ Self.lawful self }
        ensures infallible { (v : JsonValue)
            → ⟦<PointerPredicate<Self, N> as Predicate<Value>>⟧.infallible result v
            ↔ IfSome (at_pointer (N.bytes pointer) v) (Self.infallible self) }
        ensures values { ⟦<PointerPredicate<Self, N> as PredicateReflection>⟧.parameters_of result
            ≡ [] }
        ensures parts { ⟦<PointerPredicate<Self, N> as PredicateReflection>⟧.children_of result
            ≡ part (codes "value") (Self.output self) (Self.parameters_of self)
            (Self.children_of self) };

    /// The predicate that holds of a JSON text where this one holds of it, and not of a value of
    /// another kind. It prints what this one prints, takes no memory to make, and its `eval` takes
    /// what this one's does; so do the four below.
    ///
    /// ```
    /// let named = predicate::eq("Ada".to_owned(alloc)?).of_string();
    /// assert!(rt; named.eval(alloc, &Value::from_str(alloc, "\"Ada\"")?)?);
    /// assert!(rt; !named.eval(alloc, &Value::from_str(alloc, "7")?)?);
    /// ```
    fn of_string(self) -> KindPredicate<Self, String>
    where
        Self: Predicate<String>,
        ensures inner { Kind.inner_of result ≡ self }
        ensures kind { (v : JsonValue) → ⟦<String as JsonKind>⟧.held_by v ≡ held_string v }
        ensures formula { (v : JsonValue) (f : Formula)
            → ⟦<KindPredicate<Self, String> as Predicate<Value>>⟧.formula result v f
            ↔ IsOfPresent (Self.output self) (kind_text (view v)) (Self.formula self)
            (held_string v) f }
        ensures lawful { ⟦<KindPredicate<Self, String> as Predicate<Value>>⟧.lawful result
            ↔ Self.lawful self }
        ensures infallible { (v : JsonValue)
            → ⟦<KindPredicate<Self, String> as Predicate<Value>>⟧.infallible result v
            ↔ IfSome (held_string v) (Self.infallible self) }
        ensures values { ⟦<KindPredicate<Self, String> as PredicateReflection>⟧.parameters_of result
            ≡ [] }
        ensures parts { ⟦<KindPredicate<Self, String> as PredicateReflection>⟧.children_of result
            ≡ part (codes "predicate") (Self.output self) (Self.parameters_of self)
            (Self.children_of self) };

    /// The same of a JSON truth.
    ///
    /// ```
    /// let set = predicate::eq(true).of_bool();
    /// assert!(rt; set.eval(alloc, &Value::from_str(alloc, "true")?)?);
    /// assert!(rt; !set.eval(alloc, &Value::from_str(alloc, "1")?)?);
    /// ```
    fn of_bool(self) -> KindPredicate<Self, bool>
    where
        Self: Predicate<bool>,
        ensures inner { Kind.inner_of result ≡ self }
        ensures kind { (v : JsonValue) → ⟦<bool as JsonKind>⟧.held_by v ≡ held_bool v }
        ensures formula { (v : JsonValue) (f : Formula)
            → ⟦<KindPredicate<Self, bool> as Predicate<Value>>⟧.formula result v f
            ↔ IsOfPresent (Self.output self) (kind_text (view v)) (Self.formula self)
            (held_bool v) f }
        ensures lawful { ⟦<KindPredicate<Self, bool> as Predicate<Value>>⟧.lawful result
            ↔ Self.lawful self }
        ensures infallible { (v : JsonValue)
            → ⟦<KindPredicate<Self, bool> as Predicate<Value>>⟧.infallible result v
            ↔ IfSome (held_bool v) (Self.infallible self) }
        ensures values { ⟦<KindPredicate<Self, bool> as PredicateReflection>⟧.parameters_of result
            ≡ [] }
        ensures parts { ⟦<KindPredicate<Self, bool> as PredicateReflection>⟧.children_of result
            ≡ part (codes "predicate") (Self.output self) (Self.parameters_of self)
            (Self.children_of self) };

    /// The same of the items of a JSON array.
    ///
    /// ```
    /// let short = predicate::le(2).of_len().of_array();
    /// assert!(rt; short.eval(alloc, &Value::from_str(alloc, "[1, 2]")?)?);
    /// assert!(rt; !short.eval(alloc, &Value::from_str(alloc, "[1, 2, 3]")?)?);
    /// ```
    fn of_array(self) -> KindPredicate<Self, Vec<Value>>
    where
        Self: Predicate<Vec<Value>>,
        ensures inner { Kind.inner_of result ≡ self }
        ensures kind { (v : JsonValue) → ⟦<Vec<Value> as JsonKind>⟧.held_by v ≡ held_array v }
        ensures formula { (v : JsonValue) (f : Formula)
            → ⟦<KindPredicate<Self, Vec<Value>> as Predicate<Value>>⟧.formula result v f
            ↔ IsOfPresent (Self.output self) (kind_text (view v)) (Self.formula self)
            (held_array v) f }
        ensures lawful { ⟦<KindPredicate<Self, Vec<Value>> as Predicate<Value>>⟧.lawful result
            ↔ Self.lawful self }
        ensures infallible { (v : JsonValue)
            → ⟦<KindPredicate<Self, Vec<Value>> as Predicate<Value>>⟧.infallible result v
            ↔ IfSome (held_array v) (Self.infallible self) }
        ensures values { ⟦<KindPredicate<Self, Vec<Value>> as PredicateReflection>⟧.parameters_of result ≡ [] }
        ensures parts { ⟦<KindPredicate<Self, Vec<Value>> as PredicateReflection>⟧.children_of result ≡ part (codes "predicate") (Self.output self) (Self.parameters_of self) (Self.children_of self) };

    /// The same of the members of a JSON object.
    ///
    /// ```
    /// let some = predicate::function(|map: &Map<String, Value>| !map.is_empty()).of_object();
    /// assert!(rt; some.eval(alloc, &Value::from_str(alloc, "{\"a\": 1}")?)?);
    /// assert!(rt; !some.eval(alloc, &Value::from_str(alloc, "{}")?)?);
    /// ```
    fn of_object(self) -> KindPredicate<Self, Map<String, Value>>
    where
        Self: Predicate<Map<String, Value>>,
        ensures inner { Kind.inner_of result ≡ self }
        ensures kind { (v : JsonValue) → ⟦<Map<String, Value> as JsonKind>⟧.held_by v
            ≡ held_object v }
        ensures formula { (v : JsonValue) (f : Formula)
            → ⟦<KindPredicate<Self, Map<String, Value>> as Predicate<Value>>⟧.formula result v f
            ↔ IsOfPresent (Self.output self) (kind_text (view v)) (Self.formula self)
            (held_object v) f }
        ensures lawful { ⟦<KindPredicate<Self, Map<String, Value>> as Predicate<Value>>⟧.lawful result ↔ Self.lawful self }
        ensures infallible { (v : JsonValue)
            → ⟦<KindPredicate<Self, Map<String, Value>> as Predicate<Value>>⟧.infallible result v
            ↔ IfSome (held_object v) (Self.infallible self) }
        ensures values { ⟦<KindPredicate<Self, Map<String, Value>> as PredicateReflection>⟧.parameters_of result ≡ [] }
        ensures parts { ⟦<KindPredicate<Self, Map<String, Value>> as PredicateReflection>⟧.children_of result ≡ part (codes "predicate") (Self.output self) (Self.parameters_of self) (Self.children_of self) };

    /// The same of a JSON number, read as an `i64`, a `u64` or an `f64`. A number that the type
    /// cannot represent is of another kind: for the first two a float, even `5.0`, or one that is
    /// out of range.
    ///
    /// ```
    /// let adult = predicate::ge(18i64).of_number();
    /// assert!(rt; adult.eval(alloc, &Value::from_str(alloc, "18")?)?);
    /// assert!(rt; !adult.eval(alloc, &Value::from_str(alloc, "18.0")?)?);
    /// ```
    fn of_number<N: JsonNumber>(self) -> NumberPredicate<Self, N>
    where
        Self: Predicate<N>,
        ensures inner { Number.inner_of result ≡ self }
        ensures formula { (v : JsonValue) (f : Formula)
            → ⟦<NumberPredicate<Self, N> as Predicate<Value>>⟧.formula result v f
            ↔ IsOfPresent (Self.output self) (no_number_text N.misfit_text (view v))
            (Self.formula self) (option_and_then N.number_as (as_number (view v))) f }
        ensures lawful { ⟦<NumberPredicate<Self, N> as Predicate<Value>>⟧.lawful result
            ↔ Self.lawful self }
        ensures infallible { (v : JsonValue)
            → ⟦<NumberPredicate<Self, N> as Predicate<Value>>⟧.infallible result v
            ↔ IfSome (option_and_then N.number_as (as_number (view v))) (Self.infallible self) }
        ensures values { ⟦<NumberPredicate<Self, N> as PredicateReflection>⟧.parameters_of result
            ≡ [] }
        ensures parts { ⟦<NumberPredicate<Self, N> as PredicateReflection>⟧.children_of result
            ≡ part (codes "predicate") (Self.output self) (Self.parameters_of self)
            (Self.children_of self) };
}

impl<P> PredicateJsonExt for P {
    fn of_pointer<N: JsonPointer>(self, pointer: N) -> PointerPredicate<P, N>
    where
        P: Predicate<Value>,
    {
        PointerPredicate::new(self, pointer)
    }

    fn of_string(self) -> KindPredicate<P, String>
    where
        P: Predicate<String>,
    {
        KindPredicate::new(self)
    }

    fn of_bool(self) -> KindPredicate<P, bool>
    where
        P: Predicate<bool>,
    {
        KindPredicate::new(self)
    }

    fn of_array(self) -> KindPredicate<P, Vec<Value>>
    where
        P: Predicate<Vec<Value>>,
    {
        KindPredicate::new(self)
    }

    fn of_object(self) -> KindPredicate<P, Map<String, Value>>
    where
        P: Predicate<Map<String, Value>>,
    {
        KindPredicate::new(self)
    }

    fn of_number<N: JsonNumber>(self) -> NumberPredicate<P, N>
    where
        P: Predicate<N>,
    {
        NumberPredicate::new(self)
    }
}
