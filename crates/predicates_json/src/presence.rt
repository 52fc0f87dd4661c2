//! Whether anything stands at a JSON Pointer.
ghost use Rattle.std.specs.Prelude.{◌≡◌, ◌↔◌, refl, true, false, [], Some};
ghost use Rattle.predicates_core.specs.Formula.{Formula};
ghost use Rattle.predicates_core.specs.Tree.{empty};
ghost use Rattle.predicates_core.specs.Leaves.{IsExactly};
ghost use Rattle.predicates_core.specs.LeafLaws.{exactly_text_fits, one_exactly};
ghost use Rattle.serde_json.specs.declared.value.Value.{Value as JsonValue};
ghost use Rattle.predicates_json.specs.At.{at_pointer};
ghost use Rattle.predicates_json.specs.Presence.{presence_text, presence_truth, presence_formula};
ghost use Rattle.predicates_json.specs.Presence.{asks_presence, asked_pointer};

use crate::JsonPointer;
use crate::at::value_at;
use predicates_core::custom::{bare_case, leaf_change};
use predicates_core::reflection::{Case, Child, Parameter, PredicateReflection};
use predicates_core::{Predicate, PredicateChange, Total};
use serde_json::Value;
use std::alloc::{AllocError, Global};
use std::fmt;

/// Whether anything stands at a pointer, null too. Made by `has_pointer` and `lacks_pointer`.
#[derive(Debug, Clone, Copy, PartialEq, Eq, Drop)]
pub struct PointerPresencePredicate<N = &'static str> {
    pointer: N,
    present: bool,
}

/// Holds where something stands at the pointer, null too. It takes no memory, and neither does its
/// `eval`.
///
/// ```
/// let aged = has_pointer("/age");
/// assert!(rt; aged.eval(alloc, &Value::from_str(alloc, "{\"age\": null}")?)?);
/// assert!(rt; !aged.eval(alloc, &Value::from_str(alloc, "{}")?)?);
/// ```
pub fn has_pointer<N: JsonPointer>(pointer: N) -> PointerPresencePredicate<N>
    ensures pointer { asked_pointer result ≡ pointer }
    ensures presence { asks_presence result ≡ true }
    ensures formula { (v : JsonValue) (f : Formula)
        → ⟦<PointerPresencePredicate<N> as Predicate<Value>>⟧.formula result v f
        ↔ IsExactly (presence_formula true (N.bytes pointer) v) f }
    ensures lawful { ⟦<PointerPresencePredicate<N> as Predicate<Value>>⟧.lawful result }
    ensures infallible { (v : JsonValue)
        → ⟦<PointerPresencePredicate<N> as Predicate<Value>>⟧.infallible result v }
    ensures values { ⟦<PointerPresencePredicate<N> as PredicateReflection>⟧.parameters_of result
        ≡ [] }
    ensures parts { ⟦<PointerPresencePredicate<N> as PredicateReflection>⟧.children_of result
        ≡ empty }
{
    PointerPresencePredicate::new(pointer, true)
}

/// Holds where nothing stands at the pointer. It takes no memory, and neither does its `eval`.
///
/// ```
/// let ageless = lacks_pointer("/age");
/// assert!(rt; ageless.eval(alloc, &Value::from_str(alloc, "{}")?)?);
/// assert!(rt; !ageless.eval(alloc, &Value::from_str(alloc, "{\"age\": null}")?)?);
/// ```
pub fn lacks_pointer<N: JsonPointer>(pointer: N) -> PointerPresencePredicate<N>
    ensures pointer { asked_pointer result ≡ pointer }
    ensures presence { asks_presence result ≡ false }
    ensures formula { (v : JsonValue) (f : Formula)
        → ⟦<PointerPresencePredicate<N> as Predicate<Value>>⟧.formula result v f
        ↔ IsExactly (presence_formula false (N.bytes pointer) v) f }
    ensures lawful { ⟦<PointerPresencePredicate<N> as Predicate<Value>>⟧.lawful result }
    ensures infallible { (v : JsonValue)
        → ⟦<PointerPresencePredicate<N> as Predicate<Value>>⟧.infallible result v }
    ensures values { ⟦<PointerPresencePredicate<N> as PredicateReflection>⟧.parameters_of result
        ≡ [] }
    ensures parts { ⟦<PointerPresencePredicate<N> as PredicateReflection>⟧.children_of result
        ≡ empty }
{
    PointerPresencePredicate::new(pointer, false)
}

impl<N: JsonPointer> PointerPresencePredicate<N> {
    // The predicate that asks for something at the pointer, or for nothing.
    fn new(pointer: N, present: bool) -> PointerPresencePredicate<N>
        ensures pointer { asked_pointer result ≡ pointer }
        ensures presence { asks_presence result ≡ present }
        ensures formula { (v : JsonValue) (f : Formula)
            → ⟦<PointerPresencePredicate<N> as Predicate<Value>>⟧.formula result v f
            ↔ IsExactly (presence_formula present (N.bytes pointer) v) f }
        ensures lawful { ⟦<PointerPresencePredicate<N> as Predicate<Value>>⟧.lawful result }
        ensures infallible { (v : JsonValue)
            → ⟦<PointerPresencePredicate<N> as Predicate<Value>>⟧.infallible result v }
        ensures values { ⟦<PointerPresencePredicate<N> as PredicateReflection>⟧.parameters_of result
            ≡ [] }
        ensures parts { ⟦<PointerPresencePredicate<N> as PredicateReflection>⟧.children_of result
            ≡ empty }
    {
        PointerPresencePredicate { pointer, present }
    }

    // Whether it holds of the value.
    fn holds(&self, value: &Value) -> bool
        ensures { result ≡ presence_truth (asks_presence self.now)
            (at_pointer (N.bytes (asked_pointer self.now)) value.now) }
    {
        value_at(value, self.pointer.text()).is_some() == self.present
    }
}

impl<N: JsonPointer> fmt::Display for PointerPresencePredicate<N> {
    ghost output = { λ p. Some (presence_text (asks_presence p) (N.bytes (asked_pointer p))) };

    fn fmt<W: fmt::Write>(&self, f: &mut fmt::Formatter<W>) -> fmt::Result {
        let pointer = self.pointer.text();
        if self.present {
            write!(f, "exists({pointer})")
        } else {
            write!(f, "missing({pointer})")
        }
    }
}

impl<N: JsonPointer> PredicateReflection for PointerPresencePredicate<N> {
    ghost parameters_of = { λ p. [] };

    ghost children_of = { λ p. empty };

    fn parameters(&self, alloc: Global) -> Result<Vec<Parameter>, AllocError> {
        Ok(Vec::new(alloc))
    }

    fn children(&self, alloc: Global) -> Result<Vec<Child>, AllocError> {
        Ok(Vec::new(alloc))
    }
}

impl<N: JsonPointer> Predicate<Value> for PointerPresencePredicate<N> {
    ghost formula = { λ p v. IsExactly
        (presence_formula (asks_presence p) (N.bytes (asked_pointer p)) v) };

    ghost infallible = { λ p v. Unit {0} };

    ghost text_fits = { λ p v f. exactly_text_fits };

    ghost one_formula = { λ p v f g lawful. one_exactly };

    #[tactic(auto, using(predicates_core::proofs::Leaves::leaves))]
    fn eval(&self, _alloc: Global, item: &Value) -> Result<bool, AllocError> {
        Ok(self.holds(item))
    }

    fn find_case(
        &self,
        alloc: Global,
        expected: bool,
        item: &Value,
    ) -> Result<Option<Case>, AllocError> {
        self.explain(alloc, Some(expected), item)
    }

    fn explain(
        &self,
        alloc: Global,
        wanted: Option<bool>,
        item: &Value,
    ) -> Result<Option<Case>, AllocError> {
        bare_case(alloc, self, self.holds(item), wanted)
    }
}

impl<N: JsonPointer> PredicateChange<Value> for PointerPresencePredicate<N> {
    fn find_change(
        &self,
        alloc: Global,
        wanted: Option<bool>,
        item: &Value,
    ) -> Result<Option<Case>, AllocError> {
        leaf_change(alloc, self, wanted, item)
    }
}

impl<N: JsonPointer> Total<Value> for PointerPresencePredicate<N> {
    ghost formula_of = { λ p v.
        presence_formula (asks_presence p) (N.bytes (asked_pointer p)) v };

    ghost always_lawful = { λ p. tt };

    ghost has_formula = { λ p v. record { is = refl } };
}
