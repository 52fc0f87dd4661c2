//! Predicates of what stands at a JSON Pointer.
//!
//! ```
//! let adult = predicate::ge(18i64).of_number().of_pointer("/age");
//! ```
ghost use Rattle.std.specs.Prelude.{◌≡◌, ◌↔◌, ℕ, List, [], codes, false, Some, IfSome};
ghost use Rattle.std.specs.Prelude.{string_bytes};
ghost use Rattle.predicates_core.specs.Formula.{Formula};
ghost use Rattle.predicates_core.specs.Parts.{part};
ghost use Rattle.serde_json.specs.declared.value.Value.{Value as JsonValue};
ghost use Rattle.predicates_json.specs.At.{at_pointer};
ghost use Rattle.predicates_core.specs.Present.{IsOfPresent, present_text_fits, one_present};
ghost use Rattle.predicates_core.specs.Present.{present_formula};
ghost use Rattle.predicates_core.specs.Present.{has_present};
ghost use Rattle.predicates_json.specs.Pointer.{IsAt, at_formula, no_value_text};
ghost use Rattle.predicates_json.specs.Pointer.{inner_of, pointer_of};
ghost use Rattle.predicates_json.specs.PointerText.{is_pointer_text};
ghost use Rattle.predicates_json.specs.PointerText.{has_whole_escapes as whole_escapes};
ghost use Rattle.predicates_json.specs.PointerLaws.{at_text_fits, one_at, has_at};

use crate::at::value_at;
use predicates_core::custom::{
    one_child, present_case, present_change, present_explained, present_holds,
};
use predicates_core::node::{printed, unary_node};
use predicates_core::reflection::{Case, Child, Parameter, PredicateReflection};
use predicates_core::static_text::StaticText;
use predicates_core::{Predicate, PredicateChange, Total};
use serde_json::Value;
use std::alloc::{AllocError, Global};
use std::fmt;

/// The text of a JSON Pointer (RFC 6901), as `/a/0/b`: a `&'static str`, a `StaticText`, or a
/// `String` that was read at run time.
///
/// The empty text leads to the whole value, and each `/` one step down, to the item at a place of
/// an array or to the member of a name. In a name `~1` stands for `/` and `~0` for `~`; another `~`
/// stands for itself. A text that is not empty and begins without `/` leads nowhere.
pub trait JsonPointer {
    // The bytes of the text.
    ghost bytes: { Self → List ℕ };

    /// The text itself. It takes no memory.
    fn text(&self) -> &str
        ensures { result.now ≡ bytes self.now };
}

impl JsonPointer for &'static str {
    ghost bytes = { λ s. s.now };

    fn text(&self) -> &str {
        *self
    }
}

impl JsonPointer for StaticText {
    ghost bytes = { λ s. s };

    fn text(&self) -> &str {
        self.as_str()
    }
}

impl JsonPointer for String {
    ghost bytes = { λ s. string_bytes s };

    fn text(&self) -> &str {
        self.as_str()
    }
}

/// Holds of a value where its inner predicate holds of what stands at the pointer, and not where
/// nothing stands there. It prints the pointer, and the inner predicate stands under `value`. Made
/// by `PredicateJsonExt::of_pointer`.
#[derive(Debug, Clone, Copy, PartialEq, Eq, Drop)]
pub struct PointerPredicate<P, N = &'static str> {
    inner: P,
    pointer: N,
}

impl<P: Predicate<Value>, N: JsonPointer> PointerPredicate<P, N> {
    // The predicate of what stands at the pointer over this one.
    pub(crate) fn new(inner: P, pointer: N) -> PointerPredicate<P, N>
        ensures inner { inner_of result ≡ inner }
        ensures pointer { pointer_of result ≡ pointer }
        ensures formula { (v : JsonValue) (f : Formula)
            → ⟦<PointerPredicate<P, N> as Predicate<Value>>⟧.formula result v f
            ↔ IsAt (N.bytes pointer) (IsOfPresent (P.output inner) no_value_text
            (P.formula inner) (at_pointer (N.bytes pointer) v)) f }
        ensures lawful { ⟦<PointerPredicate<P, N> as Predicate<Value>>⟧.lawful result
            ↔ P.lawful inner }
        ensures infallible { (v : JsonValue)
            → ⟦<PointerPredicate<P, N> as Predicate<Value>>⟧.infallible result v
            ↔ IfSome (at_pointer (N.bytes pointer) v) (P.infallible inner) }
        ensures values { ⟦<PointerPredicate<P, N> as PredicateReflection>⟧.parameters_of result
            ≡ [] }
        ensures parts { ⟦<PointerPredicate<P, N> as PredicateReflection>⟧.children_of result
            ≡ part (codes "value") (P.output inner) (P.parameters_of inner)
            (P.children_of inner) }
    {
        PointerPredicate { inner, pointer }
    }
}

impl<P, N: JsonPointer> fmt::Display for PointerPredicate<P, N> {
    ghost output = { λ p. Some (N.bytes (pointer_of p)) };

    fn fmt<W: fmt::Write>(&self, f: &mut fmt::Formatter<W>) -> fmt::Result {
        let pointer = self.pointer.text();
        write!(f, "{pointer}")
    }
}

impl<P: PredicateReflection, N: JsonPointer> PredicateReflection for PointerPredicate<P, N> {
    ghost parameters_of = { λ p. [] };

    ghost children_of = { λ p. part
        (codes "value") (P.output (inner_of p)) (P.parameters_of (inner_of p))
        (P.children_of (inner_of p)) };

    fn parameters(&self, alloc: Global) -> Result<Vec<Parameter>, AllocError> {
        Ok(Vec::new(alloc))
    }

    fn children(&self, alloc: Global) -> Result<Vec<Child>, AllocError> {
        one_child(alloc, "value", &self.inner)
    }
}

impl<P: Predicate<Value>, N: JsonPointer> Predicate<Value> for PointerPredicate<P, N> {
    ghost lawful = { λ p. P.lawful (inner_of p) };

    ghost formula = { λ p v. IsAt (N.bytes (pointer_of p)) (IsOfPresent (P.output (inner_of p))
        no_value_text (P.formula (inner_of p)) (at_pointer (N.bytes (pointer_of p)) v)) };

    ghost infallible = { λ p v. IfSome (at_pointer (N.bytes (pointer_of p)) v)
        (P.infallible (inner_of p)) };

    ghost text_fits = { λ p v f. at_text_fits };

    ghost one_formula = { λ p v f g lawful. one_at (λ x y. one_present
        (at_pointer (N.bytes (pointer_of p)) v)
        (λ u k l. P.one_formula (inner_of p) u k l lawful)) };

    #[tactic(auto, using(crate::proofs::PointerCases::pointers))]
    fn eval(&self, alloc: Global, item: &Value) -> Result<bool, AllocError> {
        let value = value_at(item, self.pointer.text());
        present_holds(alloc, &self.inner, value)
    }

    #[tactic(auto, using(crate::proofs::PointerCases::pointers))]
    fn find_case(
        &self,
        alloc: Global,
        expected: bool,
        item: &Value,
    ) -> Result<Option<Case>, AllocError> {
        let value = value_at(item, self.pointer.text());
        let Some(case) = present_case(alloc, &self.inner, value, "no value", expected)? else {
            return Ok(None);
        };
        let text = printed(alloc, self)?;
        Ok(Some(unary_node(alloc, text, expected, "value", case)?))
    }

    fn explain(
        &self,
        alloc: Global,
        wanted: Option<bool>,
        item: &Value,
    ) -> Result<Option<Case>, AllocError> {
        let value = value_at(item, self.pointer.text());
        let Some(case) = present_explained(alloc, &self.inner, value, "no value", wanted)? else {
            return Ok(None);
        };
        let outcome = case.root().result();
        let pointer = printed(alloc, self)?;
        Ok(Some(unary_node(alloc, pointer, outcome, "value", case)?))
    }
}

impl<P: PredicateChange<Value>, N: JsonPointer> PredicateChange<Value> for PointerPredicate<P, N> {
    fn find_change(
        &self,
        alloc: Global,
        wanted: Option<bool>,
        item: &Value,
    ) -> Result<Option<Case>, AllocError> {
        let value = value_at(item, self.pointer.text());
        let Some(change) = present_change(alloc, &self.inner, value, "no value", wanted)? else {
            return Ok(None);
        };
        let outcome = change.root().result();
        let pointer = printed(alloc, self)?;
        Ok(Some(unary_node(alloc, pointer, outcome, "value", change)?))
    }
}

impl<P: Total<Value>, N: JsonPointer> Total<Value> for PointerPredicate<P, N> {
    ghost formula_of = { λ p v. at_formula (N.bytes (pointer_of p)) (present_formula
        (P.output (inner_of p)) no_value_text (P.formula_of (inner_of p))
        (at_pointer (N.bytes (pointer_of p)) v)) };

    ghost always_lawful = { λ p. P.always_lawful (inner_of p) };

    ghost has_formula = { λ p v. has_at (has_present (P.output (inner_of p)) no_value_text
        (P.formula (inner_of p)) (P.formula_of (inner_of p))
        (at_pointer (N.bytes (pointer_of p)) v) (P.has_formula (inner_of p))) };
}

/// Whether the text is a JSON Pointer: empty, or begun with `/`, and with a `0` or a `1` behind
/// each `~`. `of_pointer` takes any text, so one that was read at run time is tested by this first.
///
/// ```
/// assert!(rt; is_pointer("/age"));
/// assert!(rt; !is_pointer("age"));
/// ```
pub fn is_pointer(text: &str) -> bool
    ensures { result ≡ is_pointer_text text.now }
{
    match text.as_bytes().split_first() {
        Some((first, rest)) => *first == b'/' && has_whole_escapes(rest),
        None => true,
    }
}

// Whether a `0` or a `1` stands behind each `~`.
fn has_whole_escapes(bytes: &[u8]) -> bool
    ensures { result ≡ whole_escapes false bytes.now }
{
    let mut behind_tilde = false;
    for byte in bytes {
        if behind_tilde && *byte != b'0' && *byte != b'1' {
            return false;
        }
        behind_tilde = *byte == b'~';
    }
    !behind_tilde
}
