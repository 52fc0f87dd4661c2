//! Bytes that may be text.
ghost use Rattle.std.specs.Prelude.{◌≡◌, Some, false, IfOk, IfSome, IsOk, MatchOption, codes};
ghost use Rattle.std.specs.Prelude.{string_bytes};
ghost use Rattle.std.specs.Str.{IsUtf8};
ghost use Rattle.predicates_core.specs.Leaves.{IsExactly};
ghost use Rattle.predicates_core.specs.Shows.{IsCaseOf};
ghost use Rattle.predicates_text.specs.ViewFormulas.{IsDecoded, decoded_formula, undecoded};
ghost use Rattle.predicates_text.specs.ViewFormulaLaws.{decoded_text_fits, one_decoded};
ghost use Rattle.predicates_text.specs.ViewFormulaLaws.{has_decoded_formula};
ghost use Rattle.predicates_text.specs.ViewTexts.{text_or_other};
ghost use Rattle.predicates_text.specs.AdapterParts.{inner_of};

use crate::adapters::view::{View, ViewPredicate};
use predicates_core::custom::is_other;
use predicates_core::node::{leaf_node, printed, showing, showing_text};
use predicates_core::reflection::Case;
use predicates_core::{Predicate, PredicateChange, ReadsContent, Total};
use simdutf8::basic::from_utf8;
use std::alloc::{AllocError, Global};
use std::fmt;

/// Evaluates its part on the text that the bytes encode, and is false on other bytes. Made by
/// `PredicateStrExt::from_utf8`.
pub type Utf8Predicate<P> = ViewPredicate<Utf8View, P>;

/// The text that bytes encode.
#[derive(Debug, Clone, Copy, PartialEq, Eq)]
pub struct Utf8View;

impl View for Utf8View {
    ghost name_is = { codes "Utf8Predicate" };

    fn adapter_name() -> &'static str {
        "Utf8Predicate"
    }
}

// The text that the bytes encode, if they are UTF-8. Other bytes take no memory.
fn decode(alloc: Global, bytes: &Vec<u8>) -> Result<Option<String>, AllocError>
    ensures text { IfOk result
        (λ found. MatchOption found (¬ (IsUtf8 bytes.now.items))
        (λ s. string_bytes s ≡ bytes.now.items)) }
    ensures utf8 { IfOk result (λ found. IfSome found (λ _. IsUtf8 bytes.now.items)) }
    ensures other { ¬ (IsUtf8 bytes.now.items) → IsOk result }
{
    match from_utf8(bytes.as_slice()) {
        Ok(text) => Ok(Some(String::from_str(alloc, text)?)),
        Err(_) => Ok(None),
    }
}

// The case of bytes that are not text.
fn undecoded_case<P: fmt::Display>(alloc: Global, predicate: &P) -> Result<Case, AllocError>
    ensures { IfOk result (IsCaseOf (IsExactly (undecoded (P.output predicate.now))) false) }
{
    let case = leaf_node(alloc, printed(alloc, predicate)?, false);
    Ok(showing_text(alloc, case, "error", "Invalid UTF-8 string")?)
}

impl<P: Predicate<String>> Predicate<Vec<u8>> for ViewPredicate<Utf8View, P> {
    ghost lawful = { λ p. P.lawful (inner_of p) };

    ghost formula = { λ p v. IsDecoded (P.output (inner_of p)) (P.formula (inner_of p)) v.items };

    ghost infallible = { λ p v. ¬ (IsUtf8 v.items) };

    ghost text_fits = { λ p v f h. decoded_text_fits (text_or_other v)
        (P.text_fits (inner_of p)) h };

    ghost one_formula = { λ p v f g lawful h k. one_decoded (text_or_other v)
        (λ t x y. P.one_formula (inner_of p) t x y lawful) h k };

    #[tactic(auto, using(crate::proofs::AdapterAnswers::decoding))]
    fn eval(&self, alloc: Global, item: &Vec<u8>) -> Result<bool, AllocError> {
        match decode(alloc, item)? {
            Some(text) => self.inner.eval(alloc, &text),
            None => Ok(false),
        }
    }

    #[tactic(auto, using(crate::proofs::AdapterAnswers::decoding))]
    fn find_case(
        &self,
        alloc: Global,
        expected: bool,
        item: &Vec<u8>,
    ) -> Result<Option<Case>, AllocError> {
        let Some(text) = decode(alloc, item)? else {
            if expected {
                return Ok(None);
            }
            return Ok(Some(undecoded_case(alloc, self)?));
        };
        let Some(case) = self.inner.find_case(alloc, expected, &text)? else {
            return Ok(None);
        };
        Ok(Some(showing(case, "var as str", text)?))
    }

    fn explain(
        &self,
        alloc: Global,
        wanted: Option<bool>,
        item: &Vec<u8>,
    ) -> Result<Option<Case>, AllocError> {
        let Some(text) = decode(alloc, item)? else {
            if is_other(wanted, false) {
                return Ok(None);
            }
            return Ok(Some(undecoded_case(alloc, self)?));
        };
        let Some(case) = self.inner.explain(alloc, wanted, &text)? else {
            return Ok(None);
        };
        let case = showing(case, "var as str", text)?;
        Ok(Some(case))
    }
}

impl<P: PredicateChange<String>> PredicateChange<Vec<u8>> for ViewPredicate<Utf8View, P> {
    fn find_change(
        &self,
        alloc: Global,
        wanted: Option<bool>,
        item: &Vec<u8>,
    ) -> Result<Option<Case>, AllocError> {
        let Some(text) = decode(alloc, item)? else {
            if is_other(wanted, false) {
                return Ok(None);
            }
            return Ok(Some(undecoded_case(alloc, self)?));
        };
        let Some(change) = self.inner.find_change(alloc, wanted, &text)? else {
            return Ok(None);
        };
        let change = showing(change, "var as str", text)?;
        Ok(Some(change))
    }
}

impl<P: ReadsContent<String>> Total<Vec<u8>> for ViewPredicate<Utf8View, P> {
    ghost formula_of = { λ p v. decoded_formula (P.content_formula (inner_of p))
        (P.output (inner_of p)) v.items };

    ghost always_lawful = { λ p. P.always_lawful (inner_of p) };

    ghost has_formula = { λ p v. has_decoded_formula
        (P.content_formula (inner_of p)) (P.output (inner_of p)) (P.formula (inner_of p)) v.items
        (P.has_formula (inner_of p)) };
}
