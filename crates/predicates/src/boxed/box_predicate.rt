//! A predicate of texts in a box.
ghost use Rattle.std.specs.Prelude.{◌≡◌, ◌↔◌, refl, IfOk, IsOk, string_bytes, Some, codes};
ghost use Rattle.predicates_core.specs.Label.{Fits};
ghost use Rattle.predicates_core.specs.Formula.{Formula, HasTruth};
ghost use Rattle.predicates_core.specs.Shows.{IsAnswer, IsFound};
ghost use Rattle.predicates_core.specs.Change.{IsFoundChange};
ghost use Rattle.predicates_core.specs.Leaves.{IsExactly};
ghost use Rattle.predicates_core.specs.Text.{Text};
ghost use Rattle.predicates.specs.Boxed.{inner_of, kept_text};
ghost use Rattle.predicates.specs.Printed.{as_printed, IsPrintedAs, HasFormulas};
ghost use Rattle.predicates.specs.PrintedLaws.{printed_text_fits, one_printed};

use crate::boxed::TextPredicate;
use predicates_core::reflection::{Case, Child, Parameter, PredicateReflection};
use predicates_core::{Predicate, PredicateChange, ReadsContent, Total};
use std::alloc::{AllocError, Global};
use std::fmt;

/// A predicate of texts in a box, so that predicates of several types stand in one vector.
#[derive(Drop)]
pub struct BoxPredicate {
    inner: Box<dyn TextPredicate>,
    printed: String,
}

impl BoxPredicate {
    /// The predicate that is in the box. It prints it once and keeps the text, and so takes memory;
    /// where that is refused, the box is dropped.
    ///
    /// ```
    /// let boxed = BoxPredicate::new(alloc, Box::new(alloc, predicate::str::is_empty())?)?;
    /// assert!(rt; boxed.eval(alloc, &String::new(alloc))?);
    /// ```
    #[tactic(auto, using(crate::proofs::OpenRoots::boxes))]
    pub fn new(alloc: Global, inner: Box<dyn TextPredicate>) -> Result<Self, AllocError>
        ensures holds { IfOk result (λ made. inner_of made ≡ inner) }
        ensures text { IfOk result (λ made. Fits (text_output inner) (kept_text made)) }
        ensures same { IfOk result (λ made.
            HasFormulas (text_formula inner) (⟦<BoxPredicate as Predicate<String>>⟧.formula made)) }
        ensures formula { IfOk result (λ made. (v : Text) (f : Formula)
            → ⟦<BoxPredicate as Predicate<String>>⟧.formula made v f
            ↔ IsPrintedAs (kept_text made) (text_formula inner (string_bytes v)) f) }
        ensures lawful { IfOk result ⟦<BoxPredicate as Predicate<String>>⟧.lawful }
        ensures infallible { IfOk result (λ made. (v : Text)
            → ⟦<BoxPredicate as Predicate<String>>⟧.infallible made v
            ↔ text_infallible inner v) }
        ensures values { IfOk result (λ made.
            ⟦<BoxPredicate as PredicateReflection>⟧.parameters_of made
            ≡ text_parameters_of inner) }
        ensures parts { IfOk result (λ made.
            ⟦<BoxPredicate as PredicateReflection>⟧.children_of made ≡ text_children_of inner) }
    {
        let printed = inner.text_printed(alloc)?;
        Ok(BoxPredicate { inner, printed })
    }
}

impl fmt::Debug for BoxPredicate {
    ghost debug_output = { λ _. Some (codes "BoxPredicate") };

    fn fmt<W: fmt::Write>(&self, f: &mut fmt::Formatter<W>) -> fmt::Result {
        write!(f, "BoxPredicate")
    }
}

impl fmt::Display for BoxPredicate {
    ghost output = { λ p. Some (kept_text p) };

    fn fmt<W: fmt::Write>(&self, f: &mut fmt::Formatter<W>) -> fmt::Result {
        let printed = &self.printed;
        write!(f, "{printed}")
    }
}

impl PredicateReflection for BoxPredicate {
    ghost parameters_of = { λ p. (TextPredicate-box (inner_of p)).text_parameters_of
        (inner_of p).value };

    ghost children_of = { λ p. (TextPredicate-box (inner_of p)).text_children_of
        (inner_of p).value };

    fn parameters(&self, alloc: Global) -> Result<Vec<Parameter>, AllocError> {
        self.inner.text_parameters(alloc)
    }

    fn children(&self, alloc: Global) -> Result<Vec<Child>, AllocError> {
        self.inner.text_children(alloc)
    }
}

// What the held predicate answers, by the members of its own type.
fn eval_held(
    alloc: Global,
    held: &Box<dyn TextPredicate>,
    item: &String,
) -> Result<bool, AllocError>
    ensures truth { IfOk result
        (HasTruth (IsExactly (text_formula held.now (string_bytes item.now)))) }
    ensures infallible { text_infallible held.now item.now → IsOk result }
{
    held.text_eval(alloc, item)
}

// What the held predicate finds, by the members of its own type.
fn find_held(
    alloc: Global,
    held: &Box<dyn TextPredicate>,
    expected: bool,
    item: &String,
) -> Result<Option<Case>, AllocError>
    ensures { IfOk result
        (IsAnswer (IsExactly (text_formula held.now (string_bytes item.now))) expected) }
{
    held.text_find_case(alloc, expected, item)
}

// What the held predicate explains, by the members of its own type.
fn explain_held(
    alloc: Global,
    held: &Box<dyn TextPredicate>,
    wanted: Option<bool>,
    item: &String,
) -> Result<Option<Case>, AllocError>
    ensures { IfOk result
        (IsFound (IsExactly (text_formula held.now (string_bytes item.now))) wanted) }
{
    held.text_explain(alloc, wanted, item)
}

// What would turn the held predicate, by the members of its own type.
fn change_held(
    alloc: Global,
    held: &Box<dyn TextPredicate>,
    wanted: Option<bool>,
    item: &String,
) -> Result<Option<Case>, AllocError>
    ensures { IfOk result
        (IsFoundChange (IsExactly (text_formula held.now (string_bytes item.now))) wanted) }
{
    held.text_find_change(alloc, wanted, item)
}

impl Predicate<String> for BoxPredicate {
    ghost formula = { λ p v. IsPrintedAs
        (kept_text p)
        ((TextPredicate-box (inner_of p)).text_formula (inner_of p).value (string_bytes v)) };

    ghost infallible = { λ p v. (TextPredicate-box (inner_of p)).text_infallible
        (inner_of p).value v };

    ghost text_fits = { λ p v f. printed_text_fits };

    ghost one_formula = { λ p v f g lawful. one_printed };

    #[tactic(auto, using(crate::proofs::OpenRoots::boxes))]
    fn eval(&self, alloc: Global, item: &String) -> Result<bool, AllocError> {
        eval_held(alloc, &self.inner, item)
    }

    #[tactic(auto, using(crate::proofs::OpenRoots::boxes))]
    fn find_case(
        &self,
        alloc: Global,
        expected: bool,
        item: &String,
    ) -> Result<Option<Case>, AllocError> {
        find_held(alloc, &self.inner, expected, item)
    }

    #[tactic(auto, using(crate::proofs::OpenRoots::boxes))]
    fn explain(
        &self,
        alloc: Global,
        wanted: Option<bool>,
        item: &String,
    ) -> Result<Option<Case>, AllocError> {
        explain_held(alloc, &self.inner, wanted, item)
    }
}

impl PredicateChange<String> for BoxPredicate {
    #[tactic(auto, using(crate::proofs::OpenRoots::boxes))]
    fn find_change(
        &self,
        alloc: Global,
        wanted: Option<bool>,
        item: &String,
    ) -> Result<Option<Case>, AllocError> {
        change_held(alloc, &self.inner, wanted, item)
    }
}

impl Total<String> for BoxPredicate {
    ghost formula_of = { λ p v. as_printed
        (kept_text p)
        ((TextPredicate-box (inner_of p)).text_formula (inner_of p).value (string_bytes v)) };

    ghost always_lawful = { λ p. tt };

    ghost has_formula = { λ p v. record { is = refl } };
}

impl ReadsContent<String> for BoxPredicate {
    ghost content_formula = { λ p bytes. as_printed
        (kept_text p)
        ((TextPredicate-box (inner_of p)).text_formula (inner_of p).value bytes) };

    ghost always_lawful = { λ p. tt };

    ghost has_formula = { λ p v. record { is = refl } };
}
