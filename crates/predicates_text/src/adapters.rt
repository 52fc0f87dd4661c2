//! Predicates that evaluate another predicate on a view of the item.
//!
//! ```
//! let blank = predicate::str::is_empty().trim();
//! let utf8 = predicate::str::is_empty().not().from_utf8();
//! ```
ghost use Rattle.std.specs.Prelude.{◌≡◌, ◌↔◌, ℕ, Vec, [], codes};
ghost use Rattle.std.specs.Str.{IsUtf8};
ghost use Rattle.std.specs.declared.alloc.Global.{Global};
ghost use Rattle.predicates_core.specs.Formula.{Formula};
ghost use Rattle.predicates_core.specs.Text.{Text};
ghost use Rattle.predicates_text.specs.AdapterParts.{inner_of};
ghost use Rattle.predicates_text.specs.ViewFormulas.{IsOfEach, IsDecoded, IsTrimmedOf};
ghost use Rattle.predicates_text.specs.ViewFormulas.{HasEvenLinesOf, IsCaseFoldedOf};
ghost use Rattle.predicates_text.specs.declared.adapters.fold_case.FoldCaseView.{FoldCaseView};
ghost use Rattle.predicates_text.specs.declared.adapters.view.ViewPredicate.{ViewPredicate};
ghost use Rattle.predicates_core.specs.Parts.{part};

mod fold_case;
mod normalize;
mod trim;
mod utf8;
mod view;

pub use fold_case::{FoldCasePredicate, FoldCaseView};
pub use normalize::{NormalizeView, NormalizedPredicate};
use predicates_core::Predicate;
use predicates_core::reflection::PredicateReflection;
pub use trim::{TrimPredicate, TrimView};
pub use utf8::{Utf8Predicate, Utf8View};
pub use view::{TextView, View, ViewPredicate};

/// Adapts any predicate of texts.
pub trait PredicateStrExt: Predicate<String> {
    /// The predicate of what is left of a text without the white space at its ends. Its `eval`
    /// takes memory for that, but none where there is no such space.
    ///
    /// ```
    /// let is_blank = is_empty().trim();
    /// assert!(rt; is_blank.eval(alloc, &" \t\u{a0}".to_owned(alloc)?)?);
    /// assert!(rt; !is_blank.eval(alloc, &" a ".to_owned(alloc)?)?);
    /// ```
    fn trim(self) -> TrimPredicate<Self>
    where
        Self: Sized,
        ensures inner { inner_of result ≡ self }
        ensures formula { (v : Text) (f : Formula)
            → ⟦<TrimPredicate<Self> as Predicate<String>>⟧.formula result v f
            ↔ IsOfEach (Self.formula self) (IsTrimmedOf v) f }
        ensures lawful { ⟦<TrimPredicate<Self> as Predicate<String>>⟧.lawful result
            ↔ Self.lawful self }
        ensures fallible { (v : Text)
            → ¬ (⟦<TrimPredicate<Self> as Predicate<String>>⟧.infallible result v) }
        ensures values { ⟦<TrimPredicate<Self> as PredicateReflection>⟧.parameters_of result ≡ [] }
        ensures parts { ⟦<TrimPredicate<Self> as PredicateReflection>⟧.children_of result
            ≡ part (codes "predicate") (Self.output self) (Self.parameters_of self)
            (Self.children_of self) };

    /// The predicate of a text with even line endings: a carriage return, with the line feed behind
    /// it or alone, counts as a line feed. Its `eval` takes memory for that text, but none where
    /// there is no carriage return.
    ///
    /// ```
    /// let two_lines = contains("a\nb\n".to_owned(alloc)?).normalize();
    /// assert!(rt; two_lines.eval(alloc, &"a\r\nb\r".to_owned(alloc)?)?);
    /// assert!(rt; !two_lines.eval(alloc, &"a\n\rb\n".to_owned(alloc)?)?);
    /// ```
    fn normalize(self) -> NormalizedPredicate<Self>
    where
        Self: Sized,
        ensures inner { inner_of result ≡ self }
        ensures formula { (v : Text) (f : Formula)
            → ⟦<NormalizedPredicate<Self> as Predicate<String>>⟧.formula result v f
            ↔ IsOfEach (Self.formula self) (HasEvenLinesOf v) f }
        ensures lawful { ⟦<NormalizedPredicate<Self> as Predicate<String>>⟧.lawful result
            ↔ Self.lawful self }
        ensures fallible { (v : Text)
            → ¬ (⟦<NormalizedPredicate<Self> as Predicate<String>>⟧.infallible result v) }
        ensures values { ⟦<NormalizedPredicate<Self> as PredicateReflection>⟧.parameters_of result
            ≡ [] }
        ensures parts { ⟦<NormalizedPredicate<Self> as PredicateReflection>⟧.children_of result
            ≡ part (codes "predicate") (Self.output self) (Self.parameters_of self)
            (Self.children_of self) };

    /// The predicate of a text after the default case folding of Unicode, which is one for texts
    /// that differ in case alone. A text that the predicate is made of is not folded. Its `eval`
    /// takes memory for the folded text, but none where that is the text itself.
    ///
    /// ```
    /// let has_street = contains("strasse".to_owned(alloc)?).fold_case();
    /// assert!(rt; has_street.eval(alloc, &"Lange Straße".to_owned(alloc)?)?);
    /// assert!(rt; has_street.eval(alloc, &"LANGE STRASSE".to_owned(alloc)?)?);
    /// ```
    fn fold_case(self) -> FoldCasePredicate<Self>
    where
        Self: Sized,
        ensures inner { inner_of result ≡ self }
        ensures formula { (v : Text) (f : Formula)
            → ⟦<FoldCasePredicate<Self> as Predicate<String>>⟧.formula result v f
            ↔ IsOfEach (Self.formula self) (IsCaseFoldedOf v) f }
        ensures lawful { ⟦<FoldCasePredicate<Self> as Predicate<String>>⟧.lawful result
            ↔ Self.lawful self }
        ensures fallible { (v : Text)
            → ¬ (⟦<FoldCasePredicate<Self> as Predicate<String>>⟧.infallible result v) }
        ensures again { (twice : ViewPredicate FoldCaseView (ViewPredicate FoldCaseView Self))
            (v : Text) (f : Formula) → inner_of twice ≡ result
            → ⟦<FoldCasePredicate<FoldCasePredicate<Self>> as Predicate<String>>⟧.formula twice v f
            ↔ ⟦<FoldCasePredicate<Self> as Predicate<String>>⟧.formula result v f }
        ensures values { ⟦<FoldCasePredicate<Self> as PredicateReflection>⟧.parameters_of result
            ≡ [] }
        ensures parts { ⟦<FoldCasePredicate<Self> as PredicateReflection>⟧.children_of result
            ≡ part (codes "predicate") (Self.output self) (Self.parameters_of self)
            (Self.children_of self) };

    /// The predicate of the text that bytes encode, which is false on other bytes. Its `eval`
    /// takes memory for the text, and none on other bytes.
    ///
    /// ```
    /// let has_umlaut = contains("ä".to_owned(alloc)?).from_utf8();
    /// assert!(rt; has_umlaut.eval(alloc, &vec![in alloc; 0xc3, 0xa4]?)?);
    /// assert!(rt; !has_umlaut.eval(alloc, &vec![in alloc; 0xe4]?)?);
    /// ```
    fn from_utf8(self) -> Utf8Predicate<Self>
    where
        Self: Sized,
        ensures inner { inner_of result ≡ self }
        ensures formula { (v : Vec ℕ Global) (f : Formula)
            → ⟦<Utf8Predicate<Self> as Predicate<Vec<u8>>>⟧.formula result v f
            ↔ IsDecoded (Self.output self) (Self.formula self) v.items f }
        ensures lawful { ⟦<Utf8Predicate<Self> as Predicate<Vec<u8>>>⟧.lawful result
            ↔ Self.lawful self }
        ensures infallible { (v : Vec ℕ Global)
            → ⟦<Utf8Predicate<Self> as Predicate<Vec<u8>>>⟧.infallible result v
            ↔ ¬ (IsUtf8 v.items) }
        ensures values { ⟦<Utf8Predicate<Self> as PredicateReflection>⟧.parameters_of result ≡ [] }
        ensures parts { ⟦<Utf8Predicate<Self> as PredicateReflection>⟧.children_of result
            ≡ part (codes "predicate") (Self.output self) (Self.parameters_of self)
            (Self.children_of self) };
}

impl<P: Predicate<String>> PredicateStrExt for P {
    fn trim(self) -> TrimPredicate<Self> {
        TrimPredicate::new(self)
    }

    fn normalize(self) -> NormalizedPredicate<Self> {
        NormalizedPredicate::new(self)
    }

    fn fold_case(self) -> FoldCasePredicate<Self> {
        FoldCasePredicate::new(self)
    }

    fn from_utf8(self) -> Utf8Predicate<Self> {
        Utf8Predicate::new(self)
    }
}
