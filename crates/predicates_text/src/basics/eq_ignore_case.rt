//! Whether a text is another one but for case.
ghost use Rattle.std.specs.Prelude.{◌≡◌, ◌↔◌, string_bytes, []};
ghost use Rattle.std.specs.Str.{chars};
ghost use Rattle.predicates_core.specs.Formula.{Formula};
ghost use Rattle.predicates_core.specs.Text.{Text};
ghost use Rattle.predicates_text.specs.Leaves.{eq_ignore_case_text};
ghost use Rattle.predicates_text.specs.LeafFormulaLaws.{is_text_leaf};
ghost use Rattle.predicates_text.specs.LeafFormulas.{IsEqIgnoreCaseLeaf};
ghost use Rattle.predicates_text.specs.Patterns.{eq_ignore_case_other};
ghost use Rattle.predicates_text.specs.PlaceLaws.{eq_ignore_case_decides};
ghost use Rattle.predicates_text.specs.Places.{is_eq_ignore_case};
ghost use Rattle.predicates_core.specs.Tree.{empty};

use crate::search;
use crate::text_test::{TextTest, TextTestPredicate};
use predicates_core::Predicate;
use predicates_core::reflection::PredicateReflection;
use std::alloc::{AllocError, Global};
use std::fmt;

/// What `eq_ignore_case` was given.
#[derive(Debug, PartialEq, Eq, Drop)]
pub struct EqIgnoreCasePredicate {
    other: String,
}

/// The predicate of the texts that have the default case folding of Unicode which the other text
/// has, which it owns. It takes no memory, and neither does its `eval`.
///
/// ```
/// let is_street = eq_ignore_case("Straße".to_owned(alloc)?);
/// assert!(rt; is_street.eval(alloc, &"STRASSE".to_owned(alloc)?)?);
/// assert!(rt; !is_street.eval(alloc, &"Straßen".to_owned(alloc)?)?);
/// ```
pub fn eq_ignore_case(other: String) -> TextTestPredicate<EqIgnoreCasePredicate>
    ensures other { eq_ignore_case_other result ≡ string_bytes other }
    ensures formula { (v : Text) (f : Formula)
        → ⟦<TextTestPredicate<EqIgnoreCasePredicate> as Predicate<String>>⟧.formula result v f
        ↔ IsEqIgnoreCaseLeaf (string_bytes other) (string_bytes v) f }
    ensures infallible { (v : Text)
        → ⟦<TextTestPredicate<EqIgnoreCasePredicate> as Predicate<String>>⟧.infallible result v }
    ensures lawful { ⟦<TextTestPredicate<EqIgnoreCasePredicate> as Predicate<String>>⟧.lawful result }
    ensures values { ⟦<TextTestPredicate<EqIgnoreCasePredicate> as PredicateReflection>⟧.parameters_of result ≡ [] }
    ensures parts { ⟦<TextTestPredicate<EqIgnoreCasePredicate> as PredicateReflection>⟧.children_of result ≡ empty }
{
    TextTestPredicate::new(EqIgnoreCasePredicate { other })
}

impl fmt::Display for EqIgnoreCasePredicate {
    ghost output = { λ t. eq_ignore_case_text (string_bytes t.other) };

    fn fmt<W: fmt::Write>(&self, f: &mut fmt::Formatter<W>) -> fmt::Result {
        let other = &self.other;
        write!(f, "var.eq_ignore_case({other:?})")
    }
}

impl TextTest for EqIgnoreCasePredicate {
    ghost leaf = { λ t bytes. IsEqIgnoreCaseLeaf (string_bytes t.other) bytes };

    ghost holds_of = { λ t bytes. is_eq_ignore_case (chars (string_bytes t.other)) (chars bytes) };

    fn holds(&self, _alloc: Global, text: &str) -> Result<bool, AllocError> {
        Ok(search::eq_ignore_case(text, &self.other))
    }

    ghost is_leaf = { λ t bytes f. is_text_leaf
        (eq_ignore_case_decides (chars (string_bytes t.other)) (chars bytes)) };
}
