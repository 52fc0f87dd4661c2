//! Whether a text has no characters.
ghost use Rattle.std.specs.Prelude.{◌≡◌, ◌↔◌, string_bytes, []};
ghost use Rattle.std.specs.Str.{chars};
ghost use Rattle.predicates_core.specs.Formula.{Formula};
ghost use Rattle.predicates_core.specs.Text.{Text};
ghost use Rattle.predicates_text.specs.Leaves.{empty_text};
ghost use Rattle.predicates_text.specs.LeafFormulaLaws.{is_text_leaf};
ghost use Rattle.predicates_text.specs.LeafFormulas.{IsEmptyLeaf};
ghost use Rattle.predicates_text.specs.PlaceLaws.{empty_decides};
ghost use Rattle.predicates_text.specs.Places.{is_empty};
ghost use Rattle.predicates_core.specs.Tree.{empty};

use crate::search;
use crate::text_test::{TextTest, TextTestPredicate};
use predicates_core::Predicate;
use predicates_core::reflection::PredicateReflection;
use std::alloc::{AllocError, Global};
use std::fmt;

/// What `is_empty` was given: nothing.
#[derive(Debug, Clone, Copy, PartialEq, Eq, Drop)]
pub struct IsEmptyPredicate;

/// The predicate of the texts that have no characters. It takes no memory, and neither does its
/// `eval`.
///
/// ```
/// assert!(rt; is_empty().eval(alloc, &String::new(alloc))?);
/// assert!(rt; !is_empty().eval(alloc, &" ".to_owned(alloc)?)?);
/// ```
pub fn is_empty() -> TextTestPredicate<IsEmptyPredicate>
    ensures formula { (v : Text) (f : Formula)
        → ⟦<TextTestPredicate<IsEmptyPredicate> as Predicate<String>>⟧.formula result v f
        ↔ IsEmptyLeaf (string_bytes v) f }
    ensures infallible { (v : Text)
        → ⟦<TextTestPredicate<IsEmptyPredicate> as Predicate<String>>⟧.infallible result v }
    ensures lawful { ⟦<TextTestPredicate<IsEmptyPredicate> as Predicate<String>>⟧.lawful result }
    ensures values { ⟦<TextTestPredicate<IsEmptyPredicate> as PredicateReflection>⟧.parameters_of result ≡ [] }
    ensures parts { ⟦<TextTestPredicate<IsEmptyPredicate> as PredicateReflection>⟧.children_of result ≡ empty }
{
    TextTestPredicate::new(IsEmptyPredicate)
}

impl fmt::Display for IsEmptyPredicate {
    ghost output = { λ t. empty_text };

    fn fmt<W: fmt::Write>(&self, f: &mut fmt::Formatter<W>) -> fmt::Result {
        write!(f, "var.is_empty()")
    }
}

impl TextTest for IsEmptyPredicate {
    ghost leaf = { λ t bytes. IsEmptyLeaf bytes };

    ghost holds_of = { λ t bytes. is_empty (chars bytes) };

    fn holds(&self, _alloc: Global, text: &str) -> Result<bool, AllocError> {
        Ok(search::is_empty(text))
    }

    ghost is_leaf = { λ t bytes f. is_text_leaf (empty_decides (chars bytes)) };
}
