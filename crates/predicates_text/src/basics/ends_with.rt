//! Whether a text ends with a pattern.
ghost use Rattle.std.specs.Prelude.{◌≡◌, ◌↔◌, string_bytes, []};
ghost use Rattle.std.specs.Str.{chars};
ghost use Rattle.predicates_core.specs.Formula.{Formula};
ghost use Rattle.predicates_core.specs.Text.{Text};
ghost use Rattle.predicates_text.specs.Leaves.{ends_text};
ghost use Rattle.predicates_text.specs.LeafFormulaLaws.{is_text_leaf};
ghost use Rattle.predicates_text.specs.LeafFormulas.{IsEndsLeaf};
ghost use Rattle.predicates_text.specs.Patterns.{ends_pattern};
ghost use Rattle.predicates_text.specs.PlaceLaws.{back_decides};
ghost use Rattle.predicates_text.specs.Places.{is_back};
ghost use Rattle.predicates_core.specs.Tree.{empty};

use crate::search;
use crate::text_test::{TextTest, TextTestPredicate};
use predicates_core::Predicate;
use predicates_core::reflection::PredicateReflection;
use std::alloc::{AllocError, Global};
use std::fmt;

/// What `ends_with` was given.
#[derive(Debug, PartialEq, Eq, Drop)]
pub struct EndsWithPredicate {
    pattern: String,
}

/// The predicate of the texts that end with the pattern, which it owns. It takes no memory, and
/// neither does its `eval`.
///
/// ```
/// let is_source = ends_with(".rt".to_owned(alloc)?);
/// assert!(rt; is_source.eval(alloc, &"lib.rt".to_owned(alloc)?)?);
/// assert!(rt; !is_source.eval(alloc, &"lib.rt.orig".to_owned(alloc)?)?);
/// ```
pub fn ends_with(pattern: String) -> TextTestPredicate<EndsWithPredicate>
    ensures pattern { ends_pattern result ≡ string_bytes pattern }
    ensures formula { (v : Text) (f : Formula)
        → ⟦<TextTestPredicate<EndsWithPredicate> as Predicate<String>>⟧.formula result v f
        ↔ IsEndsLeaf (string_bytes pattern) (string_bytes v) f }
    ensures infallible { (v : Text)
        → ⟦<TextTestPredicate<EndsWithPredicate> as Predicate<String>>⟧.infallible result v }
    ensures lawful { ⟦<TextTestPredicate<EndsWithPredicate> as Predicate<String>>⟧.lawful result }
    ensures values { ⟦<TextTestPredicate<EndsWithPredicate> as PredicateReflection>⟧.parameters_of result ≡ [] }
    ensures parts { ⟦<TextTestPredicate<EndsWithPredicate> as PredicateReflection>⟧.children_of result ≡ empty }
{
    TextTestPredicate::new(EndsWithPredicate { pattern })
}

impl fmt::Display for EndsWithPredicate {
    ghost output = { λ t. ends_text (string_bytes t.pattern) };

    fn fmt<W: fmt::Write>(&self, f: &mut fmt::Formatter<W>) -> fmt::Result {
        let pattern = &self.pattern;
        write!(f, "var.ends_with({pattern:?})")
    }
}

impl TextTest for EndsWithPredicate {
    ghost leaf = { λ t bytes. IsEndsLeaf (string_bytes t.pattern) bytes };

    ghost holds_of = { λ t bytes. is_back (chars (string_bytes t.pattern)) (chars bytes) };

    fn holds(&self, _alloc: Global, text: &str) -> Result<bool, AllocError> {
        Ok(search::ends_with(text, &self.pattern))
    }

    ghost is_leaf = { λ t bytes f. is_text_leaf
        (back_decides (chars (string_bytes t.pattern)) (chars bytes)) };
}
