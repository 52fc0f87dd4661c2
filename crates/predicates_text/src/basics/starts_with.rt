//! Whether a text begins with a pattern.
ghost use Rattle.std.specs.Prelude.{◌≡◌, ◌↔◌, string_bytes, []};
ghost use Rattle.std.specs.Str.{chars};
ghost use Rattle.predicates_core.specs.Formula.{Formula};
ghost use Rattle.predicates_core.specs.Text.{Text};
ghost use Rattle.predicates_text.specs.Leaves.{starts_text};
ghost use Rattle.predicates_text.specs.LeafFormulaLaws.{is_text_leaf};
ghost use Rattle.predicates_text.specs.LeafFormulas.{IsStartsLeaf};
ghost use Rattle.predicates_text.specs.Patterns.{starts_pattern};
ghost use Rattle.predicates_text.specs.PlaceLaws.{front_decides};
ghost use Rattle.predicates_text.specs.Places.{is_front};
ghost use Rattle.predicates_core.specs.Tree.{empty};

use crate::search;
use crate::text_test::{TextTest, TextTestPredicate};
use predicates_core::Predicate;
use predicates_core::reflection::PredicateReflection;
use std::alloc::{AllocError, Global};
use std::fmt;

/// What `starts_with` was given.
#[derive(Debug, PartialEq, Eq, Drop)]
pub struct StartsWithPredicate {
    pattern: String,
}

/// The predicate of the texts that begin with the pattern, which it owns. It takes no memory, and
/// neither does its `eval`.
///
/// ```
/// let greets = starts_with("Hello".to_owned(alloc)?);
/// assert!(rt; greets.eval(alloc, &"Hello World".to_owned(alloc)?)?);
/// assert!(rt; !greets.eval(alloc, &"World, Hello".to_owned(alloc)?)?);
/// ```
pub fn starts_with(pattern: String) -> TextTestPredicate<StartsWithPredicate>
    ensures pattern { starts_pattern result ≡ string_bytes pattern }
    ensures formula { (v : Text) (f : Formula)
        → ⟦<TextTestPredicate<StartsWithPredicate> as Predicate<String>>⟧.formula result v f
        ↔ IsStartsLeaf (string_bytes pattern) (string_bytes v) f }
    ensures infallible { (v : Text)
        → ⟦<TextTestPredicate<StartsWithPredicate> as Predicate<String>>⟧.infallible result v }
    ensures lawful { ⟦<TextTestPredicate<StartsWithPredicate> as Predicate<String>>⟧.lawful result }
    ensures values { ⟦<TextTestPredicate<StartsWithPredicate> as PredicateReflection>⟧.parameters_of result ≡ [] }
    ensures parts { ⟦<TextTestPredicate<StartsWithPredicate> as PredicateReflection>⟧.children_of result ≡ empty }
{
    TextTestPredicate::new(StartsWithPredicate { pattern })
}

impl fmt::Display for StartsWithPredicate {
    ghost output = { λ t. starts_text (string_bytes t.pattern) };

    fn fmt<W: fmt::Write>(&self, f: &mut fmt::Formatter<W>) -> fmt::Result {
        let pattern = &self.pattern;
        write!(f, "var.starts_with({pattern:?})")
    }
}

impl TextTest for StartsWithPredicate {
    ghost leaf = { λ t bytes. IsStartsLeaf (string_bytes t.pattern) bytes };

    ghost holds_of = { λ t bytes. is_front (chars (string_bytes t.pattern)) (chars bytes) };

    #[inline(always)] // as the search is
    fn holds(&self, _alloc: Global, text: &str) -> Result<bool, AllocError> {
        Ok(search::starts_with(text, &self.pattern))
    }

    ghost is_leaf = { λ t bytes f. is_text_leaf
        (front_decides (chars (string_bytes t.pattern)) (chars bytes)) };
}
