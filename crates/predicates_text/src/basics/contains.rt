//! Whether a text contains a pattern.
ghost use Rattle.std.specs.Prelude.{◌≡◌, ◌↔◌, string_bytes, [], Some, codes};
ghost use Rattle.std.specs.Str.{chars};
ghost use Rattle.predicates_core.specs.Formula.{Formula};
ghost use Rattle.predicates_core.specs.Text.{Text};
ghost use Rattle.predicates_text.specs.Leaves.{contains_text};
ghost use Rattle.predicates_text.specs.LeafFormulaLaws.{is_text_leaf};
ghost use Rattle.predicates_text.specs.LeafFormulas.{IsContainsLeaf, IsCountedLeaf};
ghost use Rattle.predicates_text.specs.Patterns.{contains_pattern, matches_pattern, matches_count};
ghost use Rattle.predicates_text.specs.PlaceLaws.{part_decides};
ghost use Rattle.predicates_text.specs.Places.{is_part};
ghost use Rattle.predicates_core.specs.Tree.{empty};
ghost use Rattle.predicates_core.specs.Label.{value_of};
ghost use Rattle.std.specs.Fmt.{decimal};

use crate::basics::matches::MatchesPredicate;
use crate::search;
use crate::text_count::TextCountPredicate;
use crate::text_test::{TextTest, TextTestPredicate};
use predicates_core::Predicate;
use predicates_core::reflection::PredicateReflection;
use std::alloc::{AllocError, Global};
use std::fmt;

/// What `contains` was given.
#[derive(Debug, PartialEq, Eq, Drop)]
pub struct ContainsPredicate {
    pub(crate) pattern: String,
}

/// The predicate of the texts that contain the pattern, which it owns. It takes no memory, and
/// neither does its `eval`.
///
/// ```
/// let has_two = contains("Two".to_owned(alloc)?);
/// assert!(rt; has_two.eval(alloc, &"One Two Three".to_owned(alloc)?)?);
/// assert!(rt; !has_two.eval(alloc, &"One Three".to_owned(alloc)?)?);
/// ```
pub fn contains(pattern: String) -> TextTestPredicate<ContainsPredicate>
    ensures pattern { contains_pattern result ≡ string_bytes pattern }
    ensures formula { (v : Text) (f : Formula)
        → ⟦<TextTestPredicate<ContainsPredicate> as Predicate<String>>⟧.formula result v f
        ↔ IsContainsLeaf (string_bytes pattern) (string_bytes v) f }
    ensures infallible { (v : Text)
        → ⟦<TextTestPredicate<ContainsPredicate> as Predicate<String>>⟧.infallible result v }
    ensures lawful { ⟦<TextTestPredicate<ContainsPredicate> as Predicate<String>>⟧.lawful result }
    ensures values { ⟦<TextTestPredicate<ContainsPredicate> as PredicateReflection>⟧.parameters_of result ≡ [] }
    ensures parts { ⟦<TextTestPredicate<ContainsPredicate> as PredicateReflection>⟧.children_of result ≡ empty }
{
    TextTestPredicate::new(ContainsPredicate { pattern })
}

impl TextTestPredicate<ContainsPredicate> {
    /// The predicate of the texts in which the greatest number of occurrences of the pattern, no
    /// two overlapping, is `count`. The empty pattern occurs before each character and at the end.
    /// It takes no memory, and neither does its `eval`.
    ///
    /// ```
    /// let twice = contains("aa".to_owned(alloc)?).count(2);
    /// assert!(rt; twice.eval(alloc, &"aaaaa".to_owned(alloc)?)?);
    /// assert!(rt; !twice.eval(alloc, &"aaa".to_owned(alloc)?)?);
    /// ```
    pub fn count(self, count: usize) -> MatchesPredicate
        ensures pattern { matches_pattern result ≡ contains_pattern self }
        ensures count { matches_count result ≡ count }
        ensures formula { (v : Text) (f : Formula)
            → ⟦<MatchesPredicate as Predicate<String>>⟧.formula result v f
            ↔ IsCountedLeaf (contains_pattern self) count (string_bytes v) f }
        ensures infallible { (v : Text)
            → ⟦<MatchesPredicate as Predicate<String>>⟧.infallible result v }
        ensures lawful { ⟦<MatchesPredicate as Predicate<String>>⟧.lawful result }
        ensures values { ⟦<MatchesPredicate as PredicateReflection>⟧.parameters_of result
            ≡ value_of (codes "count") (Some (decimal count)) }
        ensures parts { ⟦<MatchesPredicate as PredicateReflection>⟧.children_of result ≡ empty }
    {
        TextCountPredicate::new(self.test, count)
    }
}

impl fmt::Display for ContainsPredicate {
    ghost output = { λ t. contains_text (string_bytes t.pattern) };

    fn fmt<W: fmt::Write>(&self, f: &mut fmt::Formatter<W>) -> fmt::Result {
        let pattern = &self.pattern;
        write!(f, "var.contains({pattern})")
    }
}

impl TextTest for ContainsPredicate {
    ghost leaf = { λ t bytes. IsContainsLeaf (string_bytes t.pattern) bytes };

    ghost holds_of = { λ t bytes. is_part (chars (string_bytes t.pattern)) (chars bytes) };

    fn holds(&self, _alloc: Global, text: &str) -> Result<bool, AllocError> {
        Ok(search::contains(text, &self.pattern))
    }

    ghost is_leaf = { λ t bytes f. is_text_leaf
        (part_decides (chars (string_bytes t.pattern)) (chars bytes)) };
}
