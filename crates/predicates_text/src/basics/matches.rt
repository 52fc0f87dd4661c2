//! Whether a text contains a pattern a given number of times.
ghost use Rattle.std.specs.Prelude.{string_bytes};
ghost use Rattle.std.specs.Str.{chars};
ghost use Rattle.predicates_text.specs.Count.{count_of};
ghost use Rattle.predicates_text.specs.LeafFormulas.{IsCountedLeaf};
ghost use Rattle.predicates_text.specs.LeafFormulaLaws.{is_counted_leaf};

use crate::basics::contains::ContainsPredicate;
use crate::count;
use crate::text_count::{TextCount, TextCountPredicate};
use std::alloc::{AllocError, Global};
use std::fmt;

/// Whether a text contains a pattern a given number of times, no two occurrences overlapping. Made
/// by `ContainsPredicate::count`.
pub type MatchesPredicate = TextCountPredicate<ContainsPredicate>;

impl fmt::Debug for TextCountPredicate<ContainsPredicate> {
    fn fmt<W: fmt::Write>(&self, f: &mut fmt::Formatter<W>) -> fmt::Result {
        f.debug_struct("MatchesPredicate")
            .field("pattern", &self.counted.pattern)
            .field("count", &self.count)
            .finish()
    }
}

impl TextCount for ContainsPredicate {
    ghost leaf = { λ t count bytes. IsCountedLeaf (string_bytes t.pattern) count bytes };

    ghost number_of = { λ t bytes. count_of (chars (string_bytes t.pattern)) (chars bytes) };

    fn number_in(&self, _alloc: Global, text: &str) -> Result<usize, AllocError> {
        Ok(count::count(text, &self.pattern))
    }

    ghost is_leaf = { λ t count bytes f. is_counted_leaf (string_bytes t.pattern) count bytes };
}
