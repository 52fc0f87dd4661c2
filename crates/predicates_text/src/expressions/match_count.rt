//! How many matches a regular expression has in a text.
ghost use Rattle.std.specs.Prelude.{length, string_bytes};
ghost use Rattle.regex.specs.Patterns.{find_all_str};
ghost use Rattle.regex.specs.Strings.{regex_pattern};
ghost use Rattle.predicates_core.specs.Leaves.{IsExactly};
ghost use Rattle.predicates_text.specs.Expressions.{match_count_formula};

use crate::expressions::is_match::RegexPredicate;
use crate::expressions::regex_search::match_count;
use crate::text_count::{TextCount, TextCountPredicate};
use std::alloc::{AllocError, Global};

/// Whether a regular expression has a given number of matches in a text. Made by
/// `RegexPredicate::count`.
pub type RegexMatchesPredicate = TextCountPredicate<RegexPredicate>;

impl TextCount for RegexPredicate {
    ghost leaf = { λ t count bytes. IsExactly
        (match_count_formula (string_bytes t.pattern) (regex_pattern t.regex.value) count bytes) };

    ghost number_of = { λ t bytes. length (find_all_str (regex_pattern t.regex.value) bytes) };

    ghost infallible = { λ t. ⊥ };

    fn number_in(&self, alloc: Global, text: &str) -> Result<usize, AllocError> {
        match_count(alloc, &self.regex, text)
    }

    ghost is_leaf = { λ t count bytes f. ((λ h. h), λ h. h) };
}
