//! A matcher that is kept for later texts.
ghost use Rattle.std.specs.Prelude.{◌≡◌, IfOk, is_some};
ghost use Rattle.regex.specs.Patterns.{find_str};
ghost use Rattle.regex.specs.Strings.{matcher_pattern, regex_pattern, regex_source};
ghost use Rattle.regex.specs.declared.string.regex.Regex.{Regex};
ghost use Rattle.predicates_text.specs.Expressions.{IsReadFrom};
ghost use Rattle.vet_checks.specs.Alike.{MatchesAsSource};
ghost use Rattle.vet_checks.specs.Patterns.{regex_of};

use crate::pattern::Pattern;
use regex::Matcher;
use std::alloc::{AllocError, Global};

// A matcher, and the source of the pattern that it searches for.
#[derive(Drop)]
pub(crate) struct KeptMatcher<'r> {
    pub(crate) source: &'r str,
    matcher: Matcher<'r>,
    ghost by_source: { MatchesAsSource source.now (matcher_pattern matcher) },
}

impl<'r> KeptMatcher<'r> {
    pub(crate) fn new(alloc: Global, pattern: &'r Pattern) -> Result<KeptMatcher<'r>, AllocError>
        ensures { IfOk result (λ kept. kept.source.now ≡ regex_source (regex_of pattern.now)) }
    {
        let matcher = pattern.regex.matcher(alloc)?;
        Ok(KeptMatcher {
            source: pattern.source(),
            matcher,
        })
    }

    // Whether the pattern has a match in the text.
    pub(crate) fn has_match(&mut self, text: &str) -> bool
        ensures { (regex : Regex) → ∥ IsReadFrom self.old.source.now regex ∥₁
            → result ≡ is_some (find_str (regex_pattern regex) text.now 0) }
    {
        self.matcher.is_match(text)
    }
}
