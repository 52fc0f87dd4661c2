//! The matchers of a run.
ghost use Rattle.std.specs.Prelude.{◌≡◌, IfOk, is_some};
ghost use Rattle.regex.specs.Patterns.{find_str};
ghost use Rattle.regex.specs.Strings.{regex_pattern, regex_source};
ghost use Rattle.regex.specs.declared.string.regex.Regex.{Regex};
ghost use Rattle.predicates_text.specs.Expressions.{IsReadFrom};
ghost use Rattle.vet_checks.specs.Patterns.{regex_of};

use crate::kept_matcher::KeptMatcher;
use crate::pattern::Pattern;
use crate::patterns::pattern_of_rules;
use crate::rule_check::RuleCheck;
use std::alloc::{AllocError, Global};

/// The matchers of a run over rules: one for each of their patterns that it has asked about so far.
/// Patterns of one source share theirs. A pattern of another rule is asked by a matcher that is
/// made for that call.
#[derive(Drop)]
pub struct Matchers<'r> {
    rules: &'r [RuleCheck],
    kept: Vec<KeptMatcher<'r>>,
}

impl<'r> Matchers<'r> {
    /// Those of a run over the rules that has asked about no pattern. They take no memory.
    pub fn new(alloc: Global, rules: &'r [RuleCheck]) -> Matchers<'r> {
        Matchers {
            rules,
            kept: Vec::new(alloc),
        }
    }

    // Whether the pattern has a match in the text. It takes memory where the pattern is new.
    pub(crate) fn has_match(
        &mut self,
        alloc: Global,
        pattern: &Pattern,
        text: &str,
    ) -> Result<bool, AllocError>
        ensures { IfOk result (λ found.
            found ≡ is_some (find_str (regex_pattern (regex_of pattern.now)) text.now 0)) }
    {
        for kept in &mut self.kept {
            if kept.source == pattern.source() {
                return Ok(kept.has_match(text));
            }
        }
        match pattern_of_rules(self.rules, pattern.source()) {
            Some(own) => self.first_match(alloc, own, text),
            None => only_match(alloc, pattern, text),
        }
    }

    // The same of a pattern of the rules that is new, whose matcher is kept. A matcher is large, so
    // it is made in a frame of its own.
    #[inline(never)]
    fn first_match(
        &mut self,
        alloc: Global,
        pattern: &'r Pattern,
        text: &str,
    ) -> Result<bool, AllocError>
        ensures { (regex : Regex) → ∥ IsReadFrom (regex_source (regex_of pattern.now)) regex ∥₁
            → IfOk result (λ found. found ≡ is_some (find_str (regex_pattern regex) text.now 0)) }
    {
        let mut kept = KeptMatcher::new(alloc, pattern)?;
        let found = kept.has_match(text);
        self.kept.push(kept)?;
        Ok(found)
    }
}

// The same by a matcher that is made for the call.
#[inline(never)]
fn only_match(alloc: Global, pattern: &Pattern, text: &str) -> Result<bool, AllocError>
    ensures { IfOk result (λ found.
        found ≡ is_some (find_str (regex_pattern (regex_of pattern.now)) text.now 0)) }
{
    let mut matcher = KeptMatcher::new(alloc, pattern)?;
    Ok(matcher.has_match(text))
}
