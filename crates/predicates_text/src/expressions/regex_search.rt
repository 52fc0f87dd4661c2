//! Searches for a regular expression in a text.
ghost use Rattle.std.specs.Prelude.{◌≡◌, IfOk, is_some, length};
ghost use Rattle.regex.specs.Patterns.{find_str, find_all_str};
ghost use Rattle.regex.specs.Strings.{regex_pattern};

use regex::Regex;
use std::alloc::{AllocError, Global};

// Whether the expression has a match in the text.
pub(crate) fn has_match(alloc: Global, regex: &Regex, text: &str) -> Result<bool, AllocError>
    ensures { IfOk result (λ found. found
        ≡ is_some (find_str (regex_pattern regex.now) text.now 0)) }
{
    let mut matcher = regex.matcher(alloc)?;
    Ok(matcher.is_match(text))
}

// How many matches the expression has in the text.
pub(crate) fn match_count(alloc: Global, regex: &Regex, text: &str) -> Result<usize, AllocError>
    ensures { IfOk result (λ n. n ≡ length (find_all_str (regex_pattern regex.now) text.now)) }
{
    let mut matcher = regex.matcher(alloc)?;
    Ok(matcher.find_iter(text).count())
}
