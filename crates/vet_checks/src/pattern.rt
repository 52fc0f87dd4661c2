//! A regular expression of a rule.
ghost use Rattle.std.specs.Prelude.{◌≡◌, IfOk, IfErr, string_bytes};
ghost use Rattle.regex.specs.Strings.{regex_source};
ghost use Rattle.predicates_text.specs.Expressions.{IsReadFrom};

use crate::check_error::CheckError;
use crate::pattern_fault::PatternFault;
use regex::Regex;
use std::alloc::{AllocError, Global};

/// A regular expression, read under the default options.
#[derive(Drop)]
pub struct Pattern {
    // In a box, as it has over a thousand bytes, and a check, which is moved at each level of a
    // rule, has the size of its largest part.
    pub(crate) regex: Box<Regex>,
    ghost by_default: { ∥ IsReadFrom (regex_source regex.value) regex.value ∥₁ },
}

fn boxed(alloc: Global, regex: Regex) -> Result<Box<Regex>, AllocError>
    ensures { IfOk result (λ kept. kept.value ≡ regex) }
{
    Ok(Box::new(alloc, regex)?)
}

impl Pattern {
    ghost use Rattle.vet_checks.specs.Patterns.{regex_of};
    ghost use Rattle.vet_checks.specs.Refusals.{IsFailure};

    // What is read in the source, unless it is refused.
    pub(crate) fn read(alloc: Global, source: String) -> Result<Pattern, CheckError>
        ensures read { IfOk result (λ pattern.
            IsReadFrom (string_bytes source) (regex_of pattern)) }
        ensures refused { IfErr result (IsFailure (λ pattern. pattern ≡ string_bytes source)) }
    {
        match Regex::new(alloc, &source) {
            Ok(regex) => {
                let regex = boxed(alloc, regex)?;
                Ok(Pattern { regex })
            }
            Err(regex::Error::OutOfMemory) => Err(CheckError::NoMemory),
            Err(error) => {
                let fault = PatternFault::of_error(alloc, source, error)?;
                Err(CheckError::Pattern(fault))
            }
        }
    }

    // The text that it was read from.
    pub(crate) fn source(&self) -> &str
        ensures { result.now ≡ regex_source (regex_of self.now) }
    {
        self.regex.as_str()
    }
}
