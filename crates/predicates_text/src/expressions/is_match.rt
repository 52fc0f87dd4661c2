//! Whether a regular expression has a match in a text.
ghost use Rattle.std.specs.Prelude.{◌≡◌, ◌≢◌, ◌↔◌, IfOk, IfErr, is_some, string_bytes, [], Some};
ghost use Rattle.regex.specs.Patterns.{default_config, find_str};
ghost use Rattle.regex.specs.Sources.{IsRefusal};
ghost use Rattle.regex.specs.Strings.{regex_pattern};
ghost use Rattle.regex.specs.Failures.{IsRightKind, HasSpanIn};
ghost use Rattle.regex.specs.declared.error.Error.TheVariants.{Internal, OutOfMemory};
ghost use Rattle.predicates_core.specs.Formula.{Formula};
ghost use Rattle.predicates_core.specs.Leaves.{IsExactly};
ghost use Rattle.predicates_core.specs.Text.{Text};
ghost use Rattle.predicates_text.specs.Expressions.{match_text, match_formula, match_count_formula};
ghost use Rattle.predicates_text.specs.Expressions.{regex_text, regex_meaning, regex_matches_text};
ghost use Rattle.predicates_text.specs.Expressions.{regex_matches_meaning, regex_matches_count};
ghost use Rattle.predicates_text.specs.Expressions.{IsReadFromText};
ghost use Rattle.predicates_text.specs.Refusals.{IsExpression, IsRefusedBy};
ghost use Rattle.predicates_core.specs.Tree.{empty};
ghost use Rattle.std.specs.Prelude.{codes};
ghost use Rattle.predicates_core.specs.Label.{value_of};
ghost use Rattle.std.specs.Fmt.{decimal};

use crate::expressions::RegexError;
use crate::expressions::match_count::RegexMatchesPredicate;
use crate::expressions::regex_search::has_match;
use crate::text_count::TextCountPredicate;
use crate::text_test::{TextTest, TextTestPredicate};
use predicates_core::Predicate;
use predicates_core::reflection::PredicateReflection;
use regex::Regex;
use std::alloc::{AllocError, Global};
use std::fmt;

/// What `is_match` was given, and the expression that it was read as.
#[derive(Drop)]
pub struct RegexPredicate {
    pub(crate) pattern: String,
    // In a box, as it has over a thousand bytes, and a type that may hold any predicate has the
    // size of the largest.
    pub(crate) regex: Box<Regex>,
}

fn boxed(alloc: Global, regex: Regex) -> Result<Box<Regex>, AllocError>
    ensures { IfOk result (λ kept. kept.value ≡ regex) }
{
    Ok(Box::new(alloc, regex)?)
}

/// The predicate of the texts in which the pattern has a match anywhere. The error says why there
/// is none: the syntax is invalid, the pattern is too large, or memory ran out; the pattern is
/// dropped then. `eval` takes memory too, and returns an error where it gets none.
///
/// ```
/// let word = is_match(alloc, "T[a-z]*".to_owned(alloc)?)?;
/// assert!(rt; word.eval(alloc, &"One Two".to_owned(alloc)?)?);
/// assert!(rt; is_match(alloc, "T[a-z".to_owned(alloc)?).is_err());
/// ```
pub fn is_match(
    alloc: Global,
    pattern: String,
) -> Result<TextTestPredicate<RegexPredicate>, RegexError>
    ensures pattern { IfOk result (λ p. regex_text p ≡ string_bytes pattern) }
    ensures read { IfOk result (λ p. IsReadFromText p) }
    ensures formula { IfOk result (λ p. (v : Text) (f : Formula)
        → ⟦<TextTestPredicate<RegexPredicate> as Predicate<String>>⟧.formula p v f
        ↔ IsExactly (match_formula (string_bytes pattern) (regex_meaning p) (string_bytes v)) f) }
    ensures fallible { IfOk result (λ p. (v : Text)
        → ¬ (⟦<TextTestPredicate<RegexPredicate> as Predicate<String>>⟧.infallible p v)) }
    ensures expression { IfOk result (λ p. IsExpression (string_bytes pattern)) }
    ensures exact { IfErr result (λ e. e ≢ OutOfMemory → IsRefusedBy (string_bytes pattern) e) }
    ensures refused { IfErr result (IsRefusal default_config (string_bytes pattern)) }
    ensures kind { IfErr result (IsRightKind default_config (string_bytes pattern)) }
    ensures span { IfErr result (HasSpanIn (string_bytes pattern)) }
    ensures no_internal { IfErr result (λ e. e ≢ Internal) }
    ensures lawful { IfOk result (λ p.
        ⟦<TextTestPredicate<RegexPredicate> as Predicate<String>>⟧.lawful p) }
    ensures values { IfOk result (λ p.
        ⟦<TextTestPredicate<RegexPredicate> as PredicateReflection>⟧.parameters_of p ≡ []) }
    ensures parts { IfOk result (λ p.
        ⟦<TextTestPredicate<RegexPredicate> as PredicateReflection>⟧.children_of p ≡ empty) }
{
    let regex = boxed(alloc, Regex::new(alloc, &pattern)?)?;
    Ok(TextTestPredicate::new(RegexPredicate { pattern, regex }))
}

impl TextTestPredicate<RegexPredicate> {
    /// The predicate of the texts in which the pattern has `count` matches, searched from the left
    /// and without overlap. It takes no memory; `eval` does, and returns an error where it gets
    /// none.
    ///
    /// ```
    /// let three = is_match(alloc, "T[a-z]*".to_owned(alloc)?)?.count(3);
    /// assert!(rt; three.eval(alloc, &"One Two Three Two One".to_owned(alloc)?)?);
    /// assert!(rt; !three.eval(alloc, &"One Two".to_owned(alloc)?)?);
    /// ```
    pub fn count(self, count: usize) -> RegexMatchesPredicate
        ensures pattern { regex_matches_text result ≡ regex_text self }
        ensures meaning { regex_matches_meaning result ≡ regex_meaning self }
        ensures count { regex_matches_count result ≡ count }
        ensures formula { (v : Text) (f : Formula)
            → ⟦<RegexMatchesPredicate as Predicate<String>>⟧.formula result v f
            ↔ IsExactly (match_count_formula (regex_text self) (regex_meaning self) count
            (string_bytes v)) f }
        ensures fallible { (v : Text)
            → ¬ (⟦<RegexMatchesPredicate as Predicate<String>>⟧.infallible result v) }
        ensures lawful { ⟦<RegexMatchesPredicate as Predicate<String>>⟧.lawful result }
        ensures values { ⟦<RegexMatchesPredicate as PredicateReflection>⟧.parameters_of result
            ≡ value_of (codes "count") (Some (decimal count)) }
        ensures parts { ⟦<RegexMatchesPredicate as PredicateReflection>⟧.children_of result
            ≡ empty }
    {
        TextCountPredicate::new(self.test, count)
    }
}

impl fmt::Display for RegexPredicate {
    ghost output = { λ t. match_text (string_bytes t.pattern) };

    fn fmt<W: fmt::Write>(&self, f: &mut fmt::Formatter<W>) -> fmt::Result {
        let pattern = &self.pattern;
        write!(f, "var.is_match({pattern})")
    }
}

impl TextTest for RegexPredicate {
    ghost leaf = { λ t bytes. IsExactly
        (match_formula (string_bytes t.pattern) (regex_pattern t.regex.value) bytes) };

    ghost holds_of = { λ t bytes. is_some (find_str (regex_pattern t.regex.value) bytes 0) };

    ghost infallible = { λ t. ⊥ };

    fn holds(&self, alloc: Global, text: &str) -> Result<bool, AllocError> {
        has_match(alloc, &self.regex, text)
    }

    ghost is_leaf = { λ t bytes f. ((λ h. h), λ h. h) };
}
