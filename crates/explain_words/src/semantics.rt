//! What a check of words means, as contracts of calls that do nothing.
//!
//! ```
//! // From here on a proof knows the formulas of `check` on `text` by those of its parts.
//! semantics::parts_of_checks(&check, &text);
//! ```
ghost use Rattle.std.specs.Prelude.{◌≡◌, ◌↔◌, []};
ghost use Rattle.predicates_core.specs.Formula.{Formula};
ghost use Rattle.predicates_core.specs.Tree.{empty};
ghost use Rattle.explain_words.specs.Meaning.{MeansByParts, IsLikeParts};

use crate::check::TextCheck;
use predicates_core::Predicate;
use predicates_core::reflection::PredicateReflection;
use predicates_item::ord::EqPredicate;
use predicates_text::{
    ContainsPredicate, EndsWithPredicate, IsEmptyPredicate, RegexPredicate, StartsWithPredicate,
};
use std::fmt::Display;

/// A check of `empty` or `eq=S` has the formulas and the text of the predicate that the word names,
/// and is infallible where that is.
pub fn leaves_of_words(empty: &IsEmptyPredicate, equals: &EqPredicate<String>, text: &String)
    ensures empty { (f : Formula)
        → ⟦<TextCheck as Predicate<String>>⟧.formula (TextCheck.Empty empty.now) text.now f
        ↔ ⟦<IsEmptyPredicate as Predicate<String>>⟧.formula empty.now text.now f }
    ensures equals { (f : Formula)
        → ⟦<TextCheck as Predicate<String>>⟧.formula (TextCheck.Equals equals.now) text.now f
        ↔ ⟦<EqPredicate<String> as Predicate<String>>⟧.formula equals.now text.now f }
    ensures empty_text { ⟦<TextCheck as Display>⟧.output (TextCheck.Empty empty.now)
        ≡ ⟦<IsEmptyPredicate as Display>⟧.output empty.now }
    ensures empty_infallible { ⟦<TextCheck as Predicate<String>>⟧.infallible
        (TextCheck.Empty empty.now) text.now
        ↔ ⟦<IsEmptyPredicate as Predicate<String>>⟧.infallible empty.now text.now }
    ensures equals_text { ⟦<TextCheck as Display>⟧.output (TextCheck.Equals equals.now)
        ≡ ⟦<EqPredicate<String> as Display>⟧.output equals.now }
    ensures equals_infallible { ⟦<TextCheck as Predicate<String>>⟧.infallible
        (TextCheck.Equals equals.now) text.now
        ↔ ⟦<EqPredicate<String> as Predicate<String>>⟧.infallible equals.now text.now }
{}

/// As `leaves_of_words`, for the words that hold a pattern: `starts=S`, `ends=S`, `contains=S` and
/// `match=S`.
pub fn leaves_of_patterns(
    starts: &StartsWithPredicate,
    ends: &EndsWithPredicate,
    contains: &ContainsPredicate,
    matches: &RegexPredicate,
    text: &String,
)
    ensures starts { (f : Formula)
        → ⟦<TextCheck as Predicate<String>>⟧.formula (TextCheck.Starts starts.now) text.now f
        ↔ ⟦<StartsWithPredicate as Predicate<String>>⟧.formula starts.now text.now f }
    ensures ends { (f : Formula)
        → ⟦<TextCheck as Predicate<String>>⟧.formula (TextCheck.Ends ends.now) text.now f
        ↔ ⟦<EndsWithPredicate as Predicate<String>>⟧.formula ends.now text.now f }
    ensures contains { (f : Formula)
        → ⟦<TextCheck as Predicate<String>>⟧.formula (TextCheck.Contains contains.now) text.now f
        ↔ ⟦<ContainsPredicate as Predicate<String>>⟧.formula contains.now text.now f }
    ensures matches { (f : Formula)
        → ⟦<TextCheck as Predicate<String>>⟧.formula (TextCheck.Matches matches.now) text.now f
        ↔ ⟦<RegexPredicate as Predicate<String>>⟧.formula matches.now text.now f }
    ensures starts_text { ⟦<TextCheck as Display>⟧.output (TextCheck.Starts starts.now)
        ≡ ⟦<StartsWithPredicate as Display>⟧.output starts.now }
    ensures starts_infallible { ⟦<TextCheck as Predicate<String>>⟧.infallible
        (TextCheck.Starts starts.now) text.now
        ↔ ⟦<StartsWithPredicate as Predicate<String>>⟧.infallible starts.now text.now }
    ensures ends_text { ⟦<TextCheck as Display>⟧.output (TextCheck.Ends ends.now)
        ≡ ⟦<EndsWithPredicate as Display>⟧.output ends.now }
    ensures ends_infallible { ⟦<TextCheck as Predicate<String>>⟧.infallible
        (TextCheck.Ends ends.now) text.now
        ↔ ⟦<EndsWithPredicate as Predicate<String>>⟧.infallible ends.now text.now }
    ensures contains_text { ⟦<TextCheck as Display>⟧.output (TextCheck.Contains contains.now)
        ≡ ⟦<ContainsPredicate as Display>⟧.output contains.now }
    ensures contains_infallible { ⟦<TextCheck as Predicate<String>>⟧.infallible
        (TextCheck.Contains contains.now) text.now
        ↔ ⟦<ContainsPredicate as Predicate<String>>⟧.infallible contains.now text.now }
    ensures matches_text { ⟦<TextCheck as Display>⟧.output (TextCheck.Matches matches.now)
        ≡ ⟦<RegexPredicate as Display>⟧.output matches.now }
    ensures matches_infallible { ⟦<TextCheck as Predicate<String>>⟧.infallible
        (TextCheck.Matches matches.now) text.now
        ↔ ⟦<RegexPredicate as Predicate<String>>⟧.infallible matches.now text.now }
{}

/// A check over checks has the formulas that its parts have on the text, or on the view, joined by
/// its word. Its text is made of theirs, and it is infallible as they are, but nowhere over a view.
/// No check has parameters or children.
pub fn parts_of_checks(check: &TextCheck, text: &String)
    ensures formula { MeansByParts ⟦<TextCheck as Predicate<String>>⟧.formula
        ⟦<TextCheck as Display>⟧.output check.now text.now }
    ensures own { IsLikeParts ⟦<TextCheck as Display>⟧.output
        (λ c. ⟦<TextCheck as Predicate<String>>⟧.infallible c text.now) check.now }
    ensures values { ⟦<TextCheck as PredicateReflection>⟧.parameters_of check.now ≡ [] }
    ensures parts { ⟦<TextCheck as PredicateReflection>⟧.children_of check.now ≡ empty }
{}
