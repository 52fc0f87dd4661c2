//! What a test asks of the value at its path.
ghost use Rattle.std.specs.Prelude.{◌≡◌, IfOk, IfSome, option_map, string_bytes};
ghost use Rattle.std.specs.Ordering.{nat_cmp};
ghost use Rattle.serde_json.specs.View.{view};
ghost use Rattle.regex.specs.Strings.{regex_source};
ghost use Rattle.vet_checks.specs.Patterns.{regex_of};
ghost use Rattle.vet_checks.specs.Scopes.{place_of};
ghost use Rattle.vet_checks.specs.CheckTrees.{ShowsBeside, shown_beside};
ghost use Rattle.vet_checks.specs.Questions.{verdict, text_fits, length_of};
ghost use Rattle.vet_checks.specs.Questions.{holds_in, verdict_of_nothing};
ghost use Rattle.vet_checks.specs.Questions.{misfit_text};

use crate::contents::{emptiness, is_of, length};
use crate::keys::has_only;
use crate::leaf::{apart, showing_key, showing_length, showing_other};
use crate::literal_set::LiteralSet;
use crate::matchers::Matchers;
use crate::order::{is_in, order_to_literal, order_to_place};
use crate::pattern::Pattern;
use crate::scope::Scope;
use predicates_core::reflection::Case;
use predicates_text::search;
use serde_json::Value;
use std::alloc::{AllocError, Global};
use std::collections::BTreeSet;
use vet_rules::condition::{Comparison, State, ValueKind};
use vet_rules::literal::Literal;

/// What a test asks of the value at its path.
#[derive(Drop)]
pub enum Question {
    /// Whether it is there, or is empty.
    Is(State),
    /// How it compares with a literal of its kind.
    Compare(Comparison, Literal),
    /// How it compares with what stands at another path.
    CompareWith(Comparison, String),
    /// How many characters, items or members it has.
    Length(Comparison, u64),
    /// Whether it is of this kind.
    IsOf(ValueKind),
    /// Whether the text begins with another.
    StartsWith(String),
    /// Whether the text ends with another.
    EndsWith(String),
    /// Whether the text contains another.
    Contains(String),
    /// Whether a regular expression has a match in the text.
    Matches(Pattern),
    /// Whether it is one of these.
    In(LiteralSet),
    /// Whether each key of the object is one of these.
    KeysIn(BTreeSet<String>),
}

fn compares_in_length(value: &Value, comparison: Comparison, number: u64) -> Option<bool>
    ensures { result ≡ option_map (λ k. holds_in comparison (nat_cmp k number))
        (length_of (view value.now)) }
{
    let length = length(value)? as u64;
    Some(is_in(comparison, length.cmp(&number)))
}

impl Question {
    // Whether the value, which stands at the test's path, answers it, or none where it can't. It
    // takes memory for a regular expression alone.
    pub(crate) fn verdict(
        &self,
        alloc: Global,
        matchers: &mut Matchers<'_>,
        scope: Scope<'_>,
        value: &Value,
    ) -> Result<Option<bool>, AllocError>
        ensures { IfOk result (λ found.
            found ≡ verdict self.now (place_of scope.entry) (view value.now)) }
    {
        match self {
            Question::Is(State::Exists) => Ok(Some(true)),
            Question::Is(State::Missing) => Ok(Some(false)),
            Question::Is(State::IsEmpty) => Ok(emptiness(value)),
            Question::Compare(comparison, literal) => {
                Ok(order_to_literal(value, literal).map(|order| is_in(*comparison, order)))
            }
            Question::CompareWith(comparison, path) => {
                let order = order_to_place(value, scope, path);
                Ok(order.map(|order| is_in(*comparison, order)))
            }
            Question::Length(comparison, number) => {
                Ok(compares_in_length(value, *comparison, *number))
            }
            Question::IsOf(kind) => Ok(Some(is_of(*kind, value))),
            Question::In(literals) => Ok(Some(literals.has(value))),
            Question::KeysIn(allowed) => Ok(has_only(value, allowed)),
            _ => match value.as_str() {
                Some(text) => Ok(Some(self.fits(alloc, matchers, text)?)),
                None => Ok(None),
            },
        }
    }

    // Whether the text is as it asks.
    fn fits(
        &self,
        alloc: Global,
        matchers: &mut Matchers<'_>,
        text: &str,
    ) -> Result<bool, AllocError>
        ensures { IfOk result (λ found. found ≡ text_fits self.now text.now) }
    {
        match self {
            Question::StartsWith(pattern) => Ok(search::starts_with(text, pattern)),
            Question::EndsWith(pattern) => Ok(search::ends_with(text, pattern)),
            Question::Contains(pattern) => Ok(search::contains(text, pattern)),
            Question::Matches(pattern) => matchers.has_match(alloc, pattern, text),
            _ => Ok(false),
        }
    }

    // Its pattern, if it has one that was read from the source.
    pub(crate) fn pattern_of(&self, source: &str) -> Option<&Pattern>
        ensures { IfSome result (λ p. regex_source (regex_of p.now) ≡ source.now) }
    {
        match self {
            Question::Matches(pattern) if pattern.source() == source => Some(pattern),
            _ => None,
        }
    }

    // Whether it holds where nothing stands at the path, or none where it is not about presence.
    pub(crate) fn verdict_of_nothing(&self) -> Option<bool>
        ensures { result ≡ verdict_of_nothing self.now }
    {
        match self {
            Question::Is(State::Missing) => Some(true),
            Question::Is(State::Exists) => Some(false),
            _ => None,
        }
    }

    // The case with what is shown beside the value.
    pub(crate) fn showing_beside(
        &self,
        alloc: Global,
        case: Case,
        scope: Scope<'_>,
        value: &Value,
    ) -> Result<Case, AllocError>
        ensures { IfOk result (λ shown. ShowsBeside
            (shown_beside self.now (place_of scope.entry) (view value.now)) case shown) }
    {
        match self {
            Question::CompareWith(_, path) => {
                let shown = showing_other(alloc, case, scope, path)?;
                Ok(shown)
            }
            Question::Length(_, _) => {
                let shown = showing_length(alloc, case, value)?;
                Ok(shown)
            }
            Question::KeysIn(allowed) => {
                let shown = showing_key(alloc, case, value, allowed)?;
                Ok(shown)
            }
            _ => Ok(case),
        }
    }

    // What is said of a value that can't answer.
    pub(crate) fn misfit(&self, alloc: Global, scope: Scope<'_>) -> Result<String, AllocError>
        ensures { IfOk result (λ text.
            string_bytes text ≡ misfit_text self.now (place_of scope.entry)) }
    {
        match self {
            Question::CompareWith(_, path) => apart(alloc, scope, path),
            Question::Compare(
                _,
                Literal::Natural(_) | Literal::Negative(_) | Literal::Decimal { .. },
            ) => String::from_str(alloc, "not a number"),
            Question::Compare(_, Literal::Boolean(_)) => {
                String::from_str(alloc, "not true or false")
            }
            Question::Is(_) | Question::Length(_, _) => {
                String::from_str(alloc, "not a string, an array or an object")
            }
            Question::KeysIn(_) => String::from_str(alloc, "not an object"),
            _ => String::from_str(alloc, "not a string"),
        }
    }
}
