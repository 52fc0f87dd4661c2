//! Texts with even line endings.
ghost use Rattle.std.specs.Prelude.{codes};
ghost use Rattle.predicates_text.specs.Views.{lines_even};
ghost use Rattle.predicates_text.specs.ViewTexts.{has_even_lines};

use crate::adapters::view::{TextView, View, ViewPredicate};
use crate::views::lines_even_view;
use std::alloc::{AllocError, Global};

/// Evaluates its part on the text with even line endings. It takes memory for a copy only where
/// there is a carriage return. Made by `PredicateStrExt::normalize`.
pub type NormalizedPredicate<P> = ViewPredicate<NormalizeView, P>;

/// The text with even line endings.
#[derive(Debug, Clone, Copy, PartialEq, Eq)]
pub struct NormalizeView;

impl View for NormalizeView {
    ghost name_is = { codes "NormalizedPredicate" };

    fn adapter_name() -> &'static str {
        "NormalizedPredicate"
    }
}

impl TextView for NormalizeView {
    ghost shows = { lines_even };

    fn view<'a>(
        alloc: Global,
        text: &'a String,
        copy: &'a mut String,
    ) -> Result<&'a String, AllocError> {
        lines_even_view(alloc, text, copy)
    }

    ghost has_view = { λ v. has_even_lines v };
}
