//! Trimmed texts.
ghost use Rattle.std.specs.Prelude.{codes};
ghost use Rattle.predicates_text.specs.Views.{trimmed};
ghost use Rattle.predicates_text.specs.ViewTexts.{has_trimmed};

use crate::adapters::view::{TextView, View, ViewPredicate};
use crate::views::trimmed_view;
use std::alloc::{AllocError, Global};

/// Evaluates its part on the text without the white space at its ends. It takes memory for a copy
/// only where there is some. Made by `PredicateStrExt::trim`.
pub type TrimPredicate<P> = ViewPredicate<TrimView, P>;

/// The text without the white space at its ends.
#[derive(Debug, Clone, Copy, PartialEq, Eq)]
pub struct TrimView;

impl View for TrimView {
    ghost name_is = { codes "TrimPredicate" };

    fn adapter_name() -> &'static str {
        "TrimPredicate"
    }
}

impl TextView for TrimView {
    ghost shows = { trimmed };

    fn view<'a>(
        alloc: Global,
        text: &'a String,
        copy: &'a mut String,
    ) -> Result<&'a String, AllocError> {
        trimmed_view(alloc, text, copy)
    }

    ghost has_view = { λ v. has_trimmed v };
}
