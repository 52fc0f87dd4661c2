//! Texts without regard to case.
ghost use Rattle.std.specs.Prelude.{codes};
ghost use Rattle.predicates_text.specs.Views.{case_folded};
ghost use Rattle.predicates_text.specs.ViewTexts.{has_case_folded};

use crate::adapters::view::{TextView, View, ViewPredicate};
use crate::views::case_folded_view;
use std::alloc::{AllocError, Global};

/// Evaluates its part on the text after the default case folding of Unicode. It takes memory for a
/// copy only where that is another text. Made by `PredicateStrExt::fold_case`.
pub type FoldCasePredicate<P> = ViewPredicate<FoldCaseView, P>;

/// The text after the default case folding of Unicode.
#[derive(Debug, Clone, Copy, PartialEq, Eq)]
pub struct FoldCaseView;

impl View for FoldCaseView {
    ghost name_is = { codes "FoldCasePredicate" };

    fn adapter_name() -> &'static str {
        "FoldCasePredicate"
    }
}

impl TextView for FoldCaseView {
    ghost shows = { case_folded };

    fn view<'a>(
        alloc: Global,
        text: &'a String,
        copy: &'a mut String,
    ) -> Result<&'a String, AllocError> {
        case_folded_view(alloc, text, copy)
    }

    ghost has_view = { λ v. has_case_folded v };
}
