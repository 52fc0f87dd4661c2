//! What those predicates mean that no call could say when it makes one, as contracts of calls that
//! do nothing: lists of rules, thresholds, variants and lengths are asked of items of any type, and
//! any predicate of texts is a `TextPredicate`.
//!
//! ```
//! // From here on a proof knows the formulas of `all` on `item`, and when it takes no memory.
//! semantics::rules(&all, &item);
//! ```
ghost use Rattle.std.specs.Prelude.{◌≡◌, ◌↔◌, string_bytes};

use crate::boxed::TextPredicate;
pub use predicates_boolean::semantics::rules;
use predicates_core::{PredicateChange, ReadsContent};
pub use predicates_part::semantics::{length, variant};

/// As a `TextPredicate`, a predicate keeps its formula on each text, its printed text, its
/// parameters and its children.
pub fn as_text_predicate<P: PredicateChange<String> + ReadsContent<String> + Drop>(
    predicate: &P,
    item: &String,
)
    ensures formula { ⟦<P as TextPredicate>⟧.text_formula predicate.now (string_bytes item.now)
        ≡ P.content_formula predicate.now (string_bytes item.now) }
    ensures infallible { ⟦<P as TextPredicate>⟧.text_infallible predicate.now item.now
        ↔ P.infallible predicate.now item.now }
    ensures text { ⟦<P as TextPredicate>⟧.text_output predicate.now ≡ P.output predicate.now }
    ensures values { ⟦<P as TextPredicate>⟧.text_parameters_of predicate.now
        ≡ P.parameters_of predicate.now }
    ensures parts { ⟦<P as TextPredicate>⟧.text_children_of predicate.now
        ≡ P.children_of predicate.now }
{}
