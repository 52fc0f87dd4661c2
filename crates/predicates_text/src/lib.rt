//! Predicates of texts, and of bytes that may be text.
//!
//! ```
//! let two = predicate::str::contains("Two".to_owned(alloc)?).count(2);
//! assert!(rt; two.eval(alloc, &"Two or Two".to_owned(alloc)?)?);
//! ```
//!
//! Items are `String`s, and lengths, positions and counts are in characters. A predicate owns the
//! text that it is made of, so making one takes no memory, except for `is_match`. Tests against a
//! text evaluate without memory; `trim`, `normalize`, `fold_case`, `from_utf8` and regular
//! expressions may take some.
#![tactic(auto)]

mod adapters;
mod basics;
pub mod count;
mod expressions;
mod leaf_case;
pub mod search;
mod text_count;
mod text_test;
mod views;

pub use adapters::{
    FoldCasePredicate, FoldCaseView, NormalizeView, NormalizedPredicate, PredicateStrExt, TextView,
    TrimPredicate, TrimView, Utf8Predicate, Utf8View, View, ViewPredicate,
};
pub use basics::contains::contains;
pub use basics::ends_with::ends_with;
pub use basics::eq_ignore_case::eq_ignore_case;
pub use basics::is_empty::is_empty;
pub use basics::matches::MatchesPredicate;
pub use basics::starts_with::starts_with;
pub use basics::{
    ContainsPredicate, EndsWithPredicate, EqIgnoreCasePredicate, IsEmptyPredicate,
    StartsWithPredicate,
};
pub use expressions::is_match::is_match;
pub use expressions::match_count::RegexMatchesPredicate;
pub use expressions::{RegexError, RegexPredicate};
pub use text_count::{TextCount, TextCountPredicate};
pub use text_test::{TextTest, TextTestPredicate};
pub use views::{
    case_folded, case_folded_view, is_case_folded, lines_even, lines_even_view, trimmed,
    trimmed_view,
};
