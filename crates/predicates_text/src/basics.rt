//! Tests of a text against nothing and against a pattern, which is a text itself.
//!
//! ```
//! let greets = predicate::str::starts_with("Hello".to_owned(alloc)?);
//! assert!(rt; greets.eval(alloc, &"Hello World".to_owned(alloc)?)?);
//! ```

pub mod contains;
pub mod ends_with;
pub mod eq_ignore_case;
pub mod is_empty;
pub mod matches;
pub mod starts_with;

use crate::text_test::TextTestPredicate;

/// Whether a text has no characters. Made by `is_empty`.
pub type IsEmptyPredicate = TextTestPredicate<is_empty::IsEmptyPredicate>;

/// Whether a text begins with a pattern. Made by `starts_with`.
pub type StartsWithPredicate = TextTestPredicate<starts_with::StartsWithPredicate>;

/// Whether a text ends with a pattern. Made by `ends_with`.
pub type EndsWithPredicate = TextTestPredicate<ends_with::EndsWithPredicate>;

/// Whether a text contains a pattern. Made by `contains`.
pub type ContainsPredicate = TextTestPredicate<contains::ContainsPredicate>;

/// Whether a text is another one but for case. Made by `eq_ignore_case`.
pub type EqIgnoreCasePredicate = TextTestPredicate<eq_ignore_case::EqIgnoreCasePredicate>;
