//! Tests of a text against a regular expression, with the syntax and the meaning of `regex`.
//!
//! ```
//! let word = predicate::str::is_match(alloc, "T[a-z]*".to_owned(alloc)?)?;
//! ```

pub mod is_match;
pub mod match_count;
mod regex_search;

use crate::text_test::TextTestPredicate;

/// Whether a regular expression has a match in a text. Made by `is_match`.
pub type RegexPredicate = TextTestPredicate<is_match::RegexPredicate>;

/// Why a pattern gives no predicate: its syntax is invalid, it is too large, or memory ran out.
pub type RegexError = regex::Error;
