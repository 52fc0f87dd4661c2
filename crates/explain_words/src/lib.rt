//! Checks of texts that are made of words at run time.
//!
//! ```
//! let check = TextCheck::from_words(alloc, &words)?; // `empty`, `trim`, `not`
//! assert!(rt; check.eval(alloc, &text)?);
//! ```
//!
//! Words stand in postfix order: each takes the last checks before it, and puts its own in their
//! place.
#![tactic(auto)]

mod apply;
mod check;
mod from_words;
pub mod semantics;
mod word;
mod word_fault;
mod word_problem;
mod words_error;

pub use apply::apply_word;
pub use check::TextCheck;
pub use from_words::{MAX_DEPTH, take_word};
pub use word::{Word, read_word};
pub use word_fault::WordFault;
pub use word_problem::WordProblem;
pub use words_error::WordsError;
