//! Verdicts with their reasons, as text: of one item, and of each line of an input.
//!
//! ```
//! let between = predicate::ge(5).and(predicate::le(10));
//! let block = explain_one(alloc, &between, "11", &11)?;
//! ```
//!
//! The block is the label with the verdict, and then the lines of the case:
//!
//! ```text
//! 11: false
//! (var >= 5 && var <= 10) = false
//!   right: var <= 10 = false
//!     - var: 11
//! ```
//!
//! A check that is made of words at run time is a `TextCheck`, of `explain_words`.
#![tactic(auto)]

mod between;
mod block;
mod filter;
mod parse_number;
mod program;
mod run;
mod text;

pub use between::run_between;
pub use block::{explain_one, explain_total};
pub use explain_words::{
    MAX_DEPTH, TextCheck, Word, WordFault, WordProblem, WordsError, apply_word, read_word,
    semantics,
};
pub use filter::{Filtered, filter_lines, filter_with_reasons};
pub use parse_number::number;
pub use program::{Exit, run_command_line, run_program};
pub use streams::RunFault;
pub use text::run_text;
