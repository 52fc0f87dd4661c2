//! Rules as text, made into predicates of JSON values.
//!
//! ```
//! let check = check_of(alloc, expression)?; // of `/age >= 18`
//! let case = check.find_case(alloc, false, &record)?;
//! ```
#![tactic(auto)]

pub mod check;
mod check_error;
mod compile;
mod contents;
mod elements;
mod kept_matcher;
mod keys;
mod leaf;
mod literal_set;
mod matchers;
mod number;
mod order;
mod path_test;
mod pattern;
mod pattern_fault;
mod patterns;
mod question;
mod rule_check;
mod scope;
mod written;

pub use check_error::CheckError;
pub use compile::check_of;
pub use matchers::Matchers;
pub use path_test::PathTest;
pub use pattern_fault::PatternFault;
pub use rule_check::RuleCheck;
pub use scope::Scope;
