//! What tests, filters and policies call: requirements, filters and reports that say why.
//!
//! ```
//! require(alloc, &ge(5).and(le(10)), &11)?;
//! ```
//!
//! The error prints the lines of the case:
//!
//! ```text
//! (var >= 5 && var <= 10) = false
//!   right: var <= 10 = false
//!     - var: 11
//! ```
//!
//! A user of predicates names the crate `predicates`, which re-exports this one as `check`.
#![tactic(auto)]

mod case_text;
mod expectation;
mod failure;
mod requirement;
mod rules;
mod sifted;
mod unmet;

pub use expectation::{Expectation, check_all, expect, require_all};
pub use failure::Failure;
pub use requirement::{require, require_as, require_styled, required_change};
pub use rules::{add_failure, failures};
pub use sifted::{Rejection, Sifted, sift};
pub use unmet::Unmet;
