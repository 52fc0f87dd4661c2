//! Predicates, their names, the cases that explain their verdicts, and descriptions of predicates.
//!
//! A user of predicates names the crate `predicates`, which re-exports all of this. A custom
//! predicate implements `Predicate` and makes its cases by the calls of `custom` and `node`:
//!
//! ```
//! if self.eval(alloc, item)? != expected {
//!     return Ok(None);
//! }
//! let case = leaf_node(alloc, self.to_string(alloc)?, expected);
//! Ok(Some(showing_item(alloc, case, item)?))
//! ```
#![tactic(auto)]

mod change;
pub mod custom;
pub mod laws;
pub mod name;
pub mod node;
mod predicate;
pub mod semantics;

pub use change::PredicateChange;
pub use predicate::{Content, Predicate, ReadsContent, Total, default_find_case};
pub use predicates_reflection::{as_static_str, reflection, static_text};
