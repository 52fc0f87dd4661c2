//! Predicates of items of any type: constants, comparisons, memberships and functions.
//!
//! ```
//! let small = predicate::lt(10);
//! assert!(rt; small.eval(alloc, &7)?);
//! ```
//!
//! Making one takes no memory, except for a membership, which keeps its members in a list. `eval`
//! takes none and cannot fail.
#![tactic(auto)]

pub mod constant;
pub mod function;
pub mod iter;
pub mod ord;
mod showing;
