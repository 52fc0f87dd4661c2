//! Predicates over other predicates: and, or, xor, not and lists of rules.
//!
//! ```
//! let outside = predicate::ge(5).and(predicate::le(10)).not();
//! assert!(rt; outside.eval(alloc, &11)?);
//! ```
//!
//! The parts of a predicate have one item type. Making one takes no memory, and `eval` takes none
//! where those of the parts take none.
#![tactic(auto)]

pub mod boolean;
mod limit;
pub mod rules;
pub mod semantics;
pub mod threshold;
