//! Cases, which explain the verdicts of predicates, and the descriptions of predicates.
//!
//! Nothing here knows of items. A user of predicates names the crate `predicates`, which re-exports
//! all of this; so does `predicates_core`, where the trait `Predicate` stands over it.
//!
//! ```
//! let part = Case::new(alloc, None, true);
//! let whole = Case::new(alloc, None, true).add_child("part", part)?;
//! assert!(rt; whole.root().children().count() == 1);
//! ```
#![tactic(auto)]

pub mod as_static_str;
pub mod printing;
pub mod reflection;
pub mod static_text;
