//! Predicates of texts whose type is chosen at run time.
//!
//! ```
//! let blank = predicate::str::is_empty().trim();
//! let boxed = BoxPredicate::new(alloc, Box::new(alloc, blank)?)?;
//! ```

mod box_predicate;
mod text_predicate;

pub use box_predicate::BoxPredicate;
pub use text_predicate::TextPredicate;
