//! Comparisons of the item, on the left, with a constant.
//!
//! ```
//! let small = predicate::lt(10);
//! assert!(rt; small.eval(alloc, &7)?);
//! ```
//!
//! The constant is moved into the predicate. Making a comparison takes no memory, and neither does
//! its `eval`, which cannot fail.
mod equality;
mod order;

pub use crate::showing::ShowingPredicate;
pub use equality::{eq, ne};
pub use order::{ge, gt, le, lt};

/// Equality with a constant, or its opposite. Made by `eq` and `ne`.
pub type EqPredicate<T> = ShowingPredicate<equality::EqPredicate<T>>;

/// The order of the item and a constant, with the item on the left. Made by `lt`, `le`, `ge` and
/// `gt`.
pub type OrdPredicate<T> = ShowingPredicate<order::OrdPredicate<T>>;
