//! Membership of the item among some values.
//!
//! ```
//! let few = predicate::in_iter(alloc, [1, 3, 5])?;
//! let many = predicate::in_iter(alloc, ports)?.sort()?;
//! let distinct = predicate::in_hash(alloc, ports)?;
//! ```
//!
//! Making one takes memory for its members. `eval` takes none and cannot fail.
mod any_order;
mod differences;
mod hashed;
mod listed;
mod multiset;
mod sorted;
mod steps;
mod values;

pub use crate::showing::ShowingPredicate;
pub use any_order::same_members;
pub use hashed::in_hash;
pub use listed::in_iter;
pub use multiset::SameMembersPredicate;
pub use steps::Steps;

/// Holds of an item that equals one of its members, which are compared one by one. Made by
/// `in_iter`.
pub type InPredicate<T> = ShowingPredicate<listed::InPredicate<T>>;

/// Holds of an item that equals one of its members, which are kept in ascending order and found by
/// binary search. Made by `InPredicate::sort`.
pub type OrdInPredicate<T> = ShowingPredicate<sorted::OrdInPredicate<T>>;

/// Holds of an item that equals one of its members, which stand in a hash set. Made by `in_hash`.
pub type HashableInPredicate<T> = ShowingPredicate<hashed::HashableInPredicate<T>>;
