//! Uses of the library: predicates of a caller's own, and callers that name the prelude.
#![tactic(auto)]

mod answer;
mod bookings;
mod boxed;
mod divisible;
mod either;
mod files;
mod multiple;
mod order;
mod plain_case;
mod right_first;

pub use answer::IsTheAnswer;
pub use bookings::{Booking, BookingRule, allow_booking};
pub use boxed::eval_boxed;
pub use divisible::DivisibleBy;
pub use either::{Either, alternatives};
pub use files::{is_copy, no_script};
pub use multiple::MultipleOf;
pub use order::{Line, Order, Policy, allow_order};
pub use plain_case::{Around, find_plain_case};
pub use right_first::{RightFirst, is_known};
