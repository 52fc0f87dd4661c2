//! Rules as text, which is read again as the same rules.

mod condition;
pub mod expression;
pub mod literal;
mod words;
