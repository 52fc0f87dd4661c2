//! The library's predicates, asked again and again, so that a program in another language can time
//! them.
#![tactic(auto)]

mod asked;
mod checks;
mod comparisons;
mod lists;
mod members;
mod parts;
mod texts;
