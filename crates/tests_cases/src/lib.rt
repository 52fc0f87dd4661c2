//! Tests of cases and of the calls that report them, of what all predicates have, and of a caller's
//! own predicates.
#![tactic(auto)]

#[cfg(test)]
mod tests;
