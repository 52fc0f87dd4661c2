//! Tests of comparisons, memberships, parts and lists.
#![tactic(auto)]

#[cfg(test)]
mod guests;
#[cfg(test)]
mod tests;
