//! Tests of joined predicates: what they evaluate, how often, and which leaves their cases keep.
#![tactic(auto)]

#[cfg(test)]
mod tests;
