//! Tests of checks whose shape comes at run time, and of predicates of JSON values.
#![tactic(auto)]

#[cfg(test)]
mod tests;
