//! Tests of texts and paths.
#![tactic(auto)]

#[cfg(test)]
mod tests;
