//! Tests of words and of the program `explain`, over readers, writers and processes of their own.
#![tactic(auto)]

#[cfg(test)]
mod tests;
