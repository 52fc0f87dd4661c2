//! Tests of rules, records and the program `vet`: texts that are printed, messages, and that calls
//! succeed.
#![tactic(auto)]

#[cfg(test)]
mod tests;
