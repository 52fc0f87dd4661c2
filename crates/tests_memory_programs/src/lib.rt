//! Tests of refused memory: each request of a call of the programs is refused in turn, and streams
//! fail at each byte.
#![tactic(auto)]

#[cfg(test)]
mod tests;
