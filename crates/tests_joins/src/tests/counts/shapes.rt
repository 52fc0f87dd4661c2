//! The predicates whose leaves are counted, by name.
mod joins;
mod json;
mod lists;
mod parts;
mod rules;
mod views;

use super::around::{Asked, Counts};
use crate::tests::made::Host;

/// How often each call asks the leaves of the predicate with the name; none where no predicate has
/// it.
pub fn counts_of(rt: &impl Host, name: &str, asked: Asked<'_>) -> Option<Counts> {
    for of_some in [0, 1, 2, 3, 4, 5, 6_u32] {
        let counts = match of_some {
            0 => joins::counts_of(rt, name, asked),
            1 => joins::deep_counts_of(rt, name, asked),
            2 => views::counts_of(rt, name, asked),
            3 => parts::counts_of(rt, name, asked),
            4 => json::counts_of(rt, name, asked),
            5 => lists::counts_of(rt, name, asked),
            _ => rules::counts_of(rt, name, asked),
        };
        if counts.is_some() {
            return counts;
        }
    }
    None
}
