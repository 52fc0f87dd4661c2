//! What a run keeps from one line to the next.
use std::alloc::Global;
use vet_checks::{Matchers, RuleCheck};

/// The memory that a run works with: where it takes it, and a text and matchers that take it once
/// for many lines.
#[derive(Drop)]
pub(crate) struct Workspace<'r> {
    pub(crate) alloc: Global,
    pub(crate) text: String,
    pub(crate) matchers: Matchers<'r>,
}

impl<'r> Workspace<'r> {
    pub(crate) fn new(alloc: Global, rules: &'r [RuleCheck]) -> Workspace<'r> {
        Workspace {
            alloc,
            text: String::new(alloc),
            matchers: Matchers::new(alloc, rules),
        }
    }
}
