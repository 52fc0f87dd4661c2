//! What a call of a predicate answered, and how it reads.
use crate::call::Rendered;
use predicates_core::reflection::{Case, Child, Parameter, render};
use std::alloc::{AllocError, Global};
use tests_support::description;

/// What a call answered.
#[derive(Drop)]
pub enum Answer {
    Verdict(bool),
    Text(String),
    Case(Option<Case>),
    Parameters(Vec<Parameter>),
    Children(Vec<Child>),
    /// An error that says something else than that memory ran out.
    OtherFault,
}

impl Rendered for Answer {
    fn rendered(&self, alloc: Global) -> Result<String, AllocError> {
        match self {
            Answer::Verdict(verdict) => format!(in alloc; "{verdict}"),
            Answer::Text(text) => String::from_str(alloc, text.as_str()),
            Answer::Case(None) => String::from_str(alloc, "none"),
            Answer::Case(Some(case)) => render(alloc, case),
            Answer::Parameters(parameters) => description(alloc, parameters.as_slice(), &[]),
            Answer::Children(children) => description(alloc, &[], children.as_slice()),
            Answer::OtherFault => String::from_str(alloc, "another fault"),
        }
    }
}
