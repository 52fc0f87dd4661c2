//! What a predicate answers.
use crate::changes::{Changes, find_changes};
use crate::helpers::description;
use crate::kept_leaves::kept_leaves;
use crate::printed::keeps_text;
use crate::reference::{ReferenceFormula, first_reason};
use predicates_core::PredicateChange;
use predicates_core::reflection::{Case, PredicateReflection};
use std::alloc::{AllocError, Global};

/// What a predicate answers about itself and about one item.
#[derive(Drop)]
pub struct Answers {
    pub verdict: bool,
    pub case_true: Option<Case>,
    pub case_false: Option<Case>,
    pub text: String,
    /// Whether flags, a width and a precision leave the text as it is.
    pub keeps_text: bool,
    /// A line for each parameter and for each child, down to the leaves.
    pub description: String,
    pub changes: Changes,
}

/// All that the predicate answers.
pub fn ask<P: PredicateChange<Item>, Item>(
    alloc: Global,
    predicate: &P,
    item: &Item,
) -> Result<Answers, AllocError>
    requires { P.lawful predicate.now }
{
    // What takes no memory to drop first.
    let verdict = predicate.eval(alloc, item)?;
    let keeps_text = keeps_text(alloc, predicate)?;
    let text = predicate.to_string(alloc)?;
    let description = described(alloc, predicate)?;
    let case_true = predicate.find_case(alloc, true, item)?;
    let case_false = predicate.find_case(alloc, false, item)?;
    let changes = find_changes(alloc, predicate, item)?;
    Ok(Answers {
        verdict,
        case_true,
        case_false,
        text,
        keeps_text,
        description,
        changes,
    })
}

fn described<P: PredicateReflection>(alloc: Global, predicate: &P) -> Result<String, AllocError> {
    let parameters = predicate.parameters(alloc)?;
    let children = predicate.children(alloc)?;
    description(alloc, parameters.as_slice(), children.as_slice())
}

/// The verdict, where its case has that result and there is none for the opposite; all else is
/// asked as well.
pub fn verdict<P: PredicateChange<Item>, Item>(
    alloc: Global,
    predicate: &P,
    item: &Item,
) -> Result<Option<bool>, AllocError>
    requires { P.lawful predicate.now }
{
    let answers = ask(alloc, predicate, item)?;
    Ok(match answers.cases() {
        (Some(case), None) if case.root().result() == answers.verdict => Some(answers.verdict),
        _ => None,
    })
}

impl Answers {
    /// The case for the verdict, and that for its opposite.
    pub fn cases(&self) -> (&Option<Case>, &Option<Case>) {
        if self.verdict {
            (&self.case_true, &self.case_false)
        } else {
            (&self.case_false, &self.case_true)
        }
    }

    /// The leaves that the case for the verdict keeps of the formula; none where there is no such
    /// case, where there is one for the opposite, or where it is not cut from the formula.
    pub fn kept_leaves(
        &self,
        alloc: Global,
        formula: &ReferenceFormula,
    ) -> Result<Option<Vec<usize>>, AllocError> {
        let (expected, other) = self.cases();
        match expected {
            Some(case) if other.is_none() => kept_leaves(alloc, formula, case),
            _ => Ok(None),
        }
    }

    /// Whether the verdict is the formula's truth, with one case alone, which keeps just the leaves
    /// that the reference program finds, and so does what would turn it.
    pub fn explain(&self, alloc: Global, formula: &ReferenceFormula) -> Result<bool, AllocError> {
        let kept = self.kept_leaves(alloc, formula)?;
        let first = first_reason(alloc, formula)?;
        if self.changes.are_right(alloc, formula)? != Some(true) {
            return Ok(false);
        }
        Ok(match (kept, first) {
            (Some(kept), Some(first)) => {
                self.verdict == formula.truth() && kept.as_slice() == first.as_slice()
            }
            _ => false,
        })
    }
}

/// Whether the predicate's verdict on the item is the formula's truth, and its case and what would
/// turn it keep just the leaves that the reference program finds.
pub fn is_explained<P: PredicateChange<Item>, Item>(
    alloc: Global,
    predicate: &P,
    item: &Item,
    formula: &ReferenceFormula,
) -> Result<bool, AllocError>
    requires { P.lawful predicate.now }
{
    ask(alloc, predicate, item)?.explain(alloc, formula)
}
