//! Tables of what predicates answer on items.
use crate::items::Items;
use crate::outcome::Outcome;
use crate::table::Table;
use anyhow::{Result, bail};
use std::alloc::Global;
use tests_support::{Answers, ReferenceFormula, first_reason};

// The numbers with commas between them.
fn shown_numbers(alloc: Global, numbers: &[usize]) -> Result<String> {
    let mut text = String::new(alloc);
    for number in numbers {
        if !text.is_empty() {
            text.push(',')?;
        }
        write!(text, "{number}")?;
    }
    Ok(text)
}

fn compare_numbers(
    outcome: &mut Outcome,
    column: &'static str,
    expected: &str,
    numbers: &[usize],
) -> Result<()> {
    let found = shown_numbers(outcome.alloc, numbers)?;
    outcome.compare_text(column, expected, found.as_str())
}

// Compares the leaves that the reference program finds, where they are few enough for it.
fn compare_first(outcome: &mut Outcome, formula: &ReferenceFormula, kept: &str) -> Result<()> {
    match first_reason(outcome.alloc, formula)? {
        Some(first) => compare_numbers(outcome, "first reason", kept, first.as_slice()),
        None => Ok(()),
    }
}

// Compares the leaves that the case keeps, and then those that the reference program finds.
fn compare_kept(
    outcome: &mut Outcome,
    answers: &Answers,
    formula: &ReferenceFormula,
    kept: &str,
) -> Result<()> {
    let Some(leaves) = answers.kept_leaves(outcome.alloc, formula)? else {
        return outcome.compare_text("kept", kept, "no case that is cut from the formula");
    };
    compare_numbers(outcome, "kept", kept, leaves.as_slice())?;
    compare_first(outcome, formula, kept)
}

// Compares what would turn the verdict with what the reference program finds, where there are at
// most twelve leaves.
fn compare_changes(
    outcome: &mut Outcome,
    answers: &Answers,
    formula: &ReferenceFormula,
) -> Result<()> {
    match answers.changes.are_right(outcome.alloc, formula)? {
        Some(are_right) => outcome.compare_truth("first change", "true", are_right),
        None => Ok(()),
    }
}

// Compares the verdict and the kept leaves, both also with those of the formula, and the printed
// text with that under flags.
fn compare_verdict(
    outcome: &mut Outcome,
    answers: &Answers,
    formula: &ReferenceFormula,
    [verdict, kept]: [&str; 2],
) -> Result<()> {
    outcome.compare_truth("verdict", verdict, answers.verdict)?;
    outcome.compare_truth("truth of the formula", verdict, formula.truth())?;
    compare_kept(outcome, answers, formula, kept)?;
    compare_changes(outcome, answers, formula)?;
    outcome.compare_truth("same text under flags", "true", answers.keeps_text)
}

/// Recorded rows: a predicate, an item, the verdict, the kept leaves and both cases.
pub struct Recorded<K> {
    pub items: K,
}

impl<K: Items> Table for Recorded<K> {
    fn replay(&self, cells: &[&str], outcome: &mut Outcome) -> Result<()> {
        let [predicate, item, verdict, kept, case_true, case_false] = cells else {
            bail!("not six cells");
        };
        let (answers, formula) = self.items.ask(outcome.alloc, predicate, item)?;
        compare_recorded(
            outcome,
            &answers,
            &formula,
            [verdict, kept, case_true, case_false],
        )
    }
}

fn compare_recorded(
    outcome: &mut Outcome,
    answers: &Answers,
    formula: &ReferenceFormula,
    [verdict, kept, case_true, case_false]: [&str; 4],
) -> Result<()> {
    compare_verdict(outcome, answers, formula, [verdict, kept])?;
    outcome.compare_case("case_true", case_true, &answers.case_true)?;
    outcome.compare_case("case_false", case_false, &answers.case_false)
}

/// Worked rows: a name, a predicate, an item, the verdict, the kept leaves, the verdict's case, and
/// the predicate's printed text with its parameters and children.
pub struct Worked<K> {
    pub items: K,
}

impl<K: Items> Table for Worked<K> {
    fn replay(&self, cells: &[&str], outcome: &mut Outcome) -> Result<()> {
        let [_, predicate, item, verdict, kept, case, description] = cells else {
            bail!("not seven cells");
        };
        let (answers, formula) = self.items.ask(outcome.alloc, predicate, item)?;
        compare_worked(
            outcome,
            &answers,
            &formula,
            [verdict, kept, case, description],
        )
    }
}

fn compare_worked(
    outcome: &mut Outcome,
    answers: &Answers,
    formula: &ReferenceFormula,
    [verdict, kept, case, description]: [&str; 4],
) -> Result<()> {
    compare_verdict(outcome, answers, formula, [verdict, kept])?;
    let (of_verdict, opposite) = answers.cases();
    outcome.compare_case("case", case, of_verdict)?;
    outcome.compare_case("case for the opposite", "none", opposite)?;
    let (text, below) = (answers.text.as_str(), answers.description.as_str());
    let found = format!(in outcome.alloc; "{text}\n{below}")?;
    outcome.compare("description", description, found.as_str())
}
