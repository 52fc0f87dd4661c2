//! Tables of texts, and of what is made of them.
use crate::cells::{bytes, text};
use crate::outcome::Outcome;
use crate::table::Table;
use anyhow::{Context, Result, bail};
use predicates::Predicate;
use predicates::constant::always;
use predicates::ord::eq;
use predicates::str::count::count;
use predicates::str::{PredicateStrExt, contains, ends_with, lines_even, starts_with, trimmed};
use std::alloc::Global;
use tests_support::{characters, greatest_choice};

// The text of which a cell holds the bytes as hexadecimal digits.
fn text_of_digits(alloc: Global, cell: &str) -> Result<String> {
    String::from_utf8(bytes(alloc, cell)?)
        .ok()
        .context("bytes that are no text")
}

/// Rows of a pattern, a text, three verdicts and how often the pattern stands in the text.
pub struct TextPairs;

// The greatest number of characters of which every choice of places is tried.
const SHORT: usize = 7;

// Whether a predicate holds of a text.
fn holds<P: Predicate<String> + Drop>(alloc: Global, predicate: P, item: &String) -> Result<bool>
    requires { P.lawful predicate }
{
    Ok(predicate.eval(alloc, item)?)
}

// The three tests of parts, with their cells.
fn compare_parts(
    outcome: &mut Outcome,
    pattern: &String,
    item: &String,
    cells: [&str; 3],
) -> Result<()> {
    let [starts, ends, contained] = cells;
    let alloc = outcome.alloc;
    let found = holds(alloc, starts_with(pattern.clone()?), item)?;
    outcome.compare_truth("starts", starts, found)?;
    let found = holds(alloc, ends_with(pattern.clone()?), item)?;
    outcome.compare_truth("ends", ends, found)?;
    let found = holds(alloc, contains(pattern.clone()?), item)?;
    outcome.compare_truth("contains", contained, found)
}

// The count, and what is answered where it is asked for, and for one more.
fn compare_counts(
    outcome: &mut Outcome,
    pattern: &String,
    item: &String,
    expected: &str,
) -> Result<()> {
    let alloc = outcome.alloc;
    let found = count(item.as_str(), pattern.as_str());
    outcome.compare_number("count", expected, found)?;
    let number = expected.parse::<usize>().context("no number")?;
    let exact = holds(alloc, contains(pattern.clone()?).count(number), item)?;
    outcome.compare_truth("counted", "true", exact)?;
    let more = number.saturating_add(1);
    let more = holds(alloc, contains(pattern.clone()?).count(more), item)?;
    outcome.compare_truth("counted as one more", "false", more)
}

// The greatest number of disjoint places among all choices, where the item is short.
fn compare_choices(
    outcome: &mut Outcome,
    pattern: &String,
    item: &String,
    expected: &str,
) -> Result<()> {
    let item = characters(outcome.alloc, item.as_str())?;
    if item.len() > SHORT {
        return Ok(());
    }
    let pattern = characters(outcome.alloc, pattern.as_str())?;
    let found = greatest_choice(pattern.as_slice(), item.as_slice());
    outcome.compare_number("greatest choice of places", expected, found)
}

impl Table for TextPairs {
    fn replay(&self, cells: &[&str], outcome: &mut Outcome) -> Result<()> {
        let [pattern, item, starts, ends, contained, expected_count] = cells else {
            bail!("not six cells");
        };
        let pattern = text(outcome.alloc, pattern)?;
        let item = text(outcome.alloc, item)?;
        compare_pair(
            outcome,
            &pattern,
            &item,
            [starts, ends, contained, expected_count],
        )
    }
}

fn compare_pair(
    outcome: &mut Outcome,
    pattern: &String,
    item: &String,
    [starts, ends, contained, expected_count]: [&str; 4],
) -> Result<()> {
    compare_parts(outcome, pattern, item, [starts, ends, contained])?;
    compare_counts(outcome, pattern, item, expected_count)?;
    compare_choices(outcome, pattern, item, expected_count)
}

/// Rows of a text and what is left without the white space at its ends.
pub struct TrimmedTexts;

impl Table for TrimmedTexts {
    fn replay(&self, cells: &[&str], outcome: &mut Outcome) -> Result<()> {
        let [item, expected] = cells else {
            bail!("not two cells");
        };
        let item = text_of_digits(outcome.alloc, item)?;
        compare_trimmed(outcome, &item, text_of_digits(outcome.alloc, expected)?)
    }
}

fn compare_trimmed(outcome: &mut Outcome, item: &String, expected: String) -> Result<()> {
    let found = trimmed(outcome.alloc, item.as_str())?;
    outcome.compare_text("trimmed", expected.as_str(), found.as_str())?;
    let is_equal = holds(outcome.alloc, eq(expected).trim(), item)?;
    outcome.compare_truth("equal behind trim", "true", is_equal)
}

/// Rows of a text and the same with even line endings.
pub struct EvenTexts;

impl Table for EvenTexts {
    fn replay(&self, cells: &[&str], outcome: &mut Outcome) -> Result<()> {
        let [item, expected] = cells else {
            bail!("not two cells");
        };
        let item = text_of_digits(outcome.alloc, item)?;
        compare_even(outcome, &item, text_of_digits(outcome.alloc, expected)?)
    }
}

fn compare_even(outcome: &mut Outcome, item: &String, expected: String) -> Result<()> {
    let found = lines_even(outcome.alloc, item.as_str())?;
    outcome.compare_text("even", expected.as_str(), found.as_str())?;
    let is_equal = holds(outcome.alloc, eq(expected).normalize(), item)?;
    outcome.compare_truth("equal behind normalize", "true", is_equal)
}

/// Rows of bytes and whether they are a text.
pub struct ValidBytes;

impl Table for ValidBytes {
    fn replay(&self, cells: &[&str], outcome: &mut Outcome) -> Result<()> {
        let [item, expected] = cells else {
            bail!("not two cells");
        };
        let item = bytes(outcome.alloc, item)?;
        let found = always::<String>().from_utf8().eval(outcome.alloc, &item)?;
        outcome.compare_truth("valid", expected, found)
    }
}

/// Rows of a text and its debug form, which is what a comparison prints.
pub struct DebugForms;

impl Table for DebugForms {
    fn replay(&self, cells: &[&str], outcome: &mut Outcome) -> Result<()> {
        let [item, expected] = cells else {
            bail!("not two cells");
        };
        let item = text_of_digits(outcome.alloc, item)?;
        let printed = eq(item).to_string(outcome.alloc)?;
        let found = printed
            .as_str()
            .strip_prefix("var == ")
            .context("another comparison")?;
        outcome.compare("debug", expected, found)
    }
}
