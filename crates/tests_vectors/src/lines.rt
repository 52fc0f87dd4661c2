//! Tables of lines and of whole runs over them.
use crate::cells::{bytes, text};
use crate::outcome::Outcome;
use crate::table::Table;
use anyhow::{Context, Result, anyhow, bail};
use explain_run::{TextCheck, number, run_between, run_text};
use std::alloc::Global;
use tests_support::keeps_text;

/// Rows of a line and the number that is read from it, or `none`.
pub struct NumberLines;

fn compare_number(outcome: &mut Outcome, expected: &str, number: i64) -> Result<()> {
    let found = number.to_string(outcome.alloc)?;
    outcome.compare("number", expected, found.as_str())
}

impl Table for NumberLines {
    fn replay(&self, cells: &[&str], outcome: &mut Outcome) -> Result<()> {
        let [line, expected] = cells else {
            bail!("not two cells");
        };
        let line = text(outcome.alloc, line)?;
        match number(line.as_bytes()) {
            Some(number) => compare_number(outcome, expected, number),
            None => outcome.compare("number", expected, "none"),
        }
    }
}

// Whether each line is a number, and what is written between the bounds of the words `LO HI`.
fn run_bounds(alloc: Global, words: &str, mut input: &[u8]) -> Result<(bool, Vec<u8>)> {
    let (lo, hi) = words.split_once(' ').context("one bound alone")?;
    let lo = number(lo.as_bytes()).context("no number")?;
    let hi = number(hi.as_bytes()).context("no number")?;
    let mut written = Vec::new(alloc);
    match run_between(alloc, lo, hi, &mut input, &mut written) {
        Ok(all) => Ok((all, written)),
        Err(fault) => Err(anyhow!("{fault}")),
    }
}

// The check that the words leave, as the program has it.
fn read_check(alloc: Global, words: &str) -> Result<TextCheck> {
    let mut tokens = Vec::new(alloc);
    for word in words.split(' ') {
        tokens.push(text(alloc, word)?)?;
    }
    TextCheck::from_words(alloc, &tokens).map_err(|error| anyhow!("{error}"))
}

// Whether each line is a text, and what is written of the check.
fn run_check(alloc: Global, check: &TextCheck, mut input: &[u8]) -> Result<(bool, Vec<u8>)> {
    let mut written = Vec::new(alloc);
    match run_text(alloc, check, &mut input, &mut written) {
        Ok(all) => Ok((all, written)),
        Err(fault) => Err(anyhow!("{fault}")),
    }
}

fn run_checked(outcome: &mut Outcome, check: &TextCheck, input: &[u8]) -> Result<(bool, Vec<u8>)> {
    let is_kept = keeps_text(outcome.alloc, check)?;
    outcome.compare_truth("same text under flags", "true", is_kept)?;
    run_check(outcome.alloc, check, input)
}

// The run of the program's words, and whether each line was an item.
fn run_words(outcome: &mut Outcome, words: &str, input: &[u8]) -> Result<(bool, String)> {
    let (all, written) = run(outcome, words, input)?;
    match String::from_utf8(written) {
        Ok(written) => Ok((all, written)),
        Err(_) => bail!("written bytes that are no text"),
    }
}

// The run of the program's words.
fn run(outcome: &mut Outcome, words: &str, input: &[u8]) -> Result<(bool, Vec<u8>)> {
    match words.split_once(' ') {
        Some(("between", bounds)) => run_bounds(outcome.alloc, bounds, input),
        Some(("text", words)) => {
            let check = read_check(outcome.alloc, words)?;
            run_checked(outcome, &check, input)
        }
        _ => bail!("another command"),
    }
}

/// Rows of the program's words, the input, the status and what is written.
pub struct Runs;

impl Table for Runs {
    fn replay(&self, cells: &[&str], outcome: &mut Outcome) -> Result<()> {
        let [words, input, status, output] = cells else {
            bail!("not four cells");
        };
        let input = bytes(outcome.alloc, input)?;
        let (all, written) = run_words(outcome, words, input.as_slice())?;
        outcome.compare("output", output, written.as_str())?;
        outcome.compare_text("status", status, if all { "0" } else { "1" })
    }
}
