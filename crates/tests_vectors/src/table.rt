//! One table of recorded answers.
use crate::cells::cells;
use crate::outcome::{Difference, Outcome};
use anyhow::{Context, Result};
use std::alloc::Global;
use std::fs;

/// A table's kind: what its rows ask, and what is compared.
pub trait Table {
    /// Adds each of the row's cells that differs from what comes.
    fn replay(&self, cells: &[&str], outcome: &mut Outcome) -> Result<()>;
}

/// Whether a table has rows and each of them is right. It prints how many there are and how many
/// are wrong; before that, for each cell that is wrong, its line, what was expected and what was
/// found.
pub fn replay<T: Table>(rt: &HostRuntime, name: &str, table: &T) -> Result<bool> {
    let alloc = rt.alloc();
    let path = format!(in alloc; "{name}.tsv")?;
    let text = fs::read_to_string(rt, path.as_str()).context(format_args!("reading {path}"))?;
    let counts = replay_rows(rt, path.as_str(), text.as_str(), table)?;
    let Counts { rows, wrong_rows } = counts;
    println!(rt; "{name}: {rows} rows, {wrong_rows} wrong")?;
    Ok(rows != 0 && wrong_rows == 0)
}

#[derive(Clone, Copy)]
struct Counts {
    rows: u64,
    wrong_rows: u64,
}

// How many rows the text has, and how many of them are wrong.
fn replay_rows<T: Table>(rt: &HostRuntime, path: &str, text: &str, table: &T) -> Result<Counts> {
    let mut rows = 0_u64;
    let mut wrong_rows = 0_u64;
    for row in text.strip_suffix('\n').unwrap_or(text).split('\n').skip(1) {
        rows = rows.saturating_add(1);
        let is_right = replay_row(rt, path, rows.saturating_add(1), row, table)?;
        wrong_rows = wrong_rows.saturating_add(u64::from(!is_right));
    }
    Ok(Counts { rows, wrong_rows })
}

// Whether a row is right. It prints what differs.
fn replay_row<T: Table>(
    rt: &HostRuntime,
    path: &str,
    line: u64,
    row: &str,
    table: &T,
) -> Result<bool> {
    let outcome = outcome_of(rt.alloc(), row, table).context(format_args!("{path}, line {line}"))?;
    for difference in &outcome.wrong {
        print_difference(rt, path, line, difference)?;
    }
    Ok(outcome.wrong.is_empty())
}

fn outcome_of<T: Table>(alloc: Global, row: &str, table: &T) -> Result<Outcome> {
    let cells = cells(alloc, row)?;
    let mut outcome = Outcome {
        alloc,
        wrong: Vec::new(alloc),
    };
    table.replay(cells.as_slice(), &mut outcome)?;
    Ok(outcome)
}

fn print_difference(
    rt: &HostRuntime,
    path: &str,
    line: u64,
    difference: &Difference,
) -> Result<()> {
    let column = difference.column;
    let expected = difference.expected.as_str();
    let found = difference.found.as_str();
    println!(rt; "{path}, line {line}, {column}: expected {expected:?}, found {found:?}")?;
    Ok(())
}
