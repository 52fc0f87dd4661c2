//! How many records break each rule, as lines.
ghost use Rattle.std.specs.Prelude.{◌≡◌, ◌-◌, ◌<◌, ◌+◌, ◌++◌, IfOk, OnOk, map, flat_map};
ghost use Rattle.std.specs.Prelude.{decimal, string_bytes};
ghost use Rattle.std.specs.Prelude.{replicate, slice_index, IsPermutation};
ghost use Rattle.std.specs.List.Sorted.{IsNonDecreasingBy, IsStableByKey};
ghost use Rattle.std.specs.Ordering.{nat_cmp};
ghost use Rattle.vet_run.specs.Summaries.{bar_text, columns_of, count_text, row_of};
ghost use Rattle.vet_run.specs.Summaries.{row_text, unit_of};
ghost use Rattle.vet_run.specs.Summaries.{falling, scale_text, IsSummary};
ghost use Rattle.vet_run.specs.Sums.{named_of};

use crate::summary::RuleCount;
use std::alloc::{AllocError, Global};

/// A rule's name, and how many records break it.
#[derive(Clone, Copy)]
pub(crate) struct Row<'r> {
    pub(crate) name: &'r str,
    pub(crate) count: u64,
}

// How long a bar may be.
const LONGEST: u64 = 40;

/// The count at this place; 0 where there is none.
pub(crate) fn count_at(counts: &[u64], index: usize) -> u64
    ensures { result ≡ slice_index counts.now index }
{
    match counts.get(index) {
        Some(count) => *count,
        None => 0,
    }
}

// A row for each rule.
fn rows(alloc: Global, rules: &[RuleCount]) -> Result<Vec<Row<'_>>, AllocError>
    ensures { IfOk result (λ rows. map row_of rows.items ≡ map named_of rules.now) }
{
    let mut rows = Vec::new(alloc);
    for rule in rules {
        rows.push(Row {
            name: &rule.rule,
            count: rule.broken,
        })?;
    }
    Ok(rows)
}

// Puts those with a greater count first, and leaves those with the same in their order.
fn rank(rows: &mut Vec<Row<'_>>) -> Result<(), AllocError>
    ensures moved { IsPermutation rows.old.items rows.new.items }
    ensures ranked { OnOk result (IsNonDecreasingBy falling rows.new.items) }
    ensures stable { IsStableByKey falling nat_cmp rows.old.items rows.new.items }
{
    rows.sort_by_key(|row| u64::MAX - row.count)
}

// How many records a `#` stands for, where the first row has the greatest count.
fn unit_of(rows: &[Row<'_>]) -> u64
    ensures unit { result ≡ unit_of rows.now }
    ensures one { 0 < result }
{
    match rows {
        [first, ..] => first.count.div_ceil(LONGEST).max(1),
        [] => 1,
    }
}

// The number's digits.
fn digits(alloc: Global, number: u64) -> Result<String, AllocError>
    ensures { IfOk result (λ text. string_bytes text ≡ decimal number) }
{
    format!(in alloc; "{number}")
}

// How wide the columns of counts and bars are, and how many records a `#` stands for.
#[derive(Clone, Copy)]
pub(crate) struct Columns {
    pub(crate) count: usize,
    pub(crate) bar: u64,
    pub(crate) unit: u64,
}

// As wide as the first row's, which has the greatest count.
fn columns_of(alloc: Global, rows: &[Row<'_>]) -> Result<Columns, AllocError>
    ensures columns { IfOk result (λ columns. columns ≡ columns_of rows.now) }
    ensures one { IfOk result (λ columns. 0 < columns.unit) }
{
    let unit = unit_of(rows);
    match rows {
        [first, ..] => Ok(Columns {
            count: digits(alloc, first.count)?.len(),
            bar: first.count.div_ceil(unit),
            unit,
        }),
        [] => Ok(Columns {
            count: 0,
            bar: 0,
            unit,
        }),
    }
}

fn push_signs(text: &mut String, len: u64) -> Result<(), AllocError>
    ensures { OnOk result (string_bytes text.new ≡ string_bytes text.old ++ replicate len 35) }
{
    for _ in 0..len {
        text.push_str("#")?;
    }
    Ok(())
}

fn push_spaces(text: &mut String, len: u64) -> Result<(), AllocError>
    ensures { OnOk result (string_bytes text.new ≡ string_bytes text.old ++ replicate len 32) }
{
    for _ in 0..len {
        text.push_str(" ")?;
    }
    Ok(())
}

// Writes a count at the right of its column.
fn push_count(alloc: Global, text: &mut String, width: usize, count: u64) -> Result<(), AllocError>
    ensures { OnOk result
        (string_bytes text.new ≡ string_bytes text.old ++ count_text width count) }
{
    let number = digits(alloc, count)?;
    let spaces = width.saturating_sub(number.len());
    push_spaces(text, spaces as u64)?;
    text.push_str(&number)
}

// Writes a bar at the left of its column.
fn push_bar(text: &mut String, width: u64, bar: u64) -> Result<(), AllocError>
    ensures { OnOk result (string_bytes text.new ≡ string_bytes text.old ++ bar_text width bar) }
{
    push_signs(text, bar)?;
    push_spaces(text, width.saturating_sub(bar))?;
    Ok(())
}

fn push_row(
    alloc: Global,
    text: &mut String,
    columns: Columns,
    row: &Row<'_>,
) -> Result<(), AllocError>
    requires { 0 < columns.unit }
    ensures { OnOk result
        (string_bytes text.new ≡ string_bytes text.old ++ row_text columns (row_of row.now)) }
{
    push_count(alloc, text, columns.count, row.count)?;
    text.push_str("  ")?;
    push_bar(text, columns.bar, row.count.div_ceil(columns.unit))?;
    text.push_str("  ")?;
    text.push_str(row.name)?;
    text.push_str("\n")
}

fn push_rows(
    alloc: Global,
    text: &mut String,
    columns: Columns,
    rows: &[Row<'_>],
) -> Result<(), AllocError>
    requires { 0 < columns.unit }
    ensures { OnOk result (string_bytes text.new
        ≡ string_bytes text.old ++ flat_map (λ r. row_text columns (row_of r)) rows.now) }
{
    for row in rows {
        push_row(alloc, text, columns, row)?;
    }
    Ok(())
}

// Writes what a `#` stands for, where it is not one record.
fn push_scale(alloc: Global, text: &mut String, unit: u64) -> Result<(), AllocError>
    ensures { OnOk result (string_bytes text.new ≡ string_bytes text.old ++ scale_text unit) }
{
    if unit <= 1 {
        return Ok(());
    }
    let line = format!(in alloc; "each # is up to {unit} records\n")?;
    text.push_str(&line)
}

/// A line for each rule, and one for the scale.
pub(crate) fn summary_lines(alloc: Global, rules: &[RuleCount]) -> Result<String, AllocError>
    ensures { IfOk result (λ text. IsSummary (map named_of rules.now) (string_bytes text)) }
{
    let mut rows = rows(alloc, rules)?;
    rank(&mut rows)?;
    let mut text = String::new(alloc);
    let columns = columns_of(alloc, &rows)?;
    push_rows(alloc, &mut text, columns, &rows)?;
    push_scale(alloc, &mut text, columns.unit)?;
    Ok(text)
}
