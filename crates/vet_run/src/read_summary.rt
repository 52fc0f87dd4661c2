//! What runs count, read from its object of JSON.
ghost use Rattle.std.specs.Prelude.{◌≡◌, ◌≢◌, IfErr, IfOk, None, Some, map, option_map};
ghost use Rattle.serde_json.specs.View.{items_view, view};
ghost use Rattle.vet_run.specs.Sums.{counts_of, counts_within, named_of, number_at, rule_within};
ghost use Rattle.vet_run.specs.Sums.{rules_within, sum_of, sum_told, sum_within};
ghost use Rattle.vet_run.specs.declared.read_summary.ReadSummaryError.TheVariants.{NoMemory};

use crate::counts::Counts;
use crate::line::read_record;
use crate::summary::{RuleCount, Summary};
use serde_json::Value;
use std::alloc::{AllocError, AllocFailed, Global};
use std::error::Error;
use std::fmt;

/// Why a text tells no summary.
#[derive(Debug, Drop)]
pub enum ReadSummaryError {
    NoMemory,
    /// It is not JSON, and why.
    NoJson(String),
    /// It is no object of the counts of records and rules.
    NoSummary,
}

impl fmt::Display for ReadSummaryError {
    fn fmt<W: fmt::Write>(&self, f: &mut fmt::Formatter<W>) -> fmt::Result {
        match self {
            ReadSummaryError::NoMemory => f.write_str("no memory"),
            ReadSummaryError::NoJson(reason) => f.write_str(reason),
            ReadSummaryError::NoSummary => f.write_str("no summary of a run, as JSON"),
        }
    }
}

impl Error for ReadSummaryError {}

impl From<AllocError> for ReadSummaryError {
    ghost from_gives = { λ _ fault. fault ≡ NoMemory };

    fn from(_e: AllocError) -> ReadSummaryError {
        ReadSummaryError::NoMemory
    }
}

// The number at the key, where one stands there that fits 64 bits.
fn number_at(value: &Value, key: &str) -> Option<u64>
    ensures { result ≡ number_at key.now (view value.now) }
{
    value.get(key).and_then(Value::as_u64)
}

// The rule that the object tells.
fn rule_within(alloc: Global, value: &Value) -> Result<Option<RuleCount>, AllocError>
    ensures { IfOk result (λ rule. option_map named_of rule ≡ rule_within (view value.now)) }
{
    let Some(name) = value.get("rule").and_then(Value::as_str) else {
        return Ok(None);
    };
    let Some(broken) = number_at(value, "broken") else {
        return Ok(None);
    };
    Ok(Some(RuleCount {
        rule: String::from_str(alloc, name)?,
        broken,
    }))
}

// The rules that the objects tell, where each tells one.
fn rules_within(alloc: Global, values: &[Value]) -> Result<Option<Vec<RuleCount>>, AllocError>
    ensures { IfOk result (λ rules. option_map (λ v. map named_of v.items) rules
        ≡ rules_within (items_view values.now)) }
{
    let mut rules = Vec::new(alloc);
    for value in values {
        match rule_within(alloc, value)? {
            Some(rule) => rules.push(rule)?,
            None => return Ok(None),
        }
    }
    Ok(Some(rules))
}

// The counts that the object tells, where it tells all three.
fn counts_within(value: &Value) -> Option<Counts>
    ensures { option_map counts_of result ≡ counts_within (view value.now) }
{
    Some(Counts {
        records: number_at(value, "records")?,
        failed: number_at(value, "failed")?,
        unreadable: number_at(value, "unreadable")?,
    })
}

// What the object tells, where it has all members.
fn summary_within(alloc: Global, value: &Value) -> Result<Option<Summary>, AllocError>
    ensures { IfOk result (λ summary. option_map sum_of summary ≡ sum_within (view value.now)) }
{
    let Some(counts) = counts_within(value) else {
        return Ok(None);
    };
    let Some(values) = value.get("rules").and_then(Value::as_array) else {
        return Ok(None);
    };
    match rules_within(alloc, values)? {
        Some(rules) => Ok(Some(Summary { counts, rules })),
        None => Ok(None),
    }
}

/// What the text tells.
pub(crate) fn read_summary(alloc: Global, text: &[u8]) -> Result<Summary, ReadSummaryError>
    ensures read { IfOk result (λ summary. sum_told text.now ≡ Some (sum_of summary)) }
    ensures refused { IfErr result (λ e. e ≢ NoMemory → sum_told text.now ≡ None) }
{
    let mut fault = String::new(alloc);
    let Some(value) = read_record(alloc, text, &mut fault)? else {
        return Err(ReadSummaryError::NoJson(fault));
    };
    match summary_within(alloc, &value)? {
        Some(summary) => Ok(summary),
        None => Err(ReadSummaryError::NoSummary),
    }
}
