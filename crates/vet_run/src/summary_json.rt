//! What runs count, as an object of JSON.
ghost use Rattle.std.specs.Prelude.{◌≡◌, ◌++◌, IfOk, OnOk, false, map, string_bytes};
ghost use Rattle.vet_run.specs.Objects.{listed};
ghost use Rattle.vet_run.specs.Sums.{counts_json, named_of, rule_json, sum_json, sum_of};

use crate::counts::Counts;
use crate::object::{push_comma, push_quoted};
use crate::summary::{RuleCount, Summary};
use std::alloc::{AllocError, Global};

// Writes the object of a rule.
fn push_rule(alloc: Global, text: &mut String, rule: &RuleCount) -> Result<(), AllocError>
    ensures { OnOk result
        (string_bytes text.new ≡ string_bytes text.old ++ rule_json (named_of rule.now)) }
{
    text.push_str("{\"rule\":")?;
    push_quoted(alloc, text, &rule.rule)?;
    let broken = rule.broken;
    let count = format!(in alloc; ",\"broken\":{broken}}}")?;
    text.push_str(&count)
}

// Writes the objects of rules.
fn push_rules(alloc: Global, text: &mut String, rules: &[RuleCount]) -> Result<(), AllocError>
    ensures { OnOk result (string_bytes text.new
        ≡ string_bytes text.old ++ listed false (map (λ r. rule_json (named_of r)) rules.now)) }
{
    let mut later = false;
    for rule in rules {
        push_comma(text, later)?;
        push_rule(alloc, text, rule)?;
        later = true;
    }
    Ok(())
}

// The counts, up to the bracket that opens the rules.
fn counts_text(alloc: Global, counts: Counts) -> Result<String, AllocError>
    ensures { IfOk result (λ text. string_bytes text
        ≡ counts_json counts.records counts.failed counts.unreadable) }
{
    let Counts {
        records,
        failed,
        unreadable,
    } = counts;
    format!(in alloc;
        "{{\"records\":{records},\"failed\":{failed},\"unreadable\":{unreadable},\"rules\":["
    )
}

/// The object of what runs count, on no line of its own.
pub(crate) fn summary_json(alloc: Global, summary: &Summary) -> Result<String, AllocError>
    ensures { IfOk result (λ text. string_bytes text ≡ sum_json (sum_of summary.now)) }
{
    let mut text = counts_text(alloc, summary.counts)?;
    push_rules(alloc, &mut text, &summary.rules)?;
    text.push_str("]}")?;
    Ok(text)
}
