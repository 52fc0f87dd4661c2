//! What the lines of a text say: their rules, and their faults.

ghost use Rattle.std.specs.Prelude.{◌≡◌, ◌++◌, ◌∷◌, [], IfOk, None, Some, map, string_bytes};
ghost use Rattle.vet_rules.specs.Grammar.{max_depth};
ghost use Rattle.vet_rules.specs.Rules.{rule_of, IsLine};
ghost use Rattle.vet_rules.specs.Faults.{number_named, IsFaultAt, IsRepeatAt};
ghost use Rattle.vet_rules.specs.Findings.{numbered_of, rules_in, HasAdded, HasFound};

use crate::error::Reason;
use crate::expression::Expression;
use crate::fault::Fault;
use crate::hint::hint_at;
use crate::lexer::told_len;
use crate::reader::{behind_spaces, read_line};
use crate::rule::Rule;
use crate::stop::{ReadError, Stop};
use indexmap::IndexMap;
use std::alloc::{AllocError, Global};

/// What a rule says, with the number of its line.
#[derive(Drop)]
pub struct Numbered {
    pub expression: Expression,
    pub line: usize,
}

/// The rules of lines by their names, and the faults of the other lines.
#[derive(Drop)]
pub struct Findings {
    pub rules: IndexMap<String, Numbered>,
    pub faults: Vec<Fault>,
}

// The number of the line that has the rule with this name.
fn line_named(rules: &IndexMap<String, Numbered>, name: &str) -> Option<usize>
    ensures { result ≡ number_named name.now (map numbered_of rules.now.entries) }
{
    let found = rules.get(name)?;
    Some(found.line)
}

// The fault where a line of this number stops.
fn fault_at(alloc: Global, stop: Stop, number: usize, line: &[u8]) -> Result<Fault, AllocError>
    ensures { IfOk result (IsFaultAt number line.now stop) }
{
    let (before, rest) = line.split_at(line.len().saturating_sub(stop.left));
    let rest = behind_spaces(rest);
    let (word, after) = rest.split_at(told_len(rest));
    let mut found = Vec::new(alloc);
    found.extend_from_slice(word)?;
    Ok(Fault {
        line: number,
        column: line.len().saturating_sub(stop.left) + 1,
        reason: stop.reason,
        found,
        hint: hint_at(alloc, stop.reason, before, word, after)?,
    })
}

// The fault of a line of this number, whose rule has the name of an earlier one.
fn repeat_at(
    alloc: Global,
    name: String,
    first: usize,
    number: usize,
    line: &[u8],
) -> Result<Fault, AllocError>
    ensures { IfOk result (IsRepeatAt number first line.now (string_bytes name)) }
{
    let stop = Stop {
        reason: Reason::Repeated(first),
        left: behind_spaces(line).len(),
    };
    let mut fault = fault_at(alloc, stop, number, line)?;
    fault.found = name.into_bytes();
    Ok(fault)
}

fn with_fault(mut findings: Findings, fault: Fault) -> Result<Findings, AllocError>
    ensures { IfOk result (λ after. (after.rules ≡ findings.rules)
        × (after.faults.items ≡ findings.faults.items ++ fault ∷ [])) }
{
    findings.faults.push(fault)?;
    Ok(findings)
}

fn with_new(mut findings: Findings, rule: Rule, line: usize) -> Result<Findings, AllocError>
    requires { number_named (string_bytes rule.name) (rules_in findings) ≡ None }
    ensures { IfOk result (λ after. (after.faults ≡ findings.faults)
        × (rules_in after ≡ rules_in findings ++ (line, rule_of rule) ∷ [])) }
{
    let Rule { name, expression } = rule;
    findings.rules.insert(name, Numbered { expression, line })?;
    Ok(findings)
}

// With the rule of a line of this number, or with its fault where its name is taken.
fn with_rule(
    alloc: Global,
    findings: Findings,
    rule: Rule,
    number: usize,
    line: &[u8],
) -> Result<Findings, AllocError>
    requires { IsLine max_depth line.now (Some (rule_of rule)) }
    ensures { IfOk result (HasAdded number line.now findings) }
{
    if let Some(first) = line_named(&findings.rules, &rule.name) {
        let fault = repeat_at(alloc, rule.name, first, number, line)?;
        return with_fault(findings, fault);
    }
    with_new(findings, rule, number)
}

// With what a line of this number says.
fn with_line(
    alloc: Global,
    findings: Findings,
    number: usize,
    line: &[u8],
) -> Result<Findings, AllocError>
    ensures { IfOk result (HasAdded number line.now findings) }
{
    match read_line(alloc, line) {
        Ok(Some(rule)) => with_rule(alloc, findings, rule, number, line),
        Ok(None) => Ok(findings),
        Err(ReadError::Memory) => Err(AllocError),
        Err(ReadError::Stopped(stop)) => {
            let fault = fault_at(alloc, stop, number, line)?;
            with_fault(findings, fault)
        }
    }
}

/// Reads lines up to the one that has the last fault of so many.
pub fn read_lines(alloc: Global, lines: &[&[u8]], most: usize) -> Result<Findings, AllocError>
    ensures { IfOk result (HasFound most (map (λ x. x.now) lines.now)) }
{
    let rules = IndexMap::new(alloc);
    let faults = Vec::new(alloc);
    let mut findings = Findings { rules, faults };
    for (i, line) in lines.iter().enumerate() {
        if findings.faults.len() == most {
            return Ok(findings);
        }
        findings = with_line(alloc, findings, i + 1, line)?;
    }
    Ok(findings)
}

/// The rules without the numbers of their lines.
pub fn unnumbered(alloc: Global, rules: IndexMap<String, Numbered>) -> Result<Vec<Rule>, AllocError>
    ensures { IfOk result (λ v. map rule_of v.items ≡ map (λ n. (numbered_of n).1) rules.entries) }
{
    rules
        .into_iter()
        .map(|(name, numbered)| Rule {
            name,
            expression: numbered.expression,
        })
        .collect(alloc)
}
