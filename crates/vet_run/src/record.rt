//! What is written for one record.
ghost use Rattle.std.specs.Prelude.{◌≡◌, ◌++◌, ◌==◌, IfOk, OnOk, Some, option_map, true, false, []};
ghost use Rattle.std.specs.Prelude.{string_bytes, length, flat_map, map};
ghost use Rattle.std.specs.List.{AllZip};
ghost use Rattle.predicates_core.specs.Change.{ExplainsChange};
ghost use Rattle.predicates_core.specs.Shows.{Explains, IsNode};
ghost use Rattle.vet_checks.specs.RuleChecks.{name_of};
ghost use Rattle.serde_json.specs.View.{view};
ghost use Rattle.vet_run.specs.Judgements.{IsJudged, placed, rule_of};
ghost use Rattle.vet_run.specs.Records.{AddsShown, AreBroken, IsShown, block, refused_text, shown_lines};
ghost use Rattle.vet_run.specs.Records.{IsBlock, IsBlockOf, IsChangeBlock, IsObject};
ghost use Rattle.vet_run.specs.Records.{wanted_text};

use crate::job::Job;
use crate::judgement::{Broken, shown};
use crate::line::Record;
use crate::object::{Object, write_object};
use crate::place::{head, name};
use crate::workspace::Workspace;
use predicates_core::node::leaf_node;
use predicates_core::reflection::Case;
use predicates_core::{Predicate, PredicateChange};
use predicates_style::{Style, render_styled_onto};
use serde_json::Value;
use std::alloc::{AllocError, Global};
use vet_checks::RuleCheck;

/// What is shown of a rule that a record breaks.
#[derive(Drop)]
pub(crate) struct Shown {
    /// Its case; where memory is refused for that, a node with its name.
    pub(crate) case: Case,
    pub(crate) refused: bool,
}

// What is shown of a rule for whose case memory is refused.
fn refused(alloc: Global, rule: &RuleCheck) -> Result<Shown, AllocError>
    ensures { IfOk result (λ shown. (shown.refused ≡ true)
        × IsNode (Some (name_of rule.now)) false [] shown.case) }
{
    let name = String::from_str(alloc, &rule.name)?;
    Ok(Shown {
        case: leaf_node(alloc, name, false),
        refused: true,
    })
}

/// Adds the case of the rule, which the record breaks.
pub(crate) fn add_case(
    alloc: Global,
    rule: &RuleCheck,
    value: &Value,
    cases: &mut Vec<Shown>,
) -> Result<(), AllocError>
    ensures { OnOk result
        (AddsShown Explains (view value.now) rule.now cases.old.items cases.new.items) }
{
    let shown = match rule.find_case(alloc, false, value) {
        Ok(Some(case)) => Shown {
            case,
            refused: false,
        },
        Ok(None) => return Ok(()),
        Err(_) => refused(alloc, rule)?,
    };
    cases.push(shown)?;
    Ok(())
}

/// The cases of the rules, which the record breaks.
pub(crate) fn cases_of(
    alloc: Global,
    rules: &[Broken<'_>],
    value: &Value,
) -> Result<Vec<Shown>, AllocError>
    requires { AreBroken (view value.now) (map rule_of rules.now) }
    ensures { IfOk result (λ cases.
        AllZip (IsShown Explains (view value.now)) (map rule_of rules.now) cases.items) }
{
    let mut cases = Vec::new(alloc);
    for broken in rules {
        add_case(alloc, broken.rule, value, &mut cases)?;
    }
    Ok(cases)
}

// Adds what would have to change in the rule, which the record breaks.
fn add_change(
    alloc: Global,
    rule: &RuleCheck,
    value: &Value,
    cases: &mut Vec<Shown>,
) -> Result<(), AllocError>
    ensures { OnOk result
        (AddsShown ExplainsChange (view value.now) rule.now cases.old.items cases.new.items) }
{
    let shown = match rule.find_change(alloc, Some(false), value) {
        Ok(Some(case)) => Shown {
            case,
            refused: false,
        },
        Ok(None) => return Ok(()),
        Err(_) => refused(alloc, rule)?,
    };
    cases.push(shown)?;
    Ok(())
}

// What would have to change in each of the rules, which the record breaks.
fn changes_of(alloc: Global, rules: &[Broken<'_>], value: &Value) -> Result<Vec<Shown>, AllocError>
    requires { AreBroken (view value.now) (map rule_of rules.now) }
    ensures { IfOk result (λ cases.
        AllZip (IsShown ExplainsChange (view value.now)) (map rule_of rules.now) cases.items) }
{
    let mut cases = Vec::new(alloc);
    for broken in rules {
        add_change(alloc, broken.rule, value, &mut cases)?;
    }
    Ok(cases)
}

// Writes that memory was refused for a case, where it was.
fn write_refused(text: &mut String, refused: bool) -> Result<(), AllocError>
    ensures { OnOk result (string_bytes text.new ≡ string_bytes text.old ++ refused_text refused) }
{
    if refused {
        text.push_str("  no memory to show why\n")
    } else {
        Ok(())
    }
}

/// Writes the lines of what is shown of a rule behind the text.
#[tactic(auto, unfolding(crate::specs::Records::shown_lines))]
pub(crate) fn write_shown(text: &mut String, style: &Style, shown: &Shown) -> Result<(), AllocError>
    ensures { OnOk result
        (string_bytes text.new ≡ string_bytes text.old ++ shown_lines style.now shown.now) }
{
    render_styled_onto(text, style, &shown.case)?;
    write_refused(text, shown.refused)?;
    Ok(())
}

// Writes the lines of each case behind the text.
fn write_cases(text: &mut String, style: &Style, cases: &[Shown]) -> Result<(), AllocError>
    ensures { OnOk result (string_bytes text.new
        ≡ string_bytes text.old ++ flat_map (shown_lines style.now) cases.now) }
{
    for shown in cases {
        write_shown(text, style, shown)?;
    }
    Ok(())
}

// Writes the line with what heads the block, and the lines of each case, behind the text.
fn write_headed(
    text: &mut String,
    style: &Style,
    head: &str,
    cases: &[Shown],
) -> Result<(), AllocError>
    ensures { OnOk result
        (string_bytes text.new ≡ string_bytes text.old ++ block style.now head.now cases.now) }
{
    text.push_str(head)?;
    text.push_str(": false\n")?;
    write_cases(text, style, cases)
}

/// Writes the block of the record's cases in place of what the text held.
pub(crate) fn write_block(
    alloc: Global,
    job: &Job<'_>,
    record: &Record<'_>,
    text: &mut String,
    cases: &[Shown],
) -> Result<(), AllocError>
    ensures { OnOk result (IsBlockOf job.now record.now.number (view record.now.value.now) cases.now
        (string_bytes text.new)) }
{
    text.clear();
    if cases.is_empty() {
        return Ok(());
    }
    let head = head(alloc, job, record.number, record.value)?;
    write_headed(text, &job.settings.style, &head, cases)
}

/// Writes the block of the rules that the record breaks, of all or of the first, in place of what
/// the text held.
pub(crate) fn write_broken(
    job: &Job<'_>,
    workspace: &mut Workspace<'_>,
    all: bool,
    broken: &[Broken<'_>],
    record: &Record<'_>,
) -> Result<(), AllocError>
    requires { IsJudged all job.now.rules.now (view record.now.value.now) (map placed broken.now) }
    ensures { OnOk result (IsBlock job.now all record.now.number (view record.now.value.now)
        (string_bytes workspace.new.text)) }
{
    let alloc = workspace.alloc;
    let cases = cases_of(alloc, shown(all, broken), record.value)?;
    write_block(alloc, job, record, &mut workspace.text, cases.as_slice())?;
    Ok(())
}

/// Writes the block of what would have to change in the rules that the record breaks, in place of
/// what the text held.
pub(crate) fn write_changes(
    job: &Job<'_>,
    workspace: &mut Workspace<'_>,
    broken: &[Broken<'_>],
    record: &Record<'_>,
) -> Result<(), AllocError>
    requires { IsJudged true job.now.rules.now (view record.now.value.now) (map placed broken.now) }
    ensures { OnOk result (IsChangeBlock job.now record.now.number
        (view record.now.value.now) (string_bytes workspace.new.text)) }
{
    let alloc = workspace.alloc;
    let cases = changes_of(alloc, broken, record.value)?;
    write_block(alloc, job, record, &mut workspace.text, cases.as_slice())?;
    Ok(())
}

// Writes the object, or nothing where it has no case and the failed alone are wanted, in place of
// what the text held.
fn write_wanted(
    alloc: Global,
    text: &mut String,
    failed: bool,
    object: &Object<'_>,
) -> Result<(), AllocError>
    ensures { OnOk result (string_bytes text.new
        ≡ wanted_text failed (option_map (λ s. s.now) object.now.source) object.now.name.now
        object.now.all object.now.cases.now) }
{
    if failed && object.cases.is_empty() {
        text.clear();
        return Ok(());
    }
    write_object(alloc, text, object)
}

/// Writes an object of JSON for the record in place of what the text held, or nothing where it
/// keeps every rule and the failed alone are wanted.
pub(crate) fn write_json(
    job: &Job<'_>,
    workspace: &mut Workspace<'_>,
    all: bool,
    failed: bool,
    broken: &[Broken<'_>],
    record: &Record<'_>,
) -> Result<(), AllocError>
    requires { IsJudged all job.now.rules.now (view record.now.value.now) (map placed broken.now) }
    ensures { OnOk result (IsObject job.now all failed record.now.number
        (view record.now.value.now) (string_bytes workspace.new.text)) }
{
    let alloc = workspace.alloc;
    let cases = cases_of(alloc, shown(all, broken), record.value)?;
    let name = name(alloc, job.settings, record.number, record.value)?;
    let object = Object {
        source: job.source,
        name: &name,
        all,
        cases: cases.as_slice(),
    };
    write_wanted(alloc, &mut workspace.text, failed, &object)?;
    Ok(())
}
