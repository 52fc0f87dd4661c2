//! The block of the first record that breaks each rule.
ghost use Rattle.std.specs.Prelude.{◌≡◌, OnOk, false, map, string_bytes};
ghost use Rattle.predicates_core.specs.Formula.{truth};
ghost use Rattle.serde_json.specs.View.{view};
ghost use Rattle.vet_run.specs.FirstBlocks.{TakesFirst};
ghost use Rattle.vet_run.specs.Judgements.{TakesAt, TakesEach, placed, rule_of};
ghost use Rattle.vet_run.specs.Records.{AreBroken, formula_on};

use crate::job::Job;
use crate::judgement::Broken;
use crate::line::Record;
use crate::record::{add_case, write_block};
use std::alloc::{AllocError, Global};
use vet_checks::RuleCheck;

// Writes the block of the rule, which the record breaks, where there is none yet.
fn take_first(
    alloc: Global,
    job: &Job<'_>,
    rule: &RuleCheck,
    record: &Record<'_>,
    block: &mut String,
) -> Result<(), AllocError>
    requires { truth (formula_on (view record.now.value.now) rule.now) ≡ false }
    ensures { OnOk result (TakesFirst job.now rule.now record.now.number (view record.now.value.now)
        (string_bytes block.old) (string_bytes block.new)) }
{
    if !block.is_empty() {
        return Ok(());
    }
    let mut cases = Vec::new(alloc);
    add_case(alloc, rule, record.value, &mut cases)?;
    write_block(alloc, job, record, block, cases.as_slice())
}

// The same at the rule's place, where there is one.
fn take_at(
    alloc: Global,
    job: &Job<'_>,
    broken: &Broken<'_>,
    record: &Record<'_>,
    blocks: &mut Vec<String>,
) -> Result<(), AllocError>
    requires { truth (formula_on (view record.now.value.now) broken.now.rule.now) ≡ false }
    ensures { OnOk result (TakesAt job.now record.now.number (view record.now.value.now)
        (placed broken.now) (map string_bytes blocks.old.items)
        (map string_bytes blocks.new.items)) }
{
    if broken.place >= blocks.len() {
        return Ok(());
    }
    take_first(alloc, job, broken.rule, record, &mut blocks[broken.place])?;
    Ok(())
}

/// Writes the block of each of the rules, which the record breaks, that has none yet.
pub(crate) fn take_firsts(
    alloc: Global,
    job: &Job<'_>,
    broken: &[Broken<'_>],
    record: &Record<'_>,
    blocks: &mut Vec<String>,
) -> Result<(), AllocError>
    requires { AreBroken (view record.now.value.now) (map rule_of broken.now) }
    ensures { OnOk result (TakesEach job.now record.now.number (view record.now.value.now)
        (map placed broken.now) (map string_bytes blocks.old.items)
        (map string_bytes blocks.new.items)) }
{
    for rule in broken {
        take_at(alloc, job, rule, record, blocks)?;
    }
    Ok(())
}
