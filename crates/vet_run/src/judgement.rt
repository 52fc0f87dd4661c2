//! Which rules a record breaks.
ghost use Rattle.std.specs.Prelude.{◌≡◌, ◌==◌, IfOk, OnOk, length, map};
ghost use Rattle.serde_json.specs.View.{view};
ghost use Rattle.vet_run.specs.FirstBlocks.{blocks_of};
ghost use Rattle.vet_run.specs.Judgements.{AddsBroken, asks_all, broken_from};
ghost use Rattle.vet_run.specs.Judgements.{counted_at, counted_each, placed};
ghost use Rattle.vet_run.specs.Records.{shown};

use crate::settings::Report;
use crate::tally::Tally;
use crate::workspace::Workspace;
use serde_json::Value;
use std::alloc::AllocError;
use streams::RunFault;
use vet_checks::RuleCheck;

/// A rule that a record breaks, and its place among the rules.
#[derive(Clone, Copy)]
pub(crate) struct Broken<'r> {
    pub(crate) place: usize,
    pub(crate) rule: &'r RuleCheck,
}

// Adds the rule where the record breaks it, and says whether it does.
fn add_broken<'r>(
    rule: &'r RuleCheck,
    place: usize,
    workspace: &mut Workspace<'r>,
    value: &Value,
    broken: &mut Vec<Broken<'r>>,
) -> Result<bool, AllocError>
    ensures { IfOk result (AddsBroken (view value.now) rule.now place
        (map placed broken.old.items) (map placed broken.new.items)) }
{
    if rule.holds(workspace.alloc, &mut workspace.matchers, value)? {
        return Ok(false);
    }
    broken.push(Broken { place, rule })?;
    Ok(true)
}

/// The rules that the record breaks: all, for which every rule is asked, or the first, up to which
/// they are asked.
pub(crate) fn judge<'r>(
    rules: &'r [RuleCheck],
    workspace: &mut Workspace<'r>,
    whole: bool,
    value: &Value,
) -> Result<Vec<Broken<'r>>, AllocError>
    ensures { IfOk result (λ broken.
        map placed broken.items ≡ shown whole (broken_from 0 rules.now (view value.now))) }
{
    let mut broken = Vec::new(workspace.alloc);
    for place in 0..rules.len() {
        let added = add_broken(&rules[place], place, workspace, value, &mut broken)?;
        if added && !whole {
            return Ok(broken);
        }
    }
    Ok(broken)
}

/// Whether every rule has to be asked: where all that are broken are shown, for which there is
/// room, or the tally keeps something for each rule.
pub(crate) fn asks_all(report: Report, room: bool, tally: &Tally) -> bool
    ensures { result ≡ asks_all report room tally.now.broken.items (blocks_of tally.now) }
{
    (room && report.shows_all()) || !tally.broken.is_empty() || !tally.firsts.is_empty()
}

/// Whether the record keeps every rule.
pub(crate) fn is_none(broken: &[Broken<'_>]) -> bool
    ensures { result ≡ (length broken.now == 0) }
{
    broken.is_empty()
}

/// All of them, or the first.
pub(crate) fn shown<'l, 'r>(all: bool, broken: &'l [Broken<'r>]) -> &'l [Broken<'r>]
    ensures { result.now ≡ shown all broken.now }
{
    if all {
        broken
    } else {
        &broken[..broken.len().min(1)]
    }
}

// Counts one more at the place, where there is one.
fn count_at(counts: &mut Vec<u64>, place: usize) -> Result<(), RunFault>
    ensures { OnOk result (counts.new.items ≡ counted_at place counts.old.items) }
{
    if place >= counts.len() {
        return Ok(());
    }
    let Some(count) = counts[place].checked_add(1) else {
        return Err(RunFault::Input);
    };
    counts[place] = count;
    Ok(())
}

/// Counts one more for each of the rules.
pub(crate) fn count_broken(broken: &[Broken<'_>], counts: &mut Vec<u64>) -> Result<(), RunFault>
    ensures { OnOk result
        (counts.new.items ≡ counted_each (map placed broken.now) counts.old.items) }
{
    for rule in broken {
        count_at(counts, rule.place)?;
    }
    Ok(())
}
