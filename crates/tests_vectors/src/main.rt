//! Compares what the predicates answer with worked rows, and with recorded answers of the crate
//! that they are ported from.
#![tactic(auto)]

mod answers;
mod cells;
mod items;
mod lines;
mod memberships;
mod outcome;
mod path_predicates;
mod printed;
mod recorded_paths;
mod snapshots;
mod table;
mod views;

use answers::{Recorded, Worked};
use anyhow::{Result, ensure};
use items::{Bytes, Lists, Numbers, Texts};
use lines::{NumberLines, Runs};
use memberships::MembershipTable;
use printed::PrintedTable;
use recorded_paths::PathTable;
use snapshots::Paths;
use table::replay;
use views::{DebugForms, EvenTexts, TextPairs, TrimmedTexts, ValidBytes};

// Whether each table of worked rows has rows, and all are right.
fn replay_worked(rt: &HostRuntime) -> Result<bool> {
    let numbers = replay(rt, "worked_numbers", &Worked { items: Numbers })?;
    let lists = replay(rt, "worked_lists", &Worked { items: Lists })?;
    let texts = replay(rt, "worked_texts", &Worked { items: Texts })?;
    let bytes = replay(rt, "worked_bytes", &Worked { items: Bytes })?;
    let paths = replay(rt, "worked_paths", &Worked { items: Paths })?;
    let runs = replay(rt, "worked_runs", &Runs)?;
    Ok(numbers && lists && texts && bytes && paths && runs)
}

// Whether each table of recorded answers about numbers has rows, and all are right.
fn replay_numbers(rt: &HostRuntime) -> Result<bool> {
    let mut all = true;
    // The original has no `xor`: the rows of `number_xor` were answered by a predicate over its
    // trait.
    for name in [
        "number_depth2",
        "number_depth3",
        "number_deep",
        "number_xor",
    ] {
        all = replay(rt, name, &Recorded { items: Numbers })? && all;
    }
    all = replay(rt, "memberships", &MembershipTable)? && all;
    all = replay(rt, "number_lines", &NumberLines)? && all;
    Ok(replay(rt, "explain_between", &Runs)? && all)
}

// The same of those about texts, bytes and paths.
fn replay_texts(rt: &HostRuntime) -> Result<bool> {
    let mut all = replay(rt, "text_pairs", &TextPairs)?;
    for name in ["text_leaves", "text_nested"] {
        all = replay(rt, name, &Recorded { items: Texts })? && all;
    }
    all = replay(rt, "trimmed", &TrimmedTexts)? && all;
    all = replay(rt, "lines_even", &EvenTexts)? && all;
    all = replay(rt, "utf8_valid", &ValidBytes)? && all;
    all = replay(rt, "bytes_nested", &Recorded { items: Bytes })? && all;
    all = replay(rt, "debug_ascii", &DebugForms)? && all;
    all = replay(rt, "printed", &PrintedTable)? && all;
    all = replay(rt, "explain_text", &Runs)? && all;
    all = replay(rt, "explain_text_xor", &Runs)? && all;
    Ok(replay(rt, "paths", &PathTable)? && all)
}

// The status is 1 where a row is wrong, a table has none, or one can't be read.
fn main(rt: HostRuntime) -> Result<()> {
    let worked = replay_worked(&rt)?;
    let numbers = replay_numbers(&rt)?;
    let texts = replay_texts(&rt)?;
    ensure!(
        worked && numbers && texts,
        "a row is wrong, or a table has none"
    );
    Ok(())
}
