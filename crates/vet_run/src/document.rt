//! The document that readers of JUnit's reports take.
ghost use Rattle.std.specs.Prelude.{◌≡◌, ◌++◌, IfOk, OnOk, map, string_bytes, get_or, []};
ghost use Rattle.vet_checks.specs.RuleChecks.{name_of};
ghost use Rattle.vet_run.specs.FirstBlocks.{blocks_of};
ghost use Rattle.vet_run.specs.JUnit.{breaks_text, content_text, document_text, errors};
ghost use Rattle.vet_run.specs.JUnit.{failure_text, failures, files_text, head_text};
ghost use Rattle.vet_run.specs.JUnit.{lines_text, rule_text, rules_text, totals_text};
ghost use Rattle.vet_run.specs.JUnit.{unreadable_text};

use crate::bytes::{push_bytes, push_number};
use crate::summary_lines::count_at;
use crate::tally::Tally;
use crate::xml::push_xml;
use std::alloc::{AllocError, Global};
use vet_checks::RuleCheck;

// The block at this place; nothing where there is none.
fn block_at(blocks: &[String], index: usize) -> &str
    ensures { result.now ≡ get_or (map string_bytes blocks.now) index [] }
{
    match blocks.get(index) {
        Some(block) => block.as_str(),
        None => "",
    }
}

// Writes how many records break a rule.
fn push_breaks(alloc: Global, text: &mut Vec<u8>, count: u64) -> Result<(), AllocError>
    ensures { OnOk result (text.new.items ≡ text.old.items ++ breaks_text count) }
{
    push_number(alloc, text, count as u128)?;
    if count == 1 {
        push_bytes(text, b" record breaks it")
    } else {
        push_bytes(text, b" records break it")
    }
}

// Writes the failure of a rule.
fn push_failure(
    alloc: Global,
    text: &mut Vec<u8>,
    count: u64,
    block: &str,
) -> Result<(), AllocError>
    ensures { OnOk result (text.new.items ≡ text.old.items ++ failure_text count block.now) }
{
    push_bytes(text, b"><failure message=\"")?;
    push_breaks(alloc, text, count)?;
    push_bytes(text, b"\">")?;
    push_xml(text, block)?;
    push_bytes(text, b"</failure></testcase>\n")?;
    Ok(())
}

// Writes what the test case of a rule has in it.
fn push_content(
    alloc: Global,
    text: &mut Vec<u8>,
    count: u64,
    block: &str,
) -> Result<(), AllocError>
    ensures { OnOk result (text.new.items ≡ text.old.items ++ content_text count block.now) }
{
    if count > 0 {
        push_failure(alloc, text, count, block)
    } else {
        push_bytes(text, b"/>\n")
    }
}

// Writes the test case of a rule.
fn push_rule(
    alloc: Global,
    text: &mut Vec<u8>,
    name: &str,
    count: u64,
    block: &str,
) -> Result<(), AllocError>
    ensures { OnOk result
        (text.new.items ≡ text.old.items ++ rule_text name.now count block.now) }
{
    push_bytes(text, b"<testcase name=\"")?;
    push_xml(text, name)?;
    push_bytes(text, b"\" classname=\"vet\"")?;
    push_content(alloc, text, count, block)?;
    Ok(())
}

// Writes the test case of each rule.
fn push_rules(
    alloc: Global,
    text: &mut Vec<u8>,
    rules: &[RuleCheck],
    counts: &[u64],
    blocks: &[String],
) -> Result<(), AllocError>
    ensures { OnOk result (text.new.items ≡ text.old.items
        ++ rules_text 0 (map name_of rules.now) counts.now (map string_bytes blocks.now)) }
{
    for index in 0..rules.len() {
        let (count, block) = (count_at(counts, index), block_at(blocks, index));
        push_rule(alloc, text, &rules[index].name, count, block)?;
    }
    Ok(())
}

// How many counts are not 0.
fn failures(counts: &[u64]) -> usize
    ensures { result ≡ failures counts.now }
{
    let mut number = 0;
    for count in counts {
        if *count > 0 {
            number += 1;
        }
    }
    number
}

// How many test cases have an error.
fn errors(unreadable: u64, all_read: bool) -> u8
    ensures { result ≡ errors unreadable all_read }
{
    let (lines, files) = (
        if unreadable > 0 { 1 } else { 0 },
        if all_read { 0 } else { 1 },
    );
    lines + files
}

// Writes the test case of the lines, of which so many are unreadable.
fn push_unreadable(alloc: Global, text: &mut Vec<u8>, count: u64) -> Result<(), AllocError>
    ensures { OnOk result (text.new.items ≡ text.old.items ++ unreadable_text count) }
{
    push_bytes(
        text,
        b"<testcase name=\"lines\" classname=\"input\"><error message=\"",
    )?;
    push_number(alloc, text, count as u128)?;
    push_bytes(text, b" unreadable\"/></testcase>\n")?;
    Ok(())
}

// Writes the test case of the lines, where some are unreadable.
fn push_lines(alloc: Global, text: &mut Vec<u8>, count: u64) -> Result<(), AllocError>
    ensures { OnOk result (text.new.items ≡ text.old.items ++ lines_text count) }
{
    if count > 0 {
        push_unreadable(alloc, text, count)
    } else {
        Ok(())
    }
}

// Writes the test case of the files, where some could not be read.
fn push_files(text: &mut Vec<u8>, all_read: bool) -> Result<(), AllocError>
    ensures { OnOk result (text.new.items ≡ text.old.items ++ files_text all_read) }
{
    if all_read {
        return Ok(());
    }
    push_bytes(
        text,
        b"<testcase name=\"files\" classname=\"input\">\
         <error message=\"not all could be read\"/></testcase>\n",
    )
}

// How many test cases a document has, and how many of them fail or have an error.
#[derive(Clone, Copy)]
struct Totals {
    tests: u128,
    failures: usize,
    errors: u8,
}

// Writes how many test cases there are.
fn push_totals(alloc: Global, text: &mut Vec<u8>, totals: Totals) -> Result<(), AllocError>
    ensures { OnOk result (text.new.items
        ≡ text.old.items ++ totals_text totals.tests totals.failures totals.errors) }
{
    push_bytes(text, b" tests=\"")?;
    push_number(alloc, text, totals.tests)?;
    push_bytes(text, b"\" failures=\"")?;
    push_number(alloc, text, totals.failures as u128)?;
    push_bytes(text, b"\" errors=\"")?;
    push_number(alloc, text, totals.errors as u128)?;
    push_bytes(text, b"\">\n")
}

// What the document begins with.
const START: &[u8] =
    b"<?xml version=\"1.0\" encoding=\"UTF-8\"?>\n<testsuites>\n<testsuite name=\"";

// Writes the document up to the first test case.
fn push_head(
    alloc: Global,
    text: &mut Vec<u8>,
    name: &str,
    totals: Totals,
) -> Result<(), AllocError>
    ensures { OnOk result (text.new.items
        ≡ text.old.items ++ head_text name.now totals.tests totals.failures totals.errors) }
{
    push_bytes(text, START)?;
    push_xml(text, name)?;
    push_bytes(text, b"\"")?;
    push_totals(alloc, text, totals)?;
    Ok(())
}

/// The document that readers of JUnit's reports take, of runs by the rules of the file of this
/// name: a test case for each rule, in their order, with a failure where records break it, which
/// has the block of the first such record. Where lines are unreadable, or not all files could be
/// read, there is a test case with an error more. The tally is one of `Tally::with_blocks`. It
/// takes memory for the document.
///
/// ```
/// let document = junit(alloc, "rules", &rules, &tally, true)?;
/// let case = b"<testcase name=\"adult\" classname=\"vet\"/>\n</testsuite>\n</testsuites>\n";
/// assert!(rt; document.ends_with(case));
/// ```
pub fn junit(
    alloc: Global,
    name: &str,
    rules: &[RuleCheck],
    tally: &Tally,
    all_read: bool,
) -> Result<Vec<u8>, AllocError>
    ensures { IfOk result (λ text. text.items ≡ document_text name.now (map name_of rules.now)
        tally.now.broken.items (blocks_of tally.now)
        tally.now.counts.unreadable all_read) }
{
    let unreadable = tally.counts.unreadable;
    let counts = tally.broken.as_slice();
    let blocks = tally.firsts.as_slice();
    let errors = errors(unreadable, all_read);
    let totals = Totals {
        tests: rules.len() as u128 + errors as u128,
        failures: failures(counts),
        errors,
    };
    let mut text = Vec::new(alloc);
    push_head(alloc, &mut text, name, totals)?;
    push_rules(alloc, &mut text, rules, counts, blocks)?;
    push_lines(alloc, &mut text, unreadable)?;
    push_files(&mut text, all_read)?;
    push_bytes(&mut text, b"</testsuite>\n</testsuites>\n")?;
    Ok(text)
}
