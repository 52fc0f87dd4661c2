//! The block of text that explains a verdict.
ghost use Rattle.std.specs.Prelude.{◌≡◌, IfOk, OnOk, string_bytes};
ghost use Rattle.explain_run.specs.Blocks.{heading, HasBlocks, IsBlock};

use predicates_core::reflection::render_onto;
use predicates_core::{Predicate, Total};
use std::alloc::{AllocError, Global};

// Puts the verdict behind the label that the text holds, and ends the line.
pub(crate) fn write_verdict(text: &mut String, holds: bool) -> Result<(), AllocError>
    ensures { OnOk result (string_bytes text.new ≡ heading (string_bytes text.old) holds) }
{
    if holds {
        text.push_str(": true\n")
    } else {
        text.push_str(": false\n")
    }
}

// Makes the label that the text holds into its block, and answers the verdict.
#[tactic(auto, using(crate::proofs::BlockLemmas::blocks))]
pub(crate) fn complete_block<P: Predicate<Item>, Item>(
    alloc: Global,
    text: &mut String,
    predicate: &P,
    item: &Item,
) -> Result<bool, AllocError>
    requires { P.lawful predicate.now }
    ensures { OnOk result
        (HasBlocks (P.formula predicate.now item.now) (string_bytes text.old)
        (string_bytes text.new)) }
{
    let holds = predicate.eval(alloc, item)?;
    write_verdict(text, holds)?;
    // There is a case, unless the predicate has no formula on the item.
    let Some(case) = predicate.explain(alloc, Some(holds), item)? else {
        return Ok(holds);
    };
    render_onto(text, &case)?;
    Ok(holds)
}

/// The label with the verdict, and the lines of a case that explains it: `11: false`, and the case
/// below. It is refused only where memory is.
///
/// ```
/// let between = predicate::ge(5).and(predicate::le(10));
/// let block = explain_one(alloc, &between, "11", &11)?;
/// assert!(rt; block.as_str().starts_with("11: false\n"));
/// ```
pub fn explain_one<P: Predicate<Item>, Item>(
    alloc: Global,
    predicate: &P,
    label: &str,
    item: &Item,
) -> Result<String, AllocError>
    requires { P.lawful predicate.now }
    ensures { IfOk result (λ text.
        HasBlocks (P.formula predicate.now item.now) label.now (string_bytes text)) }
{
    let mut text = String::from_str(alloc, label)?;
    complete_block(alloc, &mut text, predicate, item)?;
    Ok(text)
}

/// What `explain_one` writes, for a predicate that has a formula on every item: the block of that
/// formula.
///
/// ```
/// let between = predicate::ge(5).and(predicate::le(10));
/// let block = explain_total(alloc, &between, "7", &7)?;
/// assert!(rt; block.as_str().starts_with("7: true\n"));
/// ```
pub fn explain_total<P: Total<Item>, Item>(
    alloc: Global,
    predicate: &P,
    label: &str,
    item: &Item,
) -> Result<String, AllocError>
    ensures { IfOk result (λ text.
        IsBlock label.now (P.formula_of predicate.now item.now) (string_bytes text)) }
{
    explain_one(alloc, predicate, label, item)
}
