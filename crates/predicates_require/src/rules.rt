//! All rules that do not hold of an item.
ghost use Rattle.std.specs.List.{AllByRecursion};
ghost use Rattle.std.specs.Prelude.{◌≡◌, IfOk, IsOk, OnErr, OnOk};
ghost use Rattle.predicates_require.specs.Told.{HasFailures, HoldsInfallibly, Explains, IsAdded, about};

use crate::requirement::find_reason;
use predicates_core::Predicate;
use predicates_core::reflection::Case;
use std::alloc::{AllocError, Global};

/// Adds the case of the rule where it does not hold of the item, and nothing where it holds: for
/// rules of several types, one call for each.
///
/// It takes memory for the case. Where it runs out, the cases are as before.
///
/// ```
/// let mut cases = Vec::new(alloc);
/// add_failure(alloc, &mut cases, &adult, &guest)?;
/// add_failure(alloc, &mut cases, &known, &guest)?;
/// assert!(rt; cases.len() == 2);
/// ```
pub fn add_failure<P: Predicate<Item>, Item>(
    alloc: Global,
    cases: &mut Vec<Case>,
    rule: &P,
    item: &Item,
) -> Result<(), AllocError>
    requires { P.lawful rule.now }
    ensures added { OnOk result
        (IsAdded (P.formula rule.now item.now) cases.old.items cases.new.items) }
    ensures refused { OnErr result (cases.new.items ≡ cases.old.items) }
{
    match rule.find_case(alloc, false, item)? {
        None => Ok(()),
        Some(case) => Ok(cases.push(case)?),
    }
}

/// One case for each rule that does not hold of the item, in their order: all failures, where the
/// case of `and` shows the first reason alone. It takes memory for the cases; where all hold, it
/// takes what memory `eval` takes.
///
/// ```
/// let rules = [predicate::ge(5), predicate::ge(10)];
/// let cases = failures(alloc, &rules, &7)?;
/// assert!(rt; cases.len() == 1);
/// ```
pub fn failures<P: Predicate<Item>, Item>(
    alloc: Global,
    rules: &[P],
    item: &Item,
) -> Result<Vec<Case>, AllocError>
    requires { AllByRecursion P.lawful rules.now }
    ensures failing { IfOk result (λ cases. HasFailures (about P.formula item.now)
        (Explains (about P.formula item.now)) rules.now cases.items) }
    ensures infallible { AllByRecursion (HoldsInfallibly P.infallible P.formula item.now) rules.now
        → IsOk result }
{
    let mut cases = Vec::new(alloc);
    for rule in rules {
        if let Some(case) = find_reason(alloc, rule, item)? {
            cases.push(case)?;
        }
    }
    Ok(cases)
}
