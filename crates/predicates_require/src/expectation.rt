//! What is expected of some items, each under a label.
ghost use Rattle.std.specs.List.{AllByRecursion};
ghost use Rattle.std.specs.Prelude.{◌≡◌, IfErr, IfOk, IsOk, OnOk, flat_map, string_bytes};
ghost use Rattle.predicates_require.specs.Told.{HasFailures};
ghost use Rattle.predicates_require.specs.Expected.{expected, IsFailure, IsMet, IsMetInfallibly};
ghost use Rattle.predicates_require.specs.Expected.{failure_text};
ghost use Rattle.predicates_require.specs.Unmet.{TellsAll};

use crate::requirement::find_reason;
use crate::{Failure, Unmet};
use predicates_core::Predicate;
use std::alloc::{AllocError, Global};

/// An item, and what is expected of it.
#[derive(Drop)]
pub struct Expectation<Item, P> {
    pub label: String,
    pub item: Item,
    pub check: P,
}

/// Expects the check to hold of the item. It takes memory for the label.
///
/// ```
/// let found = Snapshot::take(&rt, alloc, "run.sh")?;
/// expected.push(expect(alloc, "run.sh", found, predicate::path::is_file())?)?;
/// ```
pub fn expect<Item: Drop, P: Drop>(
    alloc: Global,
    label: &str,
    item: Item,
    check: P,
) -> Result<Expectation<Item, P>, AllocError>
    ensures label { IfOk result (λ expectation. string_bytes expectation.label ≡ label.now) }
    ensures item { IfOk result (λ expectation. expectation.item ≡ item) }
    ensures check { IfOk result (λ expectation. expectation.check ≡ check) }
{
    let label = String::from_str(alloc, label)?;
    Ok(Expectation { label, item, check })
}

/// One failure for each expectation that is not met, in their order. It takes memory for the
/// failures, their labels and their cases; where all are met, it takes what memory `eval` takes.
///
/// ```
/// let found = Snapshot::take(&rt, alloc, "run.sh")?;
/// let expected = [expect(alloc, "run.sh", found, predicate::path::is_file())?];
/// assert!(rt; check_all(alloc, &expected)?.len() == 1);
/// ```
pub fn check_all<P: Predicate<Item>, Item>(
    alloc: Global,
    expectations: &[Expectation<Item, P>],
) -> Result<Vec<Failure>, AllocError>
    requires { AllByRecursion (λ expectation. P.lawful expectation.check) expectations.now }
    ensures failing { IfOk result (λ failures. HasFailures (expected P.formula)
        (IsFailure P.formula) expectations.now failures.items) }
    ensures infallible { AllByRecursion (IsMetInfallibly P.infallible P.formula) expectations.now
        → IsOk result }
{
    let mut failures = Vec::new(alloc);
    for expectation in expectations {
        let check = &expectation.check;
        if let Some(reason) = find_reason(alloc, check, &expectation.item)? {
            let label = expectation.label.clone()?;
            failures.push(Failure { label, reason })?;
        }
    }
    Ok(failures)
}

// What the failures print, one after the other.
fn lines_of(alloc: Global, failures: &[Failure]) -> Result<String, AllocError>
    ensures { IfOk result (λ lines. string_bytes lines ≡ flat_map failure_text failures.now) }
{
    let mut lines = String::new(alloc);
    for failure in failures {
        write!(lines, "{failure}")?;
    }
    Ok(lines)
}

/// Requires that each expectation is met. Where some are not, the error has all failures, in order,
/// each as `require_as` prints it, so that a print that is cut short begins with the first.
///
/// Where all are met, this takes what memory `eval` takes; else memory for the failures and their
/// lines.
///
/// ```
/// expected.push(expect(alloc, "request 17", 7, predicate::ge(5))?)?;
/// expected.push(expect(alloc, "request 18", 9, predicate::ge(5))?)?;
/// require_all(alloc, expected.as_slice())?;
/// ```
pub fn require_all<P: Predicate<Item>, Item>(
    alloc: Global,
    expectations: &[Expectation<Item, P>],
) -> Result<(), Unmet>
    requires { AllByRecursion (λ expectation. P.lawful expectation.check) expectations.now }
    ensures met { OnOk result (AllByRecursion (IsMet P.formula) expectations.now) }
    ensures unmet { IfErr result (TellsAll P.formula expectations.now) }
    ensures infallible { AllByRecursion (IsMetInfallibly P.infallible P.formula) expectations.now
        → IsOk result }
{
    let failures = check_all(alloc, expectations)?;
    if failures.is_empty() {
        return Ok(());
    }
    Err(Unmet::Fails(lines_of(alloc, failures.as_slice())?))
}
