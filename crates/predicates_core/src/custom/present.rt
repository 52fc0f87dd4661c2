//! Verdicts and cases of a predicate of a value that may be absent: the inner predicate's where
//! there is one, and a false leaf that says why where there is none.
ghost use Rattle.std.specs.Prelude.{ℕ, List, IfOk, IfSome, IsOk, option_copied};
ghost use Rattle.predicates_core.specs.Change.{IsFoundChange};
ghost use Rattle.predicates_core.specs.Formula.{HasTruth};
ghost use Rattle.predicates_core.specs.Label.{Entry};
ghost use Rattle.predicates_core.specs.Present.{IsOfPresent};
ghost use Rattle.predicates_core.specs.Shows.{IsAnswer, IsFound};

use crate::custom::{absent_case, is_other};
use crate::reflection::Case;
use crate::{Predicate, PredicateChange};
use std::alloc::{AllocError, Global};

/// The `eval` of a predicate that holds where there is a value and its inner predicate holds of it.
///
/// ```
/// assert!(rt; present_holds(alloc, &predicate::ge(18), Some(&36))?);
/// assert!(rt; !present_holds(alloc, &predicate::ge(18), None)?);
/// ```
#[tactic(auto, using(crate::proofs::PresentCases::present_cases))]
pub fn present_holds<P: Predicate<U>, U>(
    alloc: Global,
    inner: &P,
    held: Option<&U>,
) -> Result<bool, AllocError>
    requires { P.lawful inner.now }
    ensures truth { IfOk result (λ holds. (text : Entry) (reason : List ℕ)
        → HasTruth (IsOfPresent text reason (P.formula inner.now) (option_copied held.entry))
        holds) }
    ensures infallible { IfSome (option_copied held.entry) (P.infallible inner.now) → IsOk result }
{
    match held {
        Some(value) => inner.eval(alloc, value),
        None => Ok(false),
    }
}

/// The `find_case` of such a predicate. Where there is no value it is that of a false leaf, which
/// has the inner predicate's text and shows the reason as `error`.
///
/// ```
/// let found = present_case(alloc, &predicate::ge(18), None, "no age", false)?;
/// let lines = render(alloc, &found.ok_or("no case")?)?;
/// assert!(rt; lines.as_str() == "var >= 18 = false\n  - error: no age\n");
/// ```
#[tactic(auto, using(crate::proofs::PresentCases::present_cases))]
pub fn present_case<P: Predicate<U>, U>(
    alloc: Global,
    inner: &P,
    held: Option<&U>,
    reason: &str,
    expected: bool,
) -> Result<Option<Case>, AllocError>
    requires { P.lawful inner.now }
    ensures { IfOk result (IsAnswer (IsOfPresent (P.output inner.now) reason.now
        (P.formula inner.now) (option_copied held.entry)) expected) }
{
    match held {
        Some(value) => inner.find_case(alloc, expected, value),
        None if expected => Ok(None),
        None => Ok(Some(absent_case(alloc, inner, reason)?)),
    }
}

/// The `explain` of such a predicate.
///
/// ```
/// let found = present_explained(alloc, &predicate::ge(18), Some(&17), "no age", None)?;
/// let lines = render(alloc, &found.ok_or("no case")?)?;
/// assert!(rt; lines.as_str() == "var >= 18 = false\n  - var: 17\n");
/// ```
pub fn present_explained<P: Predicate<U>, U>(
    alloc: Global,
    inner: &P,
    held: Option<&U>,
    reason: &str,
    wanted: Option<bool>,
) -> Result<Option<Case>, AllocError>
    requires { P.lawful inner.now }
    ensures { IfOk result (IsFound (IsOfPresent (P.output inner.now) reason.now
        (P.formula inner.now) (option_copied held.entry)) wanted) }
{
    match held {
        Some(value) => inner.explain(alloc, wanted, value),
        None if is_other(wanted, false) => Ok(None),
        None => Ok(Some(absent_case(alloc, inner, reason)?)),
    }
}

/// The `find_change` of such a predicate. Where there is no value, that would have to change.
///
/// ```
/// let change = present_change(alloc, &predicate::ge(18), None, "no age", None)?;
/// let lines = render(alloc, &change.ok_or("no change")?)?;
/// assert!(rt; lines.as_str() == "var >= 18 = false\n  - error: no age\n");
/// ```
pub fn present_change<P: PredicateChange<U>, U>(
    alloc: Global,
    inner: &P,
    held: Option<&U>,
    reason: &str,
    wanted: Option<bool>,
) -> Result<Option<Case>, AllocError>
    requires { P.lawful inner.now }
    ensures { IfOk result (IsFoundChange (IsOfPresent (P.output inner.now) reason.now
        (P.formula inner.now) (option_copied held.entry)) wanted) }
{
    match held {
        Some(value) => inner.find_change(alloc, wanted, value),
        None if is_other(wanted, false) => Ok(None),
        None => Ok(Some(absent_case(alloc, inner, reason)?)),
    }
}
