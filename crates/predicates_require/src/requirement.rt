//! Assertions whose error says why.
ghost use Rattle.std.specs.Prelude.{◌≡◌, true, false, [], ◌++◌, codes, IfErr, IfOk, IsOk, OnOk};
ghost use Rattle.std.specs.Prelude.{Some};
ghost use Rattle.predicates_core.specs.Change.{IsFoundChange};
ghost use Rattle.predicates_core.specs.Formula.{Formula, HasTruth, truth};
ghost use Rattle.predicates_core.specs.Shows.{IsAnswer};
ghost use Rattle.predicates_require.specs.Unmet.{TellsStyled, TellsWhy};

use crate::Unmet;
use predicates_core::reflection::{Case, render, render_onto};
use predicates_core::{Predicate, PredicateChange};
use predicates_style::{Style, render_styled};
use std::alloc::{AllocError, Global};

// The case where the predicate does not hold. Where it holds, only `eval` is called.
pub(crate) fn find_reason<P: Predicate<Item>, Item>(
    alloc: Global,
    predicate: &P,
    item: &Item,
) -> Result<Option<Case>, AllocError>
    requires { P.lawful predicate.now }
    ensures answer { IfOk result (IsAnswer (P.formula predicate.now item.now) false) }
    ensures infallible { P.infallible predicate.now item.now → (f : Formula)
        → P.formula predicate.now item.now f → truth f ≡ true → IsOk result }
{
    if predicate.eval(alloc, item)? {
        return Ok(None);
    }
    predicate.explain(alloc, Some(false), item)
}

/// Requires that the predicate holds of the item. Where it does not, the error has the lines of its
/// case.
///
/// Where it holds, this takes what memory `eval` takes; else memory for the case and its lines.
///
/// ```
/// let between = predicate::ge(5).and(predicate::le(10));
/// require(alloc, &between, &7)?;
/// ```
pub fn require<P: Predicate<Item>, Item>(
    alloc: Global,
    predicate: &P,
    item: &Item,
) -> Result<(), Unmet>
    requires { P.lawful predicate.now }
    ensures met { OnOk result (HasTruth (P.formula predicate.now item.now) true) }
    ensures unmet { IfErr result (TellsWhy [] (P.formula predicate.now item.now)) }
    ensures infallible { P.infallible predicate.now item.now → (f : Formula)
        → P.formula predicate.now item.now f → truth f ≡ true → IsOk result }
{
    match find_reason(alloc, predicate, item)? {
        None => Ok(()),
        Some(case) => Err(Unmet::Fails(render(alloc, &case)?)),
    }
}

/// As `require`, with a label before the lines: `request 17: ` and then the lines of the case.
///
/// ```
/// let unmet = require_as(alloc, "request 17", &predicate::ge(5), &3).err().ok_or("met")?;
/// let text = unmet.to_string(alloc)?;
/// assert!(rt; text.as_str() == "request 17: var >= 5 = false\n  - var: 3\n");
/// ```
pub fn require_as<P: Predicate<Item>, Item>(
    alloc: Global,
    label: &str,
    predicate: &P,
    item: &Item,
) -> Result<(), Unmet>
    requires { P.lawful predicate.now }
    ensures met { OnOk result (HasTruth (P.formula predicate.now item.now) true) }
    ensures unmet { IfErr result
        (TellsWhy (label.now ++ codes ": ") (P.formula predicate.now item.now)) }
    ensures infallible { P.infallible predicate.now item.now → (f : Formula)
        → P.formula predicate.now item.now f → truth f ≡ true → IsOk result }
{
    let Some(case) = find_reason(alloc, predicate, item)? else {
        return Ok(());
    };
    let mut lines = String::from_str(alloc, label)?;
    lines.push_str(": ")?;
    render_onto(&mut lines, &case)?;
    Err(Unmet::Fails(lines))
}

/// As `require`, with the lines in a style, as for a case that is long: with limits on the children
/// of a node and on a product's value, escaped, or in colours.
///
/// ```
/// let style = Style {
///     children: Some(1),
///     ..Style::new()
/// };
/// let near = predicate::in_iter(alloc, [5, 7])?.of_each();
/// let unmet = require_styled(alloc, &style, &near.not(), &vec![in alloc; 5, 7, 5]?);
/// let text = unmet.err().ok_or("met")?.to_string(alloc)?;
/// assert!(rt; text.as_str().ends_with("    .. 2 more\n"));
/// ```
pub fn require_styled<P: Predicate<Item>, Item>(
    alloc: Global,
    style: &Style,
    predicate: &P,
    item: &Item,
) -> Result<(), Unmet>
    requires { P.lawful predicate.now }
    ensures met { OnOk result (HasTruth (P.formula predicate.now item.now) true) }
    ensures unmet { IfErr result (TellsStyled style.now (P.formula predicate.now item.now)) }
    ensures infallible { P.infallible predicate.now item.now → (f : Formula)
        → P.formula predicate.now item.now f → truth f ≡ true → IsOk result }
{
    match find_reason(alloc, predicate, item)? {
        None => Ok(()),
        Some(case) => Err(Unmet::Fails(render_styled(alloc, style, &case)?)),
    }
}

/// What has to change for the predicate to hold of the item, as the case of its first change; none
/// where it holds.
///
/// Each part is evaluated, also where an earlier one decides. It takes memory for the case.
///
/// ```
/// let policy = predicate::ge(5).and(predicate::ne(3));
/// let case = required_change(alloc, &policy, &3)?.ok_or("met")?;
/// assert!(rt; case.root().children().count() == 2);
/// ```
pub fn required_change<P: PredicateChange<Item>, Item>(
    alloc: Global,
    predicate: &P,
    item: &Item,
) -> Result<Option<Case>, AllocError>
    requires { P.lawful predicate.now }
    ensures { IfOk result (IsFoundChange (P.formula predicate.now item.now) (Some false)) }
{
    predicate.find_change(alloc, Some(false), item)
}
