//! The case of a negation.
ghost use Rattle.std.specs.Prelude.{◌≡◌, not, option_map, IfOk};
ghost use Rattle.predicates_core.specs.Combined.{IsNot};
ghost use Rattle.predicates_core.specs.Shows.{IsAnswer, IsFound};

use crate::Predicate;
use crate::node::{printed, unary_node};
use crate::reflection::Case;
use std::alloc::{AllocError, Global};
use std::fmt;

/// The `find_case` of a predicate that holds where its part does not.
///
/// ```
/// let (whole, part) = (predicate::ge(5).not(), predicate::ge(5));
/// let case = not_case(alloc, &whole, &part, true, &3)?.ok_or("no case")?;
/// let lines = "(! var >= 5) = true\n  predicate: var >= 5 = false\n    - var: 3\n";
/// assert!(rt; render(alloc, &case)?.as_str() == lines);
/// ```
#[tactic(auto, using(crate::proofs::CombinedLemmas::combined))]
pub fn not_case<W: fmt::Display, P: Predicate<Item>, Item>(
    alloc: Global,
    whole: &W,
    inner: &P,
    expected: bool,
    item: &Item,
) -> Result<Option<Case>, AllocError>
    requires { P.lawful inner.now }
    ensures { IfOk result
        (IsAnswer (IsNot (W.output whole.now) (P.formula inner.now item.now)) expected) }
{
    let Some(part) = inner.find_case(alloc, !expected, item)? else {
        return Ok(None);
    };
    let text = printed(alloc, whole)?;
    Ok(Some(unary_node(alloc, text, expected, "predicate", part)?))
}

/// The verdict that the part has to have, where one of the whole is wanted.
///
/// ```
/// assert!(rt; opposite_of(Some(true)) == Some(false) && opposite_of(None).is_none());
/// ```
pub fn opposite_of(wanted: Option<bool>) -> Option<bool>
    ensures { result ≡ option_map not wanted }
{
    match wanted {
        Some(expected) => Some(!expected),
        None => None,
    }
}

/// The `explain` of such a predicate.
///
/// ```
/// let (whole, part) = (predicate::ge(5).not(), predicate::ge(5));
/// let case = not_explained(alloc, &whole, &part, None, &3)?.ok_or("no case")?;
/// assert!(rt; case.root().result());
/// ```
pub fn not_explained<W: fmt::Display, P: Predicate<Item>, Item>(
    alloc: Global,
    whole: &W,
    inner: &P,
    wanted: Option<bool>,
    item: &Item,
) -> Result<Option<Case>, AllocError>
    requires { P.lawful inner.now }
    ensures { IfOk result
        (IsFound (IsNot (W.output whole.now) (P.formula inner.now item.now)) wanted) }
{
    let Some(part) = inner.explain(alloc, opposite_of(wanted), item)? else {
        return Ok(None);
    };
    let text = printed(alloc, whole)?;
    let outcome = !part.root().result();
    Ok(Some(unary_node(alloc, text, outcome, "predicate", part)?))
}
