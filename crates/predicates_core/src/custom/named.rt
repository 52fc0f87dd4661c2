//! The case of a part under a name.
ghost use Rattle.std.specs.Prelude.{[], ◌∷◌, Some, IfOk};
ghost use Rattle.predicates_core.specs.Combined.{IsNamed};
ghost use Rattle.predicates_core.specs.Shows.{IsAnswer, IsFound, IsNode};

use crate::Predicate;
use crate::node::unary_node;
use crate::reflection::Case;
use std::alloc::{AllocError, Global};

/// The `find_case` of a predicate that holds where its part does, and prints a name in its place.
///
/// ```
/// let found = named_case(alloc, "adult", &predicate::ge(18), false, &17)?;
/// let lines = render(alloc, &found.ok_or("no case")?)?;
/// assert!(rt; lines.as_str() == "adult = false\n  adult: var >= 18 = false\n    - var: 17\n");
/// ```
pub fn named_case<P: Predicate<Item>, Item>(
    alloc: Global,
    name: &'static str,
    inner: &P,
    expected: bool,
    item: &Item,
) -> Result<Option<Case>, AllocError>
    requires { P.lawful inner.now }
    ensures { IfOk result
        (IsAnswer (IsNamed name.entry.now (P.formula inner.now item.now)) expected) }
{
    let Some(part) = inner.find_case(alloc, expected, item)? else {
        return Ok(None);
    };
    Ok(Some(named_node(alloc, name, expected, part)?))
}

/// The `explain` of such a predicate.
///
/// ```
/// let found = named_explained(alloc, "adult", &predicate::ge(18), None, &17)?;
/// let lines = render(alloc, &found.ok_or("no case")?)?;
/// assert!(rt; lines.as_str() == "adult = false\n  adult: var >= 18 = false\n    - var: 17\n");
/// ```
pub fn named_explained<P: Predicate<Item>, Item>(
    alloc: Global,
    name: &'static str,
    inner: &P,
    wanted: Option<bool>,
    item: &Item,
) -> Result<Option<Case>, AllocError>
    requires { P.lawful inner.now }
    ensures { IfOk result
        (IsFound (IsNamed name.entry.now (P.formula inner.now item.now)) wanted) }
{
    let Some(part) = inner.explain(alloc, wanted, item)? else {
        return Ok(None);
    };
    let outcome = part.root().result();
    Ok(Some(named_node(alloc, name, outcome, part)?))
}

// The node that prints the name, over the part. It is not inlined, so that a caller that gets no
// case uses less stack.
#[inline(never)]
pub(super) fn named_node(
    alloc: Global,
    name: &'static str,
    outcome: bool,
    part: Case,
) -> Result<Case, AllocError>
    ensures { IfOk result (IsNode (Some name.entry.now) outcome ((name.entry.now, part) ∷ [])) }
{
    let text = String::from_str(alloc, name)?;
    unary_node(alloc, text, outcome, name, part)
}
