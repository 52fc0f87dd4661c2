//! The cases of leaves.
ghost use Rattle.std.specs.Prelude.{IfOk, codes, false};
ghost use Rattle.predicates_core.specs.Formula.{Leaf};
ghost use Rattle.predicates_core.specs.Label.{plain, showing};
ghost use Rattle.predicates_core.specs.Leaves.{IsExactly};
ghost use Rattle.predicates_core.specs.Present.{absent_leaf};
ghost use Rattle.predicates_core.specs.Shows.{IsAnswer, IsCaseOf, IsFound};

use crate::custom::is_other;
use crate::node::{leaf_node, printed, showing_item, showing_text};
use crate::reflection::Case;
use std::alloc::{AllocError, Global};
use std::fmt;

/// The `explain` of a leaf without products, from its verdict `holds`; its `find_case` where that
/// is asked for `Some(expected)`. It takes memory for the case alone.
///
/// ```
/// let none = bare_case(alloc, &predicate::always::<i64>(), true, Some(false))?;
/// assert!(rt; none.is_none());
/// let case = bare_case(alloc, &predicate::always::<i64>(), true, None)?.ok_or("no case")?;
/// assert!(rt; render(alloc, &case)?.as_str() == "true = true\n");
/// ```
pub fn bare_case<P: fmt::Display>(
    alloc: Global,
    leaf: &P,
    holds: bool,
    wanted: Option<bool>,
) -> Result<Option<Case>, AllocError>
    ensures { IfOk result
        (IsFound (IsExactly (Leaf (plain (P.output leaf.now)) holds)) wanted) }
{
    if is_other(wanted, holds) {
        return Ok(None);
    }
    make_bare_case(alloc, leaf, holds)
}

// Makes the case. It is not inlined, so that a caller that gets none uses no stack for it.
#[inline(never)]
#[tactic(auto, using(crate::proofs::Leaves::leaves))]
fn make_bare_case<P: fmt::Display>(
    alloc: Global,
    leaf: &P,
    holds: bool,
) -> Result<Option<Case>, AllocError>
    ensures { IfOk result
        (IsAnswer (IsExactly (Leaf (plain (P.output leaf.now)) holds)) holds) }
{
    Ok(Some(leaf_node(alloc, printed(alloc, leaf)?, holds)))
}

/// The same for a leaf that shows the item's debug form as its product `var`.
///
/// ```
/// let case = showing_case(alloc, &predicate::ge(5), false, None, &3)?.ok_or("no case")?;
/// assert!(rt; render(alloc, &case)?.as_str() == "var >= 5 = false\n  - var: 3\n");
/// ```
pub fn showing_case<P: fmt::Display, Item: fmt::Debug>(
    alloc: Global,
    leaf: &P,
    holds: bool,
    wanted: Option<bool>,
    item: &Item,
) -> Result<Option<Case>, AllocError>
    ensures { IfOk result (IsFound (IsExactly
        (Leaf (showing (P.output leaf.now) (codes "var") (Item.debug_output item.now)) holds))
        wanted) }
{
    if is_other(wanted, holds) {
        return Ok(None);
    }
    make_showing_case(alloc, leaf, holds, item)
}

// As `make_bare_case`, with the product.
#[inline(never)]
#[tactic(auto, using(crate::proofs::Leaves::leaves))]
fn make_showing_case<P: fmt::Display, Item: fmt::Debug>(
    alloc: Global,
    leaf: &P,
    holds: bool,
    item: &Item,
) -> Result<Option<Case>, AllocError>
    ensures { IfOk result (IsAnswer (IsExactly
        (Leaf (showing (P.output leaf.now) (codes "var") (Item.debug_output item.now)) holds))
        holds) }
{
    let case = leaf_node(alloc, printed(alloc, leaf)?, holds);
    Ok(Some(showing_item(alloc, case, item)?))
}

/// The case of a predicate of a value that is absent: a false leaf with the text of the predicate,
/// and with the reason as the product `error`.
///
/// ```
/// let case = absent_case(alloc, &predicate::ge(5), "absent")?;
/// assert!(rt; render(alloc, &case)?.as_str() == "var >= 5 = false\n  - error: absent\n");
/// ```
pub fn absent_case<P: fmt::Display>(
    alloc: Global,
    predicate: &P,
    reason: &str,
) -> Result<Case, AllocError>
    ensures { IfOk result
        (IsCaseOf (IsExactly (absent_leaf (P.output predicate.now) reason.now)) false) }
{
    let node = leaf_node(alloc, printed(alloc, predicate)?, false);
    Ok(showing_text(alloc, node, "error", reason)?)
}
