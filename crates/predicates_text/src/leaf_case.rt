//! The cases of leaves that show the text they test.
ghost use Rattle.std.specs.Prelude.{IfOk, string_bytes, ◌==◌};
ghost use Rattle.predicates_core.specs.Leaves.{IsExactly};
ghost use Rattle.predicates_core.specs.Shows.{IsAnswer, IsFound};
ghost use Rattle.predicates_text.specs.Leaves.{text_leaf, counted_leaf};

use predicates_core::custom::is_other;
use predicates_core::node::{leaf_node, printed, showing, showing_text};
use predicates_core::reflection::Case;
use std::alloc::{AllocError, Global};
use std::fmt;

// What `explain` returns for a leaf that shows the item as its product `var`.
pub(crate) fn text_case<P: fmt::Display>(
    alloc: Global,
    leaf: &P,
    holds: bool,
    wanted: Option<bool>,
    item: &String,
) -> Result<Option<Case>, AllocError>
    ensures { IfOk result (IsFound
        (IsExactly (text_leaf (P.output leaf.now) (string_bytes item.now) holds)) wanted) }
{
    if is_other(wanted, holds) {
        return Ok(None);
    }
    make_text_case(alloc, leaf, holds, item)
}

// Makes the case for `text_case`. It is not inlined, so that a call that returns no case is short.
#[inline(never)]
#[tactic(auto, using(predicates_core::proofs::Leaves::leaves))]
fn make_text_case<P: fmt::Display>(
    alloc: Global,
    leaf: &P,
    holds: bool,
    item: &String,
) -> Result<Option<Case>, AllocError>
    ensures { IfOk result (IsAnswer
        (IsExactly (text_leaf (P.output leaf.now) (string_bytes item.now) holds)) holds) }
{
    let case = leaf_node(alloc, printed(alloc, leaf)?, holds);
    Ok(Some(showing_text(alloc, case, "var", item)?))
}

// What `explain` returns for a leaf that compares a number with the one it asks for. It shows the
// item as `var` and then the number as `actual count`.
pub(crate) fn count_case<P: fmt::Display>(
    alloc: Global,
    leaf: &P,
    actual: usize,
    asked: usize,
    wanted: Option<bool>,
    item: &String,
) -> Result<Option<Case>, AllocError>
    ensures { IfOk result (IsFound
        (IsExactly
        (counted_leaf (P.output leaf.now) (string_bytes item.now) actual (actual == asked)))
        wanted) }
{
    let holds = actual == asked;
    if is_other(wanted, holds) {
        return Ok(None);
    }
    let case = leaf_node(alloc, printed(alloc, leaf)?, holds);
    let case = showing_text(alloc, case, "var", item)?;
    Ok(Some(showing(case, "actual count", actual.to_string(alloc)?)?))
}
