//! What would turn the verdict of a leaf, of one part and of two.
//!
//! ```
//! join_change(alloc, join, wanted, item)
//! ```
ghost use Rattle.std.specs.Prelude.{◌≡◌, IfOk};
ghost use Rattle.predicates_core.specs.Change.{IsFoundChange};
ghost use Rattle.predicates_core.specs.Combined.{IsNamed, IsNot, IsPair};
ghost use Rattle.predicates_core.specs.Formula.{Formula, IsLeaf};
ghost use Rattle.predicates_core.specs.Turning.{IsRightChange};

use crate::custom::join::{Join, Operator, is_other, kept_if, shown_verdict};
use crate::custom::named::named_node;
use crate::custom::not::opposite_of;
use crate::node::{binary_node_of, printed, unary_node};
use crate::reflection::Case;
use crate::{Predicate, PredicateChange};
use std::alloc::{AllocError, Global};
use std::fmt;

/// The `find_change` of a predicate whose formula is a single leaf.
///
/// ```
/// let change = leaf_change(alloc, &predicate::ge(5), None, &3)?.ok_or("no change")?;
/// assert!(rt; render(alloc, &change)?.as_str() == "var >= 5 = false\n  - var: 3\n");
/// ```
pub fn leaf_change<P: Predicate<Item>, Item>(
    alloc: Global,
    leaf: &P,
    wanted: Option<bool>,
    item: &Item,
) -> Result<Option<Case>, AllocError>
    requires lawful { P.lawful leaf.now }
    requires leaf { (f : Formula) → P.formula leaf.now item.now f → IsLeaf f }
    ensures { IfOk result (IsFoundChange (P.formula leaf.now item.now) wanted) }
{
    leaf.explain(alloc, wanted, item)
}

/// The `find_change` of a predicate that holds where its part does not.
///
/// ```
/// let (whole, part) = (predicate::ge(5).not(), predicate::ge(5));
/// let change = not_change(alloc, &whole, &part, None, &3)?.ok_or("no change")?;
/// let lines = "(! var >= 5) = true\n  predicate: var >= 5 = false\n    - var: 3\n";
/// assert!(rt; render(alloc, &change)?.as_str() == lines);
/// ```
pub fn not_change<W: fmt::Display, P: PredicateChange<Item>, Item>(
    alloc: Global,
    whole: &W,
    inner: &P,
    wanted: Option<bool>,
    item: &Item,
) -> Result<Option<Case>, AllocError>
    requires { P.lawful inner.now }
    ensures { IfOk result
        (IsFoundChange (IsNot (W.output whole.now) (P.formula inner.now item.now)) wanted) }
{
    let Some(part) = inner.find_change(alloc, opposite_of(wanted), item)? else {
        return Ok(None);
    };
    let text = printed(alloc, whole)?;
    let outcome = !part.root().result();
    Ok(Some(unary_node(alloc, text, outcome, "predicate", part)?))
}

/// The `find_change` of a predicate that holds where its part does, and prints a name in its place.
///
/// ```
/// let found = named_change(alloc, "adult", &predicate::ge(18), None, &17)?;
/// let lines = render(alloc, &found.ok_or("no change")?)?;
/// assert!(rt; lines.as_str() == "adult = false\n  adult: var >= 18 = false\n    - var: 17\n");
/// ```
pub fn named_change<P: PredicateChange<Item>, Item>(
    alloc: Global,
    name: &'static str,
    inner: &P,
    wanted: Option<bool>,
    item: &Item,
) -> Result<Option<Case>, AllocError>
    requires { P.lawful inner.now }
    ensures { IfOk result
        (IsFoundChange (IsNamed name.entry.now (P.formula inner.now item.now)) wanted) }
{
    let Some(part) = inner.find_change(alloc, wanted, item)? else {
        return Ok(None);
    };
    let outcome = part.root().result();
    Ok(Some(named_node(alloc, name, outcome, part)?))
}

// A part's verdict, and what would turn it.
#[derive(Drop)]
struct PartChange {
    holds: bool,
    change: Option<Case>,
}

// The right part's verdict, and its change where that belongs to the whole's.
fn right_change<P: PredicateChange<Item>, Item>(
    alloc: Global,
    operator: Operator,
    part: &P,
    item: &Item,
) -> Result<PartChange, AllocError>
    requires { P.lawful part.now }
    ensures { IfOk result (λ right. IsRightChange operator (P.formula part.now item.now)
        right.holds right.change) }
{
    match operator {
        Operator::And => {
            let change = part.find_change(alloc, Some(false), item)?;
            let holds = change.is_none();
            Ok(PartChange { holds, change })
        }
        Operator::Or => {
            let change = part.find_change(alloc, Some(true), item)?;
            let holds = change.is_some();
            Ok(PartChange { holds, change })
        }
        Operator::Xor => {
            let holds = part.eval(alloc, item)?;
            let change = None;
            Ok(PartChange { holds, change })
        }
    }
}

/// The `find_change` of a predicate that joins two parts by an operator. Both are always evaluated,
/// the left one first.
///
/// ```
/// let (low, high) = (predicate::ge(5), predicate::le(10));
/// let text = "between".to_owned(alloc)?;
/// let join = Join { whole: &text, operator: Operator::And, left: &low, right: &high };
/// let found = join_change(alloc, join, None, &7)?;
/// let lines = "between = true\n  left: var >= 5 = true\n    - var: 7\n";
/// assert!(rt; render(alloc, &found.ok_or("no change")?)?.as_str() == lines);
/// ```
pub fn join_change<W: fmt::Display, P: PredicateChange<Item>, Q: PredicateChange<Item>, Item>(
    alloc: Global,
    join: Join<'_, W, P, Q>,
    wanted: Option<bool>,
    item: &Item,
) -> Result<Option<Case>, AllocError>
    requires left { P.lawful join.left.now }
    requires right { Q.lawful join.right.now }
    ensures { IfOk result (IsFoundChange (IsPair join.entry.operator (W.output join.entry.whole.now)
        (P.formula join.entry.left.now item.now) (Q.formula join.entry.right.now item.now))
        wanted) }
{
    let operator = join.operator;
    let left_wanted = operator.left_wanted(wanted);
    let left = join.left.find_change(alloc, left_wanted, item)?;
    let left_holds = shown_verdict(left_wanted, &left);
    let right = right_change(alloc, operator, join.right, item)?;
    let holds = operator.apply(left_holds, right.holds);
    if is_other(wanted, holds) {
        return Ok(None);
    }
    let kept = kept_if(operator.keeps(left_holds, right.holds), left);
    let text = printed(alloc, join.whole)?;
    Ok(Some(binary_node_of(alloc, text, holds, kept, right.change)?))
}
