//! The descriptions of one part and of two.
ghost use Rattle.std.specs.Prelude.{IfOk, codes};
ghost use Rattle.predicates_core.specs.Parts.{FitsParts, part, two_parts};
ghost use Rattle.predicates_core.specs.Tree.{forest};

use crate::as_static_str::AsStaticStr;
use crate::reflection::{Child, PredicateReflection, describe};
use std::alloc::{AllocError, Global};

/// The description of one part under the name, for `children`.
///
/// ```
/// let children = one_child(alloc, "predicate", &predicate::ge(5))?;
/// assert!(rt; children.len() == 1);
/// ```
pub fn one_child<P: PredicateReflection, N: AsStaticStr + Copy>(
    alloc: Global,
    name: N,
    inner: &P,
) -> Result<Vec<Child>, AllocError>
    ensures { IfOk result (λ children. FitsParts
        (part (N.bytes name) (P.output inner.now) (P.parameters_of inner.now)
        (P.children_of inner.now))
        (forest children.items)) }
{
    let mut children = Vec::new(alloc);
    children.push(describe(alloc, name, inner)?)?;
    Ok(children)
}

/// The descriptions of a left and a right part, for `children`.
///
/// ```
/// let children = two_children(alloc, &predicate::ge(5), &predicate::le(10))?;
/// assert!(rt; children.len() == 2);
/// ```
pub fn two_children<P: PredicateReflection, Q: PredicateReflection>(
    alloc: Global,
    left: &P,
    right: &Q,
) -> Result<Vec<Child>, AllocError>
    ensures { IfOk result (λ children. FitsParts (two_parts
        (codes "left") (P.output left.now) (P.parameters_of left.now) (P.children_of left.now)
        (codes "right") (Q.output right.now) (Q.parameters_of right.now) (Q.children_of right.now))
        (forest children.items)) }
{
    let mut children = Vec::new(alloc);
    children.push(describe(alloc, "left", left)?)?;
    children.push(describe(alloc, "right", right)?)?;
    Ok(children)
}
