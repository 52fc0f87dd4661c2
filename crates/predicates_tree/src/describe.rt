//! Descriptions of the parts of checks.
ghost use Rattle.std.specs.Prelude.{◌≡◌, [], IfOk, IsOk, codes, map};
ghost use Rattle.predicates_core.specs.Parts.{FitsParts, IsPart, part, part_of_each, two_parts};
ghost use Rattle.predicates_core.specs.Tree.{empty, forest};
ghost use Rattle.predicates_tree.specs.Formulas.{check_text};
ghost use Rattle.predicates_tree.specs.Described.{check_parameters, check_parts, row_parts};
ghost use Rattle.predicates_tree.specs.Trees.{words_of, tree_of, trees_of};

use crate::check::Check;
use crate::wording::Wording;
use predicates_core::node::printed;
use predicates_core::reflection::{Child, PredicateReflection};
use std::alloc::{AllocError, Global};
use std::fmt;

// The `children` of the check.
#[cycle(describe)]
pub(crate) fn parts_of<L: PredicateReflection, V: fmt::Display, S: Wording>(
    alloc: Global,
    check: &Check<L, V, S>,
) -> Result<Vec<Child>, AllocError>
    ensures fits { IfOk result (λ children. FitsParts
        (check_parts L.output V.output L.parameters_of L.children_of S.words check.now)
        (forest children.items)) }
    ensures none { check_parts L.output V.output L.parameters_of L.children_of S.words check.now
        ≡ empty
        → IsOk result }
{
    match check {
        Check::Leaf(leaf) => leaf.children(alloc),
        Check::Not(_, inner) => one_part(alloc, inner, "predicate"),
        Check::Named(name, inner) => one_part(alloc, inner, name.as_str()),
        Check::Pair(_, _, left_part, right_part) => {
            let left_part: &Check<L, V, S> = left_part;
            let left = described(alloc, left_part, "left")?;
            two_parts_of(alloc, right_part, left_part, left)
        }
        Check::Row(_, _, parts) => parts_children(alloc, parts, check),
        Check::Members(_, _, _, inner) => one_part(alloc, inner, "item"),
    }
}

// The description of a part under the name.
#[cycle(describe)]
fn described<L: PredicateReflection, V: fmt::Display, S: Wording>(
    alloc: Global,
    part: &Check<L, V, S>,
    name: &'static str,
) -> Result<Child, AllocError>
    ensures { IfOk result (IsPart name.now (check_text L.output V.output S.words part.now)
        (check_parameters L.parameters_of S.words part.now)
        (check_parts L.output V.output L.parameters_of L.children_of S.words part.now)) }
{
    let text = printed(alloc, part)?;
    let parameters = part.parameters(alloc)?;
    let children = parts_of(alloc, part)?;
    Ok(Child::new(name, text, parameters, children))
}

// The description of the one part of a check.
#[cycle(describe)]
fn one_part<L: PredicateReflection, V: fmt::Display, S: Wording>(
    alloc: Global,
    inner: &Check<L, V, S>,
    name: &'static str,
) -> Result<Vec<Child>, AllocError>
    ensures { IfOk result (λ children. FitsParts
        (part name.now (check_text L.output V.output S.words inner.now)
        (check_parameters L.parameters_of S.words inner.now)
        (check_parts L.output V.output L.parameters_of L.children_of S.words inner.now))
        (forest children.items)) }
{
    let mut children = Vec::new(alloc);
    children.push(described(alloc, inner, name)?)?;
    Ok(children)
}

// The descriptions of two parts, of which the left one has its.
#[cycle(describe)]
fn two_parts_of<L: PredicateReflection, V: fmt::Display, S: Wording>(
    alloc: Global,
    right_part: &Check<L, V, S>,
    left_part: &Check<L, V, S>,
    left: Child,
) -> Result<Vec<Child>, AllocError>
    requires { IsPart (codes "left") (check_text L.output V.output S.words left_part.now)
        (check_parameters L.parameters_of S.words left_part.now)
        (check_parts L.output V.output L.parameters_of L.children_of S.words left_part.now) left }
    ensures { IfOk result (λ children. FitsParts (two_parts
        (codes "left") (check_text L.output V.output S.words left_part.now)
        (check_parameters L.parameters_of S.words left_part.now)
        (check_parts L.output V.output L.parameters_of L.children_of S.words left_part.now)
        (codes "right") (check_text L.output V.output S.words right_part.now)
        (check_parameters L.parameters_of S.words right_part.now)
        (check_parts L.output V.output L.parameters_of L.children_of S.words right_part.now))
        (forest children.items)) }
{
    let mut children = Vec::new(alloc);
    children.push(left)?;
    children.push(described(alloc, right_part, "right")?)?;
    Ok(children)
}

// The descriptions of several parts.
#[cycle(describe)]
fn parts_children<L: PredicateReflection, V: fmt::Display, S: Wording>(
    alloc: Global,
    parts: &[Check<L, V, S>],
    whole: &Check<L, V, S>,
) -> Result<Vec<Child>, AllocError>
    requires { check_parts L.output V.output L.parameters_of L.children_of S.words whole.now
        ≡ row_parts L.output V.output L.parameters_of L.children_of
        (words_of S.words whole.now).part (trees_of (map (tree_of S.words) parts.now)) }
    ensures fits { IfOk result (λ children. FitsParts
        (check_parts L.output V.output L.parameters_of L.children_of S.words whole.now)
        (forest children.items)) }
    ensures none { check_parts L.output V.output L.parameters_of L.children_of S.words whole.now
        ≡ empty
        → IsOk result }
{
    each_part(alloc, parts, whole.part())
}

// The same, as `custom::each_child`.
#[cycle(describe)]
fn each_part<L: PredicateReflection, V: fmt::Display, S: Wording>(
    alloc: Global,
    parts: &[Check<L, V, S>],
    name: &'static str,
) -> Result<Vec<Child>, AllocError>
    ensures fits { IfOk result (λ children. FitsParts (part_of_each name.now
        (check_text L.output V.output S.words) (check_parameters L.parameters_of S.words)
        (check_parts L.output V.output L.parameters_of L.children_of S.words) parts.now)
        (forest children.items)) }
    ensures none { parts.now ≡ [] → IsOk result }
{
    let mut children = Vec::new(alloc);
    for part in parts {
        children.push(described(alloc, part, name)?)?;
    }
    Ok(children)
}
