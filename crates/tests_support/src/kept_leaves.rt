//! The leaves that a case keeps, read from the places of its nodes and never from their texts.
use crate::reference::ReferenceFormula;
use crate::shown::{names_member, told_number};
use predicates_core::reflection::{Case, CaseChild, CaseView};
use std::alloc::{AllocError, Global};

fn child_count(node: &CaseView<'_>) -> usize {
    let mut count = 0_usize;
    for _ in node.children() {
        count = count.saturating_add(1);
    }
    count
}

fn member_count(members: &ReferenceFormula) -> usize {
    match members {
        ReferenceFormula::And(_, rest) | ReferenceFormula::Or(_, rest) => {
            member_count(rest).saturating_add(1)
        }
        _ => 0,
    }
}

// Whether a child at this place is cut from the member with this number: the child tells it, but
// where all members are shown it only has the member's place.
fn is_of_member(case: &CaseView<'_>, place: usize, number: usize, all: bool) -> bool {
    let told = told_number(case);
    if all {
        told.is_none() && place == number
    } else {
        told == Some(number)
    }
}

// Adds the leaves that the children of a list's node keep of its members, of which the first has
// the number `number`, and answers how many of the children are cut from these; `all` where the
// node has as many children as the whole list has members.
#[cycle(kept)]
fn add_members(
    kept: &mut Vec<usize>,
    members: &ReferenceFormula,
    node: &CaseView<'_>,
    all: bool,
    number: usize,
    first: usize,
) -> Result<usize, AllocError> {
    let (ReferenceFormula::And(member, rest) | ReferenceFormula::Or(member, rest)) = members else {
        return Ok(0);
    };
    let mut cut = 0_usize;
    let mut place = 0_usize;
    for CaseChild { name, case } in node.children() {
        let is_told = names_member(name) && is_of_member(&case, place, number, all);
        place = place.saturating_add(1);
        if is_told && add_kept(kept, member, &case, first)? {
            cut = cut.saturating_add(1);
        }
    }
    let behind = first.saturating_add(member.leaf_count());
    let others = add_members(kept, rest, node, all, number.saturating_add(1), behind)?;
    Ok(cut.saturating_add(others))
}

// Adds the leaves that a node keeps of the formula, whose first leaf has the number `first`;
// false where the node is not cut from the formula.
#[cycle(kept)]
fn add_kept(
    kept: &mut Vec<usize>,
    formula: &ReferenceFormula,
    node: &CaseView<'_>,
    first: usize,
) -> Result<bool, AllocError> {
    if node.result() != formula.truth() {
        return Ok(false);
    }
    match formula {
        ReferenceFormula::Leaf(_) => {
            kept.push(first)?;
            Ok(node.children().next().is_none())
        }
        ReferenceFormula::And(left, right)
        | ReferenceFormula::Or(left, right)
        | ReferenceFormula::Xor(left, right) => {
            let behind = first.saturating_add(left.leaf_count());
            let mut is_cut = true;
            for CaseChild { name, case } in node.children() {
                is_cut = is_cut
                    && match name {
                        "left" => add_kept(kept, left, &case, first)?,
                        "right" => add_kept(kept, right, &case, behind)?,
                        _ => false,
                    };
            }
            Ok(is_cut)
        }
        ReferenceFormula::Not(part) | ReferenceFormula::Named(part) => {
            let mut children = node.children();
            let Some(CaseChild { case, .. }) = children.next() else {
                return Ok(false);
            };
            Ok(add_kept(kept, part, &case, first)? && children.next().is_none())
        }
        ReferenceFormula::Members(members) | ReferenceFormula::Counted(_, members) => {
            let shown = child_count(node);
            let all = shown == member_count(members);
            Ok(add_members(kept, members, node, all, 0, first)? == shown)
        }
        ReferenceFormula::NoMore(_) => Ok(false),
    }
}

/// The numbers of the leaves that the case keeps; none where the case is not cut from the formula.
pub fn kept_leaves(
    alloc: Global,
    formula: &ReferenceFormula,
    case: &Case,
) -> Result<Option<Vec<usize>>, AllocError> {
    let mut kept: Vec<usize> = Vec::new(alloc);
    let is_cut = add_kept(&mut kept, formula, &case.root(), 0)?;
    let increases = kept.windows(2).all(|pair| pair[0] < pair[1]);
    Ok(if is_cut && increases && !kept.is_empty() {
        Some(kept)
    } else {
        None
    })
}
