//! Whether a case is a formula cut down to a set of leaves.
use crate::reference::ReferenceFormula;
use predicates_core::reflection::{CaseChild, CaseChildren, CaseView};

// Whether a leaf of the formula, whose first leaf has the number `first`, is in the set.
fn has_share(set: &[usize], formula: &ReferenceFormula, first: usize) -> bool {
    let behind = first.saturating_add(formula.leaf_count());
    set.iter().any(|leaf| first <= *leaf && *leaf < behind)
}

// Whether the next child is the part cut down to the set; where the part has no leaf in the set,
// it has no child.
#[cycle(shows)]
fn shows_part(
    set: &[usize],
    part: &ReferenceFormula,
    name: &str,
    children: &mut CaseChildren<'_>,
    first: usize,
) -> bool {
    if !has_share(set, part, first) {
        return true;
    }
    match children.next() {
        Some(CaseChild { name: told, case }) => told == name && shows(set, part, &case, first),
        None => false,
    }
}

/// The number that the node tells of itself as its last product, `index`.
pub fn told_number(node: &CaseView<'_>) -> Option<usize> {
    match node.products().last() {
        Some(product) if product.name() == "index" => product.value().parse().ok(),
        _ => None,
    }
}

/// Whether members of a list, or of a list of predicates, stand under the name.
pub fn names_member(name: &str) -> bool {
    name == "item" || name == "rule"
}

// Whether the next children are the members of a list cut down to the set, each with its number;
// the first of these members has the number `number`.
#[cycle(shows)]
fn shows_members(
    set: &[usize],
    members: &ReferenceFormula,
    children: &mut CaseChildren<'_>,
    number: usize,
    first: usize,
) -> bool {
    let (ReferenceFormula::And(member, rest) | ReferenceFormula::Or(member, rest)) = members else {
        return true;
    };
    if has_share(set, member, first) {
        let Some(CaseChild { name: told, case }) = children.next() else {
            return false;
        };
        let is_told = names_member(told) && told_number(&case) == Some(number);
        if !is_told || !shows(set, member, &case, first) {
            return false;
        }
    }
    let behind = first.saturating_add(member.leaf_count());
    shows_members(set, rest, children, number.saturating_add(1), behind)
}

/// Whether the node is the formula, whose first leaf has the number `first`, cut down to the set.
#[cycle(shows)]
pub fn shows(set: &[usize], formula: &ReferenceFormula, node: &CaseView<'_>, first: usize) -> bool {
    let mut children = node.children();
    let is_cut = match formula {
        ReferenceFormula::Leaf(_) => has_share(set, formula, first),
        ReferenceFormula::And(left, right)
        | ReferenceFormula::Or(left, right)
        | ReferenceFormula::Xor(left, right) => {
            let behind = first.saturating_add(left.leaf_count());
            shows_part(set, left, "left", &mut children, first)
                && shows_part(set, right, "right", &mut children, behind)
        }
        ReferenceFormula::Not(part) | ReferenceFormula::Named(part) => match children.next() {
            Some(CaseChild { case, .. }) => shows(set, part, &case, first),
            None => false,
        },
        ReferenceFormula::Members(members) | ReferenceFormula::Counted(_, members) => {
            shows_members(set, members, &mut children, 0, first)
        }
        ReferenceFormula::NoMore(_) => false,
    };
    is_cut && node.result() == formula.truth() && children.next().is_none()
}
