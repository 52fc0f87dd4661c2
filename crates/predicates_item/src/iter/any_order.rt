//! Makes the predicate of the members of a list in any order.
ghost use Rattle.std.specs.Prelude.{◌≡◌, ◌↔◌, ◌-◌, IfOk, Vec, codes, length, true};
ghost use Rattle.std.specs.Fmt.{debug_list};
ghost use Rattle.std.specs.Iterator.{IsFiniteIterable};
ghost use Rattle.std.specs.declared.alloc.Global.{Global};
ghost use Rattle.predicates_core.specs.Formula.{Formula};
ghost use Rattle.predicates_core.specs.Label.{value_of};
ghost use Rattle.predicates_core.specs.Leaves.{IsExactly};
ghost use Rattle.predicates_core.specs.Tree.{empty};
ghost use Rattle.predicates_item.specs.Multiset.{KeepsAscending, ascending, count_of, difference};
ghost use Rattle.predicates_item.specs.Multiset.{has_same_counts, members_of, multiset_leaf};

use crate::iter::multiset::SameMembersPredicate;
use predicates_core::Predicate;
use predicates_core::reflection::PredicateReflection;
use std::alloc::{AllocError, Global};
use std::fmt;

/// Holds of a list that has the iterator's items as its members, each as often, in whichever order.
/// The items are kept in ascending order, equal ones in the order that they came in. A case shows
/// as `missing` which of them the list lacks, and as `extra` what else it has, both in ascending
/// order. The iterator has to end. Where memory runs out, it and the items are dropped.
///
/// Making one takes memory for the items, and for sorting them. `eval` sorts references to the
/// list's members, which takes memory, unless the list has another length: then it takes none.
///
/// ```
/// let same = predicate::same_members(alloc, [3, 1, 3])?;
/// assert!(rt; same.eval(alloc, &vec![in alloc; 3, 3, 1]?)?);
/// assert!(rt; !same.eval(alloc, &vec![in alloc; 1, 3, 1]?)?);
/// ```
pub fn same_members<I: IntoIterator<Item = T>, T: fmt::Debug + Ord + Drop>(
    alloc: Global,
    iter: I,
) -> Result<SameMembersPredicate<T>, AllocError>
    requires { IsFiniteIterable I.into_iter_gives I.IntoIter.can_next I.IntoIter.remaining iter }
    ensures items { IfOk result (λ p.
        KeepsAscending I.into_iter_gives I.IntoIter.next_gives T.cmp iter (members_of p)) }
    ensures formula { IfOk result (λ p. (v : Vec T Global) (f : Formula)
        → ⟦<SameMembersPredicate<T> as Predicate<Vec<T>>>⟧.formula p v f
        ↔ IsExactly (multiset_leaf T.eq T.cmp T.debug_output (members_of p) v.items) f) }
    ensures truth { IfOk result (λ p. (v : Vec T Global)
        → has_same_counts T.eq (members_of p) v.items ≡ true
        ↔ ((value : T) → count_of T.eq (members_of p) value ≡ count_of T.eq v.items value)) }
    ensures missing { IfOk result (λ p. (v : Vec T Global) (value : T)
        → count_of T.eq (difference T.eq (members_of p) v.items) value
        ≡ count_of T.eq (members_of p) value - count_of T.eq v.items value) }
    ensures extra { IfOk result (λ p. (v : Vec T Global) (value : T)
        → count_of T.eq (difference T.eq (ascending T.cmp v.items) (members_of p)) value
        ≡ count_of T.eq v.items value - count_of T.eq (members_of p) value) }
    ensures lawful { IfOk result (λ p.
        ⟦<SameMembersPredicate<T> as Predicate<Vec<T>>>⟧.lawful p) }
    ensures infallible { IfOk result (λ p. (v : Vec T Global)
        → ⟦<SameMembersPredicate<T> as Predicate<Vec<T>>>⟧.infallible p v
        ↔ (length v.items ≡ length (members_of p) → ⊥)) }
    ensures values { IfOk result (λ p.
        ⟦<SameMembersPredicate<T> as PredicateReflection>⟧.parameters_of p
        ≡ value_of (codes "values") (debug_list T.debug_output (members_of p))) }
    ensures parts { IfOk result (λ p.
        ⟦<SameMembersPredicate<T> as PredicateReflection>⟧.children_of p ≡ empty) }
{
    let mut members = Vec::from_iter(alloc, iter)?;
    members.sort()?;
    Ok(SameMembersPredicate { members })
}
