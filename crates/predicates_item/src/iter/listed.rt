//! Membership in a list.
ghost use Rattle.std.specs.Prelude.{◌≡◌, ◌↔◌, refl, codes, IfOk};
ghost use Rattle.std.specs.Fmt.{debug_list};
ghost use Rattle.std.specs.Iterator.{IsFiniteIterable};
ghost use Rattle.std.specs.List.Sorted.{IsPermutation, IsSorted};
ghost use Rattle.predicates_core.specs.Formula.{Formula};
ghost use Rattle.predicates_core.specs.Label.{value_of};
ghost use Rattle.predicates_core.specs.Leaves.{IsExactly};
ghost use Rattle.predicates_item.specs.Members.{GivesItems, HasSameMembers, has_equal, has_text};
ghost use Rattle.predicates_item.specs.Members.{member_leaf, member_text};
ghost use Rattle.predicates_item.specs.In.{members_of};
ghost use Rattle.predicates_item.specs.OrdIn as OrdIn;
ghost use Rattle.predicates_core.specs.Tree.{empty};

use crate::iter::sorted::OrdInPredicate;
use crate::iter::values::values;
use crate::showing::{ContentTest, ShowingPredicate};
use predicates_core::Predicate;
use predicates_core::custom::{Test, TestParameters};
use predicates_core::reflection::{Parameter, PredicateReflection};
use std::alloc::{AllocError, Global};
use std::fmt;

/// Whether an item equals one of the members, which are compared one by one.
#[derive(Debug, PartialEq, Eq, Drop)]
pub struct InPredicate<T> {
    members: Vec<T>,
}

/// Holds of an item that equals one of the iterator's items. All of them are kept, in order. The
/// iterator has to end. Where memory runs out, it and the items are dropped.
///
/// ```
/// let few = predicate::in_iter(alloc, [5, 1, 3])?;
/// assert!(rt; few.eval(alloc, &3)?);
/// assert!(rt; !few.eval(alloc, &4)?);
/// ```
pub fn in_iter<I: IntoIterator<Item = T>, T: fmt::Debug + PartialEq + Drop>(
    alloc: Global,
    iter: I,
) -> Result<ShowingPredicate<InPredicate<T>>, AllocError>
    requires { IsFiniteIterable I.into_iter_gives I.IntoIter.can_next I.IntoIter.remaining iter }
    ensures items { IfOk result (λ p.
        GivesItems I.into_iter_gives I.IntoIter.next_gives iter (members_of p)) }
    ensures formula { IfOk result (λ p. (v : T) (f : Formula)
        → ⟦<ShowingPredicate<InPredicate<T>> as Predicate<T>>⟧.formula p v f
        ↔ IsExactly (member_leaf (T.debug_output v) (has_equal T.eq (members_of p) v)) f) }
    ensures values { IfOk result (λ p.
        ⟦<ShowingPredicate<InPredicate<T>> as PredicateReflection>⟧.parameters_of p
        ≡ value_of (codes "values") (debug_list T.debug_output (members_of p))) }
    ensures lawful { IfOk result (λ p.
        ⟦<ShowingPredicate<InPredicate<T>> as Predicate<T>>⟧.lawful p) }
    ensures infallible { IfOk result (λ p. (v : T)
        → ⟦<ShowingPredicate<InPredicate<T>> as Predicate<T>>⟧.infallible p v) }
    ensures parts { IfOk result (λ p.
        ⟦<ShowingPredicate<InPredicate<T>> as PredicateReflection>⟧.children_of p ≡ empty) }
{
    let members = Vec::from_iter(alloc, iter)?;
    Ok(ShowingPredicate::new::<T>(InPredicate { members }))
}

impl<T: fmt::Debug + Ord> ShowingPredicate<InPredicate<T>> {
    /// The predicate of the same members in ascending order, each as often as before, which finds
    /// an item by binary search. Sorting takes memory; where it runs out, the members are dropped.
    ///
    /// ```
    /// let sorted = predicate::in_iter(alloc, [5, 1, 3])?.sort()?;
    /// assert!(rt; sorted.eval(alloc, &3)?);
    /// assert!(rt; !sorted.eval(alloc, &4)?);
    /// ```
    #[tactic(auto, using(crate::proofs::Memberships::same_rearranged))]
    pub fn sort(self) -> Result<ShowingPredicate<OrdInPredicate<T>>, AllocError>
    where
        T: Drop,
        ensures rearranged { IfOk result (λ p.
            IsPermutation (members_of self) (OrdIn.members_of p)) }
        ensures sorted { IfOk result (λ p. IsSorted T.cmp (OrdIn.members_of p)) }
        ensures same { IfOk result (λ p.
            HasSameMembers T.eq (OrdIn.members_of p) (members_of self)) }
        ensures formula { IfOk result (λ p. (v : T) (f : Formula)
            → ⟦<ShowingPredicate<OrdInPredicate<T>> as Predicate<T>>⟧.formula p v f
            ↔ IsExactly
            (member_leaf (T.debug_output v) (has_equal T.eq (OrdIn.members_of p) v)) f) }
        ensures values { IfOk result (λ p.
            ⟦<ShowingPredicate<OrdInPredicate<T>> as PredicateReflection>⟧.parameters_of p
            ≡ value_of (codes "values") (debug_list T.debug_output (OrdIn.members_of p))) }
        ensures lawful { IfOk result (λ p.
            ⟦<ShowingPredicate<OrdInPredicate<T>> as Predicate<T>>⟧.lawful p) }
        ensures infallible { IfOk result (λ p. (v : T)
            → ⟦<ShowingPredicate<OrdInPredicate<T>> as Predicate<T>>⟧.infallible p v) }
        ensures parts { IfOk result (λ p.
            ⟦<ShowingPredicate<OrdInPredicate<T>> as PredicateReflection>⟧.children_of p ≡ empty) }
    {
        let InPredicate { mut members } = self.test;
        members.sort()?;
        Ok(ShowingPredicate::new::<T>(OrdInPredicate { members }))
    }
}

impl<T> fmt::Display for InPredicate<T> {
    ghost output = { λ p. member_text };

    fn fmt<W: fmt::Write>(&self, f: &mut fmt::Formatter<W>) -> fmt::Result {
        write!(f, "var in values")
    }
}

impl<T: fmt::Debug> TestParameters for InPredicate<T> {
    ghost parameters_of = { λ p. value_of (codes "values")
        (debug_list T.debug_output p.members.items) };

    fn parameters(&self, alloc: Global) -> Result<Vec<Parameter>, AllocError> {
        values(alloc, &self.members)
    }
}

impl<T: PartialEq> Test<T> for InPredicate<T> {
    ghost holds_of = { λ p v. has_equal T.eq p.members.items v };

    // This loop takes half the time of `contains` of std.
    fn holds(&self, item: &T) -> bool {
        for member in &self.members {
            if member == item {
                return true;
            }
        }
        false
    }
}

impl ContentTest for InPredicate<String> {
    ghost holds_of_bytes = { λ p bytes. has_text p.members.items bytes };

    ghost reads_bytes = { λ p v. refl };
}
