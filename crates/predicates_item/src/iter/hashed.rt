//! Membership in a hash set.
ghost use Rattle.std.specs.Prelude.{◌≡◌, ◌↔◌, refl, codes, IfOk, None};
ghost use Rattle.std.specs.Iterator.{IsFiniteIterable};
ghost use Rattle.predicates_core.specs.Formula.{Formula};
ghost use Rattle.predicates_core.specs.Label.{value_of};
ghost use Rattle.predicates_core.specs.Leaves.{IsExactly};
ghost use Rattle.predicates_item.specs.Members.{KeepsFirst, has_equal, has_text, member_leaf};
ghost use Rattle.predicates_item.specs.Members.{member_text};
ghost use Rattle.predicates_item.specs.HashableIn.{members_of};
ghost use Rattle.predicates_core.specs.Tree.{empty};

use crate::iter::values::values;
use crate::showing::{ContentTest, ShowingPredicate};
use indexmap::IndexSet;
use predicates_core::Predicate;
use predicates_core::custom::{Test, TestParameters};
use predicates_core::reflection::{Parameter, PredicateReflection};
use std::alloc::{AllocError, Global};
use std::fmt;
use std::hash::Hash;

/// Whether an item equals one of the members, which stand in a hash set.
#[derive(Debug, Drop)]
pub struct HashableInPredicate<T: Eq + Hash> {
    members: IndexSet<T>,
}

/// Holds of an item that equals one of the iterator's items. Of equal ones the first is kept, in
/// its place, and the others are dropped. The iterator has to end. Where memory runs out, it and
/// the items are dropped.
///
/// ```
/// let distinct = predicate::in_hash(alloc, [5, 1, 3, 1])?;
/// assert!(rt; distinct.eval(alloc, &3)?);
/// assert!(rt; !distinct.eval(alloc, &4)?);
/// ```
pub fn in_hash<I: IntoIterator<Item = T>, T: fmt::Debug + Hash + Eq + Drop>(
    alloc: Global,
    iter: I,
) -> Result<ShowingPredicate<HashableInPredicate<T>>, AllocError>
    requires { IsFiniteIterable I.into_iter_gives I.IntoIter.can_next I.IntoIter.remaining iter }
    ensures first { IfOk result (λ p.
        KeepsFirst I.into_iter_gives I.IntoIter.next_gives T.eq iter (members_of p)) }
    ensures formula { IfOk result (λ p. (v : T) (f : Formula)
        → ⟦<ShowingPredicate<HashableInPredicate<T>> as Predicate<T>>⟧.formula p v f
        ↔ IsExactly (member_leaf (T.debug_output v) (has_equal T.eq (members_of p) v)) f) }
    ensures values { IfOk result (λ p.
        ⟦<ShowingPredicate<HashableInPredicate<T>> as PredicateReflection>⟧.parameters_of p
        ≡ value_of (codes "values") None) }
    ensures lawful { IfOk result (λ p.
        ⟦<ShowingPredicate<HashableInPredicate<T>> as Predicate<T>>⟧.lawful p) }
    ensures infallible { IfOk result (λ p. (v : T)
        → ⟦<ShowingPredicate<HashableInPredicate<T>> as Predicate<T>>⟧.infallible p v) }
    ensures parts { IfOk result (λ p.
        ⟦<ShowingPredicate<HashableInPredicate<T>> as PredicateReflection>⟧.children_of p ≡ empty) }
{
    let members = IndexSet::from_iter(alloc, iter)?;
    Ok(ShowingPredicate::new::<T>(HashableInPredicate { members }))
}

impl<T: Eq + Hash> fmt::Display for HashableInPredicate<T> {
    ghost output = { λ p. member_text };

    fn fmt<W: fmt::Write>(&self, f: &mut fmt::Formatter<W>) -> fmt::Result {
        write!(f, "var in values")
    }
}

impl<T: fmt::Debug + Eq + Hash> TestParameters for HashableInPredicate<T> {
    ghost parameters_of = { λ p. value_of (codes "values") None };

    fn parameters(&self, alloc: Global) -> Result<Vec<Parameter>, AllocError> {
        values(alloc, &self.members)
    }
}

impl<T: Eq + Hash> Test<T> for HashableInPredicate<T> {
    ghost holds_of = { λ p v. has_equal T.eq p.members.keys v };

    fn holds(&self, item: &T) -> bool {
        self.members.contains(item)
    }
}

impl ContentTest for HashableInPredicate<String> {
    ghost holds_of_bytes = { λ p bytes. has_text p.members.keys bytes };

    ghost reads_bytes = { λ p v. refl };
}
