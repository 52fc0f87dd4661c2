//! Membership in a sorted list.
ghost use Rattle.std.specs.Prelude.{◌≡◌, ◌≤◌, codes, length, refl};
ghost use Rattle.std.specs.Fmt.{debug_list};
ghost use Rattle.std.specs.List.Sorted.{IsSorted};
ghost use Rattle.predicates_core.specs.Label.{value_of};
ghost use Rattle.predicates_item.specs.Digits.{digits};
ghost use Rattle.predicates_item.specs.Members.{has_equal, has_text, member_text};

use crate::iter::steps::Steps;
use crate::iter::values::values;
use crate::showing::{ContentTest, ShowingPredicate};
use predicates_core::custom::{Test, TestParameters};
use predicates_core::reflection::Parameter;
use std::alloc::{AllocError, Global};
use std::fmt;

/// Whether an item equals one of the members, which are kept in ascending order and found by binary
/// search.
#[derive(Debug, PartialEq, Eq, Drop)]
pub struct OrdInPredicate<T: Ord> {
    pub(crate) members: Vec<T>,
    ghost sorted: { IsSorted T.cmp members.items },
}

impl<T: Ord> ShowingPredicate<OrdInPredicate<T>> {
    ghost use Rattle.predicates_item.specs.OrdIn.{members_of};

    /// Whether some member equals the item. Afterwards `steps` is the number of comparisons of
    /// this call, which is at most the number of binary digits of the number of members. It takes
    /// no memory.
    ///
    /// ```
    /// let sorted = predicate::in_iter(alloc, [5, 1, 3])?.sort()?;
    /// let mut steps = Steps::new();
    /// assert!(rt; sorted.search_counted(&3, &mut steps));
    /// assert!(rt; steps.count() <= 2);
    /// ```
    pub fn search_counted(&self, item: &T, steps: &mut Steps) -> bool
        ensures member { result ≡ has_equal T.eq (members_of self.now) item.now }
        ensures bound { steps.new ≤ digits (length (members_of self.now)) }
    {
        self.test.search_counted(item, steps)
    }
}

impl<T: Ord> OrdInPredicate<T> {
    // The `search_counted` of the predicate.
    fn search_counted(&self, item: &T, steps: &mut Steps) -> bool
        ensures member { result ≡ has_equal T.eq self.now.members.items item.now }
        ensures bound { steps.new ≤ digits (length self.now.members.items) }
    {
        steps.clear();
        // The `left` members from `base` on are undecided, and `found` is the end of the members
        // up to an equal one, or 0. It is no `bool`, since the compiler would then branch on each
        // comparison, which no processor predicts.
        let members = self.members.as_slice();
        let mut base = 0;
        let mut left = members.len();
        let mut found = 0;
        while left > 0 {
            let half = (left + 1) / 2;
            let end = base + half;
            let order = members[end - 1].cmp(item);
            steps.add_one();
            if order.is_eq() {
                found = end;
            }
            if order.is_lt() {
                base = end;
            }
            left -= half;
        }
        found > 0
    }
}

impl<T: Ord> fmt::Display for OrdInPredicate<T> {
    ghost output = { λ p. member_text };

    fn fmt<W: fmt::Write>(&self, f: &mut fmt::Formatter<W>) -> fmt::Result {
        write!(f, "var in values")
    }
}

impl<T: fmt::Debug + Ord> TestParameters for OrdInPredicate<T> {
    ghost parameters_of = { λ p. value_of (codes "values")
        (debug_list T.debug_output p.members.items) };

    fn parameters(&self, alloc: Global) -> Result<Vec<Parameter>, AllocError> {
        values(alloc, &self.members)
    }
}

impl<T: Ord> Test<T> for OrdInPredicate<T> {
    ghost holds_of = { λ p v. has_equal T.eq p.members.items v };

    fn holds(&self, item: &T) -> bool {
        self.search_counted(item, &mut Steps::new())
    }
}

impl ContentTest for OrdInPredicate<String> {
    ghost holds_of_bytes = { λ p bytes. has_text p.members.items bytes };

    ghost reads_bytes = { λ p v. refl };
}
