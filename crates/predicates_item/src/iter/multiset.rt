//! Equality with a list whose order does not matter.
ghost use Rattle.std.specs.List.Sorted.{IsSorted};

use crate::iter::differences::{Differences, printed_list};
use crate::iter::values::values;
use predicates_core::custom::{is_other, leaf_change};
use predicates_core::node::{leaf_node, printed, showing};
use predicates_core::reflection::{Case, Child, Parameter, PredicateReflection};
use predicates_core::{Predicate, PredicateChange, Total};
use std::alloc::{AllocError, Global};
use std::fmt;

/// Holds of a list that has the same members, each as often, in whichever order. Made by
/// `same_members`.
#[derive(Debug, PartialEq, Eq, Drop)]
pub struct SameMembersPredicate<T: Ord> {
    pub(crate) members: Vec<T>,
    ghost sorted: { IsSorted T.cmp members.items },
}

impl<T: Ord> SameMembersPredicate<T> {
    ghost use Rattle.std.specs.Prelude.{◌≡◌, IfOk, IsOk, length};
    ghost use Rattle.predicates_item.specs.Multiset.{has_same_counts, members_of};

    // Whether the list has the same members. Where its length differs, this takes no memory.
    fn holds(&self, alloc: Global, list: &[T]) -> Result<bool, AllocError>
        ensures truth { IfOk result (λ holds.
            holds ≡ has_same_counts T.eq (members_of self.now) list.now) }
        ensures infallible { (length list.now ≡ length (members_of self.now) → ⊥) → IsOk result }
    {
        if list.len() != self.members.len() {
            return Ok(false);
        }
        let found = Differences::between(alloc, self.members.as_slice(), list)?;
        Ok(found.are_none())
    }
}

impl<T: Ord> fmt::Display for SameMembersPredicate<T> {
    ghost use Rattle.predicates_item.specs.Multiset.{multiset_text};

    ghost output = { λ p. multiset_text };

    fn fmt<W: fmt::Write>(&self, f: &mut fmt::Formatter<W>) -> fmt::Result {
        write!(f, "var == values in any order")
    }
}

impl<T: fmt::Debug + Ord> PredicateReflection for SameMembersPredicate<T> {
    ghost use Rattle.std.specs.Prelude.{codes};
    ghost use Rattle.std.specs.Fmt.{debug_list};
    ghost use Rattle.predicates_core.specs.Label.{value_of};
    ghost use Rattle.predicates_core.specs.Tree.{empty};

    ghost parameters_of = { λ p. value_of (codes "values")
        (debug_list T.debug_output p.members.items) };

    ghost children_of = { λ p. empty };

    fn parameters(&self, alloc: Global) -> Result<Vec<Parameter>, AllocError> {
        values(alloc, &self.members)
    }

    fn children(&self, alloc: Global) -> Result<Vec<Child>, AllocError> {
        Ok(Vec::new(alloc))
    }
}

impl<T: fmt::Debug + Ord> Predicate<Vec<T>> for SameMembersPredicate<T> {
    ghost use Rattle.std.specs.Prelude.{◌≡◌, length};
    ghost use Rattle.predicates_core.specs.Leaves.{IsExactly};
    ghost use Rattle.predicates_core.specs.LeafLaws.{exactly_text_fits, one_exactly};
    ghost use Rattle.predicates_item.specs.Multiset.{multiset_leaf};

    ghost formula = { λ p v. IsExactly
        (multiset_leaf T.eq T.cmp T.debug_output p.members.items v.items) };

    ghost infallible = { λ p v. length v.items ≡ length p.members.items → ⊥ };

    ghost text_fits = { λ p v f. exactly_text_fits };

    ghost one_formula = { λ p v f g lawful. one_exactly };

    #[tactic(auto, using(predicates_core::proofs::Leaves::leaves))]
    fn eval(&self, alloc: Global, item: &Vec<T>) -> Result<bool, AllocError> {
        self.holds(alloc, item.as_slice())
    }

    fn find_case(
        &self,
        alloc: Global,
        expected: bool,
        item: &Vec<T>,
    ) -> Result<Option<Case>, AllocError> {
        self.explain(alloc, Some(expected), item)
    }

    fn explain(
        &self,
        alloc: Global,
        wanted: Option<bool>,
        item: &Vec<T>,
    ) -> Result<Option<Case>, AllocError> {
        let found = Differences::between(alloc, self.members.as_slice(), item.as_slice())?;
        let holds = found.are_none();
        if is_other(wanted, holds) {
            return Ok(None);
        }
        let case = leaf_node(alloc, printed(alloc, self)?, holds);
        let missing = printed_list(alloc, found.missing.as_slice())?;
        let case = showing(case, "missing", missing)?;
        let extra = printed_list(alloc, found.extra.as_slice())?;
        Ok(Some(showing(case, "extra", extra)?))
    }
}

impl<T: fmt::Debug + Ord> PredicateChange<Vec<T>> for SameMembersPredicate<T> {
    fn find_change(
        &self,
        alloc: Global,
        wanted: Option<bool>,
        item: &Vec<T>,
    ) -> Result<Option<Case>, AllocError> {
        leaf_change(alloc, self, wanted, item)
    }
}

impl<T: fmt::Debug + Ord> Total<Vec<T>> for SameMembersPredicate<T> {
    ghost use Rattle.std.specs.Prelude.{refl};
    ghost use Rattle.predicates_item.specs.Multiset.{multiset_leaf};

    ghost formula_of = { λ p v. multiset_leaf T.eq T.cmp T.debug_output p.members.items v.items };

    ghost always_lawful = { λ p. tt };

    ghost has_formula = { λ p v. record { is = refl } };
}
