//! How each of a list is asked: several predicates about one item, or one predicate about several.
ghost use Rattle.std.specs.Prelude.{◌≡◌, Bool, true, false, IfOk, IsOk};
ghost use Rattle.predicates_core.specs.Formula.{Formula, HasTruth};
ghost use Rattle.predicates_core.specs.Shows.{IsFoundBy};
ghost use Rattle.predicates_core.specs.Tally.{kind_of};

use crate::reflection::Case;
use crate::{Predicate, PredicateChange};
use std::alloc::{AllocError, Global};

// What is sought of the whole, and so of its members.
pub(super) trait Seeks {
    // Whether it is what would turn the verdict.
    ghost turns: { Bool };

    fn turns() -> bool
        ensures { result ≡ turns };
}

// What the verdict comes from.
pub(super) struct Reasons;

// What would turn it.
pub(super) struct Changes;

impl Seeks for Reasons {
    ghost turns = { false };

    fn turns() -> bool {
        false
    }
}

impl Seeks for Changes {
    ghost turns = { true };

    fn turns() -> bool {
        true
    }
}

// How a member of a list is asked for its verdict, by what all of them have in common.
pub(super) trait Ask<Common, Member> {
    ghost lawful_of: { Common → Member → Type 0 };

    ghost formula_of: { Common → Member → Formula → Type 0 };

    ghost infallible_of: { Common → Member → Type 0 };

    fn eval(alloc: Global, common: &Common, member: &Member) -> Result<bool, AllocError>
        requires { lawful_of common.now member.now }
        ensures truth { IfOk result (HasTruth (formula_of common.now member.now)) }
        ensures infallible { infallible_of common.now member.now → IsOk result };
}

// The same, for what is sought.
pub(super) trait AskFor<K: Seeks, Common, Member>: Ask<Common, Member> {
    fn find(
        alloc: Global,
        common: &Common,
        wanted: Option<bool>,
        member: &Member,
    ) -> Result<Option<Case>, AllocError>
        requires { Self.lawful_of common.now member.now }
        ensures { IfOk result
            (IsFoundBy (kind_of K.turns) (Self.formula_of common.now member.now) wanted) };
}

// Each member is a predicate, and is asked about the one item.
pub(super) struct OfItem;

// Each member is an item, and the one predicate is asked about it.
pub(super) struct ByPredicate;

impl<P: Predicate<Item>, Item> Ask<Item, P> for OfItem {
    ghost lawful_of = { λ item p. P.lawful p };

    ghost formula_of = { λ item p. P.formula p item };

    ghost infallible_of = { λ item p. P.infallible p item };

    fn eval(alloc: Global, item: &Item, part: &P) -> Result<bool, AllocError> {
        part.eval(alloc, item)
    }
}

impl<P: Predicate<Item>, Item> AskFor<Reasons, Item, P> for OfItem {
    fn find(
        alloc: Global,
        item: &Item,
        wanted: Option<bool>,
        part: &P,
    ) -> Result<Option<Case>, AllocError> {
        part.explain(alloc, wanted, item)
    }
}

impl<P: PredicateChange<Item>, Item> AskFor<Changes, Item, P> for OfItem {
    fn find(
        alloc: Global,
        item: &Item,
        wanted: Option<bool>,
        part: &P,
    ) -> Result<Option<Case>, AllocError> {
        part.find_change(alloc, wanted, item)
    }
}

impl<P: Predicate<Item>, Item> Ask<P, Item> for ByPredicate {
    ghost lawful_of = { λ p item. P.lawful p };

    ghost formula_of = { λ p item. P.formula p item };

    ghost infallible_of = { λ p item. P.infallible p item };

    fn eval(alloc: Global, part: &P, member: &Item) -> Result<bool, AllocError> {
        part.eval(alloc, member)
    }
}

impl<P: Predicate<Item>, Item> AskFor<Reasons, P, Item> for ByPredicate {
    fn find(
        alloc: Global,
        part: &P,
        wanted: Option<bool>,
        member: &Item,
    ) -> Result<Option<Case>, AllocError> {
        part.explain(alloc, wanted, member)
    }
}

impl<P: PredicateChange<Item>, Item> AskFor<Changes, P, Item> for ByPredicate {
    fn find(
        alloc: Global,
        part: &P,
        wanted: Option<bool>,
        member: &Item,
    ) -> Result<Option<Case>, AllocError> {
        part.find_change(alloc, wanted, member)
    }
}
