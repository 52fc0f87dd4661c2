//! The part does not hold.
ghost use Rattle.std.specs.Prelude.{◌≡◌, ◌↔◌, [], codes};
ghost use Rattle.predicates_core.specs.Label.{plain};
ghost use Rattle.predicates_core.specs.Formula.{Formula, Not};
ghost use Rattle.predicates_core.specs.Parts.{part};
ghost use Rattle.predicates_core.specs.Combined.{not_text, IsNot};
ghost use Rattle.predicates_core.proofs.CombinedLemmas.{not_text_fits, one_not, has_not};

use predicates_core::custom::{not_case, not_change, not_explained, one_child};
use predicates_core::reflection::{Case, Child, Parameter, PredicateReflection};
use predicates_core::{Content, Predicate, PredicateChange, ReadsContent, Total};
use std::alloc::{AllocError, Global};
use std::fmt;
use std::marker::PhantomData;

/// The part does not hold. Made by `PredicateBooleanExt::not`.
#[derive(Debug, Clone, Copy, PartialEq, Eq, Drop)]
pub struct NotPredicate<M, Item> {
    inner: M,
    item: PhantomData<Item>,
}

impl<M: Predicate<Item>, Item> NotPredicate<M, Item> {
    ghost use Rattle.predicates_boolean.specs.Not.{inner_of};

    /// Holds where `inner` does not, as `PredicateBooleanExt::not`.
    pub fn new(inner: M) -> NotPredicate<M, Item>
        ensures inner { inner_of result ≡ inner }
        ensures formula { (v : Item) (f : Formula)
            → ⟦<NotPredicate<M, Item> as Predicate<Item>>⟧.formula result v f
            ↔ IsNot (not_text (M.output inner)) (M.formula inner v) f }
        ensures lawful { ⟦<NotPredicate<M, Item> as Predicate<Item>>⟧.lawful result
            ↔ M.lawful inner }
        ensures infallible { (v : Item)
            → ⟦<NotPredicate<M, Item> as Predicate<Item>>⟧.infallible result v
            ↔ M.infallible inner v }
        ensures values { ⟦<NotPredicate<M, Item> as PredicateReflection>⟧.parameters_of result
            ≡ [] }
        ensures parts { ⟦<NotPredicate<M, Item> as PredicateReflection>⟧.children_of result
            ≡ part (codes "predicate") (M.output inner) (M.parameters_of inner)
            (M.children_of inner) }
    {
        NotPredicate {
            inner,
            item: PhantomData,
        }
    }
}

impl<M: fmt::Display, Item> fmt::Display for NotPredicate<M, Item> {
    ghost output = { λ p. not_text (M.output p.inner) };

    fn fmt<W: fmt::Write>(&self, f: &mut fmt::Formatter<W>) -> fmt::Result {
        let inner = &self.inner;
        write!(f, "(! {inner})")
    }
}

impl<M: PredicateReflection, Item> PredicateReflection for NotPredicate<M, Item> {
    ghost parameters_of = { λ p. [] };

    ghost children_of = { λ p. part
        (codes "predicate") (M.output p.inner) (M.parameters_of p.inner) (M.children_of p.inner) };

    fn parameters(&self, alloc: Global) -> Result<Vec<Parameter>, AllocError> {
        Ok(Vec::new(alloc))
    }

    fn children(&self, alloc: Global) -> Result<Vec<Child>, AllocError> {
        one_child(alloc, "predicate", &self.inner)
    }
}

impl<M: Predicate<Item>, Item> Predicate<Item> for NotPredicate<M, Item> {
    ghost lawful = { λ p. M.lawful p.inner };

    ghost formula = { λ p v. IsNot (not_text (M.output p.inner)) (M.formula p.inner v) };

    ghost infallible = { λ p v. M.infallible p.inner v };

    ghost text_fits = { λ p v f. not_text_fits };

    ghost one_formula = { λ p v f g lawful. one_not (λ x y. M.one_formula p.inner v x y lawful) };

    #[tactic(auto, using(predicates_core::proofs::CombinedLemmas::combined))]
    fn eval(&self, alloc: Global, item: &Item) -> Result<bool, AllocError> {
        Ok(!self.inner.eval(alloc, item)?)
    }

    fn find_case(
        &self,
        alloc: Global,
        expected: bool,
        item: &Item,
    ) -> Result<Option<Case>, AllocError> {
        not_case(alloc, self, &self.inner, expected, item)
    }

    fn explain(
        &self,
        alloc: Global,
        wanted: Option<bool>,
        item: &Item,
    ) -> Result<Option<Case>, AllocError> {
        not_explained(alloc, self, &self.inner, wanted, item)
    }
}

impl<M: PredicateChange<Item>, Item> PredicateChange<Item> for NotPredicate<M, Item> {
    fn find_change(
        &self,
        alloc: Global,
        wanted: Option<bool>,
        item: &Item,
    ) -> Result<Option<Case>, AllocError> {
        not_change(alloc, self, &self.inner, wanted, item)
    }
}

impl<M: Total<Item>, Item> Total<Item> for NotPredicate<M, Item> {
    ghost formula_of = { λ p v.
        Not (plain (not_text (M.output p.inner))) (M.formula_of p.inner v) };

    ghost always_lawful = { λ p. M.always_lawful p.inner };

    ghost has_formula = { λ p v. has_not (M.has_formula p.inner v) };
}

impl<M: ReadsContent<Item>, Item: Content> ReadsContent<Item> for NotPredicate<M, Item> {
    ghost content_formula = { λ p bytes. Not (plain (not_text (M.output p.inner)))
        (M.content_formula p.inner bytes) };

    ghost always_lawful = { λ p. M.always_lawful p.inner };

    ghost has_formula = { λ p v. has_not (M.has_formula p.inner v) };
}
