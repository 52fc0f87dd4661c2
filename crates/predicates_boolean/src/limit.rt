//! At most so many hold.
ghost use Rattle.std.specs.Prelude.{◌≡◌, ◌↔◌, ℕ, List, [], Option, codes};
ghost use Rattle.std.specs.Fmt.{DisplaysOnOk};
ghost use Rattle.predicates_core.specs.Label.{plain};
ghost use Rattle.predicates_core.specs.Formula.{Formula, Not};
ghost use Rattle.predicates_core.specs.Parts.{part};
ghost use Rattle.predicates_core.specs.Combined.{IsNot};
ghost use Rattle.predicates_core.proofs.CombinedLemmas.{not_text_fits, one_not, has_not};

use predicates_core::custom::{not_case, not_change, not_explained, one_child};
use predicates_core::reflection::{Case, Child, Parameter, PredicateReflection};
use predicates_core::{Content, Predicate, PredicateChange, ReadsContent, Total};
use std::alloc::{AllocError, Global};
use std::fmt;
use std::marker::PhantomData;

/// A predicate that holds where at least so many of several do, and also prints the opposite of one
/// more.
pub trait Threshold: fmt::Display {
    // What is printed where at most so many hold.
    ghost most_text: { Self → ℕ → Option (List ℕ) };

    /// Writes what is printed where at most so many hold, as `at_most(2, ..)`.
    fn fmt_at_most<W: fmt::Write>(&self, most: usize, f: &mut fmt::Formatter<W>) -> fmt::Result
        ensures { DisplaysOnOk W.write_str_gives f.old result (most_text self.now most) f.new };
}

/// Holds where its threshold does not, and prints as `at_most` of the limit. Made by `at_most` and
/// `of_at_most`.
#[derive(Debug, Clone, Copy, PartialEq, Eq, Drop)]
pub struct LimitPredicate<T, Item> {
    limit: usize,
    threshold: T,
    item: PhantomData<Item>,
}

impl<T: Threshold + Predicate<Item>, Item> LimitPredicate<T, Item> {
    ghost use Rattle.predicates_boolean.specs.Limit.{limit_of, threshold_of};

    /// Holds where the threshold does not, which wants one more than the limit.
    pub fn new(limit: usize, threshold: T) -> LimitPredicate<T, Item>
        ensures limit { limit_of result ≡ limit }
        ensures threshold { threshold_of result ≡ threshold }
        ensures formula { (v : Item) (f : Formula)
            → ⟦<LimitPredicate<T, Item> as Predicate<Item>>⟧.formula result v f
            ↔ IsNot (T.most_text threshold limit) (T.formula threshold v) f }
        ensures lawful { ⟦<LimitPredicate<T, Item> as Predicate<Item>>⟧.lawful result
            ↔ T.lawful threshold }
        ensures infallible { (v : Item)
            → ⟦<LimitPredicate<T, Item> as Predicate<Item>>⟧.infallible result v
            ↔ T.infallible threshold v }
        ensures values { ⟦<LimitPredicate<T, Item> as PredicateReflection>⟧.parameters_of result
            ≡ [] }
        ensures parts { ⟦<LimitPredicate<T, Item> as PredicateReflection>⟧.children_of result
            ≡ part (codes "predicate") (T.output threshold) (T.parameters_of threshold)
            (T.children_of threshold) }
    {
        LimitPredicate {
            limit,
            threshold,
            item: PhantomData,
        }
    }
}

impl<T: Threshold, Item> fmt::Display for LimitPredicate<T, Item> {
    ghost output = { λ p. T.most_text p.threshold p.limit };

    fn fmt<W: fmt::Write>(&self, f: &mut fmt::Formatter<W>) -> fmt::Result {
        self.threshold.fmt_at_most(self.limit, f)
    }
}

impl<T: Threshold + PredicateReflection, Item> PredicateReflection for LimitPredicate<T, Item> {
    ghost parameters_of = { λ p. [] };

    ghost children_of = { λ p. part (codes "predicate") (T.output p.threshold)
        (T.parameters_of p.threshold) (T.children_of p.threshold) };

    fn parameters(&self, alloc: Global) -> Result<Vec<Parameter>, AllocError> {
        Ok(Vec::new(alloc))
    }

    fn children(&self, alloc: Global) -> Result<Vec<Child>, AllocError> {
        one_child(alloc, "predicate", &self.threshold)
    }
}

impl<T: Threshold + Predicate<Item>, Item> Predicate<Item> for LimitPredicate<T, Item> {
    ghost lawful = { λ p. T.lawful p.threshold };

    ghost formula = { λ p v. IsNot (T.most_text p.threshold p.limit) (T.formula p.threshold v) };

    ghost infallible = { λ p v. T.infallible p.threshold v };

    ghost text_fits = { λ p v f. not_text_fits };

    ghost one_formula = { λ p v f g lawful.
        one_not (λ x y. T.one_formula p.threshold v x y lawful) };

    #[tactic(auto, using(predicates_core::proofs::CombinedLemmas::combined))]
    fn eval(&self, alloc: Global, item: &Item) -> Result<bool, AllocError> {
        Ok(!self.threshold.eval(alloc, item)?)
    }

    fn find_case(
        &self,
        alloc: Global,
        expected: bool,
        item: &Item,
    ) -> Result<Option<Case>, AllocError> {
        not_case(alloc, self, &self.threshold, expected, item)
    }

    fn explain(
        &self,
        alloc: Global,
        wanted: Option<bool>,
        item: &Item,
    ) -> Result<Option<Case>, AllocError> {
        not_explained(alloc, self, &self.threshold, wanted, item)
    }
}

impl<T: Threshold + PredicateChange<Item>, Item> PredicateChange<Item> for LimitPredicate<T, Item> {
    fn find_change(
        &self,
        alloc: Global,
        wanted: Option<bool>,
        item: &Item,
    ) -> Result<Option<Case>, AllocError> {
        not_change(alloc, self, &self.threshold, wanted, item)
    }
}

impl<T: Threshold + Total<Item>, Item> Total<Item> for LimitPredicate<T, Item> {
    ghost formula_of = { λ p v.
        Not (plain (T.most_text p.threshold p.limit)) (T.formula_of p.threshold v) };

    ghost always_lawful = { λ p. T.always_lawful p.threshold };

    ghost has_formula = { λ p v. has_not (T.has_formula p.threshold v) };
}

impl<T: Threshold + ReadsContent<Item>, Item: Content> ReadsContent<Item>
    for LimitPredicate<T, Item> {
    ghost content_formula = { λ p bytes. Not (plain (T.most_text p.threshold p.limit))
        (T.content_formula p.threshold bytes) };

    ghost always_lawful = { λ p. T.always_lawful p.threshold };

    ghost has_formula = { λ p v. has_not (T.has_formula p.threshold v) };
}
