//! Predicates under a name.
//!
//! ```
//! let blank = predicate::str::is_empty().trim().name("blank");
//! ```
ghost use Rattle.std.specs.Prelude.{◌≡◌, ◌↔◌, [], Some};
ghost use Rattle.predicates_core.specs.Label.{plain};
ghost use Rattle.predicates_core.specs.Formula.{Formula, Named};
ghost use Rattle.predicates_core.specs.Parts.{part};
ghost use Rattle.predicates_core.specs.Combined.{IsNamed};
ghost use Rattle.predicates_core.specs.Name.{inner_of, name_of};
ghost use Rattle.predicates_core.specs.NameLaws.{named_text_fits, one_named, has_named};

use crate::as_static_str::AsStaticStr;
use crate::custom::{named_case, named_change, named_explained, one_child};
use crate::reflection::{Case, Child, Parameter, PredicateReflection};
use crate::{Content, Predicate, PredicateChange, ReadsContent, Total};
use std::alloc::{AllocError, Global};
use std::fmt;
use std::marker::PhantomData;

/// Holds where its part does, and prints a name in place of its part's text. Made by
/// `PredicateNameExt::name`.
#[derive(Debug, Clone, Copy, PartialEq, Eq, Drop)]
pub struct NamePredicate<M, Item, N = &'static str> {
    inner: M,
    item: PhantomData<Item>,
    name: N,
}

impl<M: Predicate<Item>, Item, N: AsStaticStr> NamePredicate<M, Item, N> {
    /// The predicate under the name.
    pub fn new(inner: M, name: N) -> NamePredicate<M, Item, N>
        ensures inner { inner_of result ≡ inner }
        ensures name { name_of result ≡ name }
        ensures formula { (v : Item) (f : Formula)
            → ⟦<NamePredicate<M, Item, N> as Predicate<Item>>⟧.formula result v f
            ↔ IsNamed (N.bytes name) (M.formula inner v) f }
        ensures lawful { ⟦<NamePredicate<M, Item, N> as Predicate<Item>>⟧.lawful result
            ↔ M.lawful inner }
        ensures infallible { (v : Item)
            → ⟦<NamePredicate<M, Item, N> as Predicate<Item>>⟧.infallible result v
            ↔ M.infallible inner v }
        ensures values { ⟦<NamePredicate<M, Item, N> as PredicateReflection>⟧.parameters_of result
            ≡ [] }
        ensures parts { ⟦<NamePredicate<M, Item, N> as PredicateReflection>⟧.children_of result
            ≡ part (N.bytes name) (M.output inner) (M.parameters_of inner)
            (M.children_of inner) }
    {
        NamePredicate {
            inner,
            item: PhantomData,
            name,
        }
    }
}

impl<M: fmt::Display, Item, N: AsStaticStr> fmt::Display for NamePredicate<M, Item, N> {
    ghost output = { λ p. Some (N.bytes p.name) };

    fn fmt<W: fmt::Write>(&self, f: &mut fmt::Formatter<W>) -> fmt::Result {
        let name = self.name.text();
        write!(f, "{name}")
    }
}

impl<M: PredicateReflection, Item, N: AsStaticStr> PredicateReflection
    for NamePredicate<M, Item, N> {
    ghost parameters_of = { λ p. [] };

    ghost children_of = { λ p. part
        (N.bytes p.name) (M.output p.inner) (M.parameters_of p.inner) (M.children_of p.inner) };

    fn parameters(&self, alloc: Global) -> Result<Vec<Parameter>, AllocError> {
        Ok(Vec::new(alloc))
    }

    fn children(&self, alloc: Global) -> Result<Vec<Child>, AllocError> {
        one_child(alloc, self.name.text(), &self.inner)
    }
}

impl<M: Predicate<Item>, Item, N: AsStaticStr> Predicate<Item> for NamePredicate<M, Item, N> {
    ghost lawful = { λ p. M.lawful p.inner };

    ghost formula = { λ p v. IsNamed (N.bytes p.name) (M.formula p.inner v) };

    ghost infallible = { λ p v. M.infallible p.inner v };

    ghost text_fits = { λ p v f. named_text_fits };

    ghost one_formula = { λ p v f g lawful. one_named (λ x y. M.one_formula p.inner v x y lawful) };

    #[tactic(auto, using(crate::proofs::CombinedLemmas::combined))]
    fn eval(&self, alloc: Global, item: &Item) -> Result<bool, AllocError> {
        self.inner.eval(alloc, item)
    }

    fn find_case(
        &self,
        alloc: Global,
        expected: bool,
        item: &Item,
    ) -> Result<Option<Case>, AllocError> {
        named_case(alloc, self.name.text(), &self.inner, expected, item)
    }

    fn explain(
        &self,
        alloc: Global,
        wanted: Option<bool>,
        item: &Item,
    ) -> Result<Option<Case>, AllocError> {
        named_explained(alloc, self.name.text(), &self.inner, wanted, item)
    }
}

impl<M: PredicateChange<Item>, Item, N: AsStaticStr> PredicateChange<Item>
    for NamePredicate<M, Item, N> {
    fn find_change(
        &self,
        alloc: Global,
        wanted: Option<bool>,
        item: &Item,
    ) -> Result<Option<Case>, AllocError> {
        named_change(alloc, self.name.text(), &self.inner, wanted, item)
    }
}

impl<M: Total<Item>, Item, N: AsStaticStr> Total<Item> for NamePredicate<M, Item, N> {
    ghost formula_of = { λ p v. Named
        (plain (Some (N.bytes p.name)))
        (N.bytes p.name)
        (M.formula_of p.inner v) };

    ghost always_lawful = { λ p. M.always_lawful p.inner };

    ghost has_formula = { λ p v. has_named (M.has_formula p.inner v) };
}

impl<M: ReadsContent<Item>, Item: Content, N: AsStaticStr> ReadsContent<Item>
    for NamePredicate<M, Item, N> {
    ghost content_formula = { λ p bytes. Named
        (plain (Some (N.bytes p.name)))
        (N.bytes p.name)
        (M.content_formula p.inner bytes) };

    ghost always_lawful = { λ p. M.always_lawful p.inner };

    ghost has_formula = { λ p v. has_named (M.has_formula p.inner v) };
}

/// Names any predicate.
pub trait PredicateNameExt<Item>: Predicate<Item> {
    /// The same predicate under a name: a `&'static str`, or a `StaticText` where the type must not
    /// contain a lifetime, as in a box. It takes no memory.
    ///
    /// ```
    /// let adult = predicate::ge(18).name("adult");
    /// let case = adult.find_case(alloc, false, &17)?.ok_or("no case")?;
    /// let lines = render(alloc, &case)?;
    /// assert!(rt; lines.as_str() == "adult = false\n  adult: var >= 18 = false\n    - var: 17\n");
    /// ```
    fn name<N: AsStaticStr>(self, name: N) -> NamePredicate<Self, Item, N>
    where
        Self: Sized,
        ensures inner { inner_of result ≡ self }
        ensures name { name_of result ≡ name }
        ensures formula { (v : Item) (f : Formula)
            → ⟦<NamePredicate<Self, Item, N> as Predicate<Item>>⟧.formula result v f
            ↔ IsNamed (N.bytes name) (Self.formula self v) f };
}

impl<P: Predicate<Item>, Item> PredicateNameExt<Item> for P {
    fn name<N: AsStaticStr>(self, name: N) -> NamePredicate<Self, Item, N> {
        NamePredicate::new(self, name)
    }
}
