//! Predicates of a part that a stored function or a field gives of the item, under the part's name.
//!
//! ```
//! let adult = predicate::ge(18).of("age", |person: &Person| person.age);
//! let named = predicate::eq(name).of_ref("name", name_of);
//! let seated = predicate::le(40).of_field("seat", Seat);
//! let first = predicate::ge(1).of_some_ref("first", first_of);
//! ```
ghost use Rattle.std.specs.Prelude.{◌≡◌, IfSome, codes, option_copied};
ghost use Rattle.predicates_core.specs.Present.{IsOfPresent, present_text_fits, one_present};
ghost use Rattle.predicates_part.specs.Part.{HasOnePart, IsOfPart, IsInfallibleOnPart};
ghost use Rattle.predicates_part.specs.Part.{one_of_part, owned, borrowed};
ghost use Rattle.predicates_part.specs.Part.{part_inner_of, part_function_of};

use predicates_core::custom::{present_case, present_change, present_explained, present_holds};
use predicates_core::name::NamePredicate;
use predicates_core::reflection::{Case, Child, Parameter, PredicateReflection};
use predicates_core::{Predicate, PredicateChange, Total};
use std::alloc::{AllocError, Global};
use std::fmt;
use std::marker::PhantomData;

/// The function gives the part itself, which is dropped after use.
pub struct ByValue;

/// The function borrows the part from the item.
pub struct ByReference;

/// The part is that of a `Field`.
pub struct ByField;

/// The function borrows the part from the item, if the item has one.
pub struct ByOption;

/// A part of an item, named by a unit struct of the caller's.
pub trait Field<T, U> {
    // The part that an item has.
    ghost part_of: { Self → T → U };

    /// Borrows the part from the item.
    fn get<'a>(&self, item: &'a T) -> &'a U
        ensures { result.now ≡ part_of self.now item.now };
}

/// Holds of an item where its inner predicate holds of the part that the function gives. It prints
/// and describes itself as the inner predicate does.
#[derive(Drop)]
pub struct PartPredicate<P, F, U, Access> {
    inner: P,
    function: F,
    types: PhantomData<(U, Access)>,
}

/// A predicate of a part, under the part's name. Made by `of`, `of_ref`, `of_some_ref` and
/// `of_field` of `PredicatePartExt`.
pub type FieldPredicate<P, F, T, U, N = &'static str, Access = ByValue> = NamePredicate<
    PartPredicate<P, F, U, Access>,
    T,
    N,
>;

impl<P: PredicateReflection, F, U, Access> PartPredicate<P, F, U, Access> {
    /// The predicate of the part that the function gives. Whatever gives the part, it is described
    /// as its inner predicate.
    pub(crate) fn new(inner: P, function: F) -> PartPredicate<P, F, U, Access>
        ensures inner { part_inner_of result ≡ inner }
        ensures function { part_function_of result ≡ function }
        ensures text { ⟦<PartPredicate<P, F, U, Access> as fmt::Display>⟧.output result
            ≡ P.output inner }
        ensures values { ⟦<PartPredicate<P, F, U, Access> as PredicateReflection>⟧.parameters_of
            result ≡ P.parameters_of inner }
        ensures parts { ⟦<PartPredicate<P, F, U, Access> as PredicateReflection>⟧.children_of
            result ≡ P.children_of inner }
    {
        PartPredicate {
            inner,
            function,
            types: PhantomData,
        }
    }
}

impl<P: fmt::Display, F, U, Access> fmt::Display for PartPredicate<P, F, U, Access> {
    ghost output = { λ p. P.output p.inner };

    fn fmt<W: fmt::Write>(&self, f: &mut fmt::Formatter<W>) -> fmt::Result {
        let inner = &self.inner;
        write!(f, "{inner}")
    }
}

impl<P: PredicateReflection, F, U, Access> PredicateReflection for PartPredicate<P, F, U, Access> {
    ghost parameters_of = { λ p. P.parameters_of p.inner };

    ghost children_of = { λ p. P.children_of p.inner };

    fn parameters(&self, alloc: Global) -> Result<Vec<Parameter>, AllocError> {
        self.inner.parameters(alloc)
    }

    fn children(&self, alloc: Global) -> Result<Vec<Child>, AllocError> {
        self.inner.children(alloc)
    }
}

impl<P: Predicate<U>, F: Fn(&T) -> U, T, U: Drop> Predicate<T> for PartPredicate<P, F, U, ByValue> {
    ghost lawful = { λ p. P.lawful p.inner × F.IsAlwaysCallable p.function
        × HasOnePart F.Fn owned p.function };

    ghost formula = { λ p v. IsOfPart F.Fn owned p.function (P.formula p.inner) v };

    ghost infallible = { λ p v. IsInfallibleOnPart F.Fn owned p.function (P.infallible p.inner) v };

    ghost text_fits = { λ p v f h. P.text_fits p.inner (owned h.given) f h.of_part };

    ghost one_formula = { λ p v f g lawful. one_of_part lawful.2
        (λ u k l. P.one_formula p.inner u k l lawful.0) };

    #[tactic(auto, using(crate::proofs::Parts::parts))]
    fn eval(&self, alloc: Global, item: &T) -> Result<bool, AllocError> {
        let part = (self.function)(item);
        self.inner.eval(alloc, &part)
    }

    #[inline(always)] // a call would copy the case
    #[tactic(auto, using(crate::proofs::Parts::parts))]
    fn find_case(
        &self,
        alloc: Global,
        expected: bool,
        item: &T,
    ) -> Result<Option<Case>, AllocError> {
        let part = (self.function)(item);
        self.inner.find_case(alloc, expected, &part)
    }

    #[inline(always)] // a call would copy the case
    fn explain(
        &self,
        alloc: Global,
        wanted: Option<bool>,
        item: &T,
    ) -> Result<Option<Case>, AllocError> {
        let part = (self.function)(item);
        self.inner.explain(alloc, wanted, &part)
    }
}

impl<P: PredicateChange<U>, F: Fn(&T) -> U, T, U: Drop> PredicateChange<T>
    for PartPredicate<P, F, U, ByValue> {
    #[inline(always)] // a call would copy the case
    fn find_change(
        &self,
        alloc: Global,
        wanted: Option<bool>,
        item: &T,
    ) -> Result<Option<Case>, AllocError> {
        let part = (self.function)(item);
        self.inner.find_change(alloc, wanted, &part)
    }
}

impl<P: Predicate<U>, F: Fn(&T) -> &U, T, U> Predicate<T> for PartPredicate<P, F, U, ByReference> {
    ghost lawful = { λ p. P.lawful p.inner × F.IsAlwaysCallable p.function
        × HasOnePart F.Fn borrowed p.function };

    ghost formula = { λ p v. IsOfPart F.Fn borrowed p.function (P.formula p.inner) v };

    ghost infallible = { λ p v.
        IsInfallibleOnPart F.Fn borrowed p.function (P.infallible p.inner) v };

    ghost text_fits = { λ p v f h. P.text_fits p.inner (borrowed h.given) f h.of_part };

    ghost one_formula = { λ p v f g lawful. one_of_part lawful.2
        (λ u k l. P.one_formula p.inner u k l lawful.0) };

    #[tactic(auto, using(crate::proofs::Parts::parts))]
    fn eval(&self, alloc: Global, item: &T) -> Result<bool, AllocError> {
        self.inner.eval(alloc, (self.function)(item))
    }

    #[inline(always)] // a call would copy the case
    #[tactic(auto, using(crate::proofs::Parts::parts))]
    fn find_case(
        &self,
        alloc: Global,
        expected: bool,
        item: &T,
    ) -> Result<Option<Case>, AllocError> {
        let part = (self.function)(item);
        self.inner.find_case(alloc, expected, part)
    }

    #[inline(always)] // a call would copy the case
    fn explain(
        &self,
        alloc: Global,
        wanted: Option<bool>,
        item: &T,
    ) -> Result<Option<Case>, AllocError> {
        let part = (self.function)(item);
        self.inner.explain(alloc, wanted, part)
    }
}

impl<P: PredicateChange<U>, F: Fn(&T) -> &U, T, U> PredicateChange<T>
    for PartPredicate<P, F, U, ByReference> {
    #[inline(always)] // a call would copy the case
    fn find_change(
        &self,
        alloc: Global,
        wanted: Option<bool>,
        item: &T,
    ) -> Result<Option<Case>, AllocError> {
        let part = (self.function)(item);
        self.inner.find_change(alloc, wanted, part)
    }
}

impl<P: Predicate<U>, F: Fn(&T) -> Option<&U>, T, U> Predicate<T>
    for PartPredicate<P, F, U, ByOption> {
    ghost lawful = { λ p. P.lawful p.inner × F.IsAlwaysCallable p.function
        × HasOnePart F.Fn option_copied p.function };

    ghost formula = { λ p v. IsOfPart F.Fn option_copied p.function
        (IsOfPresent (P.output p.inner) (codes "no value") (P.formula p.inner)) v };

    ghost infallible = { λ p v. IsInfallibleOnPart F.Fn option_copied p.function
        (λ held. IfSome held (P.infallible p.inner)) v };

    ghost text_fits = { λ p v f h. present_text_fits (option_copied h.given)
        (λ u. P.text_fits p.inner u) h.of_part };

    ghost one_formula = { λ p v f g lawful. one_of_part lawful.2
        (λ held k l. one_present held (λ u m n. P.one_formula p.inner u m n lawful.0)) };

    #[tactic(auto, using(crate::proofs::Parts::parts))]
    fn eval(&self, alloc: Global, item: &T) -> Result<bool, AllocError> {
        let part = (self.function)(item);
        present_holds(alloc, &self.inner, part)
    }

    #[inline(always)] // a call would copy the case
    fn find_case(
        &self,
        alloc: Global,
        expected: bool,
        item: &T,
    ) -> Result<Option<Case>, AllocError> {
        let part = (self.function)(item);
        present_case(alloc, &self.inner, part, "no value", expected)
    }

    #[inline(always)] // a call would copy the case
    fn explain(
        &self,
        alloc: Global,
        wanted: Option<bool>,
        item: &T,
    ) -> Result<Option<Case>, AllocError> {
        let part = (self.function)(item);
        present_explained(alloc, &self.inner, part, "no value", wanted)
    }
}

impl<P: PredicateChange<U>, F: Fn(&T) -> Option<&U>, T, U> PredicateChange<T>
    for PartPredicate<P, F, U, ByOption> {
    #[inline(always)] // a call would copy the case
    fn find_change(
        &self,
        alloc: Global,
        wanted: Option<bool>,
        item: &T,
    ) -> Result<Option<Case>, AllocError> {
        let part = (self.function)(item);
        present_change(alloc, &self.inner, part, "no value", wanted)
    }
}

impl<P: Predicate<U>, F: Field<T, U>, T, U> Predicate<T> for PartPredicate<P, F, U, ByField> {
    ghost lawful = { λ p. P.lawful p.inner };

    ghost formula = { λ p v. P.formula p.inner (F.part_of p.function v) };

    ghost infallible = { λ p v. P.infallible p.inner (F.part_of p.function v) };

    ghost text_fits = { λ p v f. P.text_fits p.inner (F.part_of p.function v) f };

    ghost one_formula = { λ p v f g lawful.
        P.one_formula p.inner (F.part_of p.function v) f g lawful };

    #[tactic(auto, using(crate::proofs::Parts::parts))]
    fn eval(&self, alloc: Global, item: &T) -> Result<bool, AllocError> {
        self.inner.eval(alloc, self.function.get(item))
    }

    #[inline(always)] // a call would copy the case
    fn find_case(
        &self,
        alloc: Global,
        expected: bool,
        item: &T,
    ) -> Result<Option<Case>, AllocError> {
        let part = self.function.get(item);
        self.inner.find_case(alloc, expected, part)
    }

    #[inline(always)] // a call would copy the case
    fn explain(
        &self,
        alloc: Global,
        wanted: Option<bool>,
        item: &T,
    ) -> Result<Option<Case>, AllocError> {
        let part = self.function.get(item);
        self.inner.explain(alloc, wanted, part)
    }
}

impl<P: PredicateChange<U>, F: Field<T, U>, T, U> PredicateChange<T>
    for PartPredicate<P, F, U, ByField> {
    #[inline(always)] // a call would copy the case
    fn find_change(
        &self,
        alloc: Global,
        wanted: Option<bool>,
        item: &T,
    ) -> Result<Option<Case>, AllocError> {
        let part = self.function.get(item);
        self.inner.find_change(alloc, wanted, part)
    }
}

impl<P: Total<U>, F: Field<T, U>, T, U> Total<T> for PartPredicate<P, F, U, ByField> {
    ghost formula_of = { λ p v. P.formula_of p.inner (F.part_of p.function v) };

    ghost always_lawful = { λ p. P.always_lawful p.inner };

    ghost has_formula = { λ p v. P.has_formula p.inner (F.part_of p.function v) };
}
