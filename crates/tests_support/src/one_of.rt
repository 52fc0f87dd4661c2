//! A predicate whose type is chosen at run time, from two.
ghost use Rattle.tests_support.specs.OneOf.{by_type, fact_by_type, text_fits_by_type};
ghost use Rattle.tests_support.specs.OneOf.{one_by_type};

use predicates_core::reflection::{Case, Child, Parameter, PredicateReflection};
use predicates_core::{Predicate, PredicateChange};
use std::alloc::{AllocError, Global};
use std::fmt;

/// A predicate of one of two types.
#[derive(Drop)]
pub enum OneOf<A, B> {
    First(A),
    Second(Box<B>),
}

impl<A, B: Drop> OneOf<A, B> {
    /// A predicate of the second type.
    pub fn second(alloc: Global, predicate: B) -> Result<OneOf<A, B>, AllocError> {
        Ok(OneOf::Second(Box::new(alloc, predicate)?))
    }
}

impl<A: fmt::Display, B: fmt::Display> fmt::Display for OneOf<A, B> {
    ghost output = { by_type A.output B.output };

    fn fmt<W: fmt::Write>(&self, f: &mut fmt::Formatter<W>) -> fmt::Result {
        match self {
            OneOf::First(predicate) => predicate.fmt(f),
            OneOf::Second(predicate) => (**predicate).fmt(f),
        }
    }
}

impl<A: PredicateReflection, B: PredicateReflection> PredicateReflection for OneOf<A, B> {
    ghost parameters_of = { by_type A.parameters_of B.parameters_of };

    ghost children_of = { by_type A.children_of B.children_of };

    fn parameters(&self, alloc: Global) -> Result<Vec<Parameter>, AllocError> {
        match self {
            OneOf::First(predicate) => predicate.parameters(alloc),
            OneOf::Second(predicate) => predicate.parameters(alloc),
        }
    }

    fn children(&self, alloc: Global) -> Result<Vec<Child>, AllocError> {
        match self {
            OneOf::First(predicate) => predicate.children(alloc),
            OneOf::Second(predicate) => predicate.children(alloc),
        }
    }
}

impl<A: Predicate<Item>, B: Predicate<Item>, Item> Predicate<Item> for OneOf<A, B> {
    ghost lawful = { fact_by_type A.lawful B.lawful };

    ghost formula = { λ p v f. fact_by_type (λ q. A.formula q v f) (λ q. B.formula q v f) p };

    ghost infallible = { λ p v. fact_by_type (λ q. A.infallible q v) (λ q. B.infallible q v) p };

    ghost text_fits = { λ p v f. text_fits_by_type (λ q. A.formula q v) (λ q. B.formula q v)
        A.output B.output (λ q. A.text_fits q v) (λ q. B.text_fits q v) p f };

    ghost one_formula = { λ p v f g. one_by_type (λ q. A.one_formula q v) (λ q. B.one_formula q v) p
        f g };

    fn eval(&self, alloc: Global, item: &Item) -> Result<bool, AllocError> {
        match self {
            OneOf::First(predicate) => predicate.eval(alloc, item),
            OneOf::Second(predicate) => predicate.eval(alloc, item),
        }
    }

    fn find_case(
        &self,
        alloc: Global,
        expected: bool,
        item: &Item,
    ) -> Result<Option<Case>, AllocError> {
        match self {
            OneOf::First(predicate) => predicate.find_case(alloc, expected, item),
            OneOf::Second(predicate) => predicate.find_case(alloc, expected, item),
        }
    }

    fn explain(
        &self,
        alloc: Global,
        wanted: Option<bool>,
        item: &Item,
    ) -> Result<Option<Case>, AllocError> {
        match self {
            OneOf::First(predicate) => predicate.explain(alloc, wanted, item),
            OneOf::Second(predicate) => predicate.explain(alloc, wanted, item),
        }
    }
}

impl<A: PredicateChange<Item>, B: PredicateChange<Item>, Item> PredicateChange<Item>
    for OneOf<A, B> {
    fn find_change(
        &self,
        alloc: Global,
        wanted: Option<bool>,
        item: &Item,
    ) -> Result<Option<Case>, AllocError> {
        match self {
            OneOf::First(predicate) => predicate.find_change(alloc, wanted, item),
            OneOf::Second(predicate) => predicate.find_change(alloc, wanted, item),
        }
    }
}
