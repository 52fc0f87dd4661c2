//! A predicate that counts how often it is asked, and prints itself otherwise in a width.
use predicates_core::reflection::{Case, Child, Parameter, PredicateReflection};
use predicates_core::{Predicate, PredicateChange};
use std::alloc::{AllocError, Global};
use std::cell::Cell;
use std::fmt;
use std::rc::Rc;

/// Answers as the leaf that it holds does, and counts how often it is asked, by any of the three
/// calls. In a width it prints another text.
#[derive(Drop)]
pub struct Counting<P> {
    pub held: P,
    pub asked: Rc<Cell<usize>>,
}

impl<P> Counting<P> {
    fn count(&self) {
        self.asked.set(self.asked.get().saturating_add(1));
    }
}

impl<P: fmt::Display> fmt::Display for Counting<P> {
    ghost output = { λ p. P.output p.held };

    fn fmt<W: fmt::Write>(&self, f: &mut fmt::Formatter<W>) -> fmt::Result {
        if f.width().is_some() {
            write!(f, "wide")
        } else {
            self.held.fmt(f)
        }
    }
}

impl<P: PredicateReflection> PredicateReflection for Counting<P> {
    ghost parameters_of = { λ p. P.parameters_of p.held };

    ghost children_of = { λ p. P.children_of p.held };

    fn parameters(&self, alloc: Global) -> Result<Vec<Parameter>, AllocError> {
        self.held.parameters(alloc)
    }

    fn children(&self, alloc: Global) -> Result<Vec<Child>, AllocError> {
        self.held.children(alloc)
    }
}

impl<P: Predicate<Item>, Item> Predicate<Item> for Counting<P> {
    ghost lawful = { λ p. P.lawful p.held };

    ghost formula = { λ p v. P.formula p.held v };

    ghost infallible = { λ p v. P.infallible p.held v };

    ghost text_fits = { λ p v f. P.text_fits p.held v f };

    ghost one_formula = { λ p v f g. P.one_formula p.held v f g };

    fn eval(&self, alloc: Global, item: &Item) -> Result<bool, AllocError> {
        self.count();
        self.held.eval(alloc, item)
    }

    fn find_case(
        &self,
        alloc: Global,
        expected: bool,
        item: &Item,
    ) -> Result<Option<Case>, AllocError> {
        self.count();
        self.held.find_case(alloc, expected, item)
    }

    fn explain(
        &self,
        alloc: Global,
        wanted: Option<bool>,
        item: &Item,
    ) -> Result<Option<Case>, AllocError> {
        self.count();
        self.held.explain(alloc, wanted, item)
    }
}

impl<P: PredicateChange<Item>, Item> PredicateChange<Item> for Counting<P> {
    fn find_change(
        &self,
        alloc: Global,
        wanted: Option<bool>,
        item: &Item,
    ) -> Result<Option<Case>, AllocError> {
        self.count();
        self.held.find_change(alloc, wanted, item)
    }
}
