//! A predicate of the level below, or a combinator of the library over such predicates.
ghost use Rattle.tests_support.specs.Level.{level_text_fits, one_of_level};

use crate::one_of::OneOf;
use predicates::boolean::{
    AndPredicate, NotPredicate, OrPredicate, PredicateBooleanExt, XorPredicate,
};
use predicates::name::{NamePredicate, PredicateNameExt};
use predicates_core::reflection::{Case, Child, Parameter, PredicateReflection};
use predicates_core::static_text::StaticText;
use predicates_core::{Predicate, PredicateChange};
use std::alloc::{AllocError, Global};
use std::fmt;

type Named<P, Item> = NamePredicate<P, Item, StaticText>;

type One<P, Item> = OneOf<NotPredicate<P, Item>, Named<P, Item>>;

type Choice<P, Item> = OneOf<OrPredicate<P, P, Item>, XorPredicate<P, P, Item>>;

type Both<P, Item> = OneOf<AndPredicate<P, P, Item>, Choice<P, Item>>;

type Combined<P, Item> = OneOf<One<P, Item>, Both<P, Item>>;

/// A predicate of the level below, or a combinator of the library over such predicates.
#[derive(Drop)]
pub struct Level<P, Item> {
    node: OneOf<P, Combined<P, Item>>,
}

impl<P, Item> Level<P, Item> {
    /// The predicate itself, one level up.
    pub fn below(predicate: P) -> Level<P, Item> {
        Level {
            node: OneOf::First(predicate),
        }
    }
}

impl<P: Predicate<Item> + Drop, Item> Level<P, Item> {
    /// The opposite of the part; takes memory for the node.
    pub fn not(alloc: Global, part: P) -> Result<Level<P, Item>, AllocError> {
        Level::of_one(alloc, OneOf::First(part.not()))
    }

    /// The part under a name; takes memory for the node.
    pub fn name(alloc: Global, part: P, name: StaticText) -> Result<Level<P, Item>, AllocError> {
        let named = Box::new(alloc, part.name(name))?;
        Level::of_one(alloc, OneOf::Second(named))
    }

    /// Both parts; takes memory for the node.
    pub fn and(alloc: Global, left: P, right: P) -> Result<Level<P, Item>, AllocError> {
        Level::of_both(alloc, OneOf::First(left.and(right)))
    }

    /// At least one part; takes memory for the node.
    pub fn or(alloc: Global, left: P, right: P) -> Result<Level<P, Item>, AllocError> {
        Level::of_choice(alloc, OneOf::First(left.or(right)))
    }

    /// Exactly one part; takes memory for the node.
    pub fn xor(alloc: Global, left: P, right: P) -> Result<Level<P, Item>, AllocError> {
        let xor = Box::new(alloc, left.xor(right))?;
        Level::of_choice(alloc, OneOf::Second(xor))
    }

    fn of_one(alloc: Global, one: One<P, Item>) -> Result<Level<P, Item>, AllocError> {
        Level::over(alloc, OneOf::First(one))
    }

    fn of_choice(alloc: Global, choice: Choice<P, Item>) -> Result<Level<P, Item>, AllocError> {
        Level::of_both(alloc, OneOf::Second(Box::new(alloc, choice)?))
    }

    fn of_both(alloc: Global, both: Both<P, Item>) -> Result<Level<P, Item>, AllocError> {
        Level::over(alloc, OneOf::Second(Box::new(alloc, both)?))
    }

    fn over(alloc: Global, node: Combined<P, Item>) -> Result<Level<P, Item>, AllocError> {
        Ok(Level {
            node: OneOf::Second(Box::new(alloc, node)?),
        })
    }
}

impl<P: fmt::Display, Item> fmt::Display for Level<P, Item> {
    ghost output = { λ p. ⟦<OneOf<P, Combined<P, Item>> as fmt::Display>⟧.output p.node };

    fn fmt<W: fmt::Write>(&self, f: &mut fmt::Formatter<W>) -> fmt::Result {
        self.node.fmt(f)
    }
}

impl<P: PredicateReflection, Item> PredicateReflection for Level<P, Item> {
    ghost parameters_of = { λ p.
        ⟦<OneOf<P, Combined<P, Item>> as PredicateReflection>⟧.parameters_of p.node };

    ghost children_of = { λ p. ⟦<OneOf<P, Combined<P, Item>> as PredicateReflection>⟧.children_of
        p.node };

    fn parameters(&self, alloc: Global) -> Result<Vec<Parameter>, AllocError> {
        self.node.parameters(alloc)
    }

    fn children(&self, alloc: Global) -> Result<Vec<Child>, AllocError> {
        self.node.children(alloc)
    }
}

impl<P: Predicate<Item>, Item> Predicate<Item> for Level<P, Item> {
    ghost lawful = { λ p. ⟦<OneOf<P, Combined<P, Item>> as Predicate<Item>>⟧.lawful p.node };

    ghost formula = { λ p. ⟦<OneOf<P, Combined<P, Item>> as Predicate<Item>>⟧.formula p.node };

    ghost infallible = { λ p. ⟦<OneOf<P, Combined<P, Item>> as Predicate<Item>>⟧.infallible
        p.node };

    ghost text_fits = { λ p v f. level_text_fits P.output (λ q. P.formula q v)
        (λ q. P.text_fits q v) p.node f };

    ghost one_formula = { λ p v f g. one_of_level P.output (λ q. P.formula q v)
        (λ q. P.one_formula q v) p.node f g };

    fn eval(&self, alloc: Global, item: &Item) -> Result<bool, AllocError> {
        self.node.eval(alloc, item)
    }

    fn find_case(
        &self,
        alloc: Global,
        expected: bool,
        item: &Item,
    ) -> Result<Option<Case>, AllocError> {
        self.node.find_case(alloc, expected, item)
    }

    fn explain(
        &self,
        alloc: Global,
        wanted: Option<bool>,
        item: &Item,
    ) -> Result<Option<Case>, AllocError> {
        self.node.explain(alloc, wanted, item)
    }
}

impl<P: PredicateChange<Item>, Item> PredicateChange<Item> for Level<P, Item> {
    fn find_change(
        &self,
        alloc: Global,
        wanted: Option<bool>,
        item: &Item,
    ) -> Result<Option<Case>, AllocError> {
        self.node.find_change(alloc, wanted, item)
    }
}
