//! A leaf of the library over numbers.
ghost use Rattle.predicates_core.specs.LeafLaws.{exactly_text_fits, one_exactly};
ghost use Rattle.tests_support.specs.OneOf.{lawful_by_type, text_fits_by_type, one_by_type};

use crate::at_least::AtLeast;
use crate::from_words::FromWords;
use crate::one_of::OneOf;
use crate::words::NumberWord;
use predicates::constant::{BooleanPredicate, always, never};
use predicates::iter::{HashableInPredicate, InPredicate, OrdInPredicate, in_hash, in_iter};
use predicates::ord::{EqPredicate, OrdPredicate, eq, ge, gt, le, lt, ne};
use predicates_core::reflection::{Case, Child, Parameter, PredicateReflection};
use predicates_core::{Predicate, PredicateChange};
use std::alloc::{AllocError, Global};
use std::fmt;

type Comparison = OneOf<EqPredicate<i64>, OrdPredicate<i64>>;

type Plain = OneOf<BooleanPredicate<i64>, Comparison>;

type Ordered = OneOf<InPredicate<i64>, OrdInPredicate<i64>>;

type Other = OneOf<HashableInPredicate<i64>, AtLeast>;

type Asked = OneOf<Ordered, Other>;

type Leaf = OneOf<Plain, Asked>;

/// A leaf of the library over numbers.
// A struct, and no name for the type that it holds: a predicate of many levels over that one is
// "a generic type that is used at too many types, or at types that keep growing".
#[derive(Drop)]
pub struct NumberLeaf {
    leaf: Leaf,
}

fn made(leaf: Leaf) -> Option<NumberLeaf> {
    Some(NumberLeaf { leaf })
}

fn constant(leaf: BooleanPredicate<i64>) -> Option<NumberLeaf> {
    made(OneOf::First(OneOf::First(leaf)))
}

fn comparison(alloc: Global, leaf: Comparison) -> Result<Option<NumberLeaf>, AllocError> {
    Ok(made(OneOf::First(OneOf::second(alloc, leaf)?)))
}

fn order(alloc: Global, leaf: OrdPredicate<i64>) -> Result<Option<NumberLeaf>, AllocError> {
    comparison(alloc, OneOf::second(alloc, leaf)?)
}

fn asked(alloc: Global, leaf: Asked) -> Result<Option<NumberLeaf>, AllocError> {
    Ok(made(OneOf::second(alloc, leaf)?))
}

fn other(alloc: Global, leaf: Other) -> Result<Option<NumberLeaf>, AllocError> {
    asked(alloc, OneOf::second(alloc, leaf)?)
}

fn called(alloc: Global, constant: i64) -> Result<Option<NumberLeaf>, AllocError> {
    other(alloc, OneOf::second(alloc, AtLeast { constant })?)
}

fn listed(alloc: Global, list: Vec<i64>) -> Result<Option<NumberLeaf>, AllocError> {
    asked(alloc, OneOf::First(OneOf::First(in_iter(alloc, list)?)))
}

fn sorted(alloc: Global, list: Vec<i64>) -> Result<Option<NumberLeaf>, AllocError> {
    let sorted = in_iter(alloc, list)?.sort()?;
    asked(alloc, OneOf::First(OneOf::second(alloc, sorted)?))
}

fn hashed(alloc: Global, list: Vec<i64>) -> Result<Option<NumberLeaf>, AllocError> {
    other(alloc, OneOf::First(in_hash(alloc, list)?))
}

// The leaf that a word names; none where it names a combinator.
fn leaf_of_word(alloc: Global, word: NumberWord) -> Result<Option<NumberLeaf>, AllocError> {
    match word {
        NumberWord::Always => Ok(constant(always())),
        NumberWord::Never => Ok(constant(never())),
        NumberWord::Equal(c) => comparison(alloc, OneOf::First(eq(c))),
        NumberWord::Unequal(c) => comparison(alloc, OneOf::First(ne(c))),
        NumberWord::Less(c) => order(alloc, lt(c)),
        NumberWord::AtMost(c) => order(alloc, le(c)),
        NumberWord::AtLeast(c) => order(alloc, ge(c)),
        NumberWord::Greater(c) => order(alloc, gt(c)),
        NumberWord::Called(c) => called(alloc, c),
        NumberWord::Listed(list) => listed(alloc, list),
        NumberWord::Sorted(list) => sorted(alloc, list),
        NumberWord::Hashed(list) => hashed(alloc, list),
        _ => Ok(None),
    }
}

impl fmt::Display for NumberLeaf {
    ghost output = { λ p. ⟦<Leaf as fmt::Display>⟧.output p.leaf };

    fn fmt<W: fmt::Write>(&self, f: &mut fmt::Formatter<W>) -> fmt::Result {
        self.leaf.fmt(f)
    }
}

impl PredicateReflection for NumberLeaf {
    ghost parameters_of = { λ p. ⟦<Leaf as PredicateReflection>⟧.parameters_of p.leaf };

    ghost children_of = { λ p. ⟦<Leaf as PredicateReflection>⟧.children_of p.leaf };

    fn parameters(&self, alloc: Global) -> Result<Vec<Parameter>, AllocError> {
        self.leaf.parameters(alloc)
    }

    fn children(&self, alloc: Global) -> Result<Vec<Child>, AllocError> {
        self.leaf.children(alloc)
    }
}

impl Predicate<i64> for NumberLeaf {
    ghost lawful = { λ p. ⟦<Leaf as Predicate<i64>>⟧.lawful p.leaf };

    ghost formula = { λ p. ⟦<Leaf as Predicate<i64>>⟧.formula p.leaf };

    ghost infallible = { λ p. ⟦<Leaf as Predicate<i64>>⟧.infallible p.leaf };

    ghost text_fits = { λ p v f. text_fits_by_type
        (λ q. ⟦<Plain as Predicate<i64>>⟧.formula q v)
        (λ q. ⟦<Asked as Predicate<i64>>⟧.formula q v) _ _
        (text_fits_by_type _ _ _ _
        (λ q g h. exactly_text_fits h)
        (text_fits_by_type _ _ _ _ (λ q g h. exactly_text_fits h) (λ q g h. exactly_text_fits h)))
        (text_fits_by_type _ _ _ _
        (text_fits_by_type _ _ _ _ (λ q g h. exactly_text_fits h) (λ q g h. exactly_text_fits h))
        (text_fits_by_type _ _ _ _ (λ q g h. exactly_text_fits h) (λ q g h. exactly_text_fits h)))
        p.leaf f };

    ghost one_formula = { λ p v f g. one_by_type
        (one_by_type
        (λ q h k lawful. one_exactly)
        (one_by_type (λ q h k lawful. one_exactly) (λ q h k lawful. one_exactly)))
        (one_by_type
        (one_by_type (λ q h k lawful. one_exactly) (λ q h k lawful. one_exactly))
        (one_by_type (λ q h k lawful. one_exactly) (λ q h k lawful. one_exactly)))
        p.leaf f g };

    fn eval(&self, alloc: Global, item: &i64) -> Result<bool, AllocError> {
        self.leaf.eval(alloc, item)
    }

    fn find_case(
        &self,
        alloc: Global,
        expected: bool,
        item: &i64,
    ) -> Result<Option<Case>, AllocError> {
        self.leaf.find_case(alloc, expected, item)
    }

    fn explain(
        &self,
        alloc: Global,
        wanted: Option<bool>,
        item: &i64,
    ) -> Result<Option<Case>, AllocError> {
        self.leaf.explain(alloc, wanted, item)
    }
}

impl PredicateChange<i64> for NumberLeaf {
    fn find_change(
        &self,
        alloc: Global,
        wanted: Option<bool>,
        item: &i64,
    ) -> Result<Option<Case>, AllocError> {
        self.leaf.find_change(alloc, wanted, item)
    }
}

impl FromWords<NumberWord, i64> for NumberLeaf {
    ghost always_lawful = { λ p. lawful_by_type
        (lawful_by_type (λ q. tt) (lawful_by_type (λ q. tt) (λ q. tt)))
        (lawful_by_type (lawful_by_type (λ q. tt) (λ q. tt)) (lawful_by_type (λ q. tt) (λ q. tt)))
        p.leaf };

    fn from_words(
        alloc: Global,
        words: &mut Vec<NumberWord>,
    ) -> Result<Option<NumberLeaf>, AllocError> {
        match words.pop() {
            Some(word) => leaf_of_word(alloc, word),
            None => Ok(None),
        }
    }
}
