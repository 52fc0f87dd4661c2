//! A leaf of the library over texts.
ghost use Rattle.predicates_core.specs.LeafLaws.{exactly_text_fits, one_exactly};
ghost use Rattle.predicates_text.specs.LeafFormulaLaws.{text_leaf_fits, one_text_leaf};
ghost use Rattle.predicates_text.specs.LeafFormulaLaws.{counted_text_fits, one_counted};
ghost use Rattle.tests_support.specs.OneOf.{lawful_by_type, text_fits_by_type, one_by_type};

use crate::from_words::FromWords;
use crate::one_of::OneOf;
use crate::text_words::TextWord;
use predicates::constant::{BooleanPredicate, always, never};
use predicates::ord::{EqPredicate, OrdPredicate, eq, ge, gt, le, lt, ne};
use predicates::str::{
    ContainsPredicate, EndsWithPredicate, IsEmptyPredicate, MatchesPredicate, StartsWithPredicate,
    contains, ends_with, is_empty, starts_with,
};
use predicates_core::reflection::{Case, Child, Parameter, PredicateReflection};
use predicates_core::{Predicate, PredicateChange};
use std::alloc::{AllocError, Global};
use std::fmt;

type Comparison = OneOf<EqPredicate<String>, OrdPredicate<String>>;

type Plain = OneOf<BooleanPredicate<String>, Comparison>;

type Ending = OneOf<StartsWithPredicate, EndsWithPredicate>;

type Part = OneOf<ContainsPredicate, MatchesPredicate>;

type Asked = OneOf<IsEmptyPredicate, OneOf<Ending, Part>>;

type Leaf = OneOf<Plain, Asked>;

/// A leaf of the library over texts.
// A struct, and no name for the type that it holds: a predicate of many levels over that one is
// "a generic type that is used at too many types, or at types that keep growing".
#[derive(Drop)]
pub struct TextLeaf {
    leaf: Leaf,
}

fn made(leaf: Leaf) -> Option<TextLeaf> {
    Some(TextLeaf { leaf })
}

fn constant(leaf: BooleanPredicate<String>) -> Option<TextLeaf> {
    made(OneOf::First(OneOf::First(leaf)))
}

fn comparison(alloc: Global, leaf: Comparison) -> Result<Option<TextLeaf>, AllocError> {
    Ok(made(OneOf::First(OneOf::second(alloc, leaf)?)))
}

fn order(alloc: Global, leaf: OrdPredicate<String>) -> Result<Option<TextLeaf>, AllocError> {
    comparison(alloc, OneOf::second(alloc, leaf)?)
}

fn asked(alloc: Global, leaf: Asked) -> Result<Option<TextLeaf>, AllocError> {
    Ok(made(OneOf::second(alloc, leaf)?))
}

fn ending(alloc: Global, leaf: Ending) -> Result<Option<TextLeaf>, AllocError> {
    asked(alloc, OneOf::second(alloc, OneOf::First(leaf))?)
}

fn ends(alloc: Global, pattern: String) -> Result<Option<TextLeaf>, AllocError> {
    ending(alloc, OneOf::second(alloc, ends_with(pattern))?)
}

fn part(alloc: Global, leaf: Part) -> Result<Option<TextLeaf>, AllocError> {
    let part = OneOf::second(alloc, leaf)?;
    asked(alloc, OneOf::second(alloc, part)?)
}

fn counted(alloc: Global, pattern: String, count: usize) -> Result<Option<TextLeaf>, AllocError> {
    part(alloc, OneOf::second(alloc, contains(pattern).count(count))?)
}

// The leaf that a word names; none where it names an adapter or a combinator.
fn leaf_of_word(alloc: Global, word: TextWord) -> Result<Option<TextLeaf>, AllocError> {
    match word {
        TextWord::Always => Ok(constant(always())),
        TextWord::Never => Ok(constant(never())),
        TextWord::Empty => asked(alloc, OneOf::First(is_empty())),
        TextWord::Equal(c) => comparison(alloc, OneOf::First(eq(c))),
        TextWord::Unequal(c) => comparison(alloc, OneOf::First(ne(c))),
        TextWord::Less(c) => order(alloc, lt(c)),
        TextWord::AtMost(c) => order(alloc, le(c)),
        TextWord::AtLeast(c) => order(alloc, ge(c)),
        TextWord::Greater(c) => order(alloc, gt(c)),
        TextWord::Starts(p) => ending(alloc, OneOf::First(starts_with(p))),
        TextWord::Ends(p) => ends(alloc, p),
        TextWord::Contains(p) => part(alloc, OneOf::First(contains(p))),
        TextWord::Counted(p, count) => counted(alloc, p, count),
        _ => Ok(None),
    }
}

impl fmt::Display for TextLeaf {
    ghost output = { λ p. ⟦<Leaf as fmt::Display>⟧.output p.leaf };

    fn fmt<W: fmt::Write>(&self, f: &mut fmt::Formatter<W>) -> fmt::Result {
        self.leaf.fmt(f)
    }
}

impl PredicateReflection for TextLeaf {
    ghost parameters_of = { λ p. ⟦<Leaf as PredicateReflection>⟧.parameters_of p.leaf };

    ghost children_of = { λ p. ⟦<Leaf as PredicateReflection>⟧.children_of p.leaf };

    fn parameters(&self, alloc: Global) -> Result<Vec<Parameter>, AllocError> {
        self.leaf.parameters(alloc)
    }

    fn children(&self, alloc: Global) -> Result<Vec<Child>, AllocError> {
        self.leaf.children(alloc)
    }
}

impl Predicate<String> for TextLeaf {
    ghost lawful = { λ p. ⟦<Leaf as Predicate<String>>⟧.lawful p.leaf };

    ghost formula = { λ p. ⟦<Leaf as Predicate<String>>⟧.formula p.leaf };

    ghost infallible = { λ p. ⟦<Leaf as Predicate<String>>⟧.infallible p.leaf };

    ghost text_fits = { λ p v f. text_fits_by_type
        (λ q. ⟦<Plain as Predicate<String>>⟧.formula q v)
        (λ q. ⟦<Asked as Predicate<String>>⟧.formula q v) _ _
        (text_fits_by_type _ _ _ _
        (λ q g h. exactly_text_fits h)
        (text_fits_by_type _ _ _ _ (λ q g h. exactly_text_fits h) (λ q g h. exactly_text_fits h)))
        (text_fits_by_type _ _ _ _
        (λ q g h. text_leaf_fits h)
        (text_fits_by_type _ _ _ _
        (text_fits_by_type _ _ _ _ (λ q g h. text_leaf_fits h) (λ q g h. text_leaf_fits h))
        (text_fits_by_type _ _ _ _ (λ q g h. text_leaf_fits h) (λ q g h. counted_text_fits h))))
        p.leaf f };

    ghost one_formula = { λ p v f g. one_by_type
        (one_by_type
        (λ q h k lawful. one_exactly)
        (one_by_type (λ q h k lawful. one_exactly) (λ q h k lawful. one_exactly)))
        (one_by_type
        (λ q h k lawful. one_text_leaf)
        (one_by_type
        (one_by_type (λ q h k lawful. one_text_leaf) (λ q h k lawful. one_text_leaf))
        (one_by_type (λ q h k lawful. one_text_leaf) (λ q h k lawful. one_counted))))
        p.leaf f g };

    fn eval(&self, alloc: Global, item: &String) -> Result<bool, AllocError> {
        self.leaf.eval(alloc, item)
    }

    fn find_case(
        &self,
        alloc: Global,
        expected: bool,
        item: &String,
    ) -> Result<Option<Case>, AllocError> {
        self.leaf.find_case(alloc, expected, item)
    }

    fn explain(
        &self,
        alloc: Global,
        wanted: Option<bool>,
        item: &String,
    ) -> Result<Option<Case>, AllocError> {
        self.leaf.explain(alloc, wanted, item)
    }
}

impl PredicateChange<String> for TextLeaf {
    fn find_change(
        &self,
        alloc: Global,
        wanted: Option<bool>,
        item: &String,
    ) -> Result<Option<Case>, AllocError> {
        self.leaf.find_change(alloc, wanted, item)
    }
}

impl FromWords<TextWord, String> for TextLeaf {
    ghost always_lawful = { λ p. lawful_by_type
        (lawful_by_type (λ q. tt) (lawful_by_type (λ q. tt) (λ q. tt)))
        (lawful_by_type
        (λ q. tt)
        (lawful_by_type
        (lawful_by_type (λ q. tt) (λ q. tt))
        (lawful_by_type (λ q. tt) (λ q. tt))))
        p.leaf };

    fn from_words(
        alloc: Global,
        words: &mut Vec<TextWord>,
    ) -> Result<Option<TextLeaf>, AllocError> {
        match words.pop() {
            Some(word) => leaf_of_word(alloc, word),
            None => Ok(None),
        }
    }
}
