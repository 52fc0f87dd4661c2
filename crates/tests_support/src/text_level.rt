//! A predicate of texts of the level below, or a combinator or an adapter of the library over such.
ghost use Rattle.predicates_text.specs.ViewFormulaLaws.{each_text_fits, one_each};
ghost use Rattle.predicates_text.specs.AdapterParts.{inner_of};
ghost use Rattle.predicates_text.specs.ViewTexts.{has_trimmed, has_even_lines};
ghost use Rattle.tests_support.specs.Level.{level_text_fits, one_of_level};
ghost use Rattle.tests_support.specs.OneOf.{text_fits_by_type, one_by_type};

use crate::level::Level;
use crate::one_of::OneOf;
use predicates::str::{NormalizedPredicate, PredicateStrExt, TrimPredicate};
use predicates_core::reflection::{Case, Child, Parameter, PredicateReflection};
use predicates_core::{Predicate, PredicateChange};
use std::alloc::{AllocError, Global};
use std::fmt;

type Viewed<P> = OneOf<TrimPredicate<P>, NormalizedPredicate<P>>;

/// A predicate of texts of the level below, or a combinator or an adapter of the library over such.
#[derive(Drop)]
pub struct TextLevel<P> {
    node: OneOf<Level<P, String>, Viewed<P>>,
}

impl<P> TextLevel<P> {
    /// A predicate of the level below, or a combinator over such.
    pub fn of_level(level: Level<P, String>) -> TextLevel<P> {
        TextLevel {
            node: OneOf::First(level),
        }
    }
}

impl<P: Predicate<String> + Drop> TextLevel<P> {
    /// The part of the text without white space at its ends; takes memory for the node.
    pub fn trim(alloc: Global, part: P) -> Result<TextLevel<P>, AllocError> {
        TextLevel::over(alloc, OneOf::First(part.trim()))
    }

    /// The part of the text with even line ends; takes memory for the node.
    pub fn normalize(alloc: Global, part: P) -> Result<TextLevel<P>, AllocError> {
        let normalized = Box::new(alloc, part.normalize())?;
        TextLevel::over(alloc, OneOf::Second(normalized))
    }

    fn over(alloc: Global, node: Viewed<P>) -> Result<TextLevel<P>, AllocError> {
        Ok(TextLevel {
            node: OneOf::Second(Box::new(alloc, node)?),
        })
    }
}

impl<P: fmt::Display> fmt::Display for TextLevel<P> {
    ghost output = { λ p. ⟦<OneOf<Level<P, String>, Viewed<P>> as fmt::Display>⟧.output p.node };

    fn fmt<W: fmt::Write>(&self, f: &mut fmt::Formatter<W>) -> fmt::Result {
        self.node.fmt(f)
    }
}

impl<P: PredicateReflection> PredicateReflection for TextLevel<P> {
    ghost parameters_of = { λ p.
        ⟦<OneOf<Level<P, String>, Viewed<P>> as PredicateReflection>⟧.parameters_of p.node };

    ghost children_of = { λ p.
        ⟦<OneOf<Level<P, String>, Viewed<P>> as PredicateReflection>⟧.children_of p.node };

    fn parameters(&self, alloc: Global) -> Result<Vec<Parameter>, AllocError> {
        self.node.parameters(alloc)
    }

    fn children(&self, alloc: Global) -> Result<Vec<Child>, AllocError> {
        self.node.children(alloc)
    }
}

impl<P: Predicate<String>> Predicate<String> for TextLevel<P> {
    ghost lawful = { λ p. ⟦<OneOf<Level<P, String>, Viewed<P>> as Predicate<String>>⟧.lawful
        p.node };

    ghost formula = { λ p. ⟦<OneOf<Level<P, String>, Viewed<P>> as Predicate<String>>⟧.formula
        p.node };

    ghost infallible = { λ p. ⟦<OneOf<Level<P, String>, Viewed<P>> as Predicate<String>>⟧.infallible
        p.node };

    ghost text_fits = { λ p v f. text_fits_by_type
        (λ q. ⟦<Level<P, String> as Predicate<String>>⟧.formula q v)
        (λ q. ⟦<Viewed<P> as Predicate<String>>⟧.formula q v)
        ⟦<Level<P, String> as fmt::Display>⟧.output
        ⟦<Viewed<P> as fmt::Display>⟧.output
        (λ l. level_text_fits P.output (λ q. P.formula q v) (λ q. P.text_fits q v) l.node)
        (text_fits_by_type
        (λ q. ⟦<TrimPredicate<P> as Predicate<String>>⟧.formula q v)
        (λ q. ⟦<NormalizedPredicate<P> as Predicate<String>>⟧.formula q v)
        ⟦<TrimPredicate<P> as fmt::Display>⟧.output
        ⟦<NormalizedPredicate<P> as fmt::Display>⟧.output
        (λ q g h. each_text_fits (P.output (inner_of q)) (has_trimmed v)
        (λ t. P.text_fits (inner_of q) t g) h)
        (λ q g h. each_text_fits (P.output (inner_of q)) (has_even_lines v)
        (λ t. P.text_fits (inner_of q) t g) h))
        p.node f };

    ghost one_formula = { λ p v f g. one_by_type
        (λ l. one_of_level P.output (λ q. P.formula q v) (λ q. P.one_formula q v) l.node)
        (one_by_type
        (λ q h k lawful x y. one_each (has_trimmed v)
        (λ t. P.one_formula (inner_of q) t h k lawful) x y)
        (λ q h k lawful x y. one_each (has_even_lines v)
        (λ t. P.one_formula (inner_of q) t h k lawful) x y))
        p.node f g };

    fn eval(&self, alloc: Global, item: &String) -> Result<bool, AllocError> {
        self.node.eval(alloc, item)
    }

    fn find_case(
        &self,
        alloc: Global,
        expected: bool,
        item: &String,
    ) -> Result<Option<Case>, AllocError> {
        self.node.find_case(alloc, expected, item)
    }

    fn explain(
        &self,
        alloc: Global,
        wanted: Option<bool>,
        item: &String,
    ) -> Result<Option<Case>, AllocError> {
        self.node.explain(alloc, wanted, item)
    }
}

impl<P: PredicateChange<String>> PredicateChange<String> for TextLevel<P> {
    fn find_change(
        &self,
        alloc: Global,
        wanted: Option<bool>,
        item: &String,
    ) -> Result<Option<Case>, AllocError> {
        self.node.find_change(alloc, wanted, item)
    }
}
