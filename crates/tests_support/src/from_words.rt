//! Predicates that are read from the end of a list of postfix words.
ghost use Rattle.tests_support.specs.Level.{all_parts};

use crate::answers::{Answers, ask};
use crate::level::Level;
use predicates_core::static_text::StaticText;
use predicates_core::{Predicate, PredicateChange};
use std::alloc::{AllocError, Global};

/// What takes the predicates before it.
#[derive(Drop)]
pub enum Combinator {
    Not,
    Named(StaticText),
    And,
    Or,
    Xor,
}

/// A word that may name a combinator.
pub trait Word: Drop {
    /// The combinator that the word names, if it names one.
    fn combinator(&self) -> Option<Combinator>;
}

/// A predicate that is read from the end of a list of words; none where the words are not one, or
/// where it is too deep.
pub trait FromWords<W, Item>: PredicateChange<Item> + Drop + Sized {
    fn from_words(alloc: Global, words: &mut Vec<W>) -> Result<Option<Self>, AllocError>;

    ghost always_lawful: { (p : Self) → Self.lawful p };
}

// Takes the last word if it names a combinator.
fn pop_combinator<W: Word>(words: &mut Vec<W>) -> Option<Combinator> {
    let found = words.last()?.combinator()?;
    words.pop();
    Some(found)
}

/// What was made, where it was.
pub fn some<T>(made: Result<T, AllocError>) -> Result<Option<T>, AllocError> {
    Ok(Some(made?))
}

// What a combinator of two makes of them; none where it takes one.
fn joined<P: Predicate<Item> + Drop, Item>(
    alloc: Global,
    combinator: Combinator,
    left: P,
    right: P,
) -> Result<Option<Level<P, Item>>, AllocError> {
    match combinator {
        Combinator::And => some(Level::and(alloc, left, right)),
        Combinator::Or => some(Level::or(alloc, left, right)),
        Combinator::Xor => some(Level::xor(alloc, left, right)),
        Combinator::Not | Combinator::Named(_) => Ok(None),
    }
}

// The combinator of two over the predicate at the words' end and the right one.
fn beside<P: FromWords<W, Item>, W: Word, Item>(
    alloc: Global,
    words: &mut Vec<W>,
    combinator: Combinator,
    right: P,
) -> Result<Option<Level<P, Item>>, AllocError> {
    match P::from_words(alloc, words)? {
        Some(left) => joined(alloc, combinator, left, right),
        None => Ok(None),
    }
}

// The combinator over the part, if there is one. The right one of two is read before the left one.
fn over<P: FromWords<W, Item>, W: Word, Item>(
    alloc: Global,
    words: &mut Vec<W>,
    combinator: Option<Combinator>,
    part: P,
) -> Result<Option<Level<P, Item>>, AllocError> {
    match combinator {
        None => Ok(Some(Level::below(part))),
        Some(Combinator::Not) => some(Level::not(alloc, part)),
        Some(Combinator::Named(name)) => some(Level::name(alloc, part, name)),
        Some(combinator) => beside(alloc, words, combinator, part),
    }
}

impl<P: FromWords<W, Item>, W: Word, Item> FromWords<W, Item> for Level<P, Item> {
    ghost always_lawful = { λ p. all_parts P.always_lawful p.node };

    fn from_words(alloc: Global, words: &mut Vec<W>) -> Result<Option<Level<P, Item>>, AllocError> {
        let combinator = pop_combinator(words);
        match P::from_words(alloc, words)? {
            Some(part) => over(alloc, words, combinator, part),
            None => Ok(None),
        }
    }
}

/// The predicate of the words; none where the words are not one predicate.
pub fn whole<P: FromWords<W, Item>, W: Drop, Item>(
    alloc: Global,
    mut words: Vec<W>,
) -> Result<Option<P>, AllocError> {
    let predicate = P::from_words(alloc, &mut words)?;
    Ok(if words.is_empty() { predicate } else { None })
}

/// What the predicate of the words answers; none where the words are not one predicate.
pub fn answer<P: FromWords<W, Item>, W: Drop, Item>(
    alloc: Global,
    words: Vec<W>,
    item: &Item,
) -> Result<Option<Answers>, AllocError> {
    match whole::<P, W, Item>(alloc, words)? {
        Some(predicate) => some(ask(alloc, &predicate, item)),
        None => Ok(None),
    }
}
