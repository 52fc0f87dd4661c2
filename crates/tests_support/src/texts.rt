//! What the library's predicates over texts and bytes answer.
ghost use Rattle.predicates_text.specs.AdapterParts.{inner_of};
ghost use Rattle.tests_support.specs.Level.{all_parts};
ghost use Rattle.tests_support.specs.OneOf.{lawful_by_type};

use crate::answers::Answers;
use crate::from_words::{FromWords, answer, some};
use crate::level::Level;
use crate::text_leaf::TextLeaf;
use crate::text_level::TextLevel;
use crate::text_words::TextWord;
use predicates::str::{PredicateStrExt, Utf8Predicate};
use std::alloc::{AllocError, Global};

// The words of the adapters from a text to a text.
#[derive(Drop)]
enum Adapter {
    Trim,
    Normalize,
}

// Takes the last word if it names an adapter from a text to a text.
fn pop_adapter(words: &mut Vec<TextWord>) -> Option<Adapter> {
    let found = match words.last()? {
        TextWord::Trim => Adapter::Trim,
        TextWord::Normalize => Adapter::Normalize,
        _ => return None,
    };
    words.pop();
    Some(found)
}

// The adapter over the predicate at the words' end.
fn adapted<P: FromWords<TextWord, String>>(
    alloc: Global,
    words: &mut Vec<TextWord>,
    adapter: Adapter,
) -> Result<Option<TextLevel<P>>, AllocError> {
    let Some(part) = P::from_words(alloc, words)? else {
        return Ok(None);
    };
    match adapter {
        Adapter::Trim => some(TextLevel::trim(alloc, part)),
        Adapter::Normalize => some(TextLevel::normalize(alloc, part)),
    }
}

// The predicate at the words' end, under no adapter.
fn plain<P: FromWords<TextWord, String>>(
    alloc: Global,
    words: &mut Vec<TextWord>,
) -> Result<Option<TextLevel<P>>, AllocError> {
    match Level::<P, String>::from_words(alloc, words)? {
        Some(level) => Ok(Some(TextLevel::of_level(level))),
        None => Ok(None),
    }
}

impl<P: FromWords<TextWord, String>> FromWords<TextWord, String> for TextLevel<P> {
    ghost always_lawful = { λ p. lawful_by_type
        (λ l. all_parts P.always_lawful l.node)
        (lawful_by_type
        (λ q. P.always_lawful (inner_of q))
        (λ q. P.always_lawful (inner_of q)))
        p.node };

    fn from_words(
        alloc: Global,
        words: &mut Vec<TextWord>,
    ) -> Result<Option<TextLevel<P>>, AllocError> {
        match pop_adapter(words) {
            Some(adapter) => adapted(alloc, words, adapter),
            None => plain(alloc, words),
        }
    }
}

// Takes the last word if it names the adapter from bytes to a text, and says whether it did.
fn pop_from_utf8(words: &mut Vec<TextWord>) -> bool {
    let found = matches!(words.last(), Some(TextWord::FromUtf8));
    if found {
        words.pop();
    }
    found
}

impl<P: FromWords<TextWord, String>> FromWords<TextWord, Vec<u8>> for Utf8Predicate<P> {
    ghost always_lawful = { λ p. P.always_lawful (inner_of p) };

    fn from_words(
        alloc: Global,
        words: &mut Vec<TextWord>,
    ) -> Result<Option<Utf8Predicate<P>>, AllocError> {
        if !pop_from_utf8(words) {
            return Ok(None);
        }
        match P::from_words(alloc, words)? {
            Some(part) => Ok(Some(part.from_utf8())),
            None => Ok(None),
        }
    }
}

// A type of many levels is made in steps, since a call at all of them at once is dear to check.
fn answer_two<P: FromWords<TextWord, String>>(
    alloc: Global,
    words: Vec<TextWord>,
    item: &String,
) -> Result<Option<Answers>, AllocError> {
    answer::<TextLevel<TextLevel<P>>, TextWord, String>(alloc, words, item)
}

fn answer_four<P: FromWords<TextWord, String>>(
    alloc: Global,
    words: Vec<TextWord>,
    item: &String,
) -> Result<Option<Answers>, AllocError> {
    answer_two::<TextLevel<TextLevel<P>>>(alloc, words, item)
}

/// What the predicate of the words answers on a text, which is made of the library's own types at
/// every node; none where the words are not one predicate of texts.
pub fn answer_text(
    alloc: Global,
    words: Vec<TextWord>,
    item: &String,
) -> Result<Option<Answers>, AllocError> {
    answer_four::<TextLevel<TextLeaf>>(alloc, words, item)
}

fn answer_over<P: FromWords<TextWord, Vec<u8>>>(
    alloc: Global,
    words: Vec<TextWord>,
    item: &Vec<u8>,
) -> Result<Option<Answers>, AllocError> {
    answer::<Level<Level<P, Vec<u8>>, Vec<u8>>, TextWord, Vec<u8>>(alloc, words, item)
}

fn answer_utf8<P: FromWords<TextWord, String>>(
    alloc: Global,
    words: Vec<TextWord>,
    item: &Vec<u8>,
) -> Result<Option<Answers>, AllocError> {
    answer_over::<Utf8Predicate<P>>(alloc, words, item)
}

/// What the predicate of the words answers on bytes, which is made of the library's own types at
/// every node; none where the words are not one predicate of bytes.
pub fn answer_bytes(
    alloc: Global,
    words: Vec<TextWord>,
    item: &Vec<u8>,
) -> Result<Option<Answers>, AllocError> {
    answer_utf8::<TextLevel<TextLevel<TextLeaf>>>(alloc, words, item)
}
