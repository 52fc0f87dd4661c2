//! The table of printed texts and descriptions.
use crate::outcome::Outcome;
use crate::table::Table;
use anyhow::{Context, Result, bail};
use std::alloc::{AllocError, Global};
use tests_support::{
    Answers, TextWord, answer_bytes, answer_number, answer_text, read_number_words, read_text_words,
};

/// Rows of a predicate, its printed text and its description.
pub struct PrintedTable;

// What the predicate of the words answers. It is one of numbers where each word is a word of
// numbers, else one of bytes where a word is `from_utf8`, else one of texts. What it prints is not
// of the item, so any item serves.
fn answer(alloc: Global, predicate: &str) -> Result<Option<Answers>, AllocError> {
    if let Some(words) = read_number_words(alloc, predicate)? {
        return answer_number(alloc, words, 0);
    }
    let Some(words) = read_text_words(alloc, predicate)? else {
        return Ok(None);
    };
    if words.iter().any(|word| matches!(word, TextWord::FromUtf8)) {
        return answer_bytes(alloc, words, &Vec::new(alloc));
    }
    answer_text(alloc, words, &String::new(alloc))
}

impl Table for PrintedTable {
    fn replay(&self, cells: &[&str], outcome: &mut Outcome) -> Result<()> {
        let [predicate, printed, description] = cells else {
            bail!("not three cells");
        };
        let answers = answer(outcome.alloc, predicate)?.context("no predicate, or too deep")?;
        compare_printed(outcome, &answers, printed, description)
    }
}

fn compare_printed(
    outcome: &mut Outcome,
    answers: &Answers,
    printed: &str,
    description: &str,
) -> Result<()> {
    outcome.compare("text", printed, answers.text.as_str())?;
    outcome.compare("description", description, answers.description.as_str())
}
