//! Why words make no check.
ghost use Rattle.std.specs.Prelude.{◌≡◌};
ghost use Rattle.explain_words.specs.declared.words_error.WordsError.TheVariants.{NoMemory};

use crate::word_problem::WordProblem;
use std::alloc::AllocError;
use std::error::Error;
use std::fmt;

/// Why words make no check. Its text is one line, such as `word 3, "foo": no such word`.
#[derive(Debug, PartialEq, Eq, Drop)]
pub enum WordsError {
    /// The place of the first wrong word, from 1, the word, and what is wrong with it.
    BadWord(usize, String, WordProblem),
    /// How many checks are left, where it is not one.
    NotOne(usize),
    /// Out of memory, so nothing is said of the words.
    NoMemory,
}

impl fmt::Display for WordsError {
    ghost use Rattle.explain_words.specs.WordsError.{error_text};

    ghost output = { λ error. error_text error };

    fn fmt<W: fmt::Write>(&self, f: &mut fmt::Formatter<W>) -> fmt::Result {
        match self {
            WordsError::BadWord(place, word, problem) => {
                write!(f, "word {place}, {word:?}: {problem}")
            }
            WordsError::NotOne(count) => write!(f, "{count} checks are left, not one"),
            WordsError::NoMemory => write!(f, "no memory"),
        }
    }
}

impl Error for WordsError {}

impl From<AllocError> for WordsError {
    ghost from_gives = { λ _ error. error ≡ NoMemory };

    fn from(_error: AllocError) -> WordsError {
        WordsError::NoMemory
    }
}
