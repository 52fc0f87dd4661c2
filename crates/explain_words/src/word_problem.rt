//! What is wrong with a word.
use std::error::Error;
use std::fmt;

/// What is wrong with a word, over the checks of those before it.
#[derive(Clone, Copy, Debug, PartialEq, Eq)]
pub enum WordProblem {
    /// There is no such word.
    NoSuchWord,
    /// It takes more checks than there are.
    TooFewChecks,
    /// Its regular expression is rejected.
    BadExpression,
    /// Its check would be deeper than `MAX_DEPTH`.
    TooDeep,
}

impl fmt::Display for WordProblem {
    ghost use Rattle.std.specs.Prelude.{Some};
    ghost use Rattle.explain_words.specs.WordsError.{problem_text};

    ghost output = { λ problem. Some (problem_text problem) };

    fn fmt<W: fmt::Write>(&self, f: &mut fmt::Formatter<W>) -> fmt::Result {
        match self {
            WordProblem::NoSuchWord => write!(f, "no such word"),
            WordProblem::TooFewChecks => write!(f, "takes more checks than there are"),
            WordProblem::BadExpression => write!(f, "regular expression rejected"),
            WordProblem::TooDeep => write!(f, "check nested too deep"),
        }
    }
}

impl Error for WordProblem {}
