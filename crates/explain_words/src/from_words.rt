//! The check of words in postfix order.
ghost use Rattle.std.specs.Prelude.{◌≡◌, ◌≢◌, ◌<◌, ◌≤◌, ℕ, suc, List, [], ◌∷◌, ◌++◌, IfOk, IfErr};
ghost use Rattle.std.specs.Prelude.{MatchOption, length};
ghost use Rattle.explain_words.specs.Applied.{operand_count};
ghost use Rattle.explain_words.specs.Depths.{depth_over, AreTracked};
ghost use Rattle.explain_words.specs.Postfix.{written, Makes, AreWithin, depth};
ghost use Rattle.explain_words.specs.Postfix.{IsProblem, IsErrorOf};
ghost use Rattle.explain_words.specs.declared.from_words.TheConstants.{MAX_DEPTH};

use crate::apply::apply_word;
use crate::check::TextCheck;
use crate::word::{Word, read_word};
use crate::word_fault::WordFault;
use crate::word_problem::WordProblem;
use crate::words_error::WordsError;
use std::alloc::{AllocError, Global};

/// How deep a check of `TextCheck::from_words` may be: how many checks lie around its deepest leaf.
/// A stack of 8 MiB bears twice as many.
pub const MAX_DEPTH: usize = 2_000;

// The depth of a check around one of this depth, or `None` past the limit.
fn one_more(inner: usize) -> Option<usize>
    ensures { MatchOption result (MAX_DEPTH ≤ inner)
        (λ depth. (depth ≡ suc inner) × (inner < MAX_DEPTH)) }
{
    if inner < MAX_DEPTH {
        Some(inner + 1)
    } else {
        None
    }
}

// The last depth, taken off.
fn pop_depth(depths: &mut Vec<usize>) -> usize
    ensures { (front : List ℕ) → (last : ℕ) → depths.old.items ≡ front ++ last ∷ []
        → (depths.new.items ≡ front) × (result ≡ last) }
{
    depths.pop().unwrap_or(0)
}

// The depth of the word's check over the operands whose depths it takes off, or `None` past the
// limit.
fn take_depth(depths: &mut Vec<usize>, word: &Word) -> Option<usize>
    ensures { (left operands : List ℕ) → depths.old.items ≡ left ++ operands
        → length operands ≡ operand_count word.now
        → MatchOption result (MAX_DEPTH < depth_over operands)
        (λ depth. (depth ≡ depth_over operands) × (depth ≤ MAX_DEPTH) × (depths.new.items ≡ left)) }
{
    match word {
        Word::Trim | Word::Normalize | Word::Not => one_more(pop_depth(depths)),
        Word::And | Word::Or | Word::Xor => {
            let right = pop_depth(depths);
            let left = pop_depth(depths);
            one_more(left.max(right))
        }
        _ => Some(0),
    }
}

/// Applies the word with the token to the checks, or says what is wrong with it. `depths` has the
/// depth of each check, none past `MAX_DEPTH`, before and after a word that is applied.
///
/// After a problem or an error nothing is said of the checks and of the depths.
///
/// ```
/// let mut checks = Vec::new(alloc);
/// let mut depths = Vec::new(alloc);
/// assert!(rt; take_word(alloc, &mut checks, &mut depths, "empty")?.is_none());
/// assert!(rt; checks.len() == 1);
/// ```
pub fn take_word(
    alloc: Global,
    checks: &mut Vec<TextCheck>,
    depths: &mut Vec<usize>,
    token: &str,
) -> Result<Option<WordProblem>, AllocError>
    requires { AreTracked checks.now.items depths.now.items }
    ensures { IfOk result (λ found. MatchOption found
        (Makes (token.now ∷ []) checks.old.items checks.new.items
        × AreTracked checks.new.items depths.new.items)
        (λ problem. IsProblem problem checks.old.items token.now)) }
{
    let Some(word) = read_word(alloc, token)? else {
        return Ok(Some(WordProblem::NoSuchWord));
    };
    let depth = take_depth(depths, &word);
    match apply_word(alloc, checks, word) {
        Ok(()) => {}
        Err(WordFault::Operand) => return Ok(Some(WordProblem::TooFewChecks)),
        Err(WordFault::Pattern) => return Ok(Some(WordProblem::BadExpression)),
        Err(WordFault::NoMemory) => return Err(AllocError),
    }
    let Some(depth) = depth else {
        return Ok(Some(WordProblem::TooDeep));
    };
    depths.push(depth)?;
    Ok(None)
}

// The checks that the words leave.
fn take_words(alloc: Global, words: &[String]) -> Result<Vec<TextCheck>, WordsError>
    ensures made { IfOk result (λ checks. Makes (written words.now) [] checks.items) }
    ensures within { IfOk result (λ checks. AreWithin checks.items) }
    ensures error { IfErr result (IsErrorOf (written words.now)) }
{
    let mut checks = Vec::new(alloc);
    let mut depths = Vec::new(alloc);
    for (index, word) in words.iter().enumerate() {
        if let Some(problem) = take_word(alloc, &mut checks, &mut depths, word)? {
            let word = String::from_str(alloc, word)?;
            return Err(WordsError::BadWord(index + 1, word, problem));
        }
    }
    Ok(checks)
}

impl TextCheck {
    /// The one check that the words leave, applied in order as by `apply_word`. It is no deeper
    /// than `MAX_DEPTH`: what evaluates, explains or prints a check takes stack for each level of
    /// it.
    ///
    /// An error names the first wrong word. It takes memory for the check, a depth for each check
    /// that waits for a word, and a copy of the wrong word.
    ///
    /// ```
    /// let check = TextCheck::from_words(alloc, &words)?; // `empty`, `trim`, `not`
    /// assert!(rt; check.eval(alloc, &text)?);
    /// ```
    pub fn from_words(alloc: Global, words: &[String]) -> Result<TextCheck, WordsError>
        ensures made { IfOk result (λ check. Makes (written words.now) [] (check ∷ [])) }
        ensures within { IfOk result (λ check. depth check ≤ MAX_DEPTH) }
        ensures error { IfErr result (IsErrorOf (written words.now)) }
    {
        let mut checks = take_words(alloc, words)?;
        let count = checks.len();
        match checks.pop() {
            Some(check) if checks.is_empty() => Ok(check),
            _ => Err(WordsError::NotOne(count)),
        }
    }
}
