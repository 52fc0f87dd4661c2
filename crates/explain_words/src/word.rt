//! A word and its token.
ghost use Rattle.std.specs.Prelude.{◌≡◌, ◌≢◌, IfOk, MatchOption};
ghost use Rattle.explain_words.specs.declared.word.Word.{Word};
ghost use Rattle.explain_words.specs.Tokens.{token_of, IsName};

use std::alloc::{AllocError, Global};

/// A word of a check of texts: a test of a text, a view of it, or what joins checks.
#[derive(Debug, PartialEq, Eq, Drop)]
pub enum Word {
    /// `empty`: it has no characters.
    Empty,
    /// `eq=S`: it is S.
    Equals(String),
    /// `starts=S`: S is a front of it.
    Starts(String),
    /// `ends=S`: S is a back of it.
    Ends(String),
    /// `contains=S`: S has a place in it.
    Contains(String),
    /// `match=S`: the regular expression S has a match in it.
    Matches(String),
    /// `trim`: the last check, without white space at the ends.
    Trim,
    /// `normalize`: the last check, with even line endings.
    Normalize,
    /// `not`: the opposite of the last check.
    Not,
    /// `and`: both of the last two checks, the earlier one as left.
    And,
    /// `or`: one or both of the last two checks, the earlier one as left.
    Or,
    /// `xor`: exactly one of the last two checks, the earlier one as left.
    Xor,
}

// The word whose token is a name, `=` and a text, or `None`.
fn read_with_text(alloc: Global, token: &str) -> Result<Option<Word>, AllocError>
    ensures { IfOk result (λ found. MatchOption found
        ((word : Word) → token.now ≡ token_of word → IsName word)
        (λ word. token.now ≡ token_of word)) }
{
    if let Some(text) = token.strip_prefix("eq=") {
        return Ok(Some(Word::Equals(String::from_str(alloc, text)?)));
    }
    if let Some(text) = token.strip_prefix("starts=") {
        return Ok(Some(Word::Starts(String::from_str(alloc, text)?)));
    }
    if let Some(text) = token.strip_prefix("ends=") {
        return Ok(Some(Word::Ends(String::from_str(alloc, text)?)));
    }
    if let Some(text) = token.strip_prefix("contains=") {
        return Ok(Some(Word::Contains(String::from_str(alloc, text)?)));
    }
    if let Some(text) = token.strip_prefix("match=") {
        return Ok(Some(Word::Matches(String::from_str(alloc, text)?)));
    }
    Ok(None)
}

/// The word with the token, or `None` where no word has it. A text is all after the first `=`, in
/// memory of its own.
///
/// ```
/// assert!(rt; read_word(alloc, "trim")? == Some(Word::Trim));
/// assert!(rt; read_word(alloc, "trimmed")?.is_none());
/// ```
pub fn read_word(alloc: Global, token: &str) -> Result<Option<Word>, AllocError>
    ensures { IfOk result (λ found. MatchOption found
        ((word : Word) → token.now ≢ token_of word)
        (λ word. token.now ≡ token_of word)) }
{
    match token {
        "empty" => Ok(Some(Word::Empty)),
        "trim" => Ok(Some(Word::Trim)),
        "normalize" => Ok(Some(Word::Normalize)),
        "not" => Ok(Some(Word::Not)),
        "and" => Ok(Some(Word::And)),
        "or" => Ok(Some(Word::Or)),
        "xor" => Ok(Some(Word::Xor)),
        _ => read_with_text(alloc, token),
    }
}
