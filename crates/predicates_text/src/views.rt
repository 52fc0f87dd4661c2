//! The texts that are made of a text.
ghost use Rattle.std.specs.Prelude.{◌≡◌, ◌≢◌, ◌↔◌, All, IfOk, IsOk, IsTrue, string_bytes};
ghost use Rattle.std.specs.Str.{chars};
ghost use Rattle.caseless.specs.Caseless.{default_case_fold};
ghost use Rattle.predicates_text.specs.Views.{trimmed, lines_even, carriage_return};
ghost use Rattle.predicates_text.specs.ViewFormulas.{IsViewOf, IsTrimmedOf, HasEvenLinesOf};
ghost use Rattle.predicates_text.specs.ViewFormulas.{trimmed_bytes, even_bytes, view_bytes};

use caseless::default_case_fold_str;
use std::alloc::{AllocError, Global};
use ucd_case::full_folding;

/// The text without its longest front and its longest back of white space, in memory of its own.
///
/// ```
/// assert!(rt; trimmed(alloc, " \ta b\u{a0}")?.as_str() == "a b");
/// ```
#[tactic(auto, using(crate::proofs::Trimming::view_of_trim))]
pub fn trimmed(alloc: Global, text: &str) -> Result<String, AllocError>
    ensures view { IfOk result (λ s. chars (string_bytes s) ≡ trimmed (chars text.now)) }
    ensures again { IfOk result (λ s. trimmed (chars (string_bytes s)) ≡ chars (string_bytes s)) }
{
    String::from_str(alloc, text.trim())
}

/// The text without the white space at its ends: the text itself where it has none there, and
/// otherwise a copy, which is stored in `copy`.
#[inline(never)]
#[tactic(auto, using(crate::proofs::Trimming::copy_of_trim))]
pub fn trimmed_view<'a>(
    alloc: Global,
    text: &'a String,
    copy: &'a mut String,
) -> Result<&'a String, AllocError>
    ensures view { IfOk result (λ view. IsTrimmedOf text.now view.now) }
    ensures bytes { IfOk result
        (λ view. string_bytes view.now ≡ trimmed_bytes (string_bytes text.now)) }
{
    if let [first, .., last] = text.as_bytes() {
        if first.is_ascii_graphic() && last.is_ascii_graphic() {
            return Ok(text);
        }
    }
    let whole = text.as_str();
    let rest = whole.trim();
    if rest.len() == whole.len() {
        return Ok(text);
    }
    *copy = String::from_str(alloc, rest)?;
    Ok(copy)
}

/// The text in which each line ends by one line feed.
///
/// A carriage return with the line feed after it, or alone, becomes a line feed. The text stands in
/// memory of its own, of which as much is taken as the old one has bytes.
///
/// ```
/// assert!(rt; lines_even(alloc, "a\r\nb\r")?.as_str() == "a\nb\n");
/// ```
pub fn lines_even(alloc: Global, text: &str) -> Result<String, AllocError>
    ensures view { IfOk result (λ s. chars (string_bytes s) ≡ lines_even (chars text.now)) }
    ensures no_return { IfOk result (λ s. All (λ c. c ≢ carriage_return) (chars (string_bytes s))) }
    ensures again { IfOk result (λ s. lines_even (chars (string_bytes s))
        ≡ chars (string_bytes s)) }
{
    let mut even = String::with_capacity(alloc, text.len())?;
    let mut rest = text;
    while let Some((line, after)) = rest.split_once('\r') {
        even.push_str(line)?;
        even.push_str("\n")?;
        rest = after.strip_prefix('\n').unwrap_or(after);
    }
    even.push_str(rest)?;
    Ok(even)
}

/// The text in which each line ends by one line feed: the text itself where it has no carriage
/// return, and otherwise a copy, which is stored in `copy`.
#[inline(never)]
pub fn lines_even_view<'a>(
    alloc: Global,
    text: &'a String,
    copy: &'a mut String,
) -> Result<&'a String, AllocError>
    ensures view { IfOk result (λ view. HasEvenLinesOf text.now view.now) }
    ensures bytes { IfOk result
        (λ view. string_bytes view.now ≡ even_bytes (string_bytes text.now)) }
{
    let Some(_) = text.find('\r') else {
        return Ok(text);
    };
    *copy = lines_even(alloc, text)?;
    Ok(copy)
}

/// The text after the default case folding of Unicode, in memory of its own.
///
/// Texts that differ in case alone have the same folding. It is no case of the text: `ß` becomes
/// `ss`.
///
/// ```
/// assert!(rt; case_folded(alloc, "Maße")?.as_str() == "masse");
/// ```
#[tactic(auto, using(crate::proofs::CaseFolding::view_of_fold))]
pub fn case_folded(alloc: Global, text: &str) -> Result<String, AllocError>
    ensures view { IfOk result
        (λ s. chars (string_bytes s) ≡ default_case_fold (chars text.now)) }
    ensures again { IfOk result
        (λ s. default_case_fold (chars (string_bytes s)) ≡ chars (string_bytes s)) }
{
    default_case_fold_str(alloc, text)
}

/// Whether the text is its own case folding. It takes no memory.
///
/// ```
/// assert!(rt; is_case_folded("masse"));
/// assert!(rt; !is_case_folded("Maße"));
/// ```
pub fn is_case_folded(text: &str) -> bool
    ensures { IsTrue result ↔ (default_case_fold (chars text.now) ≡ chars text.now) }
{
    text.chars().all(|c| full_folding(c).is_empty())
}

/// The text after the default case folding of Unicode: the text itself where that is the same, and
/// otherwise a copy, which is stored in `copy`.
#[inline(never)]
pub fn case_folded_view<'a>(
    alloc: Global,
    text: &'a String,
    copy: &'a mut String,
) -> Result<&'a String, AllocError>
    ensures view { IfOk result (λ view. IsViewOf default_case_fold text.now view.now) }
    ensures bytes { IfOk result (λ view.
        string_bytes view.now ≡ view_bytes default_case_fold (string_bytes text.now)) }
    ensures own { default_case_fold (chars (string_bytes text.now)) ≡ chars (string_bytes text.now)
        → IsOk result }
{
    if is_case_folded(text) {
        return Ok(text);
    }
    *copy = case_folded(alloc, text)?;
    Ok(copy)
}
