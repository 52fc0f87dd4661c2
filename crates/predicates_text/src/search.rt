//! Whether one text is at the start, at the end or anywhere in another, or is another but for case.
//! These calls take no memory.
//!
//! ```
//! assert!(rt; starts_with("Hello World", "Hello"));
//! ```
ghost use Rattle.std.specs.Prelude.{◌≡◌, ◌↔◌, [], ◌∷◌, IsTrue};
ghost use Rattle.std.specs.Str.{chars};
ghost use Rattle.caseless.specs.Caseless.{IsDefaultMatch};
ghost use Rattle.memchr.specs.Find.{FindsNeedle};
ghost use Rattle.predicates_text.specs.Places.{IsFrontOf, IsBackOf, IsPartOf, is_empty, is_front};
ghost use Rattle.predicates_text.specs.Places.{is_back, is_part, is_eq_ignore_case};

use caseless::default_caseless_match_str;
use memchr::arch::all::{is_prefix, packedpair};
use memchr::memmem;

// Searching a text of at least this many bytes is faster with a search that is prepared first.
pub(crate) const LONG: usize = 512;

/// Whether the text has no characters.
pub fn is_empty(text: &str) -> bool
    ensures empty { IsTrue result ↔ (chars text.now ≡ []) }
    ensures value { result ≡ is_empty (chars text.now) }
{
    text.is_empty()
}

/// Whether the text begins with the pattern.
#[inline(always)] // a call takes as long as a comparison of a few bytes
pub fn starts_with(text: &str, pattern: &str) -> bool
    ensures front { IsTrue result ↔ IsFrontOf (chars pattern.now) (chars text.now) }
    ensures value { result ≡ is_front (chars pattern.now) (chars text.now) }
{
    if let [byte] = pattern.as_bytes() {
        return begins_with(text.as_bytes(), *byte);
    }
    text.starts_with(pattern)
}

/// Whether the text ends with the pattern.
pub fn ends_with(text: &str, pattern: &str) -> bool
    ensures back { IsTrue result ↔ IsBackOf (chars pattern.now) (chars text.now) }
    ensures value { result ≡ is_back (chars pattern.now) (chars text.now) }
{
    text.ends_with(pattern)
}

/// Whether the text contains the pattern.
pub fn contains(text: &str, pattern: &str) -> bool
    ensures part { IsTrue result ↔ IsPartOf (chars pattern.now) (chars text.now) }
    ensures bytes { IsTrue result ↔ IsPartOf pattern.now text.now }
    ensures value { result ≡ is_part (chars pattern.now) (chars text.now) }
{
    if text.len() < LONG {
        return text.contains(pattern);
    }
    find(text.as_bytes(), pattern.as_bytes()).is_some()
}

/// Whether both texts have the same default case folding of Unicode.
pub fn eq_ignore_case(text: &str, other: &str) -> bool
    ensures folded { IsTrue result ↔ IsDefaultMatch (chars other.now) (chars text.now) }
    ensures value { result ≡ is_eq_ignore_case (chars other.now) (chars text.now) }
{
    default_caseless_match_str(other, text)
}

// Whether the bytes begin with this one. It takes half the time of a comparison of any length.
fn begins_with(bytes: &[u8], byte: u8) -> bool
    ensures { IsTrue result ↔ IsFrontOf (byte ∷ []) bytes.now }
{
    match bytes {
        [first, ..] => *first == byte,
        [] => false,
    }
}

// The first occurrence of the pattern. First the two of its bytes that are rarest in texts are
// searched for: such a search is prepared in half the time of one for the whole pattern, and mostly
// gives the answer.
fn find(text: &[u8], pattern: &[u8]) -> Option<usize>
    ensures { FindsNeedle text.now pattern.now 0 result }
{
    if let Some(pair) = packedpair::Finder::new(pattern) {
        let place = pair.find_prefilter(text)?;
        if is_prefix(&text[place..], pattern) {
            return Some(place);
        }
    }
    memmem::find(text, pattern)
}
