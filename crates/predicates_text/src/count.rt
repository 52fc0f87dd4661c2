//! How often one text occurs in another. The call takes no memory.
//!
//! ```
//! assert_eq!(rt; count("aaaa", "aa"), 2);
//! ```
ghost use Rattle.std.specs.Str.{chars};
ghost use Rattle.std.specs.Prelude.{◌≡◌, ◌≢◌, ◌+◌, [], length, filter, nat_eq, IfSome, MatchOption};
ghost use Rattle.memchr.specs.Find.{FindsNeedle};
ghost use Rattle.predicates_text.specs.Count.{IsCountOf, IsPastFirst, IsNowhere, count_of};

use crate::search::LONG;
use memchr::arch::all::is_prefix;
use memchr::arch::all::packedpair::Pair;
use memchr::memchr;
use memchr::memmem::Finder;

/// The greatest number of occurrences of the pattern in the text of which no two overlap.
///
/// The empty pattern occurs before each character and at the end.
pub fn count(text: &str, pattern: &str) -> usize
    ensures greatest { IsCountOf (chars pattern.now) (chars text.now) result }
    ensures bytes { pattern.now ≢ [] → IsCountOf pattern.now text.now result }
    ensures empty { pattern.now ≡ [] → result ≡ length (chars text.now) + 1 }
    ensures value { result ≡ count_of (chars pattern.now) (chars text.now) }
{
    if pattern.is_empty() {
        return text.chars().count() + 1;
    }
    // An ASCII character occurs wherever its byte does.
    if let [byte] = pattern.as_bytes() {
        if byte.is_ascii() {
            return count_byte(*byte, text);
        }
    }
    // In a long text the searcher is made once, for all occurrences.
    let search = if text.len() < LONG {
        None
    } else {
        Some(Searcher::new(pattern.as_bytes()))
    };
    let mut count = 0;
    let mut rest = text;
    while let Some(after) = after_first_match(rest, pattern, &search) {
        count += 1;
        rest = after;
    }
    count
}

// How often the byte occurs in the text.
fn count_byte(byte: u8, text: &str) -> usize
    ensures { result ≡ length (filter (nat_eq byte) text.now) }
{
    let mut count = 0;
    for other in text.as_bytes() {
        if byte == *other {
            count += 1;
        }
    }
    count
}

// What follows the first occurrence of the pattern, if there is one. The search is made for this
// pattern.
fn after_first_match<'a>(
    text: &'a str,
    pattern: &str,
    search: &Option<Searcher<'_>>,
) -> Option<&'a str>
    requires some { pattern.now ≢ [] }
    requires prepared { IfSome search.now (λ s. s.finder ≡ pattern.now) }
    ensures { MatchOption result (IsNowhere pattern.now text.now)
        (λ rest. IsPastFirst pattern.now text.now rest.now) }
{
    let (bytes, wanted) = (text.as_bytes(), pattern.as_bytes());
    // A match at the front needs no search.
    if is_prefix(bytes, wanted) {
        return Some(&text[pattern.len()..]);
    }
    let Some(search) = search else {
        let (_, rest) = text.split_once(pattern)?;
        return Some(rest);
    };
    let place = search.find(bytes, wanted)?;
    Some(&text[place + pattern.len()..])
}

// A prepared search for one pattern. `rare_index` is the position in the pattern of a byte that is
// rare in texts.
#[derive(Drop)]
struct Searcher<'p> {
    finder: Finder<'p>,
    rare_index: usize,
}

impl<'p> Searcher<'p> {
    fn new(pattern: &'p [u8]) -> Searcher<'p>
        ensures { result.finder ≡ pattern.now }
    {
        let rare_index = match Pair::new(pattern) {
            Some(pair) => pair.index1() as usize,
            None => 0,
        };
        Searcher {
            finder: Finder::new(pattern),
            rare_index,
        }
    }

    // The first occurrence of the pattern. It is mostly where the rare byte first occurs, so that
    // is tried first.
    fn find(&self, text: &[u8], pattern: &[u8]) -> Option<usize>
        requires { self.now.finder ≡ pattern.now }
        ensures { FindsNeedle text.now pattern.now 0 result }
    {
        if self.rare_index < pattern.len() && pattern.len() <= text.len() {
            let place = memchr(pattern[self.rare_index], &text[self.rare_index..])?;
            if is_prefix(&text[place..], pattern) {
                return Some(place);
            }
        }
        self.finder.find(text)
    }
}
