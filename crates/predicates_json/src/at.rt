//! The value that a JSON Pointer leads to.
//!
//! `Value::pointer` of `serde_json` finds the same; its contract gives the data of what it finds,
//! and this one the value itself, of which a predicate has its formula.
ghost use Rattle.std.specs.Prelude.{◌≡◌, ◌∷◌, ◌<◌, [], length, option_map, string_bytes, bytes_eq};
ghost use Rattle.std.specs.Prelude.{MatchOption, slice_get, slice_index, not, ◌||◌, ◌==◌};
ghost use Rattle.std.specs.Map.{lookup};
ghost use Rattle.serde_json.specs.Find.{unescape, index_of, pointer as points_to};
ghost use Rattle.serde_json.specs.View.{view};
ghost use Rattle.predicates_json.specs.At.{at_pointer, step as one_step};

use fast_float::Numeral;
use serde_json::{Map, Value};

/// The value at the JSON Pointer within `value`, if there is one. It takes no memory.
///
/// ```
/// let order = Value::from_str(alloc, "{\"lines\": [7]}")?;
/// let first = value_at(&order, "/lines/0");
/// assert!(rt; first.is_some());
/// ```
#[tactic(auto, using(crate::proofs::Pointed::pointed))]
pub fn value_at<'v>(value: &'v Value, pointer: &str) -> Option<&'v Value>
    ensures found { option_map (λ v. v.now) result ≡ at_pointer pointer.now value.now }
    ensures data { option_map (λ v. view v.now) result ≡ points_to pointer.now (view value.now) }
{
    at(value, pointer)
}

fn at<'v>(value: &'v Value, pointer: &str) -> Option<&'v Value>
    ensures { option_map (λ v. v.now) result ≡ at_pointer pointer.now value.now }
{
    if pointer.is_empty() {
        return Some(value);
    }
    let mut rest = pointer.strip_prefix('/')?;
    let mut found = value;
    'parts: while let Some((part, after)) = rest.split_once('/') {
        found = step(found, part)?;
        rest = after;
    }
    step(found, rest)
}

fn step<'v>(value: &'v Value, part: &str) -> Option<&'v Value>
    ensures { option_map (λ v. v.now) result ≡ one_step part.now value.now }
{
    match value {
        Value::Array(items) => item(items, place(part)?),
        Value::Object(members) => member(members, part),
        _ => None,
    }
}

#[tactic(auto, using(std::proofs::lemmas::Option::gets))]
fn item(items: &Vec<Value>, place: usize) -> Option<&Value>
    ensures { option_map (λ v. v.now) result ≡ slice_get items.now.items place }
{
    if place < items.len() {
        Some(&items[place])
    } else {
        None
    }
}

// The place in an array that the part names: digits with no 0 before another.
fn place(part: &str) -> Option<usize>
    ensures { result ≡ index_of part.now }
{
    let bytes = part.as_bytes();
    let numeral = Numeral::scan(bytes);
    let place = numeral.to_u64()?;
    if numeral.len() != bytes.len() {
        return None;
    }
    if has_no_leading_zero(bytes) {
        Some(place as usize)
    } else {
        None
    }
}

// Whether no 0 stands before other digits.
fn has_no_leading_zero(digits: &[u8]) -> bool
    ensures { result ≡ (length digits.now == 1) || not (slice_index digits.now 0 == 48) }
{
    digits.len() == 1 || digits.is_empty() || digits[0] != b'0'
}

// The member whose name the part is with its escapes undone. A part with an escape is compared with
// each name, which takes no memory.
fn member<'v>(members: &'v Map<String, Value>, part: &str) -> Option<&'v Value>
    ensures { option_map (λ v. v.now) result
        ≡ lookup (λ k. bytes_eq (unescape part.now) (string_bytes k)) members.now.entries }
{
    if !part.contains('~') {
        return members.get(part);
    }
    for (name, value) in members.iter() {
        if stands_for(part.as_bytes(), name.as_bytes()) {
            return Some(value);
        }
    }
    None
}

// Whether the part is the name with its escapes undone.
#[tactic(auto, using(crate::proofs::Escapes::escapes))]
fn stands_for(part: &[u8], name: &[u8]) -> bool
    ensures { result ≡ bytes_eq (unescape part.now) name.now }
{
    let mut part = part;
    let mut name = name;
    'bytes: while let Some((byte, after)) = first_of(part) {
        match name.split_first() {
            Some((first, rest)) if *first == byte => {
                part = after;
                name = rest;
            }
            _ => return false,
        }
    }
    name.is_empty()
}

// The first byte with its escape undone, and the part behind it.
#[tactic(auto, using(crate::proofs::Escapes::escapes))]
fn first_of(part: &[u8]) -> Option<(u8, &[u8])>
    ensures value { MatchOption result (part.now ≡ [])
        (λ p. unescape part.now ≡ p.0 ∷ unescape p.1.now) }
    ensures shorter { MatchOption result (part.now ≡ []) (λ p. length p.1.now < length part.now) }
{
    let (first, after) = part.split_first()?;
    if *first != b'~' {
        return Some((*first, after));
    }
    let Some((second, rest)) = after.split_first() else {
        return Some((*first, after));
    };
    match *second {
        b'1' => Some((b'/', rest)),
        b'0' => Some((b'~', rest)),
        _ => Some((*first, after)),
    }
}
