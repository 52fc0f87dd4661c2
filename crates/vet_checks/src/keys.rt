//! The keys of an object, beside those that a rule allows.
ghost use Rattle.std.specs.Prelude.{◌≡◌, ℕ, List, IfOk, map, not, option_and_then, option_map};
ghost use Rattle.std.specs.Prelude.{string_bytes};
ghost use Rattle.std.specs.BTreeMap.{keys};
ghost use Rattle.std.specs.BTreeSet.{contains_text};
ghost use Rattle.std.specs.List.{find};
ghost use Rattle.serde_json.specs.Find.{as_object};
ghost use Rattle.serde_json.specs.View.{view, members_view};
ghost use Rattle.vet_checks.specs.Keys.{are_keys_among, is_text_among, other_key};

use serde_json::{Map, Value};
use std::alloc::{AllocError, Global};
use std::collections::BTreeSet;

/// The texts, to be looked up.
pub(crate) fn allowed_keys(
    alloc: Global,
    texts: Vec<String>,
) -> Result<BTreeSet<String>, AllocError>
    ensures { IfOk result (λ allowed. (key : List ℕ)
        → contains_text allowed key ≡ is_text_among (map string_bytes texts.items) key) }
{
    let mut allowed = BTreeSet::new(alloc);
    for text in texts {
        allowed.insert(text)?;
    }
    Ok(allowed)
}

fn is_allowed(allowed: &BTreeSet<String>, key: &str) -> bool
    ensures { result ≡ contains_text allowed.now key.now }
{
    allowed.contains(key)
}

// The first key that is not allowed.
fn key_beside<'v>(members: &'v Map<String, Value>, allowed: &BTreeSet<String>) -> Option<&'v String>
    ensures { option_map (λ key. key.now) result
        ≡ find (λ key. not (contains_text allowed.now (string_bytes key))) (keys members.now) }
{
    members.keys().find(|key| !is_allowed(allowed, key))
}

// The same, by the bytes of the keys.
fn other_of<'v>(members: &'v Map<String, Value>, allowed: &BTreeSet<String>) -> Option<&'v String>
    ensures { option_map (λ key. string_bytes key.now) result
        ≡ other_key (contains_text allowed.now) (members_view members.now.entries) }
{
    key_beside(members, allowed)
}

fn are_among(members: &Map<String, Value>, allowed: &BTreeSet<String>) -> bool
    ensures { result
        ≡ are_keys_among (contains_text allowed.now) (members_view members.now.entries) }
{
    other_of(members, allowed).is_none()
}

/// Whether each key of the object is allowed, if it is an object.
pub(crate) fn has_only(value: &Value, allowed: &BTreeSet<String>) -> Option<bool>
    ensures { result
        ≡ option_map (are_keys_among (contains_text allowed.now)) (as_object (view value.now)) }
{
    let members = value.as_object()?;
    Some(are_among(members, allowed))
}

/// The first key of the object that is not allowed, in the order of the keys, if it has one.
pub(crate) fn other_key<'v>(value: &'v Value, allowed: &BTreeSet<String>) -> Option<&'v String>
    ensures { option_map (λ key. string_bytes key.now) result ≡ option_and_then
        (other_key (contains_text allowed.now)) (as_object (view value.now)) }
{
    other_of(value.as_object()?, allowed)
}
