//! What is in a value: how much, and of which kind it is.
ghost use Rattle.std.specs.Prelude.{◌≡◌, option_and_then, is_some, length};
ghost use Rattle.std.specs.Str.{chars};
ghost use Rattle.serde_json.specs.Find.{as_integer, as_number};
ghost use Rattle.serde_json.specs.View.{view, items_view, members_view};
ghost use Rattle.vet_checks.specs.Questions.{no_item_there, no_member_there};
ghost use Rattle.vet_checks.specs.Questions.{empty_verdict, number_of_items};
ghost use Rattle.vet_checks.specs.Questions.{number_of_members, length_of, is_of_kind};

use serde_json::{Map, Value};
use vet_rules::condition::ValueKind;

fn has_no_item(items: &Vec<Value>) -> bool
    ensures { result ≡ no_item_there (items_view items.now.items) }
{
    items.is_empty()
}

fn has_no_member(members: &Map<String, Value>) -> bool
    ensures { result ≡ no_member_there (members_view members.now.entries) }
{
    members.is_empty()
}

/// Whether nothing is in it, if it may hold something.
pub(crate) fn emptiness(value: &Value) -> Option<bool>
    ensures { result ≡ empty_verdict (view value.now) }
{
    match value {
        Value::String(text) => Some(text.is_empty()),
        Value::Array(items) => Some(has_no_item(items)),
        Value::Object(members) => Some(has_no_member(members)),
        _ => None,
    }
}

fn character_count(text: &str) -> usize
    ensures { result ≡ length (chars text.now) }
{
    text.chars().count()
}

fn item_count(items: &Vec<Value>) -> usize
    ensures { result ≡ number_of_items (items_view items.now.items) }
{
    items.len()
}

fn member_count(members: &Map<String, Value>) -> usize
    ensures { result ≡ number_of_members (members_view members.now.entries) }
{
    members.len()
}

/// How many characters, items or members are in it, if it may hold some.
pub(crate) fn length(value: &Value) -> Option<usize>
    ensures { result ≡ length_of (view value.now) }
{
    match value {
        Value::String(text) => Some(character_count(text)),
        Value::Array(items) => Some(item_count(items)),
        Value::Object(members) => Some(member_count(members)),
        _ => None,
    }
}

// Whether it is a number that was read as an integer.
fn is_whole(value: &Value) -> bool
    ensures { result ≡ is_some (option_and_then as_integer (as_number (view value.now))) }
{
    match value.as_number() {
        Some(number) => number.as_i128().is_some(),
        None => false,
    }
}

/// Whether it is of the kind.
pub(crate) fn is_of(kind: ValueKind, value: &Value) -> bool
    ensures { result ≡ is_of_kind kind (view value.now) }
{
    match kind {
        ValueKind::Text => value.is_string(),
        ValueKind::Number => value.is_number(),
        ValueKind::Whole => is_whole(value),
        ValueKind::Boolean => value.is_boolean(),
        ValueKind::Array => value.is_array(),
        ValueKind::Object => value.is_object(),
        ValueKind::Null => value.is_null(),
    }
}
