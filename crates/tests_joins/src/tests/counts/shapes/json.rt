//! What stands in JSON values: at a pointer, and of each kind.
use super::super::around::{Asked, Counts};
use crate::tests::made::Host;
use predicates::prelude::*;
use predicates_json::PredicateJsonExt;
use serde_json::{Map, Value};

// The value that each predicate is asked about.
fn source_of(name: &str) -> &str {
    match name {
        "of_pointer" | "no_value" | "of_array" => "[true]",
        "of_bool" => "true",
        "of_string" => "\"a\"",
        "of_object" => "{\"a\": 1}",
        "of_number" => "5",
        "misfit" => "5.5",
        _ => "null",
    }
}

type Members = Map<String, Value>;

pub fn counts_of(rt: &impl Host, name: &str, asked: Asked<'_>) -> Option<Counts> {
    let read = Value::from_str(rt.alloc(), source_of(name));
    let item = read.ok().expect(rt, "JSON");
    Some(match name {
        "of_pointer" => counts_in!(rt, asked, |value: Value| value.of_pointer("/0"), item),
        "no_value" => counts_in!(rt, asked, |value: Value| value.of_pointer("/1"), item),
        "of_bool" => counts_in!(rt, asked, |value: bool| value.of_bool(), item),
        "of_string" | "other_kind" => counts_in!(rt, asked, |text: String| text.of_string(), item),
        "of_array" => counts_in!(rt, asked, |array: Vec<Value>| array.of_array(), item),
        "of_object" => counts_in!(rt, asked, |object: Members| object.of_object(), item),
        "of_number" | "misfit" => counts_in!(rt, asked, |number: i64| number.of_number(), item),
        _ => return None,
    })
}
