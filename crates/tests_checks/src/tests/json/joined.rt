//! Predicates of values joined by others, and what they tell of themselves.
use super::helpers::explains_json;
use crate::tests::made::{Host, owned};
use predicates::prelude::*;
use predicates_json::{PredicateJsonExt, has_pointer, is_null};
use serde_json::{Error, Value};
use tests_support::is_described;

// Whether a rule over a record explains its verdict on the JSON text by the lines.
fn explains_record(rt: &impl Host, json: &str, lines: &str) -> bool {
    let (name, start) = (owned(rt, "/name"), owned(rt, "A"));
    let adult = predicate::ge(18i64).of_number().of_pointer("/age");
    let named = predicate::str::starts_with(start)
        .of_string()
        .of_pointer(name);
    let guarded = has_pointer("/guardian").name("guarded");
    explains_json(rt, &adult.and(named.not()).or(guarded), json, lines)
}

#[test]
fn records(rt: HostRuntime) {
    let lines = "\
((/age && (! /name)) || guarded) = false
  left: (/age && (! /name)) = false
    right: (! /name) = false
      predicate: /name = true
        value: var.starts_with(\"A\") = true
          - var: Ann
  right: guarded = false
    guarded: exists(/guardian) = false
";
    assert!(rt; explains_record(&rt, "{\"age\":18,\"name\":\"Ann\"}", lines));
    let lines = "\
((/age && (! /name)) || guarded) = true
  left: (/age && (! /name)) = true
    left: /age = true
      value: var >= 18 = true
        - var: 18
    right: (! /name) = true
      predicate: /name = false
        value: var.starts_with(\"A\") = false
          - error: no value
";
    assert!(rt; explains_record(&rt, "{\"age\":18}", lines));
}

// Whether a rule over a row explains its verdict on the JSON text by the lines.
fn explains_row(rt: &impl Host, json: &str, lines: &str) -> bool {
    let rule = is_null().of_pointer("/1").of_pointer("/rows");
    explains_json(rt, &rule, json, lines)
}

#[test]
fn pointers_below_pointers(rt: HostRuntime) {
    let lines = "\
/rows = false
  value: /1 = false
    value: var.is_null() = false
      - error: is a boolean
";
    assert!(rt; explains_row(&rt, "{\"rows\":[null,true]}", lines));
    let lines = "/rows = false\n  value: /1 = false\n    - error: no value\n";
    assert!(rt; explains_row(&rt, "{}", lines));
}

// Whether the value at `/x` is the wanted one.
fn is_wanted(rt: &impl Host, json: &str) -> bool {
    let wanted = Value::from_str(rt.alloc(), "{\"a\":[1,null],\"b\":0}").expect(rt, "memory");
    let value = Value::from_str(rt.alloc(), json).expect(rt, "memory");
    let same = predicate::eq(wanted).of_pointer("/x");
    same.eval(rt.alloc(), &value).expect(rt, "memory")
}

#[test]
fn whole_values(rt: HostRuntime) {
    assert!(rt; is_wanted(&rt, "{\"x\":{\"b\":0,\"a\":[1,null]}}"));
    assert!(rt; !is_wanted(&rt, "{\"x\":{\"b\":0,\"a\":[null,1]}}"));
}

// Whether a rule of two values describes its parts by the lines.
fn describes_parts(rt: &impl Host, lines: &str) -> bool {
    let adult = predicate::ge(18u64).of_number().of_pointer("/age");
    let rule = adult.and(predicate::eq(true).of_bool());
    is_described(rt.alloc(), &rule, lines).expect(rt, "memory")
}

#[test]
fn parts(rt: HostRuntime) {
    let lines = "\
(/age && var == true)
left: /age
  value: var >= 18
    predicate: var >= 18
right: var == true
  predicate: var == true
";
    assert!(rt; describes_parts(&rt, lines));
}
