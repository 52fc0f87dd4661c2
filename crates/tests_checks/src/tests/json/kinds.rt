//! Values of each kind, to predicates of each kind.
use super::helpers::{Row, is_leaf};
use crate::tests::made::owned;
use predicates::prelude::*;
use predicates_json::{PredicateJsonExt, is_null};
use serde_json::{Map, Value};

const SIGNED: [Row; 12] = [
    ("18", true, "var: 18"),
    ("-1", false, "var: -1"),
    ("9223372036854775807", true, "var: 9223372036854775807"),
    ("9223372036854775808", false, "error: is too large for i64"),
    ("18.0", false, "error: is a float"),
    ("1e3", false, "error: is a float"),
    ("\"18\"", false, "error: is a string"),
    ("true", false, "error: is a boolean"),
    ("null", false, "error: is null"),
    ("[18]", false, "error: is an array"),
    ("{\"18\":18}", false, "error: is an object"),
    ("-9223372036854775808", false, "var: -9223372036854775808"),
];

#[test]
fn signed_numbers(rt: HostRuntime) {
    let adult = predicate::ge(18i64).of_number();
    for row in &SIGNED {
        assert!(rt; is_leaf(&rt, &adult, "var >= 18", *row));
    }
}

const UNSIGNED: [Row; 5] = [
    ("18446744073709551615", true, "var: 18446744073709551615"),
    ("17", false, "var: 17"),
    ("-1", false, "error: is negative"),
    ("0.5", false, "error: is a float"),
    ("\"\"", false, "error: is a string"),
];

#[test]
fn unsigned_numbers(rt: HostRuntime) {
    let adult = predicate::ge(18u64).of_number();
    for row in &UNSIGNED {
        assert!(rt; is_leaf(&rt, &adult, "var >= 18", *row));
    }
}

const FLOATS: [Row; 5] = [
    ("0.5", true, ""),
    ("1", true, ""),
    ("18446744073709551615", true, ""),
    ("-1e-3", false, ""),
    ("\"0.5\"", false, "error: is a string"),
];

#[test]
fn floats(rt: HostRuntime) {
    let half = predicate::function(|number: &f64| *number >= 0.5)
        .fn_name("half")
        .of_number();
    for row in &FLOATS {
        assert!(rt; is_leaf(&rt, &half, "half(var)", *row));
    }
}

const TEXTS: [Row; 4] = [
    ("\"Ann\"", true, "var: Ann"),
    ("\"\\u0042ob\"", false, "var: Bob"),
    ("7", false, "error: is a number"),
    ("7.5", false, "error: is a number"),
];

#[test]
fn strings(rt: HostRuntime) {
    let named = predicate::str::starts_with(owned(&rt, "A")).of_string();
    for row in &TEXTS {
        assert!(rt; is_leaf(&rt, &named, "var.starts_with(\"A\")", *row));
    }
}

const TRUTHS: [Row; 3] = [
    ("true", true, "var: true"),
    ("false", false, "var: false"),
    ("0", false, "error: is a number"),
];

#[test]
fn truths(rt: HostRuntime) {
    let set = predicate::eq(true).of_bool();
    for row in &TRUTHS {
        assert!(rt; is_leaf(&rt, &set, "var == true", *row));
    }
}

const ARRAYS: [Row; 3] = [
    ("[1, 2]", true, ""),
    ("[]", false, ""),
    ("{}", false, "error: is an object"),
];

#[test]
fn arrays(rt: HostRuntime) {
    let long = predicate::function(|items: &Vec<Value>| items.len() > 1)
        .fn_name("long")
        .of_array();
    for row in &ARRAYS {
        assert!(rt; is_leaf(&rt, &long, "long(var)", *row));
    }
}

const OBJECTS: [Row; 3] = [
    ("{\"a\":1}", true, ""),
    ("{}", false, ""),
    ("[]", false, "error: is an array"),
];

#[test]
fn objects(rt: HostRuntime) {
    let some = predicate::function(|members: &Map<String, Value>| !members.is_empty())
        .fn_name("some")
        .of_object();
    for row in &OBJECTS {
        assert!(rt; is_leaf(&rt, &some, "some(var)", *row));
    }
}

const NULLS: [Row; 6] = [
    ("null", true, ""),
    ("false", false, "error: is a boolean"),
    ("0", false, "error: is a number"),
    ("\"null\"", false, "error: is a string"),
    ("[]", false, "error: is an array"),
    ("{}", false, "error: is an object"),
];

#[test]
fn nulls(rt: HostRuntime) {
    for row in &NULLS {
        assert!(rt; is_leaf(&rt, &is_null(), "var.is_null()", *row));
    }
}
