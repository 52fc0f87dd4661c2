//! Reasons of verdicts on values, and what would turn them, beside the search of all sets of
//! leaves.
use crate::tests::made::{Host, in_box, owned};
use predicates::prelude::*;
use predicates_json::{PredicateJsonExt, has_pointer, is_null, lacks_pointer};
use serde_json::{Error, Value};
use tests_support::{ReferenceFormula, is_explained, named_leaf};

// Whether reason and change keep the leaves that the search finds, for the value that the text is.
fn is_turned<P: PredicateChange<Value>>(
    rt: &impl Host,
    predicate: &P,
    json: &str,
    formula: &ReferenceFormula,
) -> bool
    requires { P.lawful predicate.now }
{
    let value = Value::from_str(rt.alloc(), json).expect(rt, "memory");
    is_explained(rt.alloc(), predicate, &value, formula).expect(rt, "memory")
}

// The formula of the rule over a record, by the truths of its three leaves.
fn record_formula(rt: &impl Host, truths: [bool; 3]) -> ReferenceFormula {
    let [adult, titled, guarded] = truths;
    let untitled = ReferenceFormula::Not(in_box(
        rt,
        named_leaf(rt.alloc(), titled).expect(rt, "memory"),
    ));
    let both = ReferenceFormula::And(
        in_box(rt, named_leaf(rt.alloc(), adult).expect(rt, "memory")),
        in_box(rt, untitled),
    );
    ReferenceFormula::Or(
        in_box(rt, both),
        in_box(rt, named_leaf(rt.alloc(), guarded).expect(rt, "memory")),
    )
}

const RECORDS: [(&str, [bool; 3]); 5] = [
    ("{\"age\":18,\"name\":\"Ann\"}", [true, true, false]),
    ("{\"age\":18,\"name\":\"Bob\"}", [true, false, false]),
    (
        "{\"age\":17,\"name\":\"Ann\",\"guardian\":null}",
        [false, true, true],
    ),
    ("{\"age\":18,\"guardian\":\"Eve\"}", [true, false, true]),
    ("{}", [false, false, false]),
];

// Whether the rule over a record is turned as the search finds it.
fn turns_record(rt: &impl Host, json: &str, truths: [bool; 3]) -> bool {
    let adult = predicate::ge(18i64).of_number().of_pointer("/age");
    let titled = predicate::str::starts_with(owned(rt, "A"))
        .of_string()
        .of_pointer("/name");
    let guarded = has_pointer("/guardian").name("guarded");
    let rule = adult.and(titled.not()).or(guarded);
    is_turned(rt, &rule, json, &record_formula(rt, truths))
}

#[test]
fn records(rt: HostRuntime) {
    for (json, truths) in RECORDS {
        assert!(rt; turns_record(&rt, json, truths));
    }
}

// The formula of "each member", by the members' truths.
fn each_formula(rt: &impl Host, truths: &[bool]) -> ReferenceFormula {
    let mut members = ReferenceFormula::NoMore(true);
    for truth in truths.iter().rev() {
        members = ReferenceFormula::And(
            in_box(rt, ReferenceFormula::Leaf(*truth)),
            in_box(rt, members),
        );
    }
    ReferenceFormula::Members(in_box(rt, members))
}

// Whether "each number of the array is at least 18" is turned as the search finds it.
fn turns_array(rt: &impl Host, json: &str, truths: &[bool]) -> bool {
    let adults = predicate::ge(18i64).of_number().of_each().of_array();
    is_turned(rt, &adults, json, &each_formula(rt, truths))
}

#[test]
fn arrays(rt: HostRuntime) {
    assert!(rt; turns_array(&rt, "[18,19,20]", &[true, true, true]));
    assert!(rt; turns_array(&rt, "[18,17,\"a\",20]", &[true, false, false, true]));
}

// Whether a leaf is turned of each of two values, of which it holds of the first alone.
fn turns_leaf<P: PredicateChange<Value>>(rt: &impl Host, leaf: &P, values: [&str; 2]) -> bool
    requires { P.lawful leaf.now }
{
    let [held, failed] = values;
    is_turned(rt, leaf, held, &ReferenceFormula::Leaf(true))
        && is_turned(rt, leaf, failed, &ReferenceFormula::Leaf(false))
}

#[test]
fn leaves(rt: HostRuntime) {
    assert!(rt; turns_leaf(&rt, &is_null(), ["null", "0"]));
    assert!(rt; turns_leaf(&rt, &lacks_pointer("/a"), ["{}", "{\"a\":null}"]));
    assert!(rt; turns_leaf(&rt, &predicate::eq(true).of_bool(), ["true", "1"]));
}
