//! Rules that join, deny and range over two tests of a table, on each record of another: the blocks
//! beside those of a plain reference.
use super::reference::{
    Against, Answer, Test, denied, joined, push_rule, ranged, tested, value_of,
};
use super::{Expected, writes};
use serde_json::Value;
use std::alloc::Global;
use std::fmt::Write;
use std::process::Abort;
use vet_run::settings::Report;

const STATES: [Test<'static>; 5] = [
    ("/ exists", &[], "exists", Against::Nothing),
    ("/x missing", &["x"], "missing", Against::Nothing),
    ("/x is_empty", &["x"], "is_empty", Against::Nothing),
    ("/l is_empty", &["l"], "is_empty", Against::Nothing),
    ("/a~1b~0 exists", &["a/b~"], "exists", Against::Nothing),
];

const COMPARISONS: [Test<'static>; 10] = [
    ("/x == 1", &["x"], "==", Against::Whole(1)),
    ("/x != 1", &["x"], "!=", Against::Whole(1)),
    (
        "/x < 18446744073709551615",
        &["x"],
        "<",
        Against::Whole(18446744073709551615),
    ),
    (
        "/x > -9223372036854775808",
        &["x"],
        ">",
        Against::Whole(-9223372036854775808),
    ),
    ("/l/1 >= 1", &["l", "1"], ">=", Against::Whole(1)),
    ("/x <= \"b\"", &["x"], "<=", Against::Text("b")),
    ("/x < \"\u{e9}\"", &["x"], "<", Against::Text("\u{e9}")),
    ("/x != true", &["x"], "!=", Against::Truth(true)),
    ("/x == null", &["x"], "==", Against::Null),
    ("/x > null", &["x"], ">", Against::Null),
];

const TEXTS: [Test<'static>; 7] = [
    (
        "/x in [1, \"b\", null]",
        &["x"],
        "in",
        Against::OneOf(&["1", "\"b\"", "null"]),
    ),
    ("/x in []", &["x"], "in", Against::OneOf(&[])),
    (
        "/x starts_with \"AB\"",
        &["x"],
        "starts_with",
        Against::Text("AB"),
    ),
    ("/ ends_with \"BC\"", &[], "ends_with", Against::Text("BC")),
    ("/x contains \"B\"", &["x"], "contains", Against::Text("B")),
    ("/x contains \"\"", &["x"], "contains", Against::Text("")),
    (
        "/x matches \"^[A-Z]{3}$\"",
        &["x"],
        "matches",
        Against::Text(""),
    ),
];

const PATHS_AND_KINDS: [Test<'static>; 9] = [
    ("/x == /l/1", &["x"], "==", Against::Place(&["l", "1"])),
    (
        "/x >= /l/0/x",
        &["x"],
        ">=",
        Against::Place(&["l", "0", "x"]),
    ),
    ("/x length > 1", &["x"], ">", Against::Length(1)),
    ("/l length <= 2", &["l"], "<=", Against::Length(2)),
    ("/x is number", &["x"], "is", Against::Kind("number")),
    ("/x is whole", &["x"], "is", Against::Kind("whole")),
    ("/l is array", &["l"], "is", Against::Kind("array")),
    (
        "keys / in [\"l\", \"x\"]",
        &[],
        "keys",
        Against::Keys(&["l", "x"]),
    ),
    ("keys /l in [\"x\"]", &["l"], "keys", Against::Keys(&["x"])),
];

// The second test of a pair.
const SECOND: [Test<'static>; 3] = [
    ("/x missing", &["x"], "missing", Against::Nothing),
    ("/x != 1", &["x"], "!=", Against::Whole(1)),
    ("/ ends_with \"BC\"", &[], "ends_with", Against::Text("BC")),
];

// How many records there are.
const COUNT: u64 = 14;

pub(super) const RECORDS: &str = "\
{}
null
\"ABC\"
[1, 2]
{\"x\": 1}
{\"x\": -9223372036854775808}
{\"x\": 18446744073709551615, \"l\": []}
{\"x\": 1.0, \"l\": [1, \"b\", null, {\"x\": 1}]}
{\"x\": \"b\", \"l\": {\"x\": 1}}
{\"x\": \"ABC\", \"l\": [{\"x\": \"ABC\"}, {\"x\": \"b\"}]}
{\"x\": true, \"l\": [[], {\"x\": {}}, \"ABC\", 0]}
{\"x\": null, \"a/b~\": 0, \"l\": [{\"x\": null, \"l\": [1, 1]}]}
{\"x\": [], \"l\": \"AB\"}
{\"x\": \"\u{e9}\", \"l\": [{\"x\": \"\"}]}";

// Two answers, in order.
fn two(rt: &impl Abort, alloc: Global, left: Answer, right: Answer) -> Vec<Answer> {
    let mut parts = Vec::new(alloc);
    parts.push(left).expect(rt, "memory");
    parts.push(right).expect(rt, "memory");
    parts
}

// What two tests say of the value.
fn parts_of(
    rt: &impl Abort,
    alloc: Global,
    first: Test<'_>,
    second: Test<'_>,
    value: &Value,
) -> Vec<Answer> {
    let left = tested(rt, alloc, first, value);
    let right = tested(rt, alloc, second, value);
    two(rt, alloc, left, right)
}

// What is said of the value by two tests that the word joins.
fn pair(
    rt: &impl Abort,
    alloc: Global,
    word: &str,
    first: Test<'_>,
    second: Test<'_>,
    value: &Value,
) -> Answer {
    let (left, right) = (first.0, second.0);
    let text = format!(in alloc; "{left} {word} {right}").expect(rt, "memory");
    let parts = parts_of(rt, alloc, first, second, value);
    joined(rt, alloc, text, word, &parts)
}

// What is said of each item.
fn pairs(
    rt: &impl Abort,
    alloc: Global,
    word: &str,
    first: Test<'_>,
    second: Test<'_>,
    found: Option<&Value>,
) -> Vec<Answer> {
    let mut parts = Vec::new(alloc);
    if let Some(Value::Array(items)) = found {
        for item in items {
            parts
                .push(pair(rt, alloc, word, first, second, item))
                .expect(rt, "memory");
        }
    }
    if let Some(Value::Object(members)) = found {
        for item in members.values() {
            parts
                .push(pair(rt, alloc, word, first, second, item))
                .expect(rt, "memory");
        }
    }
    parts
}

// What is said of the items at `/l`.
fn over_items(
    rt: &impl Abort,
    alloc: Global,
    quantifier: &str,
    word: &str,
    (first, second): (Test<'_>, Test<'_>),
    value: &Value,
) -> Answer {
    let (left, right) = (first.0, second.0);
    let text = format!(in alloc; "{quantifier} /l ({left} {word} {right})").expect(rt, "memory");
    let found = value_of(value, &["l"]);
    let parts = pairs(rt, alloc, word, first, second, found);
    ranged(rt, alloc, text, quantifier, found, &parts)
}

fn denied_row(rt: &impl Abort, alloc: Global, part: Answer) -> Answer {
    let inner = part.text.as_str();
    let text = format!(in alloc; "not ({inner})").expect(rt, "memory");
    denied(rt, alloc, text, &part)
}

fn denied_range(rt: &impl Abort, alloc: Global, part: Answer) -> Answer {
    let inner = part.text.as_str();
    let text = format!(in alloc; "not {inner}").expect(rt, "memory");
    denied(rt, alloc, text, &part)
}

// Two parts that the word joins, of which the first may be joined itself.
fn both(
    rt: &impl Abort,
    alloc: Global,
    word: &str,
    is_row: bool,
    left: Answer,
    right: Answer,
) -> Answer {
    let (open, close) = if is_row { ("(", ")") } else { ("", "") };
    let (a, b) = (left.text.as_str(), right.text.as_str());
    let text = format!(in alloc; "{open}{a}{close} {word} {b}").expect(rt, "memory");
    let parts = two(rt, alloc, left, right);
    joined(rt, alloc, text, word, &parts)
}

// A range, joined with the opposite of another.
fn both_ranges(
    rt: &impl Abort,
    alloc: Global,
    first: Test<'_>,
    second: Test<'_>,
    value: &Value,
) -> Answer {
    let right = over_items(rt, alloc, "any", "xor", (first, second), value);
    let right = denied_range(rt, alloc, right);
    let left = over_items(rt, alloc, "any", "or", (first, second), value);
    both(rt, alloc, "xor", false, left, right)
}

// A row, joined with the opposite of another.
fn both_rows(
    rt: &impl Abort,
    alloc: Global,
    first: Test<'_>,
    second: Test<'_>,
    value: &Value,
) -> Answer {
    let right = pair(rt, alloc, "and", second, first, value);
    let right = denied_row(rt, alloc, right);
    let left = pair(rt, alloc, "or", first, second, value);
    both(rt, alloc, "and", true, left, right)
}

const NAMES: [&str; 10] = ["a", "b", "c", "d", "e", "f", "g", "h", "i", "j"];

// What the rule of this name over two tests says of the value.
fn said(
    rt: &impl Abort,
    alloc: Global,
    name: &str,
    first: Test<'_>,
    second: Test<'_>,
    value: &Value,
) -> Answer {
    match name {
        "a" => pair(rt, alloc, "and", first, second, value),
        "b" => pair(rt, alloc, "or", first, second, value),
        "c" => pair(rt, alloc, "xor", first, second, value),
        "d" => denied_row(rt, alloc, pair(rt, alloc, "and", first, second, value)),
        "e" => denied_row(rt, alloc, pair(rt, alloc, "xor", first, second, value)),
        "f" => over_items(rt, alloc, "each", "or", (first, second), value),
        "g" => over_items(rt, alloc, "any", "and", (first, second), value),
        "h" => {
            let part = over_items(rt, alloc, "each", "xor", (first, second), value);
            denied_range(rt, alloc, part)
        }
        "i" => both_ranges(rt, alloc, first, second, value),
        _ => both_rows(rt, alloc, first, second, value),
    }
}

// Writes the rule of this name.
fn push_named(rt: &impl Abort, rules: &mut String, name: &str, text: &str) {
    rules.push_str(name).expect(rt, "memory");
    rules.push_str(": ").expect(rt, "memory");
    rules.push_str(text).expect(rt, "memory");
    rules.push_str("\n").expect(rt, "memory")
}

// The file of these rules. A rule's text depends on no value.
fn rules_of(rt: &impl Abort, alloc: Global, first: Test<'_>, second: Test<'_>) -> String {
    let mut rules = String::new(alloc);
    for name in NAMES {
        let rule = said(rt, alloc, name, first, second, &Value::Null);
        push_named(rt, &mut rules, name, &rule.text);
    }
    rules
}

// Writes the lines of the rule where it does not hold, and keeps those of the first one.
fn push_broken(
    rt: &impl Abort,
    alloc: Global,
    all: &mut String,
    one: &mut String,
    name: &str,
    rule: &Answer,
) {
    if rule.holds {
        return;
    }
    push_rule(rt, alloc, all, name, rule);
    if one.is_empty() {
        one.push_str(all).expect(rt, "memory");
    }
}

// The lines of the rules that the value breaks: of all, and of the first.
fn broken(
    rt: &impl Abort,
    alloc: Global,
    first: Test<'_>,
    second: Test<'_>,
    value: &Value,
) -> (String, String) {
    let mut all = String::new(alloc);
    let mut one = String::new(alloc);
    for name in NAMES {
        let rule = said(rt, alloc, name, first, second, value);
        push_broken(rt, alloc, &mut all, &mut one, name, &rule);
    }
    (all, one)
}

// Writes the block of the record of this number.
fn push_block(rt: &impl Abort, to: &mut String, number: usize, lines: &str) {
    writeln!(to, "record {number}: false").expect(rt, "memory");
    to.push_str(lines).expect(rt, "memory")
}

// The blocks of all values, with all rules that they break, and with the first; and how many break
// one.
fn blocks(
    rt: &impl Abort,
    alloc: Global,
    first: Test<'_>,
    second: Test<'_>,
    values: &[Value],
) -> (String, String, u64) {
    let mut all = String::new(alloc);
    let mut one = String::new(alloc);
    let mut failed = 0u64;
    for (index, value) in values.iter().enumerate() {
        let (lines, first_lines) = broken(rt, alloc, first, second, value);
        if !lines.is_empty() {
            failed = failed.saturating_add(1);
            let number = index.saturating_add(1);
            push_block(rt, &mut all, number, &lines);
            push_block(rt, &mut one, number, &first_lines);
        }
    }
    (all, one, failed)
}

// Whether the runs over all records write what the reference does.
fn agrees(
    rt: &impl Abort,
    alloc: Global,
    first: Test<'_>,
    second: Test<'_>,
    values: &[Value],
) -> bool {
    let rules = rules_of(rt, alloc, first, second);
    let (all, one, failed) = blocks(rt, alloc, first, second, values);
    let whole = Expected {
        report: Report::All,
        id: None,
        rules: &rules,
        records: RECORDS.as_bytes(),
        output: all.as_bytes(),
        counts: (COUNT, failed, 0),
    };
    let short = Expected {
        report: Report::First,
        output: one.as_bytes(),
        ..whole
    };
    writes(rt, alloc, whole) && writes(rt, alloc, short)
}

// The values of the records.
fn values(rt: &impl Abort, alloc: Global) -> Vec<Value> {
    let mut values = Vec::new(alloc);
    for line in RECORDS.split('\n') {
        values
            .push(Value::from_str(alloc, line).expect(rt, "memory"))
            .expect(rt, "memory");
    }
    values
}

fn all_agree(rt: &impl Abort, alloc: Global, tests: &[Test<'static>], values: &[Value]) {
    for first in tests {
        for second in SECOND {
            let same = agrees(rt, alloc, *first, second, values);
            let (left, right) = (first.0, second.0);
            assert!(rt; same, "{left} and {right}");
        }
    }
}

#[test]
fn pairs_of_tests(rt: HostRuntime) {
    let values = values(&rt, rt.alloc());
    all_agree(&rt, rt.alloc(), &STATES, &values);
    all_agree(&rt, rt.alloc(), &COMPARISONS, &values);
    all_agree(&rt, rt.alloc(), &TEXTS, &values);
    all_agree(&rt, rt.alloc(), &PATHS_AND_KINDS, &values)
}
