//! What a rule says of a value, worked out by plain steps over values of `serde_json`: its truth,
//! and the lines that say why.
use serde_json::{Map, Value};
use std::alloc::Global;
use std::cmp::Ordering;
use std::process::Abort;

/// What a test compares a value with.
#[derive(Clone, Copy)]
pub enum Against<'a> {
    Nothing,
    Whole(i128),
    Text(&'a str),
    Truth(bool),
    Null,
    /// Values as JSON writes them.
    OneOf(&'a [&'a str]),
    /// What stands at another path, by its names and places.
    Place(&'a [&'a str]),
    /// How many characters, items or members there are.
    Length(usize),
    /// A kind, by its word.
    Kind(&'a str),
    /// The keys that an object may have.
    Keys(&'a [&'a str]),
}

/// A test as a rule writes it, the names and places that its path goes by, its word, and what it
/// compares with.
pub type Test<'a> = (&'a str, &'a [&'a str], &'a str, Against<'a>);

/// A rule's text, whether it holds, and the lines below its own.
#[derive(Drop)]
pub struct Answer {
    pub text: String,
    pub holds: bool,
    pub below: String,
}

fn step<'v>(value: &'v Value, name: &str) -> Option<&'v Value> {
    match name {
        "0" => value.get(0usize),
        "1" => value.get(1usize),
        _ => value.get(name),
    }
}

/// What stands there.
pub fn value_of<'v>(value: &'v Value, names: &[&str]) -> Option<&'v Value> {
    let mut found = value;
    for name in names {
        found = step(found, name)?;
    }
    Some(found)
}

// The whole number that is shown so, with `.0` behind it or not.
fn whole_of(shown: &str) -> Option<i128> {
    let digits = match shown.strip_suffix(".0") {
        Some(digits) => digits,
        None => shown,
    };
    digits.parse::<i128>().ok()
}

// How the value, which is shown so, stands to what it is compared with, if it is of its kind.
fn order(value: &Value, shown: &str, against: Against<'_>) -> Option<Ordering> {
    match against {
        Against::Whole(n) => Some(whole_of(shown)?.cmp(&n)),
        Against::Text(text) => Some(value.as_str()?.as_bytes().cmp(text.as_bytes())),
        Against::Truth(truth) => Some(value.as_bool()?.cmp(&truth)),
        Against::Null if value.is_null() => Some(Ordering::Equal),
        Against::Null => Some(Ordering::Greater),
        _ => None,
    }
}

fn compares(word: &str, order: Ordering) -> bool {
    match word {
        "==" => order == Ordering::Equal,
        "!=" => order != Ordering::Equal,
        "<" => order == Ordering::Less,
        "<=" => order != Ordering::Greater,
        ">" => order == Ordering::Greater,
        _ => order != Ordering::Less,
    }
}

fn has_within(text: &[u8], part: &[u8]) -> bool {
    for place in 0..=text.len() {
        if text[place..].starts_with(part) {
            return true;
        }
    }
    false
}

fn is_capital(byte: u8) -> bool {
    b'A' <= byte && byte <= b'Z'
}

fn are_three_capitals(text: &[u8]) -> bool {
    match text {
        [a, b, c] => is_capital(*a) && is_capital(*b) && is_capital(*c),
        _ => false,
    }
}

// Whether the text is as the word wants it; the one pattern is that of three capitals.
fn fits(word: &str, text: &[u8], against: Against<'_>) -> bool {
    match (word, against) {
        ("starts_with", Against::Text(part)) => text.starts_with(part.as_bytes()),
        ("ends_with", Against::Text(part)) => text.ends_with(part.as_bytes()),
        ("contains", Against::Text(part)) => has_within(text, part.as_bytes()),
        _ => are_three_capitals(text),
    }
}

fn emptiness(shown: &str) -> Option<bool> {
    match shown {
        "\"\"" | "[]" | "{}" => Some(true),
        _ if shown.starts_with("\"") || shown.starts_with("[") || shown.starts_with("{") => {
            Some(false)
        }
        _ => None,
    }
}

fn is_among(against: Against<'_>, shown: &str) -> bool {
    if let Against::OneOf(all) = against {
        for one in all {
            if *one == shown || whole_of(shown).is_some() && whole_of(one) == whole_of(shown) {
                return true;
            }
        }
    }
    false
}

// Whether a value that stands there, and is shown so, answers the test; none where its kind can't.
fn verdict_of(word: &str, against: Against<'_>, value: &Value, shown: &str) -> Option<bool> {
    match word {
        "exists" => Some(true),
        "missing" => Some(false),
        "is_empty" => emptiness(shown),
        "in" => Some(is_among(against, shown)),
        "starts_with" | "ends_with" | "contains" | "matches" => {
            Some(fits(word, value.as_str()?.as_bytes(), against))
        }
        _ => Some(compares(word, order(value, shown, against)?)),
    }
}

fn misfit(against: Against<'_>) -> &'static str {
    match against {
        Against::Whole(_) => "not a number",
        Against::Truth(_) => "not true or false",
        Against::Nothing => "not a string, an array or an object",
        _ => "not a string",
    }
}

fn of_one(rt: &impl Abort, alloc: Global, test: Test<'_>, value: &Value) -> (bool, String) {
    let (_, _, word, against) = test;
    let shown = value.to_string(alloc).expect(rt, "memory");
    match verdict_of(word, against, value, &shown) {
        Some(holds) => (
            holds,
            format!(in alloc; "- found: {shown}\n").expect(rt, "memory"),
        ),
        None => {
            let error = misfit(against);
            (
                false,
                format!(in alloc; "- found: {shown}\n- error: {error}\n").expect(rt, "memory"),
            )
        }
    }
}

// What a value is compared with that stands there, and is shown so.
fn against_of<'a>(other: &'a Value, shown: &str) -> Against<'a> {
    match other {
        Value::Number(_) => match whole_of(shown) {
            Some(n) => Against::Whole(n),
            None => Against::OneOf(&[]),
        },
        Value::String(text) => Against::Text(text),
        Value::Bool(truth) => Against::Truth(*truth),
        Value::Null => Against::Null,
        _ => Against::OneOf(&[]),
    }
}

fn of_two(
    rt: &impl Abort,
    alloc: Global,
    test: Test<'_>,
    value: &Value,
    other: Option<&Value>,
) -> (bool, String) {
    let (text, _, word, _) = test;
    let path = text.split(' ').last().unwrap_or("");
    let shown = value.to_string(alloc).expect(rt, "memory");
    let Some(other) = other else {
        let below = format!(in alloc; "- found: {shown}\n- error: nothing at {path}\n").expect(
            rt, "memory",
        );
        return (false, below);
    };
    let second = other.to_string(alloc).expect(rt, "memory");
    let both = format!(in alloc; "- found: {shown}\n- other: {second}\n").expect(rt, "memory");
    match order(value, &shown, against_of(other, &second)) {
        Some(order) => (compares(word, order), both),
        None => (
            false,
            format!(in alloc; "{both}- error: not comparable with {path}\n").expect(rt, "memory"),
        ),
    }
}

// How many characters, items or members are in it.
fn count_in(value: &Value) -> Option<usize> {
    match value {
        Value::String(text) => {
            let starts = text.as_bytes().iter().filter(|byte| **byte & 192 != 128);
            Some(starts.count())
        }
        Value::Array(items) => Some(items.len()),
        Value::Object(members) => Some(members.len()),
        _ => None,
    }
}

fn of_count(
    rt: &impl Abort,
    alloc: Global,
    word: &str,
    value: &Value,
    number: usize,
) -> (bool, String) {
    let shown = value.to_string(alloc).expect(rt, "memory");
    let Some(count) = count_in(value) else {
        let error = misfit(Against::Nothing);
        let below = format!(in alloc; "- found: {shown}\n- error: {error}\n").expect(rt, "memory");
        return (false, below);
    };
    let below = format!(in alloc; "- found: {shown}\n- len: {count}\n").expect(rt, "memory");
    (compares(word, count.cmp(&number)), below)
}

// Whether a value that is shown so is of the kind; each number of the records is whole, or has
// `.0` behind it.
fn is_of(kind: &str, shown: &str) -> bool {
    match kind {
        "text" => shown.starts_with("\""),
        "array" => shown.starts_with("["),
        "object" => shown.starts_with("{"),
        "bool" => shown == "true" || shown == "false",
        "whole" => shown.parse::<i128>().is_ok(),
        "number" => whole_of(shown).is_some(),
        _ => shown == "null",
    }
}

fn of_kind(rt: &impl Abort, alloc: Global, kind: &str, value: &Value) -> (bool, String) {
    let shown = value.to_string(alloc).expect(rt, "memory");
    let below = format!(in alloc; "- found: {shown}\n").expect(rt, "memory");
    (is_of(kind, &shown), below)
}

// The first key that is none of these.
fn other_key<'v>(members: &'v Map<String, Value>, keys: &[&str]) -> Option<&'v str> {
    for key in members.keys() {
        if !keys.iter().any(|known| *known == key.as_str()) {
            return Some(key);
        }
    }
    None
}

// No key of the records is one that JSON escapes.
fn of_keys(rt: &impl Abort, alloc: Global, value: &Value, keys: &[&str]) -> (bool, String) {
    let shown = value.to_string(alloc).expect(rt, "memory");
    let Value::Object(members) = value else {
        let below = format!(in alloc; "- found: {shown}\n- error: not an object\n").expect(
            rt, "memory",
        );
        return (false, below);
    };
    match other_key(members, keys) {
        Some(key) => {
            let below = format!(in alloc; "- found: {shown}\n- other key: \"{key}\"\n").expect(
                rt, "memory",
            );
            (false, below)
        }
        None => (
            true,
            format!(in alloc; "- found: {shown}\n").expect(rt, "memory"),
        ),
    }
}

fn of_found(
    rt: &impl Abort,
    alloc: Global,
    test: Test<'_>,
    whole: &Value,
    value: &Value,
) -> (bool, String) {
    let (_, _, word, against) = test;
    match against {
        Against::Place(names) => of_two(rt, alloc, test, value, value_of(whole, names)),
        Against::Length(number) => of_count(rt, alloc, word, value, number),
        Against::Kind(kind) => of_kind(rt, alloc, kind, value),
        Against::Keys(keys) => of_keys(rt, alloc, value, keys),
        _ => of_one(rt, alloc, test, value),
    }
}

fn of_nothing(rt: &impl Abort, alloc: Global, test: Test<'_>) -> (bool, String) {
    let (text, _, word, _) = test;
    match word {
        "missing" => (true, String::new(alloc)),
        "exists" => (false, String::new(alloc)),
        _ => {
            let test = text.strip_prefix("keys ").unwrap_or(text);
            let path = test.split(' ').next().unwrap_or("");
            (
                false,
                format!(in alloc; "- error: nothing at {path}\n").expect(rt, "memory"),
            )
        }
    }
}

/// What a test says of the value.
pub fn tested(rt: &impl Abort, alloc: Global, test: Test<'_>, value: &Value) -> Answer {
    let (text, names, _, _) = test;
    let (holds, below) = match value_of(value, names) {
        Some(found) => of_found(rt, alloc, test, value, found),
        None => of_nothing(rt, alloc, test),
    };
    let text = String::from_str(alloc, text).expect(rt, "memory");
    Answer { text, holds, below }
}

// Writes the line two places further in.
fn push_line(rt: &impl Abort, to: &mut String, line: &str) {
    to.push_str("  ").expect(rt, "memory");
    to.push_str(line).expect(rt, "memory");
    to.push_str("\n").expect(rt, "memory")
}

// Writes each of the lines so.
fn push_within(rt: &impl Abort, to: &mut String, lines: &str) {
    for line in lines.split('\n') {
        if !line.is_empty() {
            push_line(rt, to, line);
        }
    }
}

// Writes them with the line that tells a number behind those of products.
fn push_numbered(rt: &impl Abort, to: &mut String, lines: &str, number: &str) {
    let mut is_told = false;
    for line in lines.split('\n') {
        if !is_told && !line.starts_with("- ") {
            push_line(rt, to, number);
            is_told = true;
        }
        if !line.is_empty() {
            push_line(rt, to, line);
        }
    }
}

fn push_truth(rt: &impl Abort, to: &mut String, text: &str, holds: bool) {
    to.push_str(text).expect(rt, "memory");
    to.push_str(if holds { " = true\n" } else { " = false\n" })
        .expect(rt, "memory")
}

// Writes the line that a part has under the name.
fn push_head(rt: &impl Abort, to: &mut String, name: &str, part: &Answer) {
    to.push_str(name).expect(rt, "memory");
    to.push_str(": ").expect(rt, "memory");
    push_truth(rt, to, &part.text, part.holds)
}

/// Writes the lines of a part under the name.
pub fn push_part(rt: &impl Abort, to: &mut String, name: &str, part: &Answer) {
    push_head(rt, to, name, part);
    push_within(rt, to, &part.below)
}

/// Writes the lines of a rule with this name.
pub fn push_rule(rt: &impl Abort, alloc: Global, to: &mut String, name: &str, rule: &Answer) {
    push_truth(rt, to, name, rule.holds);
    let mut below = String::new(alloc);
    push_part(rt, &mut below, "rule", rule);
    push_within(rt, to, &below)
}

/// What the opposite of a rule says.
pub fn denied(rt: &impl Abort, alloc: Global, text: String, part: &Answer) -> Answer {
    let mut below = String::new(alloc);
    push_part(rt, &mut below, "predicate", part);
    Answer {
        text,
        holds: !part.holds,
        below,
    }
}

fn count_true(parts: &[Answer]) -> usize {
    parts.iter().filter(|part| part.holds).count()
}

fn first_of(parts: &[Answer], truth: bool) -> Option<usize> {
    parts.iter().position(|part| part.holds == truth)
}

// The lines of the first part with this truth, which tells its number if there are others, or of
// all parts where none has it.
fn deciding(rt: &impl Abort, alloc: Global, name: &str, parts: &[Answer], truth: bool) -> String {
    if parts.is_empty() {
        return String::from_str(alloc, "- len: 0\n").expect(rt, "memory");
    }
    let Some(index) = first_of(parts, truth) else {
        return each_of(rt, alloc, name, parts);
    };
    let mut below = String::new(alloc);
    if let Some(part) = parts.get(index) {
        if parts.len() == 1 {
            push_part(rt, &mut below, name, part);
        } else {
            let number = format!(in alloc; "- index: {index}").expect(rt, "memory");
            push_head(rt, &mut below, name, part);
            push_numbered(rt, &mut below, &part.below, &number);
        }
    }
    below
}

fn each_of(rt: &impl Abort, alloc: Global, name: &str, parts: &[Answer]) -> String {
    let mut below = String::new(alloc);
    for part in parts {
        push_part(rt, &mut below, name, part);
    }
    below
}

// Whether parts hold that the word joins, and their lines.
fn join(rt: &impl Abort, alloc: Global, word: &str, parts: &[Answer]) -> (bool, String) {
    let count = count_true(parts);
    match word {
        "and" => (
            count == parts.len(),
            deciding(rt, alloc, "part", parts, false),
        ),
        "or" => (count > 0, deciding(rt, alloc, "part", parts, true)),
        _ => (count % 2 == 1, each_of(rt, alloc, "part", parts)),
    }
}

/// What parts say that the word joins.
pub fn joined(
    rt: &impl Abort,
    alloc: Global,
    text: String,
    word: &str,
    parts: &[Answer],
) -> Answer {
    let (holds, below) = join(rt, alloc, word, parts);
    Answer { text, holds, below }
}

fn is_list(value: &Value) -> bool {
    value.is_array() || value.is_object()
}

// What is said of a value that is no list.
fn no_list(rt: &impl Abort, alloc: Global, value: &Value) -> String {
    let shown = value.to_string(alloc).expect(rt, "memory");
    format!(in alloc; "- found: {shown}\n- error: not an array or an object\n").expect(rt, "memory")
}

// Whether items of what was found hold as the word wants it, and their lines.
fn range(
    rt: &impl Abort,
    alloc: Global,
    word: &str,
    found: Option<&Value>,
    parts: &[Answer],
) -> (bool, String) {
    let count = count_true(parts);
    match found {
        Some(value) if !is_list(value) => (false, no_list(rt, alloc, value)),
        Some(_) if word == "each" => {
            (
                count == parts.len(),
                deciding(rt, alloc, "item", parts, false),
            )
        }
        Some(_) => (count > 0, deciding(rt, alloc, "item", parts, true)),
        None => (
            false,
            String::from_str(alloc, "- error: nothing at /l\n").expect(rt, "memory"),
        ),
    }
}

/// What the word says of the items of what was found, from what is said of each.
pub fn ranged(
    rt: &impl Abort,
    alloc: Global,
    text: String,
    word: &str,
    found: Option<&Value>,
    parts: &[Answer],
) -> Answer {
    let (holds, below) = range(rt, alloc, word, found, parts);
    Answer { text, holds, below }
}
