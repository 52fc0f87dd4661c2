//! The examples of RFC 6901, and pointers that lead nowhere.
use super::helpers::explains_json;
use crate::tests::made::{Host, owned};
use predicates::prelude::*;
use predicates_json::{PredicateJsonExt, has_pointer, is_pointer, lacks_pointer, value_at};
use serde_json::{Error, Value};

const DOCUMENT: &str = "{\"foo\":[\"bar\",\"baz\"],\"\":0,\"a/b\":1,\"c%d\":2,\"e^f\":3,\"g|h\":4,\
\"i\\\\j\":5,\"k\\\"l\":6,\" \":7,\"m~n\":8,\"~1\":9,\"o~\":10}";

// A pointer, and what stands there, or nothing.
const PLACES: [(&str, &str); 27] = [
    ("/foo", "[\"bar\",\"baz\"]"),
    ("/foo/0", "\"bar\""),
    ("/foo/1", "\"baz\""),
    ("/", "0"),
    ("/a~1b", "1"),
    ("/c%d", "2"),
    ("/e^f", "3"),
    ("/g|h", "4"),
    ("/i\\j", "5"),
    ("/k\"l", "6"),
    ("/ ", "7"),
    ("/m~0n", "8"),
    ("/~01", "9"),
    ("/m~n", "8"),
    ("/o~", "10"),
    ("/o~0", "10"),
    ("/foo/2", ""),
    ("/foo/00", ""),
    ("/foo/01", ""),
    ("/foo/+1", ""),
    ("/foo/-", ""),
    ("/foo/", ""),
    ("/foo/0/0", ""),
    ("/a/b", ""),
    ("/~1", ""),
    ("foo", ""),
    ("/foo/18446744073709551616", ""),
];

// Whether that stands there, and whether presence answers so.
fn stands(rt: &impl Host, place: (&str, &str)) -> bool {
    let (pointer, expected) = place;
    let document = Value::from_str(rt.alloc(), DOCUMENT).expect(rt, "memory");
    let present = has_pointer(owned(rt, pointer))
        .eval(rt.alloc(), &document)
        .expect(rt, "memory");
    let absent = lacks_pointer(owned(rt, pointer))
        .eval(rt.alloc(), &document)
        .expect(rt, "memory");
    match value_at(&document, pointer) {
        Some(found) => {
            let written = found.to_string(rt.alloc()).expect(rt, "memory");
            written.as_str() == expected && present && !absent
        }
        None => expected.is_empty() && !present && absent,
    }
}

#[test]
fn places(rt: HostRuntime) {
    for place in &PLACES {
        assert!(rt; stands(&rt, *place));
    }
}

#[test]
fn the_whole_value(rt: HostRuntime) {
    let alloc = rt.alloc();
    let document = Value::from_str(alloc, DOCUMENT).expect(&rt, "memory");
    let found = value_at(&document, "").is_some_and(|whole| *whole == document);
    assert!(rt; found);
}

// A pointer to the age, what is said of it, and the JSON text.
const AGES: [(&str, &str, &str); 4] = [
    ("{\"age\":17}", "/age", "- var: 17"),
    ("{\"age\":\"17\"}", "/age", "- error: is a string"),
    ("{\"name\":\"Ann\"}", "/age", "- error: no value"),
    ("[{\"age\":3}]", "/0/age", "- var: 3"),
];

// Whether the row is told of a pointer that was read at run time.
fn tells_age(rt: &impl Host, row: (&str, &str, &str)) -> bool {
    let (json, pointer, said) = row;
    let adult = predicate::ge(18i64)
        .of_number()
        .of_pointer(owned(rt, pointer));
    let lines = format!(in rt.alloc();
        "{pointer} = false\n  value: var >= 18 = false\n    {said}\n"
    ).expect(rt, "memory");
    explains_json(rt, &adult, json, lines.as_str())
}

#[test]
fn ages(rt: HostRuntime) {
    for row in &AGES {
        assert!(rt; tells_age(&rt, *row));
    }
}

fn explains_presence(rt: &impl Host, json: &str, lines: &str) -> bool {
    explains_json(rt, &has_pointer("/seat"), json, lines)
}

fn explains_absence(rt: &impl Host, json: &str, lines: &str) -> bool {
    let free = lacks_pointer(StaticText::new("/seat"));
    explains_json(rt, &free, json, lines)
}

#[test]
fn presence(rt: HostRuntime) {
    assert!(rt; explains_presence(&rt, "{\"seat\":null}", "exists(/seat) = true\n"));
    assert!(rt; explains_presence(&rt, "{}", "exists(/seat) = false\n"));
    assert!(rt; explains_absence(&rt, "{}", "missing(/seat) = true\n"));
    assert!(rt; explains_absence(&rt, "{\"seat\":13}", "missing(/seat) = false\n"));
}

const TEXTS: [(&str, bool); 10] = [
    ("", true),
    ("/", true),
    ("/a~1b", true),
    ("/m~0n/~01", true),
    ("/ä/0", true),
    ("age", false),
    ("a/b", false),
    ("/m~n", false),
    ("/o~", false),
    ("/~2", false),
];

#[test]
fn texts_of_pointers(rt: HostRuntime) {
    for (text, expected) in &TEXTS {
        assert_eq!(rt; is_pointer(text), *expected);
    }
}
