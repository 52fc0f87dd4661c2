//! Numbers compared by their values, two paths compared, lengths, kinds and keys.
use super::{all_written, passes};
use std::alloc::Global;
use std::process::Abort;
use vet_run::settings::Report;

const NUMBERS: &str = r#"
> a: /x >= 18 <- {"x": 18.0}
> a: /x == 18 <- {"x": 1.8e1}
> a: /x == 0 <- {"x": -0}
> a: /x == -0.0 <- {"x": 0}
> a: /x > 9007199254740992.0 <- {"x": 9007199254740993}
> a: /x in ["b", 18.0] <- {"x": 18}
> a: /x in [18] <- {"x": 18.5}
    - found: 18.5
> a: /x < 1e3 <- {"x": 1000}
    - found: 1000
> a: /x != -7 <- {"x": -7.0}
    - found: -7.0
> a: /x == 18.0 <- {"x": "18"}
    - found: "18"
    - error: not a number
"#;

const PATHS: &str = r#"
> a: /s <= /e <- {"s": 2, "e": 2.5}
> a: /s <= /e <- {"s": 3, "e": 2}
    - found: 3
    - other: 2
> a: /s < /e <- {"s": "Z", "e": "é"}
> a: /s != /e <- {"s": "b", "e": "b"}
    - found: "b"
    - other: "b"
> a: /s > /e <- {"s": true, "e": false}
> a: /s < /e <- {"e": 1}
    - error: nothing at /s
> a: /s < /e <- {"s": 1}
    - found: 1
    - error: nothing at /e
> a: /s == /e <- {"s": "1", "e": 1}
    - found: "1"
    - other: 1
    - error: not comparable with /e
> a: /s == /e <- {"s": [1], "e": [1]}
    - found: [1]
    - other: [1]
    - error: not comparable with /e
> a: /s > /e <- {"s": [1], "e": null}
> a: /s == /e <- {"s": null, "e": null}
> a: /s != /e <- {"s": null, "e": 1}
    - found: null
    - other: 1
    - error: not comparable with /e
> a: /x == / <- {"x": 1}
    - found: 1
    - other: {"x":1}
    - error: not comparable with /
> a: each /l (/a < /b) <- {"b": 9, "l": [{"a": 1, "b": 2}, {"a": 2, "b": 1}]}
    item: /a < /b = false
      - found: 2
      - other: 1
      - index: 1
> a: not /s < /e <- {"s": 1, "e": 2}
    predicate: /s < /e = true
      - found: 1
      - other: 2
"#;

const LENGTHS: &str = r#"
> a: /x length >= 2 <- {"x": "é1"}
> a: /x length == 2 <- {"x": "é"}
    - found: "é"
    - len: 1
> a: /x length < 1 <- {"x": [1]}
    - found: [1]
    - len: 1
> a: /x length == 1 <- {"x": {"k": [2, 3]}}
> a: / length <= 0 <- ""
> a: /x length != 3 <- {"x": 3}
    - found: 3
    - error: not a string, an array or an object
> a: /x length > 18446744073709551615 <- {}
    - error: nothing at /x
> a: not /x length > 0 <- {"x": "b"}
    predicate: /x length > 0 = true
      - found: "b"
      - len: 1
"#;

const KINDS: &str = r#"
> a: /x is whole <- {"x": 1.0}
    - found: 1.0
> a: /x is null <- {}
    - error: nothing at /x
> a: not /x is text <- {"x": "b"}
    predicate: /x is text = true
      - found: "b"
"#;

const KEYS: &str = r#"
> a: keys / in ["x", "y"] <- {"y": {"z": 1}}
> a: keys / in ["x"] <- {"z": 2, "x": 1, "y": 3}
    - found: {"x":1,"y":3,"z":2}
    - other key: "y"
> a: keys /x in [] <- {"x": {}}
> a: keys /x in [] <- {"x": {"": 0}}
    - found: {"":0}
    - other key: ""
> a: keys / in ["\u0061", "/~0", "é"] <- {"/~0": 1, "a": 2, "\u00e9": 3}
> a: keys / in ["q", "A"] <- {"q\"\n": 1}
    - found: {"q\"\n":1}
    - other key: "q\"\n"
> a: keys /x in ["a"] <- {"x": ["b"]}
    - found: ["b"]
    - error: not an object
> a: keys /x in ["a"] <- {}
    - error: nothing at /x
> a: not keys /x in ["a"] <- {"x": {"a": 1}}
    predicate: keys /x in ["a"] = true
      - found: {"a":1}
> a: not keys /x in ["a"] <- {"x": {"a": 1, "b": 2}}
> a: each /l (keys / in ["k"] and keys ^/ in ["l"]) <- {"l": [{"k": 1}, {"k": 1, "K": 2}]}
    item: keys / in ["k"] and keys ^/ in ["l"] = false
      - index: 1
      part: keys / in ["k"] = false
        - found: {"K":2,"k":1}
        - other key: "K"
        - index: 0
"#;

#[test]
fn blocks_of_conditions(rt: HostRuntime) {
    let alloc = rt.alloc();
    all_written(&rt, alloc, Report::First, NUMBERS);
    all_written(&rt, alloc, Report::First, PATHS);
    all_written(&rt, alloc, Report::First, LENGTHS);
    all_written(&rt, alloc, Report::First, KINDS);
    all_written(&rt, alloc, Report::First, KEYS)
}

const CHANGES: &str = r#"
> a: not /s < /e <- {"s": 1, "e": 2}
    predicate: /s < /e = true
      - found: 1
      - other: 2
> a: /s == /e and /s length > 1 <- {"s": "b", "e": 1}
    part: /s == /e = false
      - found: "b"
      - other: 1
      - error: not comparable with /e
      - index: 0
    part: /s length > 1 = false
      - found: "b"
      - len: 1
      - index: 1
> a: /x is text <- {"x": 1}
    - found: 1
> a: keys / in ["x"] <- {"y": 1}
    - found: {"y":1}
    - other key: "y"
"#;

#[test]
fn changes_of_conditions(rt: HostRuntime) {
    all_written(&rt, rt.alloc(), Report::Change, CHANGES)
}

// The words for kinds, and values, each with the kinds that it is of.
const WORDS: [&str; 7] = ["text", "number", "whole", "bool", "array", "object", "null"];

const VALUES: [(&str, &str); 11] = [
    ("\"b\"", "text"),
    ("1.5", "number"),
    ("1.0", "number"),
    ("-0", "number"),
    ("18446744073709551616", "number"),
    ("18446744073709551615", "number whole"),
    ("-9223372036854775808", "number whole"),
    ("false", "bool"),
    ("[]", "array"),
    ("{}", "object"),
    ("null", "null"),
];

// Whether the rule passes the value where it is of the kind, and not where it is of another.
fn is_of(rt: &impl Abort, alloc: Global, word: &str, value: &str, kinds: &str) -> bool {
    let rule = format!(in alloc; "a: / is {word}").expect(rt, "memory");
    passes(rt, alloc, &rule, value, kinds.contains(word))
}

#[test]
fn each_value_is_of_its_kinds(rt: HostRuntime) {
    for (value, kinds) in VALUES {
        for word in WORDS {
            assert!(rt;
                is_of(&rt, rt.alloc(), word, value, kinds),
                "{value} is {word}"
            );
        }
    }
}
