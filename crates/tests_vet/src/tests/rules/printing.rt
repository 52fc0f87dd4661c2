//! Rules that are printed, and read again.

use super::halves;
use std::alloc::Global;
use std::process::Abort;
use vet_rules::condition::{Comparison, Condition, Relation, State, ValueKind};
use vet_rules::denied::Denied;
use vet_rules::expression::{Connective, Expression, HowMany};
use vet_rules::literal::Literal;
use vet_rules::rule::{Rule, read_rules, written_is_read};

// The rules of one line, of which the text is the expression.
fn read(rt: &impl Abort, alloc: Global, text: &str) -> Vec<Rule> {
    let line = format!(in alloc; "a: {text}").expect(rt, "memory");
    match read_rules(alloc, line.as_bytes()) {
        Ok(rules) => rules,
        Err(_) => Vec::new(alloc),
    }
}

fn printed_rules(rt: &impl Abort, alloc: Global, rules: &[Rule]) -> String {
    match rules {
        [rule] => format!(in alloc; "{}", rule.expression).expect(rt, "memory"),
        _ => String::from_str(alloc, "no rule").expect(rt, "memory"),
    }
}

fn shown_rules(rt: &impl Abort, alloc: Global, rules: &[Rule]) -> String {
    match rules {
        [rule] => format!(in alloc; "{:?}", rule.expression).expect(rt, "memory"),
        _ => String::from_str(alloc, "no rule").expect(rt, "memory"),
    }
}

// The expression of a text as it is printed.
fn printed(rt: &impl Abort, alloc: Global, text: &str) -> String {
    let rules = read(rt, alloc, text);
    printed_rules(rt, alloc, rules.as_slice())
}

// The same as `Debug` shows it.
fn shown(rt: &impl Abort, alloc: Global, text: &str) -> String {
    let rules = read(rt, alloc, text);
    shown_rules(rt, alloc, rules.as_slice())
}

fn prints(rt: &impl Abort, alloc: Global, text: &str, expected: &str) -> bool {
    printed(rt, alloc, text).as_str() == expected
}

// The expression of a rule, and how it is printed.
const PRINTED_COMPARISONS: &str = "
/a==1 => /a == 1
/a/b~1c missing => /a/b~1c missing
/a is_empty => /a is_empty
/a!=-1 => /a != -1
/a<18446744073709551615 => /a < 18446744073709551615
/a<=-9223372036854775808 => /a <= -9223372036854775808
/a>true => /a > true
/a>=null => /a >= null
/a==false => /a == false
/a==1.50 => /a == 1.50
/a==-0 => /a == -0
/a==1E+2 => /a == 1E+2
/start<=/end => /start <= /end
/start==/ => /start == /
^/start==^/ => ^/start == ^/
^/ is object => ^/ is object
any/a(^/b>/) => any /a (^/b > /)
";

const PRINTED_CONDITIONS: &str = r#"
"/Order ID"==3 => "/Order ID" == 3
any"/a\t["("/b" exists) => any "/a\t[" (/b exists)
keys"^/"in[] => keys ^/ in []
/a length>=3 => /a length >= 3
/a is   text => /a is text
/a is null => /a is null
/a starts_with"b" => /a starts_with "b"
/a ends_with"" => /a ends_with ""
/a matches"^[A-Z]{3}$" => /a matches "^[A-Z]{3}$"
/seat in[ ] => /seat in []
/seat in[13] => /seat in [13]
/seat in[13,17 , "a, b",null] => /seat in [13, 17, "a, b", null]
"#;

const PRINTED_JOINS: &str = r#"
(((/a exists))) => /a exists
not(not /a exists) => not not /a exists
not(/a==1 or/b==2) => not (/a == 1 or /b == 2)
((/a exists and /b exists) or /c exists) or /d exists => (/a exists and /b exists or /c exists) or /d exists
(/a exists or /b exists) and (/c exists xor /d exists) => (/a exists or /b exists) and (/c exists xor /d exists)
(/a exists and /b exists) xor (/c exists or /d exists) => /a exists and /b exists xor (/c exists or /d exists)
(/a exists and /b exists) and /c exists => (/a exists and /b exists) and /c exists
each/lines(/quantity>=1 and/sku matches"^[A-Z]{3}$") => each /lines (/quantity >= 1 and /sku matches "^[A-Z]{3}$")
any/((/ exists)) => any / (/ exists)
at least 2 of(/a exists,(/b exists or /c exists)) => at least 2 of (/a exists, /b exists or /c exists)
not at least 0 of((not(/a exists)))# why => not at least 0 of (not /a exists)
"#;

const PRINTED_IMPLICATIONS: &str = r#"
if/a exists then/b exists => if /a exists then /b exists
if((/a exists or/b exists))then(if/c exists then/d exists) => if /a exists or /b exists then if /c exists then /d exists
if(if/a exists then/b exists)then/c exists => if if /a exists then /b exists then /c exists
not(if/a exists then/b exists) => not (if /a exists then /b exists)
/c exists and(if/a exists then(/b exists and(if/ exists then/ exists))) => /c exists and (if /a exists then /b exists and (if / exists then / exists))
at least 1 of((if/a exists then/b exists),any/(if/ exists then/ exists)) => at least 1 of (if /a exists then /b exists, any / (if / exists then / exists))
keys/a in[] => keys /a in []
not(keys / in["b"]) => not keys / in ["b"]
each/lines((keys/ in["sku"])or/ is text) => each /lines (keys / in ["sku"] or / is text)
"#;

fn all_printed(rt: &impl Abort, alloc: Global, rows: &str) {
    for row in rows.lines() {
        let (text, expected) = halves(row);
        let same = row.is_empty() || prints(rt, alloc, text, expected);
        assert!(rt; same, "{row}");
    }
}

// The same with characters that do not print.
const PRINTED_CHARACTERS: [(&str, &str); 4] = [
    ("/\t exists", "/ exists"),
    (
        "/a contains\"\\u00e9\\/\\\"\\\\\\b\\f\\n\\r\\t\\u0000\\u001F\\u007f\\ud83d\\ude00\"",
        "/a contains \"é/\\\"\\\\\\b\\f\\n\\r\\t\\u0000\\u001f\u{7f}😀\"",
    ),
    (
        "at\tleast 3/lines(/price>0)",
        "at least 3 /lines (/price > 0)",
    ),
    (
        "keys\t^/ in[\"b\\/c\",\"\\u00e9\" , \"\"]",
        "keys ^/ in [\"b/c\", \"é\", \"\"]",
    ),
];

#[test]
fn prints_rules(rt: HostRuntime) {
    let alloc = rt.alloc();
    for (text, expected) in PRINTED_CHARACTERS {
        assert!(rt; prints(&rt, alloc, text, expected), "{text}");
    }
    all_printed(&rt, alloc, PRINTED_COMPARISONS);
    all_printed(&rt, alloc, PRINTED_CONDITIONS);
    all_printed(&rt, alloc, PRINTED_JOINS);
    all_printed(&rt, alloc, PRINTED_IMPLICATIONS)
}

// What stands around one expression, and around and between two.
const AROUND: [(&str, &str); 4] = [
    ("not (", ")"),
    ("each /b (", ")"),
    ("at least 1 of (", ")"),
    ("at least 2 /b (", ")"),
];

const BETWEEN: [(&str, &str, &str); 5] = [
    ("(", ") or (", ")"),
    ("(", ") xor (", ")"),
    ("(", ") and (", ")"),
    ("at least 1 of (", ", ", ")"),
    ("if (", ") then (", ")"),
];

fn push_around(rt: &impl Abort, alloc: Global, texts: &mut Vec<String>, part: &str) {
    for (before, after) in &AROUND {
        texts
            .push(format!(in alloc; "{before}{part}{after}").expect(rt, "memory"))
            .expect(rt, "memory");
    }
}

fn push_between(
    rt: &impl Abort,
    alloc: Global,
    texts: &mut Vec<String>,
    first: &str,
    second: &str,
) {
    for (before, between, after) in &BETWEEN {
        texts
            .push(format!(in alloc; "{before}{first}{between}{second}{after}").expect(rt, "memory"))
            .expect(rt, "memory");
    }
}

// A test, and all expressions of one operator over the parts.
fn grown(rt: &impl Abort, alloc: Global, parts: &[String]) -> Vec<String> {
    let mut texts = Vec::new(alloc);
    texts
        .push(String::from_str(alloc, "/a exists").expect(rt, "memory"))
        .expect(rt, "memory");
    for first in parts {
        push_around(rt, alloc, &mut texts, first);
        for second in parts {
            push_between(rt, alloc, &mut texts, first, second);
        }
    }
    texts
}

// Where the parenthesis at this place is closed.
fn closing(text: &[u8], open: usize) -> usize {
    let mut depth = 0usize;
    for (i, b) in text.iter().enumerate() {
        if i >= open && *b == b'(' {
            depth = depth.saturating_add(1);
        }
        if i >= open && *b == b')' {
            depth = depth.saturating_sub(1);
            if depth == 0 {
                return i;
            }
        }
    }
    text.len()
}

// The text with spaces in place of two of its bytes.
fn without(rt: &impl Abort, alloc: Global, text: &str, open: usize, close: usize) -> String {
    let mut out = String::new(alloc);
    for (i, c) in text.char_indices() {
        out.push(if i == open || i == close { ' ' } else { c })
            .expect(rt, "memory");
    }
    out
}

// Whether no two parentheses can be left out.
fn is_minimal(rt: &impl Abort, alloc: Global, text: &str, meaning: &str) -> bool {
    for (open, c) in text.char_indices() {
        if c == '(' {
            let close = closing(text.as_bytes(), open);
            let other = without(rt, alloc, text, open, close);
            if shown(rt, alloc, &other).as_str() == meaning {
                return false;
            }
        }
    }
    true
}

// Whether the text is printed as one that says the same, with no parentheses that it does not need.
fn is_read_again(rt: &impl Abort, alloc: Global, text: &str) -> bool {
    let meaning = shown(rt, alloc, text);
    let again = printed(rt, alloc, text);
    let same = shown(rt, alloc, &again).as_str() == meaning.as_str();
    same && meaning.as_str() != "no rule" && is_minimal(rt, alloc, &again, &meaning)
}

#[test]
fn reads_short_rules_again(rt: HostRuntime) {
    let none = Vec::new(rt.alloc());
    let tests = grown(&rt, rt.alloc(), &none);
    let joins = grown(&rt, rt.alloc(), &tests);
    let texts = grown(&rt, rt.alloc(), &joins);
    assert!(rt; texts.len() == 541);
    for text in &texts {
        let same = is_read_again(&rt, rt.alloc(), text);
        assert!(rt; same, "{text}");
    }
    written_is_read();
}

fn is_shown(rt: &impl Abort, alloc: Global, expression: Expression, expected: &str) -> bool {
    format!(in alloc; "{expression}")
        .expect(rt, "memory")
        .as_str()
        == expected
}

// What denies each of the rules, on a line of its own.
fn lines_of_denied(rt: &impl Abort, alloc: Global, rules: &[Rule]) -> String {
    let mut lines = String::new(alloc);
    for rule in rules {
        writeln!(lines, "{}", Denied(&rule.expression)).expect(rt, "memory");
    }
    lines
}

fn denies(rt: &impl Abort, alloc: Global, text: &str, expected: &str) -> bool {
    match read_rules(alloc, text.as_bytes()) {
        Ok(rules) => lines_of_denied(rt, alloc, rules.as_slice()).as_str() == expected,
        Err(_) => false,
    }
}

// Rules, and what denies each.
const DENIED: [(&str, &str); 2] = [
    (
        "a: /age >= 18 or /guest exists",
        "not (/age >= 18 or /guest exists)\n",
    ),
    (
        "a: if /b exists then not /c exists\nb: not / exists",
        "not (if /b exists then not /c exists)\nnot not / exists\n",
    ),
];

#[test]
fn prints_what_denies_a_rule(rt: HostRuntime) {
    for (text, expected) in &DENIED {
        assert!(rt; denies(&rt, rt.alloc(), text, expected), "{text}");
    }
}

// What no rule says: a row of no part, or of one.
#[test]
fn prints_rows_that_no_rule_has(rt: HostRuntime) {
    let none = Expression::Joined(Connective::Or, Vec::new(rt.alloc()));
    assert!(rt; is_shown(&rt, rt.alloc(), none, "()"));
    let none = Expression::AtLeast(2, Vec::new(rt.alloc()));
    assert!(rt; is_shown(&rt, rt.alloc(), none, "at least 2 of ()"));
    let mut parts = Vec::new(rt.alloc());
    let path = String::from_str(rt.alloc(), "/a b").expect(&rt, "memory");
    parts
        .push(Expression::Test(path, Condition::Is(State::Exists)))
        .expect(&rt, "memory");
    let one = Expression::Joined(Connective::And, parts);
    assert!(rt; is_shown(&rt, rt.alloc(), one, "\"/a b\" exists"));
}

#[test]
fn prints_words(rt: HostRuntime) {
    let words = format!(in rt.alloc();
        "{} {} {} {} {} {}",
        Connective::Xor,
        HowMany::Any,
        HowMany::AtLeast(3),
        State::IsEmpty,
        Comparison::Unequal,
        Relation::Matches
    )
    .expect(&rt, "memory");
    assert!(rt; words.as_str() == "xor any at least 3 is_empty != matches");
    let values = format!(in rt.alloc();
        "{} {} {}",
        ValueKind::Boolean,
        ValueKind::Null,
        Literal::Negative(-1)
    )
    .expect(&rt, "memory");
    assert!(rt; values.as_str() == "bool null -1");
}
