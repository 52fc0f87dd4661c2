//! Rules that are cut at each byte, and rules with a byte changed: what they say then, or the place
//! and the reason of the fault.
use super::run_of;
use std::alloc::Global;
use std::process::Abort;
use std::str;
use vet_run::settings::{Report, Settings};

// The bytes as a text.
fn text_of(rt: &impl Abort, alloc: Global, bytes: &[u8]) -> String {
    match str::from_utf8(bytes) {
        Ok(text) => String::from_str(alloc, text).expect(rt, "memory"),
        Err(_) => String::from_str(alloc, "no text").expect(rt, "memory"),
    }
}

// Why the rules are not read, or what is written of the record by them.
fn told(rt: &impl Abort, alloc: Global, rules: &[u8], record: &[u8]) -> String {
    let settings = Settings::new(Report::All, None);
    match run_of(alloc, &settings, rules, record) {
        Ok((output, _, Ok(_))) => text_of(rt, alloc, &output),
        Ok(_) => String::from_str(alloc, "a fault").expect(rt, "memory"),
        Err(error) => format!(in alloc; "{error}").expect(rt, "memory"),
    }
}

const WHOLE: &[u8] = b"a: not /x in [1, \"b\"] and /y >= 18";

// The front of the rule, from how many bytes to how many; the column, or 0 for the first one behind
// the front; and what is expected there.
const CUT: [(usize, usize, usize, &str); 16] = [
    (1, 1, 0, "`:` behind the name of a rule"),
    (
        2,
        3,
        0,
        "a path, `not`, `each`, `any`, `at`, `keys`, `if` or `(`",
    ),
    (4, 5, 4, "a word, an operator, a path or a literal"),
    (6, 7, 0, "a path, `not`, `each`, `any`, `at`, `keys` or `(`"),
    (
        8,
        10,
        0,
        "an operator, `exists`, `missing`, `is_empty`, `length` or `is`",
    ),
    (11, 11, 11, "a word, an operator, a path or a literal"),
    (12, 13, 0, "`[`"),
    (14, 14, 0, "a literal"),
    (15, 15, 0, "`,` or `]`"),
    (16, 17, 0, "a literal"),
    (18, 19, 18, "the quote that ends the text"),
    (20, 20, 0, "`,` or `]`"),
    (23, 24, 23, "a word, an operator, a path or a literal"),
    (
        25,
        26,
        0,
        "a path, `not`, `each`, `any`, `at`, `keys` or `(`",
    ),
    (
        27,
        29,
        0,
        "an operator, `exists`, `missing`, `is_empty`, `length` or `is`",
    ),
    (30, 32, 0, "a literal or a path"),
];

const CUT_TO_RULES: [(usize, usize, usize, &str); 5] = [
    (0, 0, 0, ""),
    (21, 21, 0, NOT_IN),
    (22, 22, 0, NOT_IN),
    (33, 33, 0, AND_OF_ONE),
    (34, 34, 0, AND_OF_EIGHTEEN),
];

// What is written of `{"x": 1}` by the fronts that are rules.
const NOT_IN: &str = "\
record 1: false
a = false
  rule: not /x in [1, \"b\"] = false
    predicate: /x in [1, \"b\"] = true
      - found: 1
";

const AND_OF_ONE: &str = "\
record 1: false
a = false
  rule: not /x in [1, \"b\"] and /y >= 1 = false
    part: not /x in [1, \"b\"] = false
      - index: 0
      predicate: /x in [1, \"b\"] = true
        - found: 1
";

const AND_OF_EIGHTEEN: &str = "\
record 1: false
a = false
  rule: not /x in [1, \"b\"] and /y >= 18 = false
    part: not /x in [1, \"b\"] = false
      - index: 0
      predicate: /x in [1, \"b\"] = true
        - found: 1
";

// Whether the front of this many bytes, behind a line that has no rule, is told so.
fn front_is_told(
    rt: &impl Abort,
    alloc: Global,
    len: usize,
    column: usize,
    expected: &str,
) -> bool {
    let mut rules = Vec::new(alloc);
    rules.extend_from_slice(b" # before\n").expect(rt, "memory");
    rules
        .extend_from_slice(&WHOLE[..len.min(WHOLE.len())])
        .expect(rt, "memory");
    let found = told(rt, alloc, &rules, b"{\"x\": 1}");
    if expected.is_empty() || expected.starts_with("record") {
        return found.as_str() == expected;
    }
    let place = if column == 0 {
        len.saturating_add(1)
    } else {
        column
    };
    let message = format!(in alloc; "line 2, column {place}: expected {expected}, found ").expect(
        rt, "memory",
    );
    found.starts_with(&message)
}

// How many fronts the rows have, each of which is told so.
fn fronts_told(rt: &impl Abort, alloc: Global, rows: &[(usize, usize, usize, &str)]) -> usize {
    let mut count = 0usize;
    for (from, to, column, expected) in rows {
        for len in *from..=*to {
            let right = front_is_told(rt, alloc, len, *column, expected);
            assert!(rt; right, "{len} bytes");
            count = count.saturating_add(1);
        }
    }
    count
}

#[test]
fn rules_that_are_cut(rt: HostRuntime) {
    let cut = fronts_told(&rt, rt.alloc(), &CUT);
    let rules = fronts_told(&rt, rt.alloc(), &CUT_TO_RULES);
    assert_eq!(rt; cut.saturating_add(rules), WHOLE.len().saturating_add(1));
}

const SHORT: &[u8] = b"a:/x<=9";

const TOKEN: &str = "a word, an operator, a path or a literal";

const QUOTE: &str = "the quote that ends the text";

const NUMBER: &str = "a number as JSON writes it, in the range of a 64-bit float";

const OPERAND: &str = "a literal or a path";

const UTF8: &str = "text in UTF-8 without no-break spaces";

const CONDITION: &str = "an operator, `exists`, `missing`, `is_empty`, `length` or `is`";

// A place in the short rule from 1, the byte that is put there, the column and what is expected
// there; or 0, and what is written of `{"x": 10}`.
const CHANGED_NAMES: [(usize, u8, usize, &str); 12] = [
    (1, b'#', 0, ""),
    (1, b' ', 2, "the name of a rule"),
    (1, b'"', 1, QUOTE),
    (
        1,
        b'0',
        0,
        "0 = false\n  rule: /x <= 9 = false\n    - found: 10\n",
    ),
    (1, b'=', 1, "the name of a rule"),
    (1, 255, 1, UTF8),
    (2, b'#', 2, "`:` behind the name of a rule"),
    (2, b' ', 2, "`:` behind the name of a rule"),
    (2, b'"', 2, "`:` behind the name of a rule"),
    (2, b'0', 3, "`:` behind the name of a rule"),
    (2, b'=', 2, "`:` behind the name of a rule"),
    (2, 255, 1, UTF8),
];

const CHANGED_PATHS: [(usize, u8, usize, &str); 12] = [
    (
        3,
        b'#',
        3,
        "a path, `not`, `each`, `any`, `at`, `keys`, `if` or `(`",
    ),
    (3, b' ', 4, TOKEN),
    (3, b'"', 3, QUOTE),
    (3, b'0', 3, NUMBER),
    (3, b'=', 3, TOKEN),
    (3, 255, 3, TOKEN),
    (4, b'#', 4, CONDITION),
    (
        4,
        b' ',
        0,
        "a = false\n  rule: / <= 9 = false\n    - found: {\"x\":10}\n    - error: not a number\n",
    ),
    (
        4,
        b'"',
        0,
        "a = false\n  rule: /\" <= 9 = false\n    - error: nothing at /\"\n",
    ),
    (
        4,
        b'0',
        0,
        "a = false\n  rule: /0 <= 9 = false\n    - error: nothing at /0\n",
    ),
    (4, b'=', 4, TOKEN),
    (4, 255, 3, UTF8),
];

const CHANGED_OPERATORS: [(usize, u8, usize, &str); 12] = [
    (5, b'#', 5, CONDITION),
    (5, b' ', 6, TOKEN),
    (5, b'"', 6, TOKEN),
    (5, b'0', 6, TOKEN),
    (
        5,
        b'=',
        0,
        "a = false\n  rule: /x == 9 = false\n    - found: 10\n",
    ),
    (5, 255, 3, UTF8),
    (6, b'#', 6, OPERAND),
    (
        6,
        b' ',
        0,
        "a = false\n  rule: /x < 9 = false\n    - found: 10\n",
    ),
    (6, b'"', 6, QUOTE),
    (6, b'0', 6, NUMBER),
    (
        6,
        b'=',
        0,
        "a = false\n  rule: /x <= 9 = false\n    - found: 10\n",
    ),
    (6, 255, 6, TOKEN),
];

const CHANGED_LITERALS: [(usize, u8, usize, &str); 6] = [
    (7, b'#', 7, OPERAND),
    (7, b' ', 8, OPERAND),
    (7, b'"', 7, QUOTE),
    (
        7,
        b'0',
        0,
        "a = false\n  rule: /x <= 0 = false\n    - found: 10\n",
    ),
    (7, b'=', 5, TOKEN),
    (7, 255, 7, TOKEN),
];

// The bytes with another one at the place, from 1.
fn with_byte(rt: &impl Abort, alloc: Global, bytes: &[u8], place: usize, byte: u8) -> Vec<u8> {
    let mut changed = Vec::new(alloc);
    for (index, old) in bytes.iter().enumerate() {
        changed
            .push(if index + 1 == place { byte } else { *old })
            .expect(rt, "memory");
    }
    changed
}

fn change_is_told(
    rt: &impl Abort,
    alloc: Global,
    place: usize,
    byte: u8,
    column: usize,
    expected: &str,
) -> bool {
    let rules = with_byte(rt, alloc, SHORT, place, byte);
    let found = told(rt, alloc, &rules, b"{\"x\": 10}");
    if column > 0 {
        let message = format!(in alloc;
            "line 1, column {column}: expected {expected}, found "
        ).expect(rt, "memory");
        return found.starts_with(&message);
    }
    let whole = if expected.is_empty() {
        String::new(alloc)
    } else {
        format!(in alloc; "record 1: false\n{expected}").expect(rt, "memory")
    };
    found.as_str() == whole.as_str()
}

fn all_changes_told(rt: &impl Abort, alloc: Global, rows: &[(usize, u8, usize, &str)]) {
    for (place, byte, column, expected) in rows {
        let right = change_is_told(rt, alloc, *place, *byte, *column, expected);
        assert!(rt; right, "{byte} at {place}");
    }
}

#[test]
fn rules_with_a_byte_changed(rt: HostRuntime) {
    all_changes_told(&rt, rt.alloc(), &CHANGED_NAMES);
    all_changes_told(&rt, rt.alloc(), &CHANGED_PATHS);
    all_changes_told(&rt, rt.alloc(), &CHANGED_OPERATORS);
    all_changes_told(&rt, rt.alloc(), &CHANGED_LITERALS)
}

// Four rules, and what is written of `{}` by each.
const LINES: [(&[u8], &str); 4] = [
    (
        b"adult:  /age >= 18\n",
        "adult = false\n  rule: /age >= 18 = false\n    - error: nothing at /age\n",
    ),
    (
        b"known:  /name starts_with \"A\" or /name == \"Zoe\"\n",
        "\
known = false
  rule: /name starts_with \"A\" or /name == \"Zoe\" = false
    part: /name starts_with \"A\" = false
      - error: nothing at /name
    part: /name == \"Zoe\" = false
      - error: nothing at /name
",
    ),
    (
        b"seated: /seat exists and not /seat in [13, 17]\n",
        "\
seated = false
  rule: /seat exists and not /seat in [13, 17] = false
    part: /seat exists = false
      - index: 0
",
    ),
    (
        b"lines:  each /lines (/quantity >= 1)\n",
        "\
lines = false
  rule: each /lines (/quantity >= 1) = false
    - error: nothing at /lines
",
    ),
];

const BYTES: [u8; 8] = [b'#', b' ', b'"', b'0', b'(', b'a', b'/', 255];

// Whether a file of the four rules, of which one is the changed one, is refused at its line, within
// it, or else writes of the others what it wrote.
fn others_stay(
    rt: &impl Abort,
    alloc: Global,
    number: usize,
    changed: &[u8],
    refused: &mut usize,
) -> bool {
    let mut rules = Vec::new(alloc);
    let mut before = String::new(alloc);
    let mut after = String::new(alloc);
    before.push_str("record 1: false\n").expect(rt, "memory");
    for (index, (line, written)) in LINES.iter().enumerate() {
        if index < number {
            before.push_str(written).expect(rt, "memory");
        } else if index > number {
            after.push_str(written).expect(rt, "memory");
        }
        rules
            .extend_from_slice(if index == number { changed } else { line })
            .expect(rt, "memory");
    }
    let found = told(rt, alloc, &rules, b"{}");
    let line = number.saturating_add(1);
    let head = format!(in alloc; "line {line}, column ").expect(rt, "memory");
    if found.starts_with(&head) {
        *refused = refused.saturating_add(1);
        return true;
    }
    found.starts_with(&before)
        && found.ends_with(&after)
        && before.len().saturating_add(after.len()) <= found.len()
}

#[test]
fn a_changed_rule_leaves_the_others(rt: HostRuntime) {
    let alloc = rt.alloc();
    let (mut refused, mut all) = (0usize, 0usize);
    for (number, (line, _)) in LINES.iter().enumerate() {
        for place in 1..line.len() {
            for byte in BYTES {
                let changed = with_byte(&rt, alloc, line, place, byte);
                let right = others_stay(&rt, alloc, number, &changed, &mut refused);
                assert!(rt; right, "{byte} at {place} of rule {number}");
                all = all.saturating_add(1);
            }
        }
    }
    // Most changes are faults, and many are not.
    assert!(rt;
        refused > all / 2 && refused < all.saturating_sub(all / 10),
        "{refused} of {all}"
    );
}
