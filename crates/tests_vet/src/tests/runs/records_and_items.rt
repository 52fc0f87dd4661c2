//! Paths that begin at the record, within a list of it.
use predicates_core::reflection::{Case, render};
use predicates_core::{Predicate, PredicateChange};
use serde_json::Value;
use std::alloc::Global;
use std::process::Abort;
use vet_checks::check_of;
use vet_rules::condition::{Comparison, Condition};
use vet_rules::expression::{Expression, HowMany};

// The expression `QUANTIFIER LIST (PATH == OTHER)`.
fn over_list(
    rt: &impl Abort,
    alloc: Global,
    quantifier: HowMany,
    list: &str,
    path: &str,
    other: &str,
) -> Expression {
    let other = String::from_str(alloc, other).expect(rt, "memory");
    let condition = Condition::CompareWith(Comparison::Equal, other);
    let test = Expression::Test(
        String::from_str(alloc, path).expect(rt, "memory"),
        condition,
    );
    let list = String::from_str(alloc, list).expect(rt, "memory");
    Expression::Quantified(quantifier, list, Box::new(alloc, test).expect(rt, "memory"))
}

// Each item of `/k` for each of `/l`: `each /l (QUANTIFIER LIST (PATH == OTHER))`.
fn within_list(rt: &impl Abort, alloc: Global, inner: Expression) -> Expression {
    let list = String::from_str(alloc, "/l").expect(rt, "memory");
    Expression::Quantified(
        HowMany::Each,
        list,
        Box::new(alloc, inner).expect(rt, "memory"),
    )
}

fn rendered(rt: &impl Abort, alloc: Global, found: Option<Case>) -> String {
    match found {
        Some(case) => render(alloc, &case).expect(rt, "memory"),
        None => String::from_str(alloc, "").expect(rt, "memory"),
    }
}

// Whether the record breaks the expression, for the first reason and with the change of these
// lines, or keeps it where there are none. The change is looked at where lines are given.
fn breaks(
    rt: &impl Abort,
    alloc: Global,
    expression: Expression,
    record: &str,
    reason: &str,
    change: Option<&str>,
) -> bool {
    let value = Value::from_str(alloc, record).expect(rt, "memory");
    let check = check_of(alloc, expression).expect(rt, "memory");
    let holds = check.eval(alloc, &value).expect(rt, "memory");
    let case = check.find_case(alloc, false, &value).expect(rt, "memory");
    let told = rendered(rt, alloc, case).as_str() == reason;
    let turned = match change {
        Some(lines) => {
            let found = check
                .find_change(alloc, Some(false), &value)
                .expect(rt, "memory");
            rendered(rt, alloc, found).as_str() == lines
        }
        None => true,
    };
    told && turned && holds == reason.is_empty()
}

// Behind `> ` a list, a path and another, and a record; and the reason for which it breaks the rule
// that each item has both alike.
const ROWS: &str = r#"
> /l /c ^/c <- {"c": 1, "l": [{"c": 1}, {"c": 2}]}
each /l (/c == ^/c) = false
  item: /c == ^/c = false
    - found: 2
    - other: 1
    - index: 1
> /l ^/c /c <- {"c": 1, "l": [{"c": 1}, {"c": 2}]}
each /l (^/c == /c) = false
  item: ^/c == /c = false
    - found: 1
    - other: 2
    - index: 1
> /l /c ^/c <- {"c": "EUR", "l": [{"c": "EUR"}, {"c": "EUR"}]}
> /l /c ^/c <- {"l": [{"c": 1}]}
each /l (/c == ^/c) = false
  item: /c == ^/c = false
    - found: 1
    - error: nothing at ^/c
> /l ^/c /c <- {"l": [{"c": 1}]}
each /l (^/c == /c) = false
  item: ^/c == /c = false
    - error: nothing at ^/c
> /l /c ^/c <- {"c": "1", "l": [{"c": 1}]}
each /l (/c == ^/c) = false
  item: /c == ^/c = false
    - found: 1
    - other: "1"
    - error: not comparable with ^/c
> /l /c ^ <- {"l": [{"c": 1}]}
each /l (/c == ^/) = false
  item: /c == ^/ = false
    - found: 1
    - other: {"l":[{"c":1}]}
    - error: not comparable with ^/
> ^/l  ^/l/0 <- {"l": [3, 4]}
each ^/l (/ == ^/l/0) = false
  item: / == ^/l/0 = false
    - found: 4
    - other: 3
    - index: 1
> ^/m /c ^/c <- {"c": 1}
each ^/m (/c == ^/c) = false
  - error: nothing at ^/m
"#;

// Whether it breaks the rule for this reason.
fn is_row_right(rt: &impl Abort, alloc: Global, row: &str) -> bool {
    let (head, lines) = row.split_once('\n').unwrap_or((row, ""));
    let (places, record) = head.split_once(" <- ").unwrap_or((head, ""));
    let (list, paths) = places.split_once(' ').unwrap_or((places, ""));
    let (path, other) = paths.split_once(' ').unwrap_or((paths, ""));
    let each = over_list(rt, alloc, HowMany::Each, list, path, other);
    let lines = lines.strip_suffix('\n').unwrap_or(lines);
    let end = if lines.is_empty() { "" } else { "\n" };
    let reason = format!(in alloc; "{lines}{end}").expect(rt, "memory");
    breaks(rt, alloc, each, record, &reason, None)
}

#[test]
fn paths_from_the_record(rt: HostRuntime) {
    for row in ROWS.split("\n> ") {
        let is_right = row.is_empty() || is_row_right(&rt, rt.alloc(), row);
        assert!(rt; is_right, "{row}");
    }
}

// A list that begins at the record, within another: a quantifier, a record, the reason, and the
// change.
const WITHIN: [(HowMany, &str, &str, &str); 4] = [
    (
        HowMany::Any,
        "{\"c\": 2, \"k\": [{\"x\": 1}, {\"x\": 3}], \"l\": [{\"k\": [{\"x\": 2}]}]}",
        "\
each /l (any ^/k (/x == ^/c)) = false
  item: any ^/k (/x == ^/c) = false
    item: /x == ^/c = false
      - found: 1
      - other: 2
    item: /x == ^/c = false
      - found: 3
      - other: 2
",
        "\
each /l (any ^/k (/x == ^/c)) = false
  item: any ^/k (/x == ^/c) = false
    - index: 0
    item: /x == ^/c = false
      - found: 1
      - other: 2
      - index: 0
",
    ),
    (
        HowMany::Any,
        "{\"c\": 2, \"k\": [{\"x\": 1}, {\"x\": 2}], \"l\": [{\"k\": []}]}",
        "",
        "",
    ),
    (
        HowMany::AtLeast(2),
        "{\"c\": 2, \"k\": [{\"x\": 2}, {\"x\": 3}], \"l\": [0]}",
        "\
each /l (at least 2 ^/k (/x == ^/c)) = false
  item: at least 2 ^/k (/x == ^/c) = false
    item: /x == ^/c = false
      - found: 3
      - other: 2
      - index: 1
",
        "\
each /l (at least 2 ^/k (/x == ^/c)) = false
  item: at least 2 ^/k (/x == ^/c) = false
    - index: 0
    item: /x == ^/c = false
      - found: 3
      - other: 2
      - index: 1
",
    ),
    (
        HowMany::AtLeast(1),
        "{\"c\": 2, \"k\": [{\"x\": 2}, {\"x\": 3}], \"l\": [0, 1]}",
        "",
        "",
    ),
];

#[test]
fn lists_from_the_record(rt: HostRuntime) {
    for (quantifier, record, reason, change) in WITHIN {
        let inner = over_list(&rt, rt.alloc(), quantifier, "^/k", "/x", "^/c");
        let whole = within_list(&rt, rt.alloc(), inner);
        assert!(rt;
            breaks(&rt, rt.alloc(), whole, record, reason, Some(change)),
            "{record}"
        );
    }
}
