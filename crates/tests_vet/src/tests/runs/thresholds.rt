//! Rules that want at least so many of listed expressions, or of a list's items.
use super::all_written;
use vet_run::settings::Report;

const PARTS: &str = r#"
> reach: at least 2 of (/mail exists, /phone exists, /address exists) <- {"mail": "a@b.c"}
    part: /phone exists = false
      - index: 1
    part: /address exists = false
      - index: 2
> a: at least 2 of (/x == 1, /y == 2, /z == 3) <- {"x": 1, "y": 5, "z": 3}
> a: at least 2 of ( /x == 1 , /y == 2 , /z == 3 ) <- {"x": 1, "y": 5, "z": 6}
record 1: false
a = false
  rule: at least 2 of (/x == 1, /y == 2, /z == 3) = false
    part: /y == 2 = false
      - found: 5
      - index: 1
    part: /z == 3 = false
      - found: 6
      - index: 2
> a: not at least 1 of (/x == 1, /y == 2 and /z == 3) <- {"x": 1, "y": 2, "z": 3}
    predicate: at least 1 of (/x == 1, /y == 2 and /z == 3) = true
      part: /x == 1 = true
        - found: 1
        - index: 0
> a: at least 3 of (/x == 1, /y == 2) <- {"x": 1, "y": 2}
    - len: 2
> a: at least 0 of (/x == 1) <- {}
"#;

const CHANGED_PARTS: &str = r#"
> a: at least 2 of (/x == 1, /y == 2, /z == 3) <- {"x": 1, "y": 5, "z": 6}
    part: /y == 2 = false
      - found: 5
      - index: 1
> a: not at least 1 of (/x == 1, /y == 2 and /z == 3) <- {"x": 1, "y": 2, "z": 3}
    predicate: at least 1 of (/x == 1, /y == 2 and /z == 3) = true
      part: /x == 1 = true
        - found: 1
        - index: 0
      part: /y == 2 and /z == 3 = true
        - index: 1
        part: /y == 2 = true
          - found: 2
          - index: 0
> a: at least 3 of (/x == 1, /y == 2) <- {"x": 1, "y": 2}
    - len: 2
"#;

const ITEMS: &str = r#"
> a: at least 2 /l (/ == 1) <- {"l": [1, 2, 1]}
> a: at least 2 /l ( / == 1 ) <- {"l": [1, 2, 3]}
record 1: false
a = false
  rule: at least 2 /l (/ == 1) = false
    item: / == 1 = false
      - found: 2
      - index: 1
    item: / == 1 = false
      - found: 3
      - index: 2
> a: not at least 2 /l (/ matches "^t") <- {"l": ["tea", 4, "jam", "toast", "tin"]}
    predicate: at least 2 /l (/ matches "^t") = true
      item: / matches "^t" = true
        - found: "tea"
        - index: 0
      item: / matches "^t" = true
        - found: "toast"
        - index: 3
> a: at least 1 /l (/ == 1) <- {"l": []}
    - len: 0
> a: at least 0 /l (/ == 1) <- {"l": "q"}
    - found: "q"
    - error: not an array or an object
> a: at least 18446744073709551615 / (/ == 1) <- [1]
    - len: 1
> a: at least 2 /l (/ == 1) <- {"l": {"c": 3, "a": 1, "b": 2}}
    item: / == 1 = false
      - found: 2
      - index: 1
    item: / == 1 = false
      - found: 3
      - index: 2
> a: at least 2 /l (/ == 1) <- {"l": {"c": 1, "b": 2, "a": 1}}
> a: at least 1 /l (/ == 1) <- {"l": {}}
    - len: 0
"#;

const CHANGED_ITEMS: &str = r#"
> a: at least 3 /l (/ == 1) <- {"l": [1, 2, 3, 4]}
    item: / == 1 = false
      - found: 2
      - index: 1
    item: / == 1 = false
      - found: 3
      - index: 2
> a: not at least 2 /l (/ == 1) <- {"l": [1, 2, 1, 1]}
    predicate: at least 2 /l (/ == 1) = true
      item: / == 1 = true
        - found: 1
        - index: 0
      item: / == 1 = true
        - found: 1
        - index: 2
> a: at least 0 /l (/ == 1) <- {}
    - error: nothing at /l
> a: not at least 2 /l (/ == 1) <- {"l": {"d": 1, "c": 1, "b": 2, "a": 1}}
    predicate: at least 2 /l (/ == 1) = true
      item: / == 1 = true
        - found: 1
        - index: 0
      item: / == 1 = true
        - found: 1
        - index: 2
"#;

#[test]
fn thresholds_of_parts_and_of_items(rt: HostRuntime) {
    let alloc = rt.alloc();
    all_written(&rt, alloc, Report::First, PARTS);
    all_written(&rt, alloc, Report::Change, CHANGED_PARTS);
    all_written(&rt, alloc, Report::First, ITEMS);
    all_written(&rt, alloc, Report::Change, CHANGED_ITEMS)
}
