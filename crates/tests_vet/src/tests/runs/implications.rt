//! Rules that say what follows from another condition.
use super::all_written;
use vet_run::settings::Report;

const ROWS: &str = r#"
> a: if /x == 1 then /y == 2 <- {"x": 1, "y": 3}
    part: not /x == 1 = false
      predicate: /x == 1 = true
        - found: 1
    part: /y == 2 = false
      - found: 3
> a: if /x == 1 then /y == 2 <- {"x": 2, "y": 3}
> a: if /x == 1 then /y == 2 <- {"x": 1, "y": 2}
> a: if /x == 1 or /z exists then /y == 2 <- {"x": 1, "y": 3}
    part: not (/x == 1 or /z exists) = false
      predicate: /x == 1 or /z exists = true
        part: /x == 1 = true
          - found: 1
          - index: 0
    part: /y == 2 = false
      - found: 3
> a: if /x == 1 then if /y == 2 then /z missing <- {"x": 1, "y": 2, "z": 3}
    part: not /x == 1 = false
      predicate: /x == 1 = true
        - found: 1
    part: if /y == 2 then /z missing = false
      part: not /y == 2 = false
        predicate: /y == 2 = true
          - found: 2
      part: /z missing = false
        - found: 3
> a: not (if /x == 1 then /y == 2) <- {"x": 0}
    predicate: if /x == 1 then /y == 2 = true
      part: not /x == 1 = true
        - index: 0
        predicate: /x == 1 = false
          - found: 0
> a: each /l (if /x exists then /y exists) <- {"l": [{}, {"x": 1}]}
    item: if /x exists then /y exists = false
      - index: 1
      part: not /x exists = false
        predicate: /x exists = true
          - found: 1
      part: /y exists = false
"#;

const CHANGED_ROWS: &str = r#"
> a: if /x == 1 then /y == 2 <- {"x": 1, "y": 3}
    part: not /x == 1 = false
      - index: 0
      predicate: /x == 1 = true
        - found: 1
"#;

#[test]
fn what_follows(rt: HostRuntime) {
    all_written(&rt, rt.alloc(), Report::First, ROWS);
    all_written(&rt, rt.alloc(), Report::Change, CHANGED_ROWS)
}
