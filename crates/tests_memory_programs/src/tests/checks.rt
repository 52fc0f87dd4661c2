//! The calls of checks of texts, whose words are those of `explain`.
use super::words::check_of;
use std::process::Abort;
use tests_sweep::{WrittenRow, sweep_calls};

// In the last the right part, which takes memory, is not asked.
const CHECKS: [&str; 5] = [
    r#"empty contains=a xor eq=b not and@a@never taken perhaps@((var.is_empty() ^ var.contains(a)) && (! var == "b")) = true\n  left: (var.is_empty() ^ var.contains(a)) = true\n    left: var.is_empty() = false\n      - var: a\n    right: var.contains(a) = true\n      - var: a\n  right: (! var == "b") = true\n    predicate: var == "b" = false\n      - var: "a"\n@@"#,
    r#"starts=a trim ends=a normalize or@ ba\r\n@taken taken taken@(var.starts_with("a") || var.ends_with("a")) = false\n  left: var.starts_with("a") = false\n    - var: ba\n  right: var.ends_with("a") = false\n    - var:  ba\n\n@@"#,
    r"match=T[a-z]*@Two@goes_on goes_on goes_on@var.is_match(T[a-z]*) = true\n  - var: Two\n@@",
    r#"eq= starts= ends= contains= xor xor xor@a@never taken perhaps@(var == "" ^ (var.starts_with("") ^ (var.ends_with("") ^ var.contains()))) = true\n  left: var == "" = false\n    - var: "a"\n  right: (var.starts_with("") ^ (var.ends_with("") ^ var.contains())) = true\n    left: var.starts_with("") = true\n      - var: a\n    right: (var.ends_with("") ^ var.contains()) = false\n      left: var.ends_with("") = true\n        - var: a\n      right: var.contains() = true\n        - var: a\n@@"#,
    r"contains=x match=y and@a@never taken never@(var.contains(x) && var.is_match(y)) = false\n  left: var.contains(x) = false\n    - var: a\n@@",
];

// Sweeps over the calls of the check of the words.
fn sweep_check<R: Abort + AllocGlobal + Print>(rt: &R, row: &WrittenRow) {
    let mut tokens = Vec::new(rt.alloc());
    for token in row.words.as_str().split(' ') {
        tokens.push(token).expect(rt, "memory");
    }
    let check = check_of(rt, rt.alloc(), tokens.as_slice());
    sweep_calls(rt, &check, &row.item, row.row().expect(rt, "memory")).expect(rt, "memory")
}

#[test]
fn calls_of_checks_of_words(rt: HostRuntime) {
    for row in CHECKS {
        sweep_check(
            &rt,
            &WrittenRow::read(rt.alloc(), row).expect(&rt, "memory"),
        );
    }
}
