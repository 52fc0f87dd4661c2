//! What is told of slips behind `then`, and of operators of other languages.
use std::alloc::Global;
use std::process::Abort;
use vet_run::read_checks;

// An expression, and how what is told of it ends.
const OPERATORS: [(&str, &str); 3] = [
    ("/b => 1", "found `=>`; did you mean `>=`?"),
    ("/b =< 1", "found `=<`; did you mean `<=`?"),
    ("/b !== 1", "found `!==`; did you mean `!=`?"),
];

const BEHIND_THEN: [(&str, &str); 5] = [
    (
        "if /b exists then c exists",
        "found `c`; a path begins with `/`",
    ),
    (
        "if /b exists then c.d exists",
        "found `c.d`; keys stand behind `/`, as in `/a/b`",
    ),
    (
        "if /b exists then count /c > 1",
        "found `count`; a length is asked as `PATH length > 1`",
    ),
    (
        "if /b exists then none /c (/ exists)",
        "found `none`; did you mean `not any`?",
    ),
    (
        "if count /b > 1 then /c exists",
        "found `count`; a length is asked as `PATH length > 1`",
    ),
];

// Whether the rule is not read, and this is told last.
fn is_told(rt: &impl Abort, alloc: Global, expression: &str, told: &str) -> bool {
    let rule = format!(in alloc; "a: {expression}").expect(rt, "memory");
    match read_checks(alloc, rule.as_bytes()) {
        Ok(_) => false,
        Err(error) => {
            let text = format!(in alloc; "{error}").expect(rt, "memory");
            text.ends_with(told)
        }
    }
}

fn all_told(rt: &impl Abort, alloc: Global, rows: &[(&str, &str)]) {
    for (expression, told) in rows {
        assert!(rt; is_told(rt, alloc, expression, told), "{expression}");
    }
}

#[test]
fn hints_of_operators(rt: HostRuntime) {
    all_told(&rt, rt.alloc(), &OPERATORS);
}

#[test]
fn hints_behind_then(rt: HostRuntime) {
    all_told(&rt, rt.alloc(), &BEHIND_THEN);
}
