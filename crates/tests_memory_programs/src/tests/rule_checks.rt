//! The calls of checks of records, made of rules.
use serde_json::Value;
use std::alloc::{AllocError, Global};
use tests_sweep::Memory::{self, GoesOn, Never, Perhaps, Taken};
use tests_sweep::{Row, sweep_calls};
use vet_checks::RuleCheck;
use vet_run::read_checks;

// The first rule of the text.
fn rule_of(alloc: Global, text: &[u8]) -> Result<RuleCheck, AllocError> {
    match read_checks(alloc, text) {
        Ok(rules) => rules.into_iter().next().ok_or(AllocError),
        Err(_) => Err(AllocError),
    }
}

// A row of a check of records, which has neither parameters nor children.
fn row<'a>(name: &'a str, verdict: bool, lines: &'a str, memory: [Memory; 3]) -> Row<'a> {
    let [eval, case, opposite] = memory;
    Row {
        name,
        verdict,
        eval,
        case,
        opposite,
        lines,
        parameters: "",
        children: "",
    }
}

#[test]
fn calls_of_checks_of_records(rt: HostRuntime) {
    let rule = rule_of(rt.alloc(), b"a: /x == 1 or /x == 2").expect(&rt, "memory");
    let record = Value::from_str(rt.alloc(), "{\"x\": 3}").expect(&rt, "memory");
    let memory = [Never, Taken, Perhaps];
    let lines = "\
/x == 1 or /x == 2 = false
  part: /x == 1 = false
    - found: 3
  part: /x == 2 = false
    - found: 3
";
    sweep_calls(
        &rt,
        &rule.check,
        &record,
        row("Check", false, lines, memory),
    )
    .expect(&rt, "memory");
    let lines = "\
a = false
  rule: /x == 1 or /x == 2 = false
    part: /x == 1 = false
      - found: 3
    part: /x == 2 = false
      - found: 3
";
    sweep_calls(&rt, &rule, &record, row("RuleCheck", false, lines, memory)).expect(&rt, "memory")
}

// A name, a rule, a record, the verdict, the lines of the case, and what each call does with
// memory.
const RULES: [(&str, &[u8], &str, bool, &str, [Memory; 3]); 2] = [
    (
        "RuleCheck with a pattern",
        b"a: /x matches \"T[a-z]*\"",
        "{\"x\": \"Two\"}",
        true,
        "a = true\n  rule: /x matches \"T[a-z]*\" = true\n    - found: \"Two\"\n",
        [GoesOn, GoesOn, GoesOn],
    ),
    (
        "RuleCheck of keys",
        b"a: keys / in [\"x\"]",
        "{\"y\": 1}",
        false,
        "\
a = false
  rule: keys / in [\"x\"] = false
    - found: {\"y\":1}
    - other key: \"y\"
",
        [Never, Taken, Perhaps],
    ),
];

#[test]
fn calls_of_checks_of_rules(rt: HostRuntime) {
    for (name, rule, record, verdict, lines, memory) in RULES {
        let rule = rule_of(rt.alloc(), rule).expect(&rt, "memory");
        let record = Value::from_str(rt.alloc(), record).expect(&rt, "memory");
        sweep_calls(&rt, &rule, &record, row(name, verdict, lines, memory)).expect(&rt, "memory");
    }
}
