//! Predicates of lists without members, and of few rules.
use predicates::iter::same_members;
use predicates::ord::{OrdPredicate, ge};
use predicates::part::PredicatePartExt;
use predicates::rules::{all_of, any_of};
use std::alloc::Global;
use std::fmt::Write;
use std::process::Abort;
use tests_sweep::Memory::{GoesOn, Never};
use tests_sweep::{Row, over, sweep_calls};

#[test]
fn members(rt: HostRuntime) {
    let lines = "each(var >= 18) = true\n  - len: 0\n";
    let row = over("of_each of none", true, lines, "item: var >= 18\n");
    let none: Vec<u32> = Vec::new(rt.alloc());
    sweep_calls(&rt, &ge(18u32).of_each(), &none, row).expect(&rt, "memory")
}

// A list of another length takes no memory to evaluate. The sort goes on without a buffer.
#[test]
fn same_members_in_any_order(rt: HostRuntime) {
    let alloc = rt.alloc();
    let same = same_members(alloc, [3u32, 1, 3]).expect(&rt, "memory");
    let row = Row {
        name: "same_members of a longer list",
        verdict: false,
        eval: Never,
        case: GoesOn,
        opposite: GoesOn,
        lines: "var == values in any order = false\n  - missing: []\n  - extra: [2]\n",
        parameters: "values=[1, 3, 3]\n",
        children: "",
    };
    sweep_calls(
        &rt,
        &same,
        &Vec::from_slice(alloc, &[3, 3, 2, 1]).expect(&rt, "memory"),
        row,
    )
    .expect(&rt, "memory")
}

// The least numbers of rules, a number, whether all hold and one does, and the lines of both.
const RULES: [(&[u32], u32, [(bool, &str); 2]); 2] = [
    (
        &[1],
        4,
        [
            (
                true,
                "all_of(var >= 1) = true\n  rule: var >= 1 = true\n    - var: 4\n",
            ),
            (
                true,
                "any_of(var >= 1) = true\n  rule: var >= 1 = true\n    - var: 4\n",
            ),
        ],
    ),
    (
        &[],
        4,
        [
            (true, "all_of() = true\n  - len: 0\n"),
            (false, "any_of() = false\n  - len: 0\n"),
        ],
    ),
];

// A rule for each least number, and the descriptions of all.
fn rules_of(rt: &impl Abort, alloc: Global, least: &[u32]) -> (Vec<OrdPredicate<u32>>, String) {
    let (mut rules, mut children) = (Vec::new(alloc), String::new(alloc));
    for least in least {
        rules.push(ge(*least)).expect(rt, "memory");
        writeln!(children, "rule: var >= {least}").expect(rt, "memory");
    }
    (rules, children)
}

#[test]
fn rules(rt: HostRuntime) {
    let alloc = rt.alloc();
    for (least, number, [(all, of_all), (any, of_any)]) in RULES {
        let (rules, children) = rules_of(&rt, alloc, least);
        let row = over("all_of", all, of_all, children.as_str());
        sweep_calls(&rt, &all_of(rules), &number, row).expect(&rt, "memory");
        let (rules, children) = rules_of(&rt, alloc, least);
        let row = over("any_of", any, of_any, children.as_str());
        sweep_calls(&rt, &any_of(rules), &number, row).expect(&rt, "memory");
    }
}
