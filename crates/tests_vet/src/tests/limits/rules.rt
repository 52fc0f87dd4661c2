//! Many rules, long ones, and those that nest.
use super::told;
use std::alloc::Global;
use std::process::Abort;
use std::str;
use tests_support::Process;
use vet_checks::RuleCheck;
use vet_run::read_checks;

// The checks of rules that are read.
pub(super) fn checks_of(rt: &impl Abort, alloc: Global, rules: &[u8]) -> Vec<RuleCheck> {
    read_checks(alloc, rules).ok().expect(rt, "rules")
}

// How many rules stand before the last one.
const MANY: usize = 2_500;

// Rules that each record keeps, and the last line.
fn many_rules(rt: &impl Abort, alloc: Global, last: &str) -> String {
    let mut rules = String::new(alloc);
    for number in 0..MANY {
        writeln!(rules, "r{number}: / exists").expect(rt, "memory");
    }
    rules.push_str(last).expect(rt, "memory");
    rules
}

// Whether the program ends so, of one record, where this is the last of many rules.
fn ends(
    rt: &impl Abort,
    alloc: Global,
    last: &str,
    status: u8,
    output: &[u8],
    messages: &[u8],
) -> bool {
    let rules = many_rules(rt, alloc, last);
    let files: [(&str, &[u8]); 1] = [("rules", rules.as_bytes())];
    let (found, written, error) = told(Process::new(alloc, &[b"vet", b"rules"], &files, b"1"));
    found == status && written.as_slice() == output && error.as_slice() == messages
}

const LAST: &[u8] = b"record 1: false\nlast = false\n  rule: / == 2 = false\n    - found: 1\n";

const TOTALS: &[u8] = b"1 record, 1 failed\n";

// A last rule that is read, one that has the name of another, and one that is none.
const LASTS: [(&str, u8, &[u8], &[u8]); 3] = [
    ("last: / == 2", 1, LAST, TOTALS),
    (
        "r1700: / == 2",
        2,
        b"",
        b"vet: rules: line 2501, column 1: the name `r1700` stands on line 1701 already\n",
    ),
    (
        "last: / ==",
        2,
        b"",
        b"vet: rules: line 2501, column 11: expected a literal or a path, found the end of the \
          line\n",
    ),
];

#[test]
fn the_last_of_many_rules(rt: HostRuntime) {
    for (last, status, output, messages) in LASTS {
        let right = ends(&rt, rt.alloc(), last, status, output, messages);
        assert!(rt; right, "{last}");
    }
}

// How many letters the text of a long rule has: more than a megabyte.
const LETTERS: usize = 1 << 20;

// So many letters between the two.
fn letters_between(rt: &impl Abort, alloc: Global, front: &str, back: &str) -> String {
    let letters = vec![in alloc; b'x'; LETTERS].expect(rt, "memory");
    let mut text = String::from_str(alloc, front).expect(rt, "memory");
    text.push_str(str::from_utf8(&letters).unwrap_or(""))
        .expect(rt, "memory");
    text.push_str(back).expect(rt, "memory");
    text
}

// Whether the program writes the block of the record 1 by the rule.
fn writes(alloc: Global, rule: &str, block: &str) -> bool {
    let files: [(&str, &[u8]); 1] = [("rules", rule.as_bytes())];
    let (status, output, _) = told(Process::new(alloc, &[b"vet", b"rules"], &files, b"1"));
    status == 1 && output.as_slice() == block.as_bytes()
}

// It is read, and its text is never cut.
#[test]
fn a_rule_of_a_megabyte(rt: HostRuntime) {
    let alloc = rt.alloc();
    let rule = letters_between(&rt, alloc, "a: / == \"", "\" # b");
    let block = letters_between(
        &rt,
        alloc,
        "record 1: false\na = false\n  rule: / == \"",
        "\" = false\n    - found: 1\n    - error: not a string\n",
    );
    assert!(rt; writes(alloc, &rule, &block));
}
