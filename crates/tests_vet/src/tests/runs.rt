//! Rules and records, and what a run writes for them.
mod combined;
mod conditions;
mod faults;
mod implications;
mod lists;
mod malformed_records;
mod malformed_rules;
mod numbers;
mod pattern_faults;
mod pieces;
mod records_and_items;
mod reference;
mod reports;
mod thresholds;

use std::alloc::Global;
use std::process::Abort;
use vet_run::settings::{Report, Settings};
use vet_run::{Counts, Job, ReadChecksError, RunFault, Streams, Tally, read_checks, run_records};

// What a run writes, its messages, and how it ends.
type Run = (Vec<u8>, Vec<u8>, Result<Counts, RunFault>);

// The run by the rules over the records.
fn run_of(
    alloc: Global,
    settings: &Settings,
    rules: &[u8],
    mut records: &[u8],
) -> Result<Run, ReadChecksError> {
    let checks = read_checks(alloc, rules)?;
    let job = Job::new(&checks, settings);
    let mut tally = Tally::new(alloc, None);
    let mut streams = Streams {
        output: Vec::new(alloc),
        messages: Vec::new(alloc),
    };
    let ended = match run_records(alloc, &job, &mut tally, &mut records, &mut streams) {
        Ok(()) => Ok(tally.counts),
        Err(fault) => Err(fault),
    };
    Ok((streams.output, streams.messages, ended))
}

// Settings with this path of the labels.
fn settings_of(rt: &impl Abort, alloc: Global, report: Report, id: Option<&str>) -> Settings {
    let id = match id {
        Some(path) => Some(String::from_str(alloc, path).expect(rt, "memory")),
        None => None,
    };
    Settings::new(report, id)
}

// Rules and records, what a run over them writes, and how many records it reads, finds broken and
// can't read.
#[derive(Clone, Copy, Drop)]
struct Expected<'a> {
    report: Report,
    id: Option<&'a str>,
    rules: &'a str,
    records: &'a [u8],
    output: &'a [u8],
    counts: (u64, u64, u64),
}

// Whether the run does so.
fn writes(rt: &impl Abort, alloc: Global, expected: Expected<'_>) -> bool {
    let (records, failed, unreadable) = expected.counts;
    let counts = Counts {
        records,
        failed,
        unreadable,
    };
    let settings = settings_of(rt, alloc, expected.report, expected.id);
    match run_of(
        alloc,
        &settings,
        expected.rules.as_bytes(),
        expected.records,
    ) {
        Ok((output, _, ended)) => ended == Ok(counts) && output.as_slice() == expected.output,
        Err(_) => false,
    }
}

// Whether a run over the one record does so, and so many records fail.
fn writes_of_one<'a>(
    rt: &impl Abort,
    alloc: Global,
    report: Report,
    rules: &'a str,
    (records, output, failed): (&'a [u8], &'a [u8], u64),
) -> bool {
    let expected = Expected {
        report,
        id: None,
        rules,
        records,
        output,
        counts: (1, failed, 0),
    };
    writes(rt, alloc, expected)
}

// Whether a run over the one record writes the block, which is empty where the record keeps the
// rules.
fn writes_block<'a>(
    rt: &impl Abort,
    alloc: Global,
    report: Report,
    rules: &'a str,
    records: &'a [u8],
    output: &'a [u8],
) -> bool {
    let failed = if output.is_empty() { 0 } else { 1 };
    writes_of_one(rt, alloc, report, rules, (records, output, failed))
}

// Whether a run by the rule passes the value, a line, where it holds, and not where it does not.
fn passes(rt: &impl Abort, alloc: Global, rule: &str, value: &str, holds: bool) -> bool {
    let line = format!(in alloc; "{value}\n").expect(rt, "memory");
    let records = line.as_bytes();
    let (written, failed) = if holds { (records.len(), 0) } else { (0, 1) };
    let output = &records[..written];
    writes_of_one(
        rt,
        alloc,
        Report::Lines(true),
        rule,
        (records, output, failed),
    )
}

// The block of which a row has these lines.
fn block_of(rt: &impl Abort, alloc: Global, rule: &str, lines: &str) -> String {
    let block = match rule.split_once(": ") {
        _ if lines.is_empty() => String::from_str(alloc, ""),
        Some((name, rule)) if !lines.starts_with("record ") => format!(in alloc;
            "record 1: false\n{name} = false\n  rule: {rule} = false\n{lines}\n"
        ),
        _ => format!(in alloc; "{lines}\n"),
    };
    block.expect(rt, "memory")
}

// Whether a run with this report writes the block of the row.
fn is_written(rt: &impl Abort, alloc: Global, report: Report, row: &str) -> bool {
    let (head, lines) = row.split_once('\n').unwrap_or((row, ""));
    let Some((rule, record)) = head.split_once(" <- ") else {
        return false;
    };
    let block = block_of(rt, alloc, rule, lines.strip_suffix('\n').unwrap_or(lines));
    writes_block(rt, alloc, report, rule, record.as_bytes(), block.as_bytes())
}

// Whether it does so for each row: behind `> ` a rule and a record with ` <- ` between them, and
// below it the lines of the block that follow that of the rule, or the whole block, where the rule
// is printed otherwise than written; none where the record keeps the rule.
fn all_written(rt: &impl Abort, alloc: Global, report: Report, rows: &str) {
    for row in rows.split("\n> ") {
        let is_right = row.is_empty() || is_written(rt, alloc, report, row);
        assert!(rt; is_right, "{report:?} {row}");
    }
}

const BLOCKS_OF_VALUES: &str = r#"
> a: /x == 1 <- {"x": 1}
> a: /x == 1 <- {"x": 2}
    - found: 2
> a: /x != 1 <- {}
    - error: nothing at /x
> a: /x <= -2 <- {"x": -2}
> a: /x > 18446744073709551614 <- {"x": 18446744073709551615}
> a: /x < 3 <- {"x": true}
    - found: true
    - error: not a number
> a: /x != null <- {"x": null}
    - found: null
> a: /x == true <- {"x": "y"}
    - found: "y"
    - error: not true or false
> a: / contains "\"" <- "q\""
> a: / ends_with "b" <- "ba"
    - found: "ba"
> a: / is_empty <- []
> a: / is_empty <- 4
    - found: 4
    - error: not a string, an array or an object
> a: / in [1, "b", null] <- "c"
    - found: "c"
> a: not /x missing <- {}
    predicate: /x missing = true
> a: / < 3 xor / > 1 <- 2
    part: / < 3 = true
      - found: 2
    part: / > 1 = true
      - found: 2
"#;

const BLOCKS_OF_LISTS: &str = r#"
> a: any / (/ == 1) <- []
    - len: 0
> a: each / (/ < 3) <- {"b": 4, "a": 1, "c": 5}
    item: / < 3 = false
      - found: 4
      - index: 1
> a: any / (/ == 1) <- {"b": 3, "a": 2}
    item: / == 1 = false
      - found: 2
    item: / == 1 = false
      - found: 3
> a: any /l (/x == 1) <- {"l": {"b": {"x": 1}, "a": 0}}
> a: each / (/ == 1) <- {}
> a: any / (/ == 1) <- {}
    - len: 0
> a: each /l (any / (/ == 1)) <- {"l": {"b": [1], "c": {"y": 3, "x": 2}, "a": {"x": 1}}}
    item: any / (/ == 1) = false
      - index: 2
      item: / == 1 = false
        - found: 2
      item: / == 1 = false
        - found: 3
> a: each / (each / (/ < 3)) <- [{"b": 4, "a": 1}]
    item: each / (/ < 3) = false
      item: / < 3 = false
        - found: 4
        - index: 1
> a: each / (/ == 1) <- 1
    - found: 1
    - error: not an array or an object
"#;

#[test]
fn blocks_of_records(rt: HostRuntime) {
    all_written(&rt, rt.alloc(), Report::First, BLOCKS_OF_VALUES);
    all_written(&rt, rt.alloc(), Report::First, BLOCKS_OF_LISTS)
}

// What would have to change in the rule.
const CHANGES: &str = r#"
> a: / == 1 <- 1
> a: /x == 1 and /y == 2 and /z == 3 <- {"x": 0, "y": 2, "z": 0}
    part: /x == 1 = false
      - found: 0
      - index: 0
    part: /z == 3 = false
      - found: 0
      - index: 2
> a: / == 1 or / == 2 <- 3
    part: / == 1 = false
      - found: 3
      - index: 0
> a: / < 3 xor / > 1 <- 2
    part: / < 3 = true
      - found: 2
> a: not (/x == 1 and /y == 2) <- {"x": 1, "y": 2}
    predicate: /x == 1 and /y == 2 = true
      part: /x == 1 = true
        - found: 1
        - index: 0
> a: not (/x == 1 or /y == 2 or /x == 3) <- {"x": 1, "y": 2}
    predicate: /x == 1 or /y == 2 or /x == 3 = true
      part: /x == 1 = true
        - found: 1
        - index: 0
      part: /y == 2 = true
        - found: 2
        - index: 1
> a: each / (/ < 3) <- [1, 4, 5]
    item: / < 3 = false
      - found: 4
      - index: 1
    item: / < 3 = false
      - found: 5
      - index: 2
> a: any / (/ == 1) <- [2, 3]
    item: / == 1 = false
      - found: 2
      - index: 0
> a: any / (/ == 1) <- []
    - len: 0
> a: each /l (/ < 3) <- {}
    - error: nothing at /l
> a: each / (/ < 3) <- {"c": 5, "b": 4, "a": 1}
    item: / < 3 = false
      - found: 4
      - index: 1
    item: / < 3 = false
      - found: 5
      - index: 2
> a: any / (/ == 1) <- {"b": 3, "a": 2}
    item: / == 1 = false
      - found: 2
      - index: 0
> a: each /l (/ < 3) <- {"l": 4}
    - found: 4
    - error: not an array or an object
"#;

#[test]
fn changes_of_records(rt: HostRuntime) {
    all_written(&rt, rt.alloc(), Report::Change, CHANGES)
}

// The records, those that break the rule, those that keep it, and the counts.
const LINES: [(&[u8], &[u8], &[u8], (u64, u64, u64)); 5] = [
    (b"", b"", b"", (0, 0, 0)),
    (b"1\n 2 \n1", b" 2 \n", b"1\n1\n", (3, 1, 0)),
    (b"1\n[\n\xff\n\n3\r\n", b"3\r\n", b"1\n", (2, 1, 2)),
    // Blank lines, and those with white space that JSON does not have.
    (b"\n1\n \t\r\n\n\n2\n ", b"2\n", b"1\n", (2, 1, 0)),
    (b"\x0c\n1\n\xc2\xa0\n\x0b\n\0\n", b"", b"1\n", (1, 0, 4)),
];

#[test]
fn lines_by_their_rule(rt: HostRuntime) {
    for (records, failed, passed, counts) in LINES {
        for (report, output) in [
            (Report::Lines(false), failed),
            (Report::Lines(true), passed),
        ] {
            let expected = Expected {
                report,
                id: None,
                rules: "a: / == 1",
                records,
                output,
                counts,
            };
            assert!(rt; writes(&rt, rt.alloc(), expected), "{records:?}");
        }
    }
}

const PATTERNS: &str =
    "a: /x matches \"^[A-Z]+$\"\nb: /y matches \"^[0-9]+$\"\nc: /z matches \"^[A-Z]+$\"";

const MATCHED: &[u8] = b"\
{\"x\": \"A\", \"y\": \"1\", \"z\": \"B\"}
{\"x\": \"1\", \"y\": \"A\", \"z\": \"1\"}
{\"x\": \"A\", \"y\": \"A\", \"z\": \"B\"}
{\"x\": \"A\", \"y\": \"1\", \"z\": \"1\"}
";

const UNMATCHED: &[u8] = b"\
record 2: false
a = false
  rule: /x matches \"^[A-Z]+$\" = false
    - found: \"1\"
b = false
  rule: /y matches \"^[0-9]+$\" = false
    - found: \"A\"
c = false
  rule: /z matches \"^[A-Z]+$\" = false
    - found: \"1\"
record 3: false
b = false
  rule: /y matches \"^[0-9]+$\" = false
    - found: \"A\"
record 4: false
c = false
  rule: /z matches \"^[A-Z]+$\" = false
    - found: \"1\"
";

// Each pattern of a run answers for itself, on each record.
#[test]
fn patterns_of_one_run(rt: HostRuntime) {
    let expected = Expected {
        report: Report::All,
        id: None,
        rules: PATTERNS,
        records: MATCHED,
        output: UNMATCHED,
        counts: (4, 3, 0),
    };
    assert!(rt; writes(&rt, rt.alloc(), expected));
}

const RULES: &str = "a: /x == 1\nb: /y == 2";

const RECORDS: &[u8] = b"{\"id\": \"r\", \"x\": 3, \"y\": 4}\n{\"x\": 1, \"y\": 2}\n";

// A report on these records, the path of their labels, and what is written.
const REPORTS: [(Report, Option<&str>, &[u8]); 4] = [
    (
        Report::Change,
        Some("/id"),
        b"\
record 1 (\"r\"): false
a = false
  rule: /x == 1 = false
    - found: 3
b = false
  rule: /y == 2 = false
    - found: 4
",
    ),
    (
        Report::All,
        None,
        b"\
record 1: false
a = false
  rule: /x == 1 = false
    - found: 3
b = false
  rule: /y == 2 = false
    - found: 4
",
    ),
    (
        Report::First,
        Some("/id"),
        b"record 1 (\"r\"): false\na = false\n  rule: /x == 1 = false\n    - found: 3\n",
    ),
    (
        Report::First,
        Some("/z"),
        b"record 1 (null): false\na = false\n  rule: /x == 1 = false\n    - found: 3\n",
    ),
];

#[test]
fn reports_on_records(rt: HostRuntime) {
    for (report, id, output) in REPORTS {
        let expected = Expected {
            report,
            id,
            rules: RULES,
            records: RECORDS,
            output,
            counts: (2, 1, 0),
        };
        assert!(rt; writes(&rt, rt.alloc(), expected), "{report:?}");
    }
}

// Whether the rules are not read, for this reason.
fn is_refused(rt: &impl Abort, alloc: Global, rules: &str, message: &str) -> bool {
    match read_checks(alloc, rules.as_bytes()) {
        Ok(_) => false,
        Err(error) => {
            let found = format!(in alloc; "{error}").expect(rt, "memory");
            found.as_str() == message
        }
    }
}

// Rules, and why they are not read.
const REFUSED: [(&str, &str); 8] = [
    (
        "a: / matches \"[\"",
        "line 1, rule a: no regular expression: unclosed character class at character 1: [",
    ),
    (
        "# a\n\na: / exists\r\n \t# c\nb: / matches \"[\"",
        "line 5, rule b: no regular expression: unclosed character class at character 1: [",
    ),
    (
        "\u{feff}# a\nb: / matches \"[\"",
        "line 2, rule b: no regular expression: unclosed character class at character 1: [",
    ),
    (
        "a: / matches \"\u{e9}a(\"",
        "line 1, rule a: no regular expression: unclosed group at character 3: \u{e9}a(",
    ),
    (
        "a: / exists or not / matches \"b{2,1}\"",
        "line 1, rule a: no regular expression: invalid repetition count range, the start must be \
         <= the end at character 2: b{2,1}",
    ),
    (
        "a: / matches \"(?:a{1000}){1000}\"",
        "line 1, rule a: no regular expression: too large: (?:a{1000}){1000}",
    ),
    (
        "a: / exists\nb: /x ==",
        "line 2, column 9: expected a literal or a path, found the end of the line",
    ),
    (
        "a / exists",
        "line 1, column 2: expected `:` behind the name of a rule, found `/`",
    ),
];

#[test]
fn rules_that_are_refused(rt: HostRuntime) {
    for (rules, message) in REFUSED {
        assert!(rt; is_refused(&rt, rt.alloc(), rules, message), "{rules}");
    }
}
