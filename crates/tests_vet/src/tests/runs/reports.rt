//! What a run writes by its report, its labels, the name of its input, and how much may be written;
//! and what it counts.
use super::{settings_of, writes_block};
use std::alloc::Global;
use std::process::Abort;
use streams::MAX_LINE;
use vet_run::settings::Report;
use vet_run::{
    Counts, InputFormat, Job, ReadChecksError, RulesFault, Streams, Summary, Tally, read_checks,
    run_records,
};

const RULES: &[u8] = b"a: /x == 1\nb: /y == 2\nc: /t matches \"^[a-c]*$\"";

// The first breaks `a` and `b`, the second no record, the third keeps all, the fourth is blank, the
// fifth breaks all three.
const RECORDS: &[u8] = b"\
{\"x\": 3, \"t\": \"b\"}
\xff
{\"x\": 1, \"y\": 2, \"t\": \"\"}

{\"y\": 1e2, \"t\": \"d\\\"\"}
";

// How a run is asked for: its report, the path of the labels, the name of the input, and how much
// may be written.
type Asked<'a> = (Report, Option<&'a str>, Option<&'a str>, Option<u64>);

// What a run writes, and its messages.
type Told<'a> = (&'a [u8], &'a [u8]);

const JSON: Report = Report::Json {
    all: false,
    failed: false,
};

const FAILED_JSON: Report = Report::Json {
    all: false,
    failed: true,
};

const ALL_JSON: Report = Report::Json {
    all: true,
    failed: false,
};

const MESSAGE: &[u8] = b"vet: record 2: not UTF-8\n";

const MESSAGE_IN_FILE: &[u8] = b"vet: f:2: not UTF-8\n";

const RUNS: [(Asked<'static>, Told<'static>); 9] = [
    (
        (Report::First, None, Some("f"), None),
        (
            b"\
f:1: false
a = false
  rule: /x == 1 = false
    - found: 3
f:5: false
a = false
  rule: /x == 1 = false
    - error: nothing at /x
",
            MESSAGE_IN_FILE,
        ),
    ),
    (
        (Report::First, Some("/t"), Some("f"), None),
        (
            b"\
f:1 (\"b\"): false
a = false
  rule: /x == 1 = false
    - found: 3
f:5 (\"d\\\"\"): false
a = false
  rule: /x == 1 = false
    - error: nothing at /x
",
            MESSAGE_IN_FILE,
        ),
    ),
    (
        (Report::All, Some("/z"), None, Some(1)),
        (
            b"\
record 1 (null): false
a = false
  rule: /x == 1 = false
    - found: 3
b = false
  rule: /y == 2 = false
    - error: nothing at /y
",
            MESSAGE,
        ),
    ),
    ((Report::Change, None, None, Some(0)), (b"", MESSAGE)),
    (
        (Report::Lines(false), None, None, Some(1)),
        (b"{\"x\": 3, \"t\": \"b\"}\n", MESSAGE),
    ),
    (
        (JSON, None, None, Some(2)),
        (
            b"\
{\"record\":1,\"holds\":false,\"case\":{\"text\":\"a\",\"result\":false,\"products\":[],\
    \"children\":[{\"name\":\"rule\",\"case\":{\"text\":\"/x == 1\",\"result\":false,\
    \"products\":[{\"name\":\"found\",\"value\":3}],\"children\":[]}}]}}
{\"record\":3,\"holds\":true}
",
            MESSAGE,
        ),
    ),
    (
        (FAILED_JSON, Some("/t"), Some("f\""), Some(9)),
        (
            b"\
{\"file\":\"f\\\"\",\"record\":\"b\",\"holds\":false,\"case\":{\"text\":\"a\",\"result\":false,\
    \"products\":[],\"children\":[{\"name\":\"rule\",\"case\":{\"text\":\"/x == 1\",\
    \"result\":false,\"products\":[{\"name\":\"found\",\"value\":3}],\"children\":[]}}]}}
{\"file\":\"f\\\"\",\"record\":\"d\\\"\",\"holds\":false,\"case\":{\"text\":\"a\",\"result\":false,\
    \"products\":[],\"children\":[{\"name\":\"rule\",\"case\":{\"text\":\"/x == 1\",\
    \"result\":false,\"products\":[{\"name\":\"error\",\"value\":\"nothing at /x\"}],\
    \"children\":[]}}]}}
",
            b"vet: f\":2: not UTF-8\n",
        ),
    ),
    (
        (ALL_JSON, Some("/x"), None, Some(1)),
        (
            b"{\"record\":3,\"holds\":false,\"cases\":[{\"text\":\"a\",\"result\":false,\
             \"products\":[],\"children\":[{\"name\":\"rule\",\"case\":{\"text\":\"/x == 1\",\
             \"result\":false,\"products\":[{\"name\":\"found\",\"value\":3}],\"children\":[]}}]},\
             {\"text\":\"b\",\"result\":false,\"products\":[],\"children\":[{\"name\":\"rule\",\
             \"case\":{\"text\":\"/y == 2\",\"result\":false,\"products\":[{\"name\":\"error\",\
             \"value\":\"nothing at /y\"}],\"children\":[]}}]}]}\n",
            MESSAGE,
        ),
    ),
    ((ALL_JSON, Some("/y"), None, Some(0)), (b"", MESSAGE)),
];

const COUNTS: Counts = Counts {
    records: 3,
    failed: 2,
    unreadable: 1,
};

// Whether two runs over the records, one after the other, write this each, where there is room, and
// count this.
fn writes(rt: &impl Abort, alloc: Global, asked: Asked<'_>, told: Told<'_>) -> bool {
    let (report, id, source, most) = asked;
    let rules = read_checks(alloc, RULES).expect(rt, "memory");
    let settings = settings_of(rt, alloc, report, id);
    let job = Job {
        rules: &rules,
        settings: &settings,
        source,
        max_line: MAX_LINE,
        format: InputFormat::JsonLines,
    };
    let mut tally = Tally::of_rules(alloc, &rules, most).expect(rt, "memory");
    let mut records = RECORDS;
    let mut streams = Streams {
        output: Vec::new(alloc),
        messages: Vec::new(alloc),
    };
    run_records(alloc, &job, &mut tally, &mut records, &mut streams).expect(rt, "memory");
    streams.output.as_slice() == told.0
        && streams.messages.as_slice() == told.1
        && tally.counts == COUNTS
        && tally.broken.as_slice() == [2, 2, 1].as_slice()
}

#[test]
fn reports_with_names_and_room(rt: HostRuntime) {
    for (asked, told) in RUNS {
        assert!(rt; writes(&rt, rt.alloc(), asked, told), "{asked:?}");
    }
}

// Lines of which the second and the fourth have ten bytes, and the others nine at most.
const LONG: &[u8] = b"{\"x\": 2}\n{\"x\": 3 }\n\n         \n{\"x\": 4}";

// What is written of the short ones, and of the long ones the messages.
const SHORT_TOLD: &[u8] = b"\
record 1: false
a = false
  rule: /x == 1 = false
    - found: 2
record 5: false
a = false
  rule: /x == 1 = false
    - found: 4
";

const LONG_TOLD: &[u8] =
    b"vet: record 2: longer than 9 bytes\nvet: record 4: longer than 9 bytes\n";

const LONG_COUNTS: Counts = Counts {
    records: 2,
    failed: 2,
    unreadable: 2,
};

#[test]
fn lines_that_are_too_long(rt: HostRuntime) {
    let alloc = rt.alloc();
    let rules = read_checks(alloc, b"a: /x == 1").expect(&rt, "memory");
    let settings = settings_of(&rt, alloc, Report::First, None);
    let mut job = Job::new(&rules, &settings);
    job.max_line = 9;
    let mut tally = Tally::new(alloc, None);
    let mut records = LONG;
    let mut streams = Streams {
        output: Vec::new(alloc),
        messages: Vec::new(alloc),
    };
    run_records(alloc, &job, &mut tally, &mut records, &mut streams).expect(&rt, "memory");
    assert!(rt; streams.output.as_slice() == SHORT_TOLD);
    assert!(rt; streams.messages.as_slice() == LONG_TOLD);
    assert!(rt; tally.counts == LONG_COUNTS);
}

// The front of a text as JSON, with so many letters.
fn front_of(rt: &impl Abort, alloc: Global, letters: usize) -> String {
    let mut text = String::from_str(alloc, "\"").expect(rt, "memory");
    for _ in 0..letters {
        text.push_str("a").expect(rt, "memory");
    }
    text
}

// The whole of such a text.
fn text_of(rt: &impl Abort, alloc: Global, letters: usize) -> String {
    let mut text = front_of(rt, alloc, letters);
    text.push_str("\"").expect(rt, "memory");
    text
}

// Whether the block of the record, which is no number, shows this of what was found.
fn shows(rt: &impl Abort, alloc: Global, record: &str, shown: &str) -> bool {
    let block = format!(in alloc;
        "\
record 1: false
a = false
  rule: / == 1 = false
    - found{shown}
    - error: not a number
"
    )
    .expect(rt, "memory");
    let (rule, record) = ("a: / == 1", record.as_bytes());
    writes_block(rt, alloc, Report::First, rule, record, block.as_bytes())
}

// Whether the object of the record has the whole of it.
fn has_whole(rt: &impl Abort, alloc: Global, record: &str) -> bool {
    let object = format!(in alloc;
        "{{\"record\":1,\"holds\":false,\"case\":{{\"text\":\"a\",\"result\":false,\"products\":[],\
         \"children\":[{{\"name\":\"rule\",\"case\":{{\"text\":\"/ == 1\",\"result\":false,\
         \"products\":[{{\"name\":\"found\",\"value\":{record}}},{{\"name\":\"error\",\
         \"value\":\"not a number\"}}],\"children\":[]}}}}]}}}}\n"
    )
    .expect(rt, "memory");
    writes_block(
        rt,
        alloc,
        JSON,
        "a: / == 1",
        record.as_bytes(),
        object.as_bytes(),
    )
}

#[test]
fn long_values_are_cut(rt: HostRuntime) {
    let alloc = rt.alloc();
    let (short, long) = (text_of(&rt, alloc, 998), text_of(&rt, alloc, 999));
    let whole = format!(in alloc; ": {short}").expect(&rt, "memory");
    let front = front_of(&rt, alloc, 999);
    let cut = format!(in alloc; " (first 1000 of 1001 characters): {front}").expect(&rt, "memory");
    assert!(rt; shows(&rt, alloc, &short, &whole) && shows(&rt, alloc, &long, &cut));
    assert!(rt; has_whole(&rt, alloc, &long));
}

#[test]
fn control_characters_are_escaped(rt: HostRuntime) {
    let (record, shown) = ("\"a\u{9b}31m\u{7f}\"", ": \"a\\u{9b}31m\\u{7f}\"");
    assert!(rt; shows(&rt, rt.alloc(), record, shown));
    assert!(rt; has_whole(&rt, rt.alloc(), record));
}

// How many records break each of the rules, and the lines that tell it.
const SUMMARIES: [(&[u64], &str); 4] = [
    (&[2, 2, 1], "2  ##  a\n2  ##  b\n1  #   c\n"),
    (&[0, 1, 0], "1  #  b\n0     a\n0     c\n"),
    // Where one is above 40, a `#` stands for two, and a line says so.
    (
        &[0, 3, 41],
        "\
41  #####################  c
 3  ##                     b
 0                         a
each # is up to 2 records
",
    ),
    (&[], "0    a\n0    b\n0    c\n"),
];

// Whether these are the lines where so many records break each of the rules.
fn has_lines(rt: &impl Abort, alloc: Global, broken: &[u64], lines: &str) -> bool {
    let rules = read_checks(alloc, RULES).expect(rt, "memory");
    let mut tally = Tally::new(alloc, None);
    tally.broken.extend_from_slice(broken).expect(rt, "memory");
    let summary = Summary::of(alloc, &rules, &tally).expect(rt, "memory");
    summary.lines(alloc).expect(rt, "memory").as_str() == lines
}

#[test]
fn summaries(rt: HostRuntime) {
    for (broken, lines) in SUMMARIES {
        assert!(rt; has_lines(&rt, rt.alloc(), broken, lines), "{broken:?}");
    }
}

// Rules that are not read, and what is told of them.
const FAULTS: [(&[u8], &str); 6] = [
    (
        b"a: / >=\nb: / exists\nc: / ==",
        "\
vet: rules: line 1, column 8: expected a literal or a path, found the end of the line
vet: rules: line 3, column 8: expected a literal or a path, found the end of the line
",
    ),
    (
        b"a: / >=",
        "vet: rules: line 1, column 8: expected a literal or a path, found the end of the line\n",
    ),
    (
        b"a: / matches \"[\"",
        "vet: rules: line 1, rule a: no regular expression: unclosed character class at character \
         1: [\n",
    ),
    (
        b"a: / exists\na: / exists",
        "vet: rules: line 2, column 1: the name `a` stands on line 1 already\n",
    ),
    // Of a line whose name is taken no pattern is told.
    (
        b"a: / exists\na: / matches \"[\"",
        "vet: rules: line 2, column 1: the name `a` stands on line 1 already\n",
    ),
    // A line for each, of patterns too.
    (
        b"a: / matches \"[\"\nb: / exists\n# c\nd: / >=\n\ne: / == 1 and / matches \"(\"",
        "\
vet: rules: line 1, rule a: no regular expression: unclosed character class at character 1: [
vet: rules: line 4, column 8: expected a literal or a path, found the end of the line
vet: rules: line 6, rule e: no regular expression: unclosed group at character 1: (
",
    ),
];

// Whether this is told of the rules.
fn tells(rt: &impl Abort, alloc: Global, rules: &[u8], told: &str) -> bool {
    match read_checks(alloc, rules) {
        Ok(_) => false,
        Err(error) => {
            let path = "rules";
            let error = &error;
            let found = format!(in alloc; "{}", RulesFault { path, error }).expect(rt, "memory");
            found.as_str() == told
        }
    }
}

// Lines of which none is read, in turn for its pattern.
fn bad_lines(rt: &impl Abort, alloc: Global, lines: usize) -> Vec<u8> {
    let mut text = Vec::new(alloc);
    for line in 0..lines {
        if line % 2 == 0 {
            text.extend_from_slice(b"a: / matches \"(\"\n")
                .expect(rt, "memory");
        } else {
            text.extend_from_slice(b"a: / >=\n").expect(rt, "memory");
        }
    }
    text
}

// How many faults are told of so many of them, and one more that tells of the others.
fn number_of_faults(rt: &impl Abort, alloc: Global, lines: usize) -> usize {
    let text = bad_lines(rt, alloc, lines);
    match read_checks(alloc, &text) {
        Err(ReadChecksError::Unreadable(faults)) => faults.len(),
        _ => 0,
    }
}

#[test]
fn twenty_faults_at_most(rt: HostRuntime) {
    for (lines, faults) in [(1, 1), (19, 19), (20, 20), (21, 21), (50, 21)] {
        assert!(rt;
            number_of_faults(&rt, rt.alloc(), lines) == faults,
            "{lines}"
        );
    }
}

#[test]
fn faults_of_rules(rt: HostRuntime) {
    for (rules, told) in FAULTS {
        assert!(rt; tells(&rt, rt.alloc(), rules, told), "{rules:?}");
    }
}
