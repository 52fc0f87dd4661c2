//! The whole program, over a process of the test's.
use std::alloc::Global;
use std::io::ErrorKind;
use std::process::Abort;
use tests_support::{Closed, Process};
use vet_program::{Terminals, run_program};

// Words, the rules, an input and the error at its end, the output that fails, and the status,
// standard output and standard error.
type Row = (
    &'static [&'static [u8]],
    &'static [u8],
    &'static [u8],
    Option<ErrorKind>,
    Closed,
    u8,
    &'static str,
    &'static str,
);

const PLAIN: &[&[u8]] = &[b"vet", b"rules"];

const FAILED: &[&[u8]] = &[b"vet", b"--failed", b"rules"];

const PASSED: &[&[u8]] = &[b"vet", b"rules", b"--passed"];

// Files of records.
const ONE: &[u8] = b"2\n1\n";

const TWO: &[u8] = b"1\n\n3";

const BAD: &[u8] = b"[\n1";

const BLOCK: &str = "record 1: false\na = false\n  rule: / == 1 = false\n    - found: 2\n";

const VALUES: [Row; 9] = [
    // Records as values, one behind another or as the members of an array.
    (
        &[b"vet", b"--input-format", b"json", b"rules"],
        b"a: / == 1",
        b"[1,\n 2]\n1 [",
        None,
        Closed::Neither,
        2,
        "record 2: false\na = false\n  rule: / == 1 = false\n    - found: 2\n",
        "\
vet: record 4: not JSON: EOF while parsing at its end
3 records, 1 failed, 1 line unreadable
",
    ),
    (
        &[b"vet", b"--failed", b"--input-format", b"json", b"rules"],
        b"a: / == 1",
        b"[{\"a\":\n1}, 1, 2 ]",
        None,
        Closed::Neither,
        1,
        "{\"a\":\n1}\n2\n",
        "3 records, 2 failed\n",
    ),
    // An array as it is laid out for people.
    (
        &[b"vet", b"--failed", b"--input-format", b"json", b"rules"],
        b"a: /x == 2",
        b"[\n {\"x\":1} ,\r\n {\"x\":1}\t\n]\n",
        None,
        Closed::Neither,
        1,
        "{\"x\":1}\n{\"x\":1}\n",
        "2 records, 2 failed\n",
    ),
    // White space inside a record stays.
    (
        &[b"vet", b"--passed", b"--input-format", b"json", b"rules"],
        b"a: /x == 1",
        b"[{\"x\" : 1 } , 1 ] {\"x\":\n1}",
        None,
        Closed::Neither,
        1,
        "{\"x\" : 1 }\n{\"x\":\n1}\n",
        "3 records, 1 failed\n",
    ),
    // A byte order mark before the first record, in both formats.
    (
        PLAIN,
        b"a: / == 1",
        b"\xef\xbb\xbf1\n2",
        None,
        Closed::Neither,
        1,
        "record 2: false\na = false\n  rule: / == 1 = false\n    - found: 2\n",
        "2 records, 1 failed\n",
    ),
    (
        &[b"vet", b"--input-format", b"json", b"rules"],
        b"a: / == 1",
        b"\xef\xbb\xbf\n[1, 2]",
        None,
        Closed::Neither,
        1,
        "record 2: false\na = false\n  rule: / == 1 = false\n    - found: 2\n",
        "2 records, 1 failed\n",
    ),
    // A part of one is none, and nor is one behind the first.
    (
        &[b"vet", b"--failed", b"rules"],
        b"a: / == 1",
        b"\xef\xbb1\n\xef\xbb\xbf2\n3",
        None,
        Closed::Neither,
        2,
        "3\n",
        "\
vet: record 1: not UTF-8
vet: record 2: not JSON: invalid JSON at line 1 column 1
1 record, 1 failed, 2 lines unreadable
",
    ),
    (
        PLAIN,
        b"a: / == 1",
        b"\xef\xbb\xbf",
        None,
        Closed::Neither,
        0,
        "",
        "0 records, 0 failed\n",
    ),
    (
        &[b"vet", b"--input-format", b"jsonl", b"rules"],
        b"a: / == 1",
        b"1\n[1",
        None,
        Closed::Neither,
        2,
        "",
        "\
vet: record 2: not JSON: EOF while parsing at its end
1 record, 0 failed, 1 line unreadable
",
    ),
];

const REPORTS: [Row; 10] = [
    (
        &[b"vet", b"--version"],
        b"",
        b"",
        None,
        Closed::Neither,
        0,
        "vet 0.1.0+, for rattle-kit-13f\n",
        "",
    ),
    // Every record keeps every rule.
    (
        PLAIN,
        b"a: / == 1",
        b"1\n1",
        None,
        Closed::Neither,
        0,
        "",
        "2 records, 0 failed\n",
    ),
    (
        PLAIN,
        b"",
        b"",
        None,
        Closed::Neither,
        0,
        "",
        "vet: rules: no rules, so every record passes\n0 records, 0 failed\n",
    ),
    // A record breaks one.
    (
        PLAIN,
        b"a: / == 1",
        b"2\n1",
        None,
        Closed::Neither,
        1,
        BLOCK,
        "2 records, 1 failed\n",
    ),
    (
        FAILED,
        b"a: / == 1",
        b"2\n1",
        None,
        Closed::Neither,
        1,
        "2\n",
        "2 records, 1 failed\n",
    ),
    (
        PASSED,
        b"a: / == 1",
        b"2\n1",
        None,
        Closed::Neither,
        1,
        "1\n",
        "2 records, 1 failed\n",
    ),
    (
        &[b"vet", b"--json", b"rules"],
        b"a: / == 1",
        b"1",
        None,
        Closed::Neither,
        0,
        "{\"record\":1,\"holds\":true}\n",
        "1 record, 0 failed\n",
    ),
    (
        &[b"vet", b"--json", b"--all", b"--id", b"/", b"rules"],
        b"a: / == 1",
        b"1",
        None,
        Closed::Neither,
        0,
        "{\"record\":1,\"holds\":true,\"cases\":[]}\n",
        "1 record, 0 failed\n",
    ),
    (
        &[b"vet", b"--id", b"/", b"--all", b"rules"],
        b"a: / == 1",
        b"2",
        None,
        Closed::Neither,
        1,
        "record 1 (2): false\na = false\n  rule: / == 1 = false\n    - found: 2\n",
        "1 record, 1 failed\n",
    ),
    (
        &[b"vet", b"--change", b"rules"],
        b"a: / == 1\nb: / == 2 or / == 3",
        b"4",
        None,
        Closed::Neither,
        1,
        "\
record 1: false
a = false
  rule: / == 1 = false
    - found: 4
b = false
  rule: / == 2 or / == 3 = false
    part: / == 2 = false
      - found: 4
      - index: 0
",
        "1 record, 1 failed\n",
    ),
];

const UNREADABLE: [Row; 6] = [
    (
        PLAIN,
        b"a: / == 1",
        b"{\"x\":2},\n]\n{\"x\":}\n{\"x\":[1,2} \r\n",
        None,
        Closed::Neither,
        2,
        "",
        "\
vet: record 1: not JSON: invalid JSON at line 1 column 8
vet: record 2: not JSON: invalid JSON at line 1 column 1
vet: record 3: not JSON: invalid JSON at line 1 column 6
vet: record 4: not JSON: invalid JSON at line 1 column 10
0 records, 0 failed, 4 lines unreadable
",
    ),
    // A line holds no record.
    (
        PLAIN,
        b"a: / == 1",
        b"1\n[1",
        None,
        Closed::Neither,
        2,
        "",
        "\
vet: record 2: not JSON: EOF while parsing at its end
1 record, 0 failed, 1 line unreadable
",
    ),
    // Where a line ends too early, and what stands at its end in vain.
    (
        PLAIN,
        b"a: / == 1",
        b"[1\n1",
        None,
        Closed::Neither,
        2,
        "",
        "\
vet: record 1: not JSON: EOF while parsing at its end
1 record, 0 failed, 1 line unreadable
",
    ),
    (
        PLAIN,
        b"a: / == 1",
        b"\xff\n2",
        None,
        Closed::Neither,
        2,
        "record 2: false\na = false\n  rule: / == 1 = false\n    - found: 2\n",
        "vet: record 1: not UTF-8\n1 record, 1 failed, 1 line unreadable\n",
    ),
    (
        PLAIN,
        b"a: / == 1",
        b"[\n1\n\xff",
        None,
        Closed::Neither,
        2,
        "",
        "\
vet: record 1: not JSON: EOF while parsing at its end
vet: record 3: not UTF-8
1 record, 0 failed, 2 lines unreadable
",
    ),
    // Blank lines hold no record, and count as lines.
    (
        PLAIN,
        b"a: / == 1",
        b"1\n\n \t\r\n2\n\n",
        None,
        Closed::Neither,
        1,
        "record 4: false\na = false\n  rule: / == 1 = false\n    - found: 2\n",
        "2 records, 1 failed\n",
    ),
];

const RULES: [Row; 9] = [
    // Rules that can't be read.
    (
        &[b"vet", b"r\xe9les"],
        b"a: / == 1",
        b"1",
        None,
        Closed::Neither,
        2,
        "",
        "vet: r\\xe9les: its name is not UTF-8\n",
    ),
    (
        &[b"vet", b"none"],
        b"a: / == 1",
        b"1",
        None,
        Closed::Neither,
        2,
        "",
        "vet: none: entity not found\n",
    ),
    (
        PLAIN,
        b"a: / == 1\n\nb: / ==",
        b"1",
        None,
        Closed::Neither,
        2,
        "",
        "vet: rules: line 3, column 8: expected a literal or a path, found the end of the line\n",
    ),
    (
        PLAIN,
        b"a: / exists\nb: /x ==",
        b"1",
        None,
        Closed::Neither,
        2,
        "",
        "vet: rules: line 2, column 9: expected a literal or a path, found the end of the line\n",
    ),
    (
        PLAIN,
        b"adult: /age = 18",
        b"1",
        None,
        Closed::Neither,
        2,
        "",
        "vet: rules: line 1, column 13: expected a word, an operator, a path or a literal, found \
         `=`; did you mean `==`?\n",
    ),
    (
        PLAIN,
        b"adult: age >= 18",
        b"1",
        None,
        Closed::Neither,
        2,
        "",
        "vet: rules: line 1, column 8: expected a word, an operator, a path or a literal, found \
         `age`; a path begins with `/`\n",
    ),
    (
        PLAIN,
        b"zoe: /name == 'Zoe'",
        b"1",
        None,
        Closed::Neither,
        2,
        "",
        "vet: rules: line 1, column 15: expected a word, an operator, a path or a literal, found \
         `'Zoe'`; a text stands in double quotes\n",
    ),
    (
        PLAIN,
        b"a: / == 1\nb: / matches \"(\"",
        b"1",
        None,
        Closed::Neither,
        2,
        "",
        "vet: rules: line 2, rule b: no regular expression: unclosed group at character 1: (\n",
    ),
    // Labels.
    (
        &[b"vet", b"--id", b"id", b"rules"],
        b"a: / == 1",
        b"1",
        None,
        Closed::Neither,
        2,
        "",
        "vet: --id id: not a path, which begins with `/`\n",
    ),
];

const WRONG_WORDS: [Row; 8] = [
    // Words that are not UTF-8.
    (
        &[b"vet", b"--id", b"/\xff", b"rules"],
        b"",
        b"1",
        None,
        Closed::Neither,
        2,
        "",
        "vet: --id /\\xff: not a path, which begins with `/`\n",
    ),
    (
        &[b"vet", b"--max", b"\xff", b"rules"],
        b"",
        b"1",
        None,
        Closed::Neither,
        2,
        "",
        "vet: invalid value '\\xff' for '--max <N>': invalid digit found in string; try --help\n",
    ),
    // Wrong words.
    (
        &[b"vet"],
        b"",
        b"1",
        None,
        Closed::Neither,
        2,
        "",
        "vet: the following required arguments were not provided: <RULES>; try --help\n",
    ),
    (
        &[b"vet", b"--failed", b"--passed", b"rules"],
        b"",
        b"1",
        None,
        Closed::Neither,
        2,
        "",
        "vet: the argument '--failed' cannot be used with '--passed'; try --help\n",
    ),
    (
        &[b"vet", b"--change", b"--failed", b"rules"],
        b"",
        b"1",
        None,
        Closed::Neither,
        2,
        "",
        "vet: the argument '--change' cannot be used with '--failed'; try --help\n",
    ),
    (
        &[b"vet", b"--change", b"--all", b"rules"],
        b"",
        b"1",
        None,
        Closed::Neither,
        2,
        "",
        "vet: the argument '--change' cannot be used with '--all'; try --help\n",
    ),
    (
        &[b"vet", b"--some", b"rules"],
        b"",
        b"1",
        None,
        Closed::Neither,
        2,
        "",
        "vet: unexpected argument '--some' found; try --help\n",
    ),
    (
        &[b"vet", b"--so\n\nme", b"rules"],
        b"",
        b"1",
        None,
        Closed::Neither,
        2,
        "",
        "vet: unexpected argument '--so; try --help\n",
    ),
];

const AMOUNTS: [Row; 7] = [
    // Objects of the records that break a rule.
    (
        &[b"vet", b"--json", b"--failed", b"rules"],
        b"a: / == 1",
        b"1\n2\n1",
        None,
        Closed::Neither,
        1,
        "{\"record\":2,\"holds\":false,\"case\":{\"text\":\"a\",\"result\":false,\"products\":[],\
         \"children\":[{\"name\":\"rule\",\"case\":{\"text\":\"/ == 1\",\"result\":false,\
         \"products\":[{\"name\":\"found\",\"value\":2}],\"children\":[]}}]}}\n",
        "3 records, 1 failed\n",
    ),
    (
        &[b"vet", b"rules", b"none"],
        b"a: / == 1",
        b"1",
        None,
        Closed::Neither,
        2,
        "",
        "vet: none: entity not found\n0 records, 0 failed\n",
    ),
    (
        &[b"vet", b"rules", b"-"],
        b"a: / == 1",
        b"3",
        None,
        Closed::Neither,
        1,
        "record 1: false\na = false\n  rule: / == 1 = false\n    - found: 3\n",
        "1 record, 1 failed\n",
    ),
    // How much is written, and when.
    (
        &[b"vet", b"--max", b"1", b"rules"],
        b"a: / == 1",
        b"2\n3\n1",
        None,
        Closed::Neither,
        1,
        "record 1: false\na = false\n  rule: / == 1 = false\n    - found: 2\n",
        "3 records, 2 failed\n",
    ),
    (
        &[b"vet", b"--max", b"0", b"rules"],
        b"a: / == 1",
        b"2\n3\n1",
        None,
        Closed::Neither,
        1,
        "",
        "3 records, 2 failed\n",
    ),
    (
        &[b"vet", b"--max", b"x", b"rules"],
        b"a: / == 1",
        b"1",
        None,
        Closed::Neither,
        2,
        "",
        "vet: invalid value 'x' for '--max <N>': invalid digit found in string; try --help\n",
    ),
    (
        &[b"vet", b"--flush", b"rules"],
        b"a: / == 1",
        b"2\n1\n3",
        None,
        Closed::Neither,
        1,
        "\
record 1: false
a = false
  rule: / == 1 = false
    - found: 2
record 3: false
a = false
  rule: / == 1 = false
    - found: 3
",
        "3 records, 2 failed\n",
    ),
];

const FAULTS: [Row; 7] = [
    // Faults of reading and writing.
    (
        PLAIN,
        b"a: / == 1",
        b"1\n2",
        Some(ErrorKind::BrokenPipe),
        Closed::Neither,
        2,
        "",
        "vet: input could not be read: broken pipe\n",
    ),
    (
        PLAIN,
        b"a: / == 1",
        b"1",
        Some(ErrorKind::OutOfMemory),
        Closed::Neither,
        2,
        "",
        "vet: no memory\n",
    ),
    // Where nothing reads the output, the status is that of the records so far.
    (PLAIN, b"a: / == 1", b"2", None, Closed::Output, 1, "", ""),
    (
        &[b"vet", b"--json", b"rules"],
        b"a: / == 1",
        b"1",
        None,
        Closed::Output,
        0,
        "",
        "",
    ),
    (
        &[b"vet", b"rules", b"none", b"one"],
        b"a: / == 1",
        b"",
        None,
        Closed::Output,
        2,
        "",
        "vet: none: entity not found\n",
    ),
    (PLAIN, b"a: / == 1", b"1", None, Closed::Error, 2, "", ""),
    (PLAIN, b"a: / == 1", b"[", None, Closed::Error, 2, "", ""),
];

const FILES: [Row; 9] = [
    // So is one whose name is not UTF-8.
    (
        &[b"vet", b"rules", b"\xc3\xa9\xff\xfe", b"one"],
        b"a: / == 1",
        b"",
        None,
        Closed::Neither,
        2,
        "one:1: false\na = false\n  rule: / == 1 = false\n    - found: 2\n",
        "vet: \u{e9}\\xff\\xfe: its name is not UTF-8\n2 records, 1 failed\n",
    ),
    // Files, and standard input among them.
    (
        &[b"vet", b"rules", b"one"],
        b"a: / == 1",
        b"",
        None,
        Closed::Neither,
        1,
        "one:1: false\na = false\n  rule: / == 1 = false\n    - found: 2\n",
        "2 records, 1 failed\n",
    ),
    // So do the faults of the only one, but not with objects, which have no name of it.
    (
        &[b"vet", b"rules", b"bad"],
        b"a: / == 1",
        b"",
        None,
        Closed::Neither,
        2,
        "",
        "\
vet: bad:1: not JSON: EOF while parsing at its end
1 record, 0 failed, 1 line unreadable
",
    ),
    (
        &[b"vet", b"--json", b"rules", b"bad"],
        b"a: / == 1",
        b"",
        None,
        Closed::Neither,
        2,
        "{\"record\":2,\"holds\":true}\n",
        "\
vet: record 1: not JSON: EOF while parsing at its end
1 record, 0 failed, 1 line unreadable
",
    ),
    (
        &[b"vet", b"rules", b"one", b"-", b"two"],
        b"a: / == 1",
        b"1\n4",
        None,
        Closed::Neither,
        1,
        "\
one:1: false
a = false
  rule: / == 1 = false
    - found: 2
-:2: false
a = false
  rule: / == 1 = false
    - found: 4
two:3: false
a = false
  rule: / == 1 = false
    - found: 3
",
        "6 records, 3 failed\n",
    ),
    (
        &[b"vet", b"--json", b"--failed", b"rules", b"two", b"bad"],
        b"a: / == 1",
        b"",
        None,
        Closed::Neither,
        2,
        "{\"file\":\"two\",\"record\":3,\"holds\":false,\"case\":{\"text\":\"a\",\"result\":false,\
         \"products\":[],\"children\":[{\"name\":\"rule\",\"case\":{\"text\":\"/ == 1\",\
         \"result\":false,\"products\":[{\"name\":\"found\",\"value\":3}],\"children\":[]}}]}}\n",
        "\
vet: bad:1: not JSON: EOF while parsing at its end
3 records, 1 failed, 1 line unreadable
",
    ),
    // The last line of a file has a line feed where another file goes on.
    (
        &[b"vet", b"--failed", b"rules", b"two", b"one", b"bad"],
        b"a: / == 2",
        b"",
        None,
        Closed::Neither,
        2,
        "1\n3\n1\n1\n",
        "\
vet: bad:1: not JSON: EOF while parsing at its end
5 records, 4 failed, 1 line unreadable
",
    ),
    // One that can't be read is told, and the others are read.
    (
        &[b"vet", b"rules", b"none", b"one"],
        b"a: / == 1",
        b"",
        None,
        Closed::Neither,
        2,
        "one:1: false\na = false\n  rule: / == 1 = false\n    - found: 2\n",
        "vet: none: entity not found\n2 records, 1 failed\n",
    ),
    (
        &[b"vet", b"rules", b"-", b"one"],
        b"a: / == 1",
        b"1\n1",
        Some(ErrorKind::BrokenPipe),
        Closed::Neither,
        2,
        "one:1: false\na = false\n  rule: / == 1 = false\n    - found: 2\n",
        "vet: -: input could not be read: broken pipe\n3 records, 1 failed\n",
    ),
];

// Flags, each with its value.
const FLAGS: [&[&[u8]]; 12] = [
    &[b"--failed"],
    &[b"--passed"],
    &[b"--all"],
    &[b"--change"],
    &[b"--json"],
    &[b"--summary"],
    &[b"--flush"],
    &[b"--max", b"1"],
    &[b"--id", b"/"],
    &[b"--progress"],
    &[b"--parts", b"1"],
    &[b"--color", b"never"],
];

// Which of them can't stand together, by their places.
const CLASHES: [(usize, usize); 8] = [
    (0, 1),
    (0, 2),
    (0, 3),
    (1, 2),
    (1, 3),
    (1, 4),
    (2, 3),
    (3, 4),
];

// The status, standard output and standard error.
fn run<'a>(
    alloc: Global,
    words: &'a [&'a [u8]],
    files: &'a [(&'a str, &'a [u8])],
    input: &'a [u8],
    end: Option<ErrorKind>,
    closed: Closed,
) -> (u8, Vec<u8>, Vec<u8>) {
    let mut process = Process::new(alloc, words, files, input);
    process.end = end;
    process.closed = closed;
    let status = run_program(
        &process,
        Terminals {
            output: false,
            error: true,
        },
    );
    let (output, error) = process.into_written();
    (status, output, error)
}

// Whether the program ends so.
fn ends(alloc: Global, row: Row) -> bool {
    let (words, rules, input, end, closed, status, output, messages) = row;
    let files: [(&str, &[u8]); 4] = [("rules", rules), ("one", ONE), ("two", TWO), ("bad", BAD)];
    let (found, written, told) = run(alloc, words, &files, input, end, closed);
    found == status
        && written.as_slice() == output.as_bytes()
        && told.as_slice() == messages.as_bytes()
}

fn clash(first: usize, second: usize) -> bool {
    CLASHES.iter().any(|(one, other)| (*one, *other) == (first.min(second), first.max(second)))
}

// What is told of two flags that can't stand together.
fn refusal(rt: &impl Abort, alloc: Global, first: &[&[u8]], second: &[&[u8]]) -> Vec<u8> {
    let mut line = Vec::new(alloc);
    line.extend_from_slice(b"vet: the argument '")
        .expect(rt, "memory");
    for word in first {
        line.extend_from_slice(word).expect(rt, "memory");
    }
    line.extend_from_slice(b"' cannot be used with '")
        .expect(rt, "memory");
    for word in second {
        line.extend_from_slice(word).expect(rt, "memory");
    }
    line.extend_from_slice(b"'; try --help\n")
        .expect(rt, "memory");
    line
}

// Whether the program ends so where these flags stand before the rules.
fn pair_ends<'w>(
    rt: &impl Abort,
    alloc: Global,
    first: &'w [&'w [u8]],
    second: &'w [&'w [u8]],
    clash: bool,
) -> bool {
    let mut words: Vec<&[u8]> = Vec::new(alloc);
    words.push(b"vet").expect(rt, "memory");
    words.extend_from_slice(first).expect(rt, "memory");
    words.extend_from_slice(second).expect(rt, "memory");
    words.push(b"rules").expect(rt, "memory");
    let (status, _, told) = run(
        alloc,
        words.as_slice(),
        &[("rules", b"a: / == 1")],
        b"1",
        None,
        Closed::Neither,
    );
    if clash {
        return status == 2 && told == refusal(rt, alloc, first, second);
    }
    status == 0 && told.ends_with(b"1 record, 0 failed\n")
}

fn all_end(rt: &impl Abort, alloc: Global, rows: &[Row]) {
    for row in rows {
        assert!(rt; ends(alloc, *row), "{:?} on {:?}", row.0, row.2);
    }
}

#[test]
fn statuses_and_messages(rt: HostRuntime) {
    let alloc = rt.alloc();
    all_end(&rt, alloc, &VALUES);
    all_end(&rt, alloc, &REPORTS);
    all_end(&rt, alloc, &UNREADABLE);
    all_end(&rt, alloc, &RULES);
    all_end(&rt, alloc, &WRONG_WORDS);
    all_end(&rt, alloc, &AMOUNTS);
    all_end(&rt, alloc, &FAULTS);
    all_end(&rt, alloc, &FILES);
}

// No line of the help is wider than a terminal.
#[test]
fn help_fits_a_terminal(rt: HostRuntime) {
    let words: [&[u8]; 2] = [b"vet", b"--help"];
    let (status, help, told) = run(rt.alloc(), &words, &[], b"", None, Closed::Neither);
    assert!(rt; status == 0 && told.is_empty() && help.len() > 1000);
    for line in help.split(|byte| *byte == b'\n') {
        assert!(rt; line.len() <= 80, "{line:?}");
    }
}

#[test]
fn every_pair_of_flags(rt: HostRuntime) {
    for (first, words) in FLAGS.iter().enumerate() {
        for (second, others) in FLAGS.iter().enumerate() {
            if first != second {
                let clash = clash(first, second);
                assert!(rt;
                    pair_ends(&rt, rt.alloc(), words, others, clash),
                    "{words:?} {others:?}"
                );
            }
        }
    }
}
