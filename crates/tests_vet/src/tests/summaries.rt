//! Summaries: what is counted, as JSON, and its sum over pieces.
use std::alloc::Global;
use std::process::Abort;
use tests_support::{Closed, Process};
use vet_program::{Terminals, run_program};
use vet_run::{NoSum, ReadSummaryError, Summary};

// Words, and the status, standard output and standard error.
type Row = (&'static [&'static [u8]], u8, &'static str, &'static str);

// Files of rules, of records and of summaries: with their members in another order and another one
// among them, of other rules, with the greatest count, behind faults, faults alone, of nothing, cut,
// and of something else.
const FILES: [(&str, &[u8]); 11] = [
    ("rules", b"a: / == 1\n\"b \\\"c\\\"\": / < 3"),
    ("records", b"1\n4\n[\n2\n"),
    (
        "one",
        b"{\"records\":3,\"failed\":2,\"unreadable\":0,\"rules\":[{\"rule\":\"a\",\"broken\":2},\
        {\"rule\":\"b\",\"broken\":1}]}\n",
    ),
    (
        "two",
        b" {\"rules\": [ {\"broken\": 41, \"rule\": \"\\u0061\", \"note\": null},\n\
        {\"rule\": \"b\", \"broken\": 0} ], \"failed\": 41, \"records\": 50, \"unreadable\": 0 }\n",
    ),
    (
        "others",
        b"{\"records\":1,\"failed\":0,\"unreadable\":1,\"rules\":[{\"rule\":\"b\",\"broken\":0},\
        {\"rule\":\"a\",\"broken\":0}]}",
    ),
    (
        "greatest",
        b"{\"records\":18446744073709551615,\"failed\":0,\"unreadable\":0,\
        \"rules\":[{\"rule\":\"a\",\"broken\":0},{\"rule\":\"b\",\"broken\":0}]}",
    ),
    (
        "told",
        b"vet: records:3: not UTF-8\nvet: none: entity not found\n{\"records\":1,\"failed\":1,\
        \"unreadable\":1,\"rules\":[{\"rule\":\"a\",\"broken\":1},{\"rule\":\"b\",\"broken\":1}]}\n",
    ),
    ("faults", b"vet: records:3: not UTF-8\nvet: no memory"),
    (
        "nothing",
        b"{\"records\":4,\"failed\":0,\"unreadable\":0,\"rules\":[]}",
    ),
    ("cut", b"{\"records\":3"),
    (
        "else",
        b"{\"records\":3,\"failed\":-1,\"unreadable\":0,\"rules\":[]}",
    ),
];

// Runs that write their counts as an object in place of the totals.
const RUNS: [Row; 3] = [
    (
        &[
            b"vet",
            b"--summary=json",
            b"--max",
            b"0",
            b"rules",
            b"records",
        ],
        2,
        "",
        "\
vet: records:3: not JSON: EOF while parsing at its end
{\"records\":3,\"failed\":2,\"unreadable\":1,\"rules\":[{\"rule\":\"a\",\"broken\":2},\
    {\"rule\":\"b \\\"c\\\"\",\"broken\":1}]}
",
    ),
    (
        &[
            b"vet",
            b"--max",
            b"0",
            b"--summary=lines",
            b"rules",
            b"records",
        ],
        2,
        "",
        "\
vet: records:3: not JSON: EOF while parsing at its end
2  ##  a
1  #   b \"c\"
3 records, 2 failed, 1 line unreadable
",
    ),
    // The value stands behind `=` alone.
    (
        &[b"vet", b"--summary", b"json", b"records"],
        2,
        "",
        "vet: json: entity not found\n",
    ),
];

// Sums of the files.
const SUMS: [Row; 6] = [
    (
        &[b"vet", b"--merge", b"--summary=json", b"one", b"two"],
        1,
        "{\"records\":53,\"failed\":43,\"unreadable\":0,\"rules\":[{\"rule\":\"a\",\"broken\":43},\
         {\"rule\":\"b\",\"broken\":1}]}\n",
        "",
    ),
    (
        &[b"vet", b"--merge", b"one", b"two"],
        1,
        "\
43  ######################  a
 1  #                       b
each # is up to 2 records
",
        "53 records, 43 failed\n",
    ),
    // Behind the faults of a run.
    (
        &[
            b"vet",
            b"--merge",
            b"--summary=json",
            b"told",
            b"one",
            b"told",
        ],
        2,
        "{\"records\":5,\"failed\":4,\"unreadable\":2,\"rules\":[{\"rule\":\"a\",\"broken\":4},\
         {\"rule\":\"b\",\"broken\":3}]}\n",
        "",
    ),
    (
        &[b"vet", b"--summary", b"--merge", b"one"],
        1,
        "2  ##  a\n1  #   b\n",
        "3 records, 2 failed\n",
    ),
    (
        &[b"vet", b"--merge", b"nothing", b"nothing", b"nothing"],
        0,
        "",
        "12 records, 0 failed\n",
    ),
    (
        &[b"vet", b"--merge", b"--summary=json", b"others"],
        2,
        "{\"records\":1,\"failed\":0,\"unreadable\":1,\"rules\":[{\"rule\":\"b\",\"broken\":0},\
         {\"rule\":\"a\",\"broken\":0}]}\n",
        "",
    ),
];

// What has no sum.
const REFUSALS: [Row; 9] = [
    (
        &[b"vet", b"--merge", b"one", b"others"],
        2,
        "",
        "vet: others: not by the same rules\n",
    ),
    (
        &[b"vet", b"--merge", b"one", b"nothing"],
        2,
        "",
        "vet: nothing: not by the same rules\n",
    ),
    (
        &[b"vet", b"--merge", b"greatest", b"one"],
        2,
        "",
        "vet: one: more than 64 bits count\n",
    ),
    (
        &[b"vet", b"--merge", b"cut"],
        2,
        "",
        "vet: cut: not JSON: EOF while parsing at its end\n",
    ),
    (
        &[b"vet", b"--merge", b"faults"],
        2,
        "",
        "vet: faults: not JSON: EOF while parsing at its end\n",
    ),
    (
        &[b"vet", b"--merge", b"one", b"else"],
        2,
        "",
        "vet: else: no summary of a run, as JSON\n",
    ),
    (
        &[b"vet", b"--merge", b"none", b"one"],
        2,
        "",
        "vet: none: entity not found\n",
    ),
    (
        &[b"vet", b"--merge", b"--json", b"one"],
        2,
        "",
        "vet: the argument '--merge' cannot be used with '--json'; try --help\n",
    ),
    (
        &[b"vet", b"--merge"],
        2,
        "",
        "vet: the following required arguments were not provided: <RULES>; try --help\n",
    ),
];

// The status, standard output and standard error.
fn run(process: Process<'_>) -> (u8, Vec<u8>, Vec<u8>) {
    let status = run_program(
        &process,
        Terminals {
            output: false,
            error: false,
        },
    );
    let (output, error) = process.into_written();
    (status, output, error)
}

// Whether the program ends so.
fn ends(alloc: Global, row: Row) -> bool {
    let (words, status, output, messages) = row;
    let (found, written, told) = run(Process::new(alloc, words, &FILES, b""));
    found == status
        && written.as_slice() == output.as_bytes()
        && told.as_slice() == messages.as_bytes()
}

fn all_end(rt: &impl Abort, alloc: Global, rows: &[Row]) {
    for row in rows {
        assert!(rt; ends(alloc, *row), "{:?}", row.0);
    }
}

#[test]
fn written_and_merged(rt: HostRuntime) {
    let alloc = rt.alloc();
    all_end(&rt, alloc, &RUNS);
    all_end(&rt, alloc, &SUMS);
    all_end(&rt, alloc, &REFUSALS);
}

// Where nothing reads the sum, nothing is told.
#[test]
fn sums_that_nothing_reads(rt: HostRuntime) {
    let words: &[&[u8]] = &[b"vet", b"--merge", b"one"];
    let mut process = Process::new(rt.alloc(), words, &FILES, b"");
    process.closed = Closed::Output;
    let (status, _, told) = run(process);
    assert!(rt; status == 1 && told.is_empty());
}

// A text, and whether it is a summary: its members, one that lacks, is of another kind, negative, a
// fraction or too great, rules that are none, and what is no object.
const TEXTS: [(&str, bool); 13] = [
    (
        "{\"records\":0,\"failed\":0,\"unreadable\":0,\"rules\":[]}",
        true,
    ),
    (
        "{\"unreadable\":1,\"a\":{},\"rules\":[{\"broken\":0,\"rule\":\"\"}],\"failed\":0,\
         \"records\":18446744073709551615}",
        true,
    ),
    (
        "{\"records\":4,\"failed\":1,\"unreadable\":0,\"rules\":[{\"rule\":\"adult\",\"broken\":1}]}",
        true,
    ),
    ("{\"records\":0,\"failed\":0,\"unreadable\":0}", false),
    (
        "{\"records\":0,\"failed\":0,\"unreadable\":0,\"rules\":{}}",
        false,
    ),
    ("{\"records\":0,\"failed\":0,\"rules\":[]}", false),
    (
        "{\"records\":1.0,\"failed\":0,\"unreadable\":0,\"rules\":[]}",
        false,
    ),
    (
        "{\"records\":18446744073709551616,\"failed\":0,\"unreadable\":0,\"rules\":[]}",
        false,
    ),
    (
        "{\"records\":0,\"failed\":\"0\",\"unreadable\":0,\"rules\":[]}",
        false,
    ),
    (
        "{\"records\":0,\"failed\":0,\"unreadable\":0,\"rules\":[{\"rule\":\"a\",\"broken\":1},1]}",
        false,
    ),
    (
        "{\"records\":0,\"failed\":0,\"unreadable\":0,\"rules\":[{\"rule\":1,\"broken\":1}]}",
        false,
    ),
    ("[]", false),
    ("1", false),
];

fn is_summary(alloc: Global, text: &str) -> Option<bool> {
    match Summary::read(alloc, text.as_bytes()) {
        Ok(_) => Some(true),
        Err(ReadSummaryError::NoSummary) => Some(false),
        Err(_) => None,
    }
}

#[test]
fn texts(rt: HostRuntime) {
    for (text, expected) in TEXTS {
        assert!(rt; is_summary(rt.alloc(), text) == Some(expected), "{text}");
    }
    assert!(rt; is_summary(rt.alloc(), "").is_none());
}

// What is written again of what is read.
fn rewritten(rt: &impl Abort, alloc: Global, text: &[u8]) -> String {
    match Summary::read(alloc, text) {
        Ok(summary) => summary.to_json(alloc).expect(rt, "memory"),
        Err(_) => String::new(alloc),
    }
}

#[test]
fn read_as_written(rt: HostRuntime) {
    let text = "{\"records\":3,\"failed\":2,\"unreadable\":1,\"rules\":[{\"rule\":\"a\\n\\\\\",\
                \"broken\":2},{\"rule\":\"\u{e9}\",\"broken\":18446744073709551615}]}";
    let again = rewritten(&rt, rt.alloc(), text.as_bytes());
    assert!(rt; again.as_str() == text);
}

// Why there is no sum of a summary and itself.
fn refusal(alloc: Global, text: &[u8]) -> Option<NoSum> {
    let (Ok(one), Ok(two)) = (Summary::read(alloc, text), Summary::read(alloc, text)) else {
        return None;
    };
    one.plus(&two).err()
}

// Counts of which the double does not fit 64 bits, each in turn.
const DOUBLED: [&str; 4] = [
    "{\"records\":9223372036854775808,\"failed\":0,\"unreadable\":0,\"rules\":[]}",
    "{\"records\":0,\"failed\":9223372036854775808,\"unreadable\":0,\"rules\":[]}",
    "{\"records\":0,\"failed\":0,\"unreadable\":9223372036854775808,\"rules\":[]}",
    "{\"records\":0,\"failed\":0,\"unreadable\":0,\
     \"rules\":[{\"rule\":\"a\",\"broken\":1},{\"rule\":\"b\",\"broken\":9223372036854775808}]}",
];

#[test]
fn sums_that_do_not_fit(rt: HostRuntime) {
    for text in DOUBLED {
        let refusal = refusal(rt.alloc(), text.as_bytes());
        assert!(rt; refusal == Some(NoSum::TooMany), "{text}");
    }
    let fits = "{\"records\":9223372036854775807,\"failed\":0,\"unreadable\":0,\"rules\":[]}";
    assert!(rt; refusal(rt.alloc(), fits.as_bytes()).is_none());
}
