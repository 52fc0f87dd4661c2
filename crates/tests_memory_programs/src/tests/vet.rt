//! Rules of a file, and runs over records.
use super::ended_run::EndedRun;
use std::alloc::{AllocError, Global};
use tests_sweep::Memory::{self, GoesOn, Perhaps, Taken};
use tests_sweep::{Answer, Call, sweep};
use vet_checks::RuleCheck;
use vet_run::settings::{Report, Settings};
use vet_run::{InputFormat, Job, ReadChecksError, Streams, Tally, read_checks, run_records};

// Rules that are read.
#[derive(Clone, Copy)]
struct Reading<'a> {
    rules: &'a [u8],
}

// A line for each rule.
fn lines_of(alloc: Global, checks: &[RuleCheck]) -> Result<String, AllocError> {
    let mut lines = String::new(alloc);
    for rule in checks {
        let (name, text) = (rule.name.as_str(), rule.check.text());
        let line = format!(in alloc; "{name}: {text}\n")?;
        lines.push_str(line.as_str())?;
    }
    Ok(lines)
}

impl Call for Reading<'_> {
    type Operand = ();

    type Answer = Answer;

    fn operand(&self, _alloc: Global) -> Result<(), AllocError> {
        Ok(())
    }

    fn call(&self, alloc: Global, _operand: ()) -> Result<Answer, AllocError> {
        match read_checks(alloc, self.rules) {
            Ok(checks) => Ok(Answer::Text(lines_of(alloc, checks.as_slice())?)),
            Err(ReadChecksError::NoMemory) => Err(AllocError),
            Err(error) => Ok(Answer::Text(format!(in alloc; "{error}")?)),
        }
    }
}

// A name, rules, how they are told, and what reading them does with memory: a library under it may
// do without a request.
const RULES: [(&str, &[u8], &str, Memory); 6] = [
    (
        "read_checks of joins and ranges",
        b"a: /x >= 18 and not /y in [1, \"b\", null] # c\n\nb: each /l (/q == true or /r missing)",
        "a: /x >= 18 and not /y in [1, \"b\", null]\nb: each /l (/q == true or /r missing)\n",
        GoesOn,
    ),
    (
        "read_checks of xor, and an escape",
        b"a: any / (/ starts_with \"\\u0041\" xor / is_empty)\n",
        "a: any / (/ starts_with \"A\" xor / is_empty)\n",
        GoesOn,
    ),
    (
        "read_checks of a pattern",
        b"a: / matches \"T[a-z]*\"",
        "a: / matches \"T[a-z]*\"\n",
        GoesOn,
    ),
    (
        "read_checks of keys",
        b"a: keys / in [\"b\", \"a\"]",
        "a: keys / in [\"b\", \"a\"]\n",
        GoesOn,
    ),
    (
        "read_checks of a fault",
        b"a: / exists\nb: / >=",
        "line 2, column 8: expected a literal or a path, found the end of the line",
        GoesOn,
    ),
    (
        "read_checks of no pattern",
        b"a: /x matches \"[\"",
        "line 1, rule a: no regular expression: unclosed character class at character 1: [",
        GoesOn,
    ),
];

#[test]
fn rules_of_a_file(rt: HostRuntime) {
    for (name, rules, expected, memory) in RULES {
        sweep(&rt, name, &Reading { rules }, expected, memory).expect(&rt, "memory");
    }
}

// A run over records.
#[derive(Clone, Copy)]
struct Running<'a> {
    rules: &'a [u8],
    report: Report,
    id: Option<&'a str>,
    format: InputFormat,
    input: &'a [u8],
}

impl Call for Running<'_> {
    type Operand = (Vec<RuleCheck>, Settings);

    type Answer = EndedRun;

    fn operand(&self, alloc: Global) -> Result<(Vec<RuleCheck>, Settings), AllocError> {
        let Ok(checks) = read_checks(alloc, self.rules) else {
            return Err(AllocError);
        };
        let id = match self.id {
            Some(path) => Some(String::from_str(alloc, path)?),
            None => None,
        };
        let report = self.report;
        Ok((checks, Settings::new(report, id)))
    }

    fn call(
        &self,
        alloc: Global,
        operand: (Vec<RuleCheck>, Settings),
    ) -> Result<EndedRun, AllocError> {
        let (checks, settings) = operand;
        let mut reader = self.input;
        let mut streams = Streams {
            output: Vec::new(alloc),
            messages: Vec::new(alloc),
        };
        let mut job = Job::new(checks.as_slice(), &settings);
        job.format = self.format;
        let mut tally = Tally::of_rules(alloc, checks.as_slice(), Some(9))?;
        let ended = run_records(alloc, &job, &mut tally, &mut reader, &mut streams);
        let Streams {
            output: mut written,
            messages,
        } = streams;
        if ended.is_ok() {
            written.extend_from_slice(&messages)?;
        }
        EndedRun::of(ended.map(|()| tally.counts.status() == 0), written)
    }
}

const ROW: &[u8] = b"a: /x == 1 or /x == 2\nb: each /l (/ < 3)";

const RECORDS: &[u8] = b"{\"x\": 3, \"l\": [1, 4]}\n{\"x\": 1, \"l\": []}\n[1";

// A name, rules, a report on records, the path of their labels, the records, what is written with
// the messages behind it, and what the run does with memory.
const RUNS: [(&str, &[u8], Report, Option<&str>, &[u8], &str, Memory); 10] = [
    (
        "run_records: the first rule and a message",
        ROW,
        Report::First,
        None,
        RECORDS,
        "\
false
record 1: false
a = false
  rule: /x == 1 or /x == 2 = false
    part: /x == 1 = false
      - found: 3
    part: /x == 2 = false
      - found: 3
vet: record 3: not JSON: EOF while parsing at its end
",
        Taken,
    ),
    (
        "run_records: all rules under a label",
        ROW,
        Report::All,
        Some("/x"),
        b"{\"x\": 3, \"l\": [1, 4]}",
        "\
false
record 1 (3): false
a = false
  rule: /x == 1 or /x == 2 = false
    part: /x == 1 = false
      - found: 3
    part: /x == 2 = false
      - found: 3
b = false
  rule: each /l (/ < 3) = false
    item: / < 3 = false
      - found: 4
      - index: 1
",
        Taken,
    ),
    (
        "run_records: what would have to change",
        ROW,
        Report::Change,
        None,
        b"{\"x\": 3, \"l\": [4, 1, 5]}",
        "\
false
record 1: false
a = false
  rule: /x == 1 or /x == 2 = false
    part: /x == 1 = false
      - found: 3
      - index: 0
b = false
  rule: each /l (/ < 3) = false
    item: / < 3 = false
      - found: 4
      - index: 0
    item: / < 3 = false
      - found: 5
      - index: 2
",
        Taken,
    ),
    (
        "run_records: broken lines and no text",
        ROW,
        Report::Lines(false),
        None,
        b"{\"x\": 3}\n{\"x\": 1, \"l\": []}\n\xff",
        "false\n{\"x\": 3}\nvet: record 3: not UTF-8\n",
        Taken,
    ),
    (
        "run_records: kept lines",
        ROW,
        Report::Lines(true),
        None,
        b"{\"x\": 3}\n{\"x\": 1, \"l\": []}\n",
        "false\n{\"x\": 1, \"l\": []}\n",
        Taken,
    ),
    (
        "run_records: an object",
        b"a: /x == 1",
        Report::Json {
            all: false,
            failed: true,
        },
        Some("/x"),
        b"{\"x\": 3}",
        "\
false
{\"record\":3,\"holds\":false,\"case\":{\"text\":\"a\",\"result\":false,\"products\":[],\
    \"children\":[{\"name\":\"rule\",\"case\":{\"text\":\"/x == 1\",\"result\":false,\
    \"products\":[{\"name\":\"found\",\"value\":3}],\"children\":[]}}]}}
",
        Taken,
    ),
    (
        "run_records: an object of no case",
        b"a: /x == 1",
        Report::Json {
            all: true,
            failed: false,
        },
        None,
        b"{\"x\": 1}",
        "true\n{\"record\":1,\"holds\":true,\"cases\":[]}\n",
        Taken,
    ),
    (
        "run_records: lines for GitHub",
        ROW,
        Report::GitHub { all: true },
        Some("/x"),
        b"{\"x\": 3, \"l\": [1, 4]}",
        "\
false
::error title=a::record 1 (3): false%0Aa = false%0A  rule: /x == 1 or /x == 2 = false\
    %0A    part: /x == 1 = false%0A      - found: 3%0A    part: /x == 2 = false%0A      - found: 3
::error title=b::record 1 (3): false%0Ab = false%0A  rule: each /l (/ < 3) = false\
    %0A    item: / < 3 = false%0A      - found: 4%0A      - index: 1
",
        Taken,
    ),
    (
        "run_records: a pattern",
        b"a: / matches \"T[a-z]*\"",
        Report::First,
        None,
        b"\"Two\"",
        "true\n",
        GoesOn,
    ),
    (
        "run_records: nothing",
        ROW,
        Report::First,
        None,
        b"",
        "true\n",
        Perhaps,
    ),
];

#[test]
fn runs_over_records(rt: HostRuntime) {
    for (name, rules, report, id, input, expected, memory) in RUNS {
        let call = Running {
            rules,
            report,
            id,
            format: InputFormat::JsonLines,
            input,
        };
        sweep(&rt, name, &call, expected, memory).expect(&rt, "memory");
    }
}

// Records that are values of JSON, and what is written of the kept ones, with the messages behind.
const VALUES: [(&str, &[u8], &str); 2] = [
    (
        "run_records: members of an array",
        b"[{\"x\": 3}, {\"x\":\n1}, 7]",
        "false\n{\"x\":\n1}\n",
    ),
    (
        "run_records: an array that is not closed",
        b"{\"x\": 2} [{\"x\": 1},",
        "\
false
{\"x\": 2}
{\"x\": 1}
vet: record 3: not JSON: EOF while parsing at its end
",
    ),
];

#[test]
fn runs_over_values(rt: HostRuntime) {
    for (name, input, expected) in VALUES {
        let call = Running {
            rules: b"a: /x == 1 or /x == 2",
            report: Report::Lines(true),
            id: None,
            format: InputFormat::Json,
            input,
        };
        sweep(&rt, name, &call, expected, Taken).expect(&rt, "memory");
    }
}
