//! The program, where it writes what another program reads.
use std::alloc::Global;
use std::process::Abort;
use tests_support::Process;
use vet_program::{Terminals, run_program};

// Words, and the status, standard output and standard error.
type Row = (&'static [&'static [u8]], u8, &'static str, &'static str);

const FILES: [(&str, &[u8]); 4] = [
    ("rules", b"\"a, b: 5%\": / == 1\nc: / < 3"),
    ("one", b"1\n4\n"),
    ("d,e:f%", b"[\n2"),
    ("x<y", b"\"<&\\\">\": / == \"\xef\xbf\xbe\""),
];

const INPUT: &[u8] = b"2\n1\n5\n";

const ANNOTATIONS: [Row; 5] = [
    // A file, which has its name though it is the only one.
    (
        &[b"vet", b"--format", b"github", b"rules", b"one"],
        1,
        "::error file=one,line=2,title=a%2C b%3A 5%25::a, b: 5%25 = false%0A  rule: / == 1 = false\
         %0A    - found: 4\n",
        "2 records, 1 failed\n",
    ),
    // Standard input has none.
    (
        &[
            b"vet",
            b"--format=github",
            b"--all",
            b"--max",
            b"2",
            b"rules",
        ],
        1,
        "\
::error title=a%2C b%3A 5%25::record 1: false%0Aa, b: 5%25 = false%0A  rule: / == 1 = false\
    %0A    - found: 2
::error title=a%2C b%3A 5%25::record 3: false%0Aa, b: 5%25 = false%0A  rule: / == 1 = false\
    %0A    - found: 5
::error title=c::record 3: false%0Ac = false%0A  rule: / < 3 = false%0A    - found: 5
",
        "3 records, 2 failed\n",
    ),
    // Of a value in a file no line is known.
    (
        &[
            b"vet",
            b"--format",
            b"github",
            b"--input-format",
            b"json",
            b"rules",
            b"one",
        ],
        1,
        "::error file=one,title=a%2C b%3A 5%25::one:2: false%0Aa, b: 5%25 = false\
         %0A  rule: / == 1 = false%0A    - found: 4\n",
        "2 records, 1 failed\n",
    ),
    // A label, a name with signs that have a meaning, and standard input among files.
    (
        &[
            b"vet",
            b"--format",
            b"github",
            b"--id",
            b"/",
            b"rules",
            b"d,e:f%",
            b"-",
        ],
        2,
        "\
::error file=d%2Ce%3Af%25,line=2,title=a%2C b%3A 5%25::d,e:f%25:2 (2): false%0Aa, b: 5%25 = false\
    %0A  rule: / == 1 = false%0A    - found: 2
::error title=a%2C b%3A 5%25::-:1 (2): false%0Aa, b: 5%25 = false%0A  rule: / == 1 = false\
    %0A    - found: 2
::error title=a%2C b%3A 5%25::-:3 (5): false%0Aa, b: 5%25 = false%0A  rule: / == 1 = false\
    %0A    - found: 5
",
        "\
vet: d,e:f%:1: not JSON: EOF while parsing at its end
4 records, 3 failed, 1 line unreadable
",
    ),
    // Of a record that keeps every rule, nothing.
    (
        &[
            b"vet",
            b"--format",
            b"github",
            b"--summary",
            b"--flush",
            b"rules",
            b"-",
        ],
        1,
        "\
::error title=a%2C b%3A 5%25::record 1: false%0Aa, b: 5%25 = false%0A  rule: / == 1 = false\
    %0A    - found: 2
::error title=a%2C b%3A 5%25::record 3: false%0Aa, b: 5%25 = false%0A  rule: / == 1 = false\
    %0A    - found: 5
",
        "2  ##  a, b: 5%\n1  #   c\n3 records, 2 failed\n",
    ),
];

const DOCUMENTS: [Row; 5] = [
    // A document of one file, at whose name the records stand.
    (
        &[b"vet", b"--format", b"junit", b"rules", b"one"],
        1,
        "\
<?xml version=\"1.0\" encoding=\"UTF-8\"?>
<testsuites>
<testsuite name=\"rules\" tests=\"2\" failures=\"2\" errors=\"0\">
<testcase name=\"a, b: 5%\" classname=\"vet\">\
    <failure message=\"1 record breaks it\">one:2: false
a, b: 5% = false
  rule: / == 1 = false
    - found: 4
</failure></testcase>
<testcase name=\"c\" classname=\"vet\"><failure message=\"1 record breaks it\">one:2: false
c = false
  rule: / &lt; 3 = false
    - found: 4
</failure></testcase>
</testsuite>
</testsuites>
",
        "2 records, 1 failed\n",
    ),
    // The first record of each rule, though nothing else is written, under its label.
    (
        &[
            b"vet",
            b"--format=junit",
            b"--all",
            b"--max",
            b"0",
            b"--id",
            b"/",
            b"--summary",
            b"rules",
        ],
        1,
        "\
<?xml version=\"1.0\" encoding=\"UTF-8\"?>
<testsuites>
<testsuite name=\"rules\" tests=\"2\" failures=\"2\" errors=\"0\">
<testcase name=\"a, b: 5%\" classname=\"vet\">\
    <failure message=\"2 records break it\">record 1 (2): false
a, b: 5% = false
  rule: / == 1 = false
    - found: 2
</failure></testcase>
<testcase name=\"c\" classname=\"vet\"><failure message=\"1 record breaks it\">record 3 (5): false
c = false
  rule: / &lt; 3 = false
    - found: 5
</failure></testcase>
</testsuite>
</testsuites>
",
        "2  ##  a, b: 5%\n1  #   c\n3 records, 2 failed\n",
    ),
    // Lines and a file that can't be read, and a rule that no record breaks.
    (
        &[b"vet", b"--format", b"junit", b"rules", b"d,e:f%", b"none"],
        2,
        "\
<?xml version=\"1.0\" encoding=\"UTF-8\"?>
<testsuites>
<testsuite name=\"rules\" tests=\"4\" failures=\"1\" errors=\"2\">
<testcase name=\"a, b: 5%\" classname=\"vet\">\
    <failure message=\"1 record breaks it\">d,e:f%:2: false
a, b: 5% = false
  rule: / == 1 = false
    - found: 2
</failure></testcase>
<testcase name=\"c\" classname=\"vet\"/>
<testcase name=\"lines\" classname=\"input\"><error message=\"1 unreadable\"/></testcase>
<testcase name=\"files\" classname=\"input\"><error message=\"not all could be read\"/></testcase>
</testsuite>
</testsuites>
",
        "\
vet: d,e:f%:1: not JSON: EOF while parsing at its end
vet: none: entity not found
1 record, 1 failed, 1 line unreadable
",
    ),
    // What has a meaning of its own in XML, and what it forbids.
    (
        &[b"vet", b"--format", b"junit", b"x<y"],
        1,
        "\
<?xml version=\"1.0\" encoding=\"UTF-8\"?>
<testsuites>
<testsuite name=\"x&lt;y\" tests=\"1\" failures=\"1\" errors=\"0\">
<testcase name=\"&lt;&amp;&quot;&gt;\" classname=\"vet\">\
    <failure message=\"3 records break it\">record 1: false
&lt;&amp;&quot;&gt; = false
  rule: / == &quot;\u{fffd}&quot; = false
    - found: 2
    - error: not a string
</failure></testcase>
</testsuite>
</testsuites>
",
        "3 records, 3 failed\n",
    ),
    // It goes with no other report either.
    (
        &[b"vet", b"--format", b"junit", b"--json", b"rules"],
        2,
        "",
        "vet: the argument '--format <FORMAT>' cannot be used with '--json'; try --help\n",
    ),
];

const WRONG_WORDS: [Row; 8] = [
    // What it can't stand with.
    (
        &[b"vet", b"--format", b"github", b"--json", b"rules"],
        2,
        "",
        "vet: the argument '--format <FORMAT>' cannot be used with '--json'; try --help\n",
    ),
    (
        &[b"vet", b"--json", b"--format", b"github", b"rules"],
        2,
        "",
        "vet: the argument '--json' cannot be used with '--format <FORMAT>'; try --help\n",
    ),
    (
        &[b"vet", b"--format", b"github", b"--failed", b"rules"],
        2,
        "",
        "vet: the argument '--format <FORMAT>' cannot be used with '--failed'; try --help\n",
    ),
    (
        &[b"vet", b"--failed", b"--format", b"github", b"rules"],
        2,
        "",
        "vet: the argument '--failed' cannot be used with '--format <FORMAT>'; try --help\n",
    ),
    (
        &[b"vet", b"--format", b"github", b"--passed", b"rules"],
        2,
        "",
        "vet: the argument '--format <FORMAT>' cannot be used with '--passed'; try --help\n",
    ),
    (
        &[b"vet", b"--passed", b"--format", b"github", b"rules"],
        2,
        "",
        "vet: the argument '--passed' cannot be used with '--format <FORMAT>'; try --help\n",
    ),
    (
        &[b"vet", b"--format", b"github", b"--change", b"rules"],
        2,
        "",
        "vet: the argument '--format <FORMAT>' cannot be used with '--change'; try --help\n",
    ),
    (
        &[b"vet", b"--change", b"--format", b"github", b"rules"],
        2,
        "",
        "vet: the argument '--change' cannot be used with '--format <FORMAT>'; try --help\n",
    ),
];

const WRONG_NAMES: [Row; 2] = [
    // Other names.
    (
        &[b"vet", b"--format", b"xml", b"rules"],
        2,
        "",
        "vet: invalid value 'xml' for '--format <FORMAT>' [possible values: github, junit]; \
         try --help\n",
    ),
    (
        &[b"vet", b"--format", b"GitHub", b"rules"],
        2,
        "",
        "vet: invalid value 'GitHub' for '--format <FORMAT>' [possible values: github, junit]; \
         try --help\n",
    ),
];

// Whether the program ends so.
fn ends(alloc: Global, row: Row) -> bool {
    let (words, status, output, messages) = row;
    let process = Process::new(alloc, words, &FILES, INPUT);
    let found = run_program(
        &process,
        Terminals {
            output: false,
            error: true,
        },
    );
    let (written, told) = process.into_written();
    found == status
        && written.as_slice() == output.as_bytes()
        && told.as_slice() == messages.as_bytes()
}

fn all_end(rt: &impl Abort, alloc: Global, rows: &[Row]) {
    for row in rows {
        assert!(rt; ends(alloc, *row), "{:?}", row.0);
    }
}

#[test]
fn formats(rt: HostRuntime) {
    let alloc = rt.alloc();
    all_end(&rt, alloc, &ANNOTATIONS);
    all_end(&rt, alloc, &DOCUMENTS);
    all_end(&rt, alloc, &WRONG_WORDS);
    all_end(&rt, alloc, &WRONG_NAMES);
}
