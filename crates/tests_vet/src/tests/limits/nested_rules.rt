//! Rules that nest deep. Were a part of one asked twice at each level, the innermost would be asked
//! 2^60 times, and no run would end.
use super::nested;
use super::rules::checks_of;
use std::alloc::Global;
use std::process::Abort;
use vet_run::settings::{Report, Settings};
use vet_run::{Counts, Job, Streams, Tally, run_records};

// What opens and what closes a level of a rule, innermost of which `/ == 1` stands, and how often.
const OF_NUMBERS: [(&str, &str, usize); 9] = [
    ("/ == 1 xor (", ")", 60),
    ("/ == 1 and (", ")", 60),
    ("/ == 3 or (", ")", 60),
    ("(", " xor / == 3)", 60),
    ("(/ == 1 and (", " xor / == 3))", 30),
    ("(/ == 3 xor (", " or / == 3))", 30),
    ("at least 2 of (/ == 1, ", ")", 60),
    ("if / exists then ", "", 60),
    ("not ", "", 60),
];

const OF_LISTS: [(&str, &str, usize); 3] = [
    ("each / (", ")", 60),
    ("any / (", ")", 60),
    ("at least 1 / (", ")", 60),
];

const REPORTS: [Report; 6] = [
    Report::First,
    Report::All,
    Report::Change,
    Report::Json {
        all: true,
        failed: false,
    },
    Report::GitHub { all: true },
    Report::JUnit,
];

// Of two records the second breaks the rule.
const COUNTS: Counts = Counts {
    records: 2,
    failed: 1,
    unreadable: 0,
};

// Whether a run over the records counts so.
fn is_counted(rt: &impl Abort, alloc: Global, rule: &str, records: &str, report: Report) -> bool {
    let rules = checks_of(rt, alloc, rule.as_bytes());
    let settings = Settings::new(report, None);
    let job = Job::new(&rules, &settings);
    let mut tally = Tally::with_blocks(alloc, &rules, None).expect(rt, "memory");
    let mut input = records.as_bytes();
    let mut streams = Streams {
        output: Vec::new(alloc),
        messages: Vec::new(alloc),
    };
    run_records(alloc, &job, &mut tally, &mut input, &mut streams).expect(rt, "memory");
    tally.counts == COUNTS
}

// The record of 1 and that of 2, in so many arrays.
fn records_in(rt: &impl Abort, alloc: Global, levels: usize) -> String {
    let one = nested(rt, alloc, ("[", levels), "1", ("]", levels));
    let two = nested(rt, alloc, ("[", levels), "2", ("]", levels));
    format!(in alloc; "{one}\n{two}\n").expect(rt, "memory")
}

// Whether runs by the rule that nests so end, and count so, of records in so many arrays.
fn ends(rt: &impl Abort, alloc: Global, row: (&str, &str, usize), arrays: usize) -> bool {
    let (opening, closing, levels) = row;
    let expression = nested(rt, alloc, (opening, levels), "/ == 1", (closing, levels));
    let rule = format!(in alloc; "a: {expression}").expect(rt, "memory");
    let records = records_in(rt, alloc, arrays);
    for report in REPORTS {
        if !is_counted(rt, alloc, &rule, &records, report) {
            return false;
        }
    }
    true
}

#[test]
fn runs_by_nested_rules_end(rt: HostRuntime) {
    for row in OF_NUMBERS {
        assert!(rt; ends(&rt, rt.alloc(), row, 0), "{row:?}");
    }
    for row in OF_LISTS {
        assert!(rt; ends(&rt, rt.alloc(), row, row.2), "{row:?}");
    }
}
