//! How often the leaves of a check of words, and the rules of a run, are asked, which no contract
//! says. Neither has a leaf that could count; so each is asked about what takes one request for
//! memory a time: a copy without white space of a text, a list of the items of an array.
use explain_run::TextCheck;
use std::alloc::{AllocError, Global};
use std::process::Abort;
use tests_sweep::{Answer, Call, count_asked, count_asked_calls};
use vet_checks::RuleCheck;
use vet_run::settings::{Report, Settings};
use vet_run::{Job, RunFault, Streams, Tally, read_checks, run_records};

// Checks over leaves that hold of `a`, `yes`, or do not, `no`, and how often they are asked: by
// `eval`; by `find_case` of true, of false; by `explain` and by `find_change` of either, of true, of
// false.
const WORDS: [(&str, [u16; 9]); 12] = [
    ("yes", [1, 1, 1, 1, 1, 1, 1, 1, 1]),
    ("no", [1, 1, 1, 1, 1, 1, 1, 1, 1]),
    ("yes not", [1, 1, 2, 1, 1, 1, 1, 1, 1]),
    ("yes normalize", [1, 1, 1, 1, 1, 1, 1, 1, 1]),
    ("yes no and", [2, 2, 4, 2, 2, 2, 2, 2, 2]),
    ("no yes and", [1, 1, 2, 1, 1, 1, 2, 2, 2]),
    ("yes no or", [1, 2, 1, 1, 1, 1, 2, 2, 2]),
    ("no yes or", [2, 4, 2, 2, 2, 2, 2, 2, 2]),
    ("yes no xor", [2, 4, 2, 2, 2, 2, 2, 2, 2]),
    ("yes yes xor no xor", [3, 3, 6, 3, 3, 3, 3, 3, 3]),
    (
        "yes no and yes or no xor yes and",
        [5, 10, 5, 5, 5, 5, 5, 5, 5],
    ),
    (
        "yes no yes no yes and or xor and",
        [3, 6, 3, 3, 3, 3, 3, 3, 3],
    ),
];

fn text(rt: &impl Abort, alloc: Global, words: &str) -> String {
    String::from_str(alloc, words).expect(rt, "memory")
}

// The check of the words, each leaf below `trim`.
fn check_of(rt: &impl Abort, alloc: Global, words: &str) -> TextCheck {
    let mut texts = Vec::new(alloc);
    for word in words.split(' ') {
        let leaf = match word {
            "yes" => Some("contains=a"),
            "no" => Some("contains=b"),
            _ => None,
        };
        if let Some(leaf) = leaf {
            texts.push(text(rt, alloc, leaf)).expect(rt, "memory");
        }
        let word = if leaf.is_some() { "trim" } else { word };
        texts.push(text(rt, alloc, word)).expect(rt, "memory");
    }
    TextCheck::from_words(alloc, texts.as_slice()).expect(rt, "memory")
}

#[test]
fn leaves_of_words(rt: HostRuntime) {
    let alloc = rt.alloc();
    let (spaced, bare) = (text(&rt, alloc, " a"), text(&rt, alloc, "a"));
    for (words, times) in WORDS {
        let check = check_of(&rt, alloc, words);
        count_asked_calls(&rt, words, &check, [&spaced, &bare], times).expect(&rt, "memory");
    }
}

// What a tally keeps of each rule.
#[derive(Clone, Copy, Debug)]
enum Kept {
    Nothing,
    Counts,
    Blocks,
}

// A run of the rules over a record that keeps the first of three and breaks the others.
#[derive(Clone, Copy)]
struct Running<'a> {
    rules: &'a [RuleCheck],
    settings: &'a Settings,
    kept: Kept,
    most: Option<u64>,
}

const RECORD: &[u8] = b"{\"x\": 1, \"y\": 2, \"m\": [5], \"n\": []}\n";

impl Call for Running<'_> {
    type Operand = Tally;

    type Answer = Answer;

    fn operand(&self, alloc: Global) -> Result<Tally, AllocError> {
        match self.kept {
            Kept::Nothing => Ok(Tally::new(alloc, self.most)),
            Kept::Counts => Tally::of_rules(alloc, self.rules, self.most),
            Kept::Blocks => Tally::with_blocks(alloc, self.rules, self.most),
        }
    }

    fn call(&self, alloc: Global, mut tally: Tally) -> Result<Answer, AllocError> {
        let mut streams = Streams {
            output: Vec::new(alloc),
            messages: Vec::new(alloc),
        };
        let job = Job::new(self.rules, self.settings);
        match run_records(alloc, &job, &mut tally, &mut &RECORD[..], &mut streams) {
            Ok(()) => Ok(Answer::Verdict(tally.counts.failed == 0)),
            Err(RunFault::NoMemory) => Err(AllocError),
            Err(_) => Ok(Answer::OtherFault),
        }
    }
}

// Three rules of a list and a number. They ask a list without items, which takes no request, but for
// the rule at this place.
fn rules_of(rt: &impl Abort, alloc: Global, counted: Option<usize>) -> Vec<RuleCheck> {
    let mut rules = String::new(alloc);
    for (place, number) in ["x", "y", "y"].into_iter().enumerate() {
        let list = if counted == Some(place) { "m" } else { "n" };
        writeln!(rules, "r{place}: each /{list} (/ == 5) and /{number} == 1").expect(rt, "memory");
    }
    read_checks(alloc, rules.as_bytes())
        .ok()
        .expect(rt, "rules")
}

const FIRST_OBJECT: Report = Report::Json {
    all: false,
    failed: false,
};

const ALL_OBJECTS: Report = Report::Json {
    all: true,
    failed: true,
};

const FIRST_ERROR: Report = Report::GitHub { all: false };

const ALL_ERRORS: Report = Report::GitHub { all: true };

// A report, what is kept of each rule, how much may be written, and how often each rule is asked:
// at most once for its verdict, and once more where its case or its change is shown.
const RUNS: [(Report, Kept, Option<u64>, [u16; 3]); 13] = [
    (Report::First, Kept::Nothing, None, [1, 2, 0]),
    (Report::First, Kept::Nothing, Some(0), [1, 1, 0]),
    (Report::First, Kept::Counts, None, [1, 2, 1]),
    (Report::All, Kept::Nothing, None, [1, 2, 2]),
    (Report::All, Kept::Counts, None, [1, 2, 2]),
    (Report::Change, Kept::Nothing, None, [1, 2, 2]),
    (FIRST_OBJECT, Kept::Nothing, None, [1, 2, 0]),
    (ALL_OBJECTS, Kept::Nothing, None, [1, 2, 2]),
    (FIRST_ERROR, Kept::Nothing, None, [1, 2, 0]),
    (ALL_ERRORS, Kept::Nothing, None, [1, 2, 2]),
    (Report::Lines(true), Kept::Nothing, None, [1, 1, 0]),
    (Report::Lines(false), Kept::Nothing, None, [1, 1, 0]),
    (Report::JUnit, Kept::Blocks, None, [1, 2, 2]),
];

// A run asks each rule so often.
fn count_rules<R: Abort + AllocGlobal + Print>(
    rt: &R,
    report: Report,
    kept: Kept,
    most: Option<u64>,
    times: [u16; 3],
) {
    let alloc = rt.alloc();
    let settings = Settings::new(report, None);
    let plain = rules_of(rt, alloc, None);
    for (place, times) in times.into_iter().enumerate() {
        let counted = rules_of(rt, alloc, Some(place));
        let name = format!(in alloc; "{report:?}, {kept:?}, rule {place}").expect(rt, "memory");
        let (rules, settings) = (counted.as_slice(), &settings);
        let run = Running {
            rules,
            settings,
            kept,
            most,
        };
        let rules = plain.as_slice();
        count_asked(rt, name.as_str(), &run, &Running { rules, ..run }, times).expect(rt, "memory");
    }
}

#[test]
fn rules_of_runs(rt: HostRuntime) {
    for (report, kept, most, times) in RUNS {
        count_rules(&rt, report, kept, most, times);
    }
}
