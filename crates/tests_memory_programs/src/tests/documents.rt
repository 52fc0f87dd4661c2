//! The document that readers of JUnit's reports take.
use super::ended_run::EndedRun;
use std::alloc::{AllocError, Global};
use streams::RunFault;
use tests_sweep::Memory::Taken;
use tests_sweep::{Call, refusing, sweep};
use vet_checks::RuleCheck;
use vet_run::settings::{Report, Settings};
use vet_run::{Job, Streams, Tally, junit, read_checks, run_records};

fn settings() -> Settings {
    Settings::new(Report::JUnit, None)
}

// The document of a run over records.
#[derive(Clone, Copy)]
struct Documenting<'a> {
    input: &'a [u8],
    all_read: bool,
}

fn rules_of(alloc: Global) -> Result<Vec<RuleCheck>, AllocError> {
    read_checks(alloc, b"a: / < 2\n\"b&\": / exists").map_err(|_error| AllocError)
}

impl Documenting<'_> {
    // Runs over the records, and says whether each keeps the rules.
    fn run(&self, alloc: Global, rules: &[RuleCheck], tally: &mut Tally) -> Result<bool, RunFault> {
        let mut input = self.input;
        let mut streams = Streams {
            output: Vec::new(alloc),
            messages: Vec::new(alloc),
        };
        let settings = settings();
        let job = Job::new(rules, &settings);
        run_records(alloc, &job, tally, &mut input, &mut streams)?;
        Ok(tally.counts.status() == 0)
    }
}

impl Call for Documenting<'_> {
    type Operand = Vec<RuleCheck>;

    type Answer = EndedRun;

    fn operand(&self, alloc: Global) -> Result<Vec<RuleCheck>, AllocError> {
        rules_of(alloc)
    }

    fn call(&self, alloc: Global, rules: Vec<RuleCheck>) -> Result<EndedRun, AllocError> {
        let mut tally = Tally::with_blocks(alloc, &rules, None)?;
        let ended = self.run(alloc, &rules, &mut tally);
        let document = match ended {
            Ok(_) => junit(alloc, "rules", &rules, &tally, self.all_read)?,
            Err(_) => Vec::new(alloc),
        };
        EndedRun::of(ended, document)
    }
}

const BROKEN: &str = "\
false
<?xml version=\"1.0\" encoding=\"UTF-8\"?>
<testsuites>
<testsuite name=\"rules\" tests=\"4\" failures=\"1\" errors=\"2\">
<testcase name=\"a\" classname=\"vet\"><failure message=\"2 records break it\">record 1: false
a = false
  rule: / &lt; 2 = false
    - found: 3
</failure></testcase>
<testcase name=\"b&amp;\" classname=\"vet\"/>
<testcase name=\"lines\" classname=\"input\"><error message=\"1 unreadable\"/></testcase>
<testcase name=\"files\" classname=\"input\"><error message=\"not all could be read\"/></testcase>
</testsuite>
</testsuites>
";

const KEPT: &str = "\
true
<?xml version=\"1.0\" encoding=\"UTF-8\"?>
<testsuites>
<testsuite name=\"rules\" tests=\"2\" failures=\"0\" errors=\"0\">
<testcase name=\"a\" classname=\"vet\"/>
<testcase name=\"b&amp;\" classname=\"vet\"/>
</testsuite>
</testsuites>
";

#[test]
fn documents(rt: HostRuntime) {
    let (input, all_read) = (b"3\n[\n4\n".as_slice(), false);
    let call = Documenting { input, all_read };
    sweep(&rt, "junit", &call, BROKEN, Taken).expect(&rt, "memory");
    let (input, all_read) = (b"1\n".as_slice(), true);
    let call = Documenting { input, all_read };
    sweep(&rt, "junit of kept rules", &call, KEPT, Taken).expect(&rt, "memory")
}

#[test]
fn jobs_and_tallies(rt: HostRuntime) {
    let rules = rules_of(rt.alloc()).expect(&rt, "memory");
    let begun = refusing(rt.alloc(), "Job::new and Tally::new");
    let settings = settings();
    let job = Job::new(&rules, &settings);
    let tally = Tally::new(rt.alloc(), Some(9));
    let right = job.rules.len() == 2 && tally.left == Some(9);
    begun.end(&rt, right).expect(&rt, "memory")
}
