//! How many records break each rule, as lines and as JSON.
use std::alloc::{AllocError, Global};
use tests_sweep::Memory::Taken;
use tests_sweep::{Answer, Call, sweep};
use vet_checks::RuleCheck;
use vet_run::{ReadSummaryError, Summary, Tally, read_checks};

// The lines for two rules, of which none is broken, or the second by three records.
#[derive(Clone, Copy)]
struct Summing<'a> {
    broken: &'a [u64],
}

impl Call for Summing<'_> {
    type Operand = Vec<RuleCheck>;

    type Answer = Answer;

    fn operand(&self, alloc: Global) -> Result<Vec<RuleCheck>, AllocError> {
        match read_checks(alloc, b"a: / exists\nb: / missing") {
            Ok(rules) => Ok(rules),
            Err(_) => Err(AllocError),
        }
    }

    fn call(&self, alloc: Global, rules: Vec<RuleCheck>) -> Result<Answer, AllocError> {
        let mut tally = Tally::new(alloc, None);
        tally.broken.extend_from_slice(self.broken)?;
        let summary = Summary::of(alloc, &rules, &tally)?;
        Ok(Answer::Text(summary.lines(alloc)?))
    }
}

#[test]
fn summaries(rt: HostRuntime) {
    let broken = [0, 3].as_slice();
    sweep(
        &rt,
        "summary",
        &Summing { broken },
        "3  ###  b\n0       a\n",
        Taken,
    )
    .expect(&rt, "memory");
    let broken = [].as_slice();
    sweep(
        &rt,
        "summary of no record",
        &Summing { broken },
        "0    a\n0    b\n",
        Taken,
    )
    .expect(&rt, "memory")
}

const OBJECT: &str = "{\"records\":4,\"failed\":1,\"unreadable\":0,\
    \"rules\":[{\"rule\":\"a\\\"\",\"broken\":1},{\"rule\":\"b\",\"broken\":0}]}";

// The object of what is read of an object.
#[derive(Clone, Copy)]
struct Rewriting;

impl Call for Rewriting {
    type Operand = ();

    type Answer = Answer;

    fn operand(&self, _alloc: Global) -> Result<(), AllocError> {
        Ok(())
    }

    fn call(&self, alloc: Global, _operand: ()) -> Result<Answer, AllocError> {
        match Summary::read(alloc, OBJECT.as_bytes()) {
            Ok(summary) => Ok(Answer::Text(summary.to_json(alloc)?)),
            Err(ReadSummaryError::NoMemory) => Err(AllocError),
            Err(_) => Ok(Answer::Text(String::new(alloc))),
        }
    }
}

#[test]
fn objects_of_summaries(rt: HostRuntime) {
    sweep(&rt, "summary as JSON", &Rewriting, OBJECT, Taken).expect(&rt, "memory")
}
