//! Requirements.
use predicates::boolean::PredicateBooleanExt;
use predicates::check::{Expectation, Unmet, expect, require, require_all, require_as};
use predicates::ord::{OrdPredicate, ge, le};
use std::alloc::{AllocError, Global};
use tests_sweep::Memory::{Never, Taken};
use tests_sweep::{Answer, Call, sweep};

// A requirement, with a label or without, that the number is between 5 and 10.
#[derive(Drop)]
struct Requiring {
    label: Option<&'static str>,
    number: i64,
}

impl Call for Requiring {
    type Operand = ();

    type Answer = Answer;

    fn operand(&self, _alloc: Global) -> Result<(), AllocError> {
        Ok(())
    }

    fn call(&self, alloc: Global, _operand: ()) -> Result<Answer, AllocError> {
        let between = ge(5i64).and(le(10));
        let ended = match self.label {
            Some(label) => require_as(alloc, label, &between, &self.number),
            None => require(alloc, &between, &self.number),
        };
        answer_of(ended)
    }
}

// How a requirement ended.
fn answer_of(ended: Result<(), Unmet>) -> Result<Answer, AllocError> {
    match ended {
        Ok(()) => Ok(Answer::Verdict(true)),
        Err(Unmet::Fails(lines)) => Ok(Answer::Text(lines)),
        Err(Unmet::NoMemory) => Err(AllocError),
    }
}

const ELEVEN: &str = "(var >= 5 && var <= 10) = false\n  right: var <= 10 = false\n    - var: 11\n";

#[test]
fn requirements(rt: HostRuntime) {
    let (label, number) = (None, 7);
    sweep(
        &rt,
        "require on 7",
        &Requiring { label, number },
        "true",
        Never,
    )
    .expect(&rt, "memory");
    let number = 11;
    sweep(
        &rt,
        "require on 11",
        &Requiring { label, number },
        ELEVEN,
        Taken,
    )
    .expect(&rt, "memory");
    let label = Some("eleven");
    let expected = format!(in rt.alloc(); "eleven: {ELEVEN}").expect(&rt, "memory");
    let call = Requiring { label, number };
    sweep(&rt, "require_as on 11", &call, expected.as_str(), Taken).expect(&rt, "memory")
}

// A requirement that each of three numbers is so great.
#[derive(Drop)]
struct RequiringAll {
    least: i64,
}

impl Call for RequiringAll {
    type Operand = Vec<Expectation<i64, OrdPredicate<i64>>>;

    type Answer = Answer;

    fn operand(&self, alloc: Global) -> Result<Self::Operand, AllocError> {
        let mut expected = Vec::new(alloc);
        for (label, number) in [("a", 10i64), ("b", 20), ("c", 7)] {
            expected.push(expect(alloc, label, number, ge(self.least))?)?;
        }
        Ok(expected)
    }

    fn call(&self, alloc: Global, expected: Self::Operand) -> Result<Answer, AllocError> {
        answer_of(require_all(alloc, expected.as_slice()))
    }
}

#[test]
fn requirements_of_all(rt: HostRuntime) {
    let least = 5;
    sweep(
        &rt,
        "require_all from 5",
        &RequiringAll { least },
        "true",
        Never,
    )
    .expect(&rt, "memory");
    let least = 20;
    sweep(
        &rt,
        "require_all from 20",
        &RequiringAll { least },
        "a: var >= 20 = false\n  - var: 10\nc: var >= 20 = false\n  - var: 7\n",
        Taken,
    )
    .expect(&rt, "memory")
}
