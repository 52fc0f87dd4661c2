//! Runs over lines of an input.
use super::ended_run::EndedRun;
use super::words::check_of;
use explain_run::{TextCheck, run_between, run_text};
use std::alloc::{AllocError, Global};
use tests_sweep::Memory::{self, GoesOn, Never, Perhaps, Taken};
use tests_sweep::{Call, sweep};

/// What is written for 7, 11 and 4 between 5 and 10.
pub const NUMBERS: &str = "\
7: true
(var >= 5 && var <= 10) = true
  left: var >= 5 = true
    - var: 7
  right: var <= 10 = true
    - var: 7
11: false
(var >= 5 && var <= 10) = false
  right: var <= 10 = false
    - var: 11
4: false
(var >= 5 && var <= 10) = false
  left: var >= 5 = false
    - var: 4
";

/// What is written for 7 alone.
pub const SEVEN: &str = "\
7: true
(var >= 5 && var <= 10) = true
  left: var >= 5 = true
    - var: 7
  right: var <= 10 = true
    - var: 7
";

// A run over numbers between 5 and 10, or over texts by the check.
#[derive(Drop)]
struct Run<'a> {
    check: Option<&'a TextCheck>,
    input: &'a [u8],
}

impl Call for Run<'_> {
    type Operand = ();

    type Answer = EndedRun;

    fn operand(&self, _alloc: Global) -> Result<(), AllocError> {
        Ok(())
    }

    fn call(&self, alloc: Global, _operand: ()) -> Result<EndedRun, AllocError> {
        let mut reader = self.input;
        let mut written = Vec::new(alloc);
        let ended = match self.check {
            Some(check) => run_text(alloc, check, &mut reader, &mut written),
            None => run_between(alloc, 5, 10, &mut reader, &mut written),
        };
        EndedRun::of(ended, written)
    }
}

#[test]
fn runs_over_numbers(rt: HostRuntime) {
    let (check, input) = (None, b"7\n11\n4\n".as_slice());
    let expected = format!(in rt.alloc(); "true\n{NUMBERS}").expect(&rt, "memory");
    sweep(
        &rt,
        "run_between",
        &Run { check, input },
        expected.as_str(),
        Taken,
    )
    .expect(&rt, "memory");
    let (expected, input) = ("false\nline 1: not a number\n", b"x\n".as_slice());
    sweep(
        &rt,
        "run_between over no number",
        &Run { check, input },
        expected,
        Taken,
    )
    .expect(&rt, "memory");
    let input = b"".as_slice();
    sweep(
        &rt,
        "run_between over nothing",
        &Run { check, input },
        "true\n",
        Perhaps,
    )
    .expect(&rt, "memory")
}

// The words of a check, the input, and what is answered and written.
const TEXTS: [(&[&str], &[u8], &str, Memory); 4] = [
    (
        &["empty", "trim", "contains=a", "or"],
        b"  \n",
        "\
true
line 1: true
(var.is_empty() || var.contains(a)) = true
  left: var.is_empty() = true
    - var: \n",
        Taken,
    ),
    (
        &["match=T[a-z]*"],
        b"Two",
        "true\nline 1: true\nvar.is_match(T[a-z]*) = true\n  - var: Two\n",
        GoesOn,
    ),
    (&["empty"], b"\xff", "false\nline 1: not UTF-8\n", Taken),
    (&["empty"], b"", "true\n", Never),
];

#[test]
fn runs_over_texts(rt: HostRuntime) {
    for (words, input, expected, memory) in TEXTS {
        let check = check_of(&rt, rt.alloc(), words);
        let check = Some(&check);
        let name = format!(in rt.alloc(); "run_text of {words:?}").expect(&rt, "memory");
        sweep(&rt, name.as_str(), &Run { check, input }, expected, memory).expect(&rt, "memory");
    }
}
