//! Filters over lines.
use super::words::check_of;
use explain_run::{RunFault, TextCheck, filter_lines, filter_with_reasons};
use std::alloc::{AllocError, Global};
use std::str;
use tests_sweep::Memory::Taken;
use tests_sweep::{Answer, Call, sweep};

// A filter by a check of texts, its counts, and what it tells.
#[derive(Drop)]
struct Filtering<'a> {
    check: &'a TextCheck,
    tells: bool,
}

impl Call for Filtering<'_> {
    type Operand = ();

    type Answer = Answer;

    fn operand(&self, _alloc: Global) -> Result<(), AllocError> {
        Ok(())
    }

    fn call(&self, alloc: Global, _operand: ()) -> Result<Answer, AllocError> {
        let mut input = b"a\nb\n\xff\n a".as_slice();
        let (mut written, mut told) = (Vec::new(alloc), Vec::new(alloc));
        let ended = if self.tells {
            filter_with_reasons(alloc, self.check, true, &mut input, &mut written, &mut told)
        } else {
            filter_lines(alloc, self.check, true, &mut input, &mut written)
        };
        match ended {
            Ok(counts) => {
                let (lines, bad) = (counts.written, counts.not_utf8);
                let text = str::from_utf8(written.as_slice()).unwrap_or("no text");
                let told = str::from_utf8(told.as_slice()).unwrap_or("no text");
                Ok(Answer::Text(format!(in alloc; "{lines} {bad}\n{text}{told}")?))
            }
            Err(RunFault::NoMemory) => Err(AllocError),
            Err(_) => Ok(Answer::OtherFault),
        }
    }
}

#[test]
fn filters(rt: HostRuntime) {
    let check = check_of(&rt, rt.alloc(), &["starts=a", "trim"]);
    let check = &check;
    sweep(
        &rt,
        "filter_lines",
        &Filtering {
            check,
            tells: false,
        },
        "2 1\na\n a",
        Taken,
    )
    .expect(&rt, "memory");
    sweep(
        &rt,
        "filter_with_reasons",
        &Filtering { check, tells: true },
        "2 1\na\n aline 2: false\nvar.starts_with(\"a\") = false\n  - var: b\nline 3: not UTF-8\n",
        Taken,
    )
    .expect(&rt, "memory")
}
