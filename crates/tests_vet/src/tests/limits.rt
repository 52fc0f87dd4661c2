//! What is large, deep or seldom: long lines and rules, many rules, records that nest, and outputs
//! and inputs that are not as they mostly are.
mod colours;
mod hints;
mod labels;
mod lines;
mod nested_records;
mod nested_rules;
mod odd_process;
mod outputs;
mod rules;

use std::alloc::Global;
use std::process::Abort;
use tests_support::Process;
use vet_program::{Terminals, run_program};

// What opens a level, so often, then the innermost, and what closes a level, so often.
fn nested(
    rt: &impl Abort,
    alloc: Global,
    (opening, opened): (&str, usize),
    innermost: &str,
    (closing, closed): (&str, usize),
) -> String {
    let mut text = String::new(alloc);
    for _ in 0..opened {
        text.push_str(opening).expect(rt, "memory");
    }
    text.push_str(innermost).expect(rt, "memory");
    for _ in 0..closed {
        text.push_str(closing).expect(rt, "memory");
    }
    text
}

// The status, standard output and standard error.
fn told(process: Process<'_>) -> (u8, Vec<u8>, Vec<u8>) {
    let status = run_program(
        &process,
        Terminals {
            output: false,
            error: false,
        },
    );
    let (output, error) = process.into_written();
    (status, output, error)
}
