//! Writes the lines of standard input that pass the check which the words name.
#![tactic(auto)]

use anyhow::Result;
use explain_run::{TextCheck, filter_lines, filter_with_reasons};
use std::env;
use std::io::{BufReader, BufWriter, Read, Write};
use std::process::ExitCode;
use std::rt::Env;

// Filters the input, and says how many lines passed. A first word `--why` asks for the reasons.
fn run<E: Env + AllocGlobal, R: Read + Drop, W: Write + Drop, M: Write + Drop>(
    rt: &E,
    input: R,
    output: W,
    messages: M,
) -> Result<u64> {
    let alloc = rt.alloc();
    let mut words: Vec<String> = env::args(rt)?.skip(1).collect(alloc)?;
    let tells = words.first().is_some_and(|word| word.as_str() == "--why");
    if tells {
        words.remove(0);
    }
    let check = TextCheck::from_words(alloc, &words)?;
    let mut input = BufReader::new(alloc, input)?;
    let mut output = BufWriter::new(alloc, output)?;
    let counts = if tells {
        let mut reasons = BufWriter::new(alloc, messages)?;
        filter_with_reasons(alloc, &check, true, &mut input, &mut output, &mut reasons)?
    } else {
        filter_lines(alloc, &check, true, &mut input, &mut output)?
    };
    Ok(counts.written)
}

fn main(rt: HostRuntime) -> Result<ExitCode> {
    match run(&rt, rt.stdin(), rt.stdout(), rt.stderr()) {
        Ok(0) => Ok(ExitCode::from(1)),
        Ok(_) => Ok(ExitCode::SUCCESS),
        Err(error) => {
            eprintln!(rt; "sieve: {error}")?;
            Ok(ExitCode::from(2))
        }
    }
}
