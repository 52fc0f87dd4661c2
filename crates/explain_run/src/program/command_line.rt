//! What the program does for the words of its command line.
ghost use Rattle.std.specs.Prelude.{◌≡◌, ◌↔◌, IsTrue};
ghost use Rattle.std.specs.Io.KnownBytes.{Appends};
ghost use Rattle.explain_run.specs.Exits.{exit_of_ran, message_of, EndsBy};
ghost use Rattle.explain_run.specs.CommandLine.{typed};

use super::exit::{Exit, exit_of};
use super::read::{read_bounds, read_check};
use crate::between::run_between;
use crate::text::run_text;
use std::alloc::Global;
use std::io::{BufRead, Write};
use streams::RunFault;

// How a run ended.
fn exit_of_run(ran: Result<bool, RunFault>) -> Exit
    ensures { result ≡ exit_of_ran ran }
{
    match ran {
        Ok(true) => Exit::AllItems,
        Ok(false) => Exit::NotAllItems,
        Err(fault) => exit_of(fault),
    }
}

fn is_name(word: &Vec<u8>, name: &str) -> bool
    ensures { IsTrue result ↔ (word.now.items ≡ name.now) }
{
    word.as_slice() == name.as_bytes()
}

// Answers the input, if the words ask for it.
fn run_words<R: BufRead, W: Write>(
    alloc: Global,
    words: &[Vec<u8>],
    input: &mut R,
    output: &mut W,
) -> Exit
    ensures { EndsBy (typed words.now) ((input.new ≡ input.old) × (output.new ≡ output.old))
        (R.remaining input.old) (R.remaining input.new)
        (W.contents output.old) (W.contents output.new) result }
{
    match words {
        [name, bounds @ ..] if is_name(name, "between") => match read_bounds(bounds) {
            Some((lo, hi)) => exit_of_run(run_between(alloc, lo, hi, input, output)),
            None => Exit::Usage,
        },
        [name, tokens @ ..] if is_name(name, "text") => match read_check(alloc, tokens) {
            Ok(check) => exit_of_run(run_text(alloc, &check, input, output)),
            Err(end) => end,
        },
        _ => Exit::Usage,
    }
}

/// Does what the words after the program's name ask for: answers the lines of the input on the
/// output, writes the message of its end to `messages`, and says how it ended and whether the
/// message was written whole.
///
/// A word that is no text is a wrong word. Wrong words, refused patterns and checks nested too deep
/// leave the input and the output untouched.
///
/// ```
/// // The words `between`, `5`, `10`, and an input of numbers.
/// let (end, told) = run_command_line(alloc, &words, &mut input, &mut output, &mut messages);
/// assert!(rt; end == Exit::AllItems && told);
/// ```
pub fn run_command_line<R: BufRead, W: Write, M: Write>(
    alloc: Global,
    words: &[Vec<u8>],
    input: &mut R,
    output: &mut W,
    messages: &mut M,
) -> (Exit, bool)
    ensures end { EndsBy (typed words.now) ((input.new ≡ input.old) × (output.new ≡ output.old))
        (R.remaining input.old) (R.remaining input.new)
        (W.contents output.old) (W.contents output.new) result.0 }
    ensures message { IsTrue result.1
        → Appends (M.contents messages.old) (M.contents messages.new) (message_of result.0) }
{
    let end = run_words(alloc, words, input, output);
    let message_written = end.report(messages);
    (end, message_written)
}
