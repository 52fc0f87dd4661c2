//! The program over what its process is given.
ghost use Rattle.explain_run.specs.Exits.{IsStatus};

use super::command_line::run_command_line;
use super::exit::Exit;
use std::alloc::{AllocError, Global};
use std::env::FillError;
use std::io;
use std::io::{BufReader, BufWriter, Write};
use std::rt::Env;
use streams::Stderr;

// The word at the place, or `None` past the last one.
fn read_argument<E: Env>(
    alloc: Global,
    rt: &E,
    place: usize,
) -> Result<Option<Vec<u8>>, AllocError> {
    let mut room = 256usize;
    for _ in 0..usize::BITS {
        let mut word = Vec::new(alloc);
        word.resize(room, 0)?;
        match rt.arg(place, &mut word) {
            Ok(taken) => {
                word.truncate(taken);
                return Ok(Some(word));
            }
            Err(FillError::NotPresent) => return Ok(None),
            Err(FillError::TooLong) => room = room.saturating_add(room),
        }
    }
    Err(AllocError)
}

// The words after the program's name.
fn read_arguments<E: Env>(alloc: Global, rt: &E) -> Result<Vec<Vec<u8>>, AllocError> {
    let mut words = Vec::new(alloc);
    for place in 1..usize::MAX {
        match read_argument(alloc, rt, place)? {
            Some(word) => words.push(word)?,
            None => break,
        }
    }
    Ok(words)
}

// Does what the words ask for, or has no memory for the words and the buffers.
fn try_run<E: Env + Input + Print + AllocGlobal, M: Write>(
    rt: &E,
    messages: &mut M,
) -> io::Result<Exit> {
    let alloc = rt.alloc();
    let words = read_arguments(alloc, rt)?;
    let mut input = BufReader::new(alloc, rt.reader())?;
    let mut output = BufWriter::new(alloc, io::writer(rt))?;
    Ok(run_command_line(alloc, &words, &mut input, &mut output, messages).0)
}

/// Runs the program on the words, the streams and the memory of a process, and answers the
/// process's status: 0 where every line was an item, 1 where some was not, 2 for wrong words,
/// refused patterns and checks nested too deep, 3 where memory runs out and for faults of the
/// streams.
///
/// ```
/// fn main(rt: HostRuntime) -> ExitCode {
///     ExitCode::from(run_program(&rt))
/// }
/// ```
pub fn run_program<E: Env + Input + Print + Eprint + AllocGlobal>(rt: &E) -> u8
    ensures { IsStatus result }
{
    let mut messages = Stderr { rt };
    let end = match try_run(rt, &mut messages) {
        Ok(end) => end,
        Err(_) => {
            Exit::NoMemory.report(&mut messages);
            Exit::NoMemory
        }
    };
    end.status()
}
