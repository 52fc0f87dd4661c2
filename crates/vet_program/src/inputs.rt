//! The inputs of a run, one after another.
ghost use Rattle.std.specs.Prelude.{◌≡◌, option_map};
ghost use Rattle.vet_program.specs.Sources.{source_by};

use crate::io_fault::IoFault;
use crate::metered::Metered;
use crate::stdout::Stdout;
use crate::stream_fault::StreamFault;
use crate::tell::tell_file;
use crate::watched::Watched;
use crate::words::untold;
use std::fs::File;
use std::io;
use std::io::{BufReader, BufWriter, ErrorKind, Read};
use std::rt::{Clock, Files};
use streams::Stderr;
use vet_run::settings::Report;
use vet_run::{Job, RunFault, Streams, Tally, run_records, take_mark};

/// How a run over inputs ended.
#[derive(Drop)]
pub(crate) enum Ended {
    /// With the last input. Whether all could be read: of one that could not it was told.
    Whole { all_read: bool },
    /// Where nothing reads the output any more, and whether all before could be read.
    Closed { all_read: bool },
    /// Where an input could not be read, which is to be told.
    Unread(StreamFault),
    /// With another fault, which is to be told.
    Early(StreamFault),
}

/// Standard output, which keeps what is written for a while, and standard error.
pub(crate) type Outputs<'w, 'a, E> = Streams<
    BufWriter<Stdout<'w, Watched<'a, E>>>,
    Stderr<'w, Watched<'a, E>>,
>;

// How a run ended whose output failed with this error, if a write did.
fn unwritten(error: Option<io::Error>) -> Ended {
    match error {
        Some(error) if error.kind() == ErrorKind::BrokenPipe => Ended::Closed { all_read: true },
        error => Ended::Early(StreamFault {
            fault: RunFault::Output,
            error,
        }),
    }
}

// Runs over one input, behind its byte order mark.
fn run_input<E: Print + Eprint + Clock + AllocGlobal, R: Read + Drop>(
    watched: &Watched<'_, E>,
    job: &Job<'_>,
    tally: &mut Tally,
    inner: R,
    outputs: &mut Outputs<'_, '_, E>,
) -> io::Result<Ended> {
    let alloc = watched.alloc();
    let metered = Metered {
        inner,
        watched,
        error: None,
    };
    let mut reader = BufReader::new(alloc, metered)?;
    let (ran, reader) = match take_mark(alloc, &mut reader) {
        Ok(front) => {
            let mut input = front.as_slice().chain(reader);
            let ran = run_records(alloc, job, tally, &mut input, outputs);
            let (_front, reader) = input.into_inner();
            (ran, reader)
        }
        Err(fault) => (Err(fault), reader),
    };
    match ran {
        Ok(()) => Ok(Ended::Whole { all_read: true }),
        Err(RunFault::Output) => Ok(unwritten(outputs.output.get_mut().error.take())),
        Err(fault @ RunFault::Input) => {
            let Metered { error, .. } = reader.into_inner();
            Ok(Ended::Unread(StreamFault { fault, error }))
        }
        Err(fault) => Ok(Ended::Early(StreamFault { fault, error: None })),
    }
}

/// Runs over standard input.
pub(crate) fn run_stdin<E: Input + Print + Eprint + Clock + AllocGlobal>(
    watched: &Watched<'_, E>,
    job: &Job<'_>,
    tally: &mut Tally,
    outputs: &mut Outputs<'_, '_, E>,
) -> io::Result<Ended> {
    run_input(watched, job, tally, watched.rt.reader(), outputs)
}

// Runs over the file of this name; of one that can't be opened, or whose name is no text, it is told
// why.
fn run_file<E: Files + Print + Eprint + Clock + AllocGlobal>(
    watched: &Watched<'_, E>,
    name: &str,
    job: &Job<'_>,
    tally: &mut Tally,
    outputs: &mut Outputs<'_, '_, E>,
) -> io::Result<Ended> {
    if let Some(name) = untold(name) {
        tell_file(watched, name, &"its name is not UTF-8")?;
        return Ok(Ended::Whole { all_read: false });
    }
    let file = match File::open(watched.rt, name) {
        Ok(file) => file,
        Err(error) if error.kind() == ErrorKind::OutOfMemory => return Err(error),
        Err(error) => {
            tell_file(watched, name, &IoFault(&error))?;
            return Ok(Ended::Whole { all_read: false });
        }
    };
    run_input(watched, job, tally, file, outputs)
}

// Runs over the input of this name; `-` is standard input. Of one that can't be read it is told.
fn run_named<E: Files + Input + Print + Eprint + Clock + AllocGlobal>(
    watched: &Watched<'_, E>,
    name: &str,
    job: &Job<'_>,
    tally: &mut Tally,
    outputs: &mut Outputs<'_, '_, E>,
) -> io::Result<Ended> {
    let ended = if name == "-" {
        run_stdin(watched, job, tally, outputs)?
    } else {
        run_file(watched, name, job, tally, outputs)?
    };
    match ended {
        Ended::Unread(fault) => {
            tell_file(watched, name, &fault)?;
            Ok(Ended::Whole { all_read: false })
        }
        ended => Ok(ended),
    }
}

// What an input of this name is called: nothing where it is the only one and standard input. In
// objects the only one has no name, so that those of pieces join to those of the whole.
fn source<'r>(report: Report, is_only: bool, name: &'r str) -> Option<&'r str>
    ensures { option_map (λ s. s.now) result ≡ source_by report is_only name.now }
{
    let is_called = match report {
        Report::Json { .. } => !is_only,
        _ => !is_only || name != "-",
    };
    if is_called { Some(name) } else { None }
}

/// Runs over the inputs of these names, at which records stand.
pub(crate) fn run_files<'r, E: Files + Input + Print + Eprint + Clock + AllocGlobal>(
    watched: &Watched<'_, E>,
    names: &[&'r str],
    job: &Job<'r>,
    tally: &mut Tally,
    outputs: &mut Outputs<'_, '_, E>,
) -> io::Result<Ended> {
    let mut all_read = true;
    for name in names {
        let job = Job {
            rules: job.rules,
            settings: job.settings,
            source: source(job.settings.report, names.len() == 1, *name),
            max_line: job.max_line,
            format: job.format,
        };
        match run_named(watched, name, &job, tally, outputs)? {
            Ended::Whole { all_read: is_read } => all_read = all_read && is_read,
            Ended::Closed { .. } => return Ok(Ended::Closed { all_read }),
            early => return Ok(early),
        }
    }
    Ok(Ended::Whole { all_read })
}
