//! The program over what its process is given.
ghost use Rattle.std.specs.Prelude.{◌≡◌, ◌≢◌, ◌≤◌, IfOk};
ghost use Rattle.clap.specs.Values.{kind_of};
ghost use Rattle.vet_program.specs.declared.end.End.TheVariants.{Helped, Refused};
ghost use Rattle.vet_program.specs.declared.end.End.TheVariants.{Stopped, Ran};

use crate::command::command;
use crate::document::write_document;
use crate::end::End;
use crate::inputs::{Ended, run_files, run_stdin};
use crate::io_fault::IoFault;
use crate::merge::{merge, summary_text};
use crate::rule_file::RuleFile;
use crate::stdout::Stdout;
use crate::summary_form::SummaryForm;
use crate::tell::{tell, tell_clash, tell_file, tell_no_path, tell_totals, tell_words};
use crate::terminals::{Terminals, shows_colours};
use crate::wanted::{Wanted, wanted_of};
use crate::watched::Watched;
use crate::words::{read_words, untold};
use clap::ArgMatches;
use clap::error::ErrorKind;
use predicates_json::is_pointer;
use std::alloc::{AllocError, Global};
use std::fmt::Display;
use std::io::BufWriter;
use std::rt::{Clock, Env, Files};
use std::{fs, io};
use streams::Stderr;
use vet_checks::RuleCheck;
use vet_run::settings::Report;
use vet_run::{Job, ReadChecksError, RulesFault, Streams, Summary, Tally, read_checks};

// How much of the output is kept back.
const KEPT: usize = 8192;

// What is counted of the records.
fn tally_of(alloc: Global, rules: &[RuleCheck], wanted: &Wanted) -> Result<Tally, AllocError> {
    if let Report::JUnit = wanted.settings.report {
        Tally::with_blocks(alloc, rules, wanted.most)
    } else if wanted.summary.is_some() {
        Tally::of_rules(alloc, rules, wanted.most)
    } else {
        Ok(Tally::new(alloc, wanted.most))
    }
}

// Runs over the files, or over standard input where there is none.
fn run_inputs<'r, E: Files + Input + Print + Eprint + Clock + AllocGlobal>(
    watched: &Watched<'_, E>,
    files: Option<&[&'r str]>,
    job: &Job<'r>,
    kept: usize,
    tally: &mut Tally,
) -> io::Result<Ended> {
    let stdout = Stdout {
        rt: watched,
        error: None,
    };
    let mut outputs = Streams {
        output: BufWriter::with_capacity(watched.alloc(), kept, stdout)?,
        messages: Stderr { rt: watched },
    };
    match files {
        Some(names) => run_files(watched, names, job, tally, &mut outputs),
        None => run_stdin(watched, job, tally, &mut outputs),
    }
}

// Whether the totals are told: an object has them.
fn has_totals(summary: Option<SummaryForm>) -> bool {
    !matches!(summary, Some(SummaryForm::Json))
}

// Tells the counts, and how the program ends.
fn end<E: Eprint + AllocGlobal>(
    rt: &E,
    rules: &[RuleCheck],
    wanted: &Wanted,
    tally: &Tally,
    all_read: bool,
) -> io::Result<End>
    ensures { IfOk result (λ end. end ≡ Ran tally.now.counts all_read) }
{
    let counts = tally.counts;
    if let Some(form) = wanted.summary {
        let summary = Summary::of(rt.alloc(), rules, tally)?;
        let text = summary_text(rt.alloc(), form, &summary)?;
        eprint!(rt; "{text}")?;
    }
    if has_totals(wanted.summary) {
        tell_totals(rt, counts)?;
    }
    Ok(End::Ran { counts, all_read })
}

// Writes the document where one is asked for, and tells the counts.
fn finish<E: Print + Eprint + AllocGlobal>(
    rt: &E,
    file: RuleFile<'_>,
    wanted: &Wanted,
    tally: &Tally,
    all_read: bool,
) -> io::Result<End>
    ensures { IfOk result (λ end. end ≡ Ran tally.now.counts all_read) }
{
    let report = wanted.settings.report;
    if write_document(rt, report, file, tally, all_read)? {
        return end(rt, file.rules, wanted, tally, all_read);
    }
    Ok(End::Ran {
        counts: tally.counts,
        all_read,
    })
}

// Tells the fault that ended the run.
fn stop<E: Eprint, T: Display>(rt: &E, fault: &T) -> io::Result<End>
    ensures { IfOk result (λ end. end ≡ Stopped) }
{
    tell(rt, fault)?;
    Ok(End::Stopped)
}

// Runs by the rules of the file. Where nothing reads the output any more, nothing is told.
fn run_by<'r, E: Files + Input + Print + Eprint + Clock + AllocGlobal>(
    rt: &E,
    file: RuleFile<'r>,
    wanted: &'r Wanted,
    files: Option<&[&'r str]>,
) -> io::Result<End> {
    let mut tally = tally_of(rt.alloc(), file.rules, wanted)?;
    let mut job = Job::new(file.rules, &wanted.settings);
    job.format = wanted.input;
    let kept = if wanted.flush { 0 } else { KEPT };
    let watched = Watched::start(rt, wanted.progress, files);
    let ended = run_inputs(&watched, files, &job, kept, &mut tally);
    watched.erase();
    match ended? {
        Ended::Whole { all_read } => finish(rt, file, wanted, &tally, all_read),
        Ended::Closed { all_read } => Ok(End::Ran {
            counts: tally.counts,
            all_read,
        }),
        Ended::Unread(fault) => stop(rt, &fault),
        Ended::Early(fault) => stop(rt, &fault),
    }
}

// Tells why the file of rules is not read.
fn refuse_file<E: Eprint, T: Display>(rt: &E, path: &str, fault: &T) -> io::Result<End>
    ensures { IfOk result (λ end. end ≡ Refused) }
{
    tell_file(rt, path, fault)?;
    Ok(End::Refused)
}

// Tells why the rules of the file are not read.
fn refuse_rules<E: Eprint>(rt: &E, path: &str, error: &ReadChecksError) -> io::Result<End>
    ensures { IfOk result (λ end. end ≡ Refused) }
{
    let fault = RulesFault { path, error };
    eprint!(rt; "{fault}")?;
    Ok(End::Refused)
}

// Runs by the rules of the file at the path.
fn run_by_file<E: Files + Input + Print + Eprint + Clock + AllocGlobal>(
    rt: &E,
    path: &str,
    wanted: &Wanted,
    files: Option<&[&str]>,
) -> io::Result<End> {
    if let Some(name) = untold(path) {
        return refuse_file(rt, name, &"its name is not UTF-8");
    }
    let text = match fs::read(rt, path) {
        Ok(text) => text,
        Err(error) => return refuse_file(rt, path, &IoFault(&error)),
    };
    match read_checks(rt.alloc(), &text) {
        Ok(rules) => {
            if rules.is_empty() {
                tell_file(rt, path, &"no rules, so every record passes")?;
            }
            let file = RuleFile {
                path,
                rules: &rules,
            };
            run_by(rt, file, wanted, files)
        }
        Err(error) => refuse_rules(rt, path, &error),
    }
}

// Tells which flags can't stand together, in the order of the words: clap refuses all others.
fn refuse_flags<E: Eprint>(rt: &E, matches: &ArgMatches<'_>) -> io::Result<End>
    ensures { IfOk result (λ end. end ≡ Refused) }
{
    let (first, second) = if matches.index_of("all") < matches.index_of("failed") {
        ("all", "failed")
    } else {
        ("failed", "all")
    };
    tell_clash(rt, first, second)?;
    Ok(End::Refused)
}

// Tells that the path of the labels is none.
fn refuse_path<E: Eprint>(rt: &E, path: &str) -> io::Result<End>
    ensures { IfOk result (λ end. end ≡ Refused) }
{
    tell_no_path(rt, path)?;
    Ok(End::Refused)
}

// Adds up the summaries that the words name.
fn merge_as<E: Files + Print + Eprint + AllocGlobal>(
    rt: &E,
    matches: &ArgMatches<'_>,
) -> io::Result<End> {
    let form = SummaryForm::named(matches.get_str("summary")).unwrap_or(SummaryForm::Lines);
    let first = matches.get_str("RULES").unwrap_or("");
    merge(rt, form, first, matches.get_strs("FILES").unwrap_or(&[]))
}

// Runs as the words want it.
fn run_as<E: Env + Files + Input + Print + Eprint + Clock + AllocGlobal>(
    rt: &E,
    terminals: Terminals,
    matches: &ArgMatches<'_>,
) -> io::Result<End> {
    if matches.get_flag("merge") {
        return merge_as(rt, matches);
    }
    let shows_colours = shows_colours(rt, terminals);
    let Some(mut wanted) = wanted_of(rt.alloc(), matches, shows_colours)? else {
        return refuse_flags(rt, matches);
    };
    if let Some(path) = &wanted.settings.id {
        if !is_pointer(path) {
            return refuse_path(rt, untold(path).unwrap_or(path));
        }
    }
    wanted.progress = wanted.progress && terminals.error;
    let rules = matches.get_str("RULES").unwrap_or("");
    run_by_file(rt, rules, &wanted, matches.get_strs("FILES"))
}

// Prints the help or the version where the words ask for it, and else what is wrong with them.
fn end_of_words<E: Print + Eprint + AllocGlobal>(rt: &E, error: &clap::Error) -> io::Result<End>
    ensures helped { kind_of error.now ≡ ErrorKind.DisplayHelp → IfOk result (λ end. end ≡ Helped) }
    ensures version { kind_of error.now ≡ ErrorKind.DisplayVersion
        → IfOk result (λ end. end ≡ Helped) }
    ensures refused { kind_of error.now ≢ ErrorKind.DisplayHelp
        → kind_of error.now ≢ ErrorKind.DisplayVersion → IfOk result (λ end. end ≡ Refused) }
{
    if !error.use_stderr() {
        error.print(rt)?;
        return Ok(End::Helped);
    }
    tell_words(rt, error)?;
    Ok(End::Refused)
}

fn try_run<E: Env + Files + Input + Print + Eprint + Clock + AllocGlobal>(
    rt: &E,
    terminals: Terminals,
) -> io::Result<End> {
    let words = read_words(rt)?;
    let parsed = command(rt.alloc())?.try_get_matches_from(words.as_slice());
    match parsed {
        Ok(matches) => run_as(rt, terminals, &matches),
        Err(error) => end_of_words(rt, &error),
    }
}

/// Runs the program on the words, the files, the streams and the memory of a process, and answers
/// its status: 0 where every record keeps every rule, 1 where one breaks a rule, and 2 for wrong
/// words, rules that can't be read, lines that are not JSON, faults of reading and writing, and out
/// of memory, each told in a line on standard error. Where nothing reads standard output any more,
/// it ends without a line, with the status of the records before. Which outputs are terminals is
/// told by the caller: elsewhere `--progress` writes nothing, and blocks have no colours unless the
/// words ask for them. It takes memory as `run_records` does, and for the words and the rules.
///
/// ```
/// fn main(rt: HostRuntime) -> ExitCode {
///     let terminals = Terminals {
///         output: rt.stdout().is_terminal(),
///         error: rt.stderr().is_terminal(),
///     };
///     ExitCode::from(run_program(&rt, terminals))
/// }
/// ```
pub fn run_program<E: Env + Files + Input + Print + Eprint + Clock + AllocGlobal>(
    rt: &E,
    terminals: Terminals,
) -> u8
    ensures bound { result ≤ 2 }
{
    match try_run(rt, terminals) {
        Ok(end) => end.status(),
        Err(error) => {
            // Where this line can't be written either, the status alone tells.
            let _ = tell(rt, &IoFault(&error));
            End::Stopped.status()
        }
    }
}
