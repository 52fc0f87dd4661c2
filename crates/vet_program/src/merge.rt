//! Summaries of runs, added up.
ghost use Rattle.std.specs.Prelude.{◌≡◌, IfOk, string_bytes, true};
ghost use Rattle.vet_run.specs.Sums.{sum_of};
ghost use Rattle.vet_program.specs.Summaries.{IsShown};
ghost use Rattle.vet_program.specs.declared.end.End.TheVariants.{Ran};

use crate::document::write_whole;
use crate::end::End;
use crate::io_fault::IoFault;
use crate::summary_form::SummaryForm;
use crate::tell::{tell_file, tell_totals};
use crate::words::untold;
use std::alloc::{AllocError, Global};
use std::rt::Files;
use std::{fs, io};
use vet_run::Summary;

// What stands behind the faults, which the run told before the object.
fn behind_faults(text: &[u8]) -> &[u8] {
    let mut begin = 0_usize;
    for line in text.split_inclusive(|byte| *byte == b'\n') {
        if !line.starts_with(b"vet: ") {
            break;
        }
        begin = begin.saturating_add(line.len());
    }
    text.get(begin..).unwrap_or(&[])
}

// The summary in the file of this name, where `-` is standard input; of one that has none it is
// told why.
fn read_file<E: Files + Eprint + AllocGlobal>(rt: &E, name: &str) -> io::Result<Option<Summary>> {
    if let Some(name) = untold(name) {
        tell_file(rt, name, &"its name is not UTF-8")?;
        return Ok(None);
    }
    let path = if name == "-" { "/dev/stdin" } else { name };
    let text = match fs::read(rt, path) {
        Ok(text) => text,
        Err(error) => {
            tell_file(rt, name, &IoFault(&error))?;
            return Ok(None);
        }
    };
    match Summary::read(rt.alloc(), behind_faults(&text)) {
        Ok(summary) => Ok(Some(summary)),
        Err(error) => {
            tell_file(rt, name, &error)?;
            Ok(None)
        }
    }
}

// The sum over the files of these names; where there is none it is told why.
fn sum_over<E: Files + Eprint + AllocGlobal>(
    rt: &E,
    first: &str,
    others: &[&str],
) -> io::Result<Option<Summary>> {
    let Some(mut sum) = read_file(rt, first)? else {
        return Ok(None);
    };
    for name in others {
        let Some(summary) = read_file(rt, name)? else {
            return Ok(None);
        };
        match sum.plus(&summary) {
            Ok(more) => sum = more,
            Err(fault) => {
                tell_file(rt, name, &fault)?;
                return Ok(None);
            }
        }
    }
    Ok(Some(sum))
}

/// The counts of the rules in this form, each line with its line feed.
pub(crate) fn summary_text(
    alloc: Global,
    form: SummaryForm,
    summary: &Summary,
) -> Result<String, AllocError>
    ensures { IfOk result (λ text. IsShown form (sum_of summary.now) (string_bytes text)) }
{
    match form {
        SummaryForm::Lines => summary.lines(alloc),
        SummaryForm::Json => {
            let mut text = summary.to_json(alloc)?;
            text.push_str("\n")?;
            Ok(text)
        }
    }
}

// Prints the sum, and tells its totals beside lines.
fn print_sum<E: Print + Eprint + AllocGlobal>(
    rt: &E,
    form: SummaryForm,
    sum: &Summary,
) -> io::Result<End>
    ensures { IfOk result (λ end. end ≡ Ran sum.now.counts true) }
{
    let counts = sum.counts;
    let text = summary_text(rt.alloc(), form, sum)?;
    let is_read = write_whole(rt, text.as_bytes())?;
    if let SummaryForm::Lines = form {
        if is_read {
            tell_totals(rt, counts)?;
        }
    }
    Ok(End::Ran {
        counts,
        all_read: true,
    })
}

/// Adds up the summaries in the files of these names, and prints the sum.
pub(crate) fn merge<E: Files + Print + Eprint + AllocGlobal>(
    rt: &E,
    form: SummaryForm,
    first: &str,
    others: &[&str],
) -> io::Result<End> {
    match sum_over(rt, first, others)? {
        Some(sum) => print_sum(rt, form, &sum),
        None => Ok(End::Stopped),
    }
}
