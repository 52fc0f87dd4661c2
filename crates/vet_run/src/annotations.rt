//! What GitHub shows of one record.
ghost use Rattle.std.specs.Prelude.{◌≡◌, ◌++◌, ℕ, List, IfOk, OnOk, option_map, string_bytes};
ghost use Rattle.std.specs.Prelude.{flat_map, map};
ghost use Rattle.std.specs.Io.KnownBytes.{Appends};
ghost use Rattle.serde_json.specs.View.{view};
ghost use Rattle.vet_run.specs.GitHub.{file_of, opening};
ghost use Rattle.vet_run.specs.Judgements.{IsJudged, placed};
ghost use Rattle.vet_run.specs.Records.{IsErrors, error_of};
ghost use Rattle.vet_run.specs.Settings.{id_of, source_of};

use crate::github::{Position, push_error};
use crate::job::Job;
use crate::judgement::{Broken, shown};
use crate::line::Record;
use crate::place::head;
use crate::record::{Shown, cases_of};
use std::alloc::{AllocError, Global};
use std::io::Write;
use streams::{RunFault, write_bytes};

// The file of this name, where the input is one: `-` is standard input.
fn file_of(source: Option<&str>) -> Option<&str>
    ensures { option_map (λ s. s.now) result ≡ file_of (option_map (λ s. s.now) source.entry) }
{
    match source {
        Some("-") | None => None,
        Some(name) => Some(name),
    }
}

// What opens the message of each line of a record under this head.
fn opening(job: &Job<'_>, line: Option<u64>, head: String) -> Result<String, AllocError>
    ensures { IfOk result (λ text. string_bytes text
        ≡ opening (file_of (source_of job.now)) line (id_of job.now.settings.now)
        (string_bytes head)) }
{
    let mut text = head;
    if file_of(job.source).is_some() && line.is_some() && job.settings.id.is_none() {
        text.clear();
        return Ok(text);
    }
    text.push_str(": false\n")?;
    Ok(text)
}

// Writes the line of each case behind the others.
fn push_errors(
    alloc: Global,
    lines: &mut Vec<u8>,
    position: &Position<'_>,
    cases: &[Shown],
) -> Result<(), AllocError>
    ensures { OnOk result (lines.new.items ≡ lines.old.items
        ++ flat_map (error_of position.now.style.now (option_map (λ s. s.now) position.now.file)
        position.now.line position.now.opening.now) cases.now) }
{
    for shown in cases {
        push_error(alloc, lines, position, shown)?;
    }
    Ok(())
}

// Writes the lines of the rules that the record breaks, of all or of the first.
fn push_broken(
    alloc: Global,
    job: &Job<'_>,
    all: bool,
    broken: &[Broken<'_>],
    record: &Record<'_>,
    lines: &mut Vec<u8>,
) -> Result<(), AllocError>
    requires { IsJudged all job.now.rules.now (view record.now.value.now) (map placed broken.now) }
    ensures { OnOk result ((written : List ℕ)
        × IsErrors job.now all record.now.number (view record.now.value.now) written
        × (lines.new.items ≡ lines.old.items ++ written)) }
{
    let Record { number, value, .. } = *record;
    let cases = cases_of(alloc, shown(all, broken), value)?;
    let head = head(alloc, job, number, value)?;
    let line = job.format.line_of(number);
    let opening = opening(job, line, head)?;
    let position = Position {
        file: file_of(job.source),
        line,
        opening: &opening,
        style: &job.settings.style,
    };
    push_errors(alloc, lines, &position, cases.as_slice())?;
    Ok(())
}

/// Writes the lines of the rules that the record breaks, of all or of the first.
pub(crate) fn tell_errors<W: Write>(
    alloc: Global,
    job: &Job<'_>,
    all: bool,
    broken: &[Broken<'_>],
    record: &Record<'_>,
    output: &mut W,
) -> Result<(), RunFault>
    requires { IsJudged all job.now.rules.now (view record.now.value.now) (map placed broken.now) }
    ensures { OnOk result ((written : List ℕ)
        × IsErrors job.now all record.now.number (view record.now.value.now) written
        × Appends (W.contents output.old) (W.contents output.new) written) }
{
    let mut lines = Vec::new(alloc);
    push_broken(alloc, job, all, broken, record, &mut lines)?;
    write_bytes(output, lines.as_slice())
}
