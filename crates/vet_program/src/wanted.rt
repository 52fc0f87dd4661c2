//! What the words want of the program.
ghost use Rattle.std.specs.Prelude.{◌≡◌, IfOk, IfSome, codes, option_map, string_bytes};
ghost use Rattle.clap.specs.Matches.{found_of};
ghost use Rattle.vet_program.specs.Words.{IsNumber, label_of, pointer_of};
ghost use Rattle.vet_program.specs.Colours.{has_blocks, style_by};
ghost use Rattle.vet_program.specs.Wants.{IsWanted};

use crate::colours::Colours;
use crate::flags::Flags;
use crate::input_format::input_named;
use crate::summary_form::SummaryForm;
use clap::ArgMatches;
use predicates_style::Style;
use std::alloc::{AllocError, Global};
use vet_run::InputFormat;
use vet_run::settings::{Report, Settings};

/// What the words want of a run.
#[derive(Drop)]
pub(crate) struct Wanted {
    pub(crate) settings: Settings,
    /// How records stand in the inputs.
    pub(crate) input: InputFormat,
    /// How the records that break each rule are shown, where they are counted.
    pub(crate) summary: Option<SummaryForm>,
    /// Of how many records a run writes.
    pub(crate) most: Option<u64>,
    /// Whether it is shown on a terminal how far the run is.
    pub(crate) progress: bool,
    /// Whether what is written of a record is passed on at once.
    pub(crate) flush: bool,
}

// The path as JSON Pointer has it: `/` alone stands for the record itself.
fn pointer(alloc: Global, path: &str) -> Result<String, AllocError>
    ensures { IfOk result (λ pointer. string_bytes pointer ≡ pointer_of path.now) }
{
    if path == "/" {
        return Ok(String::new(alloc));
    }
    String::from_str(alloc, path)
}

// The path that labels a record, where one is given.
fn label_of(alloc: Global, matches: &ArgMatches<'_>) -> Result<Option<String>, AllocError>
    ensures { IfOk result (λ path.
        option_map string_bytes path ≡ label_of (found_of matches.now)) }
{
    match matches.get_str("id") {
        Some(path) => Ok(Some(pointer(alloc, path)?)),
        None => Ok(None),
    }
}

// Of how many records is written, where it is limited.
fn most_of(matches: &ArgMatches<'_>) -> Option<u64>
    ensures { IsNumber (found_of matches.now) (codes "max") result }
{
    matches.get_one::<u64>("max")
}

// How many parts of a node are shown, where the words say so.
fn parts_of(matches: &ArgMatches<'_>) -> Option<u64>
    ensures { IsNumber (found_of matches.now) (codes "parts") result }
{
    matches.get_one::<u64>("parts")
}

// Whether people read the report.
fn has_blocks(report: Report) -> bool
    ensures { result ≡ has_blocks report }
{
    matches!(report, Report::First | Report::All | Report::Change)
}

// How blocks are shown.
fn style_by(parts: Option<u64>, coloured: bool) -> Style
    ensures { result ≡ style_by parts coloured }
{
    Style {
        children: Some(parts.unwrap_or(1000) as usize),
        characters: Some(1000),
        escapes: true,
        colours: coloured,
    }
}

/// What the words want, or none where their flags can't stand together. Where they say nothing of
/// colours, blocks have them if the process can show them.
pub(crate) fn wanted_of(
    alloc: Global,
    matches: &ArgMatches<'_>,
    shows_colours: bool,
) -> Result<Option<Wanted>, AllocError>
    ensures { IfOk result (λ wanted. IfSome wanted
        (IsWanted shows_colours (found_of matches.now))) }
{
    let flags = Flags::of(matches);
    if flags.clash() {
        return Ok(None);
    }
    let id = label_of(alloc, matches)?;
    let report = flags.report();
    let colours = Colours::named(matches.get_str("color"));
    let coloured = has_blocks(report) && colours.are_shown(shows_colours);
    Ok(Some(Wanted {
        settings: Settings {
            report,
            id,
            style: style_by(parts_of(matches), coloured),
        },
        input: input_named(matches.get_str("input-format")),
        summary: SummaryForm::named(matches.get_str("summary")),
        most: most_of(matches),
        progress: matches.get_flag("progress"),
        flush: matches.get_flag("flush"),
    }))
}
