//! The command line of `vet`.
use crate::colours::COLOURS;
use crate::format::FORMATS;
use crate::input_format::INPUT_FORMATS;
use crate::summary_form::SUMMARY_FORMS;
use crate::version::VERSION;
use clap::{Arg, ArgAction, Command, value_parser};
use std::alloc::{AllocError, Global};

// An argument, and what help says of it.
fn argument<'a>(alloc: Global, name: &'a str, help: &'a str, action: ArgAction) -> Arg<'a> {
    Arg::new(alloc, name).help(help).action(action)
}

// One that is written behind its name.
fn option<'a>(alloc: Global, name: &'a str, help: &'a str, action: ArgAction) -> Arg<'a> {
    argument(alloc, name, help, action).long(name)
}

fn flag<'a>(alloc: Global, name: &'a str, help: &'a str) -> Arg<'a> {
    option(alloc, name, help, ArgAction::SetTrue)
}

// One that can't stand with those that say how to explain.
fn unexplained<'a>(arg: Arg<'a>) -> Result<Arg<'a>, AllocError> {
    arg.conflicts_with("json")?.conflicts_with("all")
}

// That it can't stand with `--all`, but with `--json`, no rule of one argument says.
fn failed<'a>(alloc: Global) -> Result<Arg<'a>, AllocError> {
    let help = "Write the records that break a rule, as they\n\
                stand, or with --json their objects";
    flag(alloc, "failed", help).conflicts_with("passed")
}

fn passed<'a>(alloc: Global) -> Result<Arg<'a>, AllocError> {
    let help = "Write the records that keep every rule, as they\nstand";
    unexplained(flag(alloc, "passed", help))
}

fn all<'a>(alloc: Global) -> Arg<'a> {
    let help = "Explain every rule that a record breaks, not\njust the first";
    flag(alloc, "all", help)
}

fn change<'a>(alloc: Global) -> Result<Arg<'a>, AllocError> {
    let help = "Show what would have to change in each rule that\na record breaks";
    let change = unexplained(flag(alloc, "change", help))?;
    change.conflicts_with("failed")?.conflicts_with("passed")
}

fn json<'a>(alloc: Global) -> Arg<'a> {
    flag(alloc, "json", "Write one JSON object for each record")
}

// One that says what another program reads can't stand with those that choose another report.
fn format<'a>(alloc: Global) -> Result<Arg<'a>, AllocError> {
    let help = "Write what another program reads: lines for\n\
                `github`, or a document for `junit`\n";
    let format = option(alloc, "format", help, ArgAction::Set).value_name("FORMAT");
    let format = format.value_parser(FORMATS).conflicts_with("json")?;
    let format = format.conflicts_with("failed")?.conflicts_with("passed")?;
    format.conflicts_with("change")
}

fn id<'a>(alloc: Global) -> Arg<'a> {
    let help = "Label a record by its value at the path";
    option(alloc, "id", help, ArgAction::Set).value_name("PATH")
}

fn input_format<'a>(alloc: Global) -> Arg<'a> {
    let help = "How records stand: `jsonl`, one on a line, or\n\
                `json`, one behind another or in arrays; `jsonl`\n\
                where nothing is said\n";
    let format = option(alloc, "input-format", help, ArgAction::Set).value_name("FORMAT");
    format.value_parser(INPUT_FORMATS)
}

// One whose value stands behind `=`, so that no file behind it is taken for one.
fn summary<'a>(alloc: Global) -> Arg<'a> {
    let help = "Count the records that break each rule, and show\n\
                the counts at the end, as `lines`, or all counts\n\
                as one object of `json`\n";
    let summary = option(alloc, "summary", help, ArgAction::Set).value_name("FORM");
    let summary = summary.num_args(0..=1).require_equals(true);
    summary
        .default_missing_value("lines")
        .value_parser(SUMMARY_FORMS)
}

// One that can't stand with what a run over records is told.
fn without_run<'a>(arg: Arg<'a>) -> Result<Arg<'a>, AllocError> {
    let arg = unexplained(arg)?.conflicts_with("failed")?;
    let arg = arg.conflicts_with("passed")?.conflicts_with("change")?;
    let arg = arg.conflicts_with("format")?.conflicts_with("id")?;
    let arg = arg.conflicts_with("input-format")?.conflicts_with("max")?;
    let arg = arg.conflicts_with("parts")?.conflicts_with("color")?;
    arg.conflicts_with("progress")?.conflicts_with("flush")
}

fn merge<'a>(alloc: Global) -> Result<Arg<'a>, AllocError> {
    let help = "Add up the objects that `--summary=json` wrote of\n\
                runs by the same rules: RULES and FILES are the\n\
                files of these objects";
    without_run(flag(alloc, "merge", help))
}

fn parts<'a>(alloc: Global) -> Arg<'a> {
    let help = "Show of a rule or a part N parts at most, and how\n\
                many more there are; 1000 where nothing is said";
    let parts = option(alloc, "parts", help, ArgAction::Set).value_name("N");
    parts.value_parser(value_parser!(u64))
}

fn color<'a>(alloc: Global) -> Arg<'a> {
    let help = "Colour the verdicts of blocks: `auto`, on a\n\
                terminal, unless NO_COLOR is set or TERM is\n\
                `dumb`, `always` or `never`; `auto` where nothing\n\
                is said\n";
    let color = option(alloc, "color", help, ArgAction::Set).value_name("WHEN");
    color.value_parser(COLOURS)
}

fn most<'a>(alloc: Global) -> Arg<'a> {
    let help = "Write of N records at most; the others are only\n\
                counted. Without it there is no limit";
    let most = option(alloc, "max", help, ArgAction::Set).value_name("N");
    most.value_parser(value_parser!(u64))
}

fn progress<'a>(alloc: Global) -> Arg<'a> {
    let help = "Show on a terminal, on standard error, how many\n\
                lines are read, how fast, and of files the time\n\
                left";
    flag(alloc, "progress", help)
}

fn flush<'a>(alloc: Global) -> Arg<'a> {
    let help = "Write of each record at once, and not whenever a\nbuffer is full";
    flag(alloc, "flush", help)
}

fn rules<'a>(alloc: Global) -> Arg<'a> {
    let help = "The file of rules, one on a line as `adult: /age >= 18`";
    argument(alloc, "RULES", help, ArgAction::Set).required(true)
}

fn files<'a>(alloc: Global) -> Arg<'a> {
    let help = "The files of records, one on a line; `-` or none is standard\ninput";
    argument(alloc, "FILES", help, ArgAction::Append).num_args(0..)
}

// What the help ends with.
const MORE: &str = "\
Example:
  echo 'adult: /age >= 18' > rules
  echo '{\"age\": 17}' | vet rules

Status:
  0  every record keeps every rule
  1  a record breaks a rule
  2  wrong words, rules or a file that can't be read, an unreadable line, a
     fault of reading or writing, or no memory

docs/VET.md of the repository has the language of rules.";

/// What may be written behind `vet`.
pub(crate) fn command<'a>(alloc: Global) -> Result<Command<'a>, AllocError> {
    let about = "Checks records of JSON, one on a line, and says why they break a rule";
    let (failed, passed, change) = (failed(alloc)?, passed(alloc)?, change(alloc)?);
    let (format, merge) = (format(alloc)?, merge(alloc)?);
    Command::new(alloc, "vet")
        .about(about)
        .version(VERSION)
        .after_help(MORE)
        .arg(rules(alloc))?
        .arg(failed)?
        .arg(passed)?
        .arg(all(alloc))?
        .arg(change)?
        .arg(json(alloc))?
        .arg(format)?
        .arg(id(alloc))?
        .arg(input_format(alloc))?
        .arg(summary(alloc))?
        .arg(merge)?
        .arg(most(alloc))?
        .arg(parts(alloc))?
        .arg(color(alloc))?
        .arg(progress(alloc))?
        .arg(flush(alloc))?
        .arg(files(alloc))
}
