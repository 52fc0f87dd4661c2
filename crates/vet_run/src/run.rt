//! A run over the records of an input, one on a line.
ghost use Rattle.std.specs.Prelude.{◌≡◌, ℕ, List, IfOk, OnOk, OnErr, option_map, string_bytes};
ghost use Rattle.std.specs.Prelude.{cond, map, not, [], true, false, Some, None};
ghost use mathlib.Core.Bool.{beq};
ghost use Rattle.std.specs.Io.KnownBytes.{Appends};
ghost use Rattle.serde_json.specs.View.{view};
ghost use Rattle.vet_run.specs.Counting.{CountsOne, has_room, left_after, one_counted};
ghost use Rattle.vet_run.specs.FirstBlocks.{TakesFirsts, TakesOn, blocks_of};
ghost use Rattle.vet_run.specs.InputLines.{ended, is_blank, line_end, record_on};
ghost use Rattle.vet_run.specs.InputLines.{too_long_text};
ghost use Rattle.vet_run.specs.Judgements.{IsJudged, placed};
ghost use Rattle.vet_run.specs.Places.{place_text};
ghost use Rattle.vet_run.specs.Records.{keeps, IsReport, IsWritten};
ghost use Rattle.vet_run.specs.Runs.{HasRun, HasStopped, IsLineWritten, IsMessage};
ghost use Rattle.vet_run.specs.Runs.{IsMessageIf, TakesOne, is_told, message_text};
ghost use Rattle.vet_run.specs.Settings.{shows_all, source_of};

use crate::annotations::tell_errors;
use crate::first_blocks::take_firsts;
use crate::job::Job;
use crate::judgement::{Broken, asks_all, count_broken, is_none, judge};
use crate::line::{Line, Record, is_blank, read_record, too_long};
use crate::piece::next_piece;
use crate::place::place;
use crate::record::{write_broken, write_changes, write_json};
use crate::run_streams::Streams;
use crate::settings::Report;
use crate::tally::Tally;
use crate::workspace::Workspace;
use std::alloc::{AllocError, Global};
use std::io::{BufRead, Write};
use streams::{Position, RunFault, TakenLine, flush, write_bytes};

// Writes the line with where the line of this number stands, and why no record stands there.
fn message(alloc: Global, job: &Job<'_>, number: u64, reason: &str) -> Result<String, AllocError>
    ensures { IfOk result (λ text. string_bytes text
        ≡ message_text (place_text (source_of job.now) number) reason.now) }
{
    let place = place(alloc, job.source, number)?;
    format!(in alloc; "vet: {place}: {reason}\n")
}

// Tells why no record stands on the line, unless it is blank.
fn tell_problem<M: Write>(
    alloc: Global,
    job: &Job<'_>,
    line: &Line<'_>,
    reason: &str,
    messages: &mut M,
) -> Result<(), RunFault>
    ensures { OnOk result ((message : List ℕ)
        × IsMessageIf (not (is_blank line.now.bytes.now)) job.now line.now.number message
        × Appends (M.contents messages.old) (M.contents messages.new) message) }
{
    if is_blank(line.bytes) {
        return Ok(());
    }
    let message = message(alloc, job, line.number, reason)?;
    write_bytes(messages, message.as_bytes())
}

// What ends the line: a line feed where it has none.
fn line_end(line: &[u8]) -> &'static str
    ensures { result.now ≡ line_end line.now }
{
    if line.ends_with(b"\n") { "" } else { "\n" }
}

// Writes the line with its line feed.
fn write_line<W: Write>(output: &mut W, line: &[u8]) -> Result<(), RunFault>
    ensures { OnOk result
        (Appends (W.contents output.old) (W.contents output.new) (ended line.now)) }
{
    write_bytes(output, line)?;
    write_bytes(output, line_end(line).as_bytes())?;
    Ok(())
}

// Writes the line where it is as wanted whether the record on it keeps every rule.
fn tell_wanted<W: Write>(
    wanted: bool,
    held: bool,
    record: &Record<'_>,
    output: &mut W,
) -> Result<(), RunFault>
    ensures { OnOk result (Appends (W.contents output.old) (W.contents output.new)
        (cond (beq held wanted) (ended record.now.bytes.now) [])) }
{
    if held == wanted {
        write_line(output, record.bytes)?;
    }
    Ok(())
}

// Writes what is told of the record, which breaks these rules.
fn tell_record<W: Write>(
    job: &Job<'_>,
    workspace: &mut Workspace<'_>,
    broken: &[Broken<'_>],
    record: &Record<'_>,
    output: &mut W,
) -> Result<(), RunFault>
    requires { IsJudged (shows_all job.now.settings.now.report) job.now.rules.now
        (view record.now.value.now) (map placed broken.now) }
    ensures { OnOk result ((written : List ℕ)
        × IsReport job.now.settings.now.report job.now record.now.number record.now.bytes.now
        (view record.now.value.now) written
        × Appends (W.contents output.old) (W.contents output.new) written) }
{
    match job.settings.report {
        Report::First => write_broken(job, workspace, false, broken, record)?,
        Report::All => write_broken(job, workspace, true, broken, record)?,
        Report::Change => write_changes(job, workspace, broken, record)?,
        Report::Json { all, failed } => write_json(job, workspace, all, failed, broken, record)?,
        Report::GitHub { all } => {
            return tell_errors(workspace.alloc, job, all, broken, record, output);
        }
        Report::JUnit => return Ok(()),
        Report::Lines(wanted) => {
            tell_wanted(wanted, is_none(broken), record, output)?;
            return Ok(());
        }
    }
    write_bytes(output, workspace.text.as_bytes())
}

// The same where there is room for more, and nothing otherwise.
fn tell_in_room<W: Write>(
    job: &Job<'_>,
    workspace: &mut Workspace<'_>,
    room: bool,
    broken: &[Broken<'_>],
    record: &Record<'_>,
    output: &mut W,
) -> Result<(), RunFault>
    requires { room ≡ true → IsJudged (shows_all job.now.settings.now.report) job.now.rules.now
        (view record.now.value.now) (map placed broken.now) }
    ensures { OnOk result ((written : List ℕ)
        × IsWritten job.now room record.now.number record.now.bytes.now
        (view record.now.value.now) written
        × Appends (W.contents output.old) (W.contents output.new) written) }
{
    if room {
        return tell_record(job, workspace, broken, record, output);
    }
    Ok(())
}

// Counts which rules the record breaks, writes what is told of it, and says whether it keeps every
// rule.
fn take_record<'r, W: Write>(
    job: &Job<'r>,
    workspace: &mut Workspace<'r>,
    tally: &mut Tally,
    record: &Record<'_>,
    output: &mut W,
) -> Result<bool, RunFault>
    ensures written { IfOk result (λ _. (written : List ℕ)
        × IsWritten job.now (has_room tally.old.left) record.now.number record.now.bytes.now
        (view record.now.value.now) written
        × Appends (W.contents output.old) (W.contents output.new) written) }
    ensures held { IfOk result (λ held.
        held ≡ keeps job.now.rules.now (view record.now.value.now)) }
    ensures counts { tally.new.counts ≡ tally.old.counts }
    ensures broken { IfOk result (λ _. tally.new.broken.items
        ≡ one_counted job.now.rules.now (Some (view record.now.value.now)) tally.old.broken.items) }
    ensures firsts { IfOk result (λ _. TakesFirsts job.now record.now.number
        (view record.now.value.now) (blocks_of tally.old) (blocks_of tally.new)) }
    ensures left { IfOk result (λ _. tally.new.left
        ≡ left_after (is_told job.now (Some (view record.now.value.now))) tally.old.left) }
{
    let (alloc, room) = (workspace.alloc, tally.has_room());
    let whole = asks_all(job.settings.report, room, tally);
    let broken = judge(job.rules, workspace, whole, record.value)?;
    count_broken(&broken, &mut tally.broken)?;
    take_firsts(alloc, job, &broken, record, &mut tally.firsts)?;
    tell_in_room(job, workspace, room, &broken, record, output)?;
    let held = is_none(&broken);
    tally.take_room(job.settings.report.tells(held));
    Ok(held)
}

// Tells the record on the line, and says whether it keeps every rule; where something else stands
// there, a message says so.
fn tell_line<'r, W: Write, M: Write>(
    job: &Job<'r>,
    workspace: &mut Workspace<'r>,
    tally: &mut Tally,
    line: &Line<'_>,
    streams: &mut Streams<W, M>,
) -> Result<Option<bool>, RunFault>
    ensures written { IfOk result (λ _. (written : List ℕ)
        × IsLineWritten job.now (has_room tally.old.left) line.now.number line.now.bytes.now
        (record_on line.now.bytes.now) written
        × Appends (W.contents streams.old.output) (W.contents streams.new.output) written) }
    ensures message { IfOk result (λ _. (message : List ℕ)
        × IsMessage job.now line.now.number (Some line.now.bytes.now) message
        × Appends (M.contents streams.old.messages) (M.contents streams.new.messages) message) }
    ensures held { IfOk result (λ held.
        held ≡ option_map (keeps job.now.rules.now) (record_on line.now.bytes.now)) }
    ensures counts { tally.new.counts ≡ tally.old.counts }
    ensures broken { IfOk result (λ _. tally.new.broken.items
        ≡ one_counted job.now.rules.now (record_on line.now.bytes.now) tally.old.broken.items) }
    ensures firsts { IfOk result (λ _.
        TakesOn job.now line.now.number (record_on line.now.bytes.now)
        (blocks_of tally.old) (blocks_of tally.new)) }
    ensures left { IfOk result (λ _. tally.new.left
        ≡ left_after (is_told job.now (record_on line.now.bytes.now)) tally.old.left) }
{
    let Line { number, bytes } = *line;
    match read_record(workspace.alloc, bytes, &mut workspace.text)? {
        Some(value) => {
            let record = Record {
                number,
                bytes,
                value: &value,
            };
            let held = take_record(job, workspace, tally, &record, &mut streams.output)?;
            Ok(Some(held))
        }
        None => {
            let messages = &mut streams.messages;
            tell_problem(workspace.alloc, job, line, &workspace.text, messages)?;
            Ok(None)
        }
    }
}

// Takes the line: tells what stands on it, and counts it.
fn take_line<'r, W: Write, M: Write>(
    job: &Job<'r>,
    workspace: &mut Workspace<'r>,
    tally: &mut Tally,
    line: &Line<'_>,
    streams: &mut Streams<W, M>,
) -> Result<(), RunFault>
    ensures taken { OnOk result (TakesOne job.now line.now.number (Some line.now.bytes.now)
        (W.contents streams.old.output) (W.contents streams.new.output)
        (M.contents streams.old.messages) (M.contents streams.new.messages)
        tally.old tally.new) }
    ensures counts { OnErr result (tally.new.counts ≡ tally.old.counts) }
{
    let held = tell_line(job, workspace, tally, line, streams)?;
    tally.count(held, is_blank(line.bytes))
}

// Tells that the line of this number is longer than it may be.
fn tell_long_line<M: Write>(
    alloc: Global,
    job: &Job<'_>,
    number: u64,
    messages: &mut M,
) -> Result<(), RunFault>
    ensures { OnOk result (Appends (M.contents messages.old) (M.contents messages.new)
        (message_text (place_text (source_of job.now) number) (too_long_text job.now.max_line))) }
{
    let reason = too_long(alloc, job.max_line)?;
    let message = message(alloc, job, number, &reason)?;
    write_bytes(messages, message.as_bytes())
}

// Takes such a line: tells of it, and counts it.
fn take_long_line<M: Write>(
    alloc: Global,
    job: &Job<'_>,
    tally: &mut Tally,
    number: u64,
    messages: &mut M,
) -> Result<(), RunFault>
    ensures message { OnOk result (Appends (M.contents messages.old) (M.contents messages.new)
        (message_text (place_text (source_of job.now) number) (too_long_text job.now.max_line))) }
    ensures one { OnOk result (CountsOne None false tally.old.counts tally.new.counts) }
    ensures none { OnErr result (tally.new.counts ≡ tally.old.counts) }
    ensures broken { tally.new.broken ≡ tally.old.broken }
    ensures firsts { tally.new.firsts ≡ tally.old.firsts }
    ensures left { tally.new.left ≡ tally.old.left }
{
    tell_long_line(alloc, job, number, messages)?;
    tally.count(None, false)
}

/// Writes what is told of each record of the input, in order, and counts the lines beside those
/// that the tally has. A line on which no record stands, as it is not JSON, nests more than 127
/// deep or is longer than the job allows, is told by a message, and the run goes on. A blank line
/// is passed over. Where the tally counts for each rule, every rule is asked of every record, and
/// where it keeps blocks too, that of the first record that breaks each rule. Once as much is
/// written as the tally has room for, the records are only counted.
///
/// It takes memory for the longest line, for the record on it, for what is written of it, for a
/// matcher of each pattern of the rules and for a block of each rule where the tally keeps them,
/// and no more however long the input is. A rule for whose case memory is refused is told without
/// it, and the run goes on. After a fault the tally has the lines before it, and nothing is said of
/// how much was written.
///
/// ```
/// let rules = read_checks(alloc, b"adult: /age >= 18")?;
/// let settings = Settings::new(Report::First, None);
/// let job = Job::new(&rules, &settings);
/// let mut records: &[u8] = b"{\"age\": 30}\n{\"age\": 17}\n";
/// let mut streams = Streams {
///     output: Vec::new(alloc),
///     messages: Vec::new(alloc),
/// };
/// let mut tally = Tally::new(alloc, None);
/// run_records(alloc, &job, &mut tally, &mut records, &mut streams)?;
/// let counts = tally.counts;
/// assert!(rt; counts.records == 2 && counts.failed == 1 && counts.status() == 1);
/// let told = b"record 2: false\nadult = false\n  rule: /age >= 18 = false\n    - found: 17\n";
/// assert!(rt; streams.output.as_slice() == told.as_slice() && streams.messages.is_empty());
/// ```
pub fn run_records<R: BufRead, W: Write, M: Write>(
    alloc: Global,
    job: &Job<'_>,
    tally: &mut Tally,
    input: &mut R,
    streams: &mut Streams<W, M>,
) -> Result<(), RunFault>
    ensures run { OnOk result (HasRun job.now (R.remaining input.old) (R.remaining input.new)
        (W.contents streams.old.output) (W.contents streams.new.output)
        (M.contents streams.old.messages) (M.contents streams.new.messages)
        tally.old tally.new) }
    ensures stopped { OnErr result
        (HasStopped job.now (R.remaining input.old) tally.old tally.new) }
{
    let mut bytes = Vec::new(alloc);
    let mut position = Position::Outside;
    let mut workspace = Workspace::new(alloc, job.rules);
    for taken in 0..u64::MAX {
        let found = next_piece(input, job.format, &mut position, &mut bytes, job.max_line)?;
        let number = taken + 1;
        match found {
            TakenLine::Line => {
                let line = Line {
                    number,
                    bytes: &bytes,
                };
                take_line(job, &mut workspace, tally, &line, streams)?;
            }
            TakenLine::TooLong => {
                take_long_line(alloc, job, tally, number, &mut streams.messages)?;
            }
            TakenLine::End => {
                flush(&mut streams.output)?;
                return Ok(());
            }
        }
    }
    match next_piece(input, job.format, &mut position, &mut bytes, job.max_line)? {
        // More lines than can be counted.
        TakenLine::Line | TakenLine::TooLong => Err(RunFault::Input),
        TakenLine::End => {
            flush(&mut streams.output)?;
            Ok(())
        }
    }
}
