//! The pieces of an input, on each of which a record may stand.
ghost use Rattle.std.specs.Prelude.{◌≡◌, Some, None, Ok, OnOk};
ghost use Rattle.streams.specs.declared.taken_line.TakenLine.TheVariants.{Line, TooLong};
ghost use Rattle.streams.specs.declared.taken_line.TakenLine.TheVariants.{End};
ghost use Rattle.vet_run.specs.Pieces.{TakesPiece, IsOver, trimmed};
ghost use Rattle.vet_run.specs.declared.input_format.InputFormat.TheVariants.{Json};

use crate::input_format::InputFormat;
use crate::line::is_white;
use std::alloc::AllocError;
use std::io::BufRead;
use streams::{Position, RunFault, TakenLine, TakenRecord, next_line_within, next_record};

// Takes the white space at the end away.
fn trim_end(bytes: &mut Vec<u8>) -> Result<(), AllocError>
    ensures { OnOk result (bytes.new.items ≡ trimmed bytes.old.items) }
{
    while let Some(byte) = bytes.pop() {
        if !is_white(byte) {
            return Ok(bytes.push(byte)?);
        }
    }
    Ok(())
}

// Takes the next record, with a line feed in place of the white space behind it. For an array that
// the input does not close it gives a `[`, which is no record.
fn next_value<R: BufRead>(
    input: &mut R,
    position: &mut Position,
    bytes: &mut Vec<u8>,
    limit: u32,
) -> Result<TakenLine, RunFault>
    ensures piece { result ≡ Ok Line → TakesPiece Json limit (R.remaining input.old)
        (R.remaining input.new) position.old position.new (Some bytes.new.items) }
    ensures too_long { result ≡ Ok TooLong → TakesPiece Json limit (R.remaining input.old)
        (R.remaining input.new) position.old position.new None }
    ensures end { result ≡ Ok End → IsOver Json limit (R.remaining input.old)
        (R.remaining input.new) position.old }
{
    match next_record(input, position, bytes, limit)? {
        TakenRecord::Record => {
            trim_end(bytes)?;
            bytes.extend_from_slice(b"\n")?;
            Ok(TakenLine::Line)
        }
        TakenRecord::TooLong => Ok(TakenLine::TooLong),
        TakenRecord::Unclosed => {
            bytes.clear();
            bytes.extend_from_slice(b"[")?;
            Ok(TakenLine::Line)
        }
        TakenRecord::End => Ok(TakenLine::End),
    }
}

/// Takes the next piece: a line, or a record with a line feed in place of the white space behind
/// it.
pub(crate) fn next_piece<R: BufRead>(
    input: &mut R,
    format: InputFormat,
    position: &mut Position,
    bytes: &mut Vec<u8>,
    limit: u32,
) -> Result<TakenLine, RunFault>
    ensures piece { result ≡ Ok Line → TakesPiece format limit (R.remaining input.old)
        (R.remaining input.new) position.old position.new (Some bytes.new.items) }
    ensures too_long { result ≡ Ok TooLong → TakesPiece format limit (R.remaining input.old)
        (R.remaining input.new) position.old position.new None }
    ensures end { result ≡ Ok End → IsOver format limit (R.remaining input.old)
        (R.remaining input.new) position.old }
{
    match format {
        InputFormat::JsonLines => next_line_within(input, bytes, limit),
        InputFormat::Json => next_value(input, position, bytes, limit),
    }
}
